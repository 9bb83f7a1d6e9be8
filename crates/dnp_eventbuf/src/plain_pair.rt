//! Lanes for two centres in memory.

ghost use Rattle.std.specs.Prelude.{◌≡◌, ◌≤◌, IfOk, All};
ghost use Rattle.dnp_eventbuf.specs.Sides.{side_of};
ghost use Rattle.dnp_eventbuf.specs.EventBuffer.{empty_buffer};

use crate::lanes::Lanes;
use crate::nine::memory;
use crate::numbered::{Numbered, Upto};
use crate::of_side;
use crate::pair::PairLanes;
use crate::plain::{MAX_CAPACITY, PlainLanes};
use crate::rows::Rows;
use dnp_objects::{LANES, Lane, LaneRow, Row, StoreFault};
use std::alloc::{AllocError, Global};

/// Nine lanes in memory for each of two centres.
#[derive(Drop)]
pub struct PlainPair {
    first: PlainLanes,
    second: PlainLanes,
}

impl PlainPair {
    /// Empty lanes that take this many rows each, 1 to `MAX_CAPACITY`: those for the first centre, and those for the
    /// second. An error says that it ran out of memory.
    pub fn new(
        alloc: Global,
        first: [u32; LANES],
        second: [u32; LANES],
    ) -> Result<PlainPair, AllocError>
        requires first { All (λ capacity. (1 ≤ capacity) × (capacity ≤ MAX_CAPACITY)) first }
        requires second { All (λ capacity. (1 ≤ capacity) × (capacity ≤ MAX_CAPACITY)) second }
        ensures first { IfOk result (λ pair. side_of pair 0 ≡ empty_buffer first) }
        ensures second { IfOk result (λ pair. side_of pair 1 ≡ empty_buffer second) }
    {
        Ok(PlainPair {
            first: PlainLanes::new(alloc, first)?,
            second: PlainLanes::new(alloc, second)?,
        })
    }
}

impl PairLanes for PlainPair {
    ghost use Rattle.std.specs.Prelude.{false, ⊤};
    ghost use Rattle.dnp_eventbuf.specs.Calls.{without_device};
    ghost use Rattle.dnp_eventbuf.specs.Sides.{side_of};

    ghost contents = { side_of };

    ghost honest = { λ _. ⊤ };

    ghost is_stopped = { λ _. false };

    ghost asks_memory = { false };

    ghost may_fault = { without_device };

    fn append_both(
        &mut self,
        alloc: Global,
        rows: &[LaneRow],
    ) -> Result<(Vec<Row>, Vec<Row>), StoreFault> {
        let first = self.first.drops(rows);
        let second = self.second.drops(rows);
        let first = first.ok_or(StoreFault::Exhausted)?;
        let second = second.ok_or(StoreFault::Exhausted)?;
        let mut dropped = Vec::with_capacity(alloc, first).map_err(memory)?;
        let mut others = Vec::with_capacity(alloc, second).map_err(memory)?;
        self.first.put_all(rows, &mut dropped);
        self.second.put_all(rows, &mut others);
        Ok((dropped, others))
    }

    fn append(
        &mut self,
        alloc: Global,
        centre: u8,
        rows: &[LaneRow],
    ) -> Result<Vec<Row>, StoreFault> {
        if centre == 0 {
            self.first.append(alloc, rows)
        } else {
            self.second.append(alloc, rows)
        }
    }

    fn offer(
        &mut self,
        alloc: Global,
        centre: u8,
        lane: Lane,
        after: u64,
        most: usize,
    ) -> Result<Vec<Numbered>, StoreFault> {
        of_side!(self, centre, offer(alloc, lane, after, most))
    }

    fn offer_into(
        &mut self,
        alloc: Global,
        centre: u8,
        lane: Lane,
        after: u64,
        most: usize,
        rows: &mut Vec<Numbered>,
    ) -> Result<(), StoreFault> {
        if centre == 0 {
            self.first.offer_into(alloc, lane, after, most, rows)
        } else {
            self.second.offer_into(alloc, lane, after, most, rows)
        }
    }

    fn release(&mut self, alloc: Global, centre: u8, upto: &Upto) -> Result<Vec<Row>, StoreFault> {
        if centre == 0 {
            self.first.release(alloc, upto)
        } else {
            self.second.release(alloc, upto)
        }
    }

    fn release_into(
        &mut self,
        alloc: Global,
        centre: u8,
        upto: &Upto,
        taken: &mut Rows,
    ) -> Result<(), StoreFault> {
        if centre == 0 {
            self.first.release_into(alloc, upto, taken)
        } else {
            self.second.release_into(alloc, upto, taken)
        }
    }

    fn empty(&mut self, alloc: Global, centre: u8) -> Result<Vec<Row>, StoreFault> {
        if centre == 0 {
            self.first.empty(alloc)
        } else {
            self.second.empty(alloc)
        }
    }

    fn len(&mut self, centre: u8, lane: Lane) -> u32 {
        of_side!(self, centre, len(lane))
    }

    fn last(&mut self, centre: u8, lane: Lane) -> u64 {
        of_side!(self, centre, last(lane))
    }

    fn lost(&mut self, centre: u8, lane: Lane) -> u64 {
        of_side!(self, centre, lost(lane))
    }

    fn raised(&mut self, centre: u8) -> bool {
        of_side!(self, centre, raised())
    }
}
