//! A queue as the lanes of the first centre.

ghost use Rattle.std.specs.Prelude.{true, [], ◌∷◌, ⊤};
ghost use Rattle.dnp_store.specs.QueueKept.{IsHonestQueue};

use crate::queue::Queue;
use dnp_eventbuf::{Lane, LaneRow, Lanes, Numbered, PairLanes, Rows, StoreFault, Upto};
use dnp_objects::Row;
use sqlite::Alter;
use std::alloc::Global;

/// The lanes for the first centre: those for the second are left as they were.
impl<S: Alter> Lanes for Queue<S> {
    ghost contents = { λ q. q.sides.first };

    ghost beside = { λ q. q.sides.second ∷ [] };

    ghost Place = { ⊤ };

    ghost place = { λ _. tt };

    ghost honest = { IsHonestQueue S.Store };

    ghost is_stopped = { λ q. q.stopped };

    ghost asks_memory = { true };

    ghost may_fault = { λ _. true };

    fn append(&mut self, alloc: Global, rows: &[LaneRow]) -> Result<Vec<Row>, StoreFault> {
        PairLanes::append(self, alloc, 0, rows)
    }

    fn offer(
        &mut self,
        alloc: Global,
        lane: Lane,
        after: u64,
        most: usize,
    ) -> Result<Vec<Numbered>, StoreFault> {
        PairLanes::offer(self, alloc, 0, lane, after, most)
    }

    fn offer_into(
        &mut self,
        alloc: Global,
        lane: Lane,
        after: u64,
        most: usize,
        rows: &mut Vec<Numbered>,
    ) -> Result<(), StoreFault> {
        PairLanes::offer_into(self, alloc, 0, lane, after, most, rows)
    }

    fn release(&mut self, alloc: Global, upto: &Upto) -> Result<Vec<Row>, StoreFault> {
        PairLanes::release(self, alloc, 0, upto)
    }

    fn release_into(
        &mut self,
        alloc: Global,
        upto: &Upto,
        taken: &mut Rows,
    ) -> Result<(), StoreFault> {
        PairLanes::release_into(self, alloc, 0, upto, taken)
    }

    fn empty(&mut self, alloc: Global) -> Result<Vec<Row>, StoreFault> {
        PairLanes::empty(self, alloc, 0)
    }

    fn len(&mut self, lane: Lane) -> u32 {
        PairLanes::len(self, 0, lane)
    }

    fn last(&mut self, lane: Lane) -> u64 {
        PairLanes::last(self, 0, lane)
    }

    fn lost(&mut self, lane: Lane) -> u64 {
        PairLanes::lost(self, 0, lane)
    }

    fn raised(&mut self) -> bool {
        PairLanes::raised(self, 0)
    }
}
