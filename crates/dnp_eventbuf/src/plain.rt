//! Lanes in memory.

ghost use Rattle.std.specs.Prelude.{◌≡◌, ◌^◌, ◌<◌, ◌≤◌, ◌+◌, ◌-◌, slice_get, option_map, length, ◌++◌, IfOk, All};
ghost use Rattle.std.specs.List.{list_any};
ghost use Rattle.dnp_eventbuf.specs.Latest.{numbered_for};
ghost use Rattle.dnp_eventbuf.specs.Sound.{IsSoundBuffer};
ghost use Rattle.dnp_eventbuf.specs.EventBuffer.{lane_at, empty_buffer, is_full, lanes_above, without};

use crate::arriving::{count_for, id_for};
use crate::lane_of::LaneOf;
use crate::nine::NineLanes;
use crate::numbered::Upto;
use crate::one_lane::OneLane;
use crate::plain_lane::PlainLane;
use dnp_objects::{LANES, LaneRow, MAX_ID};
use std::alloc::{AllocError, Global};

/// The most rows that a lane in memory takes.
pub const MAX_CAPACITY: u32 = 4096;

/// Nine lanes in memory, which take their room as they are made.
pub type PlainLanes = NineLanes<PlainLane>;

impl PlainLanes {
    /// Empty lanes that take this many rows each, 1 to `MAX_CAPACITY`. An error says that it ran out of
    /// memory.
    pub fn new(alloc: Global, capacities: [u32; LANES]) -> Result<PlainLanes, AllocError>
        requires { All (λ capacity. (1 ≤ capacity) × (capacity ≤ MAX_CAPACITY)) capacities }
        ensures { IfOk result (λ lanes. lanes ≡ empty_buffer capacities) }
    {
        let lanes = capacities.try_map(|capacity| LaneOf::<PlainLane>::new(alloc, capacity))?;
        Ok(NineLanes {
            lanes,
            overflow: false,
            last_id: 0,
        })
    }

    /// How many rows the lane of this number would drop for these.
    pub fn drops_in(&self, number: usize, rows: &[LaneRow]) -> usize
        requires number { number < LANES }
        requires few { length rows.now ≤ 2 ^ 62 }
        ensures { result ≡ (length (lane_at self.now number).rows + length (numbered_for number self.now.last_id rows.now)) - (lane_at self.now number).capacity }
    {
        let lane = &self.lanes[number];
        lane.one.over(count_for(number, rows))
    }

    /// The id of the row at this place among those of the lane of this number and, after them, these
    /// that would come for it, if there are so many.
    pub fn id_at(&self, number: usize, rows: &[LaneRow], place: usize) -> Option<u64>
        requires number { number < LANES }
        requires few { self.now.last_id + length rows.now ≤ 2 ^ 62 }
        ensures { result ≡ option_map (λ x. x.id) (slice_get ((lane_at self.now number).rows ++ numbered_for number self.now.last_id rows.now) place) }
    {
        let lane = &self.lanes[number];
        let len = lane.len() as usize;
        if place < len {
            lane.one.id_at(place)
        } else {
            id_for(number, self.last_id, rows, place - len)
        }
    }

    /// How many rows the lane of this number has dropped.
    pub fn lost_in(&self, number: usize) -> u64
        requires { number < LANES }
        ensures { result ≡ (lane_at self.now number).lost }
    {
        self.lanes[number].lost()
    }

    /// The last id used, of all lanes; 0 before the first.
    pub fn last_id(&self) -> u64
        ensures sound { IsSoundBuffer self.now }
        ensures value { result ≡ self.now.last_id }
    {
        prove!(self.last_id <= MAX_ID);
        self.last_id
    }

    /// Whether a row was dropped, and some lane has been full since.
    pub fn has_overflow(&self) -> bool
        ensures { result ≡ self.now.overflow }
    {
        self.overflow
    }

    /// Whether the overflow stands after a release.
    pub fn keeps_overflow(&self, upto: &Upto) -> bool
        ensures { result ≡ (without self.now upto.now).overflow }
    {
        self.overflow && any_full_above(&self.lanes, upto)
    }
}

/// Whether some lane is full without its rows with ids up to its number.
fn any_full_above(lanes: &[LaneOf<PlainLane>; LANES], upto: &Upto) -> bool
    ensures { result ≡ list_any is_full (lanes_above lanes.now upto.now) }
{
    for k in 0..LANES {
        let lane = &lanes[k];
        if lane.one.is_full_above(upto[k]) {
            return true;
        }
    }
    false
}
