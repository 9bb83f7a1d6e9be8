//! Lanes in memory that are put together again from what was stored of them.

ghost use Rattle.std.specs.Prelude.{◌≡◌, ◌<◌, ◌≤◌, false, IsTrue};
ghost use Rattle.dnp_eventbuf.specs.FitsLane.{FitsLane};
ghost use Rattle.dnp_eventbuf.specs.Restored.{with_lost, with_marks, with_old_row, fits_behind};

use crate::numbered::Numbered;
use crate::plain::PlainLanes;
use dnp_objects::{LANES, LaneRow, MAX_ID};

impl PlainLanes {
    /// Notes how many rows the lane of this number dropped, at most `MAX_ID`.
    pub fn restore_lost(&mut self, number: usize, lost: u64)
        requires number { number < LANES }
        requires lost { lost ≤ MAX_ID }
        ensures { self.new ≡ with_lost self.old number lost }
    {
        let lane = &mut self.lanes[number];
        lane.one.restore_lost(lost);
    }

    /// Notes whether the overflow stood, and the last id used, of all lanes: at least the one noted so
    /// far, and at most `MAX_ID`.
    pub fn restore_marks(&mut self, overflow: bool, last_id: u64)
        requires later { self.old.last_id ≤ last_id }
        requires last { last_id ≤ MAX_ID }
        ensures { self.new ≡ with_marks self.old overflow last_id }
    {
        self.overflow = overflow;
        self.last_id = last_id;
    }

    /// Puts a row back after the others of its lane, under the id that it had: whether it fits there.
    /// There has to be room for it, and its id has to be above theirs and at most the last one used.
    pub fn restore_row(&mut self, id: u64, x: LaneRow) -> bool
        requires { FitsLane x }
        ensures value { result ≡ fits_behind self.old id x }
        ensures put { IsTrue result → self.new ≡ with_old_row self.old id x }
        ensures same { result ≡ false → self.new ≡ self.old }
    {
        let last_id = self.last_id;
        let lane = &mut self.lanes[x.lane.number()];
        if !lane.one.takes(id) || last_id < id {
            return false;
        }
        lane.one.push(Numbered { id, row: x.row });
        true
    }
}
