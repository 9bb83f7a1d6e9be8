//! What an append does to the room and the counts of the lanes, before it changes anything.

ghost use Rattle.std.specs.Prelude.{◌≡◌};
ghost use Rattle.dnp_eventbuf.specs.steps.Tallies.{drops_from};

use dnp_objects::{LANES, LaneRow, MAX_ID};

/// What an append changes of a lane: the places that are free, and the rows that it has dropped.
#[derive(Clone, Copy)]
pub struct Tally {
    /// The places that are free.
    pub free: usize,
    /// The rows that it has dropped, at most `MAX_ID`.
    pub lost: u64,
}

/// How many rows the lanes drop for these, or `None` where a count of lost rows would pass the limit.
pub fn drops(tallies: &mut [Tally; LANES], rows: &[LaneRow]) -> Option<usize>
    ensures { result ≡ drops_from 0 tallies.old rows.now }
{
    let mut dropped = 0;
    for x in rows {
        let tally = &mut tallies[x.lane.number()];
        if tally.free > 0 {
            tally.free -= 1;
        } else if tally.lost < MAX_ID {
            tally.lost += 1;
            dropped += 1;
        } else {
            return None;
        }
    }
    Some(dropped)
}
