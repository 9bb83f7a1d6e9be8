//! How many rows wait, and how many may leave.

ghost use Rattle.std.specs.Prelude.{◌≡◌, ◌≤◌, ℕ, length};
ghost use Rattle.dnp_eventbuf.specs.EventBuffer.{rows_in};
ghost use Rattle.dnp_master.specs.Calls.{Taking};
ghost use Rattle.dnp_world.specs.MasterEnds.{AreFew};
ghost use Rattle.dnp_world.specs.Octets as read;

use crate::ends::MasterEnd;
use dnp_appfragment::laws::events_have_octets;
use dnp_eventbuf::Lanes;
use dnp_objects::{LANES, Lane};

/// How many rows wait in the lanes.
pub(crate) fn rows_waiting<L: Lanes>(lanes: &mut L) -> usize
    ensures same { lanes.new ≡ lanes.old }
    ensures count { L.honest lanes.new → result ≡ length (rows_in (L.contents lanes.new)) }
{
    let mut count = 0;
    for number in 0..LANES {
        if let Some(lane) = Lane::numbered(number) {
            count += lanes.len(lane) as usize;
        }
    }
    count
}

/// The most rows that the stores under a master's end may drop to either centre for a fragment that comes: by its length
/// alone, since each event has an octet after the first four.
pub(crate) fn most_dropped<E: MasterEnd>(end: &E, octets: &[u8]) -> usize
    ensures { (link : ℕ) (t : Taking) → length t.events ≤ length (read.rows_in octets.now)
        → AreFew (length t.events) (E.drops end.now link t) → AreFew result (E.drops end.now link t) }
{
    // (a law, for the proof: it does nothing)
    events_have_octets();
    if end.may_drop() {
        octets.len().saturating_sub(4)
    } else {
        0
    }
}
