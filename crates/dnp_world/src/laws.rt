//! Laws of the words of `specs/`: each function does nothing, and its contract is a law.
//!
//! They are of every link, and rest on laws of the crates below, which they call.

ghost use Rattle.std.specs.Prelude.{◌≡◌, ℕ, List, [], ◌∷◌, ◌++◌, length, map, All, Contains};
ghost use Rattle.std.specs.List.Sorted.{IsPermutation};
ghost use Rattle.dnp_objects.specs.Counts.{IsCoveredBy};
ghost use Rattle.dnp_objects.specs.declared.lane.LaneRow.{LaneRow};
ghost use Rattle.dnp_eventbuf.specs.Buffered.{buffered_row};
ghost use Rattle.dnp_eventbuf.specs.Sound.{IsSoundBuffer};
ghost use Rattle.dnp_eventbuf.specs.EventBuffer.{EventBuffer, with_rows, without, without_all, all_up_to};
ghost use Rattle.dnp_world.specs.Lanes.{HasLanes, fresh_link, lane_appended, lanes_emptied};
ghost use Rattle.dnp_world.specs.LawLink.{LawLink};
ghost use Rattle.dnp_world.specs.Moves.{Move, Moves, released};
ghost use Rattle.dnp_world.specs.Round.{Round};
ghost use Rattle.dnp_world.specs.Standing.{CarriesLaw, IsFresh};
ghost use Rattle.dnp_transport.specs.Cuts.{cut_count};
ghost use Rattle.dnp_transport.specs.declared.limits.TheConstants.{MAX_FRAGMENT};
ghost use Rattle.dnp_world.specs.declared.parts.report.TheConstants as report;
ghost use Rattle.dnp_world.specs.declared.sending.TheConstants as sending;

use dnp_eventbuf::link_laws::{a_release_is_by_ids, an_append_is_of_one_row, each_row_stands_once};
use dnp_objects::Row;
use dnp_objects::laws::{covered_is_kept_by_map, members_are_covered};

/// The law of a link, over all its connections: the events that confirms released are covered by those that the
/// master's sink took, each of these stood in the lanes, and no command was performed more often than it was asked for.
///
/// What carries it, `CarriesLaw`, holds before the first opening, with any lanes, and each move keeps it; so the law goes
/// on from any moment, also where the moves of several links are mixed.
pub fn link_law()
    ensures start { (l : LawLink) → IsFresh l → CarriesLaw l }
    ensures kept { (old new : LawLink) → Move old new → CarriesLaw old → CarriesLaw new }
    ensures goes_on { (old new : LawLink) → Moves old new → CarriesLaw old → CarriesLaw new }
    ensures covered { (l : LawLink) → CarriesLaw l → IsCoveredBy (map buffered_row l.released) (map buffered_row l.took) }
    ensures stood { (l : LawLink) → CarriesLaw l →
        All (Contains (map buffered_row (l.lanes ++ (l.released ++ l.left)))) (map buffered_row l.took) }
    ensures whole { (l : LawLink) → CarriesLaw l → IsPermutation l.stood (l.lanes ++ (l.released ++ l.left)) }
    ensures performed { (l : LawLink) → CarriesLaw l → IsCoveredBy l.performed l.asked }
    ensures runs { (old new : LawLink) → IsFresh old → Moves old new →
        IsCoveredBy (map buffered_row new.released) (map buffered_row new.took) }
{
    members_are_covered::<(u64, u64, Row)>();
    covered_is_kept_by_map::<(u64, u64, Row), Row>();
}

/// What the calls of lanes are to a link: an append of a row and an emptying are moves, a release is what a confirm
/// does, and sound lanes are those of a fresh link.
pub fn lanes_are_moved()
    ensures fresh { (s : EventBuffer) → IsSoundBuffer s → IsFresh (fresh_link s) × HasLanes s (fresh_link s) }
    ensures appended { (s : EventBuffer) (x : LaneRow) (l : LawLink) → IsSoundBuffer s → HasLanes s l →
        Moves l (lane_appended s x l) × HasLanes (with_rows s (x ∷ [])) (lane_appended s x l) }
    ensures emptied { (s : EventBuffer) (l : LawLink) → HasLanes s l →
        Move l (lanes_emptied s l) × HasLanes (without_all s) (lanes_emptied s l) }
    ensures released { (s : EventBuffer) (upto : List ℕ) (l : LawLink) → length upto ≡ length s.lanes → HasLanes s l →
        HasLanes (without s upto) (released upto l) }
    ensures given { (s : EventBuffer) (upto : List ℕ) (l : LawLink) → length upto ≡ length s.lanes → HasLanes s l →
        map buffered_row (released upto l).released ≡ map buffered_row l.released ++ all_up_to s upto }
{
    a_release_is_by_ids();
    an_append_is_of_one_row();
    each_row_stands_once();
}

/// The moves can be made: from a fresh link an event comes, is polled, taken, confirmed and released, and a direct
/// operate is asked for and performed, with the very octets that go over the line.
pub fn a_link_can_move()
    ensures { Round }
{}

/// A fragment of the most octets goes in so many units, and a report numbers so many substations.
pub fn limits_have_their_values()
    ensures units { sending.FRAGMENT_UNITS ≡ 9 }
    ensures longest { cut_count MAX_FRAGMENT ≡ sending.FRAGMENT_UNITS }
    ensures substations { report.NUMBERS ≡ 256 }
{}
