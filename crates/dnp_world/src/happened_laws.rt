//! Laws of what happened at the substations of a system. Each function does nothing, and its contract is a law.

ghost use Rattle.std.specs.Prelude.{ℕ, List, [], All};
ghost use Rattle.dnp_concentrator.specs.declared.plan.Plan.{Plan};
ghost use Rattle.dnp_controls.specs.Book.{Ledger};
ghost use Rattle.dnp_eventbuf.specs.Archive.{Archive};
ghost use Rattle.dnp_eventbuf.specs.EventBuffer.{EventBuffer};
ghost use Rattle.dnp_objects.specs.Events.{IsEvent};
ghost use Rattle.dnp_objects.specs.declared.row.Row.{Row as RowValue};
ghost use Rattle.dnp_pointdb.specs.Database.{Database};
ghost use Rattle.dnp_world.specs.declared.link_event.LinkEvent.{LinkEvent};
ghost use Rattle.dnp_world.specs.Behind.{Elsewhere, rows_of};
ghost use Rattle.dnp_world.specs.FreshSystems.{fresh_system};
ghost use Rattle.dnp_world.specs.Happened.{HappenedAsEvents};
ghost use Rattle.dnp_world.specs.Joined.{rows_made_by};
ghost use Rattle.dnp_world.specs.Kept.{report_of};
ghost use Rattle.dnp_world.specs.Reports.{IsFate, happened};
ghost use Rattle.dnp_world.specs.Stations.{HasSameCounts, of_substation};
ghost use Rattle.dnp_world.specs.SystemStanding.{IsStanding, Keeps};
ghost use Rattle.dnp_world.specs.Systems.{System};

use crate::laws::link_law;
use dnp_objects::laws::{covered_is_by_counts, equality_is_decided};
use dnp_objects::{Command, Row};
use dnp_pointdb::laws::a_change_makes_what_its_lane_takes;

/// What happened at a substation is what ever stood in its lanes, as the link of the law behind it has it.
pub fn what_happened_is_what_stood()
    ensures { (s : System) (el : Elsewhere) (h : IsStanding el s) (substation : ℕ)
        → HasSameCounts (rows_of (h.links.below substation).stood) (of_substation substation (happened (report_of s))) }
{
    link_law();
    equality_is_decided::<u64, Row>();
    equality_is_decided::<u64, Command>();
    covered_is_by_counts::<(u64, Row)>();
    covered_is_by_counts::<(u64, Command)>();
}

/// What happened can be reported: in a new system nothing has happened, changes of points make rows that can be written as
/// events, whatever points they are of, and an event that adds such rows, or none, to what happened keeps it so.
pub fn what_happened_can_be_reported()
    ensures at_first { (plan : Plan) (centre : ℕ) (queue : EventBuffer) (journal : Archive) (controls orders : Ledger)
        → HappenedAsEvents (fresh_system plan centre queue journal controls orders) }
    ensures made { (points : Database) (events : List LinkEvent) → All IsEvent (rows_made_by points events) }
    ensures goes_on { (old new : System) (came : ℕ → List RowValue) → HappenedAsEvents old → ((substation : ℕ) → All IsEvent (came substation))
        → IsFate came (report_of old) (report_of new) → HappenedAsEvents new }
    ensures kept { (old new : System) (el : Elsewhere) (substation : ℕ) → HappenedAsEvents old → Keeps el substation [] old new → HappenedAsEvents new }
    ensures read { (old new : System) (el : Elsewhere) (substation : ℕ) (points : Database) (events : List LinkEvent) → HappenedAsEvents old
        → Keeps el substation (rows_made_by points events) old new → HappenedAsEvents new }
{
    equality_is_decided::<u64, Row>();
    a_change_makes_what_its_lane_takes();
}
