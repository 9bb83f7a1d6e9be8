//! Laws of what the plan of a system says of its substations. Each function does nothing, and its contract is a law.

ghost use Rattle.std.specs.Prelude.{◌≡◌, ◌<◌, ℕ, All, Some, true, [], ◌∷◌, length, slice_get};
ghost use Rattle.dnp_concentrator.specs.Plan.{KeepsLimits};
ghost use Rattle.dnp_concentrator.specs.declared.plan.Plan.{Plan};
ghost use Rattle.dnp_controls.specs.Book.{Ledger};
ghost use Rattle.dnp_eventbuf.specs.Archive.{Archive};
ghost use Rattle.dnp_eventbuf.specs.EventBuffer.{EventBuffer, rows_in};
ghost use Rattle.dnp_master.specs.Rows.{is_reported};
ghost use Rattle.dnp_objects.specs.declared.row.Kind.{Kind};
ghost use Rattle.dnp_pointdb.specs.declared.reading.Reading.{Reading};
ghost use Rattle.dnp_world.specs.Behind.{Elsewhere};
ghost use Rattle.dnp_world.specs.declared.event.Event.{Event};
ghost use Rattle.dnp_world.specs.declared.event.Event.TheVariants as happening;
ghost use Rattle.dnp_world.specs.declared.link_event.LinkEvent.TheVariants as event;
ghost use Rattle.dnp_world.specs.FreshSystems.{fresh_system};
ghost use Rattle.dnp_world.specs.Happened.{HappenedAsEvents};
ghost use Rattle.dnp_world.specs.Joined.{rows_made_by};
ghost use Rattle.dnp_world.specs.Planned.{HappenedAsPlanned, HavePlannedPoints, IsAsPlanned};
ghost use Rattle.dnp_world.specs.SystemEvents.{Reads};
ghost use Rattle.dnp_world.specs.SystemRuns.{Happens};
ghost use Rattle.dnp_world.specs.SystemStanding.{IsStanding, Keeps};
ghost use Rattle.dnp_world.specs.Systems.{SubstationState, System, link_at};

use crate::laws::link_law;
use dnp_concentrator::laws::{each_direction_undoes_the_other, no_event_is_passed_over};
use dnp_objects::laws::{covered_is_by_counts, equality_is_decided};
use dnp_objects::{Command, Row};
use dnp_outstation::lane_laws::{a_connection_drops_no_row, a_connection_leaves_the_points_alone};
use dnp_pointdb::laws::{
    a_change_is_of_one_point, a_change_makes_what_its_lane_takes, points_are_those_of_the_plan,
};

/// The points of the substations stay those of the plan, with its classes, whatever happens.
pub fn substations_keep_their_points()
    ensures { (plan : Plan) (old new : System) (event : Event) → Happens old event new → HavePlannedPoints plan old
        → HavePlannedPoints plan new }
{
    a_connection_leaves_the_points_alone();
    a_connection_drops_no_row();
    a_change_is_of_one_point();
}

/// What happens at the substations is of the plan: at first nothing has happened, and the points are those of the plan; a reading
/// makes a row of a point that the plan has with a class, and all else that happens makes none.
pub fn what_happens_is_of_the_plan()
    ensures at_first { (plan : Plan) (centre : ℕ) (queue : EventBuffer) (journal : Archive) (controls orders : Ledger) → KeepsLimits plan
        → HappenedAsPlanned plan (fresh_system plan centre queue journal controls orders) }
    ensures kept { (plan : Plan) (old new : System) (el : Elsewhere) (substation : ℕ) (event : Event) → HappenedAsPlanned plan old → Happens old event new
        → Keeps el substation [] old new → HappenedAsPlanned plan new }
    ensures read { (plan : Plan) (old new : System) (el : Elsewhere) (substation : ℕ) (kind : Kind) (index : ℕ) (reading : Reading) → HappenedAsPlanned plan old
        → (reads : Reads substation kind index reading old new)
        → Keeps el substation (rows_made_by reads.was.core.points (event.Change kind index reading ∷ [])) old new → HappenedAsPlanned plan new }
    ensures events { (plan : Plan) (s : System) → HappenedAsPlanned plan s → HappenedAsEvents s }
{
    substations_keep_their_points();
    a_connection_leaves_the_points_alone();
    a_connection_drops_no_row();
    a_change_is_of_one_point();
    equality_is_decided::<u64, Row>();
    a_change_makes_what_its_lane_takes();
    points_are_those_of_the_plan();
}

/// Systems stay of their plan: a new one is of the plan that it is made of, and whatever happens, masters keep their points and the
/// system its index map.
pub fn systems_stay_as_planned()
    ensures at_first { (plan : Plan) (centre : ℕ) (queue : EventBuffer) (journal : Archive) (controls orders : Ledger) → KeepsLimits plan
        → IsAsPlanned (fresh_system plan centre queue journal controls orders) }
    ensures kept { (old new : System) (el : Elsewhere) (substation : ℕ) (event : Event) → IsAsPlanned old → Happens old event new
        → Keeps el substation [] old new → IsAsPlanned new }
    ensures read { (old new : System) (el : Elsewhere) (substation : ℕ) (kind : Kind) (index : ℕ) (reading : Reading) → IsAsPlanned old
        → Happens old (happening.Change substation kind index reading) new → (reads : Reads substation kind index reading old new)
        → Keeps el substation (rows_made_by reads.was.core.points (event.Change kind index reading ∷ [])) old new → IsAsPlanned new }
{
    what_happens_is_of_the_plan();
}

/// Each row in the lanes of a substation, and in the queue, is of a point that the master at the other end asks for, with a class that
/// has events: so that master takes it.
pub fn rows_in_lanes_are_asked_for()
    ensures below { (s : System) (substation : ℕ) (was : SubstationState) → IsAsPlanned s → substation < length s.concentrator.links
        → slice_get s.substations substation ≡ Some was
        → All (λ row. is_reported (link_at s.concentrator substation).master.plan row ≡ true) (rows_in was.lanes) }
    ensures above { (s : System) (el : Elsewhere) → IsStanding el s → IsAsPlanned s
        → All (λ row. is_reported s.centre.link.master.plan row ≡ true) (rows_in s.concentrator.queue) }
{
    link_law();
    equality_is_decided::<u64, Row>();
    equality_is_decided::<u64, Command>();
    covered_is_by_counts::<(u64, Row)>();
    covered_is_by_counts::<(u64, Command)>();
    each_direction_undoes_the_other();
    no_event_is_passed_over();
}
