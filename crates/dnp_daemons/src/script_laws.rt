//! Laws of what a script does on a system of its plan. Each function does nothing, and its contract is a law.

ghost use Rattle.std.specs.Prelude.{◌≡◌, ℕ, List, Some};
ghost use Rattle.dnp_concentrator.specs.Plan.{KeepsLimits};
ghost use Rattle.dnp_concentrator.specs.declared.plan.Plan.{Plan};
ghost use Rattle.dnp_daemons.specs.IdleLines.{idle_reason};
ghost use Rattle.dnp_daemons.specs.IdleRuns.{IsOf, without_idle};
ghost use Rattle.dnp_daemons.specs.ScriptReports.{IsReported};
ghost use Rattle.dnp_daemons.specs.ScriptRuns.{DoesAll};
ghost use Rattle.dnp_daemons.specs.ScriptWorlds.{law_of_worlds, plain_system};
ghost use Rattle.dnp_daemons.specs.declared.script.ScriptLine.{ScriptLine};
ghost use Rattle.dnp_daemons.specs.declared.script.ScriptLine.TheVariants.{One};
ghost use Rattle.dnp_daemons.specs.declared.script.idle.IdleReason.{IdleReason};
ghost use Rattle.dnp_world.specs.Centres.{HappensToAll};
ghost use Rattle.dnp_world.specs.Wholes.{Whole};
ghost use Rattle.dnp_world.specs.declared.event.Event.{Event};

use dnp_world::planned_laws::{substations_keep_their_points, what_happens_is_of_the_plan};

/// An event that has a reason to do nothing does nothing on any system of the plan.
pub fn idle_events_do_nothing()
    ensures { (plan : Plan) (old new : Whole) (event : Event) (reason : IdleReason) → IsOf plan old
        → idle_reason plan (One event) ≡ Some reason → HappensToAll old event new → new ≡ old }
{}

/// A new system of a plan is of it, and stays so whatever happens.
pub fn systems_stay_of_their_plan()
    ensures at_first { (plan : Plan) → KeepsLimits plan → IsOf plan (plain_system plan) }
    ensures kept { (plan : Plan) (old new : Whole) (event : Event) → IsOf plan old → HappensToAll old event new → IsOf plan new }
{
    substations_keep_their_points();
    what_happens_is_of_the_plan();
}

/// A script does the same, and prints the same with its report, without the lines that have a reason to do nothing.
pub fn idle_lines_change_nothing()
    ensures does { (plan : Plan) (script : List ScriptLine) (old new : Whole) (text : List ℕ) → IsOf plan old
        → DoesAll law_of_worlds old script new text → DoesAll law_of_worlds old (without_idle plan script) new text }
    ensures reported { (plan : Plan) (script : List ScriptLine) (new : Whole) (text : List ℕ) → KeepsLimits plan
        → IsReported law_of_worlds (plain_system plan) script new text
        → IsReported law_of_worlds (plain_system plan) (without_idle plan script) new text }
{
    substations_keep_their_points();
    systems_stay_of_their_plan();
}
