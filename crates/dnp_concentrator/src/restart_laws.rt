//! A restart forgets all that came and all that was read, so that it leaves what is made new of the plan over the same
//! stores. Each law is the contract of a function that does nothing.

ghost use Rattle.std.specs.Prelude.{◌≡◌, ℕ, List, IfOk, map, slice_set};
ghost use Rattle.dnp_controls.specs.Panel.{Panel};
ghost use Rattle.dnp_master.specs.Calls.{receive_of};
ghost use Rattle.dnp_master.specs.declared.task.Task.{Task as TaskValue};
ghost use Rattle.dnp_objects.specs.declared.row.Row.{Row};
ghost use Rattle.dnp_outstation.specs.Calls.{connection_after, opened_of, restarted_core, tick_of};
ghost use Rattle.dnp_outstation.specs.Connection.{closed};
ghost use Rattle.dnp_outstation.specs.State.{Core, State};
ghost use Rattle.dnp_outstation.specs.Station.{new_core, with_points};
ghost use Rattle.dnp_pointdb.specs.Database.{new_database};
ghost use Rattle.dnp_concentrator.specs.Below.{link_in, new_links, readings_set};
ghost use Rattle.dnp_concentrator.specs.Concentrator.{without_link};
ghost use Rattle.dnp_concentrator.specs.declared.plan.Plan.{Plan as PlanValue};
ghost use Rattle.dnp_concentrator.specs.declared.span.Spans.{Spans};
ghost use Rattle.dnp_concentrator.specs.PointsAbove.{points_above};
ghost use Rattle.dnp_concentrator.specs.Relaying as link;
ghost use Rattle.dnp_concentrator.specs.Relaying.{Relaying, Step};
ghost use Rattle.dnp_concentrator.specs.Restarting.{LinkRestartsAsNew, RestartsAsNew};

use dnp_outstation::lane_laws::a_connection_leaves_the_points_alone;

/// Whatever came from the station above, and whatever was read below, a restart leaves the outstation above as it would
/// have left it before; and so does a restart after another.
pub fn a_restart_forgets_what_came_above()
    ensures opened { (s : State) (now : ℕ) → restarted_core (opened_of s now).state.core ≡ restarted_core s.core }
    ensures received { (s : State) (o : Panel) (now : ℕ) (octets : List ℕ)
        → restarted_core (connection_after s o now octets).state.core ≡ restarted_core s.core }
    ensures ticked { (s : State) (now : ℕ) → restarted_core (tick_of s now).state.core ≡ restarted_core s.core }
    ensures closed { (c : Core) → restarted_core (closed c) ≡ restarted_core c }
    ensures again { (c : Core) → restarted_core (restarted_core c) ≡ restarted_core c }
    ensures read { (c : Core) (spans : List Spans) (substation : ℕ) (events statics : List Row)
        → restarted_core (with_points c (readings_set spans substation (readings_set spans substation c.points events) statics))
        ≡ restarted_core c }
    ensures lost { (c : Core) (number : ℕ) → restarted_core (without_link c number) ≡ restarted_core c }
{
    a_connection_leaves_the_points_alone();
}

/// Whatever came on a link of a master, a hang-up leaves the link as a new one of its points and times; and of each link
/// what it would have left before.
pub fn a_hang_up_forgets_what_came()
    ensures new { (r : Relaying) → link.hung_up r ≡ link.new_relaying r.master.plan r.master.times }
    ensures opened { (r : Relaying) → link.hung_up (link.opened r) ≡ link.hung_up r }
    ensures again { (r : Relaying) → link.hung_up (link.hung_up r) ≡ link.hung_up r }
    ensures ticked { (r : Relaying) (now : ℕ) → link.hung_up (link.ticked r now) ≡ link.hung_up r }
    ensures asked { (r : Relaying) (now : ℕ) (task : TaskValue) → link.hung_up (link.asking r now task) ≡ link.hung_up r }
    ensures received { (r : Relaying) (now : ℕ) (octets : List ℕ)
        → IfOk (receive_of r.master now octets) (λ t. link.hung_up (link.received r t) ≡ link.hung_up r) }
    ensures relayed { (r : Relaying) (now : ℕ) (step : Step) → link.hung_up (link.relaying_after r now step) ≡ link.hung_up r }
    ensures one { (links : List Relaying) (number : ℕ) (r : Relaying) → link.hung_up r ≡ link.hung_up (link_in links number)
        → map link.hung_up (slice_set links number r) ≡ map link.hung_up links }
{}

/// So a restart leaves a concentrator of a plan, and a centre, as a new one over the same stores: this holds of a new one,
/// and stays with each call, since none changes what a restart leaves.
pub fn a_restart_leaves_what_is_new()
    ensures new { (plan : PlanValue)
        → RestartsAsNew plan (new_core (new_database (points_above plan)) plan.times) (new_links plan) }
    ensures kept { (plan : PlanValue) (core after : Core) (links others : List Relaying) → RestartsAsNew plan core links
        → restarted_core after ≡ restarted_core core → map link.hung_up others ≡ map link.hung_up links
        → RestartsAsNew plan after others }
    ensures centre { (plan : PlanValue) → LinkRestartsAsNew plan (link.new_relaying (points_above plan) plan.times) }
{}
