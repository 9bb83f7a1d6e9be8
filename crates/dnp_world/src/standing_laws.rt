//! Laws of what stands behind a whole system: what comes to the concentrator from above keeps it, and a new system has it. Each
//! function does nothing, and its contract is a law.

ghost use Rattle.std.specs.Prelude.{◌≡◌, ℕ, [], All, length};
ghost use Rattle.dnp_concentrator.specs.declared.plan.Plan.{Plan};
ghost use Rattle.dnp_controls.specs.Book.{Ledger};
ghost use Rattle.dnp_eventbuf.specs.Archive.{Archive};
ghost use Rattle.dnp_eventbuf.specs.EventBuffer.{EventBuffer};
ghost use Rattle.dnp_line.specs.Lines.{delivered_on, repeated_on};
ghost use Rattle.dnp_objects.specs.declared.limits.TheConstants.{LANES};
ghost use Rattle.dnp_world.specs.Behind.{Elsewhere, alone};
ghost use Rattle.dnp_world.specs.FreshSystems.{fresh_system};
ghost use Rattle.dnp_world.specs.Kept.{report_of};
ghost use Rattle.dnp_world.specs.NewSystems.{AreEmpty, CanBegin, HasAllLanes, nothing_shown};
ghost use Rattle.dnp_world.specs.SystemEvents.{ComesDownAbove};
ghost use Rattle.dnp_world.specs.SystemStanding.{IsStanding, Keeps};
ghost use Rattle.dnp_world.specs.Systems.{System};

use crate::joined_laws::events_without_a_sink_are_moves;
use crate::laws::lanes_are_moved;
use crate::outstation_laws::a_new_outstation_is_shown;
use crate::system_laws::lists_are_of_links;
use dnp_concentrator::Plan as SystemPlan;
use dnp_concentrator::laws::{commands_are_undone, what_no_cause_refuses_is_a_map};
use dnp_eventbuf::laws::{a_release_conserves_rows, lanes_stay_sound};
use dnp_line::laws::line_law;
use dnp_objects::LANES;
use dnp_outstation::link_laws::{
    a_confirm_releases_what_its_fragment_reported, a_repeated_request_executes_nothing,
    commands_are_performed_as_they_are_asked, each_case_says_what_came,
};
use dnp_pointdb::laws::points_stay_sound;

/// What comes to the concentrator from above keeps what stands behind the system, where the unit leaves the line and where it stays
/// there: the rows that a confirm releases leave the queue, which counts none of them as lost, and the commands that are performed
/// come into the book.
pub fn what_comes_to_the_concentrator_keeps_what_stands()
    ensures delivered { (old new : System) (el : Elsewhere) (substation : ℕ) → IsStanding el old
        → ComesDownAbove delivered_on old new → Keeps el substation [] old new }
    ensures repeated { (old new : System) (el : Elsewhere) (substation : ℕ) → IsStanding el old
        → ComesDownAbove repeated_on old new → Keeps el substation [] old new }
{
    lists_are_of_links();
    events_without_a_sink_are_moves();
    each_case_says_what_came();
    a_confirm_releases_what_its_fragment_reported();
    a_release_conserves_rows();
    commands_are_performed_as_they_are_asked();
    a_repeated_request_executes_nothing();
    commands_are_undone();
}

/// Something stands behind a new system over empty stores: links of the law on which nothing has happened, so that the one above has
/// performed nothing. Its report shows nothing.
pub fn a_new_system_stands()
    ensures stands { (plan : Plan) (centre : ℕ) (queue : EventBuffer) (journal : Archive) (controls orders : Ledger) → CanBegin plan
        → AreEmpty queue journal controls orders
        → (standing : IsStanding alone (fresh_system plan centre queue journal controls orders)) × (standing.links.above.performed ≡ []) }
    ensures shows { (plan : Plan) (centre : ℕ) (queue : EventBuffer) (journal : Archive) (controls orders : Ledger)
        → AreEmpty queue journal controls orders → report_of (fresh_system plan centre queue journal controls orders) ≡ nothing_shown }
{
    lists_are_of_links();
    what_no_cause_refuses_is_a_map();
    points_stay_sound();
    lanes_stay_sound();
    lanes_are_moved();
    a_new_outstation_is_shown();
    line_law();
}

/// A list of this type has a number for each lane.
fn are_all_lanes(capacities: [u32; LANES])
    ensures { length capacities ≡ LANES }
{}

/// A plan has a capacity for each lane of the queue for each centre and of each substation, as its type says. It does nothing.
pub fn plans_have_all_lanes(plan: &SystemPlan)
    ensures queue { length plan.now.queue ≡ LANES }
    ensures queue2 { length plan.now.queue2 ≡ LANES }
    ensures substations { All HasAllLanes plan.now.substations }
{
    are_all_lanes(plan.queue);
    are_all_lanes(plan.queue2);
    for substation in plan.substations.as_slice() {
        are_all_lanes(substation.lanes);
    }
}
