//! Laws of a concentrator and of a centre that stop, and are opened again over what their stores then hold. Each function does
//! nothing, and its contract is a law.

ghost use Rattle.std.specs.Prelude.{◌≡◌, ◌<◌, ℕ, List};
ghost use Rattle.dnp_concentrator.specs.PerCentre.{at};
ghost use Rattle.dnp_concentrator.specs.declared.plan.Plan.{Plan};
ghost use Rattle.dnp_concentrator.specs.declared.per_centre.PerCentre.{PerCentre};
ghost use Rattle.dnp_controls.specs.Book.{Ledger};
ghost use Rattle.dnp_eventbuf.specs.Archive.{Archive};
ghost use Rattle.dnp_eventbuf.specs.EventBuffer.{EventBuffer};
ghost use Rattle.dnp_eventbuf.specs.declared.pair.TheConstants.{CENTRES};
ghost use Rattle.dnp_world.specs.Centres.{HappensToAll};
ghost use Rattle.dnp_world.specs.FreshSystems.{fresh_system, fresh_whole};
ghost use Rattle.dnp_world.specs.Reopened.{AllRestartAsNew, AllWriteOne, HoldsEither, RestartAsNew, StandsRestarted, WriteOne, new_centre, new_concentrator};
ghost use Rattle.dnp_world.specs.SystemRuns.{Happens, RunsTo};
ghost use Rattle.dnp_world.specs.Systems.{System};
ghost use Rattle.dnp_world.specs.Wholes.{Whole};
ghost use Rattle.dnp_world.specs.declared.event.Event.{Event};
ghost use Rattle.dnp_world.specs.declared.event.Place.TheVariants as place;

use dnp_concentrator::restart_laws::{
    a_hang_up_forgets_what_came, a_restart_forgets_what_came_above, a_restart_leaves_what_is_new,
};
use dnp_outstation::link_laws::a_confirm_releases_what_its_fragment_reported;

/// An event changes one store of the concentrator at most, its queues or its book, and one of each centre, its journal or its book;
/// and nothing else of them that a restart leaves. So it is as one centre sees it, and for the whole.
pub fn an_event_writes_one_store()
    ensures seen { (old new : System) (event : Event) → Happens old event new → WriteOne old new }
    ensures whole { (old new : Whole) (event : Event) → HappensToAll old event new → AllWriteOne old new }
{
    a_restart_forgets_what_came_above();
    a_hang_up_forgets_what_came();
    a_confirm_releases_what_its_fragment_reported();
}

/// So a restart leaves the concentrator and the centres as new of the plan that the system was made of, whatever happened.
pub fn systems_restart_as_new()
    ensures at_first { (plan : Plan) (centre : ℕ) (queue : EventBuffer) (journal : Archive) (controls orders : Ledger)
        → RestartAsNew plan (fresh_system plan centre queue journal controls orders) }
    ensures whole_at_first { (plan : Plan) (queues : PerCentre EventBuffer) (journals : PerCentre Archive) (controls : Ledger) (orders : PerCentre Ledger)
        → AllRestartAsNew plan (fresh_whole plan queues journals controls orders) }
    ensures event { (plan : Plan) (old new : Whole) (event : Event) → AllRestartAsNew plan old → HappensToAll old event new
        → AllRestartAsNew plan new }
{
    an_event_writes_one_store();
    a_restart_leaves_what_is_new();
}

/// A place that stops within an event, and is made again of its plan over what its stores then hold, stands as after the events that
/// were done, or as after these and that event, and then its restart. What a store holds is what it held before the event or what
/// the event makes of it, as stores promise of whatever a crash leaves; no third state comes of two stores, since the event
/// changes one at most.
pub fn a_place_that_stops_is_restarted()
    ensures concentrator { (plan : Plan) (old before after : Whole) (events : List Event) (last : Event) (queues : PerCentre EventBuffer)
        (controls : Ledger) → AllRestartAsNew plan old → RunsTo HappensToAll old events before → HappensToAll before last after
        → HoldsEither before.concentrator.queues after.concentrator.queues queues
        → HoldsEither before.concentrator.controls after.concentrator.controls controls
        → StandsRestarted place.Concentrator (λ w. w.concentrator ≡ new_concentrator plan queues controls) old events last }
    ensures centre { (plan : Plan) (centre : ℕ) (old before after : Whole) (events : List Event) (last : Event) (journal : Archive)
        (orders : Ledger) → centre < CENTRES → AllRestartAsNew plan old → RunsTo HappensToAll old events before → HappensToAll before last after
        → HoldsEither (at centre before.centres).journal (at centre after.centres).journal journal
        → HoldsEither (at centre before.centres).orders (at centre after.centres).orders orders
        → StandsRestarted (place.Centre centre) (λ w. at centre w.centres ≡ new_centre plan journal orders) old events last }
{
    an_event_writes_one_store();
    systems_restart_as_new();
}
