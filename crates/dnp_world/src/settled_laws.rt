//! Laws of unsolicited responses of the substations of a system. Each function does nothing, and its contract is a law.

ghost use Rattle.dnp_concentrator.specs.declared.plan.Plan.{Plan};
ghost use Rattle.dnp_controls.specs.Book.{Ledger};
ghost use Rattle.dnp_eventbuf.specs.Archive.{Archive};
ghost use Rattle.dnp_eventbuf.specs.EventBuffer.{EventBuffer};
ghost use Rattle.std.specs.Prelude.{ℕ};
ghost use Rattle.dnp_world.specs.FreshSystems.{fresh_system};
ghost use Rattle.dnp_world.specs.Settled.{AreSettled};
ghost use Rattle.dnp_world.specs.SystemRuns.{Happens};
ghost use Rattle.dnp_world.specs.Systems.{System};
ghost use Rattle.dnp_world.specs.declared.event.Event.{Event};

/// Substations stay settled: none that is free has rows of an enabled class in its lanes. At first all are closed, and each call ends
/// by starting what it may.
pub fn substations_stay_settled()
    ensures at_first { (plan : Plan) (centre : ℕ) (queue : EventBuffer) (journal : Archive) (controls orders : Ledger)
        → AreSettled (fresh_system plan centre queue journal controls orders) }
    ensures event { (old new : System) (event : Event) → AreSettled old → Happens old event new → AreSettled new }
{}
