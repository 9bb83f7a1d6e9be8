//! Laws of links of a system that are opened. Each function does nothing, and its contract is a law.

ghost use Rattle.std.specs.Prelude.{◌≡◌, List, true, false};
ghost use Rattle.dnp_world.specs.Centres.{HappensToAll};
ghost use Rattle.dnp_world.specs.Opening.{OpensQuiet, reports_on};
ghost use Rattle.dnp_world.specs.Rounds.{is_quiet_on};
ghost use Rattle.dnp_world.specs.SystemRuns.{Happens, RunsTo};
ghost use Rattle.dnp_world.specs.Systems.{System, has_link};
ghost use Rattle.dnp_world.specs.Wholes.{Whole};
ghost use Rattle.dnp_world.specs.declared.event.Event.{Event};
ghost use Rattle.dnp_world.specs.declared.event.Event.TheVariants.{Open};
ghost use Rattle.dnp_world.specs.declared.event.Link.{Link};

/// A link that was opened is quiet, whatever was before, where its outstation sends no unsolicited responses. So it is after each
/// list of events that ends with its opening.
pub fn an_opened_link_is_quiet()
    ensures event { (on : Link) (old new : System) → has_link old on ≡ true → reports_on new on ≡ false → Happens old (Open on) new
        → is_quiet_on new on ≡ true }
    ensures ran { (events : List Event) (old new : Whole) → RunsTo HappensToAll old events new → OpensQuiet events new }
{}
