//! Laws of relaying over a whole system: a step of it keeps what stands behind the system, and the controls in progress stay in
//! step with the books that keep them. Each function does nothing, and its contract is a law.

ghost use Rattle.std.specs.Prelude.{◌≡◌, ◌^◌, ◌<◌, ◌↔◌, ℕ, true, All, List, [], ◌∷◌, Ok, ⊤};
ghost use Rattle.dnp_appfragment.specs.Fragments.{request_octets};
ghost use Rattle.dnp_concentrator.specs.declared.plan.Plan.{Plan as PlanValue};
ghost use Rattle.dnp_concentrator.specs.Relaying.{Step};
ghost use Rattle.dnp_controls.specs.Book.{Ledger};
ghost use Rattle.dnp_controls.specs.declared.book.Entry.{Entry as EntryValue};
ghost use Rattle.dnp_eventbuf.specs.Archive.{Archive};
ghost use Rattle.dnp_eventbuf.specs.EventBuffer.{EventBuffer};
ghost use Rattle.dnp_master.specs.Calls.{ask_answer};
ghost use Rattle.dnp_master.specs.Requests.{request_for};
ghost use Rattle.dnp_master.specs.declared.task.Task.{Task as TaskValue};
ghost use Rattle.dnp_master.specs.declared.task.Task.TheVariants as task;
ghost use Rattle.dnp_objects.specs.declared.command.Command.{Command as CommandValue};
ghost use Rattle.dnp_world.specs.Behind.{Elsewhere};
ghost use Rattle.dnp_world.specs.CommandWidths.{HasWidths};
ghost use Rattle.dnp_world.specs.ControlsInStep.{InStep};
ghost use Rattle.dnp_world.specs.declared.event.Event.{Event as EventValue};
ghost use Rattle.dnp_world.specs.declared.event.Link.TheVariants as link;
ghost use Rattle.dnp_world.specs.FreshSystems.{fresh_system};
ghost use Rattle.dnp_world.specs.Joined.{Follows, Joined};
ghost use Rattle.dnp_world.specs.LawLink.{LawLink};
ghost use Rattle.dnp_world.specs.Octets.{commands_in};
ghost use Rattle.dnp_world.specs.OneLinkEvents.{IsAsked, LinkState};
ghost use Rattle.dnp_world.specs.SystemEvents.{IsGranted, IsRefused, RelaysOn};
ghost use Rattle.dnp_world.specs.SystemRuns.{Happens};
ghost use Rattle.dnp_world.specs.SystemStanding.{IsStanding, Keeps};
ghost use Rattle.dnp_world.specs.Systems.{System, has_substation};

use crate::laws::link_law;
use crate::master_laws::{
    a_master_asks_by_a_move, a_master_opens_and_closes_by_moves, a_master_takes_by_moves,
};
use crate::system_laws::lists_are_of_links;
use dnp_appfragment::laws::{
    a_header_holds_what_was_put, what_is_held_is_read, what_is_spelled_is_said,
    what_is_there_is_said,
};
use dnp_concentrator::laws::indices_above_are_in_range;
use dnp_controls::laws::ids_go_on;
use dnp_line::laws::line_law;
use dnp_master::laws::{
    a_closed_master_is_silent, an_idle_master_asks, what_comes_is_taken_or_passed_over,
};
use dnp_objects::Command;
use dnp_objects::laws::equality_is_decided;

/// A book grants a step of relaying or refuses it for its entry, one of the two and never both: so of what a step may make of a
/// system (`RelaysOn`) just one is possible.
pub fn a_step_is_granted_or_refused()
    ensures { (entries : List EntryValue) (step : Step) → IsGranted entries step ↔ (IsRefused entries step → ⊥) }
{}

/// The requests of a command whose fields have their widths are octets. An OPERATE asks for that command, and a SELECT for none.
pub fn a_command_is_asked_for_as_it_is()
    ensures selects { (seq : ℕ) (command : CommandValue) → seq < 16 → HasWidths command
        → All (λ octet. octet < 2 ^ 8) (request_octets (request_for seq (task.Select command))) }
    ensures operates { (seq : ℕ) (command : CommandValue) → seq < 16 → HasWidths command
        → All (λ octet. octet < 2 ^ 8) (request_octets (request_for seq (task.Operate command))) }
    ensures selected { (seq : ℕ) (command : CommandValue) → seq < 16
        → commands_in (request_octets (request_for seq (task.Select command))) ≡ [] }
    ensures operated { (seq : ℕ) (command : CommandValue) → seq < 16 → HasWidths command
        → commands_in (request_octets (request_for seq (task.Operate command))) ≡ command ∷ [] }
{
    a_header_holds_what_was_put();
    what_is_held_is_read();
    what_is_there_is_said();
    what_is_spelled_is_said();
}

/// A request that a master sends, of a command too, is a move of its link: it asks for the commands that are read of its octets.
pub fn a_request_goes_by_a_move()
    ensures { (s new : LinkState ⊤) (task : TaskValue) (octets : List ℕ) (l : LawLink)
        → All (λ octet. octet < 2 ^ 8) (request_octets (request_for s.master.seq task)) → Joined [] s l
        → ask_answer s.master task ≡ Ok octets → IsAsked task octets s new
        → Follows [] [] (commands_in octets) s.outstation.performed l new }
{
    a_master_takes_by_moves();
    a_master_asks_by_a_move();
    a_master_opens_and_closes_by_moves();
    line_law();
    a_closed_master_is_silent();
    an_idle_master_asks();
    what_comes_is_taken_or_passed_over();
}

/// A step of relaying keeps what stands behind the system, where the controls in progress are in step with their books: an
/// OPERATE asks for the command of its control, which is spent with it.
pub fn relaying_keeps_what_stands()
    ensures below { (old new : System) (el : Elsewhere) (substation : ℕ) → has_substation old substation ≡ true → IsStanding el old → InStep old
        → RelaysOn (link.Below substation) old new → Keeps el substation [] old new }
    ensures above { (centre : ℕ) (old new : System) (el : Elsewhere) (substation : ℕ) → IsStanding el old → InStep old
        → RelaysOn (link.Above centre) old new
        → Keeps el substation [] old new }
{
    lists_are_of_links();
    a_command_is_asked_for_as_it_is();
    a_request_goes_by_a_move();
    equality_is_decided::<u64, Command>();
    link_law();
}

/// Controls in progress stay in step with their books: at each event, while links of the law stand behind the system, and they are
/// in step before the first event over empty books.
pub fn controls_stay_in_step()
    ensures event { (old new : System) (el : Elsewhere) (event : EventValue) → Happens old event new → IsStanding el old → InStep old → InStep new }
    ensures at_first { (plan : PlanValue) (centre : ℕ) (queue : EventBuffer) (journal : Archive) (controls orders : Ledger)
        → controls.entries ≡ [] → orders.entries ≡ [] → InStep (fresh_system plan centre queue journal controls orders) }
{
    ids_go_on();
    indices_above_are_in_range();
    equality_is_decided::<u64, Command>();
    link_law();
}
