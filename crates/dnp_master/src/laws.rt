//! Laws of a master: each function does nothing, and its contract is a law.
ghost use Rattle.std.specs.Prelude.{◌≡◌, ◌⊎◌, ◌<◌, ◌≤◌, ℕ, Bool, true, false, List, All, IfOk, Ok, Err, Some};
ghost use Rattle.dnp_appfragment.specs.Fragments.{confirmation, request_octets};
ghost use Rattle.dnp_appfragment.specs.Meaning.{request_at};
ghost use Rattle.dnp_master.specs.declared.task.Task.{Task as TaskValue};
ghost use Rattle.dnp_master.specs.Calls.{ask_answer, asked, receive_of, unheeded};
ghost use Rattle.dnp_master.specs.Rows.{is_reported};
ghost use Rattle.dnp_master.specs.State.{State, IsBefore, closed, is_timed_out, next_deadline, ticked};
ghost use Rattle.dnp_master.specs.LinkCalls.{Asks, PassesOver, TakesReport, TakesResponse};
ghost use Rattle.dnp_master.specs.Selecting.{OperatesSelected, SelectsBySuccess};

use crate::fault::AskFault;
use dnp_appfragment::laws::{octets_say_a_request, what_is_spelled_is_a_fragment};
use dnp_objects::laws::equality_is_decided;

/// Octets that come are passed over, or are the response that is awaited, or a response that nobody
/// asked for: which of them, and what is taken and confirmed, their control octet and the master's
/// number say.
pub fn what_comes_is_taken_or_passed_over()
    ensures { (s : State) (now : ℕ) (octets : List ℕ) → IfOk (receive_of s now octets) (λ t.
        PassesOver s t ⊎ (TakesResponse s octets t ⊎ TakesReport s octets t)) }
{}

/// Each event that is taken is of a point of the plan with a class from 1 on.
pub fn events_taken_are_of_the_plan()
    ensures { (s : State) (now : ℕ) (octets : List ℕ) → IfOk (receive_of s now octets) (λ t.
        All (λ event. is_reported s.plan event ≡ true) t.events) }
{}

/// A master asks while it is open and idle alone, with its own number, and is busy then.
pub fn an_idle_master_asks()
    ensures { (s : State) (now : ℕ) (task : TaskValue) → IfOk (ask_answer s task) (λ octets. Asks s task octets (asked s now task)) }
{}

/// A closed master stays closed whatever comes, and neither asks nor confirms: so no request goes out
/// on a connection whose response timer has ended.
#[tactic(auto, unfolding(crate::specs::Calls::receive_of))]
pub fn a_closed_master_is_silent()
    ensures asks { (s : State) (task : TaskValue) → s.is_open ≡ false → ask_answer s task ≡ Err AskFault.Closed }
    ensures receives { (s : State) (now : ℕ) (octets : List ℕ) → s.is_open ≡ false → receive_of s now octets ≡ Ok (unheeded s) }
    ensures ticks { (s : State) (now : ℕ) → s.is_open ≡ false → (is_timed_out s now ≡ false) × (ticked s now ≡ s) }
    ensures timed_out { (s : State) (now : ℕ) → is_timed_out s now ≡ true → ticked s now ≡ closed s }
{}

/// Before its next deadline time does nothing to a master, and at the deadline it closes.
pub fn a_master_waits_for_its_next_deadline()
    ensures waits { (s : State) (now : ℕ) → IsBefore now s → (is_timed_out s now ≡ false) × (ticked s now ≡ s) }
    ensures closes { (s : State) (now ends : ℕ) → next_deadline s ≡ Some ends → ends ≤ now → is_timed_out s now ≡ true }
{}

/// The two octets of a confirm read as the CONFIRM of that number, with that UNS.
pub fn a_confirm_reads_as_one()
    ensures { (seq : ℕ) (uns : Bool) → seq < 16 → request_at (request_octets (confirmation seq uns)) ≡ Ok (confirmation seq uns) }
{
    octets_say_a_request();
    what_is_spelled_is_a_fragment();
}

/// An OPERATE is asked only while its own command stands selected; and of all responses that `Master::follow` takes only the
/// answer SUCCESS to the select of a command makes that command stand selected.
pub fn an_operate_follows_its_select()
    ensures operates { OperatesSelected }
    ensures selects { SelectsBySuccess }
{
    // (a law, for the proof: it does nothing)
    equality_is_decided::<(), ()>();
}
