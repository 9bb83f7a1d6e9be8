//! Laws of what is said: each function does nothing, and its contract is a law.

ghost use Rattle.std.specs.Prelude.{◌≡◌, ◌&&◌, ◌||◌, not, ℕ, List, Option, Some, true, is_ok, is_none};
ghost use Rattle.dnp_appfragment.specs.Fragments.{Answered};
ghost use Rattle.dnp_appfragment.specs.Meaning.{response_at};
ghost use Rattle.dnp_master.specs.Calls.{follow_of, is_awaited, is_report, receive_of};
ghost use Rattle.dnp_master.specs.State.{State};
ghost use Rattle.dnp_notices.specs.declared.exchange.Awaited.{Awaited as AwaitedValue};
ghost use Rattle.dnp_notices.specs.declared.exchange.Mismatch.{Mismatch as MismatchValue};
ghost use Rattle.dnp_notices.specs.Exchanges.{after, awaited_of, mismatch};
ghost use Rattle.dnp_notices.specs.Refusals.{is_told, looks_at};

/// A master refuses what came exactly where it looks at it and something is told of it.
pub fn a_refusal_is_told()
    ensures { (s : State) (now : ℕ) (octets : List ℕ)
        → is_ok (receive_of s now octets) ≡ not (looks_at s (response_at octets) && is_told s.plan (response_at octets)) }
{}

/// A master whose request is open takes exactly the reports and the responses of which no mismatch is told.
pub fn a_mismatch_is_passed_over()
    ensures { (s : State) (awaited : AwaitedValue) (answered : Answered) → s.is_open ≡ true → awaited_of s ≡ Some awaited
        → is_awaited s answered ≡ (is_report answered.function answered.control || is_none (mismatch awaited answered.function answered.control)) }
{}

/// After each response the fragment is awaited that the master awaits then.
pub fn an_exchange_follows_its_master()
    ensures { (s : State) (now : ℕ) (known : Option MismatchValue) (answered : Answered) → s.is_open ≡ true
        → (after (record { awaited = awaited_of s; mismatch = known }) answered.function answered.control).awaited
        ≡ awaited_of (follow_of s now answered).state }
{}
