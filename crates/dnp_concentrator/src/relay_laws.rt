//! What holds of relaying. Each law is the contract of a function that does nothing.

ghost use Rattle.std.specs.Prelude.{◌≡◌, ◌≤◌, ℕ, List, IfOk, count_by};
ghost use Rattle.dnp_controls.specs.Book.{Ledger};
ghost use Rattle.dnp_controls.specs.Moves.{AreGranted, Move as BookMove};
ghost use Rattle.dnp_concentrator.specs.declared.relayed.Relayed.{Relayed as Answer};
ghost use Rattle.dnp_controls.specs.declared.book.Entry.{Entry as EntryValue};
ghost use Rattle.dnp_master.specs.declared.task.Task.{Task as TaskValue};
ghost use Rattle.dnp_master.specs.Calls.{receive_of};
ghost use Rattle.dnp_pointdb.specs.Plan.{Plan};
ghost use Rattle.dnp_pointdb.specs.declared.times.Times.{Times as TimesValue};
ghost use Rattle.dnp_concentrator.specs.Awaiting.{AwaitsOwn};
ghost use Rattle.dnp_concentrator.specs.Relayed.{IsRun, is_sent_of, moves_through};
ghost use Rattle.dnp_concentrator.specs.Relaying as spec;
ghost use Rattle.dnp_concentrator.specs.Relaying.{Relaying};

use dnp_controls::laws::an_entry_is_spent_once;

/// The OPERATE of a control is sent at most once over any steps of relaying from one book, whatever link each of
/// them is over and whoever calls the book in between, where the book grants what is called: as it does where
/// it is honest.
pub fn no_control_is_sent_twice()
    ensures { (book : Ledger) (steps : List (List BookMove × Answer)) (id : ℕ) → AreGranted book (moves_through steps)
        → count_by (λ step. is_sent_of id step.1) steps ≤ 1 }
{
    an_entry_is_spent_once();
}

/// The OPERATE of a control is sent at most once over a whole run of steps of relaying from one book: whatever link
/// each of them is over, and whatever else the book granted in between. That each step is granted what it tells is
/// what `relay` promises of it.
pub fn a_run_sends_no_control_twice()
    ensures { (book : Ledger) (steps : List (List BookMove × Answer)) (id : ℕ) → IsRun book steps
        → count_by (λ step. is_sent_of id step.1) steps ≤ 1 }
{
    no_control_is_sent_twice();
}

/// Whose answer is awaited: while a link is open and the control in progress awaits the answer to its SELECT or its
/// OPERATE, the open request is that very task, whatever was called. So an outcome that is heard then is the control's
/// own, and on an idle link no control awaits one.
pub fn a_control_awaits_its_own_answer()
    ensures new { (plan : Plan) (times : TimesValue) → AwaitsOwn (spec.new_relaying plan times) }
    ensures opened { (r : Relaying) → AwaitsOwn (spec.opened r) }
    ensures hung_up { (r : Relaying) → AwaitsOwn (spec.hung_up r) }
    ensures ticked { (r : Relaying) (now : ℕ) → AwaitsOwn r → AwaitsOwn (spec.ticked r now) }
    ensures asked { (r : Relaying) (now : ℕ) (task : TaskValue) → AwaitsOwn r → AwaitsOwn (spec.asking r now task) }
    ensures received { (r : Relaying) (now : ℕ) (octets : List ℕ) → AwaitsOwn r
        → IfOk (receive_of r.master now octets) (λ t. AwaitsOwn (spec.received r t)) }
    ensures relayed { (r : Relaying) (now : ℕ) (entries : List EntryValue) (target : ℕ) → AwaitsOwn r
        → AwaitsOwn (spec.relaying_after r now (spec.step_of r entries target)) }
{}
