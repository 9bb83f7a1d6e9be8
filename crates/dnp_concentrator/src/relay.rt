//! A link's master that relays controls from a book.

ghost use Rattle.std.specs.Prelude.{◌≡◌, ◌≢◌, ◌+◌, ◌⊎◌, ℕ, [], not, false, true, Ok, Err, IsTrue, IsOk, IfOk, IfErr, OnOk, OnErr, Some, MatchResult, option_map};
ghost use Rattle.std.specs.Result.{IsOkAnd};
ghost use Rattle.dnp_appfragment.specs.Fragments.{IsRequest as ReadsAs};
ghost use Rattle.dnp_controls.specs.Book.{entry_of, next_of, Has, is_pending};
ghost use Rattle.dnp_controls.specs.Moves.{AreGranted, after};
ghost use Rattle.dnp_master.specs.Calls.{ask_answer, is_selected};
ghost use Rattle.dnp_master.specs.Requests.{request_for};
ghost use Rattle.dnp_master.specs.State as master;
ghost use Rattle.dnp_concentrator.specs.Relayed as says;
ghost use Rattle.dnp_concentrator.specs.Relaying as spec;

use crate::progress::{Progress, Stage};
use crate::relayed::RelayedStep;
use dnp_controls::laws::the_next_entry_is_the_least;
use dnp_controls::{Book, BookFault};
use dnp_master::{AskFault, Fragment, Master, Outcome, Task};
use dnp_objects::Command;
use dnp_pointdb::{PointPlan, Times};
use std::alloc::Global;
use std::marker::Model;

/// The master of a link, and the control that is in progress there. The book is lent to it for each step.
///
/// A clause sees it as `Relaying`. An opening, a hang-up and a restart forget the control in progress.
#[derive(Drop)]
pub(crate) struct Relay {
    pub(crate) master: Master,
    pub(crate) progress: Option<Progress>,
}

impl Model for Relay {
    ghost use Rattle.dnp_concentrator.specs.Relaying.{Relaying};

    ghost Value = { Relaying };

    ghost view = { λ r. record { master = r.master; progress = r.progress } };
}

impl Relay {
    /// A closed link with no control in progress. Of the times it has its master's response timer by.
    pub fn new(plan: PointPlan, times: Times) -> Relay
        ensures { result ≡ spec.new_relaying plan times }
    {
        Relay {
            master: Master::new(plan, times),
            progress: None,
        }
    }

    /// A connection was opened.
    pub fn opened(&mut self)
        ensures { self.new ≡ spec.opened self.old }
    {
        self.master.opened();
        self.progress = None;
    }

    /// The connection is gone, or the station starts again.
    pub fn hung_up(&mut self)
        ensures { self.new ≡ spec.hung_up self.old }
    {
        self.master.hung_up();
        self.progress = None;
    }

    /// Whether the master is open and awaits no response.
    pub fn idle(&self) -> bool
        ensures { result ≡ master.is_idle self.now.master }
    {
        self.master.idle()
    }

    /// The id of the control in progress, if there is one.
    pub fn in_progress(&self) -> Option<u64>
        ensures { result ≡ option_map (λ p. p.id) self.now.progress }
    {
        match &self.progress {
            Some(progress) => Some(progress.id),
            None => None,
        }
    }

    /// The moment, in milliseconds, at which the response timer ends; none while it doesn't run.
    pub fn next_deadline(&self) -> Option<u64>
        ensures { result ≡ master.next_deadline self.now.master }
    {
        self.master.next_deadline()
    }

    /// The moment, in milliseconds, has come. Whether the master has closed now.
    pub fn tick(&mut self, now: u64) -> bool
        ensures closes { result ≡ master.is_timed_out self.old.master now }
        ensures after { self.new ≡ spec.ticked self.old now }
    {
        self.master.tick(now)
    }

    /// Asks a task at this moment, in milliseconds: the request, to be sent. Refused as the master refuses it,
    /// and nothing has changed then.
    pub fn ask(&mut self, now: u64, task: Task) -> Result<Fragment, AskFault>
        ensures answer { MatchResult result (λ request. ask_answer self.old.master task ≡ Ok request.items)
            (λ fault. ask_answer self.old.master task ≡ Err fault) }
        ensures reads { IfOk result (λ request. ReadsAs request.items (request_for self.old.master.seq task)) }
        ensures after { self.new ≡ spec.asking self.old now task }
    {
        self.master.ask(now, task)
    }

    /// The same, but the request is put into the caller's fragment, in place of what was there.
    pub fn ask_into(&mut self, request: &mut Fragment, now: u64, task: Task) -> Result<(), AskFault>
        ensures answer { MatchResult result (λ _. ask_answer self.old.master task ≡ Ok request.new.items)
            (λ fault. ask_answer self.old.master task ≡ Err fault) }
        ensures reads { OnOk result (ReadsAs request.new.items (request_for self.old.master.seq task)) }
        ensures left { OnErr result (request.new ≡ request.old) }
        ensures after { self.new ≡ spec.asking self.old now task }
    {
        self.master.ask_into(request, now, task)
    }

    /// Asks to select this control, by a request put into the fragment, and makes it the one in progress.
    fn select(&mut self, request: &mut Fragment, now: u64, id: u64, command: Command)
        requires { master.is_idle self.old.master ≡ true }
        ensures request { says.IsRequest request.new.items self.old.master.seq (Task.Select command) }
        ensures after { self.new ≡ spec.relaying_after self.old now (spec.Selects id command) }
    {
        self.master
            .ask_into(request, now, Task::Select(command))
            .unwrap();
        self.progress = Some(Progress {
            id,
            command,
            stage: Stage::Selecting,
        });
    }

    /// Asks to carry out this control, which stands selected, by a request put into the fragment.
    fn operate(&mut self, request: &mut Fragment, now: u64, id: u64, command: Command)
        requires idle { master.is_idle self.old.master ≡ true }
        requires selected { is_selected self.old.master.selected command ≡ true }
        ensures request { says.IsRequest request.new.items self.old.master.seq (Task.Operate command) }
        ensures after { self.new ≡ spec.relaying_after self.old now (spec.Operates id command) }
    {
        self.master
            .ask_into(request, now, Task::Operate(command))
            .unwrap();
        self.progress = Some(Progress {
            id,
            command,
            stage: Stage::Operating,
        });
    }

    /// Whether the control's select stands at the master.
    fn stands(&self, command: &Command) -> bool
        ensures { result ≡ is_selected self.now.master.selected command.now }
    {
        match self.master.selected() {
            Some(selected) => selected == *command,
            None => false,
        }
    }

    /// Selects the least pending control for the target, if there is one. The request is put into the fragment.
    #[tactic(auto, using(crate::proofs::Ledgers::next_is_of))]
    fn begin<B: Book>(
        &mut self,
        request: &mut Fragment,
        alloc: Global,
        now: u64,
        target: u8,
        book: &mut B,
    ) -> Result<RelayedStep, BookFault>
        requires idle { master.is_idle self.old.master ≡ true }
        requires none { self.old.progress ≡ None }
        ensures book { says.LeavesBook B.honest B.is_stopped B.contents BookFault.Device book.old book.new result }
        ensures unchanged { OnErr result (self.new ≡ self.old) }
        ensures left { OnErr result (request.new ≡ request.old) }
        ensures left_alone { IfOk result (λ answer. says.has_request answer ≡ false → request.new ≡ request.old) }
        ensures memory { result ≡ Err BookFault.Memory → IsTrue B.asks_memory }
        ensures told { B.honest book.new → IfOk result (λ answer.
            says.Tells self.old.master.seq (spec.step_of_entry (next_of (B.contents book.old).entries target)) (says.with_request answer request.new)) }
        ensures after { B.honest book.new → OnOk result (self.new
            ≡ spec.relaying_after self.old now (spec.step_of_entry (next_of (B.contents book.old).entries target))) }
        ensures same { B.honest book.new → B.contents book.new ≡ B.contents book.old }
        ensures moves { IfOk result (λ answer. says.moves_of (says.with_request answer request.new) ≡ []) }
        ensures least { B.honest book.new → IfOk result (λ answer.
            says.IfSelecting (says.with_request answer request.new) (says.IsLeast (B.contents book.old).entries target)) }
        ensures own { B.honest book.new → OnOk result (says.IsOf (B.contents book.new).entries target self.new.progress) }
        ensures named { IfErr result (λ e. (e ≢ BookFault.NoControl) × (e ≢ BookFault.NotPending) × (e ≢ BookFault.Exhausted)) }
        ensures stopped { IsTrue (B.is_stopped book.old) → result ≡ Err BookFault.Device }
    {
        the_next_entry_is_the_least();
        match book.next(alloc, target)? {
            Some(entry) => {
                self.select(request, now, entry.id, entry.command);
                Ok(RelayedStep::Selecting(entry.id))
            }
            None => Ok(RelayedStep::Nothing),
        }
    }

    /// Goes on with the control in progress. The request, if there is one, is put into the fragment.
    fn go_on<B: Book>(
        &mut self,
        request: &mut Fragment,
        alloc: Global,
        now: u64,
        progress: Progress,
        book: &mut B,
    ) -> Result<RelayedStep, BookFault>
        requires idle { master.is_idle self.old.master ≡ true }
        requires is { self.old.progress ≡ Some progress }
        ensures book { says.LeavesBook B.honest B.is_stopped B.contents BookFault.Device book.old book.new result }
        ensures unchanged { OnErr result (self.new ≡ self.old) }
        ensures left { OnErr result (request.new ≡ request.old) }
        ensures left_alone { IfOk result (λ answer. says.has_request answer ≡ false → request.new ≡ request.old) }
        ensures memory { result ≡ Err BookFault.Memory → IsTrue B.asks_memory }
        ensures told { IfOk result (λ answer.
            says.Tells self.old.master.seq (spec.step_of_progress self.old.master.selected progress progress.stage) (says.with_request answer request.new)) }
        ensures after { OnOk result (self.new
            ≡ spec.relaying_after self.old now (spec.step_of_progress self.old.master.selected progress progress.stage)) }
        ensures ledger { B.honest book.new → OnOk result (B.contents book.new
            ≡ spec.ledger_after (B.contents book.old) (spec.step_of_progress self.old.master.selected progress progress.stage)) }
        ensures granted { B.honest book.new → IfOk result (λ answer.
            AreGranted (B.contents book.old) (says.moves_of (says.with_request answer request.new))) }
        ensures spent { B.honest book.new → IfOk result (λ answer.
            says.IfSent (says.with_request answer request.new) (says.IsSpentBy (B.contents book.old) (B.contents book.new))) }
        ensures own { B.honest book.new → (target : ℕ) → says.IsOf (B.contents book.old).entries target self.old.progress
            → OnOk result (says.IsOf (B.contents book.new).entries target self.new.progress) }
        ensures named { IfErr result (λ e. e ≢ BookFault.Exhausted) }
        ensures no_control { B.honest book.new → result ≡ Err BookFault.NoControl → entry_of (B.contents book.old).entries progress.id ≡ None }
        ensures not_pending { B.honest book.new → result ≡ Err BookFault.NotPending
            → Has (B.contents book.old).entries progress.id (λ state. not (is_pending state)) }
        ensures past { B.honest book.new → result ≡ Err BookFault.NotPending
            → says.IsPast (B.contents book.old).entries (spec.step_of_progress self.old.master.selected progress progress.stage) }
        ensures unasked { says.asks_stage self.old.master.selected progress progress.stage ≡ false → (book.new ≡ book.old) × IsOk result }
        ensures stopped { says.asks_stage self.old.master.selected progress progress.stage ≡ true
            → IsTrue (B.is_stopped book.old) → result ≡ Err BookFault.Device }
    {
        let Progress { id, command, stage } = progress;
        match stage {
            Stage::Known(status) => {
                book.finish(alloc, id, status)?;
                self.progress = None;
                Ok(RelayedStep::Finished(id, status))
            }
            Stage::Selected if self.stands(&command) => {
                book.spend(alloc, id)?;
                self.operate(request, now, id, command);
                Ok(RelayedStep::Sent(id))
            }
            Stage::Selected | Stage::Selecting => {
                self.select(request, now, id, command);
                Ok(RelayedStep::Selecting(id))
            }
            Stage::Operating => Ok(RelayedStep::Nothing),
        }
    }

    /// One step of relaying controls for the target, at this moment, in milliseconds. On an open, idle link
    /// it is the first of these that fits: the control in progress whose outcome is known is finished in
    /// the book; the one whose select stands at the master is spent in the book, and only then its OPERATE
    /// is asked; the one whose select stands no longer is selected again; the least pending one is
    /// selected.
    ///
    /// Its request, if it has one, is put into the caller's fragment, in place of what was there; else that is left as it is.
    /// Refused by the book alone, and then nothing has changed.
    pub fn relay_into<B: Book>(
        &mut self,
        request: &mut Fragment,
        alloc: Global,
        now: u64,
        target: u8,
        book: &mut B,
    ) -> Result<RelayedStep, BookFault>
        ensures book { says.GoesByBook B.honest B.is_stopped B.contents B.asks_memory self.old target book.old book.new result }
        ensures unchanged { OnErr result (self.new ≡ self.old) }
        ensures left { OnErr result (request.new ≡ request.old) }
        ensures left_alone { IfOk result (λ answer. says.has_request answer ≡ false → request.new ≡ request.old) }
        ensures told { B.honest book.new → IfOk result (λ answer.
            says.Tells self.old.master.seq (spec.step_of self.old (B.contents book.old).entries target) (says.with_request answer request.new)) }
        ensures after { B.honest book.new → OnOk result (self.new
            ≡ spec.relaying_after self.old now (spec.step_of self.old (B.contents book.old).entries target)) }
        ensures ledger { B.honest book.new → OnOk result (B.contents book.new
            ≡ spec.ledger_after (B.contents book.old) (spec.step_of self.old (B.contents book.old).entries target)) }
        // The book grants what the answer tells.
        ensures granted { B.honest book.new → IfOk result (λ answer.
            AreGranted (B.contents book.old) (says.moves_of (says.with_request answer request.new))) }
        ensures moved { B.honest book.new → IfOk result (λ answer. B.contents book.new ≡ after (B.contents book.old) (says.moves_of (says.with_request answer request.new))) }
        // What is sent was pending, and is spent by this very call.
        ensures spent { B.honest book.new → IfOk result (λ answer.
            says.IfSent (says.with_request answer request.new) (says.IsSpentBy (B.contents book.old) (B.contents book.new))) }
        // Where none is in progress, the pending one of the least id comes.
        ensures least { B.honest book.new → self.old.progress ≡ None → IfOk result (λ answer.
            says.IfSelecting (says.with_request answer request.new) (says.IsLeast (B.contents book.old).entries target)) }
        ensures own { B.honest book.new → says.IsOf (B.contents book.old).entries target self.old.progress
            → OnOk result (says.IsOf (B.contents book.new).entries target self.new.progress) }
    {
        if !self.master.idle() {
            return Ok(RelayedStep::Nothing);
        }
        match self.progress {
            Some(progress) => self.go_on(request, alloc, now, progress, book),
            None => self.begin(request, alloc, now, target, book),
        }
    }
}
