//! What comes on a link whose master relays controls.

ghost use Rattle.std.specs.Prelude.{◌≡◌, ◌⊎◌, true, false, [], Ok, Err, IsTrue, IfOk, IfErr, OnOk, OnErr};
ghost use Rattle.std.specs.Result.{IsOkAnd};
ghost use Rattle.dnp_master.specs.Calls.{actions_of, has_rows, receive_of};
ghost use Rattle.dnp_master.specs.Sinks.{IsSinkFault, LeavesSink};
ghost use Rattle.dnp_master.specs.Taking.{IsFit, WorksOut, taking_of};
ghost use Rattle.dnp_concentrator.specs.Relaying as spec;

use crate::progress::Progress;
use crate::relay::Relay;
use dnp_eventbuf::Sink;
use dnp_master::{MasterActions, MasterFault, Outcome, Rows, SeenFragment};
use std::alloc::Global;

/// What an outcome of the master's task makes of the control in progress.
fn heard(progress: Option<Progress>, outcome: &Option<Outcome>) -> Option<Progress>
    ensures { result ≡ spec.progress_heard progress outcome.now }
{
    let Progress { id, command, stage } = progress?;
    let stage = match outcome {
        Some(outcome) => stage.heard(outcome),
        None => stage,
    };
    Some(Progress { id, command, stage })
}

impl Relay {
    /// Looks at octets that came at this moment, in milliseconds, as the master does, with the same refusals.
    pub fn look(
        &mut self,
        alloc: Global,
        now: u64,
        octets: &[u8],
    ) -> Result<SeenFragment, MasterFault>
        ensures same { self.new ≡ self.old }
        ensures looked { WorksOut self.old.master (receive_of self.old.master now octets.now) result }
    {
        self.master.look(alloc, now, octets)
    }

    /// Settles what `look` has found, as the master does; where the response to a request of the control in progress
    /// came to its end, the outcome is the control's.
    pub fn settle(&mut self, taken: SeenFragment, dropped: Rows) -> MasterActions
        requires { IsFit taken }
        ensures after { self.new ≡ spec.received self.old (taking_of self.old.master taken) }
        ensures actions { result ≡ actions_of (taking_of self.old.master taken) dropped }
    {
        let actions = self.master.settle(taken, dropped);
        self.progress = heard(self.progress, &actions.outcome);
        actions
    }

    /// Takes in octets that came at this moment, in milliseconds, as the master does, with the same refusals;
    /// where the response to a request of the control in progress came to its end, the outcome is the
    /// control's.
    pub fn receive<S: Sink>(
        &mut self,
        alloc: Global,
        now: u64,
        octets: &[u8],
        sink: &mut S,
    ) -> Result<MasterActions, MasterFault>
        ensures refused { IfErr (receive_of self.old.master now octets.now) (λ fault. result ≡ Err fault) }
        ensures named { IfErr result (λ fault. (receive_of self.old.master now octets.now ≡ Err fault)
            ⊎ (IsSinkFault fault × IsOkAnd (receive_of self.old.master now octets.now) (λ t. IsTrue (has_rows t)))) }
        ensures unchanged { OnErr result (self.new ≡ self.old) }
        ensures after { OnOk result (IfOk (receive_of self.old.master now octets.now) (λ t. self.new ≡ spec.received self.old t)) }
        ensures actions { IfOk result (λ a. IfOk (receive_of self.old.master now octets.now) (λ t. a ≡ actions_of t a.dropped)) }
        ensures taken { S.honest sink.new → IfOk result (λ a. IfOk (receive_of self.old.master now octets.now) (λ t.
            IsTrue (has_rows t) → S.takes sink.old t.events t.statics a.dropped sink.new)) }
        ensures spared { IfOk (receive_of self.old.master now octets.now) (λ t. has_rows t ≡ false
            → (sink.new ≡ sink.old) × IsOkAnd result (λ a. a.dropped ≡ [])) }
        ensures unasked { OnErr (receive_of self.old.master now octets.now) (sink.new ≡ sink.old) }
        ensures sink { LeavesSink S.honest S.is_stopped S.keeps sink.old sink.new result }
        ensures stopped { IsTrue (S.is_stopped sink.old)
            → OnOk result (IfOk (receive_of self.old.master now octets.now) (λ t. has_rows t ≡ false)) }
        ensures not_exhausted { S.honest sink.new → OnOk result (IfOk (receive_of self.old.master now octets.now) (λ t.
            IsTrue (has_rows t) → S.exhausts sink.old t.events ≡ false)) }
        ensures exhausted { S.honest sink.new → IfErr result (λ fault. fault ≡ MasterFault.Exhausted
            → IfOk (receive_of self.old.master now octets.now) (λ t. IsTrue (S.exhausts sink.old t.events))) }
        ensures exhausted_first { S.honest sink.new → IfErr result (λ fault. fault ≡ MasterFault.Memory
            → (sink.new ≡ sink.old) ⊎ IfOk (receive_of self.old.master now octets.now) (λ t. S.exhausts sink.old t.events ≡ false)) }
    {
        let actions = self.master.receive(alloc, now, octets, sink)?;
        self.progress = heard(self.progress, &actions.outcome);
        Ok(actions)
    }
}
