//! What a master does with what comes.

ghost use Rattle.std.specs.Prelude.{◌≡◌, ◌≢◌, ◌+◌, ◌<◌, ◌⊎◌, false, true, [], All, IsTrue, OnOk, IfOk, IfErr, OnErr, Err, length};
ghost use Rattle.std.specs.Result.{IsOkAnd};
ghost use Rattle.dnp_objects.specs.Events.{IsEvent};
ghost use Rattle.dnp_appfragment.specs.Whole.{response as answered};
ghost use Rattle.dnp_master.specs.Calls.{actions_of, follow_of, followed_of, has_rows, is_awaited, receive_of};
ghost use Rattle.dnp_master.specs.Sinks.{IsSinkFault, LeavesSink};
ghost use Rattle.dnp_master.specs.Taking.{IsFit, WorksOut, taking_of};

use crate::actions::{Followed, MasterActions};
use crate::fault::MasterFault;
use crate::master::Master;
use crate::request::Case;
use crate::taking::{SeenFragment, confirm_for};
use dnp_appfragment::Response;
use dnp_eventbuf::{Rows, Sink};
use dnp_objects::Row;
use std::alloc::Global;

/// Gives rows to the sink by one append, if there are any: those that it dropped for them.
fn give<S: Sink>(
    sink: &mut S,
    alloc: Global,
    events: &[Row],
    statics: &[Row],
) -> Result<Rows, MasterFault>
    requires { All IsEvent events.now }
    ensures sink { LeavesSink S.honest S.is_stopped S.keeps sink.old sink.new result }
    ensures spared { length events.now + length statics.now ≡ 0 → (sink.new ≡ sink.old) × IsOkAnd result (λ dropped. dropped ≡ []) }
    ensures taken { 0 < length events.now + length statics.now → S.honest sink.new
        → IfOk result (λ dropped. S.takes sink.old events.now statics.now dropped sink.new) }
    ensures stopped { 0 < length events.now + length statics.now → IsTrue (S.is_stopped sink.old) → result ≡ Err MasterFault.Device }
    ensures not_exhausted { 0 < length events.now + length statics.now → S.honest sink.new
        → OnOk result (S.exhausts sink.old events.now ≡ false) }
    ensures exhausted { S.honest sink.new → IfErr result (λ e. e ≡ MasterFault.Exhausted → IsTrue (S.exhausts sink.old events.now)) }
    ensures exhausted_first { S.honest sink.new → IfErr result (λ e. e ≡ MasterFault.Memory → S.exhausts sink.old events.now ≡ false) }
    ensures named { IfErr result IsSinkFault }
{
    if events.is_empty() && statics.is_empty() {
        return Ok(Rows::new(alloc));
    }
    let dropped = sink.append(alloc, events, statics)?;
    Ok(Rows::of(dropped))
}

impl Master {
    /// Makes look-ups in the plan quick, while the master is open.
    fn prepare(&mut self, alloc: Global)
        ensures { self.new ≡ self.old }
    {
        if self.is_open {
            self.plan.prepare(alloc);
        }
    }

    /// Looks at octets that came at this moment, in milliseconds: what they hold, and what they make of the master
    /// once they are settled. Nothing changes, and nothing is sent, before `settle`: for callers who store the
    /// rows themselves in between.
    ///
    /// Refused is, first of all, what is no response (`Malformed`), then an event of a point that the plan lacks,
    /// or that has no class (`Stranger`), and then being out of memory for the rows (`Memory`).
    pub fn look(
        &mut self,
        alloc: Global,
        now: u64,
        octets: &[u8],
    ) -> Result<SeenFragment, MasterFault>
        ensures same { self.new ≡ self.old }
        ensures looked { WorksOut self.old (receive_of self.old now octets.now) result }
    {
        self.prepare(alloc);
        self.take(alloc, now, octets)
    }

    /// Settles what `look` has found, its rows being stored: the master goes on, and its confirm may be sent. Told
    /// are the rows that the store dropped for them.
    pub fn settle(&mut self, taken: SeenFragment, dropped: Rows) -> MasterActions
        requires { IsFit taken }
        ensures after { self.new ≡ (taking_of self.old taken).state }
        ensures actions { result ≡ actions_of (taking_of self.old taken) dropped }
    {
        let count = taken.events().len();
        let next = taken.next;
        self.seq = next.seq;
        self.request = next.request;
        self.selected = next.selected;
        MasterActions {
            send: taken.send,
            taken: count,
            dropped,
            outcome: next.outcome,
            restart: taken.restart,
        }
    }

    /// Whether it takes this response, whatever the plan says of its rows: the next fragment of the response that is
    /// awaited, or, at any time, a response in one fragment that nobody asked for.
    pub fn awaits(&self, response: &Response<'_>) -> bool
        ensures { result ≡ is_awaited self.now (answered response.now) }
    {
        self.is_open
            && match self.case(response) {
                Case::Unheeded => false,
                Case::Report | Case::Awaited(_) => true,
            }
    }

    /// Takes a response that came at this moment, in milliseconds, whose rows the caller has given on, whatever the
    /// plan says of them: the master goes on, and the confirm may be sent. A response that it doesn't await
    /// changes nothing, and nothing is to be sent.
    pub fn follow(&mut self, now: u64, response: &Response<'_>) -> Followed
        ensures after { self.new ≡ (follow_of self.old now (answered response.now)).state }
        ensures answer { result ≡ followed_of (follow_of self.old now (answered response.now)) }
    {
        if !self.is_open {
            return Followed::NOTHING;
        }
        let next = match self.case(response) {
            Case::Unheeded => return Followed::NOTHING,
            Case::Report => self.unchanged(),
            Case::Awaited(request) => self.advance(now, &request, response),
        };
        self.seq = next.seq;
        self.request = next.request;
        self.selected = next.selected;
        Followed {
            send: confirm_for(response.control),
            outcome: next.outcome,
        }
    }

    /// Takes in octets that came at this moment, in milliseconds: what a closed master, and one that awaits
    /// none of this, passes over, is answered Ok too, and nothing has happened then.
    ///
    /// Taken is the next fragment of the response that is awaited, and, at any time, a response in one
    /// fragment that nobody asked for. Its events, and beside them its present values of points that the
    /// plan has, are given to the sink by one append, in order, if there are any. Only then is the
    /// fragment confirmed, if it asks for that, and only then does anything change.
    ///
    /// Refused is, first of all, what is no response (`Malformed`), and then an event of a point that the
    /// plan lacks, or that has no class (`Stranger`): nothing was asked of the sink. Last comes being out
    /// of memory for the rows (`Memory`), and what the sink refuses (`Exhausted`, `Memory`, `Device`).
    pub fn receive<S: Sink>(
        &mut self,
        alloc: Global,
        now: u64,
        octets: &[u8],
        sink: &mut S,
    ) -> Result<MasterActions, MasterFault>
        // What is refused for itself, whatever the sink.
        ensures refused { IfErr (receive_of self.old now octets.now) (λ fault. result ≡ Err fault) }
        // All else is refused out of memory or by the sink, and only where there are rows.
        ensures named { IfErr result (λ fault. (receive_of self.old now octets.now ≡ Err fault)
            ⊎ (IsSinkFault fault × IsOkAnd (receive_of self.old now octets.now) (λ t. IsTrue (has_rows t)))) }
        ensures unchanged { OnErr result (self.new ≡ self.old) }
        ensures after { OnOk result (IfOk (receive_of self.old now octets.now) (λ t. self.new ≡ t.state)) }
        ensures actions { IfOk result (λ a. IfOk (receive_of self.old now octets.now) (λ t. a ≡ actions_of t a.dropped)) }
        // The rows are given to the sink by one append.
        ensures taken { S.honest sink.new → IfOk result (λ a. IfOk (receive_of self.old now octets.now) (λ t.
            IsTrue (has_rows t) → S.takes sink.old t.events t.statics a.dropped sink.new)) }
        // Where there are none, nothing is asked of the sink, and nothing refused.
        ensures spared { IfOk (receive_of self.old now octets.now) (λ t. has_rows t ≡ false
            → (sink.new ≡ sink.old) × IsOkAnd result (λ a. a.dropped ≡ [])) }
        ensures unasked { OnErr (receive_of self.old now octets.now) (sink.new ≡ sink.old) }
        ensures sink { LeavesSink S.honest S.is_stopped S.keeps sink.old sink.new result }
        // Once the sink's device has failed, no rows are taken.
        ensures stopped { IsTrue (S.is_stopped sink.old)
            → OnOk result (IfOk (receive_of self.old now octets.now) (λ t. has_rows t ≡ false)) }
        ensures not_exhausted { S.honest sink.new → OnOk result (IfOk (receive_of self.old now octets.now) (λ t.
            IsTrue (has_rows t) → S.exhausts sink.old t.events ≡ false)) }
        ensures exhausted { S.honest sink.new → IfErr result (λ fault. fault ≡ MasterFault.Exhausted
            → IfOk (receive_of self.old now octets.now) (λ t. IsTrue (S.exhausts sink.old t.events))) }
        // Out of memory it is before the sink is asked, or where the numbers are there.
        ensures exhausted_first { S.honest sink.new → IfErr result (λ fault. fault ≡ MasterFault.Memory
            → (sink.new ≡ sink.old) ⊎ IfOk (receive_of self.old now octets.now) (λ t. S.exhausts sink.old t.events ≡ false)) }
    {
        let taken = self.look(alloc, now, octets)?;
        let dropped = give(sink, alloc, taken.events(), taken.statics())?;
        Ok(self.settle(taken, dropped))
    }
}
