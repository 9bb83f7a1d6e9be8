//! Sends the fragments of responses.

ghost use Rattle.std.specs.Prelude.{◌≡◌, ◌<◌, ◌≤◌, ℕ, All, length, false, not, ◌&&◌, if◌then◌else◌, is_none, None, Some, IsSome, IsTrue};
ghost use Rattle.std.specs.Result.{is_ok};
ghost use Rattle.dnp_appfragment.specs.declared.function.Function.TheVariants as function;
ghost use Rattle.dnp_appfragment.specs.Meaning.{request_at};
ghost use Rattle.dnp_controls.specs.Selecting.{deadline};
ghost use Rattle.dnp_outstation.specs.steps.Answering.{content_by, sent_by, KeepsWhole};
ghost use Rattle.dnp_outstation.specs.State.{State, with_session, nothing, sending};
ghost use Rattle.dnp_outstation.specs.Connection.{has_rows, asks_confirm, fragment_of, further_sent, responds, responds_further};
ghost use Rattle.dnp_outstation.specs.Station.{actions_of, HasRoom};

use crate::actions::Actions;
use crate::answer::Answer;
use crate::indications::indications;
use crate::kept::KeptFragment;
use crate::offer::writer::Writer;
use crate::sequence::SequenceNumber;
use crate::session::{Awaited, FirstFragment, LastRequest, Reply, Session};
use dnp_appfragment::{Control, Iin};
use dnp_eventbuf::{Lanes, Upto};

/// Whether there are rows up to these ids.
fn has_rows(upto: &Upto) -> bool
    ensures { result ≡ has_rows upto.now }
{
    for id in upto {
        if *id > 0 {
            return true;
        }
    }
    false
}

/// Whether a fragment asks for a confirm: each but the last does, and the last does where it holds events.
pub(crate) fn asks_confirm(writer: &Writer, answer: &Answer) -> bool
    ensures { result ≡ asks_confirm (content_by writer.now answer.now) }
{
    answer.left.is_some() || has_rows(&writer.upto)
}

/// The control octet of a fragment.
fn control(is_first: bool, asks_confirm: bool, seq: SequenceNumber, answer: &Answer) -> Control
    ensures { result ≡ record { fir = is_first; fin = is_none answer.now.left; con = asks_confirm; uns = false; seq = seq } }
{
    Control {
        fir: is_first,
        fin: answer.left.is_none(),
        con: asks_confirm,
        uns: false,
        seq: seq.number(),
    }
}

/// What stands before the headers of a fragment of a response.
#[derive(Clone, Copy)]
struct Front {
    control: Control,
    iin: Iin,
}

/// The front of a fragment of a response, as it is sent.
fn front_of<L: Lanes>(
    writer: &Writer,
    lanes: &mut L,
    is_first: bool,
    seq: SequenceNumber,
    answer: &Answer,
) -> Front
    requires bits { answer.now.bits < 8 }
    ensures same { lanes.new ≡ lanes.old }
    ensures value { L.honest lanes.new → (s : State) → s.lanes ≡ L.contents lanes.new → s.core.restart ≡ answer.now.switches.restart
        → sent_by result writer.now ≡ fragment_of s is_first seq (content_by writer.now answer.now) }
{
    let iin = indications(lanes, answer.switches.restart, &writer.upto, answer.bits);
    let asks_confirm = asks_confirm(writer, answer);
    let control = control(is_first, asks_confirm, seq, answer);
    Front { control, iin }
}

impl KeptFragment {
    /// Keeps the fragment that stands in the writer, with this front.
    fn keep_sent(&mut self, writer: &mut Writer, front: Front)
        requires { writer.old.builder.function ≡ function.Response }
        ensures writer { writer.new ≡ writer.old }
        ensures whole { 4 ≤ length self.new }
        ensures value { self.new ≡ sent_by front writer.old }
    {
        // What is left says that the fragment fits.
        let _left = writer.builder.left();
        self.keep(writer.builder.fragment(front.control, front.iin));
    }
}

impl Actions {
    /// The confirmed rows that stand here as discarded already leave, and the fragment that stands in the writer is
    /// sent, with this front.
    fn set_further(&mut self, writer: &mut Writer, front: Front)
        requires { writer.old.builder.function ≡ function.Response }
        ensures writer { writer.new ≡ writer.old }
        ensures whole { 4 ≤ length (sent_by front writer.old) }
        ensures value { actions_of self.new ≡ record (sending (sent_by front writer.old)) { discarded = self.old.discarded } }
        ensures room { HasRoom self.new }
    {
        // What is left says that the fragment fits.
        let _left = writer.builder.left();
        self.set_going_on(writer.builder.fragment(front.control, front.iin));
    }
}

impl Session {
    /// The confirm of a fragment, if it asks for one, is awaited until `ends`. Where it asks for none, nothing is moved.
    fn await_confirm(&mut self, asks_confirm: bool, seq: SequenceNumber, upto: &Upto, ends: u64)
        ensures { self.new ≡ record self.old { awaited = (if asks_confirm then Some (record { seq = seq; upto = upto.now; ends = ends }) else None) } }
    {
        if asks_confirm {
            self.awaited = Some(Awaited {
                seq,
                upto: *upto,
                ends,
            });
        } else {
            self.awaited = None;
        }
    }
}

impl Session {
    /// Whether no confirm is awaited once what stands in the writer was sent.
    pub(crate) fn is_free_sent(&self, writer: &Writer, answer: &Answer) -> bool
        ensures { result ≡ (not (asks_confirm (content_by writer.now answer.now)) && is_none self.now.unsolicited) }
    {
        !asks_confirm(writer, answer) && self.unsolicited.is_none()
    }

    /// What stands in the writer is sent as the first fragment of the response to the last request. Its
    /// confirm, if it asks for one, is awaited until `ends`. Where the response goes on, the request was read, and what
    /// goes on need not check it again.
    pub(crate) fn respond<L: Lanes>(
        &mut self,
        writer: &mut Writer,
        lanes: &mut L,
        answer: &Answer,
        seq: SequenceNumber,
        ends: u64,
    )
        requires response { writer.old.builder.function ≡ function.Response }
        requires bits { answer.now.bits < 8 }
        requires goes_on { IsSome answer.now.left → IsTrue (is_ok (request_at self.old.request)) }
        ensures same { lanes.new ≡ lanes.old }
        ensures sends { L.honest lanes.new → (s : State) (now : ℕ) → s.lanes ≡ L.contents lanes.new → s.core.restart ≡ answer.now.switches.restart
            → s.core.session ≡ self.old → ends ≡ deadline now s.core.times.confirm_ms
            → responds s now answer.now.stood seq (content_by writer.old answer.now)
            ≡ record { state = with_session s self.new; does = sending self.new.response } }
        ensures unsolicited { self.new.unsolicited ≡ self.old.unsolicited }
        ensures whole { 4 ≤ length self.new.response }
        ensures keeps { KeepsWhole self.old → KeepsWhole self.new }
    {
        self.request.know(answer.left.is_some());
        let front = front_of(writer, lanes, true, seq, answer);
        self.response.keep_sent(writer, front);
        let is_awaited = asks_confirm(writer, answer);
        self.last = Some(LastRequest {
            reply: Reply::First(FirstFragment {
                upto: writer.upto,
                is_awaited,
            }),
            stood: answer.stood,
            left: answer.left,
        });
        self.await_confirm(is_awaited, seq, &writer.upto, ends);
    }

    /// The first fragment is sent again, and its confirm, where it is awaited again, until `ends`.
    pub(crate) fn await_again(&mut self, awaits: bool, seq: SequenceNumber, upto: &Upto, ends: u64)
        ensures value { self.new ≡ (if awaits then record self.old { awaited = Some (record { seq = seq; upto = upto.now; ends = ends }) } else self.old) }
        ensures response { self.new.response ≡ self.old.response }
        ensures keeps { KeepsWhole self.old → KeepsWhole self.new }
    {
        if awaits {
            self.await_confirm(true, seq, upto, ends);
        }
    }

    /// A further fragment of the response was sent.
    fn went_on(&mut self, writer: &Writer, answer: &Answer, seq: SequenceNumber, ends: u64)
        ensures sent { (now confirm_ms : ℕ) → ends ≡ deadline now confirm_ms
            → self.new ≡ further_sent self.old now confirm_ms answer.now.stood seq (content_by writer.now answer.now) }
        ensures unsolicited { self.new.unsolicited ≡ self.old.unsolicited }
        ensures keeps { KeepsWhole self.old → KeepsWhole self.new }
    {
        self.last = Some(LastRequest {
            reply: Reply::Further,
            stood: answer.stood,
            left: answer.left,
        });
        let is_awaited = asks_confirm(writer, answer);
        self.await_confirm(is_awaited, seq, &writer.upto, ends);
    }

    /// The same as a further fragment of it. The confirmed rows that stand in the actions as discarded already leave
    /// before it.
    pub(crate) fn respond_further<L: Lanes>(
        &mut self,
        actions: &mut Actions,
        writer: &mut Writer,
        lanes: &mut L,
        answer: &Answer,
        seq: SequenceNumber,
        ends: u64,
    )
        requires response { writer.old.builder.function ≡ function.Response }
        requires bits { answer.now.bits < 8 }
        ensures discarded { actions_of actions.new ≡ record nothing { send = (actions_of actions.new).send; discarded = actions.old.discarded } }
        ensures room { HasRoom actions.new }
        ensures same { lanes.new ≡ lanes.old }
        ensures sends { L.honest lanes.new → (s : State) (now : ℕ) → s.lanes ≡ L.contents lanes.new → s.core.restart ≡ answer.now.switches.restart
            → s.core.session ≡ self.old → ends ≡ deadline now s.core.times.confirm_ms
            → responds_further s now answer.now.stood seq (content_by writer.old answer.now)
            ≡ record { state = with_session s self.new; does = record nothing { send = (actions_of actions.new).send } } }
        ensures unsolicited { self.new.unsolicited ≡ self.old.unsolicited }
        ensures whole { All (λ fragment. 4 ≤ length fragment) (actions_of actions.new).send }
        ensures keeps { KeepsWhole self.old → KeepsWhole self.new }
    {
        let front = front_of(writer, lanes, false, seq, answer);
        actions.set_further(writer, front);
        self.went_on(writer, answer, seq, ends);
    }
}
