//! Control requests: the outputs carry them out.

ghost use Rattle.std.specs.Prelude.{All, ◌⊎◌, ◌≡◌, ◌≢◌, ◌<◌, ◌≤◌, ℕ, [], true, false, IsErr, IfErr, IfSome, OnOk, OnErr, IsTrue, None, Err, length, option_map};
ghost use Rattle.dnp_appfragment.specs.declared.function.Function.TheVariants as function;
ghost use Rattle.dnp_controls.specs.Selecting.{deadline};
ghost use Rattle.dnp_eventbuf.specs.EventBuffer.{rows_in};
ghost use Rattle.dnp_objects.specs.declared.limits.TheConstants.{MAX_FRAGMENT};
ghost use Rattle.dnp_outstation.specs.steps.Answering.{content_by, KeepsWhole};
ghost use Rattle.dnp_outstation.specs.Connection.{on_request, at_end, replied};
ghost use Rattle.dnp_outstation.specs.Controls.{is_control};
ghost use Rattle.dnp_outstation.specs.Calls.{performed_at};
ghost use Rattle.dnp_outstation.specs.Items.{last_in};
ghost use Rattle.dnp_outstation.specs.State.{State, with_session};
ghost use Rattle.dnp_outstation.specs.Station.{state_of, actions_of, HasRoom};
ghost use Rattle.dnp_outstation.specs.Stores.{KeepsLanes, KeepsOutputs};

use crate::actions::Actions;
use crate::answer::Answer;
use crate::connection::deadline;
use crate::controls::execute_control;
use crate::ending::write_ending;
use crate::offer::writer::Writer;
use crate::outstation_core::OutstationCore;
use crate::released::last_left;
use crate::sequence::SequenceNumber;
use crate::session::Session;
use dnp_appfragment::Control;
use dnp_controls::Outputs;
use dnp_eventbuf::{Lanes, StoreFault};
use std::alloc::Global;

impl Session {
    /// A request is answered, under its number, by what stands in the writer, or by nothing. Its confirm, if
    /// it asks for one, is awaited until `ends`.
    fn reply<L: Lanes>(
        &mut self,
        actions: &mut Actions,
        writer: &mut Writer,
        lanes: &mut L,
        answer: &Option<Answer>,
        seq: SequenceNumber,
        ends: u64,
    )
        requires response { IfSome answer.now (λ a. writer.old.builder.function ≡ function.Response) }
        requires small { IfSome answer.now (λ a. a.bits < 8) }
        requires alone { IfSome answer.now (λ a. a.left ≡ None) }
        ensures same { lanes.new ≡ lanes.old }
        ensures replies { L.honest lanes.new → (s : State) (now : ℕ) → s.lanes ≡ L.contents lanes.new
            → IfSome answer.now (λ a. (s.core.restart ≡ a.switches.restart) × (a.stood ≡ last_in s.lanes) × (a.time ≡ None))
            → s.core.session ≡ self.old → ends ≡ deadline now s.core.times.confirm_ms
            → replied now seq (record { state = s; content = option_map (content_by writer.old) answer.now; time = None })
            ≡ record { state = with_session s self.new; does = actions_of actions.new } }
        ensures room { HasRoom actions.new }
        ensures whole { All (λ fragment. 4 ≤ length fragment) (actions_of actions.new).send }
        ensures keeps { KeepsWhole self.old → KeepsWhole self.new }
    {
        match answer {
            Some(answer) => {
                self.respond(writer, lanes, answer, seq, ends);
                actions.set_sending(self.response.octets());
            }
            None => {
                self.stay_silent();
                actions.set_nothing();
            }
        }
    }
}

impl OutstationCore {
    /// A control request, other than the last request: the outputs carry it out, and it is answered.
    pub(crate) fn control<L: Lanes, O: Outputs>(
        &mut self,
        actions: &mut Actions,
        alloc: Global,
        lanes: &mut L,
        outputs: &mut O,
        now: u64,
        octets: &[u8],
    ) -> Result<(), StoreFault>
        requires some { 2 ≤ length octets.now }
        requires few { length octets.now ≤ MAX_FRAGMENT }
        requires control { is_control octets.now ≡ true }
        ensures lanes { KeepsLanes L.honest L.is_stopped L.contents L.beside L.place StoreFault.Device lanes.old lanes.new result }
        ensures outputs { KeepsOutputs O.honest O.is_stopped O.panel O.performs O.exhausts (O.may_fault StoreFault.Exhausted) StoreFault.Exhausted StoreFault.Device
            (performed_at self.old (O.panel outputs.old) now octets.now) outputs.old outputs.new result }
        ensures answered { L.honest lanes.new → O.honest outputs.new → OnOk result (
            at_end now (on_request (state_of self.old (L.contents lanes.old) (O.panel outputs.old)) (O.panel outputs.old) now octets.now)
            ≡ record { state = state_of self.new (L.contents lanes.new) (O.panel outputs.new); does = actions_of actions.new }) }
        ensures whole { OnOk result (All (λ fragment. 4 ≤ length fragment) (actions_of actions.new).send) }
        ensures unchanged { OnErr result (self.new ≡ self.old) }
        ensures actions_unchanged { OnErr result (actions.new ≡ actions.old) }
        ensures same { L.honest lanes.new → L.contents lanes.new ≡ L.contents lanes.old }
        ensures device { result ≡ Err StoreFault.Device → IsTrue (L.is_stopped lanes.new) ⊎ IsTrue (O.is_stopped outputs.new) }
        ensures memory { L.honest lanes.new → result ≡ Err StoreFault.Memory → L.asks_memory ≡ false
            → (rows_in (L.contents lanes.old) ≢ []) ⊎ (performed_at self.old (O.panel outputs.old) now octets.now ≢ []) }
        ensures memory_named { L.honest lanes.new → result ≡ Err StoreFault.Memory → L.asks_memory ≡ false
            → (rows_in (L.contents lanes.old) ≢ []) ⊎ IsTrue (O.may_fault StoreFault.Memory) }
        ensures faults { IfErr result (λ e. IsTrue (L.may_fault e) ⊎ IsTrue (O.may_fault e)) }
        ensures exhausted_first { L.honest lanes.new → O.honest outputs.new → result ≡ Err StoreFault.Memory → L.asks_memory ≡ false
            → (rows_in (L.contents lanes.old) ≢ []) ⊎ (O.exhausts outputs.old (performed_at self.old (O.panel outputs.old) now octets.now) → ⊥) }
        ensures asks { IsErr result → (self.old.times.unsolicited ≡ true) ⊎ (performed_at self.old (O.panel outputs.old) now octets.now ≢ []) }
        ensures asks_announced { IsErr result → (self.old.announced ≡ true) ⊎ (performed_at self.old (O.panel outputs.old) now octets.now ≢ []) }
    {
        let switches = self.switches();
        let stood = last_left(lanes, &None);
        let free = self.session.unsolicited.is_none();
        let is_due = self.is_due(self.announced, self.is_open, free);
        let enabled = self.enabled;
        let starts = write_ending(
            &mut self.pushes,
            alloc,
            lanes,
            &mut self.fetched,
            is_due,
            enabled,
            &None,
        )?;
        let answer = execute_control(
            &mut self.writer,
            alloc,
            outputs,
            &mut self.session.selects,
            self.times.select_ms,
            switches,
            stood,
            now,
            octets,
        )?;
        self.session.take_request(octets);
        let seq = SequenceNumber::of(Control::read(octets[0]));
        let ends = deadline(now, self.times.confirm_ms);
        self.session
            .reply(actions, &mut self.writer, lanes, &answer, seq, ends);
        self.session.end_call(actions, &mut self.pushes, lanes, starts, self.restart, ends);
        Ok(())
    }
}
