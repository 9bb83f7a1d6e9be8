//! Requests of the master, and the confirms of their responses.

ghost use Rattle.std.specs.Prelude.{All, ◌⊎◌, true, ◌≡◌, ◌≤◌, ℕ, false, IsErr, OnOk, OnErr, length};
ghost use Rattle.dnp_appfragment.specs.declared.function.Function.TheVariants as function;
ghost use Rattle.dnp_appfragment.specs.Table.{function_octet};
ghost use Rattle.dnp_controls.specs.Panel.{Panel};
ghost use Rattle.dnp_eventbuf.specs.EventBuffer.{EventBuffer};
ghost use Rattle.dnp_objects.specs.declared.limits.TheConstants.{MAX_FRAGMENT};
ghost use Rattle.dnp_outstation.specs.Calls.{with_that};
ghost use Rattle.dnp_outstation.specs.Connection.{function_in, waiting, on_request, on_again, at_end};
ghost use Rattle.dnp_outstation.specs.Controls.{is_control};
ghost use Rattle.dnp_outstation.specs.State.{State, still, is_ready};
ghost use Rattle.dnp_outstation.specs.Station.{state_of, actions_of, reads_inside};
ghost use Rattle.dnp_outstation.specs.Stores.{IsLook};

use crate::actions::Actions;
use crate::basis::Basis;
use crate::connection::deadline;
use crate::ending::write_ending;
use crate::execute::execute;
use crate::outstation_core::OutstationCore;
use crate::sequence::SequenceNumber;
use dnp_appfragment::Control;
use dnp_controls::Outputs;
use dnp_eventbuf::{Lanes, StoreFault};
use std::alloc::Global;

impl OutstationCore {
    /// Another request than the last one, and none of a control: it is executed and answered.
    pub(crate) fn ask<L: Lanes, O: Outputs>(
        &mut self,
        actions: &mut Actions,
        alloc: Global,
        lanes: &mut L,
        outputs: &O,
        now: u64,
        octets: &[u8],
    ) -> Result<(), StoreFault>
        requires some { 2 ≤ length octets.now }
        requires few { length octets.now ≤ MAX_FRAGMENT }
        requires other { is_control octets.now ≡ false }
        ensures look { IsLook L.honest L.is_stopped L.contents L.beside L.place L.asks_memory L.may_fault lanes.old lanes.new result }
        ensures answered { L.honest lanes.new → OnOk result ((p : Panel) →
            at_end now (on_request (state_of self.old (L.contents lanes.old) p) (O.panel outputs.now) now octets.now)
            ≡ record { state = state_of self.new (L.contents lanes.new) p; does = actions_of actions.new }) }
        ensures whole { OnOk result (All (λ fragment. 4 ≤ length fragment) (actions_of actions.new).send) }
        ensures unchanged { OnErr result (self.new ≡ self.old) }
        ensures actions_unchanged { OnErr result (actions.new ≡ actions.old) }
        ensures reads { IsErr result → (self.old.times.unsolicited ≡ true) ⊎ (function_in octets.now ≡ function_octet function.Read) }
        ensures asks_announced { IsErr result → (self.old.announced ≡ true) ⊎ (function_in octets.now ≡ function_octet function.Read) }
        ensures asks_inside { IsErr result → (s : State) → s.core.points ≡ self.old.points
            → (self.old.times.unsolicited ≡ true) ⊎ (reads_inside s (O.panel outputs.now) octets.now ≡ true) }
    {
        let switches = self.switches();
        let from = Basis {
            points: &self.points,
            outputs,
            switches,
            released: &None,
        };
        let answer = execute(
            &mut self.writer,
            alloc,
            lanes,
            &mut self.fetched,
            &from,
            octets,
        )?;
        let free = self.session.is_free_sent(&self.writer, &answer);
        let is_due = self.is_due(self.announced, self.is_open, free);
        let enabled = answer.switches.enabled;
        let starts = write_ending(
            &mut self.pushes,
            alloc,
            lanes,
            &mut self.fetched,
            is_due,
            enabled,
            &None,
        )?;
        self.restart = answer.switches.restart;
        self.enabled = enabled;
        self.session.new_request(octets);
        let ends = deadline(now, self.times.confirm_ms);
        self.session.respond(
            &mut self.writer,
            lanes,
            &answer,
            SequenceNumber::of(Control::read(octets[0])),
            ends,
        );
        actions.set_sending(self.session.response.octets());
        actions.time = answer.time;
        self.session.end_call(actions, &mut self.pushes, lanes, starts, self.restart, ends);
        Ok(())
    }

    /// The last request again: its first fragment goes out again, unless the response has gone past it.
    pub(crate) fn again<L: Lanes>(
        &mut self,
        actions: &mut Actions,
        alloc: Global,
        lanes: &mut L,
        now: u64,
        octets: &[u8],
    ) -> Result<(), StoreFault>
        requires { 1 ≤ length octets.now }
        ensures look { IsLook L.honest L.is_stopped L.contents L.beside L.place L.asks_memory L.may_fault lanes.old lanes.new result }
        ensures answered { L.honest lanes.new → OnOk result ((p : Panel) → let s = state_of self.old (L.contents lanes.old) p in
            at_end now (with_that s s.core.session.last (on_again s now octets.now))
            ≡ record { state = state_of self.new (L.contents lanes.new) p; does = actions_of actions.new }) }
        ensures whole { OnOk result (All (λ fragment. 4 ≤ length fragment) (actions_of actions.new).send) }
        ensures unchanged { OnErr result (self.new ≡ self.old) }
        ensures actions_unchanged { OnErr result (actions.new ≡ actions.old) }
        ensures asks { IsErr result → self.old.times.unsolicited ≡ true }
        ensures asks_ready { IsErr result → is_ready self.old ≡ true }
    {
        let Some(first) = self.session.first() else {
            return self.end_only(actions, alloc, lanes, now);
        };
        let awaits = self.session.awaits_again(&first);
        let is_due = self.is_ready_unless(awaits);
        let enabled = self.enabled;
        let starts = write_ending(
            &mut self.pushes,
            alloc,
            lanes,
            &mut self.fetched,
            is_due,
            enabled,
            &None,
        )?;
        let seq = SequenceNumber::of(Control::read(octets[0]));
        let ends = deadline(now, self.times.confirm_ms);
        self.session.await_again(awaits, seq, &first.upto, ends);
        actions.set_sending(self.session.response.octets());
        self.session.end_call(actions, &mut self.pushes, lanes, starts, self.restart, ends);
        Ok(())
    }

    /// A READ that has to wait for the confirm of an unsolicited response.
    pub(crate) fn wait(&mut self, actions: &mut Actions, octets: &[u8])
        requires some { 2 ≤ length octets.now }
        requires few { length octets.now ≤ MAX_FRAGMENT }
        ensures waits { (lanes : EventBuffer) (p : Panel) (now : ℕ) → let s = state_of self.old lanes p in
            at_end now (still (record s { core = waiting s.core octets.now }))
            ≡ record { state = state_of self.new lanes p; does = actions_of actions.new } }
        ensures whole { All (λ fragment. 4 ≤ length fragment) (actions_of actions.new).send }
    {
        self.session.new_request(octets);
        self.session.hold();
        actions.set_nothing();
    }
}
