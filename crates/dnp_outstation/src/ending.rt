//! The end of a call: where one is due, an unsolicited response is sent after what the call has sent so far.

ghost use Rattle.std.specs.Prelude.{◌≡◌, ◌≤◌, ℕ, All, length, not, ◌&&◌, true, false, IsTrue, IsErr, IfOk, OnOk, OnErr};
ghost use Rattle.dnp_appfragment.specs.declared.function.Function.TheVariants as function;
ghost use Rattle.dnp_controls.specs.Panel.{Panel};
ghost use Rattle.dnp_controls.specs.Selecting.{deadline};
ghost use Rattle.dnp_outstation.specs.steps.Answering.{KeepsWhole};
ghost use Rattle.dnp_outstation.specs.Connection.{at_end};
ghost use Rattle.dnp_outstation.specs.steps.Filling.{after_release, has_rows_in};
ghost use Rattle.dnp_outstation.specs.Items.{enabled_lanes};
ghost use Rattle.dnp_outstation.specs.steps.Pushing.{ended_by};
ghost use Rattle.dnp_outstation.specs.State.{Core, State, Step, nothing, still, with_session, is_free, is_ready};
ghost use Rattle.dnp_outstation.specs.Station.{state_of, actions_of, HasRoom};
ghost use Rattle.dnp_outstation.specs.Stores.{IsLook};

use crate::actions::Actions;
use crate::answer::Switches;
use crate::connection::deadline;
use crate::offer::enabled::put_enabled;
use crate::offer::fetched::Fetched;
use crate::offer::writer::Writer;
use crate::outstation_core::OutstationCore;
use crate::released::has_enabled_rows;
use crate::session::Session;
use dnp_eventbuf::{Lanes, StoreFault, Upto};
use std::alloc::Global;

/// Writes the unsolicited response that a call ends with, if it ends with one, as the lanes will be once these
/// rows are released; answers whether it does. `is_due` says whether the outstation will be ready for one.
pub(crate) fn write_ending<L: Lanes>(
    writer: &mut Writer,
    alloc: Global,
    lanes: &mut L,
    fetched: &mut Fetched,
    is_due: bool,
    enabled: [bool; 3],
    released: &Option<Upto>,
) -> Result<bool, StoreFault>
    ensures ends { L.honest lanes.new → IfOk result (λ starts. (now : ℕ) (step : Step) → step.state.lanes ≡ after_release (L.contents lanes.old) released.now
        → step.state.core.enabled ≡ enabled → is_due ≡ is_ready step.state.core → at_end now step ≡ ended_by writer.new starts now step) }
    ensures response { IfOk result (λ starts. IsTrue starts → writer.new.builder.function ≡ function.UnsolicitedResponse) }
    ensures look { IsLook L.honest L.is_stopped L.contents L.beside L.place L.asks_memory L.may_fault lanes.old lanes.new result }
    ensures asks { IsErr result → IsTrue is_due }
    ensures asks_rows { L.honest lanes.new → IsErr result → has_rows_in (after_release (L.contents lanes.old) released.now) (enabled_lanes 0 enabled) ≡ true }
{
    if !is_due || !has_enabled_rows(lanes, enabled, released) {
        return Ok(false);
    }
    writer.restart_unsolicited();
    let _is_last = put_enabled(writer, alloc, lanes, fetched, enabled, released)?;
    Ok(true)
}

impl Session {
    /// The end of a call: the unsolicited response that stands in the writer begins, if the call ends with
    /// one. Its confirm is awaited until `ends`.
    pub(crate) fn end_call<L: Lanes>(
        &mut self,
        actions: &mut Actions,
        writer: &mut Writer,
        lanes: &mut L,
        starts: bool,
        restart: bool,
        ends: u64,
    )
        requires response { IsTrue starts → writer.old.builder.function ≡ function.UnsolicitedResponse }
        requires room { HasRoom actions.old }
        ensures same { lanes.new ≡ lanes.old }
        ensures ended { L.honest lanes.new → (s : State) (now : ℕ) → s.lanes ≡ L.contents lanes.new → s.core.restart ≡ restart
            → s.core.session ≡ self.old → ends ≡ deadline now s.core.times.confirm_ms
            → ended_by writer.old starts now (record { state = s; does = actions_of actions.old })
            ≡ record { state = with_session s self.new; does = actions_of actions.new } }
        ensures whole { All (λ fragment. 4 ≤ length fragment) (actions_of actions.old).send → All (λ fragment. 4 ≤ length fragment) (actions_of actions.new).send }
        ensures keeps { KeepsWhole self.old → KeepsWhole self.new }
    {
        if starts {
            self.start(writer, lanes, restart, ends);
            actions.push(self.unsolicited_response.octets());
        }
    }

    /// The end of a change, for which full lanes dropped the rows that stand in the actions as dropped already: as
    /// `end_call`.
    pub(crate) fn end_change<L: Lanes>(
        &mut self,
        actions: &mut Actions,
        writer: &mut Writer,
        lanes: &mut L,
        starts: bool,
        restart: bool,
        ends: u64,
    )
        requires response { IsTrue starts → writer.old.builder.function ≡ function.UnsolicitedResponse }
        ensures same { lanes.new ≡ lanes.old }
        ensures ended { L.honest lanes.new → (s : State) (now : ℕ) → s.lanes ≡ L.contents lanes.new → s.core.restart ≡ restart
            → s.core.session ≡ self.old → ends ≡ deadline now s.core.times.confirm_ms
            → ended_by writer.old starts now (record { state = s; does = record nothing { overwritten = actions.old.overwritten } })
            ≡ record { state = with_session s self.new; does = actions_of actions.new } }
        ensures whole { All (λ fragment. 4 ≤ length fragment) (actions_of actions.new).send }
        ensures keeps { KeepsWhole self.old → KeepsWhole self.new }
    {
        if starts {
            self.start(writer, lanes, restart, ends);
            actions.set_reporting(self.unsolicited_response.octets());
        } else {
            actions.set_overwriting();
        }
    }
}

impl OutstationCore {
    /// Whether it is ready to send an unsolicited response, once it has rows for one.
    pub(crate) fn is_ready(&self) -> bool
        ensures value { result ≡ is_ready self.now }
        ensures on { IsTrue result → self.now.times.unsolicited ≡ true }
    {
        self.times.unsolicited && self.announced && self.quiet()
    }

    /// Whether it is ready for one, unless it awaits a confirm again.
    pub(crate) fn is_ready_unless(&self, awaits: bool) -> bool
        ensures value { result ≡ (not awaits && is_ready self.now) }
        ensures on { IsTrue result → self.now.times.unsolicited ≡ true }
    {
        !awaits && self.is_ready()
    }

    /// Whether it is ready for one where it is announced, open and free as said.
    pub(crate) fn is_due(&self, announced: bool, is_open: bool, free: bool) -> bool
        ensures value { (c : Core) → c.times ≡ self.now.times → c.announced ≡ announced → c.is_open ≡ is_open → is_free c ≡ free → result ≡ is_ready c }
        ensures on { IsTrue result → self.now.times.unsolicited ≡ true }
        ensures announced { IsTrue result → announced ≡ true }
    {
        self.times.unsolicited && announced && is_open && free
    }

    /// What a request may switch, as it stands.
    pub(crate) fn switches(&self) -> Switches
        ensures { result ≡ record { restart = self.now.restart; enabled = self.now.enabled } }
    {
        let enabled = self.enabled;
        Switches {
            restart: self.restart,
            enabled,
        }
    }

    /// Nothing is done but what each call ends with.
    pub(crate) fn end_only<L: Lanes>(
        &mut self,
        actions: &mut Actions,
        alloc: Global,
        lanes: &mut L,
        now: u64,
    ) -> Result<(), StoreFault>
        ensures look { IsLook L.honest L.is_stopped L.contents L.beside L.place L.asks_memory L.may_fault lanes.old lanes.new result }
        ensures ended { L.honest lanes.new → OnOk result ((p : Panel) → at_end now (still (state_of self.old (L.contents lanes.old) p))
            ≡ record { state = state_of self.new (L.contents lanes.new) p; does = actions_of actions.new }) }
        ensures whole { OnOk result (All (λ fragment. 4 ≤ length fragment) (actions_of actions.new).send) }
        ensures unchanged { OnErr result (self.new ≡ self.old) }
        ensures actions_unchanged { OnErr result (actions.new ≡ actions.old) }
        ensures asks { IsErr result → self.old.times.unsolicited ≡ true }
        ensures asks_ready { IsErr result → is_ready self.old ≡ true }
        ensures asks_rows { L.honest lanes.new → IsErr result → has_rows_in (L.contents lanes.old) (enabled_lanes 0 self.old.enabled) ≡ true }
    {
        let is_due = self.is_ready();
        let enabled = self.enabled;
        let starts = write_ending(
            &mut self.pushes,
            alloc,
            lanes,
            &mut self.fetched,
            is_due,
            enabled,
            &None,
        )?;
        actions.set_nothing();
        self.session.end_call(
            actions,
            &mut self.pushes,
            lanes,
            starts,
            self.restart,
            deadline(now, self.times.confirm_ms),
        );
        Ok(())
    }
}
