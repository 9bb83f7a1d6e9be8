//! The calls that time makes: a connection begins, and time passes.

ghost use Rattle.std.specs.Prelude.{◌≡◌, ◌≤◌, ℕ, All, length, true, false, IsTrue, IsErr, IfOk, OnOk, OnErr};
ghost use Rattle.dnp_appfragment.specs.declared.function.Function.TheVariants as function;
ghost use Rattle.dnp_outstation.specs.Calls.{opened_of, tick_of};
ghost use Rattle.dnp_outstation.specs.steps.Answering.{KeepsWhole};
ghost use Rattle.dnp_outstation.specs.Connection.{has_enabled_rows, solicited_timer, unsolicited_timer};
ghost use Rattle.dnp_outstation.specs.steps.Filling.{has_rows_in};
ghost use Rattle.dnp_outstation.specs.Items.{enabled_lanes};
ghost use Rattle.dnp_outstation.specs.Links.{begun};
ghost use Rattle.dnp_outstation.specs.declared.unsolicited.AtTimer.TheVariants as at;
ghost use Rattle.dnp_outstation.specs.steps.Pushing.{ended_by, timed_by};
ghost use Rattle.dnp_outstation.specs.State.{Core, State, still, is_free, is_ready};
ghost use Rattle.dnp_outstation.specs.Station.{state_of, actions_of, HasRoom};
ghost use Rattle.dnp_outstation.specs.Stores.{IsLook};

use crate::actions::Actions;
use crate::connection::deadline;
use crate::ending::write_ending;
use crate::offer::fetched::Fetched;
use crate::offer::writer::Writer;
use crate::outstation_core::OutstationCore;
use crate::session::Session;
use crate::unsolicited::AtTimer;
use dnp_controls::Outputs;
use dnp_eventbuf::{Lanes, StoreFault};
use std::alloc::Global;

/// Writes the unsolicited response with which a connection begins, if it begins with one; answers whether it
/// does. It is an empty one until such a one was confirmed since the restart.
fn write_opening<L: Lanes>(
    writer: &mut Writer,
    alloc: Global,
    lanes: &mut L,
    fetched: &mut Fetched,
    is_on: bool,
    announced: bool,
    enabled: [bool; 3],
) -> Result<bool, StoreFault>
    ensures opens { L.honest lanes.new → IfOk result (λ starts. (s : State) (now : ℕ) → s.lanes ≡ L.contents lanes.old → s.core.times.unsolicited ≡ is_on
        → s.core.announced ≡ announced → s.core.enabled ≡ enabled → opened_of s now ≡ ended_by writer.new starts now (still (begun s))) }
    ensures response { IfOk result (λ starts. IsTrue starts → writer.new.builder.function ≡ function.UnsolicitedResponse) }
    ensures look { IsLook L.honest L.is_stopped L.contents L.beside L.place L.asks_memory L.may_fault lanes.old lanes.new result }
    ensures asks { IsErr result → IsTrue is_on }
    ensures asks_announced { IsErr result → IsTrue announced }
    ensures asks_rows { L.honest lanes.new → IsErr result → has_rows_in (L.contents lanes.old) (enabled_lanes 0 enabled) ≡ true }
{
    if is_on && !announced {
        writer.restart_unsolicited();
        return Ok(true);
    }
    write_ending(writer, alloc, lanes, fetched, is_on, enabled, &None)
}

impl Session {
    /// Where the timer of an awaited confirm has ended, so has the waiting.
    fn end_waiting(&mut self, now: u64)
        ensures value { (c : Core) → c.session ≡ self.old → solicited_timer c now ≡ record c { session = self.new } }
        ensures octets { self.new.unsolicited_response ≡ self.old.unsolicited_response }
        ensures keeps { KeepsWhole self.old → KeepsWhole self.new }
    {
        if let Some(awaited) = &self.awaited {
            if awaited.ends <= now {
                self.awaited = None;
            }
        }
    }

    /// Does what the timer of an unsolicited response has come to; answers whether the connection stays open.
    fn obey(&mut self, actions: &mut Actions, timer: AtTimer) -> bool
        ensures value { (s : State) → s.core.is_open ≡ true → timed_by s self.old timer
            ≡ record { state = record s { core = record s.core { is_open = result; session = self.new } }; does = actions_of actions.new } }
        ensures room { HasRoom actions.new }
        ensures whole { (timer ≡ at.Repeats → 4 ≤ length self.old.unsolicited_response) → All (λ fragment. 4 ≤ length fragment) (actions_of actions.new).send }
        ensures keeps { KeepsWhole self.old → KeepsWhole self.new }
    {
        match timer {
            AtTimer::Waits => {
                actions.set_nothing();
                true
            }
            AtTimer::Repeats => {
                actions.set_sending(self.unsolicited_response.octets());
                true
            }
            AtTimer::Closes => {
                self.reset();
                actions.set_closing();
                false
            }
        }
    }

    /// Time has passed in an open connection: what its timers come to is put into the actions, in place of what
    /// was there. Answers whether the connection stays open.
    fn pass_time(&mut self, actions: &mut Actions, now: u64, confirm_ms: u64, retries: u8) -> bool
        ensures passed { (s : State) → s.core.session ≡ self.old → s.core.is_open ≡ true → s.core.times.confirm_ms ≡ confirm_ms → s.core.times.retries ≡ retries
            → unsolicited_timer (record s { core = solicited_timer s.core now }) now
            ≡ record { state = record s { core = record s.core { is_open = result; session = self.new } }; does = actions_of actions.new } }
        ensures room { HasRoom actions.new }
        ensures whole { (s : State) → s.core.session ≡ self.old → s.core.times.confirm_ms ≡ confirm_ms → s.core.times.retries ≡ retries
            → KeepsWhole self.old → All (λ fragment. 4 ≤ length fragment) (actions_of actions.new).send }
        ensures keeps { KeepsWhole self.old → KeepsWhole self.new }
    {
        self.end_waiting(now);
        let timer = self.time_unsolicited(now, confirm_ms, retries);
        self.obey(actions, timer)
    }
}

impl OutstationCore {
    /// A connection begins; the moment is now, in milliseconds. What it does is put into the actions, in place
    /// of what was there.
    ///
    /// Memory or Device, from the lanes, where unsolicited responses are on: then nothing has changed, the
    /// actions neither.
    pub fn opened<L: Lanes, O: Outputs>(
        &mut self,
        actions: &mut Actions,
        alloc: Global,
        lanes: &mut L,
        outputs: &mut O,
        now: u64,
    ) -> Result<(), StoreFault>
        ensures look { IsLook L.honest L.is_stopped L.contents L.beside L.place L.asks_memory L.may_fault lanes.old lanes.new result }
        ensures outputs { outputs.new ≡ outputs.old }
        ensures opened { L.honest lanes.new → OnOk result (opened_of (state_of self.old (L.contents lanes.old) (O.panel outputs.old)) now
            ≡ record { state = state_of self.new (L.contents lanes.new) (O.panel outputs.new); does = actions_of actions.new }) }
        ensures whole { OnOk result (All (λ fragment. 4 ≤ length fragment) (actions_of actions.new).send) }
        ensures unchanged { OnErr result (self.new ≡ self.old) }
        ensures actions_unchanged { OnErr result (actions.new ≡ actions.old) }
        ensures asks { IsErr result → self.old.times.unsolicited ≡ true }
        ensures asks_announced { IsErr result → self.old.announced ≡ true }
        ensures asks_rows { L.honest lanes.new → IsErr result → has_enabled_rows (state_of self.old (L.contents lanes.old) (O.panel outputs.old)) ≡ true }
    {
        let enabled = self.enabled;
        let starts = write_opening(
            &mut self.pushes,
            alloc,
            lanes,
            &mut self.fetched,
            self.times.unsolicited,
            self.announced,
            enabled,
        )?;
        self.is_open = true;
        self.session.reset();
        actions.set_nothing();
        let ends = deadline(now, self.times.confirm_ms);
        self.session.end_call(actions, &mut self.pushes, lanes, starts, self.restart, ends);
        Ok(())
    }

    /// Whether it awaits no confirm and holds no READ, once the timer of an awaited confirm was looked at.
    fn is_free_at(&self, now: u64) -> bool
        ensures { result ≡ is_free (solicited_timer self.now now) }
    {
        let awaits = match &self.session.awaited {
            Some(awaited) => awaited.ends > now,
            None => false,
        };
        !awaits && self.session.unsolicited.is_none() && !self.session.holds_read()
    }

    /// Time has passed: the moment is now, in milliseconds. What it does is put into the actions, in place of
    /// what was there.
    ///
    /// Memory or Device, from the lanes, where unsolicited responses are on: then nothing has changed, the
    /// actions neither.
    pub fn tick<L: Lanes, O: Outputs>(
        &mut self,
        actions: &mut Actions,
        alloc: Global,
        lanes: &mut L,
        outputs: &mut O,
        now: u64,
    ) -> Result<(), StoreFault>
        ensures look { IsLook L.honest L.is_stopped L.contents L.beside L.place L.asks_memory L.may_fault lanes.old lanes.new result }
        ensures outputs { outputs.new ≡ outputs.old }
        ensures ticked { L.honest lanes.new → OnOk result (tick_of (state_of self.old (L.contents lanes.old) (O.panel outputs.old)) now
            ≡ record { state = state_of self.new (L.contents lanes.new) (O.panel outputs.new); does = actions_of actions.new }) }
        ensures whole { OnOk result (All (λ fragment. 4 ≤ length fragment) (actions_of actions.new).send) }
        ensures unchanged { OnErr result (self.new ≡ self.old) }
        ensures actions_unchanged { OnErr result (actions.new ≡ actions.old) }
        ensures asks { IsErr result → self.old.times.unsolicited ≡ true }
        ensures asks_ready { IsErr result → is_ready (solicited_timer self.old now) ≡ true }
        ensures asks_rows { L.honest lanes.new → IsErr result → has_enabled_rows (state_of self.old (L.contents lanes.old) (O.panel outputs.old)) ≡ true }
    {
        if !self.is_open {
            actions.set_nothing();
            return Ok(());
        }
        let is_due = self.is_due(self.announced, self.is_open, self.is_free_at(now));
        let enabled = self.enabled;
        let starts = write_ending(
            &mut self.pushes,
            alloc,
            lanes,
            &mut self.fetched,
            is_due,
            enabled,
            &None,
        )?;
        let ends = deadline(now, self.times.confirm_ms);
        let is_open = self
            .session
            .pass_time(actions, now, self.times.confirm_ms, self.times.retries);
        self.is_open = is_open;
        self.session.end_call(actions, &mut self.pushes, lanes, starts, self.restart, ends);
        Ok(())
    }
}
