//! Confirms. That of a fragment: its rows leave, and the response goes on. That of an unsolicited response: its rows
//! leave, and a READ that waited for it is answered.

ghost use Rattle.std.specs.Prelude.{All, ◌≤◌, length, ◌≡◌, ◌≢◌, ℕ, [], false, IfOk, IfErr, IfSome, IsErr, IsSome, OnOk, OnErr, IsTrue, Err, ◌<◌, true, None};
ghost use Rattle.std.specs.Result.{is_ok};
ghost use Rattle.dnp_appfragment.specs.declared.function.Function.TheVariants as function;
ghost use Rattle.dnp_appfragment.specs.Meaning.{request_at};
ghost use Rattle.dnp_controls.specs.Panel.{Panel};
ghost use Rattle.dnp_controls.specs.Selecting.{deadline};
ghost use Rattle.dnp_outstation.specs.steps.Answering.{goes_on_by, went_on, KeepsWhole, answers_held_by, switched_by};
ghost use Rattle.dnp_outstation.specs.Calls.{with_that};
ghost use Rattle.dnp_outstation.specs.Connection.{goes_on, on_confirm, confirmed, at_end, control_in, answers_held, on_unsolicited_confirm};
ghost use Rattle.dnp_outstation.specs.State.{Core, State, nothing, with_session, is_free};
ghost use Rattle.dnp_outstation.specs.Station.{state_of, actions_of, HasRoom};
ghost use Rattle.dnp_outstation.specs.Stores.{IsLook, IsReleaseCall};
ghost use Rattle.dnp_outstation.specs.steps.Filling.{after_release};
ghost use Rattle.dnp_outstation.specs.Items.{last_in};

use crate::actions::Actions;
use crate::answer::{Answer, Switches};
use crate::basis::Basis;
use crate::connection::deadline;
use crate::ending::write_ending;
use crate::execute::{execute, left};
use crate::offer::fetched::Fetched;
use crate::offer::parts::{Stand, put_parts};
use crate::offer::writer::Writer;
use crate::outstation_core::OutstationCore;
use crate::sending::asks_confirm;
use crate::sequence::SequenceNumber;
use crate::session::Session;
use dnp_appfragment::Control;
use dnp_controls::Outputs;
use dnp_eventbuf::{Lanes, StoreFault};
use std::alloc::Global;

/// Writes the fragment that goes on with the response, if there is one, as the lanes are after the release.
fn write_next<L: Lanes, O: Outputs>(
    writer: &mut Writer,
    alloc: Global,
    lanes: &mut L,
    fetched: &mut Fetched,
    from: &Basis<'_, O>,
    session: &Session,
) -> Result<Option<Answer>, StoreFault>
    ensures look { IsLook L.honest L.is_stopped L.contents L.beside L.place L.asks_memory L.may_fault lanes.old lanes.new result }
    ensures written { L.honest lanes.new → IfOk result (λ next. (s : State) (now seq : ℕ) → s.core.points ≡ from.now.points.now
        → s.core.session.request ≡ session.now.request → s.lanes ≡ after_release (L.contents lanes.old) from.now.released.now
        → goes_on s (O.panel from.now.outputs.now) now seq session.now.last ≡ goes_on_by s now seq writer.new next) }
    ensures switches { IfOk result (λ next. IfSome next (λ a. a.switches ≡ from.now.switches)) }
    ensures none { IfOk result (λ next. IfSome next (λ a. a.bits ≡ 0)) }
    ensures response { IfOk result (λ next. IfSome next (λ a. writer.new.builder.function ≡ function.Response)) }
    ensures asks_next { IsErr result → (s : State) (now seq : ℕ) → s.core.session.request ≡ session.now.request
        → (goes_on s (O.panel from.now.outputs.now) now seq session.now.last).does.send ≢ [] }
{
    let Some(last) = &session.last else {
        return Ok(None);
    };
    let Some(place) = last.left else {
        return Ok(None);
    };
    let Ok(request) = session.request.request() else {
        return Ok(None);
    };
    writer.restart(place);
    let stand = Stand {
        points: from.points,
        outputs: from.outputs,
        stood: last.stood,
        released: from.released,
    };
    let is_last = put_parts(writer, alloc, lanes, fetched, &stand, request.headers)?;
    Ok(Some(Answer {
        bits: 0,
        switches: from.switches,
        stood: last.stood,
        left: left(is_last, writer.place),
        time: None,
    }))
}

impl Session {
    /// The awaited fragment is confirmed: the rows that stand in the actions as discarded already leave, and the next
    /// fragment, if there is one, is sent. Its confirm, if it asks for one, is awaited until `ends`.
    fn go_on<L: Lanes>(
        &mut self,
        actions: &mut Actions,
        writer: &mut Writer,
        lanes: &mut L,
        next: &Option<Answer>,
        seq: SequenceNumber,
        ends: u64,
    )
        requires response { IfSome next.now (λ a. writer.old.builder.function ≡ function.Response) }
        requires none { IfSome next.now (λ a. a.bits ≡ 0) }
        ensures same { lanes.new ≡ lanes.old }
        ensures goes { L.honest lanes.new → (s : State) (now : ℕ) → s.lanes ≡ L.contents lanes.new → IfSome next.now (λ a. s.core.restart ≡ a.switches.restart)
            → s.core.session ≡ confirmed self.old → ends ≡ deadline now s.core.times.confirm_ms
            → goes_on_by s now seq writer.old next.now
            ≡ record { state = with_session s self.new; does = record nothing { send = (actions_of actions.new).send } } }
        ensures discarded { actions_of actions.new ≡ record nothing { send = (actions_of actions.new).send; discarded = actions.old.discarded } }
        ensures room { HasRoom actions.new }
        ensures whole { All (λ fragment. 4 ≤ length fragment) (actions_of actions.new).send }
        ensures keeps { KeepsWhole self.old → KeepsWhole self.new }
    {
        self.confirm();
        match next {
            Some(answer) => self.respond_further(actions, writer, lanes, answer, seq, ends),
            None => actions.set_discarding(),
        }
    }

    /// Whether no confirm is awaited and no READ is held once the awaited fragment was confirmed and the next
    /// one, if there is one, was sent.
    fn is_free_after(&self, writer: &Writer, next: &Option<Answer>) -> bool
        ensures { (c : Core) (now seq : ℕ) → c.session ≡ went_on (confirmed self.now) now c.times.confirm_ms seq writer.now next.now → is_free c ≡ result }
    {
        let awaits = match next {
            Some(answer) => asks_confirm(writer, answer),
            None => self.holds_read(),
        };
        !awaits && self.unsolicited.is_none()
    }
}

impl OutstationCore {
    /// The awaited fragment is confirmed: its rows leave, and the next fragment goes out, if there is one.
    pub(crate) fn confirm<L: Lanes, O: Outputs>(
        &mut self,
        actions: &mut Actions,
        alloc: Global,
        lanes: &mut L,
        outputs: &O,
        now: u64,
    ) -> Result<(), StoreFault>
        ensures releases { IsReleaseCall L.honest L.is_stopped L.contents L.beside L.place L.asks_memory L.may_fault lanes.old lanes.new result }
        ensures confirmed { L.honest lanes.new → OnOk result ((p : Panel) → let s = state_of self.old (L.contents lanes.old) p in
            at_end now (with_that s s.core.session.awaited (on_confirm s (O.panel outputs.now) now))
            ≡ record { state = state_of self.new (L.contents lanes.new) p; does = actions_of actions.new }) }
        ensures whole { OnOk result (All (λ fragment. 4 ≤ length fragment) (actions_of actions.new).send) }
        ensures unchanged { OnErr result (self.new ≡ self.old) }
        ensures actions_unchanged { OnErr result (actions.new ≡ actions.old) }
        ensures memory_idle { L.honest lanes.new → result ≡ Err StoreFault.Memory → L.asks_memory ≡ false → (p : Panel) → let s = state_of self.old (L.contents lanes.old) p in
            (at_end now (with_that s s.core.session.awaited (on_confirm s (O.panel outputs.now) now))).does ≢ nothing }
    {
        let Some(awaited) = self.session.awaited else {
            return self.end_only(actions, alloc, lanes, now);
        };
        let switches = self.switches();
        let released = Some(awaited.upto);
        let from = Basis {
            points: &self.points,
            outputs,
            switches,
            released: &released,
        };
        let next = write_next(
            &mut self.writer,
            alloc,
            lanes,
            &mut self.fetched,
            &from,
            &self.session,
        )?;
        let free = self.session.is_free_after(&self.writer, &next);
        let is_due = self.is_due(self.announced, self.is_open, free);
        let enabled = self.enabled;
        let starts = write_ending(
            &mut self.pushes,
            alloc,
            lanes,
            &mut self.fetched,
            is_due,
            enabled,
            &released,
        )?;
        lanes.release_into(alloc, &awaited.upto, &mut actions.discarded)?;
        let ends = deadline(now, self.times.confirm_ms);
        self.session.go_on(
            actions,
            &mut self.writer,
            lanes,
            &next,
            awaited.seq.next(),
            ends,
        );
        self.session.end_call(actions, &mut self.pushes, lanes, starts, self.restart, ends);
        Ok(())
    }
}

/// Writes the answer to the READ that waits, if one does, as the lanes are after the release.
fn write_held<L: Lanes, O: Outputs>(
    writer: &mut Writer,
    alloc: Global,
    lanes: &mut L,
    fetched: &mut Fetched,
    from: &Basis<'_, O>,
    session: &Session,
) -> Result<Option<Answer>, StoreFault>
    ensures look { IsLook L.honest L.is_stopped L.contents L.beside L.place L.asks_memory L.may_fault lanes.old lanes.new result }
    ensures written { L.honest lanes.new → IfOk result (λ held. (s : State) (now : ℕ) → s.core.points ≡ from.now.points.now
        → s.core.restart ≡ from.now.switches.restart → s.core.enabled ≡ from.now.switches.enabled
        → s.core.session.request ≡ session.now.request → s.lanes ≡ after_release (L.contents lanes.old) from.now.released.now
        → answers_held s (O.panel from.now.outputs.now) now session.now.last ≡ answers_held_by s now writer.new held) }
    ensures stood { L.honest lanes.new → IfOk result (λ held. IfSome held (λ a. a.stood ≡ last_in (after_release (L.contents lanes.old) from.now.released.now))) }
    ensures small { IfOk result (λ held. IfSome held (λ a. a.bits < 8)) }
    ensures goes_on { IfOk result (λ held. IfSome held (λ a. IsSome a.left → IsTrue (is_ok (request_at session.now.request)))) }
    ensures response { IfOk result (λ held. IfSome held (λ a. writer.new.builder.function ≡ function.Response)) }
{
    if !session.holds_read() {
        return Ok(None);
    }
    let octets = session.request.octets();
    let answer = execute(writer, alloc, lanes, fetched, from, octets)?;
    Ok(Some(answer))
}

impl Session {
    /// The number of the last request.
    fn number(&self) -> SequenceNumber
        ensures { result ≡ (control_in self.now.request).seq }
    {
        match self.request.octets().first() {
            Some(octet) => SequenceNumber::of(Control::read(*octet)),
            None => SequenceNumber::ZERO,
        }
    }

    /// The unsolicited response is confirmed: the rows that stand in the actions as discarded already leave, and the
    /// READ that waited, if one did, is answered. Its confirm, if it asks for one, is awaited until `ends`.
    fn answer_held<L: Lanes>(
        &mut self,
        actions: &mut Actions,
        writer: &mut Writer,
        lanes: &mut L,
        held: &Option<Answer>,
        ends: u64,
    )
        requires response { IfSome held.now (λ a. writer.old.builder.function ≡ function.Response) }
        requires small { IfSome held.now (λ a. a.bits < 8) }
        requires goes_on { IfSome held.now (λ a. IsSome a.left → IsTrue (is_ok (request_at self.old.request))) }
        ensures same { lanes.new ≡ lanes.old }
        ensures answers { L.honest lanes.new → (s : State) (now : ℕ) → s.lanes ≡ L.contents lanes.new
            → IfSome held.now (λ a. (s.core.restart ≡ a.switches.restart) × ((s.core.enabled ≡ a.switches.enabled) × (a.stood ≡ last_in s.lanes)))
            → s.core.session ≡ record self.old { unsolicited = None } → ends ≡ deadline now s.core.times.confirm_ms
            → answers_held_by s now writer.old held.now
            ≡ record { state = with_session s self.new; does = record (actions_of actions.new) { discarded = [] } } }
        ensures discarded { (actions_of actions.new).discarded ≡ actions.old.discarded }
        ensures room { HasRoom actions.new }
        ensures whole { All (λ fragment. 4 ≤ length fragment) (actions_of actions.new).send }
        ensures keeps { KeepsWhole self.old → KeepsWhole self.new }
    {
        self.unsolicited = None;
        match held {
            Some(answer) => {
                let seq = self.number();
                self.respond(writer, lanes, answer, seq, ends);
                actions.set_going_on(self.response.octets());
                actions.time = answer.time;
            }
            None => actions.set_discarding(),
        }
    }

    /// Whether no confirm is awaited and no READ is held once the unsolicited response was confirmed, and the
    /// READ that waited, if one did, was answered.
    fn is_free_without(&self, writer: &Writer, held: &Option<Answer>) -> bool
        ensures { (s : State) (now : ℕ) → s.core.session ≡ record self.now { unsolicited = None }
            → result ≡ is_free (answers_held_by s now writer.now held.now).state.core }
    {
        match held {
            Some(answer) => !asks_confirm(writer, answer),
            None => self.awaited.is_none() && !self.holds_read(),
        }
    }
}

/// What is switched once the READ that waited, if one did, was executed.
fn switched_by(before: Switches, held: &Option<Answer>) -> Switches
    ensures { result ≡ switched_by before held.now }
{
    match held {
        Some(answer) => answer.switches,
        None => before,
    }
}

impl OutstationCore {
    /// The unsolicited response is confirmed: its rows leave, and the READ that waited, if one did, is answered.
    pub(crate) fn confirm_unsolicited<L: Lanes, O: Outputs>(
        &mut self,
        actions: &mut Actions,
        alloc: Global,
        lanes: &mut L,
        outputs: &O,
        now: u64,
    ) -> Result<(), StoreFault>
        ensures releases { IsReleaseCall L.honest L.is_stopped L.contents L.beside L.place L.asks_memory L.may_fault lanes.old lanes.new result }
        ensures confirmed { L.honest lanes.new → OnOk result ((p : Panel) → let s = state_of self.old (L.contents lanes.old) p in
            at_end now (with_that s s.core.session.unsolicited (on_unsolicited_confirm s (O.panel outputs.now) now))
            ≡ record { state = state_of self.new (L.contents lanes.new) p; does = actions_of actions.new }) }
        ensures whole { OnOk result (All (λ fragment. 4 ≤ length fragment) (actions_of actions.new).send) }
        ensures unchanged { OnErr result (self.new ≡ self.old) }
        ensures actions_unchanged { OnErr result (actions.new ≡ actions.old) }
    {
        let Some(response) = self.session.unsolicited else {
            return self.end_only(actions, alloc, lanes, now);
        };
        let released = Some(response.upto);
        let before = self.switches();
        let from = Basis {
            points: &self.points,
            outputs,
            switches: before,
            released: &released,
        };
        let held = write_held(
            &mut self.writer,
            alloc,
            lanes,
            &mut self.fetched,
            &from,
            &self.session,
        )?;
        let after = switched_by(before, &held);
        let free = self.session.is_free_without(&self.writer, &held);
        let is_due = self.is_due(true, self.is_open, free);
        let enabled = after.enabled;
        let starts = write_ending(
            &mut self.pushes,
            alloc,
            lanes,
            &mut self.fetched,
            is_due,
            enabled,
            &released,
        )?;
        lanes.release_into(alloc, &response.upto, &mut actions.discarded)?;
        self.announced = true;
        self.restart = after.restart;
        self.enabled = enabled;
        let ends = deadline(now, self.times.confirm_ms);
        self.session
            .answer_held(actions, &mut self.writer, lanes, &held, ends);
        self.session.end_call(actions, &mut self.pushes, lanes, starts, self.restart, ends);
        Ok(())
    }
}
