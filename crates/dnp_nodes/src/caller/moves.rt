//! What a caller makes of what happens, without its station.

ghost use Rattle.std.specs.Prelude.{◌≡◌, ◌≤◌, ◌||◌, true, false, length, min, nat_lt, None, Some, is_some, IfSome};
ghost use Rattle.dnp_line.specs.Ports.{new_port};
ghost use Rattle.dnp_schedule.specs.Deciding.{is_connected};
ghost use Rattle.dnp_schedule.specs.Moving as moving;
ghost use Rattle.dnp_streams.specs.links.Links.{after_sent, new_link};
ghost use Rattle.dnp_nodes.specs.Callers as spec;
ghost use Rattle.dnp_nodes.specs.declared.slot.Want.TheVariants.{Connect};

use crate::answers::answer_of;
use crate::budgets::{has_come, stuck_at, waits_from};
use crate::caller::Caller;
use crate::frames::frame_of;
use crate::heads::Head;
use crate::report::{Report, Reports};
use crate::shared::Shared;
use crate::slot::{Closing, Want};
use crate::turn::Turn;
use dnp_appfragment::Iin;
use dnp_concentrator::{Cause, RelayedStep};
use dnp_controls::BookFault;
use dnp_line::Port;
use dnp_schedule::{Phase, Schedule, TaskKind};
use dnp_streams::{Link, StationFault, Told};

/// Why a connection ends on which a step of relaying was refused.
fn closing_of(fault: BookFault) -> Closing {
    match fault {
        BookFault::NoControl | BookFault::NotPending => Closing::Finished,
        BookFault::Exhausted => Closing::Store(Cause::Exhausted),
        BookFault::Memory => Closing::Store(Cause::Memory),
        BookFault::Device => Closing::Store(Cause::Device),
    }
}

/// Whether a link runs: its start is over.
fn runs(schedule: &Schedule) -> bool {
    matches!(schedule.phase, Phase::Running)
}

impl Caller {
    /// The moment by which the octets that wait have to be taken, if some wait.
    pub(super) fn taken_by(&self) -> Option<u64>
        ensures { result ≡ spec.taken_by self.now }
    {
        stuck_at(self.waits, self.plan.pace.poll_ms)
    }

    /// The moment by which the response has to end that is awaited, if one is.
    pub(super) fn ends_by(&self) -> Option<u64>
        ensures { result ≡ spec.ends_by self.now.schedule }
    {
        match self.schedule.awaited {
            Some(awaited) => Some(awaited.until),
            None => None,
        }
    }

    /// What took too long, if anything did.
    pub(super) fn over_budget(&self, now: u64) -> Option<Closing>
        ensures { result ≡ spec.over_budget self.now now }
    {
        if has_come(self.taken_by(), now) {
            Some(Closing::Stuck)
        } else if has_come(self.ends_by(), now) {
            Some(Closing::Endless)
        } else {
            None
        }
    }

    /// A connection was made: nothing of the one before is left.
    pub(super) fn begin(&mut self, shared: &mut Shared, now: u64)
        ensures schedule { self.new.schedule ≡ moving.connected self.old.schedule now self.old.plan.pace }
        ensures link { self.new.link ≡ new_link (new_port self.old.plan.ends.own self.old.plan.ends.peer true) }
        ensures want { self.new.want ≡ None }
        ensures basis { spec.basis_of self.new ≡ spec.basis_of self.old }
        ensures stored { self.new.stored ≡ self.old.stored }
    {
        let ends = self.plan.ends;
        let absent = now.saturating_sub(self.since);
        let connected = Report::Connected(self.plan.slot, absent, self.tries);
        shared.reports.tell(connected);
        self.link = Link::new(shared.alloc, Port::new(ends.own, ends.peer, true));
        self.schedule = self.schedule.connected(now, &self.plan.pace);
        self.want = None;
        self.waits = None;
        self.unsolicited.clear();
    }

    /// Looks whose frame is heard next.
    pub(super) fn look_at_frame(&self, reports: &mut Reports) {
        if let Some(frame) = self.link.next_frame() {
            reports.tell_once(frame_of(self.plan.slot, self.plan.ends, frame));
        }
    }

    /// The fragment that came whole last is an unsolicited response with these octets, which are kept: it is told if they are those of the
    /// one before.
    fn compare(&mut self, reports: &mut Reports)
        ensures { self.new ≡ record self.old { unsolicited = self.new.unsolicited } }
    {
        let fragment = self.link.fragment();
        if self.unsolicited.is(fragment) {
            reports.tell(Report::Repeated(self.plan.slot));
            return;
        }
        // (if there is no memory, the next one is another one)
        self.unsolicited.keep(fragment);
    }

    /// A fragment with this head came whole. If it is an unsolicited response, it is told whether it is the one before again.
    pub(super) fn note_unsolicited(&mut self, reports: &mut Reports, head: Option<Head>)
        ensures { self.new ≡ record self.old { unsolicited = self.new.unsolicited } }
    {
        if let Some(head) = head
            && head.is_unsolicited()
        {
            self.compare(reports);
        }
    }

    /// The first octets of those that wait were taken.
    pub(super) fn drop_sent(&mut self, count: usize)
        ensures { self.new ≡ record self.old {
          link = after_sent self.old.link (min count (length self.old.link.pending));
          waits = self.new.waits;
        } }
    {
        let count = count.min(self.link.output().len());
        self.link.sent(count);
        if 0 < count {
            self.waits = None;
        }
    }

    /// Notes since when octets wait, if any do.
    pub(super) fn note_waiting(&mut self, now: u64)
        ensures { self.new ≡ record self.old { waits = self.new.waits } }
    {
        let is_empty = self.link.output().is_empty();
        self.waits = waits_from(self.waits, is_empty, now);
    }

    /// Without a connection, time has passed: the rest may be over, or the attempt to connect.
    pub(super) fn wait(&mut self, shared: &mut Shared, now: u64)
        requires { is_connected self.old.schedule.phase ≡ false }
        ensures phase { is_connected self.new.schedule.phase ≡ false }
        ensures schedule { self.new.schedule ≡ spec.waited self.old.schedule now self.old.plan.pace (is_some self.old.want) }
        ensures want { self.new.want ≡ spec.want_waited self.old.schedule now self.old.want }
        ensures basis { spec.basis_of self.new ≡ spec.basis_of self.old }
        ensures stored { self.new.stored ≡ self.old.stored }
    {
        match self.schedule.phase {
            Phase::Resting(until) => {
                if until <= now && self.want.is_none() {
                    self.connect(now);
                }
            }
            Phase::Connecting(until) => {
                if until <= now {
                    self.want = Some(Want::Close(Closing::Unmade));
                    self.give_up(shared, now, Closing::Unmade);
                }
            }
            Phase::Starting | Phase::Running => {}
        }
    }

    /// A connection is to be made.
    fn connect(&mut self, now: u64)
        ensures { self.new ≡ record self.old {
          schedule = moving.connecting self.old.schedule now self.old.plan.pace;
          tries = self.new.tries;
          want = Some Connect;
        } }
    {
        self.schedule = self.schedule.connecting(now, &self.plan.pace);
        self.tries = self.tries.saturating_add(1);
        self.want = Some(Want::Connect);
    }

    /// The connection did not come about.
    pub(super) fn give_up(&mut self, shared: &mut Shared, now: u64, cause: Closing)
        ensures { self.new ≡ record self.old { schedule = moving.lost self.old.schedule now self.old.plan.pace } }
    {
        shared.reports.tell(Report::Lost(self.plan.slot, cause));
        self.schedule = self.schedule.lost(now, &self.plan.pace);
    }

    /// The connection was lost.
    pub(super) fn lose(&mut self, shared: &mut Shared, now: u64, cause: Closing)
        ensures { self.new ≡ record self.old {
          schedule = moving.lost self.old.schedule now self.old.plan.pace;
          waits = None;
          since = now;
          tries = 0;
        } }
    {
        self.give_up(shared, now, cause);
        self.waits = None;
        self.since = now;
        self.tries = 0;
    }

    /// Takes what a step told, and the head of the response that it took, if it took one.
    pub(super) fn take_told(
        &mut self,
        reports: &mut Reports,
        now: u64,
        told: Result<Told, StationFault>,
        head: Option<Head>,
    ) -> Turn
        requires { IfSome head (λ head. head.number ≤ 15) }
        ensures phase { is_connected self.new.schedule.phase ≡ is_connected self.old.schedule.phase }
        ensures same { self.new ≡ record self.old { schedule = self.new.schedule; stored = self.new.stored } }
        ensures stored { self.new.stored ≡ (spec.told_stores (told) || self.old.stored) }
    {
        let slot = self.plan.slot;
        match told {
            Ok(told) => self.take_answer(reports, now, &told, head),
            Err(StationFault::Message) => {
                // (nothing but a fragment is refused so)
                reports.tell_refused(slot, self.link.fragment());
                Turn::Made
            }
            Err(StationFault::Cause(Cause::Memory)) => {
                reports.tell(Report::NotMade(slot));
                Turn::Made
            }
            Err(StationFault::Cause(cause)) => Turn::Over(Closing::Store(cause)),
        }
    }

    /// Takes what a step told that was made.
    fn take_answer(
        &mut self,
        reports: &mut Reports,
        now: u64,
        told: &Told,
        head: Option<Head>,
    ) -> Turn
        requires { IfSome head (λ head. head.number ≤ 15) }
        ensures phase { is_connected self.new.schedule.phase ≡ is_connected self.old.schedule.phase }
        ensures same { self.new ≡ record self.old { schedule = self.new.schedule; stored = nat_lt 0 told.now.rows || self.old.stored } }
    {
        self.take_rows(reports, told.rows);
        self.take_head(reports, now, told, head);
        if told.closed {
            Turn::Over(Closing::Late)
        } else {
            Turn::Made
        }
    }

    /// Takes how many event rows were stored.
    fn take_rows(&mut self, reports: &mut Reports, rows: usize)
        ensures { self.new ≡ record self.old { stored = nat_lt 0 rows || self.old.stored } }
    {
        if 0 < rows {
            self.stored = true;
            reports.tell(Report::Stored(self.plan.slot, rows));
        }
    }

    /// Takes the head of the response that the station took, if it took one.
    fn take_head(&mut self, reports: &mut Reports, now: u64, told: &Told, head: Option<Head>)
        requires { IfSome head (λ head. head.number ≤ 15) }
        ensures phase { is_connected self.new.schedule.phase ≡ is_connected self.old.schedule.phase }
        ensures same { self.new ≡ record self.old { schedule = self.new.schedule } }
    {
        match head {
            Some(head) => self.take_response(reports, now, told, head),
            None => {}
        }
    }

    /// Takes the head of a response that the station took.
    fn take_response(&mut self, reports: &mut Reports, now: u64, told: &Told, head: Head)
        requires { head.number ≤ 15 }
        ensures { self.new ≡ record self.old {
          schedule = spec.after_response self.old.schedule now self.old.plan.pace head told.now.rows (is_some told.now.outcome);
        } }
    {
        let before = self.schedule;
        let heard = before.heard(now, &self.plan.pace, head.iin, told.rows);
        self.schedule = if told.outcome.is_some() {
            heard.answered(now, head.number).settled()
        } else {
            heard.settled()
        };
        reports.tell(Report::Response(self.plan.slot, head, answer_of(&told.outcome)));
        self.tell_changes(reports, &before, head.iin);
    }

    /// Tells what a response has changed.
    fn tell_changes(&self, reports: &mut Reports, before: &Schedule, seen: Iin) {
        let slot = self.plan.slot;
        let had = before.seen.unwrap_or(Iin::NONE);
        if had != seen {
            reports.tell(Report::Indications(slot, had, seen));
        }
        if runs(&self.schedule) && !runs(before) {
            reports.tell(Report::Started(slot));
        }
    }

    /// Tells the sequence number of the request that was sent last.
    fn tell_request(&self, reports: &mut Reports) {
        if let Some(last) = self.schedule.last {
            reports.tell(Report::Request(self.plan.slot, last.sequence));
        }
    }

    /// Takes whether a task was asked.
    pub(super) fn take_asked(
        &mut self,
        reports: &mut Reports,
        now: u64,
        task: TaskKind,
        is_asked: bool,
    ) -> Turn
        ensures { self.new ≡ record self.old { schedule = spec.after_asking self.old.schedule now self.old.plan.pace task is_asked } }
    {
        if !is_asked {
            return Turn::Over(Closing::Unasked);
        }
        self.schedule = self.schedule.asked(now, &self.plan.pace, task);
        self.tell_request(reports);
        reports.tell(Report::Asked(self.plan.slot, task));
        Turn::Made
    }

    /// Takes what a step of relaying did.
    pub(super) fn take_relayed(
        &mut self,
        reports: &mut Reports,
        now: u64,
        relayed: Result<RelayedStep, BookFault>,
    ) -> Turn
        ensures phase { is_connected self.new.schedule.phase ≡ is_connected self.old.schedule.phase }
        ensures same { self.new ≡ record self.old { schedule = self.new.schedule } }
    {
        match relayed {
            Ok(step) => {
                self.take_step(reports, now, &step);
                Turn::Made
            }
            Err(fault) => Turn::Over(closing_of(fault)),
        }
    }

    /// Takes what a step of relaying did that was not refused.
    fn take_step(&mut self, reports: &mut Reports, now: u64, step: &RelayedStep)
        ensures { self.new ≡ record self.old { schedule = spec.after_relaying self.old.schedule now self.old.plan.pace step.now } }
    {
        let slot = self.plan.slot;
        match step {
            RelayedStep::Nothing => {
                self.schedule = self.schedule.without_control();
            }
            RelayedStep::Selecting(id) => {
                self.schedule = self.schedule.asked(now, &self.plan.pace, TaskKind::Control);
                self.tell_request(reports);
                reports.tell(Report::Selecting(slot, *id));
            }
            RelayedStep::Sent(id) => {
                self.schedule = self.schedule.asked(now, &self.plan.pace, TaskKind::Control);
                self.tell_request(reports);
                reports.tell(Report::Operating(slot, *id));
            }
            RelayedStep::Finished(id, status) => {
                self.schedule = self.schedule.finished_control();
                reports.tell(Report::Finished(slot, *id, status.code()));
            }
        }
    }
}
