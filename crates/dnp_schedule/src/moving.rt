//! What happens on a link, and what its schedule is then.

ghost use Rattle.std.specs.Prelude.{◌≡◌, ◌≤◌, if◌then◌else◌};
ghost use Rattle.dnp_schedule.specs.Moving as spec;

use crate::back_off::rest_ms;
use crate::indications::{Risen, has_events, what_rose};
use crate::pace::Pace;
use crate::schedule::{Awaited, LastRequest, Owed, Phase, Schedule};
use crate::task_kind::TaskKind;
use dnp_appfragment::Iin;

impl Owed {
    /// What is owed once a task was asked.
    fn without(self, task: TaskKind) -> Owed
        ensures { result ≡ spec.without self task }
    {
        match task {
            TaskKind::DisableUnsolicited => Owed {
                disable: false,
                ..self
            },
            TaskKind::IntegrityPoll => Owed {
                integrity: false,
                events: false,
                ..self
            },
            TaskKind::ClearRestart => Owed {
                clear: false,
                ..self
            },
            TaskKind::WriteTime => Owed {
                time: false,
                ..self
            },
            TaskKind::EnableUnsolicited => Owed {
                enable: false,
                ..self
            },
            TaskKind::EventPoll => Owed {
                events: false,
                ..self
            },
            TaskKind::Control | TaskKind::OtherPoll => self,
        }
    }

    /// What is owed after indications have risen, in the first response of a connection or in a later one.
    fn after(self, pace: &Pace, is_first: bool, risen: Risen) -> Owed
        ensures { result ≡ spec.owed_after self pace.now is_first risen }
    {
        Owed {
            disable: self.disable || (risen.restart && (pace.disables && !is_first)),
            integrity: self.integrity || (risen.overflow || (risen.restart && !is_first)),
            clear: self.clear || risen.restart,
            time: self.time || (risen.time && pace.writes_time),
            enable: self.enable || (risen.restart && pace.enables),
            control: self.control,
            events: self.events || risen.events,
        }
    }
}

/// Whether a task polls the events of all classes that are polled.
fn polls_all(task: TaskKind) -> bool
    ensures { result ≡ spec.polls_all task }
{
    matches!(task, TaskKind::IntegrityPoll | TaskKind::EventPoll)
}

/// Whether it is an integrity poll.
fn is_integrity(task: TaskKind) -> bool
    ensures { result ≡ spec.is_integrity task }
{
    matches!(task, TaskKind::IntegrityPoll)
}

/// Whether it writes the time.
fn is_time(task: TaskKind) -> bool
    ensures { result ≡ spec.is_time task }
{
    matches!(task, TaskKind::WriteTime)
}

/// Whether it is a control.
fn is_control(task: TaskKind) -> bool
    ensures { result ≡ spec.is_control task }
{
    matches!(task, TaskKind::Control)
}

/// The request that is awaited, after a fragment with so many event rows.
fn with_rows(awaited: Option<Awaited>, rows: usize) -> Option<Awaited>
    ensures { result ≡ spec.with_rows awaited rows }
{
    match awaited {
        Some(awaited) => Some(Awaited {
            rows: awaited.rows.saturating_add(rows),
            ..awaited
        }),
        None => None,
    }
}

/// Whether a response brought event rows.
fn brought_rows(awaited: Option<Awaited>) -> bool
    ensures { result ≡ spec.brought_rows awaited }
{
    match awaited {
        Some(awaited) => 0 < awaited.rows,
        None => false,
    }
}

/// Whether events wait at the station.
fn events_wait(seen: Option<Iin>) -> bool
    ensures { result ≡ spec.events_wait seen }
{
    match seen {
        Some(seen) => has_events(seen),
        None => false,
    }
}

/// So many milliseconds later if something begins now, and else as before.
fn later_if(begins: bool, now: u64, ms: u64, before: u64) -> u64
    ensures { result ≡ (if begins then spec.later now ms else before) }
{
    if begins {
        now.saturating_add(ms)
    } else {
        before
    }
}

impl Schedule {
    /// The link connects.
    pub fn connecting(&self, now: u64, pace: &Pace) -> Schedule
        ensures { result ≡ spec.connecting self.now now pace.now }
    {
        Schedule {
            phase: Phase::Connecting(now.saturating_add(pace.connect_ms)),
            ..*self
        }
    }

    /// The link is connected: the start is owed, and nothing was asked on this connection.
    pub fn connected(&self, now: u64, pace: &Pace) -> Schedule
        ensures { result ≡ spec.connected self.now now pace.now }
    {
        Schedule {
            phase: Phase::Starting,
            losses: self.losses,
            owed: Owed {
                disable: pace.disables,
                integrity: true,
                enable: pace.enables,
                control: true,
                ..Owed::NOTHING
            },
            events_at: now.saturating_add(pace.events_ms),
            integrity_at: now.saturating_add(pace.integrity_ms),
            time_at: now.saturating_add(pace.time_ms),
            silent_at: now.saturating_add(pace.keepalive_ms),
            pause_until: now,
            ..Schedule::new(0)
        }
    }

    /// A task was asked: its response is awaited, and the period of what it asks begins.
    pub fn asked(&self, now: u64, pace: &Pace, task: TaskKind) -> Schedule
        ensures { result ≡ spec.asked self.now now pace.now task }
    {
        let polls = polls_all(task);
        Schedule {
            owed: self.owed.without(task),
            awaited: Some(Awaited {
                task,
                until: now.saturating_add(pace.poll_ms),
                rows: 0,
            }),
            events_at: later_if(polls, now, pace.events_ms, self.events_at),
            integrity_at: later_if(
                is_integrity(task),
                now,
                pace.integrity_ms,
                self.integrity_at,
            ),
            time_at: later_if(is_time(task), now, pace.time_ms, self.time_at),
            silent_at: now.saturating_add(pace.keepalive_ms),
            pause_until: later_if(polls, now, pace.pause_ms, self.pause_until),
            last: Some(LastRequest {
                task,
                sequence: self.sequence,
            }),
            in_control: is_control(task),
            had_control: self.had_control && !polls,
            ..*self
        }
    }

    /// A fragment came whole, with these indications and so many event rows. What has risen is owed.
    pub fn heard(&self, now: u64, pace: &Pace, seen: Iin, rows: usize) -> Schedule
        ensures { result ≡ spec.heard self.now now pace.now seen rows }
    {
        let risen = what_rose(self.seen, seen);
        Schedule {
            owed: self.owed.after(pace, self.seen.is_none(), risen),
            awaited: with_rows(self.awaited, rows),
            seen: Some(seen),
            silent_at: now.saturating_add(pace.keepalive_ms),
            ..*self
        }
    }

    /// The response ended, with a fragment of this number, 0 to 15. If it brought rows and events wait still, they are polled at once.
    pub fn answered(&self, now: u64, number: u8) -> Schedule
        requires { number ≤ 15 }
        ensures { result ≡ spec.answered self.now now number }
    {
        let brought = brought_rows(self.awaited);
        Schedule {
            owed: Owed {
                events: self.owed.events || (brought && events_wait(self.seen)),
                ..self.owed
            },
            awaited: None,
            sequence: (number + 1) % 16,
            pause_until: if brought { now } else { self.pause_until },
            ..*self
        }
    }

    /// Whether nothing of a start is owed or awaited.
    fn is_start_over(&self) -> bool
        ensures { result ≡ spec.is_start_over self.now }
    {
        !(self.awaited.is_some() || self.owed.has_start())
    }

    /// The start is over, if nothing of it is left.
    pub fn settled(&self) -> Schedule
        ensures { result ≡ spec.settled self.now }
    {
        match self.phase {
            Phase::Starting if self.is_start_over() => Schedule {
                phase: Phase::Running,
                losses: 0,
                ..*self
            },
            _ => *self,
        }
    }

    /// The connection is lost, or there was none: the link rests, longer after each loss.
    pub fn lost(&self, now: u64, pace: &Pace) -> Schedule
        ensures { result ≡ spec.lost self.now now pace.now }
    {
        Schedule {
            phase: Phase::Resting(now.saturating_add(rest_ms(self.losses, pace.place))),
            losses: self.losses.saturating_add(1),
            owed: Owed::NOTHING,
            awaited: None,
            in_control: false,
            ..*self
        }
    }

    /// A control may wait.
    pub fn may_have_control(&self) -> Schedule
        ensures { result ≡ spec.may_have_control self.now }
    {
        Schedule {
            owed: Owed {
                control: true,
                ..self.owed
            },
            ..*self
        }
    }

    /// No control waits, and none is in progress.
    pub fn without_control(&self) -> Schedule
        ensures { result ≡ spec.without_control self.now }
    {
        Schedule {
            owed: Owed {
                control: false,
                ..self.owed
            },
            in_control: false,
            ..*self
        }
    }

    /// The control in progress was finished. Another one may wait.
    pub fn finished_control(&self) -> Schedule
        ensures { result ≡ spec.finished_control self.now }
    {
        Schedule {
            in_control: false,
            had_control: true,
            ..*self
        }
    }
}
