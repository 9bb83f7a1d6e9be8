//! What is asked next, and when a link is looked at again.

ghost use Rattle.std.specs.Prelude.{◌≡◌, is_some};
ghost use Rattle.dnp_schedule.specs.Deciding as spec;

use crate::schedule::{Owed, Phase, Schedule};
use crate::task_kind::TaskKind;

/// What of a start is owed, in its order.
fn start_task(owed: &Owed) -> Option<TaskKind>
    ensures { result ≡ spec.start_task owed.now }
{
    if owed.disable {
        Some(TaskKind::DisableUnsolicited)
    } else if owed.integrity {
        Some(TaskKind::IntegrityPoll)
    } else if owed.clear {
        Some(TaskKind::ClearRestart)
    } else if owed.time {
        Some(TaskKind::WriteTime)
    } else if owed.enable {
        Some(TaskKind::EnableUnsolicited)
    } else {
        None
    }
}

/// Whether two polls are one but for their numbers.
fn is_same_poll(before: TaskKind, after: TaskKind) -> bool
    ensures { result ≡ spec.is_same_poll before after }
{
    match before {
        TaskKind::IntegrityPoll => matches!(after, TaskKind::IntegrityPoll),
        TaskKind::EventPoll => matches!(after, TaskKind::EventPoll),
        TaskKind::OtherPoll => matches!(after, TaskKind::OtherPoll),
        _ => false,
    }
}

/// What is polled in place of a poll that would repeat the last request.
fn in_its_place(task: TaskKind) -> TaskKind
    ensures { result ≡ spec.in_its_place task }
{
    match task {
        TaskKind::OtherPoll => TaskKind::EventPoll,
        _ => TaskKind::OtherPoll,
    }
}

impl Owed {
    /// Whether something of a start is owed.
    pub(crate) fn has_start(&self) -> bool
        ensures { result ≡ is_some (spec.start_task self.now) }
    {
        start_task(self).is_some()
    }
}

impl Schedule {
    /// Whether events are to be polled at this moment.
    fn are_events_due(&self, now: u64) -> bool
        ensures { result ≡ spec.are_events_due self.now now }
    {
        self.events_at <= now
            || self.silent_at <= now
            || (self.owed.events && self.pause_until <= now)
    }

    /// What the clock asks for at this moment.
    fn timed_task(&self, now: u64) -> Option<TaskKind>
        ensures { result ≡ spec.timed_task self.now now }
    {
        if self.integrity_at <= now {
            Some(TaskKind::IntegrityPoll)
        } else if self.time_at <= now {
            Some(TaskKind::WriteTime)
        } else if self.are_events_due(now) {
            Some(TaskKind::EventPoll)
        } else {
            None
        }
    }

    /// What is due once the start is over: a control, unless one was finished last and the clock asks for something.
    fn running_task(&self, now: u64) -> Option<TaskKind>
        ensures { result ≡ spec.running_task self.now now }
    {
        match self.timed_task(now) {
            Some(timed) => {
                if self.owed.control && !self.had_control {
                    Some(TaskKind::Control)
                } else {
                    Some(timed)
                }
            }
            None => {
                if self.owed.control {
                    Some(TaskKind::Control)
                } else {
                    None
                }
            }
        }
    }

    /// What is due on a link that is connected and awaits nothing.
    fn due_task(&self, now: u64) -> Option<TaskKind>
        ensures { result ≡ spec.due_task self.now now }
    {
        if self.in_control {
            return Some(TaskKind::Control);
        }
        match start_task(&self.owed) {
            Some(task) => Some(task),
            None => match self.phase {
                Phase::Running => self.running_task(now),
                _ => None,
            },
        }
    }

    /// Whether a poll would have the octets of the connection's last request. The outstation would take it for that one, repeated,
    /// and send its last response again.
    fn would_repeat(&self, task: TaskKind) -> bool
        ensures { result ≡ spec.would_repeat self.now task }
    {
        match self.last {
            Some(last) => last.sequence == self.sequence && is_same_poll(last.task, task),
            None => false,
        }
    }

    /// What is asked on the link at this moment, if anything is.
    pub fn next_task(&self, now: u64) -> Option<TaskKind>
        ensures { result ≡ spec.next_task self.now now }
    {
        if self.awaited.is_some() || !self.is_connected() {
            return None;
        }
        match self.due_task(now) {
            Some(task) => {
                if self.would_repeat(task) {
                    Some(in_its_place(task))
                } else {
                    Some(task)
                }
            }
            None => None,
        }
    }

    /// When a connected link that awaits nothing has something due, if nothing is owed at once.
    fn next_due(&self) -> u64
        ensures { result ≡ spec.next_due self.now }
    {
        let polls_at = self.events_at.min(self.silent_at);
        let due_at = self.integrity_at.min(self.time_at).min(polls_at);
        if self.owed.events {
            due_at.min(self.pause_until)
        } else {
            due_at
        }
    }

    /// The moment at which the link is to be looked at again, at the latest. The station's own timers come beside it.
    pub fn next_deadline(&self) -> u64
        ensures { result ≡ spec.next_deadline self.now }
    {
        match self.phase {
            Phase::Resting(until) => until,
            Phase::Connecting(until) => until,
            Phase::Starting | Phase::Running => match self.awaited {
                Some(awaited) => awaited.until,
                None => self.next_due(),
            },
        }
    }
}
