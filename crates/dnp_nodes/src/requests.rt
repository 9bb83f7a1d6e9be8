//! The tasks that a schedule's words stand for.

ghost use Rattle.std.specs.Prelude.{◌≡◌, ◌≢◌, ◌⊎◌, false, IsTrue};
ghost use Rattle.dnp_nodes.specs.Requests.{IsOneClass, StandsFor};

use dnp_master::{Classes, Task};
use dnp_schedule::TaskKind;

/// Which classes a master polls on a link, and of which it enables unsolicited responses.
#[derive(Clone, Copy, Debug, PartialEq, Eq)]
pub struct LinkClasses {
    /// Those of an integrity poll.
    pub integrity: Classes,
    /// Those of an event poll.
    pub events: Classes,
    /// Those of unsolicited responses, 1 to 3.
    pub unsolicited: Classes,
}

/// The last millisecond that the time of a task can name.
const LAST_TIME: u64 = (1 << 48) - 1;

/// The classes of events.
const EVENT_CLASSES: Classes = Classes([false, true, true, true]);

/// Whether these are the same classes.
fn are_same(left: Classes, right: Classes) -> bool
    ensures same { IsTrue result → left ≡ right }
    ensures other { result ≡ false → left ≢ right }
{
    left == right
}

impl LinkClasses {
    /// Whether a poll of these classes is another one than both polls.
    fn is_other(&self, classes: Classes) -> bool
        ensures other { IsTrue result → (classes ≢ self.now.integrity) × (classes ≢ self.now.events) }
        ensures taken { result ≡ false → (classes ≡ self.now.integrity) ⊎ (classes ≡ self.now.events) }
    {
        if are_same(classes, self.integrity) {
            return false;
        }
        !are_same(classes, self.events)
    }

    /// The one class of a poll that is neither the integrity poll nor the event poll, and so has other octets.
    fn other(&self) -> Classes
        ensures one { IsOneClass result }
        ensures integrity { result ≢ self.now.integrity }
        ensures events { result ≢ self.now.events }
    {
        let first = Classes([false, true, false, false]);
        let second = Classes([false, false, true, false]);
        if self.is_other(first) {
            first
        } else if self.is_other(second) {
            second
        } else {
            Classes([false, false, false, true])
        }
    }
}

/// The task that a schedule asks for, while the wall clock shows this, in milliseconds since 1970 UTC; none for a control, which is
/// relayed.
pub fn task_of(kind: TaskKind, classes: &LinkClasses, utc: u64) -> Option<Task>
    ensures { StandsFor kind classes.now utc result }
{
    match kind {
        TaskKind::DisableUnsolicited => Some(Task::Disable(EVENT_CLASSES)),
        TaskKind::IntegrityPoll => Some(Task::Poll(classes.integrity)),
        TaskKind::ClearRestart => Some(Task::ClearRestart),
        TaskKind::WriteTime => Some(Task::WriteTime(utc.min(LAST_TIME))),
        TaskKind::EnableUnsolicited => Some(Task::Enable(classes.unsolicited)),
        TaskKind::EventPoll => Some(Task::Poll(classes.events)),
        TaskKind::OtherPoll => Some(Task::Poll(classes.other())),
        TaskKind::Control => None,
    }
}
