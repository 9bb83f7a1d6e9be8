//! How tasks came out.

ghost use Rattle.std.specs.Prelude.{◌≡◌, ◌<◌, ◌≤◌, [], ◌++◌, None, OnErr, OnOk, vec_capacity, vec_len};
ghost use Rattle.dnp_poll.specs.TaskEnds.{end_of};

use dnp_appfragment::Iin;
use dnp_master::{Outcome, Task};
use std::alloc::{AllocError, Global};

/// How a task came out.
#[derive(Clone, Copy, Debug, PartialEq, Eq)]
pub struct TaskEnd {
    /// The task that was asked.
    pub task: Task,
    /// What became of it.
    pub outcome: Outcome,
    /// The internal indications of the last fragment of its response.
    pub iin: Iin,
}

impl TaskEnd {
    ghost use Rattle.std.specs.Prelude.{◌≡◌};
    ghost use Rattle.dnp_poll.specs.TaskEnds.{is_done};

    /// Whether the outstation did what was asked: no bit of IIN2 is set, and a command was answered by itself with the status
    /// SUCCESS.
    pub fn is_done(&self) -> bool
        ensures { result ≡ is_done self.now }
    {
        let is_accepted = match self.outcome {
            Outcome::Done(_) => true,
            Outcome::Control(status) => status.code() == 0,
            Outcome::Unlike => false,
        };
        is_accepted && self.iin.two == 0
    }
}

/// The task that was asked last, and how tasks came out.
pub(crate) struct TaskEnds {
    /// The task that was asked last.
    pub task: Option<Task>,
    /// How tasks came out, in order.
    pub ends: Vec<TaskEnd>,
}

impl Drop for TaskEnds {
    /// One call for whoever lets it go: its parts are looked at here alone.
    fn drop(self) {
        let TaskEnds { task: _, ends: _ } = self;
    }
}

impl TaskEnds {
    /// No task was asked.
    pub fn new(alloc: Global) -> TaskEnds
        ensures task { result.task ≡ None }
        ensures ends { result.ends.items ≡ [] }
    {
        TaskEnds {
            task: None,
            ends: Vec::new(alloc),
        }
    }

    /// Makes room for how one task more came out. It is out of memory only where there is no room.
    pub fn make_room(&mut self) -> Result<(), AllocError>
        ensures task { self.new.task ≡ self.old.task }
        ensures ends { self.new.ends.items ≡ self.old.ends.items }
        ensures room { OnOk result (vec_len self.new.ends < vec_capacity self.new.ends) }
        ensures full { OnErr result (vec_capacity self.old.ends ≤ vec_len self.old.ends) }
    {
        self.ends.try_reserve(1)
    }

    /// Keeps how the task that was asked last came out, if it did.
    pub fn keep(&mut self, outcome: Option<Outcome>, iin: Iin)
        requires { vec_len self.old.ends < vec_capacity self.old.ends }
        ensures task { self.new.task ≡ self.old.task }
        ensures ends { self.new.ends.items ≡ self.old.ends.items ++ end_of self.old.task outcome iin }
    {
        if let (Some(task), Some(outcome)) = (self.task, outcome) {
            let _kept = self.ends.push(TaskEnd { task, outcome, iin });
        }
    }
}
