//! How far tasks that are asked on a link have come.

ghost use Rattle.std.specs.Prelude.{◌≡◌};

use crate::link::{Heard, Told};
use crate::stream::asked::Asked;
use crate::stream::station::StationFault;
use dnp_concentrator::RelayedStep;
use dnp_controls::BookFault;
use dnp_master::{AskFault, Task};
use std::alloc::Global;

/// The tasks that are asked on a link: which are left, and what came of the others.
#[derive(Drop)]
pub(super) struct Agenda<'a> {
    /// The tasks that are left.
    pub left: &'a [Task],
    /// What came of it.
    pub asked: Asked,
    /// Whether the opening was made.
    pub is_begun: bool,
    /// Whether all is over: the connection was closed, or relaying came to its end.
    pub is_over: bool,
}

impl<'a> Agenda<'a> {
    ghost use Rattle.dnp_streams.specs.steps.Asking.{HasPlace, IsFresh, IsRefused, IsTold, IsToldAsked, IsToldHeard, IsToldRelayed};

    /// Nothing was done yet.
    pub fn new(alloc: Global, tasks: &'a [Task]) -> Agenda<'a>
        ensures left { result.left.now ≡ tasks.now }
        ensures fresh { IsFresh result }
    {
        Agenda {
            left: tasks,
            asked: Asked::new(alloc),
            is_begun: false,
            is_over: false,
        }
    }

    /// Takes what a call of the station told, or that it refused.
    pub fn tell(&mut self, told: Result<Told, StationFault>)
        requires { HasPlace self.old.asked }
        ensures { IsTold self.old told self.new }
    {
        match told {
            Ok(told) => {
                self.asked.count(told.rows, told.outcome);
                self.is_over = told.closed;
            }
            Err(_) => self.refuse(),
        }
    }

    /// Counts a call that was refused.
    fn refuse(&mut self)
        ensures { IsRefused self.old self.new }
    {
        self.asked.refuse();
    }

    /// Takes what a frame brought.
    pub fn tell_heard(&mut self, heard: Heard)
        requires { HasPlace self.old.asked }
        ensures { IsToldHeard self.old heard self.new }
    {
        match heard {
            Heard::Part => {}
            Heard::Whole(told) => self.tell(told),
        }
    }

    /// Takes what came of asking a task.
    pub fn tell_asked(&mut self, asked: Result<(), AskFault>)
        ensures { IsToldAsked self.old asked self.new }
    {
        match asked {
            Ok(()) => {}
            Err(_) => self.refuse(),
        }
    }

    /// Takes what came of a step of relaying.
    pub fn tell_relayed(&mut self, relayed: Result<RelayedStep, BookFault>)
        ensures { IsToldRelayed self.old relayed self.new }
    {
        match relayed {
            Ok(RelayedStep::Nothing) => self.is_over = true,
            Ok(RelayedStep::Selecting(_) | RelayedStep::Sent(_) | RelayedStep::Finished(_, _)) => {}
            Err(_) => {
                self.is_over = true;
                self.refuse();
            }
        }
    }
}
