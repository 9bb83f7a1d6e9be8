//! The control that is in progress on a link.

ghost use Rattle.std.specs.Prelude.{◌≡◌};
ghost use Rattle.dnp_concentrator.specs.Relaying as spec;

use dnp_master::Outcome;
use dnp_objects::{Command, Status};

/// How far a control in progress is.
#[derive(Clone, Copy, Debug, PartialEq, Eq)]
pub(crate) enum Stage {
    /// Its SELECT was asked, and the answer is awaited.
    Selecting,
    /// Its SELECT was answered SUCCESS.
    Selected,
    /// It was spent in the book and its OPERATE was asked, and the answer is awaited.
    Operating,
    /// What became of it is known, and the book is still to be told.
    Known(Status),
}

/// A control in progress.
#[derive(Clone, Copy, Debug, PartialEq, Eq)]
pub(crate) struct Progress {
    /// Its number in the book.
    pub id: u64,
    /// What is to be done.
    pub command: Command,
    /// How far it is.
    pub stage: Stage,
}

/// The status that an outcome counts as: an answer that doesn't repeat the command is one in a wrong form.
fn status_of(outcome: &Outcome) -> Status
    ensures { result ≡ spec.status_of outcome.now }
{
    match outcome {
        Outcome::Control(status) => *status,
        Outcome::Done(_) | Outcome::Unlike => Status::FORMAT_ERROR,
    }
}

impl Stage {
    /// The stage after the outcome of the task that the master had asked.
    pub fn heard(self, outcome: &Outcome) -> Stage
        ensures { result ≡ spec.heard self outcome.now }
    {
        let status = status_of(outcome);
        match self {
            Stage::Selecting if status == Status::SUCCESS => Stage::Selected,
            Stage::Selecting | Stage::Operating => Stage::Known(status),
            Stage::Selected | Stage::Known(_) => self,
        }
    }
}
