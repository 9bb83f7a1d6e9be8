//! What processes have told of the controls in their books, against what the books say as the processes begin again.

use crate::process::Process;
use crate::violation::Violation;
use dnp_controls::{Entry, State};
use dnp_nodes::Report;
use std::alloc::{AllocError, Global};

/// How far a control is, by what its process has told.
#[derive(Clone, Copy)]
enum Stage {
    /// Nothing was told of it that a book has to keep.
    Untold,
    /// It was spent, and operated.
    Spent,
    /// It was finished, with the status of this code.
    Finished(u8),
}

/// What is known of the controls of a book.
#[derive(Drop)]
struct BookKnown {
    /// By their numbers, from 0, which no control has.
    stages: Vec<Stage>,
}

/// What is known of the controls of each book.
#[derive(Drop)]
pub struct Known {
    /// The concentrator's.
    middle: BookKnown,
    /// The first centre's.
    first: BookKnown,
    /// The second centre's.
    second: BookKnown,
}

/// Says whether a state of a control is what its process has told, or what comes after it.
fn keeps(stage: Stage, state: State) -> bool {
    match (stage, state) {
        (Stage::Untold, _) => true,
        (Stage::Spent, State::Pending) | (Stage::Finished(_), State::Pending | State::Spent) =>
            false,
        (Stage::Spent, State::Spent | State::Finished(_)) => true,
        (Stage::Finished(told), State::Finished(status)) => told == status.code(),
    }
}

impl BookKnown {
    /// Notes how far a control is.
    fn note(&mut self, id: u64, stage: Stage) -> Result<(), AllocError> {
        let place = usize::try_from(id).unwrap_or(usize::MAX);
        let count = self.stages.len().max(place.saturating_add(1));
        self.stages.resize(count, Stage::Untold)?;
        if let Some(known) = self.stages.get_mut(place) {
            *known = stage;
        }
        Ok(())
    }

    /// Gives the number of the first control of which its process has told more than these entries say.
    fn missed(&self, entries: &[Entry]) -> Option<u64> {
        for (place, stage) in self.stages.iter().enumerate() {
            let is_kept = match entries.get(place.wrapping_sub(1)) {
                Some(entry) => keeps(*stage, entry.state),
                None => matches!(stage, Stage::Untold),
            };
            if !is_kept {
                return Some(place as u64);
            }
        }
        None
    }
}

impl Known {
    /// Makes that of books of which nothing is known.
    pub fn new(alloc: Global) -> Known {
        Known {
            middle: BookKnown {
                stages: Vec::new(alloc),
            },
            first: BookKnown {
                stages: Vec::new(alloc),
            },
            second: BookKnown {
                stages: Vec::new(alloc),
            },
        }
    }

    /// Notes what a process reports of a control in its book.
    pub fn take(&mut self, process: Process, report: &Report) -> Result<(), AllocError> {
        let (id, stage) = match report {
            Report::Operating(_, id) => (*id, Stage::Spent),
            Report::Finished(_, id, status) => (*id, Stage::Finished(*status)),
            _ => return Ok(()),
        };
        match process {
            Process::Substation(_) => Ok(()),
            Process::Concentrator => self.middle.note(id, stage),
            Process::Centre(0) => self.first.note(id, stage),
            Process::Centre(_) => self.second.note(id, stage),
        }
    }

    /// Gives what must not be of a process's book with these entries, as the process begins again: that a control which was spent
    /// or finished is so no longer.
    pub fn audit(&self, process: Process, entries: &[Entry]) -> Option<Violation> {
        let book = match process {
            Process::Substation(_) => return None,
            Process::Concentrator => &self.middle,
            Process::Centre(0) => &self.first,
            Process::Centre(_) => &self.second,
        };
        let id = book.missed(entries)?;
        Some(Violation::Revived(process, id))
    }
}
