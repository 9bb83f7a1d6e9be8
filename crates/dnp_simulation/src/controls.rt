//! The commands that were issued, and what became of them.

use crate::process::Process;
use crate::record::Record;
use crate::violation::Violation;
use dnp_concentrator::SubPlan;
use dnp_controls::{Entry, State};
use dnp_objects::{Command, Status};
use std::alloc::AllocError;

/// The code LATCH_ON, which every output takes.
const LATCH_ON: u8 = 3;

/// What is known of whether a centre's book has a command.
#[derive(Clone, Copy)]
pub enum Standing {
    /// The book has it.
    Certain,
    /// The book failed as the command was issued, and may have it.
    Doubtful,
    /// The book has lost it then, so that it is never performed.
    Withdrawn,
}

/// A command that was issued. Its number is that of its value.
#[derive(Clone, Copy)]
pub struct Issued {
    /// The centre that issued it.
    pub centre: u8,
    /// The substation that it is for.
    pub substation: u8,
    /// What is to be done there.
    pub command: Command,
    /// How often it was performed.
    pub performed: u32,
    /// What is known of whether the centre's book has it.
    pub standing: Standing,
    /// Whether it was found in the book as that was looked at.
    pub is_found: bool,
}

impl Issued {
    /// Says whether the concentrator's book says another thing of it than its output has done.
    fn is_misreported(&self, state: State) -> bool {
        match state {
            State::Finished(status) => (0 < self.performed) != (status == Status::SUCCESS),
            State::Pending | State::Spent => false,
        }
    }

    /// Looks whether it was found in its centre's book. Says whether it was lost there.
    fn settle(&mut self) -> bool {
        let is_found = self.is_found;
        self.is_found = false;
        match self.standing {
            Standing::Certain => !is_found,
            Standing::Doubtful => {
                self.standing = if is_found {
                    Standing::Certain
                } else {
                    Standing::Withdrawn
                };
                false
            }
            Standing::Withdrawn => false,
        }
    }
}

/// The commands that were issued.
#[derive(Drop)]
pub struct Controls {
    /// By their numbers, from 1.
    pub issued: Vec<Issued>,
    /// How many commands that each substation performed were looked at.
    pub looked: Vec<usize>,
}

/// Gives the number of a command.
pub fn number_of(command: &Command) -> usize {
    match command {
        Command::Block { on_ms, .. } => usize::try_from(*on_ms).unwrap_or(0),
        Command::Set16 { value, .. } => usize::try_from(*value).unwrap_or(0),
        Command::Set32 { value, .. } => usize::try_from(*value).unwrap_or(0),
    }
}

/// Makes the command of a number for one of a substation's outputs or setpoints, by a number drawn. `None` if it has none.
pub fn command_of(substation: &SubPlan, number: u32, drawn: u64) -> Option<Command> {
    let outputs = u64::from(substation.outputs);
    let setpoints = u64::from(substation.setpoints);
    if outputs == 0 && setpoints == 0 {
        return None;
    }
    let place = drawn % outputs.saturating_add(setpoints);
    if place < outputs {
        return Some(Command::Block {
            index: u16::try_from(place).unwrap_or(0),
            code: LATCH_ON,
            count: 1,
            on_ms: number,
            off_ms: 0,
        });
    }
    Some(Command::Set32 {
        index: u16::try_from(place.saturating_sub(outputs)).unwrap_or(0),
        value: i32::try_from(number).unwrap_or(0),
    })
}

impl Controls {
    /// Notes a command that a substation performed, and gives what must not be of it: that it was performed before, or that it
    /// was not issued for this substation.
    pub fn perform(&mut self, substation: u8, command: &Command) -> Option<Violation> {
        let number = number_of(command);
        let Some(issued) = self.issued.get_mut(number.wrapping_sub(1)) else {
            return Some(Violation::Unordered(substation, number));
        };
        let is_other = issued.substation != substation || issued.command != *command;
        if is_other || matches!(issued.standing, Standing::Withdrawn) {
            return Some(Violation::Unordered(substation, number));
        }
        issued.performed = issued.performed.saturating_add(1);
        if issued.performed == 1 {
            None
        } else {
            Some(Violation::Twice(number))
        }
    }

    /// Looks at the commands that a substation has performed since it was looked at last.
    pub fn audit_outputs(
        &mut self,
        record: &mut Record,
        substation: u8,
        operated: &[Command],
    ) -> Result<(), AllocError> {
        let place = usize::from(substation);
        let from = self.looked.get(place).copied().unwrap_or(0);
        for at in from..operated.len() {
            record.see(self.perform(substation, &operated[at]))?;
        }
        if let Some(looked) = self.looked.get_mut(place) {
            *looked = from.max(operated.len());
        }
        Ok(())
    }

    /// Gives what must not be of an entry of a process's book at the end: that it waits, and in the concentrator's that its command
    /// was not issued, or that the entry says another thing of it than its output has done.
    pub fn audit_entry(&self, process: Process, entry: &Entry) -> Option<Violation> {
        let number = number_of(&entry.command);
        let issued = self.issued.get(number.wrapping_sub(1));
        if matches!(entry.state, State::Pending) {
            return Some(Violation::Undone(number));
        }
        if !matches!(process, Process::Concentrator) {
            return None;
        }
        match issued {
            None => Some(Violation::Unordered(entry.target, number)),
            Some(issued) if issued.is_misreported(entry.state) => {
                Some(Violation::Misreported(number))
            }
            Some(_) => None,
        }
    }

    /// Gives what must not be of a centre's book with these entries, as the centre begins again: that it lacks a command which
    /// was issued there. One at which the book failed may be there or not.
    pub fn audit_issued(&mut self, centre: u8, entries: &[Entry]) -> Option<Violation> {
        for entry in entries {
            let number = number_of(&entry.command);
            if let Some(issued) = self.issued.get_mut(number.wrapping_sub(1))
                && issued.centre == centre
            {
                issued.is_found = true;
            }
        }
        let mut lost = None;
        for place in 0..self.issued.len() {
            if let Some(issued) = self.issued.get_mut(place)
                && issued.centre == centre
                && issued.settle()
                && lost.is_none()
            {
                lost = Some(Violation::Forgotten(place.saturating_add(1)));
            }
        }
        lost
    }

    /// Gives how many commands were performed.
    pub fn performed(&self) -> u64 {
        let mut count: u64 = 0;
        for issued in &self.issued {
            if 0 < issued.performed {
                count = count.saturating_add(1);
            }
        }
        count
    }
}
