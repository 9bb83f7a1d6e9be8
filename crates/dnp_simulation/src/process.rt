//! The processes of a network, the connections between them, and where each stands in its list.

use crate::wire::End;
use dnp_nodes::Slot;

/// A process of the network.
#[derive(Clone, Copy, Debug)]
pub enum Process {
    /// The substation of this number.
    Substation(u8),
    /// The concentrator.
    Concentrator,
    /// The centre of this number.
    Centre(u8),
}

/// A connection of the network.
#[derive(Clone, Copy, Debug)]
pub enum Way {
    /// From the concentrator to the substation of this number.
    Below(u8),
    /// From the centre of this number to the concentrator.
    Above(u8),
}

impl Way {
    /// Gives the process at an end of it.
    pub fn process(self, end: End) -> Process {
        match (self, end) {
            (Way::Below(_), End::Caller) | (Way::Above(_), End::Callee) => Process::Concentrator,
            (Way::Below(number), End::Callee) => Process::Substation(number),
            (Way::Above(centre), End::Caller) => Process::Centre(centre),
        }
    }

    /// Gives the place for it of the process at an end.
    pub fn slot(self, end: End) -> Slot {
        match (self, end) {
            (Way::Below(number), End::Caller) => Slot::Below(number),
            (Way::Below(_), End::Callee) => Slot::Above(0),
            (Way::Above(_), End::Caller) => Slot::Below(0),
            (Way::Above(centre), End::Callee) => Slot::Above(centre),
        }
    }

    /// Gives the end of it at which a process is, if it is at one.
    pub fn end_of(self, process: Process) -> Option<End> {
        match (self, process) {
            (Way::Below(_), Process::Concentrator) => Some(End::Caller),
            (Way::Below(number), Process::Substation(other)) if number == other => {
                Some(End::Callee)
            }
            (Way::Above(_), Process::Concentrator) => Some(End::Callee),
            (Way::Above(centre), Process::Centre(other)) if centre == other => Some(End::Caller),
            _ => None,
        }
    }

    /// Gives the connection that a process has at a place.
    pub fn of_process(process: Process, slot: Slot) -> Way {
        match (process, slot) {
            (Process::Substation(number), _) | (Process::Concentrator, Slot::Below(number)) => {
                Way::Below(number)
            }
            (Process::Centre(centre), _) | (Process::Concentrator, Slot::Above(centre)) => {
                Way::Above(centre)
            }
        }
    }
}

/// Gives the number of a substation.
pub fn number_of(place: usize) -> u8 {
    u8::try_from(place).unwrap_or(u8::MAX)
}

/// Where processes and connections stand in their lists: those of the substations first.
#[derive(Clone, Copy)]
pub struct Places {
    /// How many substations there are.
    pub substations: usize,
}

impl Places {
    /// Gives how many processes there are.
    pub fn processes(self) -> usize {
        self.substations.saturating_add(3)
    }

    /// Gives the process at a place.
    pub fn process_at(self, place: usize) -> Process {
        match place.checked_sub(self.substations) {
            None => Process::Substation(number_of(place)),
            Some(0) => Process::Concentrator,
            Some(above) => Process::Centre(number_of(above.saturating_sub(1))),
        }
    }

    /// Gives the place of a process.
    pub fn of_process(self, process: Process) -> usize {
        match process {
            Process::Substation(number) => usize::from(number),
            Process::Concentrator => self.substations,
            Process::Centre(centre) => self
                .substations
                .saturating_add(1)
                .saturating_add(usize::from(centre)),
        }
    }

    /// Gives the place of a connection.
    pub fn of_link(self, way: Way) -> usize {
        match way {
            Way::Below(number) => usize::from(number),
            Way::Above(centre) => self.substations.saturating_add(usize::from(centre)),
        }
    }
}
