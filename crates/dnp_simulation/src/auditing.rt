//! What nodes recorded, against what was done.

use crate::lists::watch_at;
use crate::network::Network;
use crate::nodes::{Nodes, all_lanes, count_lanes};
use crate::points::Shown;
use crate::process::{Process, number_of};
use crate::violation::Violation;
use dnp_controls::{BookFault, Entry};
use dnp_eventbuf::CENTRES;
use std::alloc::AllocError;

impl Network {
    /// Looks at what a process has recorded since it was looked at last.
    pub fn audit<N: Nodes>(&mut self, nodes: &mut N, process: Process) -> Result<(), AllocError> {
        match process {
            Process::Substation(number) => {
                let operated = nodes.operated(number);
                self.controls
                    .audit_outputs(&mut self.record, number, operated)
            }
            Process::Concentrator => Ok(()),
            Process::Centre(centre) => self.journals.audit(nodes, &mut self.record, centre),
        }
    }

    /// Looks at what the stores of a process have, as it begins again.
    pub fn audit_restart<N: Nodes>(
        &mut self,
        nodes: &mut N,
        process: Process,
    ) -> Result<(), AllocError> {
        if let Process::Centre(centre) = process {
            self.journals.audit_anew(nodes, &mut self.record, centre)?;
        }
        match nodes.controls(self.record.alloc, process) {
            Ok(entries) => self.audit_book(process, &entries),
            Err(BookFault::Device) => {
                self.record.has_failed = true;
                Ok(())
            }
            Err(_) => Err(AllocError),
        }
    }

    /// Looks at the book of a process that has these entries.
    fn audit_book(&mut self, process: Process, entries: &[Entry]) -> Result<(), AllocError> {
        self.record.see(self.known.audit(process, entries))?;
        match process {
            Process::Centre(centre) => {
                let lost = self.controls.audit_issued(centre, entries);
                self.record.see(lost)
            }
            _ => Ok(()),
        }
    }

    /// Looks whether events have vanished on their way to a centre. Gives how many wait.
    fn audit_lanes_of<N: Nodes>(&mut self, nodes: &mut N, centre: u8) -> Result<u64, AllocError> {
        let counts = count_lanes(nodes, self.places.substations, centre);
        self.journals
            .audit_lanes(&mut self.record, centre, &counts)?;
        Ok(all_lanes(&counts).waiting)
    }

    /// Looks whether events have vanished, and notes how many wait.
    pub fn audit_lanes<N: Nodes>(&mut self, nodes: &mut N) -> Result<(), AllocError> {
        let first = self.audit_lanes_of(nodes, 0)?;
        let second = self.audit_lanes_of(nodes, 1)?;
        let waiting = first.max(second);
        self.journals.ages.sample(self.record.now, waiting)
    }

    /// Looks at the points of each substation whose link has been silent or lost for too long.
    pub fn look_at_quality<N: Nodes>(&mut self, nodes: &N) -> Result<(), AllocError> {
        let concentrator = self.places.of_process(Process::Concentrator);
        let watch = watch_at(&self.watches, concentrator);
        let is_there = watch.up_at <= self.record.now;
        for place in 0..self.places.substations {
            let Some(link) = self.links.get_mut(place) else {
                return Ok(());
            };
            if link.is_lost(self.record.now) && is_there {
                self.audit_points(nodes, place, false)?;
            }
        }
        Ok(())
    }

    /// Looks at the points of the substation at a place.
    fn audit_points<N: Nodes>(
        &mut self,
        nodes: &N,
        place: usize,
        is_end: bool,
    ) -> Result<(), AllocError> {
        let number = number_of(place);
        let plans = self.layout.plan.substations.as_slice();
        if let Some(plan) = plans.get(place)
            && let Some(there) = nodes.points(number)
            && let Some(first) = nodes.points_above(0)
            && let Some(second) = nodes.points_above(1)
        {
            let shown = Shown {
                number,
                there,
                above: [first, second],
                is_end,
            };
            let seen = self.journals.ledger.audit_points(plan, &shown);
            self.record.see(seen)?;
        }
        Ok(())
    }

    /// Looks at what a process has recorded once nothing fails any more: its journal and its book.
    fn audit_stores<N: Nodes>(
        &mut self,
        nodes: &mut N,
        process: Process,
    ) -> Result<(), AllocError> {
        self.audit_restart(nodes, process)?;
        let Ok(entries) = nodes.controls(self.record.alloc, process) else {
            return Err(AllocError);
        };
        for entry in &entries {
            let seen = self.controls.audit_entry(process, entry);
            self.record.see(seen)?;
        }
        Ok(())
    }

    /// Looks at everything once nothing fails any more.
    pub fn audit_end<N: Nodes>(&mut self, nodes: &mut N) -> Result<(), AllocError> {
        for centre in 0..CENTRES {
            self.audit_stores(nodes, Process::Centre(centre))?;
            let waiting = self.audit_lanes_of(nodes, centre)?;
            if 0 < waiting {
                self.record.see(Some(Violation::Waiting(centre, waiting)))?;
            }
        }
        self.audit_stores(nodes, Process::Concentrator)?;
        for link in &self.links {
            if !link.wire.is_open() {
                self.record.see(Some(Violation::Down(link.way)))?;
            }
        }
        for place in 0..self.places.substations {
            self.audit_points(nodes, place, true)?;
        }
        Ok(())
    }
}
