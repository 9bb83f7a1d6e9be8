//! The nodes of a network, by their lists.

use crate::nodes::{LaneCount, Nodes, Taken, Told};
use crate::polled::Layout;
use crate::process::{Process, number_of};
use crate::programs::{Gathers, Keeps, Measures, new_program, restarted};
use crate::restarts::{Again, Return};
use dnp_concentrator::IssueFault;
use dnp_controls::{BookFault, Entry};
use dnp_eventbuf::{CENTRES, Numbered};
use dnp_nodes::{ChangeFault, Node, Slot};
use dnp_objects::{Command, Lane, StoreFault};
use dnp_pointdb::PointDb;
use dnp_streams::Change;
use std::alloc::{AllocError, Global};

/// So many wants of a process are taken at one moment at most.
const AT_ONCE: usize = 10_000;

/// The nodes of a network.
#[derive(Drop)]
pub struct Stations<S, M, T> {
    /// Those of the substations, by their numbers.
    below: Vec<S>,
    /// The concentrator's: one.
    middle: Vec<M>,
    /// Those of the centres, by their numbers.
    top: Vec<T>,
}

/// Tells a node what comes to pass, if it is there.
fn tell<N: Node>(node: Option<&mut N>, slot: Slot, now: u64, told: Told<'_>) {
    let Some(node) = node else {
        return;
    };
    match told {
        Told::Connected => node.connected(slot, now),
        Told::Received(octets) => node.received(slot, now, octets),
        Told::Sent(count) => node.sent(slot, now, count),
        Told::Closed(cause) => node.closed(slot, now, cause),
        Told::Time => node.tick(now),
    }
}

/// Gives the octets that wait at a place of a node, if it is there.
fn output<N: Node>(node: Option<&N>, slot: Slot) -> &[u8] {
    match node {
        Some(node) => node.output(slot),
        None => &[],
    }
}

/// Takes what a node has told, and what it wants, if it is there.
fn take<N: Node>(node: Option<&mut N>, taken: &mut Taken) -> Result<(), AllocError> {
    taken.reports.clear();
    taken.wants.clear();
    taken.deadline = u64::MAX;
    let Some(node) = node else {
        return Ok(());
    };
    taken.reports.extend_from_slice(node.reports())?;
    node.clear_reports();
    for _ in 0..AT_ONCE {
        let Some(wanted) = node.next_want() else {
            break;
        };
        taken.wants.push(wanted)?;
    }
    taken.deadline = node.next_deadline();
    Ok(())
}

impl<S, M, T> Stations<S, M, T> {
    /// Makes a list of no nodes.
    pub fn new(alloc: Global) -> Self {
        Stations {
            below: Vec::new(alloc),
            middle: Vec::new(alloc),
            top: Vec::new(alloc),
        }
    }
}

impl<S: Measures, M: Gathers, T: Keeps> Stations<S, M, T> {
    /// Adds the nodes of a plan over new stores. Out of memory, or the plan doesn't keep its limits.
    pub fn begin(&mut self, alloc: Global, layout: &Layout) -> Result<(), AllocError> {
        for place in 0..layout.plan.substations.as_slice().len() {
            put(&mut self.below, S::begun(alloc, layout, number_of(place)))?;
        }
        put(&mut self.middle, new_program::<M>(alloc, layout, 0))?;
        for centre in 0..CENTRES {
            put(&mut self.top, new_program::<T>(alloc, layout, centre))?;
        }
        Ok(())
    }

    /// A substation's node is made again.
    fn remeasured(
        &mut self,
        alloc: Global,
        layout: &Layout,
        number: u8,
        is_lost: bool,
    ) -> Option<Again> {
        let place = usize::from(number);
        if place >= self.below.len() {
            return None;
        }
        let mut again = Again::WHOLE;
        let node = self.below.remove(place);
        let node = node.again(alloc, layout, number, is_lost, &mut again.lost)?;
        match self.below.insert(place, node) {
            Ok(()) => Some(again),
            Err(_) => None,
        }
    }
}

/// Adds a node to a list.
fn put<N: Drop>(nodes: &mut Vec<N>, node: Option<N>) -> Result<(), AllocError> {
    match node {
        Some(node) => Ok(nodes.push(node)?),
        None => Err(AllocError),
    }
}

impl<S: Measures, M: Gathers, T: Keeps> Nodes for Stations<S, M, T> {
    fn tell(&mut self, process: Process, slot: Slot, now: u64, told: Told<'_>) {
        match process {
            Process::Substation(it) => tell(self.below.get_mut(usize::from(it)), slot, now, told),
            Process::Concentrator => tell(self.middle.get_mut(0), slot, now, told),
            Process::Centre(it) => tell(self.top.get_mut(usize::from(it)), slot, now, told),
        }
    }

    fn output(&self, process: Process, slot: Slot) -> &[u8] {
        match process {
            Process::Substation(number) => output(self.below.get(usize::from(number)), slot),
            Process::Concentrator => output(self.middle.first(), slot),
            Process::Centre(centre) => output(self.top.get(usize::from(centre)), slot),
        }
    }

    fn take(&mut self, process: Process, taken: &mut Taken) -> Result<(), AllocError> {
        match process {
            Process::Substation(number) => take(self.below.get_mut(usize::from(number)), taken),
            Process::Concentrator => take(self.middle.get_mut(0), taken),
            Process::Centre(centre) => take(self.top.get_mut(usize::from(centre)), taken),
        }
    }

    fn set_clock(&mut self, process: Process, clock: u64) {
        match process {
            Process::Substation(_) => {}
            Process::Concentrator => {
                if let Some(node) = self.middle.get_mut(0) {
                    node.set_clock(clock);
                }
            }
            Process::Centre(centre) => {
                if let Some(node) = self.top.get_mut(usize::from(centre)) {
                    node.set_clock(clock);
                }
            }
        }
    }

    fn controls(&mut self, alloc: Global, process: Process) -> Result<Vec<Entry>, BookFault> {
        match process {
            Process::Substation(_) => {}
            Process::Concentrator => {
                if let Some(node) = self.middle.get_mut(0) {
                    return node.controls(alloc);
                }
            }
            Process::Centre(centre) => {
                if let Some(node) = self.top.get_mut(usize::from(centre)) {
                    return node.controls(alloc);
                }
            }
        }
        Ok(Vec::new(alloc))
    }

    fn journal_rows(
        &mut self,
        alloc: Global,
        centre: u8,
        from: u64,
    ) -> Result<Vec<Numbered>, StoreFault> {
        match self.top.get_mut(usize::from(centre)) {
            Some(node) => node.rows(alloc, from),
            None => Ok(Vec::new(alloc)),
        }
    }

    fn count_lane(&mut self, process: Process, centre: u8, lane: Lane) -> LaneCount {
        match process {
            Process::Substation(number) => match self.below.get_mut(usize::from(number)) {
                Some(node) => node.count_lane(lane),
                None => LaneCount::NOTHING,
            },
            Process::Concentrator => match self.middle.get_mut(0) {
                Some(node) => node.count_lane(centre, lane),
                None => LaneCount::NOTHING,
            },
            Process::Centre(_) => LaneCount::NOTHING,
        }
    }

    fn points(&self, substation: u8) -> Option<&PointDb> {
        match self.below.get(usize::from(substation)) {
            Some(node) => Some(node.points()),
            None => None,
        }
    }

    fn points_above(&self, centre: u8) -> Option<&PointDb> {
        match self.middle.first() {
            Some(node) => node.points_above(centre),
            None => None,
        }
    }

    fn operated(&self, substation: u8) -> &[Command] {
        match self.below.get(usize::from(substation)) {
            Some(node) => node.operated(),
            None => &[],
        }
    }

    fn change(&mut self, substation: u8, now: u64, change: &Change) -> Result<(), ChangeFault> {
        match self.below.get_mut(usize::from(substation)) {
            Some(node) => node.change(now, change),
            None => Err(ChangeFault::NoRoom),
        }
    }

    fn issue(
        &mut self,
        centre: u8,
        now: u64,
        substation: u8,
        command: &Command,
    ) -> Result<u64, IssueFault> {
        match self.top.get_mut(usize::from(centre)) {
            Some(node) => node.issue(now, substation, command),
            None => Err(IssueFault::Memory),
        }
    }

    fn restart(
        &mut self,
        alloc: Global,
        layout: &Layout,
        process: Process,
        returns: Return,
    ) -> Option<Again> {
        match process {
            Process::Substation(it) => self.remeasured(alloc, layout, it, returns.is_lost),
            Process::Concentrator => restarted(alloc, layout, &mut self.middle, 0, returns),
            Process::Centre(centre) => restarted(alloc, layout, &mut self.top, centre, returns),
        }
    }
}
