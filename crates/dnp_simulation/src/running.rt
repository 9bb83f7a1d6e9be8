//! What comes to pass at processes, and what these tell, want and send.

use crate::link::Link;
use crate::lists::watch_at;
use crate::network::Network;
use crate::nodes::{Nodes, Told};
use crate::process::{Process, Way};
use crate::random::Random;
use crate::record::Record;
use crate::violation::Violation;
use crate::wire::{Arrival, End};
use dnp_concentrator::Cause;
use dnp_nodes::{Closing, Report, Slot};
use std::alloc::AllocError;

/// So many pieces are sent or delivered at one moment at most.
const AT_ONCE: usize = 10_000;

/// So often a process may want to be called at one moment.
const MOST_AT_ONCE: u32 = 1_000;

/// How long it has to wait if it wants to be called more often, in milliseconds.
const PUT_OFF_MS: u64 = 1_000;

/// Tells a node what comes to pass at an end of a connection.
fn deliver<N: Nodes>(
    nodes: &mut N,
    link: &mut Link,
    record: &mut Record,
    arrival: &Arrival,
) -> Result<(), AllocError> {
    let end = arrival.end();
    let process = link.way.process(end);
    let slot = link.way.slot(end);
    link.hear_of(record, arrival, nodes.output(process, slot))?;
    nodes.tell(process, slot, record.now, arrival.told());
    match arrival {
        Arrival::Connected(_) => record.see(link.former(end, nodes.output(process, slot))),
        _ => Ok(()),
    }
}

/// Sends what waits at an end of a connection, in pieces.
fn send_on<N: Nodes>(
    nodes: &mut N,
    link: &mut Link,
    random: &mut Random,
    record: &mut Record,
    end: End,
) -> Result<(), AllocError> {
    let process = link.way.process(end);
    let slot = link.way.slot(end);
    for _ in 0..AT_ONCE {
        let octets = nodes.output(process, slot);
        let count = link.piece(random, end, octets.len());
        if count == 0 {
            break;
        }
        let first = octets.get(..count).unwrap_or(octets);
        link.send(random, record, end, first)?;
        nodes.tell(process, slot, record.now, Told::Sent(count));
        link.strike(random, record.now);
    }
    Ok(())
}

impl Network {
    /// Lets come to pass on a connection what is due.
    pub fn carry<N: Nodes>(&mut self, nodes: &mut N, place: usize) -> Result<(), AllocError> {
        for _ in 0..AT_ONCE {
            if !self.arrive(nodes, place)? {
                break;
            }
        }
        Ok(())
    }

    /// Lets come to pass on a connection what is due next. Says whether there was anything. If octets came, the other end sends on,
    /// since there is room for more.
    fn arrive<N: Nodes>(&mut self, nodes: &mut N, place: usize) -> Result<bool, AllocError> {
        let Some(link) = self.links.get_mut(place) else {
            return Ok(false);
        };
        let Some(arrival) = link.wire.take(&mut self.fate.random, self.record.now) else {
            return Ok(false);
        };
        let way = link.way;
        let end = arrival.end();
        deliver(nodes, link, &mut self.record, &arrival)?;
        self.after(nodes, way.process(end))?;
        let other = end.other();
        let process = way.process(other);
        if matches!(arrival, Arrival::Octets(_, _))
            && !nodes.output(process, way.slot(other)).is_empty()
        {
            self.after(nodes, process)?;
        }
        Ok(true)
    }

    /// Calls a process whose deadline has come.
    pub fn call<N: Nodes>(&mut self, nodes: &mut N, place: usize) -> Result<(), AllocError> {
        let process = self.places.process_at(place);
        let now = self.record.now;
        let Some(watch) = self.watches.get_mut(place) else {
            return Ok(());
        };
        if now < watch.deadline.max(watch.up_at) {
            return Ok(());
        }
        watch.calls = watch.calls.saturating_add(1);
        let is_restless = watch.calls == MOST_AT_ONCE;
        nodes.tell(process, Slot::Below(0), now, Told::Time);
        self.after(nodes, process)?;
        if let (true, Some(watch)) = (is_restless, self.watches.get_mut(place)) {
            watch.deadline = now.saturating_add(PUT_OFF_MS);
            watch.calls = 0;
            self.record.see(Some(Violation::Restless(process)))?;
        }
        Ok(())
    }

    /// Takes what a process sends, tells and wants, after something came to pass at it.
    pub fn after<N: Nodes>(&mut self, nodes: &mut N, process: Process) -> Result<(), AllocError> {
        for link in &mut self.links {
            if let Some(end) = link.way.end_of(process) {
                send_on(nodes, link, &mut self.fate.random, &mut self.record, end)?;
            }
        }
        nodes.take(process, &mut self.taken)?;
        self.take_reports(process)?;
        if !self.record.has_failed {
            self.take_wants(process)?;
            self.audit(nodes, process)?;
        }
        if self.record.has_failed {
            return self.end_failed(nodes, process);
        }
        let deadline = self.taken.deadline;
        if let Some(watch) = self.watches.get_mut(self.places.of_process(process)) {
            watch.deadline = deadline;
            if self.record.now < deadline {
                watch.calls = 0;
            }
        }
        Ok(())
    }

    /// Takes what a process has told.
    fn take_reports(&mut self, process: Process) -> Result<(), AllocError> {
        let before = self.record.tally.operated_below;
        for report in &self.taken.reports {
            self.record.tell_report(process, report)?;
            self.known.take(process, report)?;
            if matches!(report, Report::Lost(_, Closing::Store(Cause::Device))) {
                self.record.has_failed = true;
            }
            let place = self.places.of_report(process, report);
            if let Some(link) = self.links.get_mut(place) {
                link.take_report(&mut self.record, process, report)?;
            }
        }
        if before < self.record.tally.operated_below {
            let concentrator = self.places.of_process(Process::Concentrator);
            self.fate.operates(self.record.now, concentrator);
        }
        Ok(())
    }

    /// Takes what a process wants of its connections.
    fn take_wants(&mut self, process: Process) -> Result<(), AllocError> {
        for wanted in &self.taken.wants {
            let way = Way::of_process(process, wanted.slot);
            let callee = self.places.of_process(way.process(End::Callee));
            let is_there = watch_at(&self.watches, callee).up_at <= self.record.now;
            if let Some(link) = self.links.get_mut(self.places.of_link(way)) {
                let random = &mut self.fate.random;
                link.want(random, &mut self.record, process, wanted.want, is_there)?;
            }
        }
        Ok(())
    }
}
