//! Faults that come: processes that end and begin again over their stores, disks that fail, clocks that step, and connections.

use crate::faults::Fault;
use crate::lists::watch_at;
use crate::network::Network;
use crate::nodes::Nodes;
use crate::process::Process;
use crate::random::Random;
use crate::restarts::{Again, Beginning, Restarts, Return, Start};
use crate::stores::StoreKind;
use crate::tally::{count, count_at};
use crate::violation::Violation;
use std::alloc::AllocError;

/// How long a process is away at most after it was killed, in milliseconds.
const AWAY: u64 = 30_000;

/// How far a clock steps at most, in milliseconds.
const STEP: u64 = 7_200_000;

/// How many processes have disks: the concentrator and the centres.
const DISKS: usize = 3;

/// Gives what a wall clock shows at the moment 0 after a step, if it showed this before.
fn stepped(random: &mut Random, clock: u64) -> u64 {
    let step = random.below(STEP);
    if random.one_in(2) {
        clock.saturating_sub(step)
    } else {
        clock.saturating_add(step)
    }
}

impl Network {
    /// Plans the next fault of a kind, in any of the places at which it may come.
    pub fn plan_fault(&mut self, fault: Fault) {
        let places = match fault {
            Fault::Stop | Fault::Full => match self.settings.stores {
                StoreKind::Lists => 0,
                StoreKind::Disks => DISKS,
            },
            Fault::Kill | Fault::Clock => self.places.processes(),
            Fault::Cut | Fault::Half | Fault::Freeze | Fault::Refuse | Fault::Delay => {
                self.links.len()
            }
        };
        let mean = self.settings.rates.mean_ms(fault, places);
        self.fate.plan(fault, self.record.now, mean);
    }

    /// Breaks what is due.
    pub fn break_what_is_due<N: Nodes>(&mut self, nodes: &mut N) -> Result<(), AllocError> {
        for fault in Fault::ALL {
            if self.fate.faults[fault.number()] <= self.record.now {
                self.plan_fault(fault);
                count_at(&mut self.record.tally.faults, fault.number());
                self.break_one(nodes, fault)?;
            }
        }
        Ok(())
    }

    /// One fault comes, somewhere.
    fn break_one<N: Nodes>(&mut self, nodes: &mut N, fault: Fault) -> Result<(), AllocError> {
        let processes = self.places.processes();
        match fault {
            Fault::Stop | Fault::Full => return self.spoil_disk(nodes, fault),
            Fault::Kill => {
                if let Some(place) = self.fate.killed(processes) {
                    return self.mend(nodes, place, None);
                }
            }
            Fault::Clock => {
                let place = self.fate.random.place(processes);
                let clock = watch_at(&self.watches, place).clock;
                let clock = stepped(&mut self.fate.random, clock);
                if let Some(watch) = self.watches.get_mut(place) {
                    watch.clock = clock;
                }
                nodes.set_clock(self.places.process_at(place), clock);
            }
            _ => {
                let place = self.fate.random.place(self.links.len());
                if let Some(link) = self.links.get_mut(place) {
                    link.break_by(&mut self.fate.random, fault, self.record.now);
                }
            }
        }
        Ok(())
    }

    /// A process ends, and begins again at once over a disk that is going to stop, or to be full.
    fn spoil_disk<N: Nodes>(&mut self, nodes: &mut N, fault: Fault) -> Result<(), AllocError> {
        let drawn = self.fate.random.place(DISKS);
        let place = self.places.substations.saturating_add(drawn);
        let process = self.places.process_at(place);
        let soon = self.record.now.saturating_add(1);
        let at = watch_at(&self.watches, place).up_at.max(soon);
        let restarts = Restarts::failing(&mut self.fate.random, fault, at);
        self.record
            .tell_of(process, "begins again over a disk that fails")?;
        let how = self.begin_again(nodes, place, at, restarts)?;
        if matches!(how, Beginning::Failed) || self.record.has_failed {
            self.end_failed(nodes, process)
        } else {
            Ok(())
        }
    }

    /// A process ends since one of its stores has failed, and begins again after a while over a disk that does not fail.
    pub fn end_failed<N: Nodes>(
        &mut self,
        nodes: &mut N,
        process: Process,
    ) -> Result<(), AllocError> {
        let place = self.places.of_process(process);
        let fails = watch_at(&self.watches, place).fails;
        if fails.is_none() {
            self.record.see(Some(Violation::Failed(process)))?;
        }
        self.record
            .tell_of(process, "ends, since a store has failed")?;
        count(&mut self.record.tally.failed);
        self.mend(nodes, place, fails)
    }

    /// The process at a place ends, and begins again after a while over a disk that does not fail. Its disk may have failed so.
    fn mend<N: Nodes>(
        &mut self,
        nodes: &mut N,
        place: usize,
        fails: Option<Fault>,
    ) -> Result<(), AllocError> {
        self.record.has_failed = false;
        let random = &mut self.fate.random;
        let at = self.record.now.saturating_add(random.within(1, AWAY));
        let restarts = Restarts::after(random, fails, at);
        let _how = self.begin_again(nodes, place, at, restarts)?;
        Ok(())
    }

    /// No disk fails any more: each process whose disk is going to fail ends, and begins again.
    pub fn mend_disks<N: Nodes>(&mut self, nodes: &mut N) -> Result<(), AllocError> {
        for place in 0..self.places.processes() {
            let fails = watch_at(&self.watches, place).fails;
            if fails.is_some() {
                self.mend(nodes, place, fails)?;
            }
        }
        Ok(())
    }

    /// The process at a place ends, and is there again at this moment over its stores. Gives how these began. One of two substations
    /// loses its events.
    fn begin_again<N: Nodes>(
        &mut self,
        nodes: &mut N,
        place: usize,
        at: u64,
        restarts: Restarts,
    ) -> Result<Beginning, AllocError> {
        let process = self.places.process_at(place);
        let is_below = matches!(process, Process::Substation(_));
        let returns = Return {
            start: Start {
                at,
                clock: watch_at(&self.watches, place).clock,
            },
            restarts,
            is_lost: is_below && self.fate.random.one_in(2),
        };
        let Some(again) = nodes.restart(self.record.alloc, &self.layout, process, returns) else {
            return Err(AllocError);
        };
        self.audit_restart(nodes, process)?;
        self.note_restart(place, &returns, &again)?;
        Ok(again.how)
    }

    /// Notes that the process at a place has begun again so.
    fn note_restart(
        &mut self,
        place: usize,
        returns: &Return,
        again: &Again,
    ) -> Result<(), AllocError> {
        let process = self.places.process_at(place);
        let at = returns.start.at;
        self.journals.ledger.lose(&again.lost);
        if let Some(watch) = self.watches.get_mut(place) {
            watch.up_at = at;
            watch.deadline = at;
            watch.fails = returns.restarts.fails;
        }
        for link in &mut self.links {
            link.abandon(&mut self.fate.random, process, self.record.now, at);
        }
        if matches!(again.how, Beginning::Spoilt) {
            self.record.see(Some(Violation::Spoilt(process)))?;
        }
        Ok(())
    }
}
