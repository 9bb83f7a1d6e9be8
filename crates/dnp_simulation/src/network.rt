//! A network of nodes in virtual time.

use crate::controls::Controls;
use crate::fate::Fate;
use crate::faults::Fault;
use crate::journals::Journals;
use crate::known::Known;
use crate::ledger::Followed;
use crate::link::Link;
use crate::lists::{Watch, put_followed, put_links};
use crate::nodes::{Nodes, Taken};
use crate::polled::Layout;
use crate::process::Places;
use crate::record::Record;
use crate::report::Outcome;
use crate::settings::Settings;
use crate::tally::count;
use dnp_concentrator::Listed;
use std::alloc::{AllocError, Global};

/// How often it is looked whether events have vanished, in milliseconds.
const AUDIT_MS: u64 = 60_000;

/// A network in virtual time: all of it but its nodes, which are lent to it.
pub struct Network {
    /// What it is run by.
    pub settings: Settings,
    /// The plan of its stations, and how its links are polled.
    pub layout: Layout,
    /// Where its processes and connections stand in their lists.
    pub places: Places,
    /// The points of each substation whose events are followed.
    pub followed: Vec<Listed<Followed>>,
    /// What comes by chance.
    pub fate: Fate,
    /// What is watched of its processes: substations, the concentrator, centres.
    pub watches: Vec<Watch>,
    /// Its connections: those of substations, those of centres.
    pub links: Vec<Link>,
    /// What the centres' journals have, against the events that were made.
    pub journals: Journals,
    /// The commands that were issued.
    pub controls: Controls,
    /// What processes have told of the controls in their books.
    pub known: Known,
    /// What was taken from a process last.
    pub taken: Taken,
    /// What is noted of it.
    pub record: Record,
    /// When it is looked at next whether events have vanished.
    next_audit: u64,
    /// Whether nothing fails, changes or is commanded any more.
    is_quiet: bool,
}

impl Drop for Network {
    /// One call for whoever lets it go: its parts are looked at here alone.
    fn drop(self) {
        let Network {
            settings: _,
            layout: _,
            places: _,
            followed: _,
            fate: _,
            watches: _,
            links: _,
            journals: _,
            controls: _,
            known: _,
            taken: _,
            record: _,
            next_audit: _,
            is_quiet: _,
        } = self;
    }
}

/// Gives when a process is called next.
fn next_call(watches: &[Watch]) -> u64 {
    let mut next = u64::MAX;
    for watch in watches {
        next = next.min(watch.deadline.max(watch.up_at));
    }
    next
}

/// Gives when something comes to pass next on connections, or their points have to be looked at.
fn next_arrival(links: &[Link]) -> u64 {
    let mut next = u64::MAX;
    for link in links {
        next = next.min(link.wire.next_at()).min(link.lost_by);
    }
    next
}

impl Network {
    /// Makes a network of a plan, in which nothing has happened.
    pub fn new(alloc: Global, layout: Layout, settings: Settings) -> Network {
        Network {
            settings,
            places: Places {
                substations: layout.plan.substations.as_slice().len(),
            },
            layout,
            followed: Vec::new(alloc),
            fate: Fate::new(alloc, settings.seed, settings.control_ms),
            watches: Vec::new(alloc),
            links: Vec::new(alloc),
            journals: Journals::new(alloc),
            controls: Controls {
                issued: Vec::new(alloc),
                looked: Vec::new(alloc),
            },
            known: Known::new(alloc),
            taken: Taken {
                reports: Vec::new(alloc),
                wants: Vec::new(alloc),
                deadline: 0,
            },
            record: Record::new(alloc, settings.trace_from),
            next_audit: AUDIT_MS,
            is_quiet: false,
        }
    }

    /// Makes its lists, and plans what happens first.
    fn begin(&mut self) -> Result<(), AllocError> {
        let alloc = self.record.alloc;
        let count = self.places.substations;
        self.journals.ledger.begin(alloc, &self.layout.plan)?;
        self.fate.put_changes(count, self.settings.change_ms)?;
        self.watches.resize(self.places.processes(), Watch::FIRST)?;
        put_links(alloc, &self.layout, &mut self.links)?;
        put_followed(alloc, &self.layout.plan, &mut self.followed)?;
        self.controls.looked.resize(count, 0)?;
        for fault in Fault::ALL {
            self.plan_fault(fault);
        }
        Ok(())
    }

    /// Gives when something comes to pass next.
    fn next_at(&self) -> u64 {
        let next = next_call(&self.watches)
            .min(next_arrival(&self.links))
            .min(self.next_audit);
        if self.is_quiet {
            next
        } else {
            next.min(self.fate.next_at())
        }
    }

    /// Lets time pass up to this moment.
    fn run_until<N: Nodes>(&mut self, nodes: &mut N, end: u64) -> Result<(), AllocError> {
        for _ in 0..u64::MAX {
            let next = self.next_at();
            if next > end || self.record.is_full() {
                break;
            }
            self.record.now = self.record.now.max(next);
            count(&mut self.record.tally.steps);
            self.step(nodes)?;
        }
        if !self.record.is_full() {
            self.record.now = end;
        }
        Ok(())
    }

    /// Does what is due at this moment.
    fn step<N: Nodes>(&mut self, nodes: &mut N) -> Result<(), AllocError> {
        if !self.is_quiet {
            self.happen(nodes)?;
            self.break_what_is_due(nodes)?;
        }
        for place in 0..self.links.len() {
            self.carry(nodes, place)?;
        }
        for place in 0..self.places.processes() {
            self.call(nodes, place)?;
        }
        if self.next_audit <= self.record.now {
            self.next_audit = self.record.now.saturating_add(AUDIT_MS);
            self.audit_lanes(nodes)?;
        }
        self.look_at_quality(nodes)
    }

    /// Runs over these nodes from its beginning to its end, and lets things settle. Then it gives what came of it.
    pub fn run<N: Nodes>(&mut self, nodes: &mut N) -> Result<Outcome, AllocError> {
        self.begin()?;
        let length = self.settings.length_ms;
        let settle = self.layout.pollings.settle_ms();
        self.run_until(nodes, length.saturating_sub(settle))?;
        self.is_quiet = true;
        for link in &mut self.links {
            link.armed = None;
            link.wire.calm();
        }
        self.mend_disks(nodes)?;
        self.run_until(nodes, length.max(settle))?;
        self.audit_end(nodes)?;
        self.outcome(nodes)
    }
}
