//! What a network asks of its processes. It knows them by this trait alone, so that what it does is proved apart from their stores.

use crate::polled::Layout;
use crate::process::{Process, number_of};
use crate::restarts::{Again, Return};
use dnp_concentrator::IssueFault;
use dnp_controls::{BookFault, Entry};
use dnp_eventbuf::Numbered;
use dnp_nodes::{ChangeFault, Closing, Report, Slot, Wanted};
use dnp_objects::{Command, LANES, Lane, StoreFault};
use dnp_pointdb::PointDb;
use dnp_streams::Change;
use std::alloc::{AllocError, Global};

/// What comes to pass at a node.
#[derive(Clone, Copy)]
pub enum Told<'a> {
    /// A connection was made.
    Connected,
    /// These octets came.
    Received(&'a [u8]),
    /// So many octets were taken.
    Sent(usize),
    /// The connection ended, or did not come about.
    Closed(Closing),
    /// Time has passed.
    Time,
}

/// What was taken from a process.
#[derive(Drop)]
pub struct Taken {
    /// What it has told, in order.
    pub reports: Vec<Report>,
    /// What it wants, in order.
    pub wants: Vec<Wanted>,
    /// When it is to be called again.
    pub deadline: u64,
}

/// What a lane has for a centre.
#[derive(Clone, Copy)]
pub struct LaneCount {
    /// How many events wait.
    pub waiting: u64,
    /// How many were dropped by substations.
    pub below: u64,
    /// How many were dropped by the concentrator.
    pub middle: u64,
}

impl LaneCount {
    /// Nothing waits, and nothing was dropped.
    pub const NOTHING: LaneCount = LaneCount {
        waiting: 0,
        below: 0,
        middle: 0,
    };

    /// The sum of two.
    pub fn plus(self, other: LaneCount) -> LaneCount {
        LaneCount {
            waiting: self.waiting.saturating_add(other.waiting),
            below: self.below.saturating_add(other.below),
            middle: self.middle.saturating_add(other.middle),
        }
    }

    /// How many events wait or were dropped.
    pub fn all(self) -> u64 {
        self.waiting
            .saturating_add(self.below)
            .saturating_add(self.middle)
    }
}

/// The processes of a network. One that isn't there hears and tells nothing.
pub trait Nodes {
    /// Tells a process what comes to pass at one of its places.
    fn tell(&mut self, process: Process, slot: Slot, now: u64, told: Told<'_>);

    /// Gives the octets that wait at a place of a process.
    fn output(&self, process: Process, slot: Slot) -> &[u8];

    /// Takes what a process has told, and what it wants, in place of what was taken before.
    fn take(&mut self, process: Process, taken: &mut Taken) -> Result<(), AllocError>;

    /// Sets the wall clock of a process: at the moment 0 it would have shown this. A substation has none of its own.
    fn set_clock(&mut self, process: Process, clock: u64);

    /// Gives the controls in the book of a process; none of a substation, which has no book.
    fn controls(&mut self, alloc: Global, process: Process) -> Result<Vec<Entry>, BookFault>;

    /// Gives some rows of a centre's journal with ids over `from`, if there are any.
    fn journal_rows(
        &mut self,
        alloc: Global,
        centre: u8,
        from: u64,
    ) -> Result<Vec<Numbered>, StoreFault>;

    /// Counts what a lane of a process has for a centre. A centre has no lanes.
    fn count_lane(&mut self, process: Process, centre: u8, lane: Lane) -> LaneCount;

    /// Shows the points of a substation.
    fn points(&self, substation: u8) -> Option<&PointDb>;

    /// Shows the points that a centre reads.
    fn points_above(&self, centre: u8) -> Option<&PointDb>;

    /// Gives the commands that a substation has performed.
    fn operated(&self, substation: u8) -> &[Command];

    /// A reading of a substation changes.
    fn change(&mut self, substation: u8, now: u64, change: &Change) -> Result<(), ChangeFault>;

    /// A centre issues a command.
    fn issue(
        &mut self,
        centre: u8,
        now: u64,
        substation: u8,
        command: &Command,
    ) -> Result<u64, IssueFault>;

    /// A process begins again over its stores. `None` if there is no memory for it.
    fn restart(
        &mut self,
        alloc: Global,
        layout: &Layout,
        process: Process,
        returns: Return,
    ) -> Option<Again>;
}

/// Counts what each lane has for a centre, at all substations and at the concentrator.
pub fn count_lanes<N: Nodes>(nodes: &mut N, substations: usize, centre: u8) -> [LaneCount; LANES] {
    let mut counts = [LaneCount::NOTHING; LANES];
    for (number, count) in counts.iter_mut().enumerate() {
        if let Some(lane) = Lane::numbered(number) {
            *count = nodes.count_lane(Process::Concentrator, centre, lane);
            for place in 0..substations {
                let process = Process::Substation(number_of(place));
                *count = count.plus(nodes.count_lane(process, centre, lane));
            }
        }
    }
    counts
}

/// Gives the sum of what the lanes have.
pub fn all_lanes(counts: &[LaneCount]) -> LaneCount {
    let mut all = LaneCount::NOTHING;
    for count in counts {
        all = all.plus(*count);
    }
    all
}
