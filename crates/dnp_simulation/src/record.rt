//! What is noted of a network as it runs.

use crate::process::{Process, Way};
use crate::tally::Tally;
use crate::violation::{Seen, Violation};
use crate::wire::End;
use dnp_nodes::Report;
use std::alloc::{AllocError, Global};

/// So many violations are kept. Then the network stops.
const MOST_SEEN: usize = 20;

/// What is noted of a network as it runs.
#[derive(Drop)]
pub struct Record {
    /// What memory is asked of.
    pub alloc: Global,
    /// The moment, in milliseconds.
    pub now: u64,
    /// Whether a store of the process that something came to pass at has failed.
    pub has_failed: bool,
    /// What is counted.
    pub tally: Tally,
    /// What must not be, and was: the first ones.
    pub seen: Vec<Seen>,
    /// Steps are told from this moment on, if any are.
    from: Option<u64>,
    /// What was told of steps.
    pub steps: Vec<String>,
}

impl Record {
    /// Makes a record of nothing. Steps are told from this moment on, if any are.
    pub fn new(alloc: Global, from: Option<u64>) -> Record {
        Record {
            alloc,
            now: 0,
            has_failed: false,
            tally: Tally::NOTHING,
            seen: Vec::new(alloc),
            from,
            steps: Vec::new(alloc),
        }
    }

    /// Says whether there is no room for another violation.
    pub fn is_full(&self) -> bool {
        self.seen.len() >= MOST_SEEN
    }

    /// Notes what must not be, if anything was.
    pub fn see(&mut self, seen: Option<Violation>) -> Result<(), AllocError> {
        if let Some(violation) = seen
            && self.seen.len() < MOST_SEEN
        {
            self.seen.push(Seen {
                at: self.now,
                violation,
            })?;
        }
        Ok(())
    }

    /// Says whether steps of this moment are told.
    fn tells(&self) -> bool {
        match self.from {
            Some(from) => from <= self.now,
            None => false,
        }
    }

    /// Tells what comes to pass at an end of a connection.
    pub fn tell_at(
        &mut self,
        way: Way,
        end: End,
        what: &str,
        octets: usize,
    ) -> Result<(), AllocError> {
        if self.tells() {
            let now = self.now;
            let step = format!(in self.alloc; "{now} {way:?} {end:?} {what} {octets}")?;
            self.steps.push(step)?;
        }
        Ok(())
    }

    /// Tells what comes to pass at a process.
    pub fn tell_of(&mut self, process: Process, what: &str) -> Result<(), AllocError> {
        if self.tells() {
            let now = self.now;
            let step = format!(in self.alloc; "{now} {process:?} {what}")?;
            self.steps.push(step)?;
        }
        Ok(())
    }

    /// Tells what a process reports.
    pub fn tell_report(&mut self, process: Process, report: &Report) -> Result<(), AllocError> {
        if self.tells() {
            let now = self.now;
            let step = format!(in self.alloc; "{now} {process:?} {report:?}")?;
            self.steps.push(step)?;
        }
        Ok(())
    }
}
