//! What comes by chance, and when.

use crate::faults::{FAULTS, Fault};
use crate::random::Random;
use std::alloc::{AllocError, Global};

/// How long the answer of an OPERATE is on its way, in milliseconds.
const ANSWER: u64 = 40;

/// Which process is killed next.
#[derive(Clone, Copy)]
enum Kill {
    /// At any moment, any process.
    Any,
    /// As a substation operates a control next: the concentrator.
    Operating,
    /// The process at this place.
    Chosen(usize),
}

/// What comes by chance, and when, in milliseconds.
#[derive(Drop)]
pub struct Fate {
    /// What decides.
    pub random: Random,
    /// When a reading changes next, by substations.
    changes: Vec<u64>,
    /// When a command is issued next.
    control: u64,
    /// When the next fault of each kind is, by its number.
    pub faults: [u64; FAULTS],
    /// Which process is killed next.
    kill: Kill,
}

impl Fate {
    /// Makes what comes by a seed, without changes and faults. The first command comes at this moment.
    pub fn new(alloc: Global, seed: u64, control: u64) -> Fate {
        Fate {
            random: Random { state: seed },
            changes: Vec::new(alloc),
            control,
            faults: [u64::MAX; FAULTS],
            kill: Kill::Any,
        }
    }

    /// Adds when a reading of each of so many substations changes first, if changes come each `mean` milliseconds.
    pub fn put_changes(&mut self, count: usize, mean: u64) -> Result<(), AllocError> {
        for _ in 0..count {
            self.changes.push(self.random.pause(mean))?;
        }
        Ok(())
    }

    /// Gives when something comes next.
    pub fn next_at(&self) -> u64 {
        let mut next = self.control;
        for at in &self.changes {
            next = next.min(*at);
        }
        for at in &self.faults {
            next = next.min(*at);
        }
        next
    }

    /// Says whether a reading of a substation changes at this moment, and plans its next change.
    pub fn changes(&mut self, place: usize, now: u64, mean: u64) -> bool {
        let Some(at) = self.changes.get_mut(place) else {
            return false;
        };
        if *at > now {
            return false;
        }
        *at = now.saturating_add(self.random.pause(mean));
        true
    }

    /// Says whether a command is issued at this moment, and plans the next one.
    pub fn commands(&mut self, now: u64, mean: u64) -> bool {
        if self.control > now {
            return false;
        }
        self.control = now.saturating_add(self.random.pause(mean));
        true
    }

    /// Plans the next fault of a kind, if faults of it come each `mean` milliseconds.
    pub fn plan(&mut self, fault: Fault, now: u64, mean: Option<u64>) {
        let at = match mean {
            Some(mean) => now.saturating_add(self.random.pause(mean)),
            None => u64::MAX,
        };
        self.faults[fault.number()] = at;
    }

    /// Gives the place of the process of so many that is killed. One of two kills waits for a control that is operated below.
    pub fn killed(&mut self, processes: usize) -> Option<usize> {
        match self.kill {
            Kill::Operating => None,
            Kill::Chosen(place) => {
                self.kill = Kill::Any;
                Some(place)
            }
            Kill::Any => {
                if self.random.one_in(2) {
                    self.kill = Kill::Operating;
                    None
                } else {
                    Some(self.random.place(processes))
                }
            }
        }
    }

    /// A control is operated at a substation: the concentrator, which is at this place, may be killed before its answer comes.
    pub fn operates(&mut self, now: u64, concentrator: usize) {
        if matches!(self.kill, Kill::Operating) {
            self.kill = Kill::Chosen(concentrator);
            let soon = now.saturating_add(self.random.within(1, ANSWER));
            self.faults[Fault::Kill.number()] = soon;
        }
    }
}
