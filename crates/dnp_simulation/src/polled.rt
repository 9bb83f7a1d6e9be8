//! How the links of a network are polled.

use crate::making::{KEEPALIVE_MS, usual_polling};
use crate::settings::SETTLE_MS;
use dnp_concentrator::Plan;
use dnp_nodes::LinkClasses;
use dnp_schedule::Pace;
use std::alloc::Global;

/// How a link is polled.
#[derive(Clone, Copy)]
pub struct LinkPolling {
    /// How often it is asked, and how long anything may take.
    pub pace: Pace,
    /// Which classes it is asked.
    pub classes: LinkClasses,
}

/// How the links of a network are polled. A link of which nothing is said here is polled as usual.
#[derive(Drop)]
pub struct Pollings {
    /// The links to substations, by their numbers.
    pub below: Vec<LinkPolling>,
    /// The links of both centres.
    pub above: Option<LinkPolling>,
}

/// The plan of a network's stations, and how its links are polled.
#[derive(Drop)]
pub struct Layout {
    /// The plan.
    pub plan: Plan,
    /// How the links are polled.
    pub pollings: Pollings,
}

impl Layout {
    /// Gives how the link to a substation is polled.
    pub fn polling_below(&self, number: u8) -> LinkPolling {
        match self.pollings.below.get(usize::from(number)) {
            Some(polling) => *polling,
            None => usual_polling(&self.plan, number),
        }
    }

    /// Gives how the link of a centre is polled.
    pub fn polling_above(&self, centre: u8) -> LinkPolling {
        match self.pollings.above {
            Some(polling) => {
                let mut own = polling;
                own.pace.place = centre;
                own
            }
            None => usual_polling(&self.plan, centre),
        }
    }
}

impl LinkPolling {
    /// Gives how long an event waits at most until it is polled, in milliseconds, where nothing fails.
    fn wait_ms(&self) -> u64 {
        let pace = self.pace;
        pace.events_ms.min(pace.keepalive_ms).min(pace.integrity_ms)
    }
}

impl Pollings {
    /// Says nothing of any link.
    pub fn none(alloc: Global) -> Pollings {
        Pollings {
            below: Vec::new(alloc),
            above: None,
        }
    }

    /// Gives how long nothing fails, changes or is commanded at the end, in milliseconds: longer than usual, if a link is polled
    /// seldom.
    pub fn settle_ms(&self) -> u64 {
        let mut wait = KEEPALIVE_MS;
        for polling in &self.below {
            wait = wait.max(polling.wait_ms());
        }
        if let Some(polling) = self.above {
            wait = wait.max(polling.wait_ms());
        }
        let longer = wait.saturating_sub(KEEPALIVE_MS);
        SETTLE_MS.saturating_add(longer.saturating_mul(4))
    }
}
