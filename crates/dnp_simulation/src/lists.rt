//! The lists with which a network begins.

use crate::faults::Fault;
use crate::ledger::{Followed, points_of};
use crate::link::Link;
use crate::polled::Layout;
use crate::process::{Way, number_of};
use crate::programs::CLOCK;
use dnp_concentrator::{Listed, Plan};
use dnp_eventbuf::CENTRES;
use std::alloc::{AllocError, Global};

/// What is watched of a process.
#[derive(Clone, Copy)]
pub struct Watch {
    /// It is there from this moment on.
    pub up_at: u64,
    /// When it is to be called again.
    pub deadline: u64,
    /// What its wall clock shows at the moment 0.
    pub clock: u64,
    /// How often it was called since its deadline had not passed.
    pub calls: u32,
    /// How its disk is going to fail, if it is.
    pub fails: Option<Fault>,
}

impl Watch {
    /// It is there from the moment 0 on, and is called at that.
    pub const FIRST: Watch = Watch {
        up_at: 0,
        deadline: 0,
        clock: CLOCK,
        calls: 0,
        fails: None,
    };
}

/// Adds the connections of a plan's stations.
pub fn put_links(alloc: Global, layout: &Layout, links: &mut Vec<Link>) -> Result<(), AllocError> {
    let response_ms = layout.plan.times.response_ms;
    for place in 0..layout.plan.substations.as_slice().len() {
        let number = number_of(place);
        let pace = layout.polling_below(number).pace;
        links.push(Link::new(alloc, Way::Below(number), &pace, response_ms))?;
    }
    for centre in 0..CENTRES {
        let pace = layout.polling_above(centre).pace;
        links.push(Link::new(alloc, Way::Above(centre), &pace, response_ms))?;
    }
    Ok(())
}

/// Adds the points of each substation whose events are followed.
pub fn put_followed(
    alloc: Global,
    plan: &Plan,
    followed: &mut Vec<Listed<Followed>>,
) -> Result<(), AllocError> {
    for substation in plan.substations.as_slice() {
        followed.push(Listed::new(points_of(alloc, substation)?))?;
    }
    Ok(())
}

/// Gives what is watched of the process at a place. One that there isn't is never there.
pub fn watch_at(watches: &[Watch], place: usize) -> Watch {
    match watches.get(place) {
        Some(watch) => *watch,
        None => Watch {
            up_at: u64::MAX,
            ..Watch::FIRST
        },
    }
}
