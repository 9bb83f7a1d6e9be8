//! How the links of a plan's nodes are driven, and the points of its substations.

use crate::polled::{Layout, LinkPolling};
use crate::process::number_of;
use dnp_concentrator::Plan;
use dnp_concentrator::addresses::{
    CONCENTRATOR_ABOVE, MASTER_BELOW, centre_address, outstation_address,
};
use dnp_master::Classes;
use dnp_nodes::{AbovePlan, BelowPlan, Ends, LinkClasses};
use dnp_pointdb::PointDb;
use dnp_schedule::Pace;
use std::alloc::{AllocError, Global};

/// After how long a silence a master polls events, in milliseconds.
pub const KEEPALIVE_MS: u64 = 30_000;

/// How often a master polls events where no unsolicited responses are enabled.
const EVENTS_MS: u64 = 2_000;

/// How often a master polls events and present values.
const INTEGRITY_MS: u64 = 3_600_000;

/// How long a connection may take to come about.
const CONNECT_MS: u64 = 5_000;

/// How long after a poll without rows an indication brings none.
const PAUSE_MS: u64 = 100;

/// How long a whole response may take at most.
const MAX_POLL_MS: u64 = 36_000_000;

/// How long a whole response may take, if a fragment of it may take so many milliseconds.
pub fn poll_ms(response_ms: u64) -> u64 {
    response_ms.saturating_mul(10).min(MAX_POLL_MS)
}

/// How a link is polled, where no file of a network says it.
pub fn usual_polling(plan: &Plan, place: u8) -> LinkPolling {
    let enables = plan.times.unsolicited;
    LinkPolling {
        pace: Pace {
            events_ms: if enables { u64::MAX } else { EVENTS_MS },
            integrity_ms: INTEGRITY_MS,
            time_ms: u64::MAX,
            keepalive_ms: KEEPALIVE_MS,
            connect_ms: CONNECT_MS,
            poll_ms: poll_ms(plan.times.response_ms),
            pause_ms: PAUSE_MS,
            disables: enables,
            enables,
            writes_time: true,
            place,
        },
        classes: LinkClasses {
            integrity: Classes([true, true, true, true]),
            events: Classes([false, true, true, true]),
            unsolicited: Classes([false, true, true, true]),
        },
    }
}

/// How the links of callees are driven that are polled so.
pub fn above_plan(plan: &Plan, polling: LinkPolling) -> AbovePlan {
    AbovePlan {
        first: Ends {
            own: CONCENTRATOR_ABOVE,
            peer: centre_address(0),
        },
        second: Ends {
            own: CONCENTRATOR_ABOVE,
            peer: centre_address(1),
        },
        idle_ms: polling
            .pace
            .keepalive_ms
            .max(KEEPALIVE_MS)
            .saturating_mul(3),
        stuck_ms: poll_ms(plan.times.response_ms),
    }
}

/// Makes the points of a substation.
pub fn points_of(alloc: Global, plan: &Plan, number: u8) -> Option<PointDb> {
    let substation = plan.substations.as_slice().get(usize::from(number))?;
    if !substation.keeps_limits() {
        return None;
    }
    let points = substation.points(alloc).ok()?;
    PointDb::new(alloc, points).ok()
}

/// Adds how the link to each substation is driven.
pub fn put_below(layout: &Layout, below: &mut Vec<BelowPlan>) -> Result<(), AllocError> {
    for place in 0..layout.plan.substations.as_slice().len() {
        let number = number_of(place);
        let polling = layout.polling_below(number);
        below.push(BelowPlan {
            ends: Ends {
                own: MASTER_BELOW,
                peer: outstation_address(number),
            },
            pace: polling.pace,
            classes: polling.classes,
        })?;
    }
    Ok(())
}
