//! How the links of a network are driven, as its file says.

use dnp_concentrator::Plan;
use dnp_files::Driving;
use dnp_master::Classes;
use dnp_network::{ClassSet, Network, Polling};
use dnp_nodes::LinkClasses;
use dnp_schedule::Pace;
use std::alloc::{AllocError, Global};

/// How long a connection may take to come about, in milliseconds.
const CONNECT_MS: u64 = 5_000;

/// How long after a poll without rows an indication brings none, in milliseconds.
const PAUSE_MS: u64 = 100;

/// These classes, as a master polls them.
fn classes_of(classes: ClassSet) -> Classes {
    Classes([classes.zero, classes.one, classes.two, classes.three])
}

/// How a link is driven that is polled so, at this place among those that connect. An outstation that sends unsolicited responses by the plan
/// is told to send none before those that are wanted are enabled.
pub(crate) fn driving_of(polling: &Polling, plan: &Plan, place: u8) -> Driving {
    let enables = !polling.unsolicited.is_without_events();
    Driving {
        pace: Pace {
            events_ms: polling.events_ms,
            integrity_ms: polling.integrity_ms,
            time_ms: polling.time_ms,
            keepalive_ms: polling.keepalive_ms,
            connect_ms: CONNECT_MS,
            poll_ms: polling.poll_ms,
            pause_ms: PAUSE_MS,
            disables: enables || plan.times.unsolicited,
            enables,
            writes_time: polling.writes_time,
            place,
        },
        classes: LinkClasses {
            integrity: classes_of(polling.poll),
            events: classes_of(polling.events),
            unsolicited: classes_of(polling.unsolicited),
        },
        response_ms: polling.response_ms,
    }
}

/// Puts how the links to the substations of a network are driven behind others, by their numbers.
fn put_drivings(
    network: &Network,
    plan: &Plan,
    drivings: &mut Vec<Driving>,
) -> Result<(), AllocError> {
    for (number, site) in network.substations.as_slice().iter().enumerate() {
        let place = u8::try_from(number).unwrap_or(u8::MAX);
        drivings.push(driving_of(&site.polling, plan, place))?;
    }
    Ok(())
}

/// How the links to the substations of a network are driven, by their numbers.
pub(crate) fn drivings_of(
    alloc: Global,
    network: &Network,
    plan: &Plan,
) -> Result<Vec<Driving>, AllocError> {
    let mut drivings = Vec::new(alloc);
    match put_drivings(network, plan, &mut drivings) {
        Ok(()) => Ok(drivings),
        Err(fault) => Err(fault),
    }
}
