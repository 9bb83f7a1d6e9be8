//! How the links of a network are driven, on connections that stand.

ghost use Rattle.dnp_concentrator.specs.Plan.{KeepsLimits};

use dnp_concentrator::{MAX_TIMER_MS, Plan};
use dnp_nodes::LinkClasses;
use dnp_schedule::Pace;

/// How a link is driven by its master.
#[derive(Clone, Copy)]
pub struct Driving {
    /// How often the station at the other end is asked, and how long anything may take.
    pub pace: Pace,
    /// Which classes it is asked.
    pub classes: LinkClasses,
    /// How long a fragment of a response may take, in milliseconds.
    pub response_ms: u64,
}

/// How the links of a concentrator are driven.
#[derive(Clone, Copy)]
pub struct Drivings<'a> {
    /// Those to the substations, by their numbers.
    pub below: &'a [Driving],
    /// How the centres drive theirs.
    pub above: Driving,
}

/// Lets a station of this plan wait for a fragment of a response for so many milliseconds, but for an hour at most.
pub(crate) fn wait_for(plan: &mut Plan, response_ms: u64)
    requires { KeepsLimits plan.old }
    ensures { KeepsLimits plan.new }
{
    plan.times.response_ms = response_ms.max(1).min(MAX_TIMER_MS);
}

/// Lets a concentrator of this plan wait for a fragment of each substation as long as for the slowest of them.
pub fn wait_for_slowest(plan: &mut Plan, drivings: &[Driving])
    requires { KeepsLimits plan.old }
    ensures { KeepsLimits plan.new }
{
    let mut slowest = 0u64;
    for driving in drivings {
        slowest = slowest.max(driving.response_ms);
    }
    wait_for(plan, slowest);
}
