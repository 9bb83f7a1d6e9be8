//! The substations of a plan, in which nothing has happened yet.

ghost use Rattle.std.specs.Prelude.{◌≡◌, IfOk, map};
ghost use Rattle.dnp_concentrator.specs.Plan.{KeepsLimits, KeepsSubLimits};
ghost use Rattle.dnp_world.specs.FreshSystems.{fresh_substation, fresh_substations};
ghost use Rattle.dnp_world.specs.SystemParts.{substation_of};

use crate::channel::Channel;
use crate::substation::Substation;
use dnp_concentrator::addresses::{MASTER_BELOW, outstation_address};
use dnp_concentrator::{Plan, SubPlan};
use dnp_controls::PlainOutputs;
use dnp_eventbuf::RingLanes;
use dnp_outstation::Outstation;
use dnp_pointdb::{PointDb, Times};
use std::alloc::{AllocError, Global};

/// A closed substation of this number and plan. Refused out of memory alone.
fn new_substation(
    alloc: Global,
    number: u8,
    times: Times,
    plan: &SubPlan,
) -> Result<Substation, AllocError>
    requires { KeepsSubLimits plan.now }
    ensures { IfOk result (λ substation. substation_of substation ≡ fresh_substation times number plan.now) }
{
    let points = PointDb::new(alloc, plan.points(alloc)?)?;
    let lanes = RingLanes::new(alloc, plan.lanes)?;
    let outputs = PlainOutputs::new(alloc, plan.outputs, plan.setpoints);
    Ok(Substation {
        outstation: Outstation::new(points, lanes, outputs, times),
        channel: Channel::new(alloc, outstation_address(number), MASTER_BELOW),
    })
}

/// The substations of a plan, by their numbers, all closed. Refused out of memory alone.
pub(crate) fn new_substations(alloc: Global, plan: &Plan) -> Result<Vec<Substation>, AllocError>
    requires { KeepsLimits plan.now }
    ensures { IfOk result (λ substations. map substation_of substations.items ≡ fresh_substations plan.now.times 0 plan.now.substations) }
{
    let plans = plan.substations.as_slice();
    let mut substations = Vec::with_capacity(alloc, plans.len())?;
    for (number, substation) in plans.iter().enumerate() {
        substations.push(new_substation(alloc, number as u8, plan.times, substation)?)?;
    }
    Ok(substations)
}
