//! The outstation of a substation of a plan.

ghost use Rattle.std.specs.Prelude.{◌≡◌, ◌≤◌, IfOk, IfErr, MatchOption, Some, length, slice_get};
ghost use Rattle.dnp_concentrator.specs.Plan.{KeepsSubLimits};
ghost use Rattle.dnp_concentrator.specs.declared.plan.Plan.{Plan as PlanValue};
ghost use Rattle.dnp_concentrator.specs.declared.plan.SubPlan.{SubPlan as SubPlanValue};
ghost use Rattle.dnp_plantext.specs.Planned as spec;
ghost use Rattle.dnp_plantext.specs.PlanText.{IsPlanOf, IsRefusedFor};

use crate::plan_text::{PlanTextFault, read_plan};
use dnp_concentrator::SubPlan;
use dnp_controls::LatestOutputs;
use dnp_eventbuf::RingLanes;
use dnp_outstation::Outstation;
use dnp_pointdb::{PointDb, Times};
use std::alloc::{AllocError, Global};

/// An outstation with its lanes and its outputs in memory, the states of its outputs alone: it serves for years.
pub type PlannedOutstation = Outstation<RingLanes, LatestOutputs>;

/// The outstation of a substation, closed as after a restart, with its lanes and its outputs in memory. Refused out of
/// memory alone.
fn outstation_of(
    alloc: Global,
    substation: &SubPlan,
    times: Times,
) -> Result<PlannedOutstation, AllocError>
    requires { KeepsSubLimits substation.now }
    ensures { IfOk result (spec.IsOutstationOf substation.now times) }
{
    let points = PointDb::new(alloc, substation.points(alloc)?)?;
    let lanes = RingLanes::new(alloc, substation.lanes)?;
    let outputs = LatestOutputs::new(substation.outputs, substation.setpoints);
    Ok(Outstation::new(points, lanes, outputs, times))
}

/// The outstation of the substation with this number in the plan that the text says, closed as after a restart, with
/// its lanes and its outputs in memory; none where the plan has no such substation. Refused as by [`read_plan`].
pub fn planned_outstation(
    alloc: Global,
    text: &str,
    number: u8,
) -> Result<Option<PlannedOutstation>, PlanTextFault>
    ensures planned { IfOk result (λ found. (plan : PlanValue) × IsPlanOf text.now plan
        × MatchOption found (length plan.substations ≤ number) (λ station. (substation : SubPlanValue)
        × (slice_get plan.substations number ≡ Some substation) × spec.IsOutstationOf substation plan.times station)) }
    ensures refused { IfErr result (IsRefusedFor text.now) }
{
    let plan = read_plan(alloc, text)?;
    match plan.substations.as_slice().get(usize::from(number)) {
        Some(substation) => Ok(Some(outstation_of(alloc, substation, plan.times)?)),
        None => Ok(None),
    }
}
