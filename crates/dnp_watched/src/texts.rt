//! What units do in the run of a script on a plan, by the texts of both.

ghost use Rattle.dnp_concentrator.specs.Plan.{KeepsLimits};

use crate::watched::watch;
use dnp_concentrator::Plan;
use dnp_daemons::{read_plan, read_script};
use dnp_trace::Log;
use std::alloc::Global;

/// A text is no plan, or no script for it.
#[derive(Clone, Copy)]
pub struct Refused;

/// What units do in the run of a script on a plan, whose texts these are; none where memory ran out in it.
pub fn seen(alloc: Global, plan: &str, script: &str) -> Result<Option<Log>, Refused> {
    match read_plan(alloc, plan) {
        Ok(plan) => seen_on(alloc, &plan, script),
        Err(_) => Err(Refused),
    }
}

/// What units do in the run of a script on the plan; none where memory ran out in it.
fn seen_on(alloc: Global, plan: &Plan, text: &str) -> Result<Option<Log>, Refused>
    requires { KeepsLimits plan.now }
{
    match read_script(alloc, text, plan) {
        Ok(script) => Ok(watch(alloc, plan, script.as_slice(), text)),
        Err(_) => Err(Refused),
    }
}
