//! The file of a plan.

ghost use Rattle.std.specs.Prelude.{IfOk};
ghost use Rattle.dnp_concentrator.specs.Plan.{KeepsLimits};

use crate::inputs::octets_of;
use crate::meant::say_meant;
use crate::toml_faults::TomlFault;
use dnp_concentrator::Plan;
use dnp_daemons::{PlanTextFault, plan_fault, read_plan};
use dnp_lines::{Meant, NotToml, Of, Own, Refused};
use dnp_tcp::{exit, unwritten};
use std::process::ExitCode;
use std::rt::Files;
use std::{fs, str};

/// The most octets of a plan that are read: many times what the largest plan needs. So no file can fill the memory.
const MAX_PLAN: u64 = 16 * 1_024 * 1_024;

/// Reads the plan from its file. Where it can't be read, why is said on standard error, and the exit status is told.
pub fn plan_text<R: AllocGlobal + Eprint + Files>(rt: &R, path: &str) -> Result<Vec<u8>, ExitCode> {
    octets_of(rt, path, fs::open(rt, path), MAX_PLAN)
}

/// The plan in its file. Where it can't be read or is refused, that is said, and the exit status is told.
pub fn plan_given<R: AllocGlobal + Print + Eprint + Files>(
    rt: &R,
    path: &str,
) -> Result<Plan, ExitCode>
    ensures { IfOk result KeepsLimits }
{
    let octets = plan_text(rt, path)?;
    let Ok(text) = str::from_utf8(octets.as_slice()) else {
        return Err(refused(rt, path, octets.as_slice(), PlanTextFault::Syntax));
    };
    match read_plan(rt.alloc(), text) {
        Ok(plan) => Ok(plan),
        Err(fault) => Err(refused(rt, path, octets.as_slice(), fault)),
    }
}

/// Prints that the plan is refused, says on standard error at which place of its text and why, or that memory ran out, and
/// gives the exit status.
pub fn refused<R: AllocGlobal + Print + Eprint>(
    rt: &R,
    path: &str,
    octets: &[u8],
    fault: PlanTextFault,
) -> ExitCode {
    if fault == PlanTextFault::Memory {
        let line = Own(&fault);
        let _ = eprintln!(rt; "{line}");
        return ExitCode::from(exit::FAULT);
    }
    let refused = Refused::Plan(fault as u8);
    if let Err(cause) = println!(rt; "{refused}") {
        return unwritten(rt, &cause);
    }
    explain(rt, path, octets, fault);
    say_meant(rt, path, octets, Meant::Plan);
    ExitCode::from(exit::REFUSED)
}

/// Says on standard error why the octets of the file are no plan, and at which place. Where no memory is left for that, the cause
/// alone is said.
fn explain<R: AllocGlobal + Eprint>(rt: &R, path: &str, octets: &[u8], fault: PlanTextFault) {
    if fault == PlanTextFault::Syntax
        && let Some(found) = TomlFault::of(rt.alloc(), octets)
    {
        let line = NotToml(path, found.place(), &fault, found.reason());
        let _ = eprintln!(rt; "{line}");
    } else if let Ok(text) = str::from_utf8(octets)
        && let Ok(Some(reason)) = plan_fault(rt.alloc(), text)
    {
        let line = Of(path, &reason);
        let _ = eprintln!(rt; "{line}");
    } else {
        let line = Of(path, &fault);
        let _ = eprintln!(rt; "{line}");
    }
}
