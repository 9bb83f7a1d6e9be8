//! The texts of a plan and of a script, judged before anything runs.

ghost use Rattle.std.specs.Prelude.{◌≡◌, IfErr, IfOk};
ghost use Rattle.dnp_concentrator.specs.declared.cause.Cause.TheVariants.{Memory};
ghost use Rattle.dnp_daemons.specs.steps.Judging.{IsJudged, SaysRefused, reading_by};

use crate::run::ScriptStop;
use crate::run::printing::write_parts;
use crate::script::ScriptFault;
use crate::script::checking::check_script;
use dnp_concentrator::Plan;
use dnp_plantext::{PlanTextFault, read_plan};
use dnp_world::Cause;
use itoa::Buffer;
use std::alloc::Global;
use std::io::Write;

/// What the texts of a plan and a script are.
#[derive(Drop)]
pub(crate) enum Judged {
    /// A plan, and the other text is a script for it.
    Good(Plan),
    /// No plan, by the fault of this number.
    NoPlan(usize),
    /// A plan, and no script for it: this line, counted from 1, is the first that doesn't fit.
    NoScript(usize),
}

/// Judges the text of a plan, and then the text of a script for it, whose units may be carried.
pub(crate) fn judge(
    alloc: Global,
    plan: &str,
    script: &str,
    carried: bool,
) -> Result<Judged, ScriptStop>
    ensures judged { IfOk result (IsJudged (reading_by carried) plan.now script.now) }
    ensures unjudged { IfErr result (λ stop. stop ≡ ScriptStop.Fault Memory) }
{
    let plan = match read_plan(alloc, plan) {
        Ok(plan) => plan,
        Err(PlanTextFault::Memory) => return Err(ScriptStop::Fault(Cause::Memory)),
        Err(fault) => return Ok(Judged::NoPlan(fault as usize)),
    };
    match check_script(alloc, script, &plan, carried) {
        Ok(()) => Ok(Judged::Good(plan)),
        Err(ScriptFault::Line(number)) => Ok(Judged::NoScript(number)),
        Err(ScriptFault::Memory) => Err(ScriptStop::Fault(Cause::Memory)),
    }
}

/// Prints that a text is refused, and by which number.
pub(crate) fn print_refusal<W: Write>(
    name: &[u8],
    number: usize,
    out: &mut W,
) -> Result<(), ScriptStop>
    ensures { SaysRefused name.now number result (W.contents out.old) (W.contents out.new) }
{
    let mut digits = Buffer::new();
    let number = digits.format(number).as_bytes();
    match write_parts(&[b"refused ", name, b" ", number, b"\n"], out) {
        Ok(()) => Ok(()),
        Err(_) => Err(ScriptStop::WriteFailed),
    }
}
