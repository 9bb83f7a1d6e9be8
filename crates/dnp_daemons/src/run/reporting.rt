//! A script run to its end, with the report there.

ghost use Rattle.std.specs.Prelude.{List};
ghost use Rattle.dnp_daemons.specs.declared.script.ScriptLine.{ScriptLine};
ghost use Rattle.dnp_daemons.specs.ScriptReports.{ReportEnds, TellsCause};
ghost use Rattle.dnp_daemons.specs.steps.Readings.{Says};

use crate::report_text::{PrintFault, print_report};
use crate::run::ScriptStop;
use crate::run::onlooker::Onlooker;
use crate::run::scripted::Scripted;
use crate::run::text::run_text;
use crate::script::checking::ScriptText;
use dnp_world::Cause;
use std::alloc::Global;
use std::io::Write;

/// Runs a script from its text, and prints the report at its end.
pub(crate) fn run_to_report<S: Scripted, O: Onlooker, W: Write>(
    alloc: Global,
    system: &mut S,
    script: &ScriptText<'_>,
    onlooker: &mut O,
    out: &mut W,
) -> Result<(), ScriptStop>
    requires fits { (lines : List ScriptLine) × Says script.now lines }
    ensures held { S.honest system.new → S.honest system.old }
    ensures ends { S.honest system.new → (lines : List ScriptLine) → Says script.now lines
        → ReportEnds S.law (S.state system.old) lines result (S.state system.new) (W.contents out.old) (W.contents out.new) }
    ensures cause { TellsCause (S.is_stopped system.old) (S.is_stopped system.new) result }
{
    match run_text(alloc, system, script, onlooker, out) {
        Ok(()) => {}
        Err(stop) => return Err(stop),
    }
    let report = match system.report(alloc) {
        Ok(report) => report,
        Err(cause) => return Err(ScriptStop::Fault(cause)),
    };
    match print_report(alloc, &report, out) {
        Ok(()) => Ok(()),
        Err(PrintFault::WriteFailed) => Err(ScriptStop::WriteFailed),
        Err(PrintFault::Memory) => Err(ScriptStop::Fault(Cause::Memory)),
    }
}
