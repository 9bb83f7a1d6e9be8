//! A script that is run from its text.

ghost use Rattle.std.specs.Prelude.{List};
ghost use Rattle.dnp_daemons.specs.declared.script.ScriptLine.{ScriptLine};
ghost use Rattle.dnp_daemons.specs.ScriptReports.{TellsCause};
ghost use Rattle.dnp_daemons.specs.steps.Readings.{Says, TextEndsBy};

use crate::run::line::{LineStop, run_line};
use crate::run::onlooker::Onlooker;
use crate::run::scripted::Scripted;
use crate::run::{ScriptStop, print_stopped};
use crate::script::checking::{ScriptText, read_line_by};
use crate::script::words::first_line;
use dnp_world::Cause;
use std::alloc::Global;
use std::io::Write;

/// Runs a script as [`run_script`](crate::run_script) does, each line read from the text when its turn comes: no list of
/// lines is kept. Where memory for the octets of a line is refused, it stops there, and prints nothing of that.
pub(crate) fn run_text<S: Scripted, O: Onlooker, W: Write>(
    alloc: Global,
    system: &mut S,
    script: &ScriptText<'_>,
    onlooker: &mut O,
    out: &mut W,
) -> Result<(), ScriptStop>
    requires fits { (lines : List ScriptLine) × Says script.now lines }
    ensures held { S.honest system.new → S.honest system.old }
    ensures ends { S.honest system.new → (lines : List ScriptLine) → Says script.now lines
        → TextEndsBy S.law (S.state system.old) lines result (S.state system.new) (W.contents out.old) (W.contents out.new) }
    ensures cause { TellsCause (S.is_stopped system.old) (S.is_stopped system.new) result }
{
    let mut done = 0;
    let mut rest = script.text;
    while !rest.is_empty() {
        let all = script.text.len();
        onlooker.sees(all.saturating_sub(rest.len()), all);
        let (line, more) = first_line(rest);
        let read = match read_line_by(alloc, line, script.substations, script.carried) {
            Ok(Some(read)) => read,
            Ok(None) => unreachable!(),
            Err(_) => return Err(ScriptStop::Fault(Cause::Memory)),
        };
        match run_line(alloc, system, &read, out) {
            Ok(()) => {}
            Err(LineStop::Stopped) => return Err(print_stopped(done, out)),
            Err(LineStop::Unwritten) => return Err(ScriptStop::WriteFailed),
        }
        done += 1;
        rest = more;
    }
    Ok(())
}
