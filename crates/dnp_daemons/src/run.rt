//! A script, run line by line.

ghost use Rattle.std.specs.Prelude.{◌≡◌, OnOk};
ghost use Rattle.dnp_daemons.specs.ScriptRuns.{ScriptEndsBy};
ghost use Rattle.dnp_daemons.specs.steps.Lines.{SaysStopped};

use crate::run::line::{LineStop, run_line};
use crate::run::printing::write_parts;
use crate::script::ScriptLine;
use dnp_world::Cause;
use itoa::Buffer;
use std::alloc::Global;
use std::io::Write;

pub(crate) mod carried;
mod line;
pub(crate) mod onlooker;
pub(crate) mod printing;
pub(crate) mod reporting;
mod scripted;
pub(crate) mod text;
mod world;

pub use onlooker::{Nobody, Onlooker};
pub use scripted::Scripted;

/// Why a script, or the report after it, was not done to its end.
#[derive(Clone, Copy, Debug, PartialEq, Eq)]
pub enum ScriptStop {
    /// So many lines were done, and the next one stopped: a store or a request for memory refused.
    Stopped(usize),
    /// The writer failed.
    WriteFailed,
    /// This kept the texts from being read, the system from being made, or its report.
    Fault(Cause),
}

/// Prints after how many lines the script stopped.
fn print_stopped<W: Write>(done: usize, out: &mut W) -> ScriptStop
    ensures { SaysStopped done result (W.contents out.old) (W.contents out.new) }
{
    let mut digits = Buffer::new();
    match write_parts(&[b"stopped ", digits.format(done).as_bytes(), b"\n"], out) {
        Ok(()) => ScriptStop::Stopped(done),
        Err(_) => ScriptStop::WriteFailed,
    }
}

/// Runs a script line by line, and prints how each round and each control comes out: `ok`, or `refused` and the number of
/// the refusal.
///
/// Where a store or a request for memory refuses, the script stops, and `stopped` and the number of lines done are
/// printed. What the script did is in the system's report. WriteFailed says that the writer failed; what was written
/// is a beginning of what was to be printed by then.
pub fn run_script<S: Scripted, W: Write>(
    alloc: Global,
    system: &mut S,
    script: &[ScriptLine],
    out: &mut W,
) -> Result<(), ScriptStop>
    ensures held { S.honest system.new → S.honest system.old }
    ensures ends { S.honest system.new → ScriptEndsBy S.law (S.state system.old) script.now result (S.state system.new) (W.contents out.old) (W.contents out.new) }
    ensures runs_on { OnOk result (S.is_stopped system.new ≡ S.is_stopped system.old) }
{
    for (done, line) in script.iter().enumerate() {
        match run_line(alloc, system, line, out) {
            Ok(()) => {}
            Err(LineStop::Stopped) => return Err(print_stopped(done, out)),
            Err(LineStop::Unwritten) => return Err(ScriptStop::WriteFailed),
        }
    }
    Ok(())
}
