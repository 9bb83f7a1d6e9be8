//! A script, read from its text.

ghost use Rattle.std.specs.Prelude.{◌≡◌, ℕ, Err, IfOk, Some, length, map};
ghost use Rattle.dnp_daemons.specs.ScriptLines.{first_misfit, reading_of};
ghost use Rattle.dnp_daemons.specs.Words.{lines_of};

use crate::script::lines::read_line;
use crate::script::words::first_line;
use dnp_concentrator::Plan;
use dnp_world::{Event, Link, Way};
use std::alloc::{AllocError, AllocFailed, Global};

pub(crate) mod checking;
pub(crate) mod forms;
mod idle;
mod lines;
mod names;
mod numbers;
pub(crate) mod reason;
pub(crate) mod which;
pub(crate) mod words;

pub use idle::{IdleLines, IdleReason, idle_lines};
pub use numbers::number_in;
pub use reason::{LineFault, script_fault};
pub use which::WhichCentre;

/// What a line of a script asks for.
#[derive(Debug, Drop)]
pub enum ScriptLine {
    /// One event.
    One(Event),
    /// The delivery of each unit that stands on this way of this link at the line's beginning.
    Flush(Link, Way),
    /// A clean round on this link.
    Round(Link),
    /// The control of this number in this centre's book, by a clean control.
    Control(WhichCentre, u64),
}

/// Why a text is no script.
#[derive(Clone, Copy, Debug, PartialEq, Eq)]
pub enum ScriptFault {
    /// This line, counted from 1, is the first that doesn't fit.
    Line(usize),
    /// Out of memory.
    Memory,
}

/// A request for memory that was refused.
impl From<AllocError> for ScriptFault {
    ghost use Rattle.std.specs.Prelude.{◌≡◌};
    ghost use Rattle.dnp_daemons.specs.declared.script.ScriptFault.TheVariants.{Memory};

    ghost from_gives = { λ _ fault. fault ≡ Memory };

    fn from(_: AllocError) -> ScriptFault {
        ScriptFault::Memory
    }
}

/// The same, where a list did not take one thing more.
impl<T: Drop> From<AllocFailed<T>> for ScriptFault {
    ghost use Rattle.std.specs.Prelude.{◌≡◌};
    ghost use Rattle.dnp_daemons.specs.declared.script.ScriptFault.TheVariants.{Memory};

    ghost from_gives = { λ _ fault. fault ≡ Memory };

    fn from(_: AllocFailed<T>) -> ScriptFault {
        ScriptFault::Memory
    }
}

/// Reads a script for a plan: one event, flush, round or control a line. Each line ends in a line feed, which the last may
/// lack; its words are separated by single spaces.
///
/// Refused is the first line that doesn't fit, also one that names a link or a substation that the plan lacks. A point,
/// an output or a setpoint that the plan lacks may be named, and does nothing ([`idle_lines`]). Before that line it may be
/// out of memory.
pub fn read_script(alloc: Global, text: &str, plan: &Plan) -> Result<Vec<ScriptLine>, ScriptFault>
    ensures read { IfOk result (λ script.
        map (reading_of (length plan.now.substations)) (lines_of text.now) ≡ map Some script.items) }
    ensures refused { (line : ℕ) → result ≡ Err (ScriptFault.Line line)
        → first_misfit (length plan.now.substations) (lines_of text.now) ≡ Some line }
{
    let substations = plan.substations.as_slice().len();
    let mut script = Vec::new(alloc);
    let mut number = 1;
    let mut rest = text;
    while !rest.is_empty() {
        let (line, more) = first_line(rest);
        let Some(read) = read_line(alloc, line, substations)? else {
            return Err(ScriptFault::Line(number));
        };
        script.push(read)?;
        number += 1;
        rest = more;
    }
    Ok(script)
}
