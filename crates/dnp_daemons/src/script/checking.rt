//! Whether a text is a script.

ghost use Rattle.std.specs.Prelude.{◌≡◌, ℕ, Err, IfOk, List, OnOk, Some, length, map};
ghost use Rattle.dnp_daemons.specs.declared.script.ScriptLine.{ScriptLine};
ghost use Rattle.dnp_daemons.specs.ScriptLines.{first_unread, is_lossless};
ghost use Rattle.dnp_daemons.specs.steps.Judging.{reading_by};
ghost use Rattle.dnp_daemons.specs.Words.{lines_of};

use crate::script::lines::read_line;
use crate::script::words::first_line;
use crate::script::{ScriptFault, ScriptLine};
use dnp_concentrator::Plan;
use dnp_world::Event;
use std::alloc::{AllocError, Global};

/// The text of a script, and what its lines are read by.
#[derive(Clone, Copy, Debug)]
pub(crate) struct ScriptText<'a> {
    /// The text.
    pub text: &'a str,
    /// How many substations the plan has.
    pub substations: usize,
    /// Whether units are carried: a line that loses, repeats or damages one doesn't fit then.
    pub carried: bool,
}

impl ScriptLine {
    /// Whether the line loses, repeats and damages no unit.
    fn lossless(&self) -> bool
        ensures { result ≡ is_lossless self.now }
    {
        !matches!(
            self,
            ScriptLine::One(Event::Lose(..) | Event::Repeat(..) | Event::Damage(..))
        )
    }
}

/// Reads one line; where units are carried, one that loses, repeats or damages a unit doesn't fit.
pub(crate) fn read_line_by(
    alloc: Global,
    line: &str,
    substations: usize,
    carried: bool,
) -> Result<Option<ScriptLine>, AllocError>
    ensures { IfOk result (λ read. read ≡ reading_by carried substations line.now) }
{
    match read_line(alloc, line, substations)? {
        Some(read) if !carried || read.lossless() => Ok(Some(read)),
        _ => Ok(None),
    }
}

/// Whether a text is a script, as [`read_script`](crate::read_script) reads it; where its units are to be carried, refused
/// is also a line that loses, repeats or damages a unit. It keeps no line.
pub(crate) fn check_script(
    alloc: Global,
    text: &str,
    plan: &Plan,
    carried: bool,
) -> Result<(), ScriptFault>
    ensures read { OnOk result ((script : List ScriptLine)
        × (map (reading_by carried (length plan.now.substations)) (lines_of text.now) ≡ map Some script)) }
    ensures refused { (line : ℕ) → result ≡ Err (ScriptFault.Line line)
        → first_unread (reading_by carried (length plan.now.substations)) (lines_of text.now) ≡ Some line }
{
    let substations = plan.substations.as_slice().len();
    let mut number = 1;
    let mut rest = text;
    while !rest.is_empty() {
        let (line, more) = first_line(rest);
        let Some(_) = read_line_by(alloc, line, substations, carried)? else {
            return Err(ScriptFault::Line(number));
        };
        number += 1;
        rest = more;
    }
    Ok(())
}
