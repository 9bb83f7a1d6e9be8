//! Where a script stops fitting, for the person who wrote it.

ghost use Rattle.std.specs.Prelude.{◌≡◌, ◌≤◌, ◌-◌, ℕ, Bool, List, [], IfOk, MatchOption, None, length, slice_index_or};
ghost use Rattle.dnp_concentrator.specs.Plan.{KeepsLimits};
ghost use Rattle.dnp_daemons.specs.ScriptLines.{first_unread};
ghost use Rattle.dnp_daemons.specs.ScriptReasons.{StopsAt};
ghost use Rattle.dnp_daemons.specs.Words.{lines_of, words_of};
ghost use Rattle.dnp_daemons.specs.steps.Forms.{most_taken, taken};
ghost use Rattle.dnp_daemons.specs.steps.Judging.{reading_by};

use crate::script::ScriptFault;
use crate::script::checking::check_script;
use crate::script::forms::{Form, Slot};
use crate::script::words::first_line;
use dnp_concentrator::Plan;
use std::alloc::{AllocError, Global};

/// How many of a line's first words say what the slots ask for, one after the other.
pub(crate) fn taken(line: &str, slots: &[Slot], substations: usize) -> usize
    ensures few { result ≤ length slots.now }
    ensures exact { result ≡ taken substations (words_of line.now) slots.now }
{
    match slots {
        [] => 0,
        [slot, more @ ..] => match line.split_once(' ') {
            Some((word, rest)) => {
                if slot.takes(word, substations) {
                    taken(rest, more, substations) + 1
                } else {
                    0
                }
            }
            None => usize::from(slot.takes(line, substations)),
        },
    }
}

/// The most of a line's first words that a form takes; where units are carried, a form whose lines lose, repeat or
/// damage a unit doesn't count.
fn good_words(line: &str, substations: usize, carried: bool) -> usize
    ensures { result ≡ most_taken carried substations (words_of line.now) }
{
    let mut most = 0;
    for form in &Form::ALL {
        if carried && !form.is_gentle() {
            continue;
        }
        let count = taken(line, form.slots(), substations);
        if most < count {
            most = count;
        }
    }
    most
}

/// The line of this number in a text, counted from 0, or an empty one where it has no such line.
fn line_at(text: &str, number: usize) -> &str
    ensures { result.now ≡ slice_index_or (lines_of text.now) number [] }
{
    let mut rest = text;
    for done in 0..number {
        if rest.is_empty() {
            return "";
        }
        rest = first_line(rest).1;
    }
    if rest.is_empty() {
        ""
    } else {
        first_line(rest).0
    }
}

/// Where a script stops fitting.
#[derive(Clone, Copy, Debug)]
pub struct LineFault<'a> {
    /// The number of the line, counted from 1.
    pub line: usize,
    /// How many of its words begin a line that fits: the next one doesn't fit, or is missing.
    pub good: usize,
    /// The line.
    pub text: &'a str,
    /// How many substations the plan has.
    pub substations: usize,
    /// Whether units are carried.
    pub carried: bool,
}

/// The first place at which a text stops being a script for a plan, or none where it is one: the line that
/// [`read_script`](crate::read_script) refuses, or where units are carried [`loop_text`](crate::loop_text), and how many of
/// its words begin a line that fits. An error says that it ran out of memory.
pub fn script_fault<'a>(
    alloc: Global,
    text: &'a str,
    plan: &Plan,
    carried: bool,
) -> Result<Option<LineFault<'a>>, AllocError>
    requires { KeepsLimits plan.now }
    ensures { IfOk result (λ found. MatchOption found (first_unread (reading_by carried (length plan.now.substations)) (lines_of text.now) ≡ None)
        (λ fault. StopsAt carried (length plan.now.substations) text.now fault.line fault.good)) }
{
    let substations = plan.substations.as_slice().len();
    match check_script(alloc, text, plan, carried) {
        Ok(()) => Ok(None),
        Err(ScriptFault::Memory) => Err(AllocError),
        Err(ScriptFault::Line(line)) => {
            let stops = line_at(text, line.saturating_sub(1));
            Ok(Some(LineFault {
                line,
                good: good_words(stops, substations, carried),
                text: stops,
                substations,
                carried,
            }))
        }
    }
}
