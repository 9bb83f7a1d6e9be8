//! What units did, a line each.
ghost use Rattle.std.specs.Prelude.{◌≡◌, ◌++◌, List, ℕ, true, IfOk, OnOk, IsErr};
ghost use Rattle.dnp_trace.specs.Phrases.{IsPhrase};
ghost use Rattle.dnp_trace.specs.Traces.{fate_word, link_word, course_phrase, step_begin, step_line, IsStepText, AreTraceLines};

use crate::log::Log;
use crate::noted::{Course, Peer, Step, Unit, What};
use crate::phrase::say_unit;
use crate::sheet::Sheet;
use std::alloc::{AllocError, Global};

/// The word for what a unit did.
pub(crate) fn word_of(what: What) -> &'static str
    ensures { result.now ≡ fate_word what }
{
    match what {
        What::Sent => "sent",
        What::Arrives => "arrives",
        What::Repeated => "repeated",
        What::Lost => "lost",
        What::Damaged => "damaged",
        What::Dropped => "dropped",
        What::Stands => "stands",
    }
}

/// Says which link it is.
fn say_link(sheet: &mut Sheet, peer: Peer) -> Result<(), AllocError>
    ensures { OnOk result (sheet.new ≡ sheet.old ++ link_word peer) }
{
    match peer {
        Peer::Centre => sheet.word("above"),
        Peer::SecondCentre => sheet.word("above2"),
        Peer::Substation(number) => sheet.number(number),
    }
}

/// Says which line it is.
fn say_course(sheet: &mut Sheet, course: Course) -> Result<(), AllocError>
    ensures { OnOk result (sheet.new ≡ sheet.old ++ course_phrase course) }
{
    sheet.word(" link ")?;
    say_link(sheet, course.peer)?;
    if course.up {
        sheet.word(" up ")
    } else {
        sheet.word(" down ")
    }
}

/// Begins a line of what a unit did, up to what it says.
fn begin_step(sheet: &mut Sheet, moment: u64, course: Course, what: What) -> Result<(), AllocError>
    ensures { OnOk result (sheet.new ≡ sheet.old ++ step_begin moment course what) }
{
    sheet.number(moment)?;
    say_course(sheet, course)?;
    sheet.word(word_of(what))?;
    sheet.word(" ")
}

/// A line of what a unit did.
fn say_step(sheet: &mut Sheet, moment: u64, what: What, unit: &Unit) -> Result<(), AllocError>
    ensures { OnOk result ((phrase : List ℕ) × IsPhrase unit.now.octets phrase × (sheet.new ≡ sheet.old ++ step_line moment unit.now.course what phrase)) }
{
    begin_step(sheet, moment, unit.course(), what)?;
    say_unit(sheet, unit.octets())?;
    sheet.word("\n")?;
    Ok(())
}

/// The line of a step, if it has one.
fn say_happened(sheet: &mut Sheet, units: &[Unit], step: Step) -> Result<(), AllocError>
    ensures { OnOk result ((text : List ℕ) × IsStepText units.now step text × (sheet.new ≡ sheet.old ++ text)) }
{
    match step {
        Step::Line { moment: _, line: _ } => Ok(()),
        Step::Unit { moment, what, unit } => match units.get(unit) {
            Some(unit) => {
                say_step(sheet, moment, what, unit)?;
                Ok(())
            }
            None => Ok(()),
        },
    }
}

/// What units did, a line each: the moment in milliseconds, the link and the way, what it did, and what it says.
///
/// An error says that memory ran out, now or when it was noted.
pub fn trace_text(alloc: Global, log: &Log) -> Result<Vec<u8>, AllocError>
    ensures text { IfOk result (λ text. AreTraceLines log.now.units log.now.steps text.items) }
    ensures cut { log.now.cut ≡ true → IsErr result }
{
    if log.is_cut() {
        return Err(AllocError);
    }
    let mut sheet = Sheet::new(alloc);
    let units = log.units();
    for step in log.steps() {
        say_happened(&mut sheet, units, *step)?;
    }
    Ok(sheet.into_octets())
}
