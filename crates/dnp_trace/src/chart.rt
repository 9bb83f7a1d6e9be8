//! A sequence chart of what units did, as SVG.

ghost use Rattle.std.specs.Prelude.{◌≡◌, ◌++◌, ◌∷◌, [], List, ℕ, true, length, codes, IfOk, IsErr};
ghost use Rattle.dnp_trace.specs.Charts.{chart_head, chart_width, chart_height, gaps, has_second, is_of_second};

use crate::columns::{Columns, column_x};
use crate::log::Log;
use crate::noted::{Course, Peer, Step, Unit, What};
use crate::phrase::say_unit;
use crate::sheet::Sheet;
use crate::svg::{attribute, begin, begin_text, escaped, straight};
use crate::trace::word_of;
use std::alloc::{AllocError, Global};

/// How many rows a chart has at most.
pub(crate) const MAX_ROWS: usize = 1_500;

/// The height of a row.
pub(crate) const ROW: u32 = 22;

/// Where the rows begin.
pub(crate) const TOP: u32 = 64;

/// Where the first station stands.
pub(crate) const LEFT: u32 = 340;

/// How far stations are from one another.
pub(crate) const APART: u32 = 400;

/// What is free on the right.
pub(crate) const RIGHT: u32 = 70;

/// What is free at the end.
pub(crate) const BOTTOM: u32 = 24;

/// How many characters of a phrase are shown between two stations.
const PHRASE: usize = 58;

/// How many characters of a line of the script are shown.
const LINE: usize = 38;

/// Writes at most so many characters of a text, and all of it where the pointer rests.
fn shown(sheet: &mut Sheet, text: &[u8], most: usize) -> Result<(), AllocError> {
    match text.get(..most) {
        Some(part) if part.len() < text.len() => {
            escaped(sheet, part)?;
            sheet.word("..<title>")?;
            escaped(sheet, text)?;
            sheet.word("</title>")
        }
        _ => escaped(sheet, text),
    }
}

/// Where a row lies.
fn row_y(row: u32) -> u32 {
    row.saturating_mul(ROW).saturating_add(TOP)
}

/// Draws a station: its name, and the line below it.
fn station(
    sheet: &mut Sheet,
    columns: Columns,
    column: u32,
    height: u32,
) -> Result<(), AllocError> {
    let x = column_x(column);
    sheet.word("<rect class=\"box\"")?;
    attribute(sheet, "x", x.saturating_sub(60))?;
    attribute(sheet, "y", 10)?;
    attribute(sheet, "width", 120)?;
    attribute(sheet, "height", 24)?;
    sheet.word("/>\n")?;
    begin_text(sheet, "head", x, 26, "middle")?;
    columns.station_name(sheet, column)?;
    sheet.word("</text>\n")?;
    straight(sheet, "life", (x, 34), (x, height.saturating_sub(20)), "")
}

/// Draws a cross, where a unit was lost.
fn cross(sheet: &mut Sheet, x: u32, y: u32) -> Result<(), AllocError> {
    let (left, right) = (x.saturating_sub(5), x.saturating_add(5));
    let (above, below) = (y.saturating_sub(5), y.saturating_add(5));
    straight(sheet, "bad", (left, above), (right, below), "")?;
    straight(sheet, "bad", (left, below), (right, above), "")
}

/// Draws a jagged line, where a unit was damaged.
fn jag(sheet: &mut Sheet, x: u32, y: u32) -> Result<(), AllocError> {
    let (left, right) = (x.saturating_sub(5), x.saturating_add(5));
    let (above, below) = (y.saturating_sub(8), y.saturating_add(8));
    straight(sheet, "bad", (right, above), (left, y), "")?;
    straight(sheet, "bad", (left, y), (right, y), "")?;
    straight(sheet, "bad", (right, y), (left, below), "")
}

/// Draws a unit's way from where it was sent to where it came to this.
fn arrow(
    sheet: &mut Sheet,
    columns: Columns,
    course: Course,
    sent: u32,
    row: u32,
    what: What,
) -> Result<(), AllocError> {
    let (begin, end) = columns.ends_of(course);
    let middle = columns.break_x(course);
    let (from, y) = ((begin, row_y(sent)), row_y(row));
    match what {
        What::Sent => Ok(()),
        What::Arrives => straight(sheet, "unit", from, (end, y), " marker-end=\"url(#tip)\""),
        What::Repeated => straight(sheet, "again", from, (end, y), " marker-end=\"url(#tip)\""),
        What::Lost => {
            straight(sheet, "bad", from, (middle, y), "")?;
            cross(sheet, middle, y)
        }
        What::Damaged => {
            straight(sheet, "bad", from, (middle, y), "")?;
            jag(sheet, middle, y)
        }
        What::Dropped | What::Stands => straight(sheet, "still", from, (middle, y), ""),
    }
}

/// Says beside a unit's end how it ended, where it didn't just arrive.
fn end_word(
    sheet: &mut Sheet,
    columns: Columns,
    course: Course,
    row: u32,
    what: What,
) -> Result<(), AllocError> {
    if what == What::Sent || what == What::Arrives {
        return Ok(());
    }
    let (_, end) = columns.ends_of(course);
    let (x, anchor) = match what {
        What::Repeated if course.up => (end.saturating_add(14), "start"),
        What::Repeated => (end.saturating_sub(14), "end"),
        _ => (columns.break_x(course).saturating_add(12), "start"),
    };
    begin_text(sheet, "on end", x, row_y(row).saturating_add(4), anchor)?;
    sheet.word(word_of(what))?;
    sheet.word("</text>\n")
}

/// Says what a unit says, beside where it was sent.
fn unit_phrase(
    sheet: &mut Sheet,
    alloc: Global,
    columns: Columns,
    row: u32,
    unit: &Unit,
) -> Result<(), AllocError> {
    let mut phrase = Sheet::new(alloc);
    say_unit(&mut phrase, unit.octets())?;
    let (begin, end) = columns.ends_of(unit.course());
    let y = row_y(row).saturating_sub(4);
    let (x, anchor) = if begin < end {
        (begin.saturating_add(6), "start")
    } else {
        (begin.saturating_sub(6), "end")
    };
    begin_text(sheet, "on", x, y, anchor)?;
    shown(sheet, phrase.octets(), PHRASE)?;
    sheet.word("</text>\n")
}

/// Draws the ways of all units.
fn arrows(
    sheet: &mut Sheet,
    alloc: Global,
    columns: Columns,
    log: &Log,
    steps: &[Step],
) -> Result<(), AllocError> {
    // in which row each unit was sent
    let mut sent = Vec::new(alloc);
    let mut row: u32 = 0;
    for step in steps {
        if let Step::Unit { what, unit, .. } = *step {
            if what == What::Sent {
                sent.push(row)?;
            } else if let (Some(from), Some(unit)) = (sent.get(unit), log.units().get(unit)) {
                arrow(sheet, columns, unit.course(), *from, row, what)?;
            }
        }
        row = row.saturating_add(1);
    }
    Ok(())
}

/// Writes a line of the script.
fn line_text(sheet: &mut Sheet, row: u32, text: &[u8]) -> Result<(), AllocError> {
    begin_text(sheet, "line", 84, row_y(row).saturating_sub(4), "start")?;
    shown(sheet, text, LINE)?;
    sheet.word("</text>\n")
}

/// Writes what a unit says where it is sent, and how it ended.
fn unit_text(
    sheet: &mut Sheet,
    alloc: Global,
    columns: Columns,
    row: u32,
    what: What,
    unit: &Unit,
) -> Result<(), AllocError> {
    if what == What::Sent {
        unit_phrase(sheet, alloc, columns, row, unit)?;
    }
    end_word(sheet, columns, unit.course(), row, what)
}

/// Writes the text of a row.
fn row_text(
    sheet: &mut Sheet,
    alloc: Global,
    columns: Columns,
    log: &Log,
    row: u32,
    step: Step,
) -> Result<(), AllocError> {
    match step {
        Step::Line { line, .. } => match log.lines().get(line) {
            Some(text) => line_text(sheet, row, text.as_slice()),
            None => Ok(()),
        },
        Step::Unit { what, unit, .. } => match log.units().get(unit) {
            Some(unit) => unit_text(sheet, alloc, columns, row, what, unit),
            None => Ok(()),
        },
    }
}

/// When a step was.
fn moment_of(step: Step) -> u64 {
    match step {
        Step::Line { moment, .. } | Step::Unit { moment, .. } => moment,
    }
}

/// Writes the texts of all rows, and the moment where it is another one.
fn texts(
    sheet: &mut Sheet,
    alloc: Global,
    columns: Columns,
    log: &Log,
    steps: &[Step],
) -> Result<(), AllocError> {
    let mut row: u32 = 0;
    let mut last = None;
    for step in steps {
        let moment = moment_of(*step);
        if last != Some(moment) {
            begin_text(sheet, "line", 6, row_y(row).saturating_sub(4), "start")?;
            sheet.number(moment)?;
            sheet.word(" ms</text>\n")?;
            last = Some(moment);
        }
        row_text(sheet, alloc, columns, log, row, *step)?;
        row = row.saturating_add(1);
    }
    Ok(())
}

/// Says that not all is shown, where it isn't.
fn cut_note(sheet: &mut Sheet, shown: usize, all: usize, height: u32) -> Result<(), AllocError> {
    if shown < all {
        begin_text(sheet, "end", 84, height.saturating_sub(6), "start")?;
        sheet.word("cut here: ")?;
        sheet.number(shown)?;
        sheet.word(" of ")?;
        sheet.number(all)?;
        sheet.word(" rows are shown</text>\n")?;
    }
    Ok(())
}

/// Whether the link is that to the second centre.
fn is_second(peer: Peer) -> bool
    ensures { result ≡ is_of_second peer }
{
    peer == Peer::SecondCentre
}

/// Whether a unit was on the link to the second centre.
fn has_second_of(log: &Log) -> bool
    ensures { result ≡ has_second log.now }
{
    log.units().iter().any(|unit| is_second(unit.course().peer))
}

/// How many stations stand to the right of the first.
fn gaps_of(log: &Log) -> u16
    ensures { result ≡ gaps log.now }
{
    let above = if has_second_of(log) { 2 } else { 1 };
    u16::from(log.substations()) + above
}

/// Draws all: the stations of a system, of which so many stand to the right of the first, the ways of units and the texts of
/// these rows.
fn drawn(alloc: Global, log: &Log, steps: &[Step], height: u32) -> Result<Sheet, AllocError> {
    let columns = Columns::new(has_second_of(log));
    let mut sheet = Sheet::new(alloc);
    for column in 0..u32::from(gaps_of(log)) + 1 {
        station(&mut sheet, columns, column, height)?;
    }
    arrows(&mut sheet, alloc, columns, log, steps)?;
    texts(&mut sheet, alloc, columns, log, steps)?;
    cut_note(&mut sheet, steps.len(), log.steps().len(), height)?;
    Ok(sheet)
}

/// The width of a chart in which so many stations stand to the right of the first.
fn width_of(gaps: u16) -> u32
    ensures { result ≡ chart_width gaps }
{
    LEFT + APART * u32::from(gaps) + RIGHT
}

/// The rows that are shown of these.
fn rows_of(steps: &[Step]) -> &[Step] {
    steps.get(..MAX_ROWS).unwrap_or(steps)
}

/// The height of a chart of these steps.
fn height_of(steps: usize) -> u32
    ensures { result ≡ chart_height steps }
{
    TOP + ROW * steps.min(MAX_ROWS) as u32 + BOTTOM
}

/// The sequence chart of what units did: a column for each station, time going down, a row for each line of the script
/// and each thing that a unit did. It is SVG, and needs nothing else. Of more than 1,500 rows the first are shown, and a
/// note says so.
///
/// An error says that memory ran out, now or when it was noted.
pub fn chart_text(alloc: Global, log: &Log) -> Result<Vec<u8>, AllocError>
    // (which elements are drawn between the head and the end, no clause says)
    ensures chart { IfOk result (λ text. (drawn : List ℕ) × (text.items ≡ chart_head (chart_width (gaps log.now)) (chart_height (length log.now.steps)) ++ drawn ++ codes "</svg>" ++ 10 ∷ [])) }
    ensures cut { log.now.cut ≡ true → IsErr result }
{
    if log.is_cut() {
        return Err(AllocError);
    }
    let height = height_of(log.steps().len());
    let drawn = drawn(alloc, log, rows_of(log.steps()), height)?;
    let mut sheet = Sheet::new(alloc);
    begin(&mut sheet, width_of(gaps_of(log)), height)?;
    sheet.put(drawn.octets())?;
    sheet.word("</svg>\n")?;
    Ok(sheet.into_octets())
}
