//! The text of a report as JSON.
ghost use Rattle.std.specs.Prelude.{◌≡◌, ◌++◌, codes, OnOk, IfOk};
ghost use Rattle.dnp_trace.specs.ReportJsons as spec;
ghost use Rattle.dnp_trace.specs.ReportJsons.{first_line as first_line_of, lines_below, first_word as first_word_of, more_words, value_text, members, event_names, block_names, setpoint_names, names_by, line_json, empty_after, IsReportJson};

use crate::sheet::Sheet;
use std::alloc::{AllocError, Global};

/// What a line of what a script printed is.
#[derive(Clone, Copy)]
pub(crate) enum Kind {
    /// An event or a command of a list.
    Item,
    /// How a round or a control came out.
    Outcome,
    /// How many events full lanes for the first centre have lost.
    Lost,
    /// The same of the second centre.
    Lost2,
    /// The name and the length of a list.
    List,
}

/// The kind of a line with this first word.
fn kind_of(word: &str) -> Kind
    ensures { result ≡ spec.kind_of word.now }
{
    if word.is_empty() {
        return Kind::Item;
    }
    match word {
        "round" | "control" | "control2" => Kind::Outcome,
        "lost" => Kind::Lost,
        "lost2" => Kind::Lost2,
        _ => Kind::List,
    }
}

/// Whether a list is empty after a line of this kind.
fn is_empty_after(kind: Kind, empty: bool) -> bool
    ensures { result ≡ empty_after kind empty }
{
    match kind {
        Kind::Item | Kind::Outcome => false,
        Kind::Lost | Kind::Lost2 => empty,
        Kind::List => true,
    }
}

/// The first line of a text, and the text below it.
fn first_line(text: &str) -> (&str, &str)
    ensures line { result.0.now ≡ first_line_of text.now }
    ensures below { result.1.now ≡ lines_below text.now }
{
    match text.split_once('\n') {
        Some(parts) => parts,
        None => (text, ""),
    }
}

/// The first word of a line, and what follows the space after it.
fn first_word(words: &str) -> (&str, &str)
    ensures word { result.0.now ≡ first_word_of words.now }
    ensures more { result.1.now ≡ more_words words.now }
{
    match words.split_once(' ') {
        Some(parts) => parts,
        None => (words, ""),
    }
}

/// Writes a value. What there is none of is `null`.
fn put_value(sheet: &mut Sheet, value: &str, quoted: bool) -> Result<(), AllocError>
    ensures { OnOk result (sheet.new ≡ sheet.old ++ value_text value.now quoted) }
{
    if quoted {
        sheet.word("\"")?;
        sheet.word(value)?;
        return sheet.word("\"");
    }
    let octets = value.as_bytes();
    if octets.len() == 1 && octets[0] == b'-' {
        sheet.word("null")
    } else {
        sheet.word(value)
    }
}

/// Writes a name and its value.
fn put_member(sheet: &mut Sheet, name: &str, value: &str, quoted: bool) -> Result<(), AllocError>
    ensures { OnOk result (sheet.new ≡ sheet.old ++ spec.member name.now value.now quoted) }
{
    sheet.word("\"")?;
    sheet.word(name)?;
    sheet.word("\": ")?;
    put_value(sheet, value, quoted)
}

/// Writes, after a comma, a member whose value is the first of these words, and answers the words after it.
fn put_next<'a>(
    sheet: &mut Sheet,
    name: &str,
    words: &'a str,
    quoted: bool,
) -> Result<&'a str, AllocError>
    ensures written { OnOk result (sheet.new ≡ sheet.old ++ codes ", " ++ spec.member name.now (first_word_of words.now) quoted) }
    ensures rest { IfOk result (λ rest. rest.now ≡ more_words words.now) }
{
    let (word, rest) = first_word(words);
    sheet.word(", ")?;
    put_member(sheet, name, word, quoted)?;
    Ok(rest)
}

/// Writes what these words say of an event.
fn put_event(sheet: &mut Sheet, words: &str) -> Result<(), AllocError>
    ensures { OnOk result (sheet.new ≡ sheet.old ++ members event_names words.now) }
{
    let from_index = put_next(sheet, "kind", words, true)?;
    let from_value = put_next(sheet, "index", from_index, false)?;
    let from_flags = put_next(sheet, "value", from_value, false)?;
    let from_time = put_next(sheet, "flags", from_flags, true)?;
    put_next(sheet, "time", from_time, false)?;
    Ok(())
}

/// Writes what these words say of a command to a binary output.
fn put_block(sheet: &mut Sheet, words: &str) -> Result<(), AllocError>
    ensures { OnOk result (sheet.new ≡ sheet.old ++ members block_names words.now) }
{
    let from_index = put_next(sheet, "command", words, true)?;
    let from_code = put_next(sheet, "index", from_index, false)?;
    let from_count = put_next(sheet, "code", from_code, false)?;
    let from_on = put_next(sheet, "count", from_count, false)?;
    let from_off = put_next(sheet, "on_ms", from_on, false)?;
    put_next(sheet, "off_ms", from_off, false)?;
    Ok(())
}

/// Writes what these words say of a command to a setpoint.
fn put_setpoint(sheet: &mut Sheet, words: &str) -> Result<(), AllocError>
    ensures { OnOk result (sheet.new ≡ sheet.old ++ members setpoint_names words.now) }
{
    let from_index = put_next(sheet, "command", words, true)?;
    let from_value = put_next(sheet, "index", from_index, false)?;
    put_next(sheet, "value", from_value, false)?;
    Ok(())
}

/// Writes what these words say, by the first of them.
fn put_words(sheet: &mut Sheet, words: &str) -> Result<(), AllocError>
    ensures { OnOk result (sheet.new ≡ sheet.old ++ members (names_by (first_word_of words.now)) words.now) }
{
    let (word, _) = first_word(words);
    match word {
        "block" => put_block(sheet, words),
        "set16" | "set32" => put_setpoint(sheet, words),
        _ => put_event(sheet, words),
    }
}

/// Writes an event or a command of a list.
fn put_item(sheet: &mut Sheet, words: &str) -> Result<(), AllocError>
    ensures { OnOk result (sheet.new ≡ sheet.old ++ spec.item words.now) }
{
    let (substation, rest) = first_word(words);
    sheet.word("{")?;
    put_member(sheet, "substation", substation, false)?;
    put_words(sheet, rest)?;
    sheet.word("}")?;
    Ok(())
}

/// Writes the number by which something was refused, if it was.
fn put_reason(sheet: &mut Sheet, words: &str) -> Result<(), AllocError>
    ensures { OnOk result (sheet.new ≡ sheet.old ++ spec.reason words.now) }
{
    if words.is_empty() {
        return Ok(());
    }
    put_next(sheet, "reason", words, false)?;
    Ok(())
}

/// Writes how a round or a control came out.
fn put_outcome(sheet: &mut Sheet, words: &str) -> Result<(), AllocError>
    ensures { OnOk result (sheet.new ≡ sheet.old ++ spec.outcome words.now) }
{
    let (what, rest) = first_word(words);
    let (subject, came_out) = first_word(rest);
    sheet.word("{")?;
    put_member(sheet, what, subject, true)?;
    let refused = put_next(sheet, "outcome", came_out, true)?;
    put_reason(sheet, refused)?;
    sheet.word("}")?;
    Ok(())
}

/// Begins an item of a list, which is its first or isn't.
fn begin_item(sheet: &mut Sheet, first: bool) -> Result<(), AllocError>
    ensures { OnOk result (sheet.new ≡ sheet.old ++ spec.begin_item first) }
{
    sheet.word(if first { "\n    " } else { ",\n    " })
}

/// Begins a list.
fn begin_list(sheet: &mut Sheet, name: &str) -> Result<(), AllocError>
    ensures { OnOk result (sheet.new ≡ sheet.old ++ spec.begin_list name.now) }
{
    sheet.word("\"")?;
    sheet.word(name)?;
    sheet.word("\": [")
}

/// Ends a list that is empty, or isn't.
fn end_list(sheet: &mut Sheet, empty: bool) -> Result<(), AllocError>
    ensures { OnOk result (sheet.new ≡ sheet.old ++ spec.end_list empty) }
{
    sheet.word(if empty { "],\n  " } else { "\n  ],\n  " })
}

/// Writes a line of this kind, after a list that is empty so far or isn't.
fn put_line(sheet: &mut Sheet, kind: Kind, empty: bool, line: &str) -> Result<(), AllocError>
    ensures { OnOk result (sheet.new ≡ sheet.old ++ line_json kind empty line.now) }
{
    let (word, rest) = first_word(line);
    match kind {
        Kind::Item => {
            begin_item(sheet, empty)?;
            put_item(sheet, rest)
        }
        Kind::Outcome => {
            begin_item(sheet, empty)?;
            put_outcome(sheet, line)
        }
        Kind::Lost => {
            end_list(sheet, empty)?;
            put_member(sheet, "lost", rest, false)
        }
        Kind::Lost2 => {
            sheet.word(",\n  ")?;
            put_member(sheet, "lost2", rest, false)
        }
        Kind::List => {
            end_list(sheet, empty)?;
            begin_list(sheet, word)
        }
    }
}

/// What a script that ran to its report printed, as one object of JSON: first the list `outcomes` of its rounds and
/// controls, and then the report's lists by their names, and `lost` and `lost2`.
///
/// An error says that memory ran out.
pub fn report_json(alloc: Global, text: &str) -> Result<Vec<u8>, AllocError>
    ensures { IfOk result (λ json. IsReportJson text.now json.items) }
{
    let mut sheet = Sheet::new(alloc);
    sheet.word("{\n  ")?;
    begin_list(&mut sheet, "outcomes")?;
    let mut empty = true;
    let mut rest = text;
    'lines: while !rest.is_empty() {
        let (line, below) = first_line(rest);
        let kind = kind_of(first_word(line).0);
        put_line(&mut sheet, kind, empty, line)?;
        empty = is_empty_after(kind, empty);
        rest = below;
    }
    sheet.word("\n}\n")?;
    Ok(sheet.into_octets())
}
