//! Lines of hexadecimal octets, as people have them.

ghost use Rattle.std.specs.Prelude.{◌≡◌, ℕ, ◌+◌, ◌<◌, ◌≤◌, ◌++◌, List, [], ◌∷◌, false, length, None, Some, if◌then◌else◌, IfOk, IfSome, IfNone, OnOk};
ghost use Rattle.std.specs.Char.{digit_value};
ghost use Rattle.dnp_captures.specs.Hexadecimal as spec;
ghost use Rattle.dnp_captures.specs.Hexadecimal.{AreItemsOf, is_digit, is_dumped, lines_in, mark_at, octets_after, octets_in, octets_of_lines, refusal_at, stop, stop_from};
ghost use Rattle.dnp_captures.specs.steps.Reading.{IsReadOf};

use crate::dump::{octets_from, part};
use crate::item::{Item, Mark, What, items_of_octets};
use std::alloc::{AllocError, Global};

/// As which digit a backslash counts that begins a prefix.
const ESCAPE: u8 = 16;

/// What the lines of a text have.
#[derive(Drop)]
struct Read {
    /// The octets of all lines, one after the other.
    octets: Vec<u8>,
    /// Where the octets of each line begin.
    marks: Vec<Mark>,
    /// The lines that are refused.
    items: Vec<Item>,
    /// Whether the last line is one of a dump.
    dumped: bool,
}

/// The value of a hexadecimal digit of either case.
pub(crate) fn digit_of(character: u8) -> Option<u8>
    ensures value { result ≡ (if is_digit character then Some (digit_value character) else None) }
    ensures small { IfSome result (λ value. value < 16) }
{
    match character {
        b'0'..=b'9' => Some(character - b'0'),
        b'A'..=b'F' => Some(character - b'A' + 10),
        b'a'..=b'f' => Some(character - b'a' + 10),
        _ => None,
    }
}

/// Whether the character is a blank.
pub(crate) fn is_blank(character: u8) -> bool
    ensures { result ≡ spec.is_blank character }
{
    matches!(character, b' ' | b'\t' | b'\r')
}

/// Whether the character makes a 0 before it a prefix.
fn is_x(character: u8) -> bool
    ensures { result ≡ spec.is_x character }
{
    matches!(character, b'x' | b'X')
}

/// Whether the character may stand between octets.
fn is_between(character: u8) -> bool
    ensures { result ≡ spec.is_between character }
{
    is_blank(character) || matches!(character, b',' | b'-' | b':' | b';')
}

/// Whether the character is the second of an octet's digits, after this first one, or makes a prefix of that.
fn is_second(high: u8, character: u8) -> bool
    ensures { result ≡ spec.is_second high character }
{
    digit_of(character).is_some() && high < ESCAPE
        || is_x(character) && (high == 0 || high == ESCAPE)
}

/// The column, from 1, in which a line stops being hexadecimal octets, if it does.
#[tactic(auto, using(crate::proofs::Lines::stop_between, crate::proofs::Lines::stop_first, crate::proofs::Lines::stop_escape, crate::proofs::Lines::stop_here, crate::proofs::Lines::stop_second, crate::proofs::Lines::stop_half, crate::proofs::Lines::stop_end, crate::proofs::Lines::stop_cut))]
fn wrong_column(line: &[u8]) -> Option<usize>
    ensures value { result ≡ stop_from None 1 line.now }
    ensures within { IfSome result (λ column. column ≤ length line.now + 1) }
{
    let mut high = None;
    for (place, character) in line.iter().enumerate() {
        match high {
            None if is_between(*character) => {}
            None => match digit_of(*character) {
                Some(digit) => high = Some(digit),
                None if *character == b'\\' => high = Some(ESCAPE),
                None => return Some(place + 1),
            },
            Some(first) => {
                if !is_second(first, *character) {
                    return Some(place + 1);
                }
                high = None;
            }
        }
    }
    match high {
        Some(_) => Some(line.len() + 1),
        None => None,
    }
}

/// Appends the octets of a line that has nothing else.
#[tactic(auto, using(crate::proofs::Lines::octets_other, crate::proofs::Lines::octets_first, crate::proofs::Lines::octets_second, crate::proofs::Lines::octets_prefix, crate::proofs::Lines::octets_end))]
fn push_octets(line: &[u8], octets: &mut Vec<u8>) -> Result<(), AllocError>
    ensures { OnOk result (octets.new.items ≡ octets.old.items ++ octets_after None line.now) }
{
    let mut high = None;
    for character in line {
        let Some(digit) = digit_of(*character) else {
            high = None;
            continue;
        };
        match high {
            None => high = Some(digit),
            Some(first) => {
                octets.push(first * 16 + digit)?;
                high = None;
            }
        }
    }
    Ok(())
}

/// The line at the front of a text, and what comes after its line feed, if it has one.
fn first_line(text: &[u8]) -> (&[u8], Option<&[u8]>)
    ensures more { IfSome result.1 (λ rest. (lines_in text.now ≡ result.0.now ∷ lines_in rest.now) × (length rest.now < length text.now)) }
    ensures last { IfNone result.1 (lines_in text.now ≡ result.0.now ∷ []) }
{
    for (place, character) in text.iter().enumerate() {
        if *character == b'\n' {
            return (&text[..place], Some(&text[place + 1..]));
        }
    }
    (text, None)
}

/// Reads a line of this number, after those that are read.
fn read_line(line: &[u8], at: u64, read: &mut Read) -> Result<(), AllocError>
    ensures octets { OnOk result (read.new.octets.items ≡ read.old.octets.items ++ octets_in read.old.dumped line.now) }
    ensures marks { OnOk result (read.new.marks.items ≡ read.old.marks.items ++ mark_at read.old.dumped (length read.old.octets.items) at line.now) }
    ensures refusals { OnOk result (read.new.items.items ≡ read.old.items.items ++ refusal_at at (stop read.old.dumped line.now)) }
    ensures dumped { OnOk result (read.new.dumped ≡ is_dumped line.now) }
{
    let (from, to) = part(line, read.dumped);
    let inside = &line[from..to];
    match wrong_column(inside) {
        Some(column) => read.items.push(Item {
            at,
            what: What::Text(from + column),
        })?,
        None => {
            read.marks.push(Mark {
                place: read.octets.len(),
                at,
            })?;
            push_octets(inside, &mut read.octets)?;
        }
    }
    read.dumped = octets_from(line).is_some();
    Ok(())
}

/// Reads the lines of a text. Of a line that is refused no octets are taken.
#[tactic(auto, using(crate::proofs::Lines::more_octets, crate::proofs::Lines::more_refusals, crate::proofs::Lines::more_marks, crate::proofs::Lines::last_octets, crate::proofs::Lines::last_refusals, crate::proofs::Lines::last_marks))]
fn read_lines(alloc: Global, text: &[u8]) -> Result<Read, AllocError>
    ensures { IfOk result (λ read. IsReadOf text.now read.octets.items read.marks.items read.items.items) }
{
    let mut read = Read {
        octets: Vec::new(alloc),
        marks: Vec::new(alloc),
        items: Vec::new(alloc),
        dumped: false,
    };
    let mut at: u64 = 0;
    let mut left = text;
    'lines: loop {
        let (line, after) = first_line(left);
        at += 1;
        read_line(line, at, &mut read)?;
        let Some(rest) = after else {
            break 'lines;
        };
        left = rest;
    }
    Ok(read)
}

/// The items of a text, by the lines of which they are: those of the stream that its lines are, and the lines that are refused.
/// An error says that memory ran out.
pub fn items_of_text(alloc: Global, text: &[u8]) -> Result<Vec<Item>, AllocError>
    ensures { IfOk result (λ items. AreItemsOf text.now items.items) }
{
    let read = read_lines(alloc, text)?;
    let Read {
        octets,
        marks,
        items,
        dumped: _,
    } = read;
    let all = items_of_octets(alloc, octets.as_slice(), marks.as_slice(), items)?;
    Ok(all)
}

/// The octets that the lines of a text say, one after the other: none of a line that is refused. An error says that memory ran out.
pub fn octets_of_text(alloc: Global, text: &[u8]) -> Result<Vec<u8>, AllocError>
    ensures { IfOk result (λ octets. octets.items ≡ octets_of_lines false (lines_in text.now)) }
{
    let read = read_lines(alloc, text)?;
    let Read {
        octets,
        marks: _,
        items: _,
        dumped: _,
    } = read;
    Ok(octets)
}
