//! What is printed, with where it was read.

ghost use Rattle.std.specs.Prelude.{◌≡◌, ℕ, ◌≤◌, ◌++◌, ◌==◌, if◌then◌else◌, List, [], length, drop, IfOk, OnOk, IsPermutation};
ghost use Rattle.std.specs.List.Sorted.{IsNonDecreasingBy};
ghost use Rattle.dnp_decode.specs.StreamLines.{AreLines};
ghost use Rattle.dnp_captures.specs.Items.{octets_told, placed_from, brought_by, marked_from, some_frame};

use crate::refused::{Decoded, push_refused};
use dnp_decode::{Line, decode};
use std::alloc::{AllocError, Global};

/// The octets of the header of a frame with its check word.
const CHECKED_HEADER: usize = 10;

/// The octets of a block of user data, and of its check word.
const BLOCK: usize = 16;

const CHECK: usize = 2;

/// One line of the output.
#[derive(Clone, Copy)]
pub enum What {
    /// What was decoded.
    Line(Line),
    /// A line of the input that is no hexadecimal octets: the column, from 1, where it stops being that.
    Text(usize),
    /// A packet of a capture that ends too early.
    Packet,
}

/// One line of the output, with the line, the packet or the place of the input that it is of.
#[derive(Clone, Copy)]
pub struct Item {
    /// The line or the packet, from 1, or the place of an octet, from 0.
    pub at: u64,
    /// What it says.
    pub what: What,
}

/// From an octet of a stream on, all octets are of this line or packet, until the next mark.
#[derive(Clone, Copy)]
pub(crate) struct Mark {
    /// The octet's place in the stream.
    pub place: usize,
    /// The line or the packet, from 1.
    pub at: u64,
}

/// How many octets of the stream a line is the first of: none where it tells more of octets that had one.
pub(crate) fn octets_of(line: &Line) -> usize
    ensures { result ≡ octets_told line.now }
{
    match *line {
        Line::Noise { octets, .. } | Line::Cut(octets) | Line::FrameRefused { octets, .. } =>
            octets,
        Line::Frame { octets, .. } => octets
            .saturating_add(octets.div_ceil(BLOCK).saturating_mul(CHECK))
            .saturating_add(CHECKED_HEADER),
        _ => 0,
    }
}

/// Where a line is after so many octets and a line at that place: at its first octet, if it is the first to tell of any.
fn place_of(line: &Line, place: usize, next: usize) -> usize
    ensures { result ≡ (if octets_told line.now == 0 then place else next) }
{
    if octets_of(line) == 0 { place } else { next }
}

/// The items of lines whose octets are told by their place.
#[tactic(auto, using(crate::proofs::Marks::placed_more, crate::proofs::Marks::placed_end))]
fn place_lines(alloc: Global, lines: &[Line]) -> Result<Vec<Item>, AllocError>
    ensures { IfOk result (λ items. items.items ≡ placed_from 0 0 lines.now) }
{
    let mut items = Vec::new(alloc);
    let mut place: usize = 0;
    let mut next: usize = 0;
    for line in lines {
        place = place_of(line, place, next);
        next = next.saturating_add(octets_of(line));
        items.push(Item {
            at: place as u64,
            what: What::Line(*line),
        })?;
    }
    Ok(items)
}

/// The items of a stream whose octets are told by their place. An error says that memory ran out.
pub fn place_octets(alloc: Global, octets: &[u8]) -> Result<Vec<Item>, AllocError>
    ensures { IfOk result (λ items. (lines : List Line) × AreLines [] octets.now lines × (items.items ≡ placed_from 0 0 lines)) }
{
    let lines = decode(alloc, octets)?;
    let items = place_lines(alloc, lines.as_slice())?;
    Ok(items)
}

/// How many marks are passed, and what the last of them is of, after so many octets of the stream, where so many are passed and
/// that was the last one.
#[tactic(auto, using(crate::proofs::Marks::mark_passed, crate::proofs::Marks::mark_waits, crate::proofs::Marks::no_mark))]
fn pass(marks: &[Mark], passed: usize, at: u64, octets: usize) -> (usize, u64)
    requires { passed ≤ length marks.now }
    ensures within { result.0 ≤ length marks.now }
    ensures brought { result.1 ≡ brought_by at octets (drop passed marks.now) }
    ensures onward { (n : ℕ) → octets ≤ n → brought_by result.1 n (drop result.0 marks.now) ≡ brought_by at n (drop passed marks.now) }
{
    let mut index = passed;
    let mut last = at;
    'marks: while index < marks.len() && marks[index].place < octets {
        last = marks[index].at;
        index += 1;
    }
    (index, last)
}

/// Whether a frame began in the stream, read or refused.
#[tactic(auto, using(crate::proofs::Marks::frame_here, crate::proofs::Marks::frame_later, crate::proofs::Marks::no_frame))]
fn has_frame(lines: &[Line]) -> bool
    ensures { result ≡ some_frame lines.now }
{
    for line in lines {
        if let Line::Frame { .. } | Line::FrameRefused { .. } = line {
            return true;
        }
    }
    false
}

/// Appends the items of lines: each is of the mark of the last octet that is told of up to it.
#[tactic(auto, using(crate::proofs::Marks::marked_more, crate::proofs::Marks::marked_end))]
fn push_lines(lines: &[Line], marks: &[Mark], items: &mut Vec<Item>) -> Result<(), AllocError>
    ensures { OnOk result (items.new.items ≡ items.old.items ++ marked_from marks.now 0 lines.now) }
{
    let mut at: u64 = 0;
    let mut next: usize = 0;
    let mut passed: usize = 0;
    for line in lines {
        next = next.saturating_add(octets_of(line));
        // (up to the last octet of this frame)
        (passed, at) = pass(marks, passed, at, next);
        items.push(Item {
            at,
            what: What::Line(*line),
        })?;
    }
    Ok(())
}

/// Appends what a stream has in which a frame begins: items of a frame are of the mark of its last octet.
pub(crate) fn push_stream(
    alloc: Global,
    octets: &[u8],
    marks: &[Mark],
    decoded: &mut Decoded,
) -> Result<(), AllocError> {
    let lines = decode(alloc, octets)?;
    if !has_frame(lines.as_slice()) {
        return Ok(());
    }
    let mut items = Vec::new(alloc);
    push_lines(lines.as_slice(), marks, &mut items)?;
    push_refused(alloc, octets, items.as_slice(), &mut decoded.fragments)?;
    decoded.items.extend_from_slice(items.as_slice())
}

/// The items of a stream and those that are there already, in the order of their lines.
pub(crate) fn items_of_octets(
    alloc: Global,
    octets: &[u8],
    marks: &[Mark],
    mut items: Vec<Item>,
) -> Result<Vec<Item>, AllocError>
    ensures { IfOk result (λ all. (lines : List Line) × AreLines [] octets.now lines × IsPermutation (items.items ++ marked_from marks.now 0 lines) all.items × IsNonDecreasingBy (λ item. item.at) all.items) }
{
    let lines = decode(alloc, octets)?;
    push_lines(lines.as_slice(), marks, &mut items)?;
    items.sort_by_key(|item| item.at)?;
    Ok(items)
}
