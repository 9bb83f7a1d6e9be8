//! What people call the points of a plan.

ghost use Rattle.std.specs.Prelude.{◌≡◌, IfOk, option_copied};
ghost use Rattle.csv.specs.Records.{fields_of};
ghost use Rattle.dnp_network.specs.Points as spec;

use crate::endpoint::{cut, number_from};
use crate::kind::{PointCounts, PointKind, count_of};
use crate::listed::Listed;
use crate::words::Words;
use csv::{ReaderBuilder, StringRecord};
use std::alloc::{AllocError, Global};

/// How many fields a record has.
pub(crate) const CELLS: usize = 8;

/// The most digits of a scale.
pub(crate) const MAX_DIGITS: usize = 12;

/// A point of a plan, by its index at the substation.
#[derive(Clone, Copy, Debug)]
pub struct PointId {
    /// The number of the substation.
    pub substation: usize,
    /// What it is.
    pub kind: PointKind,
    /// Its index of that kind.
    pub index: u16,
}

/// What people call a point.
#[derive(Debug, Drop)]
pub struct PointName {
    /// The point.
    pub point: PointId,
    /// Its name.
    pub name: Words,
    /// The unit of its value, or nothing.
    pub unit: Words,
    /// What its value is multiplied by, a decimal, or nothing.
    pub scale: Words,
    /// What the value 0 of a binary means, or nothing.
    pub zero: Words,
    /// What the value 1 of a binary means, or nothing.
    pub one: Words,
}

/// What is wrong with a record.
#[derive(Clone, Copy, Debug)]
pub enum RowStands {
    /// It has so many fields.
    Cells(usize),
    /// Its substation is no number from 0 to 65,535.
    Substation,
    /// Its kind is none.
    Kind,
    /// Its index is no number from 0 to 65,535.
    Index,
    /// The plan has no such point.
    NoPoint(PointId),
    /// Its name is empty.
    NoName,
    /// Its scale is no decimal.
    Scale,
    /// It has words for two states, and the point has no two.
    States,
    /// The record with this number is of the same point.
    Twice(usize),
}

/// Why records say no points.
#[derive(Clone, Copy, Debug)]
pub enum PointsFault {
    /// The head is missing.
    Head,
    /// The record with this number behind the head, from 0, is the first that is wrong.
    Row(usize, RowStands),
}

/// A field by its number; there is nothing where the record ends before it.
#[tactic(auto, unfolding(crate::specs::Points::cell))]
fn cell(row: &StringRecord, number: usize) -> &str
    ensures { result.now ≡ spec.cell number (fields_of row.now) }
{
    match row.get(number) {
        Some(text) => text,
        None => "",
    }
}

/// The whole number from 0 to 65,535 that the digits say.
#[tactic(auto, unfolding(crate::specs::Points::number_in))]
fn number_in(digits: &[u8]) -> Option<u16>
    ensures { result ≡ spec.number_in digits.now }
{
    if digits.is_empty() {
        return None;
    }
    number_from(digits)
}

/// The kind that a word names.
fn kind_named(word: &str) -> Option<PointKind>
    ensures { result ≡ spec.kind_named word.now }
{
    match word {
        "binary" => Some(PointKind::Binary),
        "counter" => Some(PointKind::Counter),
        "analog" => Some(PointKind::Analog),
        "output" => Some(PointKind::Output),
        "setpoint" => Some(PointKind::Setpoint),
        _ => None,
    }
}

/// The text without a sign in front.
fn unsigned(text: &[u8]) -> &[u8]
    ensures { result.now ≡ spec.unsigned text.now }
{
    match text {
        [b'-', more @ ..] => more,
        _ => text,
    }
}

/// Whether the text is of digits, one or more.
fn are_digits(text: &[u8]) -> bool
    ensures { result ≡ spec.are_digits text.now }
{
    if text.is_empty() {
        return false;
    }
    for octet in text {
        if !octet.is_ascii_digit() {
            return false;
        }
    }
    true
}

/// Whether the text is of at most 12 digits, and a point between two of them at most.
fn is_decimal(text: &[u8]) -> bool
    ensures { result ≡ spec.is_decimal text.now }
{
    match cut(text, b'.') {
        Some((whole, part)) => {
            are_digits(whole) && are_digits(part) && text.len() <= MAX_DIGITS + 1
        }
        None => are_digits(text) && text.len() <= MAX_DIGITS,
    }
}

/// Whether the text is a decimal of at most 12 digits, or empty.
#[tactic(auto, unfolding(crate::specs::Points::is_scale))]
fn is_scale(text: &[u8]) -> bool
    ensures { result ≡ spec.is_scale text.now }
{
    text.is_empty() || is_decimal(unsigned(text))
}

/// Whether the plan has this point.
fn has_point(counts: &[PointCounts], point: PointId) -> bool
    ensures { result ≡ spec.has_point counts.now point }
{
    usize::from(point.index) < count_of(counts, point.substation, point.kind)
}

/// Which point of the plan a record is of.
#[tactic(auto, unfolding(crate::specs::Points::id_of))]
fn id_of(counts: &[PointCounts], row: &StringRecord) -> Result<PointId, RowStands>
    ensures { result ≡ spec.id_of counts.now (fields_of row.now) }
{
    let Some(substation) = number_in(cell(row, 0).as_bytes()) else {
        return Err(RowStands::Substation);
    };
    let Some(kind) = kind_named(cell(row, 1)) else {
        return Err(RowStands::Kind);
    };
    let Some(index) = number_in(cell(row, 2).as_bytes()) else {
        return Err(RowStands::Index);
    };
    let point = PointId {
        substation: usize::from(substation),
        kind,
        index,
    };
    if has_point(counts, point) {
        Ok(point)
    } else {
        Err(RowStands::NoPoint(point))
    }
}

/// Whether points of a kind have two states.
fn has_states(kind: PointKind) -> bool
    ensures { result ≡ spec.has_states kind }
{
    match kind {
        PointKind::Binary | PointKind::Output => true,
        PointKind::Counter | PointKind::Analog | PointKind::Setpoint => false,
    }
}

/// What is wrong with the words for a point.
#[tactic(auto, unfolding(crate::specs::Points::words_fault))]
fn words_fault(kind: PointKind, row: &StringRecord) -> Option<RowStands>
    ensures { result ≡ spec.words_fault kind (fields_of row.now) }
{
    if cell(row, 3).is_empty() {
        return Some(RowStands::NoName);
    }
    if !is_scale(cell(row, 5).as_bytes()) {
        return Some(RowStands::Scale);
    }
    if has_states(kind) || (cell(row, 6).is_empty() && cell(row, 7).is_empty()) {
        None
    } else {
        Some(RowStands::States)
    }
}

/// The words of a field.
fn words_in(alloc: Global, row: &StringRecord, number: usize) -> Result<Words, AllocError>
    ensures { IfOk result (λ words. words ≡ spec.cell number (fields_of row.now)) }
{
    Words::new(alloc, cell(row, number).as_bytes())
}

/// What a record calls this point.
fn named(alloc: Global, point: PointId, row: &StringRecord) -> Result<PointName, AllocError>
    ensures { IfOk result (λ name. name ≡ spec.named point (fields_of row.now)) }
{
    Ok(PointName {
        point,
        name: words_in(alloc, row, 3)?,
        unit: words_in(alloc, row, 4)?,
        scale: words_in(alloc, row, 5)?,
        zero: words_in(alloc, row, 6)?,
        one: words_in(alloc, row, 7)?,
    })
}

/// The point of the plan that a record says, and what it calls it.
#[tactic(auto, unfolding(crate::specs::Points::point_of))]
fn point_of(
    alloc: Global,
    counts: &[PointCounts],
    row: &StringRecord,
) -> Result<Result<PointName, RowStands>, AllocError>
    ensures { IfOk result (λ point. point ≡ spec.point_of counts.now (fields_of row.now)) }
{
    if row.len() != CELLS {
        return Ok(Err(RowStands::Cells(row.len())));
    }
    let point = match id_of(counts, row) {
        Ok(point) => point,
        Err(fault) => return Ok(Err(fault)),
    };
    match words_fault(point.kind, row) {
        Some(fault) => Ok(Err(fault)),
        None => Ok(Ok(named(alloc, point, row)?)),
    }
}

/// Whether two are the same point.
fn same_id(one: PointId, other: PointId) -> bool
    ensures { result ≡ spec.same_id one other }
{
    one.substation == other.substation
        && one.kind.number() == other.kind.number()
        && one.index == other.index
}

/// The first of these points that is this one.
fn first_same(point: PointId, points: &[PointName]) -> Option<usize>
    ensures { result ≡ spec.first_same 0 point points.now }
{
    for (number, other) in points.iter().enumerate() {
        if same_id(point, other.point) {
            return Some(number);
        }
    }
    None
}

/// Puts the point that a record says behind those before it; or tells what is wrong with the record.
fn grow(
    alloc: Global,
    counts: &[PointCounts],
    all: &mut Vec<PointName>,
    row: &StringRecord,
) -> Result<Option<RowStands>, AllocError>
    ensures { IfOk result (λ wrong. spec.finished wrong all.new.items ≡ spec.grown counts.now all.old.items (fields_of row.now)) }
{
    let point = match point_of(alloc, counts, row)? {
        Ok(point) => point,
        Err(fault) => return Ok(Some(fault)),
    };
    if let Some(number) = first_same(point.point, all.as_slice()) {
        return Ok(Some(RowStands::Twice(number)));
    }
    match all.push(point) {
        Ok(()) => Ok(None),
        Err(_) => Err(AllocError),
    }
}

/// The points that the records behind the head say.
#[tactic(auto, using(crate::proofs::Lists::row_more, crate::proofs::Lists::row_wrong, crate::proofs::Lists::rows_all))]
fn points_from(
    alloc: Global,
    counts: &[PointCounts],
    rows: &[StringRecord],
) -> Result<Result<Listed<PointName>, PointsFault>, AllocError>
    ensures { IfOk result (λ points. points ≡ spec.points_said counts.now rows.now) }
{
    let mut all = Vec::new(alloc);
    for (number, row) in rows.iter().enumerate() {
        if let Some(fault) = grow(alloc, counts, &mut all, row)? {
            return Ok(Err(PointsFault::Row(number, fault)));
        }
    }
    Ok(Ok(Listed::new(all)))
}

/// Whether the fields by which a record names its point have the words of the head.
fn heads_the_point(row: &StringRecord) -> bool
    ensures { result ≡ spec.heads_the_point (fields_of row.now) }
{
    cell(row, 0) == "substation"
        && cell(row, 1) == "kind"
        && cell(row, 2) == "index"
        && cell(row, 3) == "name"
}

/// Whether the fields behind them have the words of the head.
fn heads_the_rest(row: &StringRecord) -> bool
    ensures { result ≡ spec.heads_the_rest (fields_of row.now) }
{
    cell(row, 4) == "unit"
        && cell(row, 5) == "scale"
        && cell(row, 6) == "zero"
        && cell(row, 7) == "one"
}

/// Whether a record is the head.
#[tactic(auto, unfolding(crate::specs::Points::is_head))]
fn is_head(row: &StringRecord) -> bool
    ensures { result ≡ spec.is_head (fields_of row.now) }
{
    row.len() == CELLS && heads_the_point(row) && heads_the_rest(row)
}

/// What people call the points of a plan whose substations have so many, by the records of a table, of which the first is the head
/// `substation,kind,index,name,unit,scale,zero,one`. A record is of a point that the plan has, and no two are of the same.
///
/// # Errors
///
/// The inner one is the first record that is wrong; the outer one says that memory ran out.
#[tactic(auto, unfolding(crate::specs::Points::points_of))]
pub fn points_in(
    alloc: Global,
    counts: &[PointCounts],
    rows: &[StringRecord],
) -> Result<Result<Listed<PointName>, PointsFault>, AllocError>
    ensures { IfOk result (λ points. points ≡ spec.points_of counts.now rows.now) }
{
    match rows {
        [head, rest @ ..] if is_head(head) => points_from(alloc, counts, rest),
        _ => Ok(Err(PointsFault::Head)),
    }
}

/// The records of a text (RFC 4180), which may have any number of fields each.
pub fn records_of(alloc: Global, text: &str) -> Result<Vec<StringRecord>, AllocError> {
    let mut reader = ReaderBuilder::new()
        .has_headers(false)
        .flexible(true)
        .from_reader(alloc, text.as_bytes());
    let mut rows = Vec::new(alloc);
    for row in reader.records() {
        let Ok(row) = row else {
            return Err(AllocError);
        };
        let Ok(()) = rows.push(row) else {
            return Err(AllocError);
        };
    }
    Ok(rows)
}

/// What people call a point, if they call it something.
#[tactic(auto, unfolding(crate::specs::Points::name_of_point))]
pub fn name_of_point(points: &[PointName], point: PointId) -> Option<&PointName>
    ensures { option_copied result ≡ spec.name_of_point points.now point }
{
    match first_same(point, points) {
        Some(number) => points.get(number),
        None => None,
    }
}
