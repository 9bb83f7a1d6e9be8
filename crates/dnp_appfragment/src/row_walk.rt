//! The rows of a header, one after the other.
ghost use Rattle.std.specs.Prelude.{◌≡◌, ◌≤◌, ◌<◌, true, length, IfSome};
ghost use Rattle.std.specs.Option.{option_map};
ghost use Rattle.dnp_appfragment.specs.Headers.{count_of as count, is_relative as spec_is_relative};
ghost use Rattle.dnp_appfragment.specs.Seen.{head};
ghost use Rattle.dnp_appfragment.specs.steps.Walking as spec;

use crate::common::{binary_after, common_in, is_relative};
use crate::header::{Header, Range};
use crate::objects::{bit_at, index_at};
use crate::range::count_of;
use dnp_objects::{Row, Shape, row_shape};
use std::marker::Model;

/// The rows that the objects of a header carry.
#[derive(Clone, Copy, Debug, PartialEq, Eq)]
pub enum RowForm {
    /// Packed bits, 1.1.
    Bits,
    /// A row in each object.
    Rows(Shape),
    /// A binary in each object, whose time is given after this one.
    Relative(u64),
    /// No rows that are read.
    Nothing,
}

/// The rows that a header of this object carries, where their times stand whole.
fn carried_by(group: u8, variation: u8) -> RowForm
    ensures value { result ≡ spec.carried_by group variation }
    ensures sound { spec.IsRowForm result }
{
    if group == 1 && variation == 1 {
        return RowForm::Bits;
    }
    match row_shape(group, variation) {
        Some(shape) => RowForm::Rows(shape),
        None => RowForm::Nothing,
    }
}

/// What a header carries whose times are given after its common one.
fn relative_by(header: &Header<'_>) -> RowForm
    requires some { 0 < count header.now.range }
    requires relative { spec_is_relative header.now.group header.now.variation ≡ true }
    ensures value { result ≡ spec.relative_by (head header.now) }
    ensures sound { spec.IsRowForm result }
{
    match common_in(header) {
        Some(common) => RowForm::Relative(common),
        None => RowForm::Nothing,
    }
}

/// What a header of some objects carries.
fn carried_in(header: &Header<'_>) -> RowForm
    requires some { 0 < count header.now.range }
    ensures value { result ≡ spec.carried_in (head header.now) }
    ensures sound { spec.IsRowForm result }
{
    if is_relative(header.group, header.variation) {
        relative_by(header)
    } else {
        carried_by(header.group, header.variation)
    }
}

/// Object k, of so many octets, which stands at the front: its index, its octets, and those after
/// it.
#[inline]
fn cut_at(range: Range, size: usize, k: usize, octets: &[u8]) -> Option<(u16, &[u8], &[u8])>
    requires { k < count range }
    ensures value { option_map spec.cut_of result ≡ spec.cut_at range size k octets.now }
    ensures sized { IfSome result (λ cut. length cut.1.now ≡ size) }
{
    let (index, rest) = index_at(range, k, octets)?;
    if rest.len() < size {
        return None;
    }
    Some((index, &rest[..size], &rest[size..]))
}

/// The rows of a header that are left, in order: `Header::rows` begins one. The shape of a row is
/// looked up once, and each object is cut off the front of the octets that are left.
#[derive(Debug, Drop)]
pub struct RowWalk<'a> {
    carried: RowForm,
    range: Range,
    /// The octets of the objects that are left; of packed bits those of all.
    octets: &'a [u8],
    /// How many rows were given.
    k: usize,
    /// How many more the range names.
    left: usize,
}

impl<'a> Model for RowWalk<'a> {
    ghost use Rattle.std.specs.Prelude.{List};
    ghost use Rattle.dnp_objects.specs.declared.row.Row.{Row as RowValue};
    ghost use Rattle.dnp_appfragment.specs.steps.Walking.{rows_left, IsWalk};

    ghost Value = { List RowValue };

    ghost view = { λ w. rows_left w.carried w.range w.octets.now w.k w.left };

    ghost invariant = { λ w. IsWalk w.carried w.range w.k w.left };
}

impl<'a> RowWalk<'a> {
    ghost use Rattle.std.specs.Prelude.{◌≡◌, ℕ, slice_get};
    ghost use Rattle.dnp_appfragment.specs.Meaning.{row_in};
    ghost use Rattle.dnp_appfragment.specs.Seen.{head};

    /// The rows of this header.
    #[inline(always)]
    pub(crate) fn new(header: &Header<'a>) -> RowWalk<'a>
        ensures { (k : ℕ) → slice_get result k ≡ row_in (head header.now) k }
    {
        let left = count_of(header.range);
        // (the header of a READ by class needs no look-up)
        let carried = if left == 0 {
            RowForm::Nothing
        } else {
            carried_in(header)
        };
        RowWalk {
            carried,
            range: header.range,
            octets: header.octets,
            k: 0,
            left,
        }
    }
}

impl<'a> Iterator for RowWalk<'a> {
    ghost use Rattle.std.specs.Iterator.{YieldsFirst, item_count};

    type Item = Row;

    ghost next_gives = { YieldsFirst (λ rows. rows) };

    ghost remaining = { item_count (λ rows. rows) };

    // (in each loop over rows: as a call apart it costs twice as much, and LLVM takes it for too big)
    #[inline(always)]
    fn next(&mut self) -> Option<Row> {
        if self.left == 0 {
            return None;
        }
        let row = match self.carried {
            RowForm::Rows(shape) => {
                let (index, octets, rest) = cut_at(self.range, shape.size(), self.k, self.octets)?;
                self.octets = rest;
                shape.row(index, octets)
            }
            RowForm::Relative(common) => {
                let (index, octets, rest) = cut_at(self.range, 3, self.k, self.octets)?;
                self.octets = rest;
                binary_after(index, octets, common)
            }
            RowForm::Bits => bit_at(self.range, self.octets, self.k)?,
            RowForm::Nothing => return None,
        };
        self.k += 1;
        self.left -= 1;
        Some(row)
    }
}
