//! The octets of objects from rows.
ghost use Rattle.std.specs.Prelude.{◌≡◌, ◌↔◌, ◌+◌, ◌≤◌, ◌++◌, IfOk, IfErr, IsTrue, List, length, ℕ};
ghost use Rattle.std.specs.Option.{IsSomeAnd};
ghost use Rattle.std.specs.Result.{IsOkAnd};
ghost use Rattle.arrayvec.specs.ArrayVec.{array_vec_len};
ghost use Rattle.byteorder.specs.Endian.{little_bytes};
ghost use Rattle.dnp_objects.specs.declared.fault.ObjectFault.{ObjectFault as FaultValue};
ghost use Rattle.dnp_objects.specs.Objects.{IsNumber, IsShape, shape_size};
ghost use Rattle.dnp_objects.specs.Faults.{IsFirst};
ghost use Rattle.dnp_objects.specs.Rows as spec;

use crate::fault::ObjectFault;
use crate::limits::MAX_TIME;
use crate::row::{Kind, Row};
use crate::table::{Shape, written_shape};
use arrayvec::ArrayVec;

/// Whether the value is one of this kind, in so many octets.
fn value_fits(shape: Shape, value: i64) -> bool
    requires { IsShape shape }
    ensures { result ≡ spec.value_fits shape.kind shape.width value }
{
    match (shape.kind, shape.width) {
        (Kind::Binary, _) => value == 0 || value == 1,
        (Kind::Counter, 2) => 0 <= value && value < 0x1_0000,
        (Kind::Counter, _) => 0 <= value && value < 0x1_0000_0000,
        (Kind::Analog, 2) => -0x8000 <= value && value < 0x8000,
        (Kind::Analog, _) => -0x8000_0000 <= value && value < 0x8000_0000,
    }
}

/// Whether the flags stand in an object of this shape.
fn flags_fit(shape: Shape, flags: u8) -> bool
    ensures { result ≡ spec.flags_fit shape.kind shape.flags flags }
{
    match shape.kind {
        Kind::Binary => flags < 128,
        Kind::Counter | Kind::Analog => shape.flags || flags == 1,
    }
}

/// Whether the time is there and in range, where the object has one.
fn time_fits(shape: Shape, time: Option<u64>) -> bool
    ensures { result ≡ spec.time_fits shape.time time }
{
    match time {
        None => !shape.time,
        Some(time) => !shape.time || time < MAX_TIME,
    }
}

/// Whether the row can stand in an object of this shape.
pub(crate) fn row_fits(shape: Shape, row: &Row) -> bool
    requires { IsShape shape }
    ensures { result ≡ spec.row_fits shape row.now }
{
    row.kind == shape.kind
        && value_fits(shape, row.value)
        && flags_fit(shape, row.flags)
        && time_fits(shape, row.time)
}

/// Appends the lowest octets of the number, the lowest first. It stands in its callers, where the width
/// is a constant.
#[inline(always)]
pub(crate) fn push_number<const N: usize>(octets: &mut ArrayVec<u8, N>, number: u64, width: usize)
    requires width { width ≤ 8 }
    requires room { array_vec_len octets.old + width ≤ N }
    ensures items { octets.new.items ≡ octets.old.items ++ little_bytes width number }
    ensures len { array_vec_len octets.new ≡ array_vec_len octets.old + width }
{
    octets
        .try_extend_from_slice(&number.to_le_bytes()[..width])
        .unwrap()
}

/// The flags octet: a binary's value is its bit 7.
pub(crate) fn flags_octet(shape: Shape, row: &Row) -> u8
    requires value { IsTrue (spec.value_fits shape.kind shape.width row.now.value) }
    requires flags { IsTrue (spec.flags_fit shape.kind shape.flags row.now.flags) }
    ensures { result ≡ spec.flags_octet shape.kind row.now.flags row.now.value }
{
    match shape.kind {
        Kind::Binary => row.flags + 128 * row.value as u8,
        Kind::Counter | Kind::Analog => row.flags,
    }
}

/// Appends the octets of a row that fits, of which there are `shape.size()`.
#[inline]
pub(crate) fn append_row<const N: usize>(shape: Shape, row: &Row, octets: &mut ArrayVec<u8, N>)
    requires shape { IsShape shape }
    requires fits { IsTrue (spec.row_fits shape row.now) }
    requires room { array_vec_len octets.old + shape_size shape ≤ N }
    ensures { octets.new.items ≡ octets.old.items ++ spec.row_octets shape row.now }
{
    if shape.flags {
        octets.push(flags_octet(shape, row));
    }
    let value = row.value.cast_unsigned();
    match shape.width {
        0 => {}
        2 => push_number(octets, value, 2),
        _ => push_number(octets, value, 4),
    }
    if shape.time
        && let Some(time) = row.time
    {
        push_number(octets, time, 6);
    }
}

/// The octets of a row that fits.
#[inline]
fn octets_of(shape: Shape, row: &Row) -> ArrayVec<u8, 11>
    requires shape { IsShape shape }
    requires fits { IsTrue (spec.row_fits shape row.now) }
    ensures { result.items ≡ spec.row_octets shape row.now }
{
    let mut octets = ArrayVec::new();
    append_row(shape, row, &mut octets);
    octets
}

/// Whether the row can be written as an object of this group and variation (IEEE Std 1815-2012,
/// object library), as `write_row` wants it.
#[inline]
pub fn fits_object(group: u8, variation: u8, row: &Row) -> bool
    ensures { IsTrue result ↔ spec.Fits group variation row.now }
{
    written_shape(group, variation).is_some_and(|shape| row_fits(shape, row))
}

/// Appends the octets of the row as one object of this group and variation (IEEE Std 1815-2012, object
/// library), as `write_row` gives them. `fits_object` is the test of what is required, and there are as
/// many octets as `object_size` says, 11 at most.
#[inline]
pub fn append_object<const N: usize>(
    group: u8,
    variation: u8,
    row: &Row,
    octets: &mut ArrayVec<u8, N>,
)
    requires fits { spec.Fits group variation row.now }
    requires room { array_vec_len octets.old + length (spec.written group variation row.now) ≤ N }
    ensures { octets.new.items ≡ octets.old.items ++ spec.written group variation row.now }
{
    append_row(written_shape(group, variation).unwrap(), row, octets);
}

/// The octets of the row as one object of this group and variation (IEEE Std 1815-2012, object
/// library), as `write_row` gives them. `fits_object` is the test of what is required.
pub fn object_octets(group: u8, variation: u8, row: &Row) -> ArrayVec<u8, 11>
    requires { spec.Fits group variation row.now }
    ensures { result.items ≡ spec.written group variation row.now }
{
    octets_of(written_shape(group, variation).unwrap(), row)
}

/// The octets, or the first cause of a refusal.
fn write(group: u8, variation: u8, row: &Row) -> Result<ArrayVec<u8, 11>, ObjectFault>
    ensures found { IfOk result (λ written. spec.Writes group variation row.now written.items) }
    ensures fault { IfErr result (IsFirst (spec.IsWriteFault group variation row.now)) }
{
    let Some(shape) = written_shape(group, variation) else {
        return Err(ObjectFault::ObjectUnknown);
    };
    if !row_fits(shape, row) {
        return Err(ObjectFault::ValueRange);
    }
    Ok(octets_of(shape, row))
}

/// The octets of the row as one object of this group and variation (IEEE Std 1815-2012, object
/// library). The row's index stands elsewhere, and its time is left out where the object has none.
///
/// Refused is, first of all, an object that carries no row (`ObjectUnknown`), and then a row that
/// does not fit (`ValueRange`): of another kind than the group's, with a value out of the object's
/// range, with flags other than 01 for an object without flags, a binary with bit 7 in its flags, or
/// without a time below 2^48 ms where the object has one.
pub fn write_row(group: u8, variation: u8, row: &Row) -> Result<ArrayVec<u8, 11>, ObjectFault>
    ensures found { IfOk result (λ written. spec.Writes group variation row.now written.items) }
    ensures only { (octets : List ℕ) → spec.Writes group variation row.now octets
        → IsOkAnd result (λ written. written.items ≡ octets) }
    ensures fault { IfErr result (IsFirst (spec.IsWriteFault group variation row.now)) }
    ensures only_fault { (fault : FaultValue) → IsFirst (spec.IsWriteFault group variation row.now) fault
        → result ≡ Err fault }
{
    write(group, variation, row)
}
