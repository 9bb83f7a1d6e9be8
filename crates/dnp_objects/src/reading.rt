//! Rows from the octets of objects.
ghost use Rattle.std.specs.Prelude.{◌≡◌, ◌≤◌, IfOk, IfErr, length};
ghost use Rattle.byteorder.specs.Endian.{little_number};
ghost use Rattle.dnp_objects.specs.declared.row.Row.{Row as RowValue};
ghost use Rattle.dnp_objects.specs.declared.fault.ObjectFault.{ObjectFault as FaultValue};
ghost use Rattle.dnp_objects.specs.Objects.{IsShape, shape_size};
ghost use Rattle.dnp_objects.specs.Faults.{IsFirst};
ghost use Rattle.dnp_objects.specs.Rows.{Reads, IsReadFault};
ghost use Rattle.dnp_objects.specs.Parts as parts;

use crate::fault::ObjectFault;
use crate::row::{Kind, Row};
use crate::table::{Shape, row_shape};
use byteorder::{ByteOrder, LittleEndian};

/// The flags in a flags octet: all of it but for a binary, whose bit 7 is its value.
#[inline]
fn flags_of(kind: Kind, first: u8) -> u8
    ensures { result ≡ parts.flags_of kind first }
{
    match kind {
        Kind::Binary => first % 128,
        Kind::Counter | Kind::Analog => first,
    }
}

/// The value in the flags octet of a binary, or in the octets that begin `number`.
#[inline]
fn value_of(shape: Shape, first: u8, number: &[u8]) -> i64
    requires shape { IsShape shape }
    requires room { shape.width ≤ length number.now }
    ensures { result ≡ parts.value_of shape.kind shape.width first (little_number shape.width number.now) }
{
    match (shape.kind, shape.width) {
        (Kind::Binary, _) => i64::from(first / 128),
        (Kind::Counter, 2) => i64::from(LittleEndian::read_u16(number)),
        (Kind::Counter, _) => i64::from(LittleEndian::read_u32(number)),
        (Kind::Analog, 2) => LittleEndian::read_int(number, 2),
        (Kind::Analog, _) => LittleEndian::read_int(number, 4),
    }
}

/// The time after the value, if the object has one.
#[inline]
fn time_of(shape: Shape, octets: &[u8]) -> Option<u64>
    requires shape { IsShape shape }
    requires size { length octets.now ≡ shape_size shape }
    ensures { result ≡ parts.time_of shape octets.now }
{
    if shape.time {
        let behind = &octets[usize::from(shape.flags) + usize::from(shape.width)..];
        Some(LittleEndian::read_u48(behind))
    } else {
        None
    }
}

/// The parts of a row from the octets of an object of this shape.
#[inline]
fn parts_of(shape: Shape, index: u16, octets: &[u8]) -> Row
    requires shape { IsShape shape }
    requires size { length octets.now ≡ shape_size shape }
    ensures { result ≡ parts.row_of shape index octets.now }
{
    let first = if shape.flags { octets[0] } else { 1 };
    let number = &octets[usize::from(shape.flags)..];
    Row {
        kind: shape.kind,
        index,
        flags: flags_of(shape.kind, first),
        value: value_of(shape, first, number),
        time: time_of(shape, octets),
    }
}

impl Shape {
    ghost use Rattle.std.specs.Prelude.{◌≡◌, length};
    ghost use Rattle.dnp_objects.specs.declared.row.Row.{Row as RowValue};
    ghost use Rattle.dnp_objects.specs.Objects.{IsShape, shape_size};
    ghost use Rattle.dnp_objects.specs.Parts.{row_of};
    ghost use Rattle.dnp_objects.specs.Rows.{IsReading};

    /// The row with this index that the octets of an object of this shape are; they have to be as many
    /// as `size` says. A row from an object without a time has none, and one from an object without
    /// flags has the flags 01.
    #[inline]
    pub fn row(self, index: u16, octets: &[u8]) -> Row
        requires shape { IsShape self }
        requires size { length octets.now ≡ shape_size self }
        ensures value { result ≡ row_of self index octets.now }
        ensures found { IsReading self index octets.now result }
        ensures only { (row : RowValue) → IsReading self index octets.now row → result ≡ row }
    {
        parts_of(self, index, octets)
    }
}

/// The row, or the first cause of a refusal.
#[inline]
fn read(group: u8, variation: u8, index: u16, octets: &[u8]) -> Result<Row, ObjectFault>
    ensures found { IfOk result (Reads group variation index octets.now) }
    ensures fault { IfErr result (IsFirst (IsReadFault group variation octets.now)) }
{
    let Some(shape) = row_shape(group, variation) else {
        return Err(ObjectFault::ObjectUnknown);
    };
    if octets.len() != shape.size() {
        return Err(ObjectFault::Cut);
    }
    Ok(shape.row(index, octets))
}

/// The row with this index whose value, flags and time the octets of one object of this group and
/// variation are (IEEE Std 1815-2012, object library). A row from an object without a time has none,
/// and one from an object without flags has the flags 01.
///
/// Refused is, first of all, an object that carries no row to be read (`ObjectUnknown`; group 10 is
/// one: it is written only), and then another number of octets than the object's (`Cut`).
#[inline]
pub fn read_row(group: u8, variation: u8, index: u16, octets: &[u8]) -> Result<Row, ObjectFault>
    ensures found { IfOk result (Reads group variation index octets.now) }
    ensures only { (row : RowValue) → Reads group variation index octets.now row → result ≡ Ok row }
    ensures fault { IfErr result (IsFirst (IsReadFault group variation octets.now)) }
    ensures only_fault { (fault : FaultValue) → IsFirst (IsReadFault group variation octets.now) fault
        → result ≡ Err fault }
{
    read(group, variation, index, octets)
}
