//! Binary events whose times are given after a common time.
ghost use Rattle.std.specs.Prelude.{◌≡◌, ◌↔◌, ◌+◌, ◌≤◌, ◌++◌, IfOk, IfErr, IsTrue, List, length, ℕ, ◌/◌, ◌%◌, pos, Some};
ghost use Rattle.std.specs.Result.{IsOkAnd};
ghost use Rattle.dnp_objects.specs.declared.row.Row.{Row as RowValue};
ghost use Rattle.dnp_objects.specs.declared.fault.ObjectFault.{ObjectFault as FaultValue};
ghost use Rattle.dnp_objects.specs.Faults.{IsFirst};
ghost use Rattle.arrayvec.specs.ArrayVec.{array_vec_len};
ghost use Rattle.dnp_objects.specs.Relative as spec;

use crate::fault::ObjectFault;
use crate::limits::{MAX_RELATIVE, MAX_TIME};
use crate::row::{Kind, Row};
use crate::table::Shape;
use crate::writing::{fits_object, flags_octet, push_number};
use arrayvec::ArrayVec;

/// Whether the row can be written as an object 2.3 after this common time (IEEE Std 1815-2012, object
/// library): it is a binary that 2.2 can carry, and its time is the common one or at most 65,535 ms after it.
pub fn fits_relative(row: &Row, common: u64) -> bool
    ensures { IsTrue result ↔ spec.FitsRelative common row.now }
{
    match row.time {
        Some(time) => common <= time && time - common <= MAX_RELATIVE && fits_object(2, 2, row),
        None => false,
    }
}

/// The binary of this flags octet and this time.
#[inline]
fn binary(index: u16, first: u8, time: u64) -> Row
    ensures { result ≡ record { kind = Kind.Binary; index = index; flags = first % 128; value = pos (first / 128); time = Some time } }
{
    Row {
        kind: Kind::Binary,
        index,
        flags: first % 128,
        value: i64::from(first / 128),
        time: Some(time),
    }
}

/// The row, or the first cause of a refusal.
#[inline]
fn read(index: u16, octets: &[u8], common: u64) -> Result<Row, ObjectFault>
    ensures found { IfOk result (spec.IsRelative index octets.now common) }
    ensures fault { IfErr result (IsFirst (spec.IsRelativeReadFault octets.now common)) }
{
    let [first, low, high] = octets else {
        return Err(ObjectFault::Cut);
    };
    let after = u64::from(u16::from_le_bytes([*low, *high]));
    if common >= MAX_TIME || common + after >= MAX_TIME {
        return Err(ObjectFault::ValueRange);
    }
    Ok(binary(index, *first, common + after))
}

/// The row with this index that the octets of an object 2.3 are after this common time (IEEE Std
/// 1815-2012, object library).
///
/// Refused is, first of all, another number of octets than three (`Cut`), and then a time of 2^48 ms or more
/// (`ValueRange`).
#[inline]
pub fn read_relative(index: u16, octets: &[u8], common: u64) -> Result<Row, ObjectFault>
    ensures found { IfOk result (spec.IsRelative index octets.now common) }
    ensures only { (row : RowValue) → spec.IsRelative index octets.now common row → result ≡ Ok row }
    ensures fault { IfErr result (IsFirst (spec.IsRelativeReadFault octets.now common)) }
    ensures only_fault { (fault : FaultValue) → IsFirst (spec.IsRelativeReadFault octets.now common) fault
        → result ≡ Err fault }
{
    read(index, octets, common)
}

/// How the row lies whose time stands whole, 2.2.
const WHOLE: Shape = Shape {
    kind: Kind::Binary,
    flags: true,
    width: 0,
    time: true,
};

/// Appends the octets of the row as an object 2.3 after this common time, as `write_relative` gives them.
/// `fits_relative` is the test of what is required.
#[inline]
#[tactic(auto, unfolding(crate::specs::Objects::content_of, crate::specs::Objects::objects))]
pub fn append_relative<const N: usize>(row: &Row, common: u64, octets: &mut ArrayVec<u8, N>)
    requires fits { spec.FitsRelative common row.now }
    requires room { array_vec_len octets.old + 3 ≤ N }
    ensures { octets.new.items ≡ octets.old.items ++ spec.relative_octets common row.now }
{
    octets.push(flags_octet(WHOLE, row));
    if let Some(time) = row.time {
        push_number(octets, time - common, 2);
    }
}

/// The octets of the row as an object 2.3 after this common time (IEEE Std 1815-2012, object library): its
/// flags, and how many milliseconds it came after that time. Its index stands elsewhere.
///
/// A row that does not fit is refused (`ValueRange`): `fits_relative` is the test.
pub fn write_relative(row: &Row, common: u64) -> Result<ArrayVec<u8, 3>, ObjectFault>
    ensures found { IfOk result (λ written. spec.IsRelative row.now.index written.items common row.now) }
    ensures only { (octets : List ℕ) → spec.IsRelative row.now.index octets common row.now
        → IsOkAnd result (λ written. written.items ≡ octets) }
    ensures fault { IfErr result (IsFirst (spec.IsRelativeWriteFault row.now common)) }
    ensures only_fault { (fault : FaultValue) → IsFirst (spec.IsRelativeWriteFault row.now common) fault
        → result ≡ Err fault }
{
    if !fits_relative(row, common) {
        return Err(ObjectFault::ValueRange);
    }
    let mut octets = ArrayVec::new();
    append_relative(row, common, &mut octets);
    Ok(octets)
}
