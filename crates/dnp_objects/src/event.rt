//! Rows as events.
ghost use Rattle.std.specs.Prelude.{◌≡◌, ◌↔◌, ◌+◌, ◌≤◌, ◌++◌, IsTrue, Some, length};
ghost use Rattle.arrayvec.specs.ArrayVec.{array_vec_len};
ghost use Rattle.dnp_objects.specs.Events as spec;
ghost use Rattle.dnp_objects.specs.Objects.{IsShape, shape_written};
ghost use Rattle.dnp_objects.specs.Rows.{written};

use crate::row::{Kind, Row};
use crate::table::Shape;
use crate::writing::{append_row, row_fits};
use arrayvec::ArrayVec;

/// The group and the variation of the object that a row is reported as in an event (IEEE Std
/// 1815-2012, object library): with a time 2.2, 22.5 or 32.3, and else 2.1, 22.1 or 32.1.
pub fn event_object(row: &Row) -> (u8, u8)
    ensures { result ≡ spec.event_object row.now.kind row.now.time }
{
    match (row.kind, row.time) {
        (Kind::Binary, Some(_)) => (2, 2),
        (Kind::Binary, None) => (2, 1),
        (Kind::Counter, Some(_)) => (22, 5),
        (Kind::Counter, None) => (22, 1),
        (Kind::Analog, Some(_)) => (32, 3),
        (Kind::Analog, None) => (32, 1),
    }
}

/// How the row lies in that object.
#[inline]
#[tactic(auto, unfolding(crate::specs::Objects::content_of, crate::specs::Objects::objects))]
fn event_shape(row: &Row) -> Shape
    ensures value { shape_written (spec.event_object row.now.kind row.now.time).0 (spec.event_object row.now.kind row.now.time).1
        ≡ Some result }
    ensures sound { IsShape result }
{
    let width = match row.kind {
        Kind::Binary => 0,
        Kind::Counter | Kind::Analog => 4,
    };
    Shape {
        kind: row.kind,
        flags: true,
        width,
        time: row.time.is_some(),
    }
}

/// Whether the row can be reported as an event: a binary's value is 0 or 1 and its flags lack bit 7,
/// a counter's value has 32 bits, an analog's 32 with its sign, and a time is below 2^48 ms.
pub fn is_event(row: &Row) -> bool
    ensures { IsTrue result ↔ spec.IsEvent row.now }
{
    row_fits(event_shape(row), row)
}

/// How many octets a row has as an event, 1 to 11.
#[inline]
pub fn event_size(row: &Row) -> usize
    requires { spec.IsEvent row.now }
    ensures value { let object = spec.event_object row.now.kind row.now.time in
        result ≡ length (written object.0 object.1 row.now) }
    ensures small { result ≤ 11 }
{
    event_shape(row).size()
}

/// Appends the octets of a row as an event, as one object of the group and the variation that
/// `event_object` gives: those that `write_row` gives. `is_event` is the test of what is required, and
/// `event_size` tells how many there are.
#[inline]
pub fn append_event<const N: usize>(row: &Row, octets: &mut ArrayVec<u8, N>)
    requires fits { spec.IsEvent row.now }
    requires room { let object = spec.event_object row.now.kind row.now.time in
        array_vec_len octets.old + length (written object.0 object.1 row.now) ≤ N }
    ensures { let object = spec.event_object row.now.kind row.now.time in
        octets.new.items ≡ octets.old.items ++ written object.0 object.1 row.now }
{
    append_row(event_shape(row), row, octets);
}

/// The octets of a row as an event, as one object of the group and the variation that `event_object`
/// gives: those that `write_row` gives. `is_event` is the test of what is required.
#[inline]
pub fn event_octets(row: &Row) -> ArrayVec<u8, 11>
    requires { spec.IsEvent row.now }
    ensures { let object = spec.event_object row.now.kind row.now.time in result.items ≡ written object.0 object.1 row.now }
{
    let mut octets = ArrayVec::new();
    append_row(event_shape(row), row, &mut octets);
    octets
}
