//! The objects of the library: what each carries, and how many octets it has.
ghost use Rattle.std.specs.Prelude.{◌≡◌, ◌≤◌, IfSome, Some, is_some};
ghost use Rattle.dnp_objects.specs.Objects as spec;

use crate::row::Kind;

/// How a row lies in an object (IEEE Std 1815-2012, object library): its flags, its value, its time,
/// in this order.
#[derive(Clone, Copy, Debug, PartialEq, Eq)]
pub struct Shape {
    /// The kind of point.
    pub kind: Kind,
    /// Whether it has a flags octet.
    pub flags: bool,
    /// The octets of the value, 2 or 4. A binary has none: its value is bit 7 of the flags.
    pub width: u8,
    /// Whether it has a time, in 6 octets.
    pub time: bool,
}

/// What an object carries.
#[derive(Clone, Copy)]
pub enum Content {
    /// A row.
    Row(Shape),
    /// A row that is written and never read.
    WrittenRow(Shape),
    /// A control relay output block: control code, count, on-time, off-time, status.
    Block,
    /// A value of so many octets to set, and a status.
    Setpoint(u8),
    /// So many octets that are neither a row nor a command.
    Other(u8),
}

/// A row has a flags octet.
const FLAGGED: bool = true;
/// A row has no flags octet.
const BARE: bool = false;
/// A row has a time.
const TIMED: bool = true;
/// A row has no time.
const UNTIMED: bool = false;

/// A shape: the kind of point, the flags, the octets of the value, and the time.
macro_rules! shape {
    ($kind:ident, $flags:ident, $width:literal, $time:ident) => {
        Shape { kind: Kind::$kind, flags: $flags, width: $width, time: $time }
    };
}

/// What the object of this group and variation carries: the object library, a line for each object. It
/// stands in its callers, since each row that is read or written is looked up.
#[inline(always)]
#[tactic(auto, unfolding(crate::specs::Objects::content_of, crate::specs::Objects::objects))]
fn line_of(group: u8, variation: u8) -> Option<Content>
    ensures { result ≡ spec.content_of group variation }
{
    let content = match (group, variation) {
        (1, 2) => Content::Row(shape!(Binary, FLAGGED, 0, UNTIMED)),
        (2, 1) => Content::Row(shape!(Binary, FLAGGED, 0, UNTIMED)),
        (2, 2) => Content::Row(shape!(Binary, FLAGGED, 0, TIMED)),
        (2, 3) => Content::Other(3),
        (10, 2) => Content::WrittenRow(shape!(Binary, FLAGGED, 0, UNTIMED)),
        (12, 1) => Content::Block,
        (20, 1) => Content::Row(shape!(Counter, FLAGGED, 4, UNTIMED)),
        (20, 2) => Content::Row(shape!(Counter, FLAGGED, 2, UNTIMED)),
        (20, 5) => Content::Row(shape!(Counter, BARE, 4, UNTIMED)),
        (20, 6) => Content::Row(shape!(Counter, BARE, 2, UNTIMED)),
        (22, 1) => Content::Row(shape!(Counter, FLAGGED, 4, UNTIMED)),
        (22, 2) => Content::Row(shape!(Counter, FLAGGED, 2, UNTIMED)),
        (22, 5) => Content::Row(shape!(Counter, FLAGGED, 4, TIMED)),
        (22, 6) => Content::Row(shape!(Counter, FLAGGED, 2, TIMED)),
        (30, 1) => Content::Row(shape!(Analog, FLAGGED, 4, UNTIMED)),
        (30, 2) => Content::Row(shape!(Analog, FLAGGED, 2, UNTIMED)),
        (30, 3) => Content::Row(shape!(Analog, BARE, 4, UNTIMED)),
        (30, 4) => Content::Row(shape!(Analog, BARE, 2, UNTIMED)),
        (32, 1) => Content::Row(shape!(Analog, FLAGGED, 4, UNTIMED)),
        (32, 2) => Content::Row(shape!(Analog, FLAGGED, 2, UNTIMED)),
        (32, 3) => Content::Row(shape!(Analog, FLAGGED, 4, TIMED)),
        (32, 4) => Content::Row(shape!(Analog, FLAGGED, 2, TIMED)),
        (40, 1) => Content::Other(5),
        (40, 2) => Content::Other(3),
        (41, 1) => Content::Setpoint(4),
        (41, 2) => Content::Setpoint(2),
        (50, 1) => Content::Other(6),
        (51, 1) => Content::Other(6),
        (51, 2) => Content::Other(6),
        (52, 2) => Content::Other(2),
        (60, 1) => Content::Other(0),
        (60, 2) => Content::Other(0),
        (60, 3) => Content::Other(0),
        (60, 4) => Content::Other(0),
        _ => return None,
    };
    Some(content)
}

/// What the object of this group and variation carries.
#[inline(always)]
pub fn content_of(group: u8, variation: u8) -> Option<Content>
    ensures value { result ≡ spec.content_of group variation }
    ensures sound { IfSome result spec.IsContent }
{
    line_of(group, variation)
}

impl Shape {
    ghost use Rattle.dnp_objects.specs.Objects as spec;

    /// The octets of the whole row, 1 to 11. `row_shape` gives shapes that are an object's.
    #[inline(always)]
    pub fn size(self) -> usize
        requires { spec.IsShape self }
        ensures { result ≡ spec.shape_size self }
    {
        usize::from(self.flags) + usize::from(self.width) + if self.time { 6 } else { 0 }
    }
}

/// How the row lies that is read from an object of this group and variation (IEEE Std 1815-2012,
/// object library); `None` where no row is read from it.
#[inline(always)]
pub fn row_shape(group: u8, variation: u8) -> Option<Shape>
    ensures value { result ≡ spec.shape_read group variation }
    ensures sound { IfSome result spec.IsShape }
    // It fills the object.
    ensures size { IfSome result (λ shape. spec.object_size group variation ≡ Some (spec.shape_size shape)) }
{
    match content_of(group, variation)? {
        Content::Row(shape) => Some(shape),
        Content::WrittenRow(_) | Content::Block | Content::Setpoint(_) | Content::Other(_) => None,
    }
}

/// How the row lies that is written as an object of this group and variation; `None` where none is.
#[inline(always)]
pub(crate) fn written_shape(group: u8, variation: u8) -> Option<Shape>
    ensures value { result ≡ spec.shape_written group variation }
    ensures sound { IfSome result spec.IsShape }
{
    match content_of(group, variation)? {
        Content::Row(shape) | Content::WrittenRow(shape) => Some(shape),
        Content::Block | Content::Setpoint(_) | Content::Other(_) => None,
    }
}

/// Whether a row can be written as an object of this group and variation (IEEE Std 1815-2012, object
/// library).
#[inline(always)]
pub fn carries_row(group: u8, variation: u8) -> bool
    ensures { result ≡ is_some (spec.shape_written group variation) }
{
    written_shape(group, variation).is_some()
}

/// The octets of one object of this group and variation (IEEE Std 1815-2012, object library), 0 to
/// 11; `None` for packed bits and for what the library lacks.
#[inline(always)]
pub fn object_size(group: u8, variation: u8) -> Option<usize>
    ensures value { result ≡ spec.object_size group variation }
    ensures small { IfSome result (λ size. size ≤ 11) }
{
    let size = match content_of(group, variation)? {
        Content::Row(shape) | Content::WrittenRow(shape) => shape.size(),
        Content::Block => 11,
        Content::Setpoint(width) => usize::from(width) + 1,
        Content::Other(size) => usize::from(size),
    };
    Some(size)
}
