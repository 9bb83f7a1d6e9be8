//! An object header with its objects, at the front of octets.

ghost use Rattle.std.specs.Prelude.{◌≡◌, ℕ, ◌+◌, ◌<◌, ◌≤◌, length, IfOk, IfSome, OnOk};
ghost use Rattle.byteorder.specs.Endian.{little_number};
ghost use Rattle.dnp_standard.specs.Headers as spec;
ghost use Rattle.dnp_standard.specs.Qualifiers.{width_of};

use crate::fault::Fault;
use crate::function::Carried;
use crate::object::{Object, Size, object_of};
use crate::qualifier::{Form, Qualifier, Width, qualifier_of};
use byteorder::{ByteOrder, LittleEndian};

/// The octets before a range: the group, the variation and the qualifier.
const BEFORE_RANGE: usize = 3;

/// The group of times, and the one of authentication.
const TIMES: u8 = 50;

const AUTHENTICATION: u8 = 120;

/// An object header with its objects, as it stands in octets.
#[derive(Clone, Copy)]
pub struct Block {
    /// The object that the header names.
    pub object: Object,
    /// The qualifier.
    pub qualifier: Qualifier,
    /// The number of the first object of a span; 0 where it is none.
    pub first: u64,
    /// How many objects the range says; 0 of all.
    pub count: u64,
    /// How many octets the header has.
    pub begin: usize,
    /// How many octets the objects after it have.
    pub size: usize,
    /// Whether objects stand there, and not their indexes alone.
    pub follows: bool,
}

/// The number in so many octets at the front.
pub(crate) fn number_in(octets: &[u8], width: Width) -> u64
    requires { width_of width ≤ length octets.now }
    ensures value { result ≡ little_number (width_of width) octets.now }
    ensures small { result < 0x1_0000_0000 }
{
    match width {
        Width::Zero => 0,
        Width::One => u64::from(octets[0]),
        Width::Two => u64::from(LittleEndian::read_u16(octets)),
        Width::Four => u64::from(LittleEndian::read_u32(octets)),
    }
}

/// How many octets a header with this qualifier has.
fn head_size(qualifier: Qualifier) -> usize
    ensures value { result ≡ spec.head_size qualifier }
    ensures some { 3 ≤ result }
    ensures few { result ≤ 11 }
{
    let width = qualifier.width.octets();
    match qualifier.form {
        Form::All => BEFORE_RANGE,
        Form::Count => BEFORE_RANGE + width,
        Form::Span => BEFORE_RANGE + width + width,
    }
}

/// The first object of a span, and how many there are. None where the last one is before the first.
fn span_of(first: u64, last: u64) -> Option<(u64, u64)>
    requires { last < 0x1_0000_0000 }
    ensures value { result ≡ spec.span_of first last }
    ensures small { IfSome result (λ range. range.1 ≤ 0x1_0000_0000) }
{
    if last < first {
        return None;
    }
    Some((first, last + 1 - first))
}

/// The number of the first object, and how many there are, by the range of a header. None where the last one is before the first.
fn range_in(octets: &[u8], qualifier: Qualifier) -> Option<(u64, u64)>
    requires { spec.head_size qualifier ≤ length octets.now }
    ensures value { result ≡ spec.range_in qualifier octets.now }
    ensures small { IfSome result (λ range. range.1 ≤ 0x1_0000_0000) }
{
    let width = qualifier.width;
    match qualifier.form {
        Form::All => Some((0, 0)),
        Form::Count => Some((0, number_in(&octets[BEFORE_RANGE..], width))),
        Form::Span => {
            let first = number_in(&octets[BEFORE_RANGE..], width);
            let last = number_in(&octets[BEFORE_RANGE + width.octets()..], width);
            span_of(first, last)
        }
    }
}

/// Whether objects of a group stand behind headers.
fn follow(carried: Carried, group: u8) -> bool
    ensures { result ≡ spec.follow carried group }
{
    match carried {
        Carried::Objects => true,
        Carried::Times => group == TIMES || group == AUTHENTICATION,
        Carried::Headers => group == AUTHENTICATION,
    }
}

/// How many octets so many objects have, each after an index in so many octets. None where that isn't fixed.
fn fixed_octets(size: Size, index: Width, count: u64) -> Option<u64>
    requires { count ≤ 0x1_0000_0000 }
    ensures { result ≡ spec.fixed_octets size index count }
{
    match (size, index) {
        (Size::Bit, Width::Zero) => Some((count + 7) / 8),
        (Size::BitPair, Width::Zero) => Some((count * 2 + 7) / 8),
        (Size::Octets(octets), _) => Some(count * (index.octets() as u64 + u64::from(octets))),
        _ => None,
    }
}

/// How many octets of objects a header announces. None where that isn't fixed.
fn announced(carried: Carried, object: Object, index: Width, count: u64) -> Option<u64>
    requires { count ≤ 0x1_0000_0000 }
    ensures { result ≡ spec.announced carried object index count }
{
    if count == 0 {
        return Some(0);
    }
    if follow(carried, object.group) {
        fixed_octets(object.size, index, count)
    } else {
        Some(count * index.octets() as u64)
    }
}

/// The octets of an object at the front and of its size before it. None where it isn't whole.
pub(crate) fn sized_object(octets: &[u8], width: Width) -> Option<usize>
    ensures value { result ≡ spec.sized_object width octets.now }
    ensures within { IfSome result (λ size. size ≤ length octets.now) }
{
    let before = width.octets();
    if octets.len() < before {
        return None;
    }
    let size = before + number_in(octets, width) as usize;
    if octets.len() < size {
        return None;
    }
    Some(size)
}

/// The octets of so many objects, each after its size. None where they aren't whole.
#[tactic(auto, using(crate::proofs::Sizes::sized_more, crate::proofs::Sizes::sized_cut, crate::proofs::Sizes::sized_end))]
fn sized_octets(octets: &[u8], count: u64, width: Width) -> Option<usize>
    ensures value { result ≡ spec.sized_octets width count octets.now }
    ensures within { IfSome result (λ size. size ≤ length octets.now) }
{
    let mut place: usize = 0;
    for _done in 0..count {
        place += sized_object(&octets[place..], width)?;
    }
    Some(place)
}

/// The octets of the objects after a header of which this follows, or why they can't be told.
fn objects_in(
    octets: &[u8],
    carried: Carried,
    object: Object,
    qualifier: Qualifier,
    count: u64,
) -> Result<usize, Fault>
    requires { count ≤ 0x1_0000_0000 }
    ensures value { result ≡ spec.objects_in carried object qualifier count octets.now }
    ensures within { IfOk result (λ size. size ≤ length octets.now) }
{
    let Width::Zero = qualifier.size else {
        return match sized_octets(octets, count, qualifier.size) {
            Some(size) => Ok(size),
            None => Err(Fault::ObjectsCut),
        };
    };
    match announced(carried, object, qualifier.index, count) {
        None => Err(Fault::SizeUnknown),
        Some(size) if octets.len() as u64 >= size => Ok(size as usize),
        Some(_) => Err(Fault::ObjectsCut),
    }
}

/// The header at the front of octets with its objects, or why there is none.
pub fn block_at(carried: Carried, octets: &[u8]) -> Result<Block, Fault>
    ensures value { result ≡ spec.block_at carried octets.now }
    ensures some { IfOk result (λ block. 3 ≤ block.begin) }
    ensures within { IfOk result (λ block. block.begin + block.size ≤ length octets.now) }
{
    if octets.len() < BEFORE_RANGE {
        return Err(Fault::HeaderCut);
    }
    let Some(object) = object_of(octets[0], octets[1]) else {
        return Err(Fault::ObjectUnknown);
    };
    let Some(qualifier) = qualifier_of(octets[2]) else {
        return Err(Fault::QualifierUnknown);
    };
    let begin = head_size(qualifier);
    if octets.len() < begin {
        return Err(Fault::HeaderCut);
    }
    let Some((first, count)) = range_in(octets, qualifier) else {
        return Err(Fault::RangeBackward);
    };
    match objects_in(&octets[begin..], carried, object, qualifier, count) {
        Ok(size) => Ok(Block {
            object,
            qualifier,
            first,
            count,
            begin,
            size,
            follows: follow(carried, object.group),
        }),
        Err(fault) => Err(fault),
    }
}
