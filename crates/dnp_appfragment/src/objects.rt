//! The objects of a header, one by one.
ghost use Rattle.std.specs.Prelude.{◌≡◌, ◌≤◌, ◌<◌, ◌/◌, ℕ, true, List, length, IsSome, IfSome, Some};
ghost use Rattle.std.specs.Option.{option_map, option_and_then, IsSomeAnd};
ghost use Rattle.dnp_objects.specs.Objects.{shape_read, object_size as size_of};
ghost use Rattle.dnp_objects.specs.declared.row.Row.{Row as RowValue};
ghost use Rattle.dnp_objects.specs.declared.command.Command.{Command as CommandValue};
ghost use Rattle.dnp_appfragment.specs.Headers.{head_of, count_of as count, is_relative as spec_is_relative};
ghost use Rattle.dnp_appfragment.specs.Meaning as meaning;
ghost use Rattle.dnp_appfragment.specs.Objects as spec;
ghost use Rattle.dnp_appfragment.specs.Reading as reading;
ghost use Rattle.dnp_appfragment.specs.Seen.{head, number_and_rest};

use crate::common::{binary_after, common_in, is_relative};
use crate::header::{Header, Range};
use crate::range::{count_of, prefix_size};
use crate::reading::number_at;
use dnp_objects::laws::octets_are_read_as_one_command;
use dnp_objects::{Command, Kind, Row, Status, object_size, read_command, row_shape};

/// The index of object k, and the octets after it.
#[inline]
pub(crate) fn index_at(range: Range, k: usize, octets: &[u8]) -> Option<(u16, &[u8])>
    requires { k < count range }
    ensures { option_map number_and_rest result ≡ reading.index_at range k octets.now }
{
    match range {
        Range::Span { first, .. } => Some((first + k as u16, octets)),
        Range::Indexed { wide, .. } => number_at(wide, octets).ok(),
        Range::All | Range::Count { .. } => None,
    }
}

/// The index and the octets of object k, where each has so many.
fn object_at(range: Range, octets: &[u8], size: usize, k: usize) -> Option<(u16, &[u8])>
    requires { size ≤ 11 }
    ensures value { option_map number_and_rest result ≡ reading.object_at range octets.now size k }
    ensures sized { IfSome result (λ x. length x.1.now ≡ size) }
{
    if k >= count_of(range) {
        return None;
    }
    let start = k * (prefix_size(range) + size);
    if octets.len() < start {
        return None;
    }
    let (index, rest) = index_at(range, k, &octets[start..])?;
    if rest.len() < size {
        return None;
    }
    Some((index, &rest[..size]))
}

/// Binary k of packed bits.
pub(crate) fn bit_at(range: Range, octets: &[u8], k: usize) -> Option<Row>
    ensures value { result ≡ meaning.bit_in (head_of 1 1 range octets.now) k }
    ensures found { IfSome result (spec.IsBit (head_of 1 1 range octets.now) k) }
    ensures only { (row : RowValue) → spec.IsBit (head_of 1 1 range octets.now) k row → result ≡ Some row }
    ensures there { spec.IsSpan range → k < count range → k / 8 < length octets.now → IsSome result }
{
    let Range::Span { first, .. } = range else {
        return None;
    };
    if k >= count_of(range) {
        return None;
    }
    let octet = octets.get(k / 8)?;
    Some(Row {
        kind: Kind::Binary,
        index: first + k as u16,
        flags: 1,
        value: i64::from((octet >> (k % 8)) % 2),
        time: None,
    })
}

/// Row k of a header whose objects have a known size.
fn object_row_at(group: u8, variation: u8, range: Range, octets: &[u8], k: usize) -> Option<Row>
    ensures value { result
        ≡ option_and_then (meaning.shaped_row_in (head_of group variation range octets.now) k) (shape_read group variation) }
    ensures found { IfSome result (spec.IsObjectRow (head_of group variation range octets.now) k) }
    ensures only { (row : RowValue) → spec.IsObjectRow (head_of group variation range octets.now) k row → result ≡ Some row }
    ensures there { IsSome (shape_read group variation)
        → IsSomeAnd (size_of group variation) (λ size. IsSome (reading.object_at range octets.now size k)) → IsSome result }
{
    let shape = row_shape(group, variation)?;
    let (index, octets) = object_at(range, octets, shape.size(), k)?;
    Some(shape.row(index, octets))
}

/// Row k of a header of this object and range, with these octets, whose times stand whole.
fn row_at(group: u8, variation: u8, range: Range, octets: &[u8], k: usize) -> Option<Row>
    ensures value { result ≡ meaning.whole_row_in (head_of group variation range octets.now) k }
    ensures found { IfSome result (spec.IsWholeRow (head_of group variation range octets.now) k) }
    ensures only { (row : RowValue) → spec.IsWholeRow (head_of group variation range octets.now) k row → result ≡ Some row }
    ensures there { spec.HasWholeRows (head_of group variation range octets.now) → k < count range → IsSome result }
{
    if group == 1 && variation == 1 {
        bit_at(range, octets, k)
    } else {
        object_row_at(group, variation, range, octets, k)
    }
}

/// Row k of a header whose times are given after its common one.
fn relative_row_at(header: &Header<'_>, k: usize) -> Option<Row>
    requires relative { spec_is_relative header.now.group header.now.variation ≡ true }
    ensures { result ≡ meaning.row_in (head header.now) k }
{
    let common = common_in(header)?;
    let (index, octets) = object_at(header.range, header.octets, 3, k)?;
    Some(binary_after(index, octets, common))
}

/// Row k of a header.
pub(crate) fn header_row_at(header: &Header<'_>, k: usize) -> Option<Row>
    ensures { result ≡ meaning.row_in (head header.now) k }
{
    if is_relative(header.group, header.variation) {
        relative_row_at(header, k)
    } else {
        row_at(
            header.group,
            header.variation,
            header.range,
            header.octets,
            k,
        )
    }
}

/// Command k, with its status.
#[inline(always)]
pub(crate) fn command_at(
    group: u8,
    variation: u8,
    range: Range,
    octets: &[u8],
    k: usize,
) -> Option<(Command, Status)>
    ensures value { result ≡ meaning.command_in (head_of group variation range octets.now) k }
    ensures found { IfSome result (spec.IsCommand (head_of group variation range octets.now) k) }
    ensures only { (answer : CommandValue × ℕ) → spec.IsCommand (head_of group variation range octets.now) k answer
        → result ≡ Some answer }
    ensures there { spec.HasCommands (head_of group variation range octets.now) → k < count range → IsSome result }
{
    // (a law, for the proof: it does nothing)
    octets_are_read_as_one_command();
    let size = object_size(group, variation)?;
    let (index, octets) = object_at(range, octets, size, k)?;
    read_command(group, variation, index, octets).ok()
}
