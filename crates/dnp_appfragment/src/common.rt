//! Common times, 51.1 and 51.2, and the headers whose times are given after one, 2.3 (IEEE Std 1815-2012,
//! object library: groups 2 and 51).
ghost use Rattle.std.specs.Prelude.{◌≡◌, ◌↔◌, ◌≤◌, ◌*◌, ◌+◌, ◌<◌, ◌^◌, nat_lt, IsTrue, true, drop, length, slice_index};
ghost use Rattle.dnp_objects.specs.declared.limits.TheConstants.{MAX_TIME as LAST_TIME};
ghost use Rattle.byteorder.specs.Endian.{little_bytes, little_number};
ghost use Rattle.dnp_appfragment.specs.Headers as spec;
ghost use Rattle.dnp_objects.specs.Relative.{relative_row};
ghost use Rattle.dnp_appfragment.specs.Meaning as meaning;
ghost use Rattle.dnp_appfragment.specs.Reading as reading;
ghost use Rattle.dnp_appfragment.specs.Seen.{head};

use crate::header::Header;
use crate::range::{count_of, prefix_size};
use arrayvec::ArrayVec;
use dnp_objects::{Kind, MAX_TIME, Row};

/// The common time of a header of this object.
#[inline]
pub(crate) fn common_of(common: Option<u64>, group: u8, variation: u8) -> Option<u64>
    ensures { result ≡ spec.common_of common group variation }
{
    if is_relative(group, variation) {
        common
    } else {
        None
    }
}

/// The octet at a place, 0 past the end.
#[inline]
fn octet_at(octets: &[u8], at: usize) -> u8
    ensures { result ≡ slice_index octets.now at }
{
    match octets.get(at) {
        Some(octet) => *octet,
        None => 0,
    }
}

/// The number in the two octets from a place on, the low one first.
#[inline]
fn number_in(octets: &[u8], at: usize) -> u16
    requires near { at < 2 ^ 32 }
    ensures { result ≡ little_number 2 (drop at octets.now) }
{
    u16::from_le_bytes([octet_at(octets, at), octet_at(octets, at + 1)])
}

/// Whether the time that object k of the header gives after this one is under 2^48 ms.
#[inline]
fn is_under(header: &Header<'_>, k: usize, common: u64) -> bool
    requires few { k < 65536 }
    ensures { result ≡ nat_lt (common + spec.time_after (head header.now) k) LAST_TIME }
{
    let prefix = prefix_size(header.range);
    let after = number_in(header.octets, k * (prefix + 3) + (prefix + 1));
    common.saturating_add(u64::from(after)) < MAX_TIME
}

/// Whether each of the times that the header's objects give after this one is under 2^48 ms.
fn are_under(header: &Header<'_>, common: u64) -> bool
    ensures { result ≡ reading.are_under (head header.now) common }
{
    for k in 0..count_of(header.range) {
        if !is_under(header, k, common) {
            return false;
        }
    }
    true
}

/// Whether objects of this one give their times after a common time.
#[inline]
pub(crate) fn is_relative(group: u8, variation: u8) -> bool
    ensures { result ≡ spec.is_relative group variation }
{
    group == 2 && variation == 3
}

/// Whether the header's objects have times of their own, or a common time with which each is under
/// 2^48 ms.
#[inline]
pub(crate) fn is_timed(header: &Header<'_>) -> bool
    ensures { result ≡ reading.is_timed (head header.now) }
{
    if !is_relative(header.group, header.variation) {
        return true;
    }
    match header.common {
        Some(common) => are_under(header, common),
        None => false,
    }
}

/// The common time with which each of the header's objects has a time.
pub(crate) fn common_in(header: &Header<'_>) -> Option<u64>
    ensures { result ≡ meaning.common_in (head header.now) }
{
    if is_timed(header) {
        header.common
    } else {
        None
    }
}

/// The binary that these octets of an object give after a common time.
#[inline]
pub(crate) fn binary_after(index: u16, octets: &[u8], common: u64) -> Row
    requires small { common < 2 ^ 62 }
    ensures { result ≡ relative_row index octets.now common }
{
    let first = octet_at(octets, 0);
    Row {
        kind: Kind::Binary,
        index,
        flags: first % 128,
        value: i64::from(first / 128),
        time: Some(common + u64::from(number_in(octets, 1))),
    }
}

/// The common time after this header: a header of common times has the last of its times, and an empty one
/// leaves it as it was.
#[inline]
pub(crate) fn common_after(common: Option<u64>, header: &Header<'_>) -> Option<u64>
    requires there { spec.is_common (head header.now) ≡ true → 6 * spec.count_of header.now.range ≤ length header.now.octets.now }
    ensures { result ≡ spec.context_after common (head header.now) }
{
    if header.group != 51 || !matches!(header.variation, 1 | 2) {
        return common;
    }
    let count = count_of(header.range);
    if count == 0 {
        return common;
    }
    let [a, b, c, d, e, f, ..] = &header.octets[6 * (count - 1)..] else {
        return common;
    };
    Some(u64::from_le_bytes([*a, *b, *c, *d, *e, *f, 0, 0]))
}

/// Whether both are the same common time, or none.
pub(crate) fn is_same(one: Option<u64>, other: Option<u64>) -> bool
    ensures { IsTrue result ↔ one ≡ other }
{
    match (one, other) {
        (Some(one), Some(other)) => one == other,
        (None, None) => true,
        _ => false,
    }
}

/// The octets of a time, the low one first.
pub(crate) fn time_octets(time: u64) -> ArrayVec<u8, 6>
    ensures { result.items ≡ little_bytes 6 time }
{
    let mut octets = ArrayVec::new();
    octets.push((time % 256) as u8);
    octets.push((time / 256 % 256) as u8);
    octets.push((time / 256 / 256 % 256) as u8);
    octets.push((time / 256 / 256 / 256 % 256) as u8);
    octets.push((time / 256 / 256 / 256 / 256 % 256) as u8);
    octets.push((time / 256 / 256 / 256 / 256 / 256 % 256) as u8);
    octets
}
