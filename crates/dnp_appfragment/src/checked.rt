//! Headers of octets that were checked: they are read again, and nothing of them is checked again.
ghost use Rattle.std.specs.Prelude.{◌≡◌, Ok, IsTrue};
ghost use Rattle.std.specs.Result.{is_ok};
ghost use Rattle.dnp_appfragment.specs.Reading as spec;
ghost use Rattle.dnp_appfragment.specs.Places.{EndsWith, IsPart};
ghost use Rattle.dnp_appfragment.specs.Seen.{number_and_rest, range_and_rest, head_and_rest};

use crate::common::common_of;
use crate::header::{Header, Range};
use crate::qualifier::{ALL, COUNT, SPAN, WIDE_COUNT, WIDE_INDEXED, WIDE_SPAN};
use crate::range::objects_size;
use crate::table::Form;

/// A number in one octet, or in two, and the octets after it.
#[inline(always)]
fn checked_number(wide: bool, octets: &[u8]) -> (u16, &[u8])
    requires { IsTrue (is_ok (spec.number_at wide octets.now)) }
    ensures gives { spec.number_at wide octets.now ≡ Ok (number_and_rest result) }
    ensures end { EndsWith octets.entry result.1 }
{
    if wide {
        (u16::from_le_bytes([octets[0], octets[1]]), &octets[2..])
    } else {
        (u16::from(octets[0]), &octets[1..])
    }
}

/// The range of a qualifier, and the octets after it.
#[inline(always)]
#[tactic(auto, unfolding(crate::specs::Reading::range_at, crate::specs::Reading::span_at))]
fn checked_range(qualifier: u8, octets: &[u8]) -> (Range, &[u8])
    requires { IsTrue (is_ok (spec.range_at qualifier octets.now)) }
    ensures gives { spec.range_at qualifier octets.now ≡ Ok (range_and_rest result) }
    ensures end { EndsWith octets.entry result.1 }
{
    match qualifier {
        ALL => (Range::All, octets),
        SPAN | WIDE_SPAN => {
            let wide = qualifier == WIDE_SPAN;
            let (first, rest) = checked_number(wide, octets);
            let (last, rest) = checked_number(wide, rest);
            (Range::Span { wide, first, last }, rest)
        }
        COUNT | WIDE_COUNT => {
            let wide = qualifier == WIDE_COUNT;
            let (n, rest) = checked_number(wide, octets);
            (Range::Count { wide, n }, rest)
        }
        _ => {
            let wide = qualifier == WIDE_INDEXED;
            let (n, rest) = checked_number(wide, octets);
            (Range::Indexed { wide, n }, rest)
        }
    }
}

/// The header at the front, with its objects, and the octets after them.
#[inline(always)]
#[tactic(auto, unfolding(crate::specs::Reading::header_at))]
pub(crate) fn checked_header(form: Form, common: Option<u64>, octets: &[u8]) -> (Header<'_>, &[u8])
    requires { IsTrue (is_ok (spec.header_at form common octets.now)) }
    ensures gives { spec.header_at form common octets.now ≡ Ok (head_and_rest result) }
    ensures part { IsPart octets.entry result.0.octets result.1 }
{
    let (group, variation) = (octets[0], octets[1]);
    let (range, rest) = checked_range(octets[2], &octets[3..]);
    let size = objects_size(form, group, variation, range);
    let header = Header {
        group,
        variation,
        range,
        octets: &rest[..size],
        common: common_of(common, group, variation),
    };
    (header, &rest[size..])
}
