//! Headers from the front of octets, checked.
ghost use Rattle.std.specs.Prelude.{◌≡◌, ◌≤◌, IfOk};
ghost use Rattle.dnp_appfragment.specs.Reading as spec;
ghost use Rattle.dnp_appfragment.specs.Places.{EndsWith, IsPart};
ghost use Rattle.dnp_appfragment.specs.Seen.{Gives, number_and_rest, range_and_rest, head_and_rest};

use crate::common::{common_of, is_timed};
use crate::fault::AppFault;
use crate::header::{Header, Range};
use crate::qualifier::{ALL, COUNT, INDEXED, SPAN, WIDE_COUNT, WIDE_INDEXED, WIDE_SPAN};
use crate::range::objects_size;
use crate::table::{Form, allows, takes_of};

/// A number in one octet, or in two, and the octets after it.
pub(crate) fn number_at(wide: bool, octets: &[u8]) -> Result<(u16, &[u8]), AppFault>
    ensures gives { Gives number_and_rest result (spec.number_at wide octets.now) }
    ensures end { IfOk result (λ x. EndsWith octets.entry x.1) }
{
    match (wide, octets) {
        (false, [number, rest @ ..]) => Ok((u16::from(*number), rest)),
        (true, [low, high, rest @ ..]) => Ok((u16::from_le_bytes([*low, *high]), rest)),
        _ => Err(AppFault::HeaderCut),
    }
}

/// A start and a stop.
#[tactic(auto, unfolding(crate::specs::Reading::span_at))]
fn span_at(wide: bool, octets: &[u8]) -> Result<(Range, &[u8]), AppFault>
    ensures gives { Gives range_and_rest result (spec.span_at wide octets.now) }
    ensures end { IfOk result (λ x. EndsWith octets.entry x.1) }
{
    let (first, rest) = number_at(wide, octets)?;
    let (last, rest) = number_at(wide, rest)?;
    if last < first {
        return Err(AppFault::RangeBackward);
    }
    Ok((Range::Span { wide, first, last }, rest))
}

/// A count.
fn count_at(wide: bool, octets: &[u8]) -> Result<(Range, &[u8]), AppFault>
    ensures gives { Gives range_and_rest result (spec.count_at wide octets.now) }
    ensures end { IfOk result (λ x. EndsWith octets.entry x.1) }
{
    let (n, rest) = number_at(wide, octets)?;
    Ok((Range::Count { wide, n }, rest))
}

/// A count of objects that have an index before them.
fn indexed_at(wide: bool, octets: &[u8]) -> Result<(Range, &[u8]), AppFault>
    ensures gives { Gives range_and_rest result (spec.indexed_at wide octets.now) }
    ensures end { IfOk result (λ x. EndsWith octets.entry x.1) }
{
    let (n, rest) = number_at(wide, octets)?;
    Ok((Range::Indexed { wide, n }, rest))
}

/// The range of a qualifier, and the octets after it.
#[tactic(auto, unfolding(crate::specs::Reading::range_at))]
fn range_at(qualifier: u8, octets: &[u8]) -> Result<(Range, &[u8]), AppFault>
    ensures gives { Gives range_and_rest result (spec.range_at qualifier octets.now) }
    ensures end { IfOk result (λ x. EndsWith octets.entry x.1) }
{
    match qualifier {
        SPAN => span_at(false, octets),
        WIDE_SPAN => span_at(true, octets),
        ALL => Ok((Range::All, octets)),
        COUNT => count_at(false, octets),
        WIDE_COUNT => count_at(true, octets),
        INDEXED => indexed_at(false, octets),
        WIDE_INDEXED => indexed_at(true, octets),
        _ => Err(AppFault::QualifierUnknown),
    }
}

/// The header at the front, with its objects, and the octets after them.
#[inline(always)]
#[tactic(auto, unfolding(crate::specs::Reading::header_at))]
pub(crate) fn header_at(
    form: Form,
    common: Option<u64>,
    octets: &[u8],
) -> Result<(Header<'_>, &[u8]), AppFault>
    ensures gives { Gives head_and_rest result (spec.header_at form common octets.now) }
    // Nothing is copied: the objects lie in the octets, just before the rest.
    ensures part { IfOk result (λ x. IsPart octets.entry x.0.octets x.1) }
{
    let [group, variation, qualifier, rest @ ..] = octets else {
        return Err(AppFault::HeaderCut);
    };
    let Some(takes) = takes_of(form, *group, *variation) else {
        return Err(AppFault::ObjectUnknown);
    };
    if !allows(takes, *qualifier) {
        return Err(AppFault::QualifierUnknown);
    }
    let (range, rest) = range_at(*qualifier, rest)?;
    let size = objects_size(form, *group, *variation, range);
    if rest.len() < size {
        return Err(AppFault::ObjectsCut);
    }
    let header = Header {
        group: *group,
        variation: *variation,
        range,
        octets: &rest[..size],
        common: common_of(common, *group, *variation),
    };
    if !is_timed(&header) {
        return Err(AppFault::CommonTime);
    }
    Ok((header, &rest[size..]))
}
