//! Ranges of headers: their qualifiers, and what they count.
ghost use Rattle.std.specs.Prelude.{◌≡◌, ◌≤◌, ◌<◌, ◌↔◌, IsTrue};
ghost use Rattle.dnp_appfragment.specs.Headers as spec;

use crate::header::Range;
use crate::qualifier::{ALL, COUNT, INDEXED, SPAN, WIDE_COUNT, WIDE_INDEXED, WIDE_SPAN};
use crate::table::Form;
use dnp_objects::object_size;

/// The qualifier of a range.
pub(crate) fn qualifier_of(range: Range) -> u8
    ensures { result ≡ spec.qualifier_of range }
{
    match range {
        Range::All => ALL,
        Range::Span { wide, .. } => if wide { WIDE_SPAN } else { SPAN },
        Range::Count { wide, .. } => if wide { WIDE_COUNT } else { COUNT },
        Range::Indexed { wide, .. } => if wide { WIDE_INDEXED } else { INDEXED },
    }
}

/// How many objects it names; all is none.
pub(crate) fn count_of(range: Range) -> usize
    ensures value { result ≡ spec.count_of range }
    ensures small { result ≤ 65536 }
{
    match range {
        Range::All => 0,
        Range::Span { first, last, .. } => {
            let end = usize::from(last) + 1;
            end.saturating_sub(usize::from(first))
        }
        Range::Count { n, .. } | Range::Indexed { n, .. } => usize::from(n),
    }
}

/// The octets of index before each object.
pub(crate) fn prefix_size(range: Range) -> usize
    ensures value { result ≡ spec.prefix_size range }
    ensures small { result ≤ 2 }
{
    match range {
        Range::Indexed { wide, .. } => if wide { 2 } else { 1 },
        _ => 0,
    }
}

/// How many octets of objects follow a header; in a READ none.
#[inline(always)]
pub(crate) fn objects_size(form: Form, group: u8, variation: u8, range: Range) -> usize
    ensures { result ≡ spec.objects_size form group variation range }
{
    if form == Form::Read {
        return 0;
    }
    let count = count_of(range);
    match object_size(group, variation) {
        Some(size) => count * (prefix_size(range) + size),
        None => count.div_ceil(8),
    }
}

/// Whether the number fits in its octets, one or, wide, two.
fn number_fits(wide: bool, number: u16) -> bool
    ensures { IsTrue result ↔ (number < spec.limit wide) }
{
    wide || number < 0x100
}

/// Whether the numbers fit their octets, and the stop is not under the start.
pub(crate) fn is_range(range: Range) -> bool
    ensures { IsTrue result ↔ (spec.NumbersFit range × spec.IsForward range) }
{
    match range {
        Range::All => true,
        Range::Span { wide, first, last } => {
            number_fits(wide, first) && number_fits(wide, last) && first <= last
        }
        Range::Count { wide, n } | Range::Indexed { wide, n } => number_fits(wide, n),
    }
}
