//! The header octet of a segment: FIN, FIR and the number.
ghost use Rattle.std.specs.Prelude.{◌≡◌, slice_index};
ghost use Rattle.dnp_transport.specs.Segments.{is_first as first_of, is_last as last_of, number as number_of, has_no_size as no_size_of};

use crate::limits::{MAX_SEGMENT, SEGMENT_NUMBERS};

/// FIN: the last segment of its fragment.
pub(crate) const FINAL: u8 = 0x80;

/// FIR: the first segment of its fragment.
pub(crate) const FIRST: u8 = 0x40;

/// The header octet, and 0 where there is none.
fn header(segment: &[u8]) -> u8
    ensures { result ≡ slice_index segment.now 0 }
{
    match segment {
        [header, ..] => *header,
        [] => 0,
    }
}

/// Whether FIR is set.
pub(crate) fn is_first(segment: &[u8]) -> bool
    ensures { result ≡ first_of segment.now }
{
    header(segment) & FIRST != 0
}

/// Whether FIN is set.
pub(crate) fn is_last(segment: &[u8]) -> bool
    ensures { result ≡ last_of segment.now }
{
    header(segment) & FINAL != 0
}

/// The segment's number.
pub(crate) fn number(segment: &[u8]) -> u8
    ensures { result ≡ number_of segment.now }
{
    header(segment) % SEGMENT_NUMBERS
}

/// Whether these octets are too few or too many for a segment.
pub(crate) fn has_no_size(octets: &[u8]) -> bool
    ensures { result ≡ no_size_of octets.now }
{
    octets.len() < 2 || octets.len() > MAX_SEGMENT
}
