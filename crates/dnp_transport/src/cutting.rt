//! Cuts a fragment into segments.
ghost use Rattle.std.specs.Prelude.{◌≡◌, ◌<◌, ◌≤◌, length};
ghost use Rattle.dnp_transport.specs.Cuts.{cut_count, cut};

use crate::header::{FINAL, FIRST};
use crate::limits::{MAX_FRAGMENT, MAX_SEGMENT, SEGMENT_DATA, SEGMENT_NUMBERS};
use arrayvec::ArrayVec;

/// How many segments carry `fragment`, which has 1 to [`MAX_FRAGMENT`] octets (IEEE Std 1815-2012, transport function).
pub fn segment_count(fragment: &[u8]) -> usize
    requires some { 0 < length fragment.now }
    requires fits { length fragment.now ≤ MAX_FRAGMENT }
    ensures { result ≡ cut_count (length fragment.now) }
{
    fragment.len().div_ceil(SEGMENT_DATA)
}

/// The segment `k`, counted from 0, of `fragment`, whose first segment has the number `first`.
///
/// The fragment has 1 to [`MAX_FRAGMENT`] octets, `k` is below `segment_count(fragment)`, and `first` is below
/// [`SEGMENT_NUMBERS`]. The segment is its header octet and 1 to [`SEGMENT_DATA`] octets of the fragment (IEEE Std
/// 1815-2012, transport function).
pub fn segment(fragment: &[u8], k: usize, first: u8) -> ArrayVec<u8, MAX_SEGMENT>
    requires some { 0 < length fragment.now }
    requires fits { length fragment.now ≤ MAX_FRAGMENT }
    requires within { k < cut_count (length fragment.now) }
    requires numbered { first < SEGMENT_NUMBERS }
    ensures { result.items ≡ cut fragment.now first k }
{
    let first_bit = if k == 0 { FIRST } else { 0 };
    let final_bit = if k + 1 == segment_count(fragment) {
        FINAL
    } else {
        0
    };
    let number = (first + k as u8) % SEGMENT_NUMBERS;
    let start = SEGMENT_DATA * k;
    let end = fragment.len().min(start + SEGMENT_DATA);
    let mut segment = ArrayVec::new();
    segment.push(first_bit + final_bit + number);

    // There is room: a segment is a header octet and its data.
    segment
        .try_extend_from_slice(&fragment[start..end])
        .unwrap();
    segment
}
