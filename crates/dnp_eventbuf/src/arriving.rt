//! The rows of an append that come for one lane.

ghost use Rattle.std.specs.Prelude.{◌≡◌, ℕ, ◌^◌, ◌+◌, ◌≤◌, length, slice_get, option_map};
ghost use Rattle.dnp_eventbuf.specs.Latest.{numbered_for};

use dnp_objects::LaneRow;

/// How many of the rows come for the lane of this number.
pub fn count_for(number: usize, rows: &[LaneRow]) -> usize
    ensures value { (last : ℕ) → result ≡ length (numbered_for number last rows.now) }
    ensures most { result ≤ length rows.now }
{
    let mut count = 0usize;
    for x in rows {
        if x.lane.number() == number {
            count += 1;
        }
    }
    count
}

/// The id of the one at this place among those that come for the lane of this number, where ids go on from
/// `last`, if there are so many.
pub fn id_for(number: usize, last: u64, rows: &[LaneRow], place: usize) -> Option<u64>
    requires { last + length rows.now ≤ 2 ^ 62 }
    ensures { result ≡ option_map (λ x. x.id) (slice_get (numbered_for number last rows.now) place) }
{
    let mut id = last;
    let mut left = place;
    for x in rows {
        id += 1;
        if x.lane.number() == number {
            if left == 0 {
                return Some(id);
            }
            left -= 1;
        }
    }
    None
}
