//! Laws of the words of `specs/`: each function does nothing, and its contract is a law.
ghost use Rattle.std.specs.Prelude.{◌≡◌, ◌⊎◌, ◌≤◌, ◌<◌, ◌+◌, ℕ, Bool, false, List, [], ◌++◌, length, map, sum_by, count_by, All, Contains, max, nat_lt, slice_index_or};
ghost use Rattle.std.specs.List.{list_any};
ghost use Rattle.std.specs.List.Sorted.{IsPermutation};
ghost use Rattle.dnp_objects.specs.declared.limits.TheConstants.{LANES};
ghost use Rattle.dnp_objects.specs.declared.row.Row.{Row as RowValue};
ghost use Rattle.dnp_objects.specs.declared.lane.LaneRow.{LaneRow};
ghost use Rattle.dnp_objects.specs.Counts.{IsCoveredBy};
ghost use Rattle.dnp_eventbuf.specs.FitsLane.{FitsLane};
ghost use Rattle.dnp_eventbuf.specs.Latest.{KeepsLatest, numbered_for};
ghost use Rattle.dnp_eventbuf.specs.Sound.{IsSoundBuffer};
ghost use Rattle.dnp_eventbuf.specs.EventBuffer.{EventBuffer, above, lane_at, empty_buffer, arriving, with_rows, dropped_by, exhausts, rows_in, lost_in, all_up_to, without, without_all, offered, last_of, up_to, row_of};
ghost use Rattle.dnp_eventbuf.specs.declared.plain.TheConstants as plain;

use crate::numbered::Numbered;
use dnp_objects::Row;
use dnp_objects::laws::{covered_is_kept_by_map, members_are_covered};

/// An append loses nothing unseen: the old rows and those that came are the new rows and those that
/// were dropped. As many as were dropped are counted as lost.
pub fn an_append_conserves_rows()
    ensures lists { (s : EventBuffer) (rows : List LaneRow) → IsSoundBuffer s
        → IsPermutation (rows_in s ++ arriving rows) (rows_in (with_rows s rows) ++ dropped_by s rows) }
    ensures counts { (s : EventBuffer) (rows : List LaneRow) (test : RowValue → Bool) → IsSoundBuffer s
        → count_by test (rows_in s) + count_by test (arriving rows)
        ≡ count_by test (rows_in (with_rows s rows)) + count_by test (dropped_by s rows) }
    ensures lost { (s : EventBuffer) (rows : List LaneRow) → IsSoundBuffer s
        → lost_in (with_rows s rows) ≡ lost_in s + length (dropped_by s rows) }
{}

/// What a release takes and what it leaves are the old rows. It counts none as lost.
pub fn a_release_conserves_rows()
    ensures lists { (s : EventBuffer) (upto : List ℕ) → length upto ≡ length s.lanes
        → IsPermutation (rows_in s) (all_up_to s upto ++ rows_in (without s upto)) }
    ensures counts { (s : EventBuffer) (upto : List ℕ) (test : RowValue → Bool) → length upto ≡ length s.lanes
        → count_by test (rows_in s) ≡ count_by test (all_up_to s upto) + count_by test (rows_in (without s upto)) }
    ensures lost { (s : EventBuffer) (upto : List ℕ) → lost_in (without s upto) ≡ lost_in s }
{}

/// A release takes from each lane, by itself, the rows up to the lane's id, and leaves those above it.
#[inline(always)]
pub fn a_release_is_lane_by_lane()
    ensures { (s : EventBuffer) (upto : List ℕ) (number : ℕ) → length upto ≡ length s.lanes → number < length s.lanes
        → lane_at (without s upto) number ≡ above (slice_index_or upto number 0) (lane_at s number) }
{}

/// Emptied lanes have no row, and their counts of lost rows stay.
pub fn emptying_takes_all_rows()
    ensures rows { (s : EventBuffer) → rows_in (without_all s) ≡ [] }
    ensures lost { (s : EventBuffer) → lost_in (without_all s) ≡ lost_in s }
{}

/// An id is never given twice: a row that comes has an id over the last one used, which only rises,
/// and a release leaves only rows that stood there.
pub fn ids_are_used_once()
    ensures new_ids { (s : EventBuffer) (rows : List LaneRow) (number : ℕ)
        → All (λ x. Contains (lane_at s number).rows x ⊎ (s.last_id < x.id)) (lane_at (with_rows s rows) number).rows }
    ensures last_id { (s : EventBuffer) (rows : List LaneRow) → (with_rows s rows).last_id ≡ s.last_id + length rows }
    ensures released { (s : EventBuffer) (upto : List ℕ) → (without s upto).last_id ≡ s.last_id }
    ensures left { (s : EventBuffer) (upto : List ℕ) (number : ℕ)
        → All (Contains (lane_at s number).rows) (lane_at (without s upto) number).rows }
    ensures emptied { (s : EventBuffer) → (without_all s).last_id ≡ s.last_id }
{}

/// Empty lanes are sound, and each step keeps lanes sound.
#[inline(always)]
pub fn lanes_stay_sound()
    ensures made { (capacities : List ℕ) → length capacities ≡ LANES → All (λ capacity. 1 ≤ capacity) capacities
        → IsSoundBuffer (empty_buffer capacities) }
    ensures appended { (s : EventBuffer) (rows : List LaneRow) → IsSoundBuffer s → All FitsLane rows
        → exhausts s rows ≡ false → IsSoundBuffer (with_rows s rows) }
    ensures released { (s : EventBuffer) (upto : List ℕ) → IsSoundBuffer s → length upto ≡ LANES → IsSoundBuffer (without s upto) }
    ensures emptied { (s : EventBuffer) → IsSoundBuffer s → IsSoundBuffer (without_all s) }
{}

/// Rows that are appended in two calls are appended as in one.
pub fn two_appends_are_one()
    ensures rows { (s : EventBuffer) (first second : List LaneRow)
        → with_rows s (first ++ second) ≡ with_rows (with_rows s first) second }
    ensures dropped { (s : EventBuffer) (first second : List LaneRow)
        → dropped_by s (first ++ second) ≡ dropped_by s first ++ dropped_by (with_rows s first) second }
{}

/// An append, lane by lane: a lane keeps the latest of its rows and of those that came for it, as many
/// as it takes, and counts the others as lost.
pub fn a_lane_keeps_its_latest_rows()
    ensures { (s : EventBuffer) (rows : List LaneRow) (number : ℕ) → IsSoundBuffer s → number < LANES
        → KeepsLatest (lane_at s number) (numbered_for number s.last_id rows) (lane_at (with_rows s rows) number) }
{}

/// What a release takes up to the last id of an offer was offered, whatever was appended since the
/// offer. If the offer began after an id, rows with ids up to that one may stand there still, and go too.
pub fn a_release_takes_what_was_offered()
    ensures from_the_oldest { (s : EventBuffer) (rows : List LaneRow) (number most : ℕ) → IsSoundBuffer s → All FitsLane rows
        → exhausts s rows ≡ false → number < LANES
        → IsCoveredBy (up_to (last_of (offered s number 0 most)) (lane_at (with_rows s rows) number))
        (map row_of (offered s number 0 most)) }
    ensures from_an_id { (s : EventBuffer) (rows : List LaneRow) (number after most : ℕ) → IsSoundBuffer s → All FitsLane rows
        → exhausts s rows ≡ false → number < LANES
        → IsCoveredBy (up_to (last_of (offered s number after most)) (lane_at (with_rows s rows) number))
        (up_to after (lane_at (with_rows s rows) number) ++ map row_of (offered s number after most)) }
{
    members_are_covered::<Numbered>();
    covered_is_kept_by_map::<Numbered, Row>();
}

/// What is offered after a release was offered before it, from after the id up to which the lane's rows
/// are released, where that is the larger one.
#[inline(always)]
pub fn an_offer_after_a_release()
    ensures { (s : EventBuffer) (upto : List ℕ) (number after most : ℕ) → length upto ≡ length s.lanes → number < length s.lanes
        → offered (without s upto) number after most ≡ offered s number (max after (slice_index_or upto number 0)) most }
{}

/// A lane has a row with an id over a number exactly where its last id is over it, and none of its rows,
/// nor its last id, is over the last one used.
pub fn the_last_id_tells_of_rows()
    ensures over { (s : EventBuffer) (number id : ℕ) → IsSoundBuffer s → number < LANES
        → list_any (λ x. nat_lt id x.id) (lane_at s number).rows ≡ nat_lt id (last_of (lane_at s number).rows) }
    ensures rows { (s : EventBuffer) (number : ℕ) → IsSoundBuffer s → number < LANES → All (λ x. x.id ≤ s.last_id) (lane_at s number).rows }
    ensures last { (s : EventBuffer) (number : ℕ) → IsSoundBuffer s → number < LANES → last_of (lane_at s number).rows ≤ s.last_id }
{}

/// A lane in memory takes at most so many rows: the library's own measure.
pub fn limits_have_their_values()
    ensures capacity { plain.MAX_CAPACITY ≡ 4096 }
{}
