//! Laws of the words of `specs/`: each function does nothing, and its contract is a law.
//!
//! They are of the rows of all lanes as one list, in which a row is named by its lane and its id: what
//! each call does to them, for whoever tells from outside which rows were there, were reported and were
//! released.
ghost use Rattle.std.specs.Prelude.{◌≡◌, ◌≤◌, ◌<◌, ◌+◌, ℕ, not, List, [], ◌∷◌, ◌++◌, length, map, filter, count_by, All};
ghost use Rattle.std.specs.List.Sorted.{IsPermutation};
ghost use Rattle.dnp_objects.specs.Lanes.{lane_number};
ghost use Rattle.dnp_objects.specs.declared.limits.TheConstants.{LANES};
ghost use Rattle.dnp_objects.specs.declared.lane.LaneRow.{LaneRow};
ghost use Rattle.dnp_eventbuf.specs.Buffered.{Buffered, in_lane, buffered_in, buffered_row, buffered_next, buffered_dropped, is_named, is_upto};
ghost use Rattle.dnp_eventbuf.specs.Sound.{IsSoundBuffer};
ghost use Rattle.dnp_eventbuf.specs.EventBuffer.{EventBuffer, lane_at, with_rows, dropped_by, without, without_all, all_up_to};

/// A release leaves the rows that its ids don't reach, in their order, and gives those that they reach.
pub fn a_release_is_by_ids()
    ensures left { (s : EventBuffer) (upto : List ℕ) → length upto ≡ length s.lanes
        → buffered_in (without s upto) ≡ filter (λ x. not (is_upto upto x)) (buffered_in s) }
    ensures given { (s : EventBuffer) (upto : List ℕ) → length upto ≡ length s.lanes
        → all_up_to s upto ≡ map buffered_row (filter (is_upto upto) (buffered_in s)) }
{}

/// When a row is appended, the rows before and this one are the rows after and the one that its lane drops for it, if
/// the lane is full. The row has the last id used.
pub fn an_append_is_of_one_row()
    ensures rows { (s : EventBuffer) (x : LaneRow) → IsSoundBuffer s
        → IsPermutation (buffered_in s ++ buffered_next s x ∷ [])
        (buffered_in (with_rows s (x ∷ [])) ++ buffered_dropped (lane_number x.lane) (lane_at s (lane_number x.lane))) }
    ensures dropped { (s : EventBuffer) (x : LaneRow)
        → map buffered_row (buffered_dropped (lane_number x.lane) (lane_at s (lane_number x.lane))) ≡ dropped_by s (x ∷ []) }
    ensures last_id { (s : EventBuffer) (x : LaneRow) → (with_rows s (x ∷ [])).last_id ≡ (buffered_next s x).id }
{}

/// In sound lanes each row stands once, under an id from 1 up to the last one used, and emptied lanes have none.
pub fn each_row_stands_once()
    ensures once { (s : EventBuffer) (id lane : ℕ) → IsSoundBuffer s → count_by (is_named id lane) (buffered_in s) ≤ 1 }
    ensures ids { (s : EventBuffer) → IsSoundBuffer s → All (λ x. (1 ≤ x.id) × (x.id ≤ s.last_id)) (buffered_in s) }
    ensures emptied { (s : EventBuffer) → buffered_in (without_all s) ≡ [] }
{}

/// Lists of rows of nine lanes that are the same lane by lane are the same but for order.
pub fn rows_are_the_same_by_lanes()
    ensures { (xs ys : List Buffered) → All (λ x. x.lane < LANES) xs → All (λ x. x.lane < LANES) ys
        → ((lane : ℕ) → lane < LANES → filter (in_lane lane) xs ≡ filter (in_lane lane) ys) → IsPermutation xs ys }
{}
