//! What is done to each of the nine lanes in memory.

ghost use Rattle.std.specs.Prelude.{◌≡◌, ◌≢◌, ◌<◌, ◌≤◌, ◌+◌, false, OnOk, OnErr, All, List, length, map, [], ◌∷◌, ◌++◌, vec_len, vec_capacity};
ghost use Rattle.std.specs.List.{AllPairs, list_any};
ghost use Rattle.dnp_objects.specs.Lanes.{lane_number};
ghost use Rattle.dnp_eventbuf.specs.FitsLane.{FitsLane};
ghost use Rattle.dnp_eventbuf.specs.Sound.{IsSoundBuffer};
ghost use Rattle.dnp_eventbuf.specs.EventBuffer.{is_full, dropped_by, exhausts, with_rows, lanes_above, lanes_up_to, emptied, lane_rows};
ghost use Rattle.dnp_objects.specs.declared.lane.LaneRow.{LaneRow as RowValue};
ghost use Rattle.dnp_eventbuf.specs.declared.tally.Tally.{Tally as TallyValue};
ghost use Rattle.dnp_eventbuf.specs.steps.Tallies.{tally_of, tally_at, drops_from};

use crate::lane_of::LaneOf;
use crate::numbered::{Numbered, Upto};
use crate::one_lane::OneLane;
use crate::tally::{Tally, drops};
use dnp_objects::{LANES, LaneRow, MAX_ID, Row};
use std::alloc::AllocError;
/// How many rows the lanes drop for these, or `None` where a count of lost rows would pass the limit. Most
/// appends are of one row, for which one lane is looked at.
pub fn drops_for<L: OneLane>(lanes: &[LaneOf<L>; LANES], rows: &[LaneRow]) -> Option<usize>
    ensures { result ≡ drops_from 0 (map tally_of lanes.now) rows.now }
{
    if let [x] = rows {
        return drops_one(&lanes[x.lane.number()]);
    }
    let mut tallies = tallies(lanes);
    drops(&mut tallies, rows)
}

/// How many rows a lane drops for one more.
fn drops_one<L: OneLane>(lane: &LaneOf<L>) -> Option<usize>
    ensures { (tallies : List TallyValue) (x : RowValue) → tally_at tallies (lane_number x.lane) ≡ tally_of lane.now
        → result ≡ drops_from 0 tallies (x ∷ []) }
{
    let tally = lane.tally();
    if tally.free > 0 {
        Some(0)
    } else if tally.lost < MAX_ID {
        Some(1)
    } else {
        None
    }
}

/// Each lane's tally.
fn tallies<L: OneLane>(lanes: &[LaneOf<L>; LANES]) -> [Tally; LANES]
    ensures { result ≡ map tally_of lanes.now }
{
    let mut tallies = [Tally { free: 0, lost: 0 }; LANES];
    for (k, lane) in lanes.iter().enumerate() {
        tallies[k] = lane.tally();
    }
    tallies
}

/// Whether some lane is full.
pub fn any_full<L: OneLane>(lanes: &[LaneOf<L>; LANES]) -> bool
    ensures { result ≡ list_any is_full lanes.now }
{
    lanes.iter().any(|lane| lane.is_full())
}

/// How many rows there are of each lane with ids up to its number.
pub fn count_all_up_to<L: OneLane>(lanes: &[LaneOf<L>; LANES], upto: &Upto) -> usize
    requires rising { All (λ lane. AllPairs (λ x y. x.id < y.id) lane.rows) lanes.now }
    ensures { result ≡ length (lanes_up_to lanes.now upto.now) }
{
    let mut count = 0;
    for k in 0..LANES {
        count += lanes[k].count_up_to(upto[k]);
    }
    count
}

/// Adds the rows of each lane with ids up to its number, for which there is room.
pub fn push_all_up_to<L: OneLane>(lanes: &[LaneOf<L>; LANES], upto: &Upto, out: &mut Vec<Row>)
    requires rising { All (λ lane. AllPairs (λ x y. x.id < y.id) lane.rows) lanes.now }
    requires room { vec_len out.old + length (lanes_up_to lanes.now upto.now) ≤ vec_capacity out.old }
    ensures { out.new.items ≡ out.old.items ++ lanes_up_to lanes.now upto.now }
{
    for k in 0..LANES {
        lanes[k].push_up_to(upto[k], out);
    }
}

/// Takes the rows of each lane with ids up to its number out.
pub fn cut_all<L: OneLane>(lanes: &mut [LaneOf<L>; LANES], upto: &Upto)
    requires rising { All (λ lane. AllPairs (λ x y. x.id < y.id) lane.rows) lanes.old }
    ensures { lanes.new ≡ lanes_above lanes.old upto.now }
{
    for k in 0..LANES {
        lanes[k].cut(upto[k]);
    }
}

/// Adds the rows of each lane.
pub fn push_all<L: OneLane>(
    lanes: &[LaneOf<L>; LANES],
    out: &mut Vec<Row>,
) -> Result<(), AllocError>
    ensures rows { OnOk result (out.new.items ≡ out.old.items ++ lane_rows lanes.now) }
    ensures memory { OnErr result (lane_rows lanes.now ≢ []) }
{
    for lane in lanes {
        lane.push_all(out)?;
    }
    Ok(())
}

/// Takes all rows out of each lane.
pub fn clear_all<L: OneLane>(lanes: &mut [LaneOf<L>; LANES])
    ensures { lanes.new ≡ map emptied lanes.old }
{
    for lane in lanes {
        lane.clear();
    }
}

/// Puts the rows one by one, each into its lane, under the next id: a full lane drops its oldest row first, which is
/// counted as an overflow, and for which there is room. It stands in its callers, as what it calls.
#[inline(always)]
pub fn put_all<L: OneLane>(
    lanes: &mut [LaneOf<L>; LANES],
    overflow: &mut bool,
    last_id: &mut u64,
    rows: &[LaneRow],
    dropped: &mut Vec<Row>,
)
    requires sound { IsSoundBuffer (record { lanes = lanes.old; overflow = overflow.old; last_id = last_id.old }) }
    requires carried { All FitsLane rows.now }
    requires fits { exhausts (record { lanes = lanes.old; overflow = overflow.old; last_id = last_id.old }) rows.now ≡ false }
    requires room { vec_len dropped.old + length (dropped_by (record { lanes = lanes.old; overflow = overflow.old; last_id = last_id.old }) rows.now) ≤ vec_capacity dropped.old }
    ensures sound { IsSoundBuffer (record { lanes = lanes.new; overflow = overflow.new; last_id = last_id.new }) }
    ensures with { record { lanes = lanes.new; overflow = overflow.new; last_id = last_id.new } ≡ with_rows (record { lanes = lanes.old; overflow = overflow.old; last_id = last_id.old }) rows.now }
    ensures dropped { dropped.new.items ≡ dropped.old.items ++ dropped_by (record { lanes = lanes.old; overflow = overflow.old; last_id = last_id.old }) rows.now }
{
    for x in rows {
        let id = *last_id + 1;
        let lane = &mut lanes[x.lane.number()];
        let was_full = lane.is_full();
        lane.put(Numbered { id, row: x.row }, dropped);
        *overflow |= was_full;
        *last_id = id;
    }
}
