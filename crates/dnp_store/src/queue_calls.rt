//! What the calls of a queue do to one side, in the database and in memory, and to both.

ghost use Rattle.std.specs.Prelude.{◌≡◌, ◌≢◌, ◌≤◌, ◌+◌, false, true, IsTrue, [], All, IfOk, IfErr, OnOk, OnErr, Err, ◌||◌, length, vec_len, vec_capacity};
ghost use Rattle.dnp_eventbuf.specs.FitsLane.{FitsLane};
ghost use Rattle.dnp_eventbuf.specs.Sound.{IsSoundBuffer};
ghost use Rattle.dnp_eventbuf.specs.EventBuffer.{with_rows, dropped_by, exhausts, without, all_up_to, without_all, rows_in};
ghost use Rattle.dnp_store.specs.PairTables.{HoldsPair, IsPair};
ghost use Rattle.dnp_store.specs.steps.Pairs.{sides_of};
ghost use Rattle.dnp_store.specs.steps.Writing.{IsWritten};

use crate::fault::{fault, is_lost, memory};
use crate::queue_release::{lowers, write_release};
use crate::queue_side::QueueSide;
use crate::queue_writing::{write_append, write_both};
use crate::store_kind::StoreKind;
use dnp_eventbuf::laws::{a_release_is_lane_by_lane, lanes_stay_sound};
use dnp_eventbuf::{LaneRow, PlainLanes, Upto};
use dnp_objects::{LANES, MAX_ID, Row, StoreFault};
use sqlite::{Alter, Connection};
use std::alloc::{AllocError, Global};

/// Whether a call answered that the device failed.
pub(crate) fn is_device<Answer>(answer: &Result<Answer, StoreFault>) -> bool
    ensures device { IsTrue result → answer.now ≡ Err StoreFault.Device }
    ensures other { result ≡ false → answer.now ≢ Err StoreFault.Device }
{
    matches!(answer, Err(StoreFault::Device))
}

/// Room for the rows that lanes drop for these.
fn room_for(lanes: &PlainLanes, alloc: Global, rows: &[LaneRow]) -> Result<Vec<Row>, StoreFault>
    ensures room { IfOk result (λ room. (room.items ≡ []) × (vec_len room + length (dropped_by lanes.now rows.now) ≤ vec_capacity room)) }
    ensures fits { OnOk result (exhausts lanes.now rows.now ≡ false) }
    ensures exhausted { IfErr result (λ e. e ≡ StoreFault.Exhausted → IsTrue (exhausts lanes.now rows.now)) }
    ensures exhausted_first { IfErr result (λ e. e ≡ StoreFault.Memory → exhausts lanes.now rows.now ≡ false) }
    ensures exhausted_always { IsTrue (exhausts lanes.now rows.now) → result ≡ Err StoreFault.Exhausted }
    ensures named { IfErr result (λ e. e ≢ StoreFault.Device) }
{
    let Some(count) = lanes.drops(rows) else {
        return Err(StoreFault::Exhausted);
    };
    Vec::with_capacity(alloc, count).map_err(memory)
}

/// Room for this many rows, and for that many.
fn two_rooms(alloc: Global, count: usize, others: usize) -> Result<(Vec<Row>, Vec<Row>), AllocError>
    ensures { IfOk result (λ rooms. (rooms.0.items ≡ []) × (vec_len rooms.0 + count ≤ vec_capacity rooms.0)
        × (rooms.1.items ≡ []) × (vec_len rooms.1 + others ≤ vec_capacity rooms.1)) }
{
    let room = Vec::with_capacity(alloc, count)?;
    let room_too = Vec::with_capacity(alloc, others)?;
    Ok((room, room_too))
}

/// Room for the rows that the lanes of each side drop for these.
fn rooms_for(
    first: &PlainLanes,
    second: &PlainLanes,
    alloc: Global,
    rows: &[LaneRow],
) -> Result<(Vec<Row>, Vec<Row>), StoreFault>
    ensures room { IfOk result (λ rooms. (rooms.0.items ≡ []) × (vec_len rooms.0 + length (dropped_by first.now rows.now) ≤ vec_capacity rooms.0)
        × (rooms.1.items ≡ []) × (vec_len rooms.1 + length (dropped_by second.now rows.now) ≤ vec_capacity rooms.1)) }
    ensures fits { OnOk result ((exhausts first.now rows.now ≡ false) × (exhausts second.now rows.now ≡ false)) }
    ensures exhausted { IfErr result (λ e. e ≡ StoreFault.Exhausted → IsTrue (exhausts first.now rows.now || exhausts second.now rows.now)) }
    ensures exhausted_first { IfErr result (λ e. e ≡ StoreFault.Memory → exhausts first.now rows.now || exhausts second.now rows.now ≡ false) }
    ensures exhausted_always { IsTrue (exhausts first.now rows.now || exhausts second.now rows.now) → result ≡ Err StoreFault.Exhausted }
    ensures named { IfErr result (λ e. e ≢ StoreFault.Device) }
{
    let (Some(count), Some(others)) = (first.drops(rows), second.drops(rows)) else {
        return Err(StoreFault::Exhausted);
    };
    two_rooms(alloc, count, others).map_err(memory)
}

/// Puts rows into the lanes of one side.
pub(crate) fn append_to<S: Alter>(
    conn: &mut Connection<S>,
    side: QueueSide,
    lanes: &mut PlainLanes,
    alloc: Global,
    rows: &[LaneRow],
) -> Result<Vec<Row>, StoreFault>
    requires idle { conn.old.in_transaction ≡ false }
    requires sound { IsSoundBuffer lanes.old }
    requires carried { All FitsLane rows.now }
    ensures sound { IsSoundBuffer lanes.new }
    ensures appended { OnOk result (lanes.new ≡ with_rows lanes.old rows.now) }
    ensures dropped { IfOk result (λ dropped. dropped.items ≡ dropped_by lanes.old rows.now) }
    ensures kept { OnErr result (lanes.new ≡ lanes.old) }
    ensures not_exhausted { OnOk result (exhausts lanes.old rows.now ≡ false) }
    ensures exhausted { IfErr result (λ e. e ≡ StoreFault.Exhausted → IsTrue (exhausts lanes.old rows.now)) }
    ensures exhausted_first { IfErr result (λ e. e ≡ StoreFault.Memory → exhausts lanes.old rows.now ≡ false) }
    ensures exhausted_always { IsTrue (exhausts lanes.old rows.now) → (result ≡ Err StoreFault.Exhausted) × (conn.new ≡ conn.old) }
    ensures written { IsWritten S.Store StoreKind.Queue StoreFault.Device IsPair HoldsPair (sides_of side lanes.old) (sides_of side (with_rows lanes.old rows.now)) (sides_of side lanes.new) conn.old conn.new result }
{
    // (a law, for the proof: it does nothing)
    lanes_stay_sound();
    let mut dropped = room_for(lanes, alloc, rows)?;
    if let Err(error) = write_append(conn, side, lanes, rows) {
        let lost = is_lost(conn, &error);
        return Err(fault(lost));
    }
    lanes.put_all(rows, &mut dropped);
    Ok(dropped)
}

/// Puts rows into the lanes of both sides, all or none: what each side drops.
pub(crate) fn append_both_to<S: Alter>(
    conn: &mut Connection<S>,
    first: &mut PlainLanes,
    second: &mut PlainLanes,
    alloc: Global,
    rows: &[LaneRow],
) -> Result<(Vec<Row>, Vec<Row>), StoreFault>
    requires idle { conn.old.in_transaction ≡ false }
    requires first { IsSoundBuffer first.old }
    requires second { IsSoundBuffer second.old }
    requires carried { All FitsLane rows.now }
    ensures first { IsSoundBuffer first.new }
    ensures second { IsSoundBuffer second.new }
    ensures appended { OnOk result (first.new ≡ with_rows first.old rows.now) }
    ensures appended_too { OnOk result (second.new ≡ with_rows second.old rows.now) }
    ensures dropped { IfOk result (λ dropped. dropped.0.items ≡ dropped_by first.old rows.now) }
    ensures dropped_too { IfOk result (λ dropped. dropped.1.items ≡ dropped_by second.old rows.now) }
    ensures kept { OnErr result (first.new ≡ first.old) }
    ensures kept_too { OnErr result (second.new ≡ second.old) }
    ensures not_exhausted { OnOk result (exhausts first.old rows.now || exhausts second.old rows.now ≡ false) }
    ensures exhausted { IfErr result (λ e. e ≡ StoreFault.Exhausted → IsTrue (exhausts first.old rows.now || exhausts second.old rows.now)) }
    ensures exhausted_first { IfErr result (λ e. e ≡ StoreFault.Memory → exhausts first.old rows.now || exhausts second.old rows.now ≡ false) }
    ensures exhausted_always { IsTrue (exhausts first.old rows.now || exhausts second.old rows.now) → (result ≡ Err StoreFault.Exhausted) × (conn.new ≡ conn.old) }
    ensures written { IsWritten {I = Unit {0}} S.Store StoreKind.Queue StoreFault.Device IsPair HoldsPair (λ _. record { first = first.old; second = second.old })
        (λ _. record { first = with_rows first.old rows.now; second = with_rows second.old rows.now }) (λ _. record { first = first.new; second = second.new }) conn.old conn.new result }
{
    // (a law, for the proof: it does nothing)
    lanes_stay_sound();
    let (mut dropped, mut dropped_too) = rooms_for(first, second, alloc, rows)?;
    if let Err(error) = write_both(conn, first, second, rows) {
        let lost = is_lost(conn, &error);
        return Err(fault(lost));
    }
    first.put_all(rows, &mut dropped);
    second.put_all(rows, &mut dropped_too);
    Ok((dropped, dropped_too))
}

/// Takes the rows of one side with ids up to their lane's number out.
pub(crate) fn release_from<S: Alter>(
    conn: &mut Connection<S>,
    side: QueueSide,
    lanes: &mut PlainLanes,
    alloc: Global,
    upto: &Upto,
) -> Result<Vec<Row>, StoreFault>
    requires idle { conn.old.in_transaction ≡ false }
    requires sound { IsSoundBuffer lanes.old }
    ensures sound { IsSoundBuffer lanes.new }
    ensures released { OnOk result (lanes.new ≡ without lanes.old upto.now) }
    ensures taken { IfOk result (λ rows. rows.items ≡ all_up_to lanes.old upto.now) }
    ensures kept { OnErr result (lanes.new ≡ lanes.old) }
    ensures named { IfErr result (λ e. e ≢ StoreFault.Exhausted) }
    ensures written { IsWritten S.Store StoreKind.Queue StoreFault.Device IsPair HoldsPair (sides_of side lanes.old) (sides_of side (without lanes.old upto.now)) (sides_of side lanes.new) conn.old conn.new result }
{
    let Ok(taken) = lanes.rows_up_to(alloc, upto) else {
        return Err(StoreFault::Memory);
    };
    let lower = lowers(lanes, upto);
    if let Err(error) = write_release(conn, side, lanes, upto, lower) {
        let lost = is_lost(conn, &error);
        return Err(fault(lost));
    }
    lanes.cut(upto);
    Ok(taken)
}

/// Takes all rows of one side out.
pub(crate) fn empty_of<S: Alter>(
    conn: &mut Connection<S>,
    side: QueueSide,
    lanes: &mut PlainLanes,
    alloc: Global,
) -> Result<Vec<Row>, StoreFault>
    requires idle { conn.old.in_transaction ≡ false }
    requires sound { IsSoundBuffer lanes.old }
    ensures sound { IsSoundBuffer lanes.new }
    ensures emptied { OnOk result (lanes.new ≡ without_all lanes.old) }
    ensures taken { IfOk result (λ rows. rows.items ≡ rows_in lanes.old) }
    ensures kept { OnErr result (lanes.new ≡ lanes.old) }
    ensures named { IfErr result (λ e. e ≢ StoreFault.Exhausted) }
    ensures written { IsWritten S.Store StoreKind.Queue StoreFault.Device IsPair HoldsPair (sides_of side lanes.old) (sides_of side (without_all lanes.old)) (sides_of side lanes.new) conn.old conn.new result }
{
    // (a law, for the proof: it does nothing)
    a_release_is_lane_by_lane();
    let Ok(taken) = lanes.all_rows(alloc) else {
        return Err(StoreFault::Memory);
    };
    let lower = lanes.has_overflow();
    if let Err(error) = write_release(conn, side, lanes, &[MAX_ID; LANES], lower) {
        let lost = is_lost(conn, &error);
        return Err(fault(lost));
    }
    lanes.clear();
    Ok(taken)
}
