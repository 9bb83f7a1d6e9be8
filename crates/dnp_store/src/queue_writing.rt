//! What an append, a release or an emptying writes of a queue, each in one transaction.

ghost use Rattle.std.specs.Prelude.{◌≡◌, ◌≤◌, ◌<◌, ◌+◌, ◌^◌, Bool, false, IsTrue, OnOk, OnErr, All, List, length, IfErr};
ghost use Rattle.sqlite.specs.Held.{state};
ghost use Rattle.sqlite.specs.State.{HasCleanDisk, Survives};
ghost use Rattle.dnp_objects.specs.declared.limits.TheConstants as limits;
ghost use Rattle.dnp_eventbuf.specs.FitsLane.{FitsLane};
ghost use Rattle.dnp_eventbuf.specs.Sound.{IsSoundBuffer};
ghost use Rattle.dnp_eventbuf.specs.EventBuffer.{EventBuffer, with_rows};
ghost use Rattle.dnp_store.specs.Refusals.{IsRefused};
ghost use Rattle.dnp_store.specs.steps.Inside.{IsInside, IsStep};
ghost use Rattle.dnp_store.specs.QueueKept.{QueueStands};
ghost use Rattle.dnp_store.specs.PairTables.{HoldsPair, IsPair};
ghost use Rattle.dnp_store.specs.QueueTables.{Figures};
ghost use Rattle.dnp_store.specs.steps.Pairs.{HoldsFor, IsFor, sides_of};
ghost use Rattle.dnp_store.specs.steps.Steps.{IsTrimmed, all_added};

use crate::cells::MANY;
use crate::queue_side::QueueSide;
use crate::queue_statements::{insert, insert_many, note, take};
use crate::store_kind::StoreKind;
use crate::transactions::end;
use dnp_eventbuf::laws::a_lane_keeps_its_latest_rows;
use dnp_eventbuf::{LaneRow, PlainLanes};
use dnp_objects::LANES;
use sqlite::{Alter, Connection, Error, Transaction};

/// Puts the rows into the table one by one, under the ids that follow the last one used.
fn insert_each<S: Alter>(
    tx: &mut Transaction<'_, S>,
    side: QueueSide,
    rows: &[LaneRow],
) -> Result<(), Error>
    requires inside { IsInside S.Store tx.old.conn }
    requires carried { All FitsLane rows.now }
    ensures step { IsStep S.Store tx.old.conn tx.new.conn result }
    ensures refused { HasCleanDisk (state S.Store tx.new.conn.now) → IfErr result (IsRefused S.Store StoreKind.Queue tx.old.conn.now tx.new.conn.now) }
    ensures added { HasCleanDisk (state S.Store tx.new.conn.now) → OnOk result ((others s : EventBuffer) (figures : List Figures) → length s.lanes ≡ limits.LANES
        → HoldsFor side others (state S.Store tx.old.conn.now).now s figures → HoldsFor side others (state S.Store tx.new.conn.now).now (all_added s rows.now) figures) }
{
    for x in rows {
        insert(tx, side, x)?;
    }
    Ok(())
}

/// Puts some rows into the table: sixteen by one statement, any others one by one.
fn insert_block<S: Alter>(
    tx: &mut Transaction<'_, S>,
    side: QueueSide,
    rows: &[LaneRow],
) -> Result<(), Error>
    requires inside { IsInside S.Store tx.old.conn }
    requires carried { All FitsLane rows.now }
    ensures added { HasCleanDisk (state S.Store tx.new.conn.now) → OnOk result ((others s : EventBuffer) (figures : List Figures) → length s.lanes ≡ limits.LANES
        → HoldsFor side others (state S.Store tx.old.conn.now).now s figures → HoldsFor side others (state S.Store tx.new.conn.now).now (all_added s rows.now) figures) }
    ensures step { IsStep S.Store tx.old.conn tx.new.conn result }
    ensures refused { HasCleanDisk (state S.Store tx.new.conn.now) → IfErr result (IsRefused S.Store StoreKind.Queue tx.old.conn.now tx.new.conn.now) }
{
    if rows.len() == MANY {
        insert_many(tx, side, rows)
    } else {
        insert_each(tx, side, rows)
    }
}

/// Puts the rows into the table, under the ids that follow the last one used.
fn insert_all<S: Alter>(
    tx: &mut Transaction<'_, S>,
    side: QueueSide,
    rows: &[LaneRow],
) -> Result<(), Error>
    requires inside { IsInside S.Store tx.old.conn }
    requires carried { All FitsLane rows.now }
    ensures refused { HasCleanDisk (state S.Store tx.new.conn.now) → IfErr result (IsRefused S.Store StoreKind.Queue tx.old.conn.now tx.new.conn.now) }
    ensures step { IsStep S.Store tx.old.conn tx.new.conn result }
    ensures added { HasCleanDisk (state S.Store tx.new.conn.now) → OnOk result ((others s : EventBuffer) (figures : List Figures) → length s.lanes ≡ limits.LANES
        → HoldsFor side others (state S.Store tx.old.conn.now).now s figures → HoldsFor side others (state S.Store tx.new.conn.now).now (all_added s rows.now) figures) }
{
    for block in rows.chunks(MANY) {
        insert_block(tx, side, block)?;
    }
    Ok(())
}

/// Has one lane drop what it has to for these rows, and counts it.
fn trim<S: Alter>(
    tx: &mut Transaction<'_, S>,
    side: QueueSide,
    lanes: &PlainLanes,
    number: usize,
    rows: &[LaneRow],
) -> Result<(), Error>
    requires inside { IsInside S.Store tx.old.conn }
    requires number { number < limits.LANES }
    requires sound { IsSoundBuffer lanes.now }
    requires after { IsSoundBuffer (with_rows lanes.now rows.now) }
    requires few { lanes.now.last_id + length rows.now ≤ 2 ^ 62 }
    ensures step { IsStep S.Store tx.old.conn tx.new.conn result }
    ensures refused { HasCleanDisk (state S.Store tx.new.conn.now) → IfErr result (IsRefused S.Store StoreKind.Queue tx.old.conn.now tx.new.conn.now) }
    ensures trimmed { HasCleanDisk (state S.Store tx.new.conn.now) → OnOk result ((others : EventBuffer) (raised : Bool)
        → IsTrimmed side others (state S.Store tx.old.conn.now).now lanes.now rows.now raised number → IsTrimmed side others (state S.Store tx.new.conn.now).now lanes.now rows.now raised (number + 1)) }
{
    // (a law, for the proof: it does nothing)
    a_lane_keeps_its_latest_rows();
    let over = lanes.drops_in(number, rows);
    if over == 0 {
        return Ok(());
    }
    let Some(upto) = lanes.id_at(number, rows, over - 1) else {
        return Err(Error::InvalidQuery);
    };
    let lost = lanes.lost_in(number) + over as u64;
    take(tx, side, number, upto)?;
    note(tx, side, number, lost, true)
}

/// Has each lane drop what it has to for these rows.
fn trim_all<S: Alter>(
    tx: &mut Transaction<'_, S>,
    side: QueueSide,
    lanes: &PlainLanes,
    rows: &[LaneRow],
) -> Result<(), Error>
    requires inside { IsInside S.Store tx.old.conn }
    requires sound { IsSoundBuffer lanes.now }
    requires after { IsSoundBuffer (with_rows lanes.now rows.now) }
    requires few { lanes.now.last_id + length rows.now ≤ 2 ^ 62 }
    ensures step { IsStep S.Store tx.old.conn tx.new.conn result }
    ensures refused { HasCleanDisk (state S.Store tx.new.conn.now) → IfErr result (IsRefused S.Store StoreKind.Queue tx.old.conn.now tx.new.conn.now) }
    ensures trimmed { HasCleanDisk (state S.Store tx.new.conn.now) → OnOk result ((others : EventBuffer) (raised : Bool)
        → IsTrimmed side others (state S.Store tx.old.conn.now).now lanes.now rows.now raised 0 → IsTrimmed side others (state S.Store tx.new.conn.now).now lanes.now rows.now raised limits.LANES) }
{
    for number in 0..LANES {
        trim(tx, side, lanes, number, rows)?;
    }
    Ok(())
}

/// Puts rows into the table of a side, and has its lanes drop what they have to for them.
fn append_in<S: Alter>(
    tx: &mut Transaction<'_, S>,
    side: QueueSide,
    lanes: &PlainLanes,
    rows: &[LaneRow],
) -> Result<(), Error>
    requires inside { IsInside S.Store tx.old.conn }
    requires carried { All FitsLane rows.now }
    requires sound { IsSoundBuffer lanes.now }
    requires after { IsSoundBuffer (with_rows lanes.now rows.now) }
    requires few { lanes.now.last_id + length rows.now ≤ 2 ^ 62 }
    ensures step { IsStep S.Store tx.old.conn tx.new.conn result }
    ensures refused { HasCleanDisk (state S.Store tx.new.conn.now) → IfErr result (IsRefused S.Store StoreKind.Queue tx.old.conn.now tx.new.conn.now) }
    ensures appended { HasCleanDisk (state S.Store tx.new.conn.now) → OnOk result ((others : EventBuffer)
        → IsFor side others (state S.Store tx.old.conn.now).now lanes.now → IsFor side others (state S.Store tx.new.conn.now).now (with_rows lanes.now rows.now)) }
{
    // (a law, for the proof: it does nothing)
    a_lane_keeps_its_latest_rows();
    insert_all(tx, side, rows)?;
    trim_all(tx, side, lanes, rows)
}

/// Puts rows into the tables of both sides.
fn append_in_both<S: Alter>(
    tx: &mut Transaction<'_, S>,
    first: &PlainLanes,
    second: &PlainLanes,
    rows: &[LaneRow],
) -> Result<(), Error>
    requires inside { IsInside S.Store tx.old.conn }
    requires carried { All FitsLane rows.now }
    requires first { IsSoundBuffer first.now }
    requires second { IsSoundBuffer second.now }
    requires first_after { IsSoundBuffer (with_rows first.now rows.now) }
    requires second_after { IsSoundBuffer (with_rows second.now rows.now) }
    requires few { first.now.last_id + length rows.now ≤ 2 ^ 62 }
    requires few_too { second.now.last_id + length rows.now ≤ 2 ^ 62 }
    ensures step { IsStep S.Store tx.old.conn tx.new.conn result }
    ensures refused { HasCleanDisk (state S.Store tx.new.conn.now) → IfErr result (IsRefused S.Store StoreKind.Queue tx.old.conn.now tx.new.conn.now) }
    ensures appended { HasCleanDisk (state S.Store tx.new.conn.now) → OnOk result (IsPair (state S.Store tx.old.conn.now).now (record { first = first.now; second = second.now })
        → IsPair (state S.Store tx.new.conn.now).now (record { first = with_rows first.now rows.now; second = with_rows second.now rows.now })) }
{
    append_in(tx, QueueSide::First, first, rows)?;
    append_in(tx, QueueSide::Second, second, rows)
}

/// Writes what an append on one side changes.
pub(crate) fn write_append<S: Alter>(
    conn: &mut Connection<S>,
    side: QueueSide,
    lanes: &PlainLanes,
    rows: &[LaneRow],
) -> Result<(), Error>
    requires idle { conn.old.in_transaction ≡ false }
    requires carried { All FitsLane rows.now }
    requires sound { IsSoundBuffer lanes.now }
    requires after { IsSoundBuffer (with_rows lanes.now rows.now) }
    requires few { lanes.now.last_id + length rows.now ≤ 2 ^ 62 }
    ensures idle { conn.new.in_transaction ≡ false }
    ensures ok { HasCleanDisk (state S.Store conn.new) → (others : EventBuffer) → QueueStands (state S.Store conn.old) (sides_of side lanes.now others)
        → OnOk result (QueueStands (state S.Store conn.new) (sides_of side (with_rows lanes.now rows.now) others)) }
    ensures err { HasCleanDisk (state S.Store conn.new) → IsTrue (state S.Store conn.new).is_open → OnErr result (IsTrue (state S.Store conn.old).is_open × ((state S.Store conn.new).committed ≡ (state S.Store conn.old).committed)) }
    ensures refused { HasCleanDisk (state S.Store conn.new) → IfErr result (IsRefused S.Store StoreKind.Queue conn.old conn.new) }
    ensures survives { Survives (state S.Store conn.old) (state S.Store conn.new) (λ db. (others : EventBuffer)
        → QueueStands (state S.Store conn.old) (sides_of side lanes.now others) → HoldsPair db (sides_of side (with_rows lanes.now rows.now) others)) }
{
    prove!(conn.is_autocommit());
    let mut tx = conn.transaction();
    let done = append_in(&mut tx, side, lanes, rows);
    end(tx, done)
}

/// Writes what an append on both sides changes, in one transaction.
pub(crate) fn write_both<S: Alter>(
    conn: &mut Connection<S>,
    first: &PlainLanes,
    second: &PlainLanes,
    rows: &[LaneRow],
) -> Result<(), Error>
    requires idle { conn.old.in_transaction ≡ false }
    requires carried { All FitsLane rows.now }
    requires first { IsSoundBuffer first.now }
    requires second { IsSoundBuffer second.now }
    requires first_after { IsSoundBuffer (with_rows first.now rows.now) }
    requires second_after { IsSoundBuffer (with_rows second.now rows.now) }
    requires few { first.now.last_id + length rows.now ≤ 2 ^ 62 }
    requires few_too { second.now.last_id + length rows.now ≤ 2 ^ 62 }
    ensures idle { conn.new.in_transaction ≡ false }
    ensures ok { HasCleanDisk (state S.Store conn.new) → QueueStands (state S.Store conn.old) (record { first = first.now; second = second.now })
        → OnOk result (QueueStands (state S.Store conn.new) (record { first = with_rows first.now rows.now; second = with_rows second.now rows.now })) }
    ensures err { HasCleanDisk (state S.Store conn.new) → IsTrue (state S.Store conn.new).is_open → OnErr result (IsTrue (state S.Store conn.old).is_open × ((state S.Store conn.new).committed ≡ (state S.Store conn.old).committed)) }
    ensures refused { HasCleanDisk (state S.Store conn.new) → IfErr result (IsRefused S.Store StoreKind.Queue conn.old conn.new) }
    ensures survives { Survives (state S.Store conn.old) (state S.Store conn.new) (λ db. QueueStands (state S.Store conn.old) (record { first = first.now; second = second.now })
        → HoldsPair db (record { first = with_rows first.now rows.now; second = with_rows second.now rows.now })) }
{
    prove!(conn.is_autocommit());
    let mut tx = conn.transaction();
    let done = append_in_both(&mut tx, first, second, rows);
    end(tx, done)
}
