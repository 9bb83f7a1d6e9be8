//! The statements of a queue, each inside a transaction.

ghost use Rattle.std.specs.Prelude.{All, ◌≡◌, ◌^◌, ◌<◌, OnOk, IfErr, List, length};
ghost use Rattle.sqlite.specs.Held.{state};
ghost use Rattle.sqlite.specs.State.{HasCleanDisk};
ghost use Rattle.dnp_objects.specs.declared.limits.TheConstants as limits;
ghost use Rattle.dnp_eventbuf.specs.FitsLane.{FitsLane};
ghost use Rattle.dnp_eventbuf.specs.EventBuffer.{EventBuffer};
ghost use Rattle.dnp_store.specs.declared.cells.TheConstants.{MANY};
ghost use Rattle.dnp_store.specs.Refusals.{IsRefused};
ghost use Rattle.dnp_store.specs.steps.Inside.{IsInside, IsStep};
ghost use Rattle.dnp_store.specs.QueueTables.{Figures};
ghost use Rattle.dnp_store.specs.steps.Pairs.{HoldsFor};
ghost use Rattle.dnp_store.specs.steps.Steps.{added, all_added, counted, cut, noted};

use crate::cells::{CELLS, MANY, cells, whole_time};
use crate::queue_side::{QueueSide, delete_text, insert_16_text, insert_text, update_text};
use crate::store_kind::StoreKind;
use crate::stores::run;
use dnp_eventbuf::LaneRow;
use sqlite::{Alter, Error, Transaction, params};
use sqlite_value::value::ValueRef;

/// Puts a row into the table of a side, under the next id.
pub(crate) fn insert<S: Alter>(
    tx: &mut Transaction<'_, S>,
    side: QueueSide,
    x: &LaneRow,
) -> Result<(), Error>
    requires inside { IsInside S.Store tx.old.conn }
    requires carried { FitsLane x.now }
    ensures step { IsStep S.Store tx.old.conn tx.new.conn result }
    ensures refused { HasCleanDisk (state S.Store tx.new.conn.now) → IfErr result (IsRefused S.Store StoreKind.Queue tx.old.conn.now tx.new.conn.now) }
    ensures added { HasCleanDisk (state S.Store tx.new.conn.now) → OnOk result ((others s : EventBuffer) (figures : List Figures) → length s.lanes ≡ limits.LANES
        → HoldsFor side others (state S.Store tx.old.conn.now).now s figures → HoldsFor side others (state S.Store tx.new.conn.now).now (added s x.now) figures) }
{
    let lane = x.lane.number() as u32;
    let index = u32::from(x.row.index);
    let flags = u32::from(x.row.flags);
    let value = x.row.value;
    let time = whole_time(x.row.time);
    run(
        tx,
        insert_text(side),
        params![lane, index, flags, value, time],
    )
}

/// Puts sixteen rows into the table of a side, under the next ids, by one statement: the count that AUTOINCREMENT
/// keeps, which costs as much as several rows, is then written once for all of them.
pub(crate) fn insert_many<S: Alter>(
    tx: &mut Transaction<'_, S>,
    side: QueueSide,
    rows: &[LaneRow],
) -> Result<(), Error>
    requires inside { IsInside S.Store tx.old.conn }
    requires carried { All FitsLane rows.now }
    requires sixteen { length rows.now ≡ MANY }
    ensures step { IsStep S.Store tx.old.conn tx.new.conn result }
    ensures refused { HasCleanDisk (state S.Store tx.new.conn.now) → IfErr result (IsRefused S.Store StoreKind.Queue tx.old.conn.now tx.new.conn.now) }
    ensures added { HasCleanDisk (state S.Store tx.new.conn.now) → OnOk result ((others s : EventBuffer) (figures : List Figures) → length s.lanes ≡ limits.LANES
        → HoldsFor side others (state S.Store tx.old.conn.now).now s figures → HoldsFor side others (state S.Store tx.new.conn.now).now (all_added s rows.now) figures) }
{
    let mut given = [[ValueRef::Null; CELLS]; MANY];
    for number in 0..MANY {
        let x = &rows[number];
        given[number] = cells(x.lane.number(), &x.row);
    }
    run(tx, insert_16_text(side), given.as_flattened())
}

/// Takes the rows of a lane with ids up to this one out of the table of a side.
pub(crate) fn take<S: Alter>(
    tx: &mut Transaction<'_, S>,
    side: QueueSide,
    number: usize,
    upto: u64,
) -> Result<(), Error>
    requires inside { IsInside S.Store tx.old.conn }
    requires number { number < limits.LANES }
    requires upto { upto < 2 ^ 63 }
    ensures step { IsStep S.Store tx.old.conn tx.new.conn result }
    ensures refused { HasCleanDisk (state S.Store tx.new.conn.now) → IfErr result (IsRefused S.Store StoreKind.Queue tx.old.conn.now tx.new.conn.now) }
    ensures cut { HasCleanDisk (state S.Store tx.new.conn.now) → OnOk result ((others s : EventBuffer) (figures : List Figures) → length s.lanes ≡ limits.LANES
        → HoldsFor side others (state S.Store tx.old.conn.now).now s figures → HoldsFor side others (state S.Store tx.new.conn.now).now (cut s number upto) figures) }
{
    let lane = number as u32;
    let upto = upto as i64;
    run(tx, delete_text(side), params![lane, upto])
}

/// Notes how many rows a lane of a side has dropped, and whether it raises the overflow.
pub(crate) fn note<S: Alter>(
    tx: &mut Transaction<'_, S>,
    side: QueueSide,
    number: usize,
    lost: u64,
    raised: bool,
) -> Result<(), Error>
    requires inside { IsInside S.Store tx.old.conn }
    requires number { number < limits.LANES }
    requires lost { lost < 2 ^ 63 }
    ensures step { IsStep S.Store tx.old.conn tx.new.conn result }
    ensures refused { HasCleanDisk (state S.Store tx.new.conn.now) → IfErr result (IsRefused S.Store StoreKind.Queue tx.old.conn.now tx.new.conn.now) }
    ensures noted { HasCleanDisk (state S.Store tx.new.conn.now) → OnOk result ((others s : EventBuffer) (figures : List Figures) → length s.lanes ≡ limits.LANES
        → HoldsFor side others (state S.Store tx.old.conn.now).now s figures → HoldsFor side others (state S.Store tx.new.conn.now).now (counted s number lost) (noted figures number lost raised)) }
{
    let lane = number as u32;
    let lost = lost as i64;
    run(tx, update_text(side), params![lane, lost, raised])
}
