//! What the tables of a queue show, each query inside a transaction.

ghost use Rattle.std.specs.Prelude.{◌≡◌, ◌<◌, ℕ, ⊤, IsTrue, List, OnOk, IfErr, IfOk, [], length};
ghost use Rattle.std.specs.List.Sorted.{IsPermutation};
ghost use Rattle.sqlite.specs.Held.{state};
ghost use Rattle.sqlite.specs.State.{HasCleanDisk};
ghost use Rattle.sqlite.specs.Order.{Row as SqlRow};
ghost use Rattle.dnp_objects.specs.declared.limits.TheConstants as limits;
ghost use Rattle.dnp_eventbuf.specs.EventBuffer.{EventBuffer, lane_at};
ghost use Rattle.dnp_store.specs.steps.Inside.{IsInside, IsStep};
ghost use Rattle.dnp_store.specs.PairTables.{lanes_tree, rows_tree};
ghost use Rattle.dnp_store.specs.QueueOpens.{MayStand};
ghost use Rattle.dnp_store.specs.QueueTables.{Figures as FiguresValue, figures_rows};
ghost use Rattle.dnp_store.specs.steps.Pairs.{HasSide, HoldsAmong, ReadsSide};
ghost use Rattle.dnp_store.specs.steps.QueueDenied.{CanStand, DeniesSide, SideStands};
ghost use Rattle.dnp_store.specs.steps.Shown.{AreNine, PutBack, Restores, ShowIds, ShowNine};
ghost use Rattle.dnp_store.specs.Showing.{AreShown};
ghost use Rattle.dnp_store.specs.Texts.{lanes_select, rows_select};

use crate::decoding::all_figures;
use crate::fault::Unread;
use crate::figures::Figures;
use crate::queue_side::QueueSide;
use crate::stores::list;
use dnp_objects::LANES;
use sqlite::{Alter, Error, Row, Transaction};

/// The query for the figures of the lanes of a side, by their numbers.
fn lanes_query(side: QueueSide) -> &'static str
    ensures { result.now ≡ lanes_select side }
{
    match side {
        QueueSide::First => "SELECT lane, cap, lost, raised FROM lanes ORDER BY lane",
        QueueSide::Second => "SELECT lane, cap, lost, raised FROM lanes_b ORDER BY lane",
    }
}

/// The capacities and counts of the nine lanes of a side.
pub(crate) fn read_figures<S: Alter>(
    tx: &mut Transaction<'_, S>,
    side: QueueSide,
) -> Result<[Figures; LANES], Unread>
    requires inside { IsInside S.Store tx.old.conn }
    ensures step { IsStep S.Store tx.old.conn tx.new.conn result }
    ensures open { HasCleanDisk (state S.Store tx.new.conn.now) → OnOk result (IsTrue (state S.Store tx.old.conn.now).is_open) }
    ensures in_range { IfOk result AreNine }
    ensures read { HasCleanDisk (state S.Store tx.new.conn.now) → IfOk result (λ figures. ReadsSide side (state S.Store tx.old.conn.now) (state S.Store tx.new.conn.now)
        (λ db. IsPermutation (figures_rows 0 figures) (db (lanes_tree side)))) }
    ensures shown { HasCleanDisk (state S.Store tx.new.conn.now) → IfOk result (λ figures. (rows : List SqlRow) × AreShown S.Store (lanes_select side) (state S.Store tx.old.conn.now).now rows × ShowNine rows figures) }
    ensures same { HasCleanDisk (state S.Store tx.new.conn.now) → OnOk result ((state S.Store tx.new.conn.now).now ≡ (state S.Store tx.old.conn.now).now) }
    ensures denies { HasCleanDisk (state S.Store tx.new.conn.now) → IfErr result (λ unread. DeniesSide side (state S.Store tx.old.conn.now) unread (SideStands side)) }
{
    let rows = list(tx, lanes_query(side))?;
    all_figures(&rows)
}

/// The rows of a side, by their ids.
pub(crate) fn read_queued<S: Alter>(
    tx: &mut Transaction<'_, S>,
    side: QueueSide,
) -> Result<Vec<Row>, Error>
    requires inside { IsInside S.Store tx.old.conn }
    ensures step { IsStep S.Store tx.old.conn tx.new.conn result }
    ensures open { HasCleanDisk (state S.Store tx.new.conn.now) → OnOk result (IsTrue (state S.Store tx.old.conn.now).is_open) }
    ensures read { HasCleanDisk (state S.Store tx.new.conn.now) → IfOk result (λ rows. ReadsSide side (state S.Store tx.old.conn.now) (state S.Store tx.new.conn.now) (λ db. (a b : EventBuffer) → length a.lanes ≡ limits.LANES
        → ((k : ℕ) → k < limits.LANES → (lane_at a k).rows ≡ []) → Restores 0 rows.items a b → PutBack (db (rows_tree side)) a b)) }
    ensures ids { HasCleanDisk (state S.Store tx.new.conn.now) → IfOk result (λ rows. ReadsSide side (state S.Store tx.old.conn.now) (state S.Store tx.new.conn.now)
        (λ db. (noting : List SqlRow) (s : EventBuffer) → HoldsAmong side db noting s → ShowIds rows.items s.last_id)) }
    ensures puts { HasCleanDisk (state S.Store tx.new.conn.now) → IfOk result (λ rows. HasSide side (state S.Store tx.old.conn.now).now.schema → (counts : List SqlRow) (s : EventBuffer) (figures : List FiguresValue) → MayStand s
        → HoldsAmong side (state S.Store tx.old.conn.now).now.trees counts s → IsPermutation (figures_rows 0 figures) ((state S.Store tx.old.conn.now).now.trees (lanes_tree side)) → CanStand figures rows.items) }
    ensures answered { HasCleanDisk (state S.Store tx.new.conn.now) → IfOk result (λ rows. AreShown S.Store (rows_select side) (state S.Store tx.old.conn.now).now rows.items) }
    ensures same { HasCleanDisk (state S.Store tx.new.conn.now) → OnOk result ((state S.Store tx.new.conn.now).now ≡ (state S.Store tx.old.conn.now).now) }
    ensures denies { HasCleanDisk (state S.Store tx.new.conn.now) → IfErr result (λ e. DeniesSide side (state S.Store tx.old.conn.now) (Unread.Failed e) (λ _. ⊤)) }
{
    list(tx, rows_query(side))
}

/// The query for the rows of a side, by their ids.
fn rows_query(side: QueueSide) -> &'static str
    ensures { result.now ≡ rows_select side }
{
    match side {
        QueueSide::First => "SELECT id, lane, point, flags, value, time FROM queue ORDER BY id",
        QueueSide::Second => "SELECT id, lane, point, flags, value, time FROM queue_b ORDER BY id",
    }
}
