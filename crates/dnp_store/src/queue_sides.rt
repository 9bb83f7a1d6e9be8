//! The lanes that the database of a queue for two centres holds.

ghost use Rattle.std.specs.Prelude.{◌≡◌, ◌⊎◌, IsTrue, List, OnOk, Err, IfErr, IfOk};
ghost use Rattle.sqlite.specs.Held.{state};
ghost use Rattle.sqlite.specs.State.{HasCleanDisk};
ghost use Rattle.sqlite.specs.Order.{Row as SqlRow};
ghost use Rattle.dnp_objects.specs.declared.limits.TheConstants as limits;
ghost use Rattle.dnp_eventbuf.specs.EventBuffer.{EventBuffer};
ghost use Rattle.dnp_store.specs.PairTables.{CountSides, HoldsPair, HoldsSide, Sides, rows_name};
ghost use Rattle.dnp_store.specs.Showing.{HasLanes, HasSides};
ghost use Rattle.dnp_store.specs.Tables.{IsCounted};
ghost use Rattle.dnp_store.specs.steps.Inside.{IsInside, IsStep};
ghost use Rattle.dnp_store.specs.steps.Pairs.{CountsTwo, HoldsAmong, ReadsPair, ReadsSide};
ghost use Rattle.dnp_store.specs.steps.QueueDenied.{CanStand, DeniesPair, DeniesSide, OneStands, SideStandsBy, TwoStand};
ghost use Rattle.dnp_store.specs.steps.Shown.{AreNine, IsMost, IsNoted, IsPutBack, ShowIds};
ghost use Rattle.dnp_store.specs.steps.Stores.{Denies, Reads};

use crate::decoding::{begun, last_of_side, noted_alone, restore_rows, two_noted};
use crate::fault::Unread;
use crate::figures::Figures;
use crate::queue_opening::both;
use crate::queue_reading::{read_figures, read_queued};
use crate::queue_side::QueueSide;
use crate::store_kind::StoreKind;
use crate::stores::read_counts;
use dnp_eventbuf::PlainLanes;
use sqlite::{Alter, Row, Transaction};
use std::alloc::Global;

/// The lanes that these figures and rows of a side show, and whether the last id used there is the one noted for it.
fn put_back(
    alloc: Global,
    side: QueueSide,
    figures: &[Figures],
    counts: &[Row],
    rows: &[Row],
    noted: u64,
) -> Result<(PlainLanes, bool), Unread>
    requires figures { AreNine figures.now }
    ensures put { IfOk result (λ found. IsPutBack figures.now rows.now noted found.0 found.1) }
    ensures counted { IsNoted (rows_name side) counts.now noted → ShowIds rows.now noted → IfOk result (λ found. IsTrue found.1) }
    ensures named { IfErr result (λ unread. (unread ≡ Unread.Form) ⊎ (unread ≡ Unread.Memory)) }
    ensures wrong { result ≡ Err Unread.Form → IsMost (rows_name side) counts.now limits.MAX_ID → CanStand figures.now rows.now → ⊥ }
{
    let Some((last_id, counted)) = last_of_side(counts, rows, rows_name(side), noted) else {
        return Err(Unread::Form);
    };
    let Ok(mut lanes) = begun(alloc, figures, last_id) else {
        return Err(Unread::Memory);
    };
    if restore_rows(rows, &mut lanes) {
        Ok((lanes, counted))
    } else {
        Err(Unread::Form)
    }
}

/// The lanes of one side, and whether the last id used there is the one noted for it.
fn read_side<S: Alter>(
    tx: &mut Transaction<'_, S>,
    side: QueueSide,
    alloc: Global,
    counts: &[Row],
    noted: u64,
) -> Result<(PlainLanes, bool), Unread>
    requires inside { IsInside S.Store tx.old.conn }
    ensures step { IsStep S.Store tx.old.conn tx.new.conn result }
    ensures open { HasCleanDisk (state S.Store tx.new.conn.now) → OnOk result (IsTrue (state S.Store tx.old.conn.now).is_open) }
    ensures read { HasCleanDisk (state S.Store tx.new.conn.now) → IfOk result (λ found. IsTrue found.1 → ReadsSide side (state S.Store tx.old.conn.now) (state S.Store tx.new.conn.now)
        (λ db. (noting : List SqlRow) → IsCounted (rows_name side) noting noted → HoldsAmong side db noting found.0)) }
    ensures shown { HasCleanDisk (state S.Store tx.new.conn.now) → IfOk result (λ found. ReadsSide side (state S.Store tx.old.conn.now) (state S.Store tx.new.conn.now)
        (λ db. (noting : List SqlRow) × HoldsAmong side db noting found.0)) }
    ensures counted { HasCleanDisk (state S.Store tx.new.conn.now) → IfOk result (λ found. ReadsSide side (state S.Store tx.old.conn.now) (state S.Store tx.new.conn.now)
        (λ db. IsNoted (rows_name side) counts.now noted → (noting : List SqlRow) (s : EventBuffer) → HoldsAmong side db noting s → s.last_id ≡ noted → IsTrue found.1)) }
    ensures has { HasCleanDisk (state S.Store tx.new.conn.now) → IfOk result (λ found. HasLanes S.Store side found.0 (state S.Store tx.old.conn.now).now) }
    ensures same { HasCleanDisk (state S.Store tx.new.conn.now) → OnOk result ((state S.Store tx.new.conn.now).now ≡ (state S.Store tx.old.conn.now).now) }
    ensures denies { HasCleanDisk (state S.Store tx.new.conn.now) → IfErr result (λ unread. DeniesSide side (state S.Store tx.old.conn.now) unread (SideStandsBy side counts.now)) }
{
    let figures = read_figures(tx, side)?;
    let rows = read_queued(tx, side)?;
    put_back(alloc, side, &figures, counts, &rows, noted)
}

/// The lanes of a queue for one centre, and whether `sqlite_sequence` counts for them alone.
pub(crate) fn read_one<S: Alter>(
    tx: &mut Transaction<'_, S>,
    alloc: Global,
) -> Result<(PlainLanes, bool), Unread>
    requires inside { IsInside S.Store tx.old.conn }
    ensures step { IsStep S.Store tx.old.conn tx.new.conn result }
    ensures open { HasCleanDisk (state S.Store tx.new.conn.now) → OnOk result (IsTrue (state S.Store tx.old.conn.now).is_open) }
    ensures read { HasCleanDisk (state S.Store tx.new.conn.now) → IfOk result (λ found. IsTrue found.1 → Reads StoreKind.Queue (state S.Store tx.old.conn.now) (state S.Store tx.new.conn.now)
        (λ db. HoldsAmong QueueSide.First db (db 2) found.0)) }
    ensures shown { HasCleanDisk (state S.Store tx.new.conn.now) → IfOk result (λ found. Reads StoreKind.Queue (state S.Store tx.old.conn.now) (state S.Store tx.new.conn.now)
        (λ db. (noting : List SqlRow) × HoldsAmong QueueSide.First db noting found.0)) }
    ensures counted { HasCleanDisk (state S.Store tx.new.conn.now) → IfOk result (λ found. Reads StoreKind.Queue (state S.Store tx.old.conn.now) (state S.Store tx.new.conn.now)
        (λ db. (s : EventBuffer) → HoldsAmong QueueSide.First db (db 2) s → IsTrue found.1)) }
    ensures has { HasCleanDisk (state S.Store tx.new.conn.now) → IfOk result (λ found. HasLanes S.Store QueueSide.First found.0 (state S.Store tx.old.conn.now).now) }
    ensures denies { HasCleanDisk (state S.Store tx.new.conn.now) → IfErr result (λ unread. Denies StoreKind.Queue (state S.Store tx.old.conn.now) unread OneStands) }
{
    let counts = read_counts(tx)?;
    let (noted, alone) = noted_alone(&counts, rows_name(QueueSide::First));
    let (lanes, counted) = read_side(tx, QueueSide::First, alloc, &counts, noted)?;
    Ok((lanes, both(alone, counted)))
}

/// The lanes of both sides, and whether the last ids used are the ones noted for them.
fn read_both<S: Alter>(
    tx: &mut Transaction<'_, S>,
    alloc: Global,
    counts: &[Row],
    noted: (u64, u64),
) -> Result<(PlainLanes, PlainLanes, bool), Unread>
    requires inside { IsInside S.Store tx.old.conn }
    ensures step { IsStep S.Store tx.old.conn tx.new.conn result }
    ensures open { HasCleanDisk (state S.Store tx.new.conn.now) → OnOk result (IsTrue (state S.Store tx.old.conn.now).is_open) }
    ensures read { HasCleanDisk (state S.Store tx.new.conn.now) → IfOk result (λ found. IsTrue found.2 → ReadsPair (state S.Store tx.old.conn.now) (state S.Store tx.new.conn.now)
        (λ db. CountsTwo (db 2) noted.0 noted.1 → HoldsSide QueueSide.First db found.0 × HoldsSide QueueSide.Second db found.1)) }
    ensures counted { HasCleanDisk (state S.Store tx.new.conn.now) → IfOk result (λ found. ReadsPair (state S.Store tx.old.conn.now) (state S.Store tx.new.conn.now)
        (λ db. IsNoted (rows_name QueueSide.First) counts.now noted.0 → IsNoted (rows_name QueueSide.Second) counts.now noted.1 → (sides : Sides) → HoldsPair db sides → sides.first.last_id ≡ noted.0 → sides.second.last_id ≡ noted.1 → IsTrue found.2)) }
    ensures has { HasCleanDisk (state S.Store tx.new.conn.now) → IfOk result (λ found. HasSides S.Store (record { first = found.0; second = found.1 }) (state S.Store tx.old.conn.now).now) }
    ensures denies { HasCleanDisk (state S.Store tx.new.conn.now) → IfErr result (λ unread. DeniesPair (state S.Store tx.old.conn.now) unread
        (λ db. SideStandsBy QueueSide.First counts.now db × SideStandsBy QueueSide.Second counts.now db)) }
{
    let (first, ours) = read_side(tx, QueueSide::First, alloc, counts, noted.0)?;
    let (second, theirs) = read_side(tx, QueueSide::Second, alloc, counts, noted.1)?;
    Ok((first, second, both(ours, theirs)))
}

/// The lanes of both sides, and whether `sqlite_sequence` counts for them alone.
pub(crate) fn read_sides<S: Alter>(
    tx: &mut Transaction<'_, S>,
    alloc: Global,
) -> Result<(PlainLanes, PlainLanes, bool), Unread>
    requires inside { IsInside S.Store tx.old.conn }
    ensures step { IsStep S.Store tx.old.conn tx.new.conn result }
    ensures open { HasCleanDisk (state S.Store tx.new.conn.now) → OnOk result (IsTrue (state S.Store tx.old.conn.now).is_open) }
    ensures read { HasCleanDisk (state S.Store tx.new.conn.now) → IfOk result (λ found. IsTrue found.2 → ReadsPair (state S.Store tx.old.conn.now) (state S.Store tx.new.conn.now)
        (λ db. CountSides (db 2) × HoldsSide QueueSide.First db found.0 × HoldsSide QueueSide.Second db found.1)) }
    ensures counted { HasCleanDisk (state S.Store tx.new.conn.now) → IfOk result (λ found. ReadsPair (state S.Store tx.old.conn.now) (state S.Store tx.new.conn.now)
        (λ db. (sides : Sides) → HoldsPair db sides → IsTrue found.2)) }
    ensures has { HasCleanDisk (state S.Store tx.new.conn.now) → IfOk result (λ found. HasSides S.Store (record { first = found.0; second = found.1 }) (state S.Store tx.old.conn.now).now) }
    ensures denies { HasCleanDisk (state S.Store tx.new.conn.now) → IfErr result (λ unread. DeniesPair (state S.Store tx.old.conn.now) unread TwoStand) }
{
    let counts = read_counts(tx)?;
    let (ours, theirs, alone) = two_noted(
        &counts,
        rows_name(QueueSide::First),
        rows_name(QueueSide::Second),
    );
    let (first, second, counted) = read_both(tx, alloc, &counts, (ours, theirs))?;
    Ok((first, second, both(alone, counted)))
}

/// The name of the table of a side's rows.
fn rows_name(side: QueueSide) -> &'static str
    ensures { result.now ≡ rows_name side }
{
    match side {
        QueueSide::First => "queue",
        QueueSide::Second => "queue_b",
    }
}
