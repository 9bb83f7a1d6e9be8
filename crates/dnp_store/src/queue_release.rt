//! What a release or an emptying writes of a queue, in one transaction.

ghost use Rattle.std.specs.Prelude.{◌≡◌, ℕ, ◌<◌, false, IsTrue, OnOk, OnErr, List, length, min, slice_index_or, IfErr};
ghost use Rattle.sqlite.specs.Held.{state};
ghost use Rattle.sqlite.specs.State.{HasCleanDisk, Survives};
ghost use Rattle.dnp_objects.specs.declared.limits.TheConstants as limits;
ghost use Rattle.dnp_eventbuf.specs.Sound.{IsSoundBuffer};
ghost use Rattle.dnp_eventbuf.specs.EventBuffer.{EventBuffer, above, lane_at, without};
ghost use Rattle.dnp_store.specs.Refusals.{IsRefused};
ghost use Rattle.dnp_store.specs.steps.Inside.{IsInside, IsStep};
ghost use Rattle.dnp_store.specs.QueueKept.{QueueStands};
ghost use Rattle.dnp_store.specs.PairTables.{HoldsPair};
ghost use Rattle.dnp_store.specs.QueueTables.{Figures, is_raised};
ghost use Rattle.dnp_store.specs.steps.Pairs.{HoldsFor, IsFor, sides_of};
ghost use Rattle.dnp_store.specs.steps.Steps.{cut, left, released};

use crate::queue_side::QueueSide;
use crate::queue_statements::{note, take};
use crate::store_kind::StoreKind;
use crate::transactions::end;
use dnp_eventbuf::laws::a_release_is_lane_by_lane;
use dnp_eventbuf::{PlainLanes, Upto};
use dnp_objects::{LANES, MAX_ID};
use sqlite::{Alter, Connection, Error, Transaction};

/// Whether a lane has rows with ids up to a number.
fn has_up_to(lanes: &PlainLanes, number: usize, upto: u64) -> bool
    requires number { number < limits.LANES }
    requires sound { IsSoundBuffer lanes.now }
    ensures { result ≡ false → above upto (lane_at lanes.now number) ≡ lane_at lanes.now number }
{
    match lanes.id_at(number, &[], 0) {
        Some(first) => first <= upto,
        None => false,
    }
}

/// Takes the rows of a lane with ids up to its number out of the table, where it has any: a statement costs
/// the same for none as for one.
fn take_some<S: Alter>(
    tx: &mut Transaction<'_, S>,
    side: QueueSide,
    lanes: &PlainLanes,
    number: usize,
    upto: &Upto,
) -> Result<(), Error>
    requires inside { IsInside S.Store tx.old.conn }
    requires number { number < limits.LANES }
    requires sound { IsSoundBuffer lanes.now }
    ensures step { IsStep S.Store tx.old.conn tx.new.conn result }
    ensures refused { HasCleanDisk (state S.Store tx.new.conn.now) → IfErr result (IsRefused S.Store StoreKind.Queue tx.old.conn.now tx.new.conn.now) }
    ensures taken { HasCleanDisk (state S.Store tx.new.conn.now) → OnOk result ((others s : EventBuffer) (figures : List Figures) → length s.lanes ≡ limits.LANES
        → lane_at s number ≡ lane_at lanes.now number → HoldsFor side others (state S.Store tx.old.conn.now).now s figures
        → HoldsFor side others (state S.Store tx.new.conn.now).now (cut s number (min (slice_index_or upto.now number 0) limits.MAX_ID)) figures) }
{
    if has_up_to(lanes, number, upto[number].min(MAX_ID)) {
        take(tx, side, number, upto[number].min(MAX_ID))
    } else {
        Ok(())
    }
}

/// Takes the rows of each lane with ids up to its number out of the table.
fn take_all<S: Alter>(
    tx: &mut Transaction<'_, S>,
    side: QueueSide,
    lanes: &PlainLanes,
    upto: &Upto,
) -> Result<(), Error>
    requires inside { IsInside S.Store tx.old.conn }
    requires sound { IsSoundBuffer lanes.now }
    ensures step { IsStep S.Store tx.old.conn tx.new.conn result }
    ensures refused { HasCleanDisk (state S.Store tx.new.conn.now) → IfErr result (IsRefused S.Store StoreKind.Queue tx.old.conn.now tx.new.conn.now) }
    ensures taken { HasCleanDisk (state S.Store tx.new.conn.now) → OnOk result ((others : EventBuffer) (figures : List Figures)
        → HoldsFor side others (state S.Store tx.old.conn.now).now lanes.now figures → HoldsFor side others (state S.Store tx.new.conn.now).now (left lanes.now upto.now) figures) }
{
    // (a law, for the proof: it does nothing)
    a_release_is_lane_by_lane();
    for number in 0..LANES {
        take_some(tx, side, lanes, number, upto)?;
    }
    Ok(())
}

/// Notes for each lane that it doesn't raise the overflow.
fn lower_all<S: Alter>(
    tx: &mut Transaction<'_, S>,
    side: QueueSide,
    lanes: &PlainLanes,
) -> Result<(), Error>
    requires inside { IsInside S.Store tx.old.conn }
    requires sound { IsSoundBuffer lanes.now }
    ensures step { IsStep S.Store tx.old.conn tx.new.conn result }
    ensures refused { HasCleanDisk (state S.Store tx.new.conn.now) → IfErr result (IsRefused S.Store StoreKind.Queue tx.old.conn.now tx.new.conn.now) }
    ensures lowered { HasCleanDisk (state S.Store tx.new.conn.now) → OnOk result ((others s : EventBuffer) (figures : List Figures) → length s.lanes ≡ limits.LANES
        → ((k : ℕ) → k < limits.LANES → (lane_at s k).lost ≡ (lane_at lanes.now k).lost) → HoldsFor side others (state S.Store tx.old.conn.now).now s figures
        → (lowered : List Figures) × HoldsFor side others (state S.Store tx.new.conn.now).now s lowered × (is_raised lowered ≡ false)) }
{
    for number in 0..LANES {
        note(tx, side, number, lanes.lost_in(number), false)?;
    }
    Ok(())
}

/// Takes rows out, and lowers the overflow if told to.
fn release_in<S: Alter>(
    tx: &mut Transaction<'_, S>,
    side: QueueSide,
    lanes: &PlainLanes,
    upto: &Upto,
    lower: bool,
) -> Result<(), Error>
    requires inside { IsInside S.Store tx.old.conn }
    requires sound { IsSoundBuffer lanes.now }
    ensures step { IsStep S.Store tx.old.conn tx.new.conn result }
    ensures refused { HasCleanDisk (state S.Store tx.new.conn.now) → IfErr result (IsRefused S.Store StoreKind.Queue tx.old.conn.now tx.new.conn.now) }
    ensures released { HasCleanDisk (state S.Store tx.new.conn.now) → OnOk result (
        (others : EventBuffer) → IsFor side others (state S.Store tx.old.conn.now).now lanes.now → IsFor side others (state S.Store tx.new.conn.now).now (released lanes.now upto.now lower)) }
{
    take_all(tx, side, lanes, upto)?;
    if lower {
        // (a law, for the proof: it does nothing)
        a_release_is_lane_by_lane();
        lower_all(tx, side, lanes)
    } else {
        Ok(())
    }
}

/// Whether a release ends the overflow.
pub(crate) fn lowers(lanes: &PlainLanes, upto: &Upto) -> bool
    ensures { released lanes.now upto.now result ≡ without lanes.now upto.now }
{
    lanes.has_overflow() && !lanes.keeps_overflow(upto)
}

/// Writes what a release of the rows with ids up to these numbers changes; the overflow is lowered if told
/// to.
pub(crate) fn write_release<S: Alter>(
    conn: &mut Connection<S>,
    side: QueueSide,
    lanes: &PlainLanes,
    upto: &Upto,
    lower: bool,
) -> Result<(), Error>
    requires idle { conn.old.in_transaction ≡ false }
    requires sound { IsSoundBuffer lanes.now }
    ensures idle { conn.new.in_transaction ≡ false }
    ensures ok { HasCleanDisk (state S.Store conn.new) → (others : EventBuffer) → QueueStands (state S.Store conn.old) (sides_of side lanes.now others)
        → OnOk result (QueueStands (state S.Store conn.new) (sides_of side (released lanes.now upto.now lower) others)) }
    ensures err { HasCleanDisk (state S.Store conn.new) → IsTrue (state S.Store conn.new).is_open → OnErr result (IsTrue (state S.Store conn.old).is_open × ((state S.Store conn.new).committed ≡ (state S.Store conn.old).committed)) }
    ensures refused { HasCleanDisk (state S.Store conn.new) → IfErr result (IsRefused S.Store StoreKind.Queue conn.old conn.new) }
    ensures survives { Survives (state S.Store conn.old) (state S.Store conn.new) (λ db. (others : EventBuffer)
        → QueueStands (state S.Store conn.old) (sides_of side lanes.now others) → HoldsPair db (sides_of side (released lanes.now upto.now lower) others)) }
{
    prove!(conn.is_autocommit());
    let mut tx = conn.transaction();
    let done = release_in(&mut tx, side, lanes, upto, lower);
    end(tx, done)
}
