//! The lanes that the database of a queue holds.

ghost use Rattle.std.specs.Prelude.{◌≡◌, ◌⊎◌, false, IsTrue, OnOk, IfErr, IfOk};
ghost use Rattle.sqlite.specs.Held.{state};
ghost use Rattle.sqlite.specs.State.{HasCleanDisk, Survives};
ghost use Rattle.dnp_store.specs.Faults.{is_wrong};
ghost use Rattle.dnp_store.specs.QueueOpens.{HoldsOne, HoldsTwo};
ghost use Rattle.dnp_store.specs.steps.Inside.{IsInside, IsStep};
ghost use Rattle.dnp_store.specs.steps.QueueDenied.{DeniesQueue};
ghost use Rattle.dnp_store.specs.Refusals.{IsNumbered};
ghost use Rattle.dnp_store.specs.steps.Stored.{AreCounted, AreRead, IsOwned, IsShown, IsStored, number_of, owned_by};

use crate::fault::Unread;
use crate::queue_form::{is_of_pair, is_of_queue};
use crate::queue_sides::{read_one, read_sides};
use crate::stores::read_number;
use dnp_eventbuf::PlainLanes;
use sqlite::{Alter, Connection, Transaction};
use std::alloc::Global;

/// Whether both are so.
pub(crate) fn both(one: bool, other: bool) -> bool
    ensures value { IsTrue result → IsTrue one × IsTrue other }
    ensures found { IsTrue one → IsTrue other → IsTrue result }
{
    one && other
}

/// What the database of a queue holds, by the tables that it has.
#[derive(Drop)]
pub(crate) enum Stored {
    /// The lanes of a queue for one centre, and whether nothing else stands there.
    One(PlainLanes, bool),
    /// The lanes of a queue for two centres, and whether its tables come first and are left alone by the others.
    Pair(PlainLanes, PlainLanes, bool),
}

/// What stands there, by the number of its form, and whether `sqlite_sequence` counts for it alone.
fn read_numbered<S: Alter>(tx: &mut Transaction<'_, S>, alloc: Global) -> Result<Stored, Unread>
    requires inside { IsInside S.Store tx.old.conn }
    ensures step { IsStep S.Store tx.old.conn tx.new.conn result }
    ensures open { HasCleanDisk (state S.Store tx.new.conn.now) → OnOk result (IsTrue (state S.Store tx.old.conn.now).is_open) }
    ensures read { HasCleanDisk (state S.Store tx.new.conn.now) → IfOk result (IsShown (state S.Store tx.old.conn.now).now) }
    ensures counted { HasCleanDisk (state S.Store tx.new.conn.now) → IfOk result (AreCounted (state S.Store tx.old.conn.now).now) }
    ensures numbered { HasCleanDisk (state S.Store tx.new.conn.now) → IfOk result (λ stored. IsNumbered S.Store (number_of stored) (state S.Store tx.old.conn.now).now) }
    ensures has { HasCleanDisk (state S.Store tx.new.conn.now) → IfOk result (AreRead S.Store (state S.Store tx.old.conn.now).now) }
    ensures denies { HasCleanDisk (state S.Store tx.new.conn.now) → IfErr result (DeniesQueue (state S.Store tx.old.conn.now)) }
{
    match read_number(tx)? {
        1 => {
            let (lanes, counted) = read_one(tx, alloc)?;
            Ok(Stored::One(lanes, counted))
        }
        2 => {
            let (first, second, counted) = read_sides(tx, alloc)?;
            Ok(Stored::Pair(first, second, counted))
        }
        _ => Err(Unread::Form),
    }
}

/// What was found, and whether it is the database's own.
fn owned_by(stored: Stored, one: bool, pair: bool) -> Stored
    ensures { result ≡ owned_by stored one pair }
{
    match stored {
        Stored::One(lanes, counted) => Stored::One(lanes, one && counted),
        Stored::Pair(first, second, counted) => Stored::Pair(first, second, pair && counted),
    }
}

/// What the database of a queue holds, and whether the tables of such a queue are its own: for one centre, where nothing
/// else stands there; for two, where they come first and are left alone by the others.
pub(crate) fn read_stored<S: Alter>(
    conn: &mut Connection<S>,
    alloc: Global,
) -> Result<Stored, Unread>
    requires idle { conn.old.in_transaction ≡ false }
    ensures idle { conn.new.in_transaction ≡ false }
    ensures read { HasCleanDisk (state S.Store conn.new) → IfOk result (IsStored (state S.Store conn.old).committed) }
    ensures owned { HasCleanDisk (state S.Store conn.new) → IfOk result (IsOwned (state S.Store conn.old).committed) }
    ensures numbered { HasCleanDisk (state S.Store conn.new) → IfOk result (λ stored. IsNumbered S.Store (number_of stored) (state S.Store conn.old).committed) }
    ensures has { HasCleanDisk (state S.Store conn.new) → IfOk result (AreRead S.Store (state S.Store conn.old).committed) }
    ensures denies { HasCleanDisk (state S.Store conn.new) → IfErr result (λ unread. IsTrue (is_wrong unread)
        → HoldsTwo (state S.Store conn.old).committed ⊎ HoldsOne (state S.Store conn.old).committed → ⊥) }
    ensures same { HasCleanDisk (state S.Store conn.new) → IsTrue (state S.Store conn.new).is_open
        → IsTrue (state S.Store conn.old).is_open × ((state S.Store conn.new).committed ≡ (state S.Store conn.old).committed) }
    ensures survives { Survives (state S.Store conn.old) (state S.Store conn.new) (λ _. ⊥) }
{
    prove!(conn.is_autocommit());
    let one = is_of_queue(conn);
    let pair = is_of_pair(conn);
    let mut tx = conn.transaction();
    let stored = read_numbered(&mut tx, alloc)?;
    tx.rollback();
    Ok(owned_by(stored, one, pair))
}
