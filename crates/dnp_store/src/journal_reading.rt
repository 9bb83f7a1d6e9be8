//! The events of a journal with ids over a number.

ghost use Rattle.std.specs.Prelude.{◌≡◌, ◌≤◌, ◌⊎◌, false, IsTrue, OnOk, IfOk, IfErr, ℕ, List, [], ◌∷◌, pos};
ghost use Rattle.sqlite.specs.declared.types.Value.TheVariants.{Int};
ghost use Rattle.sqlite.specs.Held.{state};
ghost use Rattle.sqlite.specs.Order.{Row as SqlRow};
ghost use Rattle.sqlite.specs.State.{HasCleanDisk, Shown, Survives};
ghost use Rattle.dnp_objects.specs.declared.limits.TheConstants as limits;
ghost use Rattle.dnp_eventbuf.specs.Archive.{Archive, rows_over};
ghost use Rattle.dnp_store.specs.Faults.{RefusesNothing, is_out_of_memory};
ghost use Rattle.dnp_store.specs.JournalKept.{JournalStands};
ghost use Rattle.dnp_store.specs.Refusals.{IsRefused, IsUnread};
ghost use Rattle.dnp_store.specs.Showing.{HasRows};
ghost use Rattle.dnp_store.specs.Texts.{IsOwn, journal_select};
ghost use Rattle.dnp_store.specs.steps.JournalShown.{ShowOver};

use crate::fault::{Unread, is_lost, loses, serves};
use crate::journal_decoding::events_in;
use crate::store_kind::StoreKind;
use dnp_eventbuf::Numbered;
use sqlite::{Alter, Connection, Error, Row, params};
use std::alloc::Global;

/// What the database shows of the first rows with ids over `from`, at most `most`.
fn query_over<S: Alter>(conn: &mut Connection<S>, from: u64, most: u64) -> Result<Vec<Row>, Error>
    requires idle { conn.old.in_transaction ≡ false }
    requires from { from ≤ limits.MAX_ID }
    requires most { most ≤ limits.MAX_ID }
    ensures idle { conn.new.in_transaction ≡ false }
    ensures limit { conn.new.step_limit ≡ conn.old.step_limit }
    ensures held { HasCleanDisk (state S.Store conn.new) → HasCleanDisk (state S.Store conn.old) }
    ensures refused { HasCleanDisk (state S.Store conn.new) → IfErr result (IsRefused S.Store StoreKind.Journal conn.old conn.new) }
    ensures shown { HasCleanDisk (state S.Store conn.new) → IfOk result (λ rows. (sql : List ℕ) × (params : SqlRow) × IsOwn StoreKind.Journal sql × Shown sql params (state S.Store conn.old) (state S.Store conn.new) rows.items) }
    ensures answered { HasCleanDisk (state S.Store conn.new) → IfOk result (λ rows. Shown journal_select (Int (pos from) ∷ Int (pos most) ∷ []) (state S.Store conn.old) (state S.Store conn.new) rows.items) }
    ensures read { HasCleanDisk (state S.Store conn.new) → IfOk result (λ rows. (a : Archive) → JournalStands (state S.Store conn.old) a → ShowOver rows.items a from most) }
    ensures open { HasCleanDisk (state S.Store conn.new) → OnOk result ((a : Archive) → JournalStands (state S.Store conn.old) a → IsTrue (state S.Store conn.new).is_open) }
    ensures same { HasCleanDisk (state S.Store conn.new) → (a : Archive) → JournalStands (state S.Store conn.old) a → IsTrue (state S.Store conn.new).is_open → (state S.Store conn.new).committed ≡ (state S.Store conn.old).committed }
{
    prove!(conn.is_autocommit());
    let from = from as i64;
    let most = most as i64;
    conn.query_all(
        "SELECT id, kind, point, flags, value, time FROM journal WHERE id > ?1 ORDER BY id LIMIT ?2",
        params![from, most],
    )
}

/// Reads the first events with ids over `from`, at most `most`.
pub(crate) fn read_over<S: Alter>(
    conn: &mut Connection<S>,
    alloc: Global,
    from: u64,
    most: u64,
    events: &mut Vec<Numbered>,
) -> Result<(), Unread>
    requires idle { conn.old.in_transaction ≡ false }
    requires from { from ≤ limits.MAX_ID }
    requires most { most ≤ limits.MAX_ID }
    ensures idle { conn.new.in_transaction ≡ false }
    ensures limit { conn.new.step_limit ≡ conn.old.step_limit }
    ensures held { HasCleanDisk (state S.Store conn.new) → HasCleanDisk (state S.Store conn.old) }
    ensures unread { HasCleanDisk (state S.Store conn.new) → IfErr result (IsUnread S.Store conn.old conn.new) }
    ensures has { HasCleanDisk (state S.Store conn.new) → OnOk result (HasRows S.Store from most events.new.items (state S.Store conn.old).now) }
    ensures read { HasCleanDisk (state S.Store conn.new) → OnOk result ((a : Archive) → JournalStands (state S.Store conn.old) a → events.new.items ≡ rows_over a from most) }
    ensures open { HasCleanDisk (state S.Store conn.new) → OnOk result ((a : Archive) → JournalStands (state S.Store conn.old) a → IsTrue (state S.Store conn.new).is_open) }
    ensures same { HasCleanDisk (state S.Store conn.new) → (a : Archive) → JournalStands (state S.Store conn.old) a → IsTrue (state S.Store conn.new).is_open → (state S.Store conn.new).committed ≡ (state S.Store conn.old).committed }
{
    let rows = query_over(conn, from, most)?;
    *events = events_in(alloc, &rows)?;
    Ok(())
}

/// Whether a journal is to answer Device for what it could not read, and not Memory, which it answers where
/// memory ran out and the connection still serves.
pub(crate) fn is_lost_unread<S: Alter>(conn: &mut Connection<S>, unread: &Unread) -> bool
    requires { conn.old.in_transaction ≡ false }
    ensures idle { conn.new.in_transaction ≡ false }
    ensures held { HasCleanDisk (state S.Store conn.new) → HasCleanDisk (state S.Store conn.old) }
    ensures serves { HasCleanDisk (state S.Store conn.new) → result ≡ false → IsTrue (state S.Store conn.new).is_open }
    ensures memory { result ≡ false → IsTrue (is_out_of_memory unread.now) }
    ensures lost { HasCleanDisk (state S.Store conn.new) → IsTrue result → (is_out_of_memory unread.now ≡ false) ⊎ RefusesNothing (state S.Store conn.old) (state S.Store conn.new) }
    ensures survives { Survives (state S.Store conn.old) (state S.Store conn.new) (λ _. ⊥) }
    ensures same { HasCleanDisk (state S.Store conn.new) → IsTrue (state S.Store conn.new).is_open
        → IsTrue (state S.Store conn.old).is_open × ((state S.Store conn.new).committed ≡ (state S.Store conn.old).committed) }
{
    match unread {
        Unread::Form => true,
        Unread::Memory => {
            let serves = serves(conn);
            loses(true, serves)
        }
        Unread::Failed(error) => is_lost(conn, error),
    }
}
