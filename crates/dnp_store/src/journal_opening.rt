//! The count and the last id of a journal that a database holds.

ghost use Rattle.std.specs.Prelude.{◌≡◌, ◌≤◌, ◌↔◌, ℕ, false, IsTrue, Err, Ok, OnOk, IfErr, IfOk, List, codes};
ghost use Rattle.sqlite.specs.Effect.{IsDatabase};
ghost use Rattle.sqlite.specs.Held.{state};
ghost use Rattle.sqlite.specs.Schema.{Schema};
ghost use Rattle.sqlite.specs.State.{HasCleanDisk, Survives};
ghost use Rattle.sqlite.specs.Term.{Term};
ghost use Rattle.dnp_objects.specs.declared.limits.TheConstants as limits;
ghost use Rattle.dnp_eventbuf.specs.Archive.{Archive};
ghost use Rattle.dnp_store.specs.Faults.{is_wrong};
ghost use Rattle.dnp_store.specs.Refusals.{IsNumbered};
ghost use Rattle.dnp_store.specs.Showing.{HasEvents};
ghost use Rattle.dnp_store.specs.steps.Inside.{IsInside, IsStep};
ghost use Rattle.dnp_store.specs.steps.JournalShown.{Finds};
ghost use Rattle.dnp_store.specs.steps.Shown.{ShowsCount};
ghost use Rattle.dnp_store.specs.JournalTables.{IsJournal, IsStorableArchive, journal_names, journal_schema};
ghost use Rattle.dnp_store.specs.Tables.{AreBehind};

use crate::decoding::last_noted;
use crate::fault::Unread;
use crate::journal_paging::{Gathered, read_logged};
use crate::store_form::{is_of_three, is_own};
use crate::store_kind::StoreKind;
use crate::stores::read_begun;
use sqlite::{Alter, Connection, Row, Transaction};
use std::alloc::Global;

/// What an open finds of a journal.
#[derive(Clone, Copy)]
pub(crate) struct Found {
    /// The last id used.
    pub(crate) last_id: u64,
    /// How many events the table holds.
    pub(crate) count: u64,
    /// Whether `sqlite_sequence` counts for the journal alone.
    pub(crate) counted: bool,
}

/// What these counts and rows say of a journal.
fn found_in(counts: &[Row], logged: Gathered) -> Result<Found, Unread>
    requires { logged.count ≤ logged.last }
    ensures range { IfOk result (λ found. (found.last_id ≤ limits.MAX_ID) × (found.count ≤ found.last_id)) }
    ensures logged { IfOk result (λ found. (found.count ≡ logged.count) × (logged.last ≤ found.last_id)) }
    ensures counted { IfOk result (λ found. IsTrue found.counted → ShowsCount (codes "journal") counts.now found.last_id) }
    ensures alone { IfOk result (λ found. (n : ℕ) → ShowsCount (codes "journal") counts.now n → logged.last ≤ n → IsTrue found.counted) }
    ensures wrong { IfErr result (λ _. (n : ℕ) → ShowsCount (codes "journal") counts.now n → logged.last ≤ n → n ≤ limits.MAX_ID → ⊥) }
{
    match last_noted(counts, logged.last, "journal") {
        Some((last_id, counted)) => Ok(Found {
            last_id,
            count: logged.count,
            counted,
        }),
        None => Err(Unread::Form),
    }
}

/// What was found, and whether it is the database's own.
fn owned_by(found: Result<Found, Unread>, ours: bool) -> Result<(Found, bool), Unread>
    ensures found { IfOk result (λ owned. found ≡ Ok owned.0) }
    ensures refused { IfErr result (λ unread. found ≡ Err unread) }
    ensures owned { IfOk result (λ owned. IsTrue owned.1 ↔ (IsTrue ours × IsTrue owned.0.counted)) }
{
    match found {
        Ok(found) => Ok((found, is_own(ours, found.counted))),
        Err(unread) => Err(unread),
    }
}

/// What the tables hold, where they are a journal's.
fn read_all<S: Alter>(tx: &mut Transaction<'_, S>, alloc: Global) -> Result<Found, Unread>
    requires inside { IsInside S.Store tx.old.conn }
    ensures step { IsStep S.Store tx.old.conn tx.new.conn result }
    ensures open { HasCleanDisk (state S.Store tx.new.conn.now) → OnOk result (IsTrue (state S.Store tx.old.conn.now).is_open) }
    ensures range { IfOk result (λ found. (found.last_id ≤ limits.MAX_ID) × (found.count ≤ found.last_id)) }
    ensures read { HasCleanDisk (state S.Store tx.new.conn.now) → IfOk result (λ found. IsTrue found.counted → (f j : List Term) (more : Schema) → AreBehind journal_names more
        → IsDatabase (state S.Store tx.old.conn.now).now → (state S.Store tx.old.conn.now).now.schema ≡ journal_schema f j more → Finds (state S.Store tx.old.conn.now).now found.last_id found.count) }
    ensures alone { HasCleanDisk (state S.Store tx.new.conn.now) → IfOk result (λ found. (a : Archive) → IsDatabase (state S.Store tx.old.conn.now).now
        → IsJournal (state S.Store tx.old.conn.now).now a → IsTrue found.counted) }
    ensures numbered { HasCleanDisk (state S.Store tx.new.conn.now) → OnOk result (IsNumbered S.Store 1 (state S.Store tx.old.conn.now).now) }
    ensures events { HasCleanDisk (state S.Store tx.new.conn.now) → IfOk result (λ found. HasEvents S.Store found.count (state S.Store tx.old.conn.now).now) }
    ensures denies { HasCleanDisk (state S.Store tx.new.conn.now) → IfErr result (λ unread. IsTrue (is_wrong unread) → IsTrue (state S.Store tx.old.conn.now).is_open
        × ((a : Archive) → IsStorableArchive a → IsDatabase (state S.Store tx.old.conn.now).now → IsJournal (state S.Store tx.old.conn.now).now a → ⊥)) }
{
    let counts = read_begun(tx)?;
    let logged = read_logged(tx, alloc)?;
    found_in(&counts, logged)
}

/// What the tables hold, and whether a journal's tables come first and are left alone by the others.
pub(crate) fn read_journal<S: Alter>(
    conn: &mut Connection<S>,
    alloc: Global,
) -> Result<(Found, bool), Unread>
    requires idle { conn.old.in_transaction ≡ false }
    ensures idle { conn.new.in_transaction ≡ false }
    ensures range { IfOk result (λ found. (found.0.last_id ≤ limits.MAX_ID) × (found.0.count ≤ found.0.last_id)) }
    ensures read { HasCleanDisk (state S.Store conn.new) → IfOk result (λ found. IsTrue found.1 → Finds (state S.Store conn.old).committed found.0.last_id found.0.count) }
    ensures alone { HasCleanDisk (state S.Store conn.new) → IfOk result (λ found. (a : Archive) → IsJournal (state S.Store conn.old).committed a → IsTrue found.1) }
    ensures numbered { HasCleanDisk (state S.Store conn.new) → OnOk result (IsNumbered S.Store 1 (state S.Store conn.old).committed) }
    ensures events { HasCleanDisk (state S.Store conn.new) → IfOk result (λ found. HasEvents S.Store found.0.count (state S.Store conn.old).committed) }
    ensures denies { HasCleanDisk (state S.Store conn.new) → IfErr result (λ unread. IsTrue (is_wrong unread) → (a : Archive) → IsStorableArchive a → IsJournal (state S.Store conn.old).committed a → ⊥) }
    ensures same { HasCleanDisk (state S.Store conn.new) → IsTrue (state S.Store conn.new).is_open
        → IsTrue (state S.Store conn.old).is_open × ((state S.Store conn.new).committed ≡ (state S.Store conn.old).committed) }
    ensures survives { Survives (state S.Store conn.old) (state S.Store conn.new) (λ _. ⊥) }
{
    prove!(conn.is_autocommit());
    let ours = is_of_three(conn, StoreKind::Journal);
    let mut tx = conn.transaction();
    let found = read_all(&mut tx, alloc);
    tx.rollback();
    owned_by(found, ours)
}
