//! The entries of a book that a database holds.

ghost use Rattle.std.specs.Prelude.{◌≡◌, ◌≤◌, ◌↔◌, ◌⊎◌, ⊤, ℕ, false, All, IsTrue, Err, Ok, OnOk, IfErr, IfOk, List, [], codes};
ghost use Rattle.sqlite.specs.Effect.{IsDatabase};
ghost use Rattle.sqlite.specs.Held.{state};
ghost use Rattle.sqlite.specs.Schema.{Schema};
ghost use Rattle.sqlite.specs.State.{HasCleanDisk, Survives};
ghost use Rattle.sqlite.specs.Term.{Term};
ghost use Rattle.dnp_objects.specs.declared.limits.TheConstants as limits;
ghost use Rattle.dnp_controls.specs.declared.book.Entry.{Entry};
ghost use Rattle.dnp_controls.specs.Book.{IsSoundLedger, Ledger};
ghost use Rattle.dnp_store.specs.Faults.{is_wrong};
ghost use Rattle.dnp_store.specs.Refusals.{IsNumbered};
ghost use Rattle.dnp_store.specs.Showing.{AreShown, HasEntries};
ghost use Rattle.dnp_store.specs.steps.Inside.{IsInside, IsStep};
ghost use Rattle.dnp_store.specs.steps.BookShown.{EntriesRise, FindsBook, HoldsEntries, ShowEntries};
ghost use Rattle.dnp_store.specs.steps.Shown.{ShowIds, ShowsCount};
ghost use Rattle.dnp_store.specs.BookTables.{FitsControl, IsBook, IsStorable, book_names, book_schema};
ghost use Rattle.dnp_store.specs.Tables.{AreBehind};
ghost use Rattle.dnp_store.specs.steps.Stores.{Denies, Reads};
ghost use Rattle.dnp_store.specs.Texts.{book_select};

use crate::book_decoding::{are_in_order, put_entries};
use crate::decoding::last_used;
use crate::fault::Unread;
use crate::store_form::{is_of_three, is_own};
use crate::store_kind::StoreKind;
use crate::stores::{list, read_begun};
use dnp_controls::Entry;
use sqlite::{Alter, Connection, Error, Row, Transaction};

/// What an open finds of a book.
#[derive(Clone, Copy)]
pub(crate) struct FoundBook {
    /// The last id used.
    pub(crate) last_id: u64,
    /// Whether `sqlite_sequence` counts for the book alone.
    pub(crate) counted: bool,
}

/// The rows of `control`, by their ids.
fn read_controls<S: Alter>(tx: &mut Transaction<'_, S>) -> Result<Vec<Row>, Error>
    requires inside { IsInside S.Store tx.old.conn }
    ensures step { IsStep S.Store tx.old.conn tx.new.conn result }
    ensures open { HasCleanDisk (state S.Store tx.new.conn.now) → OnOk result (IsTrue (state S.Store tx.old.conn.now).is_open) }
    ensures read { HasCleanDisk (state S.Store tx.new.conn.now) → IfOk result (λ rows. Reads StoreKind.Book (state S.Store tx.old.conn.now) (state S.Store tx.new.conn.now) (λ db. (entries : List Entry)
        → ShowEntries rows.items entries → HoldsEntries db entries)) }
    ensures shown { HasCleanDisk (state S.Store tx.new.conn.now) → IfOk result (λ rows. Reads StoreKind.Book (state S.Store tx.old.conn.now) (state S.Store tx.new.conn.now) (λ db. (book : Ledger)
        → IsSoundLedger book → HoldsEntries db book.entries → ShowEntries rows.items book.entries)) }
    ensures answered { HasCleanDisk (state S.Store tx.new.conn.now) → IfOk result (λ rows. AreShown S.Store book_select (state S.Store tx.old.conn.now).now rows.items) }
    ensures denies { HasCleanDisk (state S.Store tx.new.conn.now) → IfErr result (λ e. Denies StoreKind.Book (state S.Store tx.old.conn.now) (Unread.Failed e) (λ _. ⊤)) }
{
    list(
        tx,
        "SELECT id, target, kind, point, code, count, on_ms, off_ms, value, state, status FROM control ORDER BY id",
    )
}

/// What these rows say of a book. The entries come into a list, which is empty.
fn found_in(counts: &[Row], rows: &[Row], entries: &mut Vec<Entry>) -> Result<FoundBook, Unread>
    requires { entries.old.items ≡ [] }
    ensures range { IfOk result (λ found. found.last_id ≤ limits.MAX_ID) }
    ensures rise { IfOk result (λ found. EntriesRise 0 found.last_id entries.new.items) }
    ensures shown { OnOk result (ShowEntries rows.now entries.new.items) }
    ensures fit { IfOk result (λ _. All FitsControl entries.new.items) }
    ensures counted { IfOk result (λ found. IsTrue found.counted → ShowsCount (codes "control") counts.now found.last_id) }
    ensures alone { IfOk result (λ found. (n : ℕ) → ShowsCount (codes "control") counts.now n → ShowIds rows.now n → IsTrue found.counted) }
    ensures named { IfErr result (λ unread. (unread ≡ Unread.Form) ⊎ (unread ≡ Unread.Memory)) }
    ensures wrong { result ≡ Err Unread.Form → (book : Ledger) → IsStorable book → ShowsCount (codes "control") counts.now book.last_id → ShowEntries rows.now book.entries → ⊥ }
{
    let Some((last_id, counted)) = last_used(counts, rows, "control") else {
        return Err(Unread::Form);
    };
    put_entries(entries, rows)?;
    if are_in_order(entries, last_id) {
        Ok(FoundBook { last_id, counted })
    } else {
        Err(Unread::Form)
    }
}

/// What the tables hold, where they are a book's. The entries come into a list, which is empty.
fn read_all<S: Alter>(
    tx: &mut Transaction<'_, S>,
    entries: &mut Vec<Entry>,
) -> Result<FoundBook, Unread>
    requires inside { IsInside S.Store tx.old.conn }
    requires empty { entries.old.items ≡ [] }
    ensures step { IsStep S.Store tx.old.conn tx.new.conn result }
    ensures open { HasCleanDisk (state S.Store tx.new.conn.now) → OnOk result (IsTrue (state S.Store tx.old.conn.now).is_open) }
    ensures range { IfOk result (λ found. found.last_id ≤ limits.MAX_ID) }
    ensures sound { IfOk result (λ found. IsSoundLedger (record { entries = entries.new.items; last_id = found.last_id })) }
    ensures fit { IfOk result (λ _. All FitsControl entries.new.items) }
    ensures read { HasCleanDisk (state S.Store tx.new.conn.now) → IfOk result (λ found. IsTrue found.counted → (f c : List Term) (more : Schema) → AreBehind book_names more
        → IsDatabase (state S.Store tx.old.conn.now).now → (state S.Store tx.old.conn.now).now.schema ≡ book_schema f c more → FindsBook (state S.Store tx.old.conn.now).now entries.new.items found.last_id) }
    ensures alone { HasCleanDisk (state S.Store tx.new.conn.now) → IfOk result (λ found. (book : Ledger) → IsSoundLedger book → IsDatabase (state S.Store tx.old.conn.now).now
        → IsBook (state S.Store tx.old.conn.now).now book → IsTrue found.counted) }
    ensures numbered { HasCleanDisk (state S.Store tx.new.conn.now) → OnOk result (IsNumbered S.Store 1 (state S.Store tx.old.conn.now).now) }
    ensures entries { HasCleanDisk (state S.Store tx.new.conn.now) → OnOk result (HasEntries S.Store entries.new.items (state S.Store tx.old.conn.now).now) }
    ensures denies { HasCleanDisk (state S.Store tx.new.conn.now) → IfErr result (λ unread. IsTrue (is_wrong unread) → IsTrue (state S.Store tx.old.conn.now).is_open
        × ((book : Ledger) → IsStorable book → IsDatabase (state S.Store tx.old.conn.now).now → IsBook (state S.Store tx.old.conn.now).now book → ⊥)) }
{
    let counts = read_begun(tx)?;
    let rows = read_controls(tx)?;
    found_in(&counts, &rows, entries)
}

/// What was found, and whether it is the database's own.
fn owned_by(found: Result<FoundBook, Unread>, ours: bool) -> Result<(FoundBook, bool), Unread>
    ensures found { IfOk result (λ owned. found ≡ Ok owned.0) }
    ensures refused { IfErr result (λ unread. found ≡ Err unread) }
    ensures owned { IfOk result (λ owned. IsTrue owned.1 ↔ (IsTrue ours × IsTrue owned.0.counted)) }
{
    match found {
        Ok(found) => Ok((found, is_own(ours, found.counted))),
        Err(unread) => Err(unread),
    }
}

/// What the tables hold, and whether a book's tables come first and are left alone by the others. The entries come
/// into a list, which is empty.
pub(crate) fn read_book<S: Alter>(
    conn: &mut Connection<S>,
    entries: &mut Vec<Entry>,
) -> Result<(FoundBook, bool), Unread>
    requires idle { conn.old.in_transaction ≡ false }
    requires empty { entries.old.items ≡ [] }
    ensures idle { conn.new.in_transaction ≡ false }
    ensures range { IfOk result (λ found. found.0.last_id ≤ limits.MAX_ID) }
    ensures sound { IfOk result (λ found. IsSoundLedger (record { entries = entries.new.items; last_id = found.0.last_id })) }
    ensures fit { IfOk result (λ _. All FitsControl entries.new.items) }
    ensures read { HasCleanDisk (state S.Store conn.new) → IfOk result (λ found. IsTrue found.1 → FindsBook (state S.Store conn.old).committed entries.new.items found.0.last_id) }
    ensures alone { HasCleanDisk (state S.Store conn.new) → IfOk result (λ found. (book : Ledger) → IsSoundLedger book → IsBook (state S.Store conn.old).committed book → IsTrue found.1) }
    ensures numbered { HasCleanDisk (state S.Store conn.new) → OnOk result (IsNumbered S.Store 1 (state S.Store conn.old).committed) }
    ensures entries { HasCleanDisk (state S.Store conn.new) → OnOk result (HasEntries S.Store entries.new.items (state S.Store conn.old).committed) }
    ensures denies { HasCleanDisk (state S.Store conn.new) → IfErr result (λ unread. IsTrue (is_wrong unread) → (book : Ledger) → IsStorable book → IsBook (state S.Store conn.old).committed book → ⊥) }
    ensures same { HasCleanDisk (state S.Store conn.new) → IsTrue (state S.Store conn.new).is_open
        → IsTrue (state S.Store conn.old).is_open × ((state S.Store conn.new).committed ≡ (state S.Store conn.old).committed) }
    ensures survives { Survives (state S.Store conn.old) (state S.Store conn.new) (λ _. ⊥) }
{
    prove!(conn.is_autocommit());
    let ours = is_of_three(conn, StoreKind::Book);
    let mut tx = conn.transaction();
    let found = read_all(&mut tx, entries);
    tx.rollback();
    owned_by(found, ours)
}
