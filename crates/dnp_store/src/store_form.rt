//! Whether a database has the tables of a journal or a book, which have three each, before any other.

ghost use Rattle.std.specs.Prelude.{◌≡◌, ◌≤◌, ◌↔◌, IsTrue, ◌∷◌, drop, length};
ghost use Rattle.sqlite.specs.Held.{state};
ghost use Rattle.sqlite.specs.State.{IsLive};
ghost use Rattle.dnp_store.specs.steps.Stores.{names_of, rows_with};
ghost use Rattle.dnp_store.specs.Tables.{AreBehind, after_tables, checks_at, form_with, schema_of, sequence};

use crate::behind::are_behind;
use crate::book_form::is_control;
use crate::journal_form::is_journal;
use crate::queue_form::{is_form, is_queue, is_sequence};
use crate::store_kind::StoreKind;
use sqlite::{Alter, Connection};
use sqlite_schema::schema::Table;

/// Whether the first tables are a store's, and `sqlite_sequence` counts for it alone.
pub(crate) fn is_own(ours: bool, counted: bool) -> bool
    ensures { IsTrue result ↔ (IsTrue ours × IsTrue counted) }
{
    ours && counted
}

/// Whether the table is that of a store's rows.
fn is_of_rows(table: &Table, kind: StoreKind) -> bool
    ensures form { IsTrue result → table.now ≡ rows_with kind table.now.checks }
    ensures found { table.now ≡ rows_with kind table.now.checks → IsTrue result }
{
    match kind {
        StoreKind::Queue => is_queue(table, "queue", 1),
        StoreKind::Journal => is_journal(table),
        StoreKind::Book => is_control(table),
    }
}

/// Whether the first tables are `form`, that of a store's rows, and that in which AUTOINCREMENT counts.
fn are_three(tables: &[Table], kind: StoreKind) -> bool
    ensures many { IsTrue result → 3 ≤ length tables.now }
    ensures form { IsTrue result → tables.now ≡ form_with (checks_at tables.now 0) ∷ rows_with kind (checks_at tables.now 1) ∷ sequence ∷ drop 3 tables.now }
    ensures found { tables.now ≡ form_with (checks_at tables.now 0) ∷ rows_with kind (checks_at tables.now 1) ∷ sequence ∷ drop 3 tables.now → IsTrue result }
{
    tables.len() >= 3
        && is_form(&tables[0])
        && is_of_rows(&tables[1], kind)
        && is_sequence(&tables[2])
}

/// Whether the database has these tables first, and the others came after them and leave them alone.
pub(crate) fn is_of_three<S: Alter>(conn: &Connection<S>, kind: StoreKind) -> bool
    ensures live { IsLive (state S.Store conn.now) }
    ensures schema { IsTrue result → (state S.Store conn.now).now.schema ≡ schema_of (checks_at (state S.Store conn.now).now.schema.tables 0)
        (rows_with kind (checks_at (state S.Store conn.now).now.schema.tables 1)) (after_tables 3 (state S.Store conn.now).now.schema) }
    ensures behind { IsTrue result → AreBehind (names_of kind) (after_tables 3 (state S.Store conn.now).now.schema) }
    ensures found { (state S.Store conn.now).now.schema ≡ schema_of (checks_at (state S.Store conn.now).now.schema.tables 0)
        (rows_with kind (checks_at (state S.Store conn.now).now.schema.tables 1)) (after_tables 3 (state S.Store conn.now).now.schema)
        → AreBehind (names_of kind) (after_tables 3 (state S.Store conn.now).now.schema) → IsTrue result }
{
    let tables = conn.schema().tables.as_slice();
    are_three(tables, kind) && are_behind(&tables[3..], kind)
}
