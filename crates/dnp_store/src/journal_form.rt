//! Whether a table is a journal's.

ghost use Rattle.std.specs.Prelude.{◌≡◌, IsTrue};
ghost use Rattle.dnp_store.specs.JournalTables.{journal_with};

use crate::queue_form::{are_columns, is_plain};
use sqlite_schema::schema::Table;

/// Whether the table is `journal`.
pub(crate) fn is_journal(table: &Table) -> bool
    ensures form { IsTrue result → table.now ≡ journal_with table.now.checks }
    ensures found { table.now ≡ journal_with table.now.checks → IsTrue result }
{
    let wanted = [
        ("id", false),
        ("kind", true),
        ("point", true),
        ("flags", true),
        ("value", true),
        ("time", false),
    ];
    are_columns(table.columns.as_slice(), &wanted) && is_plain(table, "journal", 1, true, true)
}
