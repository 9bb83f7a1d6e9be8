//! Whether a table is that of a book's entries.

ghost use Rattle.std.specs.Prelude.{◌≡◌, IsTrue};
ghost use Rattle.dnp_store.specs.BookTables.{book_with};

use crate::queue_form::{are_columns, is_plain};
use sqlite_schema::schema::Table;

/// Whether the table is `control`.
pub(crate) fn is_control(table: &Table) -> bool
    ensures form { IsTrue result → table.now ≡ book_with table.now.checks }
    ensures found { table.now ≡ book_with table.now.checks → IsTrue result }
{
    let wanted = [
        ("id", false),
        ("target", true),
        ("kind", true),
        ("point", true),
        ("code", true),
        ("count", true),
        ("on_ms", true),
        ("off_ms", true),
        ("value", true),
        ("state", true),
        ("status", true),
    ];
    are_columns(table.columns.as_slice(), &wanted) && is_plain(table, "control", 1, true, true)
}
