//! Whether a database has the tables of a queue.

ghost use Rattle.std.specs.Prelude.{◌≡◌, ◌≤◌, ◌++◌, IsTrue, true, false, List, [], ◌∷◌, None, Some, if◌then◌else◌, length, map, drop};
ghost use Rattle.sqlite.specs.Held.{state};
ghost use Rattle.sqlite.specs.Kind.TheVariants.{Integer, Any};
ghost use Rattle.sqlite.specs.State.{IsLive};
ghost use Rattle.dnp_store.specs.PairTables.{lanes_b_with, pair_names, pair_schema, queue_b_with};
ghost use Rattle.dnp_store.specs.QueueTables.{lanes_columns, lanes_with, queue_columns, queue_schema, queue_with};
ghost use Rattle.dnp_store.specs.steps.Pairs.{checks_among, six_tables};
ghost use Rattle.dnp_store.specs.Tables.{AreBehind, after_tables, checks_at, column_of, form_with, sequence, table_of};

use crate::behind::are_behind;
use crate::store_kind::StoreKind;
use sqlite::{Alter, Connection};
use sqlite_schema::schema::{Column, Kind, Stamps, Table};
use sqlite_value::keys::Collation;
use sqlite_value::value::Value;

/// Whether the column has this name, type and NOT NULL, and nothing else.
pub(crate) fn is_column(column: &Column, name: &str, kind: Kind, not_null: bool) -> bool
    ensures form { IsTrue result → column.now ≡ column_of name.now kind not_null }
    ensures found { column.now ≡ column_of name.now kind not_null → IsTrue result }
{
    column.name.as_slice() == name.as_bytes()
        && column.kind == kind
        && !column.is_strict
        && column.not_null == not_null
        && matches!(column.default, Value::Null)
        && column.collation == Collation::Binary
}

/// Whether the columns are of type INTEGER and have these names, each with NOT NULL or without as it stands beside its name.
pub(crate) fn are_columns(columns: &[Column], wanted: &[(&str, bool)]) -> bool
    ensures form { IsTrue result → columns.now ≡ map (λ w. column_of w.0.now Integer w.1) wanted.now }
    ensures found { columns.now ≡ map (λ w. column_of w.0.now Integer w.1) wanted.now → IsTrue result }
{
    if columns.len() != wanted.len() {
        return false;
    }
    for number in 0..wanted.len() {
        let (name, not_null) = wanted[number];
        if !is_column(&columns[number], name, Kind::Integer, not_null) {
            return false;
        }
    }
    true
}

/// Whether the first column is the INTEGER PRIMARY KEY, or there is none.
fn is_keyed(table: &Table, keyed: bool) -> bool
    ensures key { IsTrue result → table.now.key ≡ (if keyed then Some 0 else None) }
    ensures primary { IsTrue result → table.now.primary ≡ (if keyed then 0 ∷ [] else []) }
    ensures found { table.now.key ≡ (if keyed then Some 0 else None) → table.now.primary ≡ (if keyed then 0 ∷ [] else []) → IsTrue result }
{
    if keyed {
        table.key == Some(0) && table.primary.as_slice() == &[0usize][..]
    } else {
        table.key.is_none() && table.primary.is_empty()
    }
}

/// Whether no column takes the present time.
fn is_unstamped(stamps: &Stamps) -> bool
    ensures form { IsTrue result → stamps.now ≡ record { places = []; terms = []; formats = [] } }
    ensures found { stamps.now ≡ record { places = []; terms = []; formats = [] } → IsTrue result }
{
    stamps.places.is_empty() && stamps.terms.roots.is_empty() && stamps.formats.is_empty()
}

/// Whether nothing but a name, columns, CHECKs and perhaps an INTEGER PRIMARY KEY in the first column makes
/// the table.
pub(crate) fn is_plain(table: &Table, name: &str, tree: u32, keyed: bool, counted: bool) -> bool
    ensures form { IsTrue result → table.now ≡ table_of name.now tree table.now.columns keyed counted table.now.checks }
    ensures found { table.now ≡ table_of name.now tree table.now.columns keyed counted table.now.checks → IsTrue result }
{
    table.name.as_slice() == name.as_bytes()
        && table.tree == tree
        && is_keyed(table, keyed)
        && table.uniques.is_empty()
        && table.orders.is_empty()
        && table.references.is_empty()
        && table.computed.is_empty()
        && is_unstamped(&table.stamps)
        && table.is_counted == counted
}

/// Whether the table is `form`.
pub(crate) fn is_form(table: &Table) -> bool
    ensures form { IsTrue result → table.now ≡ form_with table.now.checks }
    ensures found { table.now ≡ form_with table.now.checks → IsTrue result }
{
    let columns = table.columns.as_slice();
    columns.len() == 1
        && is_column(&columns[0], "number", Kind::Integer, true)
        && is_plain(table, "form", 0, false, false)
}

/// Whether the table has the form of `queue`, under this name and in this tree.
pub(crate) fn is_queue(table: &Table, name: &str, tree: u32) -> bool
    ensures form { IsTrue result → table.now ≡ table_of name.now tree queue_columns true true table.now.checks }
    ensures found { table.now ≡ table_of name.now tree queue_columns true true table.now.checks → IsTrue result }
{
    let wanted = [
        ("id", false),
        ("lane", true),
        ("point", true),
        ("flags", true),
        ("value", true),
        ("time", false),
    ];
    are_columns(table.columns.as_slice(), &wanted) && is_plain(table, name, tree, true, true)
}

/// Whether the table is that in which AUTOINCREMENT counts.
pub(crate) fn is_sequence(table: &Table) -> bool
    ensures form { IsTrue result → table.now ≡ sequence }
    ensures found { table.now ≡ sequence → IsTrue result }
{
    let columns = table.columns.as_slice();
    columns.len() == 2
        && is_column(&columns[0], "name", Kind::Any, false)
        && is_column(&columns[1], "seq", Kind::Any, false)
        && table.checks.roots.is_empty()
        && is_plain(table, "sqlite_sequence", 2, false, false)
}

/// Whether the table has the form of `lanes`, under this name and in this tree.
fn is_lanes(table: &Table, name: &str, tree: u32) -> bool
    ensures form { IsTrue result → table.now ≡ table_of name.now tree lanes_columns true false table.now.checks }
    ensures found { table.now ≡ table_of name.now tree lanes_columns true false table.now.checks → IsTrue result }
{
    let wanted = [
        ("lane", false),
        ("cap", true),
        ("lost", true),
        ("raised", true),
    ];
    are_columns(table.columns.as_slice(), &wanted) && is_plain(table, name, tree, true, false)
}

/// Whether the tables are those of a queue for one centre.
fn are_tables(tables: &[Table]) -> bool
    ensures form { IsTrue result → tables.now ≡ form_with (checks_at tables.now 0) ∷ queue_with (checks_at tables.now 1) ∷ sequence ∷ lanes_with (checks_at tables.now 3) ∷ [] }
    ensures found { tables.now ≡ form_with (checks_at tables.now 0) ∷ queue_with (checks_at tables.now 1) ∷ sequence ∷ lanes_with (checks_at tables.now 3) ∷ [] → IsTrue result }
{
    tables.len() == 4
        && is_form(&tables[0])
        && is_queue(&tables[1], "queue", 1)
        && is_sequence(&tables[2])
        && is_lanes(&tables[3], "lanes", 3)
}

/// Whether the first four of six tables or more are those of a queue's first centre.
fn are_first_tables(tables: &[Table]) -> bool
    requires { 6 ≤ length tables.now }
    ensures form { IsTrue result → tables.now ≡ form_with (checks_at tables.now 0) ∷ queue_with (checks_at tables.now 1) ∷ sequence ∷ lanes_with (checks_at tables.now 3) ∷ drop 4 tables.now }
    ensures found { tables.now ≡ form_with (checks_at tables.now 0) ∷ queue_with (checks_at tables.now 1) ∷ sequence ∷ lanes_with (checks_at tables.now 3) ∷ drop 4 tables.now → IsTrue result }
{
    is_form(&tables[0])
        && is_queue(&tables[1], "queue", 1)
        && is_sequence(&tables[2])
        && is_lanes(&tables[3], "lanes", 3)
}

/// Whether the two after them are those of its second centre.
fn are_last_tables(tables: &[Table]) -> bool
    requires { 6 ≤ length tables.now }
    ensures form { IsTrue result → drop 4 tables.now ≡ queue_b_with (checks_at tables.now 4) ∷ lanes_b_with (checks_at tables.now 5) ∷ drop 6 tables.now }
    ensures found { drop 4 tables.now ≡ queue_b_with (checks_at tables.now 4) ∷ lanes_b_with (checks_at tables.now 5) ∷ drop 6 tables.now → IsTrue result }
{
    is_queue(&tables[4], "queue_b", 4) && is_lanes(&tables[5], "lanes_b", 5)
}

/// Whether the first tables are those of a queue for two centres.
fn are_pair_tables(tables: &[Table]) -> bool
    ensures many { IsTrue result → 6 ≤ length tables.now }
    ensures form { IsTrue result → tables.now ≡ six_tables tables.now ++ drop 6 tables.now }
    ensures found { tables.now ≡ six_tables tables.now ++ drop 6 tables.now → IsTrue result }
{
    tables.len() >= 6 && are_first_tables(tables) && are_last_tables(tables)
}

/// Whether the database has the tables of a queue for one centre, and no others.
pub(crate) fn is_of_queue<S: Alter>(conn: &Connection<S>) -> bool
    ensures live { IsLive (state S.Store conn.now) }
    ensures schema { IsTrue result → (state S.Store conn.now).now.schema ≡ queue_schema (checks_at (state S.Store conn.now).now.schema.tables 0)
        (checks_at (state S.Store conn.now).now.schema.tables 1) (checks_at (state S.Store conn.now).now.schema.tables 3) }
    ensures found { (state S.Store conn.now).now.schema ≡ queue_schema (checks_at (state S.Store conn.now).now.schema.tables 0)
        (checks_at (state S.Store conn.now).now.schema.tables 1) (checks_at (state S.Store conn.now).now.schema.tables 3) → IsTrue result }
{
    let schema = conn.schema();
    are_tables(schema.tables.as_slice()) && schema.indexes.is_empty() && schema.views.is_empty()
}

/// Whether the database has the tables of a queue for two centres first, and the others came after them and leave them alone.
pub(crate) fn is_of_pair<S: Alter>(conn: &Connection<S>) -> bool
    ensures live { IsLive (state S.Store conn.now) }
    ensures schema { IsTrue result → (state S.Store conn.now).now.schema ≡ pair_schema (checks_among (state S.Store conn.now).now.schema) }
    ensures behind { IsTrue result → AreBehind pair_names (after_tables 6 (state S.Store conn.now).now.schema) }
    ensures found { (state S.Store conn.now).now.schema ≡ pair_schema (checks_among (state S.Store conn.now).now.schema)
        → AreBehind pair_names (after_tables 6 (state S.Store conn.now).now.schema) → IsTrue result }
{
    let tables = conn.schema().tables.as_slice();
    are_pair_tables(tables) && are_behind(&tables[6..], StoreKind::Queue)
}
