//! Whether tables stand behind those of a store, and leave them alone.

ghost use Rattle.std.specs.List.{list_all, list_any};
ghost use Rattle.std.specs.Prelude.{◌≡◌, [], ◌∷◌, codes, length, not};
ghost use Rattle.sqlite_schema.specs.Names.{same_name};
ghost use Rattle.dnp_store.specs.steps.Stores.{name_of, names_of};
ghost use Rattle.dnp_store.specs.Tables.{is_behind};

use crate::store_kind::{StoreKind, rows_name};
use sqlite_schema::names::same_name;
use sqlite_schema::schema::{Reference, Table};

/// Whether the name is that of a table of a journal or a book.
fn is_of_three_names(name: &[u8], rows: &str) -> bool
    ensures { result ≡ list_any (λ own. same_name own name.now) (codes "form" ∷ rows.now ∷ codes "sqlite_sequence" ∷ []) }
{
    if same_name("form".as_bytes(), name) {
        return true;
    }
    if same_name(rows.as_bytes(), name) {
        return true;
    }
    same_name("sqlite_sequence".as_bytes(), name)
}

/// Whether the name is that of a table that a queue has beside those.
fn is_of_lanes_names(name: &[u8]) -> bool
    ensures { result ≡ list_any (λ own. same_name own name.now) (codes "lanes" ∷ codes "queue_b" ∷ codes "lanes_b" ∷ []) }
{
    if same_name("lanes".as_bytes(), name) {
        return true;
    }
    if same_name("queue_b".as_bytes(), name) {
        return true;
    }
    same_name("lanes_b".as_bytes(), name)
}

/// Whether the name is that of one of a store's tables.
fn is_own_name(name: &[u8], kind: StoreKind) -> bool
    ensures { result ≡ list_any (λ own. same_name own name.now) (names_of kind) }
{
    let three = is_of_three_names(name, rows_name(kind));
    match kind {
        StoreKind::Queue => three || is_of_lanes_names(name),
        StoreKind::Journal | StoreKind::Book => three,
    }
}

/// How many tables a store has.
fn tables_of(kind: StoreKind) -> u32
    ensures { result ≡ length (names_of kind) }
{
    match kind {
        StoreKind::Queue => 6,
        StoreKind::Journal | StoreKind::Book => 3,
    }
}

/// Whether none of the foreign keys names one of a store's tables.
fn are_apart(keys: &[Reference], kind: StoreKind) -> bool
    ensures { result ≡ list_all (λ key. not (list_any (λ own. same_name own key.parent) (names_of kind))) keys.now }
{
    keys.iter()
        .all(|key| !is_own_name(key.parent.as_slice(), kind))
}

/// Whether the table came after those of a store, and none of its foreign keys names one of them.
fn is_behind(table: &Table, kind: StoreKind) -> bool
    ensures { result ≡ is_behind (names_of kind) table.now }
{
    tables_of(kind) <= table.tree && are_apart(table.references.as_slice(), kind)
}

/// Whether each of the tables did.
pub(crate) fn are_behind(tables: &[Table], kind: StoreKind) -> bool
    ensures { result ≡ list_all (is_behind (names_of kind)) tables.now }
{
    tables.iter().all(|table| is_behind(table, kind))
}
