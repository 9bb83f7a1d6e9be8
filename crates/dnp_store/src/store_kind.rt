//! Which store a database is for.

ghost use Rattle.std.specs.Prelude.{◌≡◌};
ghost use Rattle.dnp_store.specs.Schemas.{rows_text};
ghost use Rattle.dnp_store.specs.steps.Stores.{name_of};

/// Which store a database is for.
#[derive(Clone, Copy)]
pub(crate) enum StoreKind {
    /// Event lanes.
    Queue,
    /// A journal.
    Journal,
    /// A book of controls.
    Book,
}

/// The name of the table of a store's rows.
pub(crate) fn rows_name(kind: StoreKind) -> &'static str
    ensures { result.now ≡ name_of kind }
{
    match kind {
        StoreKind::Queue => "queue",
        StoreKind::Journal => "journal",
        StoreKind::Book => "control",
    }
}

/// The statement that makes the table of a store's rows.
pub(crate) fn rows_text(kind: StoreKind) -> &'static str
    ensures { result.now ≡ rows_text kind }
{
    match kind {
        StoreKind::Queue => {
            "CREATE TABLE queue (id INTEGER PRIMARY KEY AUTOINCREMENT CHECK (id BETWEEN 1 AND 4611686018427387904), lane INTEGER NOT NULL CHECK (lane BETWEEN 0 AND 8), point INTEGER NOT NULL CHECK (point BETWEEN 0 AND 65535), flags INTEGER NOT NULL CHECK (flags BETWEEN 0 AND 255), value INTEGER NOT NULL, time INTEGER CHECK (time BETWEEN 0 AND 281474976710655))"
        }
        StoreKind::Journal => {
            "CREATE TABLE journal (id INTEGER PRIMARY KEY AUTOINCREMENT CHECK (id BETWEEN 1 AND 4611686018427387904), kind INTEGER NOT NULL CHECK (kind BETWEEN 0 AND 2), point INTEGER NOT NULL CHECK (point BETWEEN 0 AND 65535), flags INTEGER NOT NULL CHECK (flags BETWEEN 0 AND 255), value INTEGER NOT NULL, time INTEGER CHECK (time BETWEEN 0 AND 281474976710655))"
        }
        StoreKind::Book => {
            "CREATE TABLE control (id INTEGER PRIMARY KEY AUTOINCREMENT CHECK (id BETWEEN 1 AND 4611686018427387904), target INTEGER NOT NULL CHECK (target BETWEEN 0 AND 15), kind INTEGER NOT NULL CHECK (kind BETWEEN 0 AND 2), point INTEGER NOT NULL CHECK (point BETWEEN 0 AND 65535), code INTEGER NOT NULL CHECK (code BETWEEN 0 AND 255), count INTEGER NOT NULL CHECK (count BETWEEN 0 AND 255), on_ms INTEGER NOT NULL CHECK (on_ms BETWEEN 0 AND 4294967295), off_ms INTEGER NOT NULL CHECK (off_ms BETWEEN 0 AND 4294967295), value INTEGER NOT NULL CHECK (value BETWEEN -2147483648 AND 2147483647), state INTEGER NOT NULL CHECK (state BETWEEN 0 AND 2), status INTEGER NOT NULL CHECK (status BETWEEN 0 AND 127))"
        }
    }
}
