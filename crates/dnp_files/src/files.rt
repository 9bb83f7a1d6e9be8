//! Databases in files, and the stores of a concentrator and of a centre in them.

ghost use Rattle.std.specs.Prelude.{◌≤◌, All};

use crate::lines::{Line, OfFile, Working};
use dnp_eventbuf::MAX_CAPACITY;
use dnp_objects::LANES;
use dnp_store::{ControlBook, Journal, OpenFault, Queue};
use dnp_tcp::{exit, say};
use dnp_terminal::{Meter, Terminal};
use sqlite::{Alter, Connection, Error, ErrorCode, FileStore};
use std::fs::{File, OpenOptions};
use std::io::Read;
use std::process::ExitCode;
use std::rt::{Clock, Files, HostRuntime};
use std::{fs, io};

/// What opens databases by connections of this type, and closes them. What uses it is proved for rows that are kept in any way: so only
/// the two functions that name files prove that what keeps rows there fits, and how its parts are let go.
pub(crate) trait Opens<C> {
    /// Opens the database in a file, or makes it there.
    fn open_database(&self, path: &str) -> Result<C, Error>;

    /// Closes a database in good order.
    fn close_database(&self, conn: C) -> Result<(), Error>;
}

impl Opens<Connection<FileStore<sqlite::File>>> for HostRuntime {
    fn open_database(&self, path: &str) -> Result<Connection<FileStore<sqlite::File>>, Error> {
        Connection::open(self, path)
    }

    fn close_database(&self, conn: Connection<FileStore<sqlite::File>>) -> Result<(), Error> {
        conn.close()
    }
}

/// A file that a word of the command line names for a store, and what is to be done with it.
#[derive(Clone, Copy)]
pub struct StoreFile<'a> {
    /// The path.
    pub path: &'a str,
    /// What the store is called, as "queue".
    pub store: &'a str,
    /// Whether the store is made there, and not opened.
    pub new: bool,
}

impl<'a> StoreFile<'a> {
    /// Says something of the file on standard error.
    pub(crate) fn say<R: Eprint + Terminal + Clock>(&self, rt: &R, what: OfFile<'_>) {
        say(rt, &Line::File(self.path, what));
    }
}

/// What each file of a database begins with, unless it is empty.
const MAGIC: [u8; 16] = *b"SQLite format 3\0";

/// Opens the database, and makes its file only where a store is to be made. Where it can't be had, why is said on standard
/// error, and the exit status is told.
pub(crate) fn connection<S: Alter, R: Eprint + Terminal + Clock + Files + Opens<Connection<S>>>(
    rt: &R,
    place: &StoreFile<'_>,
) -> Result<Connection<S>, ExitCode> {
    look_at_file(rt, place)?;
    let meter = opening(rt, place);
    let opened = rt.open_database(place.path);
    meter.end();
    match opened {
        Ok(conn) => Ok(conn),
        Err(error) => Err(no_database(rt, place, &error)),
    }
}

/// Looks at the file before its database is opened, and makes it where a store is to be made: to open a database that is not there
/// would make it, to open what is none would leave a log beside it, and neither would say why a file can't be had.
fn look_at_file<R: Eprint + Terminal + Clock + Files>(
    rt: &R,
    place: &StoreFile<'_>,
) -> Result<(), ExitCode> {
    match begins_well(rt, place) {
        Ok(true) => Ok(()),
        Ok(false) => {
            let error = Error::SqliteFailure(ErrorCode::NotADatabase);
            Err(no_database(rt, place, &error))
        }
        Err(cause) if cause.kind() == io::ErrorKind::NotFound && place.new => {
            make_file(rt, place)
        }
        Err(cause) => {
            place.say(rt, OfFile::Unread(&cause));
            Err(ExitCode::from(exit::FAULT))
        }
    }
}

/// Whether the file, which may be read and written, begins as that of a database does, or is empty.
fn begins_well<R: Files>(rt: &R, place: &StoreFile<'_>) -> io::Result<bool> {
    let mut options = OpenOptions::new();
    options.read(true).write(true);
    let mut file = options.open(rt, place.path)?;
    let mut head = [0; MAGIC.len()];
    let count = file.read(&mut head)?;
    Ok(count == 0 || head == MAGIC)
}

/// Makes the file, empty. Where it can't be made, why is said on standard error, and the exit status is told.
fn make_file<R: Eprint + Terminal + Clock + Files>(
    rt: &R,
    place: &StoreFile<'_>,
) -> Result<(), ExitCode> {
    match File::create_new(rt, place.path) {
        Ok(_) => Ok(()),
        Err(cause) => {
            place.say(rt, OfFile::Unmade(&cause));
            Err(ExitCode::from(exit::FAULT))
        }
    }
}

/// Says on standard error why the file's database can't be had, and gives the exit status: that of a refused input where
/// the file is none, or is spoilt.
fn no_database<R: Eprint + Terminal + Clock>(
    rt: &R,
    place: &StoreFile<'_>,
    error: &Error,
) -> ExitCode {
    match error {
        Error::SqliteFailure(ErrorCode::NotADatabase | ErrorCode::DatabaseCorrupt) => {
            place.say(rt, OfFile::NoDatabase(place.store, error));
            ExitCode::from(exit::REFUSED)
        }
        Error::SqliteFailure(ErrorCode::DatabaseBusy) => {
            place.say(rt, OfFile::Busy);
            ExitCode::from(exit::FAULT)
        }
        _ => {
            place.say(rt, OfFile::Unopened(error));
            ExitCode::from(exit::FAULT)
        }
    }
}

/// Says on standard error why a store does not begin in the database, and gives the exit status.
fn no_store<S: Alter, R: Eprint + Terminal + Clock>(
    rt: &R,
    place: &StoreFile<'_>,
    fault: OpenFault,
    conn: &Connection<S>,
) -> ExitCode {
    if matches!(fault, OpenFault::Memory | OpenFault::Device) {
        place.say(rt, OfFile::NotBegun(fault));
        return ExitCode::from(exit::FAULT);
    }
    let store = place.store;
    place.say(
        rt,
        if fault == OpenFault::OldForm {
            OfFile::OldForm(store)
        } else if place.new {
            OfFile::There(store)
        } else if conn.schema().tables.is_empty() {
            OfFile::NotMade(store)
        } else {
            OfFile::Other(store, other_in(conn, store))
        },
    );
    ExitCode::from(exit::REFUSED)
}

/// What the store in a database is called, where it has tables of another one than this.
fn other_in<S: Alter>(conn: &Connection<S>, store: &str) -> Option<&'static str> {
    let schema = conn.schema();
    let found = if schema.table_named(b"journal").is_some() {
        "journal"
    } else if schema.table_named(b"control").is_some() {
        "book of controls"
    } else if schema.table_named(b"queue").is_some() {
        "queue"
    } else {
        return None;
    };
    if found == store { None } else { Some(found) }
}

/// Says on standard error that a store works, but promises nothing, where its tables are not the first of its database, or others refer to them.
fn look_round<R: Eprint + Terminal + Clock>(rt: &R, place: &StoreFile<'_>, owned: bool) {
    if !owned {
        place.say(rt, OfFile::OthersToo);
    }
}

/// Says on standard error that a store failed, where it doesn't serve any more.
pub(crate) fn look_after<R: Eprint + Terminal + Clock>(
    rt: &R,
    place: &StoreFile<'_>,
    serves: bool,
) {
    if !serves {
        place.say(rt, OfFile::Failed(place.store));
    }
}

/// The octets of a file from which on a terminal shows that it is opened.
const LARGE: u64 = 4 * 1_024 * 1_024;

/// A meter on which a terminal shows that a store's file is opened, if it is there and large.
fn opening<'a, R: Eprint + Terminal + Clock + Files>(
    rt: &'a R,
    place: &StoreFile<'_>,
) -> Meter<'a, R> {
    let meter = Meter::new(rt);
    if !place.new
        && let Ok(found) = fs::metadata(rt, place.path)
        && found.len() >= LARGE
    {
        meter.draw(&Working::Opening(place.path, found.len()));
    }
    meter
}

/// The queue in a database, opened, or brought to the form for two centres before, which is said, where it was of that for
/// one; the second centre's lanes take so many rows then.
fn migrated<S: Alter + Drop, R: AllocGlobal + Eprint + Terminal + Clock>(
    rt: &R,
    meter: &Meter<'_, R>,
    place: &StoreFile<'_>,
    conn: Connection<S>,
    second: [u32; LANES],
) -> Result<Queue<S>, (OpenFault, Connection<S>)>
    requires { All (λ capacity. (1 ≤ capacity) × (capacity ≤ MAX_CAPACITY)) second }
{
    match Queue::open(rt.alloc(), conn) {
        Err((OpenFault::OldForm, conn)) => {
            meter.draw(&Working::Migrating(place.path));
            let begun = Queue::migrate(rt.alloc(), conn, second);
            meter.end();
            if begun.is_ok() {
                place.say(rt, OfFile::Migrated);
            }
            begun
        }
        begun => begun,
    }
}

/// The queue in a database, made with lanes of these capacities for each of two centres, or opened, or brought to the form
/// for two centres and opened, where that is asked for. Where there is none, that is said, and the exit status is told.
pub(crate) fn queue<S: Alter + Drop, R: AllocGlobal + Eprint + Terminal + Clock + Files>(
    rt: &R,
    place: &StoreFile<'_>,
    conn: Connection<S>,
    first: [u32; LANES],
    second: [u32; LANES],
    migrates: bool,
) -> Result<Queue<S>, ExitCode>
    requires first { All (λ capacity. (1 ≤ capacity) × (capacity ≤ MAX_CAPACITY)) first }
    requires second { All (λ capacity. (1 ≤ capacity) × (capacity ≤ MAX_CAPACITY)) second }
{
    let meter = opening(rt, place);
    let begun = if place.new {
        Queue::create(rt.alloc(), conn, first, second)
    } else if migrates {
        migrated(rt, &meter, place, conn, second)
    } else {
        Queue::open(rt.alloc(), conn)
    };
    meter.end();
    match begun {
        Ok(queue) => {
            look_round(rt, place, queue.owns_database());
            Ok(queue)
        }
        Err((fault, conn)) => Err(no_store(rt, place, fault, &conn)),
    }
}

/// The journal in a database, made or opened. Where there is none, that is said, and the exit status is told.
pub(crate) fn journal<S: Alter + Drop, R: AllocGlobal + Eprint + Terminal + Clock + Files>(
    rt: &R,
    place: &StoreFile<'_>,
    conn: Connection<S>,
) -> Result<Journal<S>, ExitCode> {
    let meter = opening(rt, place);
    let begun = if place.new {
        Journal::create(conn)
    } else {
        Journal::open(rt.alloc(), conn)
    };
    meter.end();
    match begun {
        Ok(journal) => {
            look_round(rt, place, journal.owns_database());
            Ok(journal)
        }
        Err((fault, conn)) => Err(no_store(rt, place, fault, &conn)),
    }
}

/// The book of controls in a database, made or opened. Where there is none, that is said, and the exit status is told.
pub(crate) fn book<S: Alter + Drop, R: AllocGlobal + Eprint + Terminal + Clock>(
    rt: &R,
    place: &StoreFile<'_>,
    conn: Connection<S>,
) -> Result<ControlBook<S>, ExitCode> {
    let begun = if place.new {
        ControlBook::create(rt.alloc(), conn)
    } else {
        ControlBook::open(rt.alloc(), conn)
    };
    match begun {
        Ok(book) => {
            look_round(rt, place, book.owns_database());
            Ok(book)
        }
        Err((fault, conn)) => Err(no_store(rt, place, fault, &conn)),
    }
}

/// The book of controls in its file, made or opened. Where there is none, that is said, and the exit status is told.
pub(crate) fn book_there<
    S: Alter + Drop,
    R: AllocGlobal + Eprint + Terminal + Clock + Files + Opens<Connection<S>>,
>(rt: &R, place: &StoreFile<'_>) -> Result<ControlBook<S>, ExitCode> {
    let conn = connection(rt, place)?;
    book(rt, place, conn)
}

/// Closes a database in good order, and tells whether it could; where it couldn't, that is said on standard error.
fn close<S: Alter, R: Eprint + Terminal + Clock + Opens<Connection<S>>>(
    rt: &R,
    place: &StoreFile<'_>,
    conn: Connection<S>,
) -> bool {
    match rt.close_database(conn) {
        Ok(()) => true,
        Err(error) => {
            place.say(rt, OfFile::Unclosed(&error));
            false
        }
    }
}

/// Closes the databases of two stores in good order, and gives this exit status; that of a fault where one couldn't be
/// closed, which is said on standard error.
pub(crate) fn close_both<S: Alter, R: Eprint + Terminal + Clock + Opens<Connection<S>>>(
    rt: &R,
    first: &StoreFile<'_>,
    one: Connection<S>,
    second: &StoreFile<'_>,
    other: Connection<S>,
    status: ExitCode,
) -> ExitCode {
    let closed = close(rt, first, one);
    if close(rt, second, other) && closed {
        status
    } else {
        ExitCode::from(exit::FAULT)
    }
}
