//! The lines that a concentrator and a centre say beside those of their connections and of the stations that they ask, each at its
//! place here.

use dnp_concentrator::{Cause, IssueFault, MapFault};
use dnp_controls::Entry;
use dnp_notices::{InBrackets, Many, Peer, Place, StrangeLine};
use dnp_objects::{Command, Row};
use dnp_store::OpenFault;
use dnp_tcp::{End, lines};
use sqlite::{Error, ErrorCode};
use std::fmt::{Display, Formatter, Write};
use std::{fmt, io};

/// What is said.
#[derive(Clone, Copy)]
pub enum Line<'a> {
    /// A control was issued, and has this number in the book.
    Issued(u64, Of<'a>),
    /// A control was not issued.
    NotIssued(IssueFault),
    /// The control with this number was not sent yet.
    Pending(u64),
    /// A store or the memory of the program failed.
    Failed(Cause),
    /// The plan has no index map.
    NoMap(MapFault),
    /// No connection can be had there for now.
    NoCaller(Place, &'a io::Error),
    /// The newest connection there was refused, since the program has no descriptor left.
    Refused(Place),
    /// So many lines of the log were lost, since nobody has read it.
    LinesLost(u64),
    /// Something of the file at this path.
    File(&'a str, OfFile<'a>),
}

/// What a control is for, where people call it something.
#[derive(Clone, Copy)]
pub struct Of<'a> {
    /// The number of the substation.
    pub substation: u8,
    /// What people call it.
    pub station: Option<&'a str>,
    /// The control, with the index at the substation.
    pub control: &'a Command,
    /// What people call its output or setpoint.
    pub output: Option<&'a str>,
}

impl<'a> Display for Of<'a> {
    fn fmt<W: Write>(&self, f: &mut Formatter<W>) -> fmt::Result {
        if self.station.is_none() && self.output.is_none() {
            return Ok(());
        }
        let kind = match self.control {
            Command::Block { .. } => "output",
            Command::Set16 { .. } | Command::Set32 { .. } => "setpoint",
        };
        let (substation, index) = (self.substation, self.control.index());
        let (station, output) = (InBrackets(self.station), InBrackets(self.output));
        write!(
            f,
            " for substation {substation}{station}, {kind} {index}{output}"
        )
    }
}

/// What is said of a file, in which a store of this name is to be.
#[derive(Clone, Copy)]
pub enum OfFile<'a> {
    /// It is not there, or can't be read and written.
    Unread(&'a io::Error),
    /// It can't be made.
    Unmade(&'a io::Error),
    /// It is no database.
    NoDatabase(&'a str, &'a Error),
    /// Another program has it.
    Busy,
    /// It can't be opened, or made.
    Unopened(&'a Error),
    /// Its store can't be opened.
    NotBegun(OpenFault),
    /// It is of an earlier release.
    OldForm(&'a str),
    /// The store that is to be made is there.
    There(&'a str),
    /// The store was not made there yet.
    NotMade(&'a str),
    /// The store is not whole, or another one stands there, which is called so.
    Other(&'a str, Option<&'a str>),
    /// Other tables stand beside the store.
    OthersToo,
    /// A queue for one centre was brought to the form for two.
    Migrated,
    /// Its rows can't be read.
    NoRows,
    /// The row with this number is of no point of the plan.
    NoPoint(u64, &'a Row),
    /// The row with this number is of no point of the plan that has events.
    NoEvent(u64, &'a Row),
    /// A control is for no output of the plan.
    NoOutput(&'a Entry),
    /// The store in it failed.
    Failed(&'a str),
    /// It could not be closed.
    Unclosed(&'a Error),
}

/// Why a file can't be read and written, and what to do.
fn put_unread<W: Write>(f: &mut Formatter<W>, cause: &io::Error) -> fmt::Result {
    match cause.kind() {
        io::ErrorKind::NotFound => write!(f, "{cause}: give '--new' in the first run"),
        io::ErrorKind::PermissionDenied => write!(
            f,
            "{cause}: the program has to be allowed to read and to write it"
        ),
        _ => write!(f, "{cause}"),
    }
}

/// Why a file can't be made, and what to do.
fn put_unmade<W: Write>(f: &mut Formatter<W>, cause: &io::Error) -> fmt::Result {
    match cause.kind() {
        io::ErrorKind::NotFound => write!(f, "{cause}: make its folder first"),
        io::ErrorKind::PermissionDenied => write!(
            f,
            "{cause}: the program has to be allowed to write in its folder"
        ),
        _ => write!(f, "{cause}"),
    }
}

/// Why a file's database can't be opened, and what to do.
fn put_unopened<W: Write>(f: &mut Formatter<W>, error: &Error) -> fmt::Result {
    match error {
        Error::SqliteFailure(ErrorCode::CannotOpen) => write!(
            f,
            "{error}: the program has to be allowed to write in its folder, where its log is made"
        ),
        _ => write!(f, "{error}"),
    }
}

impl<'a> Display for OfFile<'a> {
    fn fmt<W: Write>(&self, f: &mut Formatter<W>) -> fmt::Result {
        match *self {
            OfFile::Unread(cause) => put_unread(f, cause),
            OfFile::Unmade(cause) => put_unmade(f, cause),
            OfFile::NoDatabase(store, error) => write!(
                f,
                "no {store}: {error}: give the file of a {store}, or with '--new' one that isn't there"
            ),
            OfFile::Busy => f.write_str(
                "in use by another program, or given for two stores: end that program, or give each store a file of its own",
            ),
            OfFile::Unopened(error) => put_unopened(f, error),
            OfFile::NotBegun(fault) => write!(f, "{fault}"),
            OfFile::Unclosed(error) => write!(f, "{error}"),
            _ => self.put_store(f),
        }
    }
}

impl<'a> OfFile<'a> {
    /// What is said of the store in it.
    fn put_store<W: Write>(&self, f: &mut Formatter<W>) -> fmt::Result {
        match *self {
            OfFile::OldForm(store) => write!(
                f,
                "a {store} of an earlier release, for one centre: let '--migrate' bring it to the form for two"
            ),
            OfFile::There(store) => write!(
                f,
                "a {store} is there already, or tables of its names: leave '--new' away, or remove the file"
            ),
            OfFile::NotMade(store) => write!(
                f,
                "no {store} was made there: remove the file, and let '--new' make one"
            ),
            OfFile::Other(store, None) => write!(f, "no {store}, or not whole"),
            OfFile::Other(store, Some(other)) => write!(
                f,
                "no {store}: a {other} is there: give the file of a {store}"
            ),
            OfFile::OthersToo => f.write_str(
                "other tables stand there too: nothing is promised of what is stored beside them",
            ),
            OfFile::Failed(store) => write!(
                f,
                "the {store} could not be read or written: see whether there is room on its disk"
            ),
            OfFile::Migrated => {
                f.write_str("the queue was for one centre, and has the form for two now")
            }
            _ => self.put_rows(f),
        }
    }

    /// What is said of the rows in it.
    fn put_rows<W: Write>(&self, f: &mut Formatter<W>) -> fmt::Result {
        match *self {
            OfFile::NoPoint(id, row) => { write!(f, "row {id}, {row}: the plan has no such point") }
            OfFile::NoEvent(id, row) => write!(
                f,
                "row {id}, {row}: the plan has no such point with a class"
            ),
            OfFile::NoOutput(entry) => write!(
                f,
                "control {}, {} {}: the plan has no such output",
                entry.id, entry.target, entry.command
            ),
            _ => f.write_str("its rows can't be read: out of memory, or its device failed"),
        }
    }
}

impl<'a> Display for Line<'a> {
    fn fmt<W: Write>(&self, f: &mut Formatter<W>) -> fmt::Result {
        match *self {
            Line::Issued(id, of) => write!(f, "control {id}: issued{of}"),
            Line::NotIssued(IssueFault::Device) => write!(
                f,
                "the control was not issued: {}: see whether there is room on its disk",
                IssueFault::Device
            ),
            Line::NotIssued(fault) => write!(f, "the control was not issued: {fault}"),
            Line::Pending(id) => write!(
                f,
                "control {id}: pending: the next run sends it, and to issue it again would double it"
            ),
            Line::Failed(cause) => {
                let line = lines::Line::Failed(cause);
                write!(f, "{line}")
            }
            Line::NoMap(fault) => write!(f, "the plan: {fault}"),
            Line::NoCaller(place, cause) => write!(f, "{place}: {cause}"),
            Line::Refused(place) => write!(
                f,
                "{place}: the newest connection is refused: no descriptor is left"
            ),
            Line::LinesLost(1) => f.write_str("1 line of the log was lost: nobody read it"),
            Line::LinesLost(count) => {
                write!(f, "{count} lines of the log were lost: nobody read them")
            }
            Line::File(path, what) => write!(f, "{path}: {what}"),
        }
    }
}

/// That an unsolicited response of a station came again, with so many rows.
#[derive(Clone, Copy)]
pub struct Again<'a> {
    /// The station.
    pub peer: Peer,
    /// What people call it.
    pub name: Option<&'a str>,
    /// How many rows it has.
    pub rows: usize,
}

impl<'a> Display for Again<'a> {
    fn fmt<W: Write>(&self, f: &mut Formatter<W>) -> fmt::Result {
        let named = InBrackets(self.name);
        let rows = Many(self.rows as u64, "row is", "rows are");
        write!(
            f,
            "{}{named}: the same unsolicited response came again: {rows} stored again",
            self.peer
        )
    }
}

/// What happened to the connection of a centre.
#[derive(Clone, Copy)]
pub enum News<'a> {
    /// It began.
    Connected,
    /// What came that the station doesn't take.
    Strange(StrangeLine),
    /// It ended.
    Ended(End<'a>),
}

/// What happened to the connection of the centre with this number, from 0.
#[derive(Clone, Copy)]
pub struct OfCentre<'a> {
    /// The centre.
    pub centre: u8,
    /// What happened.
    pub news: News<'a>,
}

impl<'a> Display for OfCentre<'a> {
    fn fmt<W: Write>(&self, f: &mut Formatter<W>) -> fmt::Result {
        let number = u16::from(self.centre) + 1;
        match &self.news {
            News::Strange(line) => write!(f, "centre {number}: {line}"),
            News::Connected => write!(f, "centre {number} connected"),
            News::Ended(ended) => write!(f, "centre {number} {ended}"),
        }
    }
}

/// A long work on the file at this path, as a terminal shows it.
#[derive(Clone, Copy)]
pub enum Working<'a> {
    /// Its database, of so many octets, is read as a whole.
    Opening(&'a str, u64),
    /// Its queue is brought to the form for two centres.
    Migrating(&'a str),
    /// Its rows are looked at, and so many percents of them are.
    Looking(&'a str, u8),
}

impl<'a> Display for Working<'a> {
    fn fmt<W: Write>(&self, f: &mut Formatter<W>) -> fmt::Result {
        match *self {
            Working::Opening(path, octets) => write!(f, "dnp: {path}: reading {octets} octets .."),
            Working::Migrating(path) => {
                write!(f, "dnp: {path}: bringing it to the form for two centres ..")
            }
            Working::Looking(path, percent) => {
                write!(f, "dnp: {path}: looking at its rows: {percent} %")
            }
        }
    }
}

/// How many rows a poll brought.
#[derive(Clone, Copy)]
pub struct Rows(pub u64);

impl Display for Rows {
    fn fmt<W: Write>(&self, f: &mut Formatter<W>) -> fmt::Result {
        write!(f, "rows {}", self.0)
    }
}

/// How many rows a round brought.
#[derive(Clone, Copy)]
pub struct Round {
    /// The round, counted from 0.
    pub round: u64,
    /// How many rows it brought.
    pub rows: u64,
}

impl Display for Round {
    fn fmt<W: Write>(&self, f: &mut Formatter<W>) -> fmt::Result {
        let number = self.round.saturating_add(1);
        write!(f, "round {number} rows {}", self.rows)
    }
}
