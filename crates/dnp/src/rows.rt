//! `dnp rows`: the rows of a store's file, beside the program that writes it.

mod files;
mod words;

use crate::options::{defaulted, flag, network, subcommand, valued};
use crate::rows::files::Opened;
use crate::rows::words::{Words, words_given};
use clap::{ArgMatches, Command};
use dnp_inputs::network_file::all_given;
use dnp_inputs::plan_file::plan_given;
use dnp_inputs::{COLUMNS, PointTexts};
use dnp_lines::Line;
use dnp_rows::{
    Form, Nameless, Naming, PrintFault, ReadFault, Source, Store, Stored, head_names, print_over,
};
use dnp_tcp::{exit, lost, unwritten};
use std::alloc::{AllocError, Global};
use std::io::Write;
use std::process::ExitCode;
use std::rt::{Clock, Files};
use std::time::Duration;
use std::{io, thread};

/// The subcommand's name.
pub(crate) const NAME: &str = "rows";

/// The exit status where the reader of standard output has gone.
const GONE: u8 = 4;

/// What the subcommand does, in a line.
const ABOUT: &str =
    "Print the rows of a journal, a queue or a book of controls, even of one in use";

/// What its help text says after the options.
const AFTER: &str = "\
EXAMPLES
  All events of a centre:

    dnp rows --journal journal.db

  Those after id 40, and then those that come, as JSON:

    dnp rows --journal journal.db --after 40 --follow --json

  The events that wait for the second centre:

    dnp rows --queue queue.db --centre 2

  The controls of a concentrator, and the results:

    dnp rows --controls below.db --of concentrator

ROWS
  The program prints the rows of one store in the order of their ids. The store is a journal
  (--journal), a queue for one centre (--queue), or a book of controls (--controls). With
  --after ID it begins after the row with that id.
  --follow goes on with rows that come later, until a signal ends it. It looks for them each MS
  milliseconds. To go on after an end, give --after the id of the last complete line: no row is
  missing, and none comes twice. Up to 1000 lines are written at once.
  A control is printed once, with its state at that moment.

A STORE IN USE
  Another program may have the store: rows are read without a lock, and nothing is written. The
  files FILE and FILE-wal are read. Only committed rows are printed. A queue's row that is confirmed
  between two looks is not printed. The end of a program takes no printed row back. A power cut may
  take back rows that were committed in the moment before it.

OUTPUT
  An event has its id, its kind (binary, counter, analog), index, value, flags in hexadecimal, and
  the time in UTC or '-'. A queue's event has its centre and class too:

    7 binary 3 1 01 2026-11-25T03:00:01.000Z
    7 centre 1 class 2 analog 12 -5 01 -

  A control has its id, target, command as in 'dnp centre --issue', and state. The state is
  'pending', 'spent' (sent without a known answer), or the status of the answer. The answer is the
  concentrator's in a centre's book, and the substation's in a concentrator's book: --of says whose
  book it is.

  Without --of:

    4 target 0 block 3 1 1 250 0 finished: answered by the next station below (status 0 SUCCESS)

  With --of centre. The concentrator passes a control on after it has taken it:

    4 target 0 block 203 1 1 250 0 taken by the concentrator (status 0 SUCCESS)

  With --of concentrator:

    4 target 0 block 3 1 1 250 0 operated by the substation (status 0 SUCCESS)

    5 target 0 block 3 9 1 250 0 refused by the substation (status 4 NOT_SUPPORTED)

  Indices are those above. The controls of a concentrator have the substation as their target, and
  its own index.
  With --json each line is an object. Its \"time\" is in milliseconds since 1970-01-01 00:00 UTC, or
  null:

    {\"id\":7,\"kind\":\"binary\",\"index\":3,\"value\":1,\"flags\":\"01\",\"time\":1795575601000,
    \"utc\":\"2026-11-25T03:00:01.000Z\"}

  --csv prints CSV records (RFC 4180) after one of these headers:

    id,kind,index,value,flags,time,utc
    id,centre,class,kind,index,value,flags,time,utc
    id,target,command,index,code,count,on_ms,off_ms,value,state,status

NAMES
  With --plan and --network a line ends in the names of the substation and of the point. The names
  are in the network file and its file of points, which docs/network.md describes. A line without
  names is not changed:

    7 binary 100 1 01 2026-11-25T03:00:01.000Z Kirchberg 110 kV: Feeder 1, breaker

  --json adds \"substation\", \"station\" and \"point\". --csv adds the columns substation,station,point.
  The substation is its number. A book of controls with names needs --of, because the indices of a
  centre's book are not those of a concentrator's book.

EXIT STATUS
  0: All rows of the file are printed.
  1: The file has no such store: it is a text, another store, an altered one, one of an earlier
     release, or one whose last id is below ID. Or the plan, the network file or its file of points
     was refused. Standard error has the reason.
  2: The command line is wrong.
  3: The program failed: the file can't be read, out of memory, or the output was lost.
  4: The reader of the output has gone, which shows at the next row. Standard error has no line.";

/// What is said of the options.
const JOURNAL: &str = "The file of a journal; excludes --centre";

const QUEUE: &str = "The file of a queue";

const CONTROLS: &str = "The file of a book of controls; excludes --centre";

const OF: &str = "The owner of the book: centre or concentrator; needs --controls";

const PLAN: &str = "The plan of the points, as TOML; needs --network";

const CENTRE: &str = "The centre of a queue's events, 1 or 2; needs --queue";

const AFTER_ID: &str = "Print the rows after the one with this id";

const FOLLOW: &str = "Go on with rows that come later";

const EVERY: &str = "The time between two looks, in milliseconds; needs --follow";

const CSV: &str = "Print each row as a CSV record";

const JSON: &str = "Print each row as a JSON object";

/// What `clap` has to know of `dnp rows`.
pub(crate) fn command<'a>(alloc: Global) -> Result<Command<'a>, AllocError> {
    let choices = [
        valued("journal", "FILE", JOURNAL).excluding("centre"),
        valued("queue", "FILE", QUEUE),
        valued("controls", "FILE", CONTROLS).excluding("centre"),
        valued("of", "WHO", OF).needing("controls"),
        valued("plan", "FILE", PLAN).needing("network"),
        network().needing("plan"),
        defaulted("centre", "N", "1", CENTRE).needing("queue"),
        defaulted("after", "ID", "0", AFTER_ID),
        flag("follow", FOLLOW),
        defaulted("every", "MS", "1000", EVERY).needing("follow"),
        flag("csv", CSV),
        flag("json", JSON),
    ];
    subcommand(alloc, NAME, ABOUT, AFTER, &choices)
}

/// Prints the rows that the given words name, and tells the exit status.
pub(crate) fn run<R>(rt: &R, given: &ArgMatches<'_>) -> anyhow::Result<ExitCode>
where
    R: AllocGlobal + Print + Eprint + Clock + Files,
{
    let Some(words) = words_given(rt, given) else {
        return Ok(ExitCode::from(exit::USAGE));
    };
    let Some(names) = words.names else {
        return Ok(print_with(rt, &words, &Nameless));
    };
    let plan = match plan_given(rt, names.plan) {
        Ok(plan) => plan,
        Err(status) => return Ok(status),
    };
    let given = match all_given(rt, names.network, &plan)? {
        Ok(given) => given,
        Err(status) => return Ok(status),
    };
    let names = PointTexts::of(rt.alloc(), &plan, &given, words.form, words.whose)?;
    Ok(print_with(rt, &words, &names))
}

/// Prints the rows that the given words name, with these names, and tells the exit status.
fn print_with<N: Naming, R>(rt: &R, words: &Words<'_>, names: &N) -> ExitCode
where
    R: AllocGlobal + Print + Eprint + Clock + Files,
{
    let opened = match Opened::at(rt, words.path) {
        Ok(opened) => opened,
        Err(cause) => return lost(rt, words.path, &cause),
    };
    let mut stored = Stored::new(opened, words.store, words.centre);
    ExitCode::from(print_all(rt, words, names, &mut stored))
}

/// Writes the head line of CSV.
fn write_head<W: Write>(out: &mut W, words: &Words<'_>) -> io::Result<()> {
    out.write_all(head_names(words.store))?;
    if words.names.is_some() {
        out.write_all(COLUMNS)?;
    }
    out.write_all(b"\r\n")
}

/// Prints the rows that stand there, and those that come later, where they are followed; tells the exit status.
fn print_all<N: Naming, R>(
    rt: &R,
    words: &Words<'_>,
    names: &N,
    stored: &mut Stored<Opened<R::File>>,
) -> u8
where
    R: AllocGlobal + Print + Eprint + Clock + Files,
{
    let mut out = io::writer(rt);
    if words.form == Form::Csv
        && let Err(cause) = write_head(&mut out, words)
    {
        return unprinted(rt, words, PrintFault::Unwritten(cause));
    }
    let mut last = words.after;
    for _ in 0..u64::MAX {
        match print_over(stored, rt.alloc(), words.form, names, last, &mut out) {
            Ok(id) => last = id,
            Err(fault) => return unprinted(rt, words, fault),
        }
        if !words.follows {
            break;
        }
        thread::sleep(rt, Duration::from_millis(words.every_ms));
        if !is_opened_again(rt, words, stored) {
            return exit::FAULT;
        }
    }
    exit::DONE
}

/// Whether the files could be opened again, to be read as they stand then. Where they couldn't, that is said.
fn is_opened_again<R>(rt: &R, words: &Words<'_>, stored: &mut Stored<Opened<R::File>>) -> bool
where
    R: AllocGlobal + Eprint + Files,
{
    match Opened::at(rt, words.path) {
        Ok(opened) => {
            *stored.beside_mut() = opened;
            true
        }
        Err(cause) => {
            let _status = lost(rt, words.path, &cause);
            false
        }
    }
}

/// What a file with the rows of a store is called.
fn name_of(store: Store) -> &'static str {
    match store {
        Store::Journal => "journal",
        Store::Queue => "queue",
        Store::Controls => "book of controls",
    }
}

/// Says on standard error why rows are not printed, and tells the exit status. Where the reader of standard output has gone,
/// nothing is said.
fn unprinted<R: AllocGlobal + Eprint + Files>(rt: &R, words: &Words<'_>, fault: PrintFault) -> u8 {
    match fault {
        PrintFault::Unread(fault) => unread(rt, words, fault),
        PrintFault::OutOfOrder => unread(rt, words, ReadFault::OtherForm),
        PrintFault::Memory => unread(rt, words, ReadFault::Memory),
        PrintFault::Unwritten(cause) if cause.kind() == io::ErrorKind::BrokenPipe => GONE,
        PrintFault::Unwritten(cause) => {
            let _status = unwritten(rt, &cause);
            exit::FAULT
        }
    }
}

/// Says on standard error why rows can't be read, and tells the exit status: that of a refused input where the file is of no
/// such store.
fn unread<R: AllocGlobal + Eprint + Files>(rt: &R, words: &Words<'_>, fault: ReadFault) -> u8 {
    let path = words.path;
    match fault {
        ReadFault::Memory => {
            let line = Line::NoMemory(path);
            let _ = eprintln!(rt; "{line}");
            exit::FAULT
        }
        ReadFault::Unreadable(cause) => {
            let _status = lost(rt, path, &cause);
            exit::FAULT
        }
        ReadFault::Busy => {
            let line = Line::Changed(path);
            let _ = eprintln!(rt; "{line}");
            exit::FAULT
        }
        fault => {
            match other_there(rt, words) {
                Some(other) => say_other(rt, path, words.store, other),
                None => say_refused(rt, path, name_of(words.store), &fault),
            }
            exit::REFUSED
        }
    }
}

/// Which other store's rows stand in the file whole, if one's do.
fn other_there<R: AllocGlobal + Files>(rt: &R, words: &Words<'_>) -> Option<Store> {
    for store in [Store::Journal, Store::Queue, Store::Controls] {
        if store != words.store
            && let Ok(opened) = Opened::at(rt, words.path)
            && Stored::new(opened, store, 1)
                .items_over(rt.alloc(), 0, 1)
                .is_ok()
        {
            return Some(store);
        }
    }
    None
}

/// The option that names a file with the rows of a store.
fn option_of(store: Store) -> &'static str {
    match store {
        Store::Journal => "--journal",
        Store::Queue => "--queue",
        Store::Controls => "--controls",
    }
}

/// Says on standard error that a file is of another store, and by which option its rows are printed.
fn say_other<R: Eprint>(rt: &R, path: &str, store: Store, other: Store) {
    let line = Line::Other(path, name_of(store), name_of(other), option_of(other));
    let _ = eprintln!(rt; "{line}");
}

/// Says on standard error why a file is of no such store.
fn say_refused<R: Eprint>(rt: &R, path: &str, store: &str, fault: &ReadFault) {
    let line = match fault {
        ReadFault::NoDatabase => Line::NoDatabase(path, store),
        ReadFault::NotMade => Line::NotMade(path, store),
        ReadFault::OldForm => Line::OldForm(path, store),
        ReadFault::Behind(last) => Line::Behind(path, *last),
        _ => Line::NoStore(path, store),
    };
    let _ = eprintln!(rt; "{line}");
}
