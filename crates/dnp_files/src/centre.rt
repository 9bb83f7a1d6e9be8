//! A centre over a journal and a book of controls in files, which asks the concentrator over TCP, once or by the clock.

ghost use Rattle.dnp_concentrator.specs.Plan.{KeepsLimits};

use crate::centre_run::run_standing_centre;
use crate::driving::{Driving, wait_for};
use crate::files;
use crate::files::{Opens, StoreFile};
use crate::lines::Line;
use crate::making::Making;
use crate::planned::{look_at_book, look_at_journal};
use crate::polls::{PollPace, Polls};
use crate::sites::Target;
use dnp_concentrator::{Centre, MAX_TIMER_MS, Plan};
use dnp_controls::Book;
use dnp_eventbuf::JournalStore;
use dnp_loop::StandardError;
use dnp_objects::Command;
use dnp_store::{ControlBook, Journal};
use dnp_tcp::{Names, exit, say};
use dnp_terminal::Terminal;
use sqlite::{Alter, Connection, File, FileStore};
use std::net::{Net, TcpListener, TcpStream};
use std::process::ExitCode;
use std::rt::{Clock, Files, HostRuntime};

/// Over which files a centre runs, and what it is to do.
#[derive(Clone, Copy)]
pub struct CentreWords<'a> {
    /// The file of the journal.
    pub journal: StoreFile<'a>,
    /// The file of the book of controls.
    pub controls: StoreFile<'a>,
    /// Where the concentrator is asked.
    pub concentrator: Target,
    /// What people call the stations and their points, with the indices above for those of the concentrator.
    pub names: Names<'a>,
    /// The control to be issued, and the substation that it is for.
    pub issue: Option<(u8, Command)>,
    /// How many polls there are, and when they begin.
    pub pace: PollPace,
    /// How the concentrator is polled on a connection that stands, if it is.
    pub standing: Option<Driving>,
}

impl<'a> CentreWords<'a> {
    /// The polls over this plan.
    fn polls_of(&self, plan: &'a Plan) -> Polls<'a> {
        Polls {
            plan,
            concentrator: self.concentrator,
            names: self.names,
            pace: self.pace,
        }
    }
}

/// Lets a centre of this plan wait for the concentrator as long as that may be waiting for each of the substations in turn, and
/// once more, but for an hour at most.
fn wait_for_each(plan: &mut Plan)
    requires { KeepsLimits plan.old }
    ensures limits { KeepsLimits plan.new }
{
    let waits = plan.substations.as_slice().len().saturating_add(1) as u64;
    let ms = plan.times.response_ms.saturating_mul(waits);
    plan.times.response_ms = ms.max(1).min(MAX_TIMER_MS);
}

/// Opens the files, or makes them, runs the centre over them, and closes them. Tells the exit status: that of a refused input
/// where a file is no such store or holds what the plan has no point for, and that of a fault where something fails; why is said
/// on standard error.
pub fn run_centre(rt: &HostRuntime, words: &CentreWords<'_>, mut plan: Plan) -> ExitCode
    requires { KeepsLimits plan }
{
    match words.standing {
        Some(driving) => wait_for(&mut plan, driving.response_ms),
        None => wait_for_each(&mut plan),
    }
    run_in::<FileStore<File>, HostRuntime>(rt, words, &plan)
}

/// The same over rows that are kept in any way, by a plan that lets the centre wait as long as it has to.
fn run_in<S: Alter + Drop, R>(rt: &R, words: &CentreWords<'_>, plan: &Plan) -> ExitCode
where
    R: AllocGlobal + Print + Eprint + Files + Opens<Connection<S>>,
    R: Terminal + Clock + StandardError + Net<Listener = TcpListener, Stream = TcpStream>,
    requires { KeepsLimits plan.now }
{
    let making = Making::of(rt, &words.journal, &words.controls);
    let status = run_made(rt, words, plan, &making);
    making.end(rt);
    status
}

/// The same, where these files are to be made.
fn run_made<S: Alter + Drop, R>(
    rt: &R,
    words: &CentreWords<'_>,
    plan: &Plan,
    making: &Making<'_>,
) -> ExitCode
where
    R: AllocGlobal + Print + Eprint + Files + Opens<Connection<S>>,
    R: Terminal + Clock + StandardError + Net<Listener = TcpListener, Stream = TcpStream>,
    requires { KeepsLimits plan.now }
{
    let journal = match journal_there(rt, &words.journal) {
        Ok(journal) => journal,
        Err(status) => return status,
    };
    let book = match files::book_there(rt, &words.controls) {
        Ok(book) => book,
        Err(status) => return status,
    };
    match carry_on(rt, words, plan, journal, book, making) {
        Ok((status, journal, book)) => {
            files::close_both(rt, &words.journal, journal, &words.controls, book, status)
        }
        Err(status) => status,
    }
}

/// The journal in its file.
fn journal_there<
    S: Alter + Drop,
    R: AllocGlobal + Eprint + Terminal + Clock + Files + Opens<Connection<S>>,
>(rt: &R, place: &StoreFile<'_>) -> Result<Journal<S>, ExitCode> {
    let conn = files::connection(rt, place)?;
    files::journal(rt, place, conn)
}

/// Runs the centre over its stores, and gives their databases back, with the exit status. A store that failed is said. Where the centre
/// can't begin, the exit status alone is told.
fn carry_on<S: Alter + Drop, R>(
    rt: &R,
    words: &CentreWords<'_>,
    plan: &Plan,
    journal: Journal<S>,
    book: ControlBook<S>,
    making: &Making<'_>,
) -> Result<(ExitCode, Connection<S>, Connection<S>), ExitCode>
where
    R: AllocGlobal
        + Print
        + Eprint
        + Terminal
        + Clock
        + StandardError
        + Net<Listener = TcpListener, Stream = TcpStream>,
    requires { KeepsLimits plan.now }
{
    match run_over(rt, words, plan, journal, book, making) {
        Ok((status, journal, book)) => {
            files::look_after(rt, &words.journal, journal.serves());
            files::look_after(rt, &words.controls, book.serves());
            Ok((status, journal.into_connection(), book.into_connection()))
        }
        Err(status) => Err(status),
    }
}

/// Runs a centre over these stores, and gives them back, with the exit status. Where it can't begin, why is said on
/// standard error, and the exit status alone is told.
fn run_over<J: JournalStore + Drop, B: Book + Drop, R>(
    rt: &R,
    words: &CentreWords<'_>,
    plan: &Plan,
    journal: J,
    book: B,
    making: &Making<'_>,
) -> Result<(ExitCode, J, B), ExitCode>
where
    R: AllocGlobal
        + Print
        + Eprint
        + Terminal
        + Clock
        + StandardError
        + Net<Listener = TcpListener, Stream = TcpStream>,
    requires { KeepsLimits plan.now }
{
    match Centre::new(rt.alloc(), plan, journal, book) {
        Ok(centre) => {
            let (status, centre) = run_at_pace(rt, centre, words, plan, making)?;
            let (journal, book) = centre.into_stores();
            Ok((status, journal, book))
        }
        Err(fault) => {
            say(rt, &Line::NoMap(fault));
            Err(ExitCode::from(exit::FAULT))
        }
    }
}

/// Looks whether what the stores hold is of the plan. If something fails, the exit status is told.
fn look_at_stores<J: JournalStore, B: Book, R: AllocGlobal + Eprint + Terminal + Clock>(
    rt: &R,
    centre: &mut Centre<J, B>,
    words: &CentreWords<'_>,
    plan: &Plan,
) -> Result<(), ExitCode> {
    look_at_journal(rt, &words.journal, centre.journal(), plan)?;
    look_at_book(rt, &words.controls, centre.book(), plan, true)
}

/// Looks at the stores, issues the control, and asks the concentrator, in polls or on a connection that stands. Gives the centre back with
/// the exit status; if it can't begin on a connection that stands, the exit status alone is told.
fn run_at_pace<J: JournalStore + Drop, B: Book + Drop, R>(
    rt: &R,
    mut centre: Centre<J, B>,
    words: &CentreWords<'_>,
    plan: &Plan,
    making: &Making<'_>,
) -> Result<(ExitCode, Centre<J, B>), ExitCode>
where
    R: AllocGlobal
        + Print
        + Eprint
        + Terminal
        + Clock
        + StandardError
        + Net<Listener = TcpListener, Stream = TcpStream>,
{
    if let Err(status) = look_at_stores(rt, &mut centre, words, plan) {
        return Ok((status, centre));
    }
    making.begin();
    let polls = words.polls_of(plan);
    let issue = words.issue.as_ref();
    let done = match &words.standing {
        Some(driving) => match polls.issue_given(rt, &mut centre, issue) {
            Ok(_) => return run_standing_centre(rt, centre, &polls, driving),
            Err(status) => Err(status),
        },
        None => polls.run(rt, &mut centre, issue),
    };
    let status = match done {
        Ok(()) => ExitCode::from(exit::DONE),
        Err(status) => status,
    };
    Ok((status, centre))
}
