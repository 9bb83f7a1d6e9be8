//! A concentrator over a queue and a book of controls in files, which polls substations and serves one or two centres over
//! TCP, round after round.

ghost use Rattle.dnp_concentrator.specs.Plan.{KeepsLimits};

use crate::driving::Drivings;
use crate::files::{Opens, StoreFile};
use crate::lines::Line;
use crate::making::Making;
use crate::node_runs::run_standing;
use crate::planned::{look_at_book, look_at_queue};
use crate::rounds::{RoundPace, Rounds};
use crate::sites::{Served, Substations};
use crate::{files, rounds};
use dnp_concentrator::{Concentrator, Plan};
use dnp_controls::Book;
use dnp_eventbuf::{CENTRES, PairLanes};
use dnp_loop::StandardError;
use dnp_store::{ControlBook, Queue};
use dnp_tcp::{Names, exit, say};
use dnp_terminal::Terminal;
use sqlite::{Alter, Connection, File, FileStore};
use std::net::{Net, TcpListener, TcpStream};
use std::process::ExitCode;
use std::rt::{Clock, Files, HostRuntime};

/// Over which files a concentrator runs, and what it is to do.
#[derive(Clone, Copy)]
pub struct ConcentratorWords<'a> {
    /// The file of the queue.
    pub queue: StoreFile<'a>,
    /// The file of the book of controls.
    pub controls: StoreFile<'a>,
    /// Where the first centre is served.
    pub first: Served,
    /// Where the second centre is served, if it is.
    pub second: Option<Served>,
    /// Where the substations are.
    pub substations: Substations<'a>,
    /// What people call the substations and their points.
    pub names: Names<'a>,
    /// How many rounds there are, and when they begin.
    pub pace: RoundPace,
    /// Whether a queue for one centre is brought to the form for two.
    pub migrates: bool,
    /// How its links are driven on connections that stand, if they do.
    pub standing: Option<Drivings<'a>>,
}

impl<'a> ConcentratorWords<'a> {
    /// The rounds over this plan.
    fn rounds_of(&self, plan: &'a Plan) -> Rounds<'a> {
        Rounds {
            plan,
            first: self.first,
            second: self.second,
            substations: self.substations,
            names: self.names,
            pace: self.pace,
        }
    }
}

/// Opens the files, or makes them, runs the concentrator over them, and closes them. Tells the exit status: that of a refused
/// input where a file is no such store or holds what the plan has no point for, and that of a fault where something fails; why is
/// said on standard error.
pub fn run_concentrator(rt: &HostRuntime, words: &ConcentratorWords<'_>, plan: &Plan) -> ExitCode
    requires { KeepsLimits plan.now }
{
    run_in::<FileStore<File>, HostRuntime>(rt, words, plan)
}

/// The same over rows that are kept in any way.
fn run_in<S: Alter + Drop, R>(rt: &R, words: &ConcentratorWords<'_>, plan: &Plan) -> ExitCode
where
    R: AllocGlobal + Print + Eprint + Files + Opens<Connection<S>>,
    R: Terminal + Clock + StandardError + Net<Listener = TcpListener, Stream = TcpStream>,
    requires { KeepsLimits plan.now }
{
    let making = Making::of(rt, &words.queue, &words.controls);
    let status = run_made(rt, words, plan, &making);
    making.end(rt);
    status
}

/// The same, where these files are to be made.
fn run_made<S: Alter + Drop, R>(
    rt: &R,
    words: &ConcentratorWords<'_>,
    plan: &Plan,
    making: &Making<'_>,
) -> ExitCode
where
    R: AllocGlobal + Print + Eprint + Files + Opens<Connection<S>>,
    R: Terminal + Clock + StandardError + Net<Listener = TcpListener, Stream = TcpStream>,
    requires { KeepsLimits plan.now }
{
    let queue = match queue_there(rt, words, plan) {
        Ok(queue) => queue,
        Err(status) => return status,
    };
    let book = match files::book_there(rt, &words.controls) {
        Ok(book) => book,
        Err(status) => return status,
    };
    match carry_on(rt, words, plan, queue, book, making) {
        Ok((status, queue, book)) => {
            files::close_both(rt, &words.queue, queue, &words.controls, book, status)
        }
        Err(status) => status,
    }
}

/// The queue in its file.
fn queue_there<
    S: Alter + Drop,
    R: AllocGlobal + Eprint + Terminal + Clock + Files + Opens<Connection<S>>,
>(rt: &R, words: &ConcentratorWords<'_>, plan: &Plan) -> Result<Queue<S>, ExitCode>
    requires { KeepsLimits plan.now }
{
    let conn = files::connection(rt, &words.queue)?;
    files::queue(
        rt,
        &words.queue,
        conn,
        plan.queue,
        plan.queue2,
        words.migrates,
    )
}

/// Runs the concentrator over its stores, and gives their databases back, with the exit status. A store that failed is said. Where the
/// concentrator can't begin, the exit status alone is told.
fn carry_on<S: Alter + Drop, R>(
    rt: &R,
    words: &ConcentratorWords<'_>,
    plan: &Plan,
    queue: Queue<S>,
    book: ControlBook<S>,
    making: &Making<'_>,
) -> Result<(ExitCode, Connection<S>, Connection<S>), ExitCode>
where
    R: AllocGlobal
        + Print
        + Eprint
        + Terminal
        + Clock
        + StandardError
        + Net<Listener = TcpListener, Stream = TcpStream>,
    requires { KeepsLimits plan.now }
{
    match run_over(rt, words, plan, queue, book, making) {
        Ok((status, queue, book)) => {
            files::look_after(rt, &words.queue, queue.serves());
            files::look_after(rt, &words.controls, book.serves());
            Ok((status, queue.into_connection(), book.into_connection()))
        }
        Err(status) => Err(status),
    }
}

/// Runs a concentrator over these stores, and gives them back, with the exit status. Where it can't begin, why is said on
/// standard error, and the exit status alone is told.
fn run_over<Q: PairLanes + Drop, B: Book + Drop, R>(
    rt: &R,
    words: &ConcentratorWords<'_>,
    plan: &Plan,
    queue: Q,
    book: B,
    making: &Making<'_>,
) -> Result<(ExitCode, Q, B), ExitCode>
where
    R: AllocGlobal
        + Print
        + Eprint
        + Terminal
        + Clock
        + StandardError
        + Net<Listener = TcpListener, Stream = TcpStream>,
    requires { KeepsLimits plan.now }
{
    match Concentrator::new(rt.alloc(), plan, queue, book) {
        Ok(concentrator) => {
            let (status, concentrator) = run_at_pace(rt, concentrator, words, plan, making)?;
            let (queue, book) = concentrator.into_stores();
            Ok((status, queue, book))
        }
        Err(fault) => {
            say(rt, &Line::NoMap(fault));
            Err(ExitCode::from(exit::FAULT))
        }
    }
}

/// Looks whether what the stores hold is of the plan. If it isn't, the exit status is told.
fn look_at_stores<Q: PairLanes, B: Book, R: AllocGlobal + Eprint + Terminal + Clock>(
    rt: &R,
    concentrator: &mut Concentrator<Q, B>,
    words: &ConcentratorWords<'_>,
    plan: &Plan,
) -> Result<(), ExitCode> {
    for centre in 0..CENTRES {
        look_at_queue(rt, &words.queue, concentrator.queue(), centre, plan)?;
    }
    look_at_book(rt, &words.controls, concentrator.book(), plan, false)
}

/// Looks at the stores, and runs the concentrator in rounds or on connections that stand. Gives it back with the exit status; if it can't
/// begin on connections that stand, the exit status alone is told.
fn run_at_pace<Q: PairLanes + Drop, B: Book + Drop, R>(
    rt: &R,
    mut concentrator: Concentrator<Q, B>,
    words: &ConcentratorWords<'_>,
    plan: &Plan,
    making: &Making<'_>,
) -> Result<(ExitCode, Concentrator<Q, B>), ExitCode>
where
    R: AllocGlobal
        + Print
        + Eprint
        + Terminal
        + Clock
        + StandardError
        + Net<Listener = TcpListener, Stream = TcpStream>,
{
    if let Err(status) = look_at_stores(rt, &mut concentrator, words, plan) {
        return Ok((status, concentrator));
    }
    let rounds = words.rounds_of(plan);
    if let Some(drivings) = &words.standing {
        return run_standing(rt, concentrator, &rounds, drivings, making);
    }
    let status = match rounds::run(rt, &mut concentrator, &rounds, making) {
        Ok(()) => ExitCode::from(exit::DONE),
        Err(status) => status,
    };
    Ok((status, concentrator))
}
