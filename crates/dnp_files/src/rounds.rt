//! The rounds of a concentrator over TCP: at the pace of its centres, or by the clock.

use crate::accounts::{Accounts, no_memory};
use crate::gate::Gate;
use crate::lines::Round;
use crate::making::Making;
use crate::seats::Seats;
use crate::sites::{Served, Substations};
use dnp_concentrator::{Concentrator, MAX_SUBSTATIONS, Plan};
use dnp_controls::Book;
use dnp_eventbuf::PairLanes;
use dnp_master::{Classes, Task};
use dnp_streams::Below;
use dnp_tcp::{Call, Ended, Names, Peer, exit, unprinted};
use dnp_terminal::Terminal;
use std::net::{Net, TcpListener, TcpStream};
use std::process::ExitCode;
use std::rt::Clock;

/// The rows that a poll asks for: all events, class by class, and then what all points read.
const POLL: Task = Task::Poll(Classes([true, true, true, true]));

/// How many substations a plan can have.
const MOST: u8 = MAX_SUBSTATIONS as u8;

/// How many rounds there are, and when they begin.
#[derive(Clone, Copy)]
pub enum RoundPace {
    /// Each centre is served after a round, a connection to its end, and the next round begins then.
    ByCentres {
        /// How many rounds there are.
        rounds: u64,
    },
    /// Rounds begin by the clock, and the centres are served meanwhile.
    ByClock {
        /// From the beginning of a round to that of the next one, in milliseconds.
        every_ms: u64,
        /// How many rounds there are; none where there is no end.
        rounds: Option<u64>,
        /// How long a centre's connection may stand in which nothing whole comes, in seconds.
        idle: u64,
    },
}

/// The rounds: whom they poll, and whom they serve.
#[derive(Clone, Copy)]
pub(crate) struct Rounds<'p> {
    /// The plan.
    pub plan: &'p Plan,
    /// Where the first centre is served.
    pub first: Served,
    /// Where the second centre is served, if it is.
    pub second: Option<Served>,
    /// Where the substations are.
    pub substations: Substations<'p>,
    /// What people call the substations and their points.
    pub names: Names<'p>,
    /// How many rounds there are, and when they begin.
    pub pace: RoundPace,
}

/// Listens, from which on what was made for the run stays, and does the rounds. Where that ends before the last, the exit status is told.
pub(crate) fn run<Q: PairLanes, B: Book, R>(
    rt: &R,
    concentrator: &mut Concentrator<Q, B>,
    rounds: &Rounds<'_>,
    making: &Making<'_>,
) -> Result<(), ExitCode>
where
    R: AllocGlobal
        + Print
        + Eprint
        + Terminal
        + Clock
        + Net<Listener = TcpListener, Stream = TcpStream>,
{
    let Some(mut accounts) = Accounts::below(rt.alloc(), rounds.plan, concentrator.queue()) else {
        return Err(no_memory(rt));
    };
    match rounds.pace {
        RoundPace::ByCentres { rounds: count } => {
            by_centres(rt, concentrator, rounds, &mut accounts, count, making)
        }
        RoundPace::ByClock {
            every_ms,
            rounds: count,
            idle,
        } => {
            let mut seats = Seats::open(rt, rounds.first, rounds.second, idle)?;
            making.begin();
            let count = count.unwrap_or(u64::MAX);
            let pace = Pace { every_ms, count };
            let done = by_clock(rt, concentrator, rounds, &mut accounts, &mut seats, pace);
            if done.is_ok() {
                seats.close(rt, concentrator);
            }
            done
        }
    }
}

/// Does so many rounds, and serves a connection of each centre after each of them.
fn by_centres<Q: PairLanes, B: Book, R>(
    rt: &R,
    concentrator: &mut Concentrator<Q, B>,
    rounds: &Rounds<'_>,
    accounts: &mut Accounts,
    count: u64,
    making: &Making<'_>,
) -> Result<(), ExitCode>
where
    R: AllocGlobal
        + Print
        + Eprint
        + Terminal
        + Clock
        + Net<Listener = TcpListener, Stream = TcpStream>,
{
    let first = Gate::open(rt, rounds.first)?;
    let second = match rounds.second {
        Some(served) => Some(Gate::open(rt, served)?),
        None => None,
    };
    making.begin();
    for round in 0..count {
        let rows = rounds.poll_all(rt, concentrator, accounts)?;
        print_round(rt, round, rows)?;
        first.serve_next(rt, concentrator, 0)?;
        if let Some(gate) = &second {
            gate.serve_next(rt, concentrator, 1)?;
        }
        accounts.look_at(rt, concentrator.queue());
    }
    Ok(())
}

/// The pace of rounds by the clock.
#[derive(Clone, Copy)]
struct Pace {
    /// From the beginning of a round to that of the next one, in milliseconds.
    every_ms: u64,
    /// How many rounds there are.
    count: u64,
}

/// Does so many rounds, each so long after the one before has begun, or at once where that took longer; serves the centres meanwhile.
fn by_clock<Q: PairLanes, B: Book, R>(
    rt: &R,
    concentrator: &mut Concentrator<Q, B>,
    rounds: &Rounds<'_>,
    accounts: &mut Accounts,
    seats: &mut Seats,
    pace: Pace,
) -> Result<(), ExitCode>
where
    R: AllocGlobal
        + Print
        + Eprint
        + Terminal
        + Clock
        + Net<Listener = TcpListener, Stream = TcpStream>,
{
    for round in 0..pace.count {
        let next = seats.now(rt).saturating_add(pace.every_ms);
        let rows = rounds.poll_and_serve(rt, concentrator, accounts, seats)?;
        print_round(rt, round, rows)?;
        seats.serve_until(rt, concentrator, next)?;
        accounts.look_at(rt, concentrator.queue());
    }
    Ok(())
}

/// Prints how many rows a round brought; it is counted from 0. Where that can't be printed, the exit status is told.
fn print_round<R: Print + Eprint + Terminal + Clock>(
    rt: &R,
    round: u64,
    rows: u64,
) -> Result<(), ExitCode> {
    let line = Round { round, rows };
    match println!(rt; "{line}") {
        Ok(()) => Ok(()),
        Err(cause) => Err(unprinted(rt, &cause)),
    }
}

impl<'p> Rounds<'p> {
    /// How many substations there are.
    fn count(&self) -> u8 {
        u8::try_from(self.plan.substations.as_slice().len()).unwrap_or(MOST)
    }

    /// Polls the substations one after the other, and tells how many rows came. Where a store or memory fails, the exit status
    /// is told.
    fn poll_all<Q: PairLanes, B: Book, R>(
        &self,
        rt: &R,
        concentrator: &mut Concentrator<Q, B>,
        accounts: &mut Accounts,
    ) -> Result<u64, ExitCode>
    where
        R: AllocGlobal
            + Eprint
            + Terminal
            + Clock
            + Net<Listener = TcpListener, Stream = TcpStream>,
    {
        let mut rows = 0u64;
        for substation in 0..self.count() {
            rows = rows.saturating_add(self.poll(rt, concentrator, accounts, substation)?);
        }
        Ok(rows)
    }

    /// The same, and serves the centres after each substation.
    fn poll_and_serve<Q: PairLanes, B: Book, R>(
        &self,
        rt: &R,
        concentrator: &mut Concentrator<Q, B>,
        accounts: &mut Accounts,
        seats: &mut Seats,
    ) -> Result<u64, ExitCode>
    where
        R: AllocGlobal
            + Eprint
            + Terminal
            + Clock
            + Net<Listener = TcpListener, Stream = TcpStream>,
    {
        let mut rows = 0u64;
        for substation in 0..self.count() {
            rows = rows.saturating_add(self.poll(rt, concentrator, accounts, substation)?);
            seats.serve_between(rt, concentrator)?;
        }
        Ok(rows)
    }

    /// Polls a substation, relays controls to it, and tells how many rows came. One that can't be reached, or fails, gives none;
    /// where a store or memory fails, the exit status is told.
    fn poll<Q: PairLanes, B: Book, R>(
        &self,
        rt: &R,
        concentrator: &mut Concentrator<Q, B>,
        accounts: &mut Accounts,
        substation: u8,
    ) -> Result<u64, ExitCode>
    where
        R: AllocGlobal
            + Eprint
            + Terminal
            + Clock
            + Net<Listener = TcpListener, Stream = TcpStream>,
    {
        let Some(target) = self.substations.target(substation) else {
            return Ok(0);
        };
        let Some(account) = accounts.of(substation) else {
            return Ok(0);
        };
        let call = Call {
            peer: Peer::Substation(substation),
            names: self.names,
            place: target.place,
            own: target.awaited.dest,
            other: target.awaited.source,
            patience_ms: self.plan.times.response_ms,
        };
        let Some(stream) = call.connect(rt, account) else {
            return Ok(0);
        };
        let mut link = Below::new(concentrator, substation);
        let ended = call.ask(rt, &mut link, &[POLL], &stream, account);
        accounts.look_at(rt, concentrator.queue());
        match ended {
            Ended::Done(came) => Ok(came),
            Ended::Failed => Ok(0),
            Ended::Lost => Err(ExitCode::from(exit::FAULT)),
        }
    }
}
