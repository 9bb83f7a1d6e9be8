//! The places of the centres of a concentrator that lives, which are served in turns.

use crate::seat::Seat;
use crate::sites::Served;
use dnp_concentrator::Concentrator;
use dnp_controls::Book;
use dnp_eventbuf::PairLanes;
use dnp_streams::StepRoom;
use dnp_tcp::{Ending, Span, moment};
use dnp_terminal::Terminal;
use std::net::{Net, TcpListener, TcpStream};
use std::process::ExitCode;
use std::rt::Clock;
use std::time::Duration;

/// How long a turn lasts at most while the centre's frames come without a pause, in milliseconds.
const TURN_MS: u64 = 50;

/// How long a read waits between two rounds, in milliseconds.
const REST_MS: u64 = 10;

/// How long a read waits between two substations, in milliseconds.
const STEP_MS: u64 = 1;

/// How long it waits there for what follows on a fragment that came, in milliseconds.
const FOLLOW_MS: u64 = 20;

/// How long the centres are served at most between two substations, in milliseconds.
const BETWEEN_MS: u64 = 200;

/// The places of the centres.
#[derive(Drop)]
pub(crate) struct Seats {
    /// That of the first centre.
    first: Seat,
    /// That of the second one, where it is served.
    second: Option<Seat>,
    /// The moment of the last turn, in milliseconds.
    now: u64,
    /// Room for the steps of turns.
    room: StepRoom,
}

impl Seats {
    /// Listens where each centre is served, which may stand so long in which nothing whole comes, in seconds. Where a place can't be had,
    /// that is said, and the exit status is told.
    pub(crate) fn open<R>(
        rt: &R,
        first: Served,
        second: Option<Served>,
        idle: u64,
    ) -> Result<Seats, ExitCode>
    where
        R: AllocGlobal
            + Eprint
            + Terminal
            + Clock
            + Net<Listener = TcpListener, Stream = TcpStream>,
    {
        let first = Seat::open(rt, first, idle)?;
        let second = match second {
            Some(served) => Some(Seat::open(rt, served, idle)?),
            None => None,
        };
        Ok(Seats {
            first,
            second,
            now: 0,
            room: StepRoom::new(rt.alloc()),
        })
    }

    /// The moment, in milliseconds.
    pub(crate) fn now<R: Clock>(&mut self, rt: &R) -> u64 {
        self.now = moment(rt, self.now);
        self.now
    }

    /// Whether a centre is connected.
    fn is_any_taken(&self) -> bool {
        let is_second_taken = match &self.second {
            Some(seat) => seat.is_taken(),
            None => false,
        };
        self.first.is_taken() || is_second_taken
    }

    /// A turn of each centre, in which a read waits for so long, in milliseconds; tells whether a fragment came whole. Where a
    /// store or memory fails, the exit status is told.
    fn serve_each<Q: PairLanes, B: Book, R: AllocGlobal + Eprint + Terminal + Clock>(
        &mut self,
        rt: &R,
        concentrator: &mut Concentrator<Q, B>,
        wait_ms: u64,
    ) -> Result<bool, ExitCode> {
        let now = self.now(rt);
        let until = now.saturating_add(TURN_MS);
        let span = Span { wait_ms, until };
        let mut came = self
            .first
            .serve(rt, &mut self.room, concentrator, 0, now, span)?;
        let now = self.now(rt);
        let until = now.saturating_add(TURN_MS);
        let span = Span { wait_ms, until };
        if let Some(seat) = &mut self.second
            && seat.serve(rt, &mut self.room, concentrator, 1, now, span)?
        {
            came = true;
        }
        Ok(came)
    }

    /// Serves the centres between two substations: each for a turn, and as long as fragments come, but no longer than a while.
    pub(crate) fn serve_between<Q: PairLanes, B: Book, R: AllocGlobal + Eprint + Terminal + Clock>(
        &mut self,
        rt: &R,
        concentrator: &mut Concentrator<Q, B>,
    ) -> Result<(), ExitCode> {
        let end = self.now(rt).saturating_add(BETWEEN_MS);
        let mut wait_ms = STEP_MS;
        for _ in 0..u64::MAX {
            if !self.serve_each(rt, concentrator, wait_ms)? || self.now(rt) >= end {
                return Ok(());
            }
            wait_ms = FOLLOW_MS;
        }
        Ok(())
    }

    /// Serves the centres up to this moment, in milliseconds, each for a turn at least.
    pub(crate) fn serve_until<Q: PairLanes, B: Book, R: AllocGlobal + Eprint + Terminal + Clock>(
        &mut self,
        rt: &R,
        concentrator: &mut Concentrator<Q, B>,
        end: u64,
    ) -> Result<(), ExitCode> {
        for _ in 0..u64::MAX {
            let wait_ms = end.saturating_sub(self.now(rt)).max(1).min(REST_MS);
            self.serve_each(rt, concentrator, wait_ms)?;
            if self.now(rt) >= end {
                return Ok(());
            }
            if !self.is_any_taken() {
                rt.sleep(Duration::from_millis(wait_ms));
            }
        }
        Ok(())
    }

    /// Ends the connections of the centres, since all rounds are done.
    pub(crate) fn close<Q: PairLanes, B: Book, R: Eprint + Terminal + Clock>(
        &mut self,
        rt: &R,
        concentrator: &mut Concentrator<Q, B>,
    ) {
        self.first.hang_up(rt, concentrator, 0, Ending::Done);
        if let Some(seat) = &mut self.second {
            seat.hang_up(rt, concentrator, 1, Ending::Done);
        }
    }
}
