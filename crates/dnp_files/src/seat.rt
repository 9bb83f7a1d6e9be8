//! Where a centre of a concentrator that lives connects, and its place: the newest connection has it.

ghost use Rattle.std.specs.Prelude.{◌<◌};

use crate::guest::{Guest, Turned, tell};
use crate::lines::{Line, News};
use crate::sites::Served;
use dnp_concentrator::Concentrator;
use dnp_controls::Book;
use dnp_eventbuf::{CENTRES, PairLanes};
use dnp_streams::StepRoom;
use dnp_tcp::{Caller, Door, Ending, Span, exit, listen, no_port, prepare, say, say_listening};
use dnp_terminal::Terminal;
use std::io;
use std::net::{Net, TcpListener, TcpStream};
use std::process::ExitCode;
use std::rt::Clock;

/// How long it is waited after no connection could be had, in milliseconds.
const AFTER_MS: u64 = 1_000;

/// How long a connection is read out at most before another takes its place, in milliseconds.
const READ_OUT_MS: u64 = 50;

/// How long a write waits, in milliseconds, before what is left of it stands over to the next turn.
const WRITE_MS: u64 = 1;

/// The place of a centre.
#[derive(Drop)]
pub(crate) struct Seat {
    /// The place, and the link addresses of the frames that are taken there.
    served: Served,
    /// How long a connection may stand in which nothing whole comes, in seconds.
    idle: u64,
    /// Where the centre connects.
    door: Door,
    /// The moment before which it is not looked whether it has, in milliseconds.
    after: u64,
    /// The centre, where it is connected.
    guest: Option<Guest>,
}

impl Seat {
    /// Listens where a centre is served, which may stand so long in which nothing whole comes, in seconds, and says so. Where the place
    /// can't be had, that is said, and the exit status is told.
    pub(crate) fn open<R>(rt: &R, served: Served, idle: u64) -> Result<Seat, ExitCode>
    where
        R: Eprint + Terminal + Clock + Net<Listener = TcpListener, Stream = TcpStream>,
    {
        let address = served.place.address();
        match listen(rt, address) {
            Ok(listener) => {
                say_listening(rt, address, served.taken);
                Ok(Seat {
                    served,
                    idle,
                    door: Door::new(listener),
                    after: 0,
                    guest: None,
                })
            }
            Err(cause) => Err(no_port(rt, served.place, &cause)),
        }
    }

    /// Whether the centre is connected.
    pub(crate) fn is_taken(&self) -> bool {
        self.guest.is_some()
    }

    /// The connection that has come by this moment, if one has. Why none can be had is said on standard error, once a second.
    fn next_caller<R: Eprint + Terminal + Clock>(&mut self, rt: &R, now: u64) -> Option<Caller> {
        if now < self.after {
            return None;
        }
        match self.door.next() {
            Ok(caller) => Some(caller),
            Err(cause) if cause.kind() == io::ErrorKind::WouldBlock => None,
            Err(cause) => {
                say(rt, &Line::NoCaller(self.served.place, &cause));
                self.after = now.saturating_add(AFTER_MS);
                None
            }
        }
    }

    /// Ends the connection, if there is one, hangs the station up, and says how it ended.
    pub(crate) fn hang_up<Q: PairLanes, B: Book, R: Eprint + Terminal + Clock>(
        &mut self,
        rt: &R,
        concentrator: &mut Concentrator<Q, B>,
        centre: u8,
        how: Ending<'_>,
    )
        requires { centre < CENTRES }
    {
        if let Some(mut guest) = self.guest.take() {
            concentrator.hung_up_above(centre);
            guest.tell_end(rt, centre, how);
        }
    }

    /// Serves the centre for a turn, if it is connected, and tells how many fragments came whole. Where a store or memory fails, the exit
    /// status is told.
    fn serve_guest<Q: PairLanes, B: Book, R: AllocGlobal + Eprint + Terminal + Clock>(
        &mut self,
        rt: &R,
        room: &mut StepRoom,
        concentrator: &mut Concentrator<Q, B>,
        centre: u8,
        span: Span,
    ) -> Result<u64, ExitCode>
        requires { centre < CENTRES }
    {
        let turned = match &mut self.guest {
            Some(guest) => guest.serve(rt, room, concentrator, centre, span),
            None => return Ok(0),
        };
        match turned {
            Turned::Stands(fragments) => Ok(fragments),
            Turned::Ended => {
                self.guest = None;
                Ok(0)
            }
            Turned::Lost => Err(ExitCode::from(exit::FAULT)),
        }
    }

    /// Lets a connection that has come by this moment take the place. The one before is read out first, for a turn at most: its last
    /// confirm may wait there, and the events that it confirms would come again. Where a store or memory fails, the exit status is told.
    fn look<Q: PairLanes, B: Book, R: AllocGlobal + Eprint + Terminal + Clock>(
        &mut self,
        rt: &R,
        room: &mut StepRoom,
        concentrator: &mut Concentrator<Q, B>,
        centre: u8,
        now: u64,
    ) -> Result<(), ExitCode>
        requires { centre < CENTRES }
    {
        let Some(caller) = self.next_caller(rt, now) else {
            return Ok(());
        };
        let until = now.saturating_add(READ_OUT_MS);
        let span = Span {
            wait_ms: WRITE_MS,
            until,
        };
        self.serve_guest(rt, room, concentrator, centre, span)?;
        let peer = caller.peer;
        self.hang_up(rt, concentrator, centre, Ending::Taken(peer));
        tell(rt, peer, centre, News::Connected);
        let prepared = prepare(&caller.stream, WRITE_MS);
        let mut guest = Guest::new(rt.alloc(), caller, self.served.taken, now);
        match prepared {
            Ok(()) => self.guest = Some(guest),
            Err(cause) => guest.tell_end(rt, centre, Ending::Unprepared(&cause)),
        }
        Ok(())
    }

    /// Serves the centre for a turn that begins at this moment, and tells whether a fragment came whole. Where a store or memory
    /// fails, the exit status is told.
    pub(crate) fn serve<Q: PairLanes, B: Book, R: AllocGlobal + Eprint + Terminal + Clock>(
        &mut self,
        rt: &R,
        room: &mut StepRoom,
        concentrator: &mut Concentrator<Q, B>,
        centre: u8,
        now: u64,
        span: Span,
    ) -> Result<bool, ExitCode>
        requires { centre < CENTRES }
    {
        self.look(rt, room, concentrator, centre, now)?;
        let idle_ms = self.idle.saturating_mul(1_000);
        let is_idle = match &self.guest {
            Some(guest) => guest.is_idle(now, idle_ms),
            None => return Ok(false),
        };
        if is_idle {
            let how = Ending::Idle(self.idle);
            self.hang_up(rt, concentrator, centre, how);
        }
        Ok(self.serve_guest(rt, room, concentrator, centre, span)? > 0)
    }
}
