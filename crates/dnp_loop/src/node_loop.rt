//! The loop: wait, note what is reported, give each place and each door its turn.

ghost use Rattle.std.specs.Prelude.{◌≡◌};

use crate::accepting::Spare;
use crate::clock::moment;
use crate::door::{Door, is_any_due, next_moment_of, note_door_at};
use crate::handler::Handler;
use crate::log_buffer::LogBuffer;
use crate::log_writer::{LogWriter, StandardError};
use crate::notice::Notices;
use crate::place::{Place, System};
use crate::places::{is_busy, note_at, seat, take_wants, turn_all};
use crate::token::{MAX_SOURCES, Source, door_token, place_token, source_of};
use crate::waiting::wait_ms;
use dnp_nodes::{Node, Slot};
use mio::net::TcpListener;
use mio::{Events, Interest, Poll, Token};
use std::io::{self, ErrorKind};
use std::net::{Net, SocketAddr};
use std::rt::Clock;
use std::time::Duration;

/// How many reports of the system's are taken at once.
const EVENTS: usize = 256;

/// A loop over the connections of one node, which is lent to each call.
#[derive(Drop)]
pub struct NodeLoop {
    /// The set that reports what happens to sockets.
    poll: Poll,
    /// The places, one for each slot.
    places: Vec<Place>,
    /// Where others connect.
    doors: Vec<Door>,
    /// A descriptor that is given up if there is no other, so that a connection can be refused.
    spare: Spare,
    /// What is told.
    notices: Notices,
    /// The lines that wait for standard error.
    log: LogBuffer,
    /// How they are written.
    writer: LogWriter,
}

/// There are more places or doors than the system has numbers for.
fn too_many() -> io::Error {
    ErrorKind::InvalidInput.into()
}

impl NodeLoop {
    /// Makes a loop without places.
    ///
    /// # Errors
    /// No descriptor is left.
    pub fn new<R: Net + AllocGlobal>(rt: &R) -> io::Result<NodeLoop> {
        let poll = Poll::new(rt)?;
        let mut spare = Spare::new();
        spare.renew(rt);
        let writer = LogWriter::new(poll.registry());
        Ok(NodeLoop {
            poll,
            places: Vec::new(rt.alloc()),
            doors: Vec::new(rt.alloc()),
            spare,
            notices: Notices::new(rt.alloc()),
            log: LogBuffer::new(rt.alloc()),
            writer,
        })
    }

    /// Adds the place of a slot, at which nobody has connected.
    fn add_place(&mut self, slot: Slot, address: Option<SocketAddr>) -> io::Result<()> {
        let index = self.places.len();
        if index >= MAX_SOURCES {
            return Err(too_many());
        }
        self.places
            .push(Place::new(slot, place_token(index), address))?;
        Ok(())
    }

    /// Adds a slot of which the node calls this address.
    ///
    /// # Errors
    /// Out of memory.
    pub fn call(&mut self, slot: Slot, address: SocketAddr) -> io::Result<()> {
        self.add_place(slot, Some(address))
    }

    /// Adds a slot to which others connect at this address: the newest connection has it.
    ///
    /// # Errors
    /// The address can't be had, or out of memory.
    pub fn listen<R: Net>(&mut self, rt: &R, slot: Slot, address: SocketAddr) -> io::Result<()> {
        let index = self.doors.len();
        if index >= MAX_SOURCES {
            return Err(too_many());
        }
        let mut listener = TcpListener::bind(rt, address)?;
        let token = Token(door_token(index));
        self.poll
            .registry()
            .register(&mut listener, token, Interest::READABLE)?;
        self.add_place(slot, None)?;
        self.doors.push(Door::new(listener, slot))?;
        Ok(())
    }

    /// Does what the node wants.
    fn settle<R: Net, N: Node>(&mut self, rt: &R, node: &mut N, now: u64) {
        let system = System {
            rt,
            registry: self.poll.registry(),
        };
        take_wants(&system, &mut self.places, node, &mut self.notices, now);
    }

    /// A turn of each door, and the last moment of them.
    fn serve_doors<R: Net + Clock, N: Node>(&mut self, rt: &R, node: &mut N, before: u64) -> u64 {
        let mut now = before;
        let system = System {
            rt,
            registry: self.poll.registry(),
        };
        for door in self.doors.iter_mut() {
            if door.watch.is_due(now)
                && let Some(arrival) = door.next(rt, &mut self.spare, &mut self.notices, now)
            {
                now = seat(
                    &system,
                    &mut self.places,
                    node,
                    &mut self.notices,
                    arrival,
                    now,
                );
            }
        }
        now
    }

    /// Makes a turn from this moment on, and gives its last moment: each connection has its turn, the node is called if its moment had come
    /// by then, and each door has its turn. What came by then is heard before time passes, so that no answer counts as late that came in
    /// time and was not read.
    pub fn turn<R: Net + Clock, N: Node>(&mut self, rt: &R, node: &mut N, before: u64) -> u64 {
        let now = turn_all(rt, &mut self.places, node, &mut self.notices, before);
        self.settle(rt, node, now);
        if node.next_deadline() <= before {
            node.tick(now);
        }
        self.settle(rt, node, now);
        let now = self.serve_doors(rt, node, now);
        self.settle(rt, node, now);
        now
    }

    /// Says how long the loop waits for the system's next report, in milliseconds, if the program is to be called again at the moment
    /// `at`.
    fn wait_after<N: Node>(&self, node: &N, now: u64, at: u64) -> u64 {
        let next = node
            .next_deadline()
            .min(next_moment_of(&self.doors))
            .min(at);
        let is_busy = is_busy(&self.places, node)
            || is_any_due(&self.doors, now)
            || self.writer.is_due(&self.log);
        wait_ms(now, next, is_busy)
    }

    /// Notes what the system has reported.
    fn note(&mut self, events: &Events) {
        for event in events.iter() {
            match source_of(event.token().0) {
                Source::Log => self.writer.note(),
                Source::Place(index) => note_at(&mut self.places, index),
                Source::Door(index) => note_door_at(&mut self.doors, index),
            }
        }
    }

    /// Lets the program say what has happened and give orders. The moment at which it is to be called again, if it goes on.
    fn hand<R: Net, N: Node, H: Handler<N>>(
        &mut self,
        rt: &R,
        node: &mut N,
        handler: &mut H,
        now: u64,
    ) -> Option<u64> {
        let at = handler.handle(node, &self.notices, &mut self.log, now);
        self.notices.clear();
        self.settle(rt, node, now);
        at
    }

    /// Runs the node on its connections until the handler ends the loop.
    ///
    /// # Errors
    /// Out of memory at the start, or the system can't wait.
    pub fn run<R, N, H>(&mut self, rt: &R, node: &mut N, handler: &mut H) -> io::Result<()>
    where
        R: Net + Clock + AllocGlobal + StandardError,
        N: Node,
        H: Handler<N>,
    {
        let mut events = Events::with_capacity(rt.alloc(), EVENTS)?;
        let mut now = moment(rt, 0);
        for _ in 0..u64::MAX {
            now = self.turn(rt, node, now);
            let next = self.hand(rt, node, handler, now);
            self.writer.write(self.poll.registry(), rt, &mut self.log);
            let Some(at) = next else {
                return Ok(());
            };
            let wait = Duration::from_millis(self.wait_after(node, now, at));
            self.poll.poll(&mut events, Some(wait))?;
            now = moment(rt, now);
            self.note(&events);
        }
        Ok(())
    }
}
