//! What is done on the connection of a place in a turn: octets move between its socket and the node.

ghost use Rattle.std.specs.Prelude.{◌≡◌, ◌≤◌};
ghost use Rattle.dnp_loop.specs.Ends as spec;
ghost use Rattle.dnp_loop.specs.States.{absent};

use crate::clock::moment;
use crate::fault::Fault;
use crate::notice::{Notice, Notices};
use crate::place::Place;
use crate::state::{Action, Stage, State};
use dnp_nodes::{Closing, Node, Slot};
use std::io::{self, ErrorKind, Read, Write};
use std::rt::Clock;

/// How many octets a read takes at most.
const READ: usize = 4_096;

/// How many reads and writes a connection has in a turn, so that one that sends without end costs itself alone.
const ACTIONS: u8 = 8;

/// Why a connection ended.
#[derive(Clone, Copy, Debug, PartialEq, Eq)]
pub(crate) enum End {
    /// The other end sends no more, and has had its answers.
    Closed,
    /// A call failed.
    Failed(Fault),
}

/// Whether a call that failed so is to be made again: it was interrupted.
fn was_interrupted(cause: &io::Error) -> bool {
    cause.kind() == ErrorKind::Interrupted
}

/// Whether a call failed since it would wait.
fn would_wait(cause: &io::Error) -> bool {
    cause.kind() == ErrorKind::WouldBlock
}

/// What is told of the end of a connection, or of one that did not come about.
fn notice_of(stage: Stage, slot: Slot, end: End) -> Notice
    ensures { result ≡ spec.notice_of stage slot end }
{
    match end {
        End::Closed => Notice::Closed(slot),
        End::Failed(fault) => {
            if is_connecting(stage) {
                Notice::Unmade(slot, fault)
            } else {
                Notice::Broken(slot, fault)
            }
        }
    }
}

/// Why the connection ended, to the node.
fn closing_of(stage: Stage) -> Closing
    ensures { result ≡ spec.closing_of stage }
{
    if is_connecting(stage) {
        Closing::Unmade
    } else {
        Closing::Peer
    }
}

/// Whether a connection is being made.
fn is_connecting(stage: Stage) -> bool
    ensures { result ≡ spec.is_connecting stage }
{
    matches!(stage, Stage::Connecting)
}

impl Place {
    /// Whether the connection that is being made stands now; an error says why it did not come about.
    fn has_come(&self) -> io::Result<bool> {
        let Some(stream) = &self.stream else {
            return Ok(false);
        };
        if let Some(cause) = stream.take_error()? {
            return Err(cause);
        }
        match stream.peer_addr() {
            Ok(_) => {
                stream.set_nodelay(true)?;
                Ok(true)
            }
            Err(cause) if cause.kind() == ErrorKind::NotConnected => Ok(false),
            Err(cause) => Err(cause),
        }
    }

    /// Looks whether the connection came about.
    fn look<N: Node>(&mut self, node: &mut N, now: u64) -> Result<(), End>
        ensures { self.new.slot ≡ self.old.slot }
    {
        match self.has_come() {
            Ok(true) => {
                self.state = State::up();
                node.connected(self.slot, now);
                Ok(())
            }
            Ok(false) => {
                self.state = self.state.written_full();
                Ok(())
            }
            Err(cause) => Err(End::Failed(Fault::of(&cause))),
        }
    }

    /// Writes octets of the node, once.
    fn write<N: Node>(&mut self, node: &mut N, now: u64) -> Result<(), End>
        ensures { self.new.slot ≡ self.old.slot }
    {
        let Some(stream) = &mut self.stream else {
            return Err(End::Closed);
        };
        match stream.write(node.output(self.slot)) {
            Ok(0) => Err(End::Closed),
            Ok(count) => {
                node.sent(self.slot, now, count);
                Ok(())
            }
            Err(cause) if would_wait(&cause) => {
                self.state = self.state.written_full();
                Ok(())
            }
            Err(cause) if was_interrupted(&cause) => Ok(()),
            Err(cause) => Err(End::Failed(Fault::of(&cause))),
        }
    }

    /// Reads octets for the node, once.
    fn read<N: Node>(&mut self, node: &mut N, now: u64) -> Result<(), End>
        ensures { self.new.slot ≡ self.old.slot }
    {
        let Some(stream) = &mut self.stream else {
            return Err(End::Closed);
        };
        let mut octets = [0u8; READ];
        match stream.read(&mut octets) {
            Ok(0) => Err(End::Closed),
            Ok(count) => {
                node.received(self.slot, now, &octets[..count]);
                Ok(())
            }
            Err(cause) if would_wait(&cause) => {
                self.state = self.state.read_dry();
                Ok(())
            }
            Err(cause) if was_interrupted(&cause) => Ok(()),
            Err(cause) => Err(End::Failed(Fault::of(&cause))),
        }
    }

    /// Does this on the connection.
    fn act<N: Node>(&mut self, node: &mut N, action: Action, now: u64) -> Result<(), End>
        ensures { self.new.slot ≡ self.old.slot }
    {
        match action {
            Action::Rest => Ok(()),
            Action::Look => self.look(node, now),
            Action::Write => self.write(node, now),
            Action::Read => self.read(node, now),
        }
    }

    /// The connection has ended, or did not come about.
    fn end<N: Node>(&mut self, node: &mut N, notices: &mut Notices, end: End, now: u64)
        ensures state { self.new.state ≡ absent }
        ensures slot { self.new.slot ≡ self.old.slot }
    {
        let stage = self.state.stage;
        notices.tell(notice_of(stage, self.slot, end));
        self.close();
        node.closed(self.slot, now, closing_of(stage));
    }

    /// A turn: what there is to be done on the connection is done, a bounded number of times, each at the moment that the clock shows then,
    /// since a call of the node may sync a file. Gives the last moment.
    pub(crate) fn turn<C: Clock, N: Node>(
        &mut self,
        clock: &C,
        node: &mut N,
        notices: &mut Notices,
        before: u64,
    ) -> u64
        ensures slot { self.new.slot ≡ self.old.slot }
        ensures later { before ≤ result }
    {
        let mut now = before;
        for _ in 0..ACTIONS {
            let action = self.next_action(node);
            if action == Action::Rest {
                return now;
            }
            now = moment(clock, now);
            if let Err(end) = self.act(node, action, now) {
                self.end(node, notices, end, now);
                return now;
            }
        }
        now
    }
}
