//! How connections are accepted at a door.

use crate::door::{Arrival, Door};
use crate::fault::Fault;
use crate::notice::{Notice, Notices};
use mio::Poll;
use std::io::{self, ErrorKind};
use std::net::Net;

/// How many connections are turned away at a door in a turn.
const ENTRIES: u8 = 16;

/// A descriptor that is kept to be closed where none is left, so that a connection can be accepted and refused.
#[derive(Drop)]
pub(crate) struct Spare {
    /// The descriptor, if there is one.
    kept: Option<Poll>,
}

impl Spare {
    /// None yet.
    pub(crate) fn new() -> Spare {
        Spare { kept: None }
    }

    /// Has one, if one is to be had.
    pub(crate) fn renew<R: Net>(&mut self, rt: &R) {
        if self.kept.is_none() {
            self.kept = Poll::new(rt).ok();
        }
    }

    /// Closes it. Whether there was one.
    fn close(&mut self) -> bool {
        let was_kept = self.kept.is_some();
        self.kept = None;
        was_kept
    }
}

/// What came of an attempt to accept a connection.
#[derive(Drop)]
enum Attempt {
    /// One came.
    Came(Arrival),
    /// Nobody has come.
    Nobody,
    /// It is to be made again: it was interrupted, or who came has gone.
    Again,
    /// It failed.
    Failed(Fault),
}

/// What came of an attempt that failed so.
fn failed(cause: &io::Error) -> Attempt {
    match cause.kind() {
        ErrorKind::WouldBlock => Attempt::Nobody,
        ErrorKind::Interrupted | ErrorKind::ConnectionAborted => Attempt::Again,
        _ => Attempt::Failed(Fault::of(cause)),
    }
}

impl Door {
    /// Attempts to accept a connection.
    fn attempt(&self) -> Attempt {
        match self.listener.accept() {
            Ok((stream, peer)) => {
                // (what can't be set makes it slower, and no worse)
                let _ = stream.set_nodelay(true);
                Attempt::Came(Arrival {
                    slot: self.slot,
                    stream,
                    peer,
                })
            }
            Err(cause) => failed(&cause),
        }
    }

    /// With a descriptor to spare, accepts a connection that came, and closes it. Why that failed, if it did. (The system says that no
    /// descriptor is left also if nobody has come.)
    fn turn_away(&mut self, notices: &mut Notices) -> Option<Fault> {
        match self.attempt() {
            Attempt::Came(_) => {
                notices.tell(Notice::Refused(self.slot));
                None
            }
            Attempt::Again => None,
            Attempt::Nobody => {
                self.watch.may_accept = false;
                None
            }
            Attempt::Failed(fault) => Some(fault),
        }
    }

    /// Nothing can be accepted: it is tried again later.
    fn rest(&mut self, notices: &mut Notices, fault: Fault, now: u64) {
        self.watch = self.watch.rest(now);
        notices.tell(Notice::Unaccepted(self.slot, fault));
    }

    /// No connection could be accepted: if no descriptor is left, the newest is refused, else the door rests.
    fn refuse<R: Net>(
        &mut self,
        rt: &R,
        spare: &mut Spare,
        notices: &mut Notices,
        fault: Fault,
        now: u64,
    ) {
        if !fault.lacks_descriptors() || !spare.close() {
            self.rest(notices, fault, now);
            return;
        }
        let failed = self.turn_away(notices);
        spare.renew(rt);
        if let Some(fault) = failed {
            self.rest(notices, fault, now);
        }
    }

    /// The next of the connections that came, if one did. The others wait for the next turns: so each has a turn before another takes its
    /// place.
    pub(crate) fn next<R: Net>(
        &mut self,
        rt: &R,
        spare: &mut Spare,
        notices: &mut Notices,
        now: u64,
    ) -> Option<Arrival> {
        spare.renew(rt);
        for _ in 0..ENTRIES {
            if !self.watch.is_due(now) {
                return None;
            }
            match self.attempt() {
                Attempt::Came(arrival) => return Some(arrival),
                Attempt::Again => {}
                Attempt::Nobody => self.watch.may_accept = false,
                Attempt::Failed(fault) => self.refuse(rt, spare, notices, fault, now),
            }
        }
        None
    }
}
