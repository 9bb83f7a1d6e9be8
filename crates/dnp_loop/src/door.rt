//! Where others connect to a slot of the node.

ghost use Rattle.std.specs.Prelude.{◌≡◌, ◌<◌, ◌≤◌, true};
ghost use Rattle.dnp_loop.specs.Doors as spec;

use dnp_nodes::Slot;
use mio::net::{TcpListener, TcpStream};
use std::net::SocketAddr;

/// How long a door rests after nothing could be accepted, in milliseconds.
pub(crate) const REST_MS: u64 = 1_000;

/// A connection that came.
#[derive(Drop)]
pub(crate) struct Arrival {
    /// Where.
    pub(crate) slot: Slot,
    /// Its socket.
    pub(crate) stream: TcpStream,
    /// Who came.
    pub(crate) peer: SocketAddr,
}

/// When a door is looked at.
#[derive(Clone, Copy, Debug, PartialEq, Eq)]
pub(crate) struct Watch {
    /// Whether somebody may have come: from a report of the system on, until an accept would wait.
    pub(crate) may_accept: bool,
    /// The moment before which nothing is accepted, in milliseconds.
    pub(crate) from: u64,
}

impl Watch {
    /// Whether it is looked at whether somebody has come.
    pub(crate) fn is_due(self, now: u64) -> bool
        ensures { result ≡ spec.is_due self now }
    {
        self.may_accept && self.from <= now
    }

    /// The moment at which it is to be looked at; the last one of all if that waits for a report.
    pub(crate) fn next_moment(self) -> u64
        ensures { result ≡ spec.next_moment self }
    {
        if self.may_accept { self.from } else { u64::MAX }
    }

    /// Nothing could be accepted.
    pub(crate) fn rest(self, now: u64) -> Watch
        ensures { result ≡ spec.rested self now }
    {
        Watch {
            may_accept: true,
            from: now.saturating_add(REST_MS),
        }
    }
}

/// Where others connect to a slot.
#[derive(Drop)]
pub(crate) struct Door {
    /// What they connect to.
    pub(crate) listener: TcpListener,
    /// The slot.
    pub(crate) slot: Slot,
    /// When it is looked at.
    pub(crate) watch: Watch,
}

impl Door {
    /// A door at which nobody has come.
    pub(crate) fn new(listener: TcpListener, slot: Slot) -> Door {
        Door {
            listener,
            slot,
            watch: Watch {
                may_accept: true,
                from: 0,
            },
        }
    }

    /// The system has reported something.
    pub(crate) fn note(&mut self)
        ensures { self.new.watch ≡ spec.reported self.old.watch }
    {
        self.watch.may_accept = true;
    }
}

/// The system has reported something of the door at this index.
pub(crate) fn note_door_at(doors: &mut [Door], index: usize) {
    if let Some(door) = doors.get_mut(index) {
        door.note();
    }
}

/// Whether one of the doors is to be looked at now.
pub(crate) fn is_any_due(doors: &[Door], now: u64) -> bool {
    for door in doors {
        if door.watch.is_due(now) {
            return true;
        }
    }
    false
}

/// The first moment at which a door is to be looked at.
pub(crate) fn next_moment_of(doors: &[Door]) -> u64 {
    let mut next = u64::MAX;
    for door in doors {
        next = next.min(door.watch.next_moment());
    }
    next
}
