//! A connection of the network, and what is watched on it.

use crate::faults::Fault;
use crate::making::{KEEPALIVE_MS, poll_ms};
use crate::process::{Process, Way};
use crate::random::Random;
use crate::record::Record;
use crate::requests::Requests;
use crate::violation::Violation;
use crate::wire::{Arrival, End, Wire};
use dnp_nodes::Want;
use dnp_schedule::Pace;
use std::alloc::{AllocError, Global};

/// A connection of the network, and what is watched on it.
#[derive(Drop)]
pub struct Link {
    /// Between which processes.
    pub way: Way,
    /// How long what happens on it may be due to a fault that is over, in milliseconds: what is awaited may come to its end, and
    /// it rests.
    pub aftermath: u64,
    /// How long nothing may come to the concentrator until its points have to be marked as lost, in milliseconds.
    silence: u64,
    /// The connection.
    pub wire: Wire,
    /// Octets of a former connection that waited at the caller as it ended.
    caller_left: Vec<u8>,
    /// The same at the callee.
    callee_left: Vec<u8>,
    /// The requests that the caller has sent on this connection.
    requests: Requests,
    /// The control that is selected on this connection, by its number in the caller's book.
    pub selected: Option<u64>,
    /// The control that is operated on this connection.
    pub operated: Option<u64>,
    /// When its points have to be marked as lost above.
    pub lost_by: u64,
    /// It is cut as the next octets are sent.
    pub armed: Option<Fault>,
}

/// How much later than it may be lost a link's points are looked at, in milliseconds.
pub const GRACE_MS: u64 = 1_000;

/// How often points that have to be marked as lost are looked at, in milliseconds.
const LOOK_MS: u64 = 10_000;

impl Link {
    /// Makes a place for a connection that is asked so, if a fragment of a response may take so many milliseconds.
    pub fn new(alloc: Global, way: Way, pace: &Pace, response_ms: u64) -> Link {
        let keepalive = pace.keepalive_ms.max(KEEPALIVE_MS);
        Link {
            way,
            aftermath: poll_ms(response_ms)
                .max(pace.poll_ms)
                .saturating_add(keepalive.saturating_mul(6)),
            silence: pace
                .keepalive_ms
                .saturating_add(response_ms)
                .saturating_add(GRACE_MS),
            wire: Wire::new(alloc),
            caller_left: Vec::new(alloc),
            callee_left: Vec::new(alloc),
            requests: Requests::new(alloc),
            selected: None,
            operated: None,
            lost_by: u64::MAX,
            armed: None,
        }
    }

    /// Gives what must not be of these octets, the first of a new connection: that they begin with those left of the former one.
    pub fn former(&self, end: End, octets: &[u8]) -> Option<Violation> {
        let left = match end {
            End::Caller => self.caller_left.as_slice(),
            End::Callee => self.callee_left.as_slice(),
        };
        // (a request that is sent again may have the same octets, and no more)
        if !left.is_empty() && left.len() < octets.len() && octets.starts_with(left) {
            Some(Violation::Former(self.way, end))
        } else {
            None
        }
    }

    /// Notes what comes to pass at an end, at which these octets wait. What a callee had of a connection that it knows nothing of the
    /// end of is over as a new one is made.
    pub fn hear_of(
        &mut self,
        record: &mut Record,
        arrival: &Arrival,
        waiting: &[u8],
    ) -> Result<(), AllocError> {
        let end = arrival.end();
        match arrival {
            Arrival::Connected(_) => record.tell_at(self.way, end, "connected", 0)?,
            Arrival::Octets(_, octets) => {
                // (they came to the concentrator)
                if let (Way::Below(_), End::Caller) = (self.way, end) {
                    self.lost_by = record.now.saturating_add(self.silence);
                }
                return record.tell_at(self.way, end, "received", octets.len());
            }
            Arrival::Refused | Arrival::Ended(_) => record.tell_at(self.way, end, "ended", 0)?,
        }
        if matches!(arrival, Arrival::Connected(End::Caller)) {
            self.begin();
            return Ok(());
        }
        let left = match end {
            End::Caller => &mut self.caller_left,
            End::Callee => &mut self.callee_left,
        };
        left.clear();
        left.extend_from_slice(waiting)
    }

    /// A new connection begins.
    pub fn begin(&mut self) {
        self.selected = None;
        self.operated = None;
        self.requests.begin();
    }

    /// Says whether its points have to be looked at, since it has been silent or lost for too long. That is said from time to time.
    pub fn is_lost(&mut self, now: u64) -> bool {
        if self.lost_by > now {
            return false;
        }
        self.lost_by = now.saturating_add(LOOK_MS);
        true
    }

    /// Does what a process wants of it. The process at its other end may be there or not.
    pub fn want(
        &mut self,
        random: &mut Random,
        record: &mut Record,
        process: Process,
        want: Want,
        is_there: bool,
    ) -> Result<(), AllocError> {
        let Some(end) = self.way.end_of(process) else {
            return Ok(());
        };
        let what = match want {
            Want::Connect => {
                self.wire.connect(random, record.now, is_there);
                "connects"
            }
            Want::Close(_) => {
                self.wire.close(random, end, record.now);
                "closes"
            }
        };
        record.tell_at(self.way, end, what, 0)
    }

    /// Gives how many octets an end sends next of so many that wait there; 0 if there is no room for any.
    pub fn piece(&self, random: &mut Random, end: End, waiting: usize) -> usize {
        let most = waiting.min(self.wire.room(end));
        if 0 < most && random.one_in(8) {
            random.place(most).saturating_add(1)
        } else {
            most
        }
    }

    /// An end sends these octets. A poll among them must not have the octets of the request before it.
    pub fn send(
        &mut self,
        random: &mut Random,
        record: &mut Record,
        end: End,
        octets: &[u8],
    ) -> Result<(), AllocError> {
        if matches!(end, End::Caller) && self.requests.note(octets)? {
            record.see(Some(Violation::Repeated(self.way)))?;
        }
        self.wire
            .send(record.alloc, random, end, octets, record.now)
    }
}
