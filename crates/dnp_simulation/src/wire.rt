//! Connections that are simulated.

use crate::faults::Fault;
use crate::flights::Flights;
use crate::nodes::Told;
use crate::random::Random;
use dnp_nodes::Closing;
use std::alloc::{AllocError, Global};

/// An end of a connection.
#[derive(Clone, Copy, Debug)]
pub enum End {
    /// The one that connects.
    Caller,
    /// The one that is called.
    Callee,
}

impl End {
    /// Gives the other end.
    pub fn other(self) -> End {
        match self {
            End::Caller => End::Callee,
            End::Callee => End::Caller,
        }
    }
}

/// What comes to pass at an end of a connection.
#[derive(Drop)]
pub enum Arrival {
    /// The connection was made.
    Connected(End),
    /// The connection was refused.
    Refused,
    /// These octets come.
    Octets(End, Vec<u8>),
    /// The connection ended.
    Ended(End),
}

impl Arrival {
    /// Gives the end at which it comes to pass.
    pub fn end(&self) -> End {
        match self {
            Arrival::Connected(end) | Arrival::Octets(end, _) | Arrival::Ended(end) => *end,
            Arrival::Refused => End::Caller,
        }
    }

    /// Gives what the node there is told.
    pub fn told(&self) -> Told<'_> {
        match self {
            Arrival::Connected(_) => Told::Connected,
            Arrival::Octets(_, octets) => Told::Received(octets),
            Arrival::Refused => Told::Closed(Closing::Unmade),
            Arrival::Ended(_) => Told::Closed(Closing::Peer),
        }
    }
}

/// How far a connection is.
#[derive(Clone, Copy)]
enum Way {
    /// There is none.
    Closed,
    /// The callee hears of it at this moment.
    Calling(u64),
    /// The callee is connected, and the caller hears of it at this moment.
    Answering(u64),
    /// Both are connected.
    Open,
    /// The caller hears at this moment that there is none.
    Refusing(u64),
}

/// How many octets may be on their way in one direction.
pub const WINDOW: usize = 8_192;

/// The same on a narrow connection, at least and at most: each fourth one is narrow.
const LEAST_WINDOW: usize = 64;

const NARROW: usize = 464;

/// How long octets are on their way, in milliseconds: 1 to this, on a connection that isn't slow.
const LATENCY: u64 = 30;

/// How long they are on their way on a slow connection.
const SLOWNESS: u64 = 3_000;

/// A connection: octets both ways, and when its ends hear that it is over.
#[derive(Drop)]
pub struct Wire {
    /// How far it is.
    way: Way,
    /// What is on its way to the caller.
    to_caller: Flights,
    /// What is on its way to the callee.
    to_callee: Flights,
    /// When the caller hears that its connection is over.
    caller_ends: Option<u64>,
    /// The same of the callee.
    callee_ends: Option<u64>,
    /// Nothing comes before this moment.
    frozen_until: u64,
    /// No connection is made before this moment.
    refused_until: u64,
    /// What is sent before this moment is slow.
    slow_until: u64,
    /// A fault is over at this moment.
    faulty_until: u64,
    /// Until this moment what happens may be due to a fault, unless a connection is made after the fault.
    disturbed_until: u64,
    /// How many octets were sent, both ways.
    pub sent: u64,
    /// How many octets may be on their way in one direction on this connection.
    window: usize,
    /// How many octets of a broken connection were taken from each end: caller, callee.
    swallowed: [usize; 2],
}

/// Gives how many octets may be on their way on a new connection.
fn window_of(random: &mut Random) -> usize {
    if random.one_in(4) {
        LEAST_WINDOW.saturating_add(random.place(NARROW.saturating_sub(LEAST_WINDOW)))
    } else {
        WINDOW
    }
}

impl Wire {
    /// Makes a place for a connection.
    pub fn new(alloc: Global) -> Wire {
        Wire {
            way: Way::Closed,
            to_caller: Flights::new(alloc),
            to_callee: Flights::new(alloc),
            caller_ends: None,
            callee_ends: None,
            frozen_until: 0,
            refused_until: 0,
            slow_until: 0,
            faulty_until: 0,
            disturbed_until: 0,
            sent: 0,
            window: WINDOW,
            swallowed: [0, 0],
        }
    }

    /// Says whether what happens on it at this moment may be due to a fault.
    pub fn is_disturbed(&self, now: u64) -> bool {
        now < self.disturbed_until
    }

    /// Notes a fault that is over at the first moment. Until the second one what happens may be due to it, unless a connection is
    /// made before, and after the first one.
    pub fn disturb(&mut self, over_at: u64, until: u64) {
        self.faulty_until = self.faulty_until.max(over_at);
        self.disturbed_until = self.disturbed_until.max(until);
    }

    /// Says whether both of its ends are connected.
    pub fn is_open(&self) -> bool {
        matches!(self.way, Way::Open)
    }

    /// Gives when something comes to pass on it next, or the last moment of all.
    pub fn next_at(&self) -> u64 {
        let way = match self.way {
            Way::Closed | Way::Open => u64::MAX,
            Way::Calling(at) | Way::Answering(at) | Way::Refusing(at) => at,
        };
        let to_caller = if matches!(self.way, Way::Answering(_)) {
            u64::MAX
        } else {
            self.to_caller.next_at()
        };
        let octets = to_caller.min(self.to_callee.next_at());
        let caller_ends = self.caller_ends.unwrap_or(u64::MAX);
        let ends = caller_ends.min(self.callee_ends.unwrap_or(u64::MAX));
        let held = octets.min(ends).max(self.frozen_until);
        way.min(held)
    }

    /// Takes what comes to pass on it by this moment next.
    pub fn take(&mut self, random: &mut Random, now: u64) -> Option<Arrival> {
        if now < self.next_at() {
            return None;
        }
        match self.way {
            Way::Calling(at) if at <= now => {
                self.way = Way::Answering(now.saturating_add(random.within(1, LATENCY)));
                self.to_callee.begin();
                self.to_caller.begin();
                self.callee_ends = None;
                self.swallowed = [0, 0];
                self.window = window_of(random);
                Some(Arrival::Connected(End::Callee))
            }
            Way::Answering(at) if at <= now => {
                self.way = Way::Open;
                if self.faulty_until <= now {
                    self.disturbed_until = 0;
                }
                Some(Arrival::Connected(End::Caller))
            }
            Way::Refusing(at) if at <= now => {
                self.way = Way::Closed;
                Some(Arrival::Refused)
            }
            _ => self.take_octets(now),
        }
    }

    /// Takes octets that have come by this moment, or else what ends.
    fn take_octets(&mut self, now: u64) -> Option<Arrival> {
        if now < self.frozen_until {
            return None;
        }
        if let Some(octets) = self.to_callee.take(now) {
            return Some(Arrival::Octets(End::Callee, octets));
        }
        if !matches!(self.way, Way::Answering(_))
            && let Some(octets) = self.to_caller.take(now)
        {
            return Some(Arrival::Octets(End::Caller, octets));
        }
        self.take_end(now)
    }

    /// Takes the end of a connection that an end hears of by this moment.
    fn take_end(&mut self, now: u64) -> Option<Arrival> {
        if matches!(self.callee_ends, Some(at) if at <= now) {
            self.callee_ends = None;
            self.to_callee.begin();
            return Some(Arrival::Ended(End::Callee));
        }
        if matches!(self.caller_ends, Some(at) if at <= now) {
            self.caller_ends = None;
            self.to_caller.begin();
            return Some(Arrival::Ended(End::Caller));
        }
        None
    }

    /// The caller wants a connection, which is made, or refused if none is made just now or the callee isn't there.
    pub fn connect(&mut self, random: &mut Random, now: u64, is_there: bool) {
        let at = now.saturating_add(random.within(1, LATENCY));
        self.caller_ends = None;
        self.to_caller.begin();
        self.way = if now < self.refused_until || !is_there {
            let over_at = at.saturating_add(1);
            self.disturb(over_at, over_at);
            Way::Refusing(at)
        } else {
            Way::Calling(at)
        };
    }

    /// An end closes its connection, or is gone. The other end hears of it after what is on its way to it.
    pub fn close(&mut self, random: &mut Random, end: End, now: u64) {
        let later = now.saturating_add(random.within(1, LATENCY));
        match end {
            End::Caller => {
                if matches!(self.way, Way::Answering(_) | Way::Open) {
                    self.callee_ends = Some(later.max(self.to_callee.last));
                }
                self.caller_ends = None;
                self.to_caller.begin();
                self.way = Way::Closed;
            }
            End::Callee => {
                if matches!(self.way, Way::Open) {
                    self.caller_ends = Some(later.max(self.to_caller.last));
                    self.way = Way::Closed;
                } else if matches!(self.way, Way::Calling(_) | Way::Answering(_)) {
                    self.way = Way::Refusing(later);
                }
                self.callee_ends = None;
                self.to_callee.begin();
            }
        }
    }

    /// The connection breaks. Its ends hear of it at these moments.
    pub fn cut(&mut self, caller_at: u64, callee_at: u64) {
        match self.way {
            Way::Closed | Way::Refusing(_) => {}
            Way::Calling(_) => self.way = Way::Refusing(caller_at),
            Way::Answering(_) => {
                self.callee_ends = Some(callee_at);
                self.way = Way::Refusing(caller_at);
            }
            Way::Open => {
                self.caller_ends = Some(caller_at);
                self.callee_ends = Some(callee_at);
                self.way = Way::Closed;
            }
        }
    }

    /// Loses what is on its way, maybe except for a part of what was sent first.
    pub fn lose(&mut self, random: &mut Random, keeps_part: bool) {
        self.to_caller.lose(random, keeps_part);
        self.to_callee.lose(random, keeps_part);
    }

    /// Until this moment nothing comes, no connection is made, or what is sent is slow.
    pub fn hinder(&mut self, fault: Fault, until: u64) {
        let moment = match fault {
            Fault::Freeze => &mut self.frozen_until,
            Fault::Refuse => &mut self.refused_until,
            _ => &mut self.slow_until,
        };
        *moment = (*moment).max(until);
    }

    /// Nothing is frozen, refused or slow any more.
    pub fn calm(&mut self) {
        self.frozen_until = 0;
        self.refused_until = 0;
        self.slow_until = 0;
    }

    /// Gives how many octets are taken from this end at most.
    pub fn room(&self, from: End) -> usize {
        let (is_up, on_way, swallowed) = match from {
            End::Caller => (
                matches!(self.way, Way::Open),
                self.to_callee.count,
                self.swallowed[0],
            ),
            End::Callee => (
                matches!(self.way, Way::Open | Way::Answering(_)),
                self.to_caller.count,
                self.swallowed[1],
            ),
        };
        let taken = if is_up { on_way } else { swallowed };
        self.window.saturating_sub(taken)
    }

    /// Takes these octets from an end. On a connection that broke they are lost.
    pub fn send(
        &mut self,
        alloc: Global,
        random: &mut Random,
        from: End,
        octets: &[u8],
        now: u64,
    ) -> Result<(), AllocError> {
        let count = octets.len();
        let span = if now < self.slow_until {
            SLOWNESS
        } else {
            LATENCY
        };
        let at = now.saturating_add(random.within(1, span));
        self.sent = self.sent.saturating_add(count as u64);
        match (from, self.way) {
            (End::Caller, Way::Open) => self.to_callee.send(alloc, octets, at),
            (End::Callee, Way::Open | Way::Answering(_)) => {
                self.to_caller.send(alloc, octets, at)
            }
            (End::Caller, _) => {
                self.swallowed[0] = self.swallowed[0].saturating_add(count);
                Ok(())
            }
            (End::Callee, _) => {
                self.swallowed[1] = self.swallowed[1].saturating_add(count);
                Ok(())
            }
        }
    }
}
