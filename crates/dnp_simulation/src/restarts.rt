//! How a process and its stores begin again.

use crate::disk::Order;
use crate::faults::Fault;
use crate::random::Random;
use dnp_objects::LANES;

/// How many calls a file passes at most before its disk fails.
const MOST_CALLS: u64 = 400;

/// How the files of a store are found as a process begins again, and how its disk fails then. What was not synced is lost as the
/// disk fails; if it does not, it was lost as the process ended before.
#[derive(Clone, Copy)]
pub struct Restart {
    /// Whether what was not synced of the log is lost.
    pub loses_log: bool,
    /// Whether what was not synced of the database file is lost.
    pub loses_db: bool,
    /// When the disk fails.
    pub order: Order,
    /// What the numbers in the log are made of.
    pub seed: u64,
}

impl Restart {
    /// Makes that of a process whose disk keeps all that was written, and does not fail.
    pub fn whole(seed: u64) -> Restart {
        Restart {
            loses_log: false,
            loses_db: false,
            order: Order::NONE,
            seed,
        }
    }

    /// Gives how the files are left by the process that ended before.
    pub fn first(self) -> Restart {
        if self.order.fails() {
            Restart::whole(self.seed)
        } else {
            self
        }
    }

    /// Gives the same over a disk that fails by this order.
    pub fn over(self, order: Order) -> Restart {
        Restart { order, ..self }
    }
}

/// How a store began again, the worst last.
#[derive(Clone, Copy)]
pub enum Beginning {
    /// It opened.
    Opened,
    /// Its disk failed before it was open, and then it opened over one that does not fail.
    Failed,
    /// It did not open over a disk that does not fail, and a new one stands in its place.
    Spoilt,
}

impl Beginning {
    /// Gives the worse of two.
    pub fn or(self, other: Beginning) -> Beginning {
        match (self, other) {
            (Beginning::Spoilt, _) | (_, Beginning::Spoilt) => Beginning::Spoilt,
            (Beginning::Failed, _) | (_, Beginning::Failed) => Beginning::Failed,
            (Beginning::Opened, Beginning::Opened) => Beginning::Opened,
        }
    }
}

/// How the two stores of a process begin again.
#[derive(Clone, Copy)]
pub struct Restarts {
    /// That of events: the queue or the journal.
    pub events: Restart,
    /// The book of controls.
    pub book: Restart,
    /// How the disk is going to fail, if it is.
    pub fails: Option<Fault>,
}

/// Draws when a disk fails.
fn drawn_order(random: &mut Random, fault: Fault) -> Order {
    Order {
        calls: random.below(MOST_CALLS),
        counts_reads: random.one_in(4),
        is_full: matches!(fault, Fault::Full),
    }
}

/// Draws what a store's files lose.
fn drawn_loss(random: &mut Random, seed: u64) -> Restart {
    Restart {
        loses_log: random.one_in(2),
        loses_db: random.one_in(2),
        order: Order::NONE,
        seed,
    }
}

impl Restarts {
    /// Gives those of a process whose disk has failed so, if it has. If it has stopped, what was not synced may be lost, and else all
    /// that was written is there.
    pub fn after(random: &mut Random, fault: Option<Fault>, seed: u64) -> Restarts {
        let mut restarts = Restarts {
            events: Restart::whole(seed),
            book: Restart::whole(seed),
            fails: None,
        };
        if matches!(fault, Some(Fault::Stop)) {
            restarts.events = drawn_loss(random, seed);
            restarts.book = drawn_loss(random, seed);
        }
        restarts
    }

    /// Gives those of a process that was killed, and whose disk is going to fail.
    pub fn failing(random: &mut Random, fault: Fault, seed: u64) -> Restarts {
        let left = Restarts::after(random, Some(fault), seed);
        Restarts {
            events: left.events.over(drawn_order(random, fault)),
            book: left.book.over(drawn_order(random, fault)),
            fails: Some(fault),
        }
    }
}

/// When a process begins.
#[derive(Clone, Copy)]
pub struct Start {
    /// The moment, in milliseconds.
    pub at: u64,
    /// What its wall clock shows at the moment 0.
    pub clock: u64,
}

/// How a process begins again.
#[derive(Clone, Copy)]
pub struct Return {
    /// When.
    pub start: Start,
    /// How its stores do.
    pub restarts: Restarts,
    /// Whether a substation loses its events.
    pub is_lost: bool,
}

/// How a process began again.
#[derive(Clone, Copy)]
pub struct Again {
    /// How its stores did.
    pub how: Beginning,
    /// How many events of each lane a substation has lost.
    pub lost: [u64; LANES],
}

impl Again {
    /// Its stores opened, and nothing was lost.
    pub const WHOLE: Again = Again {
        how: Beginning::Opened,
        lost: [0; LANES],
    };
}
