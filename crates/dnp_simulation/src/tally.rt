//! What a simulation counts.

use crate::faults::FAULTS;
use dnp_nodes::Closing;
use dnp_schedule::TaskKind;

/// How many kinds of ends of a connection are counted apart.
pub const CLOSINGS: usize = 12;

/// How many kinds of requests are counted apart.
pub const TASKS: usize = 8;

/// What a simulation counts as it goes.
#[derive(Clone, Copy)]
pub struct Tally {
    /// How often something came to pass.
    pub steps: u64,
    /// How many changes found no room at their substation.
    pub held: u64,
    /// How many faults there were, by their numbers.
    pub faults: [u64; FAULTS],
    /// How many connections were made.
    pub connected: u64,
    /// How many ended, by their causes' numbers.
    pub closed: [u64; CLOSINGS],
    /// How many requests were sent, by their kinds' numbers.
    pub asked: [u64; TASKS],
    /// How many starts came to their end.
    pub started: u64,
    /// How many fragments were refused.
    pub refused: u64,
    /// How many controls were selected, operated and finished at substations, and how many of these with a status that isn't
    /// SUCCESS.
    pub selected: u64,
    /// Operated ones.
    pub operated: u64,
    /// Those of them that the concentrator operates at a substation.
    pub operated_below: u64,
    /// Finished ones.
    pub finished: u64,
    /// Finished ones with another status.
    pub unsuccessful: u64,
    /// How many steps found no memory.
    pub not_made: u64,
    /// How many processes ended since a store had failed.
    pub failed: u64,
}

impl Tally {
    /// Nothing was counted.
    pub const NOTHING: Tally = Tally {
        steps: 0,
        held: 0,
        faults: [0; FAULTS],
        connected: 0,
        closed: [0; CLOSINGS],
        asked: [0; TASKS],
        started: 0,
        refused: 0,
        selected: 0,
        operated: 0,
        operated_below: 0,
        finished: 0,
        unsuccessful: 0,
        not_made: 0,
        failed: 0,
    };
}

/// Adds one.
pub fn count(number: &mut u64) {
    *number = number.saturating_add(1);
}

/// Adds one to the number at a place.
pub fn count_at(numbers: &mut [u64], place: usize) {
    if let Some(number) = numbers.get_mut(place) {
        count(number);
    }
}

/// Gives the number of a cause, below `CLOSINGS`.
pub fn closing_number(cause: Closing) -> usize {
    match cause {
        Closing::Peer => 0,
        Closing::Unmade => 1,
        Closing::Late => 2,
        Closing::Endless => 3,
        Closing::Stuck => 4,
        Closing::Idle => 5,
        Closing::Station => 6,
        Closing::Unasked => 7,
        Closing::Finished => 8,
        Closing::Replaced => 9,
        Closing::Memory => 10,
        Closing::Store(_) => 11,
    }
}

/// Gives the words of causes, by their numbers.
pub const CLOSING_WORDS: [&str; CLOSINGS] = [
    "peer", "unmade", "late", "endless", "stuck", "idle", "station", "unasked", "finished",
    "replaced", "memory", "store",
];

/// Gives the number of a request's kind, below `TASKS`.
pub fn task_number(task: TaskKind) -> usize {
    match task {
        TaskKind::DisableUnsolicited => 0,
        TaskKind::IntegrityPoll => 1,
        TaskKind::ClearRestart => 2,
        TaskKind::WriteTime => 3,
        TaskKind::EnableUnsolicited => 4,
        TaskKind::EventPoll => 5,
        TaskKind::OtherPoll => 6,
        TaskKind::Control => 7,
    }
}
