//! What may fail in a network, and how often.

ghost use Rattle.std.specs.Prelude.{◌≡◌, ◌<◌, ◌≤◌, IfSome};

use crate::decimal::read_decimal;

/// How many kinds of faults there are.
pub const FAULTS: usize = 9;

/// What may fail.
#[derive(Clone, Copy)]
pub enum Fault {
    /// A connection is cut: what is under way is lost.
    Cut,
    /// A connection is cut, and a part of what is under way still comes.
    Half,
    /// Nothing comes over a connection for a while, and then all of it.
    Freeze,
    /// No connection is made for a while.
    Refuse,
    /// A process is killed, and starts again over its stores.
    Kill,
    /// The wall clock of a process steps.
    Clock,
    /// What is sent over a connection comes late for a while.
    Delay,
    /// The disk of a process stops.
    Stop,
    /// The disk of a process is full.
    Full,
}

impl Fault {
    /// The faults, each at the place of its number.
    pub const ALL: [Fault; FAULTS] = [
        Fault::Cut,
        Fault::Half,
        Fault::Freeze,
        Fault::Refuse,
        Fault::Kill,
        Fault::Clock,
        Fault::Delay,
        Fault::Stop,
        Fault::Full,
    ];

    /// Gives its number, below `FAULTS`.
    pub fn number(self) -> usize
        ensures { result < FAULTS }
    {
        match self {
            Fault::Cut => 0,
            Fault::Half => 1,
            Fault::Freeze => 2,
            Fault::Refuse => 3,
            Fault::Kill => 4,
            Fault::Clock => 5,
            Fault::Delay => 6,
            Fault::Stop => 7,
            Fault::Full => 8,
        }
    }

    /// Gives its word.
    pub fn word(self) -> &'static str {
        match self {
            Fault::Cut => "cut",
            Fault::Half => "half",
            Fault::Freeze => "freeze",
            Fault::Refuse => "refuse",
            Fault::Kill => "kill",
            Fault::Clock => "clock",
            Fault::Delay => "delay",
            Fault::Stop => "stop",
            Fault::Full => "full",
        }
    }
}

/// How often each of the faults comes at each place, in thousandths an hour, by its number.
#[derive(Clone, Copy)]
pub struct FaultRates {
    /// In thousandths an hour, by the fault's number.
    pub thousandths: [u32; FAULTS],
}

/// Milliseconds of an hour, in thousandths.
const HOUR: u64 = 3_600_000_000;

impl FaultRates {
    /// Once an hour each.
    pub const ONCE: FaultRates = FaultRates {
        thousandths: [1_000; FAULTS],
    };

    /// Gives how many milliseconds pass between two faults of a kind, on the whole, if it may happen at so many places;
    /// `None` if it doesn't happen.
    pub fn mean_ms(&self, fault: Fault, places: usize) -> Option<u64>
        ensures { IfSome result (λ mean. 1 ≤ mean) }
    {
        let rate = match self.thousandths.get(fault.number()) {
            Some(rate) => u64::from(*rate),
            None => 0,
        };
        let rate = rate.saturating_mul(places as u64);
        if rate == 0 {
            None
        } else {
            Some((HOUR / rate).max(1))
        }
    }
}

/// The highest rate, in thousandths an hour.
pub const MAX_RATE: u64 = 1_000_000;

/// Gives the fault of a word.
fn fault_named(word: &str) -> Option<Fault> {
    for fault in Fault::ALL {
        if fault.word() == word {
            return Some(fault);
        }
    }
    None
}

/// Reads the rate of a kind of faults, in thousandths an hour.
fn read_rate(part: &str) -> Option<(Fault, u32)> {
    let (word, rate) = match part.split_once('=') {
        Some((word, rate)) => (word, read_decimal(rate, 3)?),
        None => (part, 1_000),
    };
    let fault = fault_named(word)?;
    if rate > MAX_RATE {
        return None;
    }
    Some((fault, u32::try_from(rate).unwrap_or(0)))
}

/// Says whether a text as that of `read_faults` names a fault of disks.
pub fn names_disks(text: &str) -> bool {
    for part in text.split(',') {
        let word = match part.split_once('=') {
            Some((word, _)) => word,
            None => part,
        };
        if matches!(fault_named(word), Some(Fault::Stop | Fault::Full)) {
            return true;
        }
    }
    false
}

/// Reads the rates of faults: `KIND=RATE` or `KIND`, with commas between them. A rate is a decimal number an hour with at most 3
/// digits behind its point, at most 1,000. A kind that isn't there comes once an hour. `None` for any other text.
pub fn read_faults(text: &str) -> Option<FaultRates> {
    let mut rates = FaultRates::ONCE;
    for part in text.split(',') {
        let (fault, rate) = read_rate(part)?;
        rates.thousandths[fault.number()] = rate;
    }
    Some(rates)
}
