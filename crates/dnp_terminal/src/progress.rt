//! How far a long work is, and when that is shown.

ghost use Rattle.std.specs.Prelude.{◌≡◌, ◌≤◌, ◌+◌, ◌<◌, ◌^◌, Some, None};
ghost use Rattle.dnp_terminal.specs.Progresses.{percent};

/// A work that is done sooner is never shown, in milliseconds.
pub const QUIET_MS: u64 = 1_000;

/// What is shown stays so long at least, in milliseconds.
pub const STEP_MS: u64 = 200;

/// How far a long work is. It is shown after [`QUIET_MS`], and then once in [`STEP_MS`] at most.
#[derive(Clone, Copy, Debug, PartialEq, Eq)]
pub struct Progress {
    /// The moment from which on it is shown again, in milliseconds.
    pub next: u64,
}

/// The whole percents of a work of which so much is done.
pub fn percent_of(done: u64, all: u64) -> u8
    ensures value { result ≡ percent done all }
    ensures most { result ≤ 100 }
{
    if all == 0 {
        return 100;
    }
    (u128::from(done.min(all)) * 100 / u128::from(all)) as u8
}

impl Progress {
    /// A work that begins at this moment.
    pub fn beginning(now: u64) -> Progress
        ensures quiet { now + QUIET_MS < 2 ^ 64 → result.next ≡ now + QUIET_MS }
    {
        Progress {
            next: now.saturating_add(QUIET_MS),
        }
    }

    /// What is shown at this moment of a work of which so much is done: its percents, or nothing.
    pub fn shown(&mut self, now: u64, done: u64, all: u64) -> Option<u8>
        ensures early { now < self.old.next → (result ≡ None) × (self.new ≡ self.old) }
        ensures due { self.old.next ≤ now → result ≡ Some (percent done all) }
        ensures rests { self.old.next ≤ now → now + STEP_MS < 2 ^ 64 → self.new.next ≡ now + STEP_MS }
    {
        if now < self.next {
            return None;
        }
        self.next = now.saturating_add(STEP_MS);
        Some(percent_of(done, all))
    }
}
