//! When a person is told that a response is awaited.

ghost use Rattle.std.specs.Prelude.{◌≡◌};
ghost use Rattle.dnp_poll.specs.Waiting as spec;

/// For so long a response is awaited before that is said, in milliseconds.
pub const SILENCE_MS: u64 = 1_000;

/// A response that is awaited.
#[derive(Clone, Copy, Debug, PartialEq, Eq)]
pub struct Waiting {
    /// For how long it is awaited, in milliseconds.
    pub ms: u64,
    /// For how long it is awaited still, in milliseconds.
    pub left_ms: u64,
}

/// Which wait was said last.
#[derive(Clone, Copy, Debug, PartialEq, Eq)]
pub struct Patience {
    /// The moment at which that wait ends, in milliseconds.
    pub told: Option<u64>,
}

impl Patience {
    /// No wait was said.
    pub const NEW: Patience = Patience { told: None };

    /// Whether the wait that ends at this moment was said last.
    fn has_told(self, ends: u64) -> bool
        ensures { result ≡ spec.has_told self ends }
    {
        match self.told {
            Some(told) => told == ends,
            None => false,
        }
    }

    /// What is said at the moment `now` of a response that is awaited until `ends`, and for `wait_ms` in all, each in milliseconds:
    /// something where nothing of it has come for [`SILENCE_MS`], some time is left, and that wait was not said before.
    pub fn at(self, now: u64, ends: u64, wait_ms: u64) -> Option<Waiting>
        ensures { result ≡ spec.waiting_at self now ends wait_ms }
    {
        let ms = now.saturating_sub(ends.saturating_sub(wait_ms));
        if ms < SILENCE_MS || ends <= now || self.has_told(ends) {
            return None;
        }
        Some(Waiting {
            ms,
            left_ms: ends - now,
        })
    }

    /// The wait that ends at this moment was said.
    pub fn said(ends: u64) -> Patience
        ensures { result ≡ spec.said ends }
    {
        Patience { told: Some(ends) }
    }
}
