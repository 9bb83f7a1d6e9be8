//! When the next timer of an outstation ends.
ghost use Rattle.std.specs.Prelude.{◌≡◌};
ghost use Rattle.dnp_outstation.specs.Timers.{earlier, next_deadline};

use crate::outstation_core::OutstationCore;

/// The earlier of two moments, of those that are there.
fn earlier(one: Option<u64>, other: Option<u64>) -> Option<u64>
    ensures { result ≡ earlier one other }
{
    match (one, other) {
        (Some(one), Some(other)) => Some(one.min(other)),
        (Some(one), None) => Some(one),
        (None, other) => other,
    }
}

impl OutstationCore {
    /// The moment, in milliseconds, at which the next timer ends: that of an awaited confirm (IEEE Std 1815-2012,
    /// application layer). None while no timer runs.
    pub fn next_deadline(&self) -> Option<u64>
        ensures { result ≡ next_deadline self.now }
    {
        if !self.is_open {
            return None;
        }
        let response = match &self.session.awaited {
            Some(awaited) => Some(awaited.ends),
            None => None,
        };
        let unsolicited = match &self.session.unsolicited {
            Some(unsolicited) => Some(unsolicited.ends),
            None => None,
        };
        earlier(response, unsolicited)
    }
}
