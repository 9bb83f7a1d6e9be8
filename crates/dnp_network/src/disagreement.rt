//! Where a plan and the file of its network don't fit: an outstation sends unsolicited responses by the one, and its master enables
//! them by the other, or only one of the two does.

use crate::polling::Polling;
use crate::polling_values::{ClassSet, NEVER_MS};

/// What a plan and a network say of the unsolicited responses of a link, where the two don't fit.
#[derive(Clone, Copy, Debug, PartialEq, Eq)]
pub enum Disagreement {
    /// The outstation sends none by the plan, and its master enables these classes.
    Unsent(ClassSet),
    /// The outstation sends them by the plan, and its master enables no class.
    Unasked,
}

impl Polling {
    ghost use Rattle.std.specs.Prelude.{◌≡◌};
    ghost use Rattle.dnp_network.specs.Disagreements.{disagreement, event_period};

    /// What doesn't fit on a link that is polled so, if its outstation sends unsolicited responses by the plan or doesn't.
    pub fn disagreement(&self, sends: bool) -> Option<Disagreement>
        ensures { result ≡ disagreement sends self.now.unsolicited }
    {
        let enables = !self.unsolicited.is_without_events();
        match (sends, enables) {
            (false, true) => Some(Disagreement::Unsent(self.unsolicited)),
            (true, false) => Some(Disagreement::Unasked),
            _ => None,
        }
    }

    /// How often events are polled, in milliseconds, if they are polled by a period.
    pub fn event_period(&self) -> Option<u64>
        ensures { result ≡ event_period self.now.events_ms }
    {
        if self.events_ms == NEVER_MS {
            None
        } else {
            Some(self.events_ms)
        }
    }
}
