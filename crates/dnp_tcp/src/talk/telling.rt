//! What a step brought, as what looks on is told of it.

use crate::talk::Talk;
use crate::watcher::Watcher;
use dnp_streams::{Heard, StationFault, Told};
use std::rt::Clock;

impl<'t, C: Clock> Talk<'t, C> {
    /// Takes what a step told, or that it was refused. Whether the station has closed the connection.
    pub(super) fn tell<W: Watcher>(
        &mut self,
        told: Result<Told, StationFault>,
        watcher: &mut W,
    ) -> bool {
        match told {
            Ok(told) => {
                let rows = u64::try_from(told.rows).unwrap_or(u64::MAX);
                self.rows = self.rows.saturating_add(rows);
                told.closed
            }
            Err(fault) => {
                watcher.refused(fault);
                false
            }
        }
    }

    /// Takes what a frame brought, which completed these octets, if it completed a fragment. Whether the station has closed the
    /// connection.
    pub(super) fn tell_heard<W: Watcher>(
        &mut self,
        heard: Heard,
        octets: &[u8],
        watcher: &mut W,
    ) -> bool {
        let Heard::Whole(told) = heard else {
            return false;
        };
        match &told {
            Ok(told) => {
                watcher.answered(octets);
                if let Some(outcome) = &told.outcome {
                    watcher.came_out(outcome);
                }
            }
            Err(StationFault::Message) => watcher.not_taken(octets),
            Err(StationFault::Cause(_)) => {}
        }
        self.tell(told, watcher)
    }

    /// Takes what time that passed brought. Whether the station has closed the connection.
    pub(super) fn tell_ticked<W: Watcher>(
        &mut self,
        told: Result<Told, StationFault>,
        watcher: &mut W,
    ) -> bool {
        if let Ok(told) = &told {
            watcher.ticked(told.closed);
        }
        self.tell(told, watcher)
    }
}
