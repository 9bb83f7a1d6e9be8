//! What the machine's clock shows.

ghost use Rattle.std.specs.Prelude.{◌≤◌};

use std::rt::Clock;

/// Gives the moment that the clock shows, in milliseconds, or the one before, if it fails or goes back.
pub fn moment<C: Clock>(clock: &C, before: u64) -> u64
    ensures { before ≤ result }
{
    match clock.monotonic() {
        Ok(time) => before.max(u64::try_from(time.as_millis()).unwrap_or(u64::MAX)),
        Err(_) => before,
    }
}
