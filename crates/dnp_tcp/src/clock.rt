//! What the machine's clocks show, in milliseconds.

ghost use Rattle.std.specs.Prelude.{◌≡◌, ◌≤◌, ◌-◌, ◌/◌, ◌^◌, min};
ghost use Rattle.std.specs.Duration.{as_nanos};

use std::rt::Clock;
use std::time::Duration;

/// The whole milliseconds of a time, `u64::MAX` at most.
fn milliseconds(time: Duration) -> u64
    ensures { result ≡ min (as_nanos time / 1_000_000) (2 ^ 64 - 1) }
{
    u64::try_from(time.as_millis()).unwrap_or(u64::MAX)
}

/// The moment that the clock shows, in milliseconds, or the one before, where it fails or goes back.
pub fn moment<C: Clock>(clock: &C, before: u64) -> u64
    ensures { before ≤ result }
{
    match clock.monotonic() {
        Ok(time) => before.max(milliseconds(time)),
        Err(_) => before,
    }
}

/// The time of the machine, in milliseconds since 1970-01-01 00:00 UTC; 0 where it has none. It has no clause: a clock promises
/// nothing.
pub fn utc<C: Clock>(clock: &C) -> u64 {
    match clock.since_1970() {
        Ok(time) => milliseconds(time),
        Err(_) => 0,
    }
}
