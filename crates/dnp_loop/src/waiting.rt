//! How long the loop waits for the system's next report.

ghost use Rattle.std.specs.Prelude.{◌≡◌, ◌<◌, ◌≤◌, ◌+◌, true, false};
ghost use Rattle.dnp_loop.specs.Waiting as spec;

/// How long it waits at least if nothing is to be done, in milliseconds: a node that wants to be called again at once waits so long.
pub const LEAST_MS: u64 = 1;

/// How long it waits at most, in milliseconds.
pub const MOST_MS: u64 = 3_600_000;

/// Says how long the loop waits at the moment `now`, in milliseconds, if the next moment of the node or of a door is `next`, and
/// something is to be done at once or isn't. No moment is slept through.
pub fn wait_ms(now: u64, next: u64, is_busy: bool) -> u64
    ensures exact { result ≡ spec.wait_ms now next is_busy }
    ensures not_over { now < next → now + result ≤ next }
    ensures busy { is_busy ≡ true → result ≡ 0 }
    ensures idle { is_busy ≡ false → 0 < result }
{
    if is_busy {
        return 0;
    }
    next.saturating_sub(now).max(LEAST_MS).min(MOST_MS)
}
