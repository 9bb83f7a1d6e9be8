//! How long anything may take.

ghost use Rattle.std.specs.Prelude.{◌≡◌};
ghost use Rattle.dnp_nodes.specs.Budgets as spec;

/// Whether there is such a moment, and it has come.
pub(crate) fn has_come(moment: Option<u64>, now: u64) -> bool
    ensures { result ≡ spec.has_come moment now }
{
    match moment {
        Some(moment) => moment <= now,
        None => false,
    }
}

/// This moment, or the last one of all if there is none.
pub(crate) fn or_last(moment: Option<u64>) -> u64
    ensures { result ≡ spec.or_last moment }
{
    match moment {
        Some(moment) => moment,
        None => u64::MAX,
    }
}

/// The moment by which octets have to be taken that have waited since then, if some wait.
pub(crate) fn stuck_at(waits: Option<u64>, ms: u64) -> Option<u64>
    ensures { result ≡ spec.stuck_at waits ms }
{
    match waits {
        Some(since) => Some(since.saturating_add(ms)),
        None => None,
    }
}

/// Since when octets wait, if any do: if some waited before, since then.
pub(crate) fn waits_from(before: Option<u64>, is_empty: bool, now: u64) -> Option<u64>
    ensures { result ≡ spec.waits_from before is_empty now }
{
    if is_empty {
        return None;
    }
    match before {
        Some(since) => Some(since),
        None => Some(now),
    }
}
