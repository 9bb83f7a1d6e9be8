//! The timers of a station.

/// The timers and the retries of an outstation or a master (IEEE Std 1815-2012, application layer).
///
/// The type keeps none of the ranges below: what reads a plan does.
#[derive(Clone, Copy, Debug, PartialEq, Eq, Hash)]
pub struct Times {
    /// How long a confirm is awaited, 1 to 3,600,000 ms.
    pub confirm_ms: u64,
    /// How long a response is awaited, 1 to 3,600,000 ms.
    pub response_ms: u64,
    /// How long a select stands, 1 to 3,600,000 ms.
    pub select_ms: u64,
    /// How often an unsolicited response is repeated on a connection, 0 to 3.
    pub retries: u8,
    /// Whether the outstation sends unsolicited responses.
    pub unsolicited: bool,
}
