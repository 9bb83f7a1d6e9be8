//! The numbers that plans are held to, each of which stands here alone.

/// The most substations of a plan, numbered from 0.
pub const MAX_SUBSTATIONS: usize = 16;

/// The kinds of indices that are mapped: of binary inputs, counters, analog inputs, binary outputs and
/// setpoints.
pub const INDEX_KINDS: usize = 5;

/// How many commands a request to a concentrator may have.
pub const COMMANDS_AT_ONCE: usize = 1;

/// The longest that a timer runs, in milliseconds: an hour.
pub const MAX_TIMER_MS: u64 = 3_600_000;

/// The most times that an unsolicited response is repeated on a connection.
pub const MAX_RETRIES: u8 = 3;
