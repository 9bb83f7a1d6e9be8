//! The numbers that the standard or this library sets, each of which stands here alone. Other crates
//! and all definitions cite them by these names.

/// The most octets that an application fragment has (IEEE Std 1815-2012, application layer: fragment
/// size).
pub const MAX_FRAGMENT: usize = 2048;

/// Times are below this, in milliseconds since 1970-01-01 00:00 UTC: an absolute time has 6 octets (IEEE
/// Std 1815-2012, object library: DNP3TIME).
pub const MAX_TIME: u64 = 1 << 48;

/// The most milliseconds that a time stands after its common time: a relative time has 2 octets (IEEE Std
/// 1815-2012, object library: group 2 variation 3).
pub const MAX_RELATIVE: u64 = 0xFFFF;

/// The kinds of points that have events: binary inputs, counters, analog inputs (IEEE Std 1815-2012,
/// object library: groups 2, 22 and 32).
pub const KINDS: usize = 3;

/// The classes that events are of, numbered from 1 (IEEE Std 1815-2012, application layer: event
/// classes).
pub const CLASSES: u8 = 3;

/// The lanes of events, one for each class and kind.
pub const LANES: usize = KINDS * CLASSES as usize;

/// The highest number that a store gives to a row or a command, and the most that it counts. It is no
/// limit of the standard: it leaves sums of two of them below 2^64.
pub const MAX_ID: u64 = 1 << 62;
