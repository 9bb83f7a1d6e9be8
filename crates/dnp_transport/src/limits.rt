//! The numbers of the transport function, each in one place: definitions and clauses cite them by these names.

/// The most octets of a fragment (IEEE Std 1815-2012, application layer).
pub const MAX_FRAGMENT: usize = 2048;

/// The most octets of a segment: the most user data of a link frame (IEEE Std 1815-2012, data link layer).
pub const MAX_SEGMENT: usize = 250;

/// The most octets of a fragment in one segment, after its header octet (IEEE Std 1815-2012, transport function).
pub const SEGMENT_DATA: usize = MAX_SEGMENT - 1;

/// How many numbers segments have: they go round from 0 on (IEEE Std 1815-2012, transport function).
pub const SEGMENT_NUMBERS: u8 = 64;
