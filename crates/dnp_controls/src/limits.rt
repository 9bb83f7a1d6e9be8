//! The numbers that outputs, selects and books set, each of which stands here alone.

/// The most commands of one request.
pub const MAX_COMMANDS: usize = 8;

/// The most binary outputs, and the most setpoints, that are kept in memory.
pub const MAX_OUTPUTS: u16 = 256;

/// The stations that a command in a book may be for, numbered from 0.
pub const TARGETS: u8 = 16;

/// Sequence numbers follow one another modulo this (IEEE Std 1815-2012, application layer: application
/// control octet).
pub const SEQUENCE_NUMBERS: u8 = 16;
