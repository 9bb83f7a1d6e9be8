//! The numbers that plans of points are held to, each of which stands here alone.

/// The most points of a block.
pub const MAX_POINTS: usize = 1_024;

/// How many indices the points of a kind may have, from 0 on (IEEE Std 1815-2012, object library: point
/// indices of up to 2 octets).
pub const INDICES: usize = 65_536;
