//! A change of a point's reading, that is due at a moment.

use dnp_objects::Kind;
use dnp_pointdb::Reading;

/// A new reading of a point, and when it is due.
#[derive(Clone, Copy, Debug, PartialEq, Eq)]
pub struct Change {
    /// The moment at which it is due, in milliseconds, by the clock of the session in which it is made.
    pub at: u64,
    /// What the point measures.
    pub kind: Kind,
    /// The point's index.
    pub index: u16,
    /// The reading.
    pub reading: Reading,
}
