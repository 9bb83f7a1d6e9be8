//! Why a plan or a reading is refused.

use thiserror::Error;

/// Why blocks of points are no plan, in the order in which the causes are looked for. Each cause is
/// looked for in all the blocks of all kinds before the next one is.
#[derive(Clone, Copy, Debug, PartialEq, Eq, Hash, Error)]
pub enum PlanFault {
    /// A point's class is over 3, or a binary or a counter has a deadband other than 0.
    #[error("a class over 3, or a deadband of a binary or counter")]
    Class,
    /// A block has more than 1,024 points.
    #[error("more than 1,024 points in a block")]
    TooMany,
    /// A point's index is over 65,535.
    #[error("an index over 65,535")]
    TooWide,
    /// Two blocks of one kind have an index in common.
    #[error("two blocks of one kind share an index")]
    Overlap,
}

/// Why a reading of a point is refused, in the order in which the causes are looked for.
#[derive(Clone, Copy, Debug, PartialEq, Eq, Hash, Error)]
pub enum ChangeFault {
    /// The plan has no point of this kind and index.
    #[error("no such point")]
    NoPoint,
    /// No object of the kind can carry the value and the flags.
    #[error("a value or flags out of the kind's range")]
    ValueRange,
    /// The time is 2^48 ms or more.
    #[error("a time of 2^48 ms or more")]
    TimeRange,
}
