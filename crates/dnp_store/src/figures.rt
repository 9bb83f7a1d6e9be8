//! What a queue's database keeps of a lane beside its rows.

/// A lane's capacity and counts.
#[derive(Clone, Copy)]
pub(crate) struct Figures {
    /// How many rows the lane takes.
    pub(crate) capacity: u32,
    /// How many rows it has dropped.
    pub(crate) lost: u64,
    /// Whether it raised the overflow.
    pub(crate) raised: bool,
}
