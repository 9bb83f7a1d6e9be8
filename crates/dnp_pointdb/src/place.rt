//! Where a point stands.

/// Where a point of a kind stands, so that it is looked up but once (`PointDb::check`).
#[derive(Clone, Copy, Debug)]
pub struct PointPlace {
    /// The number of the block that has it, from 0.
    pub block: usize,
    /// Its place in the block, from 0.
    pub place: usize,
}
