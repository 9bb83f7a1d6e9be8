//! Rows by their ids.

use dnp_objects::{LANES, Row};

/// A row of a lane and its id.
///
/// Ids rise in the order of appending, from 1 on, in one series over the nine lanes. None is given
/// twice.
#[derive(Clone, Copy, Debug, PartialEq, Eq, Hash)]
pub struct Numbered {
    /// From 1 on, at most `MAX_ID`.
    pub id: u64,
    /// The row itself.
    pub row: Row,
}

/// An id for each lane, by the lanes' numbers: the rows up to it are meant, and 0 means none.
pub type Upto = [u64; LANES];
