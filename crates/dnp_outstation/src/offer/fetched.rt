//! Rows of lanes that are fetched for a fragment.

use dnp_eventbuf::Numbered;
use std::alloc::Global;

/// Where the rows of a lane are fetched, kept from one lane and one fragment to the next: so memory is asked for only
/// where more come than ever before. What it holds between two calls means nothing.
#[derive(Debug, Drop)]
pub struct Fetched {
    /// None before the first.
    rows: Option<Vec<Numbered>>,
}

impl Fetched {
    /// Without memory yet.
    pub(crate) fn new() -> Fetched {
        Fetched { rows: None }
    }

    /// The rows, to be fetched into, in place of what stands there.
    pub(crate) fn rows(&mut self, alloc: Global) -> &mut Vec<Numbered> {
        self.rows.get_or_insert_with(|| Vec::new(alloc))
    }
}
