//! What the links of a node share.

ghost use Rattle.std.specs.Prelude.{◌≡◌, []};
ghost use Rattle.dnp_nodes.specs.Told.{missed_in, refused_in, told_in};

use crate::report::Reports;
use dnp_streams::StepRoom;
use std::alloc::Global;

/// What the links of a node share. It is lent to each call of a link.
#[derive(Drop)]
pub struct Shared {
    /// What memory is asked of.
    pub(crate) alloc: Global,
    /// Room for the steps of links.
    pub(crate) room: StepRoom,
    /// What is told.
    pub reports: Reports,
}

impl Shared {
    /// Nothing was told. Memory is asked of `alloc`.
    pub fn new(alloc: Global) -> Shared
        ensures told { told_in result.reports ≡ [] }
        ensures missed { missed_in result.reports ≡ 0 }
        ensures refused { refused_in result.reports ≡ [] }
    {
        Shared {
            alloc,
            room: StepRoom::new(alloc),
            reports: Reports::new(alloc),
        }
    }
}
