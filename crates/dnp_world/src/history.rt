//! What became of rows and commands, as far as no station keeps it.

ghost use Rattle.std.specs.Prelude.{◌≡◌, []};
ghost use Rattle.dnp_concentrator.specs.PerCentre.{for_each};
ghost use Rattle.dnp_world.specs.SystemParts.{history_of};

use crate::substation_list::SubstationList;
use dnp_concentrator::PerCentre;
use dnp_objects::{Command, Row};
use std::alloc::Global;

/// Rows and commands beside the substations that they are of, each list in the order in which it happened.
#[derive(Drop)]
pub(crate) struct History {
    /// The rows that confirms released.
    pub confirmed: SubstationList<Row>,
    /// The rows that full lanes of substations dropped.
    pub overwritten: SubstationList<Row>,
    /// The rows that restarts of substations emptied from their lanes.
    pub gone: SubstationList<Row>,
    /// The rows that full lanes of the queue for each centre dropped, as they stand above.
    pub dropped: PerCentre<Vec<Row>>,
    /// The commands that were issued, as they stand at their substations.
    pub issued: SubstationList<Command>,
    /// The commands that were performed.
    pub operated: SubstationList<Command>,
}

impl History {
    /// Nothing has happened.
    pub fn new(alloc: Global) -> History
        ensures { history_of result ≡ record { confirmed = []; overwritten = []; gone = []; dropped = for_each (λ centre. []); issued = []; operated = [] } }
    {
        History {
            confirmed: SubstationList::new(alloc),
            overwritten: SubstationList::new(alloc),
            gone: SubstationList::new(alloc),
            dropped: PerCentre {
                first: Vec::new(alloc),
                second: Vec::new(alloc),
            },
            issued: SubstationList::new(alloc),
            operated: SubstationList::new(alloc),
        }
    }
}
