//! What became of every event and every command of a whole system.

use dnp_concentrator::Listed;
use dnp_objects::{Command, Row};

/// What became of the events of substations, and of the commands to them. Each event and each command stands beside its
/// substation's number, with the index of the substation.
///
/// The events of `buffered` are in order of substation, then lane, then number in the lanes; those of `queue` are in
/// order of their number there. The other lists are in the order in which it happened. Of two lists, or numbers, the first is
/// for the first centre.
#[derive(Debug, Drop)]
pub struct Report {
    /// The events in the journal of each centre.
    pub journal: (Listed<(u8, Row)>, Listed<(u8, Row)>),
    /// The events in the concentrator's queue for each centre.
    pub queue: (Listed<(u8, Row)>, Listed<(u8, Row)>),
    /// The events that full lanes of the queue for each centre dropped.
    pub dropped: (Listed<(u8, Row)>, Listed<(u8, Row)>),
    /// The events that confirms released from substations.
    pub confirmed: Listed<(u8, Row)>,
    /// The events in the lanes of substations.
    pub buffered: Listed<(u8, Row)>,
    /// The events that full lanes of substations dropped.
    pub overwritten: Listed<(u8, Row)>,
    /// The events that restarts of substations emptied from their lanes.
    pub gone: Listed<(u8, Row)>,
    /// The commands that were issued at either centre.
    pub issued: Listed<(u8, Command)>,
    /// The commands that outputs of substations performed.
    pub operated: Listed<(u8, Command)>,
    /// How many events the lanes of the queue for each centre count as lost.
    pub lost: (u64, u64),
}
