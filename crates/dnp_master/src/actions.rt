//! What a master does, and what it tells.

use crate::outcome::Outcome;
use dnp_eventbuf::Rows;

/// What a fragment that came makes a master do.
#[derive(Debug, Drop)]
pub struct MasterActions {
    /// The confirm, to be sent: two octets.
    pub send: Option<[u8; 2]>,
    /// How many events the sink took.
    pub taken: usize,
    /// The rows that the sink dropped for them.
    pub dropped: Rows,
    /// The outcome of the task, after the last fragment of its response.
    pub outcome: Option<Outcome>,
    /// Whether the outstation indicates that its device has started again.
    pub restart: bool,
}

/// What a response makes of a master whose caller has given the rows on.
#[derive(Clone, Copy, Debug, PartialEq, Eq)]
pub struct Followed {
    /// The confirm, to be sent: two octets.
    pub send: Option<[u8; 2]>,
    /// The outcome of the task, after the last fragment of its response.
    pub outcome: Option<Outcome>,
}

impl Followed {
    /// Nothing is sent, and no task has come to its end.
    pub(crate) const NOTHING: Followed = Followed {
        send: None,
        outcome: None,
    };
}
