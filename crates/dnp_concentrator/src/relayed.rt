//! What a step of relaying did.

ghost use Rattle.std.specs.Prelude.{◌≡◌};
ghost use Rattle.dnp_concentrator.specs.Relayed.{with_request};

use dnp_master::Fragment;
use dnp_objects::Status;

/// What a step of relaying did.
#[derive(Debug, Drop)]
pub enum Relayed {
    /// Nothing: the link is closed or busy, or there is no control to go on with.
    Nothing,
    /// The control of this id is being selected: the SELECT, to be sent.
    Selecting(u64, Fragment),
    /// The control of this id was spent in the book: its OPERATE, to be sent.
    Sent(u64, Fragment),
    /// The control of this id was finished in the book, with this status.
    Finished(u64, Status),
}

/// What a step of relaying did whose request stands in a fragment of the caller.
#[derive(Clone, Copy, Debug)]
pub enum RelayedStep {
    /// Nothing: the link is closed or busy, or there is no control to go on with.
    Nothing,
    /// The control of this id is being selected: the SELECT stands in the fragment, to be sent.
    Selecting(u64),
    /// The control of this id was spent in the book: its OPERATE stands in the fragment, to be sent.
    Sent(u64),
    /// The control of this id was finished in the book, with this status.
    Finished(u64, Status),
}

impl RelayedStep {
    /// The same with the fragment in which the request stands.
    pub(crate) fn with_request(self, request: Fragment) -> Relayed
        ensures { result ≡ with_request self request }
    {
        match self {
            RelayedStep::Nothing => Relayed::Nothing,
            RelayedStep::Selecting(id) => Relayed::Selecting(id, request),
            RelayedStep::Sent(id) => Relayed::Sent(id, request),
            RelayedStep::Finished(id, status) => Relayed::Finished(id, status),
        }
    }
}
