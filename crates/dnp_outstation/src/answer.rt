//! What a fragment of a response says beside its headers.

use crate::offer::place::ReadPlace;

/// What a request may switch: whether a restart is still to be told of, and the classes 1 to 3 whose
/// unsolicited responses are enabled.
#[derive(Clone, Copy)]
pub(crate) struct Switches {
    pub restart: bool,
    pub enabled: [bool; 3],
}

/// What a fragment of a response says, or is sent with, beside what stands in its writer.
#[derive(Clone, Copy)]
pub(crate) struct Answer {
    /// The bits of the second octet of indications that tell of the request.
    pub bits: u8,
    /// What is switched as the fragment is sent.
    pub switches: Switches,
    /// The last id in the lanes as the request was first answered.
    pub stood: u64,
    /// Where the next fragment begins, if there is one.
    pub left: Option<ReadPlace>,
    /// The time that the request writes, in milliseconds since 1970-01-01 00:00 UTC.
    pub time: Option<u64>,
}
