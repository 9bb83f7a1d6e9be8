//! Places for connections, and why these end.

use dnp_concentrator::Cause;

/// A place of a node for one connection at a time.
#[derive(Clone, Copy, Debug, PartialEq, Eq)]
pub enum Slot {
    /// To the station below of this number.
    Below(u8),
    /// From the station above of this number.
    Above(u8),
}

/// Link addresses of the two ends of a link.
#[derive(Clone, Copy, Debug, PartialEq, Eq)]
pub struct Ends {
    /// The station's own.
    pub own: u16,
    /// That of the other end.
    pub peer: u16,
}

/// Why a connection ends.
#[derive(Clone, Copy, Debug, PartialEq, Eq)]
pub enum Closing {
    /// The other end has closed it, or it broke.
    Peer,
    /// It did not come about.
    Unmade,
    /// A fragment of a response did not come in time.
    Late,
    /// A response did not come to its end in time.
    Endless,
    /// Octets that are to be sent were not taken in time.
    Stuck,
    /// No fragment came whole in time.
    Idle,
    /// The station has closed it.
    Station,
    /// The station did not ask what it was told to ask.
    Unasked,
    /// The control in progress was finished by someone else. Only an opening forgets it.
    Finished,
    /// Another connection takes its place.
    Replaced,
    /// Out of memory for the frames that came.
    Memory,
    /// A store of the station has failed.
    Store(Cause),
}

/// What a node wants of a place.
#[derive(Clone, Copy, Debug, PartialEq, Eq)]
pub enum Want {
    /// A connection.
    Connect,
    /// The connection is to be closed.
    Close(Closing),
}

/// What a node wants, and where.
#[derive(Clone, Copy, Debug, PartialEq, Eq)]
pub struct Wanted {
    /// Where.
    pub slot: Slot,
    /// What.
    pub want: Want,
}
