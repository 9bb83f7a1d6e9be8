//! Why tasks that a station asks on a connection came to no end.

use dnp_streams::ServeFault;
use std::io;

/// Why tasks on a connection came to no end.
#[derive(Drop)]
pub(crate) enum Gone {
    /// It could not be read.
    Unread(io::Error),
    /// It could not be written, or took nothing.
    Unwritten(Option<io::Error>),
    /// Octets came without an end.
    Endless,
    /// Out of memory for the frames that came.
    Memory,
}

impl Gone {
    /// The fault of a stream that says the same.
    pub(crate) fn fault(&self) -> ServeFault {
        match self {
            Gone::Unread(_) => ServeFault::ReadFailed,
            Gone::Unwritten(_) => ServeFault::WriteFailed,
            Gone::Endless => ServeFault::TurnsSpent,
            Gone::Memory => ServeFault::Memory,
        }
    }

    /// Why a call failed, if one did.
    pub(crate) fn cause(&self) -> Option<&io::Error> {
        match self {
            Gone::Unread(cause) => Some(cause),
            Gone::Unwritten(cause) => cause.as_ref(),
            Gone::Endless | Gone::Memory => None,
        }
    }
}
