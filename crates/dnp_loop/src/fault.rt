//! What the system said where a call failed.

use std::io::{self, ErrorKind};

/// The error of the system's that no descriptor is left to this process.
const EMFILE: i32 = 24;

/// The error of the system's that no descriptor is left at all.
const ENFILE: i32 = 23;

/// What the system said where a call failed. It is copied, which its error is not.
#[derive(Clone, Copy, Debug, PartialEq, Eq)]
pub struct Fault {
    /// Its kind.
    pub kind: ErrorKind,
    /// The system's number, if it gave one.
    pub code: Option<i32>,
}

impl Fault {
    /// Takes what an error says.
    pub fn of(cause: &io::Error) -> Fault {
        Fault {
            kind: cause.kind(),
            code: cause.raw_os_error(),
        }
    }

    /// Gives the error again, to be printed.
    pub fn error(&self) -> io::Error {
        match self.code {
            Some(code) => io::Error::from_raw_os_error(code),
            None => io::Error::from(self.kind),
        }
    }

    /// Says whether no descriptor is left.
    pub fn lacks_descriptors(&self) -> bool {
        matches!(self.code, Some(EMFILE | ENFILE))
    }
}
