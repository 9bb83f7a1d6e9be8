//! Why a list of events, a round or a control is not done to its end, in a sentence each: the texts of this crate's lines, all of
//! them.

use crate::round_fault::{ControlFault, RoundFault};
use crate::stopped::Stopped;
use dnp_concentrator::Cause;
use std::error::Error;
use std::fmt;
use std::fmt::{Display, Formatter, Write};

/// Writes at what a list of events stops.
fn write_cause<W: Write>(f: &mut Formatter<W>, cause: Cause) -> fmt::Result {
    write!(f, "stopped at an event: {cause}")
}

impl Error for Stopped {}

impl Display for Stopped {
    fn fmt<W: Write>(&self, f: &mut Formatter<W>) -> fmt::Result {
        write_cause(f, self.cause)
    }
}

impl Error for RoundFault {}

impl Display for RoundFault {
    fn fmt<W: Write>(&self, f: &mut Formatter<W>) -> fmt::Result {
        match *self {
            RoundFault::NotQuiet => f.write_str("the link isn't quiet"),
            RoundFault::Fault(cause) => write_cause(f, cause),
        }
    }
}

impl Error for ControlFault {}

impl Display for ControlFault {
    fn fmt<W: Write>(&self, f: &mut Formatter<W>) -> fmt::Result {
        match *self {
            ControlFault::NotQuiet => f.write_str("a link isn't quiet"),
            ControlFault::NotNext => f.write_str("the control isn't next"),
            ControlFault::Refused(_) => f.write_str("a station refused the control"),
            ControlFault::Fault(cause) => write_cause(f, cause),
        }
    }
}
