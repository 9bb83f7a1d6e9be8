//! Why octets are no fragment, and why a fragment takes no more, in a sentence each: the texts of this crate's lines, all of them.

use crate::builder::Full;
use crate::fault::AppFault;
use std::error::Error;
use std::fmt;
use std::fmt::{Display, Formatter, Write};

impl Error for AppFault {}

impl Display for AppFault {
    fn fmt<W: Write>(&self, f: &mut Formatter<W>) -> fmt::Result {
        f.write_str(match self {
            AppFault::Short => "too few octets for a fragment",
            AppFault::FunctionUnknown => "unknown function",
            AppFault::HeaderCut => "an object header that is cut",
            AppFault::QualifierUnknown => "unknown qualifier",
            AppFault::ObjectUnknown => "unknown object",
            AppFault::RangeBackward => "a range whose stop is under its start",
            AppFault::ObjectsCut => "objects that are cut",
            AppFault::CommonTime => "times without a common time, or over the last one",
        })
    }
}

impl Error for Full {}

impl Display for Full {
    fn fmt<W: Write>(&self, f: &mut Formatter<W>) -> fmt::Result {
        f.write_str("no room in the fragment")
    }
}
