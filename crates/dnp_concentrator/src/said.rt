//! Why a station stops at an event, why a plan has no index map, and why a control is not issued, in a sentence each: the texts of
//! this crate's lines, all of them.

use crate::cause::Cause;
use crate::fault::MapFault;
use crate::issue::IssueFault;
use std::error::Error;
use std::fmt;
use std::fmt::{Display, Formatter, Write};

impl Error for Cause {}

impl Display for Cause {
    fn fmt<W: Write>(&self, f: &mut Formatter<W>) -> fmt::Result {
        f.write_str(match self {
            Cause::Exhausted => "a store has no number left",
            Cause::Memory => "out of memory",
            Cause::Device => "a store's device failed",
        })
    }
}

impl Error for MapFault {}

impl Display for MapFault {
    fn fmt<W: Write>(&self, f: &mut Formatter<W>) -> fmt::Result {
        f.write_str(match self {
            MapFault::TooWide => "an index above would be over 65,535",
            MapFault::Overlap => "two substations would share an index above",
            MapFault::Memory => "out of memory",
        })
    }
}

impl Error for IssueFault {}

impl Display for IssueFault {
    fn fmt<W: Write>(&self, f: &mut Formatter<W>) -> fmt::Result {
        f.write_str(match self {
            IssueFault::NoOutput => "no such output",
            IssueFault::Exhausted => "the book has no number left",
            IssueFault::Memory => "out of memory",
            IssueFault::Device => "the book's device failed",
        })
    }
}
