//! Why an object and why a store refuses, in a sentence each: the texts of this crate's lines, all of them.

use crate::fault::ObjectFault;
use crate::store::StoreFault;
use std::error::Error;
use std::fmt;
use std::fmt::{Display, Formatter, Write};

impl Error for ObjectFault {}

impl Display for ObjectFault {
    fn fmt<W: Write>(&self, f: &mut Formatter<W>) -> fmt::Result {
        f.write_str(match self {
            ObjectFault::ObjectUnknown => "no such object",
            ObjectFault::Cut => "not the object's number of octets",
            ObjectFault::ValueRange => "a row that does not fit the object",
        })
    }
}

impl Error for StoreFault {}

impl Display for StoreFault {
    fn fmt<W: Write>(&self, f: &mut Formatter<W>) -> fmt::Result {
        f.write_str(match self {
            StoreFault::Exhausted => "the store has no number left",
            StoreFault::Memory => "out of memory",
            StoreFault::Device => "the store's device failed",
        })
    }
}
