//! Why a line of octets is none, and why a stream is not served, in a sentence each: the texts of this crate's lines, all of them.

use crate::answer::AnswerFault;
use crate::stream::{ServeFault, StationFault};
use crate::text::TextFault;
use std::error::Error;
use std::fmt;
use std::fmt::{Display, Formatter, Write};

/// A character as people name it: printable ones in quotes, the others by their number.
#[derive(Clone, Copy)]
struct Named(u8);

impl Display for Named {
    fn fmt<W: Write>(&self, f: &mut Formatter<W>) -> fmt::Result {
        match self.0 {
            b'\n' => f.write_str("a line feed"),
            b'\r' => f.write_str("a carriage return"),
            b'\t' => f.write_str("a tab"),
            b' ' => f.write_str("a space"),
            character @ 0x21..=0x7E => write!(f, "'{}'", char::from(character)),
            other => write!(f, "the octet {other:02X}"),
        }
    }
}

impl Display for TextFault {
    /// The fault in a sentence, with the column, counted from 1.
    fn fmt<W: Write>(&self, f: &mut Formatter<W>) -> fmt::Result {
        match *self {
            TextFault::NoDigit(place, character) => {
                let named = Named(character);
                write!(
                    f,
                    "column {}: {named}, where a hexadecimal digit belongs",
                    place.saturating_add(1)
                )
            }
            TextFault::NoSpace(place, character) => {
                let named = Named(character);
                write!(
                    f,
                    "column {}: {named}, where one space or the end belongs",
                    place.saturating_add(1)
                )
            }
            TextFault::Ends(place) => {
                write!(
                    f,
                    "column {}: the line ends, where a hexadecimal digit belongs",
                    place.saturating_add(1)
                )
            }
            TextFault::TooLong => f.write_str("the line has more than 2,000 characters"),
        }
    }
}

impl Error for AnswerFault {}

impl Display for AnswerFault {
    fn fmt<W: Write>(&self, f: &mut Formatter<W>) -> fmt::Result {
        f.write_str(match self {
            AnswerFault::WriteFailed => "the answer could not be written",
            AnswerFault::Memory => "out of memory",
        })
    }
}

impl Error for ServeFault {}

impl Display for ServeFault {
    fn fmt<W: Write>(&self, f: &mut Formatter<W>) -> fmt::Result {
        f.write_str(match self {
            ServeFault::ReadFailed => "the stream could not be read",
            ServeFault::WriteFailed => "the stream could not be written",
            ServeFault::TurnsSpent => "too many reads of the stream",
            ServeFault::Memory => "out of memory",
        })
    }
}

impl Error for StationFault {}

impl Display for StationFault {
    fn fmt<W: Write>(&self, f: &mut Formatter<W>) -> fmt::Result {
        match self {
            StationFault::Message => f.write_str("a message that the station can't take"),
            StationFault::Cause(cause) => write!(f, "{cause}"),
        }
    }
}
