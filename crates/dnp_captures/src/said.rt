//! Why a file is no capture, and which check word is wrong, in a sentence each: the texts of this crate's lines, all of them.

use crate::capture::CaptureFault;
use crate::check_words::WrongWord;
use std::fmt;
use std::fmt::{Display, Formatter, Write};

impl Display for CaptureFault {
    fn fmt<W: Write>(&self, f: &mut Formatter<W>) -> fmt::Result {
        match *self {
            CaptureFault::Start => f.write_str("the file doesn't begin as a capture"),
            CaptureFault::Link(number) => write!(
                f,
                "packets of link type {number}, where 1 (Ethernet), 101 (raw IP), 0 (loopback), 113 or 276 (Linux's any) is read"
            ),
            CaptureFault::Memory => f.write_str("out of memory"),
        }
    }
}

impl Display for WrongWord {
    fn fmt<W: Write>(&self, f: &mut Formatter<W>) -> fmt::Result {
        let [low, high] = self.stands.to_le_bytes();
        let [right_low, right_high] = self.belongs.to_le_bytes();
        write!(
            f,
            "at octet {} of the frame, from 0, is {low:02X} {high:02X}, where the check word {right_low:02X} {right_high:02X} belongs",
            self.place
        )
    }
}
