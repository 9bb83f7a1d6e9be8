//! Which word of a command is wrong, and what is doubtful about a code, in a sentence each: the texts of this crate's lines, all of
//! them.

use crate::code::CodeNames;
use crate::fault::{OrderFault, ToldFault, Wanted};
use crate::intended::CodeDoubt;
use crate::words::nth_word;
use std::fmt;
use std::fmt::{Display, Formatter, Write};

/// The most characters of a word that are repeated.
const SHOWN: usize = 40;

impl Display for Wanted {
    fn fmt<W: Write>(&self, f: &mut Formatter<W>) -> fmt::Result {
        let text = match *self {
            Wanted::Substation(count) => {
                let last = count.saturating_sub(1);
                return write!(f, "a substation's number, 0 to {last},");
            }
            Wanted::Order =>
                "latch-on, latch-off, pulse-on, pulse-off, close, trip, set16, set32 or block",
            Wanted::Index => "an output's number, 0 to 65535,",
            Wanted::Code => "a control code, 0 to 255 or 0x00 to 0xFF,",
            Wanted::Count => "how many times, 0 to 255,",
            Wanted::Milliseconds => "a number of milliseconds, 0 to 4294967295,",
            Wanted::Time => "a time as 100ms or 2s, 4294967295ms at most,",
            Wanted::Value16 => "a whole number from -32768 to 32767",
            Wanted::Value32 => "a whole number from -2147483648 to 2147483647",
            Wanted::End => "the end",
        };
        f.write_str(text)
    }
}

/// A word, in quotes, and no more of it than [`SHOWN`] characters.
fn write_word<W: Write>(f: &mut Formatter<W>, word: &str) -> fmt::Result {
    if word.is_empty() {
        return f.write_str("an empty word");
    }
    match word.char_indices().nth(SHOWN) {
        Some((end, _)) => {
            let shown = word.get(..end).unwrap_or("").escape_debug();
            write!(f, "'{shown}' and more")
        }
        None => {
            let shown = word.escape_debug();
            write!(f, "'{shown}'")
        }
    }
}

impl Display for ToldFault<'_> {
    /// The word, counted from 1, what stands there, and what belongs there.
    fn fmt<W: Write>(&self, f: &mut Formatter<W>) -> fmt::Result {
        let OrderFault { place, wanted } = self.fault;
        let number = place.saturating_add(1);
        write!(f, "word {number}: ")?;
        match nth_word(self.text, place) {
            Some(found) => write_word(f, found)?,
            None => f.write_str("the words end")?,
        }
        write!(f, ", where {wanted} belongs")
    }
}

impl Display for CodeDoubt {
    /// As `81 is 0x51: PULSE_ON, CLOSE, queue; trip is 0x81`.
    fn fmt<W: Write>(&self, f: &mut Formatter<W>) -> fmt::Result {
        let code = self.code;
        let names = CodeNames(code);
        write!(f, "{code} is 0x{code:02X}: {names}")?;
        match self.intended {
            Some(action) => {
                let word = action.word();
                let meant = action.code();
                write!(f, "; {word} is 0x{meant:02X}")
            }
            None => Ok(()),
        }
    }
}
