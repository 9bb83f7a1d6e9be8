//! How kinds, rows and commands print.

ghost use Rattle.std.specs.Prelude.{Some};
ghost use Rattle.dnp_objects.specs.Words.{kind_word, octet_word, time_word, row_words, command_words};

use crate::command::Command;
use crate::row::{Kind, Row};
use std::fmt;

/// `binary`, `counter` or `analog`.
impl fmt::Display for Kind {
    ghost output = { λ kind. Some (kind_word kind) };

    fn fmt<W: fmt::Write>(&self, f: &mut fmt::Formatter<W>) -> fmt::Result {
        f.write_str(match self {
            Kind::Binary => "binary",
            Kind::Counter => "counter",
            Kind::Analog => "analog",
        })
    }
}

/// An octet as two hexadecimal digits.
#[derive(Clone, Copy)]
struct Octet(u8);

impl fmt::Display for Octet {
    ghost output = { λ octet. Some (octet_word octet.0) };

    fn fmt<W: fmt::Write>(&self, f: &mut fmt::Formatter<W>) -> fmt::Result {
        let (high, low) = (self.0 / 16, self.0 % 16);
        write!(f, "{high:X}{low:X}")
    }
}

/// A time, or a dash.
#[derive(Clone, Copy)]
struct Time(Option<u64>);

impl fmt::Display for Time {
    ghost output = { λ time. Some (time_word time.0) };

    fn fmt<W: fmt::Write>(&self, f: &mut fmt::Formatter<W>) -> fmt::Result {
        match self.0 {
            Some(time) => write!(f, "{time}"),
            None => f.write_str("-"),
        }
    }
}

/// Kind, index, value, flags, time, with a space between two of them: `binary 3 1 01 1000`. Flags
/// are two capital hexadecimal digits, and the time is `-` where there is none.
impl fmt::Display for Row {
    ghost output = { λ row. Some (row_words row) };

    fn fmt<W: fmt::Write>(&self, f: &mut fmt::Formatter<W>) -> fmt::Result {
        let flags = Octet(self.flags);
        let time = Time(self.time);
        write!(
            f,
            "{} {} {} {flags} {time}",
            self.kind, self.index, self.value
        )
    }
}

/// `block INDEX CODE COUNT ON OFF` with the times in milliseconds, `set16 INDEX VALUE` or
/// `set32 INDEX VALUE`, all numbers decimal.
impl fmt::Display for Command {
    ghost output = { λ command. Some (command_words command) };

    fn fmt<W: fmt::Write>(&self, f: &mut fmt::Formatter<W>) -> fmt::Result {
        match *self {
            Command::Block {
                index,
                code,
                count,
                on_ms,
                off_ms,
            } => write!(f, "block {index} {code} {count} {on_ms} {off_ms}"),
            Command::Set16 { index, value } => write!(f, "set16 {index} {value}"),
            Command::Set32 { index, value } => write!(f, "set32 {index} {value}"),
        }
    }
}
