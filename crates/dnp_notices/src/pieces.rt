//! Pieces of the lines that are said of stations and of rows.

use crate::names::Thing;
use dnp_objects::Status;
use std::fmt;
use std::fmt::{Display, Formatter, Write};

/// A status, by its number and its name.
#[derive(Clone, Copy)]
pub(crate) struct Told(pub Status);

/// How long something took: in milliseconds below ten seconds, and else in seconds.
#[derive(Clone, Copy)]
pub(crate) struct Lasted(pub u64);

/// The time of the last good answer, in milliseconds since 1970-01-01 00:00 UTC, or that there was none since the start.
#[derive(Clone, Copy)]
pub(crate) struct Since(pub Option<u64>);

/// A number of things, with the name of one of them, and that of more.
#[derive(Clone, Copy)]
pub struct Many(pub u64, pub &'static str, pub &'static str);

impl Display for Many {
    fn fmt<W: Write>(&self, f: &mut Formatter<W>) -> fmt::Result {
        let Many(count, one, more) = *self;
        let name = if count == 1 { one } else { more };
        write!(f, "{count} {name}")
    }
}

/// A control, by its number, and by its output or setpoint, where people call that something.
#[derive(Clone, Copy)]
pub(crate) struct Numbered<'a> {
    /// Its number in the book.
    pub id: u64,
    /// Its output or setpoint, where it is known, and what people call it, if they do.
    pub output: Option<(Thing, &'a str)>,
}
