//! The lines of a table.

use crate::phrase::family_name;
use crate::shown_text::{Dated, Mark};
use crate::table::TableLine;
use dnp_objects::Row;
use std::fmt;
use std::fmt::{Display, Formatter, Write};

/// What goes to the first line of a screen, and erases all of it (ECMA-48: CUP, ED).
pub const CLEAR: &str = "\x1b[H\x1b[J";

/// The head of a table: the round, and the link address of the outstation.
#[derive(Clone, Copy)]
pub struct Head(pub Mark, pub u16);

impl Display for Head {
    /// As `round 2 2026-11-25T03:00:01.000Z station 10`.
    fn fmt<W: Write>(&self, f: &mut Formatter<W>) -> fmt::Result {
        let (mark, peer) = (self.0, self.1);
        write!(f, "{mark} station {peer}")
    }
}

/// The names of a table's columns.
#[derive(Clone, Copy)]
pub struct Columns;

impl Display for Columns {
    fn fmt<W: Write>(&self, f: &mut Formatter<W>) -> fmt::Result {
        let (kind, index, value, flags) = ("kind", "index", "value", "flags");
        write!(f, "  {kind:<8} {index:>5} {value:>11} {flags:>5} time")
    }
}

/// A line of a table, and whether it is marked.
#[derive(Clone, Copy)]
pub struct TableRow(pub TableLine, pub bool);

impl Display for TableRow {
    /// As `* binary       3           1    01 2026-11-25T03:00:01.000Z`.
    fn fmt<W: Write>(&self, f: &mut Formatter<W>) -> fmt::Result {
        let mark = if self.1 { "*" } else { " " };
        let kind = family_name(self.0.shown.family);
        let Row {
            index,
            flags,
            value,
            time,
            ..
        } = self.0.shown.row;
        let at = Dated(time);
        write!(
            f,
            "{mark} {kind:<8} {index:>5} {value:>11}    {flags:02X} {at}"
        )
    }
}

/// How many points have no line, since there is no room for them.
#[derive(Clone, Copy)]
pub struct Left(pub usize);

impl Display for Left {
    fn fmt<W: Write>(&self, f: &mut Formatter<W>) -> fmt::Result {
        let left = self.0;
        write!(
            f,
            "  and {left} more: '--height' gives the table more lines"
        )
    }
}
