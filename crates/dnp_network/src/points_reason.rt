//! Why a table says no points of a plan, and where it is looked up.

use crate::kind::PointCounts;
use crate::points::PointsFault;
use crate::said::Quoted;
use csv::StringRecord;

/// The line of the first octet that doesn't end a line, from this place of the text on: a record is read from the end of the
/// one before it.
fn line_from(text: &str, start: u64) -> usize {
    let mut line: usize = 1;
    for (at, octet) in text.as_bytes().iter().enumerate() {
        if at as u64 >= start && !matches!(*octet, b'\r' | b'\n') {
            break;
        }
        if *octet == b'\n' {
            line = line.saturating_add(1);
        }
    }
    line
}

/// Why a table says no points of a plan, and where.
#[derive(Drop)]
pub struct PointsReason<'a> {
    /// The fault.
    pub fault: PointsFault,
    /// The text of the table.
    pub text: &'a str,
    /// Its records, the head first.
    pub rows: &'a [StringRecord],
    /// How many points the substations of the plan have.
    pub counts: &'a [PointCounts],
}

impl PointsReason<'_> {
    /// The line of a record behind the head, counted from 1.
    pub(crate) fn line(&self, number: usize) -> usize {
        if let Some(row) = self.rows.get(number.saturating_add(1))
            && let Some(position) = row.position()
        {
            return line_from(self.text, position.byte());
        }
        0
    }

    /// A field of a record behind the head.
    pub(crate) fn field(&self, number: usize, field: usize) -> Quoted<'_> {
        match self.rows.get(number.saturating_add(1)) {
            Some(row) => Quoted(row.get(field).unwrap_or("")),
            None => Quoted(""),
        }
    }
}
