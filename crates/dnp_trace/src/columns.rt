//! The columns of a sequence chart.

use crate::chart::{APART, LEFT};
use crate::noted::{Course, Peer};
use crate::sheet::Sheet;
use std::alloc::AllocError;

/// Where the station of this column stands.
pub(crate) fn column_x(column: u32) -> u32 {
    column.saturating_mul(APART).saturating_add(LEFT)
}

/// The columns of a chart: the centre, the second centre, if it is shown, the concentrator, and the substations after them.
#[derive(Clone, Copy)]
pub(crate) struct Columns {
    /// The concentrator's.
    middle: u32,
}

impl Columns {
    /// Those of a chart with the second centre, or without it.
    pub(crate) fn new(has_second: bool) -> Columns {
        Columns {
            middle: if has_second { 2 } else { 1 },
        }
    }

    /// From where to where the units of a line go.
    pub(crate) fn ends_of(self, course: Course) -> (u32, u32) {
        let middle = self.middle;
        let (master, outstation) = match course.peer {
            Peer::Centre => (0, middle),
            Peer::SecondCentre => (1, middle),
            Peer::Substation(number) => (
                middle,
                middle.saturating_add(u32::from(number)).saturating_add(1),
            ),
        };
        if course.up {
            (column_x(outstation), column_x(master))
        } else {
            (column_x(master), column_x(outstation))
        }
    }

    /// Where the way of a unit that doesn't come to its end breaks off: before the next station.
    pub(crate) fn break_x(self, course: Course) -> u32 {
        let (begin, end) = self.ends_of(course);
        if begin < end {
            begin.saturating_add(APART / 2)
        } else {
            begin.saturating_sub(APART / 2)
        }
    }

    /// Writes the name of a station.
    pub(crate) fn station_name(self, sheet: &mut Sheet, column: u32) -> Result<(), AllocError> {
        if column == 0 {
            return sheet.word("centre");
        }
        if column < self.middle {
            return sheet.word("centre 2");
        }
        if column == self.middle {
            return sheet.word("concentrator");
        }
        sheet.word("substation ")?;
        sheet.number(column.saturating_sub(self.middle).saturating_sub(1))
    }
}
