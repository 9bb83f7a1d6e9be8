//! Times of events, as texts.

use std::fmt;
use std::fmt::{Display, Formatter, Write};

/// The milliseconds of a day.
const DAY: u64 = 86_400_000;

/// The days of 400 years of the Gregorian calendar.
const CYCLE: u64 = 146_097;

/// The days from 1 March of the year 0 to 1970-01-01.
const TO_1970: u64 = 719_468;

/// A moment in milliseconds since 1970-01-01 00:00 UTC, which is shown as `2026-11-25T03:00:01.000Z`.
#[derive(Clone, Copy)]
pub struct Moment(pub u64);

/// A day of the calendar.
#[derive(Clone, Copy)]
struct Date {
    /// The year.
    year: u64,
    /// The month, from 1.
    month: u64,
    /// The day of the month, from 1.
    day: u64,
}

/// The day that is so many days after 1970-01-01. Years are counted from their March on, so that the day that comes every
/// four years is the last one of its year.
fn date_of(days: u64) -> Date {
    let all = days.saturating_add(TO_1970);
    let cycles = all / CYCLE;
    let left = all % CYCLE;
    // (every 4 years but for every 100, and again every 400, a year is a day longer)
    let years = (left + left / 36_524).saturating_sub(left / 1_460 + left / 146_096) / 365;
    let before = years.saturating_mul(365).saturating_add(years / 4);
    let day = left.saturating_sub(before.saturating_sub(years / 100));
    // (from March on the months have 153 days in five)
    let month = day.saturating_mul(5).saturating_add(2) / 153;
    let first = month.saturating_mul(153).saturating_add(2) / 5;
    let is_next = month >= 10;
    Date {
        year: cycles
            .saturating_mul(400)
            .saturating_add(years)
            .saturating_add(u64::from(is_next)),
        month: if is_next {
            month.saturating_sub(9)
        } else {
            month.saturating_add(3)
        },
        day: day.saturating_sub(first).saturating_add(1),
    }
}

impl Display for Moment {
    /// The date and the time of the day in UTC, as ISO 8601 has them.
    fn fmt<W: Write>(&self, f: &mut Formatter<W>) -> fmt::Result {
        let Date { year, month, day } = date_of(self.0 / DAY);
        let rest = self.0 % DAY;
        let hour = rest / 3_600_000;
        let minute = rest / 60_000 % 60;
        let second = rest / 1_000 % 60;
        let milli = rest % 1_000;
        write!(
            f,
            "{year:04}-{month:02}-{day:02}T{hour:02}:{minute:02}:{second:02}.{milli:03}Z"
        )
    }
}
