//! Days of the Gregorian calendar.

ghost use Rattle.std.specs.Prelude.{◌≡◌, ◌^◌, ◌+◌, ◌-◌, ◌<◌, ◌≤◌};
ghost use Rattle.dnp_rows.specs.Dates.{FallsOn, is_leap as leaps, year_days as days_of_year, month_days as days_of_month, days_of_years, days_of_months};

/// A day of the calendar.
#[derive(Clone, Copy, Debug, PartialEq, Eq)]
pub(crate) struct Date {
    /// The year.
    pub year: u64,
    /// The month, from 1.
    pub month: u64,
    /// The day of the month, from 1.
    pub day: u64,
}

/// A year, and a day of it.
#[derive(Clone, Copy)]
struct InYear {
    /// The year.
    year: u64,
    /// How many of its days come before the day.
    before: u64,
}

/// Whether a year has a 29 February.
fn is_leap(year: u64) -> bool
    ensures { result ≡ leaps year }
{
    year % 4 == 0 && (year % 100 != 0 || year % 400 == 0)
}

/// How many days a year has.
fn year_days(leap: bool) -> u64
    ensures { result ≡ days_of_year leap }
{
    if leap { 366 } else { 365 }
}

/// How many days a month has.
fn month_days(leap: bool, month: u64) -> u64
    ensures value { result ≡ days_of_month leap month }
    ensures some { 0 < result }
{
    match month {
        2 if leap => 29,
        2 => 28,
        4 | 6 | 9 | 11 => 30,
        _ => 31,
    }
}

/// The year of the day that comes so many days after 1970-01-01.
#[tactic(auto, using(crate::proofs::Dating::one_year))]
fn in_year(days: u64) -> InYear
    requires { days < 2 ^ 40 }
    ensures from_1970 { 1970 ≤ result.year }
    ensures within { result.before < days_of_year (leaps result.year) }
    ensures counted { days ≡ days_of_years (result.year - 1970) + result.before }
{
    let mut year = 1970;
    let mut before = days;
    while before >= year_days(is_leap(year)) {
        before -= year_days(is_leap(year));
        year += 1;
    }
    InYear { year, before }
}

/// The date of a day of a year.
#[tactic(auto, using(crate::proofs::Dating::one_month, crate::proofs::Dating::december))]
fn in_month(of: InYear) -> Date
    requires { of.before < days_of_year (leaps of.year) }
    ensures year { result.year ≡ of.year }
    ensures month { (1 ≤ result.month) × (result.month ≤ 12) }
    ensures day { (1 ≤ result.day) × (result.day ≤ days_of_month (leaps of.year) result.month) }
    ensures counted { of.before + 1 ≡ days_of_months (leaps of.year) (result.month - 1) + result.day }
{
    let leap = is_leap(of.year);
    let mut month = 1;
    let mut before = of.before;
    while month < 12 && before >= month_days(leap, month) {
        before -= month_days(leap, month);
        month += 1;
    }
    Date {
        year: of.year,
        month,
        day: before + 1,
    }
}

/// The date of the day that comes so many days after 1970-01-01.
pub(crate) fn date_of(days: u64) -> Date
    requires { days < 2 ^ 40 }
    ensures { FallsOn days result }
{
    in_month(in_year(days))
}
