//! Numbers, octets and moments as text, put at the end of octets. An error says that memory ran out.

ghost use Rattle.std.specs.Prelude.{◌≡◌, ◌++◌, ◌<◌, ◌≤◌, OnOk};
ghost use Rattle.dnp_rows.specs.Dates.{IsUtc, padded, date_text, clock_text};
ghost use Rattle.dnp_rows.specs.Lines.{digit as digit_of, octet_text};

use crate::date::{Date, date_of};
use itoa::{Buffer, Integer};
use std::alloc::AllocError;

/// The milliseconds of a day.
const DAY: u64 = 86_400_000;

/// Puts a number.
pub(crate) fn put_number<N: Integer>(out: &mut Vec<u8>, number: N) -> Result<(), AllocError>
    ensures { OnOk result (out.new.items ≡ out.old.items ++ N.text number) }
{
    let mut digits = Buffer::new();
    out.extend_from_slice(digits.format(number).as_bytes())
}

/// The hexadecimal digit of a number under 16.
fn digit(number: u8) -> u8
    requires { number < 16 }
    ensures { result ≡ digit_of number }
{
    if number < 10 {
        number + b'0'
    } else {
        number - 10 + b'A'
    }
}

/// An octet as two hexadecimal digits.
pub(crate) fn octet_digits(octet: u8) -> [u8; 2]
    ensures { result ≡ octet_text octet }
{
    [digit(octet / 16), digit(octet % 16)]
}

/// Puts a number with zeros in front, up to so many digits, 4 at most.
fn put_padded(out: &mut Vec<u8>, width: usize, number: u64) -> Result<(), AllocError>
    requires { width ≤ 4 }
    ensures { OnOk result (out.new.items ≡ out.old.items ++ padded width number) }
{
    let mut digits = Buffer::new();
    let text = digits.format(number);
    let zeros = b"0000";
    out.extend_from_slice(&zeros[..width.saturating_sub(text.len())])?;
    out.extend_from_slice(text.as_bytes())
}

/// Puts a date.
fn put_date(out: &mut Vec<u8>, date: Date) -> Result<(), AllocError>
    ensures { OnOk result (out.new.items ≡ out.old.items ++ date_text date) }
{
    put_padded(out, 4, date.year)?;
    out.extend_from_slice(b"-")?;
    put_padded(out, 2, date.month)?;
    out.extend_from_slice(b"-")?;
    put_padded(out, 2, date.day)
}

/// Puts the time of a day, in so many milliseconds from its beginning on.
fn put_clock(out: &mut Vec<u8>, ms: u64) -> Result<(), AllocError>
    ensures { OnOk result (out.new.items ≡ out.old.items ++ clock_text ms) }
{
    put_padded(out, 2, ms / 3_600_000)?;
    out.extend_from_slice(b":")?;
    put_padded(out, 2, ms / 60_000 % 60)?;
    out.extend_from_slice(b":")?;
    put_padded(out, 2, ms / 1_000 % 60)?;
    out.extend_from_slice(b".")?;
    put_padded(out, 3, ms % 1_000)
}

/// The text of a moment in milliseconds since 1970-01-01 00:00 UTC, in place of what stood there.
pub(crate) fn make_utc(out: &mut Vec<u8>, time: u64) -> Result<(), AllocError>
    ensures { OnOk result (IsUtc time out.new.items) }
{
    out.clear();
    put_date(out, date_of(time / DAY))?;
    out.extend_from_slice(b"T")?;
    put_clock(out, time % DAY)?;
    out.extend_from_slice(b"Z")
}
