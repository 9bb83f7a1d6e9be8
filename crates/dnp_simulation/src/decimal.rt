//! Decimal numbers in the words of a command line.

/// Puts a digit behind a number. `None` if the octet is no digit, or the number has over 64 bits.
fn with_digit(number: u64, octet: u8) -> Option<u64> {
    if !octet.is_ascii_digit() {
        return None;
    }
    number.checked_mul(10)?.checked_add(u64::from(octet - b'0'))
}

/// Reads a decimal number, as so many parts of one: its digits, and maybe a point and at most `places` digits behind it, at most 9.
/// With 3 places `1.5` is 1,500. `None` for any other text, or a number of over 64 bits.
pub fn read_decimal(text: &str, places: u32) -> Option<u64> {
    let mut number: u64 = 0;
    let mut left = places;
    let mut has_point = false;
    let mut has_digits = false;
    for octet in text.as_bytes() {
        if *octet == b'.' && !has_point && has_digits {
            has_point = true;
            has_digits = false;
            continue;
        }
        if has_point {
            left = left.checked_sub(1)?;
        }
        number = with_digit(number, *octet)?;
        has_digits = true;
    }
    if !has_digits {
        return None;
    }
    for _ in 0..left {
        number = number.checked_mul(10)?;
    }
    Some(number)
}
