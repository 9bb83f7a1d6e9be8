//! Numbers, times and control codes in words.

ghost use Rattle.std.specs.Prelude.{◌≡◌, ◌^◌, ◌<◌, IfSome, MatchOption, true, false};
ghost use Rattle.dnp_orders.specs.Numbers.{code_named, digit_written, integer_within, number_below, octet_written, ends_in, front_of, seconds_named, time_named};

/// The number below 2^64 that the word writes.
fn number_in(word: &str) -> Option<u64>
    ensures { result ≡ number_below (2 ^ 64) word.now }
{
    // The library's `parse` takes one plus sign before the digits.
    if matches!(word.as_bytes(), [b'+', ..]) {
        return None;
    }
    word.parse::<u64>().ok()
}

/// The number below 2^8 that the word writes.
pub(crate) fn number8_in(word: &str) -> Option<u8>
    ensures { result ≡ number_below (2 ^ 8) word.now }
{
    u8::try_from(number_in(word)?).ok()
}

/// The number below 2^16 that the word writes.
pub(crate) fn number16_in(word: &str) -> Option<u16>
    ensures { result ≡ number_below (2 ^ 16) word.now }
{
    u16::try_from(number_in(word)?).ok()
}

/// The number below 2^32 that the word writes.
pub(crate) fn number32_in(word: &str) -> Option<u32>
    ensures { result ≡ number_below (2 ^ 32) word.now }
{
    u32::try_from(number_in(word)?).ok()
}

/// The number of 16 bits that the word writes, which may be negative.
pub(crate) fn integer16_in(word: &str) -> Option<i16>
    ensures { result ≡ integer_within (2 ^ 15) word.now }
{
    if matches!(word.as_bytes(), [b'+', ..]) {
        return None;
    }
    word.parse::<i16>().ok()
}

/// The number of 32 bits that the word writes, which may be negative.
pub(crate) fn integer32_in(word: &str) -> Option<i32>
    ensures { result ≡ integer_within (2 ^ 31) word.now }
{
    if matches!(word.as_bytes(), [b'+', ..]) {
        return None;
    }
    word.parse::<i32>().ok()
}

/// The value of a hexadecimal digit of either case.
fn digit_in(digit: u8) -> Option<u8>
    ensures value { result ≡ digit_written digit }
    ensures range { IfSome result (λ value. value < 16) }
{
    match digit {
        b'0'..=b'9' => Some(digit - b'0'),
        b'A'..=b'F' => Some(digit - b'A' + 10),
        b'a'..=b'f' => Some(digit - b'a' + 10),
        _ => None,
    }
}

/// The octet that one hexadecimal digit or two of them write.
pub(crate) fn octet_in(digits: &[u8]) -> Option<u8>
    ensures { result ≡ octet_written digits.now }
{
    match digits {
        [low] => digit_in(*low),
        [high, low] => {
            let high = digit_in(*high)?;
            let low = digit_in(*low)?;
            Some(high * 16 + low)
        }
        _ => None,
    }
}

/// The control code that a word writes: a decimal number, or hexadecimal digits after `0x`.
pub(crate) fn code_in(word: &str) -> Option<u8>
    ensures { result ≡ code_named word.now }
{
    match word.as_bytes() {
        [b'0', b'x', digits @ ..] => octet_in(digits),
        _ => number8_in(word),
    }
}

/// What stands before a unit, where the word ends in it.
fn before<'a>(word: &'a str, unit: &str) -> Option<&'a str>
    ensures { MatchOption result (ends_in unit.now word.now ≡ false)
        (λ front. (ends_in unit.now word.now ≡ true) × (front.now ≡ front_of unit.now word.now)) }
{
    word.strip_suffix(unit)
}

/// So many seconds in milliseconds.
fn seconds_in(digits: &str) -> Option<u32>
    ensures { result ≡ seconds_named digits.now }
{
    number32_in(digits)?.checked_mul(1_000)
}

/// The time that a word says, in milliseconds: `100ms` or `2s`.
pub(crate) fn time_in(word: &str) -> Option<u32>
    ensures { result ≡ time_named word.now }
{
    if let Some(digits) = before(word, "ms") {
        return number32_in(digits);
    }
    match before(word, "s") {
        Some(digits) => seconds_in(digits),
        None => None,
    }
}
