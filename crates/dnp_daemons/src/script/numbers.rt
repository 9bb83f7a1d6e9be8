//! Numbers in words.

ghost use Rattle.std.specs.Prelude.{◌≡◌, ◌^◌};
ghost use Rattle.dnp_daemons.specs.Numbers.{number_below, integer_within};

/// The number below 2^64 that the word writes.
pub fn number_in(word: &str) -> Option<u64>
    ensures { result ≡ number_below (2 ^ 64) word.now }
{
    // The library's `parse` takes one plus sign before the digits.
    if matches!(word.as_bytes(), [b'+', ..]) {
        return None;
    }
    word.parse::<u64>().ok()
}

/// The number of 64 bits that the word writes, which may be negative.
pub(crate) fn integer_in(word: &str) -> Option<i64>
    ensures { result ≡ integer_within (2 ^ 63) word.now }
{
    if matches!(word.as_bytes(), [b'+', ..]) {
        return None;
    }
    word.parse::<i64>().ok()
}

/// The number below 2^8 that the word writes.
pub(crate) fn number8_in(word: &str) -> Option<u8>
    ensures { result ≡ number_below (2 ^ 8) word.now }
{
    u8::try_from(number_in(word)?).ok()
}

/// The number below 2^16 that the word writes.
pub(crate) fn number16_in(word: &str) -> Option<u16>
    ensures { result ≡ number_below (2 ^ 16) word.now }
{
    u16::try_from(number_in(word)?).ok()
}

/// The number below 2^32 that the word writes.
pub(crate) fn number32_in(word: &str) -> Option<u32>
    ensures { result ≡ number_below (2 ^ 32) word.now }
{
    u32::try_from(number_in(word)?).ok()
}

/// The number of 16 bits that the word writes, which may be negative.
pub(crate) fn integer16_in(word: &str) -> Option<i16>
    ensures { result ≡ integer_within (2 ^ 15) word.now }
{
    if matches!(word.as_bytes(), [b'+', ..]) {
        return None;
    }
    word.parse::<i16>().ok()
}

/// The number of 32 bits that the word writes, which may be negative.
pub(crate) fn integer32_in(word: &str) -> Option<i32>
    ensures { result ≡ integer_within (2 ^ 31) word.now }
{
    if matches!(word.as_bytes(), [b'+', ..]) {
        return None;
    }
    word.parse::<i32>().ok()
}
