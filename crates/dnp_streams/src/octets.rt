//! Lines of hexadecimal octets: two digits for each octet, and one space between each two octets.

ghost use Rattle.std.specs.Prelude.{ℕ, ◌≡◌, ◌<◌, ◌≤◌, List, [], ◌∷◌, length, nat_lt, if◌then◌else◌, IfSome, IfNone};
ghost use Rattle.std.specs.Char.{digit_value, to_ascii_uppercase};
ghost use Rattle.std.specs.Str.{str_to_ascii_uppercase};
ghost use Rattle.dnp_streams.specs.OctetLines.{digit, octet_named, octet_text, line_of, without_line_feed, IsLineOf};
ghost use Rattle.dnp_streams.specs.steps.Pieces.{BeginsWith};

use arrayvec::ArrayVec;
use dnp_linkframe::MAX_UNIT;

/// The most characters of a line that is read, not counting the line feed that may end it.
pub const MAX_CHARACTERS: usize = 2000;

/// The most octets that a line has that is read: three characters each, but for the last.
pub(crate) const MAX_READ: usize = (MAX_CHARACTERS + 1) / 3;

/// The most characters of a line that is written: the octets of the longest unit, each but the last with a space after
/// it, and a line feed.
pub(crate) const MAX_LINE: usize = 3 * MAX_UNIT;

/// The value of a hexadecimal digit of either case.
pub(crate) fn digit_value(character: u8) -> Option<u8>
    ensures found { IfSome result (λ value. value < 16) }
    ensures same { IfSome result (λ value. to_ascii_uppercase character ≡ digit value) }
    ensures none { IfNone result ((value : ℕ) → value < 16 → to_ascii_uppercase character ≡ digit value → ⊥) }
    ensures named { result ≡ (if nat_lt (digit_value character) 16 then Some (digit_value character) else None) }
{
    match character {
        b'0'..=b'9' => Some(character - b'0'),
        b'A'..=b'F' => Some(character - b'A' + 10),
        b'a'..=b'f' => Some(character - b'a' + 10),
        _ => None,
    }
}

/// The octet of two hexadecimal digits of either case.
pub fn octet_of(high: u8, low: u8) -> Option<u8>
    ensures named { result ≡ octet_named high low }
    ensures found { IfSome result (λ octet. str_to_ascii_uppercase (high ∷ low ∷ []) ≡ octet_text octet) }
    ensures none { IfNone result ((octet : ℕ) → octet < 256
        → str_to_ascii_uppercase (high ∷ low ∷ []) ≡ octet_text octet → ⊥) }
{
    let high = digit_value(high)?;
    let low = digit_value(low)?;
    Some(high * 16 + low)
}

/// The octet at the front of a part of a line: two hexadecimal digits of either case, and a space
/// after them unless the part ends there.
fn first_octet(part: &[u8]) -> Option<u8>
    ensures found { IfSome result (λ octet. BeginsWith part.now octet) }
    ensures none { IfNone result ((octet : ℕ) → octet < 256 → BeginsWith part.now octet → ⊥) }
{
    match part {
        [high, low] | [high, low, b' ', ..] => octet_of(*high, *low),
        _ => None,
    }
}

/// The capital hexadecimal digit of a number below 16.
pub fn digit_of(number: u8) -> u8
    requires { number < 16 }
    ensures { result ≡ digit number }
{
    if number < 10 {
        b'0' + number
    } else {
        b'A' + (number - 10)
    }
}

/// The text without the line feed that may end it.
pub(crate) fn line_in(text: &[u8]) -> &[u8]
    ensures { result.now ≡ without_line_feed text.now }
{
    match text {
        [line @ .., b'\n'] => line,
        _ => text,
    }
}

/// The octets of the line of text, or none where the text is no line of octets. The line has two hexadecimal digits of
/// either case for each octet, one space between each two octets, at most [`MAX_CHARACTERS`] characters, and may end
/// with one line feed more. A text without octets is the line of no octets.
pub(crate) fn read_octets(text: &[u8]) -> Option<ArrayVec<u8, MAX_READ>>
    ensures found { IfSome result (λ octets. IsLineOf text.now octets.items) }
    ensures none { IfNone result ((octets : List ℕ) → IsLineOf text.now octets → ⊥) }
{
    let line = line_in(text);
    if line.len() > MAX_CHARACTERS {
        return None;
    }
    if let [.., b' '] = line {
        return None;
    }
    let mut octets = ArrayVec::new();
    for piece in line.chunks(3) {
        octets.push(first_octet(piece)?);
    }
    Some(octets)
}

/// The octets of a unit as a line of text with capital digits and without a line feed.
pub(crate) fn line_of_octets(octets: &[u8]) -> ArrayVec<u8, MAX_LINE>
    requires { length octets.now ≤ MAX_UNIT }
    ensures text { result.items ≡ line_of octets.now }
    ensures short { length result.items < MAX_LINE }
{
    let mut line = ArrayVec::new();
    for (index, octet) in octets.iter().enumerate() {
        if index > 0 {
            line.push(b' ');
        }
        line.push(digit_of(*octet / 16));
        line.push(digit_of(*octet % 16));
    }
    line
}
