//! Why a text is no line of octets, for the person who wrote it.

ghost use Rattle.std.specs.Prelude.{◌≡◌, ℕ, List, IfSome, IfNone};
ghost use Rattle.dnp_streams.specs.OctetLines.{without_line_feed, IsLineOf};
ghost use Rattle.dnp_streams.specs.TextFaults.{StopsBy};

use crate::octets::{MAX_CHARACTERS, digit_value, line_in, read_octets};

/// Where a text stops being a line of octets: a place, counted from 0, and the character there.
#[derive(Clone, Copy, Debug, PartialEq, Eq)]
pub enum TextFault {
    /// Here belongs a hexadecimal digit, and this character is here.
    NoDigit(usize, u8),
    /// Here belongs a space, or the end of the line, and this character is here.
    NoSpace(usize, u8),
    /// The line ends here, in the middle of an octet or after a space.
    Ends(usize),
    /// The line has more than [`MAX_CHARACTERS`] characters.
    TooLong,
}

/// Why the text is no line of octets, or none where it is one: two hexadecimal digits of either
/// case for each octet, single spaces between, at most [`MAX_CHARACTERS`] characters without the line feed that
/// may end the text. Of several faults the first from the left is given.
pub fn text_fault(text: &[u8]) -> Option<TextFault>
    ensures found { IfSome result (StopsBy (without_line_feed text.now)) }
    ensures only { IfSome result (λ _. (octets : List ℕ) → IsLineOf text.now octets → ⊥) }
    ensures none { IfNone result ((octets : List ℕ) × IsLineOf text.now octets) }
{
    if read_octets(text).is_some() {
        return None;
    }
    let line = line_in(text);
    for (place, character) in line.iter().enumerate() {
        if place == MAX_CHARACTERS {
            return Some(TextFault::TooLong);
        }
        if place % 3 == 2 {
            if *character != b' ' {
                return Some(TextFault::NoSpace(place, *character));
            }
            continue;
        }
        if let None = digit_value(*character) {
            return Some(TextFault::NoDigit(place, *character));
        }
    }
    if line.is_empty() || line.len() % 3 == 2 {
        return None;
    }
    Some(TextFault::Ends(line.len()))
}
