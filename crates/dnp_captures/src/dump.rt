//! Lines of a dump: where the octets stand in them.

ghost use Rattle.std.specs.Prelude.{◌≡◌, ◌+◌, ◌≤◌, false, length, drop, IfSome};
ghost use Rattle.dnp_captures.specs.Hexadecimal as spec;

use crate::hexadecimal::{digit_of, is_blank};

/// The digits that the place before a line has at least, and a word that ends a dump.
const LEAST_PLACE: usize = 4;

const LEAST_WORD: usize = 7;

/// The digits of the octets of a line: of all that it has at most, and of those before its gap.
const ALL_DIGITS: usize = 32;

const HALF_DIGITS: usize = 16;

/// Whether the place before a line ends with this character, by what follows it.
fn is_gap(character: u8, after: &[u8]) -> bool
    ensures { result ≡ spec.is_gap character after.now }
{
    match after {
        [next, ..] => (character == b':' || is_blank(character)) && is_blank(*next),
        [] => false,
    }
}

/// Where the octets of a line of a dump begin, behind the place of the first of them. None of any other line.
#[tactic(auto, using(crate::proofs::Dumps::from_digit, crate::proofs::Dumps::from_gap, crate::proofs::Dumps::from_other, crate::proofs::Dumps::from_end))]
pub(crate) fn octets_from(line: &[u8]) -> Option<usize>
    ensures value { result ≡ spec.octets_from 0 false line.now }
    ensures within { IfSome result (λ place. place ≤ length line.now) }
{
    let mut zero = false;
    for (place, character) in line.iter().enumerate() {
        if digit_of(*character).is_some() {
            zero = *character == b'0';
            continue;
        }
        if place >= LEAST_PLACE && zero && is_gap(*character, &line[place + 1..]) {
            return Some(place + 1);
        }
        return None;
    }
    None
}

/// Whether the octets of a line of a dump end before this character, after so many digits, and so many blanks behind these.
fn ends(digits: usize, blanks: usize, character: u8) -> bool
    ensures { result ≡ spec.ends digits blanks character }
{
    digits >= ALL_DIGITS
        || character == b'|'
        || digits >= 1 && blanks >= 2 && !(digits == HALF_DIGITS && blanks == 2)
}

/// Where the octets of a line of a dump end, which begin at this place.
#[tactic(auto, using(crate::proofs::Dumps::to_blank, crate::proofs::Dumps::to_here, crate::proofs::Dumps::to_other, crate::proofs::Dumps::to_end))]
fn octets_to(line: &[u8], from: usize) -> usize
    requires { from ≤ length line.now }
    ensures value { result ≡ spec.octets_to 0 0 from (drop from line.now) }
    ensures after { from ≤ result }
    ensures within { result ≤ length line.now }
{
    let mut digits = 0;
    let mut blanks = 0;
    let mut place = from;
    'octets: while place < line.len() {
        if is_blank(line[place]) {
            blanks += 1;
            place += 1;
            continue 'octets;
        }
        if ends(digits, blanks, line[place]) {
            return place;
        }
        if digit_of(line[place]).is_some() {
            digits += 1;
        }
        blanks = 0;
        place += 1;
    }
    place
}

/// Whether the line is nothing than a word, as the last one of a dump.
#[tactic(auto, using(crate::proofs::Dumps::word_digit, crate::proofs::Dumps::word_other, crate::proofs::Dumps::word_end))]
fn is_word(line: &[u8]) -> bool
    ensures { result ≡ spec.is_word 0 line.now }
{
    for (place, character) in line.iter().enumerate() {
        if digit_of(*character).is_none() {
            return place >= LEAST_WORD && *character == b'\r';
        }
    }
    line.len() >= LEAST_WORD
}

/// Where the octets of a line begin and end, after a line of a dump or another one.
pub(crate) fn part(line: &[u8], dumped: bool) -> (usize, usize)
    ensures value { result ≡ spec.part dumped line.now }
    ensures forward { result.0 ≤ result.1 }
    ensures within { result.1 ≤ length line.now }
{
    match octets_from(line) {
        Some(from) => (from, octets_to(line, from)),
        None if dumped && is_word(line) => (line.len(), line.len()),
        None => (0, line.len()),
    }
}
