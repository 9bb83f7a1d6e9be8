//! What words name: links, ends, ways, kinds, stations, classes, flags, times and octets.

ghost use Rattle.std.specs.Prelude.{◌≡◌};
ghost use Rattle.std.specs.List.{list_all};
ghost use Rattle.std.specs.Option.{option_map};
ghost use Rattle.dnp_daemons.specs.Names.{link_named, substation_named, end_named, way_named, kind_named, place_named, is_class_digit, once, classes_named, flags_named, time_named, octets_named};

use crate::script::numbers::{number_in, number8_in};
use arrayvec::ArrayVec;
use dnp_linkframe::MAX_UNIT;
use dnp_master::Classes;
use dnp_objects::Kind;
use dnp_streams::octet_of;
use dnp_world::{End, Link, Place, Way};

/// The number of a substation, below how many there are.
pub(crate) fn substation_in(word: &str, substations: usize) -> Option<u8>
    ensures { result ≡ substation_named substations word.now }
{
    let number = number8_in(word)?;
    if usize::from(number) < substations {
        Some(number)
    } else {
        None
    }
}

/// A link: `above` or `above2`, or the number of a substation.
pub(crate) fn link_in(word: &str, substations: usize) -> Option<Link>
    ensures { result ≡ link_named substations word.now }
{
    match word {
        "above" => Some(Link::Above(0)),
        "above2" => Some(Link::Above(1)),
        _ => Some(Link::Below(substation_in(word, substations)?)),
    }
}

/// A station: `centre`, `centre2`, `concentrator`, or the number of a substation.
pub(crate) fn place_in(word: &str, substations: usize) -> Option<Place>
    ensures { result ≡ place_named substations word.now }
{
    match word {
        "centre" => Some(Place::Centre(0)),
        "centre2" => Some(Place::Centre(1)),
        "concentrator" => Some(Place::Concentrator),
        _ => Some(Place::Substation(substation_in(word, substations)?)),
    }
}

/// An end of a link.
pub(crate) fn end_in(word: &str) -> Option<End>
    ensures { result ≡ end_named word.now }
{
    match word {
        "master" => Some(End::Master),
        "outstation" => Some(End::Outstation),
        _ => None,
    }
}

/// A way of a link.
pub(crate) fn way_in(word: &str) -> Option<Way>
    ensures { result ≡ way_named word.now }
{
    match word {
        "down" => Some(Way::Down),
        "up" => Some(Way::Up),
        _ => None,
    }
}

/// A kind of points.
pub(crate) fn kind_in(word: &str) -> Option<Kind>
    ensures { result ≡ kind_named word.now }
{
    match word {
        "binary" => Some(Kind::Binary),
        "counter" => Some(Kind::Counter),
        "analog" => Some(Kind::Analog),
        _ => None,
    }
}

/// Whether the digit stands in the word, or none where it stands there twice or more.
fn once_in(word: &[u8], digit: u8) -> Option<bool>
    ensures { result ≡ once word.now digit }
{
    match word.iter().filter(|character| **character == digit).count() {
        0 => Some(false),
        1 => Some(true),
        _ => None,
    }
}

/// Whether each character is the digit of a class.
fn are_class_digits(word: &[u8]) -> bool
    ensures { result ≡ list_all is_class_digit word.now }
{
    word.iter()
        .all(|character| b'0' <= *character && *character <= b'3')
}

/// Classes: their digits, 0 to 3, each once at most.
pub(crate) fn classes_in(word: &str) -> Option<Classes>
    ensures { result ≡ classes_named word.now }
{
    let digits = word.as_bytes();
    if digits.is_empty() || !are_class_digits(digits) {
        return None;
    }
    Some(Classes([
        once_in(digits, b'0')?,
        once_in(digits, b'1')?,
        once_in(digits, b'2')?,
        once_in(digits, b'3')?,
    ]))
}

/// Flags: two hexadecimal digits of either case.
pub(crate) fn flags_in(word: &str) -> Option<u8>
    ensures { result ≡ flags_named word.now }
{
    match word.as_bytes() {
        [high, low] => octet_of(*high, *low),
        _ => None,
    }
}

/// A time in milliseconds, or `-` for none.
pub(crate) fn time_in(word: &str) -> Option<Option<u64>>
    ensures { result ≡ time_named word.now }
{
    if word == "-" {
        return Some(None);
    }
    Some(Some(number_in(word)?))
}

/// Octets: two hexadecimal digits of either case for each, one octet at least and [`MAX_UNIT`] at most.
pub(crate) fn octets_in(word: &str) -> Option<ArrayVec<u8, MAX_UNIT>>
    ensures { option_map (λ octets. octets.items) result ≡ octets_named word.now }
{
    let digits = word.as_bytes();
    if digits.is_empty() || digits.len() > 2 * MAX_UNIT {
        return None;
    }
    let mut octets = ArrayVec::new();
    let mut rest = digits;
    while let [high, low, more @ ..] = rest {
        octets.push(octet_of(*high, *low)?);
        rest = more;
    }
    if rest.is_empty() { Some(octets) } else { None }
}
