//! What stands under the keys of polling: classes, milliseconds and words.

ghost use Rattle.std.specs.Prelude.{◌≡◌};
ghost use Rattle.toml.specs.View.{view};
ghost use Rattle.dnp_network.specs.Polling as spec;

use crate::keys::Taken;
use crate::place::{MsRange, NetworkKey, Part, Stands, place};
use toml::Value;

/// The period of what never comes.
pub const NEVER_MS: u64 = u64::MAX;

/// Classes of points: 0 has the present values, 1 to 3 have events.
#[derive(Clone, Copy, Debug, PartialEq, Eq)]
pub struct ClassSet {
    /// Class 0.
    pub zero: bool,
    /// Class 1.
    pub one: bool,
    /// Class 2.
    pub two: bool,
    /// Class 3.
    pub three: bool,
}

/// When the time is written.
#[derive(Clone, Copy, Debug)]
pub(crate) struct TimeWriting {
    /// Whether it is written if the station needs it.
    pub on_need: bool,
    /// How often it is written besides.
    pub every_ms: u64,
}

/// These classes.
pub(crate) fn classes(zero: bool, one: bool, two: bool, three: bool) -> ClassSet
    ensures { result ≡ spec.classes zero one two three }
{
    ClassSet {
        zero,
        one,
        two,
        three,
    }
}

impl ClassSet {
    ghost use Rattle.std.specs.Prelude.{◌≡◌};
    ghost use Rattle.dnp_network.specs.Polling.{is_empty};

    /// Whether no class of events is one of these.
    pub fn is_without_events(self) -> bool
        ensures { result ≡ is_empty self }
    {
        !(self.one || self.two || self.three)
    }
}

/// How often a digit stands in the text.
fn times(text: &[u8], digit: u8) -> usize
    ensures { result ≡ spec.times digit text.now }
{
    text.iter().filter(|octet| **octet == digit).count()
}

/// Whether a digit stands in the text.
fn has(text: &[u8], digit: u8) -> bool
    ensures { result ≡ spec.has digit text.now }
{
    times(text, digit) != 0
}

/// Whether a digit stands in the text once at most.
fn is_once(text: &[u8], digit: u8) -> bool
    ensures { result ≡ spec.is_once digit text.now }
{
    times(text, digit) <= 1
}

/// Whether each digit of a class stands in the text once at most.
fn are_once(text: &[u8]) -> bool
    ensures { result ≡ spec.are_once text.now }
{
    is_once(text, b'0') && is_once(text, b'1') && is_once(text, b'2') && is_once(text, b'3')
}

/// Whether each octet of the text is the digit of a class from this one on.
fn are_digits(text: &[u8], first: u8) -> bool
    ensures { result ≡ spec.are_digits first text.now }
{
    text.iter().all(|octet| first <= *octet && *octet <= b'3')
}

/// Whether the text has digits of classes from this one on, each once, and so many at least.
fn are_classes(text: &[u8], first: u8, least: usize) -> bool
    ensures { result ≡ spec.are_classes first least text.now }
{
    least <= text.len() && are_digits(text, first) && are_once(text)
}

/// The classes of these digits.
fn classes_in(text: &[u8]) -> ClassSet
    ensures { result ≡ spec.classes_in text.now }
{
    classes(
        has(text, b'0'),
        has(text, b'1'),
        has(text, b'2'),
        has(text, b'3'),
    )
}

/// The classes under a key, if it is there: digits from this one on, and so many at least.
#[tactic(auto, unfolding(crate::specs::Polling::classes_under))]
pub(crate) fn classes_at(
    table: &Value,
    part: Part,
    key: NetworkKey,
    first: u8,
    least: usize,
) -> Taken<Option<ClassSet>>
    ensures { result ≡ spec.classes_under first least part key (view table.now) }
{
    let Some(value) = table.get(key.name()) else {
        return Ok(None);
    };
    let Some(text) = value.as_str() else {
        return Err(place(part, key, Stands::of(value)));
    };
    if are_classes(text.as_bytes(), first, least) {
        Ok(Some(classes_in(text.as_bytes())))
    } else {
        Err(place(part, key, Stands::NoClasses))
    }
}

/// How many milliseconds may pass from one writing of the time to the next.
pub(crate) fn time_range() -> MsRange
    ensures { result ≡ spec.time_range }
{
    MsRange {
        least: 1_000,
        most: 86_400_000,
    }
}

/// How many milliseconds may pass from one poll to the next.
pub(crate) fn period_range() -> MsRange
    ensures { result ≡ spec.period_range }
{
    MsRange {
        least: 100,
        most: 86_400_000,
    }
}

/// How many milliseconds of silence may pass.
pub(crate) fn keepalive_range() -> MsRange
    ensures { result ≡ spec.keepalive_range }
{
    MsRange {
        least: 1_000,
        most: 3_600_000,
    }
}

/// The number as milliseconds, if it is in this range.
fn within_ms(number: i64, range: MsRange) -> Option<u64>
    ensures { result ≡ spec.within_ms range number }
{
    match u64::try_from(number) {
        Ok(ms) if range.least <= ms && ms <= range.most => Some(ms),
        _ => None,
    }
}

/// The milliseconds that a value says.
#[tactic(auto, unfolding(crate::specs::Polling::ms_of))]
fn ms_of(value: &Value, part: Part, key: NetworkKey, range: MsRange) -> Taken<Option<u64>>
    ensures { result ≡ spec.ms_of range part key (view value.now) }
{
    let Some(number) = value.as_integer() else {
        return Err(place(part, key, Stands::of(value)));
    };
    match within_ms(number, range) {
        Some(ms) => Ok(Some(ms)),
        None => Err(place(part, key, Stands::OutOf(number, range))),
    }
}

/// The milliseconds under a key, if it is there.
#[tactic(auto, unfolding(crate::specs::Polling::ms_under))]
pub(crate) fn ms_at(
    table: &Value,
    part: Part,
    key: NetworkKey,
    range: MsRange,
) -> Taken<Option<u64>>
    ensures { result ≡ spec.ms_under range part key (view table.now) }
{
    match table.get(key.name()) {
        Some(value) => ms_of(value, part, key, range),
        None => Ok(None),
    }
}

/// The period under a key, if it is there.
#[tactic(auto, unfolding(crate::specs::Polling::period_under))]
pub(crate) fn period_at(table: &Value, part: Part, key: NetworkKey) -> Taken<Option<u64>>
    ensures { result ≡ spec.period_under part key (view table.now) }
{
    let Some(value) = table.get(key.name()) else {
        return Ok(None);
    };
    match value.as_str() {
        Some("never") => Ok(Some(NEVER_MS)),
        Some(_) => Err(place(part, key, Stands::NoWord)),
        None => ms_of(value, part, key, period_range()),
    }
}

/// When the time is written by this word.
fn time_worded(text: &str, part: Part) -> Taken<Option<TimeWriting>>
    ensures { result ≡ spec.time_worded part text.now }
{
    let on_need = match text {
        "on-need" => true,
        "never" => false,
        _ => return Err(place(part, NetworkKey::Time, Stands::NoWord)),
    };
    Ok(Some(TimeWriting {
        on_need,
        every_ms: NEVER_MS,
    }))
}

/// The time that is written every so many milliseconds, and on need.
fn writing_every(ms: Option<u64>) -> Option<TimeWriting>
    ensures { result ≡ spec.writing_every ms }
{
    match ms {
        Some(every_ms) => Some(TimeWriting {
            on_need: true,
            every_ms,
        }),
        None => None,
    }
}

/// When the time is written, if a table says it.
#[tactic(auto, unfolding(crate::specs::Polling::time_under))]
pub(crate) fn time_at(table: &Value, part: Part) -> Taken<Option<TimeWriting>>
    ensures { result ≡ spec.time_under part (view table.now) }
{
    let Some(value) = table.get("time") else {
        return Ok(None);
    };
    match value.as_str() {
        Some(text) => time_worded(text, part),
        None => match ms_of(value, part, NetworkKey::Time, time_range()) {
            Ok(ms) => Ok(writing_every(ms)),
            Err(place) => Err(place),
        },
    }
}
