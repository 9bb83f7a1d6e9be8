//! Why a text is no plan, in a sentence: the texts of this crate's lines, all of them.

use crate::plan_text::PlanTextFault;
use crate::plan_text::place::{Found, PlanKey, PlanPlace};
use crate::plan_text::reason::PlanFault;
use dnp_concentrator::{INDEX_KINDS, MAX_RETRIES, MAX_SUBSTATIONS, MAX_TIMER_MS, Span};
use dnp_controls::MAX_OUTPUTS;
use dnp_eventbuf::MAX_CAPACITY;
use dnp_objects::{CLASSES, LANES};
use dnp_pointdb::MAX_POINTS;
use std::error::Error;
use std::fmt;
use std::fmt::{Display, Formatter, Write};

/// The most characters of a key that are repeated.
const SHOWN: usize = 40;

impl Error for PlanTextFault {}

impl Display for PlanTextFault {
    fn fmt<W: Write>(&self, f: &mut Formatter<W>) -> fmt::Result {
        f.write_str(match self {
            PlanTextFault::Syntax => "the plan is no TOML",
            PlanTextFault::Field => {
                "a key of the plan is missing, unknown or of another type or length"
            }
            PlanTextFault::Range => "a number of the plan is outside its range",
            PlanTextFault::Class => "a class of the plan is over 3",
            PlanTextFault::TooWide => "an index above would be over 65,535",
            PlanTextFault::Overlap => "two substations would share an index above",
            PlanTextFault::Memory => "out of memory",
        })
    }
}

/// The number or the item that belongs under a key, or in its list.
#[derive(Clone, Copy)]
struct OneOf(PlanKey);

impl Display for OneOf {
    fn fmt<W: Write>(&self, f: &mut Formatter<W>) -> fmt::Result {
        match self.0 {
            PlanKey::Unsolicited => f.write_str("true or false"),
            PlanKey::Retries => write!(f, "a whole number from 0 to {MAX_RETRIES}"),
            PlanKey::Queue | PlanKey::Queue2 | PlanKey::Lanes => {
                write!(f, "a whole number from 1 to {MAX_CAPACITY}")
            }
            PlanKey::Binary | PlanKey::Counter | PlanKey::Analog => {
                write!(f, "a class from 0 to {CLASSES}")
            }
            PlanKey::Deadband => write!(f, "a whole number from 0 to {}", u32::MAX),
            PlanKey::Outputs | PlanKey::Setpoints => {
                write!(f, "a whole number from 0 to {MAX_OUTPUTS}")
            }
            PlanKey::Base => write!(f, "a whole number from 0 to {}", u16::MAX),
            PlanKey::Substation | PlanKey::Unknown => f.write_str("a table"),
            _ => write!(f, "a whole number from 1 to {MAX_TIMER_MS}"),
        }
    }
}

/// The whole value that belongs under a key.
#[derive(Clone, Copy)]
struct WholeOf(PlanKey);

impl Display for WholeOf {
    fn fmt<W: Write>(&self, f: &mut Formatter<W>) -> fmt::Result {
        match self.0 {
            PlanKey::Substation => write!(f, "a list of 1 to {MAX_SUBSTATIONS} tables"),
            PlanKey::Queue | PlanKey::Queue2 | PlanKey::Lanes => write!(
                f,
                "a list of {LANES} whole numbers"
            ),
            PlanKey::Binary | PlanKey::Counter | PlanKey::Analog => {
                write!(f, "a list of at most {MAX_POINTS} classes")
            }
            PlanKey::Deadband => f.write_str("a list of one whole number for each item of analog"),
            PlanKey::Base => write!(f, "a list of {INDEX_KINDS} whole numbers"),
            key => write!(f, "{}", OneOf(key)),
        }
    }
}

impl Display for Found {
    fn fmt<W: Write>(&self, f: &mut Formatter<W>) -> fmt::Result {
        match *self {
            Found::Missing => f.write_str("missing"),
            Found::Unknown => f.write_str("unknown"),
            Found::Text => f.write_str("a string"),
            Found::Whole => f.write_str("a whole number"),
            Found::Float => f.write_str("a number that isn't whole"),
            Found::Truth => f.write_str("true or false"),
            Found::Datetime => f.write_str("a date or a time"),
            Found::List => f.write_str("a list"),
            Found::Table => f.write_str("a table"),
            Found::Count(count) => write!(f, "a list of {count}"),
            Found::Number(number) => write!(f, "{number}"),
            Found::Indices(span) => write!(f, "{}", span.base),
            Found::Shared(other) => write!(f, "a base that meets substation {other}"),
        }
    }
}

/// A key that no plan has, in quotes, and no more of it than [`SHOWN`] characters.
#[derive(Clone, Copy)]
struct Quoted<'a>(&'a str);

impl Display for Quoted<'_> {
    fn fmt<W: Write>(&self, f: &mut Formatter<W>) -> fmt::Result {
        let key = self.0;
        match key.char_indices().nth(SHOWN) {
            Some((end, _)) => {
                let shown = key.get(..end).unwrap_or("").escape_debug();
                write!(f, "'{shown}' and more")
            }
            None => {
                let shown = key.escape_debug();
                write!(f, "'{shown}'")
            }
        }
    }
}

/// What an item of a list of bases is the base of.
fn kind_of(item: Option<usize>) -> &'static str {
    match item {
        Some(0) => "binary inputs",
        Some(1) => "counters",
        Some(2) => "analog inputs",
        Some(3) => "binary outputs",
        _ => "setpoints",
    }
}

/// Writes which indices above end over the highest.
fn write_wide<W: Write>(f: &mut Formatter<W>, place: &PlanPlace, span: Span) -> fmt::Result {
    let number = place.item.unwrap_or(0).saturating_add(1);
    let kind = kind_of(place.item);
    let base = span.base;
    let count = span.count;
    let last = usize::from(base).saturating_add(count).saturating_sub(1);
    write!(
        f,
        "base: item {number} is {base}, so the last of its {count} {kind} is {last} above, where {} is the highest",
        u16::MAX
    )
}

/// Writes which indices above another substation has too.
fn write_shared<W: Write>(f: &mut Formatter<W>, place: &PlanPlace, other: usize) -> fmt::Result {
    let number = place.item.unwrap_or(0).saturating_add(1);
    let kind = kind_of(place.item);
    write!(
        f,
        "base: by item {number} its {kind} share an index above with those of substation {other}"
    )
}

/// Writes how a key is added that plans for one centre didn't have.
fn write_how_to_add<W: Write>(f: &mut Formatter<W>, key: PlanKey) -> fmt::Result {
    match key {
        PlanKey::Queue2 => f.write_str(
            ": it has the same form as queue, for the second centre; to add it, write the line of queue once more, as queue2 = [..]",
        ),
        _ => Ok(()),
    }
}

/// Writes the key or the item, what stands there, and what belongs there.
fn write_place<W: Write>(f: &mut Formatter<W>, place: &PlanPlace, unknown: &str) -> fmt::Result {
    if let Some(number) = place.substation {
        write!(f, "substation {number}, ")?;
    }
    let name = place.key.name();
    let found = place.found;
    match (found, place.item) {
        (Found::Unknown, _) => write!(f, "unknown key {}", Quoted(unknown)),
        (Found::Missing, _) => {
            write!(f, "{name} is missing")?;
            write_how_to_add(f, place.key)
        }
        (Found::Indices(span), _) => write_wide(f, place, span),
        (Found::Shared(other), _) => write_shared(f, place, other),
        (_, Some(item)) => {
            let number = item.saturating_add(1);
            let wanted = OneOf(place.key);
            write!(
                f,
                "{name}: item {number} is {found}, where {wanted} belongs"
            )
        }
        (_, None) => {
            let wanted = WholeOf(place.key);
            write!(f, "{name}: {found}, where {wanted} belongs")
        }
    }
}

impl Display for PlanFault {
    /// The key, its substation, counted from 0, and its item, counted from 1, what stands there, and what belongs there;
    /// or the cause alone, with its line if the text is no TOML.
    fn fmt<W: Write>(&self, f: &mut Formatter<W>) -> fmt::Result {
        if let Some(line) = self.line {
            write!(f, "line {line}: ")?;
        }
        match &self.place {
            Some(place) => write_place(f, place, self.unknown.as_str()),
            None => write!(f, "{}", self.cause),
        }
    }
}
