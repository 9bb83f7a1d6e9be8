//! Why a text is no network, and a table no points of a plan, in a sentence each: the texts of this crate's lines, all of them.

use crate::endpoint::EndpointFault;
use crate::kind::{PointCounts, count_of};
use crate::looked::{line_of, shown_at};
use crate::network::NetworkFault;
use crate::place::{MAX_ADDRESS, MsRange, NetworkKey, NetworkPlace, Part, Stands};
use crate::points::{MAX_DIGITS, PointId, PointsFault, RowStands};
use crate::points_reason::PointsReason;
use crate::polling::MAX_POLL_MS;
use crate::polling_values::{keepalive_range, period_range, time_range};
use std::alloc::{AllocError, Global};
use std::fmt;
use std::fmt::{Display, Formatter, Write};

/// The most characters of a text that are repeated.
const SHOWN: usize = 60;

/// A text in quotes, and no more of it than [`SHOWN`] characters.
#[derive(Clone, Copy)]
pub(crate) struct Quoted<'a>(pub &'a str);

impl Display for Quoted<'_> {
    fn fmt<W: Write>(&self, f: &mut Formatter<W>) -> fmt::Result {
        match self.0.char_indices().nth(SHOWN) {
            Some((end, _)) => {
                let shown = self.0.get(..end).unwrap_or("").escape_debug();
                write!(f, "'{shown}' and more")
            }
            None => {
                let shown = self.0.escape_debug();
                write!(f, "'{shown}'")
            }
        }
    }
}

impl Display for MsRange {
    fn fmt<W: Write>(&self, f: &mut Formatter<W>) -> fmt::Result {
        write!(
            f,
            "a whole number of milliseconds from {} to {} belongs",
            self.least, self.most
        )
    }
}

/// Writes what belongs under a key of polling.
fn write_polling<W: Write>(f: &mut Formatter<W>, key: NetworkKey) -> fmt::Result {
    match key {
        NetworkKey::Poll => {
            f.write_str("the digits of classes from 0 to 3 belong, each once, as \"1230\"")
        }
        NetworkKey::Events => {
            f.write_str("the digits of classes from 1 to 3 belong, each once, as \"123\"")
        }
        NetworkKey::Unsolicited => {
            f.write_str("the digits of classes from 1 to 3 belong, each once, or none, as \"\"")
        }
        NetworkKey::Time => write!(f, "\"on-need\", \"never\" or {}", time_range()),
        NetworkKey::EventsMs | NetworkKey::IntegrityMs => {
            write!(f, "\"never\" or {}", period_range())
        }
        NetworkKey::KeepaliveMs => write!(f, "{}", keepalive_range()),
        NetworkKey::ResponseMs => f.write_str(
            "a whole number of milliseconds from 1 to the plan's response_ms belongs",
        ),
        _ => write!(
            f,
            "a whole number of milliseconds from response_ms to {MAX_POLL_MS} belongs"
        ),
    }
}

/// What belongs under a key of a table.
#[derive(Clone, Copy)]
struct Belongs(Part, NetworkKey);

impl Display for Belongs {
    fn fmt<W: Write>(&self, f: &mut Formatter<W>) -> fmt::Result {
        match self.1 {
            NetworkKey::Name => f.write_str("a string with a character or more belongs"),
            NetworkKey::Points => f.write_str("the path of a file belongs, as \"points.csv\""),
            NetworkKey::Concentrator => f.write_str("a table [concentrator] belongs"),
            NetworkKey::Defaults => f.write_str("a table [defaults] belongs"),
            NetworkKey::Centre if matches!(self.0, Part::Whole) => {
                f.write_str("a table [centre] belongs")
            }
            NetworkKey::Substation => {
                f.write_str("a table [[substation]] for each substation of the plan belongs")
            }
            NetworkKey::Address | NetworkKey::Master | NetworkKey::Centre | NetworkKey::Centre2 => {
                write!(f, "a link address from 0 to {MAX_ADDRESS} belongs")
            }
            NetworkKey::At | NetworkKey::At2 | NetworkKey::Listen | NetworkKey::Listen2 =>
                f.write_str(
                    "a host and port belong, as 10.0.0.1:20000, [2001:db8::1]:20000 or name:20000",
                ),
            key => write_polling(f, key),
        }
    }
}

/// What is wrong with a text that says no host and port.
fn ill_of(fault: EndpointFault) -> &'static str {
    match fault {
        EndpointFault::NoPort => "without a port behind the host",
        EndpointFault::Port => "with a port that is no number from 1 to 65535",
        EndpointFault::Bracket => "with a bracket that isn't closed",
        EndpointFault::Address6 => "with no IPv6 address in the brackets",
        EndpointFault::Bare6 => "with more than one colon, and no brackets around an IPv6 address",
        EndpointFault::Address4 => "with digits and dots that are no IPv4 address",
        EndpointFault::Name => "with a host that is neither an address nor a name",
    }
}

/// What stands at a place, by its type.
fn type_of(stands: Stands) -> &'static str {
    match stands {
        Stands::Empty => "an empty string",
        Stands::Whole => "a whole number",
        Stands::Float => "a number that isn't whole",
        Stands::Truth => "true or false",
        Stands::Datetime => "a date or a time",
        Stands::List => "a list",
        Stands::Table => "a table",
        _ => "a string",
    }
}

/// The keys that a part has.
#[derive(Clone, Copy)]
struct KeysOf(Part);

impl Display for KeysOf {
    fn fmt<W: Write>(&self, f: &mut Formatter<W>) -> fmt::Result {
        let keys = self.0.keys();
        for (place, key) in keys.iter().enumerate() {
            if place > 0 && place == keys.len().saturating_sub(1) {
                f.write_str(" and ")?;
            } else if place > 0 {
                f.write_str(", ")?;
            }
            f.write_str(key.name())?;
        }
        Ok(())
    }
}

/// Writes the table that a place is in, where it isn't that of the whole network.
fn write_part<W: Write>(f: &mut Formatter<W>, part: Part) -> fmt::Result {
    match part {
        Part::Whole => Ok(()),
        Part::Defaults => f.write_str("defaults, "),
        Part::Centre => f.write_str("centre, "),
        Part::Concentrator => f.write_str("concentrator, "),
        Part::Substation(number) => write!(f, "substation {number}, "),
    }
}

/// Writes what stands under a key that may not stand there too.
fn write_repeated<W: Write>(f: &mut Formatter<W>, place: &NetworkPlace, text: &str) -> fmt::Result {
    let name = place.key.name();
    let whose = match place.key {
        NetworkKey::Name => "a name of its own belongs",
        _ => "a host and port of its own belong",
    };
    match place.stands {
        Stands::Twice(number) => write!(
            f,
            "{name}: {}, which substation {number} has too, where {whose}",
            Quoted(text)
        ),
        Stands::As(first) => write!(
            f,
            "{name}: {}, which stands under {} too, where {whose}",
            Quoted(text),
            first.name()
        ),
        _ => Ok(()),
    }
}

/// Writes which number of milliseconds stands under a key, and which belongs there.
fn write_ms<W: Write>(
    f: &mut Formatter<W>,
    place: &NetworkPlace,
    number: i64,
    range: MsRange,
) -> fmt::Result {
    let name = place.key.name();
    let (least, most) = (range.least, range.most);
    match place.key {
        NetworkKey::ResponseMs => write!(
            f,
            "{name}: {number}, where a whole number of milliseconds from {least} to {most}, the plan's response_ms, belongs"
        ),
        NetworkKey::PollMs => write!(
            f,
            "{name}: {number}, where a whole number of milliseconds from {least}, its response_ms, to {most} belongs"
        ),
        key => write!(f, "{name}: {number}, where {}", Belongs(place.part, key)),
    }
}

/// Writes the key of a place, what stands there, and what belongs there.
fn write_place<W: Write>(f: &mut Formatter<W>, place: &NetworkPlace, text: &str) -> fmt::Result {
    if let (Part::Substation(number), NetworkKey::Substation) = (place.part, place.key) {
        let found = type_of(place.stands);
        return write!(f, "substation {number}: {found}, where a table belongs");
    }
    write_part(f, place.part)?;
    let name = place.key.name();
    let wanted = Belongs(place.part, place.key);
    match place.stands {
        Stands::Unknown => write!(
            f,
            "unknown key {}, where {} are known",
            Quoted(text),
            KeysOf(place.part)
        ),
        Stands::Missing => write!(f, "{name} is missing, where {wanted}"),
        Stands::Count(count, planned) => write!(
            f,
            "{name}: {count} in this file, where the plan has {planned}"
        ),
        Stands::Number(number) => write!(f, "{name}: {number}, where {wanted}"),
        Stands::Own(number) => write!(
            f,
            "{name}: {number}, which is the station's own address, where another one belongs"
        ),
        Stands::NoEndpoint(fault) => {
            write!(
                f,
                "{name}: {} {}, where {wanted}",
                Quoted(text),
                ill_of(fault)
            )
        }
        Stands::Twice(_) | Stands::As(_) => write_repeated(f, place, text),
        Stands::Alone => write!(
            f,
            "{name}: of a second centre, where listen2 is missing, at which it is served"
        ),
        Stands::NoClasses | Stands::NoWord => {
            write!(f, "{name}: {}, where {wanted}", Quoted(text))
        }
        Stands::OutOf(number, range) => write_ms(f, place, number, range),
        Stands::Short(poll_ms, response_ms) => write!(
            f,
            "{name}: {poll_ms} from [defaults], where {response_ms} or more belongs, its response_ms"
        ),
        stands => write!(f, "{name}: {}, where {wanted}", type_of(stands)),
    }
}

/// Why a text says no network, and where.
#[derive(Debug, Drop)]
pub struct NetworkReason {
    /// The fault.
    pub fault: NetworkFault,
    /// The line that it is in, counted from 1, where that is known.
    pub line: Option<usize>,
    /// The text that stands there, where it is one.
    pub text: String,
}

impl Display for NetworkReason {
    /// The line, the key, what stands there, and what belongs there.
    fn fmt<W: Write>(&self, f: &mut Formatter<W>) -> fmt::Result {
        if let Some(line) = self.line {
            write!(f, "line {line}: ")?;
        }
        match &self.fault {
            NetworkFault::Syntax => f.write_str("the network is no TOML"),
            NetworkFault::Wrong(place) => write_place(f, place, self.text.as_str()),
            NetworkFault::Memory => f.write_str("out of memory"),
        }
    }
}

/// What is said of a text that is refused for this fault.
pub fn network_reason(
    alloc: Global,
    text: &str,
    fault: NetworkFault,
) -> Result<NetworkReason, AllocError> {
    Ok(NetworkReason {
        fault,
        line: line_of(alloc, text, fault)?,
        text: shown_at(alloc, text, fault)?,
    })
}

/// Writes which point the plan lacks, and what it has.
fn write_no_point<W: Write>(
    f: &mut Formatter<W>,
    counts: &[PointCounts],
    point: PointId,
) -> fmt::Result {
    let kind = point.kind.name();
    let (substation, index) = (point.substation, point.index);
    let substations = counts.len();
    if substation >= substations {
        return write!(
            f,
            "substation: {substation}, where the plan has {substations}, counted from 0"
        );
    }
    let count = count_of(counts, substation, point.kind);
    write!(
        f,
        "index: {kind} {index} of substation {substation}, which has {count} of that kind, counted from 0"
    )
}

/// Writes what is wrong with a record.
fn write_row<W: Write>(
    f: &mut Formatter<W>,
    reason: &PointsReason<'_>,
    number: usize,
    stands: RowStands,
) -> fmt::Result {
    match stands {
        RowStands::Cells(count) => write!(f, "a record of {count} fields, where 8 belong"),
        RowStands::Substation => write!(
            f,
            "substation: {}, where the number of a substation belongs",
            reason.field(number, 0)
        ),
        RowStands::Kind => write!(
            f,
            "kind: {}, where binary, counter, analog, output or setpoint belongs",
            reason.field(number, 1)
        ),
        RowStands::Index => write!(
            f,
            "index: {}, where an index from 0 to 65535 belongs",
            reason.field(number, 2)
        ),
        RowStands::NoPoint(point) => write_no_point(f, reason.counts, point),
        RowStands::NoName => f.write_str("name is empty, where the name of the point belongs"),
        RowStands::Scale => write!(
            f,
            "scale: {}, where a decimal of at most {MAX_DIGITS} digits belongs, or nothing",
            reason.field(number, 5)
        ),
        RowStands::States => f.write_str(
            "zero, one: words for two states, which binaries and outputs alone have",
        ),
        RowStands::Twice(first) => { write!(f, "the same point as in line {}", reason.line(first)) }
    }
}

impl Display for PointsReason<'_> {
    /// The line, the field, what stands there, and what belongs there.
    fn fmt<W: Write>(&self, f: &mut Formatter<W>) -> fmt::Result {
        match self.fault {
            PointsFault::Head => f.write_str(
                "line 1: another head than substation,kind,index,name,unit,scale,zero,one",
            ),
            PointsFault::Row(number, stands) => {
                write!(f, "line {}: ", self.line(number))?;
                write_row(f, self, number, stands)
            }
        }
    }
}
