//! A place of a network's text, and what stands there.

ghost use Rattle.std.specs.Prelude.{◌≡◌};
ghost use Rattle.dnp_network.specs.Keys as spec;
ghost use Rattle.toml.specs.View.{view};

use crate::endpoint::EndpointFault;
use toml::Value;

/// The highest link address that a station may have (IEEE Std 1815-2012, data link layer: those above it are reserved).
pub(crate) const MAX_ADDRESS: u16 = 65_519;

/// The most substations of a plan that a network is read for: up to it the usual link address of each is one that a station
/// may have.
pub const MAX_SITES: usize = 65_000;

/// Which table of the text a key stands in.
#[derive(Clone, Copy, Debug)]
pub enum Part {
    /// That of the whole network.
    Whole,
    /// `defaults`: how the link to each substation is polled.
    Defaults,
    /// `centre`: how the links to the concentrator are polled.
    Centre,
    /// `concentrator`
    Concentrator,
    /// The `substation` with this number, from 0.
    Substation(usize),
}

/// The keys that tell how a link is polled.
const POLLING_KEYS: &[NetworkKey] = &[
    NetworkKey::Poll,
    NetworkKey::Events,
    NetworkKey::Unsolicited,
    NetworkKey::Time,
    NetworkKey::EventsMs,
    NetworkKey::IntegrityMs,
    NetworkKey::KeepaliveMs,
    NetworkKey::ResponseMs,
    NetworkKey::PollMs,
];

impl Part {
    ghost use Rattle.std.specs.Prelude.{◌≡◌};
    ghost use Rattle.dnp_network.specs.Keys.{keys_of};

    /// The keys that the table has.
    pub(crate) fn keys(self) -> &'static [NetworkKey]
        ensures { result.now ≡ keys_of self }
    {
        match self {
            Part::Whole => &[
                NetworkKey::Name,
                NetworkKey::Points,
                NetworkKey::Defaults,
                NetworkKey::Centre,
                NetworkKey::Concentrator,
                NetworkKey::Substation,
            ],
            Part::Defaults | Part::Centre => POLLING_KEYS,
            Part::Concentrator => &[
                NetworkKey::Listen,
                NetworkKey::Listen2,
                NetworkKey::At,
                NetworkKey::At2,
                NetworkKey::Address,
                NetworkKey::Centre,
                NetworkKey::Centre2,
            ],
            Part::Substation(_) => &[
                NetworkKey::At,
                NetworkKey::Name,
                NetworkKey::Listen,
                NetworkKey::Address,
                NetworkKey::Master,
                NetworkKey::Poll,
                NetworkKey::Events,
                NetworkKey::Unsolicited,
                NetworkKey::Time,
                NetworkKey::EventsMs,
                NetworkKey::IntegrityMs,
                NetworkKey::KeepaliveMs,
                NetworkKey::ResponseMs,
                NetworkKey::PollMs,
            ],
        }
    }
}

/// A key of a network's text.
#[derive(Clone, Copy, Debug)]
pub enum NetworkKey {
    /// `name`
    Name,
    /// `points`
    Points,
    /// `defaults`
    Defaults,
    /// `concentrator`
    Concentrator,
    /// `substation`
    Substation,
    /// `at`
    At,
    /// `at2`
    At2,
    /// `listen`
    Listen,
    /// `listen2`
    Listen2,
    /// `address`
    Address,
    /// `master`
    Master,
    /// `centre`
    Centre,
    /// `centre2`
    Centre2,
    /// `poll`
    Poll,
    /// `events`
    Events,
    /// `unsolicited`
    Unsolicited,
    /// `time`
    Time,
    /// `events_ms`
    EventsMs,
    /// `integrity_ms`
    IntegrityMs,
    /// `keepalive_ms`
    KeepaliveMs,
    /// `response_ms`
    ResponseMs,
    /// `poll_ms`
    PollMs,
    /// A key that no network has there.
    Unknown,
}

impl NetworkKey {
    /// The key as the text has it; a key that no network has is an empty one here.
    pub(crate) fn name(self) -> &'static str
        ensures { result.now ≡ spec.name_of self }
    {
        match self {
            NetworkKey::Name => "name",
            NetworkKey::Points => "points",
            NetworkKey::Defaults => "defaults",
            NetworkKey::Concentrator => "concentrator",
            NetworkKey::Substation => "substation",
            NetworkKey::At => "at",
            NetworkKey::At2 => "at2",
            NetworkKey::Listen => "listen",
            NetworkKey::Listen2 => "listen2",
            NetworkKey::Address => "address",
            NetworkKey::Master => "master",
            NetworkKey::Centre => "centre",
            NetworkKey::Centre2 => "centre2",
            NetworkKey::Poll => "poll",
            NetworkKey::Events => "events",
            NetworkKey::Unsolicited => "unsolicited",
            NetworkKey::Time => "time",
            NetworkKey::EventsMs => "events_ms",
            NetworkKey::IntegrityMs => "integrity_ms",
            NetworkKey::KeepaliveMs => "keepalive_ms",
            NetworkKey::ResponseMs => "response_ms",
            NetworkKey::PollMs => "poll_ms",
            NetworkKey::Unknown => "",
        }
    }
}

/// From how many milliseconds to how many a number may be.
#[derive(Clone, Copy, Debug, PartialEq, Eq)]
pub struct MsRange {
    /// The least.
    pub least: u64,
    /// The most.
    pub most: u64,
}

/// What stands at a place, or what is wrong with it.
#[derive(Clone, Copy, Debug)]
pub enum Stands {
    /// Nothing.
    Missing,
    /// A key that no network has there.
    Unknown,
    /// A string.
    Text,
    /// A string without a character.
    Empty,
    /// A whole number that isn't looked at.
    Whole,
    /// A number with a point or an exponent.
    Float,
    /// `true` or `false`.
    Truth,
    /// A date or a time.
    Datetime,
    /// A list.
    List,
    /// A table.
    Table,
    /// So many substations, where the plan has so many.
    Count(usize, usize),
    /// This number, which is no link address.
    Number(i64),
    /// This link address, which is the station's own.
    Own(u16),
    /// A string that says no host and port.
    NoEndpoint(EndpointFault),
    /// What the substation with this number has.
    Twice(usize),
    /// What the concentrator has under this key.
    As(NetworkKey),
    /// Something of a second centre, where the text has none.
    Alone,
    /// A string that says no classes.
    NoClasses,
    /// A string that is none of the words that may stand there.
    NoWord,
    /// This number of milliseconds, which is out of this range.
    OutOf(i64, MsRange),
    /// So many milliseconds for a whole response, by the table for all, where a fragment of it may take so many.
    Short(u64, u64),
}

impl Stands {
    /// The type of a value.
    pub(crate) fn of(value: &Value) -> Stands
        ensures { result ≡ spec.type_found (view value.now) }
    {
        match value {
            Value::String(_) => Stands::Text,
            Value::Integer(_) => Stands::Whole,
            Value::Float(_) => Stands::Float,
            Value::Boolean(_) => Stands::Truth,
            Value::Datetime(_) => Stands::Datetime,
            Value::Array(_) => Stands::List,
            Value::Table(_) => Stands::Table,
        }
    }
}

/// A place of a network's text, and what stands there.
#[derive(Clone, Copy, Debug)]
pub struct NetworkPlace {
    /// The table.
    pub part: Part,
    /// The key.
    pub key: NetworkKey,
    /// What stands there.
    pub stands: Stands,
}

/// A place of a network's text where this stands.
pub(crate) fn place(part: Part, key: NetworkKey, stands: Stands) -> NetworkPlace
    ensures { result ≡ spec.place part key stands }
{
    NetworkPlace { part, key, stands }
}
