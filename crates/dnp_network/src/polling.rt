//! How a link is polled: which classes, when the time is written, how often anything is asked, and how long it may take.

ghost use Rattle.std.specs.Prelude.{◌≡◌};
ghost use Rattle.toml.specs.View.{view};
ghost use Rattle.dnp_network.specs.Polling as spec;

use crate::keys::{Taken, unknown_fault};
use crate::place::{MsRange, NetworkKey, NetworkPlace, Part, Stands, place};
use crate::polling_values::{
    ClassSet, NEVER_MS, TimeWriting, classes, classes_at, keepalive_range, ms_at, period_at,
    time_at,
};
use toml::Value;

/// How long a whole response may take at most.
pub(crate) const MAX_POLL_MS: u64 = 36_000_000;

/// How a link is polled. Times are in milliseconds. A period of [`NEVER_MS`] never ends.
#[derive(Clone, Copy, Debug, PartialEq, Eq)]
pub struct Polling {
    /// The classes of an integrity poll.
    pub poll: ClassSet,
    /// The classes of an event poll.
    pub events: ClassSet,
    /// The classes whose unsolicited responses are enabled.
    pub unsolicited: ClassSet,
    /// Whether the time is written if the station needs it.
    pub writes_time: bool,
    /// How often the time is written besides.
    pub time_ms: u64,
    /// How often events are polled.
    pub events_ms: u64,
    /// How often events and present values are polled.
    pub integrity_ms: u64,
    /// After how long a silence events are polled.
    pub keepalive_ms: u64,
    /// How long a fragment of a response may take.
    pub response_ms: u64,
    /// How long a whole response may take.
    pub poll_ms: u64,
}

/// What a table says of polling: nothing of a key that it lacks.
#[derive(Clone, Copy, Debug)]
pub(crate) struct PollingKeys {
    /// `poll`
    pub poll: Option<ClassSet>,
    /// `events`
    pub events: Option<ClassSet>,
    /// `unsolicited`
    pub unsolicited: Option<ClassSet>,
    /// `time`
    pub time: Option<TimeWriting>,
    /// `events_ms`
    pub events_ms: Option<u64>,
    /// `integrity_ms`
    pub integrity_ms: Option<u64>,
    /// `keepalive_ms`
    pub keepalive_ms: Option<u64>,
    /// `response_ms`
    pub response_ms: Option<u64>,
    /// `poll_ms`
    pub poll_ms: Option<u64>,
}

/// What stands for a key that a table lacks.
#[derive(Clone, Copy, Debug)]
pub(crate) struct Below {
    /// How long a fragment of a response may take by the plan.
    pub plan_ms: u64,
    /// What the table for all says.
    pub keys: PollingKeys,
}

/// What the tables say that are not of one substation.
#[derive(Clone, Copy, Debug)]
pub(crate) struct PollingTables {
    /// What stands below the table of each substation.
    pub below: Below,
    /// How the concentrator is polled by each centre.
    pub centre: Polling,
}

/// Where a time for a whole response is below that for a fragment of it.
fn short_fault(part: Part, response_ms: u64, poll_ms: Option<u64>) -> Option<NetworkPlace>
    ensures { result ≡ spec.short_fault part response_ms poll_ms }
{
    match poll_ms {
        Some(poll_ms) if poll_ms < response_ms => Some(place(
            part,
            NetworkKey::PollMs,
            Stands::Short(poll_ms, response_ms),
        )),
        _ => None,
    }
}

/// How long a whole response may take, if a fragment of it may take so many milliseconds.
fn usual_poll_ms(response_ms: u64) -> u64
    ensures { result ≡ spec.usual_poll_ms response_ms }
{
    if response_ms < MAX_POLL_MS / 10 {
        10 * response_ms
    } else {
        MAX_POLL_MS
    }
}

/// How often events are polled, if unsolicited responses of these classes bring them.
fn usual_events_ms(unsolicited: ClassSet) -> u64
    ensures { result ≡ spec.usual_events_ms unsolicited }
{
    if unsolicited.is_without_events() {
        2_000
    } else {
        NEVER_MS
    }
}

impl PollingKeys {
    ghost use Rattle.std.specs.Prelude.{◌≡◌};
    ghost use Rattle.dnp_network.specs.Polling.{over, polling_of, no_keys};

    /// A table without a key.
    pub(crate) const NONE: PollingKeys = PollingKeys {
        poll: None,
        events: None,
        unsolicited: None,
        time: None,
        events_ms: None,
        integrity_ms: None,
        keepalive_ms: None,
        response_ms: None,
        poll_ms: None,
    };

    /// These keys, and those of another table that these lack.
    #[tactic(auto, unfolding(crate::specs::Polling::over))]
    fn over(&self, below: &PollingKeys) -> PollingKeys
        ensures { result ≡ over self.now below.now }
    {
        PollingKeys {
            poll: self.poll.or(below.poll),
            events: self.events.or(below.events),
            unsolicited: self.unsolicited.or(below.unsolicited),
            time: self.time.or(below.time),
            events_ms: self.events_ms.or(below.events_ms),
            integrity_ms: self.integrity_ms.or(below.integrity_ms),
            keepalive_ms: self.keepalive_ms.or(below.keepalive_ms),
            response_ms: self.response_ms.or(below.response_ms),
            poll_ms: self.poll_ms.or(below.poll_ms),
        }
    }

    /// How a link is polled by these keys, where a fragment of a response may take so many milliseconds by the plan.
    #[tactic(auto, unfolding(crate::specs::Polling::polling_of))]
    fn polling(&self, plan_ms: u64) -> Polling
        ensures { result ≡ polling_of plan_ms self.now }
    {
        let unsolicited = self
            .unsolicited
            .unwrap_or(classes(false, false, false, false));
        let time = self.time.unwrap_or(TimeWriting {
            on_need: true,
            every_ms: NEVER_MS,
        });
        let response_ms = self.response_ms.unwrap_or(plan_ms);
        Polling {
            poll: self.poll.unwrap_or(classes(true, true, true, true)),
            events: self.events.unwrap_or(classes(false, true, true, true)),
            unsolicited,
            writes_time: time.on_need,
            time_ms: time.every_ms,
            events_ms: self.events_ms.unwrap_or(usual_events_ms(unsolicited)),
            integrity_ms: self.integrity_ms.unwrap_or(3_600_000),
            keepalive_ms: self.keepalive_ms.unwrap_or(30_000),
            response_ms,
            poll_ms: self.poll_ms.unwrap_or(usual_poll_ms(response_ms)),
        }
    }
}

impl Below {
    ghost use Rattle.std.specs.Prelude.{◌≡◌};
    ghost use Rattle.dnp_network.specs.Polling.{response_over};

    /// How long a fragment of a response may take, if a table over this says so.
    fn response_ms(&self, own: Option<u64>) -> u64
        ensures { result ≡ response_over own self.now }
    {
        own.or(self.keys.response_ms).unwrap_or(self.plan_ms)
    }
}

/// What a table says of polling.
#[tactic(auto, unfolding(crate::specs::Polling::own_under))]
fn own_at(table: &Value, part: Part, below: &Below) -> Taken<PollingKeys>
    ensures { result ≡ spec.own_under below.now part (view table.now) }
{
    let poll = classes_at(table, part, NetworkKey::Poll, b'0', 1)?;
    let events = classes_at(table, part, NetworkKey::Events, b'1', 1)?;
    let unsolicited = classes_at(table, part, NetworkKey::Unsolicited, b'1', 0)?;
    let time = time_at(table, part)?;
    let events_ms = period_at(table, part, NetworkKey::EventsMs)?;
    let integrity_ms = period_at(table, part, NetworkKey::IntegrityMs)?;
    let keepalive_ms = ms_at(table, part, NetworkKey::KeepaliveMs, keepalive_range())?;
    let response_range = MsRange {
        least: 1,
        most: below.plan_ms,
    };
    let response_ms = ms_at(table, part, NetworkKey::ResponseMs, response_range)?;
    let poll_range = MsRange {
        least: below.response_ms(response_ms),
        most: MAX_POLL_MS,
    };
    let poll_ms = ms_at(table, part, NetworkKey::PollMs, poll_range)?;
    Ok(PollingKeys {
        poll,
        events,
        unsolicited,
        time,
        events_ms,
        integrity_ms,
        keepalive_ms,
        response_ms,
        poll_ms,
    })
}

/// What a table says of polling, over what stands below it.
#[tactic(auto, unfolding(crate::specs::Polling::keys_under, crate::specs::Polling::over))]
fn keys_at(table: &Value, part: Part, below: &Below) -> Taken<PollingKeys>
    ensures { result ≡ spec.keys_under below.now part (view table.now) }
{
    let own = own_at(table, part, below)?;
    let response_ms = below.response_ms(own.response_ms);
    match short_fault(part, response_ms, own.poll_ms.or(below.keys.poll_ms)) {
        Some(place) => Err(place),
        None => Ok(own.over(&below.keys)),
    }
}

/// How a link is polled by its table, over what stands below it.
#[tactic(auto, unfolding(crate::specs::Polling::polling_under))]
pub(crate) fn polling_at(table: &Value, part: Part, below: &Below) -> Taken<Polling>
    ensures { result ≡ spec.polling_under below.now part (view table.now) }
{
    match keys_at(table, part, below) {
        Ok(keys) => Ok(keys.polling(below.plan_ms)),
        Err(place) => Err(place),
    }
}

/// What a table of polling alone says, over the usual values.
fn table_of(value: &Value, part: Part, key: NetworkKey, plan_ms: u64) -> Taken<PollingKeys>
    ensures { result ≡ spec.table_as plan_ms part key (view value.now) }
{
    if !value.is_table() {
        return Err(place(Part::Whole, key, Stands::of(value)));
    }
    let below = Below {
        plan_ms,
        keys: PollingKeys::NONE,
    };
    let keys = keys_at(value, part, &below)?;
    match unknown_fault(value, part) {
        Some(place) => Err(place),
        None => Ok(keys),
    }
}

/// What a table of polling alone says, if it is there.
#[tactic(auto, unfolding(crate::specs::Polling::table_under))]
fn table_at(table: &Value, part: Part, key: NetworkKey, plan_ms: u64) -> Taken<PollingKeys>
    ensures { result ≡ spec.table_under plan_ms part key (view table.now) }
{
    match table.get(key.name()) {
        Some(value) => table_of(value, part, key, plan_ms),
        None => Ok(PollingKeys::NONE),
    }
}

/// What the text of a network says of polling beside its substations.
#[tactic(auto, unfolding(crate::specs::Polling::tables_under))]
pub(crate) fn tables_at(table: &Value, plan_ms: u64) -> Taken<PollingTables>
    ensures { result ≡ spec.tables_under plan_ms (view table.now) }
{
    let keys = table_at(table, Part::Defaults, NetworkKey::Defaults, plan_ms)?;
    let centre = table_at(table, Part::Centre, NetworkKey::Centre, plan_ms)?;
    Ok(PollingTables {
        below: Below { plan_ms, keys },
        centre: centre.polling(plan_ms),
    })
}
