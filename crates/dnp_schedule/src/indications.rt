//! Which indications have risen.

ghost use Rattle.std.specs.Prelude.{◌≡◌};
ghost use Rattle.dnp_schedule.specs.Rising as spec;

use dnp_appfragment::Iin;

/// Which indications have risen that a master acts on.
#[derive(Clone, Copy, Debug, PartialEq, Eq)]
pub struct Risen {
    /// DEVICE_RESTART: the device has started again.
    pub restart: bool,
    /// NEED_TIME: its clock needs to be set.
    pub time: bool,
    /// EVENT_BUFFER_OVERFLOW: it lost events.
    pub overflow: bool,
    /// Events wait of a class of which none did.
    pub events: bool,
}

/// Whether each of these is indicated.
fn has(seen: Iin, indications: Iin) -> bool
    ensures { result ≡ spec.has seen indications }
{
    seen.one & indications.one == indications.one && seen.two & indications.two == indications.two
}

/// Whether an indication is there, and was not.
fn rose(before: Option<Iin>, after: Iin, indication: Iin) -> bool
    ensures { result ≡ spec.rose before after indication }
{
    let had = match before {
        Some(seen) => has(seen, indication),
        None => false,
    };
    has(after, indication) && !had
}

/// Whether events wait of a class of which none did.
fn events_rose(before: Option<Iin>, after: Iin) -> bool
    ensures { result ≡ (spec.what_rose before after).events }
{
    rose(before, after, Iin::CLASS_1_EVENTS)
        || rose(before, after, Iin::CLASS_2_EVENTS)
        || rose(before, after, Iin::CLASS_3_EVENTS)
}

/// What has risen from one response to the next. Before the first one of a connection nothing is indicated.
pub fn what_rose(before: Option<Iin>, after: Iin) -> Risen
    ensures { result ≡ spec.what_rose before after }
{
    Risen {
        restart: rose(before, after, Iin::DEVICE_RESTART),
        time: rose(before, after, Iin::NEED_TIME),
        overflow: rose(before, after, Iin::EVENT_BUFFER_OVERFLOW),
        events: events_rose(before, after),
    }
}

/// Whether events of a class wait.
pub(crate) fn has_events(seen: Iin) -> bool
    ensures { result ≡ spec.has_events seen }
{
    has(seen, Iin::CLASS_1_EVENTS)
        || has(seen, Iin::CLASS_2_EVENTS)
        || has(seen, Iin::CLASS_3_EVENTS)
}
