//! The state of a link, as its schedule sees it.

ghost use Rattle.std.specs.Prelude.{◌≡◌};
ghost use Rattle.dnp_schedule.specs.Deciding.{is_connected};
ghost use Rattle.dnp_schedule.specs.Moving.{unconnected};

use crate::task_kind::TaskKind;
use dnp_appfragment::Iin;

/// How far a link is. Moments are in milliseconds.
#[derive(Clone, Copy, Debug, PartialEq, Eq)]
pub enum Phase {
    /// It rests until this moment, and then connects.
    Resting(u64),
    /// It connects, and gives up at this moment.
    Connecting(u64),
    /// It is connected, and asks what belongs to a start.
    Starting,
    /// The start is over.
    Running,
}

/// What is owed on a link: a reason for it came, and it was not asked since.
#[derive(Clone, Copy, Debug, PartialEq, Eq)]
pub struct Owed {
    /// Unsolicited responses are to be disabled.
    pub disable: bool,
    /// An integrity poll.
    pub integrity: bool,
    /// DEVICE_RESTART is to be cleared.
    pub clear: bool,
    /// The time is to be written.
    pub time: bool,
    /// Unsolicited responses are to be enabled.
    pub enable: bool,
    /// A control may wait.
    pub control: bool,
    /// Events wait at the station.
    pub events: bool,
}

/// A request whose response has not come to its end.
#[derive(Clone, Copy, Debug, PartialEq, Eq)]
pub struct Awaited {
    /// What was asked.
    pub task: TaskKind,
    /// The moment by which the response has to end.
    pub until: u64,
    /// How many event rows came with it so far.
    pub rows: usize,
}

/// The last request of a connection.
#[derive(Clone, Copy, Debug, PartialEq, Eq)]
pub struct LastRequest {
    /// What it asked.
    pub task: TaskKind,
    /// Its sequence number.
    pub sequence: u8,
}

/// The state of a link, as its schedule sees it. Moments are in milliseconds.
#[derive(Clone, Copy, Debug, PartialEq, Eq)]
pub struct Schedule {
    /// How far it is.
    pub phase: Phase,
    /// How often it was lost since its last start was over.
    pub losses: u8,
    /// What is owed.
    pub owed: Owed,
    /// The request whose response is awaited.
    pub awaited: Option<Awaited>,
    /// The indications that came last on this connection.
    pub seen: Option<Iin>,
    /// When the next event poll is due.
    pub events_at: u64,
    /// When the next integrity poll is due.
    pub integrity_at: u64,
    /// When the time is to be written next.
    pub time_at: u64,
    /// When the link has been silent for too long.
    pub silent_at: u64,
    /// Before this moment no indication brings an event poll.
    pub pause_until: u64,
    /// The sequence number of the next request.
    pub sequence: u8,
    /// The connection's last request.
    pub last: Option<LastRequest>,
    /// Whether a control is in progress. Nothing else is asked then, because it would undo the select.
    pub in_control: bool,
    /// Whether a control was finished since the last poll.
    pub had_control: bool,
}

impl Owed {
    /// Nothing is owed.
    pub const NOTHING: Owed = Owed {
        disable: false,
        integrity: false,
        clear: false,
        time: false,
        enable: false,
        control: false,
        events: false,
    };
}

impl Schedule {
    /// Makes the schedule of a link that was never connected, and connects at this moment.
    pub fn new(at: u64) -> Schedule
        ensures { result ≡ unconnected at }
    {
        Schedule {
            phase: Phase::Resting(at),
            losses: 0,
            owed: Owed::NOTHING,
            awaited: None,
            seen: None,
            events_at: 0,
            integrity_at: 0,
            time_at: 0,
            silent_at: 0,
            pause_until: 0,
            sequence: 0,
            last: None,
            in_control: false,
            had_control: false,
        }
    }

    /// Whether the link is connected.
    pub fn is_connected(&self) -> bool
        ensures { result ≡ is_connected self.now.phase }
    {
        matches!(self.phase, Phase::Starting | Phase::Running)
    }
}
