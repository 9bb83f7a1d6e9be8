//! How often a link is asked, and how long anything may take on it.

/// How often a link is asked, and how long anything may take on it. Times are in milliseconds. A period of `u64::MAX` never ends.
#[derive(Clone, Copy, Debug, PartialEq, Eq)]
pub struct Pace {
    /// How often events are polled.
    pub events_ms: u64,
    /// How often events and present values are polled.
    pub integrity_ms: u64,
    /// How often the time is written.
    pub time_ms: u64,
    /// After how long a silence events are polled.
    pub keepalive_ms: u64,
    /// How long a connection may take to come about.
    pub connect_ms: u64,
    /// How long a whole response may take.
    pub poll_ms: u64,
    /// How long after a poll without rows an indication brings none.
    pub pause_ms: u64,
    /// Whether unsolicited responses are disabled as a connection begins.
    pub disables: bool,
    /// Whether they are enabled at the end of a start.
    pub enables: bool,
    /// Whether the time is written if the station indicates NEED_TIME.
    pub writes_time: bool,
    /// The station's place among those that connect, 0 to 63, so that they don't all connect at one moment.
    pub place: u8,
}
