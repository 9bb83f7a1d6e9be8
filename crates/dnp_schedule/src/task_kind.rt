//! What a master asks on a link.

/// What a master asks on a link.
#[derive(Clone, Copy, Debug, PartialEq, Eq)]
pub enum TaskKind {
    /// To send no unsolicited responses.
    DisableUnsolicited,
    /// The events and the present values.
    IntegrityPoll,
    /// To clear the indication DEVICE_RESTART.
    ClearRestart,
    /// To set the clock.
    WriteTime,
    /// To send unsolicited responses.
    EnableUnsolicited,
    /// A control is relayed, or goes on.
    Control,
    /// The events.
    EventPoll,
    /// The events of one class, in place of a poll whose octets the connection's last request had.
    OtherPoll,
}
