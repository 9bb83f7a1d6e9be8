//! What comes from the master, as the connection sees it.

/// What comes from the master, as the connection sees it (IEEE Std 1815-2012, application layer).
#[derive(Clone, Copy, PartialEq, Eq)]
pub enum Case {
    /// It isn't looked at.
    PassedOver,
    /// It confirms the fragment whose confirm is awaited.
    Confirms,
    /// It confirms the unsolicited response whose confirm is awaited.
    ConfirmsUnsolicited,
    /// It is a confirm that is not awaited.
    Stray,
    /// It is the last request again.
    Again,
    /// It is a READ that has to wait for the confirm of an unsolicited response.
    Waits,
    /// It is another request.
    Asks,
}
