//! What is shown and said of rounds.

use crate::rounds::RoundSettings;
use crate::screen::Form;

/// What is shown and said of rounds, and how.
#[derive(Clone, Copy)]
pub(crate) struct Style {
    /// The link address of the outstation.
    pub peer: u16,
    /// How long each fragment is awaited, in milliseconds.
    pub timeout_ms: u64,
    /// Whether lines are JSON objects.
    pub json: bool,
    /// Whether each frame is said.
    pub hex: bool,
    /// Whether each line begins with the time.
    pub times: bool,
    /// How rows are shown.
    pub form: Form,
    /// Whether unsolicited responses are listened to.
    pub listens: bool,
    /// Whether commands go by DIRECT_OPERATE.
    pub direct: bool,
}

impl Style {
    /// That of these rounds.
    pub(crate) fn of(words: &RoundSettings<'_>) -> Style {
        Style {
            peer: words.peer,
            timeout_ms: words.timeout_ms,
            json: words.json,
            hex: words.hex,
            times: words.times,
            form: words.form,
            listens: words.listen.is_some(),
            direct: words.instead.direct,
        }
    }
}
