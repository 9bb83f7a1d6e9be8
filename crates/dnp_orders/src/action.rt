//! The words for what a binary output is to do.

ghost use Rattle.std.specs.Prelude.{◌≡◌};
ghost use Rattle.dnp_orders.specs.Actions.{action_named, action_of, code_of, is_timed, word_of};

/// What a binary output is to do, as a person says it.
#[derive(Clone, Copy, Debug)]
pub enum Action {
    /// Latch on: LATCH_ON.
    LatchOn,
    /// Latch off: LATCH_OFF.
    LatchOff,
    /// Switch on for a time: PULSE_ON.
    PulseOn,
    /// Switch off for a time: PULSE_OFF.
    PulseOff,
    /// Pulse the close relay of a pair: PULSE_ON and CLOSE.
    Close,
    /// Pulse the trip relay of a pair: PULSE_ON and TRIP.
    Trip,
}

impl Action {
    /// The control code.
    pub fn code(self) -> u8
        ensures { result ≡ code_of self }
    {
        match self {
            Action::LatchOn => 0x03,
            Action::LatchOff => 0x04,
            Action::PulseOn => 0x01,
            Action::PulseOff => 0x02,
            Action::Close => 0x41,
            Action::Trip => 0x81,
        }
    }

    /// The word for it.
    pub fn word(self) -> &'static str
        ensures { result.now ≡ word_of self }
    {
        match self {
            Action::LatchOn => "latch-on",
            Action::LatchOff => "latch-off",
            Action::PulseOn => "pulse-on",
            Action::PulseOff => "pulse-off",
            Action::Close => "close",
            Action::Trip => "trip",
        }
    }

    /// Whether it lasts for a time that has to be said.
    pub fn is_timed(self) -> bool
        ensures { result ≡ is_timed self }
    {
        match self {
            Action::LatchOn | Action::LatchOff => false,
            Action::PulseOn | Action::PulseOff | Action::Close | Action::Trip => true,
        }
    }

    /// The action of a word, or none where the word names no action.
    pub fn named(word: &str) -> Option<Action>
        ensures { result ≡ action_named word.now }
    {
        match word {
            "latch-on" => Some(Action::LatchOn),
            "latch-off" => Some(Action::LatchOff),
            "pulse-on" => Some(Action::PulseOn),
            "pulse-off" => Some(Action::PulseOff),
            "close" => Some(Action::Close),
            "trip" => Some(Action::Trip),
            _ => None,
        }
    }

    /// The action of a control code, or none where no word means the code.
    pub fn of_code(code: u8) -> Option<Action>
        ensures { result ≡ action_of code }
    {
        match code {
            0x03 => Some(Action::LatchOn),
            0x04 => Some(Action::LatchOff),
            0x01 => Some(Action::PulseOn),
            0x02 => Some(Action::PulseOff),
            0x41 => Some(Action::Close),
            0x81 => Some(Action::Trip),
            _ => None,
        }
    }
}
