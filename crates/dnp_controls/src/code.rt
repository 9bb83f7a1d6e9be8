//! Control codes.

ghost use Rattle.std.specs.Prelude.{◌≡◌};
ghost use Rattle.dnp_controls.specs.Code as spec;

/// Bit 4 of a code: queue.
const QUEUE: u8 = 4;

/// Bit 5 of a code: clear.
const CLEAR: u8 = 5;

/// Bits 7 and 6 of a code say which relay of a pair is meant.
const RELAY: u8 = 6;

/// Both of these bits together mean no relay.
const NO_RELAY: u8 = 3;

/// What a control code orders, in its low four bits (IEEE Std 1815-2012, object library: group 12
/// variation 1).
#[derive(Clone, Copy, Debug, PartialEq, Eq)]
pub enum Operation {
    /// NUL, 0
    Nul,
    /// PULSE_ON, 1
    PulseOn,
    /// PULSE_OFF, 2
    PulseOff,
    /// LATCH_ON, 3
    LatchOn,
    /// LATCH_OFF, 4
    LatchOff,
    /// A number that the standard gives no meaning.
    Other,
}

impl Operation {
    /// The operation of a control code.
    pub fn of(code: u8) -> Self
        ensures { result ≡ spec.operation code }
    {
        match code % 16 {
            0 => Operation::Nul,
            1 => Operation::PulseOn,
            2 => Operation::PulseOff,
            3 => Operation::LatchOn,
            4 => Operation::LatchOff,
            _ => Operation::Other,
        }
    }

    /// Whether outputs perform it.
    fn is_performed(self) -> bool
        ensures { result ≡ spec.is_performed self }
    {
        match self {
            Operation::PulseOn | Operation::PulseOff | Operation::LatchOn | Operation::LatchOff =>
                true,
            Operation::Nul | Operation::Other => false,
        }
    }
}

/// Whether outputs perform a control relay output block of this control code and this count: its
/// operation is PULSE_ON, PULSE_OFF, LATCH_ON or LATCH_OFF, the bits 4 (queue) and 5 (clear) of the code
/// are 0, its bits 7 and 6 (trip, close) are not both 1, and the count is not 0.
pub fn obeys_code_rule(code: u8, count: u8) -> bool
    ensures { result ≡ spec.obeys_code_rule code count }
{
    Operation::of(code).is_performed()
        && code >> QUEUE & 1 == 0
        && code >> CLEAR & 1 == 0
        && code >> RELAY != NO_RELAY
        && count != 0
}
