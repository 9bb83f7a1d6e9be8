//! The standard's names of functions, and those of faults, and where a frame's faults lie.

ghost use Rattle.std.specs.Prelude.{◌≡◌};
ghost use Rattle.dnp_decode.specs.Names as spec;

use dnp_appfragment::AppFault;
use dnp_linkframe::FrameFault;
use dnp_objects::Command;

/// The octets of the header of a frame with its check word: its first block begins after them.
const CHECKED_HEADER: usize = 10;

/// The octets of a whole block of user data with its check word.
const CHECKED_BLOCK: usize = 18;

/// The place of LENGTH in a frame.
const LENGTH_PLACE: usize = 2;

/// The place of the header's check word in a frame.
pub(crate) const HEADER_CHECK_PLACE: usize = 8;

/// The name of the function of a link frame, by its CONTROL octet (IEEE Std 1815-2012, data link layer: function codes).
pub(crate) fn link_function(control: u8) -> &'static str {
    match (control / 0x40 % 2 == 1, control % 16) {
        (true, 0) => "RESET_LINK_STATES",
        (true, 2) => "TEST_LINK_STATES",
        (true, 3) => "CONFIRMED_USER_DATA",
        (true, 4) => "UNCONFIRMED_USER_DATA",
        (true, 9) => "REQUEST_LINK_STATUS",
        (false, 0) => "ACK",
        (false, 1) => "NACK",
        (false, 11) => "LINK_STATUS",
        (false, 15) => "NOT_SUPPORTED",
        _ => "unknown function",
    }
}

/// The name of the fault of a fragment.
pub fn fault_name(fault: AppFault) -> &'static str
    ensures { result.now ≡ spec.fault_name fault }
{
    match fault {
        AppFault::Short => "Short",
        AppFault::FunctionUnknown => "FunctionUnknown",
        AppFault::HeaderCut => "HeaderCut",
        AppFault::QualifierUnknown => "QualifierUnknown",
        AppFault::ObjectUnknown => "ObjectUnknown",
        AppFault::RangeBackward => "RangeBackward",
        AppFault::ObjectsCut => "ObjectsCut",
        AppFault::CommonTime => "CommonTime",
    }
}

/// Why a frame is refused, as it is said.
pub(crate) struct Refusal {
    /// The name of the fault.
    pub name: &'static str,
    /// The block of user data, where it is one's check word that is wrong.
    pub block: Option<usize>,
    /// The octet of the frame at which the fault lies, where it lies at one.
    pub place: Option<usize>,
}

impl Refusal {
    /// The one of this fault.
    pub(crate) fn of(fault: FrameFault) -> Refusal {
        match fault {
            FrameFault::Short => Refusal::whole("Short"),
            FrameFault::Start => Refusal::at("Start", 0),
            FrameFault::HeaderCheck => Refusal::at("HeaderCheck", HEADER_CHECK_PLACE),
            FrameFault::Length => Refusal::at("Length", LENGTH_PLACE),
            FrameFault::Size => Refusal::whole("Size"),
            FrameFault::BlockCheck(block) => Refusal {
                name: "BlockCheck",
                block: Some(block),
                place: Some(CHECKED_HEADER.saturating_add(block.saturating_mul(CHECKED_BLOCK))),
            },
        }
    }

    /// One that is of no single octet.
    fn whole(name: &'static str) -> Refusal {
        Refusal {
            name,
            block: None,
            place: None,
        }
    }

    /// One at this octet of the frame.
    fn at(name: &'static str, place: usize) -> Refusal {
        Refusal {
            name,
            block: None,
            place: Some(place),
        }
    }
}

/// What a command sets a setpoint to: the word for it, the setpoint's index, and the value. None where it is for a binary
/// output.
pub(crate) fn setting_of(command: Command) -> Option<(&'static str, u16, i32)> {
    match command {
        Command::Set16 { index, value } => Some(("set16", index, i32::from(value))),
        Command::Set32 { index, value } => Some(("set32", index, value)),
        Command::Block { .. } => None,
    }
}
