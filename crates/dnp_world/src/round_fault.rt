//! Why a round, or a control that is sent in rounds, is not made.

use dnp_concentrator::Cause;
use dnp_objects::Status;

/// Why a link made no round, in the order in which the causes are looked for.
#[derive(Clone, Copy, Debug, PartialEq, Eq, Hash)]
pub enum RoundFault {
    /// The link isn't quiet. Nothing has happened.
    NotQuiet,
    /// A store or a request for memory refused. The events before it happened.
    Fault(Cause),
}

/// Why a control was not sent, or not to its end.
#[derive(Clone, Copy, Debug, PartialEq, Eq, Hash)]
pub enum ControlFault {
    /// The link above isn't quiet, or the one to the control's substation. Nothing has happened.
    NotQuiet,
    /// The control isn't the centre's next one, or another is before it at the centre or at the concentrator. Nothing
    /// has happened.
    NotNext,
    /// A station answered this status. The events up to the step that told it happened.
    Refused(Status),
    /// A store or a request for memory refused. The events before it happened.
    Fault(Cause),
}

/// What an event of a round stops at is its fault.
impl From<Cause> for RoundFault {
    ghost use Rattle.std.specs.Prelude.{◌≡◌};
    ghost use Rattle.dnp_world.specs.declared.round_fault.RoundFault.TheVariants.{Fault};

    ghost from_gives = { λ cause fault. fault ≡ Fault cause };

    fn from(cause: Cause) -> RoundFault {
        RoundFault::Fault(cause)
    }
}

/// What an event on a control's way stops at is its fault.
impl From<Cause> for ControlFault {
    ghost use Rattle.std.specs.Prelude.{◌≡◌};
    ghost use Rattle.dnp_world.specs.declared.round_fault.ControlFault.TheVariants.{Fault};

    ghost from_gives = { λ cause fault. fault ≡ Fault cause };

    fn from(cause: Cause) -> ControlFault {
        ControlFault::Fault(cause)
    }
}
