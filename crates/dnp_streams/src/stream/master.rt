//! What a master does, as an answer on a stream.

ghost use Rattle.std.specs.Prelude.{◌≡◌};
ghost use Rattle.dnp_streams.specs.streams.Masters.{closing, fault_told, nothing_answered};
ghost use Rattle.dnp_streams.specs.streams.Stations.{answer_of};

use crate::stream::station::{Answer, StationFault};
use dnp_concentrator::Cause;
use dnp_master::MasterFault;

/// Nothing is sent.
pub(super) fn nothing() -> Answer
    ensures { answer_of result ≡ nothing_answered }
{
    Answer {
        send: [None, None],
        close: false,
        taken: 0,
        outcome: None,
    }
}

/// Nothing is sent, and the connection is closed, or it isn't.
pub(super) fn closing(closes: bool) -> Answer
    ensures { answer_of result ≡ closing closes }
{
    Answer {
        send: [None, None],
        close: closes,
        taken: 0,
        outcome: None,
    }
}

/// Why a master refused what came, as a station's fault.
pub(super) fn fault_of(fault: MasterFault) -> StationFault
    ensures { result ≡ fault_told fault }
{
    match fault {
        MasterFault::Malformed | MasterFault::Stranger => StationFault::Message,
        MasterFault::Exhausted => StationFault::Cause(Cause::Exhausted),
        MasterFault::Memory => StationFault::Cause(Cause::Memory),
        MasterFault::Device => StationFault::Cause(Cause::Device),
    }
}
