//! Why a list of events is not done to its end.

ghost use Rattle.std.specs.Prelude.{◌≡◌, ◌↔◌, Err, IfErr, OnOk, Some};
ghost use Rattle.dnp_master.specs.Sinks.{IsSinkFault};
ghost use Rattle.dnp_world.specs.Causes.{cause_of_master};

use dnp_concentrator::Cause;
use dnp_master::MasterFault;

/// A list of events was not done to its end.
#[derive(Clone, Copy, Debug, PartialEq, Eq, Hash)]
pub struct Stopped {
    /// How many events were done. The one after them counts as `Lose` if it is `Deliver`, and else it is left out.
    pub done: usize,
    /// Why.
    pub cause: Cause,
}

/// The cause at which a list of events stops, where a store refused what a master took or memory ran out. What the master
/// refuses for itself is none: the message is lost.
fn cause_of(fault: MasterFault) -> Option<Cause>
    ensures { result ≡ cause_of_master fault }
{
    match fault {
        MasterFault::Malformed | MasterFault::Stranger => None,
        MasterFault::Exhausted => Some(Cause::Exhausted),
        MasterFault::Memory => Some(Cause::Memory),
        MasterFault::Device => Some(Cause::Device),
    }
}

/// What the refusal of a fragment comes to: a list of events stops, for its cause, or the message is lost.
pub(crate) fn stops_for(fault: MasterFault) -> Result<(), Cause>
    ensures cause { IfErr result (λ cause. cause_of_master fault ≡ Some cause) }
    ensures passed { OnOk result (IsSinkFault fault → ⊥) }
    ensures device { (result ≡ Err Cause.Device) ↔ (fault ≡ MasterFault.Device) }
{
    match cause_of(fault) {
        Some(cause) => Err(cause),
        None => Ok(()),
    }
}
