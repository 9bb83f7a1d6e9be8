use dnp_eventbuf::StoreFault;
use thiserror::Error;

/// Why a master does not ask. Of several causes it is the first.
#[derive(Clone, Copy, Debug, PartialEq, Eq, Hash, Error)]
pub enum AskFault {
    /// The master is closed.
    #[error("the master is closed")]
    Closed = 1,
    /// The response to another request is awaited.
    #[error("another request is open")]
    Busy = 2,
    /// The command to be carried out does not stand selected.
    #[error("the command is not selected")]
    NotSelected = 3,
    /// No class is named, or class 0 where events are meant, or a time of 2^48 ms or more.
    #[error("a task that cannot be asked")]
    BadTask = 4,
}

/// Why a master does not take a fragment. Nothing is changed or sent then.
#[derive(Clone, Copy, Debug, PartialEq, Eq, Hash, Error)]
pub enum MasterFault {
    /// The octets are no response.
    #[error("octets that are no response")]
    Malformed = 1,
    /// An event is of a point that the plan lacks, or that has no class.
    #[error("an event of a point that has none")]
    Stranger = 2,
    /// The sink has no number left.
    #[error("the sink has no number left")]
    Exhausted = 3,
    /// Memory ran out.
    #[error("out of memory")]
    Memory = 4,
    /// The device under the sink failed.
    #[error("the sink's device failed")]
    Device = 5,
}

/// A sink's fault is passed on.
impl From<StoreFault> for MasterFault {
    ghost use Rattle.std.specs.Prelude.{◌≡◌};
    ghost use Rattle.dnp_master.specs.Sinks.{fault_of};

    ghost from_gives = { λ e fault. fault ≡ fault_of e };

    fn from(e: StoreFault) -> MasterFault {
        match e {
            StoreFault::Exhausted => MasterFault::Exhausted,
            StoreFault::Memory => MasterFault::Memory,
            StoreFault::Device => MasterFault::Device,
        }
    }
}
