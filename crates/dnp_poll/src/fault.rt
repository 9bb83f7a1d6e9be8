//! Why a poll stops.

use dnp_appfragment::AppFault;
use dnp_decode::fault_name;
use std::alloc::AllocError;
use std::fmt;
use std::fmt::{Display, Formatter, Write};

/// Why a poll stops before the answer is there to its end.
#[derive(Clone, Copy, Debug, PartialEq, Eq)]
pub enum PollFault {
    /// A fragment came that is no response, for what stands so many octets after its beginning.
    Answer(AppFault, usize),
    /// The response, or its next fragment, didn't come in time.
    Silent,
    /// The rows of a fragment could not be shown: it was not confirmed.
    NotShown,
    /// Memory ran out.
    Memory,
}

/// A request for memory that was refused stops a poll.
impl From<AllocError> for PollFault {
    ghost use Rattle.std.specs.Prelude.{◌≡◌};
    ghost use Rattle.dnp_poll.specs.declared.fault.PollFault.TheVariants.{Memory};

    ghost from_gives = { λ _ fault. fault ≡ Memory };

    fn from(_: AllocError) -> PollFault {
        PollFault::Memory
    }
}

impl Display for PollFault {
    fn fmt<W: Write>(&self, f: &mut Formatter<W>) -> fmt::Result {
        match *self {
            PollFault::Answer(fault, place) => {
                let name = fault_name(fault);
                write!(f, "an answer that is refused: {name} at octet {place}")
            }
            PollFault::Silent => f.write_str("no response in time"),
            PollFault::NotShown => f.write_str("the rows could not be shown"),
            PollFault::Memory => f.write_str("out of memory"),
        }
    }
}
