//! Why a station stops at an event: what its stores and its memory refuse.

use dnp_controls::BookFault;
use dnp_objects::StoreFault;
use dnp_outstation::Fault;
use std::alloc::AllocError;

/// What an event can stop at.
#[derive(Clone, Copy, Debug, PartialEq, Eq, Hash)]
pub enum Cause {
    /// A store has no number left.
    Exhausted = 1,
    /// A request for memory was refused.
    Memory = 2,
    /// The device under a store failed.
    Device = 3,
}

/// A request for memory that was refused is a cause.
impl From<AllocError> for Cause {
    ghost use Rattle.std.specs.Prelude.{◌≡◌};
    ghost use Rattle.dnp_concentrator.specs.declared.cause.Cause.TheVariants.{Memory};

    ghost from_gives = { λ _ cause. cause ≡ Memory };

    fn from(_: AllocError) -> Cause {
        Cause::Memory
    }
}

/// What a store under an outstation refuses is a cause. A reading that its points refuse is none, and stops nothing.
impl From<Fault> for Cause {
    ghost use Rattle.std.specs.Prelude.{◌≡◌};
    ghost use Rattle.dnp_concentrator.specs.Causes.{outstation_cause};

    ghost from_gives = { λ fault cause. cause ≡ outstation_cause fault };

    fn from(fault: Fault) -> Cause {
        match fault {
            Fault::Exhausted => Cause::Exhausted,
            Fault::Device => Cause::Device,
            Fault::NoPoint | Fault::ValueRange | Fault::TimeRange | Fault::Memory => Cause::Memory,
        }
    }
}

/// What a store refuses is a cause.
impl From<StoreFault> for Cause {
    ghost use Rattle.std.specs.Prelude.{◌≡◌};
    ghost use Rattle.dnp_concentrator.specs.Causes.{store_cause};

    ghost from_gives = { λ fault cause. cause ≡ store_cause fault };

    fn from(fault: StoreFault) -> Cause {
        match fault {
            StoreFault::Exhausted => Cause::Exhausted,
            StoreFault::Memory => Cause::Memory,
            StoreFault::Device => Cause::Device,
        }
    }
}

/// What a book refuses to read is a cause. What it refuses of one entry is none, and no reading is refused for it.
impl From<BookFault> for Cause {
    ghost use Rattle.std.specs.Prelude.{◌≡◌};
    ghost use Rattle.dnp_concentrator.specs.Causes.{book_cause};

    ghost from_gives = { λ fault cause. cause ≡ book_cause fault };

    fn from(fault: BookFault) -> Cause {
        match fault {
            BookFault::Exhausted => Cause::Exhausted,
            BookFault::Device => Cause::Device,
            BookFault::NoControl | BookFault::NotPending | BookFault::Memory => Cause::Memory,
        }
    }
}
