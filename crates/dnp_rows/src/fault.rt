//! Why rows are not read, or not printed.

use std::alloc::AllocError;
use std::{fmt, io};

/// Why rows are not read.
#[derive(Clone, Copy, Debug)]
pub enum ReadFault {
    /// Out of memory.
    Memory,
    /// The files can't be read.
    Unreadable(io::Error),
    /// The file is no database.
    NoDatabase,
    /// No store was made in the database.
    NotMade,
    /// The database is of another store, or not whole.
    OtherForm,
    /// The database is a queue of an earlier release, for one centre.
    OldForm,
    /// The last id that the store gave is this one, and the rows after a later one are asked for.
    Behind(u64),
    /// The files changed each time while they were read.
    Busy,
}

impl From<AllocError> for ReadFault {
    ghost use Rattle.dnp_rows.specs.declared.fault.ReadFault.TheVariants.{Memory};
    ghost use Rattle.std.specs.Prelude.{◌≡◌};

    ghost from_gives = { λ _ fault. fault ≡ Memory };

    fn from(_fault: AllocError) -> ReadFault {
        ReadFault::Memory
    }
}

/// Why rows are not printed.
#[derive(Clone, Copy, Debug)]
pub enum PrintFault {
    /// They can't be read.
    Unread(ReadFault),
    /// Their ids don't rise.
    OutOfOrder,
    /// Out of memory. Nothing of the page was written.
    Memory,
    /// They can't be written.
    Unwritten(io::Error),
}

impl From<ReadFault> for PrintFault {
    ghost use Rattle.dnp_rows.specs.declared.fault.PrintFault.TheVariants.{Unread};
    ghost use Rattle.std.specs.Prelude.{◌≡◌};

    ghost from_gives = { λ fault made. made ≡ Unread fault };

    fn from(fault: ReadFault) -> PrintFault {
        PrintFault::Unread(fault)
    }
}
