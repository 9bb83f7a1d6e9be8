//! What a store answers when its database fails.

ghost use Rattle.std.specs.Prelude.{◌≡◌, ◌⊎◌, ◌||◌, [], false, not, IsTrue, IfErr, OnOk, if◌then◌else◌};
ghost use Rattle.sqlite.specs.Held.{state};
ghost use Rattle.sqlite.specs.Order.{Row};
ghost use Rattle.sqlite.specs.State.{HasCleanDisk, IsNotRun, Survives};
ghost use Rattle.dnp_store.specs.Faults.{RefusesNothing, is_memory, is_taken, is_unread};

use dnp_objects::StoreFault;
use sqlite::{Alter, Connection, Error, ErrorCode};
use sqlite_resolve::CompileError;
use std::alloc::AllocError;

/// Why what a store's tables hold could not be read.
#[derive(Drop)]
pub(crate) enum Unread {
    /// They do not hold what they should.
    Form,
    /// Memory ran out beside the database.
    Memory,
    /// The database answered this.
    Failed(Error),
}

impl From<Error> for Unread {
    ghost use Rattle.std.specs.Prelude.{◌≡◌};
    ghost use Rattle.dnp_store.specs.declared.fault.Unread.TheVariants.{Failed};

    ghost from_gives = { λ error unread. unread ≡ Failed error };

    fn from(error: Error) -> Unread {
        Unread::Failed(error)
    }
}

/// Asks the connection for something that changes nothing.
pub(crate) fn probe<S: Alter>(conn: &mut Connection<S>) -> Result<(), Error>
    requires { conn.old.in_transaction ≡ false }
    ensures idle { conn.new.in_transaction ≡ false }
    ensures open { HasCleanDisk (state S.Store conn.new) → OnOk result (IsTrue (state S.Store conn.new).is_open) }
    ensures same { HasCleanDisk (state S.Store conn.new) → IsTrue (state S.Store conn.new).is_open
        → IsTrue (state S.Store conn.old).is_open × ((state S.Store conn.new).committed ≡ (state S.Store conn.old).committed) }
    ensures refused { HasCleanDisk (state S.Store conn.new) → IfErr result (λ e. (params : Row) → IsNotRun (state S.Store conn.old) (state S.Store conn.new) [] params e) }
    ensures survives { Survives (state S.Store conn.old) (state S.Store conn.new) (λ _. ⊥) }
{
    match conn.prepare("") {
        Ok(_nothing) => Ok(()),
        Err(error) => Err(error),
    }
}

/// Whether the connection still serves.
pub(crate) fn serves<S: Alter>(conn: &mut Connection<S>) -> bool
    requires { conn.old.in_transaction ≡ false }
    ensures idle { conn.new.in_transaction ≡ false }
    ensures open { HasCleanDisk (state S.Store conn.new) → IsTrue result → IsTrue (state S.Store conn.new).is_open }
    ensures same { HasCleanDisk (state S.Store conn.new) → IsTrue (state S.Store conn.new).is_open
        → IsTrue (state S.Store conn.old).is_open × ((state S.Store conn.new).committed ≡ (state S.Store conn.old).committed) }
    ensures refused { HasCleanDisk (state S.Store conn.new) → result ≡ false → RefusesNothing (state S.Store conn.old) (state S.Store conn.new) }
    ensures survives { Survives (state S.Store conn.old) (state S.Store conn.new) (λ _. ⊥) }
{
    probe(conn).is_ok()
}

/// Whether memory ran out, as a statement was read or as it ran.
pub(crate) fn is_memory(error: &Error) -> bool
    ensures { result ≡ is_memory error.now }
{
    matches!(
        error,
        Error::SqliteFailure(ErrorCode::OutOfMemory)
            | Error::SqlInputError(CompileError::OutOfMemory)
    )
}

/// Whether a statement wanted a name that is taken.
pub(crate) fn is_taken(error: &Error) -> bool
    ensures { result ≡ is_taken error.now }
{
    matches!(
        error,
        Error::SqliteFailure(ErrorCode::NameTaken) | Error::SqlInputError(CompileError::Exists)
    )
}

/// Whether a statement could not be understood where it ran, as one that names a table or a column that is
/// not there.
pub(crate) fn is_unread(error: &Error) -> bool
    ensures { result ≡ is_unread error.now }
{
    matches!(error, Error::SqlInputError(_)) && !is_memory(error)
}

/// Whether a store is lost: it isn't only where memory ran out, and the connection still serves.
pub(crate) fn loses(memory: bool, serves: bool) -> bool
    ensures { result ≡ (not memory || not serves) }
{
    !memory || !serves
}

/// Whether a store is to answer Device for an error, and not Memory, which it answers where memory ran out
/// and the connection still serves.
pub(crate) fn is_lost<S: Alter>(conn: &mut Connection<S>, error: &Error) -> bool
    requires { conn.old.in_transaction ≡ false }
    ensures idle { conn.new.in_transaction ≡ false }
    ensures serves { HasCleanDisk (state S.Store conn.new) → result ≡ false → IsTrue (state S.Store conn.new).is_open }
    ensures memory { result ≡ false → IsTrue (is_memory error.now) }
    ensures lost { HasCleanDisk (state S.Store conn.new) → IsTrue result → (is_memory error.now ≡ false) ⊎ RefusesNothing (state S.Store conn.old) (state S.Store conn.new) }
    ensures same { HasCleanDisk (state S.Store conn.new) → IsTrue (state S.Store conn.new).is_open
        → IsTrue (state S.Store conn.old).is_open × ((state S.Store conn.new).committed ≡ (state S.Store conn.old).committed) }
    ensures survives { Survives (state S.Store conn.old) (state S.Store conn.new) (λ _. ⊥) }
{
    let serves = serves(conn);
    loses(is_memory(error), serves)
}

/// Device where the store is lost, else Memory.
pub(crate) fn fault(lost: bool) -> StoreFault
    ensures { result ≡ (if lost then StoreFault.Device else StoreFault.Memory) }
{
    if lost {
        StoreFault::Device
    } else {
        StoreFault::Memory
    }
}

/// Out of memory, as a store names it.
pub(crate) fn memory(_: AllocError) -> StoreFault
    ensures { result ≡ StoreFault.Memory }
{
    StoreFault::Memory
}
