//! How a transaction ends.

ghost use Rattle.dnp_store.specs.steps.Inside.{IsEnded};

use sqlite::{Alter, Error, Transaction};

/// Commits a transaction in which all was done, and undoes any other.
pub(crate) fn end<S: Alter>(tx: Transaction<'_, S>, done: Result<(), Error>) -> Result<(), Error>
    ensures { IsEnded S.Store tx.entry.conn.now tx.exit.0.now done result }
{
    match done {
        Ok(()) => tx.commit(),
        Err(error) => Err(error),
    }
}
