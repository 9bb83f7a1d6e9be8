//! What a book of controls is.

ghost use Rattle.std.specs.Prelude.{◌≡◌, ◌≢◌, ◌≤◌, ◌<◌, ◌+◌, Bool, false, IsTrue, [], not, OnOk, IfOk, IfErr};
ghost use Rattle.dnp_controls.specs.Book.{Ledger, entry_of, Has, is_pending, is_finished, next_of, rows_of, added, spent, finished};
ghost use Rattle.dnp_controls.specs.Calls.{IsBookCall};

use crate::limits::TARGETS;
use dnp_objects::{Command, MAX_ID, Status};
use std::alloc::Global;
use thiserror::Error;

/// How far a control is.
#[derive(Clone, Copy, Debug, PartialEq, Eq, Hash)]
pub enum State {
    /// Its command was not sent yet.
    Pending,
    /// Its command was sent, or was about to be: it is not sent again.
    Spent,
    /// What became of it is known.
    Finished(Status),
}

impl State {
    /// Whether the command was not sent yet.
    pub fn is_pending(self) -> bool
        ensures { result ≡ is_pending self }
    {
        matches!(self, State::Pending)
    }

    /// Whether it is known what became of the command.
    pub fn is_finished(self) -> bool
        ensures { result ≡ is_finished self }
    {
        matches!(self, State::Finished(_))
    }
}

/// A control in a book.
#[derive(Clone, Copy, Debug, PartialEq, Eq, Hash)]
pub struct Entry {
    /// Its number. Ids rise from 1 on, in the order in which controls are added.
    pub id: u64,
    /// The station that it is for, below `TARGETS`.
    pub target: u8,
    /// What is to be done there.
    pub command: Command,
    /// How far it is.
    pub state: State,
}

/// Why a book refuses a call, in the order in which the causes are looked for.
#[derive(Clone, Copy, Debug, PartialEq, Eq, Error)]
pub enum BookFault {
    /// The book has no entry of this id.
    #[error("no such control")]
    NoControl,
    /// The entry to be spent is not pending, or the entry to be finished is finished.
    #[error("the control is not pending any more")]
    NotPending,
    /// The book has given out all its ids.
    #[error("the book has no number left")]
    Exhausted,
    /// Memory ran out.
    #[error("out of memory")]
    Memory,
    /// The device under the book failed.
    #[error("the book's device failed")]
    Device,
}

/// A book of controls, however it is kept.
///
/// An entry is pending, then spent, then finished, or finished at once. It is spent by at most one call,
/// and a finished entry never changes again.
///
/// What a call promises of the entries holds where the book is honest as the call ends: a refusal changes
/// nothing. Which refusals a call may give holds for every book. After Device each call answers Device
/// again, and no call promises anything of the entries.
pub trait Book {
    /// The entries, in the order in which they were added, and the last id used.
    ghost contents: { Self → Ledger };

    /// So far the store under the book has given back what was written to it, nobody else has written,
    /// and it has not answered Device. A book in memory is always honest.
    ghost honest: { Self → Type 0 };

    /// It has answered Device.
    ghost is_stopped: { Self → Bool };

    /// Calls that need no memory here, since they put nothing after the others and answer no entry, may be
    /// out of memory all the same, as those of a database may.
    ghost asks_memory: { Bool };

    /// Adds a command for a target, below `TARGETS`, as pending, and answers its id. Exhausted where the id would
    /// pass `MAX_ID`, else Memory or Device.
    fn add(&mut self, alloc: Global, target: u8, command: &Command) -> Result<u64, BookFault>
        requires { target < TARGETS }
        ensures call { IsBookCall honest is_stopped contents self.old self.new result }

        ensures added { honest self.new → OnOk result (contents self.new ≡ added (contents self.old) target command.now) }
        ensures id { honest self.new → IfOk result (λ id. id ≡ (contents self.old).last_id + 1) }
        ensures not_exhausted { honest self.new → OnOk result ((contents self.old).last_id < MAX_ID) }
        ensures exhausted { honest self.new → IfErr result (λ e. e ≡ BookFault.Exhausted → MAX_ID ≤ (contents self.old).last_id) }
        ensures exhausted_first { honest self.new → IfErr result (λ e. e ≡ BookFault.Memory → (contents self.old).last_id < MAX_ID) }
        ensures named { IfErr result (λ e. (e ≢ BookFault.NoControl) × (e ≢ BookFault.NotPending)) };

    /// The pending entry of the least id for a target, if there is one. Memory or Device.
    fn next(&mut self, alloc: Global, target: u8) -> Result<Option<Entry>, BookFault>
        ensures call { IsBookCall honest is_stopped contents self.old self.new result }

        ensures value { honest self.new → IfOk result (λ entry. entry ≡ next_of (contents self.old).entries target) }
        ensures same { honest self.new → OnOk result (contents self.new ≡ contents self.old) }
        ensures named { IfErr result (λ e. (e ≢ BookFault.NoControl) × (e ≢ BookFault.NotPending) × (e ≢ BookFault.Exhausted)) }
        ensures memory { result ≡ Err BookFault.Memory → IsTrue asks_memory };

    /// Spends the entry of an id: pending, it is spent from now on. NoControl only where there is no such
    /// entry, NotPending only where it is spent or finished, else Memory or Device.
    fn spend(&mut self, alloc: Global, id: u64) -> Result<(), BookFault>
        ensures call { IsBookCall honest is_stopped contents self.old self.new result }

        ensures was_pending { honest self.new → OnOk result (Has (contents self.old).entries id is_pending) }
        ensures spent { honest self.new → OnOk result (contents self.new ≡ spent (contents self.old) id) }
        ensures no_control { honest self.new → IfErr result (λ e. e ≡ BookFault.NoControl → entry_of (contents self.old).entries id ≡ None) }
        ensures not_pending { honest self.new → IfErr result (λ e. e ≡ BookFault.NotPending → Has (contents self.old).entries id (λ state. not (is_pending state))) }
        ensures named { IfErr result (λ e. e ≢ BookFault.Exhausted) }
        ensures memory { result ≡ Err BookFault.Memory → IsTrue asks_memory };

    /// Finishes the entry of an id, pending or spent, with the status that became of it. NoControl only
    /// where there is no such entry, NotPending only where it is finished, else Memory or Device.
    fn finish(&mut self, alloc: Global, id: u64, status: Status) -> Result<(), BookFault>
        ensures call { IsBookCall honest is_stopped contents self.old self.new result }

        ensures was_open { honest self.new → OnOk result (Has (contents self.old).entries id (λ state. not (is_finished state))) }
        ensures finished { honest self.new → OnOk result (contents self.new ≡ finished (contents self.old) id status) }
        ensures no_control { honest self.new → IfErr result (λ e. e ≡ BookFault.NoControl → entry_of (contents self.old).entries id ≡ None) }
        ensures was_finished { honest self.new → IfErr result (λ e. e ≡ BookFault.NotPending → Has (contents self.old).entries id is_finished) }
        ensures named { IfErr result (λ e. e ≢ BookFault.Exhausted) }
        ensures memory { result ≡ Err BookFault.Memory → IsTrue asks_memory };

    /// The first entries whose ids are over `from`, by id, at most `most` of them; `from` 0 begins at the
    /// first entry. Memory, though in memory not where there is no such entry, or Device.
    fn rows(&mut self, alloc: Global, from: u64, most: usize) -> Result<Vec<Entry>, BookFault>
        ensures call { IsBookCall honest is_stopped contents self.old self.new result }

        ensures rows { honest self.new → IfOk result (λ rows. rows.items ≡ rows_of (contents self.old).entries from most) }
        ensures same { honest self.new → OnOk result (contents self.new ≡ contents self.old) }
        ensures named { IfErr result (λ e. (e ≢ BookFault.NoControl) × (e ≢ BookFault.NotPending) × (e ≢ BookFault.Exhausted)) }
        ensures memory { result ≡ Err BookFault.Memory → asks_memory ≡ false → rows_of (contents self.old).entries from most ≢ [] };
}
