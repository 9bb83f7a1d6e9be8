//! A book of controls in a SQL database.

ghost use Rattle.std.specs.Prelude.{◌≡◌, ◌≢◌, ◌⊎◌, ◌↔◌, ◌≤◌, ◌<◌, ◌+◌, true, false, not, IsTrue, IfOk, IfErr, OnOk, OnErr};
ghost use Rattle.sqlite.specs.Held.{state};
ghost use Rattle.sqlite.specs.State.{HasCleanDisk};
ghost use Rattle.dnp_controls.specs.Book.{Has, added, entry_of, finished, is_finished, is_pending, next_of, rows_of, spent};
ghost use Rattle.dnp_controls.specs.Calls.{IsBookCall};
ghost use Rattle.dnp_store.specs.BookKept.{IsHonestBook, LeavesBook, LeavesEitherBook};
ghost use Rattle.dnp_store.specs.Refusals.{IsLost};

use crate::book_calls::{add_to, is_device, turn_to};
use crate::book_entries::{count_past, first_over, first_pending};
use crate::store_kind::StoreKind;
use dnp_controls::{Book, BookFault, Entry, State, TARGETS};
use dnp_objects::{Command, MAX_ID, Status};
use sqlite::{Alter, Connection};
use std::alloc::Global;
use std::marker::Model;

/// A book of controls in a SQL database, which keeps its entries in memory too: only calls that write touch
/// the database.
pub struct ControlBook<S: Alter> {
    /// The connection to the database, which is the book's own.
    pub(crate) conn: Connection<S>,
    /// The entries that the last commit holds, by their ids.
    pub(crate) entries: Vec<Entry>,
    /// The last id used.
    pub(crate) last_id: u64,
    /// No entry before this place is pending, so the search for a pending one begins here.
    pub(crate) first: usize,
    /// Whether the book has answered Device.
    pub(crate) stopped: bool,
    /// Whether the database's first tables were the book's own as it began, and the others leave them alone: what
    /// a statement means is known for no others.
    pub(crate) owned: bool,
}

impl<S: Alter> Model for ControlBook<S> {
    ghost use Rattle.dnp_store.specs.BookKept.{BookValue, kept_code, BookInvariant};

    ghost Value = { BookValue S };

    ghost coded = { kept_code S.code };

    ghost view = { λ b. record { conn = b.conn; ledger = record { entries = b.entries.items; last_id = b.last_id }; stopped = b.stopped; owned = b.owned } };

    ghost invariant = { λ b. BookInvariant S.Store b.conn (record { entries = b.entries.items; last_id = b.last_id }) b.first b.stopped b.owned };
}

impl<S: Alter + Drop> Drop for ControlBook<S> {
    /// One call for whoever lets it go: its parts are looked at here alone.
    fn drop(self) {
        let ControlBook {
            conn: _,
            entries: _,
            last_id: _,
            first: _,
            stopped: _,
            owned: _,
        } = self;
    }
}

impl<S: Alter> ControlBook<S> {
    /// The connection to the database, as it stands.
    pub fn into_connection(self) -> Connection<S>
        ensures same { result ≡ self.conn }
        ensures idle { result.in_transaction ≡ false }
    {
        let ControlBook {
            conn,
            entries: _,
            last_id: _,
            first: _,
            stopped: _,
            owned: _,
        } = self;
        conn
    }
}

/// Device where the store is lost, else Memory.
pub(crate) fn book_fault(lost: bool) -> BookFault
    ensures stopped { IsTrue lost → result ≡ BookFault.Device }
    ensures serves { lost ≡ false → result ≡ BookFault.Memory }
{
    if lost {
        BookFault::Device
    } else {
        BookFault::Memory
    }
}

impl<S: Alter> Book for ControlBook<S> {
    ghost contents = { λ b. b.ledger };

    ghost honest = { IsHonestBook S.Store };

    ghost is_stopped = { λ b. b.stopped };

    ghost asks_memory = { true };

    /// What a crash leaves at any exit holds the entries before or after, and after Ok those after.
    fn add(&mut self, alloc: Global, target: u8, command: &Command) -> Result<u64, BookFault>
        requires { target < TARGETS }
        ensures call { IsBookCall (IsHonestBook S.Store) (λ b. b.stopped) (λ b. b.ledger) self.old self.new result }
        ensures added { OnOk result (self.new.ledger ≡ added self.old.ledger target command.now) }
        ensures id { IfOk result (λ id. id ≡ self.old.ledger.last_id + 1) }
        ensures kept { OnErr result (self.new.ledger ≡ self.old.ledger) }
        ensures owned { self.new.owned ≡ self.old.owned }
        ensures limit { self.new.conn.step_limit ≡ self.old.conn.step_limit }
        ensures not_exhausted { OnOk result (self.old.ledger.last_id < MAX_ID) }
        ensures exhausted { IfErr result (λ e. e ≡ BookFault.Exhausted → MAX_ID ≤ self.old.ledger.last_id) }
        ensures exhausted_first { IfErr result (λ e. e ≡ BookFault.Memory → self.old.ledger.last_id < MAX_ID) }
        ensures exhausted_always { self.old.stopped ≡ false → MAX_ID ≤ self.old.ledger.last_id → (result ≡ Err BookFault.Exhausted) × (self.new ≡ self.old) }
        ensures named { IfErr result (λ e. (e ≢ BookFault.NoControl) × (e ≢ BookFault.NotPending)) }
        ensures either { HasCleanDisk (state S.Store self.new.conn) → self.old.stopped ≡ false → IsTrue self.old.owned → LeavesEitherBook (state S.Store self.new.conn) self.old.ledger (added self.old.ledger target command.now) }
        ensures after { HasCleanDisk (state S.Store self.new.conn) → IsTrue self.old.owned → OnOk result (LeavesBook (state S.Store self.new.conn) self.new.ledger) }
        ensures untouched { IsTrue self.old.stopped → self.new.conn ≡ self.old.conn }
        ensures device { HasCleanDisk (state S.Store self.new.conn) → result ≡ Err BookFault.Device → IsTrue self.old.stopped ⊎ IsLost S.Store StoreKind.Book self.old.conn self.new.conn }
    {
        if self.stopped {
            return Err(BookFault::Device);
        }
        let answer = add_to(
            &mut self.conn,
            &mut self.entries,
            &mut self.last_id,
            target,
            command,
        );
        self.stopped = is_device(&answer);
        answer
    }

    fn next(&mut self, _alloc: Global, target: u8) -> Result<Option<Entry>, BookFault>
        ensures call { IsBookCall (IsHonestBook S.Store) (λ b. b.stopped) (λ b. b.ledger) self.old self.new result }
        ensures value { IfOk result (λ entry. entry ≡ next_of self.old.ledger.entries target) }
        ensures same { self.new ≡ self.old }
        ensures named { IfErr result (λ e. e ≡ BookFault.Device) }
        ensures device { IsTrue self.old.stopped ↔ (result ≡ Err BookFault.Device) }
    {
        if self.stopped {
            return Err(BookFault::Device);
        }
        let rest = self.entries.split_at(self.first).1;
        let past = count_past(rest);
        self.first += past;
        Ok(first_pending(rest.split_at(past).1, target))
    }

    /// What a crash leaves at any exit holds the entries before or after, and after Ok those after.
    fn spend(&mut self, _alloc: Global, id: u64) -> Result<(), BookFault>
        ensures call { IsBookCall (IsHonestBook S.Store) (λ b. b.stopped) (λ b. b.ledger) self.old self.new result }
        ensures was_pending { OnOk result (Has self.old.ledger.entries id is_pending) }
        ensures spent { OnOk result (self.new.ledger ≡ spent self.old.ledger id) }
        ensures kept { OnErr result (self.new.ledger ≡ self.old.ledger) }
        ensures owned { self.new.owned ≡ self.old.owned }
        ensures limit { self.new.conn.step_limit ≡ self.old.conn.step_limit }
        ensures no_control { IfErr result (λ e. e ≡ BookFault.NoControl → entry_of self.old.ledger.entries id ≡ None) }
        ensures no_control_always { self.old.stopped ≡ false → entry_of self.old.ledger.entries id ≡ None → (result ≡ Err BookFault.NoControl) × (self.new ≡ self.old) }
        ensures not_pending { IfErr result (λ e. e ≡ BookFault.NotPending → Has self.old.ledger.entries id (λ control. not (is_pending control))) }
        ensures not_pending_always { self.old.stopped ≡ false → Has self.old.ledger.entries id (λ control. not (is_pending control)) → (result ≡ Err BookFault.NotPending) × (self.new ≡ self.old) }
        ensures named { IfErr result (λ e. e ≢ BookFault.Exhausted) }
        ensures memory { result ≡ Err BookFault.Memory → IsTrue true }
        ensures either { HasCleanDisk (state S.Store self.new.conn) → self.old.stopped ≡ false → IsTrue self.old.owned → LeavesEitherBook (state S.Store self.new.conn) self.old.ledger (spent self.old.ledger id) }
        ensures after { HasCleanDisk (state S.Store self.new.conn) → IsTrue self.old.owned → OnOk result (LeavesBook (state S.Store self.new.conn) self.new.ledger) }
        ensures untouched { IsTrue self.old.stopped → self.new.conn ≡ self.old.conn }
        ensures device { HasCleanDisk (state S.Store self.new.conn) → result ≡ Err BookFault.Device → IsTrue self.old.stopped ⊎ IsLost S.Store StoreKind.Book self.old.conn self.new.conn }
    {
        if self.stopped {
            return Err(BookFault::Device);
        }
        let answer = turn_to(
            &mut self.conn,
            &mut self.entries,
            self.last_id,
            id,
            &State::Spent,
        );
        self.stopped = is_device(&answer);
        answer
    }

    /// What a crash leaves at any exit holds the entries before or after, and after Ok those after.
    fn finish(&mut self, _alloc: Global, id: u64, status: Status) -> Result<(), BookFault>
        ensures call { IsBookCall (IsHonestBook S.Store) (λ b. b.stopped) (λ b. b.ledger) self.old self.new result }
        ensures was_open { OnOk result (Has self.old.ledger.entries id (λ control. not (is_finished control))) }
        ensures finished { OnOk result (self.new.ledger ≡ finished self.old.ledger id status) }
        ensures kept { OnErr result (self.new.ledger ≡ self.old.ledger) }
        ensures owned { self.new.owned ≡ self.old.owned }
        ensures limit { self.new.conn.step_limit ≡ self.old.conn.step_limit }
        ensures untouched { IsTrue self.old.stopped → self.new.conn ≡ self.old.conn }
        ensures device { HasCleanDisk (state S.Store self.new.conn) → result ≡ Err BookFault.Device → IsTrue self.old.stopped ⊎ IsLost S.Store StoreKind.Book self.old.conn self.new.conn }
        ensures no_control { IfErr result (λ e. e ≡ BookFault.NoControl → entry_of self.old.ledger.entries id ≡ None) }
        ensures no_control_always { self.old.stopped ≡ false → entry_of self.old.ledger.entries id ≡ None → (result ≡ Err BookFault.NoControl) × (self.new ≡ self.old) }
        ensures was_finished { IfErr result (λ e. e ≡ BookFault.NotPending → Has self.old.ledger.entries id is_finished) }
        ensures was_finished_always { self.old.stopped ≡ false → Has self.old.ledger.entries id is_finished → (result ≡ Err BookFault.NotPending) × (self.new ≡ self.old) }
        ensures named { IfErr result (λ e. e ≢ BookFault.Exhausted) }
        ensures memory { result ≡ Err BookFault.Memory → IsTrue true }
        ensures either { HasCleanDisk (state S.Store self.new.conn) → self.old.stopped ≡ false → IsTrue self.old.owned → LeavesEitherBook (state S.Store self.new.conn) self.old.ledger (finished self.old.ledger id status) }
        ensures after { HasCleanDisk (state S.Store self.new.conn) → IsTrue self.old.owned → OnOk result (LeavesBook (state S.Store self.new.conn) self.new.ledger) }
    {
        if self.stopped {
            return Err(BookFault::Device);
        }
        let answer = turn_to(
            &mut self.conn,
            &mut self.entries,
            self.last_id,
            id,
            &State::Finished(status),
        );
        self.stopped = is_device(&answer);
        answer
    }

    fn rows(&mut self, alloc: Global, from: u64, most: usize) -> Result<Vec<Entry>, BookFault>
        ensures call { IsBookCall (IsHonestBook S.Store) (λ b. b.stopped) (λ b. b.ledger) self.old self.new result }
        ensures rows { IfOk result (λ rows. rows.items ≡ rows_of self.old.ledger.entries from most) }
        ensures same { self.new ≡ self.old }
        ensures named { IfErr result (λ e. (e ≡ BookFault.Memory) ⊎ (e ≡ BookFault.Device)) }
        ensures device { IsTrue self.old.stopped ↔ (result ≡ Err BookFault.Device) }
    {
        if self.stopped {
            return Err(BookFault::Device);
        }
        let Ok(rows) = first_over(alloc, &self.entries, from, most) else {
            return Err(BookFault::Memory);
        };
        Ok(rows)
    }
}
