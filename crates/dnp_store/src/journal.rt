//! A journal in a SQL database.

ghost use Rattle.std.specs.Prelude.{◌≡◌, ◌≢◌, ◌<◌, ◌≤◌, ◌+◌, min, false, true, IsTrue, [], All, IfOk, IfErr, OnOk, OnErr, IsOkAnd, length, ◌⊎◌};
ghost use Rattle.sqlite.specs.Held.{state};
ghost use Rattle.sqlite.specs.State.{HasCleanDisk};
ghost use Rattle.dnp_objects.specs.Events.{IsEvent};
ghost use Rattle.dnp_eventbuf.specs.Archive.{IsSoundArchive, passes_limit, rows_over, with_events};
ghost use Rattle.dnp_eventbuf.specs.SinkCalls.{IsJournalCall, IsSinkCall};
ghost use Rattle.dnp_store.specs.JournalKept.{IsHonestJournal, LeavesJournal, LeavesEitherJournal, held_archive};
ghost use Rattle.dnp_store.specs.Refusals.{IsLost, LosesReading};
ghost use Rattle.dnp_store.specs.Showing.{HasRows};

use crate::fault::{fault, is_lost};
use crate::journal_reading::{is_lost_unread, read_over};
use crate::journal_writing::write_events;
use crate::store_kind::StoreKind;
use dnp_eventbuf::{JournalStore, Numbered, Sink, StoreFault};
use dnp_objects::{MAX_ID, Row};
use sqlite::{Alter, Connection};
use std::alloc::Global;
use std::marker::Model;

/// A journal in a SQL database, which keeps how many rows it holds and the last id in memory too: its
/// count asks no database.
pub struct Journal<S: Alter> {
    /// The connection to the database, which is the journal's own.
    pub(crate) conn: Connection<S>,
    /// The last id used.
    pub(crate) last_id: u64,
    /// How many rows the last commit holds.
    pub(crate) count: u64,
    /// Whether the journal has answered Device.
    pub(crate) stopped: bool,
    /// Whether the database's first tables were the journal's own as it began, and the others leave them alone:
    /// what a statement means is known for no others.
    pub(crate) owned: bool,
}

impl<S: Alter> Model for Journal<S> {
    ghost use Rattle.dnp_store.specs.JournalKept.{JournalValue, kept_code, JournalInvariant};

    ghost Value = { JournalValue S };

    ghost coded = { kept_code S.code };

    ghost view = { λ j. record { conn = j.conn; last_id = j.last_id; count = j.count; stopped = j.stopped; owned = j.owned } };

    ghost invariant = { λ j. JournalInvariant S.Store j.conn j.last_id j.count j.stopped j.owned };
}

impl<S: Alter + Drop> Drop for Journal<S> {
    /// One call for whoever lets it go: its parts are looked at here alone.
    fn drop(self) {
        let Journal {
            conn: _,
            last_id: _,
            count: _,
            stopped: _,
            owned: _,
        } = self;
    }
}

impl<S: Alter> Journal<S> {
    /// The connection to the database, as it stands.
    pub fn into_connection(self) -> Connection<S>
        ensures same { result ≡ self.conn }
        ensures idle { result.in_transaction ≡ false }
    {
        let Journal {
            conn,
            last_id: _,
            count: _,
            stopped: _,
            owned: _,
        } = self;
        conn
    }
}

impl<S: Alter> Sink for Journal<S> {
    ghost use Rattle.std.specs.Prelude.{refl};

    ghost takes = { λ old events _ dropped new. (held_archive S.Store new ≡ with_events (held_archive S.Store old) events) × (dropped ≡ []) };

    ghost keeps = { λ old new. held_archive S.Store new ≡ held_archive S.Store old };

    ghost exhausts = { λ j events. passes_limit (held_archive S.Store j) events };

    ghost honest = { IsHonestJournal S.Store };

    ghost is_stopped = { λ j. j.stopped };

    ghost asks_memory = { true };

    ghost keeps_itself = { λ s. refl };

    /// What a crash leaves at any exit holds the rows before or after, and after Ok those after.
    fn append(
        &mut self,
        alloc: Global,
        events: &[Row],
        _statics: &[Row],
    ) -> Result<Vec<Row>, StoreFault>
        requires { All IsEvent events.now }
        ensures call { IsSinkCall (IsHonestJournal S.Store) (λ j. j.stopped) (λ old new. held_archive S.Store new ≡ held_archive S.Store old) self.old self.new result }
        ensures taken { IsHonestJournal S.Store self.new → IfOk result (λ dropped. (held_archive S.Store self.new ≡ with_events (held_archive S.Store self.old) events.now) × (dropped.items ≡ [])) }
        ensures counted { OnOk result ((self.new.last_id ≡ self.old.last_id + length events.now) × (self.new.count ≡ self.old.count + length events.now)) }
        ensures kept { OnErr result ((self.new.last_id ≡ self.old.last_id) × (self.new.count ≡ self.old.count)) }
        ensures owned { self.new.owned ≡ self.old.owned }
        ensures limit { self.new.conn.step_limit ≡ self.old.conn.step_limit }
        ensures not_exhausted { OnOk result (passes_limit (held_archive S.Store self.old) events.now ≡ false) }
        ensures exhausted { IfErr result (λ e. e ≡ StoreFault.Exhausted → IsTrue (passes_limit (held_archive S.Store self.old) events.now)) }
        ensures exhausted_first { IfErr result (λ e. e ≡ StoreFault.Memory → passes_limit (held_archive S.Store self.old) events.now ≡ false) }
        ensures exhausted_always { self.old.stopped ≡ false → IsTrue (passes_limit (held_archive S.Store self.old) events.now) → (result ≡ Err StoreFault.Exhausted) × (self.new ≡ self.old) }
        ensures memory { result ≡ Err StoreFault.Memory → true ≡ false → events.now ≢ [] }
        ensures either { HasCleanDisk (state S.Store self.new.conn) → self.old.stopped ≡ false → IsTrue self.old.owned → LeavesEitherJournal (state S.Store self.new.conn) (held_archive S.Store self.old) (with_events (held_archive S.Store self.old) events.now) }
        ensures after { HasCleanDisk (state S.Store self.new.conn) → IsTrue self.old.owned → OnOk result (LeavesJournal (state S.Store self.new.conn) (held_archive S.Store self.new)) }
        ensures untouched { IsTrue self.old.stopped → self.new.conn ≡ self.old.conn }
        ensures device { HasCleanDisk (state S.Store self.new.conn) → result ≡ Err StoreFault.Device → IsTrue self.old.stopped ⊎ IsLost S.Store StoreKind.Journal self.old.conn self.new.conn }
    {
        if self.stopped {
            return Err(StoreFault::Device);
        }
        let count = events.len() as u64;
        if count > MAX_ID - self.last_id {
            return Err(StoreFault::Exhausted);
        }
        if let Err(error) = write_events(&mut self.conn, events) {
            let lost = is_lost(&mut self.conn, &error);
            self.stopped = lost;
            return Err(fault(lost));
        }
        self.last_id += count;
        self.count += count;
        Ok(Vec::new(alloc))
    }
}

impl<S: Alter> JournalStore for Journal<S> {
    ghost use Rattle.std.specs.Prelude.{refl};

    ghost archive = { held_archive S.Store };

    ghost takes_events = { λ old events statics dropped new taken. taken };

    ghost keeps_rows = { λ old new kept. kept };

    ghost exhausts_ids = { λ s events. refl };

    fn rows(&mut self, alloc: Global, from: u64, most: usize) -> Result<Vec<Numbered>, StoreFault>
        ensures call { IsJournalCall (IsHonestJournal S.Store) (λ j. j.stopped) (held_archive S.Store) self.old self.new result }
        ensures rows { IsHonestJournal S.Store self.new → IfOk result (λ rows. rows.items ≡ rows_over (held_archive S.Store self.old) from most) }
        ensures same { IsHonestJournal S.Store self.new → OnOk result (held_archive S.Store self.new ≡ held_archive S.Store self.old) }
        ensures shown { HasCleanDisk (state S.Store self.new.conn) → from < self.old.last_id → IfOk result (λ rows. HasRows S.Store from (min most self.old.count) rows.items (state S.Store self.old.conn).now) }
        ensures kept { (self.new.last_id ≡ self.old.last_id) × (self.new.count ≡ self.old.count) }
        ensures owned { self.new.owned ≡ self.old.owned }
        ensures limit { self.new.conn.step_limit ≡ self.old.conn.step_limit }
        ensures memory { result ≡ Err StoreFault.Memory → true ≡ false → rows_over (held_archive S.Store self.old) from most ≢ [] }
        // Past the last id nothing is asked of memory or the database.
        ensures past { self.old.stopped ≡ false → self.old.last_id ≤ from → IsOkAnd result (λ rows. rows.items ≡ []) × (self.new ≡ self.old) }
        ensures named { IfErr result (λ e. e ≢ StoreFault.Exhausted) }
        ensures untouched { IsTrue self.old.stopped → self.new ≡ self.old }
        ensures device { HasCleanDisk (state S.Store self.new.conn) → result ≡ Err StoreFault.Device → IsTrue self.old.stopped ⊎ LosesReading S.Store self.old.conn self.new.conn }
    {
        if self.stopped {
            return Err(StoreFault::Device);
        }
        if from >= self.last_id {
            return Ok(Vec::new(alloc));
        }
        let few = (most as u64).min(self.count);
        let mut rows = Vec::new(alloc);
        if let Err(unread) = read_over(&mut self.conn, alloc, from, few, &mut rows) {
            let lost = is_lost_unread(&mut self.conn, &unread);
            self.stopped = lost;
            return Err(fault(lost));
        }
        Ok(rows)
    }

    fn count(&mut self) -> u64
        ensures same { self.new ≡ self.old }
        ensures sound { IsHonestJournal S.Store self.new → IsSoundArchive (held_archive S.Store self.new) }
        ensures value { IsHonestJournal S.Store self.new → result ≡ length (held_archive S.Store self.new).rows }
        ensures held { result ≡ self.new.count }
    {
        self.count
    }
}
