//! How a journal in a SQL database begins, and what stands at its end.

ghost use Rattle.std.specs.Prelude.{◌≡◌, ◌≢◌, ◌&&◌, ◌↔◌, ◌≤◌, false, not, IsTrue, IfOk, IfErr, IsErrAnd, OnOk, ◌⊎◌, Err};
ghost use Rattle.sqlite.specs.Held.{Held, state};
ghost use Rattle.sqlite.specs.State.{HasCleanDisk, Survives};
ghost use Rattle.sqlite.specs.Steps.{IsEmpty, over_memory};
ghost use Rattle.dnp_store.specs.Added.{LeavesMade, MakeAll, making_tables};
ghost use Rattle.dnp_eventbuf.specs.Archive.{Archive};
ghost use Rattle.dnp_store.specs.JournalKept.{IsHonestJournal, LeavesJournal, JournalStands, held_archive};
ghost use Rattle.dnp_store.specs.JournalTables.{HoldsArchive, IsJournal, IsStorableArchive, empty_archive};
ghost use Rattle.dnp_store.specs.Refusals.{IsNumbered, IsTaken, LosesMaking};
ghost use Rattle.dnp_store.specs.Schemas.{made_journal};
ghost use Rattle.dnp_store.specs.Showing.{HasEvents};
ghost use Rattle.dnp_store.specs.Tables.{no_schema};
ghost use Rattle.dnp_objects.specs.declared.limits.TheConstants as limits;
ghost use Rattle.dnp_store.specs.steps.Beginning.{IsFound};
ghost use Rattle.dnp_store.specs.steps.JournalShown.{IsJournalFound};

use crate::journal::Journal;
use crate::journal_opening::{Found, read_journal};
use crate::open::{OpenFault, begin_tables, served};
use crate::store_kind::StoreKind;
use sqlite::{Alter, Connection, MemStore};
use std::alloc::Global;

/// What the database holds of a journal, where the connection serves still, and whether its tables come first and are
/// left alone by the others.
fn find_journal<S: Alter>(
    conn: &mut Connection<S>,
    alloc: Global,
) -> Result<(Found, bool), OpenFault>
    ensures found { IsFound S.Store (λ old new found. IsTrue found.1 → IsJournalFound old new found.0.last_id found.0.count) conn.old conn.new result }
    ensures alone { HasCleanDisk (state S.Store conn.new) → IfOk result (λ found. (a : Archive) → IsJournal (state S.Store conn.old).committed a → IsTrue found.1) }
    ensures numbered { HasCleanDisk (state S.Store conn.new) → OnOk result (IsNumbered S.Store 1 (state S.Store conn.old).committed) }
    ensures events { HasCleanDisk (state S.Store conn.new) → IfOk result (λ found. HasEvents S.Store found.0.count (state S.Store conn.old).committed) }
    ensures wrong_form { HasCleanDisk (state S.Store conn.new) → IfErr result (λ fault. fault ≡ OpenFault.WrongForm → IsTrue conn.old.in_transaction
        ⊎ ((a : Archive) → IsStorableArchive a → IsJournal (state S.Store conn.old).committed a → ⊥)) }
    ensures range { IfOk result (λ found. (found.0.last_id ≤ limits.MAX_ID) × (found.0.count ≤ found.0.last_id)) }
{
    if !conn.is_autocommit() {
        return Err(OpenFault::WrongForm);
    }
    let read = read_journal(conn, alloc);
    served(conn, read)
}

impl<S: Alter> Journal<S> {
    /// Makes a journal without rows in the database. Beside other tables the same statements run, in
    /// one transaction, and no others; but the journal promises to hold its rows only where there are none.
    ///
    /// WrongForm where a name of its tables is taken, or the connection is inside a transaction; else
    /// Memory or Device. A refusal hands the connection back, with the database as it was.
    pub fn create(conn: Connection<S>) -> Result<Journal<S>, (OpenFault, Connection<S>)>
        ensures inside { IsTrue conn.in_transaction → IsErrAnd result (λ e. (e.0 ≡ OpenFault.WrongForm) × (e.1 ≡ conn)) }
        ensures held { IfOk result (λ j. HasCleanDisk (state S.Store j.conn) → HasCleanDisk (state S.Store conn)) }
        ensures serves { IfOk result (λ j. j.stopped ≡ false) }
        ensures owned { IfOk result (λ j. IsTrue j.owned ↔ ((state S.Store conn).now.schema ≡ no_schema)) }
        ensures begun { IfOk result (λ j. (j.last_id ≡ 0) × (j.count ≡ 0)) }
        ensures empty { IfOk result (λ j. HasCleanDisk (state S.Store j.conn) → IsTrue j.owned → held_archive S.Store j ≡ empty_archive) }
        ensures stands { IfOk result (λ j. HasCleanDisk (state S.Store j.conn) → IsTrue j.owned → JournalStands (state S.Store j.conn) (held_archive S.Store j)) }
        ensures handed_back { IfErr result (λ e. (e.1.in_transaction ≡ conn.in_transaction) × (e.1.step_limit ≡ conn.step_limit)) }
        ensures same { IfErr result (λ e. HasCleanDisk (state S.Store e.1) → IsTrue (state S.Store e.1).is_open → (state S.Store e.1).committed ≡ (state S.Store conn).committed) }
        ensures schema { IfOk result (λ j. HasCleanDisk (state S.Store j.conn) → IsTrue j.owned → (state S.Store j.conn).committed.schema ≡ made_journal) }
        ensures added { IfOk result (λ j. HasCleanDisk (state S.Store j.conn) → MakeAll S.Store (making_tables StoreKind.Journal) (state S.Store conn).now (state S.Store j.conn).committed) }
        ensures made { IfOk result (λ j. Survives (state S.Store conn) (state S.Store j.conn) (LeavesMade S.Store (making_tables StoreKind.Journal) (λ db. HoldsArchive db empty_archive) (state S.Store conn).now)) }
        ensures left { IfErr result (λ e. Survives (state S.Store conn) (state S.Store e.1) (LeavesMade S.Store (making_tables StoreKind.Journal) (λ db. HoldsArchive db empty_archive) (state S.Store conn).now)) }
        ensures device { IfErr result (λ e. HasCleanDisk (state S.Store e.1) → e.0 ≡ OpenFault.Device → LosesMaking S.Store (making_tables StoreKind.Journal) conn e.1) }
        ensures taken { IfErr result (λ e. HasCleanDisk (state S.Store e.1) → e.0 ≡ OpenFault.WrongForm → IsTrue conn.in_transaction ⊎ IsTaken S.Store (making_tables StoreKind.Journal) conn e.1) }
        ensures current { IfErr result (λ e. e.0 ≢ OpenFault.OldForm) }
    {
        let mut conn = conn;
        match begin_tables(&mut conn, StoreKind::Journal) {
            Ok(owned) => Ok(Journal {
                conn,
                last_id: 0,
                count: 0,
                stopped: false,
                owned,
            }),
            Err(fault) => Err((fault, conn)),
        }
    }

    /// Whether the journal has not answered Device. If so, whatever a crash at this moment leaves holds the
    /// rows as they stand.
    pub fn serves(&self) -> bool
        ensures value { result ≡ not self.now.stopped }
        ensures left { HasCleanDisk (state S.Store self.now.conn) → IsTrue result → IsTrue self.now.owned → LeavesJournal (state S.Store self.now.conn) (held_archive S.Store self.now) }
    {
        !self.stopped
    }

    /// Whether the journal's own tables were the first of the database as it began or opened: the others, if there are any,
    /// came later, no foreign key of theirs names one of its own, and `sqlite_sequence` counts for it alone. Where it is
    /// not so, the journal works alike, and counts its rows; of what stands in the database nothing is promised.
    pub fn owns_database(&self) -> bool
        ensures { result ≡ self.now.owned }
    {
        self.owned
    }

    /// Opens the journal that the database holds. Nothing is written, and each row is looked at once.
    ///
    /// WrongForm where a table or a column of its is missing; where `form` isn't one row with the number 1;
    /// where a value isn't a whole number in its column's range, or an id isn't in 1 to `MAX_ID`; or where
    /// the connection is inside a transaction. Else Memory or Device. A refusal hands the connection back,
    /// with the database as it was.
    pub fn open(
        alloc: Global,
        conn: Connection<S>,
    ) -> Result<Journal<S>, (OpenFault, Connection<S>)>
        ensures inside { IsTrue conn.in_transaction → IsErrAnd result (λ e. (e.0 ≡ OpenFault.WrongForm) × (e.1 ≡ conn)) }
        ensures held { IfOk result (λ j. HasCleanDisk (state S.Store j.conn) → HasCleanDisk (state S.Store conn)) }
        ensures serves { IfOk result (λ j. j.stopped ≡ false) }
        ensures found { IfOk result (λ j. HasCleanDisk (state S.Store j.conn) → IsTrue j.owned → IsJournal (state S.Store conn).committed (held_archive S.Store j)) }
        ensures owned { IfOk result (λ j. HasCleanDisk (state S.Store j.conn) → (a : Archive) → IsJournal (state S.Store conn).committed a → IsTrue j.owned) }
        ensures stands { IfOk result (λ j. HasCleanDisk (state S.Store j.conn) → IsTrue j.owned → JournalStands (state S.Store j.conn) (held_archive S.Store j)) }
        ensures same { IfErr result (λ e. HasCleanDisk (state S.Store e.1) → IsTrue (state S.Store e.1).is_open → (state S.Store e.1).committed ≡ (state S.Store conn).committed) }
        ensures unwritten { IfOk result (λ j. Survives (state S.Store conn) (state S.Store j.conn) (λ _. ⊥)) }
        ensures left { IfErr result (λ e. Survives (state S.Store conn) (state S.Store e.1) (λ _. ⊥)) }
        ensures handed_back { IfErr result (λ e. (e.1.in_transaction ≡ conn.in_transaction) × (e.1.step_limit ≡ conn.step_limit)) }
        ensures current { IfErr result (λ e. e.0 ≢ OpenFault.OldForm) }
        ensures numbered { IfOk result (λ j. HasCleanDisk (state S.Store j.conn) → IsNumbered S.Store 1 (state S.Store conn).committed) }
        ensures events { IfOk result (λ j. HasCleanDisk (state S.Store j.conn) → HasEvents S.Store j.count (state S.Store conn).committed) }
        ensures wrong_form { IfErr result (λ e. HasCleanDisk (state S.Store e.1) → e.0 ≡ OpenFault.WrongForm → IsTrue conn.in_transaction
            ⊎ ((a : Archive) → IsStorableArchive a → IsJournal (state S.Store conn).committed a → ⊥)) }
    {
        let mut conn = conn;
        match find_journal(&mut conn, alloc) {
            Ok((found, owned)) => Ok(Journal {
                conn,
                owned,
                stopped: false,
                last_id: found.last_id,
                count: found.count,
            }),
            Err(fault) => Err((fault, conn)),
        }
    }
}

impl Journal<MemStore> {
    /// A journal without rows in a new database in memory.
    ///
    /// Memory where it ran out; Device where the database failed otherwise.
    pub fn in_memory(alloc: Global) -> Result<Journal<MemStore>, OpenFault>
        ensures honest { IfOk result (IsHonestJournal over_memory) }
        ensures empty { IfOk result (λ j. held_archive over_memory j ≡ empty_archive) }
        ensures device { result ≡ Err OpenFault.Device → (old new : Held MemStore) × IsEmpty (state over_memory old) × LosesMaking over_memory (making_tables StoreKind.Journal) old new }
        ensures taken { result ≡ Err OpenFault.WrongForm → (old new : Held MemStore) × IsEmpty (state over_memory old) × IsTaken over_memory (making_tables StoreKind.Journal) old new }
        ensures current { result ≢ Err OpenFault.OldForm }
    {
        let Ok(conn) = Connection::open_in_memory(alloc) else {
            return Err(OpenFault::Memory);
        };
        match Journal::create(conn) {
            Ok(journal) => Ok(journal),
            Err((fault, _)) => Err(fault),
        }
    }

    /// Whether the journal is honest still: it has not answered Device, and its tables are its own. So
    /// what was promised under that premise held up to this moment.
    pub fn is_well(&self) -> bool
        ensures well { IsTrue result → IsHonestJournal over_memory self.now }
        ensures told { result ≡ (not self.now.stopped && self.now.owned) }
    {
        self.serves() && self.owns_database()
    }
}
