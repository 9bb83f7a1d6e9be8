//! How a book of controls in a SQL database begins, and what stands at its end.

ghost use Rattle.std.specs.Prelude.{◌≡◌, ◌≢◌, ◌&&◌, ◌↔◌, ◌≤◌, [], false, not, All, IsTrue, IfOk, IfErr, IsErrAnd, OnOk, ◌⊎◌, Err};
ghost use Rattle.sqlite.specs.Held.{Held, state};
ghost use Rattle.sqlite.specs.State.{HasCleanDisk, Survives};
ghost use Rattle.sqlite.specs.Steps.{IsEmpty, over_memory};
ghost use Rattle.dnp_controls.specs.Book.{IsSoundLedger, Ledger, empty_ledger};
ghost use Rattle.dnp_objects.specs.declared.limits.TheConstants as limits;
ghost use Rattle.dnp_store.specs.steps.Beginning.{IsFound};
ghost use Rattle.dnp_store.specs.steps.BookShown.{IsBookFound};
ghost use Rattle.dnp_store.specs.Added.{LeavesMade, MakeAll, making_tables};
ghost use Rattle.dnp_store.specs.BookKept.{IsHonestBook, LeavesBook, BookStands};
ghost use Rattle.dnp_store.specs.BookTables.{FitsControl, HoldsBook, IsBook, IsStorable};
ghost use Rattle.dnp_store.specs.Refusals.{IsNumbered, IsTaken, LosesMaking};
ghost use Rattle.dnp_store.specs.Schemas.{made_book};
ghost use Rattle.dnp_store.specs.Showing.{HasEntries};
ghost use Rattle.dnp_store.specs.Tables.{no_schema};

use crate::book::ControlBook;
use crate::book_opening::{FoundBook, read_book};
use crate::open::{OpenFault, begin_tables, served};
use crate::store_kind::StoreKind;
use dnp_controls::Entry;
use sqlite::{Alter, Connection, MemStore};
use std::alloc::Global;

/// What the database holds of a book, where the connection serves still, and whether its tables come first and are left
/// alone by the others. The entries come into a list, which is empty.
fn find_book<S: Alter>(
    conn: &mut Connection<S>,
    entries: &mut Vec<Entry>,
) -> Result<(FoundBook, bool), OpenFault>
    requires { entries.old.items ≡ [] }
    ensures found { IsFound S.Store (λ old new found. IsTrue found.1 → IsBookFound old new entries.new.items found.0.last_id) conn.old conn.new result }
    ensures alone { HasCleanDisk (state S.Store conn.new) → IfOk result (λ found. (book : Ledger) → IsSoundLedger book → IsBook (state S.Store conn.old).committed book → IsTrue found.1) }
    ensures numbered { HasCleanDisk (state S.Store conn.new) → OnOk result (IsNumbered S.Store 1 (state S.Store conn.old).committed) }
    ensures entries { HasCleanDisk (state S.Store conn.new) → OnOk result (HasEntries S.Store entries.new.items (state S.Store conn.old).committed) }
    ensures wrong_form { HasCleanDisk (state S.Store conn.new) → IfErr result (λ fault. fault ≡ OpenFault.WrongForm → IsTrue conn.old.in_transaction
        ⊎ ((book : Ledger) → IsStorable book → IsBook (state S.Store conn.old).committed book → ⊥)) }
    ensures sound { IfOk result (λ found. IsSoundLedger (record { entries = entries.new.items; last_id = found.0.last_id }) × (found.0.last_id ≤ limits.MAX_ID)) }
    ensures fit { IfOk result (λ _. All FitsControl entries.new.items) }
{
    if !conn.is_autocommit() {
        return Err(OpenFault::WrongForm);
    }
    let read = read_book(conn, entries);
    served(conn, read)
}

impl<S: Alter> ControlBook<S> {
    /// Makes a book without entries in the database. Beside other tables the same statements run, in
    /// one transaction, and no others; but the book promises to hold its entries only where there are none.
    ///
    /// WrongForm where a name of its tables is taken, or the connection is inside a transaction; else
    /// Memory or Device. A refusal hands the connection back, with the database as it was.
    pub fn create(
        alloc: Global,
        conn: Connection<S>,
    ) -> Result<ControlBook<S>, (OpenFault, Connection<S>)>
        ensures inside { IsTrue conn.in_transaction → IsErrAnd result (λ e. (e.0 ≡ OpenFault.WrongForm) × (e.1 ≡ conn)) }
        ensures held { IfOk result (λ b. HasCleanDisk (state S.Store b.conn) → HasCleanDisk (state S.Store conn)) }
        ensures empty { IfOk result (λ b. (b.ledger ≡ empty_ledger) × (b.stopped ≡ false)) }
        ensures owned { IfOk result (λ b. IsTrue b.owned ↔ ((state S.Store conn).now.schema ≡ no_schema)) }
        ensures stands { IfOk result (λ b. HasCleanDisk (state S.Store b.conn) → IsTrue b.owned → BookStands (state S.Store b.conn) b.ledger) }
        ensures same { IfErr result (λ e. HasCleanDisk (state S.Store e.1) → IsTrue (state S.Store e.1).is_open → (state S.Store e.1).committed ≡ (state S.Store conn).committed) }
        ensures schema { IfOk result (λ b. HasCleanDisk (state S.Store b.conn) → IsTrue b.owned → (state S.Store b.conn).committed.schema ≡ made_book) }
        ensures added { IfOk result (λ b. HasCleanDisk (state S.Store b.conn) → MakeAll S.Store (making_tables StoreKind.Book) (state S.Store conn).now (state S.Store b.conn).committed) }
        ensures made { IfOk result (λ b. Survives (state S.Store conn) (state S.Store b.conn) (LeavesMade S.Store (making_tables StoreKind.Book) (λ db. HoldsBook db empty_ledger) (state S.Store conn).now)) }
        ensures left { IfErr result (λ e. Survives (state S.Store conn) (state S.Store e.1) (LeavesMade S.Store (making_tables StoreKind.Book) (λ db. HoldsBook db empty_ledger) (state S.Store conn).now)) }
        ensures handed_back { IfErr result (λ e. (e.1.in_transaction ≡ conn.in_transaction) × (e.1.step_limit ≡ conn.step_limit)) }
        ensures device { IfErr result (λ e. HasCleanDisk (state S.Store e.1) → e.0 ≡ OpenFault.Device → LosesMaking S.Store (making_tables StoreKind.Book) conn e.1) }
        ensures taken { IfErr result (λ e. HasCleanDisk (state S.Store e.1) → e.0 ≡ OpenFault.WrongForm → IsTrue conn.in_transaction ⊎ IsTaken S.Store (making_tables StoreKind.Book) conn e.1) }
        ensures current { IfErr result (λ e. e.0 ≢ OpenFault.OldForm) }
    {
        let mut conn = conn;
        match begin_tables(&mut conn, StoreKind::Book) {
            Ok(owned) => Ok(ControlBook {
                conn,
                entries: Vec::new(alloc),
                last_id: 0,
                first: 0,
                stopped: false,
                owned,
            }),
            Err(fault) => Err((fault, conn)),
        }
    }

    /// Opens the book that the database holds. Nothing is written, and each row is looked at once.
    ///
    /// WrongForm where a table or a column of its is missing; where `form` isn't one row with the number 1;
    /// where a value isn't a whole number in its column's range, or a field that the entry's kind or state
    /// doesn't have isn't 0, or an id isn't in 1 to `MAX_ID`; or where the connection is inside a
    /// transaction. Else Memory or Device. A refusal hands the connection back, with the database as it
    /// was.
    pub fn open(
        alloc: Global,
        conn: Connection<S>,
    ) -> Result<ControlBook<S>, (OpenFault, Connection<S>)>
        ensures inside { IsTrue conn.in_transaction → IsErrAnd result (λ e. (e.0 ≡ OpenFault.WrongForm) × (e.1 ≡ conn)) }
        ensures held { IfOk result (λ b. HasCleanDisk (state S.Store b.conn) → HasCleanDisk (state S.Store conn)) }
        ensures serves { IfOk result (λ b. b.stopped ≡ false) }
        ensures fit { IfOk result (λ b. All FitsControl b.ledger.entries) }
        ensures found { IfOk result (λ b. HasCleanDisk (state S.Store b.conn) → IsTrue b.owned → IsBook (state S.Store conn).committed b.ledger) }
        ensures owned { IfOk result (λ b. HasCleanDisk (state S.Store b.conn) → (book : Ledger) → IsSoundLedger book → IsBook (state S.Store conn).committed book → IsTrue b.owned) }
        ensures stands { IfOk result (λ b. HasCleanDisk (state S.Store b.conn) → IsTrue b.owned → BookStands (state S.Store b.conn) b.ledger) }
        ensures same { IfErr result (λ e. HasCleanDisk (state S.Store e.1) → IsTrue (state S.Store e.1).is_open → (state S.Store e.1).committed ≡ (state S.Store conn).committed) }
        ensures unwritten { IfOk result (λ b. Survives (state S.Store conn) (state S.Store b.conn) (λ _. ⊥)) }
        ensures left { IfErr result (λ e. Survives (state S.Store conn) (state S.Store e.1) (λ _. ⊥)) }
        ensures handed_back { IfErr result (λ e. (e.1.in_transaction ≡ conn.in_transaction) × (e.1.step_limit ≡ conn.step_limit)) }
        ensures current { IfErr result (λ e. e.0 ≢ OpenFault.OldForm) }
        ensures numbered { IfOk result (λ b. HasCleanDisk (state S.Store b.conn) → IsNumbered S.Store 1 (state S.Store conn).committed) }
        ensures entries { IfOk result (λ b. HasCleanDisk (state S.Store b.conn) → HasEntries S.Store b.ledger.entries (state S.Store conn).committed) }
        ensures wrong_form { IfErr result (λ e. HasCleanDisk (state S.Store e.1) → e.0 ≡ OpenFault.WrongForm → IsTrue conn.in_transaction
            ⊎ ((book : Ledger) → IsStorable book → IsBook (state S.Store conn).committed book → ⊥)) }
    {
        let mut conn = conn;
        let mut entries = Vec::new(alloc);
        match find_book(&mut conn, &mut entries) {
            Ok((found, owned)) => Ok(ControlBook {
                conn,
                stopped: false,
                owned,
                last_id: found.last_id,
                first: 0,
                entries,
            }),
            Err(fault) => Err((fault, conn)),
        }
    }

    /// Whether the book's own tables were the first of the database as it began or opened: the others, if there are any,
    /// came later, no foreign key of theirs names one of its own, and `sqlite_sequence` counts for it alone. Where it is
    /// not so, the book works alike, and answers by its entries in memory; of those in the database nothing is promised.
    pub fn owns_database(&self) -> bool
        ensures { result ≡ self.now.owned }
    {
        self.owned
    }

    /// Whether the book has not answered Device. If so, whatever a crash at this moment leaves holds the
    /// entries as they stand.
    pub fn serves(&self) -> bool
        ensures value { result ≡ not self.now.stopped }
        ensures left { HasCleanDisk (state S.Store self.now.conn) → IsTrue result → IsTrue self.now.owned → LeavesBook (state S.Store self.now.conn) self.now.ledger }
    {
        !self.stopped
    }
}

impl ControlBook<MemStore> {
    /// A book without entries in a new database in memory.
    ///
    /// Memory where it ran out; Device where the database failed otherwise.
    pub fn in_memory(alloc: Global) -> Result<ControlBook<MemStore>, OpenFault>
        ensures honest { IfOk result (IsHonestBook over_memory) }
        ensures empty { IfOk result (λ b. b.ledger ≡ empty_ledger) }
        ensures device { result ≡ Err OpenFault.Device → (old new : Held MemStore) × IsEmpty (state over_memory old) × LosesMaking over_memory (making_tables StoreKind.Book) old new }
        ensures taken { result ≡ Err OpenFault.WrongForm → (old new : Held MemStore) × IsEmpty (state over_memory old) × IsTaken over_memory (making_tables StoreKind.Book) old new }
        ensures current { result ≢ Err OpenFault.OldForm }
    {
        let Ok(conn) = Connection::open_in_memory(alloc) else {
            return Err(OpenFault::Memory);
        };
        match ControlBook::create(alloc, conn) {
            Ok(book) => Ok(book),
            Err((fault, _)) => Err(fault),
        }
    }

    /// Whether the book is honest still: it has not answered Device, and its tables are its own. So what
    /// was promised under that premise held up to this moment.
    pub fn is_well(&self) -> bool
        ensures well { IsTrue result → IsHonestBook over_memory self.now }
        ensures told { result ≡ (not self.now.stopped && self.now.owned) }
    {
        self.serves() && self.owns_database()
    }
}
