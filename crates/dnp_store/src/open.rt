//! Stores on databases: how they begin.

ghost use Rattle.std.specs.Prelude.{◌≡◌, ◌≢◌, ◌⊎◌, ◌&&◌, List, ◌↔◌, ◌≤◌, true, false, not, if◌then◌else◌, All, IsTrue, IfOk, IfErr, IsErrAnd, IfSome, OnErr, OnOk, Err};
ghost use Rattle.sqlite.specs.Held.{Held, state};
ghost use Rattle.sqlite.specs.State.{HasCleanDisk, Survives};
ghost use Rattle.sqlite.specs.Term.{Term};
ghost use Rattle.sqlite.specs.Steps.{IsEmpty, over_memory};
ghost use Rattle.dnp_eventbuf.specs.Sound.{IsSoundBuffer};
ghost use Rattle.dnp_eventbuf.specs.EventBuffer.{EventBuffer, empty_buffer};
ghost use Rattle.dnp_store.specs.Added.{LeavesMade, LeavesSecond, MakeAll, making_queue, making_second, making_tables};
ghost use Rattle.dnp_store.specs.Faults.{IsCut, RefusesNothing, is_out_of_memory, is_wrong};
ghost use Rattle.dnp_store.specs.QueueKept.{AreSound, IsHonestQueue, LeavesQueue, QueueStands};
ghost use Rattle.dnp_store.specs.PairTables.{HoldsPair, IsPair, Sides, migrated};
ghost use Rattle.dnp_store.specs.QueueOpens.{HoldsOne, HoldsTwo};
ghost use Rattle.dnp_store.specs.QueueTables.{IsQueue, IsUncounted, queue_schema};
ghost use Rattle.dnp_store.specs.Refusals.{IsNumbered, IsTaken, LosesMaking};
ghost use Rattle.dnp_store.specs.Schemas.{made_pair};
ghost use Rattle.dnp_store.specs.Showing.{HasOne, HasSides};
ghost use Rattle.dnp_store.specs.steps.Beginning.{IsMade, IsServed, IsTold, TellsTaken};
ghost use Rattle.dnp_store.specs.steps.Stores.{HasNumber, IsFresh};
ghost use Rattle.dnp_store.specs.Tables.{no_schema};

use crate::fault::{Unread, is_lost, is_memory, is_taken, is_unread, probe};
use crate::queue::Queue;
use crate::queue_begin::{make_lanes, migrate_lanes, open_lanes};
use crate::store_kind::StoreKind;
use crate::stores::write_tables;
use dnp_eventbuf::MAX_CAPACITY;
use dnp_objects::LANES;
use sqlite::{Alter, Connection, Error, MemStore};
use std::alloc::Global;
use thiserror::Error;

/// Why a store does not begin on a database, in the order in which the causes are looked for.
#[derive(Clone, Copy, Debug, PartialEq, Eq, Error)]
pub enum OpenFault {
    /// The database, or the connection, is not of the form that is wanted.
    #[error("the database is not of this form")]
    WrongForm,
    /// Memory ran out.
    #[error("out of memory")]
    Memory,
    /// The device under the database failed.
    #[error("the device under the database failed")]
    Device,
    /// The database is a queue's of the form for one centre, which `Queue::migrate` brings to that for two.
    #[error("the database is a queue's of the form for one centre")]
    OldForm,
}

/// Whether the database has no table, index or view.
pub(crate) fn is_bare<S: Alter>(conn: &Connection<S>) -> bool
    ensures { IsTrue result ↔ ((state S.Store conn.now).now.schema ≡ no_schema) }
{
    let schema = conn.schema();
    schema.tables.is_empty() && schema.indexes.is_empty() && schema.views.is_empty()
}

/// Why a store does not begin or open, by whether what stands there is wrong and whether the connection is
/// lost.
pub(crate) fn open_fault(is_wrong: bool, lost: bool) -> OpenFault
    ensures { result ≡ (if is_wrong then OpenFault.WrongForm else (if lost then OpenFault.Device else OpenFault.Memory)) }
{
    if is_wrong {
        OpenFault::WrongForm
    } else if lost {
        OpenFault::Device
    } else {
        OpenFault::Memory
    }
}

/// Why a store does not open, where its tables could not be read.
pub(crate) fn unread_fault<S: Alter>(conn: &mut Connection<S>, unread: &Unread) -> OpenFault
    requires { conn.old.in_transaction ≡ false }
    ensures idle { conn.new.in_transaction ≡ false }
    ensures wrong { IsTrue (is_wrong unread.now) → result ≡ OpenFault.WrongForm }
    ensures only_wrong { result ≡ OpenFault.WrongForm → IsTrue (is_wrong unread.now) }
    ensures memory { result ≡ OpenFault.Memory → IsTrue (is_out_of_memory unread.now) }
    ensures current { result ≢ OpenFault.OldForm }
    ensures lost { HasCleanDisk (state S.Store conn.new) → result ≡ OpenFault.Device → (is_out_of_memory unread.now ≡ false) ⊎ RefusesNothing (state S.Store conn.old) (state S.Store conn.new) }
    ensures survives { Survives (state S.Store conn.old) (state S.Store conn.new) (λ _. ⊥) }
    ensures same { HasCleanDisk (state S.Store conn.new) → IsTrue (state S.Store conn.new).is_open
        → IsTrue (state S.Store conn.old).is_open × ((state S.Store conn.new).committed ≡ (state S.Store conn.old).committed) }
{
    match unread {
        Unread::Form => OpenFault::WrongForm,
        Unread::Memory => OpenFault::Memory,
        Unread::Failed(error) => {
            let lost = is_lost(conn, error);
            open_fault(is_unread(error), lost)
        }
    }
}

/// Why a store that was read doesn't open after all: its connection is to serve still.
pub(crate) fn last_fault<S: Alter>(conn: &mut Connection<S>) -> Option<OpenFault>
    requires { conn.old.in_transaction ≡ false }
    ensures idle { conn.new.in_transaction ≡ false }
    ensures open { HasCleanDisk (state S.Store conn.new) → result ≡ None → IsTrue (state S.Store conn.new).is_open }
    ensures same { HasCleanDisk (state S.Store conn.new) → IsTrue (state S.Store conn.new).is_open
        → IsTrue (state S.Store conn.old).is_open × ((state S.Store conn.new).committed ≡ (state S.Store conn.old).committed) }
    ensures device { HasCleanDisk (state S.Store conn.new) → result ≡ Some OpenFault.Device → IsCut (state S.Store conn.old) (state S.Store conn.new) }
    ensures named { IfSome result (λ fault. fault ≢ OpenFault.WrongForm) }
    ensures current { IfSome result (λ fault. fault ≢ OpenFault.OldForm) }
    ensures survives { Survives (state S.Store conn.old) (state S.Store conn.new) (λ _. ⊥) }
{
    match probe(conn) {
        Ok(()) => None,
        Err(error) => Some(open_fault(false, !is_memory(&error))),
    }
}

/// What was read of a store, where its connection serves still; or why the store doesn't open.
pub(crate) fn served<S: Alter, Found: Drop>(
    conn: &mut Connection<S>,
    read: Result<Found, Unread>,
) -> Result<Found, OpenFault>
    requires { conn.old.in_transaction ≡ false }
    ensures { IsServed S.Store conn.old conn.new read result }
{
    match read {
        Ok(found) => match last_fault(conn) {
            Some(fault) => Err(fault),
            None => Ok(found),
        },
        Err(unread) => Err(unread_fault(conn, &unread)),
    }
}

/// What a store answers that was to make its tables: where it didn't, why.
pub(crate) fn told<S: Alter>(
    conn: &mut Connection<S>,
    done: Result<(), Error>,
) -> Result<(), OpenFault>
    requires { conn.old.in_transaction ≡ false }
    ensures told { IsTold S.Store conn.old conn.new done result }
    ensures free { TellsTaken done result }
{
    match done {
        Ok(()) => Ok(()),
        Err(error) => {
            let lost = is_lost(conn, &error);
            Err(open_fault(is_taken(&error), lost))
        }
    }
}

/// What a store answers that was to make tables whose names are free: where it didn't, Memory or Device.
pub(crate) fn written<S: Alter>(
    conn: &mut Connection<S>,
    done: Result<(), Error>,
) -> Result<(), OpenFault>
    requires { conn.old.in_transaction ≡ false }
    ensures told { IsTold S.Store conn.old conn.new done result }
    ensures named { IfErr result (λ fault. fault ≢ OpenFault.WrongForm) }
{
    match done {
        Ok(()) => Ok(()),
        Err(error) => Err(open_fault(false, is_lost(conn, &error))),
    }
}

/// Makes the tables of a journal or a book, and tells whether nothing else stands in the database.
pub(crate) fn begin_tables<S: Alter>(
    conn: &mut Connection<S>,
    kind: StoreKind,
) -> Result<bool, OpenFault>
    ensures { IsMade S.Store (making_tables kind) IsFresh (λ s. IsTrue s.is_open × HasNumber kind s.committed) (λ owned. owned) conn.old conn.new result }
{
    if !conn.is_autocommit() {
        return Err(OpenFault::WrongForm);
    }
    let owned = is_bare(conn);
    let done = write_tables(conn, kind);
    match told(conn, done) {
        Ok(()) => Ok(owned),
        Err(fault) => Err(fault),
    }
}

impl<S: Alter> Queue<S> {
    /// Makes empty lanes in the database for two centres, which take this many rows each, 1 to `MAX_CAPACITY`: those
    /// for the first, and those for the second. Beside other tables the same statements run, in one
    /// transaction, and no others; but the lanes promise to hold their rows only where there are none.
    ///
    /// WrongForm where a name of its tables is taken, or the connection is inside a transaction; else
    /// Memory or Device. A refusal hands the connection back, with the database as it was.
    pub fn create(
        alloc: Global,
        conn: Connection<S>,
        first: [u32; LANES],
        second: [u32; LANES],
    ) -> Result<Queue<S>, (OpenFault, Connection<S>)>
        requires first { All (λ capacity. (1 ≤ capacity) × (capacity ≤ MAX_CAPACITY)) first }
        requires second { All (λ capacity. (1 ≤ capacity) × (capacity ≤ MAX_CAPACITY)) second }
        ensures inside { IsTrue conn.in_transaction → IsErrAnd result (λ e. (e.0 ≡ OpenFault.WrongForm) × (e.1 ≡ conn)) }
        ensures held { IfOk result (λ q. HasCleanDisk (state S.Store q.conn) → HasCleanDisk (state S.Store conn)) }
        ensures empty { IfOk result (λ q. (q.sides ≡ record { first = empty_buffer first; second = empty_buffer second }) × (q.stopped ≡ false)) }
        ensures owned { IfOk result (λ q. IsTrue q.owned ↔ ((state S.Store conn).now.schema ≡ no_schema)) }
        ensures stands { IfOk result (λ q. HasCleanDisk (state S.Store q.conn) → IsTrue q.owned → QueueStands (state S.Store q.conn) q.sides) }
        ensures same { IfErr result (λ e. HasCleanDisk (state S.Store e.1) → IsTrue (state S.Store e.1).is_open → (state S.Store e.1).committed ≡ (state S.Store conn).committed) }
        ensures schema { IfOk result (λ q. HasCleanDisk (state S.Store q.conn) → IsTrue q.owned → (state S.Store q.conn).committed.schema ≡ made_pair) }
        ensures added { IfOk result (λ q. HasCleanDisk (state S.Store q.conn) → MakeAll S.Store (making_queue first second) (state S.Store conn).now (state S.Store q.conn).committed) }
        ensures made { IfOk result (λ q. Survives (state S.Store conn) (state S.Store q.conn) (LeavesMade S.Store (making_queue first second) (λ db. HoldsPair db (record { first = empty_buffer first; second = empty_buffer second })) (state S.Store conn).now)) }
        ensures left { IfErr result (λ e. Survives (state S.Store conn) (state S.Store e.1) (LeavesMade S.Store (making_queue first second) (λ db. HoldsPair db (record { first = empty_buffer first; second = empty_buffer second })) (state S.Store conn).now)) }
        ensures handed_back { IfErr result (λ e. (e.1.in_transaction ≡ conn.in_transaction) × (e.1.step_limit ≡ conn.step_limit)) }
        ensures device { IfErr result (λ e. HasCleanDisk (state S.Store e.1) → e.0 ≡ OpenFault.Device → LosesMaking S.Store (making_queue first second) conn e.1) }
        ensures taken { IfErr result (λ e. HasCleanDisk (state S.Store e.1) → e.0 ≡ OpenFault.WrongForm → IsTrue conn.in_transaction ⊎ IsTaken S.Store (making_queue first second) conn e.1) }
        ensures current { IfErr result (λ e. e.0 ≢ OpenFault.OldForm) }
    {
        let mut conn = conn;
        match make_lanes(&mut conn, alloc, &first, &second) {
            Ok((first, second, owned)) => Ok(Queue {
                conn,
                first,
                second,
                stopped: false,
                owned,
            }),
            Err(fault) => Err((fault, conn)),
        }
    }

    /// Opens the lanes that the database holds for two centres, with the capacities that stand there. Nothing is written.
    ///
    /// OldForm where a queue for one centre would open, which `migrate` takes. WrongForm where a table or a column of theirs
    /// is missing; where `form` isn't one row with the number 2, or `lanes` or `lanes_b` isn't its nine rows; where a value
    /// isn't a whole number in its column's range, an id isn't in 1 to `MAX_ID`, a lane holds more rows than its
    /// capacity, or a row that its event object can't carry; or where the connection is inside a transaction. Else Memory
    /// or Device. A refusal hands the connection back, with the database as it was.
    pub fn open(alloc: Global, conn: Connection<S>) -> Result<Queue<S>, (OpenFault, Connection<S>)>
        ensures inside { IsTrue conn.in_transaction → IsErrAnd result (λ e. (e.0 ≡ OpenFault.WrongForm) × (e.1 ≡ conn)) }
        ensures held { IfOk result (λ q. HasCleanDisk (state S.Store q.conn) → HasCleanDisk (state S.Store conn)) }
        ensures serves { IfOk result (λ q. q.stopped ≡ false) }
        ensures found { IfOk result (λ q. HasCleanDisk (state S.Store q.conn) → IsTrue q.owned → IsPair (state S.Store conn).committed q.sides) }
        ensures stands { IfOk result (λ q. HasCleanDisk (state S.Store q.conn) → IsTrue q.owned → QueueStands (state S.Store q.conn) q.sides) }
        ensures same { IfErr result (λ e. HasCleanDisk (state S.Store e.1) → IsTrue (state S.Store e.1).is_open → (state S.Store e.1).committed ≡ (state S.Store conn).committed) }
        ensures unwritten { IfOk result (λ q. Survives (state S.Store conn) (state S.Store q.conn) (λ _. ⊥)) }
        ensures left { IfErr result (λ e. Survives (state S.Store conn) (state S.Store e.1) (λ _. ⊥)) }
        ensures handed_back { IfErr result (λ e. (e.1.in_transaction ≡ conn.in_transaction) × (e.1.step_limit ≡ conn.step_limit)) }
        ensures owned { IfOk result (λ q. HasCleanDisk (state S.Store q.conn) → (sides : Sides) → IsPair (state S.Store conn).committed sides → IsTrue q.owned) }
        ensures current { IfOk result (λ q. HasCleanDisk (state S.Store q.conn) → IsNumbered S.Store 2 (state S.Store conn).committed) }
        ensures lanes { IfOk result (λ q. HasCleanDisk (state S.Store q.conn) → HasSides S.Store q.sides (state S.Store conn).committed) }
        ensures numbered { IfErr result (λ e. HasCleanDisk (state S.Store e.1) → e.0 ≡ OpenFault.OldForm → IsNumbered S.Store 1 (state S.Store conn).committed) }
        ensures old_form { IfErr result (λ e. HasCleanDisk (state S.Store e.1) → e.0 ≡ OpenFault.OldForm → (f q l : List Term) → (state S.Store conn).committed.schema ≡ queue_schema f q l
            → (buffer : EventBuffer) × IsUncounted (state S.Store conn).committed buffer) }
        ensures not_old { IfErr result (λ e. HasCleanDisk (state S.Store e.1) → e.0 ≡ OpenFault.OldForm → (sides : Sides) → IsPair (state S.Store conn).committed sides → ⊥) }
        ensures not_new { IfOk result (λ q. HasCleanDisk (state S.Store q.conn) → (buffer : EventBuffer) → IsQueue (state S.Store conn).committed buffer → ⊥) }
        ensures wrong_form { IfErr result (λ e. HasCleanDisk (state S.Store e.1) → e.0 ≡ OpenFault.WrongForm → IsTrue conn.in_transaction
            ⊎ (HoldsTwo (state S.Store conn).committed ⊎ HoldsOne (state S.Store conn).committed → ⊥)) }
    {
        let mut conn = conn;
        match open_lanes(&mut conn, alloc) {
            Ok((first, second, owned)) => Ok(Queue {
                conn,
                first,
                second,
                stopped: false,
                owned,
            }),
            Err(fault) => Err((fault, conn)),
        }
    }

    /// Opens the lanes that the database holds, and where it holds them for one centre, brings it to the form for two
    /// before, in one transaction: they are the first centre's, and the second's are empty and take this many rows each, 1
    /// to `MAX_CAPACITY`. Where it holds them for two, nothing is written.
    ///
    /// WrongForm where `open` answers it, or where the name of a table for the second centre is taken; else Memory or Device. A refusal hands the connection back, with the
    /// database as it was.
    pub fn migrate(
        alloc: Global,
        conn: Connection<S>,
        capacities: [u32; LANES],
    ) -> Result<Queue<S>, (OpenFault, Connection<S>)>
        requires capacities { All (λ capacity. (1 ≤ capacity) × (capacity ≤ MAX_CAPACITY)) capacities }
        ensures inside { IsTrue conn.in_transaction → IsErrAnd result (λ e. (e.0 ≡ OpenFault.WrongForm) × (e.1 ≡ conn)) }
        ensures held { IfOk result (λ q. HasCleanDisk (state S.Store q.conn) → HasCleanDisk (state S.Store conn)) }
        ensures serves { IfOk result (λ q. q.stopped ≡ false) }
        ensures current { IfErr result (λ e. e.0 ≢ OpenFault.OldForm) }
        ensures owned { IfOk result (λ q. HasCleanDisk (state S.Store q.conn) → (sides : Sides) → IsPair (state S.Store conn).committed sides → IsTrue q.owned) }
        ensures lanes { IfOk result (λ q. HasCleanDisk (state S.Store q.conn) → HasSides S.Store q.sides (state S.Store conn).committed
            ⊎ HasOne S.Store capacities q.sides (state S.Store conn).committed) }
        ensures owned_old { IfOk result (λ q. HasCleanDisk (state S.Store q.conn) → (buffer : EventBuffer) → IsQueue (state S.Store conn).committed buffer → IsTrue q.owned) }
        ensures migrated { IfOk result (λ q. HasCleanDisk (state S.Store q.conn) → IsTrue q.owned → (buffer : EventBuffer) → IsSoundBuffer buffer → IsQueue (state S.Store conn).committed buffer → q.sides ≡ migrated buffer capacities) }
        ensures kept { IfOk result (λ q. HasCleanDisk (state S.Store q.conn) → IsTrue q.owned → (sides : Sides) → AreSound sides → IsPair (state S.Store conn).committed sides → q.sides ≡ sides) }
        ensures stands { IfOk result (λ q. HasCleanDisk (state S.Store q.conn) → IsTrue q.owned → QueueStands (state S.Store q.conn) q.sides) }
        ensures same { IfErr result (λ e. HasCleanDisk (state S.Store e.1) → IsTrue (state S.Store e.1).is_open → (state S.Store e.1).committed ≡ (state S.Store conn).committed) }
        ensures added { IfOk result (λ q. HasCleanDisk (state S.Store q.conn) → ((state S.Store q.conn).committed ≡ (state S.Store conn).committed)
            ⊎ MakeAll S.Store (making_second capacities) (state S.Store conn).committed (state S.Store q.conn).committed) }
        ensures made { IfOk result (λ q. Survives (state S.Store conn) (state S.Store q.conn) (LeavesSecond S.Store (state S.Store conn).committed capacities)) }
        ensures left { IfErr result (λ e. Survives (state S.Store conn) (state S.Store e.1) (LeavesSecond S.Store (state S.Store conn).committed capacities)) }
        ensures unwritten { IfOk result (λ q. (sides : Sides) → IsPair (state S.Store conn).committed sides → Survives (state S.Store conn) (state S.Store q.conn) (λ _. ⊥)) }
        ensures unwritten_too { IfErr result (λ e. (sides : Sides) → IsPair (state S.Store conn).committed sides → Survives (state S.Store conn) (state S.Store e.1) (λ _. ⊥)) }
        ensures wrong_form { IfErr result (λ e. HasCleanDisk (state S.Store e.1) → e.0 ≡ OpenFault.WrongForm → IsTrue conn.in_transaction
            ⊎ (HoldsTwo (state S.Store conn).committed ⊎ HoldsOne (state S.Store conn).committed → ⊥)) }
        ensures handed_back { IfErr result (λ e. (e.1.in_transaction ≡ conn.in_transaction) × (e.1.step_limit ≡ conn.step_limit)) }
    {
        let mut conn = conn;
        match migrate_lanes(&mut conn, alloc, &capacities) {
            Ok((first, second, owned)) => Ok(Queue {
                conn,
                first,
                second,
                stopped: false,
                owned,
            }),
            Err(fault) => Err((fault, conn)),
        }
    }

    /// Whether the queue has not answered Device. If so, whatever a crash at this moment leaves holds the
    /// lanes as they stand.
    pub fn serves(&self) -> bool
        ensures value { result ≡ not self.now.stopped }
        ensures left { HasCleanDisk (state S.Store self.now.conn) → IsTrue result → IsTrue self.now.owned → LeavesQueue (state S.Store self.now.conn) self.now.sides }
    {
        !self.stopped
    }

    /// Whether the queue's own tables were the first of the database as it began or opened: the others, if there are any,
    /// came later, no foreign key of theirs names one of its own, and `sqlite_sequence` counts for it alone. Where it is
    /// not so, the queue works alike, and answers by its rows in memory; of those in the database nothing is promised.
    pub fn owns_database(&self) -> bool
        ensures { result ≡ self.now.owned }
    {
        self.owned
    }
}

impl Queue<MemStore> {
    /// Empty lanes for two centres in a new database in memory, which take this many rows each, 1 to `MAX_CAPACITY`.
    ///
    /// Memory where it ran out; Device where the database failed otherwise.
    pub fn in_memory(
        alloc: Global,
        first: [u32; LANES],
        second: [u32; LANES],
    ) -> Result<Queue<MemStore>, OpenFault>
        requires first { All (λ capacity. (1 ≤ capacity) × (capacity ≤ MAX_CAPACITY)) first }
        requires second { All (λ capacity. (1 ≤ capacity) × (capacity ≤ MAX_CAPACITY)) second }
        ensures honest { IfOk result (IsHonestQueue over_memory) }
        ensures empty { IfOk result (λ q. q.sides ≡ record { first = empty_buffer first; second = empty_buffer second }) }
        ensures device { result ≡ Err OpenFault.Device → (old new : Held MemStore) × IsEmpty (state over_memory old) × LosesMaking over_memory (making_queue first second) old new }
        ensures taken { result ≡ Err OpenFault.WrongForm → (old new : Held MemStore) × IsEmpty (state over_memory old) × IsTaken over_memory (making_queue first second) old new }
        ensures current { result ≢ Err OpenFault.OldForm }
    {
        let Ok(conn) = Connection::open_in_memory(alloc) else {
            return Err(OpenFault::Memory);
        };
        match Queue::create(alloc, conn, first, second) {
            Ok(queue) => Ok(queue),
            Err((fault, _)) => Err(fault),
        }
    }

    /// Whether the queue is honest still: it has not answered Device, and its tables are its own. So what
    /// was promised under that premise held up to this moment.
    pub fn is_well(&self) -> bool
        ensures well { IsTrue result → IsHonestQueue over_memory self.now }
        ensures told { result ≡ (not self.now.stopped && self.now.owned) }
    {
        self.serves() && self.owns_database()
    }
}
