//! What all stores do alike inside a transaction: they look at the number of their form and at the last id
//! used, and make the tables that each of them begins with.

ghost use Rattle.std.specs.Prelude.{◌≡◌, ◌++◌, ◌↔◌, ◌⊎◌, ⊤, ℕ, List, map, IsTrue, false, OnOk, OnErr, IfOk, [], ◌≢◌, Ok, Err, IfErr, ℤ, codes};
ghost use Rattle.sqlite.specs.Held.{state};
ghost use Rattle.sqlite.specs.Order.{Row as SqlRow};
ghost use Rattle.sqlite.specs.State.{Executes, ExecutesInside, FailsToQuery, HasCleanDisk, IsTooLate, Shown, Survives};
ghost use Rattle.sqlite.specs.Values.{bound};
ghost use Rattle.dnp_store.specs.Added.{LeavesMade, MakeAll, making_tables};
ghost use Rattle.dnp_store.specs.Refusals.{IsNumbered, IsStopped, IsUnmade, RefusesOne, asking};
ghost use Rattle.dnp_store.specs.steps.Inside.{IsInside, IsStep};
ghost use Rattle.dnp_store.specs.PairTables.{IsForm, rows_name};
ghost use Rattle.dnp_objects.specs.declared.limits.TheConstants as limits;
ghost use Rattle.dnp_store.specs.QueueOpens.{NotesInRange};
ghost use Rattle.dnp_store.specs.QueueTables.{IsForm1};
ghost use Rattle.dnp_store.specs.steps.Pairs.{CountsTwo, ReadsPair};
ghost use Rattle.dnp_store.specs.steps.QueueDenied.{DeniesPair};
ghost use Rattle.dnp_store.specs.steps.Shown.{IsMost, ShowsCount, ShowsForm1, ShowsTwo};
ghost use Rattle.dnp_store.specs.steps.Making.{ExecuteAll, bare};
ghost use Rattle.dnp_store.specs.steps.Stores.{Denies, HasNumber, IsFresh, Reads};
ghost use Rattle.dnp_store.specs.Tables.{IsCounted, no_schema};

use crate::decoding::{form1, number_of};
use crate::fault::Unread;
use crate::queue_side::QueueSide;
use crate::store_kind::{StoreKind, rows_text};
use crate::transactions::end;
use sqlite::{Alter, Connection, Error, Row, Transaction};
use sqlite_value::value::ValueRef;

/// Runs a statement.
pub(crate) fn run<S: Alter>(
    tx: &mut Transaction<'_, S>,
    sql: &str,
    params: &[ValueRef<'_>],
) -> Result<(), Error>
    requires inside { IsInside S.Store tx.old.conn }
    ensures step { IsStep S.Store tx.old.conn tx.new.conn result }
    ensures ran { HasCleanDisk (state S.Store tx.new.conn.now) → OnOk result ((count : ℕ) × Executes sql.now (bound params.now) (state S.Store tx.old.conn.now) (state S.Store tx.new.conn.now) (Ok count)) }
    ensures refused { HasCleanDisk (state S.Store tx.new.conn.now) → IfErr result (λ e. IsTrue (state S.Store tx.old.conn.now).in_transaction
        × ExecutesInside 0 sql.now (bound params.now) (state S.Store tx.old.conn.now) (state S.Store tx.new.conn.now) (Err e)) }
{
    match tx.execute(sql, params) {
        Ok(_count) => Ok(()),
        Err(error) => Err(error),
    }
}

/// What a query without parameters shows.
pub(crate) fn list<S: Alter>(tx: &mut Transaction<'_, S>, sql: &str) -> Result<Vec<Row>, Error>
    requires inside { IsInside S.Store tx.old.conn }
    ensures step { IsStep S.Store tx.old.conn tx.new.conn result }
    ensures open { HasCleanDisk (state S.Store tx.new.conn.now) → OnOk result (IsTrue (state S.Store tx.old.conn.now).is_open) }
    ensures shown { HasCleanDisk (state S.Store tx.new.conn.now) → IfOk result (λ rows. Shown sql.now [] (state S.Store tx.old.conn.now) (state S.Store tx.new.conn.now) rows.items) }
    ensures refused { HasCleanDisk (state S.Store tx.new.conn.now) → IfErr result (λ e. FailsToQuery sql.now [] (state S.Store tx.old.conn.now) (state S.Store tx.new.conn.now) e
        ⊎ IsTooLate sql.now [] (state S.Store tx.old.conn.now) (state S.Store tx.new.conn.now) e) }
{
    tx.query_all(sql, &[])
}

/// Looks whether `form` is one row with the number 1.
pub(crate) fn read_form<S: Alter>(tx: &mut Transaction<'_, S>) -> Result<(), Unread>
    requires inside { IsInside S.Store tx.old.conn }
    ensures step { IsStep S.Store tx.old.conn tx.new.conn result }
    ensures open { HasCleanDisk (state S.Store tx.new.conn.now) → OnOk result (IsTrue (state S.Store tx.old.conn.now).is_open) }
    ensures read { HasCleanDisk (state S.Store tx.new.conn.now) → OnOk result ((kind : StoreKind) → Reads kind (state S.Store tx.old.conn.now) (state S.Store tx.new.conn.now) (λ db. IsForm1 (db 0))) }
    ensures named { result ≢ Err Unread.Memory }
    ensures denies { HasCleanDisk (state S.Store tx.new.conn.now) → IfErr result (λ unread. (kind : StoreKind) → Denies kind (state S.Store tx.old.conn.now) unread (λ db. IsForm1 (db 0))) }
    ensures numbered { HasCleanDisk (state S.Store tx.new.conn.now) → OnOk result (IsNumbered S.Store 1 (state S.Store tx.old.conn.now).now) }
    ensures same { HasCleanDisk (state S.Store tx.new.conn.now) → OnOk result ((state S.Store tx.new.conn.now).now ≡ (state S.Store tx.old.conn.now).now) }
    ensures wrong { HasCleanDisk (state S.Store tx.new.conn.now) → result ≡ Err Unread.Form → (rows : List SqlRow)
        × Shown (codes "SELECT rowid, number FROM form ORDER BY rowid") [] (state S.Store tx.old.conn.now) (state S.Store tx.new.conn.now) rows × ((id : ℤ) → ShowsForm1 rows id → ⊥) }
{
    let rows = list(tx, "SELECT rowid, number FROM form ORDER BY rowid")?;
    match form1(&rows) {
        Some(_id) => Ok(()),
        None => Err(Unread::Form),
    }
}

/// The number in the only row of a queue's `form`.
pub(crate) fn read_number<S: Alter>(tx: &mut Transaction<'_, S>) -> Result<u64, Unread>
    requires inside { IsInside S.Store tx.old.conn }
    ensures step { IsStep S.Store tx.old.conn tx.new.conn result }
    ensures open { HasCleanDisk (state S.Store tx.new.conn.now) → OnOk result (IsTrue (state S.Store tx.old.conn.now).is_open) }
    ensures shown { HasCleanDisk (state S.Store tx.new.conn.now) → IfOk result (λ n. IsNumbered S.Store n (state S.Store tx.old.conn.now).now) }
    ensures read { HasCleanDisk (state S.Store tx.new.conn.now) → IfOk result (λ n. Reads StoreKind.Queue (state S.Store tx.old.conn.now) (state S.Store tx.new.conn.now) (λ db. IsForm n (db 0))) }
    ensures read_pair { HasCleanDisk (state S.Store tx.new.conn.now) → IfOk result (λ n. ReadsPair (state S.Store tx.old.conn.now) (state S.Store tx.new.conn.now) (λ db. IsForm n (db 0))) }
    ensures same { HasCleanDisk (state S.Store tx.new.conn.now) → OnOk result ((state S.Store tx.new.conn.now).now ≡ (state S.Store tx.old.conn.now).now) }
    ensures denies { HasCleanDisk (state S.Store tx.new.conn.now) → IfErr result (λ unread. Denies StoreKind.Queue (state S.Store tx.old.conn.now) unread (λ db. (n : ℕ) × IsForm n (db 0))) }
    ensures denies_pair { HasCleanDisk (state S.Store tx.new.conn.now) → IfErr result (λ unread. DeniesPair (state S.Store tx.old.conn.now) unread (λ db. (n : ℕ) × IsForm n (db 0))) }
{
    let rows = list(tx, "SELECT rowid, number FROM form ORDER BY rowid")?;
    match number_of(&rows) {
        Some(number) => Ok(number),
        None => Err(Unread::Form),
    }
}

/// The rows of `sqlite_sequence`: the table and the last id used.
pub(crate) fn read_counts<S: Alter>(tx: &mut Transaction<'_, S>) -> Result<Vec<Row>, Error>
    requires inside { IsInside S.Store tx.old.conn }
    ensures step { IsStep S.Store tx.old.conn tx.new.conn result }
    ensures open { HasCleanDisk (state S.Store tx.new.conn.now) → OnOk result (IsTrue (state S.Store tx.old.conn.now).is_open) }
    ensures read { HasCleanDisk (state S.Store tx.new.conn.now) → IfOk result (λ rows. (kind : StoreKind) → Reads kind (state S.Store tx.old.conn.now) (state S.Store tx.new.conn.now)
        (λ db. (table : List ℕ) (n : ℕ) → ShowsCount table rows.items n ↔ IsCounted table (db 2) n)) }
    ensures denies { HasCleanDisk (state S.Store tx.new.conn.now) → IfErr result (λ e. (kind : StoreKind) → Denies kind (state S.Store tx.old.conn.now) (Unread.Failed e) (λ _. ⊤)) }
    ensures read_pair { HasCleanDisk (state S.Store tx.new.conn.now) → IfOk result (λ rows. ReadsPair (state S.Store tx.old.conn.now) (state S.Store tx.new.conn.now)
        (λ db. (n m : ℕ) → ShowsTwo (rows_name QueueSide.First) (rows_name QueueSide.Second) rows.items n m ↔ CountsTwo (db 2) n m)) }
    ensures denies_pair { HasCleanDisk (state S.Store tx.new.conn.now) → IfErr result (λ e. DeniesPair (state S.Store tx.old.conn.now) (Unread.Failed e) (λ _. ⊤)) }
    ensures in_range { HasCleanDisk (state S.Store tx.new.conn.now) → IfOk result (λ rows. Reads StoreKind.Queue (state S.Store tx.old.conn.now) (state S.Store tx.new.conn.now)
        (λ db. NotesInRange (db 2) → IsMost (rows_name QueueSide.First) rows.items limits.MAX_ID)) }
    ensures same { HasCleanDisk (state S.Store tx.new.conn.now) → OnOk result ((state S.Store tx.new.conn.now).now ≡ (state S.Store tx.old.conn.now).now) }
{
    list(
        tx,
        "SELECT rowid, name, seq FROM sqlite_sequence ORDER BY rowid",
    )
}

/// The rows of `sqlite_sequence`, where `form` is one row with the number 1.
pub(crate) fn read_begun<S: Alter>(tx: &mut Transaction<'_, S>) -> Result<Vec<Row>, Unread>
    requires inside { IsInside S.Store tx.old.conn }
    ensures step { IsStep S.Store tx.old.conn tx.new.conn result }
    ensures open { HasCleanDisk (state S.Store tx.new.conn.now) → OnOk result (IsTrue (state S.Store tx.old.conn.now).is_open) }
    ensures read { HasCleanDisk (state S.Store tx.new.conn.now) → IfOk result (λ rows. (kind : StoreKind) → Reads kind (state S.Store tx.old.conn.now) (state S.Store tx.new.conn.now)
        (λ db. IsForm1 (db 0) × ((table : List ℕ) (n : ℕ) → ShowsCount table rows.items n ↔ IsCounted table (db 2) n))) }
    ensures numbered { HasCleanDisk (state S.Store tx.new.conn.now) → OnOk result (IsNumbered S.Store 1 (state S.Store tx.old.conn.now).now) }
    ensures same { HasCleanDisk (state S.Store tx.new.conn.now) → OnOk result ((state S.Store tx.new.conn.now).now ≡ (state S.Store tx.old.conn.now).now) }
    ensures denies { HasCleanDisk (state S.Store tx.new.conn.now) → IfErr result (λ unread. (kind : StoreKind) → Denies kind (state S.Store tx.old.conn.now) unread (λ db. IsForm1 (db 0))) }
{
    read_form(tx)?;
    Ok(read_counts(tx)?)
}

/// Runs statements without parameters, one after the other.
pub(crate) fn run_all<S: Alter>(tx: &mut Transaction<'_, S>, texts: &[&str]) -> Result<(), Error>
    requires inside { IsInside S.Store tx.old.conn }
    ensures step { IsStep S.Store tx.old.conn tx.new.conn result }
    ensures refused { HasCleanDisk (state S.Store tx.new.conn.now) → IfErr result (IsStopped S.Store (RefusesOne S.Store (map bare (map (λ text. text.now) texts.now))) tx.old.conn.now tx.new.conn.now) }
    ensures ran { HasCleanDisk (state S.Store tx.new.conn.now) → OnOk result (ExecuteAll S.Store (map (λ text. text.now) texts.now) tx.old.conn.now tx.new.conn.now) }
{
    for text in texts {
        run(tx, text, &[])?;
    }
    Ok(())
}

/// Makes what a store begins with: `form` with its number, and the table of its rows.
pub(crate) fn make_tables<S: Alter>(
    tx: &mut Transaction<'_, S>,
    kind: StoreKind,
) -> Result<(), Error>
    requires inside { IsInside S.Store tx.old.conn }
    ensures step { IsStep S.Store tx.old.conn tx.new.conn result }
    ensures refused { HasCleanDisk (state S.Store tx.new.conn.now) → IfErr result (IsStopped S.Store (RefusesOne S.Store (making_tables kind)) tx.old.conn.now tx.new.conn.now) }
    ensures made { HasCleanDisk (state S.Store tx.new.conn.now) → OnOk result ((state S.Store tx.old.conn.now).now.schema ≡ no_schema → HasNumber kind (state S.Store tx.new.conn.now).now) }
    ensures added { HasCleanDisk (state S.Store tx.new.conn.now) → OnOk result (MakeAll S.Store (making_tables kind) (state S.Store tx.old.conn.now).now (state S.Store tx.new.conn.now).now) }
{
    let texts = [
        "CREATE TABLE form (number INTEGER NOT NULL CHECK (number BETWEEN 1 AND 1000))",
        rows_text(kind),
        "INSERT INTO form VALUES (1)",
    ];
    run_all(tx, &texts)
}

/// Has the connection keep what the empty text means, so that it needs no memory when it is asked whether it
/// still serves. A table that is made after it has the connection forget.
pub(crate) fn keep_probe<S: Alter>(tx: &mut Transaction<'_, S>) -> Result<(), Error>
    requires inside { IsInside S.Store tx.old.conn }
    ensures step { IsStep S.Store tx.old.conn tx.new.conn result }
    ensures refused { HasCleanDisk (state S.Store tx.new.conn.now) → IfErr result (IsStopped S.Store (RefusesOne S.Store asking) tx.old.conn.now tx.new.conn.now) }
    ensures same { HasCleanDisk (state S.Store tx.new.conn.now) → OnOk result ((state S.Store tx.new.conn.now).now ≡ (state S.Store tx.old.conn.now).now) }
{
    match tx.prepare("") {
        Ok(_nothing) => Ok(()),
        Err(error) => Err(error),
    }
}

/// Makes what a journal or a book begins with, and has the connection ready to be asked.
fn make_store<S: Alter>(tx: &mut Transaction<'_, S>, kind: StoreKind) -> Result<(), Error>
    requires inside { IsInside S.Store tx.old.conn }
    ensures step { IsStep S.Store tx.old.conn tx.new.conn result }
    ensures refused { HasCleanDisk (state S.Store tx.new.conn.now) → IfErr result (IsStopped S.Store (RefusesOne S.Store (making_tables kind ++ asking)) tx.old.conn.now tx.new.conn.now) }
    ensures made { HasCleanDisk (state S.Store tx.new.conn.now) → OnOk result ((state S.Store tx.old.conn.now).now.schema ≡ no_schema → HasNumber kind (state S.Store tx.new.conn.now).now) }
    ensures added { HasCleanDisk (state S.Store tx.new.conn.now) → OnOk result (MakeAll S.Store (making_tables kind) (state S.Store tx.old.conn.now).now (state S.Store tx.new.conn.now).now) }
{
    make_tables(tx, kind)?;
    keep_probe(tx)
}

/// Makes the tables of a journal or a book without rows, in one transaction.
pub(crate) fn write_tables<S: Alter>(conn: &mut Connection<S>, kind: StoreKind) -> Result<(), Error>
    requires idle { conn.old.in_transaction ≡ false }
    ensures idle { conn.new.in_transaction ≡ false }
    ensures ok { HasCleanDisk (state S.Store conn.new) → (state S.Store conn.old).now.schema ≡ no_schema
        → OnOk result (IsTrue (state S.Store conn.new).is_open × HasNumber kind (state S.Store conn.new).committed) }
    ensures err { HasCleanDisk (state S.Store conn.new) → IsTrue (state S.Store conn.new).is_open → OnErr result (IsTrue (state S.Store conn.old).is_open × ((state S.Store conn.new).committed ≡ (state S.Store conn.old).committed)) }
    ensures refused { HasCleanDisk (state S.Store conn.new) → IfErr result (IsUnmade S.Store (making_tables kind) conn.old conn.new) }
    ensures added { HasCleanDisk (state S.Store conn.new) → OnOk result (MakeAll S.Store (making_tables kind) (state S.Store conn.old).now (state S.Store conn.new).committed) }
    ensures survives { Survives (state S.Store conn.old) (state S.Store conn.new) (LeavesMade S.Store (making_tables kind) IsFresh (state S.Store conn.old).now) }
{
    let mut tx = conn.transaction();
    let done = make_store(&mut tx, kind);
    end(tx, done)
}
