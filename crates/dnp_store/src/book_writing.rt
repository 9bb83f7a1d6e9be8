//! What the calls of a book write, each in one transaction.

ghost use Rattle.std.specs.Prelude.{◌≡◌, ◌<◌, ◌^◌, false, IsSome, IsTrue, OnOk, OnErr, IfErr};
ghost use Rattle.sqlite.specs.Held.{state};
ghost use Rattle.sqlite.specs.State.{HasCleanDisk, Survives};
ghost use Rattle.dnp_controls.specs.Book.{IsSoundLedger, Ledger, added, entry_of, in_state};
ghost use Rattle.dnp_store.specs.Refusals.{IsRefused};
ghost use Rattle.dnp_store.specs.steps.Inside.{IsInside, IsStep};
ghost use Rattle.dnp_store.specs.BookKept.{BookStands};
ghost use Rattle.dnp_store.specs.BookTables.{HoldsBook, IsBook};

use crate::book_columns::{columns_of, state_columns};
use crate::store_kind::StoreKind;
use crate::stores::run;
use crate::transactions::end;
use dnp_controls::State;
use dnp_objects::Command;
use sqlite::{Alter, Connection, Error, Transaction, params};

/// Puts a pending entry into the table, under the next id.
fn insert<S: Alter>(tx: &mut Transaction<'_, S>, target: u8, command: &Command) -> Result<(), Error>
    requires inside { IsInside S.Store tx.old.conn }
    ensures step { IsStep S.Store tx.old.conn tx.new.conn result }
    ensures refused { HasCleanDisk (state S.Store tx.new.conn.now) → IfErr result (IsRefused S.Store StoreKind.Book tx.old.conn.now tx.new.conn.now) }
    ensures added { HasCleanDisk (state S.Store tx.new.conn.now) → OnOk result ((book : Ledger) → IsSoundLedger book → IsBook (state S.Store tx.old.conn.now).now book
        → IsBook (state S.Store tx.new.conn.now).now (added book target command.now)) }
{
    let target = u32::from(target);
    let columns = columns_of(command);
    let kind = columns.kind;
    let point = columns.point;
    let code = columns.code;
    let count = columns.count;
    let on_ms = columns.on_ms;
    let off_ms = columns.off_ms;
    let value = columns.value;
    run(
        tx,
        "INSERT INTO control (target, kind, point, code, count, on_ms, off_ms, value, state, status) VALUES (?1, ?2, ?3, ?4, ?5, ?6, ?7, ?8, 0, 0)",
        params![target, kind, point, code, count, on_ms, off_ms, value],
    )
}

/// Brings an entry into a state.
fn turn<S: Alter>(tx: &mut Transaction<'_, S>, id: u64, control: State) -> Result<(), Error>
    requires inside { IsInside S.Store tx.old.conn }
    requires id { id < 2 ^ 63 }
    ensures step { IsStep S.Store tx.old.conn tx.new.conn result }
    ensures refused { HasCleanDisk (state S.Store tx.new.conn.now) → IfErr result (IsRefused S.Store StoreKind.Book tx.old.conn.now tx.new.conn.now) }
    ensures turned { HasCleanDisk (state S.Store tx.new.conn.now) → OnOk result ((book : Ledger) → IsSoundLedger book → IsSome (entry_of book.entries id) → IsBook (state S.Store tx.old.conn.now).now book
        → IsBook (state S.Store tx.new.conn.now).now (record book { entries = in_state book.entries id control })) }
{
    let id = id as i64;
    let (number, status) = state_columns(control);
    run(
        tx,
        "UPDATE control SET state = ?2, status = ?3 WHERE id = ?1",
        params![id, number, status],
    )
}

/// Writes what an addition changes.
pub(crate) fn write_added<S: Alter>(
    conn: &mut Connection<S>,
    target: u8,
    command: &Command,
) -> Result<(), Error>
    requires idle { conn.old.in_transaction ≡ false }
    ensures idle { conn.new.in_transaction ≡ false }
    ensures ok { HasCleanDisk (state S.Store conn.new) → (book : Ledger) → IsSoundLedger book → BookStands (state S.Store conn.old) book → OnOk result (BookStands (state S.Store conn.new) (added book target command.now)) }
    ensures err { HasCleanDisk (state S.Store conn.new) → IsTrue (state S.Store conn.new).is_open → OnErr result (IsTrue (state S.Store conn.old).is_open × ((state S.Store conn.new).committed ≡ (state S.Store conn.old).committed)) }
    ensures refused { HasCleanDisk (state S.Store conn.new) → IfErr result (IsRefused S.Store StoreKind.Book conn.old conn.new) }
    ensures survives { Survives (state S.Store conn.old) (state S.Store conn.new) (λ db. (book : Ledger) → IsSoundLedger book → BookStands (state S.Store conn.old) book → HoldsBook db (added book target command.now)) }
{
    prove!(conn.is_autocommit());
    let mut tx = conn.transaction();
    let done = insert(&mut tx, target, command);
    end(tx, done)
}

/// Writes that an entry, which is there, is in a state from now on.
pub(crate) fn write_turned<S: Alter>(
    conn: &mut Connection<S>,
    id: u64,
    control: State,
) -> Result<(), Error>
    requires idle { conn.old.in_transaction ≡ false }
    requires id { id < 2 ^ 63 }
    ensures idle { conn.new.in_transaction ≡ false }
    ensures ok { HasCleanDisk (state S.Store conn.new) → (book : Ledger) → IsSoundLedger book → IsSome (entry_of book.entries id) → BookStands (state S.Store conn.old) book
        → OnOk result (BookStands (state S.Store conn.new) (record book { entries = in_state book.entries id control })) }
    ensures err { HasCleanDisk (state S.Store conn.new) → IsTrue (state S.Store conn.new).is_open → OnErr result (IsTrue (state S.Store conn.old).is_open × ((state S.Store conn.new).committed ≡ (state S.Store conn.old).committed)) }
    ensures refused { HasCleanDisk (state S.Store conn.new) → IfErr result (IsRefused S.Store StoreKind.Book conn.old conn.new) }
    ensures survives { Survives (state S.Store conn.old) (state S.Store conn.new) (λ db. (book : Ledger) → IsSoundLedger book → IsSome (entry_of book.entries id) → BookStands (state S.Store conn.old) book
        → HoldsBook db (record book { entries = in_state book.entries id control })) }
{
    prove!(conn.is_autocommit());
    let mut tx = conn.transaction();
    let done = turn(&mut tx, id, control);
    end(tx, done)
}
