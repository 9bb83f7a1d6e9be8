//! The tables of a queue, as they are made.

ghost use Rattle.std.specs.Prelude.{◌≡◌, ◌++◌, ◌∷◌, false, IsTrue, OnOk, OnErr, [], map, IfErr};
ghost use Rattle.sqlite.specs.Held.{state};
ghost use Rattle.sqlite.specs.State.{HasCleanDisk, Survives};
ghost use Rattle.dnp_eventbuf.specs.EventBuffer.{EventBuffer, empty_buffer};
ghost use Rattle.dnp_store.specs.Added.{AreMadeBy, LeavesMade, MakeAll, making_lanes, making_queue, making_second, making_tables};
ghost use Rattle.dnp_store.specs.Refusals.{IsStopped, IsUnmade, RefusesOne, asking};
ghost use Rattle.dnp_store.specs.steps.Inside.{IsInside, IsStep};
ghost use Rattle.dnp_store.specs.QueueKept.{QueueStands};
ghost use Rattle.dnp_store.specs.steps.Making.{HasLanes, fresh};
ghost use Rattle.dnp_store.specs.PairTables.{HoldsPair, migrated};
ghost use Rattle.dnp_store.specs.steps.Seconds.{IsSecond, Opens};
ghost use Rattle.dnp_store.specs.Schemas.{checks_of_form, checks_of_lanes, checks_of_rows, lanes_text, made_pair};
ghost use Rattle.dnp_store.specs.Tables.{no_schema};
ghost use Rattle.dnp_store.specs.Texts.{lanes_insert};

use crate::queue_second::make_second;
use crate::store_kind::StoreKind;
use crate::stores::{make_tables, run};
use crate::transactions::end;
use dnp_objects::LANES;
use sqlite::{Alter, Connection, Error, Transaction, params};

/// Puts nine empty lanes into `lanes`.
fn put_lanes<S: Alter>(tx: &mut Transaction<'_, S>, capacities: &[u32; LANES]) -> Result<(), Error>
    requires inside { IsInside S.Store tx.old.conn }
    ensures step { IsStep S.Store tx.old.conn tx.new.conn result }
    ensures refused { HasCleanDisk (state S.Store tx.new.conn.now) → IfErr result (IsStopped S.Store (RefusesOne S.Store (making_lanes lanes_insert 0 capacities.now)) tx.old.conn.now tx.new.conn.now) }
    ensures made { HasCleanDisk (state S.Store tx.new.conn.now) → OnOk result (HasLanes (state S.Store tx.old.conn.now).now [] → HasLanes (state S.Store tx.new.conn.now).now (map fresh capacities.now)) }
    ensures added { HasCleanDisk (state S.Store tx.new.conn.now) → OnOk result (MakeAll S.Store (making_lanes lanes_insert 0 capacities.now) (state S.Store tx.old.conn.now).now (state S.Store tx.new.conn.now).now) }
{
    for number in 0..LANES {
        let lane = number as u32;
        let capacity = capacities[number];
        run(
            tx,
            "INSERT INTO lanes VALUES (?1, ?2, 0, 0)",
            params![lane, capacity],
        )?;
    }
    Ok(())
}

/// Makes the tables and what stands in them at first.
fn make_all<S: Alter>(tx: &mut Transaction<'_, S>, capacities: &[u32; LANES]) -> Result<(), Error>
    requires inside { IsInside S.Store tx.old.conn }
    ensures step { IsStep S.Store tx.old.conn tx.new.conn result }
    ensures refused { HasCleanDisk (state S.Store tx.new.conn.now) → IfErr result (IsStopped S.Store (RefusesOne S.Store (making_tables StoreKind.Queue ++ ((lanes_text, []) ∷ making_lanes lanes_insert 0 capacities.now))) tx.old.conn.now tx.new.conn.now) }
    ensures made { HasCleanDisk (state S.Store tx.new.conn.now) → OnOk result ((state S.Store tx.old.conn.now).now.schema ≡ no_schema → HasLanes (state S.Store tx.new.conn.now).now (map fresh capacities.now)) }
    ensures added { HasCleanDisk (state S.Store tx.new.conn.now) → OnOk result (MakeAll S.Store (making_tables StoreKind.Queue ++ ((lanes_text, []) ∷ making_lanes lanes_insert 0 capacities.now)) (state S.Store tx.old.conn.now).now (state S.Store tx.new.conn.now).now) }
{
    make_tables(tx, StoreKind::Queue)?;
    run(
        tx,
        "CREATE TABLE lanes (lane INTEGER PRIMARY KEY CHECK (lane BETWEEN 0 AND 8), cap INTEGER NOT NULL CHECK (cap BETWEEN 1 AND 4096), lost INTEGER NOT NULL CHECK (lost BETWEEN 0 AND 4611686018427387904), raised INTEGER NOT NULL CHECK (raised BETWEEN 0 AND 1))",
        &[],
    )?;
    put_lanes(tx, capacities)
}

/// Makes the tables for one centre and those for the second beside them, with empty lanes.
fn make_pair<S: Alter>(
    tx: &mut Transaction<'_, S>,
    first: &[u32; LANES],
    second: &[u32; LANES],
) -> Result<(), Error>
    requires inside { IsInside S.Store tx.old.conn }
    ensures step { IsStep S.Store tx.old.conn tx.new.conn result }
    ensures refused { HasCleanDisk (state S.Store tx.new.conn.now) → IfErr result (IsStopped S.Store (RefusesOne S.Store (making_queue first.now second.now ++ asking)) tx.old.conn.now tx.new.conn.now) }
    ensures made { HasCleanDisk (state S.Store tx.new.conn.now) → OnOk result ((state S.Store tx.old.conn.now).now.schema ≡ no_schema
        → IsSecond checks_of_form (checks_of_rows StoreKind.Queue) checks_of_lanes (migrated (empty_buffer first.now) second.now) (state S.Store tx.new.conn.now).now) }
    ensures added { HasCleanDisk (state S.Store tx.new.conn.now) → OnOk result (MakeAll S.Store (making_queue first.now second.now) (state S.Store tx.old.conn.now).now (state S.Store tx.new.conn.now).now) }
{
    make_all(tx, first)?;
    make_second(tx, second)
}

/// Makes the tables of empty lanes for two centres, in one transaction.
pub(crate) fn write_tables<S: Alter>(
    conn: &mut Connection<S>,
    first: &[u32; LANES],
    second: &[u32; LANES],
) -> Result<(), Error>
    requires idle { conn.old.in_transaction ≡ false }
    ensures idle { conn.new.in_transaction ≡ false }
    ensures ok { HasCleanDisk (state S.Store conn.new) → (state S.Store conn.old).now.schema ≡ no_schema → OnOk result (QueueStands (state S.Store conn.new) (record { first = empty_buffer first.now; second = empty_buffer second.now })) }
    ensures schema { HasCleanDisk (state S.Store conn.new) → (state S.Store conn.old).now.schema ≡ no_schema → OnOk result ((state S.Store conn.new).committed.schema ≡ made_pair) }
    ensures err { HasCleanDisk (state S.Store conn.new) → IsTrue (state S.Store conn.new).is_open → OnErr result (IsTrue (state S.Store conn.old).is_open × ((state S.Store conn.new).committed ≡ (state S.Store conn.old).committed)) }
    ensures refused { HasCleanDisk (state S.Store conn.new) → IfErr result (IsUnmade S.Store (making_queue first.now second.now) conn.old conn.new) }
    ensures added { HasCleanDisk (state S.Store conn.new) → OnOk result (MakeAll S.Store (making_queue first.now second.now) (state S.Store conn.old).now (state S.Store conn.new).committed) }
    ensures survives { Survives (state S.Store conn.old) (state S.Store conn.new) (LeavesMade S.Store (making_queue first.now second.now)
        (λ db. HoldsPair db (record { first = empty_buffer first.now; second = empty_buffer second.now })) (state S.Store conn.old).now) }
{
    let mut tx = conn.transaction();
    let done = make_pair(&mut tx, first, second);
    end(tx, done)
}

/// Makes a queue for one centre into one for two, in one transaction: its lanes are the first centre's, and those of the
/// second are empty.
pub(crate) fn write_second<S: Alter>(
    conn: &mut Connection<S>,
    capacities: &[u32; LANES],
) -> Result<(), Error>
    requires idle { conn.old.in_transaction ≡ false }
    ensures idle { conn.new.in_transaction ≡ false }
    ensures ok { HasCleanDisk (state S.Store conn.new) → (s : EventBuffer) → Opens (state S.Store conn.old) s → OnOk result (QueueStands (state S.Store conn.new) (migrated s capacities.now)) }
    ensures err { HasCleanDisk (state S.Store conn.new) → IsTrue (state S.Store conn.new).is_open → OnErr result (IsTrue (state S.Store conn.old).is_open × ((state S.Store conn.new).committed ≡ (state S.Store conn.old).committed)) }
    ensures refused { HasCleanDisk (state S.Store conn.new) → IfErr result (IsUnmade S.Store (making_second capacities.now) conn.old conn.new) }
    ensures added { HasCleanDisk (state S.Store conn.new) → OnOk result (MakeAll S.Store (making_second capacities.now) (state S.Store conn.old).now (state S.Store conn.new).committed) }
    ensures settled { IsTrue (state S.Store conn.old).is_open → (state S.Store conn.old).now ≡ (state S.Store conn.old).committed }
    ensures survives { Survives (state S.Store conn.old) (state S.Store conn.new) (λ db. ((s : EventBuffer) → Opens (state S.Store conn.old) s → HoldsPair db (migrated s capacities.now))
        × AreMadeBy S.Store (making_second capacities.now) (state S.Store conn.old).now db) }
{
    prove!(conn.is_autocommit());
    let mut tx = conn.transaction();
    let done = make_second(&mut tx, capacities);
    end(tx, done)
}
