//! The tables for the second centre, beside those of a queue for one.

ghost use Rattle.std.specs.Prelude.{◌≡◌, ◌++◌, OnOk, List, [], map, IfErr};
ghost use Rattle.sqlite.specs.Held.{state};
ghost use Rattle.sqlite.specs.State.{HasCleanDisk};
ghost use Rattle.sqlite.specs.Term.{Term};
ghost use Rattle.dnp_eventbuf.specs.EventBuffer.{EventBuffer};
ghost use Rattle.dnp_store.specs.Added.{MakeAll, making_lanes, making_second};
ghost use Rattle.dnp_store.specs.Refusals.{IsStopped, RefusesOne, asking};
ghost use Rattle.dnp_store.specs.steps.Inside.{IsInside, IsStep};
ghost use Rattle.dnp_store.specs.steps.Making.{fresh};
ghost use Rattle.dnp_store.specs.steps.Seconds.{HasSecond, IsSecond, has_second_name};
ghost use Rattle.dnp_store.specs.PairTables.{migrated};
ghost use Rattle.dnp_store.specs.QueueTables.{HoldsBuffer, queue_schema};
ghost use Rattle.dnp_store.specs.Texts.{lanes_b_insert};

use crate::store_kind::StoreKind;
use crate::stores::{keep_probe, run, run_all};
use dnp_objects::LANES;
use sqlite::{Alter, Connection, Error, Transaction, params};
use sqlite_catalog::layout::is_used;

/// Whether a table, an index or a view has the name of a table for the second centre.
pub(crate) fn has_second_name<S: Alter>(conn: &Connection<S>) -> bool
    ensures { result ≡ has_second_name (state S.Store conn.now).now.schema }
{
    let schema = conn.schema();
    is_used(schema, b"queue_b") || is_used(schema, b"lanes_b")
}

/// Puts nine empty lanes into `lanes_b`.
fn put_lanes_b<S: Alter>(
    tx: &mut Transaction<'_, S>,
    capacities: &[u32; LANES],
) -> Result<(), Error>
    requires inside { IsInside S.Store tx.old.conn }
    ensures step { IsStep S.Store tx.old.conn tx.new.conn result }
    ensures refused { HasCleanDisk (state S.Store tx.new.conn.now) → IfErr result (IsStopped S.Store (RefusesOne S.Store (making_lanes lanes_b_insert 0 capacities.now)) tx.old.conn.now tx.new.conn.now) }
    ensures made { HasCleanDisk (state S.Store tx.new.conn.now) → OnOk result ((f q l : List Term) (s : EventBuffer)
        → HasSecond f q l s [] (state S.Store tx.old.conn.now).now → HasSecond f q l s (map fresh capacities.now) (state S.Store tx.new.conn.now).now) }
    ensures added { HasCleanDisk (state S.Store tx.new.conn.now) → OnOk result (MakeAll S.Store (making_lanes lanes_b_insert 0 capacities.now) (state S.Store tx.old.conn.now).now (state S.Store tx.new.conn.now).now) }
{
    for number in 0..LANES {
        let lane = number as u32;
        let capacity = capacities[number];
        run(
            tx,
            "INSERT INTO lanes_b VALUES (?1, ?2, 0, 0)",
            params![lane, capacity],
        )?;
    }
    Ok(())
}

/// Makes the tables for the second centre beside those of a queue for one, with empty lanes, gives the form its new number, and
/// has the connection ready to be asked.
pub(crate) fn make_second<S: Alter>(
    tx: &mut Transaction<'_, S>,
    capacities: &[u32; LANES],
) -> Result<(), Error>
    requires inside { IsInside S.Store tx.old.conn }
    ensures step { IsStep S.Store tx.old.conn tx.new.conn result }
    ensures refused { HasCleanDisk (state S.Store tx.new.conn.now) → IfErr result (IsStopped S.Store (RefusesOne S.Store (making_second capacities.now ++ asking)) tx.old.conn.now tx.new.conn.now) }
    ensures made { HasCleanDisk (state S.Store tx.new.conn.now) → OnOk result ((f q l : List Term) (s : EventBuffer) → (state S.Store tx.old.conn.now).now.schema ≡ queue_schema f q l
        → HoldsBuffer (state S.Store tx.old.conn.now).now.trees s → IsSecond f q l (migrated s capacities.now) (state S.Store tx.new.conn.now).now) }
    ensures added { HasCleanDisk (state S.Store tx.new.conn.now) → OnOk result (MakeAll S.Store (making_second capacities.now) (state S.Store tx.old.conn.now).now (state S.Store tx.new.conn.now).now) }
{
    let texts = [
        "CREATE TABLE queue_b (id INTEGER PRIMARY KEY AUTOINCREMENT CHECK (id BETWEEN 1 AND 4611686018427387904), lane INTEGER NOT NULL CHECK (lane BETWEEN 0 AND 8), point INTEGER NOT NULL CHECK (point BETWEEN 0 AND 65535), flags INTEGER NOT NULL CHECK (flags BETWEEN 0 AND 255), value INTEGER NOT NULL, time INTEGER CHECK (time BETWEEN 0 AND 281474976710655))",
        "CREATE TABLE lanes_b (lane INTEGER PRIMARY KEY CHECK (lane BETWEEN 0 AND 8), cap INTEGER NOT NULL CHECK (cap BETWEEN 1 AND 4096), lost INTEGER NOT NULL CHECK (lost BETWEEN 0 AND 4611686018427387904), raised INTEGER NOT NULL CHECK (raised BETWEEN 0 AND 1))",
    ];
    run_all(tx, &texts)?;
    put_lanes_b(tx, capacities)?;
    run(tx, "UPDATE form SET number = 2", &[])?;
    keep_probe(tx)
}
