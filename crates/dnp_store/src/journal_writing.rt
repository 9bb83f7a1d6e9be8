//! What an append writes of a journal, in one transaction.

ghost use Rattle.std.specs.Prelude.{◌≡◌, false, IsTrue, OnOk, OnErr, All, [], ◌∷◌, length, IfErr};
ghost use Rattle.sqlite.specs.Held.{state};
ghost use Rattle.sqlite.specs.State.{HasCleanDisk, Survives};
ghost use Rattle.dnp_objects.specs.Events.{IsEvent};
ghost use Rattle.dnp_eventbuf.specs.Archive.{Archive, with_events};
ghost use Rattle.dnp_store.specs.declared.cells.TheConstants.{MANY};
ghost use Rattle.dnp_store.specs.Refusals.{IsRefused};
ghost use Rattle.dnp_store.specs.steps.Inside.{IsInside, IsStep};
ghost use Rattle.dnp_store.specs.JournalKept.{JournalStands};
ghost use Rattle.dnp_store.specs.JournalTables.{HoldsArchive, IsJournal};

use crate::cells::{CELLS, MANY, cells, whole_time};
use crate::store_kind::StoreKind;
use crate::stores::run;
use crate::transactions::end;
use dnp_objects::Row;
use sqlite::{Alter, Connection, Error, Transaction, params};
use sqlite_value::value::ValueRef;

/// Puts an event into the table, under the next id.
fn insert<S: Alter>(tx: &mut Transaction<'_, S>, event: &Row) -> Result<(), Error>
    requires inside { IsInside S.Store tx.old.conn }
    requires event { IsEvent event.now }
    ensures step { IsStep S.Store tx.old.conn tx.new.conn result }
    ensures refused { HasCleanDisk (state S.Store tx.new.conn.now) → IfErr result (IsRefused S.Store StoreKind.Journal tx.old.conn.now tx.new.conn.now) }
    ensures added { HasCleanDisk (state S.Store tx.new.conn.now) → OnOk result ((a : Archive) → IsJournal (state S.Store tx.old.conn.now).now a
        → IsJournal (state S.Store tx.new.conn.now).now (with_events a (event.now ∷ []))) }
{
    let kind = event.kind.number() as u32;
    let index = u32::from(event.index);
    let flags = u32::from(event.flags);
    let value = event.value;
    let time = whole_time(event.time);
    run(
        tx,
        "INSERT INTO journal (kind, point, flags, value, time) VALUES (?1, ?2, ?3, ?4, ?5)",
        params![kind, index, flags, value, time],
    )
}

/// Puts sixteen events into the table, under the next ids, by one statement (as `insert_many` of a queue).
fn insert_many<S: Alter>(tx: &mut Transaction<'_, S>, events: &[Row]) -> Result<(), Error>
    requires inside { IsInside S.Store tx.old.conn }
    requires events { All IsEvent events.now }
    requires sixteen { length events.now ≡ MANY }
    ensures step { IsStep S.Store tx.old.conn tx.new.conn result }
    ensures refused { HasCleanDisk (state S.Store tx.new.conn.now) → IfErr result (IsRefused S.Store StoreKind.Journal tx.old.conn.now tx.new.conn.now) }
    ensures added { HasCleanDisk (state S.Store tx.new.conn.now) → OnOk result ((a : Archive) → IsJournal (state S.Store tx.old.conn.now).now a
        → IsJournal (state S.Store tx.new.conn.now).now (with_events a events.now)) }
{
    let mut given = [[ValueRef::Null; CELLS]; MANY];
    for number in 0..MANY {
        let event = &events[number];
        given[number] = cells(event.kind.number(), event);
    }
    run(
        tx,
        "INSERT INTO journal (kind, point, flags, value, time) VALUES \
         (?1, ?2, ?3, ?4, ?5), (?6, ?7, ?8, ?9, ?10), (?11, ?12, ?13, ?14, ?15), \
         (?16, ?17, ?18, ?19, ?20), (?21, ?22, ?23, ?24, ?25), (?26, ?27, ?28, ?29, ?30), \
         (?31, ?32, ?33, ?34, ?35), (?36, ?37, ?38, ?39, ?40), (?41, ?42, ?43, ?44, ?45), \
         (?46, ?47, ?48, ?49, ?50), (?51, ?52, ?53, ?54, ?55), (?56, ?57, ?58, ?59, ?60), \
         (?61, ?62, ?63, ?64, ?65), (?66, ?67, ?68, ?69, ?70), (?71, ?72, ?73, ?74, ?75), \
         (?76, ?77, ?78, ?79, ?80)",
        given.as_flattened(),
    )
}

/// Puts the events into the table one by one, under the ids that follow the last one used.
fn insert_each<S: Alter>(tx: &mut Transaction<'_, S>, events: &[Row]) -> Result<(), Error>
    requires inside { IsInside S.Store tx.old.conn }
    requires events { All IsEvent events.now }
    ensures step { IsStep S.Store tx.old.conn tx.new.conn result }
    ensures refused { HasCleanDisk (state S.Store tx.new.conn.now) → IfErr result (IsRefused S.Store StoreKind.Journal tx.old.conn.now tx.new.conn.now) }
    ensures added { HasCleanDisk (state S.Store tx.new.conn.now) → OnOk result ((a : Archive) → IsJournal (state S.Store tx.old.conn.now).now a
        → IsJournal (state S.Store tx.new.conn.now).now (with_events a events.now)) }
{
    for row in events {
        insert(tx, row)?;
    }
    Ok(())
}

/// Puts some events into the table: sixteen by one statement, any others one by one.
fn insert_block<S: Alter>(tx: &mut Transaction<'_, S>, events: &[Row]) -> Result<(), Error>
    requires inside { IsInside S.Store tx.old.conn }
    requires events { All IsEvent events.now }
    ensures step { IsStep S.Store tx.old.conn tx.new.conn result }
    ensures refused { HasCleanDisk (state S.Store tx.new.conn.now) → IfErr result (IsRefused S.Store StoreKind.Journal tx.old.conn.now tx.new.conn.now) }
    ensures added { HasCleanDisk (state S.Store tx.new.conn.now) → OnOk result ((a : Archive) → IsJournal (state S.Store tx.old.conn.now).now a
        → IsJournal (state S.Store tx.new.conn.now).now (with_events a events.now)) }
{
    if events.len() == MANY {
        insert_many(tx, events)
    } else {
        insert_each(tx, events)
    }
}

/// Puts the events into the table, under the ids that follow the last one used.
fn insert_all<S: Alter>(tx: &mut Transaction<'_, S>, events: &[Row]) -> Result<(), Error>
    requires inside { IsInside S.Store tx.old.conn }
    requires events { All IsEvent events.now }
    ensures step { IsStep S.Store tx.old.conn tx.new.conn result }
    ensures refused { HasCleanDisk (state S.Store tx.new.conn.now) → IfErr result (IsRefused S.Store StoreKind.Journal tx.old.conn.now tx.new.conn.now) }
    ensures added { HasCleanDisk (state S.Store tx.new.conn.now) → OnOk result ((a : Archive) → IsJournal (state S.Store tx.old.conn.now).now a
        → IsJournal (state S.Store tx.new.conn.now).now (with_events a events.now)) }
{
    for block in events.chunks(MANY) {
        insert_block(tx, block)?;
    }
    Ok(())
}

/// Writes what an append changes.
pub(crate) fn write_events<S: Alter>(conn: &mut Connection<S>, events: &[Row]) -> Result<(), Error>
    requires idle { conn.old.in_transaction ≡ false }
    requires events { All IsEvent events.now }
    ensures idle { conn.new.in_transaction ≡ false }
    ensures ok { HasCleanDisk (state S.Store conn.new) → (a : Archive) → JournalStands (state S.Store conn.old) a → OnOk result (JournalStands (state S.Store conn.new) (with_events a events.now)) }
    ensures err { HasCleanDisk (state S.Store conn.new) → IsTrue (state S.Store conn.new).is_open → OnErr result (IsTrue (state S.Store conn.old).is_open × ((state S.Store conn.new).committed ≡ (state S.Store conn.old).committed)) }
    ensures refused { HasCleanDisk (state S.Store conn.new) → IfErr result (IsRefused S.Store StoreKind.Journal conn.old conn.new) }
    ensures survives { Survives (state S.Store conn.old) (state S.Store conn.new) (λ db. (a : Archive) → JournalStands (state S.Store conn.old) a → HoldsArchive db (with_events a events.now)) }
{
    prove!(conn.is_autocommit());
    let mut tx = conn.transaction();
    let done = insert_all(&mut tx, events);
    end(tx, done)
}
