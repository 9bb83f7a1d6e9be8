//! How a queue begins on a connection that it is lent.

ghost use Rattle.std.specs.Prelude.{◌≡◌, ◌≢◌, ◌≤◌, ◌⊎◌, false, All, IsTrue, Err, IfOk, IfErr, OnErr, OnOk};
ghost use Rattle.sqlite.specs.Held.{state};
ghost use Rattle.sqlite.specs.State.{HasCleanDisk, Survives};
ghost use Rattle.dnp_eventbuf.specs.EventBuffer.{EventBuffer, empty_buffer};
ghost use Rattle.dnp_store.specs.Added.{AreMadeBy, MakeAll, making_second};
ghost use Rattle.dnp_store.specs.QueueKept.{QueueStands};
ghost use Rattle.dnp_store.specs.PairTables.{HoldsPair, migrated};
ghost use Rattle.dnp_store.specs.QueueOpens.{HoldsOne, HoldsTwo};
ghost use Rattle.dnp_store.specs.steps.Beginning.{AreFound, AreMade, AreMigrated};
ghost use Rattle.dnp_store.specs.steps.Seconds.{Opens, has_second_name};
ghost use Rattle.dnp_store.specs.Refusals.{IsNumbered};
ghost use Rattle.dnp_store.specs.steps.Stored.{AreRead, IsOwned, IsStored, number_of};

use crate::open::{OpenFault, is_bare, served, told, written};
use crate::queue_opening::{Stored, read_stored};
use crate::queue_second::has_second_name;
use crate::queue_tables::{write_second, write_tables};
use dnp_eventbuf::{MAX_CAPACITY, PlainLanes};
use dnp_objects::LANES;
use sqlite::{Alter, Connection};
use std::alloc::{AllocError, Global};

/// Empty lanes of these capacities for each centre.
fn empty_lanes(
    alloc: Global,
    first: &[u32; LANES],
    second: &[u32; LANES],
) -> Result<(PlainLanes, PlainLanes), AllocError>
    requires first { All (λ capacity. (1 ≤ capacity) × (capacity ≤ MAX_CAPACITY)) first.now }
    requires second { All (λ capacity. (1 ≤ capacity) × (capacity ≤ MAX_CAPACITY)) second.now }
    ensures { IfOk result (λ lanes. (lanes.0 ≡ empty_buffer first.now) × (lanes.1 ≡ empty_buffer second.now)) }
{
    let ours = PlainLanes::new(alloc, *first)?;
    let others = PlainLanes::new(alloc, *second)?;
    Ok((ours, others))
}

/// Makes empty lanes for both centres, and tells whether nothing else stands in the database.
pub(crate) fn make_lanes<S: Alter>(
    conn: &mut Connection<S>,
    alloc: Global,
    first: &[u32; LANES],
    second: &[u32; LANES],
) -> Result<(PlainLanes, PlainLanes, bool), OpenFault>
    requires first { All (λ capacity. (1 ≤ capacity) × (capacity ≤ MAX_CAPACITY)) first.now }
    requires second { All (λ capacity. (1 ≤ capacity) × (capacity ≤ MAX_CAPACITY)) second.now }
    ensures { AreMade S.Store first.now second.now conn.old conn.new result }
{
    if !conn.is_autocommit() {
        return Err(OpenFault::WrongForm);
    }
    let Ok((ours, others)) = empty_lanes(alloc, first, second) else {
        return Err(OpenFault::Memory);
    };
    let owned = is_bare(conn);
    let done = write_tables(conn, first, second);
    match told(conn, done) {
        Ok(()) => Ok((ours, others, owned)),
        Err(fault) => Err(fault),
    }
}

/// What a queue's database holds, where the connection serves still.
fn find_stored<S: Alter>(conn: &mut Connection<S>, alloc: Global) -> Result<Stored, OpenFault>
    requires idle { conn.old.in_transaction ≡ false }
    ensures idle { conn.new.in_transaction ≡ false }
    ensures read { HasCleanDisk (state S.Store conn.new) → IfOk result (IsStored (state S.Store conn.old).committed) }
    ensures owned { HasCleanDisk (state S.Store conn.new) → IfOk result (IsOwned (state S.Store conn.old).committed) }
    ensures numbered { HasCleanDisk (state S.Store conn.new) → IfOk result (λ stored. IsNumbered S.Store (number_of stored) (state S.Store conn.old).committed) }
    ensures has { HasCleanDisk (state S.Store conn.new) → IfOk result (AreRead S.Store (state S.Store conn.old).committed) }
    ensures open { HasCleanDisk (state S.Store conn.new) → OnOk result (IsTrue (state S.Store conn.new).is_open) }
    ensures wrong_form { HasCleanDisk (state S.Store conn.new) → result ≡ Err OpenFault.WrongForm
        → HoldsTwo (state S.Store conn.old).committed ⊎ HoldsOne (state S.Store conn.old).committed → ⊥ }
    ensures current { IfErr result (λ fault. fault ≢ OpenFault.OldForm) }
    ensures same { HasCleanDisk (state S.Store conn.new) → IsTrue (state S.Store conn.new).is_open
        → IsTrue (state S.Store conn.old).is_open × ((state S.Store conn.new).committed ≡ (state S.Store conn.old).committed) }
    ensures survives { Survives (state S.Store conn.old) (state S.Store conn.new) (λ _. ⊥) }
{
    let read = read_stored(conn, alloc);
    served(conn, read)
}

/// Makes a queue for one centre into one for two, where the names of the tables that it needs are free.
fn make_second_tables<S: Alter>(
    conn: &mut Connection<S>,
    capacities: &[u32; LANES],
) -> Result<(), OpenFault>
    requires idle { conn.old.in_transaction ≡ false }
    ensures idle { conn.new.in_transaction ≡ false }
    ensures ok { HasCleanDisk (state S.Store conn.new) → (s : EventBuffer) → Opens (state S.Store conn.old) s → OnOk result (QueueStands (state S.Store conn.new) (migrated s capacities.now)) }
    ensures current { IfErr result (λ fault. fault ≢ OpenFault.OldForm) }
    ensures named { IfErr result (λ fault. fault ≢ OpenFault.WrongForm) }
    ensures err { HasCleanDisk (state S.Store conn.new) → IsTrue (state S.Store conn.new).is_open → OnErr result (IsTrue (state S.Store conn.old).is_open × ((state S.Store conn.new).committed ≡ (state S.Store conn.old).committed)) }
    ensures added { HasCleanDisk (state S.Store conn.new) → OnOk result (MakeAll S.Store (making_second capacities.now) (state S.Store conn.old).now (state S.Store conn.new).committed) }
    ensures settled { IsTrue (state S.Store conn.old).is_open → (state S.Store conn.old).now ≡ (state S.Store conn.old).committed }
    ensures survives { Survives (state S.Store conn.old) (state S.Store conn.new) (λ db. ((s : EventBuffer) → Opens (state S.Store conn.old) s → HoldsPair db (migrated s capacities.now))
        × AreMadeBy S.Store (making_second capacities.now) (state S.Store conn.old).now db) }
{
    let done = write_second(conn, capacities);
    written(conn, done)
}

/// Makes a queue for one centre into one for two, or says why not.
fn second_made<S: Alter>(
    conn: &mut Connection<S>,
    capacities: &[u32; LANES],
) -> Result<(), OpenFault>
    requires idle { conn.old.in_transaction ≡ false }
    ensures idle { conn.new.in_transaction ≡ false }
    ensures ok { HasCleanDisk (state S.Store conn.new) → (s : EventBuffer) → Opens (state S.Store conn.old) s → OnOk result (QueueStands (state S.Store conn.new) (migrated s capacities.now)) }
    ensures current { IfErr result (λ fault. fault ≢ OpenFault.OldForm) }
    ensures wrong_form { result ≡ Err OpenFault.WrongForm → IsTrue (has_second_name (state S.Store conn.old).now.schema) }
    ensures err { HasCleanDisk (state S.Store conn.new) → IsTrue (state S.Store conn.new).is_open → OnErr result (IsTrue (state S.Store conn.old).is_open × ((state S.Store conn.new).committed ≡ (state S.Store conn.old).committed)) }
    ensures added { HasCleanDisk (state S.Store conn.new) → OnOk result (MakeAll S.Store (making_second capacities.now) (state S.Store conn.old).now (state S.Store conn.new).committed) }
    ensures settled { IsTrue (state S.Store conn.old).is_open → (state S.Store conn.old).now ≡ (state S.Store conn.old).committed }
    ensures survives { Survives (state S.Store conn.old) (state S.Store conn.new) (λ db. ((s : EventBuffer) → Opens (state S.Store conn.old) s → HoldsPair db (migrated s capacities.now))
        × AreMadeBy S.Store (making_second capacities.now) (state S.Store conn.old).now db) }
{
    prove!(conn.is_autocommit());
    if has_second_name(conn) {
        return Err(OpenFault::WrongForm);
    }
    make_second_tables(conn, capacities)
}

/// The lanes for both centres that the database holds, and whether their tables come first and are left alone by the others.
pub(crate) fn open_lanes<S: Alter>(
    conn: &mut Connection<S>,
    alloc: Global,
) -> Result<(PlainLanes, PlainLanes, bool), OpenFault>
    ensures { AreFound S.Store conn.old conn.new result }
{
    if !conn.is_autocommit() {
        return Err(OpenFault::WrongForm);
    }
    match find_stored(conn, alloc) {
        Ok(Stored::Pair(first, second, owned)) => Ok((first, second, owned)),
        Ok(Stored::One(_lanes, _owned)) => Err(OpenFault::OldForm),
        Err(fault) => Err(fault),
    }
}

/// These too, or what is made of the lanes for one centre, and of empty ones with these capacities.
pub(crate) fn migrate_lanes<S: Alter>(
    conn: &mut Connection<S>,
    alloc: Global,
    capacities: &[u32; LANES],
) -> Result<(PlainLanes, PlainLanes, bool), OpenFault>
    requires { All (λ capacity. (1 ≤ capacity) × (capacity ≤ MAX_CAPACITY)) capacities.now }
    ensures { AreMigrated S.Store capacities.now conn.old conn.new result }
{
    if !conn.is_autocommit() {
        return Err(OpenFault::WrongForm);
    }
    let Ok(second) = PlainLanes::new(alloc, *capacities) else {
        return Err(OpenFault::Memory);
    };
    match find_stored(conn, alloc) {
        Ok(Stored::Pair(first, others, owned)) => Ok((first, others, owned)),
        Ok(Stored::One(first, owned)) => match second_made(conn, capacities) {
            Ok(()) => Ok((first, second, owned)),
            Err(fault) => Err(fault),
        },
        Err(fault) => Err(fault),
    }
}
