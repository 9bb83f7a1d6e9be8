//! What lanes hold, as a report reads it.

ghost use Rattle.std.specs.Prelude.{◌≡◌, ◌≢◌, ◌<◌, Err, ◌++◌, ◌^◌, ◌-◌, IfOk, OnOk, map as all_of, min, option_to_list};
ghost use Rattle.dnp_concentrator.specs.Mapped as mapped;
ghost use Rattle.dnp_eventbuf.specs.Sides.{AreSame, centre_in, lent_pair, pair_in};
ghost use Rattle.dnp_eventbuf.specs.Sound.{IsSoundBuffer};
ghost use Rattle.dnp_eventbuf.specs.EventBuffer.{lane_at, lost_in, row_of};
ghost use Rattle.dnp_objects.specs.Lanes.{lane_number};
ghost use Rattle.dnp_world.specs.Causes.{TellsDevice};
ghost use Rattle.dnp_world.specs.Kept as kept;
ghost use Rattle.dnp_world.specs.ReportShown.{AreById, all_in};
ghost use Rattle.dnp_world.specs.Systems.{at_substation};

use dnp_concentrator::{Cause, IndexMap};
use dnp_eventbuf::{CENTRES, JournalStore, Lanes, Numbered, PairLanes, Side};
use dnp_objects::{LANES, Lane, Row};
use std::alloc::{AllocError, Global};

/// All rows of a lane, in order.
fn lane_rows<L: Lanes>(alloc: Global, lanes: &mut L, lane: Lane) -> Result<Vec<Numbered>, Cause>
    ensures place { L.place lanes.new ≡ L.place lanes.old }
    ensures held { L.honest lanes.new → L.honest lanes.old }
    ensures beside { L.honest lanes.new → L.beside lanes.new ≡ L.beside lanes.old }
    ensures same { L.honest lanes.new → L.contents lanes.new ≡ L.contents lanes.old }
    ensures sound { L.honest lanes.new → IsSoundBuffer (L.contents lanes.new) }
    ensures rows { L.honest lanes.new → IfOk result (λ rows. rows.items ≡ (lane_at (L.contents lanes.new) (lane_number lane)).rows) }
    ensures device { TellsDevice (L.is_stopped lanes.old) (L.is_stopped lanes.new) (result ≡ Err Cause.Device) }
    ensures named { result ≢ Err Cause.Exhausted }
{
    let count = lanes.len(lane) as usize;
    let rows = lanes.offer(alloc, lane, 0, count)?;
    Ok(rows)
}

/// Puts all rows of a lane after the list, in order.
fn put_lane_rows<L: Lanes>(
    alloc: Global,
    lanes: &mut L,
    lane: Lane,
    list: &mut Vec<Numbered>,
) -> Result<(), Cause>
    ensures place { L.place lanes.new ≡ L.place lanes.old }
    ensures held { L.honest lanes.new → L.honest lanes.old }
    ensures beside { L.honest lanes.new → L.beside lanes.new ≡ L.beside lanes.old }
    ensures same { L.honest lanes.new → L.contents lanes.new ≡ L.contents lanes.old }
    ensures sound { L.honest lanes.new → IsSoundBuffer (L.contents lanes.new) }
    ensures rows { L.honest lanes.new → OnOk result (list.new.items ≡ list.old.items ++ (lane_at (L.contents lanes.new) (lane_number lane)).rows) }
    ensures device { TellsDevice (L.is_stopped lanes.old) (L.is_stopped lanes.new) (result ≡ Err Cause.Device) }
    ensures named { result ≢ Err Cause.Exhausted }
{
    let rows = lane_rows(alloc, lanes, lane)?;
    list.extend_from_slice(rows.as_slice())?;
    Ok(())
}

/// The rows of all lanes, lane by lane.
pub(crate) fn all_rows<L: Lanes>(alloc: Global, lanes: &mut L) -> Result<Vec<Numbered>, Cause>
    ensures place { L.place lanes.new ≡ L.place lanes.old }
    ensures held { L.honest lanes.new → L.honest lanes.old }
    ensures beside { L.honest lanes.new → L.beside lanes.new ≡ L.beside lanes.old }
    ensures same { L.honest lanes.new → L.contents lanes.new ≡ L.contents lanes.old }
    ensures rows { L.honest lanes.new → IfOk result (λ rows. rows.items ≡ all_in (L.contents lanes.new)) }
    ensures device { TellsDevice (L.is_stopped lanes.old) (L.is_stopped lanes.new) (result ≡ Err Cause.Device) }
    ensures named { result ≢ Err Cause.Exhausted }
{
    let mut rows = Vec::new(alloc);
    for number in 0..LANES {
        let lane = Lane::numbered(number).unwrap();
        put_lane_rows(alloc, lanes, lane, &mut rows)?;
    }
    Ok(rows)
}

/// The rows of all lanes, by their ids.
pub(crate) fn rows_by_id<L: Lanes>(alloc: Global, lanes: &mut L) -> Result<Vec<Numbered>, Cause>
    ensures place { L.place lanes.new ≡ L.place lanes.old }
    ensures held { L.honest lanes.new → L.honest lanes.old }
    ensures beside { L.honest lanes.new → L.beside lanes.new ≡ L.beside lanes.old }
    ensures same { L.honest lanes.new → L.contents lanes.new ≡ L.contents lanes.old }
    ensures rows { L.honest lanes.new → IfOk result (λ rows. AreById (all_in (L.contents lanes.new)) rows.items) }
    ensures device { TellsDevice (L.is_stopped lanes.old) (L.is_stopped lanes.new) (result ≡ Err Cause.Device) }
    ensures named { result ≢ Err Cause.Exhausted }
{
    let mut rows = all_rows(alloc, lanes)?;
    rows.sort_unstable_by_key(|row| row.id);
    Ok(rows)
}

/// All rows of a journal, in order.
pub(crate) fn journal_rows<J: JournalStore>(
    alloc: Global,
    journal: &mut J,
) -> Result<Vec<Numbered>, Cause>
    ensures held { J.honest journal.new → J.honest journal.old }
    ensures same { J.honest journal.new → J.archive journal.new ≡ J.archive journal.old }
    ensures rows { J.honest journal.new → IfOk result (λ rows. rows.items ≡ (J.archive journal.new).rows) }
    ensures device { TellsDevice (J.is_stopped journal.old) (J.is_stopped journal.new) (result ≡ Err Cause.Device) }
    ensures named { result ≢ Err Cause.Exhausted }
{
    let count = journal.count() as usize;
    let rows = journal.rows(alloc, 0, count)?;
    Ok(rows)
}

/// How many rows the lanes count as lost, up to the greatest number that the answer holds.
pub(crate) fn lost_rows<L: Lanes>(lanes: &mut L) -> u64
    ensures same { lanes.new ≡ lanes.old }
    ensures count { L.honest lanes.new → result ≡ min (lost_in (L.contents lanes.new)) (2 ^ 64 - 1) }
{
    let mut lost = 0u64;
    for number in 0..LANES {
        let lane = Lane::numbered(number).unwrap();
        lost = lost.saturating_add(lanes.lost(lane));
    }
    lost
}

/// The rows of one side, by their ids. The reference to the store stays where it is, and both sides what they were.
fn side_rows<Q: PairLanes>(alloc: Global, side: &mut Side<'_, Q>) -> Result<Vec<Numbered>, Cause>
    ensures lent { (lent_pair side.new).ghost_name ≡ (lent_pair side.old).ghost_name }
    ensures held { Q.honest (pair_in side.new) → Q.honest (pair_in side.old) }
    ensures same { Q.honest (pair_in side.new) → AreSame Q.contents (pair_in side.old) (pair_in side.new) }
    ensures rows { Q.honest (pair_in side.new) → IfOk result (λ rows. AreById (all_in (Q.contents (pair_in side.old) (centre_in side.old))) rows.items) }
    ensures device { TellsDevice (Q.is_stopped (pair_in side.old)) (Q.is_stopped (pair_in side.new)) (result ≡ Err Cause.Device) }
    ensures named { result ≢ Err Cause.Exhausted }
{
    rows_by_id(alloc, side)
}

/// The rows that are queued for this centre, by their ids.
pub(crate) fn queue_rows<Q: PairLanes>(
    alloc: Global,
    queue: &mut Q,
    centre: u8,
) -> Result<Vec<Numbered>, Cause>
    requires { centre < CENTRES }
    ensures held { Q.honest queue.new → Q.honest queue.old }
    ensures same { Q.honest queue.new → AreSame Q.contents queue.old queue.new }
    ensures rows { Q.honest queue.new → IfOk result (λ rows. AreById (all_in (Q.contents queue.old centre)) rows.items) }
    ensures device { TellsDevice (Q.is_stopped queue.old) (Q.is_stopped queue.new) (result ≡ Err Cause.Device) }
    ensures named { result ≢ Err Cause.Exhausted }
{
    let mut side = Side::new(queue, centre);
    side_rows(alloc, &mut side)
}

/// How many rows the lanes for this centre count as lost, up to the greatest number that the answer holds.
pub(crate) fn queue_lost<Q: PairLanes>(queue: &mut Q, centre: u8) -> u64
    requires { centre < CENTRES }
    ensures same { queue.new ≡ queue.old }
    ensures count { Q.honest queue.new → result ≡ min (lost_in (Q.contents queue.old centre)) (2 ^ 64 - 1) }
{
    let mut side = Side::new(queue, centre);
    lost_rows(&mut side)
}

/// Puts rows of a substation after the list. An error says that it ran out of memory.
pub(crate) fn put_rows_of(
    list: &mut Vec<(u8, Row)>,
    substation: u8,
    rows: &[Numbered],
) -> Result<(), AllocError>
    ensures { OnOk result (list.new.items ≡ list.old.items ++ at_substation substation (all_of row_of rows.now)) }
{
    for row in rows {
        list.push((substation, row.row))?;
    }
    Ok(())
}

/// Puts a row above after the list, as it stands at its substation. An error says that it ran out of memory.
fn put_below(list: &mut Vec<(u8, Row)>, map: &IndexMap, row: &Row) -> Result<(), AllocError>
    ensures { OnOk result (list.new.items ≡ list.old.items ++ option_to_list (mapped.row_below map.now row.now)) }
{
    if let Some(below) = map.row_below(row) {
        list.push(below)?;
    }
    Ok(())
}

/// Rows above as they stand at their substations, in order. One whose index is of no substation is passed over.
pub(crate) fn rows_below(
    alloc: Global,
    map: &IndexMap,
    rows: &[Row],
) -> Result<Vec<(u8, Row)>, AllocError>
    ensures { IfOk result (λ list. list.items ≡ kept.rows_below map.now rows.now) }
{
    let mut list = Vec::new(alloc);
    for row in rows {
        put_below(&mut list, map, row)?;
    }
    Ok(list)
}

/// The same of rows with their numbers.
pub(crate) fn numbered_below(
    alloc: Global,
    map: &IndexMap,
    rows: &[Numbered],
) -> Result<Vec<(u8, Row)>, AllocError>
    ensures { IfOk result (λ list. list.items ≡ kept.rows_below map.now (all_of row_of rows.now)) }
{
    let mut list = Vec::new(alloc);
    for row in rows {
        put_below(&mut list, map, &row.row)?;
    }
    Ok(list)
}
