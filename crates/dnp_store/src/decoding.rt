//! What rows that queries show of a queue's tables say.

ghost use Rattle.std.specs.Prelude.{◌≡◌, ◌≢◌, ◌<◌, ◌≤◌, ◌-◌, ◌^◌, ℕ, ℤ, Bool, Option, nat_le, false, true, IsTrue, IfOk, IfSome, IsSome, None, Some, [], ◌∷◌, List, codes, length, pos, All, slice_index_or, if◌then◌else◌, IfErr, OnErr};
ghost use Rattle.sqlite.specs.declared.types.Value.TheVariants.{Int, Text};
ghost use Rattle.sqlite.specs.Order.{column};
ghost use Rattle.dnp_objects.specs.declared.limits.TheConstants as limits;
ghost use Rattle.dnp_eventbuf.specs.FitsLane.{FitsLane};
ghost use Rattle.dnp_eventbuf.specs.EventBuffer.{EventBuffer, lane_at};
ghost use Rattle.dnp_objects.specs.declared.lane.LaneRow.{LaneRow as LaneRowValue};
ghost use Rattle.dnp_store.specs.QueueTables.{is_raised, no_figures};
ghost use Rattle.dnp_store.specs.Tables.{or_null};
ghost use Rattle.dnp_store.specs.steps.Shown.{AreInRange, AreNine, IsBegun, IsNoted, IsWhole, LackNine, Restores, ShowIds, ShowNine, IsMost, ShowsCount, ShowsCountOf, ShowsFigures, ShowsForm, ShowsForm1, ShowsQueued, ShowsTwo};
ghost use Rattle.dnp_store.specs.declared.figures.Figures.{Figures as FiguresValue};

use crate::fault::Unread;
use crate::figures::Figures;
use dnp_eventbuf::{LaneRow, MAX_CAPACITY, PlainLanes, is_carried};
use dnp_objects::{LANES, Lane, MAX_ID, Row};
use sqlite::Row as Shown;
use sqlite_value::value::ValueRef;
use std::alloc::{AllocError, Global};

/// The number in this column, if it is one from 0 on.
pub(crate) fn whole(row: &Shown, at: usize) -> Option<u64>
    ensures value { IfSome result (λ n. column row.now at ≡ Int (pos n)) }
    ensures found { (n : ℕ) → column row.now at ≡ Int (pos n) → result ≡ Some n }
{
    match row.get_ref(at).ok()? {
        ValueRef::Int(n) => u64::try_from(n).ok(),
        _ => None,
    }
}

/// The number in this column, if it is one, of either sign.
pub(crate) fn signed(row: &Shown, at: usize) -> Option<i64>
    ensures value { IfSome result (λ n. column row.now at ≡ Int n) }
    ensures found { (n : ℤ) → column row.now at ≡ Int n → result ≡ Some n }
{
    match row.get_ref(at).ok()? {
        ValueRef::Int(n) => Some(n),
        _ => None,
    }
}

/// The number in this column, if it is in range.
pub(crate) fn small(row: &Shown, at: usize) -> Option<u32>
    ensures value { IfSome result (λ n. column row.now at ≡ Int (pos n)) }
    ensures found { (n : ℕ) → n < 2 ^ 32 → column row.now at ≡ Int (pos n) → result ≡ Some n }
{
    u32::try_from(whole(row, at)?).ok()
}

/// The time in this column, or that there is none, if the column says so.
pub(crate) fn time_in(row: &Shown, at: usize) -> Option<Option<u64>>
    ensures value { IfSome result (λ time. column row.now at ≡ or_null time) }
    ensures found { (time : Option ℕ) → at < length row.now → column row.now at ≡ or_null time → result ≡ Some time }
{
    match row.get_ref(at).ok()? {
        ValueRef::Null => Some(None),
        ValueRef::Int(n) => Some(Some(u64::try_from(n).ok()?)),
        _ => None,
    }
}

/// The rowid of the only row, if its number is 1.
pub(crate) fn form1(rows: &[Shown]) -> Option<i64>
    ensures value { IfSome result (λ id. ShowsForm1 rows.now id) }
    ensures found { (id : ℤ) → ShowsForm1 rows.now id → result ≡ Some id }
{
    if rows.len() != 1 {
        return None;
    }
    let id = signed(&rows[0], 0)?;
    if whole(&rows[0], 1)? == 1 {
        Some(id)
    } else {
        None
    }
}

/// The number in the only row.
pub(crate) fn number_of(rows: &[Shown]) -> Option<u64>
    ensures value { IfSome result (λ n. ShowsForm rows.now n) }
    ensures found { (n : ℕ) → ShowsForm rows.now n → result ≡ Some n }
{
    if rows.len() != 1 {
        return None;
    }
    let _id = signed(&rows[0], 0)?;
    whole(&rows[0], 1)
}

/// The mark in this column, 0 or 1.
fn mark(row: &Shown, at: usize) -> Option<bool>
    ensures value { IfSome result (λ b. column row.now at ≡ Int (if b then pos 1 else pos 0)) }
    ensures found { (b : Bool) → column row.now at ≡ Int (if b then pos 1 else pos 0) → result ≡ Some b }
{
    match whole(row, at)? {
        0 => Some(false),
        1 => Some(true),
        _ => None,
    }
}

/// The figures of the lane of this number, if the row has them, in their ranges.
fn figures_in(row: &Shown, number: usize) -> Option<Figures>
    ensures value { IfSome result (λ f. ShowsFigures row.now number f × AreInRange f) }
    ensures found { (f : FiguresValue) → ShowsFigures row.now number f → AreInRange f → result ≡ Some f }
{
    let lane = whole(row, 0)?;
    let capacity = small(row, 1)?;
    let lost = whole(row, 2)?;
    let raised = mark(row, 3)?;
    if lane == number as u64 && 1 <= capacity && capacity <= MAX_CAPACITY && lost <= MAX_ID {
        Some(Figures {
            capacity,
            lost,
            raised,
        })
    } else {
        None
    }
}

/// The figures of the nine lanes, if the rows have them.
pub(crate) fn all_figures(rows: &[Shown]) -> Result<[Figures; LANES], Unread>
    ensures in_range { IfOk result AreNine }
    ensures shown { IfOk result (ShowNine rows.now) }
    ensures wrong { OnErr result (LackNine rows.now) }
    ensures named { IfErr result (λ unread. unread ≡ Unread.Form) }
{
    if rows.len() != LANES {
        return Err(Unread::Form);
    }
    let none = Figures {
        capacity: 0,
        lost: 0,
        raised: false,
    };
    let mut figures = [none; LANES];
    for number in 0..LANES {
        let f = figures_in(&rows[number], number).ok_or(Unread::Form)?;
        figures[number] = f;
    }
    Ok(figures)
}

/// Whether a row counts for this table.
fn is_for(row: &Shown, table: &str) -> bool
    ensures value { IsTrue result → column row.now 1 ≡ Text table.now }
    ensures found { column row.now 1 ≡ Text table.now → IsTrue result }
{
    match row.get_ref(1) {
        Ok(ValueRef::Text(name)) => name == table.as_bytes(),
        _ => false,
    }
}

/// The rowid of a row that counts for this table, and the number that it notes.
fn count_in(row: &Shown, table: &str) -> Option<(i64, u64)>
    ensures value { IfSome result (λ x. ShowsCountOf table.now row.now x.0 x.1) }
    ensures found { (id : ℤ) (n : ℕ) → ShowsCountOf table.now row.now id n → result ≡ Some (id, n) }
{
    if !is_for(row, table) {
        return None;
    }
    let id = signed(row, 0)?;
    let n = whole(row, 2)?;
    Some((id, n))
}

/// The last id used, if nothing else is noted.
fn counted(rows: &[Shown], table: &str) -> Option<u64>
    ensures value { IfSome result (λ n. ShowsCount table.now rows.now n) }
    ensures found { (n : ℕ) → ShowsCount table.now rows.now n → result ≡ Some n }
{
    if rows.is_empty() {
        return Some(0);
    }
    if rows.len() > 1 {
        return None;
    }
    let (_id, n) = count_in(&rows[0], table)?;
    Some(n)
}

/// The numbers that a row notes for one table and another row for a second, if their ids differ.
fn pair_in(row: &Shown, other: &Shown, table: &str, second: &str) -> Option<(u64, u64)>
    ensures value { IfSome result (λ n. (id : ℤ) × (next : ℤ) × ShowsCountOf table.now row.now id n.0 × ShowsCountOf second.now other.now next n.1 × (id ≢ next)) }
    ensures found { (id next : ℤ) (n m : ℕ) → ShowsCountOf table.now row.now id n → ShowsCountOf second.now other.now next m → id ≢ next → result ≡ Some (n, m) }
{
    let (id, n) = count_in(row, table)?;
    let (next, m) = count_in(other, second)?;
    if id == next { None } else { Some((n, m)) }
}

/// The last ids used that are noted for two tables, 0 where none is, if nothing else is noted and their ids differ.
fn counted_two(rows: &[Shown], first: &str, second: &str) -> Option<(u64, u64)>
    ensures value { IfSome result (λ n. ShowsTwo first.now second.now rows.now n.0 n.1) }
    ensures found { first.now ≢ second.now → (n m : ℕ) → ShowsTwo first.now second.now rows.now n m → result ≡ Some (n, m) }
{
    match rows {
        [] => Some((0, 0)),
        [row] => match count_in(row, first) {
            Some((_id, n)) => Some((n, 0)),
            None => Some((0, count_in(row, second)?.1)),
        },
        [row, other] => match pair_in(row, other, first, second) {
            Some(found) => Some(found),
            None => {
                let (m, n) = pair_in(row, other, second, first)?;
                Some((n, m))
            }
        },
        _ => None,
    }
}

/// The last id used that is noted for a table, and whether nothing else is noted.
pub(crate) fn noted_alone(counts: &[Shown], table: &str) -> (u64, bool)
    ensures value { IsTrue result.1 → ShowsCount table.now counts.now result.0 }
    ensures found { (n : ℕ) → ShowsCount table.now counts.now n → result ≡ (n, true) }
{
    match counted(counts, table) {
        Some(n) => (n, true),
        None => (0, false),
    }
}

/// The last ids used that are noted for two tables, and whether nothing else is noted, and their ids differ.
pub(crate) fn two_noted(counts: &[Shown], first: &str, second: &str) -> (u64, u64, bool)
    ensures value { IsTrue result.2 → ShowsTwo first.now second.now counts.now result.0 result.1 }
    ensures found { first.now ≢ second.now → (n m : ℕ) → ShowsTwo first.now second.now counts.now n m → result ≡ (n, m, true) }
{
    match counted_two(counts, first, second) {
        Some((n, m)) => (n, m, true),
        None => (0, 0, false),
    }
}

/// The greater of a number and the one that a row notes for this table, if it notes one.
fn with_noted(row: &Shown, table: &str, so_far: u64) -> u64
    ensures more { so_far ≤ result }
    ensures noted { (id : ℤ) (n : ℕ) → ShowsCountOf table.now row.now id n → n ≤ result }
    ensures least { (most : ℕ) → so_far ≤ most → ((id : ℤ) (n : ℕ) → ShowsCountOf table.now row.now id n → n ≤ most) → result ≤ most }
{
    match count_in(row, table) {
        Some((_id, n)) => so_far.max(n),
        None => so_far,
    }
}

/// The greatest number that is noted for this table, or 0.
fn greatest(rows: &[Shown], table: &str) -> u64
    ensures most { IsMost table.now rows.now result }
    ensures least { (n : ℕ) → IsMost table.now rows.now n → result ≤ n }
{
    let mut greatest = 0;
    for row in rows {
        greatest = with_noted(row, table, greatest);
    }
    greatest
}

/// Whether an id is at most `MAX_ID`.
fn is_id(id: u64) -> bool
    ensures { result ≡ nat_le id limits.MAX_ID }
{
    id <= MAX_ID
}

/// Whether the number that is noted is this one.
fn is_noted(noted: Option<u64>, last: u64) -> bool
    ensures same { IsTrue result → noted ≡ Some last }
    ensures found { noted ≡ Some last → IsTrue result }
{
    noted == Some(last)
}

/// The last id used in this table, at most `MAX_ID`, and whether that alone is noted, where this is the
/// greatest id that stands there.
pub(crate) fn last_noted(counts: &[Shown], top: u64, table: &str) -> Option<(u64, bool)>
    ensures counted { IfSome result (λ last. (last.0 ≤ limits.MAX_ID) × (IsTrue last.1 → ShowsCount table.now counts.now last.0)) }
    ensures most { IfSome result (λ last. IsMost table.now counts.now last.0) }
    ensures over { IfSome result (λ last. top ≤ last.0) }
    ensures alone { IfSome result (λ last. (n : ℕ) → ShowsCount table.now counts.now n → top ≤ n → (last.0 ≡ n) × IsTrue last.1) }
    ensures found { (n : ℕ) → ShowsCount table.now counts.now n → top ≤ n → n ≤ limits.MAX_ID → result ≡ Some (n, true) }
{
    let noted = counted(counts, table);
    let last = greatest(counts, table).max(top);
    if is_id(last) {
        Some((last, is_noted(noted, last)))
    } else {
        None
    }
}

/// The last id used in this table, at most `MAX_ID`, where these rows of it are shown, and whether that is the one noted.
pub(crate) fn last_of_side(
    counts: &[Shown],
    rows: &[Shown],
    table: &str,
    noted: u64,
) -> Option<(u64, bool)>
    ensures value { IfSome result (λ last. (last.0 ≤ limits.MAX_ID) × (IsTrue last.1 → noted ≡ last.0)) }
    ensures found { IsNoted table.now counts.now noted → ShowIds rows.now noted → result ≡ (if nat_le noted limits.MAX_ID then Some (noted, true) else None) }
    ensures some { IsMost table.now counts.now limits.MAX_ID → ShowIds rows.now limits.MAX_ID → result ≢ None }
    ensures over { IfSome result (λ last. (n : ℕ) → column (slice_index_or rows.now (length rows.now - 1) []) 0 ≡ Int (pos n) → n ≤ last.0) }
{
    let top = last_shown(rows)?;
    let last = greatest(counts, table).max(top);
    if is_id(last) {
        Some((last, noted == last))
    } else {
        None
    }
}

/// The id in the last row, which is the greatest where they stand in order, or 0 where there is no row.
fn last_shown(rows: &[Shown]) -> Option<u64>
    ensures low { IfSome result (λ last. (n : ℕ) → ShowIds rows.now n → last ≤ n) }
    ensures found { (n : ℕ) → ShowIds rows.now n → result ≢ None }
    ensures over { IfSome result (λ last. (n : ℕ) → column (slice_index_or rows.now (length rows.now - 1) []) 0 ≡ Int (pos n) → n ≤ last) }
{
    match rows.last() {
        Some(row) => whole(row, 0),
        None => Some(0),
    }
}

/// The last id used in this table, at most `MAX_ID`, and whether that alone is noted.
pub(crate) fn last_used(counts: &[Shown], rows: &[Shown], table: &str) -> Option<(u64, bool)>
    ensures counted { IfSome result (λ last. (last.0 ≤ limits.MAX_ID) × (IsTrue last.1 → ShowsCount table.now counts.now last.0)) }
    ensures most { IfSome result (λ last. IsMost table.now counts.now last.0) }
    ensures over { IfSome result (λ last. (n : ℕ) → column (slice_index_or rows.now (length rows.now - 1) []) 0 ≡ Int (pos n) → n ≤ last.0) }
    ensures alone { IfSome result (λ last. (n : ℕ) → ShowsCount table.now counts.now n → ShowIds rows.now n → (last.0 ≡ n) × IsTrue last.1) }
    ensures found { (n : ℕ) → ShowsCount table.now counts.now n → ShowIds rows.now n → n ≤ limits.MAX_ID → result ≡ Some (n, true) }
{
    let top = last_shown(rows)?;
    last_noted(counts, top, table)
}

/// The lanes' capacities.
fn capacities_of(figures: &[Figures]) -> [u32; LANES]
    requires { AreNine figures.now }
    ensures in_range { All (λ capacity. (1 ≤ capacity) × (capacity ≤ MAX_CAPACITY)) result }
    ensures each { (k : ℕ) → k < limits.LANES → slice_index_or result k 0 ≡ (slice_index_or figures.now k no_figures).capacity }
{
    let mut capacities = [1u32; LANES];
    for number in 0..LANES {
        capacities[number] = figures[number].capacity;
    }
    capacities
}

/// Notes how many rows each lane has dropped.
fn restore_lost(lanes: &mut PlainLanes, figures: &[Figures])
    requires { AreNine figures.now }
    ensures nine { length lanes.new.lanes ≡ length lanes.old.lanes }
    ensures each { (k : ℕ) → k < limits.LANES → lane_at lanes.new k ≡ record (lane_at lanes.old k) { lost = (slice_index_or figures.now k no_figures).lost } }
    ensures same { (lanes.new.overflow ≡ lanes.old.overflow) × (lanes.new.last_id ≡ lanes.old.last_id) }
{
    let _last = lanes.last_id();
    for number in 0..LANES {
        lanes.restore_lost(number, figures[number].lost);
    }
}

/// Whether some lane raised the overflow.
fn any_raised(figures: &[Figures]) -> bool
    ensures { result ≡ is_raised figures.now }
{
    figures.iter().any(|f| f.raised)
}

/// Lanes without rows.
pub(crate) fn begun(
    alloc: Global,
    figures: &[Figures],
    last_id: u64,
) -> Result<PlainLanes, AllocError>
    requires figures { AreNine figures.now }
    requires last { last_id ≤ limits.MAX_ID }
    ensures { IfOk result (λ lanes. IsBegun lanes figures.now last_id) }
{
    let mut lanes = PlainLanes::new(alloc, capacities_of(figures))?;
    restore_lost(&mut lanes, figures);
    lanes.restore_marks(any_raised(figures), last_id);
    Ok(lanes)
}

/// An id and an event of a lane, if the lane's event object can carry it.
fn carried(id: u64, x: LaneRow) -> Option<(u64, LaneRow)>
    ensures value { IfSome result (λ y. (y.0 ≡ id) × (y.1 ≡ x) × FitsLane x) }
    ensures found { FitsLane x → IsSome result }
{
    if is_carried(&x) { Some((id, x)) } else { None }
}

/// The row's id, lane and event, if it has them, in their ranges.
fn queued_in(row: &Shown) -> Option<(u64, LaneRow)>
    ensures value { IfSome result (λ x. ShowsQueued row.now x.0 x.1 × FitsLane x.1) }
    ensures found { (id : ℕ) (x : LaneRowValue) → 5 < length row.now → x.row.flags < 2 ^ 8 → ShowsQueued row.now id x → FitsLane x → IsSome result }
{
    let id = whole(row, 0)?;
    let lane = Lane::numbered(small(row, 1)? as usize)?;
    let index = u16::try_from(small(row, 2)?).ok()?;
    let flags = u8::try_from(small(row, 3)?).ok()?;
    let value = signed(row, 4)?;
    let time = time_in(row, 5)?;
    let kind = lane.kind;
    let row = Row {
        kind,
        index,
        flags,
        value,
        time,
    };
    let x = LaneRow { lane, row };
    carried(id, x)
}

/// Puts rows back into their lanes: whether each is as it should be and fits, under ids that rise.
pub(crate) fn restore_rows(rows: &[Shown], lanes: &mut PlainLanes) -> bool
    ensures put { IsTrue result → Restores 0 rows.now lanes.old lanes.new }
    ensures fits { (b : EventBuffer) → ((k : ℕ) → k < length rows.now → IsWhole (slice_index_or rows.now k [])) → Restores 0 rows.now lanes.old b → IsTrue result }
{
    let mut last = 0;
    for row in rows {
        let Some((id, x)) = queued_in(row) else {
            return false;
        };
        if id <= last {
            return false;
        }
        if !lanes.restore_row(id, x) {
            return false;
        }
        last = id;
    }
    true
}
