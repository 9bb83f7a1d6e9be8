//! Rows that are held while a reading is appended, for the unsolicited response that may begin then: whether
//! a full lane drops its oldest row, and which id the new one has, is known only after it.

ghost use Rattle.std.specs.Prelude.{◌≡◌, ◌≢◌, ◌<◌, ◌+◌, ◌*◌, All, true, false, if◌then◌else◌, IsTrue, IfOk, IfErr, IfSome, Err, [], map, length, nat_lt, option_to_list, ◌++◌, List, Option};
ghost use Rattle.dnp_objects.specs.declared.lane.LaneRow.{LaneRow as LaneRowValue};
ghost use Rattle.dnp_objects.specs.Events.{IsEvent};
ghost use Rattle.dnp_appfragment.specs.declared.function.Function.TheVariants as function;
ghost use Rattle.dnp_appfragment.specs.Table.{is_response};
ghost use Rattle.dnp_eventbuf.specs.declared.numbered.Numbered.{Numbered as NumberedRow};
ghost use Rattle.dnp_eventbuf.specs.FitsLane.{FitsLane};
ghost use Rattle.dnp_eventbuf.specs.Sound.{IsSoundBuffer};
ghost use Rattle.dnp_eventbuf.specs.EventBuffer.{EventBuffer, lane_at, with_rows, dropped_by};
ghost use Rattle.dnp_objects.specs.declared.limits.TheConstants.{LANES};
ghost use Rattle.dnp_outstation.specs.steps.Filling.{empty_for, ended, has_rows_in};
ghost use Rattle.dnp_outstation.specs.steps.Holding.{AreFirst, IsLaneHeld, IsClassHeld, IsHeld, AreClassEvents, AreEvents, new_of, kept_of, more_of};
ghost use Rattle.dnp_outstation.specs.Items.{event_of, class_lanes, enabled_lanes, lane_items, first_place};
ghost use Rattle.dnp_outstation.specs.steps.Grouping.{mark};
ghost use Rattle.dnp_outstation.specs.Offer.{pushed};
ghost use Rattle.dnp_outstation.specs.steps.Putting.{Puts};
ghost use Rattle.dnp_outstation.specs.Stores.{IsLook};

use crate::offer::rows::enough;
use crate::offer::writer::Writer;
use dnp_eventbuf::{Lane, Lanes, Numbered, StoreFault};
use dnp_objects::{LaneRow, MAX_FRAGMENT, Row};
use std::alloc::Global;

/// How many rows of a lane are held over those that a whole fragment asks for: the one that may be dropped.
const DROPPED: usize = 1;

/// The first rows of the lanes of a class.
pub struct HeldClass {
    pub binary: Vec<Numbered>,
    pub counter: Vec<Numbered>,
    pub analog: Vec<Numbered>,
}

impl Drop for HeldClass {
    /// One call for whoever lets it go: its parts are looked at here alone.
    fn drop(self) {
        let HeldClass {
            binary: _,
            counter: _,
            analog: _,
        } = self;
    }
}

/// The first rows of the lanes of each class that is enabled.
pub struct HeldRows {
    pub first: HeldClass,
    pub second: HeldClass,
    pub third: HeldClass,
}

impl Drop for HeldRows {
    /// One call for whoever lets it go: its parts are looked at here alone.
    fn drop(self) {
        let HeldRows {
            first: _,
            second: _,
            third: _,
        } = self;
    }
}

/// A row that was appended: the number of its lane, the row as it stands there, and whether that lane
/// dropped its oldest row for it.
#[derive(Clone, Copy)]
pub struct NewRow {
    pub lane: usize,
    pub row: Numbered,
    pub has_dropped: bool,
}

/// Reads the first rows of the lane of this number.
fn held_lane<L: Lanes>(
    lanes: &mut L,
    alloc: Global,
    number: usize,
) -> Result<Vec<Numbered>, StoreFault>
    requires { number < LANES }
    ensures rows { L.honest lanes.new → IfOk result (λ rows. IsLaneHeld (L.contents lanes.old) number rows.items) }
    ensures events { IfOk result (λ rows. All (λ x. IsEvent x.row) rows.items) }
    ensures memory_held { L.honest lanes.new → result ≡ Err StoreFault.Memory → L.asks_memory ≡ false → (lane_at (L.contents lanes.old) number).rows ≢ [] }
    ensures look { IsLook L.honest L.is_stopped L.contents L.beside L.place L.asks_memory L.may_fault lanes.old lanes.new result }
{
    let lane = match Lane::numbered(number) {
        Some(lane) => lane,
        None => unreachable!(),
    };
    let held = enough(lane.kind, MAX_FRAGMENT) + DROPPED;
    lanes.offer(alloc, lane, 0, held)
}

/// Reads the first rows of the lanes of a class, if it is enabled. Classes count from 0 here.
fn held_class<L: Lanes>(
    lanes: &mut L,
    alloc: Global,
    is_enabled: bool,
    class: usize,
) -> Result<HeldClass, StoreFault>
    requires { class < 3 }
    ensures rows { L.honest lanes.new → IfOk result (λ held. is_enabled ≡ true → IsClassHeld (L.contents lanes.old) class held) }
    ensures events { IfOk result AreClassEvents }
    ensures memory_enabled { L.honest lanes.new → result ≡ Err StoreFault.Memory → L.asks_memory ≡ false
        → has_rows_in (L.contents lanes.old) (if is_enabled then class_lanes class else []) ≡ true }
    ensures look { IsLook L.honest L.is_stopped L.contents L.beside L.place L.asks_memory L.may_fault lanes.old lanes.new result }
{
    if !is_enabled {
        return Ok(HeldClass {
            binary: Vec::new(alloc),
            counter: Vec::new(alloc),
            analog: Vec::new(alloc),
        });
    }
    let binary = held_lane(lanes, alloc, 3 * class)?;
    let counter = held_lane(lanes, alloc, 3 * class + 1)?;
    let analog = held_lane(lanes, alloc, 3 * class + 2)?;
    Ok(HeldClass {
        binary,
        counter,
        analog,
    })
}

/// Reads the first rows of the lanes of the enabled classes. In memory it is out of memory only where the
/// lanes hold rows.
pub(crate) fn held_rows<L: Lanes>(
    lanes: &mut L,
    alloc: Global,
    enabled: [bool; 3],
) -> Result<HeldRows, StoreFault>
    ensures rows { L.honest lanes.new → IfOk result (IsHeld (L.contents lanes.old) enabled) }
    ensures events { IfOk result AreEvents }
    ensures memory_enabled { L.honest lanes.new → result ≡ Err StoreFault.Memory → L.asks_memory ≡ false
        → has_rows_in (L.contents lanes.old) (enabled_lanes 0 enabled) ≡ true }
    ensures look { IsLook L.honest L.is_stopped L.contents L.beside L.place L.asks_memory L.may_fault lanes.old lanes.new result }
{
    // Whatever the lanes say without a refusal says that ids rise from 1 on.
    let _raised = lanes.raised();
    let first = held_class(lanes, alloc, enabled[0], 0)?;
    let second = held_class(lanes, alloc, enabled[1], 1)?;
    let third = held_class(lanes, alloc, enabled[2], 2)?;
    Ok(HeldRows {
        first,
        second,
        third,
    })
}

/// The row that was appended, if there was one, and for which these rows were dropped.
fn new_row<L: Lanes>(lanes: &mut L, made: &Option<LaneRow>, dropped: &[Row]) -> Option<NewRow>
    requires { IfSome made.now FitsLane }
    ensures same { lanes.new ≡ lanes.old }
    ensures event { IfSome result (λ new. IsEvent new.row.row) }
    ensures value { L.honest lanes.new → (s : EventBuffer) → IsSoundBuffer s → L.contents lanes.new ≡ with_rows s (option_to_list made.now)
        → dropped.now ≡ dropped_by s (option_to_list made.now) → result ≡ new_of s made.now }
{
    let Some(made) = made else {
        return None;
    };
    let id = lanes.last(made.lane);
    Some(NewRow {
        lane: made.lane.number(),
        row: Numbered { id, row: made.row },
        has_dropped: !dropped.is_empty(),
    })
}

/// What a lane keeps of its rows.
fn kept<'a>(rows: &'a [Numbered], new: &Option<NewRow>, lane: usize) -> &'a [Numbered]
    ensures value { result.now ≡ kept_of rows.now new.now lane }
    ensures events { All (λ x. IsEvent x.row) rows.now → All (λ x. IsEvent x.row) result.now }
{
    let Some(new) = new else {
        return rows;
    };
    if new.lane == lane && new.has_dropped && !rows.is_empty() {
        return &rows[1..];
    }
    rows
}

impl Writer {
    /// Puts the row that the lane took, if it took one and it fits or waits; answers whether that is so.
    fn put_new(&mut self, lane: usize, new: &Option<NewRow>) -> bool
        requires lane { lane < LANES }
        requires response { IsTrue (is_response self.old.builder.function) }
        requires event { IfSome new.now (λ new. IsEvent new.row.row) }
        ensures written { Puts self.old (mark true (map (event_of 0 lane) (more_of new.now lane))) result self.new }
        ensures response { self.new.builder.function ≡ self.old.builder.function }
    {
        let Some(new) = new else {
            return true;
        };
        if new.lane != lane {
            return true;
        }
        self.put_event(0, true, lane, &new.row)
    }

    /// Puts the rows of a lane as they are once the new one was appended, as far as they fit; answers whether
    /// all do.
    fn put_held_lane(&mut self, lane: usize, rows: &[Numbered], new: &Option<NewRow>) -> bool
        requires lane { lane < LANES }
        requires response { IsTrue (is_response self.old.builder.function) }
        requires events { All (λ x. IsEvent x.row) rows.now }
        requires event { IfSome new.now (λ new. IsEvent new.row.row) }
        ensures written { (all : List NumberedRow) → AreFirst all rows.now
            → Puts self.old (mark true (map (event_of 0 lane) (kept_of all new.now lane ++ more_of new.now lane))) result self.new }
        ensures response { self.new.builder.function ≡ self.old.builder.function }
    {
        // What is left says that the fragment fits.
        let _left = self.builder.left();
        if !self.put_rows(0, true, lane, kept(rows, new, lane)) {
            return false;
        }
        self.put_new(lane, new)
    }

    /// The same of the lanes of a class, if it is enabled. Classes count from 0 here.
    fn put_held_class(
        &mut self,
        class: usize,
        is_enabled: bool,
        held: &HeldClass,
        new: &Option<NewRow>,
    ) -> bool
        requires class { class < 3 }
        requires response { IsTrue (is_response self.old.builder.function) }
        requires events { AreClassEvents held.now }
        requires event { IfSome new.now (λ new. IsEvent new.row.row) }
        ensures written { (s : EventBuffer) (made : Option LaneRowValue) → IsSoundBuffer s → new.now ≡ new_of s made → (is_enabled ≡ true → IsClassHeld s class held.now)
            → Puts self.old (mark true (lane_items (with_rows s (option_to_list made)) (if is_enabled then class_lanes class else []))) result self.new }
        ensures response { self.new.builder.function ≡ self.old.builder.function }
    {
        if !is_enabled {
            return true;
        }
        if !self.put_held_lane(3 * class, held.binary.as_slice(), new) {
            return false;
        }
        if !self.put_held_lane(3 * class + 1, held.counter.as_slice(), new) {
            return false;
        }
        self.put_held_lane(3 * class + 2, held.analog.as_slice(), new)
    }
}

/// Puts into an empty unsolicited response the rows that were held and the one that was appended since, if
/// there was one, for which these rows were dropped, as far as they fit; answers whether all do.
pub(crate) fn put_held<L: Lanes>(
    writer: &mut Writer,
    lanes: &mut L,
    held: &HeldRows,
    enabled: [bool; 3],
    made: &Option<LaneRow>,
    dropped: &[Row],
) -> bool
    requires response { IsTrue (is_response writer.old.builder.function) }
    requires events { AreEvents held.now }
    requires carried { IfSome made.now FitsLane }
    ensures same { lanes.new ≡ lanes.old }
    ensures pushed { L.honest lanes.new → (s : EventBuffer) → IsHeld s enabled held.now → L.contents lanes.new ≡ with_rows s (option_to_list made.now)
        → dropped.now ≡ dropped_by s (option_to_list made.now) → writer.old ≡ empty_for function.UnsolicitedResponse first_place
        → ended result writer.new ≡ pushed (with_rows s (option_to_list made.now)) enabled }
    ensures response { writer.new.builder.function ≡ writer.old.builder.function }
{
    let new = new_row(lanes, made, dropped);
    if !writer.put_held_class(0, enabled[0], &held.first, &new) {
        return false;
    }
    if !writer.put_held_class(1, enabled[1], &held.second, &new) {
        return false;
    }
    if !writer.put_held_class(2, enabled[2], &held.third, &new) {
        return false;
    }
    writer.settle()
}
