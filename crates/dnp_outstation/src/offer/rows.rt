//! Rows of lanes that a READ gives.

ghost use Rattle.std.specs.Prelude.{◌≡◌, ◌≤◌, ◌<◌, ◌+◌, ◌*◌, map, fold, filter, take, nat_le, IsTrue, IsSome, is_some, OnOk, IfOk, IfSome, length, All, List, ℕ};
ghost use Rattle.std.specs.List.{AllPairs};
ghost use Rattle.dnp_objects.specs.Events.{IsEvent};
ghost use Rattle.dnp_objects.specs.Lanes.{lane_number};
ghost use Rattle.dnp_eventbuf.specs.declared.numbered.Numbered.{Numbered as NumberedRow};
ghost use Rattle.dnp_appfragment.specs.Built.{size};
ghost use Rattle.dnp_appfragment.specs.Table.{is_response};
ghost use Rattle.dnp_objects.specs.declared.limits.TheConstants.{LANES, MAX_FRAGMENT};
ghost use Rattle.dnp_outstation.specs.Items.{event_of, given_after, event_items, rows_left, at_most, less};
ghost use Rattle.dnp_outstation.specs.steps.Filling.{after_release, over_of, reached};
ghost use Rattle.dnp_outstation.specs.steps.Grouping.{mark};
ghost use Rattle.dnp_outstation.specs.steps.Putting.{Puts, least_octets, least_of};
ghost use Rattle.dnp_outstation.specs.Stores.{IsLook};

use crate::offer::place::RowPart;
use crate::offer::writer::Writer;
use dnp_eventbuf::laws::an_offer_after_a_release;
use dnp_eventbuf::{Lane, Lanes, Numbered, StoreFault, Upto};
use dnp_objects::Kind;
use std::alloc::Global;

/// Which rows a header of a READ may give: those over the ids that were given, up to the one that stood
/// in the lanes when the READ was first answered, as the lanes will be after a release, if there is one.
#[derive(Clone, Copy, Debug)]
pub struct Bounds<'a> {
    pub given: &'a Upto,
    pub stood: u64,
    pub released: &'a Option<Upto>,
}

impl<'a> Bounds<'a> {
    /// Over which id a lane's rows are still to be given.
    fn over(&self, number: usize) -> u64
        requires { number < LANES }
        ensures over { result ≡ over_of self.now.given.now self.now.released.now number }
        ensures nine { IfSome self.now.released.now (λ upto. length upto ≡ LANES) }
    {
        match self.released {
            Some(upto) => self.given[number].max(upto[number]),
            None => self.given[number],
        }
    }
}

/// How many more binaries of a lane are asked for than have room: where all are put or wait, none was left out. Rows
/// of seven octets may wait, which are two binaries or one of another kind.
const SPARE_BINARIES: usize = 4;

const SPARE: usize = 2;

/// How many rows of a lane of this kind are asked for where so many octets are left: a binary takes three of
/// them at least, its index and its flags, and a counter or an analog four more, its value.
pub(crate) fn enough(kind: Kind, left: usize) -> usize
    ensures enough { (n : ℕ) → least_octets kind * n ≤ left + 7 → n < result }
    ensures few { result ≤ left + 4 }
{
    match kind {
        Kind::Binary => left / 3 + SPARE_BINARIES,
        Kind::Counter | Kind::Analog => left / 7 + SPARE,
    }
}

/// How many rows to ask for where a header has this limit and no more than so many fit.
fn asked(most: Option<usize>, few: usize) -> usize
    ensures { (rows : List NumberedRow) → take result rows ≡ take few (at_most most rows) }
{
    match most {
        Some(most) => most.min(few),
        None => few,
    }
}

/// Keeps the rows that stood in the lanes when the READ was first answered. Ids rise: where the last one stood, all did.
fn keep_stood(rows: &mut Vec<Numbered>, stood: u64)
    ensures kept { AllPairs (λ (x y : NumberedRow). x.id < y.id) rows.old.items → rows.new.items ≡ filter (λ x. nat_le x.id stood) rows.old.items }
    ensures events { All (λ x. IsEvent x.row) rows.old.items → All (λ x. IsEvent x.row) rows.new.items }
{
    match rows.last() {
        Some(last) if last.id > stood => rows.retain(|x| x.id <= stood),
        _ => {}
    }
}

/// The first rows of a lane that a header of a READ may still give, within its limit, but no more than
/// so many, in place of what was in `rows`.
fn rows_to_give<L: Lanes>(
    lanes: &mut L,
    alloc: Global,
    rows: &mut Vec<Numbered>,
    lane: Lane,
    bounds: &Bounds<'_>,
    most: Option<usize>,
    few: usize,
) -> Result<(), StoreFault>
    ensures rows { L.honest lanes.new → OnOk result (rows.new.items
        ≡ take few (at_most most (rows_left (after_release (L.contents lanes.new) bounds.now.released.now) bounds.now.stood bounds.now.given.now (lane_number lane)))) }
    ensures events { OnOk result (All (λ x. IsEvent x.row) rows.new.items) }
    ensures kinds { L.honest lanes.new → OnOk result (All (λ x. x.row.kind ≡ lane.kind) rows.new.items) }
    ensures look { IsLook L.honest L.is_stopped L.contents L.beside L.place L.asks_memory L.may_fault lanes.old lanes.new result }
{
    an_offer_after_a_release();
    let over = bounds.over(lane.number());
    lanes.offer_into(alloc, lane, over, asked(most, few), rows)?;
    keep_stood(rows, bounds.stood);
    Ok(())
}

/// What is left of a header's limit after so many rows.
pub(crate) fn less(most: Option<usize>, given: usize) -> Option<usize>
    ensures { result ≡ less most given }
{
    most.map(|most| most.saturating_sub(given))
}

impl Writer {
    /// Puts rows of a lane as far as they fit; answers whether all do that don't wait.
    #[inline(always)]
    pub(crate) fn put_rows(
        &mut self,
        header: usize,
        is_open: bool,
        lane: usize,
        rows: &[Numbered],
    ) -> bool
        requires lane { lane < LANES }
        requires response { IsTrue (is_response self.old.builder.function) }
        requires events { All (λ x. IsEvent x.row) rows.now }
        ensures given { IsTrue result → reached self.new ≡ fold given_after (reached self.old) (map (event_of header lane) rows.now) }
        ensures written { Puts self.old (mark is_open (map (event_of header lane) rows.now)) result self.new }
        ensures room { IsTrue result → size self.old.builder ≤ MAX_FRAGMENT → size self.old.builder + least_of rows.now ≤ MAX_FRAGMENT + 7 }
        ensures response { self.new.builder.function ≡ self.old.builder.function }
    {
        if rows.is_empty() {
            return true;
        }
        self.put_each(header, is_open, lane, rows)
    }

    /// The same. It stands apart, so that a lane without rows costs next to nothing.
    #[inline(never)]
    fn put_each(&mut self, header: usize, is_open: bool, lane: usize, rows: &[Numbered]) -> bool
        requires lane { lane < LANES }
        requires response { IsTrue (is_response self.old.builder.function) }
        requires events { All (λ x. IsEvent x.row) rows.now }
        ensures given { IsTrue result → reached self.new ≡ fold given_after (reached self.old) (map (event_of header lane) rows.now) }
        ensures written { Puts self.old (mark is_open (map (event_of header lane) rows.now)) result self.new }
        ensures room { IsTrue result → size self.old.builder ≤ MAX_FRAGMENT → size self.old.builder + least_of rows.now ≤ MAX_FRAGMENT + 7 }
        ensures response { self.new.builder.function ≡ self.old.builder.function }
    {
        let mut rest = rows;
        while let Some((x, after)) = rest.split_first() {
            if !self.put_first(header, is_open, lane, x, after) {
                return false;
            }
            let Some(left) = self.put_on(header, is_open, lane, after) else {
                return false;
            };
            rest = left;
        }
        true
    }

    /// Puts the rows of a lane that a header may still give, within its limit, as far as they fit;
    /// answers how many they are, or nothing where not all of them fit. They are fetched into `rows`.
    fn put_lane<L: Lanes>(
        &mut self,
        alloc: Global,
        lanes: &mut L,
        rows: &mut Vec<Numbered>,
        header: usize,
        is_open: bool,
        lane: Lane,
        bounds: &Bounds<'_>,
        most: Option<usize>,
    ) -> Result<Option<usize>, StoreFault>
        requires { IsTrue (is_response self.old.builder.function) }
        ensures written { L.honest lanes.new → IfOk result (λ given. Puts self.old (mark is_open (map (event_of header (lane_number lane))
            (at_most most (rows_left (after_release (L.contents lanes.new) bounds.now.released.now) bounds.now.stood bounds.now.given.now (lane_number lane))))) (is_some given) self.new) }
        ensures given { L.honest lanes.new → IfOk result (λ given. IsSome given → reached self.new ≡ fold given_after (reached self.old) (map (event_of header (lane_number lane))
            (at_most most (rows_left (after_release (L.contents lanes.new) bounds.now.released.now) bounds.now.stood bounds.now.given.now (lane_number lane))))) }
        ensures counted { L.honest lanes.new → IfOk result (λ given. IfSome given (λ n.
            n ≡ length (at_most most (rows_left (after_release (L.contents lanes.new) bounds.now.released.now) bounds.now.stood bounds.now.given.now (lane_number lane))))) }
        ensures response { self.new.builder.function ≡ self.old.builder.function }
        ensures look { IsLook L.honest L.is_stopped L.contents L.beside L.place L.asks_memory L.may_fault lanes.old lanes.new result }
    {
        let few = enough(lane.kind, self.builder.left());
        rows_to_give(lanes, alloc, rows, lane, bounds, most, few)?;
        if !self.put_rows(header, is_open, lane.number(), rows.as_slice()) {
            return Ok(None);
        }
        Ok(Some(rows.len()))
    }

    /// Puts the rows that a header may still give, one lane after another, as far as its limit goes and
    /// they fit; answers whether all do.
    pub(crate) fn put_lanes<L: Lanes>(
        &mut self,
        alloc: Global,
        lanes: &mut L,
        rows: &mut Vec<Numbered>,
        header: usize,
        part: &RowPart,
        bounds: &Bounds<'_>,
    ) -> Result<bool, StoreFault>
        requires { IsTrue (is_response self.old.builder.function) }
        ensures written { L.honest lanes.new → IfOk result (λ fit. Puts self.old (mark part.now.is_open
            (event_items (after_release (L.contents lanes.old) bounds.now.released.now) bounds.now.stood bounds.now.given.now header part.now.most (map lane_number part.now.lanes))) fit self.new) }
        ensures given { L.honest lanes.new → IfOk result (λ fit. IsTrue fit → reached self.new ≡ fold given_after (reached self.old)
            (event_items (after_release (L.contents lanes.old) bounds.now.released.now) bounds.now.stood bounds.now.given.now header part.now.most (map lane_number part.now.lanes))) }
        ensures response { self.new.builder.function ≡ self.old.builder.function }

        ensures look { IsLook L.honest L.is_stopped L.contents L.beside L.place L.asks_memory L.may_fault lanes.old lanes.new result }
    {
        let mut left = part.most;
        for lane in &part.lanes {
            let Some(given) = self.put_lane(
                alloc,
                lanes,
                rows,
                header,
                part.is_open,
                *lane,
                bounds,
                left,
            )?
            else {
                return Ok(false);
            };
            left = less(left, given);
        }
        Ok(true)
    }
}
