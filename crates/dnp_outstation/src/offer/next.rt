//! Rows of a lane that are put one after another. What follows from the one before them is looked up once, and all that go on
//! as that one did, as its own object or in the group, are put by one call of the builder; and a row is put at once where the
//! one after it stands there and is out of its reach.

ghost use Rattle.std.specs.Prelude.{◌≡◌, ◌<◌, ◌≤◌, ◌&&◌, [], ◌∷◌, ◌++◌, ℕ, List, All, length, map, take, drop, true, false, IfSome, IsTrue, Some, None};
ghost use Rattle.dnp_objects.specs.Equality.{kind_eq};
ghost use Rattle.dnp_objects.specs.Events.{IsEvent};
ghost use Rattle.dnp_objects.specs.Relative.{FitsRelative};
ghost use Rattle.dnp_objects.specs.declared.limits.TheConstants.{LANES};
ghost use Rattle.dnp_objects.specs.declared.row.Kind.TheVariants.{Binary};
ghost use Rattle.dnp_eventbuf.specs.declared.numbered.Numbered.{Numbered as NumberedRow};
ghost use Rattle.dnp_appfragment.specs.Built.{context_of};
ghost use Rattle.dnp_appfragment.specs.Table.{is_response};
ghost use Rattle.dnp_appfragment.specs.Written.{IsOf};
ghost use Rattle.dnp_outstation.specs.declared.offer.grouping.Waiting.TheVariants as waiting;
ghost use Rattle.dnp_outstation.specs.Forms.{is_in_reach, told_after};
ghost use Rattle.dnp_outstation.specs.Items.{event_of};
ghost use Rattle.dnp_outstation.specs.Layout.{lay};
ghost use Rattle.dnp_outstation.specs.steps.Filling.{continues};
ghost use Rattle.dnp_outstation.specs.steps.Grouping.{Marked, mark, marked, open_in, laid_from, waiting_items};
ghost use Rattle.dnp_outstation.specs.steps.Grouping.Open.{Shut};
ghost use Rattle.dnp_outstation.specs.steps.Putting.{PutsFirst, StopsIn, GoOn, passed_rows};

use crate::offer::grouping::{Coming, Waiting, is_in_reach};
use crate::offer::writer::{Run, Writer};
use dnp_appfragment::RowSource;
use dnp_appfragment::laws::a_common_time_stays;
use dnp_eventbuf::Numbered;
use dnp_objects::{Kind, Row};

/// Whether a row may go after this common time.
#[inline(always)]
#[tactic(auto, using(crate::proofs::Grouped::near_tells))]
fn goes_on(common: u64, x: &Row) -> bool
    ensures goes_on { result ≡ (kind_eq x.now.kind Binary && is_in_reach (Some common) x.now.time) }
    ensures tells { IsTrue result → IsEvent x.now → FitsRelative common x.now }
{
    x.kind == Kind::Binary && is_in_reach(Some(common), x.time)
}

/// Whether a row is of this kind and has a time, or has none.
#[inline(always)]
fn is_of(kind: Kind, has_time: bool, x: &Row) -> bool
    ensures { IsTrue result → IsOf kind has_time x.now }
{
    x.kind == kind && x.time.is_some() == has_time
}

/// Whether a row goes as its own object where none waits and these follow it: it may begin no group, or the next one
/// stands there and is out of its reach.
#[inline(always)]
pub(crate) fn is_alone(is_open: bool, x: &Numbered, after: &[Numbered]) -> bool
    ensures { IsTrue result → (header lane : ℕ) (more : List Marked)
        → laid_from Shut (mark is_open (map (event_of header lane) (x.now ∷ after.now)) ++ more)
        ≡ lay (event_of header lane x.now) ∷ laid_from Shut (mark is_open (map (event_of header lane) after.now) ++ more) }
{
    if !(is_open && (x.row.kind == Kind::Binary && x.row.time.is_some())) {
        return true;
    }
    match after.split_first() {
        Some((next, _)) => {
            !(next.row.kind == Kind::Binary && is_in_reach(x.row.time, next.row.time))
        }
        None => false,
    }
}

/// How many rows, from the first on, may go after this common time.
#[inline(always)]
fn in_reach(common: u64, rows: &[Numbered]) -> usize
    ensures few { result ≤ length rows.now }
    ensures near { All (λ x. (kind_eq x.row.kind Binary && is_in_reach (Some common) x.row.time) ≡ true) (take result rows.now) }
    ensures tells { All (λ x. IsEvent x.row) rows.now → All (λ x. FitsRelative common x.row) (take result rows.now) }
{
    let mut n = 0;
    let mut rest = rows;
    while let Some((x, after)) = rest.split_first() {
        if !goes_on(common, &x.row) {
            break;
        }
        n += 1;
        rest = after;
    }
    n
}

/// How many rows, from the first on, go as their own objects, each of this kind, with a time or without.
#[inline(always)]
fn alone(is_open: bool, kind: Kind, has_time: bool, rows: &[Numbered]) -> usize
    ensures few { result ≤ length rows.now }
    ensures alike { All (λ x. IsOf kind has_time x.row) (take result rows.now) }
    ensures goes { (header lane : ℕ) → GoOn waiting.Nothing header is_open lane None (take result rows.now) (drop result rows.now) }
{
    let mut n = 0;
    let mut rest = rows;
    while let Some((x, after)) = rest.split_first() {
        if !is_of(kind, has_time, &x.row) {
            break;
        }
        if !is_alone(is_open, x, after) {
            break;
        }
        n += 1;
        rest = after;
    }
    n
}

/// Rows of a lane.
#[derive(Clone, Copy)]
struct LaneRows<'a> {
    rows: &'a [Numbered],
}

impl<'a> RowSource for LaneRows<'a> {
    ghost rows = { λ l. map (λ (x : NumberedRow). x.row) l.rows.now };

    #[inline]
    fn len(&self) -> usize {
        self.rows.len()
    }

    #[inline]
    fn row(&self, place: usize) -> Row {
        self.rows[place].row
    }
}

impl Writer {
    /// The common time of the rows that stand last, or none where they go as their own objects: if those of this lane
    /// that come for this header can go on so.
    #[tactic(auto, using(crate::proofs::GroupTimes::low_event, crate::proofs::Alone::goes_on_after))]
    fn last_common(&self, header: usize, is_open: bool, lane: usize) -> Option<Option<u64>>
        ensures run { IfSome result (λ common. self.now.run ≡ Run.OfLane lane common) }
        ensures continues { IfSome result (λ common. continues self.now (Run.OfLane lane common) ≡ true) }
        ensures header { IfSome result (λ common. self.now.place.header ≡ header) }
        ensures nothing { result ≡ Some None → self.now.waiting ≡ waiting.Nothing }
        ensures none { IfSome result (λ common. waiting_items self.now.waiting ≡ []) }
        ensures there { (common : ℕ) → result ≡ Some (Some common) → context_of self.now.builder ≡ Some common }
        ensures laid { (common : ℕ) → result ≡ Some (Some common) → (x : NumberedRow)
            → (kind_eq x.row.kind Binary && is_in_reach (Some common) x.row.time) ≡ true
            → (more : List Marked) → laid_from (open_in self.now.waiting) (marked is_open (event_of header lane x) ∷ more)
            ≡ told_after common (event_of header lane x) ∷ laid_from (open_in self.now.waiting) more }
    {
        if self.place.header != header {
            return None;
        }
        match &self.waiting {
            Waiting::Nothing => {
                if self.run.is_lane(lane, None) {
                    Some(None)
                } else {
                    None
                }
            }
            Waiting::Within(first) => {
                if !(is_open
                    && first.is_open
                    && first.lane == lane
                    && first.row.row.kind == Kind::Binary)
                {
                    return None;
                }
                let common = first.row.row.time?;
                if self.stand_after(lane, common) {
                    Some(Some(common))
                } else {
                    None
                }
            }
            Waiting::One(_) | Waiting::Two(_) => None,
        }
    }

    /// These rows more stand under the last header.
    #[inline(always)]
    fn pass_rows(&mut self, lane: usize, rows: &[Numbered])
        requires lane { lane < LANES }
        ensures { self.new ≡ passed_rows self.old self.old.place.header lane rows.now }
    {
        let Some(last) = rows.last() else {
            return;
        };
        let count = rows.len().min(u32::MAX as usize) as u32;
        self.place.count = self.place.count.saturating_add(count);
        self.place.given[lane] = last.id;
        self.upto[lane] = last.id;
    }

    /// Puts the first row of a slice, of which these follow it, or has it wait; answers whether all that was put fits.
    /// It is put at once where the one after it, which stands there, is out of its reach.
    #[inline(never)]
    pub(crate) fn put_first(
        &mut self,
        header: usize,
        is_open: bool,
        lane: usize,
        x: &Numbered,
        after: &[Numbered],
    ) -> bool
        requires lane { lane < LANES }
        requires response { IsTrue (is_response self.old.builder.function) }
        requires event { IsEvent x.now.row }
        ensures put { IsTrue result → PutsFirst self.old header is_open lane (x.now ∷ after.now) after.now self.new }
        ensures stop { result ≡ false → StopsIn self.old header is_open lane (x.now ∷ after.now) self.new }
        ensures response { self.new.builder.function ≡ self.old.builder.function }
    {
        let z = Coming {
            header,
            is_open,
            lane,
            row: *x,
        };
        if !is_alone(is_open, x, after) || self.waiting.takes(&z) {
            return self.put_event(header, is_open, lane, x);
        }
        self.put_apart(&z)
    }

    /// Puts rows of a lane after the common time under the last header, as far as they are in its reach; answers those
    /// that are left, or nothing where one doesn't fit.
    #[inline(never)]
    fn put_in_group<'a>(
        &mut self,
        common: u64,
        header: usize,
        is_open: bool,
        lane: usize,
        rows: &'a [Numbered],
    ) -> Option<&'a [Numbered]>
        requires lane { lane < LANES }
        requires response { IsTrue (is_response self.old.builder.function) }
        requires events { All (λ x. IsEvent x.row) rows.now }
        requires run { self.old.run ≡ Run.OfLane lane (Some common) }
        requires continues { continues self.old (Run.OfLane lane (Some common)) ≡ true }
        requires there { context_of self.old.builder ≡ Some common }
        requires header { self.old.place.header ≡ header }
        requires none { waiting_items self.old.waiting ≡ [] }
        requires laid { (x : NumberedRow) → (kind_eq x.row.kind Binary && is_in_reach (Some common) x.row.time) ≡ true
            → (more : List Marked) → laid_from (open_in self.old.waiting) (marked is_open (event_of header lane x) ∷ more)
            ≡ told_after common (event_of header lane x) ∷ laid_from (open_in self.old.waiting) more }
        ensures put { IfSome result (λ left. PutsFirst self.old header is_open lane rows.now left.now self.new) }
        ensures left { IfSome result (λ left. (length left.now ≤ length rows.now) × All (λ x. IsEvent x.row) left.now) }
        ensures stop { result ≡ None → StopsIn self.old header is_open lane rows.now self.new }
        ensures response { self.new.builder.function ≡ self.old.builder.function }
    {
        // (a law, for the proof: it does nothing)
        a_common_time_stays();
        let (own, left) = rows.split_at(in_reach(common, rows));
        let put = self.builder.relatives(LaneRows { rows: own });
        self.pass_rows(lane, &own[..put]);
        if put < own.len() {
            return None;
        }
        Some(left)
    }

    /// Puts rows of a lane as their own objects under the last header, up to the first that may begin a group or of which
    /// that isn't known, or that is of another object than the first of them; answers those that are left, or nothing where
    /// one doesn't fit.
    #[inline(never)]
    fn put_lone<'a>(
        &mut self,
        header: usize,
        is_open: bool,
        lane: usize,
        rows: &'a [Numbered],
    ) -> Option<&'a [Numbered]>
        requires lane { lane < LANES }
        requires response { IsTrue (is_response self.old.builder.function) }
        requires events { All (λ x. IsEvent x.row) rows.now }
        requires run { self.old.run ≡ Run.OfLane lane None }
        requires continues { continues self.old (Run.OfLane lane None) ≡ true }
        requires header { self.old.place.header ≡ header }
        requires nothing { self.old.waiting ≡ waiting.Nothing }
        ensures put { IfSome result (λ left. PutsFirst self.old header is_open lane rows.now left.now self.new) }
        ensures left { IfSome result (λ left. (length left.now ≤ length rows.now) × All (λ x. IsEvent x.row) left.now) }
        ensures stop { result ≡ None → StopsIn self.old header is_open lane rows.now self.new }
        ensures response { self.new.builder.function ≡ self.old.builder.function }
    {
        // (a law, for the proof: it does nothing)
        a_common_time_stays();
        let Some((first, _)) = rows.split_first() else {
            return Some(rows);
        };
        let (kind, has_time) = (first.row.kind, first.row.time.is_some());
        let (own, left) = rows.split_at(alone(is_open, kind, has_time, rows));
        let put = self.builder.events(kind, has_time, LaneRows { rows: own });
        self.pass_rows(lane, &own[..put]);
        if put < own.len() {
            return None;
        }
        Some(left)
    }

    /// Puts rows of a lane that go on as the one before them did; answers those that are left, or nothing where one
    /// doesn't fit.
    #[inline(always)]
    pub(crate) fn put_on<'a>(
        &mut self,
        header: usize,
        is_open: bool,
        lane: usize,
        rows: &'a [Numbered],
    ) -> Option<&'a [Numbered]>
        requires lane { lane < LANES }
        requires response { IsTrue (is_response self.old.builder.function) }
        requires events { All (λ x. IsEvent x.row) rows.now }
        ensures put { IfSome result (λ left. PutsFirst self.old header is_open lane rows.now left.now self.new) }
        ensures left { IfSome result (λ left. (length left.now ≤ length rows.now) × All (λ x. IsEvent x.row) left.now) }
        ensures stop { result ≡ None → StopsIn self.old header is_open lane rows.now self.new }
        ensures response { self.new.builder.function ≡ self.old.builder.function }
    {
        match self.last_common(header, is_open, lane) {
            Some(Some(common)) => self.put_in_group(common, header, is_open, lane, rows),
            Some(None) => self.put_lone(header, is_open, lane, rows),
            None => Some(rows),
        }
    }
}
