//! Rows of lanes that are put: each as its own object, or in a group after the time of its first. Which of the two it
//! is is known for none of the last two before what follows them has come, so at most two wait.

ghost use Rattle.std.specs.Prelude.{◌≡◌, ◌<◌, ◌≤◌, ◌+◌, ◌||◌, [], ◌∷◌, ◌++◌, false, true, nat_le, fold, map, slice_set, IsTrue, Some};
ghost use Rattle.dnp_objects.specs.Events.{IsEvent};
ghost use Rattle.dnp_objects.specs.Relative.{FitsRelative};
ghost use Rattle.dnp_objects.specs.declared.limits.TheConstants.{LANES, MAX_FRAGMENT, MAX_TIME};
ghost use Rattle.dnp_appfragment.specs.Built.{size, context_of, with_header, with_object};
ghost use Rattle.dnp_appfragment.specs.Table.{is_response};
ghost use Rattle.dnp_appfragment.specs.Written.{common_head, relative};
ghost use Rattle.dnp_outstation.specs.declared.offer.grouping.Waiting.TheVariants as waiting;
ghost use Rattle.dnp_outstation.specs.Forms.{told_after};
ghost use Rattle.dnp_outstation.specs.Items.{event_of, given_after, place_after};
ghost use Rattle.dnp_outstation.specs.Layout.{item_of, lay};
ghost use Rattle.dnp_outstation.specs.steps.Filling.{built_for, continues, put, put_laid, fits, ended, reached};
ghost use Rattle.dnp_outstation.specs.steps.Grouping.{marked, item_in, marked_in, told_in, given_in, open_in, laid_from};
ghost use Rattle.dnp_outstation.specs.steps.Putting.{Puts, PutsLaid, least_octets, least_given, weight};

use crate::offer::grouping::{Coming, Given, Known, Timed, Waiting, reaches};
use crate::offer::writer::{Run, Writer};
use dnp_appfragment::laws::a_common_time_stays;
use dnp_eventbuf::{Numbered, Upto};
use dnp_objects::LANES;

/// How many octets the first of a group takes: 10 of 51.1, 5 of the header of 2.3, and 5 of its own.
const FIRST_OF_GROUP: usize = 20;

impl Writer {
    /// A row stands under the last header now, told after this common time or none.
    #[inline(always)]
    fn pass_row(&mut self, common: Option<u64>, x: &Coming)
        ensures { self.new ≡ record self.old {
          run = Run.OfLane x.now.lane common;
          place = place_after self.old.place (item_in x.now);
          upto = slice_set self.old.upto x.now.lane x.now.row.id;
        } }
    {
        self.run = Run::OfLane(x.lane, common);
        self.place.pass_event(x.header, x.lane, &x.row);
        self.upto[x.lane] = x.row.id;
    }

    /// Puts a row as its own object, if it fits; answers whether it does.
    #[inline(always)]
    #[tactic(auto, using(crate::proofs::OfferLemmas::heads_broken))]
    fn put_own(&mut self, x: &Coming) -> bool
        requires response { IsTrue (is_response self.old.builder.function) }
        ensures fits { IsTrue result → self.new ≡ put self.old (item_in x.now) }
        ensures room { result ≡ fits (put self.old (item_in x.now)) }
        ensures longer { IsTrue result → size self.old.builder + least_octets x.now.row.row.kind ≤ size self.new.builder }
        ensures short { IsTrue result → size self.new.builder ≤ MAX_FRAGMENT }
        ensures full { result ≡ false → ended false self.new ≡ ended false self.old }
        ensures response { self.new.builder.function ≡ self.old.builder.function }
        ensures waiting { self.new.waiting ≡ self.old.waiting }
    {
        let joins = self.run.is_lane(x.lane, None);
        if !joins {
            self.builder.break_run();
        }
        if self.builder.event(&x.row.row).is_err() {
            return false;
        }
        self.pass_row(None, x);
        true
    }

    /// Puts a common time, if there is room for it and for a row after it; answers whether there is.
    fn put_common(&mut self, common: u64) -> bool
        requires response { IsTrue (is_response self.old.builder.function) }
        requires low { common < MAX_TIME }
        ensures put { IsTrue result → self.new ≡ record self.old { builder = with_header self.old.builder (common_head common) } }
        ensures room { result ≡ nat_le (size self.old.builder + 20) MAX_FRAGMENT }
        ensures none { result ≡ false → self.new ≡ self.old }
    {
        if self.builder.left() < FIRST_OF_GROUP {
            return false;
        }
        self.builder.common(common).is_ok()
    }

    /// Whether rows of this lane stand last, after this common time, and that is the last one.
    #[inline(always)]
    pub(crate) fn stand_after(&self, lane: usize, common: u64) -> bool
        requires low { common < MAX_TIME }
        ensures continues { result ≡ continues self.now (Run.OfLane lane (Some common)) }
        ensures run { IsTrue result → self.now.run ≡ Run.OfLane lane (Some common) }
        ensures there { IsTrue result → context_of self.now.builder ≡ Some common }
    {
        self.run.is_lane(lane, Some(common)) && self.builder.common_time() == Some(common)
    }

    /// Puts a common time for rows of a lane, if it isn't the last one already with such rows after it, and if there is
    /// room for it and for a row; answers whether rows can come after it now.
    fn put_time(&mut self, lane: usize, common: u64) -> bool
        requires response { IsTrue (is_response self.old.builder.function) }
        requires low { common < MAX_TIME }
        ensures put { IsTrue result → self.new ≡ record self.old { builder = built_for self.old (Run.OfLane lane (Some common)) } }
        ensures there { IsTrue result → context_of self.new.builder ≡ Some common }
        ensures room { result ≡ (continues self.old (Run.OfLane lane (Some common)) || nat_le (size self.old.builder + 20) MAX_FRAGMENT) }
        ensures none { result ≡ false → self.new ≡ self.old }
        ensures response { self.new.builder.function ≡ self.old.builder.function }
    {
        // (a law, for the proof: it does nothing)
        a_common_time_stays();
        if self.stand_after(lane, common) {
            return true;
        }
        self.put_common(common)
    }

    /// Puts a row after the common time that is there, if it fits; answers whether it does.
    #[inline]
    #[tactic(auto, using(crate::proofs::GroupTimes::tells_there, crate::proofs::GroupTimes::said_there))]
    fn put_relative(&mut self, common: u64, x: &Coming) -> bool
        requires response { IsTrue (is_response self.old.builder.function) }
        requires there { context_of self.old.builder ≡ Some common }
        requires tells { FitsRelative common x.now.row.row }
        ensures put { IsTrue result → self.new ≡ record self.old {
          builder = with_object self.old.builder (relative common x.now.row.row);
          run = Run.OfLane x.now.lane (Some common);
          place = place_after self.old.place (item_in x.now);
          upto = slice_set self.old.upto x.now.lane x.now.row.id;
        } }
        ensures room { result ≡ nat_le (size (with_object self.old.builder (relative common x.now.row.row))) MAX_FRAGMENT }
        ensures none { result ≡ false → self.new ≡ self.old }
        ensures response { self.new.builder.function ≡ self.old.builder.function }
    {
        if self.builder.relative(&x.row.row).is_err() {
            return false;
        }
        self.pass_row(Some(common), x);
        true
    }

    /// Puts a row after a common time, if it fits, and that time in front of it where it isn't the last one;
    /// answers whether it does.
    #[tactic(auto, using(crate::proofs::GroupTimes::low_time))]
    fn put_after(&mut self, common: u64, x: &Coming) -> bool
        requires response { IsTrue (is_response self.old.builder.function) }
        requires tells { FitsRelative common x.now.row.row }
        ensures fits { IsTrue result → self.new ≡ put_laid self.old (told_after common (item_in x.now)) }
        ensures room { result ≡ fits (put_laid self.old (told_after common (item_in x.now))) }
        ensures longer { IsTrue result → size self.old.builder + least_octets x.now.row.row.kind ≤ size self.new.builder }
        ensures short { IsTrue result → size self.new.builder ≤ MAX_FRAGMENT }
        ensures full { result ≡ false → ended false self.new ≡ ended false self.old }
        ensures response { self.new.builder.function ≡ self.old.builder.function }
        ensures waiting { self.new.waiting ≡ self.old.waiting }
    {
        if !self.put_time(x.lane, common) {
            return false;
        }
        self.put_relative(common, x)
    }

    /// Puts a row as it is to be told, if it fits; answers whether it does.
    #[inline]
    fn put_told(&mut self, x: &Timed) -> bool
        requires response { IsTrue (is_response self.old.builder.function) }
        ensures fits { IsTrue result → self.new ≡ put_laid self.old (told_in x.now) }
        ensures room { result ≡ fits (put_laid self.old (told_in x.now)) }
        ensures longer { IsTrue result → size self.old.builder + least_octets x.now.row.row.row.kind ≤ size self.new.builder }
        ensures short { IsTrue result → size self.new.builder ≤ MAX_FRAGMENT }
        ensures full { result ≡ false → ended false self.new ≡ ended false self.old }
        ensures response { self.new.builder.function ≡ self.old.builder.function }
        ensures waiting { self.new.waiting ≡ self.old.waiting }
    {
        match x.common {
            Some(common) => self.put_after(common, &x.row),
            None => self.put_own(&x.row),
        }
    }

    /// Puts a row that is given, if it fits; answers whether it does.
    fn put_one(&mut self, a: &Timed) -> bool
        requires response { IsTrue (is_response self.old.builder.function) }
        ensures written { PutsLaid self.old (told_in a.now ∷ []) result self.new }
        ensures given { IsTrue result → self.new.place.given ≡ fold given_after self.old.place.given (map item_of (told_in a.now ∷ [])) }
        ensures longer { IsTrue result → size self.old.builder + (least_octets a.now.row.row.row.kind) ≤ size self.new.builder }
        ensures short { IsTrue result → size self.old.builder ≤ MAX_FRAGMENT → size self.new.builder ≤ MAX_FRAGMENT }
        ensures response { self.new.builder.function ≡ self.old.builder.function }
        ensures waiting { self.new.waiting ≡ self.old.waiting }
    {
        self.put_told(a)
    }

    /// Puts two, one after the other, as far as they fit; answers whether both do.
    fn put_two(&mut self, a: &Timed, b: &Timed) -> bool
        requires response { IsTrue (is_response self.old.builder.function) }
        ensures written { PutsLaid self.old (told_in a.now ∷ told_in b.now ∷ []) result self.new }
        ensures given { IsTrue result → self.new.place.given ≡ fold given_after self.old.place.given (map item_of (told_in a.now ∷ told_in b.now ∷ [])) }
        ensures longer { IsTrue result → size self.old.builder + (least_octets a.now.row.row.row.kind + least_octets b.now.row.row.row.kind) ≤ size self.new.builder }
        ensures short { IsTrue result → size self.old.builder ≤ MAX_FRAGMENT → size self.new.builder ≤ MAX_FRAGMENT }
        ensures response { self.new.builder.function ≡ self.old.builder.function }
        ensures waiting { self.new.waiting ≡ self.old.waiting }
    {
        if !self.put_one(a) {
            return false;
        }
        self.put_one(b)
    }

    /// Puts three, one after the other, as far as they fit; answers whether all do.
    fn put_three(&mut self, a: &Timed, b: &Timed, c: &Timed) -> bool
        requires response { IsTrue (is_response self.old.builder.function) }
        ensures written { PutsLaid self.old (told_in a.now ∷ told_in b.now ∷ told_in c.now ∷ []) result self.new }
        ensures given { IsTrue result → self.new.place.given ≡ fold given_after self.old.place.given (map item_of (told_in a.now ∷ told_in b.now ∷ told_in c.now ∷ [])) }
        ensures longer { IsTrue result → size self.old.builder + (least_octets a.now.row.row.row.kind + least_octets b.now.row.row.row.kind + least_octets c.now.row.row.row.kind) ≤ size self.new.builder }
        ensures short { IsTrue result → size self.old.builder ≤ MAX_FRAGMENT → size self.new.builder ≤ MAX_FRAGMENT }
        ensures response { self.new.builder.function ≡ self.old.builder.function }
        ensures waiting { self.new.waiting ≡ self.old.waiting }
    {
        if !self.put_two(a, b) {
            return false;
        }
        self.put_one(c)
    }

    /// Puts rows that are given, as far as they fit; answers whether all do.
    fn put_given(&mut self, given: &Given) -> bool
        requires response { IsTrue (is_response self.old.builder.function) }
        ensures written { PutsLaid self.old (given_in given.now) result self.new }
        ensures given { IsTrue result → self.new.place.given ≡ fold given_after self.old.place.given (map item_of (given_in given.now)) }
        ensures longer { IsTrue result → size self.old.builder + (least_given given.now) ≤ size self.new.builder }
        ensures short { IsTrue result → size self.old.builder ≤ MAX_FRAGMENT → size self.new.builder ≤ MAX_FRAGMENT }
        ensures response { self.new.builder.function ≡ self.old.builder.function }
        ensures waiting { self.new.waiting ≡ self.old.waiting }
    {
        match given {
            Given::Nothing => true,
            Given::First(a) => self.put_one(a),
            Given::Second(a, b) => self.put_two(a, b),
            Given::Third(a, b, c) => self.put_three(a, b, c),
        }
    }

    /// Puts what settles as a row comes that is not to be put at once, as far as it fits; answers whether all of it does.
    /// Mostly one waits, and the one that comes is too late for a group with it and waits in its place.
    #[inline(never)]
    fn put_later(&mut self, z: Coming) -> bool
        requires response { IsTrue (is_response self.old.builder.function) }
        ensures written { Puts self.old (marked_in z ∷ []) result self.new }
        ensures given { IsTrue result → reached self.new ≡ given_after (reached self.old) (item_in z) }
        ensures longer { IsTrue result → weight self.old + least_octets z.row.row.kind ≤ weight self.new }
        ensures short { IsTrue result → size self.old.builder ≤ MAX_FRAGMENT → size self.new.builder ≤ MAX_FRAGMENT }
        ensures response { self.new.builder.function ≡ self.old.builder.function }
    {
        let Waiting::One(x) = self.waiting else {
            return self.put_pushed(z);
        };
        if reaches(&x, &z) || !z.may_begin() {
            return self.put_pushed(z);
        }
        self.waiting = Waiting::One(z);
        self.put_own(&x)
    }

    /// The same, where a group begins, goes on or ends, or the row that comes waits for none.
    #[inline(never)]
    fn put_pushed(&mut self, z: Coming) -> bool
        requires response { IsTrue (is_response self.old.builder.function) }
        ensures written { Puts self.old (marked_in z ∷ []) result self.new }
        ensures given { IsTrue result → reached self.new ≡ given_after (reached self.old) (item_in z) }
        ensures longer { IsTrue result → weight self.old + least_octets z.row.row.kind ≤ weight self.new }
        ensures short { IsTrue result → size self.old.builder ≤ MAX_FRAGMENT → size self.new.builder ≤ MAX_FRAGMENT }
        ensures response { self.new.builder.function ≡ self.old.builder.function }
    {
        let given = self.waiting.push(z);
        self.put_given(&given)
    }

    /// Puts a row of a lane for a header that leaves it open or not as which object it goes: the row waits where that
    /// isn't known yet, and what is known of those before it is put. Answers whether all that was put fits. It stands
    /// in its callers, which are loops; most rows are put at once, and only the others are moved.
    #[inline(always)]
    #[tactic(auto, using(crate::proofs::Alone::reached_once))]
    pub(crate) fn put_event(
        &mut self,
        header: usize,
        is_open: bool,
        lane: usize,
        x: &Numbered,
    ) -> bool
        requires lane { lane < LANES }
        requires response { IsTrue (is_response self.old.builder.function) }
        requires event { IsEvent x.now.row }
        ensures written { Puts self.old (marked is_open (event_of header lane x.now) ∷ []) result self.new }
        ensures given { IsTrue result → reached self.new ≡ given_after (reached self.old) (event_of header lane x.now) }
        ensures longer { IsTrue result → weight self.old + least_octets x.now.row.kind ≤ weight self.new }
        ensures short { IsTrue result → size self.old.builder ≤ MAX_FRAGMENT → size self.new.builder ≤ MAX_FRAGMENT }
        ensures response { self.new.builder.function ≡ self.old.builder.function }
    {
        let z = Coming {
            header,
            is_open,
            lane,
            row: *x,
        };
        match self.waiting.known(&z) {
            Known::Own => self.put_own(&z),
            Known::After(common) => self.put_after(common, &z),
            Known::Later => self.put_later(z),
        }
    }

    /// Puts the rows that wait, and after them this one as its own object, as far as they fit; answers whether all do.
    /// None waits then.
    pub(crate) fn put_apart(&mut self, z: &Coming) -> bool
        requires response { IsTrue (is_response self.old.builder.function) }
        ensures written { PutsLaid self.old (laid_from (open_in self.old.waiting) [] ++ lay (item_in z.now) ∷ []) result self.new }
        ensures given { IsTrue result → reached self.new ≡ given_after (reached self.old) (item_in z.now) }
        ensures longer { IsTrue result → weight self.old + least_octets z.now.row.row.kind ≤ weight self.new }
        ensures short { IsTrue result → size self.old.builder ≤ MAX_FRAGMENT → size self.new.builder ≤ MAX_FRAGMENT }
        ensures response { self.new.builder.function ≡ self.old.builder.function }
        ensures none { self.new.waiting ≡ waiting.Nothing }
    {
        if !self.settle() {
            return false;
        }
        self.put_own(z)
    }

    /// Puts the rows that wait, as far as they fit; answers whether all do. None waits then.
    #[inline]
    #[tactic(auto, using(crate::proofs::Fed::none_settled, crate::proofs::Fed::group_settled))]
    pub(crate) fn settle(&mut self) -> bool
        requires response { IsTrue (is_response self.old.builder.function) }
        ensures written { PutsLaid self.old (laid_from (open_in self.old.waiting) []) result self.new }
        ensures given { IsTrue result → self.new.place.given ≡ reached self.old }
        ensures longer { IsTrue result → weight self.old ≤ weight self.new }
        ensures short { IsTrue result → size self.old.builder ≤ MAX_FRAGMENT → size self.new.builder ≤ MAX_FRAGMENT }
        ensures response { self.new.builder.function ≡ self.old.builder.function }
        ensures none { self.new.waiting ≡ waiting.Nothing }
    {
        match &self.waiting {
            Waiting::Nothing => true,
            Waiting::Within(_) => {
                self.waiting = Waiting::Nothing;
                true
            }
            Waiting::One(_) | Waiting::Two(_) => self.settle_rows(),
        }
    }

    /// The same. It stands apart, since mostly none waits.
    #[inline(never)]
    fn settle_rows(&mut self) -> bool
        requires response { IsTrue (is_response self.old.builder.function) }
        ensures written { PutsLaid self.old (laid_from (open_in self.old.waiting) []) result self.new }
        ensures given { IsTrue result → self.new.place.given ≡ reached self.old }
        ensures longer { IsTrue result → weight self.old ≤ weight self.new }
        ensures short { IsTrue result → size self.old.builder ≤ MAX_FRAGMENT → size self.new.builder ≤ MAX_FRAGMENT }
        ensures response { self.new.builder.function ≡ self.old.builder.function }
        ensures none { self.new.waiting ≡ waiting.Nothing }
    {
        let given = self.waiting.end();
        self.put_given(&given)
    }

    /// Of each lane the last id that was given, those of the rows that wait among them.
    pub(crate) fn reached(&self) -> Upto
        ensures { result ≡ reached self.now }
    {
        let mut given = self.place.given;
        match self.waiting {
            Waiting::Nothing | Waiting::Within(_) => {}
            Waiting::One(x) => given[x.lane] = x.row.id,
            Waiting::Two(pair) => {
                given[pair.first.lane] = pair.first.row.id;
                given[pair.second.lane] = pair.second.row.id;
            }
        }
        given
    }
}
