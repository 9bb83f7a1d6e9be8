//! Rows as they come, of which at most two wait for what follows: only then is it known as which objects they go.

ghost use Rattle.std.specs.Prelude.{◌≡◌, ◌<◌, true, IfSome};
ghost use Rattle.std.proofs.Props.{props};
ghost use Rattle.dnp_objects.specs.Events.{IsEvent};
ghost use Rattle.dnp_objects.specs.Relative.{FitsRelative};
ghost use Rattle.dnp_objects.specs.declared.limits.TheConstants.{LANES};
ghost use Rattle.dnp_outstation.specs.Forms as forms;
ghost use Rattle.dnp_outstation.specs.Items.Thing.{Event};

use dnp_eventbuf::Numbered;
use dnp_objects::{Kind, LANES, MAX_RELATIVE};

/// A row of a lane, the header of the READ that it comes for, and whether that one leaves it open as which
/// object it goes.
#[derive(Clone, Copy, Debug)]
pub struct Coming {
    pub header: usize,
    pub is_open: bool,
    pub lane: usize,
    pub row: Numbered,
    ghost low: { lane < LANES },
    ghost event: { IsEvent row.row } by { Prim.hlevel props },
}

/// Two rows, of which the second may stand in the group that the first begins.
#[derive(Clone, Copy, Debug)]
pub struct Pair {
    pub first: Coming,
    pub second: Coming,
    ghost near: { forms.reaches_by first.is_open second.is_open (Event first.lane first.row) (Event second.lane second.row) ≡ true },
}

/// The rows that wait, if any, or the first of the group that goes on.
#[derive(Clone, Copy, Debug)]
pub enum Waiting {
    Nothing,
    One(Coming),
    /// Two of one group.
    Two(Pair),
    /// Three of the group that this one began were given, or more.
    Within(Coming),
}

/// A row, and the common time that it is told after, if there is one.
#[derive(Clone, Copy, Debug)]
pub struct Timed {
    pub row: Coming,
    pub common: Option<u64>,
    ghost tells: { IfSome common (λ common. FitsRelative common row.row.row) } by { Prim.hlevel props },
}

/// As which object a row goes, as far as that is known as it comes.
#[derive(Clone, Copy, Debug)]
pub enum Known {
    /// It is not known before the rows that follow, or others that waited are given with it.
    Later,
    /// As its own object.
    Own,
    /// After this common time.
    After(u64),
}

/// The rows of which it is now known as which objects they go.
#[derive(Clone, Copy, Debug)]
pub enum Given {
    Nothing,
    First(Timed),
    Second(Timed, Timed),
    Third(Timed, Timed, Timed),
}

/// Whether the second time is the first one, or so little after it that two octets tell by how much.
#[inline(always)]
pub(crate) fn is_in_reach(first: Option<u64>, time: Option<u64>) -> bool
    ensures { result ≡ forms.is_in_reach first time }
{
    match (first, time) {
        (Some(first), Some(time)) => first <= time && time - first <= MAX_RELATIVE,
        _ => false,
    }
}

/// Whether the row may stand in the group that the first one begins.
pub(crate) fn reaches(first: &Coming, x: &Coming) -> bool
    ensures { result ≡ forms.reaches_by first.now.is_open x.now.is_open (Event first.now.lane first.now.row) (Event x.now.lane x.now.row) }
{
    first.is_open
        && x.is_open
        && first.lane == x.lane
        && first.row.row.kind == Kind::Binary
        && x.row.row.kind == Kind::Binary
        && is_in_reach(first.row.row.time, x.row.row.time)
}

impl Coming {
    ghost use Rattle.std.specs.Prelude.{◌∷◌, List, false};
    ghost use Rattle.dnp_outstation.specs.Layout.{lay};
    ghost use Rattle.dnp_outstation.specs.steps.Grouping.{Marked, item_in, marked_in, laid_from};
    ghost use Rattle.dnp_outstation.specs.steps.Grouping.Open.{One, Shut};

    /// Whether the row may begin a group: its header leaves it open as which object it goes, and it is a binary with a
    /// time. One that may not is given as it comes, whatever follows it.
    #[tactic(auto, using(crate::proofs::Alone::closed_alone, crate::proofs::Alone::other_alone, crate::proofs::Alone::timeless_alone))]
    pub(crate) fn may_begin(&self) -> bool
        ensures alone { result ≡ false → (more : List Marked) → laid_from (One (marked_in self.now)) more ≡ lay (item_in self.now) ∷ laid_from Shut more }
    {
        self.is_open && self.row.row.kind == Kind::Binary && self.row.row.time.is_some()
    }
}

impl Timed {
    ghost use Rattle.dnp_outstation.specs.Layout.{lay};
    ghost use Rattle.dnp_outstation.specs.steps.Grouping.{item_in, told_in};

    /// The row as its own object.
    fn own(row: Coming) -> Timed
        ensures { told_in result ≡ lay (item_in row) }
    {
        Timed { row, common: None }
    }

    /// The row after the time of the first of its group.
    #[tactic(auto, using(crate::proofs::Grouped::tells_after))]
    fn after(first: Coming, row: Coming) -> Timed
        requires near { forms.reaches_by first.is_open row.is_open (Event first.lane first.row) (Event row.lane row.row) ≡ true }
        ensures { told_in result ≡ forms.told_after (forms.time_of (item_in first)) (item_in row) }
    {
        let common = first.row.row.time.unwrap_or(0);
        Timed {
            row,
            common: Some(common),
        }
    }

    /// The first of two after its own time.
    #[tactic(auto, using(crate::proofs::Grouped::tells_begun))]
    fn begun(pair: Pair) -> Timed
        ensures { told_in result ≡ forms.told_after (forms.time_of (item_in pair.first)) (item_in pair.first) }
    {
        let common = pair.first.row.row.time.unwrap_or(0);
        Timed {
            row: pair.first,
            common: Some(common),
        }
    }
}

impl Waiting {
    ghost use Rattle.std.specs.Prelude.{◌==◌, ◌≤◌, ◌+◌, ◌∷◌, ◌++◌, [], ℕ, Bool, false, List, length, map};
    ghost use Rattle.dnp_outstation.specs.declared.offer.grouping.Known.TheVariants as Known;
    ghost use Rattle.dnp_outstation.specs.declared.offer.place.ReadPlace.{ReadPlace as PlaceValue};
    ghost use Rattle.dnp_outstation.specs.Items.{Item};
    ghost use Rattle.dnp_outstation.specs.Layout.{Laid as LaidItem, item_of, lay, fits_fragment};
    ghost use Rattle.dnp_outstation.specs.Offer.{filled_with, longest};
    ghost use Rattle.dnp_outstation.specs.steps.Filling.{empty_from, fill_laid};
    ghost use Rattle.dnp_outstation.specs.steps.Grouping.{Marked, opened, laid_from, item_in, marked_in, open_in, given_in, waiting_items};
    ghost use Rattle.dnp_outstation.specs.steps.Grouping.Open.{Shut, One};
    ghost use Rattle.dnp_outstation.specs.steps.Putting.{least_octets, least_given, least_waiting};

    /// No row yet: what is laid of rows as they come is what is laid of them all in groups, and a fragment that is
    /// filled with them holds as much as fits.
    pub(crate) fn new() -> Waiting
        ensures fills { (may : ℕ → Bool) (place : PlaceValue) (items : List Item) → (rows : List LaidItem) → rows ≡ forms.in_groups may items
            → fill_laid (empty_from place) (laid_from (open_in result) (map (opened may) items))
            ≡ filled_with (length (longest fits_fragment rows) == length rows) place (longest fits_fragment rows) }
        ensures groups { (may : ℕ → Bool) (items : List Item) → forms.in_groups may items ≡ laid_from (open_in result) (map (opened may) items) }
    {
        Waiting::Nothing
    }

    /// Whether a row may stand in a group with those that wait, or in the one that goes on. Where it can't, those that
    /// wait go as their own objects, and what comes is laid as after none.
    #[tactic(auto, using(crate::proofs::Runs::apart_nothing, crate::proofs::Runs::apart_one, crate::proofs::Runs::apart_two, crate::proofs::Runs::apart_within))]
    pub(crate) fn takes(&self, z: &Coming) -> bool
        ensures apart { result ≡ false → (more : List Marked)
            → laid_from (open_in self.now) (marked_in z.now ∷ more) ≡ laid_from (open_in self.now) [] ++ laid_from Shut (marked_in z.now ∷ more) }
    {
        match self {
            Waiting::Nothing => false,
            Waiting::One(first) => reaches(first, z),
            Waiting::Two(pair) => reaches(&pair.first, z),
            Waiting::Within(first) => reaches(first, z),
        }
    }

    /// As which object a row goes that comes while none waits, where nothing is to be remembered of it.
    #[inline(always)]
    #[tactic(auto, using(crate::proofs::Alone::goes_after, crate::proofs::Grouped::tells_after))]
    pub(crate) fn known(&self, z: &Coming) -> Known
        ensures own { result ≡ Known.Own → (more : List Marked) → laid_from (open_in self.now) (marked_in z.now ∷ more) ≡ lay (item_in z.now) ∷ laid_from (open_in self.now) more }
        ensures after { (common : ℕ) → result ≡ Known.After common → (more : List Marked)
            → laid_from (open_in self.now) (marked_in z.now ∷ more) ≡ forms.told_after common (item_in z.now) ∷ laid_from (open_in self.now) more }
        ensures tells { (common : ℕ) → result ≡ Known.After common → FitsRelative common z.now.row.row }
        ensures none { (result ≡ Known.Later → ⊥) → waiting_items self.now ≡ [] }
    {
        match self {
            Waiting::Nothing => {
                if z.may_begin() {
                    Known::Later
                } else {
                    Known::Own
                }
            }
            Waiting::Within(first) => {
                if reaches(first, z) {
                    Known::After(first.row.row.time.unwrap_or(0))
                } else {
                    Known::Later
                }
            }
            Waiting::One(_) | Waiting::Two(_) => Known::Later,
        }
    }

    /// A row comes that is in no group with those that waited: they are given, each as its own object, and it waits where
    /// it may begin a group, and else is given too.
    fn pass(&mut self, z: Coming) -> Given
        ensures given { (more : List Marked) → laid_from (open_in self.old) [] ++ laid_from (One (marked_in z)) more ≡ given_in result ++ laid_from (open_in self.new) more }
        ensures items { map item_of (given_in result) ++ waiting_items self.new ≡ waiting_items self.old ++ item_in z ∷ [] }
        ensures least { least_waiting self.old + least_octets z.row.row.kind ≤ least_given result + least_waiting self.new }
    {
        let begins = z.may_begin();
        let waiting = *self;
        *self = if begins {
            Waiting::One(z)
        } else {
            Waiting::Nothing
        };
        match waiting {
            Waiting::Nothing | Waiting::Within(_) if begins => Given::Nothing,
            Waiting::Nothing | Waiting::Within(_) => Given::First(Timed::own(z)),
            Waiting::One(x) if begins => Given::First(Timed::own(x)),
            Waiting::One(x) => Given::Second(Timed::own(x), Timed::own(z)),
            Waiting::Two(pair) if begins => Given::Second(
                Timed::own(pair.first),
                Timed::own(pair.second),
            ),
            Waiting::Two(pair) => Given::Third(
                Timed::own(pair.first),
                Timed::own(pair.second),
                Timed::own(z),
            ),
        }
    }

    /// A row comes: those are given of which it settles as which objects they go.
    pub(crate) fn push(&mut self, z: Coming) -> Given
        ensures given { (more : List Marked) → laid_from (open_in self.old) (marked_in z ∷ more) ≡ given_in result ++ laid_from (open_in self.new) more }
        ensures items { map item_of (given_in result) ++ waiting_items self.new ≡ waiting_items self.old ++ item_in z ∷ [] }
        ensures least { least_waiting self.old + least_octets z.row.row.kind ≤ least_given result + least_waiting self.new }
    {
        let waiting = *self;
        match waiting {
            Waiting::One(x) if reaches(&x, &z) => {
                *self = Waiting::Two(Pair {
                    first: x,
                    second: z,
                });
                Given::Nothing
            }
            Waiting::Two(pair) if reaches(&pair.first, &z) => {
                let (x, y) = (pair.first, pair.second);
                *self = Waiting::Within(x);
                Given::Third(Timed::begun(pair), Timed::after(x, y), Timed::after(x, z))
            }
            Waiting::Within(first) if reaches(&first, &z) => Given::First(Timed::after(first, z)),
            _ => self.pass(z),
        }
    }

    /// No row comes any more: those that waited are given.
    pub(crate) fn end(&mut self) -> Given
        ensures given { laid_from (open_in self.old) [] ≡ given_in result }
        ensures items { map item_of (given_in result) ≡ waiting_items self.old }
        ensures least { least_waiting self.old ≤ least_given result }
        ensures none { self.new ≡ Waiting.Nothing }
    {
        let waiting = *self;
        *self = Waiting::Nothing;
        match waiting {
            Waiting::Nothing | Waiting::Within(_) => Given::Nothing,
            Waiting::One(x) => Given::First(Timed::own(x)),
            Waiting::Two(pair) => Given::Second(Timed::own(pair.first), Timed::own(pair.second)),
        }
    }
}
