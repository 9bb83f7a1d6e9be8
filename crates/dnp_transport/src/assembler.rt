//! Joins segments to fragments.
ghost use Rattle.std.specs.Prelude.{◌≡◌, ◌≤◌, ◌↔◌, IsTrue, ℕ, List, [], ◌∷◌, length, false};
ghost use Rattle.dnp_transport.specs.Assembly.{Idle, ArePushed, Answers, Shows};
ghost use Rattle.dnp_transport.specs.Segments.{has_no_size as no_size_of};
ghost use Rattle.dnp_transport.specs.steps.Stages.{MayGoOn, GoesOn, stage_after};

use crate::header::{has_no_size, is_first, is_last, number};
use crate::limits::{MAX_FRAGMENT, MAX_SEGMENT, SEGMENT_NUMBERS};
use arrayvec::ArrayVec;
use std::marker::Model;

/// What a pushed string of octets did.
#[derive(Clone, Copy, Debug, PartialEq, Eq)]
pub enum Pushed {
    /// No fragment is whole, and no series was dropped.
    Nothing,

    /// The segment completed a fragment, which `Assembler::fragment` gives.
    Whole,

    /// The segment did not continue the series in progress, or made it too long: the series is gone.
    Dropped,
}

/// Where an assembler stands between two pushes.
#[derive(Clone, Copy, Debug)]
enum Stage {
    /// There is no series.
    Idle,

    /// A series waits for its next segment.
    Joining,

    /// The last push completed a fragment.
    Complete,
}

impl Stage {
    /// Whether a series is in progress.
    fn is_joining(self) -> bool
        ensures { IsTrue result ↔ (self ≡ Stage.Joining) }
    {
        matches!(self, Stage::Joining)
    }

    /// Where the answer to a segment that went on with a series leaves the assembler.
    fn after(pushed: Pushed) -> Stage
        ensures { result ≡ stage_after pushed }
    {
        match pushed {
            Pushed::Nothing => Stage::Joining,
            Pushed::Whole => Stage::Complete,
            Pushed::Dropped => Stage::Idle,
        }
    }
}

/// Joins segments to fragments of 1 to [`MAX_FRAGMENT`] octets (IEEE Std 1815-2012, transport function).
///
/// A segment with FIR begins a series, whatever its number, and ends one in progress. The segments after it have
/// numbers that follow modulo [`SEGMENT_NUMBERS`], and the one with FIN completes the fragment. A segment without FIR
/// that equals the last accepted one is a repeat, and is ignored.
#[derive(Debug, Drop)]
pub struct Assembler {
    /// Whether there is a series or a fragment.
    stage: Stage,
    /// The last accepted segment.
    last: ArrayVec<u8, MAX_SEGMENT>,
    /// The data of the series in progress, or the fragment.
    octets: ArrayVec<u8, MAX_FRAGMENT>,
}

impl Model for Assembler {
    ghost use Rattle.dnp_transport.specs.Assembly.{Assembly};

    ghost Value = { Assembly };

    ghost use Rattle.dnp_transport.specs.steps.Stages.{assembly, HasHistory};

    ghost view = { λ a. assembly a.stage a.last.items a.octets.items };

    ghost invariant = { λ a. HasHistory (assembly a.stage a.last.items a.octets.items) };
}

impl Assembler {
    /// An assembler with no series.
    pub fn new() -> Self
        ensures empty { result ≡ Idle }
        ensures stands { ArePushed [] result }
    {
        Assembler {
            stage: Stage::Idle,
            last: ArrayVec::new(),
            octets: ArrayVec::new(),
        }
    }

    /// Takes in a string of octets that the link layer gave.
    ///
    /// What is no segment, of under 2 octets or more than [`MAX_SEGMENT`], is ignored, as is a segment without FIR
    /// where no series is in progress. `Dropped` says that a series in progress is gone: its next number did not come,
    /// or it would have passed the longest fragment.
    pub fn push(&mut self, segment: &[u8]) -> Pushed
        ensures stands { (before : List (List ℕ)) → ArePushed before self.old → ArePushed (segment.now ∷ before) self.new }
        ensures answers { (before : List (List ℕ)) → ArePushed before self.old → Answers (segment.now ∷ before) result }
    {
        let joining = self.stage.is_joining();

        // A fragment is given until the next push, whatever that is.
        if has_no_size(segment) {
            if !joining {
                self.stage = Stage::Idle;
            }
            return Pushed::Nothing;
        }

        // A first segment begins a series, also within another. Any other one goes on with a series or is nothing.
        if is_first(segment) {
            return self.go_on(segment);
        }
        if !joining {
            self.stage = Stage::Idle;
            return Pushed::Nothing;
        }
        if segment == self.last.as_slice() {
            return Pushed::Nothing;
        }
        if number(segment) != (number(&self.last) + 1) % SEGMENT_NUMBERS {
            self.stage = Stage::Idle;
            return Pushed::Dropped;
        }
        self.go_on(segment)
    }

    /// Takes in a segment that begins a series or is the next of the one in progress.
    fn go_on(&mut self, segment: &[u8]) -> Pushed
        requires sized { no_size_of segment.now ≡ false }
        requires goes_on { MayGoOn self.old segment.now }
        ensures stands { (before : List (List ℕ)) → ArePushed before self.old → ArePushed (segment.now ∷ before) self.new }
        ensures answers { (before : List (List ℕ)) → ArePushed before self.old → Answers (segment.now ∷ before) result }
    {
        if is_first(segment) {
            self.octets.clear();
        }
        let pushed = join(&mut self.octets, segment);
        self.stage = Stage::after(pushed);
        refill(&mut self.last, segment);
        pushed
    }

    /// The fragment that the last push completed, until the next push, and else no octets.
    pub fn fragment(&self) -> &[u8]
        ensures shown { (pushed : List (List ℕ)) → ArePushed pushed self.now → Shows pushed result.now }
        ensures fits { length result.now ≤ MAX_FRAGMENT }
    {
        match self.stage {
            Stage::Complete => self.octets.as_slice(),
            Stage::Idle | Stage::Joining => &[],
        }
    }

    /// An assembler in the same state.
    pub fn copy(&self) -> Self
        ensures { result ≡ self.now }
    {
        Assembler {
            stage: self.stage,
            last: copied(self.last.as_slice()),
            octets: copied(self.octets.as_slice()),
        }
    }

    /// Makes another assembler the same as this one. No new room is made, and of what each has the octets in use alone
    /// are written.
    pub fn copy_into(&self, other: &mut Assembler)
        ensures { other.new ≡ self.now }
    {
        other.stage = self.stage;
        refill(&mut other.last, self.last.as_slice());
        refill(&mut other.octets, self.octets.as_slice());
    }

    /// Some strings, pushed one after the other, make an assembler what this one is: each assembler has a history. It
    /// does nothing when it runs.
    pub fn has_a_history(&self)
        ensures { (pushed : List (List ℕ)) × ArePushed pushed self.now }
    {
        let _stage = &self.stage;
    }

    /// Forgets all that was pushed.
    pub fn reset(&mut self)
        ensures empty { self.new ≡ Idle }
        ensures stands { ArePushed [] self.new }
    {
        *self = Self::new();
    }
}

impl Default for Assembler {
    ghost is_default = { λ a. a ≡ Idle };

    fn default() -> Self {
        Self::new()
    }
}

/// Puts the data of a segment after those of the series so far, if they fit the longest fragment.
fn join(octets: &mut ArrayVec<u8, MAX_FRAGMENT>, segment: &[u8]) -> Pushed
    requires { no_size_of segment.now ≡ false }
    ensures { GoesOn octets.old.items segment.now octets.new.items result }
{
    if octets.try_extend_from_slice(&segment[1..]).is_err() {
        return Pushed::Dropped;
    }
    if is_last(segment) {
        return Pushed::Whole;
    }
    Pushed::Nothing
}

/// A vector of these octets, for which it has room.
fn copied<const N: usize>(octets: &[u8]) -> ArrayVec<u8, N>
    requires { length octets.now ≤ N }
    ensures { result.items ≡ octets.now }
{
    let mut items = ArrayVec::new();
    items.try_extend_from_slice(octets).unwrap();
    items
}

/// Puts these octets, for which a vector has room, in place of what it had.
fn refill<const N: usize>(items: &mut ArrayVec<u8, N>, octets: &[u8])
    requires { length octets.now ≤ N }
    ensures { items.new.items ≡ octets.now }
{
    items.clear();
    items.try_extend_from_slice(octets).unwrap();
}
