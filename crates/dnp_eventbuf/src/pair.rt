//! What lanes for two centres are, however they are kept.

ghost use Rattle.std.specs.Prelude.{◌≡◌, ◌≢◌, ◌<◌, ℕ, Bool, false, IsTrue, OnOk, OnErr, IfOk, IfErr, [], length, All};
ghost use Rattle.dnp_objects.specs.Events.{IsEvent};
ghost use Rattle.dnp_objects.specs.Lanes.{lane_number};
ghost use Rattle.dnp_eventbuf.specs.FitsLane.{FitsLane};
ghost use Rattle.dnp_eventbuf.specs.Sides.{IsPairCall, IsSideCall, BothHave, EitherDrops, either_exhausts};
ghost use Rattle.dnp_eventbuf.specs.Sound.{IsSoundBuffer};
ghost use Rattle.dnp_eventbuf.specs.EventBuffer.{EventBuffer, lane_at, with_rows, dropped_by, exhausts, offered, without, all_up_to, without_all, rows_in, last_of};

use crate::numbered::{Numbered, Upto};
use crate::rows::Rows;
use dnp_objects::{Lane, LaneRow, Row, StoreFault};
use std::alloc::Global;

/// The centres that rows are kept for, numbered from 0.
pub const CENTRES: u8 = 2;

/// A call of the lanes for this centre, of a value that has those for the first centre as its `first` and those for
/// the second as its `second`.
#[macro_export]
macro_rules! of_side {
    ($pair:expr, $centre:expr, $call:ident($($word:expr),*)) => {
        if $centre == 0 {
            $pair.first.$call($($word),*)
        } else {
            $pair.second.$call($($word),*)
        }
    };
}

/// Nine lanes of rows for each of two centres, in one store, however they are kept: the two sides.
///
/// A call for one centre is that of `Lanes` on that centre's nine lanes, and leaves the other side as it was. What a
/// call promises of the rows holds where the store is honest as the call ends; which refusals it may give holds for
/// every store. After Device each call that can fail answers Device again.
pub trait PairLanes {
    ghost use Rattle.dnp_objects.specs.declared.store.StoreFault.{StoreFault};

    /// What the lanes for a centre hold.
    ghost contents: { Self → ℕ → EventBuffer };

    /// So far the store has given back what was written to it, nobody else has written, and it has not
    /// answered Device. Lanes in memory are always honest.
    ghost honest: { Self → Type 0 };

    /// It has answered Device.
    ghost is_stopped: { Self → Bool };

    /// Calls may be out of memory also where they drop, take or offer no row, as those of a database may.
    ghost asks_memory: { Bool };

    /// The faults that a call may answer.
    ghost may_fault: { StoreFault → Bool };

    /// Puts the rows into their lanes on both sides, on each as if one by one, all or none, and answers the rows that
    /// full lanes dropped for them: of the first centre's side, and of the second's.
    ///
    /// Exhausted exactly where an id or a count of lost rows of either side would pass 2^62, else Memory or Device.
    fn append_both(
        &mut self,
        alloc: Global,
        rows: &[LaneRow],
    ) -> Result<(Vec<Row>, Vec<Row>), StoreFault>
        requires { All FitsLane rows.now }
        ensures call { IsPairCall honest is_stopped contents self.old self.new result }

        ensures appended { honest self.new → OnOk result (BothHave (contents self.old) rows.now (contents self.new)) }
        ensures dropped { honest self.new → IfOk result (λ dropped. dropped.0.items ≡ dropped_by (contents self.old 0) rows.now) }
        ensures dropped_too { honest self.new → IfOk result (λ dropped. dropped.1.items ≡ dropped_by (contents self.old 1) rows.now) }
        ensures not_exhausted { honest self.new → OnOk result (either_exhausts (contents self.old) rows.now ≡ false) }
        ensures exhausted { honest self.new → IfErr result (λ e. e ≡ StoreFault.Exhausted → IsTrue (either_exhausts (contents self.old) rows.now)) }
        ensures exhausted_first { honest self.new → IfErr result (λ e. e ≡ StoreFault.Memory → either_exhausts (contents self.old) rows.now ≡ false) }
        ensures memory { result ≡ Err StoreFault.Memory → asks_memory ≡ false → EitherDrops (contents self.old) rows.now }
        ensures faults { IfErr result (λ e. IsTrue (may_fault e)) };

    /// `Lanes::append` for this centre.
    fn append(
        &mut self,
        alloc: Global,
        centre: u8,
        rows: &[LaneRow],
    ) -> Result<Vec<Row>, StoreFault>
        requires centre { centre < CENTRES }
        requires carried { All FitsLane rows.now }
        ensures call { IsSideCall honest is_stopped contents centre self.old self.new result }

        ensures appended { honest self.new → OnOk result (contents self.new centre ≡ with_rows (contents self.old centre) rows.now) }
        ensures dropped { honest self.new → IfOk result (λ dropped. dropped.items ≡ dropped_by (contents self.old centre) rows.now) }
        ensures not_exhausted { honest self.new → OnOk result (exhausts (contents self.old centre) rows.now ≡ false) }
        ensures exhausted { honest self.new → IfErr result (λ e. e ≡ StoreFault.Exhausted → IsTrue (exhausts (contents self.old centre) rows.now)) }
        ensures exhausted_first { honest self.new → IfErr result (λ e. e ≡ StoreFault.Memory → exhausts (contents self.old centre) rows.now ≡ false) }
        ensures memory { result ≡ Err StoreFault.Memory → asks_memory ≡ false → dropped_by (contents self.old centre) rows.now ≢ [] }
        ensures faults { IfErr result (λ e. IsTrue (may_fault e)) };

    /// `Lanes::offer` for this centre.
    fn offer(
        &mut self,
        alloc: Global,
        centre: u8,
        lane: Lane,
        after: u64,
        most: usize,
    ) -> Result<Vec<Numbered>, StoreFault>
        requires { centre < CENTRES }
        ensures call { IsSideCall honest is_stopped contents centre self.old self.new result }

        ensures rows { honest self.new → IfOk result (λ rows. rows.items ≡ offered (contents self.old centre) (lane_number lane) after most) }
        ensures same { honest self.new → OnOk result (contents self.new centre ≡ contents self.old centre) }
        ensures carried { IfOk result (λ rows. All (λ x. IsEvent x.row) rows.items) }
        ensures memory { result ≡ Err StoreFault.Memory → asks_memory ≡ false → offered (contents self.old centre) (lane_number lane) after most ≢ [] }
        ensures named { IfErr result (λ e. e ≢ StoreFault.Exhausted) }
        ensures faults { IfErr result (λ e. IsTrue (may_fault e)) };

    /// `Lanes::offer_into` for this centre.
    fn offer_into(
        &mut self,
        alloc: Global,
        centre: u8,
        lane: Lane,
        after: u64,
        most: usize,
        rows: &mut Vec<Numbered>,
    ) -> Result<(), StoreFault>
        requires { centre < CENTRES }
        ensures call { IsSideCall honest is_stopped contents centre self.old self.new result }

        ensures rows { honest self.new → OnOk result (rows.new.items ≡ offered (contents self.old centre) (lane_number lane) after most) }
        ensures same { honest self.new → OnOk result (contents self.new centre ≡ contents self.old centre) }
        ensures carried { OnOk result (All (λ x. IsEvent x.row) rows.new.items) }
        ensures kept { OnErr result (rows.new.items ≡ rows.old.items) }
        ensures memory { result ≡ Err StoreFault.Memory → asks_memory ≡ false → offered (contents self.old centre) (lane_number lane) after most ≢ [] }
        ensures named { IfErr result (λ e. e ≢ StoreFault.Exhausted) }
        ensures faults { IfErr result (λ e. IsTrue (may_fault e)) }
    {
        *rows = self.offer(alloc, centre, lane, after, most)?;
        Ok(())
    }

    /// `Lanes::release` for this centre.
    fn release(&mut self, alloc: Global, centre: u8, upto: &Upto) -> Result<Vec<Row>, StoreFault>
        requires { centre < CENTRES }
        ensures call { IsSideCall honest is_stopped contents centre self.old self.new result }

        ensures released { honest self.new → OnOk result (contents self.new centre ≡ without (contents self.old centre) upto.now) }
        ensures taken { honest self.new → IfOk result (λ rows. rows.items ≡ all_up_to (contents self.old centre) upto.now) }
        ensures memory { result ≡ Err StoreFault.Memory → asks_memory ≡ false → all_up_to (contents self.old centre) upto.now ≢ [] }
        ensures named { IfErr result (λ e. e ≢ StoreFault.Exhausted) }
        ensures faults { IfErr result (λ e. IsTrue (may_fault e)) };

    /// `Lanes::release_into` for this centre.
    fn release_into(
        &mut self,
        alloc: Global,
        centre: u8,
        upto: &Upto,
        taken: &mut Rows,
    ) -> Result<(), StoreFault>
        requires { centre < CENTRES }
        ensures call { IsSideCall honest is_stopped contents centre self.old self.new result }

        ensures released { honest self.new → OnOk result (contents self.new centre ≡ without (contents self.old centre) upto.now) }
        ensures taken { honest self.new → OnOk result (taken.new ≡ all_up_to (contents self.old centre) upto.now) }
        ensures kept { OnErr result (taken.new ≡ taken.old) }
        ensures memory { result ≡ Err StoreFault.Memory → asks_memory ≡ false → all_up_to (contents self.old centre) upto.now ≢ [] }
        ensures named { IfErr result (λ e. e ≢ StoreFault.Exhausted) }
        ensures faults { IfErr result (λ e. IsTrue (may_fault e)) }
    {
        *taken = Rows::of(self.release(alloc, centre, upto)?);
        Ok(())
    }

    /// `Lanes::empty` for this centre.
    fn empty(&mut self, alloc: Global, centre: u8) -> Result<Vec<Row>, StoreFault>
        requires { centre < CENTRES }
        ensures call { IsSideCall honest is_stopped contents centre self.old self.new result }

        ensures emptied { honest self.new → OnOk result (contents self.new centre ≡ without_all (contents self.old centre)) }
        ensures taken { honest self.new → IfOk result (λ rows. rows.items ≡ rows_in (contents self.old centre)) }
        ensures memory { result ≡ Err StoreFault.Memory → asks_memory ≡ false → rows_in (contents self.old centre) ≢ [] }
        ensures named { IfErr result (λ e. e ≢ StoreFault.Exhausted) }
        ensures faults { IfErr result (λ e. IsTrue (may_fault e)) };

    /// `Lanes::len` for this centre.
    fn len(&mut self, centre: u8, lane: Lane) -> u32
        requires { centre < CENTRES }
        ensures same { self.new ≡ self.old }
        ensures sound { honest self.new → IsSoundBuffer (contents self.new centre) }
        ensures value { honest self.new → result ≡ length (lane_at (contents self.new centre) (lane_number lane)).rows };

    /// `Lanes::last` for this centre.
    fn last(&mut self, centre: u8, lane: Lane) -> u64
        requires { centre < CENTRES }
        ensures same { self.new ≡ self.old }
        ensures sound { honest self.new → IsSoundBuffer (contents self.new centre) }
        ensures value { honest self.new → result ≡ last_of (lane_at (contents self.new centre) (lane_number lane)).rows };

    /// `Lanes::lost` for this centre.
    fn lost(&mut self, centre: u8, lane: Lane) -> u64
        requires { centre < CENTRES }
        ensures same { self.new ≡ self.old }
        ensures sound { honest self.new → IsSoundBuffer (contents self.new centre) }
        ensures value { honest self.new → result ≡ (lane_at (contents self.new centre) (lane_number lane)).lost };

    /// `Lanes::raised` for this centre.
    fn raised(&mut self, centre: u8) -> bool
        requires { centre < CENTRES }
        ensures same { self.new ≡ self.old }
        ensures sound { honest self.new → IsSoundBuffer (contents self.new centre) }
        ensures value { honest self.new → result ≡ (contents self.new centre).overflow };
}
