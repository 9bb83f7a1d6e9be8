//! What lanes are, however they are kept.

ghost use Rattle.std.specs.Prelude.{◌≡◌, ◌≢◌, Bool, false, IsTrue, OnOk, OnErr, IfOk, IfErr, List, [], length, All};
ghost use Rattle.dnp_objects.specs.Events.{IsEvent};
ghost use Rattle.dnp_objects.specs.Lanes.{lane_number};
ghost use Rattle.dnp_eventbuf.specs.Calls.{IsLanesCall};
ghost use Rattle.dnp_eventbuf.specs.FitsLane.{FitsLane};
ghost use Rattle.dnp_eventbuf.specs.Sound.{IsSoundBuffer};
ghost use Rattle.dnp_eventbuf.specs.EventBuffer.{EventBuffer, lane_at, with_rows, dropped_by, exhausts, offered, without, all_up_to, without_all, rows_in, last_of};

use crate::numbered::{Numbered, Upto};
use crate::rows::Rows;
use dnp_objects::{Lane, LaneRow, Row, StoreFault};
use std::alloc::Global;

/// Nine lanes of rows, however they are kept (IEEE Std 1815-2012, application layer: event classes,
/// event buffers and their overflow).
///
/// What a call promises of the rows holds where the store is honest as the call ends: a refusal
/// changes nothing, and what is beside the lanes stays. Which refusals a call may give, and that the
/// rows it offers are events, holds for every store. After Device each call that can fail answers
/// Device again, and no call promises anything of the rows.
pub trait Lanes {
    ghost use Rattle.dnp_objects.specs.declared.store.StoreFault.{StoreFault};

    /// What the lanes hold.
    ghost contents: { Self → EventBuffer };

    /// The lanes of others that the same store keeps, and that no call here touches: none where it keeps
    /// these nine alone.
    ghost beside: { Self → List EventBuffer };

    /// Where they are kept, which no call changes, whatever it answers: of lanes that were lent out of a store
    /// which keeps others too, that store and their number in it.
    ghost Place: { Type 0 };

    ghost place: { Self → Place };

    /// So far the store has given back what was written to it, nobody else has written, and it has not
    /// answered Device. Lanes in memory are always honest.
    ghost honest: { Self → Type 0 };

    /// It has answered Device.
    ghost is_stopped: { Self → Bool };

    /// Calls may be out of memory also where they drop, take or offer no row, as those of a database may.
    ghost asks_memory: { Bool };

    /// The faults that a call may answer.
    ghost may_fault: { StoreFault → Bool };

    /// Puts the rows into their lanes, as if one by one, all or none, and answers the rows that full
    /// lanes dropped for them. A full lane drops its oldest row first, and counts it.
    ///
    /// Exhausted exactly where an id or a count of lost rows would pass 2^62, else Memory or Device.
    fn append(&mut self, alloc: Global, rows: &[LaneRow]) -> Result<Vec<Row>, StoreFault>
        requires { All FitsLane rows.now }
        ensures place { place self.new ≡ place self.old }
        ensures call { IsLanesCall honest is_stopped contents beside self.old self.new result }

        ensures appended { honest self.new → OnOk result (contents self.new ≡ with_rows (contents self.old) rows.now) }
        ensures dropped { honest self.new → IfOk result (λ dropped. dropped.items ≡ dropped_by (contents self.old) rows.now) }
        ensures not_exhausted { honest self.new → OnOk result (exhausts (contents self.old) rows.now ≡ false) }
        ensures exhausted { honest self.new → IfErr result (λ e. e ≡ StoreFault.Exhausted → IsTrue (exhausts (contents self.old) rows.now)) }
        ensures exhausted_first { honest self.new → IfErr result (λ e. e ≡ StoreFault.Memory → exhausts (contents self.old) rows.now ≡ false) }
        ensures memory { result ≡ Err StoreFault.Memory → asks_memory ≡ false → dropped_by (contents self.old) rows.now ≢ [] }
        ensures faults { IfErr result (λ e. IsTrue (may_fault e)) };

    /// As `append`, but the rows that full lanes dropped come into the caller's `dropped`, in place of what
    /// was there. A refusal leaves those too. So a caller that keeps them asks for memory only where more are
    /// dropped than ever before.
    fn append_into(
        &mut self,
        alloc: Global,
        rows: &[LaneRow],
        dropped: &mut Rows,
    ) -> Result<(), StoreFault>
        requires { All FitsLane rows.now }
        ensures place { place self.new ≡ place self.old }
        ensures call { IsLanesCall honest is_stopped contents beside self.old self.new result }

        ensures appended { honest self.new → OnOk result (contents self.new ≡ with_rows (contents self.old) rows.now) }
        ensures dropped { honest self.new → OnOk result (dropped.new ≡ dropped_by (contents self.old) rows.now) }
        ensures kept { OnErr result (dropped.new ≡ dropped.old) }
        ensures not_exhausted { honest self.new → OnOk result (exhausts (contents self.old) rows.now ≡ false) }
        ensures exhausted { honest self.new → IfErr result (λ e. e ≡ StoreFault.Exhausted → IsTrue (exhausts (contents self.old) rows.now)) }
        ensures exhausted_first { honest self.new → IfErr result (λ e. e ≡ StoreFault.Memory → exhausts (contents self.old) rows.now ≡ false) }
        ensures memory { result ≡ Err StoreFault.Memory → asks_memory ≡ false → dropped_by (contents self.old) rows.now ≢ [] }
        ensures faults { IfErr result (λ e. IsTrue (may_fault e)) }
    {
        *dropped = Rows::of(self.append(alloc, rows)?);
        Ok(())
    }

    /// The first rows of the lane with an id over `after`, at most `most`; `after` 0 begins at the
    /// oldest. Each is an event. Memory, though in memory not where there is no such row, or Device.
    fn offer(
        &mut self,
        alloc: Global,
        lane: Lane,
        after: u64,
        most: usize,
    ) -> Result<Vec<Numbered>, StoreFault>
        ensures place { place self.new ≡ place self.old }
        ensures call { IsLanesCall honest is_stopped contents beside self.old self.new result }

        ensures rows { honest self.new → IfOk result (λ rows. rows.items ≡ offered (contents self.old) (lane_number lane) after most) }
        ensures same { honest self.new → OnOk result (contents self.new ≡ contents self.old) }
        ensures carried { IfOk result (λ rows. All (λ x. IsEvent x.row) rows.items) }
        ensures memory { result ≡ Err StoreFault.Memory → asks_memory ≡ false → offered (contents self.old) (lane_number lane) after most ≢ [] }
        ensures named { IfErr result (λ e. e ≢ StoreFault.Exhausted) }
        ensures faults { IfErr result (λ e. IsTrue (may_fault e)) };

    /// As `offer`, but the rows come into the caller's `rows`, in place of what was there. A refusal leaves those
    /// too. So a caller that keeps them asks for memory, over lanes in memory, only where more are offered than ever
    /// before, and then once.
    fn offer_into(
        &mut self,
        alloc: Global,
        lane: Lane,
        after: u64,
        most: usize,
        rows: &mut Vec<Numbered>,
    ) -> Result<(), StoreFault>
        ensures place { place self.new ≡ place self.old }
        ensures call { IsLanesCall honest is_stopped contents beside self.old self.new result }

        ensures rows { honest self.new → OnOk result (rows.new.items ≡ offered (contents self.old) (lane_number lane) after most) }
        ensures same { honest self.new → OnOk result (contents self.new ≡ contents self.old) }
        ensures carried { OnOk result (All (λ x. IsEvent x.row) rows.new.items) }
        ensures kept { OnErr result (rows.new.items ≡ rows.old.items) }
        ensures memory { result ≡ Err StoreFault.Memory → asks_memory ≡ false → offered (contents self.old) (lane_number lane) after most ≢ [] }
        ensures named { IfErr result (λ e. e ≢ StoreFault.Exhausted) }
        ensures faults { IfErr result (λ e. IsTrue (may_fault e)) }
    {
        *rows = self.offer(alloc, lane, after, most)?;
        Ok(())
    }

    /// Takes out, lane by lane, the rows with ids up to the lane's number in `upto`, and answers them.
    /// The overflow ends if no lane is full then. Memory or Device.
    fn release(&mut self, alloc: Global, upto: &Upto) -> Result<Vec<Row>, StoreFault>
        ensures place { place self.new ≡ place self.old }
        ensures call { IsLanesCall honest is_stopped contents beside self.old self.new result }

        ensures released { honest self.new → OnOk result (contents self.new ≡ without (contents self.old) upto.now) }
        ensures taken { honest self.new → IfOk result (λ rows. rows.items ≡ all_up_to (contents self.old) upto.now) }
        ensures memory { result ≡ Err StoreFault.Memory → asks_memory ≡ false → all_up_to (contents self.old) upto.now ≢ [] }
        ensures named { IfErr result (λ e. e ≢ StoreFault.Exhausted) }
        ensures faults { IfErr result (λ e. IsTrue (may_fault e)) };

    /// As `release`, but the rows come into the caller's `taken`, in place of what was there. A refusal leaves those
    /// too. So a caller that keeps them asks for memory, over lanes in memory, only where more leave than ever before,
    /// and then once.
    fn release_into(
        &mut self,
        alloc: Global,
        upto: &Upto,
        taken: &mut Rows,
    ) -> Result<(), StoreFault>
        ensures place { place self.new ≡ place self.old }
        ensures call { IsLanesCall honest is_stopped contents beside self.old self.new result }

        ensures released { honest self.new → OnOk result (contents self.new ≡ without (contents self.old) upto.now) }
        ensures taken { honest self.new → OnOk result (taken.new ≡ all_up_to (contents self.old) upto.now) }
        ensures kept { OnErr result (taken.new ≡ taken.old) }
        ensures memory { result ≡ Err StoreFault.Memory → asks_memory ≡ false → all_up_to (contents self.old) upto.now ≢ [] }
        ensures named { IfErr result (λ e. e ≢ StoreFault.Exhausted) }
        ensures faults { IfErr result (λ e. IsTrue (may_fault e)) }
    {
        *taken = Rows::of(self.release(alloc, upto)?);
        Ok(())
    }

    /// Takes all rows out, and answers them, lane by lane. The overflow ends; the counts of lost rows
    /// and the last id used stay. Memory or Device.
    fn empty(&mut self, alloc: Global) -> Result<Vec<Row>, StoreFault>
        ensures place { place self.new ≡ place self.old }
        ensures call { IsLanesCall honest is_stopped contents beside self.old self.new result }

        ensures emptied { honest self.new → OnOk result (contents self.new ≡ without_all (contents self.old)) }
        ensures taken { honest self.new → IfOk result (λ rows. rows.items ≡ rows_in (contents self.old)) }
        ensures memory { result ≡ Err StoreFault.Memory → asks_memory ≡ false → rows_in (contents self.old) ≢ [] }
        ensures named { IfErr result (λ e. e ≢ StoreFault.Exhausted) }
        ensures faults { IfErr result (λ e. IsTrue (may_fault e)) };

    /// How many rows the lane holds.
    fn len(&mut self, lane: Lane) -> u32
        ensures same { self.new ≡ self.old }
        ensures sound { honest self.new → IsSoundBuffer (contents self.new) }
        ensures value { honest self.new → result ≡ length (lane_at (contents self.new) (lane_number lane)).rows };

    /// The last id now in the lane, or 0 where it is empty.
    fn last(&mut self, lane: Lane) -> u64
        ensures same { self.new ≡ self.old }
        ensures sound { honest self.new → IsSoundBuffer (contents self.new) }
        ensures value { honest self.new → result ≡ last_of (lane_at (contents self.new) (lane_number lane)).rows };

    /// How many rows the lane has dropped.
    fn lost(&mut self, lane: Lane) -> u64
        ensures same { self.new ≡ self.old }
        ensures sound { honest self.new → IsSoundBuffer (contents self.new) }
        ensures value { honest self.new → result ≡ (lane_at (contents self.new) (lane_number lane)).lost };

    /// Whether a row was dropped, and some lane has been full since.
    fn raised(&mut self) -> bool
        ensures same { self.new ≡ self.old }
        ensures sound { honest self.new → IsSoundBuffer (contents self.new) }
        ensures value { honest self.new → result ≡ (contents self.new).overflow };
}
