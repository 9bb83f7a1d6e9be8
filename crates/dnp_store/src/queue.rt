//! Event lanes for two centres in a SQL database.

ghost use Rattle.std.specs.Prelude.{◌≡◌, ◌≢◌, ◌<◌, false, true, IsTrue, [], All, IfOk, IfErr, OnOk, OnErr, ◌⊎◌};
ghost use Rattle.sqlite.specs.Held.{state};
ghost use Rattle.sqlite.specs.State.{HasCleanDisk};
ghost use Rattle.dnp_objects.specs.Events.{IsEvent};
ghost use Rattle.dnp_objects.specs.Lanes.{lane_number};
ghost use Rattle.dnp_eventbuf.specs.FitsLane.{FitsLane};
ghost use Rattle.dnp_eventbuf.specs.Sides.{EitherDrops, IsPairCall, IsSideCall, either_exhausts};
ghost use Rattle.dnp_eventbuf.specs.EventBuffer.{with_rows, dropped_by, exhausts, offered, without, all_up_to, without_all, rows_in};
ghost use Rattle.dnp_store.specs.QueueKept.{IsHonestQueue, LeavesQueue, LeavesEitherQueue};
ghost use Rattle.dnp_store.specs.PairTables.{both_with, side_at, with_side};
ghost use Rattle.dnp_store.specs.Refusals.{IsLost};

use crate::queue_calls::{append_both_to, append_to, empty_of, is_device, release_from};
use crate::queue_side::QueueSide;
use crate::store_kind::StoreKind;
use dnp_eventbuf::{
    CENTRES, Lane, LaneRow, Lanes, Numbered, PairLanes, PlainLanes, Rows, StoreFault, Upto, of_side,
};
use dnp_objects::Row;
use sqlite::{Alter, Connection};
use std::alloc::Global;
use std::marker::Model;

/// Event lanes for two centres in a SQL database, which keep their rows in memory too: only calls that write touch
/// the database.
pub struct Queue<S: Alter> {
    /// The connection to the database, which is the queue's own.
    pub(crate) conn: Connection<S>,
    /// What the last commit holds for the first centre.
    pub(crate) first: PlainLanes,
    /// What it holds for the second.
    pub(crate) second: PlainLanes,
    /// Whether the queue has answered Device.
    pub(crate) stopped: bool,
    /// Whether the database's first tables were the queue's own as it began, and the others leave them alone: what
    /// a statement means is known for no others.
    pub(crate) owned: bool,
}

impl<S: Alter> Model for Queue<S> {
    ghost use Rattle.dnp_store.specs.QueueKept.{QueueValue, kept_code, QueueInvariant};

    ghost Value = { QueueValue S };

    ghost coded = { kept_code S.code };

    ghost view = { λ q. record { conn = q.conn; sides = record { first = q.first; second = q.second }; stopped = q.stopped; owned = q.owned } };

    ghost invariant = { λ q. QueueInvariant S.Store q.conn (record { first = q.first; second = q.second }) q.stopped q.owned };
}

impl<S: Alter + Drop> Drop for Queue<S> {
    /// One call for whoever lets it go: its parts are looked at here alone.
    fn drop(self) {
        let Queue {
            conn: _,
            first: _,
            second: _,
            stopped: _,
            owned: _,
        } = self;
    }
}

impl<S: Alter> Queue<S> {
    /// The connection to the database, as it stands.
    pub fn into_connection(self) -> Connection<S>
        ensures same { result ≡ self.conn }
        ensures idle { result.in_transaction ≡ false }
    {
        let Queue {
            conn,
            first: _,
            second: _,
            stopped: _,
            owned: _,
        } = self;
        conn
    }
}

impl<S: Alter> PairLanes for Queue<S> {
    ghost contents = { λ q. side_at q.sides };

    ghost honest = { IsHonestQueue S.Store };

    ghost is_stopped = { λ q. q.stopped };

    ghost asks_memory = { true };

    ghost may_fault = { λ _. true };

    /// What a crash leaves at any exit holds the lanes before or after, and after Ok those after.
    fn append_both(
        &mut self,
        alloc: Global,
        rows: &[LaneRow],
    ) -> Result<(Vec<Row>, Vec<Row>), StoreFault>
        requires { All FitsLane rows.now }
        ensures call { IsPairCall (IsHonestQueue S.Store) (λ q. q.stopped) (λ q. side_at q.sides) self.old self.new result }
        ensures appended { OnOk result (self.new.sides ≡ both_with self.old.sides rows.now) }
        ensures dropped { IfOk result (λ dropped. dropped.0.items ≡ dropped_by self.old.sides.first rows.now) }
        ensures dropped_too { IfOk result (λ dropped. dropped.1.items ≡ dropped_by self.old.sides.second rows.now) }
        ensures kept { OnErr result (self.new.sides ≡ self.old.sides) }
        ensures not_exhausted { OnOk result (either_exhausts (side_at self.old.sides) rows.now ≡ false) }
        ensures exhausted { IfErr result (λ e. e ≡ StoreFault.Exhausted → IsTrue (either_exhausts (side_at self.old.sides) rows.now)) }
        ensures exhausted_first { IfErr result (λ e. e ≡ StoreFault.Memory → either_exhausts (side_at self.old.sides) rows.now ≡ false) }
        ensures exhausted_always { self.old.stopped ≡ false → IsTrue (either_exhausts (side_at self.old.sides) rows.now) → (result ≡ Err StoreFault.Exhausted) × (self.new ≡ self.old) }
        ensures memory { result ≡ Err StoreFault.Memory → true ≡ false → EitherDrops (side_at self.old.sides) rows.now }
        ensures owned { self.new.owned ≡ self.old.owned }
        ensures limit { self.new.conn.step_limit ≡ self.old.conn.step_limit }
        ensures either { HasCleanDisk (state S.Store self.new.conn) → self.old.stopped ≡ false → IsTrue self.old.owned → LeavesEitherQueue (state S.Store self.new.conn) self.old.sides (both_with self.old.sides rows.now) }
        ensures after { HasCleanDisk (state S.Store self.new.conn) → IsTrue self.old.owned → OnOk result (LeavesQueue (state S.Store self.new.conn) self.new.sides) }
        ensures untouched { IsTrue self.old.stopped → self.new.conn ≡ self.old.conn }
        ensures device { HasCleanDisk (state S.Store self.new.conn) → result ≡ Err StoreFault.Device → IsTrue self.old.stopped ⊎ IsLost S.Store StoreKind.Queue self.old.conn self.new.conn }
    {
        if self.stopped {
            return Err(StoreFault::Device);
        }
        let answer = append_both_to(
            &mut self.conn,
            &mut self.first,
            &mut self.second,
            alloc,
            rows,
        );
        self.stopped = is_device(&answer);
        answer
    }

    /// What a crash leaves at any exit holds the lanes before or after, and after Ok those after.
    fn append(
        &mut self,
        alloc: Global,
        centre: u8,
        rows: &[LaneRow],
    ) -> Result<Vec<Row>, StoreFault>
        requires centre { centre < CENTRES }
        requires carried { All FitsLane rows.now }
        ensures call { IsSideCall (IsHonestQueue S.Store) (λ q. q.stopped) (λ q. side_at q.sides) centre self.old self.new result }
        ensures appended { OnOk result (self.new.sides ≡ with_side self.old.sides centre (with_rows (side_at self.old.sides centre) rows.now)) }
        ensures dropped { IfOk result (λ dropped. dropped.items ≡ dropped_by (side_at self.old.sides centre) rows.now) }
        ensures kept { OnErr result (self.new.sides ≡ self.old.sides) }
        ensures not_exhausted { OnOk result (exhausts (side_at self.old.sides centre) rows.now ≡ false) }
        ensures exhausted { IfErr result (λ e. e ≡ StoreFault.Exhausted → IsTrue (exhausts (side_at self.old.sides centre) rows.now)) }
        ensures exhausted_first { IfErr result (λ e. e ≡ StoreFault.Memory → exhausts (side_at self.old.sides centre) rows.now ≡ false) }
        ensures exhausted_always { self.old.stopped ≡ false → IsTrue (exhausts (side_at self.old.sides centre) rows.now) → (result ≡ Err StoreFault.Exhausted) × (self.new ≡ self.old) }
        ensures memory { result ≡ Err StoreFault.Memory → true ≡ false → dropped_by (side_at self.old.sides centre) rows.now ≢ [] }
        ensures owned { self.new.owned ≡ self.old.owned }
        ensures limit { self.new.conn.step_limit ≡ self.old.conn.step_limit }
        ensures either { HasCleanDisk (state S.Store self.new.conn) → self.old.stopped ≡ false → IsTrue self.old.owned → LeavesEitherQueue (state S.Store self.new.conn) self.old.sides (with_side self.old.sides centre (with_rows (side_at self.old.sides centre) rows.now)) }
        ensures after { HasCleanDisk (state S.Store self.new.conn) → IsTrue self.old.owned → OnOk result (LeavesQueue (state S.Store self.new.conn) self.new.sides) }
        ensures untouched { IsTrue self.old.stopped → self.new.conn ≡ self.old.conn }
        ensures device { HasCleanDisk (state S.Store self.new.conn) → result ≡ Err StoreFault.Device → IsTrue self.old.stopped ⊎ IsLost S.Store StoreKind.Queue self.old.conn self.new.conn }
    {
        if self.stopped {
            return Err(StoreFault::Device);
        }
        if centre == 0 {
            let answer = append_to(
                &mut self.conn,
                QueueSide::First,
                &mut self.first,
                alloc,
                rows,
            );
            self.stopped = is_device(&answer);
            answer
        } else {
            let answer = append_to(
                &mut self.conn,
                QueueSide::Second,
                &mut self.second,
                alloc,
                rows,
            );
            self.stopped = is_device(&answer);
            answer
        }
    }

    fn offer(
        &mut self,
        alloc: Global,
        centre: u8,
        lane: Lane,
        after: u64,
        most: usize,
    ) -> Result<Vec<Numbered>, StoreFault>
        requires { centre < CENTRES }
        ensures call { IsSideCall (IsHonestQueue S.Store) (λ q. q.stopped) (λ q. side_at q.sides) centre self.old self.new result }
        ensures rows { IfOk result (λ rows. rows.items ≡ offered (side_at self.old.sides centre) (lane_number lane) after most) }
        ensures same { self.new ≡ self.old }
        ensures carried { IfOk result (λ rows. All (λ x. IsEvent x.row) rows.items) }
        ensures memory { result ≡ Err StoreFault.Memory → offered (side_at self.old.sides centre) (lane_number lane) after most ≢ [] }
        ensures device { result ≡ Err StoreFault.Device → IsTrue self.old.stopped }
        ensures named { IfErr result (λ e. e ≢ StoreFault.Exhausted) }
    {
        if self.stopped {
            return Err(StoreFault::Device);
        }
        if centre == 0 {
            self.first.offer(alloc, lane, after, most)
        } else {
            self.second.offer(alloc, lane, after, most)
        }
    }

    fn offer_into(
        &mut self,
        alloc: Global,
        centre: u8,
        lane: Lane,
        after: u64,
        most: usize,
        rows: &mut Vec<Numbered>,
    ) -> Result<(), StoreFault>
        requires { centre < CENTRES }
        ensures call { IsSideCall (IsHonestQueue S.Store) (λ q. q.stopped) (λ q. side_at q.sides) centre self.old self.new result }
        ensures rows { OnOk result (rows.new.items ≡ offered (side_at self.old.sides centre) (lane_number lane) after most) }
        ensures same { self.new ≡ self.old }
        ensures carried { OnOk result (All (λ x. IsEvent x.row) rows.new.items) }
        ensures kept { OnErr result (rows.new.items ≡ rows.old.items) }
        ensures memory { result ≡ Err StoreFault.Memory → offered (side_at self.old.sides centre) (lane_number lane) after most ≢ [] }
        ensures device { result ≡ Err StoreFault.Device → IsTrue self.old.stopped }
        ensures named { IfErr result (λ e. e ≢ StoreFault.Exhausted) }
    {
        if self.stopped {
            return Err(StoreFault::Device);
        }
        if centre == 0 {
            self.first.offer_into(alloc, lane, after, most, rows)
        } else {
            self.second.offer_into(alloc, lane, after, most, rows)
        }
    }

    /// What a crash leaves at any exit holds the lanes before or after, and after Ok those after.
    fn release(&mut self, alloc: Global, centre: u8, upto: &Upto) -> Result<Vec<Row>, StoreFault>
        requires { centre < CENTRES }
        ensures call { IsSideCall (IsHonestQueue S.Store) (λ q. q.stopped) (λ q. side_at q.sides) centre self.old self.new result }
        ensures released { OnOk result (self.new.sides ≡ with_side self.old.sides centre (without (side_at self.old.sides centre) upto.now)) }
        ensures taken { IfOk result (λ rows. rows.items ≡ all_up_to (side_at self.old.sides centre) upto.now) }
        ensures kept { OnErr result (self.new.sides ≡ self.old.sides) }
        ensures memory { result ≡ Err StoreFault.Memory → true ≡ false → all_up_to (side_at self.old.sides centre) upto.now ≢ [] }
        ensures named { IfErr result (λ e. e ≢ StoreFault.Exhausted) }
        ensures owned { self.new.owned ≡ self.old.owned }
        ensures limit { self.new.conn.step_limit ≡ self.old.conn.step_limit }
        ensures either { HasCleanDisk (state S.Store self.new.conn) → self.old.stopped ≡ false → IsTrue self.old.owned → LeavesEitherQueue (state S.Store self.new.conn) self.old.sides (with_side self.old.sides centre (without (side_at self.old.sides centre) upto.now)) }
        ensures after { HasCleanDisk (state S.Store self.new.conn) → IsTrue self.old.owned → OnOk result (LeavesQueue (state S.Store self.new.conn) self.new.sides) }
        ensures untouched { IsTrue self.old.stopped → self.new.conn ≡ self.old.conn }
        ensures device { HasCleanDisk (state S.Store self.new.conn) → result ≡ Err StoreFault.Device → IsTrue self.old.stopped ⊎ IsLost S.Store StoreKind.Queue self.old.conn self.new.conn }
    {
        if self.stopped {
            return Err(StoreFault::Device);
        }
        if centre == 0 {
            let answer = release_from(
                &mut self.conn,
                QueueSide::First,
                &mut self.first,
                alloc,
                upto,
            );
            self.stopped = is_device(&answer);
            answer
        } else {
            let answer = release_from(
                &mut self.conn,
                QueueSide::Second,
                &mut self.second,
                alloc,
                upto,
            );
            self.stopped = is_device(&answer);
            answer
        }
    }

    /// What a crash leaves at any exit holds the lanes before or after, and after Ok those after.
    fn release_into(
        &mut self,
        alloc: Global,
        centre: u8,
        upto: &Upto,
        taken: &mut Rows,
    ) -> Result<(), StoreFault>
        requires { centre < CENTRES }
        ensures call { IsSideCall (IsHonestQueue S.Store) (λ q. q.stopped) (λ q. side_at q.sides) centre self.old self.new result }
        ensures released { OnOk result (self.new.sides ≡ with_side self.old.sides centre (without (side_at self.old.sides centre) upto.now)) }
        ensures taken { OnOk result (taken.new ≡ all_up_to (side_at self.old.sides centre) upto.now) }
        ensures kept { OnErr result (taken.new ≡ taken.old) }
        ensures kept_sides { OnErr result (self.new.sides ≡ self.old.sides) }
        ensures memory { result ≡ Err StoreFault.Memory → true ≡ false → all_up_to (side_at self.old.sides centre) upto.now ≢ [] }
        ensures named { IfErr result (λ e. e ≢ StoreFault.Exhausted) }
        ensures owned { self.new.owned ≡ self.old.owned }
        ensures limit { self.new.conn.step_limit ≡ self.old.conn.step_limit }
        ensures either { HasCleanDisk (state S.Store self.new.conn) → self.old.stopped ≡ false → IsTrue self.old.owned → LeavesEitherQueue (state S.Store self.new.conn) self.old.sides (with_side self.old.sides centre (without (side_at self.old.sides centre) upto.now)) }
        ensures after { HasCleanDisk (state S.Store self.new.conn) → IsTrue self.old.owned → OnOk result (LeavesQueue (state S.Store self.new.conn) self.new.sides) }
        ensures untouched { IsTrue self.old.stopped → self.new.conn ≡ self.old.conn }
        ensures device { HasCleanDisk (state S.Store self.new.conn) → result ≡ Err StoreFault.Device → IsTrue self.old.stopped ⊎ IsLost S.Store StoreKind.Queue self.old.conn self.new.conn }
    {
        match PairLanes::release(self, alloc, centre, upto) {
            Ok(rows) => {
                *taken = Rows::of(rows);
                Ok(())
            }
            Err(fault) => Err(fault),
        }
    }

    /// What a crash leaves at any exit holds the lanes before or after, and after Ok those after.
    fn empty(&mut self, alloc: Global, centre: u8) -> Result<Vec<Row>, StoreFault>
        requires { centre < CENTRES }
        ensures call { IsSideCall (IsHonestQueue S.Store) (λ q. q.stopped) (λ q. side_at q.sides) centre self.old self.new result }
        ensures emptied { OnOk result (self.new.sides ≡ with_side self.old.sides centre (without_all (side_at self.old.sides centre))) }
        ensures taken { IfOk result (λ rows. rows.items ≡ rows_in (side_at self.old.sides centre)) }
        ensures kept { OnErr result (self.new.sides ≡ self.old.sides) }
        ensures memory { result ≡ Err StoreFault.Memory → true ≡ false → rows_in (side_at self.old.sides centre) ≢ [] }
        ensures named { IfErr result (λ e. e ≢ StoreFault.Exhausted) }
        ensures owned { self.new.owned ≡ self.old.owned }
        ensures limit { self.new.conn.step_limit ≡ self.old.conn.step_limit }
        ensures either { HasCleanDisk (state S.Store self.new.conn) → self.old.stopped ≡ false → IsTrue self.old.owned → LeavesEitherQueue (state S.Store self.new.conn) self.old.sides (with_side self.old.sides centre (without_all (side_at self.old.sides centre))) }
        ensures after { HasCleanDisk (state S.Store self.new.conn) → IsTrue self.old.owned → OnOk result (LeavesQueue (state S.Store self.new.conn) self.new.sides) }
        ensures untouched { IsTrue self.old.stopped → self.new.conn ≡ self.old.conn }
        ensures device { HasCleanDisk (state S.Store self.new.conn) → result ≡ Err StoreFault.Device → IsTrue self.old.stopped ⊎ IsLost S.Store StoreKind.Queue self.old.conn self.new.conn }
    {
        if self.stopped {
            return Err(StoreFault::Device);
        }
        if centre == 0 {
            let answer = empty_of(&mut self.conn, QueueSide::First, &mut self.first, alloc);
            self.stopped = is_device(&answer);
            answer
        } else {
            let answer = empty_of(&mut self.conn, QueueSide::Second, &mut self.second, alloc);
            self.stopped = is_device(&answer);
            answer
        }
    }

    fn len(&mut self, centre: u8, lane: Lane) -> u32 {
        of_side!(self, centre, len(lane))
    }

    fn last(&mut self, centre: u8, lane: Lane) -> u64 {
        of_side!(self, centre, last(lane))
    }

    fn lost(&mut self, centre: u8, lane: Lane) -> u64 {
        of_side!(self, centre, lost(lane))
    }

    fn raised(&mut self, centre: u8) -> bool {
        of_side!(self, centre, raised())
    }
}
