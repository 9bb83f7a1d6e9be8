//! Nine lanes in memory, however each keeps its rows.

ghost use Rattle.std.specs.Prelude.{◌≡◌, ◌≢◌, ◌<◌, ◌≤◌, ◌+◌, false, IfOk, IfSome, IfNone, OnOk, OnErr, IsTrue, All, length, [], ◌++◌, vec_len, vec_capacity, ⊤};
ghost use Rattle.std.specs.List.{AllPairs};
ghost use Rattle.dnp_objects.specs.Lanes.{lane_number};
ghost use Rattle.dnp_eventbuf.specs.FitsLane.{FitsLane};
ghost use Rattle.dnp_eventbuf.specs.Sound.{IsSoundBuffer};
ghost use Rattle.dnp_eventbuf.specs.EventBuffer.{lane_at, with_rows, dropped_by, exhausts, without, all_up_to, without_all, rows_in};

use crate::lane_of::LaneOf;
use crate::lanes::Lanes;
use crate::nine_steps::{
    any_full, clear_all, count_all_up_to, cut_all, drops_for, push_all, push_all_up_to, put_all,
};
use crate::numbered::{Numbered, Upto};
use crate::one_lane::OneLane;
use crate::rows::{Rows, empty_for};
use dnp_objects::{LANES, Lane, LaneRow, MAX_ID, Row, StoreFault};
use std::alloc::{AllocError, Global};
use std::marker::Model;
use std::mem;

/// Nine lanes in memory, which take their room as they are made.
pub struct NineLanes<L: OneLane> {
    /// The lanes, by their numbers.
    pub(crate) lanes: [LaneOf<L>; LANES],
    /// Whether a row was dropped, and some lane has been full since.
    pub(crate) overflow: bool,
    /// The last id used, of all lanes; 0 before the first.
    pub(crate) last_id: u64,
}

impl<L: OneLane> Model for NineLanes<L> {
    ghost use Rattle.dnp_eventbuf.specs.Sound.{IsSoundBuffer};
    ghost use Rattle.dnp_eventbuf.specs.EventBuffer.{EventBuffer};

    ghost Value = { EventBuffer };

    ghost view = { λ a. record { lanes = a.lanes; overflow = a.overflow; last_id = a.last_id } };

    ghost invariant = { λ a. IsSoundBuffer (record { lanes = a.lanes; overflow = a.overflow; last_id = a.last_id }) };
}

impl<L: OneLane + Drop> Drop for NineLanes<L> {
    /// One call for whoever lets it go: its parts are looked at here alone.
    fn drop(self) {
        let NineLanes {
            lanes: _,
            overflow: _,
            last_id: _,
        } = self;
    }
}

impl<L: OneLane> NineLanes<L> {
    /// One of the lanes, whose rows stand by rising ids.
    #[inline(always)]
    fn lane(&self, lane: Lane) -> &LaneOf<L>
        ensures sound { IsSoundBuffer self.now }
        ensures at { result.now ≡ lane_at self.now (lane_number lane) }
        ensures rising { AllPairs (λ x y. x.id < y.id) result.now.rows }
    {
        &self.lanes[lane.number()]
    }

    /// How many rows the lanes would drop for these, or `None` where an id or a count of lost rows
    /// would pass the limit.
    pub fn drops(&self, rows: &[LaneRow]) -> Option<usize>
        ensures sound { IsSoundBuffer self.now }
        ensures some { IfSome result (λ dropped. (dropped ≡ length (dropped_by self.now rows.now)) × (exhausts self.now rows.now ≡ false)) }
        ensures none { IfNone result (IsTrue (exhausts self.now rows.now)) }
    {
        if rows.len() as u64 > MAX_ID - self.last_id {
            return None;
        }
        drops_for(&self.lanes, rows)
    }

    /// Puts the rows one by one. There is room for those that are dropped.
    #[inline(always)]
    pub fn put_all(&mut self, rows: &[LaneRow], dropped: &mut Vec<Row>)
        requires carried { All FitsLane rows.now }
        requires fits { exhausts self.old rows.now ≡ false }
        requires room { vec_len dropped.old + length (dropped_by self.old rows.now) ≤ vec_capacity dropped.old }
        ensures sound { IsSoundBuffer self.new }
        ensures with { self.new ≡ with_rows self.old rows.now }
        ensures dropped { dropped.new.items ≡ dropped.old.items ++ dropped_by self.old rows.now }
    {
        // (to read the last id is to know that the lanes are sound)
        prove!(self.last_id <= MAX_ID);
        put_all(
            &mut self.lanes,
            &mut self.overflow,
            &mut self.last_id,
            rows,
            dropped,
        );
    }

    /// The rows that a release takes: of each lane those with ids up to its number.
    pub fn rows_up_to(&self, alloc: Global, upto: &Upto) -> Result<Vec<Row>, AllocError>
        ensures sound { IsSoundBuffer self.now }
        ensures rows { IfOk result (λ rows. rows.items ≡ all_up_to self.now upto.now) }
        ensures memory { OnErr result (all_up_to self.now upto.now ≢ []) }
    {
        let mut taken = Vec::new(alloc);
        self.copy_up_to(alloc, upto, &mut taken)?;
        Ok(taken)
    }

    /// The same, in place of what was in `taken`. Memory is asked for once at most, for just as many, where `taken`
    /// has no room for them.
    pub fn copy_up_to(
        &self,
        alloc: Global,
        upto: &Upto,
        taken: &mut Vec<Row>,
    ) -> Result<(), AllocError>
        ensures sound { IsSoundBuffer self.now }
        ensures rows { OnOk result (taken.new.items ≡ all_up_to self.now upto.now) }
        ensures kept { OnErr result (taken.new.items ≡ taken.old.items) }
        ensures memory { OnErr result (vec_capacity taken.old < length (all_up_to self.now upto.now)) }
    {
        let count = count_all_up_to(&self.lanes, upto);
        empty_for(alloc, taken, count)?;
        // (a vector that nobody else knows, so that its length needs no place in memory)
        let mut rows = mem::replace(taken, Vec::new(alloc));
        push_all_up_to(&self.lanes, upto, &mut rows);
        *taken = rows;
        Ok(())
    }

    /// Takes those rows out. The overflow ends if no lane is full then.
    pub fn cut(&mut self, upto: &Upto)
        ensures sound { IsSoundBuffer self.new }
        ensures without { self.new ≡ without self.old upto.now }
    {
        cut_all(&mut self.lanes, upto);
        self.overflow = self.overflow && any_full(&self.lanes);
    }

    /// All rows, lane by lane.
    pub fn all_rows(&self, alloc: Global) -> Result<Vec<Row>, AllocError>
        ensures sound { IsSoundBuffer self.now }
        ensures rows { IfOk result (λ rows. rows.items ≡ rows_in self.now) }
        ensures memory { OnErr result (rows_in self.now ≢ []) }
    {
        let mut taken = Vec::new(alloc);
        push_all(&self.lanes, &mut taken)?;
        Ok(taken)
    }

    /// Takes all rows out. The overflow ends; the counts of lost rows and the last id used stay.
    pub fn clear(&mut self)
        ensures sound { IsSoundBuffer self.new }
        ensures without { self.new ≡ without_all self.old }
    {
        clear_all(&mut self.lanes);
        self.overflow = false;
    }
}

/// Out of memory, as a store names it.
pub(crate) fn memory(_: AllocError) -> StoreFault
    ensures { result ≡ StoreFault.Memory }
{
    StoreFault::Memory
}

impl<L: OneLane> Lanes for NineLanes<L> {
    ghost use Rattle.dnp_eventbuf.specs.Calls.{without_device};

    ghost contents = { λ s. s };

    ghost beside = { λ _. [] };

    ghost Place = { ⊤ };

    ghost place = { λ _. tt };

    ghost honest = { λ _. ⊤ };

    ghost is_stopped = { λ _. false };

    ghost asks_memory = { false };

    ghost may_fault = { without_device };

    #[inline(always)]
    fn append(&mut self, alloc: Global, rows: &[LaneRow]) -> Result<Vec<Row>, StoreFault> {
        let count = self.drops(rows).ok_or(StoreFault::Exhausted)?;
        let mut dropped = Vec::with_capacity(alloc, count).map_err(memory)?;
        self.put_all(rows, &mut dropped);
        Ok(dropped)
    }

    #[inline(always)]
    fn append_into(
        &mut self,
        alloc: Global,
        rows: &[LaneRow],
        dropped: &mut Rows,
    ) -> Result<(), StoreFault> {
        let count = self.drops(rows).ok_or(StoreFault::Exhausted)?;
        empty_for(alloc, &mut dropped.items, count).map_err(memory)?;
        self.put_all(rows, &mut dropped.items);
        Ok(())
    }

    fn offer(
        &mut self,
        alloc: Global,
        lane: Lane,
        after: u64,
        most: usize,
    ) -> Result<Vec<Numbered>, StoreFault> {
        let mut rows = Vec::new(alloc);
        self.offer_into(alloc, lane, after, most, &mut rows)?;
        Ok(rows)
    }

    fn offer_into(
        &mut self,
        alloc: Global,
        lane: Lane,
        after: u64,
        most: usize,
        rows: &mut Vec<Numbered>,
    ) -> Result<(), StoreFault> {
        let lane = self.lane(lane);
        lane.offer_into(alloc, after, most, rows).map_err(memory)?;
        Ok(())
    }

    fn release(&mut self, alloc: Global, upto: &Upto) -> Result<Vec<Row>, StoreFault> {
        let taken = self.rows_up_to(alloc, upto).map_err(memory)?;
        self.cut(upto);
        Ok(taken)
    }

    fn release_into(
        &mut self,
        alloc: Global,
        upto: &Upto,
        taken: &mut Rows,
    ) -> Result<(), StoreFault> {
        self.copy_up_to(alloc, upto, &mut taken.items)
            .map_err(memory)?;
        self.cut(upto);
        Ok(())
    }

    fn empty(&mut self, alloc: Global) -> Result<Vec<Row>, StoreFault> {
        let taken = self.all_rows(alloc).map_err(memory)?;
        self.clear();
        Ok(taken)
    }

    fn len(&mut self, lane: Lane) -> u32 {
        self.lane(lane).len()
    }

    fn last(&mut self, lane: Lane) -> u64 {
        self.lane(lane).last()
    }

    fn lost(&mut self, lane: Lane) -> u64 {
        self.lane(lane).lost()
    }

    fn raised(&mut self) -> bool {
        self.overflow
    }
}
