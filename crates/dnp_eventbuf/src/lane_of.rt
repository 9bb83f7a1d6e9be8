//! One lane in memory as what it holds.

ghost use Rattle.std.specs.Prelude.{◌≡◌, ◌≢◌, ◌^◌, ◌+◌, ◌<◌, ◌≤◌, ◌++◌, OnOk, OnErr, [], length, map, nat_lt, vec_len, vec_capacity, filter, take};
ghost use Rattle.std.specs.List.{AllPairs, list_any};
ghost use Rattle.dnp_eventbuf.specs.EventBuffer.{is_full, put_in, dropped_from, emptied, above, up_to, last_of, row_of};
ghost use Rattle.dnp_eventbuf.specs.steps.Tallies.{tally_of};

use crate::in_order::{cut, first_into, push_rows};
use crate::numbered::Numbered;
use crate::one_lane::OneLane;
use crate::tally::Tally;
use dnp_objects::{MAX_ID, Row};
use std::alloc::{AllocError, Global};
use std::marker::Model;

/// One lane, however its rows are kept. A clause sees it as its state, so that nine of them are a list of states.
pub struct LaneOf<L: OneLane> {
    /// The lane.
    pub(crate) one: L,
}

impl<L: OneLane> Model for LaneOf<L> {
    ghost use Rattle.dnp_eventbuf.specs.EventBuffer.{LaneState};

    ghost Value = { LaneState };

    ghost view = { λ a. L.state a.one };
}

impl<L: OneLane + Drop> Drop for LaneOf<L> {
    /// One call for whoever lets it go.
    fn drop(self) {
        let LaneOf { one: _ } = self;
    }
}

impl<L: OneLane> LaneOf<L> {
    /// Whether it has as many rows as it takes.
    pub fn is_full(&self) -> bool
        ensures { result ≡ is_full self.now }
    {
        self.one.tally().free == 0
    }

    /// Takes a row at the end. A full lane drops its oldest first, counts it, and adds it to those that were
    /// dropped, which have room for it.
    #[inline(always)]
    pub fn put(&mut self, x: Numbered, dropped: &mut Vec<Row>)
        requires takes_one { 1 ≤ self.old.capacity }
        requires counted { self.old.lost ≤ MAX_ID }
        requires room { vec_len dropped.old + length (dropped_from self.old) ≤ vec_capacity dropped.old }
        ensures lane { self.new ≡ put_in self.old x }
        ensures dropped { dropped.new.items ≡ dropped.old.items ++ dropped_from self.old }
        ensures len { vec_len dropped.new ≡ vec_len dropped.old + length (dropped_from self.old) }
        ensures capacity { vec_capacity dropped.old ≤ vec_capacity dropped.new }
    {
        self.one.put(x, dropped);
    }

    /// The first rows with an id over `after`, at most `most`, in place of what was in `out`. Memory is asked for once
    /// at most, for just as many, where `out` has no room for them.
    pub fn offer_into(
        &self,
        alloc: Global,
        after: u64,
        most: usize,
        out: &mut Vec<Numbered>,
    ) -> Result<(), AllocError>
        requires rising { AllPairs (λ x y. x.id < y.id) self.now.rows }
        ensures rows { OnOk result (out.new.items ≡ take most (filter (λ x. nat_lt after x.id) self.now.rows)) }
        ensures kept { OnErr result (out.new.items ≡ out.old.items) }
        ensures memory { OnErr result (vec_capacity out.old < length (take most (filter (λ x. nat_lt after x.id) self.now.rows))) }
    {
        if !self.has_over(after) {
            out.clear();
            return Ok(());
        }
        let (front, back) = self.one.runs();
        first_into(alloc, cut(front, after).1, cut(back, after).1, most, out)
    }

    /// Whether a row has an id over this: the last one has, if any.
    fn has_over(&self, after: u64) -> bool
        requires rising { AllPairs (λ x y. x.id < y.id) self.now.rows }
        ensures { result ≡ list_any (λ x. nat_lt after x.id) self.now.rows }
    {
        after < self.last()
    }

    /// How many rows have an id up to this.
    pub fn count_up_to(&self, upto: u64) -> usize
        requires rising { AllPairs (λ x y. x.id < y.id) self.now.rows }
        ensures count { result ≡ length (up_to upto self.now) }
        ensures few { result < 2 ^ 32 }
    {
        if self.len() == 0 {
            return 0;
        }
        let (front, back) = self.one.runs();
        cut(front, upto).0.len() + cut(back, upto).0.len()
    }

    /// Adds the rows with ids up to this, for which there is room.
    pub fn push_up_to(&self, upto: u64, out: &mut Vec<Row>)
        requires rising { AllPairs (λ x y. x.id < y.id) self.now.rows }
        requires room { vec_len out.old + length (up_to upto self.now) ≤ vec_capacity out.old }
        ensures rows { out.new.items ≡ out.old.items ++ up_to upto self.now }
        ensures len { vec_len out.new ≡ vec_len out.old + length (up_to upto self.now) }
        ensures capacity { vec_capacity out.new ≡ vec_capacity out.old }
    {
        if self.len() == 0 {
            return;
        }
        let (front, back) = self.one.runs();
        push_rows(cut(front, upto).0, out);
        push_rows(cut(back, upto).0, out);
    }

    /// Adds all rows.
    pub fn push_all(&self, out: &mut Vec<Row>) -> Result<(), AllocError>
        ensures rows { OnOk result (out.new.items ≡ out.old.items ++ map row_of self.now.rows) }
        ensures memory { OnErr result (map row_of self.now.rows ≢ []) }
    {
        let (front, back) = self.one.runs();
        out.reserve(self.len() as usize)?;
        push_rows(front, out);
        push_rows(back, out);
        Ok(())
    }

    /// Takes the rows with ids up to this out.
    pub fn cut(&mut self, upto: u64)
        requires rising { AllPairs (λ x y. x.id < y.id) self.old.rows }
        ensures { self.new ≡ above upto self.old }
    {
        if self.len() == 0 {
            return;
        }
        if self.has_over(upto) {
            self.one.cut(upto);
        } else {
            self.one.clear();
        }
    }

    /// Takes all rows out; the count of lost rows stays.
    pub fn clear(&mut self)
        ensures { self.new ≡ emptied self.old }
    {
        self.one.clear();
    }

    /// How many rows it holds.
    pub fn len(&self) -> u32
        ensures { result ≡ length self.now.rows }
    {
        self.one.len()
    }

    /// The id of the last row, or 0.
    pub fn last(&self) -> u64
        ensures { result ≡ last_of self.now.rows }
    {
        self.one.last()
    }

    /// How many rows it has dropped.
    pub fn lost(&self) -> u64
        ensures { result ≡ self.now.lost }
    {
        self.one.tally().lost
    }

    /// Its free places and its lost rows.
    pub fn tally(&self) -> Tally
        ensures { result ≡ tally_of self.now }
    {
        self.one.tally()
    }
}
