//! One side of lanes for two centres.

ghost use Rattle.std.specs.Prelude.{◌≡◌, ◌<◌};
ghost use Rattle.dnp_eventbuf.specs.Sides.{centre_in, lent_pair, pair_in};

use crate::lanes::Lanes;
use crate::numbered::{Numbered, Upto};
use crate::pair::{CENTRES, PairLanes};
use crate::rows::Rows;
use dnp_objects::{Lane, LaneRow, Row, StoreFault};
use std::alloc::Global;

/// The nine lanes for one centre of a store that is lent: its calls leave the other side as it was.
#[derive(Drop)]
pub struct Side<'a, P> {
    pair: &'a mut P,
    /// Whether it is the second centre's.
    is_second: bool,
}

impl<'a, P> Side<'a, P> {
    /// The lanes for this centre.
    pub fn new(pair: &'a mut P, centre: u8) -> Self
        requires { centre < CENTRES }
        ensures lent { (lent_pair result).ghost_name ≡ pair.entry.ghost_name }
        ensures pair { pair_in result ≡ pair.old }
        ensures centre { centre_in result ≡ centre }
    {
        Side {
            pair,
            is_second: centre == 1,
        }
    }

    /// The centre that the lanes are for.
    fn centre(&self) -> u8
        ensures below { result < CENTRES }
        ensures value { result ≡ centre_in self.now }
    {
        if self.is_second { 1 } else { 0 }
    }
}

impl<P: PairLanes> Lanes for Side<'_, P> {
    ghost use Rattle.std.specs.Prelude.{ℕ};
    ghost use Rattle.std.specs.Borrow.{GName};
    ghost use Rattle.dnp_eventbuf.specs.Sides.{beside_of, centre_in, lent_pair, pair_in};

    ghost contents = { λ s. P.contents (pair_in s) (centre_in s) };

    ghost beside = { λ s. beside_of P.contents (centre_in s) (pair_in s) };

    ghost Place = { GName × ℕ };

    ghost place = { λ s. ((lent_pair s).ghost_name, centre_in s) };

    ghost honest = { λ s. P.honest (pair_in s) };

    ghost is_stopped = { λ s. P.is_stopped (pair_in s) };

    ghost asks_memory = { P.asks_memory };

    ghost may_fault = { P.may_fault };

    fn append(&mut self, alloc: Global, rows: &[LaneRow]) -> Result<Vec<Row>, StoreFault> {
        let centre = self.centre();
        self.pair.append(alloc, centre, rows)
    }

    fn offer(
        &mut self,
        alloc: Global,
        lane: Lane,
        after: u64,
        most: usize,
    ) -> Result<Vec<Numbered>, StoreFault> {
        let centre = self.centre();
        self.pair.offer(alloc, centre, lane, after, most)
    }

    fn offer_into(
        &mut self,
        alloc: Global,
        lane: Lane,
        after: u64,
        most: usize,
        rows: &mut Vec<Numbered>,
    ) -> Result<(), StoreFault> {
        let centre = self.centre();
        self.pair.offer_into(alloc, centre, lane, after, most, rows)
    }

    fn release(&mut self, alloc: Global, upto: &Upto) -> Result<Vec<Row>, StoreFault> {
        let centre = self.centre();
        self.pair.release(alloc, centre, upto)
    }

    fn release_into(
        &mut self,
        alloc: Global,
        upto: &Upto,
        taken: &mut Rows,
    ) -> Result<(), StoreFault> {
        let centre = self.centre();
        self.pair.release_into(alloc, centre, upto, taken)
    }

    fn empty(&mut self, alloc: Global) -> Result<Vec<Row>, StoreFault> {
        let centre = self.centre();
        self.pair.empty(alloc, centre)
    }

    fn len(&mut self, lane: Lane) -> u32 {
        let centre = self.centre();
        self.pair.len(centre, lane)
    }

    fn last(&mut self, lane: Lane) -> u64 {
        let centre = self.centre();
        self.pair.last(centre, lane)
    }

    fn lost(&mut self, lane: Lane) -> u64 {
        let centre = self.centre();
        self.pair.lost(centre, lane)
    }

    fn raised(&mut self) -> bool {
        let centre = self.centre();
        self.pair.raised(centre)
    }
}
