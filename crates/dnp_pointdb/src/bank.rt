//! The points of one kind.

ghost use Rattle.std.specs.Prelude.{◌≡◌, ◌<◌, List, map, length, Option, true, IfOk, IfErr, IfSome, OnErr, Some, Ok, Err, slice_index_or, slice_set};
ghost use Rattle.std.specs.List.{HoldsAt};
ghost use Rattle.dnp_pointdb.specs.declared.state.BlockState.{BlockState as BlockValue};
ghost use Rattle.dnp_pointdb.specs.declared.state.PointState.{PointState as StateValue};
ghost use Rattle.dnp_pointdb.specs.Database as spec;

use crate::fault::ChangeFault;
use crate::order::{BlockPlace, find, order_of};
use crate::place::PointPlace;
use crate::point::Block;
use crate::reading::Reading;
use crate::state::{BlockState, PointState};
use dnp_objects::{Kind, LaneRow};
use std::alloc::{AllocError, Global};
use std::marker::Model;

/// The blocks of one kind, in the plan's order, and how a point of them is looked up.
#[derive(Debug, Drop)]
pub struct Bank {
    /// The blocks, in the plan's order.
    blocks: Vec<BlockState>,
    /// Those of the blocks that have points, by rising base.
    order: Vec<BlockPlace>,
    /// The number of the block in which the last reading without an event was set: such readings come in runs, so that
    /// the next one mostly is of that block too. It may be any number.
    near: usize,
}

impl Model for Bank {
    ghost use Rattle.std.specs.Prelude.{List};
    ghost use Rattle.dnp_pointdb.specs.declared.state.BlockState.{BlockState};

    ghost Value = { List BlockState };

    ghost use Rattle.dnp_pointdb.specs.steps.Order.{IsOrder, extents};

    ghost view = { λ bank. bank.blocks.items };

    ghost invariant = { λ bank. IsOrder (extents bank.blocks.items) bank.order.items };
}

/// Whether a point that is there can have the reading, or the first cause to refuse it.
#[inline]
fn check_reading(kind: Kind, reading: Reading) -> Result<(), ChangeFault>
    ensures { (state : StateValue) → result ≡ spec.set_from (spec.checked (Some state) kind reading) }
{
    if !reading.is_carried(kind) {
        return Err(ChangeFault::ValueRange);
    }
    if !reading.is_in_time() {
        return Err(ChangeFault::TimeRange);
    }
    Ok(())
}

impl Bank {
    ghost use Rattle.dnp_pointdb.specs.Database as spec;
    ghost use Rattle.dnp_pointdb.specs.steps.Order.{extents, place_in};
    ghost use Rattle.dnp_pointdb.specs.Blocks.{ShareIndex};
    ghost use Rattle.dnp_pointdb.specs.Ranges.{is_in_range};
    ghost use Rattle.dnp_pointdb.specs.PointPlaces.{IsPlaceIn};

    /// Points of which nothing was read.
    pub fn new(alloc: Global, blocks: &[Block]) -> Result<Self, AllocError>
        requires { ShareIndex blocks.now → ⊥ }
        ensures { IfOk result (λ bank. bank ≡ map spec.new_block blocks.now) }
    {
        let mut states = Vec::with_capacity(alloc, blocks.len())?;
        for block in blocks {
            states.push(BlockState::new(alloc, block)?)?;
        }
        let order = order_of(alloc, blocks)?;
        Ok(Bank {
            blocks: states,
            order,
            near: 0,
        })
    }

    /// The blocks, in the plan's order.
    pub fn blocks(&self) -> &[BlockState]
        ensures { result.now ≡ self.now }
    {
        self.blocks.as_slice()
    }

    /// The number of the block that has the index, and the point's place in it.
    fn find(&self, index: u16) -> Option<(usize, usize)>
        ensures { result ≡ place_in (extents self.now) index }
    {
        find(&self.order, index)
    }

    /// The point's place in the block with this number, if that block has it.
    #[inline]
    fn place_in_block(&self, number: usize, index: u16) -> Option<usize>
        ensures { IfSome result (λ place. place_in (extents self.now) index ≡ Some (number, place)) }
    {
        let block = self.blocks.get(number)?;
        let place = usize::from(index.checked_sub(block.base)?);
        if place < block.points.as_slice().len() {
            Some(place)
        } else {
            None
        }
    }

    /// The same as `find`, where the point mostly is of the block in which a reading was set last.
    #[inline]
    fn find_near(&self, index: u16) -> Option<(usize, usize)>
        ensures { result ≡ place_in (extents self.now) index }
    {
        match self.place_in_block(self.near, index) {
            Some(place) => Some((self.near, place)),
            None => self.find(index),
        }
    }

    /// Where the point stands that a look-up has found, if it can have the reading, or the first cause to refuse it.
    #[inline]
    fn check_found(
        &self,
        found: Option<(usize, usize)>,
        kind: Kind,
        index: u16,
        reading: Reading,
    ) -> Result<PointPlace, ChangeFault>
        requires { found ≡ place_in (extents self.now) index }
        ensures place { IfOk result (IsPlaceIn self.now index) }
        ensures in_range { IfOk result (λ _. is_in_range kind reading ≡ true) }
        ensures fault { IfErr result (λ fault. spec.checked (spec.state_in self.now index) kind reading ≡ Err fault) }
    {
        let Some((block, place)) = found else {
            return Err(ChangeFault::NoPoint);
        };
        check_reading(kind, reading)?;
        Ok(PointPlace { block, place })
    }

    /// Where the point stands, if it is there and can have the reading, or the first cause to refuse it.
    pub fn check(&self, kind: Kind, index: u16, reading: Reading) -> Result<PointPlace, ChangeFault>
        ensures place { IfOk result (IsPlaceIn self.now index) }
        ensures in_range { IfOk result (λ _. is_in_range kind reading ≡ true) }
        ensures fault { IfErr result (λ fault. spec.checked (spec.state_in self.now index) kind reading ≡ Err fault) }
    {
        self.check_found(self.find(index), kind, index, reading)
    }

    /// The point that stands there.
    fn state_at(&self, index: u16, at: PointPlace) -> PointState
        requires { IsPlaceIn self.now index at }
        ensures { spec.state_in self.now index ≡ Some result }
    {
        self.blocks[at.block].state(at.place)
    }

    /// Puts the point at this place of the block with this number.
    fn put(&mut self, block: usize, place: usize, state: PointState)
        requires block { block < length self.old }
        requires place { HoldsAt (λ b. place < length b.points) self.old block }
        ensures { (d : BlockValue) → let b = slice_index_or self.old block d in
            self.new ≡ slice_set self.old block (record b { points = slice_set b.points place state }) }
    {
        self.blocks[block].set(place, state);
    }

    /// The next reading is looked for in the block with this number first.
    #[inline]
    fn remember(&mut self, number: usize)
        ensures { self.new ≡ self.old }
    {
        self.near = number;
    }

    /// The point with this index.
    pub fn state(&self, index: u16) -> Option<PointState>
        ensures { result ≡ spec.state_in self.now index }
    {
        let (block, place) = self.find(index)?;
        Some(self.blocks[block].state(place))
    }

    /// The row that a change of the point that stands there makes, if it makes one.
    pub fn event_at(
        &self,
        at: PointPlace,
        kind: Kind,
        index: u16,
        reading: Reading,
    ) -> Option<LaneRow>
        requires place { IsPlaceIn self.now index at }
        requires in_range { is_in_range kind reading ≡ true }
        ensures { spec.answer_in self.now kind index reading ≡ Ok result }
    {
        self.state_at(index, at).event(kind, index, reading)
    }

    /// Changes the point that stands there, for which `event_at` has answered this.
    pub fn change_at(
        &mut self,
        at: PointPlace,
        kind: Kind,
        index: u16,
        reading: Reading,
        made: &Option<LaneRow>,
    )
        requires place { IsPlaceIn self.old index at }
        requires in_range { is_in_range kind reading ≡ true }
        requires made { spec.answer_in self.old kind index reading ≡ Ok made.now }
        ensures { self.new ≡ spec.changed_in self.old kind index reading }
    {
        let state = self.state_at(index, at);
        self.put(at.block, at.place, state.changed(reading, made.is_some()));
    }

    /// What a change answers.
    pub fn would(
        &self,
        kind: Kind,
        index: u16,
        reading: Reading,
    ) -> Result<Option<LaneRow>, ChangeFault>
        ensures { result ≡ spec.answer_in self.now kind index reading }
    {
        let at = self.check(kind, index, reading)?;
        Ok(self.event_at(at, kind, index, reading))
    }

    /// A change.
    pub fn change(
        &mut self,
        kind: Kind,
        index: u16,
        reading: Reading,
    ) -> Result<Option<LaneRow>, ChangeFault>
        ensures answer { result ≡ spec.answer_in self.old kind index reading }
        ensures after { self.new ≡ spec.changed_in self.old kind index reading }
        ensures err { OnErr result (self.new ≡ self.old) }
    {
        let at = self.check(kind, index, reading)?;
        let made = self.event_at(at, kind, index, reading);
        self.change_at(at, kind, index, reading, &made);
        Ok(made)
    }

    /// A reading without an event.
    pub fn set(&mut self, kind: Kind, index: u16, reading: Reading) -> Result<(), ChangeFault>
        ensures answer { result ≡ spec.set_answer_in self.old kind index reading }
        ensures after { self.new ≡ spec.set_in self.old kind index reading }
        ensures err { OnErr result (self.new ≡ self.old) }
    {
        let at = self.check_found(self.find_near(index), kind, index, reading)?;
        let state = self.state_at(index, at);
        self.put(at.block, at.place, state.set(reading));
        self.remember(at.block);
        Ok(())
    }

    /// The communication of the block with this number was lost, if there is one.
    pub fn lose(&mut self, number: usize)
        ensures { self.new ≡ spec.updated spec.lost_block self.old number }
    {
        if number < self.blocks.len() {
            self.blocks[number].lose();
        }
    }

    /// Nothing was read of any point.
    pub fn restart(&mut self)
        ensures { self.new ≡ map spec.restarted_block self.old }
    {
        restart_all(&mut self.blocks);
    }
}

/// Nothing was read of any point of the blocks.
fn restart_all(blocks: &mut [BlockState])
    ensures { blocks.new ≡ map spec.restarted_block blocks.old }
{
    for block in blocks.iter_mut() {
        block.restart();
    }
}
