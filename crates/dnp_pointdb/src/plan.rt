//! The plan of a station's points.

ghost use Rattle.std.specs.Prelude.{◌≡◌, ◌↔◌, List, MatchOption, IfOk, IfErr, IsTrue, Any, Ok, Err};
ghost use Rattle.dnp_pointdb.specs.declared.point.Block.{Block as BlockValue};
ghost use Rattle.dnp_pointdb.specs.declared.fault.PlanFault.{PlanFault as FaultValue};
ghost use Rattle.dnp_pointdb.specs.Blocks.{ShareIndex};
ghost use Rattle.dnp_pointdb.specs.Classes as classes;
ghost use Rattle.dnp_pointdb.specs.steps.Order.{AreOrders};
ghost use Rattle.dnp_pointdb.specs.Plan.{plan_of, blocks_of, IsPlanFault, IsFirst, IsSoundPlan, HasWrongPoint, HasTooMany, IsTooWide, IsWrong};

use crate::blocks::Blocks;
use crate::fault::PlanFault;
use crate::limits::{INDICES, MAX_POINTS};
use crate::order::{SortedBlocks, order_of, point_by};
use crate::point::{Block, Point};
use crate::taken::share_index;
use dnp_objects::{CLASSES, Kind};
use std::alloc::{AllocError, Global};
use std::marker::Model;

/// The points of a station by kind and index (IEEE Std 1815-2012, object library): for each kind a
/// list of blocks, in any order, of which no two share an index. A block is known by its number in
/// the list, from 0.
///
/// A clause sees the three lists.
#[derive(Debug, Drop)]
pub struct PointPlan {
    /// The blocks of each kind, in the plan's order.
    blocks: Blocks,
    /// How the points are looked up, once `prepare` was called.
    orders: Option<SortedBlocks>,
}

impl Model for PointPlan {
    ghost use Rattle.std.specs.Prelude.{IfSome};
    ghost use Rattle.dnp_pointdb.specs.Plan.{Plan, IsSoundPlan};
    ghost use Rattle.dnp_pointdb.specs.steps.Order.{AreOrders};

    ghost Value = { Plan };

    ghost view = { λ plan. plan.blocks };

    ghost invariant = { λ plan. IsSoundPlan plan.blocks × IfSome plan.orders (AreOrders plan.blocks) };
}

/// Whether a point of this kind has a class over `CLASSES`, or a deadband that is none of its kind's.
fn is_wrong(kind: Kind, point: &Point) -> bool
    ensures { IsTrue result ↔ IsWrong kind point.now }
{
    let has_deadband = match kind {
        Kind::Binary | Kind::Counter => point.deadband > 0,
        Kind::Analog => false,
    };
    point.class > CLASSES || has_deadband
}

/// Whether a point of the block, which is of this kind, has a wrong class or deadband.
fn has_wrong_point(kind: Kind, block: &Block) -> bool
    ensures { IsTrue result ↔ HasWrongPoint kind block.now }
{
    block
        .points
        .as_slice()
        .iter()
        .any(|point| is_wrong(kind, point))
}

/// Whether some point of this kind has a wrong class or deadband.
fn some_wrong_point(blocks: &Blocks, kind: Kind) -> bool
    ensures { IsTrue result ↔ Any (HasWrongPoint kind) (blocks_of blocks.now kind) }
{
    blocks
        .of(kind)
        .iter()
        .any(|block| has_wrong_point(kind, block))
}

/// Whether a block of this kind has too many points.
fn some_too_many(blocks: &Blocks, kind: Kind) -> bool
    ensures { IsTrue result ↔ Any HasTooMany (blocks_of blocks.now kind) }
{
    blocks
        .of(kind)
        .iter()
        .any(|block| block.points.as_slice().len() > MAX_POINTS)
}

/// Whether a block of this kind has an index over the highest.
fn some_too_wide(blocks: &Blocks, kind: Kind) -> bool
    ensures { IsTrue result ↔ Any IsTooWide (blocks_of blocks.now kind) }
{
    blocks.of(kind).iter().any(|block| usize::from(block.base) + block.points.as_slice().len()
        > INDICES)
}

/// Whether two blocks of this kind, whose indices are below `INDICES`, share an index.
fn some_overlap(blocks: &Blocks, kind: Kind) -> bool
    requires { Any IsTooWide (blocks_of blocks.now kind) → ⊥ }
    ensures { IsTrue result ↔ ShareIndex (blocks_of blocks.now kind) }
{
    share_index(blocks.of(kind))
}

/// Whether a class or a deadband is wrong.
fn has_wrong_points(blocks: &Blocks) -> bool
    ensures { IsTrue result ↔ IsPlanFault blocks.now PlanFault.Class }
{
    Kind::ALL.iter().any(|kind| some_wrong_point(blocks, *kind))
}

/// Whether a block has too many points.
fn has_too_many(blocks: &Blocks) -> bool
    ensures { IsTrue result ↔ IsPlanFault blocks.now PlanFault.TooMany }
{
    Kind::ALL.iter().any(|kind| some_too_many(blocks, *kind))
}

/// Whether an index is over the highest.
fn is_too_wide(blocks: &Blocks) -> bool
    ensures { IsTrue result ↔ IsPlanFault blocks.now PlanFault.TooWide }
{
    Kind::ALL.iter().any(|kind| some_too_wide(blocks, *kind))
}

/// Whether two blocks of one kind share an index.
fn has_overlap(blocks: &Blocks) -> bool
    requires { IsPlanFault blocks.now PlanFault.TooWide → ⊥ }
    ensures { IsTrue result ↔ IsPlanFault blocks.now PlanFault.Overlap }
{
    Kind::ALL.iter().any(|kind| some_overlap(blocks, *kind))
}

/// The first thing that is wrong with the blocks, if anything is.
fn first_fault(blocks: &Blocks) -> Option<PlanFault>
    ensures { MatchOption result (IsSoundPlan blocks.now)
        (IsFirst blocks.now) }
{
    if has_wrong_points(blocks) {
        return Some(PlanFault::Class);
    }
    if has_too_many(blocks) {
        return Some(PlanFault::TooMany);
    }
    if is_too_wide(blocks) {
        return Some(PlanFault::TooWide);
    }
    if has_overlap(blocks) {
        return Some(PlanFault::Overlap);
    }
    None
}

/// How the points of these blocks are looked up.
fn orders_of(alloc: Global, blocks: &Blocks) -> Result<SortedBlocks, AllocError>
    requires { IsSoundPlan blocks.now }
    ensures { IfOk result (AreOrders blocks.now) }
{
    Ok(SortedBlocks {
        of_kinds: [
            order_of(alloc, blocks.of(Kind::Binary))?,
            order_of(alloc, blocks.of(Kind::Counter))?,
            order_of(alloc, blocks.of(Kind::Analog))?,
        ],
    })
}

/// The point of this index, if one of the blocks has it.
fn point_in(blocks: &[Block], index: u16) -> Option<Point>
    ensures { result ≡ classes.point_in blocks.now index }
{
    for block in blocks {
        if block.base <= index {
            let place = usize::from(index - block.base);
            if let Some(point) = block.points.as_slice().get(place) {
                return Some(*point);
            }
        }
    }
    None
}

impl PointPlan {
    ghost use Rattle.dnp_pointdb.specs.Plan.{plan_of, blocks_of, IsFirst, IsSoundPlan};

    /// The plan of these blocks of each kind, each kind's in any order.
    ///
    /// Refused is, first of all, a class over 3 or a deadband other than 0 of a binary or a counter
    /// (`Class`), then a block of more than 1,024 points (`TooMany`), then an index over 65,535
    /// (`TooWide`), and then an index that two blocks of one kind share (`Overlap`). Each cause is
    /// looked for in all the blocks before the next one is. Nothing is allocated.
    pub fn new(
        binary: Vec<Block>,
        counter: Vec<Block>,
        analog: Vec<Block>,
    ) -> Result<PointPlan, PlanFault>
        ensures found { IfOk result (λ plan. plan ≡ plan_of binary.items counter.items analog.items) }
        ensures only { IsSoundPlan (plan_of binary.items counter.items analog.items)
            → result ≡ Ok (plan_of binary.items counter.items analog.items) }
        ensures fault { IfErr result (IsFirst (plan_of binary.items counter.items analog.items)) }
        ensures only_fault { (fault : FaultValue) → IsFirst (plan_of binary.items counter.items analog.items) fault
            → result ≡ Err fault }
    {
        let blocks = Blocks::new(binary, counter, analog);
        match first_fault(&blocks) {
            Some(fault) => Err(fault),
            None => Ok(PointPlan {
                blocks,
                orders: None,
            }),
        }
    }

    /// The blocks of a kind, in the plan's order.
    pub fn blocks(&self, kind: Kind) -> &[Block]
        ensures value { result.now ≡ blocks_of self.now kind }
        ensures sound { IsSoundPlan self.now }
    {
        self.blocks.of(kind)
    }

    /// Makes look-ups quick, if there is memory for that: from then on they take logarithmic time, and
    /// before that they go through the blocks one by one. What is asked again costs nothing.
    pub fn prepare(&mut self, alloc: Global)
        ensures { self.new ≡ self.old }
    {
        if self.orders.is_none() {
            if let Ok(orders) = orders_of(alloc, &self.blocks) {
                self.orders = Some(orders);
            }
        }
    }

    /// The point of this kind and index, if the plan has it.
    fn point(&self, kind: Kind, index: u16) -> Option<Point>
        ensures { result ≡ classes.point_in (blocks_of self.now kind) index }
    {
        match &self.orders {
            Some(orders) => point_by(orders.of(kind), self.blocks.of(kind), index),
            None => point_in(self.blocks.of(kind), index),
        }
    }

    /// The class of the point, if the plan has it.
    pub fn class_of(&self, kind: Kind, index: u16) -> Option<u8>
        ensures { result ≡ classes.class_at self.now kind index }
    {
        self.point(kind, index).map(|point| point.class)
    }

    /// The same plan again. An error says that it ran out of memory.
    pub fn try_clone(&self, alloc: Global) -> Result<PointPlan, AllocError>
        ensures { IfOk result (λ copy. copy ≡ self.now) }
    {
        Ok(PointPlan {
            blocks: self.blocks.try_clone(alloc)?,
            orders: None,
        })
    }
}
