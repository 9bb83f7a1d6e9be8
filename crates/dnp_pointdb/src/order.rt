//! How a point is looked up by its index.

ghost use Rattle.std.specs.Prelude.{◌≡◌, List, IfOk, map};
ghost use Rattle.std.specs.List.Sorted.{IsNonDecreasingBy};
ghost use Rattle.dnp_pointdb.specs.Classes.{point_in};
ghost use Rattle.dnp_pointdb.specs.steps.Order.{Extent, IsOrder, AreApart, extent_of, order_in, place_in};

use crate::point::{Block, Point};
use dnp_objects::{KINDS, Kind};
use std::alloc::{AllocError, Global};

/// Where a block's points stand: the index of the first, how many they are, and the block's number.
#[derive(Clone, Copy, Debug)]
pub struct BlockPlace {
    /// The index of the block's first point.
    pub first: u16,
    /// How many points it has, at least 1.
    pub count: usize,
    /// The block's number in the plan, from 0.
    pub block: usize,
}

/// The places of the blocks that have points, by rising base.
pub fn order_of(alloc: Global, blocks: &[Block]) -> Result<Vec<BlockPlace>, AllocError>
    requires { AreApart (map extent_of blocks.now) }
    ensures { IfOk result (λ order. IsOrder (map extent_of blocks.now) order.items) }
{
    let mut order = Vec::new(alloc);
    for (number, block) in blocks.iter().enumerate() {
        let count = block.points.as_slice().len();
        if count > 0 {
            order.push(BlockPlace {
                first: block.base,
                count,
                block: number,
            })?;
        }
    }
    order.sort_unstable_by_key(|place| place.first);
    Ok(order)
}

/// How the points of each kind of a plan are looked up, by the kind's number.
#[derive(Debug, Drop)]
pub struct SortedBlocks {
    /// The places of each kind's blocks.
    pub of_kinds: [Vec<BlockPlace>; KINDS],
}

impl SortedBlocks {
    /// Those of this kind.
    pub fn of(&self, kind: Kind) -> &[BlockPlace]
        ensures { result.now ≡ order_in self.now kind }
    {
        self.of_kinds[kind.number()].as_slice()
    }
}

/// The point with the index, if one of the blocks has it.
pub fn point_by(order: &[BlockPlace], blocks: &[Block], index: u16) -> Option<Point>
    requires { IsOrder (map extent_of blocks.now) order.now }
    ensures { result ≡ point_in blocks.now index }
{
    let (block, place) = find(order, index)?;
    Some(blocks[block].points.as_slice()[place])
}

/// The number of the block that has the index, and the point's place in it.
pub fn find(order: &[BlockPlace], index: u16) -> Option<(usize, usize)>
    requires { IsNonDecreasingBy (λ place. place.first) order.now }
    ensures { (es : List Extent) → IsOrder es order.now → result ≡ place_in es index }
{
    let last = order
        .partition_point(|place| place.first <= index)
        .checked_sub(1)?;
    let place = order[last];
    let offset = usize::from(index - place.first);
    if offset < place.count {
        Some((place.block, offset))
    } else {
        None
    }
}
