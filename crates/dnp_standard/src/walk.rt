//! The object headers of a fragment, one after the other, each with its objects.

ghost use Rattle.std.specs.Prelude.{◌≡◌, IfOk};
ghost use Rattle.dnp_standard.specs.Walks.{IsWalk};

use crate::fault::Fault;
use crate::function::Carried;
use crate::header::{Block, block_at};
use std::alloc::{AllocError, Global};

/// A header with its objects at a place of a fragment.
#[derive(Clone, Copy)]
pub struct Placed {
    /// The header's first octet in the fragment, from 0.
    pub place: usize,
    /// The header with its objects.
    pub block: Block,
}

/// Where a walk ends before the fragment does.
#[derive(Clone, Copy)]
pub struct Stop {
    /// Why.
    pub fault: Fault,
    /// At which octet of the fragment, from 0: where the header begins that has the fault.
    pub place: usize,
}

/// The headers of a fragment from a place on.
#[derive(Drop)]
pub struct Walk {
    /// The headers, in order.
    pub blocks: Vec<Placed>,
    /// Where what follows them is no header with its objects, if it isn't.
    pub stop: Option<Stop>,
}

/// The headers from an octet of a fragment on, each with its objects, up to its end or to the first that can't be read. An error says
/// that memory ran out.
pub fn walk_from(
    alloc: Global,
    carried: Carried,
    fragment: &[u8],
    begin: usize,
) -> Result<Walk, AllocError>
    ensures { IfOk result (λ walk. IsWalk carried fragment.now begin walk.blocks.items walk.stop) }
{
    let mut blocks = Vec::new(alloc);
    let mut place = begin;
    'headers: while place < fragment.len() {
        match block_at(carried, &fragment[place..]) {
            Ok(block) => {
                blocks.push(Placed { place, block })?;
                place += block.begin + block.size;
            }
            Err(fault) => {
                let stop = Some(Stop { fault, place });
                return Ok(Walk { blocks, stop });
            }
        }
    }
    Ok(Walk { blocks, stop: None })
}
