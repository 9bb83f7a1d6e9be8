//! The blocks of each kind, before it is known whether they are a plan.

ghost use Rattle.std.specs.Prelude.{◌≡◌, IfOk, map};

use crate::point::Block;
use dnp_objects::{KINDS, Kind};
use std::alloc::{AllocError, Global};
use std::marker::Model;

/// The blocks of each kind, in any order, right or wrong.
///
/// A clause sees the lists.
#[derive(Debug, Drop)]
pub struct Blocks {
    /// The blocks of each kind, by the kind's number.
    banks: [Vec<Block>; KINDS],
}

impl Model for Blocks {
    ghost use Rattle.std.specs.Prelude.{map};
    ghost use Rattle.dnp_pointdb.specs.Plan.{Plan};

    ghost Value = { Plan };

    ghost view = { λ blocks. record { blocks = map (λ bank. bank.items) blocks.banks } };
}

impl Blocks {
    ghost use Rattle.dnp_pointdb.specs.Plan.{plan_of, blocks_of};

    /// These blocks of each kind.
    pub fn new(binary: Vec<Block>, counter: Vec<Block>, analog: Vec<Block>) -> Blocks
        ensures { result ≡ plan_of binary.items counter.items analog.items }
    {
        Blocks {
            banks: [binary, counter, analog],
        }
    }

    /// Those of this kind.
    pub fn of(&self, kind: Kind) -> &[Block]
        ensures { result.now ≡ blocks_of self.now kind }
    {
        self.banks[kind.number()].as_slice()
    }

    /// The same blocks again. An error says that it ran out of memory.
    pub fn try_clone(&self, alloc: Global) -> Result<Blocks, AllocError>
        ensures { IfOk result (λ copy. copy ≡ self.now) }
    {
        Ok(Blocks {
            banks: clones_of_each(alloc, &self.banks)?,
        })
    }
}

/// The same blocks of each kind again.
fn clones_of_each(
    alloc: Global,
    banks: &[Vec<Block>; KINDS],
) -> Result<[Vec<Block>; KINDS], AllocError>
    ensures { IfOk result (λ copies. map (λ bank. bank.items) copies ≡ map (λ bank. bank.items) banks.now) }
{
    Ok([
        clones(alloc, &banks[0])?,
        clones(alloc, &banks[1])?,
        clones(alloc, &banks[2])?,
    ])
}

/// The same blocks of one kind again.
fn clones(alloc: Global, blocks: &[Block]) -> Result<Vec<Block>, AllocError>
    ensures { IfOk result (λ copies. copies.items ≡ blocks.now) }
{
    let mut copies = Vec::with_capacity(alloc, blocks.len())?;
    for block in blocks {
        copies.push(block.try_clone(alloc)?)?;
    }
    Ok(copies)
}
