//! Whether two blocks share an index: a mark for each index of a kind that has a point already.

ghost use Rattle.std.specs.Prelude.{◌≡◌, ◌+◌, ◌≤◌, ◌<◌, ◌↔◌, ◌⊎◌, ℕ, length, IsTrue, true, false, All, slice_index_or};
ghost use Rattle.std.specs.Bool.{OnFalse};
ghost use Rattle.dnp_pointdb.specs.Blocks.{ShareIndex, HasIndex};

use crate::limits::INDICES;
use crate::point::Block;

/// No index is taken.
fn no_marks() -> [bool; INDICES]
    ensures { (k : ℕ) → slice_index_or result k false ≡ false }
{
    [false; INDICES]
}

/// Marks the block's indices, unless one of them has its mark already: then the answer is true, and
/// what is marked is left open.
fn meets(marks: &mut [bool], block: &Block) -> bool
    requires { block.now.base + length block.now.points ≤ length marks.old }
    ensures met { IsTrue result ↔ ((k : ℕ) × HasIndex block.now k × (slice_index_or marks.old k false ≡ true)) }
    ensures marked { OnFalse result ((k : ℕ) → (slice_index_or marks.new k false ≡ true)
        ↔ ((slice_index_or marks.old k false ≡ true) ⊎ HasIndex block.now k)) }
{
    let first = usize::from(block.base);
    for index in first..first + block.points.as_slice().len() {
        if marks[index] {
            return true;
        }
        marks[index] = true;
    }
    false
}

/// Whether two of the blocks, whose indices are below `INDICES`, have an index in common.
pub fn share_index(blocks: &[Block]) -> bool
    requires { All (λ block. block.base + length block.points ≤ INDICES) blocks.now }
    ensures { IsTrue result ↔ ShareIndex blocks.now }
{
    let mut marks = no_marks();
    for block in blocks {
        if meets(&mut marks, block) {
            return true;
        }
    }
    false
}
