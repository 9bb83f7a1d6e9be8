//! Where rows are read.

ghost use Rattle.std.specs.Prelude.{◌≡◌, List, ◌++◌, IfOk, OnOk, take};
ghost use Rattle.dnp_rows.specs.Pages.{over, AreRising};

use crate::fault::ReadFault;
use crate::item::Item;
use std::alloc::Global;

/// Rows under ids that rise, to which more may come at any time, each under an id over those that were given before.
pub trait Source {
    ghost use Rattle.dnp_rows.specs.declared.item.Item.{Item as Row};

    /// The rows that stand there, and stood there before those that left.
    ghost items: { Self → List Row };

    /// What is promised of rows holds where this does as the call ends: no clause says what a file gives.
    ghost honest: { Self → Type 0 };

    /// The first rows over an id, at most so many.
    fn items_over(&mut self, alloc: Global, from: u64, most: usize) -> Result<Vec<Item>, ReadFault>
        ensures items { honest self.new → IfOk result (λ found. found.items ≡ take most (over from (items self.new))) }
        ensures rising { honest self.new → AreRising 0 (items self.new) }
        ensures later { honest self.new → OnOk result ((more : List Row) × (items self.new ≡ items self.old ++ more)) }
        ensures before { honest self.new → honest self.old };
}
