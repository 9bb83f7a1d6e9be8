//! What people call the things that rows are of.

ghost use Rattle.std.specs.Prelude.{◌≡◌, []};

use crate::item::Item;

/// What people call the things that rows are of, as it stands behind a row's own parts in its line.
pub trait Naming {
    ghost use Rattle.std.specs.Prelude.{List, ℕ, ⊤};
    ghost use Rattle.dnp_rows.specs.declared.item.Item.{Item as Row};

    /// What may stand there of a row.
    ghost is_named: { Self → Row → List ℕ → Type 0 } = { λ _ _ _. ⊤ };

    /// What stands there of a row.
    fn name(&self, item: &Item) -> &[u8]
        ensures { is_named self.now item.now result.now };
}

/// Nothing is called anything.
#[derive(Clone, Copy, Debug)]
pub struct Nameless;

impl Naming for Nameless {
    ghost is_named = { λ _ _ named. named ≡ [] };

    fn name(&self, _item: &Item) -> &[u8] {
        &[]
    }
}
