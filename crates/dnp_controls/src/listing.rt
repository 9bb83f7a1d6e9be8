//! A list of commands that clauses alone read.

ghost use Rattle.std.specs.Prelude.{◌≡◌, List, [], ◌∷◌, ◌++◌};
ghost use Rattle.std.specs.Borrow.{ftrue};
ghost use Rattle.dnp_objects.specs.declared.command.Command.{Command as CommandValue};

use dnp_objects::Command;
use std::marker::Model;

/// The commands that were performed, in order, for clauses alone: a running program keeps none of them, and what makes
/// and grows the list does nothing.
#[derive(Drop)]
pub(crate) struct Listing {
    ghost commands: { List CommandValue },
}

impl Model for Listing {
    ghost also_owns = { λ _. ftrue };
}

impl Listing {
    /// No commands.
    pub(crate) fn new() -> Self
        ensures { result.commands ≡ [] }
    {
        Listing {}
    }

    /// The same commands and one more after them.
    #[inline(always)]
    pub(crate) fn then(&self, _command: &Command) -> Self
        ensures { result.commands ≡ self.now.commands ++ _command.now ∷ [] }
    {
        Listing {}
    }
}
