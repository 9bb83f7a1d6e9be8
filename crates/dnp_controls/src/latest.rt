//! The states in which performed commands left outputs in memory.

ghost use Rattle.std.specs.Prelude.{◌≡◌, [], ◌∷◌, ◌++◌};
ghost use Rattle.dnp_controls.specs.Latches.{status_of, value_of};
ghost use Rattle.dnp_controls.specs.steps.History.{IsInPlace};

use crate::limits::MAX_OUTPUTS;
use crate::listing::Listing;
use crate::states::{PLACES, set_latch, set_value, shown};
use dnp_objects::Command;
use std::marker::Model;

/// The states in which commands left the outputs. A clause sees the commands, in order: of them no more is kept than the
/// states.
#[derive(Drop)]
pub(crate) struct Latest {
    /// Whether the binary output of an index is latched on.
    latched: [bool; PLACES],
    /// The value of the setpoint of an index, if a command set it.
    values: [Option<i32>; PLACES],
    /// The commands, for clauses alone.
    listing: Listing,
}

impl Model for Latest {
    ghost use Rattle.std.specs.Prelude.{List};
    ghost use Rattle.dnp_objects.specs.declared.command.Command.{Command};
    ghost use Rattle.dnp_controls.specs.steps.History.{IsLeftBy};

    ghost Value = { List Command };

    ghost view = { λ a. a.listing.commands };

    ghost invariant = { λ a. IsLeftBy a.latched a.values a.listing.commands };
}

impl Latest {
    /// Nothing was performed.
    pub fn new() -> Self
        ensures { result ≡ [] }
    {
        Latest {
            latched: [false; PLACES],
            values: [None; PLACES],
            listing: Listing::new(),
        }
    }

    /// The flags octet of the binary output of this index.
    pub fn status(&self, index: u16) -> u8
        ensures { result ≡ status_of self.now index }
    {
        shown(&self.latched, index)
    }

    /// The value of the setpoint of this index, if a command set it.
    pub fn value(&self, index: u16) -> Option<i32>
        ensures { result ≡ value_of self.now index }
    {
        let values = &self.values;
        if index >= MAX_OUTPUTS {
            return None;
        }
        values[index as usize]
    }

    /// Brings the output that a command is for into the state in which the command leaves it.
    pub fn perform(&mut self, command: Command)
        requires { IsInPlace command }
        ensures { self.new ≡ self.old ++ command ∷ [] }
    {
        set_latch(&mut self.latched, command);
        set_value(&mut self.values, command);
        self.listing = self.listing.then(&command);
    }
}
