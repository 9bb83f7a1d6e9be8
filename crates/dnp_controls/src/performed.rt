//! The commands that outputs in memory performed, and what they left.

ghost use Rattle.std.specs.Prelude.{◌≡◌, ◌≤◌, ◌<◌, ◌+◌, [], ◌∷◌, ◌++◌, OnOk, OnErr};
ghost use Rattle.dnp_controls.specs.Latches.{status_of};
ghost use Rattle.dnp_controls.specs.steps.History.{IsInPlace};

use crate::states::{PLACES, set_latch, shown};
use dnp_objects::Command;
use std::alloc::{AllocError, Global};
use std::marker::Model;

/// Commands that were performed, in order, with the latches that they left.
#[derive(Debug, Drop)]
pub(crate) struct Performed {
    /// The commands, in order.
    commands: Vec<Command>,
    /// Whether the binary output of an index is latched on.
    latched: [bool; PLACES],
}

impl Model for Performed {
    ghost use Rattle.dnp_controls.specs.steps.History.{History, IsLatchedBy};
    ghost use Rattle.std.specs.Prelude.{◌-◌, vec_len};
    ghost use Rattle.std.specs.Vec.{vec_capacity};

    ghost Value = { History };

    ghost view = { λ a. record { commands = a.commands.items; room = vec_capacity a.commands - vec_len a.commands } };

    ghost invariant = { λ a. IsLatchedBy a.latched a.commands.items };
}

impl Performed {
    /// Nothing was performed.
    pub fn new(alloc: Global) -> Self
        ensures { result.commands ≡ [] }
    {
        Performed {
            commands: Vec::new(alloc),
            latched: [false; PLACES],
        }
    }

    /// The commands, in order.
    pub fn commands(&self) -> &[Command]
        ensures { result.now ≡ self.now.commands }
    {
        self.commands.as_slice()
    }

    /// The flags octet of the binary output of this index.
    pub fn status(&self, index: u16) -> u8
        ensures { result ≡ status_of self.now.commands index }
    {
        shown(&self.latched, index)
    }

    /// Reserves room for this many commands more. An error says that it ran out of memory.
    pub fn reserve(&mut self, count: usize) -> Result<(), AllocError>
        ensures same { self.new.commands ≡ self.old.commands }
        ensures room { OnOk result (count ≤ self.new.room) }
        ensures full { OnErr result (self.old.room < count) }
    {
        self.commands.reserve(count)
    }

    /// Puts a command after the others. There must be room.
    pub fn perform(&mut self, command: Command)
        requires room { 0 < self.old.room }
        requires in_place { IsInPlace command }
        ensures commands { self.new.commands ≡ self.old.commands ++ command ∷ [] }
        ensures room { self.old.room ≤ self.new.room + 1 }
    {
        set_latch(&mut self.latched, command);
        let _ = self.commands.push(command);
    }
}
