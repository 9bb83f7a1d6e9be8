//! The commands of a request.

ghost use Rattle.std.specs.Prelude.{◌≡◌, ◌≤◌, ◌<◌, [], ◌∷◌, ◌++◌, IsTrue, false, length};
ghost use Rattle.dnp_appfragment.specs.Seen.{head};
ghost use Rattle.dnp_outstation.specs.Controls.{commands_in, commands_of};
ghost use Rattle.dnp_outstation.specs.steps.Deciding.{told_of, few_of};

use crate::controls::told::Statuses;
use dnp_appfragment::{Header, Headers};
use dnp_controls::MAX_COMMANDS;
use dnp_objects::{Command, Status};
use std::marker::Model;

/// What stands where no command does.
const NO_COMMAND: Command = Command::Set16 { index: 0, value: 0 };

/// At most `MAX_COMMANDS` commands, in order.
#[derive(Drop)]
pub(crate) struct Commands {
    all: [Command; MAX_COMMANDS],
    len: usize,
}

impl Model for Commands {
    ghost use Rattle.std.specs.Prelude.{◌≤◌, List, take};
    ghost use Rattle.dnp_objects.specs.declared.command.Command.{Command};
    ghost use Rattle.dnp_controls.specs.declared.limits.TheConstants.{MAX_COMMANDS};

    ghost Value = { List Command };

    ghost view = { λ c. take c.len c.all };

    ghost invariant = { λ c. c.len ≤ MAX_COMMANDS };
}

impl Commands {
    /// No commands.
    pub(crate) fn new() -> Commands
        ensures { result ≡ [] }
    {
        Commands {
            all: [NO_COMMAND; MAX_COMMANDS],
            len: 0,
        }
    }

    /// The commands.
    pub(crate) fn as_slice(&self) -> &[Command]
        ensures { result.now ≡ self.now }
    {
        &self.all[..self.len]
    }

    /// Takes all of them away.
    pub(crate) fn clear(&mut self)
        ensures { self.new ≡ [] }
    {
        self.len = 0;
    }

    /// How many there are.
    fn len(&self) -> usize
        ensures { result ≡ length self.now }
    {
        self.as_slice().len()
    }

    /// Appends a command, for which there has to be room.
    fn push(&mut self, command: Command)
        requires { length self.old < MAX_COMMANDS }
        ensures { self.new ≡ self.old ++ command ∷ [] }
    {
        self.all[self.len] = command;
        self.len += 1;
    }

    /// Appends the commands of a header, as long as there are no more than `most`; answers whether all were.
    fn append(&mut self, most: usize, header: &Header<'_>) -> bool
        requires most { most ≤ MAX_COMMANDS }
        requires few { length self.old ≤ most }
        ensures few { IsTrue result → length self.new ≤ most }
        ensures all { IsTrue result → self.new ≡ self.old ++ commands_of (head header.now) }
        ensures many { result ≡ false → most < length (self.old ++ commands_of (head header.now)) }
    {
        for k in 0..header.count() {
            if let Some((command, _)) = header.command(k) {
                if self.len() == most {
                    return false;
                }
                self.push(command);
            }
        }
        true
    }

    /// Takes the commands of these headers in place of those that were there, or none where they are more
    /// than `most`; answers what they are told.
    pub(crate) fn gather(&mut self, most: usize, headers: Headers<'_>) -> Statuses
        requires { most ≤ MAX_COMMANDS }
        ensures told { result ≡ told_of most (commands_in headers.entry.headers) }
        ensures commands { self.new ≡ few_of most (commands_in headers.entry.headers) }
    {
        self.clear();
        for header in headers {
            if !self.append(most, &header) {
                self.clear();
                return Statuses::Alike(Status::TOO_MANY_OBJS);
            }
        }
        Statuses::Checked
    }
}
