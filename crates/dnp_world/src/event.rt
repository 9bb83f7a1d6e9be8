//! What can happen in a whole system, one event at a time.

ghost use Rattle.std.specs.Prelude.{◌≡◌, ◌≤◌, IfOk, length};

use crate::link_event::{End, Way};
use dnp_linkframe::MAX_UNIT;
use dnp_master::Task;
use dnp_objects::{Command, Kind};
use dnp_pointdb::Reading;
use std::alloc::{AllocError, Global};
use std::marker::Model;

/// A link of the system.
#[derive(Clone, Copy, Debug, PartialEq, Eq)]
pub enum Link {
    /// The one between the concentrator and the substation of this number.
    Below(u8),
    /// The one between the concentrator and the centre of this number, 0 or 1.
    Above(u8),
}

/// A station of the system.
#[derive(Clone, Copy, Debug, PartialEq, Eq)]
pub enum Place {
    /// The centre of this number, 0 or 1.
    Centre(u8),
    /// The concentrator.
    Concentrator,
    /// The substation of this number.
    Substation(u8),
}

/// What damage makes of a unit: at most `MAX_UNIT` octets. A clause sees them as their list.
#[derive(Debug, Drop)]
pub struct Damaged {
    /// The octets.
    octets: Vec<u8>,
}

impl Model for Damaged {
    ghost use Rattle.std.specs.Prelude.{◌≤◌, ℕ, List, length};
    ghost use Rattle.dnp_linkframe.specs.declared.frame.TheConstants.{MAX_UNIT};

    ghost Value = { List ℕ };

    ghost view = { λ damaged. damaged.octets.items };

    ghost invariant = { λ damaged. length damaged.octets.items ≤ MAX_UNIT };
}

impl Damaged {
    /// These octets. An error says that it ran out of memory.
    pub fn new(alloc: Global, octets: &[u8]) -> Result<Damaged, AllocError>
        requires { length octets.now ≤ MAX_UNIT }
        ensures { IfOk result (λ damaged. damaged ≡ octets.now) }
    {
        Ok(Damaged {
            octets: Vec::from_slice(alloc, octets)?,
        })
    }

    /// The octets.
    pub fn as_slice(&self) -> &[u8]
        ensures octets { result.now ≡ self.now }
        ensures few { length self.now ≤ MAX_UNIT }
    {
        self.octets.as_slice()
    }
}

/// An event of the system. One that names nothing in the plan, or no centre that there is, is refused by the station that it
/// asks, or finds an empty line does nothing.
#[derive(Debug, Drop)]
pub enum Event {
    /// Both lines of this link are cleared, both ports are reset, and both ends are opened.
    Open(Link),
    /// This end of this link hangs up: the line towards it is cleared, and its port is reset.
    HangUp(Link, End),
    /// The front unit of this way of this link comes to its end.
    Deliver(Link, Way),
    /// The front unit of this way of this link comes to its end, and stays on the line.
    Repeat(Link, Way),
    /// The front unit of this way of this link is lost.
    Lose(Link, Way),
    /// The octets of the front unit of this way of this link become these, so that it reads as no frame, and it is lost.
    /// Octets that read as a frame are no damage, and change nothing.
    Damage(Link, Way, Damaged),
    /// A substation reads a point.
    Change {
        /// The substation's number.
        substation: u8,
        /// The kind of the point.
        kind: Kind,
        /// The index of the point, that of the substation.
        index: u16,
        /// What is read.
        reading: Reading,
    },
    /// The master of this link asks a task. `Select` and `Operate`, which belong to whoever keeps the commands, are not
    /// asked.
    Ask(Link, Task),
    /// A command to an output or setpoint of a substation is issued at a centre.
    Issue {
        /// The centre's number.
        centre: u8,
        /// The substation's number.
        substation: u8,
        /// The command, with the index of the substation.
        command: Command,
    },
    /// Whoever keeps the commands for this link does the next step of one.
    Relay(Link),
    /// So many milliseconds pass.
    Pass(u64),
    /// This end of this link looks at its timers.
    Tick(Link, End),
    /// The device of this station starts again, and the station's ends hang up. The lanes of a substation are emptied;
    /// concentrator and centres keep what they store.
    Restart(Place),
}
