//! What can happen on a link, one event at a time.

use arrayvec::ArrayVec;
use dnp_linkframe::MAX_UNIT;
use dnp_master::Task;
use dnp_objects::Kind;
use dnp_pointdb::Reading;

/// An end of a link.
#[derive(Clone, Copy, Debug, PartialEq, Eq)]
pub enum End {
    /// The master's.
    Master,
    /// The outstation's.
    Outstation,
}

/// A way of a link.
#[derive(Clone, Copy, Debug, PartialEq, Eq)]
pub enum Way {
    /// To the outstation.
    Down,
    /// To the master.
    Up,
}

/// An event of a link.
#[derive(Debug, Drop)]
pub enum LinkEvent {
    /// Both lines are cleared, both ports are reset, and both ends are opened.
    Open,
    /// This end hangs up: the line towards it is cleared, and its port is reset.
    HangUp(End),
    /// The front unit of this way comes to its end.
    Deliver(Way),
    /// The front unit of this way comes to its end, and stays on the line.
    Repeat(Way),
    /// The front unit of this way is lost.
    Lose(Way),
    /// The octets of the front unit of this way become these, so that it reads as no frame, and it is lost. Octets that
    /// read as a frame are no damage, and change nothing.
    Damage(Way, ArrayVec<u8, MAX_UNIT>),
    /// The outstation reads a point.
    Change {
        /// The kind of the point.
        kind: Kind,
        /// The index of the point.
        index: u16,
        /// What is read.
        reading: Reading,
    },
    /// The master asks a task. `Select` and `Operate`, which belong to whoever keeps the commands, are not asked.
    Ask(Task),
    /// So many milliseconds pass.
    Pass(u64),
    /// This end looks at its timers.
    Tick(End),
    /// The device of this end starts again, and the end hangs up. The outstation's lanes are emptied.
    Restart(End),
}
