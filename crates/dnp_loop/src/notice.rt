//! What the loop tells of connections, beside what its node reports.

ghost use Rattle.std.specs.Prelude.{◌≡◌, ◌≤◌, [], vec_len};
ghost use Rattle.dnp_loop.specs.declared.notice.TheConstants.{MAX_NOTICES};

use crate::fault::Fault;
use dnp_nodes::Slot;
use std::alloc::Global;
use std::net::SocketAddr;

/// What has happened to the connection of a slot.
#[derive(Clone, Copy, Debug, PartialEq, Eq)]
pub enum Notice {
    /// One is being made to this address.
    Connecting(Slot, SocketAddr),
    /// One came from this address, in place of any other.
    Accepted(Slot, SocketAddr),
    /// One did not come about.
    Unmade(Slot, Fault),
    /// The other end has closed it.
    Closed(Slot),
    /// It broke.
    Broken(Slot, Fault),
    /// No descriptor was left, so the newest connection was refused.
    Refused(Slot),
    /// None can be accepted. It is tried again after a second.
    Unaccepted(Slot, Fault),
}

/// How many notices are kept until they are taken.
pub const MAX_NOTICES: usize = 1_024;

/// What the loop has told, in order, until it is taken.
#[derive(Drop)]
pub struct Notices {
    /// In order.
    list: Vec<Notice>,
    /// How many more there were, for which there was no room or no memory.
    missed: u64,
    ghost bounded: { vec_len list ≤ MAX_NOTICES },
}

impl Notices {
    ghost use Rattle.dnp_loop.specs.Notices.{IsTold, Stands, missed_of, told_of};

    /// Nothing was told.
    pub fn new(alloc: Global) -> Notices
        ensures { Stands result [] 0 }
    {
        Notices {
            list: Vec::new(alloc),
            missed: 0,
        }
    }

    /// Tells this, or counts it if there is no room for it.
    pub(crate) fn tell(&mut self, notice: Notice)
        ensures { IsTold self.old notice self.new }
    {
        if self.list.len() < MAX_NOTICES && self.list.push(notice).is_ok() {
            return;
        }
        self.missed = self.missed.saturating_add(1);
    }

    /// Gives what was told, in order.
    pub fn as_slice(&self) -> &[Notice]
        ensures { result.now ≡ told_of self.now }
    {
        &self.list
    }

    /// Gives how many more there were, for which there was no room or no memory.
    pub fn missed(&self) -> u64
        ensures { result ≡ missed_of self.now }
    {
        self.missed
    }

    /// What was told was taken.
    pub fn clear(&mut self)
        ensures { Stands self.new [] 0 }
    {
        self.list.clear();
        self.missed = 0;
    }
}
