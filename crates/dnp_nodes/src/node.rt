//! What a loop needs of a node.

use crate::report::Report;
use crate::slot::{Closing, Slot, Wanted};

/// A node, as a loop over sockets or a simulation runs it. Moments are in milliseconds, and don't fall. After each call the loop asks for
/// what the node wants, what is to be sent and when it is to be called again.
pub trait Node {
    /// A connection was made.
    fn connected(&mut self, slot: Slot, now: u64);

    /// Octets came on it.
    fn received(&mut self, slot: Slot, now: u64, octets: &[u8]);

    /// The first `count` of the octets that wait there were taken.
    fn sent(&mut self, slot: Slot, now: u64, count: usize);

    /// The connection ended, or did not come about.
    fn closed(&mut self, slot: Slot, now: u64, cause: Closing);

    /// Time has passed.
    fn tick(&mut self, now: u64);

    /// Gives the moment at which it is to be called again, at the latest.
    fn next_deadline(&self) -> u64;

    /// Gives what it wants next, each want once.
    fn next_want(&mut self) -> Option<Wanted>;

    /// Gives the octets that wait to be sent there.
    fn output(&self, slot: Slot) -> &[u8];

    /// Gives what has happened, in order, since it was taken last.
    fn reports(&self) -> &[Report];

    /// Gives how many more reports there were, for which there was no room or no memory.
    fn missed(&self) -> u64;

    /// Gives the octets of the fragments that were refused, one after the other, in the order in which that was told.
    fn refused(&self) -> &[u8];

    /// What has happened was taken.
    fn clear_reports(&mut self);
}
