//! What a program does between two turns of the loop.

use crate::log_buffer::LogBuffer;
use crate::notice::Notices;

/// What a program does between two turns of the loop: it says what has happened, and gives orders to the node.
pub trait Handler<N> {
    /// Takes what the node and the loop have told, and gives orders. What it has taken of the node's reports it clears. Its lines go into
    /// the log, which the loop writes to standard error as that takes them. Gives the moment at which it is to be called again at the
    /// latest, in milliseconds; without one the loop ends.
    fn handle(
        &mut self,
        node: &mut N,
        notices: &Notices,
        log: &mut LogBuffer,
        now: u64,
    ) -> Option<u64>;
}
