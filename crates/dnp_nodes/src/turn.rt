//! What a step of a link leaves to be done.

use crate::slot::Closing;

/// What a step of a link leaves to be done.
#[derive(Clone, Copy, Debug, PartialEq, Eq)]
pub(crate) enum Turn {
    /// Something was done, and there may be more.
    Made,
    /// The connection has to end.
    Over(Closing),
}
