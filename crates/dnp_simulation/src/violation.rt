//! What must not be.

use crate::process::{Process, Way};
use crate::wire::End;
use dnp_nodes::Closing;
use dnp_objects::Kind;

/// What must not be, and was.
#[derive(Clone, Copy)]
pub enum Violation {
    /// A centre's journal has a row that tells no event: the centre, the row's kind, index and time.
    Invented(u8, Kind, u16, Option<u64>),
    /// Events of a lane are neither in a centre's journal, nor wait anywhere, nor are they counted as lost: so many.
    Unseen(u8, usize, u64),
    /// Events still wait for a centre at the end, though nothing fails any more: so many.
    Waiting(u8, u64),
    /// A command of this number was performed again.
    Twice(usize),
    /// An output has performed what was not issued for it: the substation, the command's number.
    Unordered(u8, usize),
    /// The concentrator's book says another thing of the command of this number than its output has performed.
    Misreported(usize),
    /// A point shows ONLINE above though its link has been silent for too long: the substation, the kind, the index there.
    Online(u8, Kind, u16),
    /// A point above has another value or other flags at the end than the substation has.
    Stale(u8, Kind, u16),
    /// Octets of a former connection go out on a new one.
    Former(Way, End),
    /// The command of this number waits at the end in a book, though nothing fails any more.
    Undone(usize),
    /// A control is selected again on one connection: its number in the book.
    Reselected(Way, u64),
    /// A control is operated that was not selected on this connection.
    Unselected(Way, u64),
    /// Something is asked while a control is in progress.
    Disturbed(Way, u64),
    /// A poll has the octets of the request before it.
    Repeated(Way),
    /// A substation refused a control on a connection that no fault has touched: the number in the book, the status.
    Refused(Way, u64, u8),
    /// A connection ended that no fault has touched.
    Unprovoked(Way, Closing),
    /// A fragment was refused on a connection that no fault has touched.
    Misheard(Way),
    /// A node wants to be called at once, again and again.
    Restless(Process),
    /// A link isn't there at the end, though nothing fails any more.
    Down(Way),
    /// A store of a process has failed, though its disk has not.
    Failed(Process),
    /// A store of a process does not open over what its disk has kept.
    Spoilt(Process),
    /// A control in the book of a process was spent or finished, and is so no longer after a restart: its number there.
    Revived(Process, u64),
    /// The command of this number is no longer in the book of the centre that issued it.
    Forgotten(usize),
}

/// A violation and its moment, in milliseconds.
#[derive(Clone, Copy)]
pub struct Seen {
    /// When it was seen.
    pub at: u64,
    /// What it is.
    pub violation: Violation,
}
