//! Link frames, and why octets are none.

ghost use Rattle.std.specs.Prelude.{◌≡◌, []};

use arrayvec::ArrayVec;
use thiserror::Error;

/// The most octets of user data that a link frame carries: LENGTH is one octet, and counts 5 others too (IEEE Std
/// 1815-2012, data link layer).
pub const MAX_USER_DATA: usize = 250;

/// The most octets of a unit, as those of a link frame are called: the header, the most user data, and their check
/// words (IEEE Std 1815-2012, data link layer).
pub const MAX_UNIT: usize = 292;

/// The octets of the header with its check word.
pub(crate) const CHECKED_HEADER: usize = 10;

/// User data go in blocks of this size, the last one of what is left.
pub(crate) const BLOCK: usize = 16;

/// The octets of a whole block with its check word.
pub(crate) const CHECKED_BLOCK: usize = 18;

/// What LENGTH counts beside the user data: CONTROL and both addresses.
pub(crate) const LENGTH_OF_NONE: u8 = 5;

/// A link frame (IEEE Std 1815-2012, data link layer), without its start, its LENGTH and its check
/// words, which follow from the rest.
#[derive(Debug, PartialEq, Eq, Drop)]
pub struct Frame {
    /// The CONTROL octet: bit 7 DIR, bit 6 PRM, bit 5 FCB, bit 4 FCV or DFC, bits 3 to 0 function.
    pub control: u8,
    /// The address of the station that the frame is for.
    pub dest: u16,
    /// The address of the station that sent it.
    pub source: u16,
    /// The user data.
    pub user: ArrayVec<u8, MAX_USER_DATA>,
}

impl Frame {
    /// A frame to be filled: all zeros, and no user data.
    pub fn blank() -> Self
        ensures { result.user.items ≡ [] }
    {
        Frame {
            control: 0,
            dest: 0,
            source: 0,
            user: ArrayVec::new(),
        }
    }
}

/// Why a unit of octets is no link frame. The variants are in the order in which they are checked,
/// and the first that fits is answered.
#[derive(Clone, Copy, Debug, PartialEq, Eq, Error)]
pub enum FrameFault {
    #[error("fewer than 10 octets")]
    Short,
    #[error("the first two octets are not 05 64")]
    Start,
    #[error("the check word of the header is wrong")]
    HeaderCheck,
    #[error("LENGTH is under 5")]
    Length,
    #[error("another number of octets than LENGTH says")]
    Size,
    /// The first block of user data, counted from 0, whose check word is wrong.
    #[error("the check word of block {0} is wrong")]
    BlockCheck(usize),
}
