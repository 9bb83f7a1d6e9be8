//! The CONTROL octet of a link frame (IEEE Std 1815-2012, data link layer): its bits, and its function below them.

/// DIR: the frame comes from the master.
pub(crate) const DIR: u8 = 7;

/// PRM: the frame asks something, and is no reply.
pub(crate) const PRM: u8 = 6;

/// FCB, the frame count bit.
pub(crate) const FCB: u8 = 5;

/// How many numbers a function may have: it is in the low four bits.
pub(crate) const FUNCTIONS: u8 = 16;
