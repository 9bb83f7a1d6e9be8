//! The bits of a flags octet (IEEE Std 1815-2012, object library: quality flags of points). Bits
//! without a name here pass unchanged from a point to its rows.

/// The point is being read.
pub const ONLINE: u8 = 0x01;
/// The value has not been read since the device started.
pub const RESTART: u8 = 0x02;
/// The device that the value comes from can't be reached; it is the last one known.
pub const COMM_LOST: u8 = 0x04;
/// A device between forces the value.
pub const REMOTE_FORCED: u8 = 0x08;
/// The device itself forces the value.
pub const LOCAL_FORCED: u8 = 0x10;
/// Of a binary: it changes too often, and its changes are held back.
pub const CHATTER_FILTER: u8 = 0x20;
/// Of a binary: its value, on the wire alone and never in a row.
pub const STATE: u8 = 0x80;
/// Of an analog: the value is out of its range.
pub const OVER_RANGE: u8 = 0x20;
/// Of an analog: the reference that it was measured against is not right.
pub const REFERENCE_ERR: u8 = 0x40;
