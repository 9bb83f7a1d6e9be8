//! The exit statuses that all subcommands share.

/// The command did what was asked.
pub const DONE: u8 = 0;
/// The input was read and refused.
pub const REFUSED: u8 = 1;
/// The command line is wrong, and nothing was read.
pub const USAGE: u8 = 2;
/// The program itself failed: memory, a read or a write.
pub const FAULT: u8 = 3;
