//! The transport function of DNP3 (IEEE Std 1815-2012): cuts a fragment into segments, and joins segments to fragments.
#![tactic(auto)]

mod assembler;
mod cutting;
mod header;
pub mod laws;
mod limits;

pub use assembler::{Assembler, Pushed};
pub use cutting::{segment, segment_count};
pub use limits::{MAX_FRAGMENT, MAX_SEGMENT, SEGMENT_DATA, SEGMENT_NUMBERS};
