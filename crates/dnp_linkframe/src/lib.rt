//! Link frames of DNP3 (IEEE Std 1815-2012, data link layer): their check word, their spelling in
//! octets, reading them back with the first fault of a fixed order, and finding them in a stream of
//! octets that comes in pieces.
#![tactic(auto)]

mod check;
mod frame;
pub mod laws;
mod reader;
mod reading;
mod stream;
mod table;
mod writing;

pub use check::check_word;
pub use frame::{Frame, FrameFault, MAX_UNIT, MAX_USER_DATA};
pub use reader::FrameReader;
pub use reading::{read_frame, read_frame_into};
pub use writing::{write_frame, write_frame_into};
