//! What a person at a terminal is shown beside the texts: colours, and how far a long work is. It knows no text of a program. What leads
//! to no terminal gets the texts alone, without an escape.
#![tactic(auto)]

mod meter;
mod painted;
mod progress;
mod screen;
mod tone;

pub use meter::Meter;
pub use painted::Painted;
pub use progress::{Progress, QUIET_MS, STEP_MS, percent_of};
pub use screen::{ERASE_BELOW, ERASE_LINE, Screen, Terminal, Up};
pub use tone::{RESET, Tone, Toned};
