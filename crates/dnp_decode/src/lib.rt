//! Octets of DNP3 (IEEE Std 1815-2012) decoded for people: a line for each link frame, transport segment, fragment,
//! object header and object of a stream, and for each thing in it that is refused.
#![tactic(auto)]

mod bits;
mod decoding;
mod fragment;
mod hearing;
mod json;
mod line;
mod names;
mod ports;
mod shown;
mod stream;
mod time;

pub use bits::{FlagNames, FlagsOf, IinNames, flag_name, indication_name};
pub use decoding::decode;
pub use fragment::{object_line, refused_place};
pub use json::Members;
pub use line::Line;
pub use names::fault_name;
pub use time::Moment;
