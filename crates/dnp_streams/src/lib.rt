//! Stations of DNP3 (IEEE Std 1815-2012) on lines of octets, on links and on streams: `answer_line` answers one line of
//! hexadecimal octets; a `Link` is fed octets and moments and gives octets; `serve_stream` serves a stream of octets by a
//! station, and `ask_stream` asks tasks on one.
#![tactic(auto)]

mod address;
mod answer;
mod input;
pub mod laws;
mod link;
mod octets;
mod said;
mod station;
mod stream;
mod text;
mod units;
mod writing;

pub use address::{MAX_ADDRESS, read_address};
pub use answer::{AnswerFault, answer_line};
pub use input::{MAX_INPUT, read_text};
pub use link::{Heard, Link, MAX_OUTPUT, MAX_STEP, Stage, StepRoom, Told};
pub use octets::{MAX_CHARACTERS, digit_of, octet_of};
pub use stream::{
    Above, Answer, Asked, Asker, Below, Change, KeptAnswer, Living, Log, ServeFault, Served,
    Station, StationFault, ask_noted, ask_stream, serve_noted, serve_stream,
};
pub use text::{TextFault, text_fault};
pub use writing::{NotWritten, write_out};
