//! Stations on streams of octets: what comes is read to its end, and what the station answers is written.

mod above;
mod agenda;
mod ask;
mod asked;
mod asker;
mod below;
mod centre;
mod change;
mod dialogue;
mod kept;
mod living;
mod living_above;
mod living_below;
mod living_centre;
mod living_outstation;
mod log;
mod master;
mod outstation;
mod sending;
mod serve;
mod served;
mod station;

pub use above::Above;
pub use ask::{ask_noted, ask_stream};
pub use asked::Asked;
pub use asker::Asker;
pub use below::Below;
pub use change::Change;
pub use kept::KeptAnswer;
pub use living::Living;
pub use log::Log;
pub use serve::{ServeFault, serve_noted, serve_stream};
pub use served::Served;
pub use station::{Answer, Station, StationFault};
