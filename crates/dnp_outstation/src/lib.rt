//! An outstation of DNP3 (IEEE Std 1815-2012, application layer): what it answers, and when.
#![tactic(auto)]

mod actions;
mod answer;
mod basis;
mod case;
mod change;
mod confirm;
mod connection;
mod control;
mod controls;
mod delay;
mod ending;
mod execute;
mod fault;
mod fault_from;
mod held;
mod indications;
mod kept;
pub mod lane_laws;
pub mod laws;
pub mod link_laws;
mod moments;
mod offer;
pub mod offer_laws;
mod outstation;
mod outstation_core;
pub mod poll_laws;
mod receive;
mod released;
mod request;
mod rows;
mod sending;
mod sequence;
mod session;
pub mod timer_laws;
mod timers;
mod unsolicited;

pub use actions::Actions;
pub use fault::Fault;
pub use kept::Fragment;
pub use outstation::Outstation;
pub use outstation_core::OutstationCore;
pub use rows::Rows;
