//! The line between two stations of DNP3, and the ports at its ends: octets that keep their order, may come more than
//! once and may be lost, and fragments that are cut into them and joined from them. What comes out is what went in, in
//! order: [`laws`] says it of every run.
#![tactic(auto)]

pub mod laws;
mod line;
mod port;
pub mod way;

pub use line::{BROKEN_LOSSES, Line};
pub use port::{Port, Taken};
