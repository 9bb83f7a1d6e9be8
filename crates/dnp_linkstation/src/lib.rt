//! A link station of DNP3 (IEEE Std 1815-2012, data link layer): what it answers to a frame of its peer,
//! which user data go up, and the frames in which it sends user data.
#![tactic(auto)]

mod control;
mod function;
pub mod laws;
mod station;

pub use function::{PrimaryFunction, SecondaryFunction};
pub use station::{LinkAnswer, LinkStation};
