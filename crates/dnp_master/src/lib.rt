//! A master of DNP3 (IEEE Std 1815-2012, application layer: the master's side of a transaction): what it
//! asks, what it takes of what comes, and what it confirms.
#![tactic(auto)]

mod actions;
mod fault;
mod gathering;
mod known;
pub mod laws;
mod master;
mod outcome;
mod receiving;
mod request;
mod requesting;
mod taking;
mod task;

pub use actions::{Followed, MasterActions};
pub use dnp_eventbuf::Rows;
pub use fault::{AskFault, MasterFault};
pub use master::Master;
pub use outcome::Outcome;
pub use requesting::Fragment;
pub use taking::SeenFragment;
pub use task::{Classes, Task};
