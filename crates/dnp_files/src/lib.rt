//! A concentrator and a centre over stores in files (SQL databases), from the opening of their two files to the closing: which
//! file is taken, made or refused, what is looked at of what stands there, and what each does over TCP.
#![tactic(auto)]

mod accounts;
mod asked;
mod centre;
mod centre_run;
mod concentrator;
mod connection;
mod driving;
mod files;
mod gate;
mod guest;
pub mod lines;
mod links;
mod making;
mod node_runs;
mod planned;
mod polls;
mod refused;
mod rounds;
mod seat;
mod seats;
mod sites;
mod tones;
mod visitor;
mod voice;

pub use centre::{CentreWords, run_centre};
pub use concentrator::{ConcentratorWords, run_concentrator};
pub use driving::{Driving, Drivings, wait_for_slowest};
pub use files::StoreFile;
pub use planned::has_output;
pub use polls::PollPace;
pub use rounds::RoundPace;
pub use sites::{Served, Substations, Target, ends_from_centre, ends_to_centre, port_here};
