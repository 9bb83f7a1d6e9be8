//! One loop over non-blocking sockets on which a node of DNP3 stations runs ([`dnp_nodes::Node`]), in one thread. It moves octets
//! between sockets and the slots of the node, and calls the node if octets came or its moment has come. It looks into no octets, and
//! waits for nobody but the system's next report. What a turn does is decided by values without sockets: [`State`] and [`wait_ms`].
#![tactic(auto)]

mod accepting;
mod clock;
mod door;
mod fault;
mod handler;
mod log_buffer;
mod log_writer;
mod moving;
mod node_loop;
mod notice;
mod place;
mod places;
mod state;
mod token;
mod waiting;

pub use clock::moment;
pub use fault::Fault;
pub use handler::Handler;
pub use log_buffer::{LogBuffer, MAX_LOG, PIECE};
pub use log_writer::StandardError;
pub use node_loop::NodeLoop;
pub use notice::{MAX_NOTICES, Notice, Notices};
pub use state::{Action, Stage, State};
pub use waiting::{LEAST_MS, MOST_MS, wait_ms};
