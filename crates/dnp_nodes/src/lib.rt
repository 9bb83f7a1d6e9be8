//! Nodes: the whole of what a program of DNP3 stations decides (IEEE Std 1815-2012), as one value without sockets and clocks. A node is
//! told what came on its connections and what time it is, and says which connections it wants, which octets are to be sent, what has
//! happened, and when it is to be called again. A [`Caller`] is a master's side of one link, and a [`Callee`] an outstation's.
#![tactic(auto)]

mod answers;
mod budgets;
mod callee;
mod caller;
mod centre_node;
mod concentrator_node;
mod drops;
mod frames;
mod heads;
mod kept;
mod node;
mod outstation_node;
mod report;
mod requests;
mod shared;
mod slot;
mod turn;

pub use answers::Answer;
pub use callee::{Callee, CalleePlan, ChangeFault};
pub use caller::{Caller, CallerPlan};
pub use centre_node::CentreNode;
pub use concentrator_node::{AbovePlan, BelowPlan, ConcentratorNode};
pub use drops::LaneDrops;
pub use heads::Head;
pub use node::Node;
pub use outstation_node::OutstationNode;
pub use report::{MAX_REPORTS, Report, Reports};
pub use requests::{LinkClasses, task_of};
pub use shared::Shared;
pub use slot::{Closing, Ends, Slot, Want, Wanted};
