//! A network of nodes in virtual time: substations, a concentrator and two centres over connections that are simulated. By a seed
//! readings change, commands are issued, and connections, processes and clocks fail. What the nodes recorded is compared with what
//! was done.
#![tactic(auto)]

mod ages;
mod auditing;
mod breaking;
mod controls;
mod decimal;
mod disk;
mod fate;
mod faults;
mod figures;
mod flights;
mod happening;
mod images;
mod journals;
mod killing;
mod known;
mod ledger;
mod link;
mod lists;
mod making;
mod network;
mod nodes;
mod picture;
mod points;
mod polled;
mod process;
mod programs;
mod random;
mod record;
mod report;
mod requests;
mod restarts;
mod running;
mod runs;
mod said;
mod settings;
mod stations;
mod stores;
mod tally;
mod violation;
mod watching;
mod wire;

pub use decimal::read_decimal;
pub use faults::{FAULTS, Fault, FaultRates, MAX_RATE, names_disks, read_faults};
pub use figures::{Figure, Figures};
pub use making::usual_polling;
pub use nodes::{LaneCount, Nodes, Taken, Told};
pub use picture::Sample;
pub use polled::{Layout, LinkPolling, Pollings};
pub use process::{Process, Way};
pub use report::Outcome;
pub use restarts::{Again, Beginning, Return};
pub use runs::{PlainNodes, simulate, simulate_over};
pub use settings::{SETTLE_MS, Settings};
pub use stores::StoreKind;
pub use violation::{Seen, Violation};
pub use wire::End;
