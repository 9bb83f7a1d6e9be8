//! The middle and the top of a path of DNP3 stations (IEEE Std 1815-2012): a concentrator that polls
//! substations and hands their events on to two centres, and a centre that polls it, keeps a journal and issues controls;
//! the plan of the whole system, and the index map between the substations and the station above them.
#![tactic(auto)]

pub mod addresses;
mod below;
mod book_outputs;
mod cause;
mod centre;
mod concentrator;
mod fault;
mod index_kind;
mod index_map;
mod issue;
pub mod laws;
mod limits;
mod links;
mod listed;
mod mapped;
mod order;
mod per_centre;
mod plan;
mod points_above;
mod progress;
mod readings;
mod receiving;
mod receiving_above;
mod receiving_below;
mod relay;
pub mod relay_laws;
mod relayed;
mod relaying_below;
mod reserving;
pub mod reserving_laws;
pub mod restart_laws;
mod said;
mod span;
mod substation_points;

pub use book_outputs::BookOutputs;
pub use cause::Cause;
pub use centre::Centre;
pub use concentrator::Concentrator;
pub use fault::MapFault;
pub use index_kind::IndexKind;
pub use index_map::IndexMap;
pub use issue::IssueFault;
pub use limits::{COMMANDS_AT_ONCE, INDEX_KINDS, MAX_RETRIES, MAX_SUBSTATIONS, MAX_TIMER_MS};
pub use listed::Listed;
pub use mapped::queued_rows;
pub use per_centre::PerCentre;
pub use plan::{Plan, SubPlan};
pub use relayed::{Relayed, RelayedStep};
pub use span::{Span, Spans};
