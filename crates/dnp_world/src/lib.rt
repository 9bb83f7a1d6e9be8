//! The whole system of DNP3 stations and what holds of it. It begins with the law of one link between an outstation
//! and its master, [`laws`], with what the calls of an outstation and of a master are to their link,
//! [`outstation_laws`] and [`master_laws`], and with one link by itself, [`OneLink`], of which the law holds,
//! [`joined_laws`].
#![tactic(auto)]

pub mod arrival_laws;
pub mod arriving_laws;
mod carrier;
pub mod centre_laws;
mod channel;
pub mod control_laws;
mod ends;
mod event;
pub mod happened_laws;
pub mod headline_laws;
mod history;
pub mod joined_laws;
pub mod laws;
mod link_event;
mod listing;
pub mod master_laws;
pub mod movement_laws;
mod new_substations;
mod one_link;
pub mod opening_laws;
pub mod outstation_laws;
mod parts;
pub mod planned_laws;
mod reading;
pub mod relay_laws;
mod report;
mod room;
mod round_fault;
mod said;
mod sending;
pub mod settled_laws;
pub mod standing_laws;
mod stopped;
pub mod stopped_laws;
mod stored;
mod substation;
mod substation_list;
pub mod system_laws;
mod world;

pub use carrier::{Carrier, InMemory};
pub use dnp_concentrator::Cause;
pub use event::{Damaged, Event, Link, Place};
pub use link_event::{End, LinkEvent, Way};
pub use one_link::OneLink;
pub use report::Report;
pub use round_fault::{ControlFault, RoundFault};
pub use stopped::Stopped;
pub use stored::Stored;
pub use world::World;
