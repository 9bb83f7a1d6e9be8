//! Objects of DNP3 (IEEE Std 1815-2012, object library): readings, commands and their status
//! octets, how they stand in octets, and how often a thing stands in a list.
#![tactic(auto)]

pub mod command;
mod controls;
mod event;
mod fault;
pub mod flags;
mod lane;
pub mod laws;
mod limits;
mod reading;
mod relative;
pub mod row;
mod said;
pub mod status;
mod store;
mod table;
mod words;
mod writing;

pub use command::Command;
pub use controls::{read_command, write_command};
pub use event::{append_event, event_object, event_octets, event_size, is_event};
pub use fault::ObjectFault;
pub use lane::{Lane, LaneRow};
pub use limits::{CLASSES, KINDS, LANES, MAX_FRAGMENT, MAX_ID, MAX_RELATIVE, MAX_TIME};
pub use reading::read_row;
pub use relative::{append_relative, fits_relative, read_relative, write_relative};
pub use row::{Kind, Row};
pub use status::Status;
pub use store::StoreFault;
pub use table::{Shape, carries_row, object_size, row_shape};
pub use writing::{append_object, fits_object, object_octets, write_row};
