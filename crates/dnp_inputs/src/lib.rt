//! What the words of `dnp` name: the files of plans, networks, scripts and replays, read whole, and the hosts of a network, looked
//! up. What can't be read or is refused is said here, with its exit status. Also what people call stations and points, as a
//! network's files say it, in logs and behind rows.
#![tactic(auto)]

mod called;
mod hosts;
mod inputs;
mod meant;
mod named;
pub mod network_file;
pub mod plan_file;
mod replay;
mod scripts;
mod toml_faults;

pub use called::names_of;
pub use hosts::{Sought, address_found, taken_by};
pub use inputs::octets_of;
pub use meant::say_meant;
pub use named::{COLUMNS, PointTexts};
pub use replay::replay_given;
pub use scripts::{Texts, explain, read_texts, say_stop};
