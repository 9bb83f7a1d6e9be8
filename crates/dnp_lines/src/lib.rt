//! The lines that the program `dnp` says by itself, beside the help texts, what `clap` says, and the rows, tables and reports that it
//! prints. Their texts stand in `said.rt`, and each is printed once in `dnp_log_tests`. They say nothing of their own accord: a
//! program prints them.
#![tactic(auto)]

mod input;
mod running;
mod said;
mod wrong;

pub use input::{
    AtLine, AtOctet, Given, Line, Meant, Misfit, NotToml, Of, Own, Refused, Starved, TextPlace,
};
pub use running::{Begun, Doing, Found, LookedUp, SentCode, Version, Whose};
pub use said::{NETWORK, WIRE, tip_of};
pub use wrong::{Apart, Misuse, Untaken, Wanted, Wrong};
