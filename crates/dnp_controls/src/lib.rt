//! Controls of DNP3 (IEEE Std 1815-2012, application layer: SELECT, OPERATE, DIRECT OPERATE): the select
//! that an OPERATE needs, outputs that perform commands, and the book in which commands to be sent on
//! stand until they are finished.
#![tactic(auto)]

mod book;
mod code;
mod latest;
mod latest_outputs;
pub mod laws;
mod limits;
mod listing;
mod outputs;
mod performed;
mod plain_book;
mod plain_outputs;
mod select;
mod states;

pub use book::{Book, BookFault, Entry, State};
pub use code::{Operation, obeys_code_rule};
pub use latest_outputs::LatestOutputs;
pub use limits::{MAX_COMMANDS, MAX_OUTPUTS, SEQUENCE_NUMBERS, TARGETS};
pub use outputs::{NoOutputs, Outputs};
pub use plain_book::PlainBook;
pub use plain_outputs::PlainOutputs;
pub use select::{MAX_OCTETS, Selects};
