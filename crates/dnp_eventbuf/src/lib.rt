//! Event lanes of DNP3 (IEEE Std 1815-2012, application layer: event classes and event buffers): nine
//! numbered lists of rows that wait to be reported, and that count what they drop.
#![tactic(auto)]

mod arriving;
mod carried;
mod in_order;
mod journal;
pub mod journal_laws;
mod lane_of;
mod lanes;
pub mod laws;
pub mod link_laws;
mod nine;
mod nine_steps;
mod numbered;
mod one_lane;
mod pair;
mod plain;
mod plain_journal;
mod plain_lane;
mod plain_pair;
mod restore;
mod ring;
mod ring_lane;
mod rows;
mod side;
mod sink;
mod tally;

pub use carried::is_carried;
pub use dnp_objects::{Lane, LaneRow, StoreFault};
pub use journal::JournalStore;
pub use lanes::Lanes;
pub use numbered::{Numbered, Upto};
pub use pair::{CENTRES, PairLanes};
pub use plain::{MAX_CAPACITY, PlainLanes};
pub use plain_journal::PlainJournal;
pub use plain_pair::PlainPair;
pub use ring::RingLanes;
pub use rows::Rows;
pub use side::Side;
pub use sink::Sink;
