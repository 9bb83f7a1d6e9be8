//! Rows that left the lanes.

pub use dnp_eventbuf::Rows;
