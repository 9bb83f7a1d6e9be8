//! What goes over the lines of a system, unit by unit, to be looked at: noted in a [`Log`] as it happens, and written as
//! lines of text ([`trace_text`]), as a sequence chart ([`chart_text`]) and as a capture ([`capture_octets`]). And a report
//! as JSON ([`report_json`]). What is noted and what is written of it are stated functions; of a chart the head and the end
//! are, and what is drawn between them is tested.
#![tactic(auto)]

mod capture;
mod chart;
mod columns;
mod json;
pub mod laws;
mod log;
mod noted;
mod packet;
mod phrase;
mod sheet;
mod svg;
mod trace;

pub use capture::capture_octets;
pub use chart::chart_text;
pub use json::report_json;
pub use log::Log;
pub use noted::{Course, Peer, What};
pub use trace::trace_text;
