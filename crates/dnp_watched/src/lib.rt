//! A run of a script on a system of its plan, watched unit by unit, for the trace, the chart and the capture of `dnp sim`.
#![tactic(auto)]

mod texts;
mod watched;

pub use texts::{Refused, seen};
