//! Sessions of DNP3 (IEEE Std 1815-2012): a `Session` owns a station and its link. It keeps the order of their steps, and the
//! history of all that came and was handed out.
#![tactic(auto)]

mod history;
mod session;

pub use dnp_streams::Stage;
pub use session::Session;
