//! Application fragments of DNP3 (IEEE Std 1815-2012, application layer): control octet, function,
//! internal indications, and object headers with their objects, read without copying.
#![tactic(auto)]

mod builder;
mod checked;
mod common;
mod control;
mod fault;
mod fragments;
mod function;
mod header;
mod headers;
mod iin;
pub mod laws;
mod listed;
mod objects;
mod points;
mod putting;
mod qualifier;
mod range;
mod reading;
mod request;
mod response;
mod row_source;
mod row_walk;
mod run;
mod said;
mod table;
mod written;

pub use builder::{Builder, Full};
pub use control::Control;
pub use dnp_objects::MAX_FRAGMENT;
pub use fault::AppFault;
pub use fragments::{confirm, known_request, read_request, read_response};
pub use function::Function;
pub use header::{Header, Range};
pub use headers::Headers;
pub use iin::Iin;
pub use request::Request;
pub use response::Response;
pub use row_source::RowSource;
pub use row_walk::RowWalk;
pub use written::fits_point;
