//! What a person's words of a command mean: `trip 3 100ms`, or the numbers of a script's line. The names of
//! control codes and of statuses stand here too (IEEE Std 1815-2012, object library: group 12 variation 1,
//! control status codes).
#![tactic(auto)]

mod action;
mod code;
mod fault;
mod intended;
pub mod laws;
mod numbers;
mod order;
mod said;
mod statuses;
mod words;

pub use action::Action;
pub use code::CodeNames;
pub use fault::{OrderFault, ToldFault, Wanted};
pub use intended::{CodeDoubt, code_doubt};
pub use order::{read_command, read_order};
pub use statuses::status_name;
