//! The text of a plan, in TOML: `read_plan` reads it, and `planned_outstation` makes the outstation of one of its
//! substations.
#![tactic(auto)]

pub mod laws;
mod plan_text;
mod planned;
mod said;

pub use plan_text::place::{Found, PlanKey, PlanPlace};
pub use plan_text::reason::{PlanFault, plan_fault};
pub use plan_text::{PlanTextFault, read_plan};
pub use planned::{PlannedOutstation, planned_outstation};
