//! The points of a station (IEEE Std 1815-2012, object library and application layer: point indices,
//! event classes, deadbands): the plan that gives them, their last readings and reports, and when a
//! change is an event.
#![tactic(auto)]

mod bank;
mod blocks;
mod database;
mod event;
mod fault;
pub mod laws;
mod limits;
mod order;
mod place;
mod plan;
mod point;
mod reading;
mod state;
mod statics;
mod taken;
mod times;

pub use database::PointDb;
pub use event::lane_of;
pub use fault::{ChangeFault, PlanFault};
pub use limits::{INDICES, MAX_POINTS};
pub use place::PointPlace;
pub use plan::PointPlan;
pub use point::{Block, Point, Points};
pub use reading::{LastReport, Reading};
pub use state::{BlockState, PointState, PointStates};
pub use statics::static_object;
pub use times::Times;
