//! What a master asks next on a link, and when it connects again. A schedule is a value of numbers: it is told what happened, and says
//! what is due. It knows neither stations nor connections.
#![tactic(auto)]

mod back_off;
mod deciding;
mod indications;
pub mod laws;
mod moving;
mod pace;
mod schedule;
mod task_kind;

pub use back_off::{MAX_REST_MS, rest_ms};
pub use indications::{Risen, what_rose};
pub use pace::Pace;
pub use schedule::{Awaited, LastRequest, Owed, Phase, Schedule};
pub use task_kind::TaskKind;
