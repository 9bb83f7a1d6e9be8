//! What a fragment of a response holds: rows of lanes and present values of points, as far as they fit.

pub mod enabled;
mod events;
pub mod fetched;
mod grouping;
pub mod inside;
mod next;
pub mod parts;
pub mod place;
mod present;
pub mod rows;
mod wanted;
pub mod writer;
