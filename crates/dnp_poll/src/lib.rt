//! A master that asks an outstation of which it has no plan (IEEE Std 1815-2012, application layer: the master's side of a
//! transaction): [`Poller`] shows every row of each answer before that is confirmed, and what is shown is said as text or
//! as JSON. It asks on a stream by `ask_stream` of `dnp_streams`.
#![tactic(auto)]

mod fault;
mod instead;
pub mod laws;
mod phrase;
mod poller;
mod poller_station;
mod rows;
mod show;
mod shown_json;
mod shown_table;
mod shown_text;
mod table;
mod task_end;
mod waiting;

pub use fault::PollFault;
pub use instead::{Instead, Points};
pub use poller::Poller;
pub use rows::{Family, ShownRow};
pub use show::{NotShown, Show};
pub use shown_json::{EndJson, MarkJson, RowJson, UnaskedJson};
pub use shown_table::{CLEAR, Columns, Head, Left, TableRow};
pub use shown_text::{At, EndLine, Mark, Unasked};
pub use table::{Room, Table, TableLine};
pub use task_end::TaskEnd;
pub use waiting::{Patience, SILENCE_MS, Waiting};
