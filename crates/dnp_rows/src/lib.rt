//! The rows of a store's file, read beside the program that writes it, and the lines in which they are printed: [`print_over`]
//! prints each row over an id once, in order, and [`Beside`] says how a file is read that nobody is disturbed by.
#![tactic(auto)]

mod beside;
mod cells;
mod command;
mod date;
mod fault;
mod item;
mod line;
mod naming;
mod print;
mod record;
mod snapshot;
mod source;
mod stored;
mod table;
mod text;

pub use beside::{Beside, Part};
pub use fault::{PrintFault, ReadFault};
pub use item::{Event, Item, Queued, Store};
pub use line::{Form, Whose, head_names, put_line};
pub use naming::{Nameless, Naming};
pub use print::print_over;
pub use source::Source;
pub use stored::Stored;
