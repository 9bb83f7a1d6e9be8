//! What DNP3 is beyond the profile of the stations (IEEE Std 1815-2012): the functions and the objects of the whole standard by number,
//! name and size, and the object headers of a fragment, each with its objects.
#![tactic(auto)]

mod fault;
mod function;
mod groups;
mod header;
mod kind;
mod object;
mod part;
mod qualifier;
mod walk;

pub use fault::Fault;
pub use function::{Carried, Function};
pub use groups::group_name;
pub use header::{Block, block_at};
pub use kind::Kind;
pub use object::{Object, Size, object_of};
pub use part::Part;
pub use qualifier::{Form, Qualifier, Width, qualifier_of};
pub use walk::{Placed, Stop, Walk, walk_from};
