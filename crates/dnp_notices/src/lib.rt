//! What a program says of the stations that it asks, and of the rows that it keeps for others: which line stands for which
//! happening, and that there is one where something has changed and none for each poll. All of it is functions over values, which
//! say nothing themselves: a program prints what they answer, with the time.
#![tactic(auto)]

mod control;
mod dropping;
mod exchange;
mod indications;
pub mod laws;
mod line;
mod names;
mod peer;
mod pieces;
mod place;
mod refusal;
mod said;
mod standing;
mod strange;
mod tones;

pub use control::{ControlNotice, Doing, Happening};
pub use dropping::{DropNotice, Dropping, Drops};
pub use exchange::{Awaited, Exchange, Mismatch};
pub use indications::{WATCHED, change_of};
pub use line::{DropLine, Line, Notice, StrangeLine};
pub use names::{InBrackets, Name, Names, Thing, output_in};
pub use peer::Peer;
pub use pieces::Many;
pub use place::Place;
pub use refusal::{Refusal, form_refusal, refusal_of};
pub use standing::{Failing, Last, LinkNotice, Poll, Standing, Trouble};
pub use strange::{Ends, Heard, Strange, news_of};
