//! Stations of DNP3 (IEEE Std 1815-2012, IP networks: TCP) on connections: one that is served to the connection's end
//! ([`serve_connection`]) or in turns ([`StandingConnection`]), an outstation that lives on one after the other
//! ([`live_on_connections`]), stations that ask others ([`Call`]), and a master without a plan that asks in rounds ([`Rounds`]);
//! with what the programs say, and end with, where something fails.
#![tactic(auto)]

mod account;
mod alive;
mod asking;
mod clock;
mod course;
mod door;
pub mod exit;
mod fault;
mod following;
mod gone;
mod hearing;
mod leave;
pub mod lines;
mod logged;
mod pace;
mod replay;
mod rounds;
mod screen;
mod serving;
mod standing;
mod style;
mod talk;
mod tape;
mod tones;
mod turn;
mod visit;
mod watcher;
mod witness;

pub use account::Account;
pub use alive::{Listening, live_on_connections};
pub use asking::{Call, Ended};
pub use clock::{moment, utc};
pub use dnp_notices::{Ends, Name, Names, Peer, Place, Thing};
pub use dnp_poll::{Instead, Points};
pub use door::{Caller, Door, listen};
pub use fault::{Noted, lost, unprinted, unwritten};
pub use leave::{Leave, prepare};
pub use lines::{End, Ending};
pub use logged::{note, say, say_listening};
pub use replay::{Both, Replay};
pub use rounds::{Listen, RoundSettings, Rounds};
pub use screen::Form;
pub use serving::{no_port, serve_connection};
pub use standing::StandingConnection;
pub use turn::{Parting, Span};
