//! Stages of a session.

ghost use Rattle.std.specs.Prelude.{◌≡◌};
ghost use Rattle.dnp_streams.specs.links.Orders.{has_closed, heard_closing, unless_closed};

use crate::link::{Heard, Told};
use crate::stream::StationFault;

/// How far a session has come, which says what step may follow.
#[derive(Clone, Copy, Debug, PartialEq, Eq)]
pub enum Stage {
    /// The station is to be opened.
    Unopened,
    /// A frame may be heard, a wait may end, or a change may be made.
    Idle,
    /// A frame was heard, or a wait has ended: time is to pass.
    Owing,
    /// The station has closed the connection: no step follows.
    Closed,
}

impl Stage {
    /// Gives this stage, or the last one if the connection is closed.
    fn unless(self, closed: bool) -> Stage
        ensures { result ≡ unless_closed closed self }
    {
        if closed { Stage::Closed } else { self }
    }

    /// Gives this stage, unless the station has closed the connection by what it answered.
    pub fn after(self, answered: &Result<Told, StationFault>) -> Stage
        ensures { result ≡ unless_closed (has_closed answered.now) self }
    {
        match answered {
            Ok(told) => self.unless(told.closed),
            Err(_) => self,
        }
    }

    /// Gives this stage, unless the station has closed the connection by what it answered to a frame.
    pub fn after_frame(self, heard: &Heard) -> Stage
        ensures { result ≡ unless_closed (heard_closing heard.now) self }
    {
        match heard {
            Heard::Part => self,
            Heard::Whole(answered) => self.after(answered),
        }
    }
}
