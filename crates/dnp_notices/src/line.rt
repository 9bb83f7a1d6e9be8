//! What is said of stations and of rows.

use crate::control::ControlNotice;
use crate::dropping::DropNotice;
use crate::names::{Names, Thing};
use crate::peer::Peer;
use crate::pieces::Numbered;
use crate::place::Place;
use crate::standing::LinkNotice;
use crate::strange::{Ends, Strange};
use dnp_appfragment::Iin;
use std::io;

/// What is said of a station that is asked, or of the rows for a centre.
#[derive(Clone, Copy)]
pub enum Notice {
    /// Whether the station answers.
    Link(LinkNotice),
    /// What becomes of a control there.
    Control(ControlNotice),
    /// An indication of it has risen, or fallen.
    Indication(Iin, bool),
    /// What came beside what was awaited.
    Strange(Strange),
}

/// A line: of whom it is, how it is asked, what is said, and why a call failed, as far as that is known.
#[derive(Clone, Copy)]
pub struct Line<'a> {
    /// The station that is asked.
    pub peer: Peer,
    /// What people call it and its points.
    pub names: Names<'a>,
    /// Where it is asked.
    pub place: Place,
    /// The link addresses of the frames that are awaited of it.
    pub awaited: Ends,
    /// How long an answer is awaited, in milliseconds.
    pub patience_ms: u64,
    /// The output or the setpoint of the control that is relayed, where it is known.
    pub output: Option<Thing>,
    /// What is said.
    pub notice: Notice,
    /// Why a call of the connection failed, if one did.
    pub cause: Option<&'a io::Error>,
}

impl<'a> Line<'a> {
    /// The control with this number, which is relayed.
    pub(crate) fn control(&self, id: u64) -> Numbered<'a> {
        let output = match self.output {
            Some(output) => match self.names.of(output) {
                Some(name) => Some((output, name)),
                None => None,
            },
            None => None,
        };
        Numbered { id, output }
    }
}

/// What came to a station that serves, beside the frames of its master, which have these link addresses.
#[derive(Clone, Copy)]
pub struct StrangeLine {
    /// What came.
    pub strange: Strange,
    /// The link addresses of the frames that the station takes.
    pub taken: Ends,
}

/// That rows for a centre are dropped, or no longer.
#[derive(Clone, Copy)]
pub struct DropLine {
    /// The centre's number, from 0.
    pub centre: u8,
    /// What is said.
    pub notice: DropNotice,
}
