//! How long a turn of a connection lasts, and why a connection isn't served any longer.

ghost use Rattle.std.specs.Prelude.{◌↔◌, ◌≤◌, IsTrue};

use crate::leave::Leave;
use dnp_concentrator::Cause;
use dnp_streams::{Heard, StationFault, Told};

/// How long a turn lasts.
#[derive(Clone, Copy)]
pub struct Span {
    /// How long a read waits, in milliseconds: if nothing comes in that time, the turn is over.
    pub wait_ms: u64,
    /// The moment after which it is over though octets come, in milliseconds.
    pub until: u64,
}

/// Why a connection is no longer served.
#[derive(Drop)]
pub enum Parting {
    /// The connection has ended.
    Left(Leave),
    /// A store or the memory of the station failed.
    Refused(Cause),
}

impl Span {
    /// Whether the turn is over at this moment, though octets come.
    pub(crate) fn is_past(&self, now: u64) -> bool
        ensures { IsTrue result ↔ (self.now.until ≤ now) }
    {
        now >= self.until
    }
}

impl From<Leave> for Parting {
    fn from(leave: Leave) -> Parting {
        Parting::Left(leave)
    }
}

/// Whether the connection goes on after a step that told this: it ends if the station has closed it, or if a store or memory failed.
/// Any other refusal has changed nothing.
pub(crate) fn look(told: Result<Told, StationFault>) -> Result<(), Parting> {
    match told {
        Ok(told) if told.closed => Err(Parting::Left(Leave::Station)),
        Err(StationFault::Cause(cause)) => Err(Parting::Refused(cause)),
        _ => Ok(()),
    }
}

/// The same after a frame.
pub(crate) fn look_at(heard: Heard) -> Result<(), Parting> {
    match heard {
        Heard::Part => Ok(()),
        Heard::Whole(told) => look(told),
    }
}
