//! The kinds of indices that are mapped.

use crate::limits::INDEX_KINDS;
use dnp_objects::{Command, Kind};

/// What an index is of (IEEE Std 1815-2012, object library: point indices are numbered within a kind).
#[derive(Clone, Copy, Debug, PartialEq, Eq, PartialOrd, Ord, Hash)]
pub enum IndexKind {
    /// Binary inputs.
    Binary,
    /// Counters.
    Counter,
    /// Analog inputs.
    Analog,
    /// Binary outputs.
    Output,
    /// Setpoints: analog outputs.
    Setpoint,
}

impl IndexKind {
    ghost use Rattle.std.specs.Prelude.{◌≡◌, ◌<◌};
    ghost use Rattle.dnp_concentrator.specs.IndexKinds.{number_of, kind_of_points, kind_of_command};

    /// The kinds, each at the place of its number.
    pub const ALL: [IndexKind; INDEX_KINDS] = [
        IndexKind::Binary,
        IndexKind::Counter,
        IndexKind::Analog,
        IndexKind::Output,
        IndexKind::Setpoint,
    ];

    /// The kind's number, from 0: Binary, Counter, Analog, Output, Setpoint.
    pub fn number(self) -> usize
        ensures value { result ≡ number_of self }
        ensures range { result < INDEX_KINDS }
    {
        match self {
            IndexKind::Binary => 0,
            IndexKind::Counter => 1,
            IndexKind::Analog => 2,
            IndexKind::Output => 3,
            IndexKind::Setpoint => 4,
        }
    }

    /// The kind of the indices of points of a kind.
    pub fn of_points(kind: Kind) -> IndexKind
        ensures { result ≡ kind_of_points kind }
    {
        match kind {
            Kind::Binary => IndexKind::Binary,
            Kind::Counter => IndexKind::Counter,
            Kind::Analog => IndexKind::Analog,
        }
    }

    /// The kind of the index that the command names.
    pub fn of_command(command: &Command) -> IndexKind
        ensures { result ≡ kind_of_command command.now }
    {
        match command {
            Command::Block { .. } => IndexKind::Output,
            Command::Set16 { .. } | Command::Set32 { .. } => IndexKind::Setpoint,
        }
    }
}
