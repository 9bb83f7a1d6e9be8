//! What became of a stream, in numbers.

ghost use Rattle.std.specs.Prelude.{◌≡◌};
ghost use Rattle.dnp_streams.specs.streams.Exchanges.{Output, no_output};
ghost use Rattle.dnp_streams.specs.streams.Counts.{Counts, served_of};

/// What became of a stream.
#[derive(Clone, Copy, Debug, PartialEq, Eq)]
pub struct Served {
    /// How many fragments the port gave whole. The count stops at the largest number.
    pub fragments: u64,
    /// How many calls the station refused: the opening, or a fragment. The count stops at the largest number.
    pub faults: u64,
    /// Whether the station has closed the connection.
    pub closed: bool,
}

impl Served {
    /// These numbers of fragments and of faults, and whether the connection was closed.
    pub(super) fn of(fragments: u64, faults: u64, closed: bool) -> Served
        ensures { result ≡ record { fragments = fragments; faults = faults; closed = closed } }
    {
        Served {
            fragments,
            faults,
            closed,
        }
    }

    /// Counts what one step brought.
    pub(super) fn add(&mut self, step: Served)
        ensures { (output : Output) → step ≡ served_of output → Counts self.old output self.new }
    {
        self.fragments = self.fragments.saturating_add(step.fragments);
        self.faults = self.faults.saturating_add(step.faults);
        self.closed = self.closed || step.closed;
    }

    /// Counts what brings nothing.
    pub(super) fn count_nothing(&mut self)
        ensures { Counts self.old no_output self.new }
    {
        self.add(Served::of(0, 0, false));
    }
}
