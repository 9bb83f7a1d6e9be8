//! The kinds of points, and how many a substation has.

ghost use Rattle.std.specs.Prelude.{◌≡◌};
ghost use Rattle.dnp_network.specs.Points as spec;

/// What a point is (IEEE Std 1815-2012, object library: points are numbered within a kind).
#[derive(Clone, Copy, Debug)]
pub enum PointKind {
    /// A binary input.
    Binary,
    /// A counter.
    Counter,
    /// An analog input.
    Analog,
    /// A binary output.
    Output,
    /// A setpoint: an analog output.
    Setpoint,
}

impl PointKind {
    ghost use Rattle.std.specs.Prelude.{◌≡◌};
    ghost use Rattle.dnp_network.specs.Points.{name_of, number_of};

    /// The kinds, each at the place of its number.
    pub const ALL: [PointKind; 5] = [
        PointKind::Binary,
        PointKind::Counter,
        PointKind::Analog,
        PointKind::Output,
        PointKind::Setpoint,
    ];

    /// The kind's number, from 0.
    pub fn number(self) -> usize
        ensures { result ≡ number_of self }
    {
        match self {
            PointKind::Binary => 0,
            PointKind::Counter => 1,
            PointKind::Analog => 2,
            PointKind::Output => 3,
            PointKind::Setpoint => 4,
        }
    }

    /// What points of the kind are called.
    pub fn name(self) -> &'static str
        ensures { result.now ≡ name_of self }
    {
        match self {
            PointKind::Binary => "binary",
            PointKind::Counter => "counter",
            PointKind::Analog => "analog",
            PointKind::Output => "output",
            PointKind::Setpoint => "setpoint",
        }
    }
}

/// How many points of each kind a substation of the plan has.
#[derive(Clone, Copy, Debug)]
pub struct PointCounts {
    /// Binary inputs.
    pub binary: usize,
    /// Counters.
    pub counter: usize,
    /// Analog inputs.
    pub analog: usize,
    /// Binary outputs.
    pub output: usize,
    /// Setpoints.
    pub setpoint: usize,
}

impl PointCounts {
    ghost use Rattle.std.specs.Prelude.{◌≡◌};
    ghost use Rattle.dnp_network.specs.Points.{count_for};

    /// How many points of a kind.
    pub fn of(&self, kind: PointKind) -> usize
        ensures { result ≡ count_for self.now kind }
    {
        match kind {
            PointKind::Binary => self.binary,
            PointKind::Counter => self.counter,
            PointKind::Analog => self.analog,
            PointKind::Output => self.output,
            PointKind::Setpoint => self.setpoint,
        }
    }
}

/// How many points of a kind the substation with this number has; none where the plan lacks it.
pub fn count_of(counts: &[PointCounts], substation: usize, kind: PointKind) -> usize
    ensures { result ≡ spec.count_of counts.now substation kind }
{
    match counts.get(substation) {
        Some(counts) => counts.of(kind),
        None => 0,
    }
}
