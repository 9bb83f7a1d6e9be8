//! Where the indices of a substation stand above.

ghost use Rattle.std.specs.Prelude.{◌≡◌, ◌+◌, ◌≤◌};
ghost use Rattle.dnp_pointdb.specs.declared.limits.TheConstants.{INDICES};
ghost use Rattle.dnp_concentrator.specs.IndexMap.{above_in, no_spans, span_of};

use crate::index_kind::IndexKind;

/// Consecutive indices above: those of one kind of a substation, whose indices there begin with 0.
#[derive(Clone, Copy, Debug, PartialEq, Eq)]
pub struct Span {
    /// The index above of the substation's index 0.
    pub base: u16,
    /// How many indices the substation has; there may be none.
    pub count: usize,
}

/// Where a substation's indices of each kind stand above.
#[derive(Clone, Copy, Debug, PartialEq, Eq)]
pub struct Spans {
    /// Its binary inputs.
    pub binary: Span,
    /// Its counters.
    pub counter: Span,
    /// Its analog inputs.
    pub analog: Span,
    /// Its binary outputs.
    pub output: Span,
    /// Its setpoints.
    pub setpoint: Span,
}

impl Spans {
    /// No indices.
    pub(crate) fn none() -> Spans
        ensures { result ≡ no_spans }
    {
        let none = Span { base: 0, count: 0 };
        Spans {
            binary: none,
            counter: none,
            analog: none,
            output: none,
            setpoint: none,
        }
    }

    /// Those of this kind.
    pub fn of(&self, kind: IndexKind) -> Span
        ensures { result ≡ span_of self.now kind }
    {
        match kind {
            IndexKind::Binary => self.binary,
            IndexKind::Counter => self.counter,
            IndexKind::Analog => self.analog,
            IndexKind::Output => self.output,
            IndexKind::Setpoint => self.setpoint,
        }
    }
    /// The substation's index of this kind as it stands above, if the substation has it.
    #[inline]
    pub(crate) fn above(&self, kind: IndexKind, index: u16) -> Option<u16>
        requires { (span_of self.now kind).base + (span_of self.now kind).count ≤ INDICES }
        ensures { result ≡ above_in self.now kind index }
    {
        let span = self.of(kind);
        if usize::from(index) < span.count {
            Some(span.base + index)
        } else {
            None
        }
    }
}
