//! The header that the next object may join.
ghost use Rattle.std.specs.Prelude.{◌≡◌, []};
ghost use Rattle.dnp_appfragment.specs.Joining.{joined_range};
ghost use Rattle.dnp_appfragment.specs.steps.Building as spec;

use crate::header::Range;

/// The header that the next object may join: its object and its range so far.
#[derive(Clone, Copy, Debug)]
pub struct Run {
    /// The objects' group.
    pub group: u8,
    /// The objects' variation.
    pub variation: u8,
    /// The range so far.
    pub range: Range,
    /// The common time after which its objects' times are given, if they are given after one.
    pub common: Option<u64>,
}

/// The range of the objects of both, where the second go on after the first.
fn joined_range(first: Range, second: Range) -> Option<Range>
    ensures { result ≡ joined_range first second }
{
    match (first, second) {
        (
            Range::Indexed { wide: true, n },
            Range::Indexed {
                wide: true,
                n: more,
            },
        ) => {
            let n = n.checked_add(more)?;
            Some(Range::Indexed { wide: true, n })
        }
        (
            Range::Span {
                wide: true,
                first,
                last,
            },
            Range::Span {
                wide: true,
                first: next,
                last: end,
            },
        ) if last.checked_add(1) == Some(next) => {
            Some(Range::Span {
                wide: true,
                first,
                last: end,
            })
        }
        _ => None,
    }
}

impl Run {
    ghost use Rattle.dnp_appfragment.specs.steps.Building.{run_head, joined_run, range_end};

    /// The number that grows with the run, the count or the last index, and where its two octets lie
    /// after the header's qualifier.
    pub(crate) fn end(&self) -> (usize, u16)
        ensures { result ≡ range_end self.now.range }
    {
        match self.range {
            Range::All => (0, 0),
            Range::Span { last, .. } => (2, last),
            Range::Count { n, .. } | Range::Indexed { n, .. } => (0, n),
        }
    }

    /// The run with this object, where it joins the run.
    fn joined(self, object: Run) -> Option<Run>
        ensures { result ≡ joined_run (run_head [] object) self }
    {
        if self.group != object.group || self.variation != object.variation {
            return None;
        }
        let range = joined_range(self.range, object.range)?;
        Some(Run { range, ..self })
    }
}

/// The run with this object, if there is a run and the object joins it.
pub(crate) fn longer(run: Option<Run>, object: Run) -> Option<Run>
    ensures { result ≡ spec.longer run (spec.run_head [] object) }
{
    run?.joined(object)
}
