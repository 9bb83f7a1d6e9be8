//! Present values of consecutive indexes, which stand under one header.
ghost use Rattle.std.specs.Prelude.{take};
ghost use Rattle.dnp_appfragment.specs.steps.Spans.{CanSpan, span, all_written};

use crate::row_source::RowSource;
use crate::run::Run;
use crate::written::{Object, span_of};
use arrayvec::ArrayVec;
use dnp_objects::laws::a_written_row_fills_its_object;
use dnp_objects::{MAX_FRAGMENT, Row, append_object, object_size};

/// The first so many rows as this object, in a range from an index to an index: qualifier 01. The object stands in
/// the type, so that the compiler knows how many octets each part of a row has.
#[derive(Clone, Copy)]
pub(crate) struct Points<'a, R, const GROUP: u8, const VARIATION: u8> {
    pub rows: &'a R,
    pub count: usize,
    pub first: u16,
    pub last: u16,
}

impl<'a, R: RowSource + Copy, const GROUP: u8, const VARIATION: u8> Object
    for Points<'a, R, GROUP, VARIATION> {
    ghost can_put = { λ p. CanSpan GROUP VARIATION p.count (R.rows p.rows.now) };

    ghost head = { λ p. span GROUP VARIATION p.first p.last (all_written GROUP VARIATION (take p.count (R.rows p.rows.now))) };

    #[inline]
    fn run(&self) -> Run {
        Run {
            group: GROUP,
            variation: VARIATION,
            range: span_of(self.first, self.last),
            common: None,
        }
    }

    #[inline]
    fn size(&self) -> usize {
        // (a law, for the proof: it does nothing)
        a_written_row_fills_its_object();
        self.count * object_size(GROUP, VARIATION).unwrap()
    }

    #[inline]
    fn append(&self, octets: &mut ArrayVec<u8, MAX_FRAGMENT>) {
        // (a copy, so that the rows themselves need no address)
        let rows = *self.rows;
        for place in 0..self.count {
            append_object(GROUP, VARIATION, &rows.row(place), octets);
        }
    }
}
