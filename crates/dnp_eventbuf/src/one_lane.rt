//! What one lane in memory is, however its rows are kept.

ghost use Rattle.std.specs.Prelude.{◌≡◌, ◌+◌, ◌<◌, ◌≤◌, ◌++◌, length, vec_len, vec_capacity};
ghost use Rattle.std.specs.List.{AllPairs};
ghost use Rattle.dnp_eventbuf.specs.EventBuffer.{LaneState, put_in, dropped_from, emptied, above, last_of};
ghost use Rattle.dnp_eventbuf.specs.steps.Tallies.{tally_of};

use crate::numbered::Numbered;
use crate::tally::Tally;
use dnp_objects::{MAX_ID, Row};

/// One lane in memory, whose room is taken at once: what differs by how its rows are kept.
pub trait OneLane {
    /// What the lane holds.
    ghost state: { Self → LaneState };

    /// Takes a row at the end. A full lane drops its oldest first, counts it, and adds it to those that were
    /// dropped, which have room for it. It stands in its callers, so that neither row is moved to it or from it.
    fn put(&mut self, x: Numbered, dropped: &mut Vec<Row>)
        requires takes_one { 1 ≤ (state self.old).capacity }
        requires counted { (state self.old).lost ≤ MAX_ID }
        requires room { vec_len dropped.old + length (dropped_from (state self.old)) ≤ vec_capacity dropped.old }
        ensures lane { state self.new ≡ put_in (state self.old) x }
        ensures dropped { dropped.new.items ≡ dropped.old.items ++ dropped_from (state self.old) }
        ensures len { vec_len dropped.new ≡ vec_len dropped.old + length (dropped_from (state self.old)) }
        ensures capacity { vec_capacity dropped.old ≤ vec_capacity dropped.new };

    /// Its rows, in two runs: those of the second come after those of the first.
    fn runs(&self) -> (&[Numbered], &[Numbered])
        ensures { result.0.now ++ result.1.now ≡ (state self.now).rows };

    /// Takes the rows with ids up to this out.
    fn cut(&mut self, upto: u64)
        requires rising { AllPairs (λ x y. x.id < y.id) (state self.old).rows }
        ensures { state self.new ≡ above upto (state self.old) };

    /// Takes all rows out; the count of lost rows stays.
    fn clear(&mut self)
        ensures { state self.new ≡ emptied (state self.old) };

    /// How many rows it holds.
    fn len(&self) -> u32
        ensures { result ≡ length (state self.now).rows };

    /// The id of the last row, or 0.
    fn last(&self) -> u64
        ensures { result ≡ last_of (state self.now).rows };

    /// Its free places and its lost rows.
    fn tally(&self) -> Tally
        ensures { result ≡ tally_of (state self.now) };
}
