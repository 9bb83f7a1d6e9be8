//! One lane in a ring of memory.

ghost use Rattle.std.specs.Prelude.{◌≡◌, ◌<◌, IfOk, length};
ghost use Rattle.std.specs.List.{AllPairs};
ghost use Rattle.dnp_eventbuf.specs.EventBuffer.{above, empty_lane};

use crate::in_order::cut;
use crate::lane_of::LaneOf;
use crate::numbered::Numbered;
use crate::one_lane::OneLane;
use crate::tally::Tally;
use circular_buffer::HeapCircularBuffer;
use dnp_objects::Row;
use std::alloc::{AllocError, Global};
use std::marker::Model;

/// One lane, whose room is taken at once and which is never moved: a row goes in the place of the oldest one, where
/// all places are taken.
pub struct RingLane {
    /// Its rows, the oldest first, and how many it takes.
    rows: HeapCircularBuffer<Numbered>,
    /// How many rows it has dropped.
    lost: u64,
}

impl Model for RingLane {
    ghost use Rattle.std.specs.Prelude.{◌<◌, ◌≤◌, ◌^◌, length};
    ghost use Rattle.dnp_eventbuf.specs.EventBuffer.{LaneState};

    ghost Value = { LaneState };

    ghost view = { λ a. record { capacity = a.rows.capacity; rows = a.rows.items; lost = a.lost } };

    ghost invariant = { λ a. (length a.rows.items ≤ a.rows.capacity) × (a.rows.capacity < 2 ^ 32) };
}

impl Drop for RingLane {
    /// One call for whoever lets it go: its parts are looked at here alone.
    fn drop(self) {
        let RingLane { rows: _, lost: _ } = self;
    }
}

impl LaneOf<RingLane> {
    /// An empty lane that takes this many rows. An error says that it ran out of memory.
    pub fn new(alloc: Global, capacity: u32) -> Result<LaneOf<RingLane>, AllocError>
        ensures { IfOk result (λ lane. lane ≡ empty_lane capacity) }
    {
        let rows = HeapCircularBuffer::with_capacity(alloc, capacity as usize)?;
        Ok(LaneOf {
            one: RingLane { rows, lost: 0 },
        })
    }
}

impl RingLane {
    /// How many rows have an id over this.
    fn count_over(&self, upto: u64) -> usize
        requires rising { AllPairs (λ x y. x.id < y.id) self.now.rows }
        ensures { result ≡ length (above upto self.now).rows }
    {
        let (front, back) = self.rows.as_slices();
        cut(front, upto).1.len() + cut(back, upto).1.len()
    }
}

impl OneLane for RingLane {
    ghost state = { λ s. s };

    #[inline(always)]
    fn put(&mut self, x: Numbered, dropped: &mut Vec<Row>) {
        if let Some(oldest) = self.rows.push_back(x) {
            self.lost += 1;
            dropped.push_reserved(oldest.row);
        }
    }

    fn runs(&self) -> (&[Numbered], &[Numbered]) {
        self.rows.as_slices()
    }

    fn cut(&mut self, upto: u64) {
        let kept = self.count_over(upto);
        self.rows.truncate_front(kept);
    }

    fn clear(&mut self) {
        self.rows.clear();
    }

    fn len(&self) -> u32 {
        let len = self.rows.len();
        prove!(len <= u32::MAX as usize);
        len as u32
    }

    fn last(&self) -> u64 {
        self.rows.back().map_or(0, |x| x.id)
    }

    fn tally(&self) -> Tally {
        Tally {
            free: self.rows.capacity() - self.rows.len(),
            lost: self.lost,
        }
    }
}
