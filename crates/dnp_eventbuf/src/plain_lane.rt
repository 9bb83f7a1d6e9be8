//! One lane in memory.

ghost use Rattle.std.specs.Prelude.{not, ◌&&◌, false, ◌≡◌, ◌^◌, ◌+◌, ◌-◌, ◌≤◌, slice_get, option_map, length, nat_lt, filter, IfOk};
ghost use Rattle.std.specs.VecDeque.{deque_len, deque_capacity};
ghost use Rattle.dnp_eventbuf.specs.EventBuffer.{is_full, put_in, above, last_of, empty_lane};

use crate::lane_of::LaneOf;
use crate::numbered::Numbered;
use crate::one_lane::OneLane;
use crate::tally::Tally;
use dnp_objects::Row;
use std::alloc::{AllocError, Global};
use std::collections::VecDeque;
use std::marker::Model;

/// One lane, whose room is taken at once.
pub struct PlainLane {
    /// How many rows it takes.
    capacity: u32,
    /// Its rows, the oldest first.
    rows: VecDeque<Numbered>,
    /// How many rows it has dropped.
    lost: u64,
}

impl Model for PlainLane {
    ghost use Rattle.std.specs.Prelude.{◌<◌, ◌≤◌};
    ghost use Rattle.std.specs.VecDeque.{deque_len, deque_capacity};
    ghost use Rattle.dnp_eventbuf.specs.EventBuffer.{LaneState};

    ghost Value = { LaneState };

    ghost view = { λ a. record { capacity = a.capacity; rows = a.rows.items; lost = a.lost } };

    ghost invariant = { λ a. (deque_len a.rows ≤ a.capacity) × (a.capacity ≤ deque_capacity a.rows) };
}

impl Drop for PlainLane {
    /// One call for whoever lets it go: its parts are looked at here alone.
    fn drop(self) {
        let PlainLane {
            capacity: _,
            rows: _,
            lost: _,
        } = self;
    }
}

impl LaneOf<PlainLane> {
    /// An empty lane that takes this many rows. An error says that it ran out of memory.
    pub fn new(alloc: Global, capacity: u32) -> Result<LaneOf<PlainLane>, AllocError>
        ensures { IfOk result (λ lane. lane ≡ empty_lane capacity) }
    {
        let rows = VecDeque::with_capacity(alloc, capacity as usize)?;
        Ok(LaneOf {
            one: PlainLane {
                capacity,
                rows,
                lost: 0,
            },
        })
    }
}

impl PlainLane {
    /// Takes a row at the end, for which there is room.
    pub fn push(&mut self, x: Numbered)
        requires { is_full self.old ≡ false }
        ensures { self.new ≡ put_in self.old x }
    {
        self.rows.push_back_reserved(x);
    }

    /// How many rows it would have to drop, with so many more.
    pub fn over(&self, more: usize) -> usize
        requires { more ≤ 2 ^ 62 }
        ensures { result ≡ (length self.now.rows + more) - self.now.capacity }
    {
        (self.rows.len() + more).saturating_sub(self.capacity as usize)
    }

    /// Whether it has as many rows as it takes without those with ids up to this one.
    pub fn is_full_above(&self, upto: u64) -> bool
        ensures { result ≡ is_full (above upto self.now) }
    {
        let mut count = 0usize;
        for x in self.rows.iter() {
            if upto < x.id {
                count += 1;
            }
        }
        count >= self.capacity as usize
    }

    /// The id of the row at this place, if it has so many.
    pub fn id_at(&self, place: usize) -> Option<u64>
        ensures { result ≡ option_map (λ x. x.id) (slice_get self.now.rows place) }
    {
        match self.rows.get(place) {
            Some(x) => Some(x.id),
            None => None,
        }
    }

    /// Whether it has room for a row with this id after its others.
    pub fn takes(&self, id: u64) -> bool
        ensures { result ≡ not (is_full self.now) && nat_lt (last_of self.now.rows) id }
    {
        let last = self.last();
        self.rows.len() < self.capacity as usize && last < id
    }

    /// Notes how many rows it dropped.
    pub fn restore_lost(&mut self, lost: u64)
        ensures { self.new ≡ record self.old { lost = lost } }
    {
        self.lost = lost;
    }
}

impl OneLane for PlainLane {
    ghost state = { λ s. s };

    #[inline(always)]
    fn put(&mut self, x: Numbered, dropped: &mut Vec<Row>) {
        if self.rows.len() >= self.capacity as usize {
            self.lost += 1;
            if let Some(oldest) = self.rows.pop_front() {
                dropped.push_reserved(oldest.row);
            }
        }
        self.rows.push_back_reserved(x);
    }

    fn runs(&self) -> (&[Numbered], &[Numbered]) {
        self.rows.as_slices()
    }

    fn cut(&mut self, upto: u64) {
        keep_above(&mut self.rows, upto);
    }

    fn clear(&mut self) {
        self.rows.clear();
    }

    fn len(&self) -> u32 {
        let capacity = self.capacity;
        let len = self.rows.len();
        prove!(len <= capacity as usize);
        len as u32
    }

    fn last(&self) -> u64 {
        self.rows.back().map_or(0, |x| x.id)
    }

    fn tally(&self) -> Tally {
        Tally {
            free: self.capacity as usize - self.rows.len(),
            lost: self.lost,
        }
    }
}

/// Keeps the rows with ids over this.
fn keep_above(rows: &mut VecDeque<Numbered>, upto: u64)
    ensures rows { rows.new.items ≡ filter (λ x. nat_lt upto x.id) rows.old.items }
    ensures len { deque_len rows.new ≤ deque_len rows.old }
    ensures capacity { deque_capacity rows.new ≡ deque_capacity rows.old }
{
    rows.retain(|x| upto < x.id);
}
