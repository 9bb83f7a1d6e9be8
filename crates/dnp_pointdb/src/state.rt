//! Points and blocks as they stand.

ghost use Rattle.std.specs.Prelude.{◌≡◌, ◌<◌, length, map, IfOk, slice_index_or, slice_set};
ghost use Rattle.dnp_pointdb.specs.Database as spec;

use crate::event::event_of;
use crate::point::{Block, Point, Points};
use crate::reading::{LastReport, Reading};
use dnp_objects::{Kind, LaneRow, flags};
use std::alloc::{AllocError, Global};

/// A point as it stands: what the plan says of it, what it last read, and what of it was last reported.
#[derive(Clone, Copy, Debug, PartialEq, Eq, Hash)]
pub struct PointState {
    /// Its class and its deadband.
    pub point: Point,
    /// Its last reading.
    pub reading: Reading,
    /// What the next change is measured against.
    pub reported: LastReport,
}

impl PointState {
    ghost use Rattle.std.specs.Prelude.{◌≡◌, ℕ, is_some};
    ghost use Rattle.dnp_objects.specs.declared.row.Kind.{Kind as KindValue};
    ghost use Rattle.dnp_pointdb.specs.Database as spec;
    ghost use Rattle.dnp_pointdb.specs.Events as event;

    /// A point of which nothing was read.
    pub(crate) fn new(point: Point) -> Self
        ensures { result ≡ spec.new_state point }
    {
        PointState {
            point,
            reading: Reading::first(),
            reported: LastReport::first(),
        }
    }

    /// The row that a change makes, if it makes one.
    pub(crate) fn event(self, kind: Kind, index: u16, reading: Reading) -> Option<LaneRow>
        ensures { result ≡ event.event_of kind index self.point self.reported reading }
    {
        event_of(kind, index, self.point, self.reported, reading)
    }

    /// The point after a change, which made a row or made none.
    pub(crate) fn changed(self, reading: Reading, is_event: bool) -> Self
        ensures { (kind : KindValue) (index : ℕ) → is_event ≡ is_some (event.event_of kind index self.point self.reported reading)
            → result ≡ spec.changed_state kind index reading self }
    {
        // (the two fields apart: a report that is moved as a whole takes its padding along)
        let (value, flags) = if is_event {
            (reading.value, reading.flags)
        } else {
            (self.reported.value, self.reported.flags)
        };
        PointState {
            point: self.point,
            reading,
            reported: LastReport { value, flags },
        }
    }

    /// The point after a reading without an event.
    pub(crate) fn set(self, reading: Reading) -> Self
        ensures { result ≡ spec.set_state reading self }
    {
        PointState {
            point: self.point,
            reading,
            reported: self.reported,
        }
    }

    /// The point after its communication was lost: the reading has COMM_LOST and lacks ONLINE.
    pub(crate) fn lost(self) -> Self
        ensures { result ≡ spec.lost_state self }
    {
        PointState {
            point: self.point,
            reading: Reading {
                value: self.reading.value,
                flags: self.reading.flags & !flags::ONLINE | flags::COMM_LOST,
                time: self.reading.time,
            },
            reported: self.reported,
        }
    }
}

/// The states of a block's points, in the order of their indices.
///
/// A clause sees them as a list.
#[derive(Debug, Drop)]
pub struct PointStates {
    /// The points, in the order of their indices.
    items: Vec<PointState>,
}

impl std::marker::Model for PointStates {
    ghost use Rattle.std.specs.Prelude.{List};
    ghost use Rattle.dnp_pointdb.specs.declared.state.PointState.{PointState};

    ghost Value = { List PointState };

    ghost view = { λ states. states.items.items };
}

impl PointStates {
    /// Points of which nothing was read.
    fn new(alloc: Global, points: &[Point]) -> Result<Self, AllocError>
        ensures { IfOk result (λ states. states ≡ map spec.new_state points.now) }
    {
        Ok(PointStates {
            items: points
                .iter()
                .map(|point| PointState::new(*point))
                .collect(alloc)?,
        })
    }

    /// The points, in the order of their indices.
    pub fn as_slice(&self) -> &[PointState]
        ensures { result.now ≡ self.now }
    {
        self.items.as_slice()
    }

    /// Puts the point at this place.
    fn set(&mut self, place: usize, state: PointState)
        requires { place < length self.old }
        ensures { self.new ≡ slice_set self.old place state }
    {
        self.items[place] = state;
    }

    /// Nothing was read of any of the points.
    fn restart(&mut self)
        ensures { self.new ≡ map spec.restarted_state self.old }
    {
        restart_all(&mut self.items);
    }

    /// The communication of each of the points was lost.
    fn lose(&mut self)
        ensures { self.new ≡ map spec.lost_state self.old }
    {
        lose_all(&mut self.items);
    }
}

/// Nothing was read of any of the points.
fn restart_all(states: &mut [PointState])
    ensures { states.new ≡ map spec.restarted_state states.old }
{
    for state in states.iter_mut() {
        *state = PointState::new(state.point);
    }
}

/// The communication of each of the points was lost.
fn lose_all(states: &mut [PointState])
    ensures { states.new ≡ map spec.lost_state states.old }
{
    for state in states.iter_mut() {
        *state = state.lost();
    }
}

/// The points of a block as they stand.
#[derive(Debug, Drop)]
pub struct BlockState {
    /// The index of the first point.
    pub base: u16,
    /// The points with the indices from `base` on; there may be none.
    pub points: PointStates,
}

impl BlockState {
    ghost use Rattle.std.specs.Prelude.{◌≡◌, ◌<◌, length, IfOk, slice_index_or, slice_set};
    ghost use Rattle.dnp_pointdb.specs.Database as spec;

    /// A block of points of which nothing was read.
    pub(crate) fn new(alloc: Global, block: &Block) -> Result<Self, AllocError>
        ensures { IfOk result (λ state. state ≡ spec.new_block block.now) }
    {
        Ok(BlockState {
            base: block.base,
            points: PointStates::new(alloc, block.points.as_slice())?,
        })
    }

    /// The point at this place of the block.
    pub(crate) fn state(&self, place: usize) -> PointState
        requires { place < length self.now.points }
        ensures { result ≡ slice_index_or self.now.points place result }
    {
        self.points.as_slice()[place]
    }

    /// Puts the point at this place of the block.
    pub(crate) fn set(&mut self, place: usize, state: PointState)
        requires { place < length self.old.points }
        ensures { self.new ≡ record self.old { points = slice_set self.old.points place state } }
    {
        self.points.set(place, state);
    }

    /// Nothing was read of any point.
    pub(crate) fn restart(&mut self)
        ensures { self.new ≡ spec.restarted_block self.old }
    {
        self.points.restart();
    }

    /// The communication of each point was lost.
    pub(crate) fn lose(&mut self)
        ensures { self.new ≡ spec.lost_block self.old }
    {
        self.points.lose();
    }
}
