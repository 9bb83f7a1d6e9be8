//! Lanes in rings of memory.

ghost use Rattle.std.specs.Prelude.{◌≡◌, ◌≤◌, IfOk, All};
ghost use Rattle.dnp_eventbuf.specs.EventBuffer.{empty_buffer};

use crate::lane_of::LaneOf;
use crate::nine::NineLanes;
use crate::plain::MAX_CAPACITY;
use crate::ring_lane::RingLane;
use dnp_objects::LANES;
use std::alloc::{AllocError, Global};

/// Nine lanes in memory, each a ring, which take their room as they are made and move no row.
pub type RingLanes = NineLanes<RingLane>;

impl RingLanes {
    /// Empty lanes that take this many rows each, 1 to `MAX_CAPACITY`. An error says that it ran out of
    /// memory.
    pub fn new(alloc: Global, capacities: [u32; LANES]) -> Result<RingLanes, AllocError>
        requires { All (λ capacity. (1 ≤ capacity) × (capacity ≤ MAX_CAPACITY)) capacities }
        ensures { IfOk result (λ lanes. lanes ≡ empty_buffer capacities) }
    {
        let lanes = capacities.try_map(|capacity| LaneOf::<RingLane>::new(alloc, capacity))?;
        Ok(NineLanes {
            lanes,
            overflow: false,
            last_id: 0,
        })
    }
}
