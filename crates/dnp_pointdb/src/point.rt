//! The points of a plan, and blocks of them.

ghost use Rattle.std.specs.Prelude.{◌≡◌, length, IfOk};

use std::alloc::{AllocError, Global};

/// A point of a plan (IEEE Std 1815-2012, application layer: event classes, deadbands).
#[derive(Clone, Copy, Debug, PartialEq, Eq, Hash)]
pub struct Point {
    /// 0 to 3: the class of its events; a point of class 0 has none.
    pub class: u8,
    /// By how much its value may differ from the last reported one without an event, in the units of
    /// the value. 0 for binaries and counters.
    pub deadband: u32,
}

/// The points of a block, in the order of their indices.
///
/// A clause sees them as a list.
#[derive(Debug, Drop)]
pub struct Points {
    /// The points, in the order of their indices.
    items: Vec<Point>,
}

impl std::marker::Model for Points {
    ghost use Rattle.std.specs.Prelude.{List};
    ghost use Rattle.dnp_pointdb.specs.declared.point.Point.{Point};

    ghost Value = { List Point };

    ghost view = { λ points. points.items.items };
}

impl Points {
    /// These points.
    pub fn new(points: Vec<Point>) -> Self
        ensures { result ≡ points.items }
    {
        Points { items: points }
    }

    /// The points, in the order of their indices.
    pub fn as_slice(&self) -> &[Point]
        ensures { result.now ≡ self.now }
    {
        self.items.as_slice()
    }

    /// The same points again. An error says that it ran out of memory.
    pub fn try_clone(&self, alloc: Global) -> Result<Self, AllocError>
        ensures { IfOk result (λ copy. copy ≡ self.now) }
    {
        Ok(Points {
            items: Vec::from_slice(alloc, &self.items)?,
        })
    }
}

/// Points of one kind with consecutive indices.
#[derive(Debug, Drop)]
pub struct Block {
    /// The index of the first point.
    pub base: u16,
    /// The points with the indices from `base` on; there may be none.
    pub points: Points,
}

impl Block {
    /// The same block again. An error says that it ran out of memory.
    pub fn try_clone(&self, alloc: Global) -> Result<Self, AllocError>
        ensures { IfOk result (λ copy. copy ≡ self.now) }
    {
        Ok(Block {
            base: self.base,
            points: self.points.try_clone(alloc)?,
        })
    }
}
