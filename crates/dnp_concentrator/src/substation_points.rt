//! The points of one substation: its own, and those that its master needs.

ghost use Rattle.std.specs.Prelude.{◌≡◌, ◌∷◌, [], IfOk};
ghost use Rattle.dnp_concentrator.specs.Plan.{KeepsSubLimits};
ghost use Rattle.dnp_concentrator.specs.PointsAbove as spec;

use crate::plan::SubPlan;
use crate::points_above::block_of;
use dnp_pointdb::{Block, Point, PointPlan, Points};
use std::alloc::{AllocError, Global};

/// This block alone.
fn alone(alloc: Global, block: Block) -> Result<Vec<Block>, AllocError>
    ensures { IfOk result (λ blocks. blocks.items ≡ block ∷ []) }
{
    let mut blocks = Vec::with_capacity(alloc, 1)?;
    blocks.push(block)?;
    Ok(blocks)
}

/// The one block of points of these classes, without deadbands, whose indices begin with 0.
fn only_block(alloc: Global, classes: &[u8]) -> Result<Vec<Block>, AllocError>
    ensures { IfOk result (λ blocks. blocks.items ≡ spec.block_of 0 classes.now ∷ []) }
{
    alone(alloc, block_of(alloc, 0, classes)?)
}

/// The one block of analog inputs of these classes and deadbands, whose indices begin with 0.
fn analog_block(alloc: Global, classes: &[u8], deadbands: &[u32]) -> Result<Vec<Block>, AllocError>
    ensures { IfOk result (λ blocks. blocks.items ≡ spec.analog_block classes.now deadbands.now ∷ []) }
{
    let mut points = Vec::with_capacity(alloc, classes.len())?;
    for (class, deadband) in classes.iter().zip(deadbands.iter()) {
        points.push(Point {
            class: *class,
            deadband: *deadband,
        })?;
    }
    alone(
        alloc,
        Block {
            base: 0,
            points: Points::new(points),
        },
    )
}

/// A substation's points, as its master needs them: with their classes, and without deadbands. Refused out of
/// memory alone.
pub(crate) fn points_below(alloc: Global, substation: &SubPlan) -> Result<PointPlan, AllocError>
    requires { KeepsSubLimits substation.now }
    ensures { IfOk result (λ plan. plan ≡ spec.points_below substation.now) }
{
    let binary = only_block(alloc, substation.binary.as_slice())?;
    let counter = only_block(alloc, substation.counter.as_slice())?;
    let analog = only_block(alloc, substation.analog.as_slice())?;
    Ok(PointPlan::new(binary, counter, analog).unwrap())
}

impl SubPlan {
    /// Its own points: with their classes, and analog inputs with their deadbands. Refused out of memory alone.
    pub fn points(&self, alloc: Global) -> Result<PointPlan, AllocError>
        requires { KeepsSubLimits self.now }
        ensures { IfOk result (λ plan. plan ≡ spec.points_at self.now) }
    {
        let binary = only_block(alloc, self.binary.as_slice())?;
        let counter = only_block(alloc, self.counter.as_slice())?;
        let analog = analog_block(alloc, self.analog.as_slice(), self.deadband.as_slice())?;
        Ok(PointPlan::new(binary, counter, analog).unwrap())
    }
}
