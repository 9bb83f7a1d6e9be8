//! The points above: those of all substations, with the indices above.

ghost use Rattle.std.specs.Prelude.{◌≡◌, IfOk, map};
ghost use Rattle.dnp_concentrator.specs.IndexMap.{IsMap};
ghost use Rattle.dnp_concentrator.specs.Plan.{KeepsLimits, map_of};
ghost use Rattle.dnp_concentrator.specs.PointsAbove as spec;

use crate::plan::{Plan, SubPlan};
use dnp_objects::Kind;
use dnp_pointdb::{Block, Point, PointPlan, Points};
use std::alloc::{AllocError, Global};

/// Points of these classes, without deadbands.
fn points_of(alloc: Global, classes: &[u8]) -> Result<Vec<Point>, AllocError>
    ensures { IfOk result (λ points. points.items ≡ map spec.point_of classes.now) }
{
    let mut points = Vec::with_capacity(alloc, classes.len())?;
    for class in classes {
        points.push(Point {
            class: *class,
            deadband: 0,
        })?;
    }
    Ok(points)
}

/// Points of these classes, without deadbands, with the indices from `base` on.
pub(crate) fn block_of(alloc: Global, base: u16, classes: &[u8]) -> Result<Block, AllocError>
    ensures { IfOk result (λ block. block ≡ spec.block_of base classes.now) }
{
    Ok(Block {
        base,
        points: Points::new(points_of(alloc, classes)?),
    })
}

/// The points of a kind of a substation, as they stand above.
fn block_above(alloc: Global, kind: Kind, substation: &SubPlan) -> Result<Block, AllocError>
    ensures { IfOk result (λ block. block ≡ spec.block_above kind substation.now) }
{
    match kind {
        Kind::Binary => block_of(alloc, substation.base[0], substation.binary.as_slice()),
        Kind::Counter => block_of(alloc, substation.base[1], substation.counter.as_slice()),
        Kind::Analog => block_of(alloc, substation.base[2], substation.analog.as_slice()),
    }
}

/// The points of a kind of all substations, as they stand above: a block for each substation.
fn blocks_above(
    alloc: Global,
    kind: Kind,
    substations: &[SubPlan],
) -> Result<Vec<Block>, AllocError>
    ensures { IfOk result (λ blocks. blocks.items ≡ map (spec.block_above kind) substations.now) }
{
    let mut blocks = Vec::with_capacity(alloc, substations.len())?;
    for substation in substations {
        blocks.push(block_above(alloc, kind, substation)?)?;
    }
    Ok(blocks)
}

/// The points above of a plan that has an index map. Refused out of memory alone.
pub(crate) fn points_above(alloc: Global, plan: &Plan) -> Result<PointPlan, AllocError>
    requires limits { KeepsLimits plan.now }
    requires mapped { IsMap (map_of plan.now) }
    ensures { IfOk result (λ points. points ≡ spec.points_above plan.now) }
{
    let substations = plan.substations.as_slice();
    let binary = blocks_above(alloc, Kind::Binary, substations)?;
    let counter = blocks_above(alloc, Kind::Counter, substations)?;
    let analog = blocks_above(alloc, Kind::Analog, substations)?;
    Ok(PointPlan::new(binary, counter, analog).unwrap())
}
