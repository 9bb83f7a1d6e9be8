//! Points that the plan has, looked up once for many rows.

ghost use Rattle.std.specs.Prelude.{◌≡◌, IsTrue, IfSome, is_some};
ghost use Rattle.dnp_pointdb.specs.Classes.{class_at};
ghost use Rattle.dnp_master.specs.steps.Gathering.{HasRow, IsKnown};
ghost use Rattle.dnp_pointdb.specs.Plan.{Plan};

use dnp_objects::{Kind, Row};
use dnp_pointdb::PointPlan;

/// How many blocks of a kind are looked through for the one that has a point. Most plans have no more.
const FEW_BLOCKS: usize = 8;

/// Points of a kind that the plan has: so many, with the indices from the first one on. Rows that come one after the
/// other mostly are of one block, so that this spares a look-up for each of them.
#[derive(Clone, Copy)]
pub(crate) struct Known {
    pub kind: Kind,
    pub first: u16,
    pub count: usize,
}

impl Known {
    /// No points.
    #[inline(always)]
    pub fn nothing() -> Known
        ensures { (plan : Plan) → IsKnown plan result }
    {
        Known {
            kind: Kind::Binary,
            first: 0,
            count: 0,
        }
    }

    /// Whether the row's point is one of them.
    #[inline(always)]
    pub fn has(&self, row: &Row) -> bool
        ensures { IsTrue result → HasRow self.now row.now }
    {
        row.kind == self.kind
            && row.index >= self.first
            && usize::from(row.index - self.first) < self.count
    }
}

/// Points that the plan has, the one with this kind and index and its neighbours; none, where it lacks that one. It
/// stands apart, since it is rare.
#[cold]
#[inline(never)]
pub(crate) fn look_up(plan: &PointPlan, kind: Kind, index: u16) -> Option<Known>
    ensures value { is_some result ≡ is_some (class_at plan.now kind index) }
    ensures known { IfSome result (IsKnown plan.now) }
{
    plan.class_of(kind, index)?;
    let blocks = plan.blocks(kind);
    for number in 0..blocks.len().min(FEW_BLOCKS) {
        let block = &blocks[number];
        let first = block.base;
        let count = block.points.as_slice().len();
        if first <= index && usize::from(index - first) < count {
            return Some(Known { kind, first, count });
        }
    }
    Some(Known {
        kind,
        first: index,
        count: 1,
    })
}
