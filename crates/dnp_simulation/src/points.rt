//! The points of a substation, and what is read of them above.

use crate::ledger::{Ledger, classes_of};
use crate::violation::Violation;
use dnp_concentrator::{IndexKind, SubPlan};
use dnp_objects::{Kind, flags};
use dnp_pointdb::{PointDb, Reading};

/// The points of a substation, there and above.
#[derive(Drop)]
pub struct Shown<'a> {
    /// The substation's number.
    pub number: u8,
    /// Its points.
    pub there: &'a PointDb,
    /// The points that each centre reads.
    pub above: [&'a PointDb; 2],
    /// Whether nothing fails any more, so that each reads alike; else its link is lost, so that none shows ONLINE above.
    pub is_end: bool,
}

/// Says whether a point reads above as it does there. If its substation has not read it since it began again, but has kept its
/// events, one of these may come after the present value, and then the point reads above as the event says.
fn reads_alike(above: &Reading, there: &Reading) -> bool {
    let is_same = above.value == there.value && above.flags == there.flags;
    is_same || (there.flags & flags::RESTART != 0 && above.flags & flags::ONLINE != 0)
}

impl Shown<'_> {
    /// Says whether a point reads otherwise above, under this index, than it has to.
    fn is_wrong(&self, kind: Kind, index: u16, above: u16) -> bool {
        let there = self.there.reading(kind, index);
        for points in self.above {
            let is_right = match (points.reading(kind, above), there) {
                (Some(above), Some(there)) if self.is_end => reads_alike(&above, &there),
                (Some(above), _) => self.is_end || above.flags & flags::ONLINE == 0,
                (None, there) => !self.is_end || there.is_none(),
            };
            if !is_right {
                return true;
            }
        }
        false
    }
}

impl Ledger {
    /// Gives the first point of a substation that shows ONLINE above, or at the end the first that reads otherwise there.
    pub fn audit_points(&self, plan: &SubPlan, shown: &Shown<'_>) -> Option<Violation> {
        let map = self.map.first()?;
        for kind in Kind::ALL {
            for place in 0..classes_of(plan, kind).len() {
                let index = u16::try_from(place).unwrap_or(0);
                let of_points = IndexKind::of_points(kind);
                let Some(above) = map.above(shown.number, of_points, index) else {
                    continue;
                };
                if shown.is_wrong(kind, index, above) {
                    return Some(if shown.is_end {
                        Violation::Stale(shown.number, kind, index)
                    } else {
                        Violation::Online(shown.number, kind, index)
                    });
                }
            }
        }
        None
    }
}
