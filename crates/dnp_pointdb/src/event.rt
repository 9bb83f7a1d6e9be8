//! When a change of a point is an event.

ghost use Rattle.std.specs.Prelude.{◌≡◌};
ghost use Rattle.dnp_pointdb.specs.Events as spec;

use crate::point::Point;
use crate::reading::{LastReport, Reading};
use dnp_objects::{Kind, Lane, LaneRow, Row};

/// Whether the reading has other flags than the last report, or a value further from it than the
/// deadband.
fn differs(point: Point, last: LastReport, reading: Reading) -> bool
    ensures { result ≡ spec.differs point last reading }
{
    reading.flags != last.flags || reading.value.abs_diff(last.value) > u64::from(point.deadband)
}

/// The lane of a class and a kind; class 0 has none (IEEE Std 1815-2012, application layer: event classes).
pub fn lane_of(class: u8, kind: Kind) -> Option<Lane>
    ensures { result ≡ spec.lane_of class kind }
{
    Lane::new(class, kind)
}

/// The row that a change of the point makes, if it makes one.
pub fn event_of(
    kind: Kind,
    index: u16,
    point: Point,
    last: LastReport,
    reading: Reading,
) -> Option<LaneRow>
    ensures { result ≡ spec.event_of kind index point last reading }
{
    if !differs(point, last, reading) {
        return None;
    }
    let lane = lane_of(point.class, kind)?;
    Some(LaneRow {
        lane,
        row: Row {
            kind,
            index,
            flags: reading.flags,
            value: reading.value,
            time: reading.time,
        },
    })
}
