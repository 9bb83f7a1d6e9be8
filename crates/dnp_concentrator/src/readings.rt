//! Readings above, as substations report them.

ghost use Rattle.std.specs.Prelude.{◌≡◌, ◌+◌, ◌≤◌};
ghost use Rattle.dnp_pointdb.specs.declared.limits.TheConstants.{INDICES};
ghost use Rattle.dnp_concentrator.specs.declared.index_kind.IndexKind.{IndexKind as KindValue};
ghost use Rattle.dnp_concentrator.specs.Below as spec;
ghost use Rattle.dnp_concentrator.specs.IndexMap.{span_of};
ghost use Rattle.dnp_concentrator.specs.Mapped.{row_in};

use crate::index_kind::IndexKind;
use crate::index_map::IndexMap;
use crate::span::Spans;
use dnp_objects::Row;
use dnp_pointdb::{PointDb, Reading};

/// What a row says of its point.
fn reading_of(row: &Row) -> Reading
    ensures { result ≡ spec.reading_of row.now }
{
    Reading {
        value: row.value,
        flags: row.flags,
        time: row.time,
    }
}

/// Sets the reading above by a row of a substation whose indices stand above so, if its point is there.
#[inline]
fn set_reading(spans: &Spans, points: &mut PointDb, row: &Row)
    requires { (kind : KindValue) → (span_of spans.now kind).base + (span_of spans.now kind).count ≤ INDICES }
    ensures { points.new ≡ spec.set_by points.old (row_in spans.now row.now) }
{
    if let Some(index) = spans.above(IndexKind::of_points(row.kind), row.index) {
        let _ = points.set(row.kind, index, reading_of(row));
    }
}

/// Sets the readings above by a substation's rows, in order. A row of a point that isn't there above, or that no
/// reading of its kind can be, sets nothing. No reading that is set is an event above.
///
/// Where the substation's indices stand is looked up once, and the block of a point where the last one was.
fn set_readings(map: &IndexMap, points: &mut PointDb, substation: u8, rows: &[Row])
    ensures { points.new ≡ spec.readings_set map.now substation points.old rows.now }
{
    let spans = map.spans_of(substation);
    for row in rows {
        set_reading(&spans, points, row);
    }
}

/// Sets the readings above by what a substation's fragment has: its events first, and then its present values.
pub(crate) fn set_taken(
    map: &IndexMap,
    points: &mut PointDb,
    substation: u8,
    events: &[Row],
    statics: &[Row],
)
    ensures { points.new ≡ spec.readings_set map.now substation (spec.readings_set map.now substation points.old events.now) statics.now }
{
    set_readings(map, points, substation, events);
    set_readings(map, points, substation, statics);
}
