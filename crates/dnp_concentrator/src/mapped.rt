//! Rows and commands through the index map.

ghost use Rattle.std.specs.Prelude.{◌≡◌, ◌+◌, ◌<◌, ◌≤◌, IfSome, IfOk, All};
ghost use Rattle.std.specs.Option.{option_and_then};
ghost use Rattle.dnp_objects.specs.Events.{IsEvent};
ghost use Rattle.dnp_eventbuf.specs.FitsLane.{FitsLane};
ghost use Rattle.dnp_pointdb.specs.declared.limits.TheConstants.{INDICES};
ghost use Rattle.dnp_concentrator.specs.declared.index_kind.IndexKind.{IndexKind as KindValue};
ghost use Rattle.dnp_concentrator.specs.IndexMap.{span_of};
ghost use Rattle.dnp_concentrator.specs.Mapped as spec;

use crate::index_kind::IndexKind;
use crate::index_map::IndexMap;
use crate::limits::MAX_SUBSTATIONS;
use crate::span::Spans;
use dnp_objects::{Command, Kind, Lane, LaneRow, Row};
use dnp_pointdb::{PointPlan, lane_of};
use std::alloc::{AllocError, Global};

/// The same command to the output of another index.
fn with_index(command: &Command, new: u16) -> Command
    ensures { result ≡ spec.with_index command.now new }
{
    match *command {
        Command::Block {
            code,
            count,
            on_ms,
            off_ms,
            ..
        } => Command::Block {
            index: new,
            code,
            count,
            on_ms,
            off_ms,
        },
        Command::Set16 { value, .. } => Command::Set16 { index: new, value },
        Command::Set32 { value, .. } => Command::Set32 { index: new, value },
    }
}

impl IndexMap {
    /// A substation's row as it stands above: under the index above, and else unchanged. `None` where the
    /// substation has no such index.
    pub fn row_above(&self, substation: u8, row: &Row) -> Option<Row>
        ensures { result ≡ spec.row_above self.now substation row.now }
    {
        let index = self.above(substation, IndexKind::of_points(row.kind), row.index)?;
        Some(Row { index, ..*row })
    }

    /// The number of the substation that a row above is of, and the row as it stands there. `None` where its index is
    /// of no substation.
    pub fn row_below(&self, row: &Row) -> Option<(u8, Row)>
        ensures { result ≡ spec.row_below self.now row.now }
    {
        let (substation, index) = self.below(IndexKind::of_points(row.kind), row.index)?;
        Some((substation, Row { index, ..*row }))
    }

    /// A command to a substation's output as it stands above: under the index above, and else unchanged. `None` where the
    /// substation has no such output or setpoint.
    pub fn command_above(&self, substation: u8, command: &Command) -> Option<Command>
        ensures { result ≡ spec.command_above self.now substation command.now }
    {
        let index = self.above(substation, IndexKind::of_command(command), command.index())?;
        Some(with_index(command, index))
    }

    /// The number of the substation that a command above is for, below 16, and the command as it goes there. `None`
    /// where its index is of no substation.
    pub fn command_below(&self, command: &Command) -> Option<(u8, Command)>
        ensures value { result ≡ spec.command_below self.now command.now }
        ensures substation { IfSome result (λ found. found.0 < MAX_SUBSTATIONS) }
    {
        let (substation, index) = self.below(IndexKind::of_command(command), command.index())?;
        Some((substation, with_index(command, index)))
    }
}

/// A row above with the lane that it goes to: that of the class that the plan gives its point, and of its kind. `None`
/// where there is no such point, or its class has no events.
fn lane_row(points: &PointPlan, row: Row) -> Option<LaneRow>
    ensures { result ≡ spec.lane_row points.now row }
{
    let class = points.class_of(row.kind, row.index)?;
    let lane = lane_of(class, row.kind)?;
    Some(LaneRow { lane, row })
}

/// An event of a substation whose indices stand so, as it is queued above: `points` are those above.
#[inline]
fn queued_row(spans: &Spans, points: &PointPlan, event: &Row) -> Option<LaneRow>
    requires { (kind : KindValue) → (span_of spans.now kind).base + (span_of spans.now kind).count ≤ INDICES }
    ensures { result ≡ option_and_then (spec.lane_row points.now) (spec.row_in spans.now event.now) }
{
    let index = spans.above(IndexKind::of_points(event.kind), event.index)?;
    lane_row(points, Row { index, ..*event })
}

/// A substation's events as they are queued above, in order: each under its index above and in the lane of the class
/// that the plan gives its point there, and else unchanged. An event that is of no point with a class above is passed
/// over. `points` are those above. Where the substation's indices stand is looked up once.
pub fn queued_rows(
    alloc: Global,
    map: &IndexMap,
    points: &PointPlan,
    substation: u8,
    events: &[Row],
) -> Result<Vec<LaneRow>, AllocError>
    ensures rows { IfOk result (λ rows. rows.items ≡ spec.queued_rows map.now points.now substation events.now) }
    ensures carried { All IsEvent events.now → IfOk result (λ rows. All FitsLane rows.items) }
{
    // To count the substations is to know that their indices above have 16 bits.
    prove!(map.substations() <= MAX_SUBSTATIONS);
    let spans = map.spans_of(substation);
    let mut rows = Vec::with_capacity(alloc, events.len())?;
    for event in events {
        if let Some(row) = queued_row(&spans, points, event) {
            rows.push(row)?;
        }
    }
    Ok(rows)
}
