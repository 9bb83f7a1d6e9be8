//! The lines of a script that do nothing, for the person who wrote it.

ghost use Rattle.std.specs.Prelude.{◌≡◌, ◌<◌, IfOk, IfSome};
ghost use Rattle.dnp_daemons.specs.IdleLines as spec;
ghost use Rattle.dnp_daemons.specs.Words.{lines_of};
ghost use Rattle.dnp_daemons.specs.steps.Idle as step;
ghost use Rattle.dnp_pointdb.specs.Ranges as range;

use crate::script::ScriptLine;
use crate::script::lines::read_line;
use crate::script::words::first_line;
use dnp_concentrator::{IndexKind, Plan};
use dnp_master::Task;
use dnp_objects::{Command, Kind, MAX_TIME};
use dnp_pointdb::Reading;
use dnp_world::Event;
use std::alloc::{AllocError, Global};

/// Why a line of a script does nothing, whatever happened before it.
#[derive(Clone, Copy, Debug, PartialEq, Eq)]
pub enum IdleReason {
    /// The substation has no point of this kind and index.
    NoPoint,
    /// No object of the kind can carry the value and the flags.
    ValueRange,
    /// The time is 2^48 ms or more.
    TimeRange,
    /// The substation has no binary output of this index.
    NoOutput,
    /// The substation has no setpoint of this index.
    NoSetpoint,
    /// Events are meant, and class 0 has none.
    NoEvents,
    /// No milliseconds pass.
    NoTime,
}

/// The lines of a script that do nothing.
#[derive(Clone, Copy, Debug, PartialEq, Eq)]
pub struct IdleLines {
    /// How many they are, 1 or more.
    pub count: usize,
    /// The number of the first, counted from 1.
    pub first: usize,
    /// Why the first does nothing.
    pub reason: IdleReason,
}

/// Whether the substation has this point, output or setpoint.
fn has_index(plan: &Plan, substation: u8, kind: IndexKind, index: u16) -> bool
    ensures { result ≡ spec.has_index plan.now substation kind index }
{
    match plan.substations.as_slice().get(usize::from(substation)) {
        Some(planned) => usize::from(index) < planned.spans().of(kind).count,
        None => false,
    }
}

/// Whether an object of the kind can carry the value and the flags.
fn is_carried(kind: Kind, reading: &Reading) -> bool
    ensures { result ≡ range.is_carried kind reading.now }
{
    match kind {
        Kind::Binary => (reading.value == 0 || reading.value == 1) && reading.flags < 128,
        Kind::Counter => 0 <= reading.value && reading.value < 0x1_0000_0000,
        Kind::Analog => -0x8000_0000 <= reading.value && reading.value < 0x8000_0000,
    }
}

/// Whether the time is below `MAX_TIME`, or absent.
fn is_in_time(time: Option<u64>) -> bool
    ensures { result ≡ range.is_in_time time }
{
    match time {
        None => true,
        Some(time) => time < MAX_TIME,
    }
}

/// Why a point of the kind can't read this.
fn reading_reason(kind: Kind, reading: &Reading) -> Option<IdleReason>
    ensures { result ≡ spec.reading_reason kind reading.now }
{
    if !is_carried(kind, reading) {
        return Some(IdleReason::ValueRange);
    }
    if !is_in_time(reading.time) {
        return Some(IdleReason::TimeRange);
    }
    None
}

/// What a command names that the plan lacks.
fn unnamed_by(command: &Command) -> IdleReason
    ensures { result ≡ spec.unnamed_by command.now }
{
    match command {
        Command::Block { .. } => IdleReason::NoOutput,
        Command::Set16 { .. } | Command::Set32 { .. } => IdleReason::NoSetpoint,
    }
}

/// Why a master asks the task in no state.
fn task_reason(task: &Task) -> Option<IdleReason>
    ensures { result ≡ spec.task_reason task.now }
{
    match task {
        Task::Enable(classes) | Task::Disable(classes) if classes.has(0) => {
            Some(IdleReason::NoEvents)
        }
        Task::WriteTime(time) if *time >= 1 << 48 => Some(IdleReason::TimeRange),
        _ => None,
    }
}

/// Why an event does nothing on any system of the plan, if it does.
fn event_reason(event: &Event, plan: &Plan) -> Option<IdleReason>
    ensures { result ≡ spec.idle_reason plan.now (ScriptLine.One event.now) }
{
    match event {
        Event::Change {
            substation,
            kind,
            index,
            reading,
        } => {
            if has_index(plan, *substation, IndexKind::of_points(*kind), *index) {
                reading_reason(*kind, reading)
            } else {
                Some(IdleReason::NoPoint)
            }
        }
        Event::Issue {
            centre: _,
            substation,
            command,
        } => {
            let kind = IndexKind::of_command(command);
            if has_index(plan, *substation, kind, command.index()) {
                None
            } else {
                Some(unnamed_by(command))
            }
        }
        Event::Ask(_, task) => task_reason(task),
        Event::Pass(0) => Some(IdleReason::NoTime),
        _ => None,
    }
}

/// Why a line of a text does nothing on any system of the plan, if it does. An error says that it ran out of memory.
fn line_reason(alloc: Global, line: &str, plan: &Plan) -> Result<Option<IdleReason>, AllocError>
    ensures { IfOk result (λ reason. reason ≡ spec.reason_of plan.now line.now) }
{
    let substations = plan.substations.as_slice().len();
    match read_line(alloc, line, substations)? {
        Some(ScriptLine::One(event)) => Ok(event_reason(&event, plan)),
        _ => Ok(None),
    }
}

/// Those found so far, and the line of this number where there is a reason for it.
fn found_after(
    found: Option<IdleLines>,
    number: usize,
    reason: Option<IdleReason>,
) -> Option<IdleLines>
    requires { IfSome found (λ lines. lines.count < number) }
    ensures { result ≡ step.found_after found number reason }
{
    let Some(reason) = reason else {
        return found;
    };
    match found {
        None => Some(IdleLines {
            count: 1,
            first: number,
            reason,
        }),
        Some(lines) => Some(IdleLines {
            count: lines.count + 1,
            ..lines
        }),
    }
}

/// The lines of a script that do nothing on any system of its plan, whatever happened before them, or none where there are
/// none: how many they are, and the first of them with its reason. An error says that it ran out of memory.
///
/// A change does nothing whose point the plan lacks, or can't have that reading; an `issue` whose output or setpoint the
/// plan lacks; `enable` and `disable` of class 0; a time of 2^48 ms or more that is to be set; and a `pass` of 0 ms. Not
/// counted is what does nothing only as the system stands, such as a delivery on an empty line, and damage by octets that
/// read as a frame. A line that doesn't fit isn't counted either: [`script_fault`](crate::script_fault) tells of it.
pub fn idle_lines(alloc: Global, text: &str, plan: &Plan) -> Result<Option<IdleLines>, AllocError>
    ensures { IfOk result (λ found. found ≡ spec.summed (spec.idle_from plan.now 1 (lines_of text.now))) }
{
    let mut found = None;
    let mut number = 1;
    let mut rest = text;
    while !rest.is_empty() {
        let (line, more) = first_line(rest);
        found = found_after(found, number, line_reason(alloc, line, plan)?);
        number += 1;
        rest = more;
    }
    Ok(found)
}
