//! What a plan has, by what stores hold of it: events and commands that files kept from an earlier run.

ghost use Rattle.std.specs.Prelude.{◌≡◌, ◌<◌, false, is_some, IsTrue, true};
ghost use Rattle.dnp_concentrator.specs.IndexKinds.{kind_of_command};
ghost use Rattle.dnp_concentrator.specs.IndexMap.{span_of};
ghost use Rattle.dnp_concentrator.specs.Mapped.{command_above};
ghost use Rattle.dnp_concentrator.specs.Plan.{map_of, spans_of};

use crate::files::StoreFile;
use crate::lines::{OfFile, Working};
use dnp_concentrator::{Plan, SubPlan};
use dnp_controls::{Book, Entry};
use dnp_eventbuf::{CENTRES, JournalStore, MAX_CAPACITY, PairLanes};
use dnp_objects::{Command, Kind, LANES, Lane, Row};
use dnp_tcp::exit;
use dnp_terminal::{Meter, Terminal};
use std::process::ExitCode;
use std::rt::Clock;

/// How many rows or controls are looked at at once.
const PAGE: usize = 1_000;

/// The classes of a substation's points of a kind.
fn classes_of(substation: &SubPlan, kind: Kind) -> &[u8] {
    match kind {
        Kind::Binary => substation.binary.as_slice(),
        Kind::Counter => substation.counter.as_slice(),
        Kind::Analog => substation.analog.as_slice(),
    }
}

/// The class of the point that a row is of, whose index is one above; none where the plan has no such point.
fn class_above(plan: &Plan, row: &Row) -> Option<u8> {
    for substation in plan.substations.as_slice() {
        let base = match row.kind {
            Kind::Binary => substation.base[0],
            Kind::Counter => substation.base[1],
            Kind::Analog => substation.base[2],
        };
        if let Some(at) = row.index.checked_sub(base)
            && let Some(class) = classes_of(substation, row.kind).get(usize::from(at))
        {
            return Some(*class);
        }
    }
    None
}

/// How many outputs a substation has that such a command can be for, and the index above of the first.
fn outputs_for(substation: &SubPlan, command: &Command) -> (u16, u16)
    ensures count { result.0 ≡ (span_of (spans_of substation.now) (kind_of_command command.now)).count }
    ensures base { result.1 ≡ (span_of (spans_of substation.now) (kind_of_command command.now)).base }
{
    match command {
        Command::Block { .. } => (substation.outputs, substation.base[3]),
        Command::Set16 { .. } | Command::Set32 { .. } => (substation.setpoints, substation.base[4]),
    }
}

/// Whether a substation of the plan has the output or the setpoint of a command, whose index is the substation's own: a centre with
/// this plan then finds it.
pub fn has_output(plan: &Plan, substation: u8, command: &Command) -> bool
    ensures { result ≡ is_some (command_above (map_of plan.now) substation command.now) }
{
    match plan.substations.as_slice().get(usize::from(substation)) {
        Some(substation) => command.index() < outputs_for(substation, command).0,
        None => false,
    }
}

/// Whether the plan has the output or the setpoint of a command, whose index is one above.
fn has_output_above(plan: &Plan, command: &Command) -> bool {
    for substation in plan.substations.as_slice() {
        let (count, base) = outputs_for(substation, command);
        if let Some(at) = command.index().checked_sub(base)
            && at < count
        {
            return true;
        }
    }
    false
}

/// Says on standard error that a file can't be read, and gives the exit status of a fault.
fn unread<R: Eprint + Terminal + Clock>(rt: &R, place: &StoreFile<'_>) -> ExitCode {
    place.say(rt, OfFile::NoRows);
    ExitCode::from(exit::FAULT)
}

/// Says on standard error which row is of no point of the plan, and gives the exit status of a refused input.
fn no_point<R: Eprint + Terminal + Clock>(
    rt: &R,
    place: &StoreFile<'_>,
    id: u64,
    row: &Row,
) -> ExitCode {
    place.say(rt, OfFile::NoPoint(id, row));
    ExitCode::from(exit::REFUSED)
}

/// Says on standard error which row is of no point of the plan that has events, and gives the exit status of a refused
/// input.
fn no_event<R: Eprint + Terminal + Clock>(
    rt: &R,
    place: &StoreFile<'_>,
    id: u64,
    row: &Row,
) -> ExitCode {
    place.say(rt, OfFile::NoEvent(id, row));
    ExitCode::from(exit::REFUSED)
}

/// Looks whether each row of the queue for this centre is of a point of the plan that has events: the centre would confirm
/// no other, and so nothing that stands behind it. Where one isn't, that is said, and the exit status is told.
pub(crate) fn look_at_queue<Q: PairLanes, R: AllocGlobal + Eprint + Terminal + Clock>(
    rt: &R,
    place: &StoreFile<'_>,
    queue: &mut Q,
    centre: u8,
    plan: &Plan,
) -> Result<(), ExitCode>
    requires { centre < CENTRES }
{
    for number in 0..LANES {
        let Some(lane) = Lane::numbered(number) else {
            return Ok(());
        };
        let Ok(rows) = queue.offer(rt.alloc(), centre, lane, 0, MAX_CAPACITY as usize) else {
            return Err(unread(rt, place));
        };
        for numbered in rows.iter() {
            if class_above(plan, &numbered.row).unwrap_or(0) == 0 {
                return Err(no_event(rt, place, numbered.id, &numbered.row));
            }
        }
    }
    Ok(())
}

/// What keeps a journal from being taken.
#[derive(Clone, Copy)]
enum Amiss {
    /// It can't be read.
    Unread,
    /// The row with this number is of no point of the plan.
    NoPoint(u64, Row),
}

/// The first thing that keeps the journal from being taken, if one does: each row is looked at, in pages, and so many of them shown.
fn first_amiss<J: JournalStore, R: AllocGlobal + Eprint + Terminal + Clock>(
    rt: &R,
    meter: &Meter<'_, R>,
    path: &str,
    journal: &mut J,
    plan: &Plan,
) -> Option<Amiss> {
    let count = journal.count();
    let mut from = 0;
    let mut done: u64 = 0;
    for _ in 0..u64::MAX {
        let Ok(rows) = journal.rows(rt.alloc(), from, PAGE) else {
            return Some(Amiss::Unread);
        };
        let last = rows.last()?;
        from = last.id;
        for numbered in rows.iter() {
            if class_above(plan, &numbered.row).is_none() {
                return Some(Amiss::NoPoint(numbered.id, numbered.row));
            }
        }
        done = done.saturating_add(rows.len() as u64);
        if let Some(percent) = meter.due(done, count) {
            meter.draw(&Working::Looking(path, percent));
        }
    }
    None
}

/// Looks whether each row of the journal is of a point of the plan, in pages. Where one isn't, that is said, and the exit
/// status is told.
pub(crate) fn look_at_journal<J: JournalStore, R: AllocGlobal + Eprint + Terminal + Clock>(
    rt: &R,
    place: &StoreFile<'_>,
    journal: &mut J,
    plan: &Plan,
) -> Result<(), ExitCode> {
    let meter = Meter::new(rt);
    let amiss = first_amiss(rt, &meter, place.path, journal, plan);
    meter.end();
    match amiss {
        None => Ok(()),
        Some(Amiss::Unread) => Err(unread(rt, place)),
        Some(Amiss::NoPoint(id, row)) => Err(no_point(rt, place, id, &row)),
    }
}

/// Looks whether each control of a book is for an output or a setpoint of the plan, in pages: of a substation by its own
/// index, or `above` by the index there. Where one isn't, that is said, and the exit status is told.
pub(crate) fn look_at_book<B: Book, R: AllocGlobal + Eprint + Terminal + Clock>(
    rt: &R,
    place: &StoreFile<'_>,
    book: &mut B,
    plan: &Plan,
    above: bool,
) -> Result<(), ExitCode> {
    let mut from = 0;
    for _ in 0..u64::MAX {
        let Ok(entries) = book.rows(rt.alloc(), from, PAGE) else {
            return Err(unread(rt, place));
        };
        let Some(last) = entries.last() else {
            return Ok(());
        };
        from = last.id;
        for entry in entries.iter() {
            if !is_planned(plan, entry, above) {
                return Err(no_output(rt, place, entry));
            }
        }
    }
    Ok(())
}

/// Whether a control is for an output or a setpoint of the plan, however far it is.
fn is_planned(plan: &Plan, entry: &Entry, above: bool) -> bool
    ensures below { above ≡ false → result ≡ is_some (command_above (map_of plan.now) entry.now.target entry.now.command) }
    ensures above { above ≡ true → IsTrue result → entry.now.target ≡ 0 }
{
    if above {
        entry.target == 0 && has_output_above(plan, &entry.command)
    } else {
        has_output(plan, entry.target, &entry.command)
    }
}

/// Says on standard error which control is for no output of the plan, and gives the exit status of a refused input.
fn no_output<R: Eprint + Terminal + Clock>(
    rt: &R,
    place: &StoreFile<'_>,
    entry: &Entry,
) -> ExitCode {
    place.say(rt, OfFile::NoOutput(entry));
    ExitCode::from(exit::REFUSED)
}
