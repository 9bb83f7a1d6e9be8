//! The points of an outstation that is asked in rounds, each with its last row, and which of them a screen shows.

ghost use Rattle.std.specs.Prelude.{◌≡◌, ◌==◌, ◌+◌, ℕ, None, OnOk, Some, if◌then◌else◌, min, ◌≤◌};
ghost use Rattle.dnp_poll.specs.Tables as spec;

use crate::rows::{Family, ShownRow};
use std::alloc::{AllocError, Global};
use std::collections::BTreeMap;

/// A point in a table.
#[derive(Clone, Copy, Debug, PartialEq, Eq)]
pub struct TableLine {
    /// Its last row. Where that has no time and changed nothing, the time is that of a row before.
    pub shown: ShownRow,
    /// The round in which it came first, or in which its value or its flags changed last.
    pub changed: u64,
}

impl TableLine {
    /// Whether it is marked in this round: it changed in it, or came first, and the round is not the first one.
    pub fn is_marked(&self, round: u64) -> bool
        ensures { result ≡ spec.is_marked self.now round }
    {
        self.changed == round && round != 1
    }
}

/// The points of an outstation, each with its last row, in the order of their families and indices.
#[derive(Drop)]
pub struct Table {
    /// The lines, by the numbers of their points.
    lines: BTreeMap<u32, TableLine>,
}

/// The place of a family among the others.
fn rank(family: Family) -> u32
    ensures rank { result ≡ spec.rank family }
    ensures low { result ≤ 4 }
{
    match family {
        Family::Binary => 0,
        Family::Counter => 1,
        Family::Analog => 2,
        Family::Output => 3,
        Family::Setpoint => 4,
    }
}

/// The number of a point. No two points have the same.
fn number_at(family: Family, index: u16) -> u32
    ensures { result ≡ spec.number_at family index }
{
    rank(family) * 0x1_0000 + u32::from(index)
}

/// The number of the point that a row is of.
fn number_of(shown: &ShownRow) -> u32
    ensures { result ≡ spec.number_of shown.now }
{
    number_at(shown.family, shown.row.index)
}

/// Whether two rows of a point have the same value and the same flags.
fn is_same(one: &ShownRow, other: &ShownRow) -> bool
    ensures { result ≡ spec.is_same one.now other.now }
{
    one.row.value.eq(&other.row.value) && one.row.flags == other.row.flags
}

/// A row, with the time of the one before where it has none.
fn with_time(shown: &ShownRow, before: &ShownRow) -> ShownRow
    ensures { result ≡ spec.with_time shown.now before.now }
{
    let mut shown = *shown;
    if shown.row.time.is_none() {
        shown.row.time = before.row.time;
    }
    shown
}

/// The line of a point after a row of it came in this round, where it had that line before, if it had any.
fn after(before: Option<TableLine>, round: u64, shown: &ShownRow) -> TableLine
    ensures { result ≡ spec.after before round shown.now }
{
    match before {
        Some(line) if is_same(&line.shown, shown) => TableLine {
            shown: with_time(shown, &line.shown),
            changed: line.changed,
        },
        _ => TableLine {
            shown: *shown,
            changed: round,
        },
    }
}

impl Table {
    /// A table without points.
    pub fn new(alloc: Global) -> Table
        ensures { (number : ℕ) → spec.line_at result number ≡ None }
    {
        Table {
            lines: BTreeMap::new(alloc),
        }
    }

    /// Takes a row that came in this round.
    pub fn put(&mut self, round: u64, shown: &ShownRow) -> Result<(), AllocError>
        ensures { OnOk result ((number : ℕ) → spec.line_at self.new number
            ≡ (if spec.number_of shown.now == number then Some (spec.after (spec.line_at self.old number) round shown.now) else spec.line_at self.old number)) }
    {
        let number = number_of(shown);
        let line = after(self.lines.get(&number).copied(), round, shown);
        self.lines.insert(number, line)?;
        Ok(())
    }

    /// How many points it has.
    pub fn len(&self) -> usize {
        self.lines.len()
    }

    /// How many of them are marked in this round.
    pub fn marked(&self, round: u64) -> usize {
        self.lines
            .values()
            .filter(|line| line.is_marked(round))
            .count()
    }

    /// The lines that are drawn in this round where there is room for so many, in order.
    pub fn drawn(
        &self,
        alloc: Global,
        round: u64,
        room: usize,
    ) -> Result<Vec<TableLine>, AllocError> {
        let mut drawn = Vec::new(alloc);
        let mut room = Room::of(room, self.marked(round));
        for line in self.lines.values() {
            if room.take(line.is_marked(round)) {
                drawn.push(*line)?;
            }
        }
        Ok(drawn)
    }
}

/// The lines that there is room for still.
#[derive(Clone, Copy, Debug, PartialEq, Eq)]
pub struct Room {
    /// How many that are marked.
    pub marked: usize,
    /// How many that aren't.
    pub others: usize,
}

impl Room {
    /// Room for so many lines, where so many are marked: these come first, and the others have what is left.
    pub fn of(lines: usize, marked: usize) -> Room
        ensures marked { result.marked ≡ min lines marked }
        ensures all { result.marked + result.others ≡ lines }
    {
        let marked = lines.min(marked);
        Room {
            marked,
            others: lines - marked,
        }
    }

    /// Whether there is room for the next line, which is marked or not; it takes that.
    pub fn take(&mut self, is_marked: bool) -> bool
        ensures taken { result ≡ spec.has_room self.old is_marked }
        ensures left { self.new ≡ spec.room_after self.old is_marked }
    {
        if is_marked {
            let has_room = self.marked > 0;
            self.marked = self.marked.saturating_sub(1);
            has_room
        } else {
            let has_room = self.others > 0;
            self.others = self.others.saturating_sub(1);
            has_room
        }
    }
}
