//! The events that were made, and which of them are in which journal.

ghost use Rattle.std.specs.Prelude.{◌≡◌, ◌<◌, length, IfSome};
ghost use Rattle.std.specs.List.{HoldsAt};

use dnp_concentrator::{IndexMap, Plan, SubPlan};
use dnp_eventbuf::CENTRES;
use dnp_objects::{KINDS, Kind, LANES, LaneRow, Row};
use std::alloc::{AllocError, Global};

/// An event of a point.
#[derive(Clone, Copy)]
struct Event {
    /// The row that was made.
    row: Row,
    /// The number of its lane.
    lane: usize,
    /// When it was made, in milliseconds.
    at: u64,
    /// Which journals have it, by the centre's number.
    has: [bool; 2],
}

/// The events of a point.
#[derive(Drop)]
struct PointEvents {
    /// In the order in which they were made.
    events: Vec<Event>,
    /// The place of its last event that came to each journal, by the centre's number.
    latest: [usize; 2],
}

/// A point whose events are followed.
#[derive(Clone, Copy)]
pub struct Followed {
    /// What it measures.
    pub kind: Kind,
    /// Its index at the substation.
    pub index: u16,
    /// How much its value has to change for an event.
    pub deadband: u32,
}

/// What a row of a journal is.
#[derive(Clone, Copy)]
enum Found {
    /// It tells no event that was made.
    Invented,
    /// It tells an event that the journal has already.
    Again,
    /// It tells an event that is older than one of its point that the journal has: its lane, how long ago it was made.
    Late(usize, u64),
    /// It tells an event: its lane, how many milliseconds ago it was made.
    New(usize, u64),
}

/// What a row that came to a journal says.
#[derive(Clone, Copy)]
pub enum Noted {
    /// It tells no event that was made.
    Invented,
    /// It tells an event that the journal has already.
    Again,
    /// It tells an event that the journal did not have, made so many milliseconds ago.
    Aged(u64),
}

/// The events that were made at all substations.
#[derive(Drop)]
pub struct Ledger {
    /// Which substation has which index above.
    pub map: Vec<IndexMap>,
    /// The place of the first point of each kind, by the substation's number and the kind's.
    firsts: Vec<[usize; KINDS]>,
    /// The events of each point.
    points: Vec<PointEvents>,
    /// How many events were made in each lane.
    pub made: [u64; LANES],
    /// How many of them each journal has, by the centre's number.
    pub kept: [[u64; LANES]; 2],
    /// How many rows tell an event again, by the centre's number.
    pub again: [u64; 2],
    /// How many events came after a later one of their point, by the centre's number.
    pub late: [u64; 2],
    /// How many events were lost in each lane as substations were restarted.
    pub gone: [u64; LANES],
}

/// Gives the classes of a substation's points of a kind.
pub fn classes_of(substation: &SubPlan, kind: Kind) -> &[u8] {
    match kind {
        Kind::Binary => substation.binary.as_slice(),
        Kind::Counter => substation.counter.as_slice(),
        Kind::Analog => substation.analog.as_slice(),
    }
}

/// Gives how much a point's value has to change for an event.
fn deadband_of(substation: &SubPlan, kind: Kind, place: usize) -> u32 {
    if kind != Kind::Analog {
        return 0;
    }
    match substation.deadband.as_slice().get(place) {
        Some(deadband) => *deadband,
        None => 0,
    }
}

/// Gives the points of a substation that have a class, and so events.
pub fn points_of(alloc: Global, substation: &SubPlan) -> Result<Vec<Followed>, AllocError> {
    let mut points = Vec::new(alloc);
    for kind in Kind::ALL {
        put_points(substation, kind, &mut points)?;
    }
    Ok(points)
}

/// Adds the points of a kind that have a class.
fn put_points(
    substation: &SubPlan,
    kind: Kind,
    points: &mut Vec<Followed>,
) -> Result<(), AllocError> {
    for (place, class) in classes_of(substation, kind).iter().enumerate() {
        if 0 < *class {
            points.push(Followed {
                kind,
                index: u16::try_from(place).unwrap_or(0),
                deadband: deadband_of(substation, kind, place),
            })?;
        }
    }
    Ok(())
}

/// Adds to the number of a lane.
fn count_lane(counts: &mut [u64; LANES], lane: usize, more: u64) {
    if let Some(count) = counts.get_mut(lane) {
        *count = count.saturating_add(more);
    }
}

/// Gives the first place from one on, and before another, at which the event is that a row tells.
fn place_among(events: &[Event], from: usize, to: usize, row: &Row) -> Option<usize>
    ensures { IfSome result (λ place. (place < length events.now) × HoldsAt (λ event. event.row ≡ row.now) events.now place) }
{
    for place in from..to.min(events.len()) {
        if events[place].row == *row {
            return Some(place);
        }
    }
    None
}

/// Gives the place of the event that a row tells, from this place on or else before it.
fn place_of(events: &[Event], from: usize, row: &Row) -> Option<usize>
    ensures { IfSome result (λ place. (place < length events.now) × HoldsAt (λ event. event.row ≡ row.now) events.now place) }
{
    match place_among(events, from, events.len(), row) {
        Some(place) => Some(place),
        None => place_among(events, 0, from, row),
    }
}

impl PointEvents {
    /// Notes that a row came to a centre's journal at this moment.
    fn note(&mut self, centre: usize, row: &Row, now: u64) -> Found {
        let latest = self.latest[centre.min(1)];
        let Some(place) = place_of(&self.events, latest, row) else {
            return Found::Invented;
        };
        let Some(event) = self.events.get_mut(place) else {
            return Found::Invented;
        };
        let has = &mut event.has[centre.min(1)];
        if *has {
            return Found::Again;
        }
        *has = true;
        let age = now.saturating_sub(event.at);
        if place < latest {
            return Found::Late(event.lane, age);
        }
        let lane = event.lane;
        self.latest[centre.min(1)] = place;
        Found::New(lane, age)
    }
}

impl Ledger {
    /// Makes a ledger of no points.
    pub fn new(alloc: Global) -> Ledger {
        Ledger {
            map: Vec::new(alloc),
            firsts: Vec::new(alloc),
            points: Vec::new(alloc),
            made: [0; LANES],
            kept: [[0; LANES]; 2],
            again: [0, 0],
            late: [0, 0],
            gone: [0; LANES],
        }
    }

    /// Adds the points of a plan, without events. Out of memory, or the plan doesn't keep its limits.
    pub fn begin(&mut self, alloc: Global, plan: &Plan) -> Result<(), AllocError> {
        if !plan.keeps_limits() {
            return Err(AllocError);
        }
        let Ok(map) = IndexMap::new(alloc, plan) else {
            return Err(AllocError);
        };
        self.map.push(map)?;
        for substation in plan.substations.as_slice() {
            self.begin_points(alloc, substation)?;
        }
        Ok(())
    }

    /// Adds the points of a substation, without events.
    fn begin_points(&mut self, alloc: Global, substation: &SubPlan) -> Result<(), AllocError> {
        let mut first = [0; KINDS];
        for kind in Kind::ALL {
            first[kind.number()] = self.points.len();
            for _ in classes_of(substation, kind) {
                self.points.push(PointEvents {
                    events: Vec::new(alloc),
                    latest: [0, 0],
                })?;
            }
        }
        self.firsts.push(first)?;
        Ok(())
    }

    /// Gives the place of a substation's point.
    fn place(&self, substation: u8, kind: Kind, index: u16) -> Option<usize> {
        let firsts = self.firsts.get(usize::from(substation))?;
        Some(firsts[kind.number()].saturating_add(usize::from(index)))
    }

    /// Notes an event that a substation made at this moment.
    pub fn make(&mut self, substation: u8, made: &LaneRow, now: u64) -> Result<(), AllocError> {
        let row = made.row;
        let Some(place) = self.place(substation, row.kind, row.index) else {
            return Ok(());
        };
        count_lane(&mut self.made, made.lane.number(), 1);
        match self.points.get_mut(place) {
            Some(point) => {
                point.events.push(Event {
                    row,
                    lane: made.lane.number(),
                    at: now,
                    has: [false, false],
                })?;
                Ok(())
            }
            None => Ok(()),
        }
    }

    /// Notes that a row came to a centre's journal at this moment.
    pub fn note(&mut self, centre: u8, row: &Row, now: u64) -> Noted {
        let side = usize::from(centre).min(1);
        match self.find(side, row, now) {
            Found::Invented => Noted::Invented,
            Found::Again => {
                self.again[side] = self.again[side].saturating_add(1);
                Noted::Again
            }
            Found::Late(lane, age) => {
                self.late[side] = self.late[side].saturating_add(1);
                count_lane(&mut self.kept[side], lane, 1);
                Noted::Aged(age)
            }
            Found::New(lane, age) => {
                count_lane(&mut self.kept[side], lane, 1);
                Noted::Aged(age)
            }
        }
    }

    /// Finds the event that a row tells.
    fn find(&mut self, side: usize, row: &Row, now: u64) -> Found {
        let Some(map) = self.map.first() else {
            return Found::Invented;
        };
        let Some((substation, row)) = map.row_below(row) else {
            return Found::Invented;
        };
        let Some(place) = self.place(substation, row.kind, row.index) else {
            return Found::Invented;
        };
        match self.points.get_mut(place) {
            Some(point) => point.note(side, &row, now),
            None => Found::Invented,
        }
    }

    /// Forgets what came to a centre's journal, which is looked at again.
    pub fn forget(&mut self, centre: u8) {
        let side = usize::from(centre).min(1);
        self.kept[side] = [0; LANES];
        self.again[side] = 0;
        self.late[side] = 0;
        for point in &mut self.points {
            point.latest[side] = 0;
            for event in &mut point.events {
                event.has[side] = false;
            }
        }
    }

    /// Notes that so many events of each lane were lost as a substation was restarted.
    pub fn lose(&mut self, counts: &[u64; LANES]) {
        for (lane, count) in counts.iter().enumerate() {
            count_lane(&mut self.gone, lane, *count);
        }
    }

    /// Gives how many events of a lane are neither in a centre's journal nor counted as lost here.
    pub fn missing(&self, centre: u8, lane: usize) -> u64 {
        let kept = &self.kept[usize::from(centre).min(1)];
        match (self.made.get(lane), kept.get(lane), self.gone.get(lane)) {
            (Some(made), Some(kept), Some(gone)) => made.saturating_sub(kept.saturating_add(*gone)),
            _ => 0,
        }
    }
}

/// Gives the sum of the numbers of all lanes.
pub fn sum(counts: &[u64]) -> u64 {
    let mut all: u64 = 0;
    for count in counts {
        all = all.saturating_add(*count);
    }
    all
}

const _: () = prove!(CENTRES == 2);
