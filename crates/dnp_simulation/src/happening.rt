//! Changes of readings, and commands.

use crate::controls::{Issued, Standing, command_of};
use crate::ledger::Followed;
use crate::lists::watch_at;
use crate::network::Network;
use crate::nodes::Nodes;
use crate::process::{Process, number_of};
use crate::tally::count;
use dnp_concentrator::IssueFault;
use dnp_eventbuf::CENTRES;
use dnp_objects::{Command, Kind, flags};
use dnp_pointdb::{PointDb, Reading};
use dnp_streams::Change;
use std::alloc::AllocError;

/// The highest value of a counter, and one that an analog input begins again after.
const LAST_COUNT: i64 = 0xFFFF_FFFF;

const LAST_ANALOG: i64 = 1_000_000_000;

/// Gives the value to which a point changes, so that it makes an event, by a number drawn.
fn next_value(point: &Followed, value: i64, drawn: u64) -> i64 {
    let more = i64::try_from(drawn % 100).unwrap_or(0);
    match point.kind {
        Kind::Binary => { if value == 0 { 1 } else { 0 } }
        Kind::Counter => {
            let next = value.saturating_add(1).saturating_add(more);
            if next <= LAST_COUNT { next } else { 0 }
        }
        Kind::Analog => {
            let step = i64::from(point.deadband)
                .saturating_add(1)
                .saturating_add(more);
            let next = value.saturating_add(step);
            if next <= LAST_ANALOG {
                next
            } else {
                -LAST_ANALOG
            }
        }
    }
}

/// Gives the change of a point at this moment, by a number drawn. At the moment 0 the substation's wall clock shows `clock`.
fn change_of(points: &PointDb, point: &Followed, drawn: u64, now: u64, clock: u64) -> Change {
    let value = match points.reading(point.kind, point.index) {
        Some(reading) => reading.value,
        None => 0,
    };
    Change {
        at: now,
        kind: point.kind,
        index: point.index,
        reading: Reading {
            value: next_value(point, value, drawn),
            flags: flags::ONLINE,
            time: Some(clock.saturating_add(now)),
        },
    }
}

impl Network {
    /// Does what is due of changes and commands.
    pub fn happen<N: Nodes>(&mut self, nodes: &mut N) -> Result<(), AllocError> {
        let mean = self.settings.change_ms;
        for place in 0..self.places.substations {
            if self.fate.changes(place, self.record.now, mean) {
                self.change(nodes, place)?;
            }
        }
        let mean = self.settings.control_ms;
        if self.fate.commands(self.record.now, mean) {
            self.command(nodes)
        } else {
            Ok(())
        }
    }

    /// A reading of a substation changes.
    fn change<N: Nodes>(&mut self, nodes: &mut N, place: usize) -> Result<(), AllocError> {
        let Some(points) = self.followed.get(place) else {
            return Ok(());
        };
        let drawn = self.fate.random.place(points.as_slice().len());
        let point = points.as_slice().get(drawn).copied();
        let more = self.fate.random.next();
        let watch = watch_at(&self.watches, place);
        if self.record.now < watch.up_at {
            return Ok(());
        }
        let number = number_of(place);
        if let Some(point) = point {
            self.change_point(nodes, number, &point, more, watch.clock)?;
        }
        self.after(nodes, Process::Substation(number))
    }

    /// This point of a substation changes, by a number drawn, and the event that it makes is noted.
    fn change_point<N: Nodes>(
        &mut self,
        nodes: &mut N,
        substation: u8,
        point: &Followed,
        drawn: u64,
        clock: u64,
    ) -> Result<(), AllocError> {
        let now = self.record.now;
        let Some(points) = nodes.points(substation) else {
            return Ok(());
        };
        let change = change_of(points, point, drawn, now, clock);
        let Ok(made) = points.would(change.kind, change.index, change.reading) else {
            return Ok(());
        };
        if nodes.change(substation, now, &change).is_err() {
            count(&mut self.record.tally.held);
            return Ok(());
        }
        match made {
            Some(made) => self.journals.ledger.make(substation, &made, now),
            None => Ok(()),
        }
    }

    /// Draws a command, and the centre and the substation of it. `None` if the substation has no outputs.
    fn draw_command(&mut self) -> Option<(u8, u8, Command)> {
        let random = &mut self.fate.random;
        let centre = u8::try_from(random.below(u64::from(CENTRES))).unwrap_or(0);
        let place = random.place(self.places.substations);
        let drawn = random.next();
        let substation = self.layout.plan.substations.as_slice().get(place)?;
        let number = self.controls.issued.len().saturating_add(1);
        let command = command_of(substation, u32::try_from(number).unwrap_or(u32::MAX), drawn)?;
        Some((centre, number_of(place), command))
    }

    /// A centre issues a command, if it is there. If the book fails at it, it may have the command or not.
    fn command<N: Nodes>(&mut self, nodes: &mut N) -> Result<(), AllocError> {
        let Some((centre, substation, command)) = self.draw_command() else {
            return Ok(());
        };
        let process = Process::Centre(centre);
        let now = self.record.now;
        let watch = watch_at(&self.watches, self.places.of_process(process));
        if now < watch.up_at {
            return Ok(());
        }
        let standing = match nodes.issue(centre, now, substation, &command) {
            Ok(_) => Some(Standing::Certain),
            Err(IssueFault::Device) => Some(Standing::Doubtful),
            Err(_) => None,
        };
        if let Some(standing) = standing {
            self.record.has_failed = matches!(standing, Standing::Doubtful);
            self.controls.issued.push(Issued {
                centre,
                substation,
                command,
                performed: 0,
                standing,
                is_found: false,
            })?;
        }
        self.after(nodes, process)
    }
}
