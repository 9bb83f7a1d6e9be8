//! What is known of the links of a node by what it tells: what has changed is said.

use crate::asked::{Asked, Whom};
use crate::sites::Served;
use crate::visitor::{Told, Visitor};
use crate::voice::Voice;
use dnp_controls::{BookFault, Entry};
use dnp_loop::{LogBuffer, Notice, Notices};
use dnp_nodes::{MAX_REPORTS, Node, Report, Slot};
use dnp_notices::Names;
use dnp_objects::Command;
use dnp_pointdb::PointPlan;
use dnp_terminal::Terminal;
use std::alloc::Global;
use std::rt::Clock;

/// What is known of the links of a node.
pub(crate) struct Links<'l, R> {
    /// What memory and the time are asked of.
    pub(crate) rt: &'l R,
    /// What people call the stations and their points.
    pub(crate) names: Names<'l>,
    /// The stations below, by their numbers.
    pub(crate) asked: Vec<Asked>,
    /// The centres, by their numbers.
    pub(crate) visitors: Vec<Visitor>,
}

impl<R> Drop for Links<'_, R> {
    /// One call for whoever lets it go: its parts are looked at here alone.
    fn drop(self) {
        let Links {
            rt: _,
            names: _,
            asked: _,
            visitors: _,
        } = self;
    }
}

/// A node whose book of controls is read.
pub(crate) trait Commanding: Node {
    /// The command of the control of this number, if the book has it and can be read.
    fn command(&mut self, alloc: Global, id: u64) -> Option<Command>;
}

/// The command of the first of these controls, if there is one and they could be read.
pub(crate) fn command_in(read: Result<Vec<Entry>, BookFault>) -> Option<Command> {
    let entries = read.ok()?;
    match entries.as_slice() {
        [entry, ..] => Some(entry.command),
        [] => None,
    }
}

/// How many octets a fragment has that was refused.
fn count_of(report: &Report) -> usize {
    match *report {
        Report::Refused(_, count) => count,
        _ => 0,
    }
}

/// What people count a station as: its number, or the last there is.
fn number_of(place: usize) -> u8 {
    u8::try_from(place).unwrap_or(u8::MAX)
}

impl Told {
    /// Nothing was told.
    const NOTHING: Told = Told {
        fault: None,
        accepted: None,
        unaccepted: None,
        is_refused: false,
    };

    /// The same with a notice, if that is of this place.
    fn with(self, slot: Slot, notice: &Notice) -> Told {
        match *notice {
            Notice::Accepted(at, peer) if at == slot => Told {
                accepted: Some(peer),
                ..self
            },
            Notice::Unmade(at, fault) | Notice::Broken(at, fault) if at == slot => Told {
                fault: Some(fault),
                ..self
            },
            Notice::Refused(at) if at == slot => Told {
                is_refused: true,
                ..self
            },
            Notice::Unaccepted(at, fault) if at == slot => Told {
                unaccepted: Some(fault),
                ..self
            },
            _ => self,
        }
    }

    /// What the loop has told of a place.
    fn of(slot: Slot, notices: &Notices) -> Told {
        let mut told = Told::NOTHING;
        for notice in notices.as_slice() {
            told = told.with(slot, notice);
        }
        told
    }
}

impl<'l, R: AllocGlobal> Links<'l, R> {
    /// A node without links.
    pub(crate) fn new(rt: &'l R, names: Names<'l>) -> Links<'l, R> {
        Links {
            rt,
            names,
            asked: Vec::new(rt.alloc()),
            visitors: Vec::new(rt.alloc()),
        }
    }

    /// The next station below has these points, and was not asked before this moment. Nothing is told if there is no memory for it.
    pub(crate) fn ask(&mut self, whom: Whom, points: PointPlan, now: u64) -> Option<()> {
        let asked = Asked::new(self.rt.alloc(), whom, points, now);
        self.asked.push(asked).ok()
    }

    /// The next centre is served there, and so many seconds may pass in which no fragment comes whole. Nothing is told if there is no
    /// memory for it.
    pub(crate) fn serve(&mut self, served: Served, idle: u64) -> Option<()> {
        let centre = number_of(self.visitors.len());
        self.visitors.push(Visitor::new(centre, served, idle)).ok()
    }
}

impl<R: AllocGlobal + Terminal + Clock> Links<'_, R> {
    /// Takes a report of this moment. If a fragment was refused, it has the first of these octets.
    fn take_report(&mut self, voice: &mut Voice<'_, R>, now: u64, report: &Report, octets: &[u8]) {
        match report.slot() {
            Slot::Below(number) => {
                if let Some(asked) = self.asked.get_mut(usize::from(number)) {
                    asked.told(voice, now, report, octets);
                }
            }
            Slot::Above(centre) => {
                if let Some(visitor) = self.visitors.get_mut(usize::from(centre)) {
                    visitor.told(voice, report);
                }
            }
        }
    }

    /// If a control is selected at a station below, it is known from then on for which output or setpoint.
    fn note_output<N: Commanding>(&mut self, node: &mut N, report: &Report) {
        if let Report::Selecting(Slot::Below(number), id) = *report {
            let command = node.command(self.rt.alloc(), id);
            if let Some(asked) = self.asked.get_mut(usize::from(number)) {
                asked.note_output(command.as_ref());
            }
        }
    }

    /// Takes what the node has told.
    fn take_reports<N: Commanding>(&mut self, voice: &mut Voice<'_, R>, node: &mut N, now: u64) {
        let mut from = 0usize;
        for number in 0..MAX_REPORTS {
            let Some(report) = node.reports().get(number).copied() else {
                break;
            };
            self.note_output(node, &report);
            let octets = node.refused().get(from..).unwrap_or(&[]);
            self.take_report(voice, now, &report, octets);
            from = from.saturating_add(count_of(&report));
        }
        node.clear_reports();
    }

    /// Says what has become of connections in a turn.
    fn settle(&mut self, voice: &mut Voice<'_, R>, notices: &Notices, now: u64) {
        for (place, asked) in self.asked.iter_mut().enumerate() {
            let slot = Slot::Below(number_of(place));
            asked.settle(voice, now, Told::of(slot, notices).fault);
        }
        for (place, visitor) in self.visitors.iter_mut().enumerate() {
            let slot = Slot::Above(number_of(place));
            visitor.settle(voice, &Told::of(slot, notices));
        }
    }

    /// Takes what the node and the loop have told in a turn, and says what has changed. If the program can go on, it gives the moment at
    /// which that is to be done again, beside those of turns: none.
    pub(crate) fn take<N: Commanding>(
        &mut self,
        node: &mut N,
        notices: &Notices,
        log: &mut LogBuffer,
        now: u64,
    ) -> Option<u64> {
        let mut voice = Voice {
            rt: self.rt,
            names: self.names,
            log,
            failed: None,
        };
        self.take_reports(&mut voice, node, now);
        self.settle(&mut voice, notices, now);
        if voice.end() { Some(u64::MAX) } else { None }
    }
}
