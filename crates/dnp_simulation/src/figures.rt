//! What a network did, as numbers with names.

use crate::controls::Controls;
use crate::faults::FAULTS;
use crate::ledger::{Ledger, sum};
use crate::link::Link;
use crate::network::Network;
use crate::nodes::{LaneCount, Nodes, all_lanes, count_lanes};
use crate::process::Process;
use crate::tally::{CLOSINGS, TASKS, Tally};
use dnp_controls::{Entry, State};
use dnp_eventbuf::CENTRES;
use std::alloc::AllocError;

/// A number and its name.
#[derive(Clone, Copy)]
pub struct Figure {
    /// Its name.
    pub name: &'static str,
    /// The number.
    pub value: u64,
}

/// Numbers and their names, in order.
#[derive(Drop)]
pub struct Figures {
    /// In order.
    pub list: Vec<Figure>,
}

impl Figures {
    /// Adds numbers by their names.
    fn put_each(&mut self, names: &[&'static str], values: &[u64]) -> Result<(), AllocError> {
        for (place, name) in names.iter().enumerate() {
            let value = values.get(place).copied();
            self.list.push(Figure {
                name: *name,
                value: value.unwrap_or(0),
            })?;
        }
        Ok(())
    }

    /// Adds what became of events at a centre, whose lanes have so many.
    fn put_journal(
        &mut self,
        ledger: &Ledger,
        counted: LaneCount,
        centre: u8,
    ) -> Result<(), AllocError> {
        let names = if centre == 0 {
            FIRST_JOURNAL
        } else {
            SECOND_JOURNAL
        };
        let side = usize::from(centre).min(1);
        let kept = &ledger.kept[side];
        let values = [
            sum(kept),
            ledger.again[side],
            ledger.late[side],
            counted.waiting,
            counted.below,
            counted.middle,
        ];
        self.put_each(&names, &values)
    }

    /// Adds what became of requests and connections.
    fn put_links(&mut self, links: &[Link], tally: &Tally) -> Result<(), AllocError> {
        self.put_each(&TASK_NAMES, &tally.asked)?;
        let values = [
            octets_sent(links),
            tally.connected,
            tally.started,
            tally.refused,
            tally.not_made,
        ];
        self.put_each(&LINKS, &values)?;
        self.put_each(&CLOSING_NAMES, &tally.closed)
    }

    /// Adds what became of controls. The concentrator's book has these.
    fn put_controls(
        &mut self,
        controls: &Controls,
        entries: &[Entry],
        tally: &Tally,
    ) -> Result<(), AllocError> {
        let (pending, spent) = count_open(entries);
        let values = [
            controls.issued.len() as u64,
            controls.performed(),
            tally.selected,
            tally.operated,
            tally.finished,
            tally.unsuccessful,
            pending,
            spent,
        ];
        self.put_each(&CONTROLS, &values)
    }
}

/// The names of what became of events at each centre.
const FIRST_JOURNAL: [&str; 6] = [
    "events_in_journal_1",
    "rows_twice_1",
    "events_late_1",
    "events_waiting_1",
    "dropped_by_substations_1",
    "dropped_by_concentrator_1",
];

const SECOND_JOURNAL: [&str; 6] = [
    "events_in_journal_2",
    "rows_twice_2",
    "events_late_2",
    "events_waiting_2",
    "dropped_by_substations_2",
    "dropped_by_concentrator_2",
];

/// The names of how old events were at the journals.
const AGES: [&str; 2] = ["age_median_ms", "age_worst_ms"];

/// The names of what became of connections.
const LINKS: [&str; 5] = [
    "octets",
    "connected",
    "started",
    "fragments_refused",
    "steps_not_made",
];

/// The names of what became of controls.
const CONTROLS: [&str; 8] = [
    "controls_issued",
    "controls_performed",
    "selects",
    "operates",
    "finished",
    "unsuccessful",
    "pending_below",
    "spent_below",
];

/// The names of what is counted of requests, by their kinds' numbers.
const TASK_NAMES: [&str; TASKS] = [
    "asked_disable",
    "asked_integrity",
    "asked_clear_restart",
    "asked_write_time",
    "asked_enable",
    "asked_events",
    "asked_other_poll",
    "asked_control",
];

/// The names of what is counted of ends of connections, by their causes' numbers.
const CLOSING_NAMES: [&str; CLOSINGS] = [
    "closed_peer",
    "closed_unmade",
    "closed_late",
    "closed_endless",
    "closed_stuck",
    "closed_idle",
    "closed_station",
    "closed_unasked",
    "closed_finished",
    "closed_replaced",
    "closed_memory",
    "closed_store",
];

/// The names of what is counted of faults, by their numbers.
const FAULT_NAMES: [&str; FAULTS] = [
    "fault_cut",
    "fault_half",
    "fault_freeze",
    "fault_refuse",
    "fault_kill",
    "fault_clock",
    "fault_delay",
    "fault_stop",
    "fault_full",
];

/// The names of what is counted last.
const ENDS: [&str; 2] = ["stores_failed", "violations"];

/// The names of the seed, and of what happened first.
const EVENTS: [&str; 6] = [
    "seed",
    "virtual_ms",
    "steps",
    "events_made",
    "changes_held",
    "events_gone",
];

/// Gives how many octets were sent on these connections, both ways.
fn octets_sent(links: &[Link]) -> u64 {
    let mut octets: u64 = 0;
    for link in links {
        octets = octets.saturating_add(link.wire.sent);
    }
    octets
}

/// Gives how many of these controls are pending, and how many are spent.
fn count_open(entries: &[Entry]) -> (u64, u64) {
    let mut pending: u64 = 0;
    let mut spent: u64 = 0;
    for entry in entries {
        match entry.state {
            State::Pending => pending = pending.saturating_add(1),
            State::Spent => spent = spent.saturating_add(1),
            State::Finished(_) => {}
        }
    }
    (pending, spent)
}

impl Network {
    /// Adds what happened first.
    fn put_events(&self, figures: &mut Figures) -> Result<(), AllocError> {
        let ledger = &self.journals.ledger;
        let tally = &self.record.tally;
        let values = [
            self.settings.seed,
            self.record.now,
            tally.steps,
            sum(&ledger.made),
            tally.held,
            sum(&ledger.gone),
        ];
        figures.put_each(&EVENTS, &values)
    }

    /// Adds what the network did.
    pub fn put_figures<N: Nodes>(
        &mut self,
        nodes: &mut N,
        figures: &mut Figures,
    ) -> Result<(), AllocError> {
        self.put_events(figures)?;
        let tally = &self.record.tally;
        for centre in 0..CENTRES {
            let counted = all_lanes(&count_lanes(nodes, self.places.substations, centre));
            figures.put_journal(&self.journals.ledger, counted, centre)?;
        }
        let (median, worst) = self.journals.ages.median_and_worst()?;
        figures.put_each(&AGES, &[median, worst])?;
        figures.put_links(&self.links, tally)?;
        match nodes.controls(self.record.alloc, Process::Concentrator) {
            Ok(entries) => figures.put_controls(&self.controls, &entries, tally)?,
            Err(_) => return Err(AllocError),
        }
        figures.put_each(&FAULT_NAMES, &tally.faults)?;
        let seen = self.record.seen.len() as u64;
        figures.put_each(&ENDS, &[tally.failed, seen])
    }
}
