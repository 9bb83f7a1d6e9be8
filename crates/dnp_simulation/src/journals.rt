//! What the centres' journals have, against the events that were made.

use crate::ages::Ages;
use crate::ledger::{Ledger, Noted};
use crate::nodes::{LaneCount, Nodes};
use crate::record::Record;
use crate::violation::Violation;
use dnp_eventbuf::Numbered;
use dnp_objects::StoreFault;
use std::alloc::{AllocError, Global};

/// What the centres' journals have, against the events that were made.
#[derive(Drop)]
pub struct Journals {
    /// The events that were made.
    pub ledger: Ledger,
    /// The last id that was looked at in each centre's journal.
    looked: [u64; 2],
    /// The last id of each for which it was noted how old the event was.
    aged: [u64; 2],
    /// How old events were as they came to each journal, in milliseconds.
    pub ages: Ages,
}

impl Journals {
    /// Makes journals that nobody has looked at, and no events.
    pub fn new(alloc: Global) -> Journals {
        Journals {
            ledger: Ledger::new(alloc),
            looked: [0, 0],
            aged: [0, 0],
            ages: Ages {
                list: Vec::new(alloc),
                sampled: 0,
                samples: Vec::new(alloc),
            },
        }
    }

    /// Looks at the new rows of a centre's journal.
    pub fn audit<N: Nodes>(
        &mut self,
        nodes: &mut N,
        record: &mut Record,
        centre: u8,
    ) -> Result<(), AllocError> {
        for _ in 0..u64::MAX {
            let from = self.looked[usize::from(centre).min(1)];
            let rows = nodes.journal_rows(record.alloc, centre, from);
            if !self.audit_page(rows, record, centre)? {
                break;
            }
        }
        Ok(())
    }

    /// Looks at all rows of a centre's journal again.
    pub fn audit_anew<N: Nodes>(
        &mut self,
        nodes: &mut N,
        record: &mut Record,
        centre: u8,
    ) -> Result<(), AllocError> {
        self.ledger.forget(centre);
        self.looked[usize::from(centre).min(1)] = 0;
        self.audit(nodes, record, centre)
    }

    /// Looks at some new rows of a centre's journal. Says whether there were any.
    fn audit_page(
        &mut self,
        rows: Result<Vec<Numbered>, StoreFault>,
        record: &mut Record,
        centre: u8,
    ) -> Result<bool, AllocError> {
        match rows {
            Ok(rows) => {
                self.audit_rows(&rows, record, centre)?;
                Ok(!rows.is_empty())
            }
            Err(StoreFault::Device) => {
                record.has_failed = true;
                Ok(false)
            }
            Err(_) => Err(AllocError),
        }
    }

    /// Looks at these rows of a centre's journal.
    fn audit_rows(
        &mut self,
        rows: &[Numbered],
        record: &mut Record,
        centre: u8,
    ) -> Result<(), AllocError> {
        for numbered in rows {
            self.audit_row(numbered, record, centre)?;
        }
        Ok(())
    }

    /// Looks at a row of a centre's journal.
    fn audit_row(
        &mut self,
        numbered: &Numbered,
        record: &mut Record,
        centre: u8,
    ) -> Result<(), AllocError> {
        let side = usize::from(centre).min(1);
        let is_new = self.aged[side] < numbered.id;
        self.looked[side] = numbered.id;
        self.aged[side] = self.aged[side].max(numbered.id);
        let row = &numbered.row;
        match self.ledger.note(centre, row, record.now) {
            Noted::Invented => {
                let seen = Violation::Invented(centre, row.kind, row.index, row.time);
                record.see(Some(seen))
            }
            Noted::Aged(age) if is_new => Ok(self.ages.list.push(age)?),
            Noted::Again | Noted::Aged(_) => Ok(()),
        }
    }

    /// Looks whether each event that a centre's journal lacks waits somewhere, or is counted as lost.
    pub fn audit_lanes(
        &self,
        record: &mut Record,
        centre: u8,
        counts: &[LaneCount],
    ) -> Result<(), AllocError> {
        for (number, count) in counts.iter().enumerate() {
            let missing = self.ledger.missing(centre, number);
            let vanished = missing.saturating_sub(count.all());
            if 0 < vanished {
                record.see(Some(Violation::Unseen(centre, number, vanished)))?;
            }
        }
        Ok(())
    }
}
