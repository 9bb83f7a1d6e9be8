//! What nodes report of a connection, and what must not be among it.

use crate::link::{GRACE_MS, Link};
use crate::process::{Places, Process, Way};
use crate::record::Record;
use crate::tally::{Tally, closing_number, count, count_at, task_number};
use crate::violation::Violation;
use dnp_concentrator::Cause;
use dnp_nodes::{Closing, Report};
use dnp_schedule::TaskKind;
use std::alloc::AllocError;

impl Places {
    /// Gives the place of the connection that a process's report is of.
    pub fn of_report(self, process: Process, report: &Report) -> usize {
        self.of_link(Way::of_process(process, report.slot()))
    }
}

impl Link {
    /// Takes what a process reports, and notes what must not be among it.
    pub fn take_report(
        &mut self,
        record: &mut Record,
        process: Process,
        report: &Report,
    ) -> Result<(), AllocError> {
        let now = record.now;
        let tally = &mut record.tally;
        let seen = match report {
            Report::Connected(..) => {
                count(&mut tally.connected);
                None
            }
            Report::Started(_) => {
                count(&mut tally.started);
                None
            }
            Report::NotMade(_) => {
                count(&mut tally.not_made);
                None
            }
            Report::Lost(_, cause) => self.take_loss(tally, process, *cause, now),
            Report::Refused(..) => self.take_refused(tally, now),
            Report::Asked(_, task) => self.take_asked(tally, *task),
            Report::Selecting(_, id) => self.take_select(tally, *id),
            Report::Operating(_, id) => self.take_operate(tally, *id),
            Report::Finished(_, id, status) => self.take_finish(tally, *id, *status, now),
            _ => None,
        };
        record.see(seen)
    }

    /// It was lost. A connection that no fault has touched ends for the other end alone, or since a store has failed, which is
    /// looked at elsewhere.
    fn take_loss(
        &mut self,
        tally: &mut Tally,
        process: Process,
        cause: Closing,
        now: u64,
    ) -> Option<Violation> {
        count_at(&mut tally.closed, closing_number(cause));
        if matches!((process, self.way), (Process::Concentrator, Way::Below(_))) {
            self.lost_by = self.lost_by.min(now.saturating_add(GRACE_MS));
        }
        let is_expected = matches!(cause, Closing::Peer | Closing::Store(Cause::Device));
        if is_expected || self.wire.is_disturbed(now) {
            None
        } else {
            Some(Violation::Unprovoked(self.way, cause))
        }
    }

    /// A fragment was refused.
    fn take_refused(&self, tally: &mut Tally, now: u64) -> Option<Violation> {
        count(&mut tally.refused);
        if self.wire.is_disturbed(now) {
            None
        } else {
            Some(Violation::Misheard(self.way))
        }
    }

    /// Something was asked. While a control is in progress nothing else is.
    fn take_asked(&self, tally: &mut Tally, task: TaskKind) -> Option<Violation> {
        count_at(&mut tally.asked, task_number(task));
        match self.selected {
            Some(id) => Some(Violation::Disturbed(self.way, id)),
            None => None,
        }
    }

    /// A control is selected: once on a connection.
    fn take_select(&mut self, tally: &mut Tally, id: u64) -> Option<Violation> {
        count(&mut tally.selected);
        let is_again = self.selected.is_some();
        self.selected = Some(id);
        self.operated = None;
        if is_again {
            Some(Violation::Reselected(self.way, id))
        } else {
            None
        }
    }

    /// A control is operated: the one that is selected.
    fn take_operate(&mut self, tally: &mut Tally, id: u64) -> Option<Violation> {
        count(&mut tally.operated);
        if matches!(self.way, Way::Below(_)) {
            count(&mut tally.operated_below);
        }
        self.operated = Some(id);
        if self.selected == Some(id) {
            None
        } else {
            Some(Violation::Unselected(self.way, id))
        }
    }

    /// A control was finished: with SUCCESS if it was operated, and else it was refused.
    fn take_finish(
        &mut self,
        tally: &mut Tally,
        id: u64,
        status: u8,
        now: u64,
    ) -> Option<Violation> {
        count(&mut tally.finished);
        let is_operated = self.operated == Some(id);
        self.selected = None;
        self.operated = None;
        if status == 0 {
            return if is_operated {
                None
            } else {
                Some(Violation::Unselected(self.way, id))
            };
        }
        count(&mut tally.unsuccessful);
        if self.wire.is_disturbed(now) || matches!(self.way, Way::Above(_)) {
            None
        } else {
            Some(Violation::Refused(self.way, id, status))
        }
    }
}
