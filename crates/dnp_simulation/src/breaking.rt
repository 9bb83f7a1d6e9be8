//! Faults of connections.

use crate::faults::Fault;
use crate::link::Link;
use crate::process::Process;
use crate::random::Random;
use crate::wire::End;

/// How late an end hears of a cut at most, in milliseconds, and one of four of them.
const SOON: u64 = 40;

const LATE: u64 = 60_000;

/// How long a connection is frozen, slow, or refused at most.
const WHILE: u64 = 120_000;

/// Gives when an end hears of a cut that comes at this moment.
fn hears_at(random: &mut Random, now: u64) -> u64 {
    let span = if random.one_in(4) { LATE } else { SOON };
    now.saturating_add(random.within(1, span))
}

impl Link {
    /// A fault comes. Three of four cuts wait until octets are sent.
    pub fn break_by(&mut self, random: &mut Random, fault: Fault, now: u64) {
        let is_cut = matches!(fault, Fault::Cut | Fault::Half);
        if is_cut && random.one_in(4) {
            self.cut(random, fault, now);
            return;
        }
        let until = now.saturating_add(random.within(1, WHILE));
        if is_cut {
            self.armed = Some(fault);
        } else {
            self.wire.hinder(fault, until);
            self.wire
                .disturb(until, until.saturating_add(self.aftermath));
        }
    }

    /// It is cut, and what is under way is lost, or a part of it.
    fn cut(&mut self, random: &mut Random, fault: Fault, now: u64) {
        let caller_at = hears_at(random, now);
        let callee_at = hears_at(random, now);
        self.wire.lose(random, matches!(fault, Fault::Half));
        self.wire.cut(caller_at, callee_at);
        let until = caller_at.max(callee_at).saturating_add(self.aftermath);
        self.wire.disturb(now, until);
    }

    /// It is cut just as octets were sent on it, if that is to be.
    pub fn strike(&mut self, random: &mut Random, now: u64) {
        if let Some(fault) = self.armed {
            self.armed = None;
            self.cut(random, fault, now);
        }
    }

    /// It is gone with a process, if that is at an end of it. The process is there again at the second moment.
    pub fn abandon(&mut self, random: &mut Random, process: Process, now: u64, up_at: u64) {
        let Some(end) = self.way.end_of(process) else {
            return;
        };
        self.wire.close(random, end, now);
        self.wire.disturb(now, up_at.saturating_add(self.aftermath));
        // (a caller may still hear the answer that its callee gave before)
        if matches!(end, End::Caller) {
            self.begin();
        }
        if matches!(process, Process::Concentrator) {
            self.lost_by = u64::MAX;
        }
    }
}
