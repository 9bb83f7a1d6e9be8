//! What a callee makes of what happens, without its station.

ghost use Rattle.std.specs.Prelude.{◌≡◌, true, false, length, min, None};
ghost use Rattle.dnp_streams.specs.links.Links.{after_sent, new_link};
ghost use Rattle.dnp_nodes.specs.Callees as spec;

use crate::budgets::{has_come, stuck_at, waits_from};
use crate::callee::Callee;
use crate::frames::frame_of;
use crate::report::{Report, Reports};
use crate::shared::Shared;
use crate::slot::Closing;
use crate::turn::Turn;
use dnp_concentrator::Cause;
use dnp_line::Port;
use dnp_streams::{Link, StationFault, Told};
use std::alloc::Global;

/// Why a connection has to end after a step that was made, if it has to.
pub(super) fn closing_of(told: &Told) -> Option<Closing>
    ensures { result ≡ spec.closing_of told.now }
{
    if told.closed {
        Some(Closing::Station)
    } else {
        None
    }
}

impl Callee {
    /// The moment by which the octets that wait have to be taken, if some wait.
    pub(super) fn taken_by(&self) -> Option<u64>
        ensures { result ≡ spec.taken_by self.now }
    {
        stuck_at(self.waits, self.plan.stuck_ms)
    }

    /// The moment by which a fragment has to come whole.
    pub(super) fn whole_by(&self) -> u64
        ensures { result ≡ spec.whole_by self.now }
    {
        self.whole_at.saturating_add(self.plan.idle_ms)
    }

    /// What took too long, if anything did.
    pub(super) fn over_budget(&self, now: u64) -> Option<Closing>
        ensures { result ≡ spec.over_budget self.now now }
    {
        if has_come(self.taken_by(), now) {
            Some(Closing::Stuck)
        } else if has_come(Some(self.whole_by()), now) {
            Some(Closing::Idle)
        } else {
            None
        }
    }

    /// The link of a connection that begins.
    fn new_link(&mut self, alloc: Global)
        ensures { self.new ≡ record self.old { link = new_link (spec.port_of self.old); waits = None } }
    {
        let ends = self.plan.ends;
        self.link = Link::new(alloc, Port::new(ends.own, ends.peer, false));
        self.waits = None;
    }

    /// A connection was made: nothing of the one before is left.
    pub(super) fn begin(&mut self, shared: &mut Shared, now: u64)
        ensures { self.new ≡ record self.old {
          link = new_link (spec.port_of self.old);
          is_up = true;
          want = None;
          waits = None;
          whole_at = now;
        } }
    {
        let absent = now.saturating_sub(self.since);
        let connected = Report::Connected(self.plan.slot, absent, 0);
        shared.reports.tell(connected);
        self.new_link(shared.alloc);
        self.is_up = true;
        self.want = None;
        self.whole_at = now;
    }

    /// Looks whose frame is heard next.
    pub(super) fn look_at_frame(&self, reports: &mut Reports) {
        if let Some(frame) = self.link.next_frame() {
            reports.tell_once(frame_of(self.plan.slot, self.plan.ends, frame));
        }
    }

    /// Tells that a fragment came whole.
    pub(super) fn tell_whole(&self, reports: &mut Reports) {
        reports.tell(Report::Whole(self.plan.slot));
    }

    /// The first octets of those that wait were taken.
    pub(super) fn drop_sent(&mut self, count: usize)
        ensures { self.new ≡ record self.old {
          link = after_sent self.old.link (min count (length self.old.link.pending));
          waits = self.new.waits;
        } }
    {
        let count = count.min(self.link.output().len());
        self.link.sent(count);
        if 0 < count {
            self.waits = None;
        }
    }

    /// Notes since when octets wait, if any do.
    pub(super) fn note_waiting(&mut self, now: u64)
        ensures { self.new ≡ record self.old { waits = self.new.waits } }
    {
        let is_empty = self.link.output().is_empty();
        self.waits = waits_from(self.waits, is_empty, now);
    }

    /// The connection was lost.
    pub(super) fn lose(&mut self, shared: &mut Shared, now: u64, cause: Closing)
        ensures { self.new ≡ record self.old {
          link = new_link (spec.port_of self.old);
          is_up = false;
          waits = None;
          since = now;
        } }
    {
        shared.reports.tell(Report::Lost(self.plan.slot, cause));
        self.new_link(shared.alloc);
        self.is_up = false;
        self.since = now;
    }

    /// What a step leaves to be done that told this.
    pub(super) fn take_told(
        &self,
        reports: &mut Reports,
        told: Result<Told, StationFault>,
    ) -> Turn {
        let slot = self.plan.slot;
        match told {
            Ok(told) => {
                if told.closed {
                    Turn::Over(Closing::Station)
                } else {
                    Turn::Made
                }
            }
            Err(StationFault::Message) => {
                // (nothing but a fragment is refused so)
                reports.tell_refused(slot, self.link.fragment());
                Turn::Made
            }
            Err(StationFault::Cause(Cause::Memory)) => {
                reports.tell(Report::NotMade(slot));
                Turn::Made
            }
            Err(StationFault::Cause(cause)) => Turn::Over(Closing::Store(cause)),
        }
    }
}
