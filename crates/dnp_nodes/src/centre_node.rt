//! The node of a centre.

ghost use Rattle.std.specs.Prelude.{◌≡◌, ◌⊎◌, true, false, length, min, ◌∷◌, [], None, if◌then◌else◌, IfOk, IfSome, OnOk};
ghost use Rattle.dnp_concentrator.specs.Centre.{book_of, journal_of, with_book, with_journal};
ghost use Rattle.dnp_controls.specs.Book.{rows_of};
ghost use Rattle.dnp_eventbuf.specs.Archive.{rows_over};
ghost use Rattle.dnp_schedule.specs.Moving.{unconnected};
ghost use Rattle.dnp_streams.specs.links.Deeds.{Opened, Reply, Ticked};
ghost use Rattle.dnp_streams.specs.links.Laws.{Fed, Handed, Made};
ghost use Rattle.dnp_streams.specs.links.Links.{HasRoom, new_link};
ghost use Rattle.dnp_streams.specs.streams.CentreLives.{centre_lives};
ghost use Rattle.dnp_streams.specs.streams.Centres.{centre_hung_up, centre_seen};
ghost use Rattle.dnp_nodes.specs.Callers.{IsDue, IsKept, IsWaiting, Rests, basis, basis_of, closed, is_up, link_of, output_of, over_budget, pace_of, port_of, schedule_of, want_of, with_clock, with_want};
ghost use Rattle.dnp_nodes.specs.CentreNodes.{CentreCalls, CentreCuts, IsHonest, Issues, centre_in, link_in, reports_in, slot_in, wanted_in, with_centre, with_link};
ghost use Rattle.dnp_nodes.specs.Told.{missed_in, refused_in, told_in};
ghost use Rattle.dnp_nodes.specs.declared.slot.Closing.TheVariants.{Memory};

use crate::caller::{Caller, CallerPlan};
use crate::node::Node;
use crate::report::Report;
use crate::shared::Shared;
use crate::slot::{Closing, Slot, Wanted};
use dnp_concentrator::{Centre, IssueFault};
use dnp_controls::{Book, BookFault, Entry};
use dnp_eventbuf::{JournalStore, Numbered};
use dnp_objects::{Command, StoreFault};
use dnp_schedule::Schedule;
use std::alloc::Global;

/// A centre, and its connection to the concentrator. It has one place, so that no call looks at the place that it names.
pub struct CentreNode<J, B> {
    /// The centre.
    centre: Centre<J, B>,
    /// The place.
    slot: Slot,
    /// Its link.
    link: Caller,
    /// What the link uses.
    shared: Shared,
}

impl<J: Drop, B: Drop> Drop for CentreNode<J, B> {
    /// One call for whoever lets it go: its parts are looked at here alone.
    fn drop(self) {
        let CentreNode {
            centre: _,
            slot: _,
            link: _,
            shared: _,
        } = self;
    }
}

impl<J, B> CentreNode<J, B> {
    /// The node of this centre, which wants to be connected at this moment. At the moment 0 the wall clock shows `clock`, in milliseconds
    /// since 1970 UTC.
    pub fn new(alloc: Global, centre: Centre<J, B>, plan: CallerPlan, at: u64, clock: u64) -> Self
        ensures centre { centre_in result ≡ centre }
        ensures slot { slot_in result ≡ plan.slot }
        ensures basis { basis_of (link_in result) ≡ basis plan clock }
        ensures schedule { schedule_of (link_in result) ≡ unconnected at }
        ensures want { want_of (link_in result) ≡ None }
        ensures told { told_in (reports_in result) ≡ [] }
    {
        CentreNode {
            centre,
            slot: plan.slot,
            link: Caller::new(alloc, plan, at, clock),
            shared: Shared::new(alloc),
        }
    }

    /// Gives its centre, as it stands.
    pub fn into_centre(self) -> Centre<J, B>
        ensures { result ≡ centre_in self }
    {
        let CentreNode {
            centre,
            slot: _,
            link: _,
            shared: _,
        } = self;
        centre
    }

    /// Gives the schedule of its link.
    pub fn schedule(&self) -> &Schedule
        ensures { result.now ≡ schedule_of (link_in self.now) }
    {
        self.link.schedule()
    }

    /// The wall clock was set: at the moment 0 it would have shown this, in milliseconds since 1970 UTC.
    pub fn set_clock(&mut self, clock: u64)
        ensures { self.new ≡ with_link self.old (with_clock (link_in self.old) clock) }
    {
        self.link.set_clock(clock);
    }
}

impl<J: JournalStore, B> CentreNode<J, B> {
    /// Gives how many rows the journal has.
    pub fn journal_len(&mut self) -> u64
        ensures same { self.new ≡ self.old }
        ensures value { J.honest (journal_of (centre_in self.new)) → result ≡ length (J.archive (journal_of (centre_in self.new))).rows }
    {
        self.centre.journal().count()
    }

    /// Gives at most `most` rows of the journal with ids over `from`.
    ///
    /// # Errors
    /// The journal's.
    pub fn journal_rows(
        &mut self,
        alloc: Global,
        from: u64,
        most: usize,
    ) -> Result<Vec<Numbered>, StoreFault>
        ensures rows { J.honest (journal_of (centre_in self.new)) → IfOk result (λ rows. rows.items ≡ rows_over (J.archive (journal_of (centre_in self.old))) from most) }
        ensures same { J.honest (journal_of (centre_in self.new)) → OnOk result (J.archive (journal_of (centre_in self.new)) ≡ J.archive (journal_of (centre_in self.old))) }
        ensures else_same { self.new ≡ with_centre self.old (with_journal (centre_in self.old) (journal_of (centre_in self.new))) }
    {
        self.centre.journal().rows(alloc, from, most)
    }
}

impl<J, B: Book> CentreNode<J, B> {
    /// Gives at most `most` controls of the book with ids over `from`.
    ///
    /// # Errors
    /// The book's.
    pub fn controls(
        &mut self,
        alloc: Global,
        from: u64,
        most: usize,
    ) -> Result<Vec<Entry>, BookFault>
        ensures rows { B.honest (book_of (centre_in self.new)) → IfOk result (λ rows. rows.items ≡ rows_of (B.contents (book_of (centre_in self.old))).entries from most) }
        ensures same { B.honest (book_of (centre_in self.new)) → OnOk result (B.contents (book_of (centre_in self.new)) ≡ B.contents (book_of (centre_in self.old))) }
        ensures else_same { self.new ≡ with_centre self.old (with_book (centre_in self.old) (book_of (centre_in self.new))) }
    {
        self.centre.book().rows(alloc, from, most)
    }
}

impl<J: JournalStore, B: Book> CentreNode<J, B> {
    /// Issues a command for a substation, and gives its number. It is relayed as soon as the link is free.
    ///
    /// # Errors
    /// The centre's refusal.
    pub fn issue(&mut self, now: u64, substation: u8, command: &Command) -> Result<u64, IssueFault>
        ensures issued { Issues J.archive B.contents J.honest B.honest B.is_stopped now substation command.now self.old self.new result }
        ensures slot { slot_in self.new ≡ slot_in self.old }
    {
        let issued = self.centre.issue(self.shared.alloc, substation, command);
        self.link.look_for_control();
        self.link.tick(&mut self.shared, &mut self.centre, now);
        issued
    }
}

impl<J: JournalStore, B: Book> Node for CentreNode<J, B> {
    fn connected(&mut self, _slot: Slot, now: u64)
        ensures opened { (reply : Reply) × (CentreCalls J.archive B.contents (IsHonest J.honest B.honest self.new) now
            (Made (Opened now reply) ∷ []) (new_link (port_of (link_in self.old))) None self.old self.new) }
        ensures rests { is_up (link_in self.new) ≡ true → Rests (link_in self.new) now }
        ensures held { IsHonest J.honest B.honest self.new → IsHonest J.honest B.honest self.old }
        ensures slot { slot_in self.new ≡ slot_in self.old }
        ensures basis { basis_of (link_in self.new) ≡ basis_of (link_in self.old) }
    {
        self.link.connected(&mut self.shared, &mut self.centre, now);
    }

    fn received(&mut self, _slot: Slot, now: u64, octets: &[u8])
        ensures fed { is_up (link_in self.old) ≡ true → (CentreCuts J.archive B.contents (IsHonest J.honest B.honest self.new) Memory self.old self.new)
            ⊎ CentreCalls J.archive B.contents (IsHonest J.honest B.honest self.new) now
            (Fed octets.now ∷ []) (link_of (link_in self.old)) (want_of (link_in self.old)) self.old self.new }
        ensures unconnected { is_up (link_in self.old) ≡ false → (link_in self.new ≡ link_in self.old)
            × ((IsHonest J.honest B.honest self.new) → centre_seen J.archive B.contents (centre_in self.new) ≡ centre_seen J.archive B.contents (centre_in self.old)) }
        ensures rests { is_up (link_in self.new) ≡ true → Rests (link_in self.new) now }
        ensures held { IsHonest J.honest B.honest self.new → IsHonest J.honest B.honest self.old }
        ensures slot { slot_in self.new ≡ slot_in self.old }
        ensures basis { basis_of (link_in self.new) ≡ basis_of (link_in self.old) }
    {
        self.link
            .received(&mut self.shared, &mut self.centre, now, octets);
    }

    fn sent(&mut self, _slot: Slot, now: u64, count: usize)
        ensures handed { is_up (link_in self.old) ≡ true → CentreCalls J.archive B.contents (IsHonest J.honest B.honest self.new) now
            (Handed (min count (length (link_of (link_in self.old)).pending)) ∷ []) (link_of (link_in self.old)) (want_of (link_in self.old)) self.old self.new }
        ensures unconnected { is_up (link_in self.old) ≡ false → (link_in self.new ≡ link_in self.old)
            × ((IsHonest J.honest B.honest self.new) → centre_seen J.archive B.contents (centre_in self.new) ≡ centre_seen J.archive B.contents (centre_in self.old)) }
        ensures rests { is_up (link_in self.new) ≡ true → Rests (link_in self.new) now }
        ensures held { IsHonest J.honest B.honest self.new → IsHonest J.honest B.honest self.old }
        ensures slot { slot_in self.new ≡ slot_in self.old }
        ensures basis { basis_of (link_in self.new) ≡ basis_of (link_in self.old) }
    {
        self.link
            .sent(&mut self.shared, &mut self.centre, now, count);
    }

    fn closed(&mut self, _slot: Slot, now: u64, cause: Closing)
        ensures schedule { schedule_of (link_in self.new) ≡ closed (schedule_of (link_in self.old)) now (pace_of (link_in self.old)) }
        ensures want { want_of (link_in self.new) ≡ None }
        ensures hung_up { (IsHonest J.honest B.honest self.new) → centre_seen J.archive B.contents (centre_in self.new)
            ≡ (if is_up (link_in self.old) then centre_hung_up (centre_seen J.archive B.contents (centre_in self.old)) else centre_seen J.archive B.contents (centre_in self.old)) }
        ensures held { IsHonest J.honest B.honest self.new → IsHonest J.honest B.honest self.old }
        ensures slot { slot_in self.new ≡ slot_in self.old }
        ensures basis { basis_of (link_in self.new) ≡ basis_of (link_in self.old) }
    {
        self.link
            .closed(&mut self.shared, &mut self.centre, now, cause);
    }

    fn tick(&mut self, now: u64)
        ensures waited { is_up (link_in self.old) ≡ false → IsWaiting (link_in self.old) now (link_in self.new)
            × ((IsHonest J.honest B.honest self.new) → centre_seen J.archive B.contents (centre_in self.new) ≡ centre_seen J.archive B.contents (centre_in self.old)) }
        ensures over { is_up (link_in self.old) ≡ true → IfSome (over_budget (link_in self.old) now) (λ cause. CentreCuts J.archive B.contents (IsHonest J.honest B.honest self.new) cause self.old self.new) }
        ensures passes { is_up (link_in self.old) ≡ true → over_budget (link_in self.old) now ≡ None → HasRoom (link_of (link_in self.old)) → (reply : Reply)
            × (CentreCalls J.archive B.contents (IsHonest J.honest B.honest self.new) now
            (Made (Ticked now reply) ∷ []) (link_of (link_in self.old)) (want_of (link_in self.old)) self.old self.new) }
        ensures full { is_up (link_in self.old) ≡ true → over_budget (link_in self.old) now ≡ None → (HasRoom (link_of (link_in self.old)) → ⊥)
            → IsKept (link_in self.old) (link_in self.new) × ((IsHonest J.honest B.honest self.new) → centre_seen J.archive B.contents (centre_in self.new) ≡ centre_seen J.archive B.contents (centre_in self.old)) }
        ensures rests { is_up (link_in self.new) ≡ true → Rests (link_in self.new) now }
        ensures held { IsHonest J.honest B.honest self.new → IsHonest J.honest B.honest self.old }
        ensures slot { slot_in self.new ≡ slot_in self.old }
        ensures basis { basis_of (link_in self.new) ≡ basis_of (link_in self.old) }
    {
        self.link.tick(&mut self.shared, &mut self.centre, now);
    }

    fn next_deadline(&self) -> u64
        ensures { IsDue (link_in self.now) (centre_lives.deadline (centre_seen J.archive B.contents (centre_in self.now))) result }
    {
        let timer = self.centre.next_deadline();
        self.link.next_deadline(timer)
    }

    fn next_want(&mut self) -> Option<Wanted>
        ensures want { result ≡ wanted_in self.old (want_of (link_in self.old)) }
        ensures once { self.new ≡ with_link self.old (with_want (link_in self.old) None) }
    {
        let slot = self.slot;
        match self.link.take_want() {
            Some(want) => Some(Wanted { slot, want }),
            None => None,
        }
    }

    fn output(&self, _slot: Slot) -> &[u8]
        ensures { result.now ≡ output_of (link_in self.now) }
    {
        self.link.output()
    }

    fn reports(&self) -> &[Report]
        ensures { result.now ≡ told_in (reports_in self.now) }
    {
        self.shared.reports.as_slice()
    }

    fn missed(&self) -> u64
        ensures { result ≡ missed_in (reports_in self.now) }
    {
        self.shared.reports.missed()
    }

    fn refused(&self) -> &[u8]
        ensures { result.now ≡ refused_in (reports_in self.now) }
    {
        self.shared.reports.refused()
    }

    fn clear_reports(&mut self)
        ensures told { told_in (reports_in self.new) ≡ [] }
        ensures missed { missed_in (reports_in self.new) ≡ 0 }
        ensures refused { refused_in (reports_in self.new) ≡ [] }
        ensures same { (centre_in self.new ≡ centre_in self.old) × (link_in self.new ≡ link_in self.old) × (slot_in self.new ≡ slot_in self.old) }
    {
        self.shared.reports.clear();
    }
}
