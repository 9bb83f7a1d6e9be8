//! One link of a concentrator to a substation, on a stream.

ghost use Rattle.std.specs.Prelude.{◌≡◌, ◌≢◌, ◌<◌, ◌⊎◌, All, Err, IfErr, IfOk, IsTrue, OnErr, OnOk, false, if◌then◌else◌, nat_lt, length};
ghost use Rattle.dnp_eventbuf.specs.Sides.{either_exhausts};
ghost use Rattle.dnp_concentrator.specs.Concentrator.{book_of, links_of, queue_of, queued_at, taking_at, KeepsStores};
ghost use Rattle.dnp_concentrator.specs.declared.cause.Cause.TheVariants as cause;
ghost use Rattle.dnp_streams.specs.declared.stream.station.StationFault.TheVariants as told;
ghost use Rattle.dnp_streams.specs.streams.BelowLives.{cut, has_ended, next_below};
ghost use Rattle.dnp_streams.specs.streams.Concentrators.{BelowReceives, BelowRefuses, below_seen};
ghost use Rattle.dnp_streams.specs.streams.Lent.{kept_below, lent_below, substation_of};
ghost use Rattle.dnp_streams.specs.streams.Stations.{answer_in, answer_of};

use crate::stream::asker::Asker;
use crate::stream::kept::KeptAnswer;
use crate::stream::master::{fault_of, nothing};
use crate::stream::station::{Answer, Station, StationFault};
use dnp_concentrator::{Concentrator, RelayedStep};
use dnp_controls::{Book, BookFault};
use dnp_eventbuf::PairLanes;
use dnp_master::{AskFault, Fragment, Task};
use std::alloc::Global;

/// The link of a lent concentrator to the substation with this number. Where the concentrator's plan has no such
/// substation, the station takes nothing and does nothing.
#[derive(Drop)]
pub struct Below<'a, Q, B> {
    /// The concentrator.
    concentrator: &'a mut Concentrator<Q, B>,
    /// The substation's number.
    substation: u8,
}

impl<'a, Q, B> Below<'a, Q, B> {
    /// The link of the concentrator to the substation with this number.
    pub fn new(concentrator: &'a mut Concentrator<Q, B>, substation: u8) -> Self
        ensures lent { (lent_below result).now ≡ concentrator.old }
        ensures same_reference { (lent_below result).ghost_name ≡ concentrator.entry.ghost_name }
        ensures substation { substation_of result ≡ substation }
    {
        Below {
            concentrator,
            substation,
        }
    }

    /// Whether the concentrator's plan has the substation.
    fn is_there(&self) -> bool
        ensures { result ≡ nat_lt (substation_of self.now) (length (links_of (lent_below self.now).now)) }
    {
        usize::from(self.substation) < self.concentrator.substations()
    }
}

impl<'a, Q: PairLanes, B: Book> Below<'a, Q, B> {
    /// Time has passed for the link, where the plan has the substation. Whether it has closed now.
    pub(super) fn pass(&mut self, now: u64) -> bool
        ensures kept { kept_below self.new ≡ kept_below self.old }
        ensures stores { KeepsStores (lent_below self.old).now (lent_below self.new).now }
        ensures closes { result ≡ has_ended (below_seen Q.contents B.contents (lent_below self.old).now (substation_of self.old)) now }
        ensures ticked { below_seen Q.contents B.contents (lent_below self.new).now (substation_of self.new)
            ≡ (if result then cut (below_seen Q.contents B.contents (lent_below self.old).now (substation_of self.old)) now
            else below_seen Q.contents B.contents (lent_below self.old).now (substation_of self.old)) }
    {
        if !self.is_there() {
            return false;
        }
        self.concentrator.tick_below(self.substation, now)
    }

    /// When the response timer ends, in milliseconds: none while it doesn't run, or where the plan lacks the substation.
    pub(super) fn deadline(&self) -> Option<u64>
        ensures { result ≡ next_below (below_seen Q.contents B.contents (lent_below self.now).now (substation_of self.now)) }
    {
        if !self.is_there() {
            return None;
        }
        self.concentrator.next_deadline_below(self.substation)
    }
}

impl<'a, Q: PairLanes, B: Book> Station for Below<'a, Q, B> {
    ghost use Rattle.dnp_concentrator.specs.Concentrator.{book_of, queue_of};
    ghost use Rattle.dnp_streams.specs.streams.Asking.{below_asking};
    ghost use Rattle.dnp_streams.specs.streams.BelowLives.{below_lives};
    ghost use Rattle.dnp_streams.specs.streams.Concentrators.{BelowSeen, below_hung_up, below_opens, below_receives, below_seen};
    ghost use Rattle.dnp_streams.specs.streams.Lent.{KeptBelow, kept_below, lent_below, substation_of};

    ghost State = { BelowSeen };

    ghost state = { λ s. below_seen Q.contents B.contents (lent_below s).now (substation_of s) };

    ghost Kept = { KeptBelow };

    ghost kept = { λ s. kept_below s };

    ghost honest = { λ s. Q.honest (queue_of (lent_below s).now) × B.honest (book_of (lent_below s).now) };

    ghost opens = { below_opens };

    ghost receives = { below_receives };

    ghost asking = { below_asking };

    ghost life = { below_lives };

    ghost hung_up_of = { below_hung_up };

    fn opened(&mut self, _alloc: Global, _now: u64) -> Result<Answer, StationFault> {
        if self.is_there() {
            self.concentrator.opened_below(self.substation);
        }
        Ok(nothing())
    }

    fn receive(&mut self, alloc: Global, now: u64, octets: &[u8]) -> Result<Answer, StationFault>
        ensures kept { kept_below self.new ≡ kept_below self.old }
        ensures held { (Q.honest (queue_of (lent_below self.new).now) × B.honest (book_of (lent_below self.new).now))
            → (Q.honest (queue_of (lent_below self.old).now) × B.honest (book_of (lent_below self.old).now)) }
        ensures answered { (Q.honest (queue_of (lent_below self.new).now) × B.honest (book_of (lent_below self.new).now))
            → IfOk result (λ answer. BelowReceives (below_seen Q.contents B.contents (lent_below self.old).now (substation_of self.old)) now octets.now (answer_of answer)
            (below_seen Q.contents B.contents (lent_below self.new).now (substation_of self.new))) }
        ensures refused { (Q.honest (queue_of (lent_below self.new).now) × B.honest (book_of (lent_below self.new).now))
            → IfErr result (λ fault. BelowRefuses (below_seen Q.contents B.contents (lent_below self.old).now (substation_of self.old)) now octets.now fault) }
        ensures unchanged { (Q.honest (queue_of (lent_below self.new).now) × B.honest (book_of (lent_below self.new).now))
            → OnErr result (below_seen Q.contents B.contents (lent_below self.new).now (substation_of self.new)
            ≡ below_seen Q.contents B.contents (lent_below self.old).now (substation_of self.old)) }
        ensures some { IfOk result (λ answer. All (λ fragment. 0 < length fragment) (answer_of answer).send) }
        // It says Device exactly where the queue has answered it, and Memory before the queue is asked, or where the numbers are there.
        ensures stopped { result ≡ Err (told.Cause cause.Device) → IsTrue (Q.is_stopped (queue_of (lent_below self.new).now)) }
        ensures runs_on { result ≢ Err (told.Cause cause.Device)
            → Q.is_stopped (queue_of (lent_below self.new).now) ≡ Q.is_stopped (queue_of (lent_below self.old).now) }
        ensures exhausted_first { Q.honest (queue_of (lent_below self.new).now) → result ≡ Err (told.Cause cause.Memory)
            → (queue_of (lent_below self.new).now ≡ queue_of (lent_below self.old).now)
            ⊎ IfOk (taking_at (lent_below self.old).now (substation_of self.old) now octets.now) (λ t.
            either_exhausts (Q.contents (queue_of (lent_below self.old).now)) (queued_at (lent_below self.old).now (substation_of self.old) t.events) ≡ false) }
    {
        let mut answer = KeptAnswer::new(alloc);
        self.receive_into(&mut answer, alloc, now, octets)?;
        Ok(answer.into_answer())
    }

    fn receive_into(
        &mut self,
        answer: &mut KeptAnswer,
        alloc: Global,
        now: u64,
        octets: &[u8],
    ) -> Result<(), StationFault>
        ensures kept { kept_below self.new ≡ kept_below self.old }
        ensures held { (Q.honest (queue_of (lent_below self.new).now) × B.honest (book_of (lent_below self.new).now))
            → (Q.honest (queue_of (lent_below self.old).now) × B.honest (book_of (lent_below self.old).now)) }
        ensures answered { (Q.honest (queue_of (lent_below self.new).now) × B.honest (book_of (lent_below self.new).now))
            → OnOk result (BelowReceives (below_seen Q.contents B.contents (lent_below self.old).now (substation_of self.old)) now octets.now (answer_in answer.new)
            (below_seen Q.contents B.contents (lent_below self.new).now (substation_of self.new))) }
        ensures refused { (Q.honest (queue_of (lent_below self.new).now) × B.honest (book_of (lent_below self.new).now))
            → IfErr result (λ fault. BelowRefuses (below_seen Q.contents B.contents (lent_below self.old).now (substation_of self.old)) now octets.now fault) }
        ensures unchanged { (Q.honest (queue_of (lent_below self.new).now) × B.honest (book_of (lent_below self.new).now))
            → OnErr result (below_seen Q.contents B.contents (lent_below self.new).now (substation_of self.new)
            ≡ below_seen Q.contents B.contents (lent_below self.old).now (substation_of self.old)) }
        ensures left { OnErr result (answer.new ≡ answer.old) }
        ensures some { OnOk result (All (λ fragment. 0 < length fragment) (answer_in answer.new).send) }
        // It says Device exactly where the queue has answered it, and Memory before the queue is asked, or where the numbers are there.
        ensures stopped { result ≡ Err (told.Cause cause.Device) → IsTrue (Q.is_stopped (queue_of (lent_below self.new).now)) }
        ensures runs_on { result ≢ Err (told.Cause cause.Device)
            → Q.is_stopped (queue_of (lent_below self.new).now) ≡ Q.is_stopped (queue_of (lent_below self.old).now) }
        ensures exhausted_first { Q.honest (queue_of (lent_below self.new).now) → result ≡ Err (told.Cause cause.Memory)
            → (queue_of (lent_below self.new).now ≡ queue_of (lent_below self.old).now)
            ⊎ IfOk (taking_at (lent_below self.old).now (substation_of self.old) now octets.now) (λ t.
            either_exhausts (Q.contents (queue_of (lent_below self.old).now)) (queued_at (lent_below self.old).now (substation_of self.old) t.events) ≡ false) }
    {
        if !self.is_there() {
            answer.put(nothing());
            return Ok(());
        }
        match self
            .concentrator
            .receive_below(alloc, self.substation, now, octets)
        {
            Ok((actions, _)) => {
                answer.take(&actions);
                Ok(())
            }
            Err(fault) => Err(fault_of(fault)),
        }
    }

    fn hung_up(&mut self) {
        if self.is_there() {
            self.concentrator.hung_up_below(self.substation);
        }
    }
}

impl<'a, Q: PairLanes, B: Book> Asker for Below<'a, Q, B> {
    fn ask_into(&mut self, request: &mut Fragment, now: u64, task: Task) -> Result<(), AskFault> {
        if !self.is_there() {
            return Err(AskFault::Closed);
        }
        self.concentrator
            .ask_below_into(request, self.substation, now, task)
    }

    fn relay_into(
        &mut self,
        request: &mut Fragment,
        alloc: Global,
        now: u64,
    ) -> Result<RelayedStep, BookFault> {
        if !self.is_there() {
            return Ok(RelayedStep::Nothing);
        }
        self.concentrator
            .relay_into(request, alloc, self.substation, now)
    }

    fn idle(&self) -> bool {
        self.is_there() && self.concentrator.idle_below(self.substation)
    }
}
