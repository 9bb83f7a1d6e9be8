//! Polls over quiet links, with all that comes of them.

ghost use Rattle.std.specs.Prelude.{◌≡◌, ◌≢◌, ◌↔◌, false, true, Err, IfErr, OnErr, OnOk};
ghost use Rattle.dnp_world.specs.Carriers.{TellsDeviceOver};
ghost use Rattle.dnp_world.specs.Centres.{HappensToAll, centre_of, is_quiet_on, is_there, may_stop, seen_at};
ghost use Rattle.dnp_world.specs.Rounds.{Flushes, IsRound, StopsFlushing, StopsInRound};

use super::Parts;
use crate::carrier::Carrier;
use crate::event::{Event, Link};
use crate::link_event::Way;
use crate::round_fault::RoundFault;
use crate::stored::Stored;
use dnp_concentrator::Cause;
use dnp_controls::Book;
use dnp_eventbuf::{JournalStore, PairLanes};
use dnp_master::{Classes, Task};
use std::alloc::Global;

impl<Q: PairLanes, J: JournalStore, A: Book, B: Book> Parts<Q, J, A, B> {
    /// Whether the link is one of the plan, and quiet: both ends are open, both lines carry nothing and are whole, the
    /// master awaits no response, and the outstation awaits no confirm and holds no READ.
    pub(crate) fn quiet(&self, on: Link) -> bool
        ensures { result ≡ is_quiet_on self.now.system on }
    {
        if !self.has(on) {
            return false;
        }
        match on {
            Link::Below(substation) => {
                self.concentrator.idle_below(substation)
                    && self.substations[usize::from(substation)].quiet()
            }
            Link::Above(centre) => {
                self.centres.at(centre).idle()
                    && self.concentrator.quiet_above(centre)
                    && self.above.at(centre).quiet()
            }
        }
    }

    /// What stands on the line of this way of the link is delivered, one unit after the other.
    pub(crate) fn flush<C: Carrier>(
        &mut self,
        alloc: Global,
        on: Link,
        way: Way,
        carrier: &mut C,
    ) -> Result<(), Cause>
        requires { is_there (centre_of on) ≡ true }
        ensures held { ⟦<Self as Stored>⟧.well self.new → ⟦<Self as Stored>⟧.well self.old }
        ensures done { ⟦<Self as Stored>⟧.well self.new → OnOk result (Flushes HappensToAll (seen_at (centre_of on)) on way self.old.system self.new.system) }
        ensures stopped { ⟦<Self as Stored>⟧.well self.new → OnErr result (StopsFlushing HappensToAll (seen_at (centre_of on)) may_stop on way self.old.system self.new.system) }
        ensures device { TellsDeviceOver C.refuses (⟦<Self as Stored>⟧.is_stopped self.old) (⟦<Self as Stored>⟧.is_stopped self.new) (result ≡ Err Cause.Device) }
    {
        for _ in 0..self.standing(on, way) {
            self.happen_by(alloc, &Event::Deliver(on, way), carrier)?;
        }
        Ok(())
    }

    /// Events of classes 1, 2 and 3 are polled over the link, and all that comes of it is delivered: the request, the
    /// response, and the confirm.
    fn poll_round<C: Carrier>(
        &mut self,
        alloc: Global,
        on: Link,
        carrier: &mut C,
    ) -> Result<(), Cause>
        requires { is_there (centre_of on) ≡ true }
        ensures held { ⟦<Self as Stored>⟧.well self.new → ⟦<Self as Stored>⟧.well self.old }
        ensures done { ⟦<Self as Stored>⟧.well self.new → OnOk result (IsRound HappensToAll (seen_at (centre_of on)) on self.old.system self.new.system) }
        ensures stopped { ⟦<Self as Stored>⟧.well self.new → OnErr result (StopsInRound HappensToAll (seen_at (centre_of on)) may_stop on self.old.system self.new.system) }
        ensures device { TellsDeviceOver C.refuses (⟦<Self as Stored>⟧.is_stopped self.old) (⟦<Self as Stored>⟧.is_stopped self.new) (result ≡ Err Cause.Device) }
    {
        let classes = Classes([false, true, true, true]);
        self.happen(alloc, &Event::Ask(on, Task::Poll(classes)))?;
        self.flush(alloc, on, Way::Down, carrier)?;
        self.flush(alloc, on, Way::Up, carrier)?;
        self.flush(alloc, on, Way::Down, carrier)
    }

    /// A round over a quiet link. Refused, with nothing changed, is a link that isn't quiet. Each unit is carried.
    pub(crate) fn clean_round<C: Carrier>(
        &mut self,
        alloc: Global,
        on: Link,
        carrier: &mut C,
    ) -> Result<(), RoundFault>
        ensures held { ⟦<Self as Stored>⟧.well self.new → ⟦<Self as Stored>⟧.well self.old }
        ensures not_quiet { (result ≡ Err RoundFault.NotQuiet) ↔ (is_quiet_on self.old.system on ≡ false) }
        ensures unchanged { result ≡ Err RoundFault.NotQuiet → self.new ≡ self.old }
        ensures done { ⟦<Self as Stored>⟧.well self.new → OnOk result (IsRound HappensToAll (seen_at (centre_of on)) on self.old.system self.new.system) }
        ensures stopped { ⟦<Self as Stored>⟧.well self.new → IfErr result (λ fault. fault ≢ RoundFault.NotQuiet → StopsInRound HappensToAll (seen_at (centre_of on)) may_stop on self.old.system self.new.system) }
        ensures device { TellsDeviceOver C.refuses (⟦<Self as Stored>⟧.is_stopped self.old) (⟦<Self as Stored>⟧.is_stopped self.new) (result ≡ Err (RoundFault.Fault Cause.Device)) }
    {
        if !self.quiet(on) {
            return Err(RoundFault::NotQuiet);
        }
        self.poll_round(alloc, on, carrier)?;
        Ok(())
    }
}
