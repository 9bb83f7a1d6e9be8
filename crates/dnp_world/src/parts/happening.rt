//! One event of a system after the other.

ghost use Rattle.std.specs.Prelude.{◌≡◌, ◌⊎◌, true, is_some, Err, IfErr, OnErr, OnOk};
ghost use Rattle.dnp_world.specs.Carriers.{Crosses, FrontCrosses, RunsOver, TellsDeviceOver};
ghost use Rattle.dnp_world.specs.Causes.{IsStoppedBy, TellsDevice};
ghost use Rattle.dnp_world.specs.SystemEvents.{ComesOn};
ghost use Rattle.dnp_world.specs.SystemRuns.{CountsFor, RunsTo, StopsAfter};
ghost use Rattle.dnp_world.specs.Centres.{ChangesAll, HappensToAll, centre_of, front_on, has_link, link_of, may_stop, names_plan};
ghost use Rattle.dnp_world.specs.declared.event.Event.TheVariants as event;
ghost use Rattle.dnp_line.specs.Lines.{delivered_on};

use super::Parts;
use crate::carrier::Carrier;
use crate::event::{Event, Link, Place};
use crate::link_event::{End, Way};
use crate::stopped::Stopped;
use crate::stored::Stored;
use dnp_concentrator::Cause;
use dnp_controls::Book;
use dnp_eventbuf::{CENTRES, JournalStore, PairLanes};
use std::alloc::Global;

/// The link that the event is on, or that to the station that it names.
fn link_of(event: &Event) -> Option<Link>
    ensures { result ≡ link_of event.now }
{
    match event {
        Event::Open(on) | Event::HangUp(on, _) => Some(*on),
        Event::Deliver(on, _) | Event::Repeat(on, _) | Event::Lose(on, _) => Some(*on),
        Event::Damage(on, _, _) | Event::Ask(on, _) => Some(*on),
        Event::Relay(on) | Event::Tick(on, _) => Some(*on),
        Event::Change { substation, .. } => Some(Link::Below(*substation)),
        Event::Issue { centre, .. } => Some(Link::Above(*centre)),
        Event::Pass(_) | Event::Restart(Place::Concentrator) => None,
        Event::Restart(Place::Centre(centre)) => Some(Link::Above(*centre)),
        Event::Restart(Place::Substation(substation)) => Some(Link::Below(*substation)),
    }
}

impl<Q: PairLanes, J: JournalStore, A: Book, B: Book> Parts<Q, J, A, B> {
    /// Whether the plan has the link or the station that the event names, if it names one.
    fn names_plan(&self, event: &Event) -> bool
        ensures { result ≡ names_plan self.now.system event.now }
    {
        match link_of(event) {
            Some(on) => self.has(on),
            None => true,
        }
    }

    /// The front unit of this way of the link comes to its end. Where that is refused, the unit is lost.
    fn deliver(&mut self, alloc: Global, on: Link, way: Way) -> Result<(), Cause>
        requires { has_link self.old.system on ≡ true }
        ensures held { ⟦<Self as Stored>⟧.well self.new → ⟦<Self as Stored>⟧.well self.old }
        ensures done { ⟦<Self as Stored>⟧.well self.new → OnOk result (ChangesAll (centre_of on) (ComesOn delivered_on on way) self.old.system self.new.system) }
        ensures stopped { ⟦<Self as Stored>⟧.well self.new → OnErr result (CountsFor HappensToAll self.old.system (event.Deliver on way) self.new.system) }
        ensures there { OnErr result (is_some (front_on self.old.system on way) ≡ true) }
        ensures device { TellsDevice (⟦<Self as Stored>⟧.is_stopped self.old) (⟦<Self as Stored>⟧.is_stopped self.new) (result ≡ Err Cause.Device) }
    {
        let Err(cause) = self.come(alloc, on, way, false) else {
            return Ok(());
        };
        if self.has(on) {
            self.lose(on, way);
        }
        Err(cause)
    }

    /// One event happens.
    pub(crate) fn happen(&mut self, alloc: Global, event: &Event) -> Result<(), Cause>
        ensures held { ⟦<Self as Stored>⟧.well self.new → ⟦<Self as Stored>⟧.well self.old }
        ensures done { ⟦<Self as Stored>⟧.well self.new → OnOk result (HappensToAll self.old.system event.now self.new.system) }
        ensures stopped { ⟦<Self as Stored>⟧.well self.new → OnErr result (CountsFor HappensToAll self.old.system event.now self.new.system) }
        ensures named { OnErr result (may_stop self.old.system event.now ≡ true) }
        ensures device { TellsDevice (⟦<Self as Stored>⟧.is_stopped self.old) (⟦<Self as Stored>⟧.is_stopped self.new) (result ≡ Err Cause.Device) }
    {
        if !self.names_plan(event) {
            return Ok(());
        }
        match event {
            Event::Open(on) => return self.open(alloc, *on),
            Event::HangUp(on, end) => self.hang_up(*on, *end),
            Event::Deliver(on, way) => return self.deliver(alloc, *on, *way),
            Event::Repeat(on, way) => return self.come(alloc, *on, *way, true),
            Event::Lose(on, way) => self.lose(*on, *way),
            Event::Damage(on, way, octets) => self.damage(*on, *way, octets),
            Event::Ask(on, task) => return self.ask(*on, *task),
            Event::Relay(on) => return self.relay(alloc, *on),
            Event::Tick(on, End::Master) => self.tick_master(*on),
            Event::Tick(on, End::Outstation) => return self.tick_outstation(alloc, *on),
            Event::Change {
                substation,
                kind,
                index,
                reading,
            } => return self.change(alloc, *substation, *kind, *index, *reading),
            Event::Issue {
                centre,
                substation,
                command,
            } => return self.issue(alloc, *centre, *substation, command),
            Event::Pass(ms) => self.pass(*ms),
            Event::Restart(Place::Centre(centre)) => self.restart_centre(*centre),
            Event::Restart(Place::Concentrator) => self.restart_concentrator(alloc),
            Event::Restart(Place::Substation(substation)) => {
                return self.restart_substation(alloc, *substation);
            }
        }
        Ok(())
    }

    /// Carries the unit at the front of this way of the link, if there is one.
    fn carry<C: Carrier>(&self, on: Link, way: Way, carrier: &mut C) -> Result<(), Cause>
        ensures there { OnErr result (is_some (front_on self.now.system on way) ≡ true) }
        ensures carried { OnOk result (FrontCrosses C.carries on way (front_on self.now.system on way) carrier.old carrier.new) }
        ensures refused { IfErr result (λ cause. C.refuses carrier.old cause carrier.new) }
    {
        match self.front(on, way) {
            Some(unit) => carrier.carry(on, way, unit),
            None => Ok(()),
        }
    }

    /// Carries the unit that the event brings to its end, if it brings one.
    fn carry_for<C: Carrier>(&self, event: &Event, carrier: &mut C) -> Result<(), Cause>
        ensures named { OnErr result (may_stop self.now.system event.now ≡ true) }
        ensures carried { OnOk result (Crosses C.carries self.now.system event.now carrier.old carrier.new) }
        ensures refused { IfErr result (λ cause. C.refuses carrier.old cause carrier.new) }
    {
        match event {
            Event::Deliver(on, way) => self.carry(*on, *way, carrier),
            _ => Ok(()),
        }
    }

    /// The unit that the event brings to its end, if it brings one, is lost.
    fn lose_for(&mut self, event: &Event)
        ensures stores { self.new.stores ≡ self.old.stores }
        ensures counts { CountsFor HappensToAll self.old.system event.now self.new.system }
    {
        match event {
            Event::Deliver(on, way) if self.has(*on) => self.lose(*on, *way),
            _ => {}
        }
    }

    /// One event happens; where it is the end of a unit, the unit is carried before. One that can't be carried is lost.
    pub(crate) fn happen_by<C: Carrier>(
        &mut self,
        alloc: Global,
        event: &Event,
        carrier: &mut C,
    ) -> Result<(), Cause>
        ensures held { ⟦<Self as Stored>⟧.well self.new → ⟦<Self as Stored>⟧.well self.old }
        ensures done { ⟦<Self as Stored>⟧.well self.new → OnOk result (HappensToAll self.old.system event.now self.new.system) }
        ensures stopped { ⟦<Self as Stored>⟧.well self.new → OnErr result (CountsFor HappensToAll self.old.system event.now self.new.system) }
        ensures named { OnErr result (may_stop self.old.system event.now ≡ true) }
        ensures carried { OnOk result (Crosses C.carries self.old.system event.now carrier.old carrier.new) }
        ensures refused { IfErr result (λ cause. C.refuses carrier.old cause carrier.new ⊎ Crosses C.carries self.old.system event.now carrier.old carrier.new) }
        ensures device { TellsDeviceOver C.refuses (⟦<Self as Stored>⟧.is_stopped self.old) (⟦<Self as Stored>⟧.is_stopped self.new) (result ≡ Err Cause.Device) }
    {
        if let Err(cause) = self.carry_for(event, carrier) {
            self.lose_for(event);
            return Err(cause);
        }
        self.happen(alloc, event)
    }

    /// The events happen, one after the other, up to the first at which a store or a request for memory refuses. That one
    /// counts as `Lose` if it is `Deliver`, and else it is left out. A unit is carried before it comes to its end.
    pub(crate) fn run<C: Carrier>(
        &mut self,
        alloc: Global,
        events: &[Event],
        carrier: &mut C,
    ) -> Result<(), Stopped>
        ensures held { ⟦<Self as Stored>⟧.well self.new → ⟦<Self as Stored>⟧.well self.old }
        ensures done { ⟦<Self as Stored>⟧.well self.new → OnOk result (RunsTo HappensToAll self.old.system events.now self.new.system) }
        ensures stopped { ⟦<Self as Stored>⟧.well self.new → IfErr result (λ stopped. StopsAfter HappensToAll may_stop self.old.system events.now stopped.done self.new.system) }
        ensures carried { ⟦<Self as Stored>⟧.well self.new → OnOk result (RunsOver C.carries self.old.system events.now self.new.system carrier.old carrier.new) }
        ensures device { TellsDeviceOver C.refuses (⟦<Self as Stored>⟧.is_stopped self.old) (⟦<Self as Stored>⟧.is_stopped self.new) (IsStoppedBy Cause.Device result) }
    {
        for (done, event) in events.iter().enumerate() {
            if let Err(cause) = self.happen_by(alloc, event, carrier) {
                return Err(Stopped { done, cause });
            }
        }
        Ok(())
    }
}
