//! The parts of a whole system, and the events that change lines, masters and the moment alone.

ghost use Rattle.std.specs.Prelude.{option_copied, ◌≡◌, ◌<◌, ◌+◌, ◌-◌, ◌^◌, Some, true, min};
ghost use Rattle.dnp_world.specs.Channels.{DamagesAt};
ghost use Rattle.dnp_world.specs.Centres.{ChangesAll, centre_of, front_on, has_link, standing_on};
ghost use Rattle.dnp_world.specs.SystemEvents.{HangsUpOn, LinesChange, LosesOn, MasterTicks};
ghost use Rattle.dnp_world.specs.Shown.{StoresAreWell, is_one_stopped};
ghost use Rattle.dnp_world.specs.declared.event.Link.TheVariants as link;
ghost use Rattle.dnp_world.specs.declared.link_event.End.TheVariants as end;

use crate::channel::Channel;
use crate::event::{Damaged, Link};
use crate::history::History;
use crate::link_event::{End, Way};
use crate::stored::Stored;
use crate::substation::Substation;
use dnp_concentrator::{Centre, Concentrator, IndexMap, PerCentre};
use dnp_controls::Book;
use dnp_eventbuf::{CENTRES, JournalStore, PairLanes};
use dnp_outstation::Actions;
use std::marker::Model;

mod arrivals;
mod calls;
mod controls;
mod happening;
mod report;
mod rounds;
mod tasks;

/// Substations, a concentrator and two centres, with lines between them, and what became of every row and command.
///
/// A clause sees what [`World`](crate::World) shows of it: the system, by what its stores say of themselves, and the stores.
#[derive(Drop)]
pub(crate) struct Parts<Q: PairLanes, J: JournalStore, A: Book, B: Book> {
    /// Where the substations' indices stand above.
    pub map: IndexMap,
    pub substations: Vec<Substation>,
    pub concentrator: Concentrator<Q, A>,
    pub centres: PerCentre<Centre<J, B>>,
    /// The lines between the concentrator and each centre.
    pub above: PerCentre<Channel>,
    /// The moment, in milliseconds.
    pub moment: u64,
    /// What a station at an outstation's end did last.
    pub actions: Actions,
    pub history: History,
}

impl<Q: PairLanes, J: JournalStore, A: Book, B: Book> Model for Parts<Q, J, A, B> {
    ghost use Rattle.dnp_world.specs.Shown.{Shown};

    ghost Value = { Shown Q J A B };

    ghost use Rattle.dnp_world.specs.SystemParts.{shown_by};

    ghost view = { λ p. shown_by Q.contents J.archive A.contents B.contents p };
}

impl<Q: PairLanes, J: JournalStore, A: Book, B: Book> Stored for Parts<Q, J, A, B> {
    ghost well = { λ p. StoresAreWell Q.honest J.honest A.honest A.is_stopped B.honest B.is_stopped p.stores };

    ghost is_stopped = { λ p. is_one_stopped Q.is_stopped J.is_stopped A.is_stopped B.is_stopped p.stores };
}

impl<Q: PairLanes, J: JournalStore, A: Book, B: Book> Parts<Q, J, A, B> {
    /// Whether the plan has this link.
    pub fn has(&self, on: Link) -> bool
        ensures { result ≡ has_link self.now.system on }
    {
        match on {
            Link::Below(substation) => {
                usize::from(substation) < self.substations.len()
                    && usize::from(substation) < self.concentrator.substations()
            }
            Link::Above(centre) => centre < CENTRES,
        }
    }

    /// How many units stand on the line of this way of the link, 0 for a link outside the plan.
    pub fn standing(&self, on: Link, way: Way) -> usize
        ensures { result ≡ standing_on self.now.system on way }
    {
        if !self.has(on) {
            return 0;
        }
        match on {
            Link::Below(substation) => self.substations[usize::from(substation)]
                .channel
                .standing(way),
            Link::Above(centre) => self.above.at(centre).standing(way),
        }
    }

    /// The octets of the front unit of this way of the link, none for a link outside the plan.
    pub fn front(&self, on: Link, way: Way) -> Option<&[u8]>
        ensures { option_copied result ≡ front_on self.now.system on way }
    {
        if !self.has(on) {
            return None;
        }
        match on {
            Link::Below(substation) => self.substations[usize::from(substation)].channel.front(way),
            Link::Above(centre) => self.above.at(centre).front(way),
        }
    }

    /// This end hangs up: the line towards it is cleared, and its port is reset.
    pub fn hang_up(&mut self, on: Link, end: End)
        requires { has_link self.old.system on ≡ true }
        ensures stores { self.new.stores ≡ self.old.stores }
        ensures done { ChangesAll (centre_of on) (HangsUpOn on end) self.old.system self.new.system }
    {
        match (on, end) {
            (Link::Below(substation), End::Master) => {
                self.concentrator.hung_up_below(substation);
                self.substations[usize::from(substation)]
                    .channel
                    .hang_up(End::Master);
            }
            (Link::Below(substation), End::Outstation) => {
                self.substations[usize::from(substation)].hang_up();
            }
            (Link::Above(centre), End::Master) => {
                self.centres.at_mut(centre).hung_up();
                self.above.at_mut(centre).hang_up(end);
            }
            (Link::Above(centre), End::Outstation) => {
                self.concentrator.hung_up_above(centre);
                self.above.at_mut(centre).hang_up(end);
            }
        }
    }

    /// The front unit of this way of the link is lost.
    pub fn lose(&mut self, on: Link, way: Way)
        requires { has_link self.old.system on ≡ true }
        ensures stores { self.new.stores ≡ self.old.stores }
        ensures done { ChangesAll (centre_of on) (LosesOn on way) self.old.system self.new.system }
    {
        match on {
            Link::Below(substation) => self.substations[usize::from(substation)].channel.lose(way),
            Link::Above(centre) => self.above.at_mut(centre).lose(way),
        }
    }

    /// The octets of the front unit of this way of the link become these.
    pub fn damage(&mut self, on: Link, way: Way, octets: &Damaged)
        requires { has_link self.old.system on ≡ true }
        ensures stores { self.new.stores ≡ self.old.stores }
        ensures done { ChangesAll (centre_of on) (LinesChange on (DamagesAt way octets.now)) self.old.system self.new.system }
    {
        match on {
            Link::Below(substation) => {
                self.substations[usize::from(substation)]
                    .channel
                    .damage(way, octets)
            }
            Link::Above(centre) => self.above.at_mut(centre).damage(way, octets),
        }
    }

    /// So many milliseconds pass.
    pub fn pass(&mut self, ms: u64)
        ensures stores { self.new.stores ≡ self.old.stores }
        ensures done { self.new.system ≡ record self.old.system {
          now = min (self.old.system.now + ms) (2 ^ 64 - 1);
        } }
    {
        self.moment = self.moment.saturating_add(ms);
    }

    /// The master of the link looks at its timer.
    pub fn tick_master(&mut self, on: Link)
        requires { has_link self.old.system on ≡ true }
        ensures stores { self.new.stores ≡ self.old.stores }
        ensures done { ChangesAll (centre_of on) (MasterTicks on) self.old.system self.new.system }
    {
        match on {
            Link::Below(substation) => {
                let _ = self.concentrator.tick_below(substation, self.moment);
            }
            Link::Above(centre) => {
                let _ = self.centres.at_mut(centre).tick(self.moment);
            }
        }
    }

    /// The centre's device starts again: the centre hangs up.
    pub fn restart_centre(&mut self, centre: u8)
        requires { centre < CENTRES }
        ensures stores { self.new.stores ≡ self.old.stores }
        ensures done { ChangesAll (Some centre) (HangsUpOn (link.Above centre) end.Master) self.old.system self.new.system }
    {
        self.centres.at_mut(centre).restart();
        self.above.at_mut(centre).hang_up(End::Master);
    }
}
