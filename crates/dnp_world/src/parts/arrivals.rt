//! What comes over the lines of a system.

ghost use Rattle.std.specs.Prelude.{◌≡◌, ◌<◌, None, Some, true, is_some, Err, OnErr, OnOk};
ghost use Rattle.dnp_world.specs.Causes.{TellsDevice};
ghost use Rattle.dnp_world.specs.Channels.{left_by};
ghost use Rattle.dnp_world.specs.SystemEvents.{ComesDownAbove, ComesDownBelow, ComesOn, ComesUp};
ghost use Rattle.dnp_world.specs.Centres.{ChangesAll, centre_of, front_on, has_link};
ghost use Rattle.dnp_world.specs.declared.event.Link.TheVariants as link;

use super::Parts;
use crate::event::Link;
use crate::link_event::Way;
use crate::stored::Stored;
use dnp_concentrator::Cause;
use dnp_controls::Book;
use dnp_eventbuf::{CENTRES, JournalStore, PairLanes};
use std::alloc::Global;

/// The number of the centre's one link.
const CENTRE_LINK: u8 = 0;

impl<Q: PairLanes, J: JournalStore, A: Book, B: Book> Parts<Q, J, A, B> {
    /// The front unit comes to a substation.
    fn come_down_below(&mut self, alloc: Global, substation: u8, repeats: bool) -> Result<(), Cause>
        requires { has_link self.old.system (link.Below substation) ≡ true }
        ensures held { ⟦<Self as Stored>⟧.well self.new → ⟦<Self as Stored>⟧.well self.old }
        ensures done { ⟦<Self as Stored>⟧.well self.new → OnOk result (ChangesAll None (ComesDownBelow (left_by repeats) substation) self.old.system self.new.system) }
        ensures stopped { ⟦<Self as Stored>⟧.well self.new → OnErr result (self.new.system ≡ self.old.system) }
        ensures device { TellsDevice (⟦<Self as Stored>⟧.is_stopped self.old) (⟦<Self as Stored>⟧.is_stopped self.new) (result ≡ Err Cause.Device) }
    {
        let below = &mut self.substations[usize::from(substation)];
        below.come_down(
            &mut self.actions,
            alloc,
            self.moment,
            substation,
            repeats,
            &mut self.history,
        )
    }

    /// The front unit comes to the concentrator from this centre.
    fn come_down_above(&mut self, alloc: Global, centre: u8, repeats: bool) -> Result<(), Cause>
        requires { centre < CENTRES }
        ensures held { ⟦<Self as Stored>⟧.well self.new → ⟦<Self as Stored>⟧.well self.old }
        ensures done { ⟦<Self as Stored>⟧.well self.new → OnOk result (ChangesAll (Some centre) (ComesDownAbove (left_by repeats)) self.old.system self.new.system) }
        ensures stopped { ⟦<Self as Stored>⟧.well self.new → OnErr result (self.new.system ≡ self.old.system) }
        ensures device { TellsDevice (⟦<Self as Stored>⟧.is_stopped self.old) (⟦<Self as Stored>⟧.is_stopped self.new) (result ≡ Err Cause.Device) }
    {
        let channel = self.above.at_mut(centre);
        channel.come_down(
            &mut self.actions,
            alloc,
            self.moment,
            &mut self.concentrator,
            centre,
        )?;
        channel.settle(Way::Down, repeats);
        Ok(())
    }

    /// The front unit comes to the concentrator's master of a substation.
    fn come_up_below(&mut self, alloc: Global, substation: u8, repeats: bool) -> Result<(), Cause>
        requires { has_link self.old.system (link.Below substation) ≡ true }
        ensures held { ⟦<Self as Stored>⟧.well self.new → ⟦<Self as Stored>⟧.well self.old }
        ensures done { ⟦<Self as Stored>⟧.well self.new → OnOk result (ChangesAll None (ComesUp (left_by repeats) (link.Below substation)) self.old.system self.new.system) }
        ensures stopped { ⟦<Self as Stored>⟧.well self.new → OnErr result (self.new.system ≡ self.old.system) }
        ensures device { TellsDevice (⟦<Self as Stored>⟧.is_stopped self.old) (⟦<Self as Stored>⟧.is_stopped self.new) (result ≡ Err Cause.Device) }
    {
        let channel = &mut self.substations[usize::from(substation)].channel;
        channel.come_up(
            alloc,
            substation,
            self.moment,
            repeats,
            &mut self.concentrator,
            &mut self.history.dropped,
        )
    }

    /// The front unit comes to this centre.
    fn come_up_above(&mut self, alloc: Global, centre: u8, repeats: bool) -> Result<(), Cause>
        requires { centre < CENTRES }
        ensures held { ⟦<Self as Stored>⟧.well self.new → ⟦<Self as Stored>⟧.well self.old }
        ensures done { ⟦<Self as Stored>⟧.well self.new → OnOk result (ChangesAll (Some centre) (ComesUp (left_by repeats) (link.Above centre)) self.old.system self.new.system) }
        ensures stopped { ⟦<Self as Stored>⟧.well self.new → OnErr result (self.new.system ≡ self.old.system) }
        ensures device { TellsDevice (⟦<Self as Stored>⟧.is_stopped self.old) (⟦<Self as Stored>⟧.is_stopped self.new) (result ≡ Err Cause.Device) }
    {
        self.above.at_mut(centre).come_up(
            alloc,
            CENTRE_LINK,
            self.moment,
            repeats,
            self.centres.at_mut(centre),
            &mut self.history.dropped,
        )
    }

    /// The front unit of this way of the link comes to its end, and stays on the line where it is repeated. On an empty line
    /// nothing is asked.
    pub(crate) fn come(
        &mut self,
        alloc: Global,
        on: Link,
        way: Way,
        repeats: bool,
    ) -> Result<(), Cause>
        requires { has_link self.old.system on ≡ true }
        ensures held { ⟦<Self as Stored>⟧.well self.new → ⟦<Self as Stored>⟧.well self.old }
        ensures done { ⟦<Self as Stored>⟧.well self.new → OnOk result (ChangesAll (centre_of on) (ComesOn (left_by repeats) on way) self.old.system self.new.system) }
        ensures stopped { ⟦<Self as Stored>⟧.well self.new → OnErr result (self.new.system ≡ self.old.system) }
        ensures there { OnErr result (is_some (front_on self.old.system on way) ≡ true) }
        ensures device { TellsDevice (⟦<Self as Stored>⟧.is_stopped self.old) (⟦<Self as Stored>⟧.is_stopped self.new) (result ≡ Err Cause.Device) }
    {
        if self.front(on, way).is_none() {
            return Ok(());
        }
        match (on, way) {
            (Link::Below(substation), Way::Down) => self.come_down_below(
                alloc, substation, repeats,
            ),
            (Link::Above(centre), Way::Down) => self.come_down_above(alloc, centre, repeats),
            (Link::Below(substation), Way::Up) => self.come_up_below(alloc, substation, repeats),
            (Link::Above(centre), Way::Up) => self.come_up_above(alloc, centre, repeats),
        }
    }
}
