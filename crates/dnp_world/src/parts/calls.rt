//! The events of a system that are calls of its stations.

ghost use Rattle.std.specs.Prelude.{◌≡◌, None, true, Err, OnErr, OnOk};
ghost use Rattle.dnp_world.specs.Causes.{TellsDevice};
ghost use Rattle.dnp_world.specs.SystemEvents.{OpensOn, OutstationTicks, SubstationRestarts, concentrator_restarted};
ghost use Rattle.dnp_world.specs.Centres.{ChangesAll, centre_of, has_link};
ghost use Rattle.dnp_world.specs.declared.event.Link.TheVariants as link;

use super::Parts;
use crate::event::Link;
use crate::link_event::End;
use crate::stored::Stored;
use crate::substation::hang_up_masters;
use dnp_concentrator::Cause;
use dnp_controls::Book;
use dnp_eventbuf::{JournalStore, PairLanes};
use std::alloc::Global;

impl<Q: PairLanes, J: JournalStore, A: Book, B: Book> Parts<Q, J, A, B> {
    /// Both lines of the link are cleared, both ports are reset, and both ends are opened. The outstation is asked first,
    /// since its lanes may refuse.
    pub(crate) fn open(&mut self, alloc: Global, on: Link) -> Result<(), Cause>
        requires { has_link self.old.system on ≡ true }
        ensures held { ⟦<Self as Stored>⟧.well self.new → ⟦<Self as Stored>⟧.well self.old }
        ensures done { ⟦<Self as Stored>⟧.well self.new → OnOk result (ChangesAll (centre_of on) (OpensOn on) self.old.system self.new.system) }
        ensures stopped { ⟦<Self as Stored>⟧.well self.new → OnErr result (self.new.system ≡ self.old.system) }
        ensures device { TellsDevice (⟦<Self as Stored>⟧.is_stopped self.old) (⟦<Self as Stored>⟧.is_stopped self.new) (result ≡ Err Cause.Device) }
    {
        match on {
            Link::Below(substation) => {
                let below = &mut self.substations[usize::from(substation)];
                below.open(&mut self.actions, alloc, self.moment)?;
                self.concentrator.opened_below(substation);
            }
            Link::Above(centre) => {
                self.above.at_mut(centre).open(
                    &mut self.actions,
                    alloc,
                    self.moment,
                    &mut self.concentrator,
                    centre,
                )?;
                self.centres.at_mut(centre).opened();
            }
        }
        Ok(())
    }

    /// The outstation of the link looks at its timers.
    pub(crate) fn tick_outstation(&mut self, alloc: Global, on: Link) -> Result<(), Cause>
        requires { has_link self.old.system on ≡ true }
        ensures held { ⟦<Self as Stored>⟧.well self.new → ⟦<Self as Stored>⟧.well self.old }
        ensures done { ⟦<Self as Stored>⟧.well self.new → OnOk result (ChangesAll (centre_of on) (OutstationTicks on) self.old.system self.new.system) }
        ensures stopped { ⟦<Self as Stored>⟧.well self.new → OnErr result (self.new.system ≡ self.old.system) }
        ensures device { TellsDevice (⟦<Self as Stored>⟧.is_stopped self.old) (⟦<Self as Stored>⟧.is_stopped self.new) (result ≡ Err Cause.Device) }
    {
        match on {
            Link::Below(substation) => {
                let below = &mut self.substations[usize::from(substation)];
                below.tick(&mut self.actions, alloc, self.moment)
            }
            Link::Above(centre) => self.above.at_mut(centre).tick(
                &mut self.actions,
                alloc,
                self.moment,
                &mut self.concentrator,
                centre,
            ),
        }
    }

    /// The concentrator's device starts again: the concentrator hangs up all its ends.
    pub(crate) fn restart_concentrator(&mut self, alloc: Global)
        ensures held { ⟦<Self as Stored>⟧.well self.new → ⟦<Self as Stored>⟧.well self.old }
        ensures done { ⟦<Self as Stored>⟧.well self.new → ChangesAll None (λ s t. t ≡ concentrator_restarted s) self.old.system self.new.system }
        ensures runs_on { ⟦<Self as Stored>⟧.is_stopped self.new ≡ ⟦<Self as Stored>⟧.is_stopped self.old }
    {
        self.concentrator.restart(alloc);
        hang_up_masters(&mut self.substations);
        self.above.first.hang_up(End::Outstation);
        self.above.second.hang_up(End::Outstation);
    }

    /// A substation's device starts again: the substation hangs up, and its lanes are emptied.
    pub(crate) fn restart_substation(&mut self, alloc: Global, substation: u8) -> Result<(), Cause>
        requires { has_link self.old.system (link.Below substation) ≡ true }
        ensures held { ⟦<Self as Stored>⟧.well self.new → ⟦<Self as Stored>⟧.well self.old }
        ensures done { ⟦<Self as Stored>⟧.well self.new → OnOk result (ChangesAll None (SubstationRestarts substation) self.old.system self.new.system) }
        ensures stopped { ⟦<Self as Stored>⟧.well self.new → OnErr result (self.new.system ≡ self.old.system) }
        ensures device { TellsDevice (⟦<Self as Stored>⟧.is_stopped self.old) (⟦<Self as Stored>⟧.is_stopped self.new) (result ≡ Err Cause.Device) }
    {
        let below = &mut self.substations[usize::from(substation)];
        below.restart(alloc, substation, &mut self.history.gone)
    }
}
