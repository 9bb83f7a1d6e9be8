//! A script over a system in memory.

use crate::run::scripted::Scripted;
use crate::script::WhichCentre;
use dnp_controls::Book;
use dnp_eventbuf::{JournalStore, PairLanes};
use dnp_world::{Cause, ControlFault, Event, Link, Report, RoundFault, Stored, Way, World};
use std::alloc::Global;
use std::slice;

impl<Q: PairLanes, J: JournalStore, A: Book, B: Book> Scripted for World<Q, J, A, B> {
    ghost use Rattle.dnp_daemons.specs.ScriptWorlds.{law_of_worlds};
    ghost use Rattle.dnp_world.specs.Wholes.{Whole};

    ghost State = { Whole };

    ghost state = { λ world. world.system };

    ghost honest = { λ world. ⟦<World<Q, J, A, B> as Stored>⟧.well world };

    ghost is_stopped = { ⟦<World<Q, J, A, B> as Stored>⟧.is_stopped };

    ghost law = { law_of_worlds };

    fn happen(&mut self, alloc: Global, event: &Event) -> Result<(), Cause> {
        match self.run(alloc, slice::from_ref(event)) {
            Ok(()) => Ok(()),
            Err(stopped) => Err(stopped.cause),
        }
    }

    fn standing(&self, link: Link, way: Way) -> usize {
        self.standing(link, way)
    }

    fn clean_round(&mut self, alloc: Global, link: Link) -> Result<(), RoundFault> {
        self.clean_round(alloc, link)
    }

    fn clean_control(
        &mut self,
        alloc: Global,
        centre: WhichCentre,
        id: u64,
    ) -> Result<(), ControlFault> {
        self.clean_control(alloc, centre.number(), id)
    }

    fn report(&mut self, alloc: Global) -> Result<Report, Cause> {
        self.report(alloc)
    }
}
