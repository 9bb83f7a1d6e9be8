//! A script over a system whose units are carried.

ghost use Rattle.std.specs.Prelude.{◌≡◌, ◌≢◌, Err, OnErr, OnOk};
ghost use Rattle.dnp_daemons.specs.ScriptWorlds.{law_of_worlds};
ghost use Rattle.dnp_world.specs.Carriers.{Crosses};

use crate::run::scripted::Scripted;
use crate::script::WhichCentre;
use dnp_controls::Book;
use dnp_eventbuf::{JournalStore, PairLanes};
use dnp_world::{
    Carrier, Cause, ControlFault, Event, Link, Report, RoundFault, Stored, Way, World,
};
use std::alloc::Global;
use std::slice;

/// A system, and what carries the units of its lines from one station to another.
#[derive(Drop)]
pub(crate) struct Carried<Q: PairLanes, J: JournalStore, A: Book, B: Book, C> {
    /// The system.
    pub world: World<Q, J, A, B>,
    /// What carries its units.
    pub carrier: C,
}

impl<Q: PairLanes, J: JournalStore, A: Book, B: Book, C: Carrier> Scripted
    for Carried<Q, J, A, B, C> {
    ghost use Rattle.dnp_world.specs.Wholes.{Whole};

    ghost State = { Whole };

    ghost state = { λ s. s.world.system };

    ghost honest = { λ s. ⟦<World<Q, J, A, B> as Stored>⟧.well s.world };

    ghost is_stopped = { λ s. ⟦<World<Q, J, A, B> as Stored>⟧.is_stopped s.world };

    ghost law = { law_of_worlds };

    fn happen(&mut self, alloc: Global, event: &Event) -> Result<(), Cause>
        ensures held { ⟦<Self as Scripted>⟧.honest self.new → ⟦<Self as Scripted>⟧.honest self.old }
        ensures done { ⟦<Self as Scripted>⟧.honest self.new → OnOk result (law_of_worlds.happens self.old.world.system event.now self.new.world.system) }
        ensures stopped { ⟦<Self as Scripted>⟧.honest self.new → OnErr result (law_of_worlds.stops self.old.world.system event.now self.new.world.system) }
        ensures runs_on { result ≢ Err Cause.Device → ⟦<Self as Scripted>⟧.is_stopped self.new ≡ ⟦<Self as Scripted>⟧.is_stopped self.old }
        ensures carried { ⟦<Self as Scripted>⟧.honest self.new → OnOk result (Crosses C.carries self.old.world.system event.now self.old.carrier self.new.carrier) }
    {
        match self
            .world
            .run_by(alloc, slice::from_ref(event), &mut self.carrier)
        {
            Ok(()) => Ok(()),
            Err(stopped) => Err(stopped.cause),
        }
    }

    fn standing(&self, link: Link, way: Way) -> usize {
        self.world.standing(link, way)
    }

    fn clean_round(&mut self, alloc: Global, link: Link) -> Result<(), RoundFault> {
        self.world.clean_round_by(alloc, link, &mut self.carrier)
    }

    fn clean_control(
        &mut self,
        alloc: Global,
        centre: WhichCentre,
        id: u64,
    ) -> Result<(), ControlFault> {
        self.world
            .clean_control_by(alloc, centre.number(), id, &mut self.carrier)
    }

    fn report(&mut self, alloc: Global) -> Result<Report, Cause> {
        self.world.report(alloc)
    }
}
