//! The calls of a whole system whose units are carried from one station to another.

ghost use Rattle.std.specs.Prelude.{ℕ, ◌<◌, ◌≡◌, ◌≢◌, ◌↔◌, [], false, take, Err, IfErr, OnOk};
ghost use Rattle.dnp_world.specs.BothSteady.{HoldsForAll, IsFateOfAll, Issues, Lasts};
ghost use Rattle.dnp_world.specs.Carriers.{RunsOver, TellsDeviceOver};
ghost use Rattle.dnp_world.specs.Causes.{IsStoppedBy};
ghost use Rattle.dnp_world.specs.Centres.{HappensToAll, centre_of, is_quiet_on, may_stop, seen_at};
ghost use Rattle.dnp_world.specs.ControlMoves.{ControlMoves};
ghost use Rattle.dnp_world.specs.Controls.{ControlEnds};
ghost use Rattle.dnp_world.specs.Opening.{OpensQuiet};
ghost use Rattle.dnp_world.specs.Rounds.{IsRound, StopsInRound};
ghost use Rattle.dnp_world.specs.SystemRuns.{RunsTo, StopsAfter};
ghost use Rattle.dnp_world.specs.WholeMoves.{RoundMovesAll};
ghost use Rattle.dnp_world.specs.Wholes.{seen_by};
ghost use Rattle.dnp_world.specs.declared.event.Link.TheVariants as link;

use crate::carrier::Carrier;
use crate::control_laws::a_clean_control_operates_for_its_centre;
use crate::event::{Event, Link};
use crate::headline_laws::{
    commands_are_issued_by_events_alone, rounds_and_controls_issue_nothing,
    rounds_and_controls_keep_a_system_steady, steady_systems_stay_steady,
};
use crate::movement_laws::a_clean_round_moves_rows_for_each_centre;
use crate::opening_laws::an_opened_link_is_quiet;
use crate::round_fault::{ControlFault, RoundFault};
use crate::stopped::Stopped;
use crate::stored::Stored;
use crate::world::World;
use dnp_concentrator::Cause;
use dnp_controls::Book;
use dnp_eventbuf::{CENTRES, JournalStore, PairLanes};
use std::alloc::Global;

impl<Q: PairLanes, J: JournalStore, A: Book, B: Book> World<Q, J, A, B> {
    /// The events happen as [`World::run`] says, and each unit is carried before it comes to its end. One that the carrier
    /// refuses is lost, and the list stops there: its `Deliver` counts as `Lose`.
    pub fn run_by<C: Carrier>(
        &mut self,
        alloc: Global,
        events: &[Event],
        carrier: &mut C,
    ) -> Result<(), Stopped>
        ensures held { ⟦<Self as Stored>⟧.well self.new → ⟦<Self as Stored>⟧.well self.old }
        ensures done { ⟦<Self as Stored>⟧.well self.new → OnOk result (RunsTo HappensToAll self.old.system events.now self.new.system) }
        ensures stopped { ⟦<Self as Stored>⟧.well self.new → IfErr result (λ stopped. StopsAfter HappensToAll may_stop self.old.system events.now stopped.done self.new.system) }
        ensures lasts { ⟦<Self as Stored>⟧.well self.new → OnOk result (Lasts events.now self.old.system self.new.system) }
        ensures lasts_so_far { ⟦<Self as Stored>⟧.well self.new → IfErr result (λ stopped. Lasts (take stopped.done events.now) self.old.system self.new.system) }
        ensures issued { ⟦<Self as Stored>⟧.well self.new → OnOk result (Issues events.now self.old.system self.new.system) }
        ensures issued_so_far { ⟦<Self as Stored>⟧.well self.new → IfErr result (λ stopped. Issues (take stopped.done events.now) self.old.system self.new.system) }
        ensures holds { ⟦<Self as Stored>⟧.well self.new → HoldsForAll self.new.system }
        ensures opens { ⟦<Self as Stored>⟧.well self.new → OnOk result (OpensQuiet events.now self.new.system) }
        ensures device { TellsDeviceOver C.refuses (⟦<Self as Stored>⟧.is_stopped self.old) (⟦<Self as Stored>⟧.is_stopped self.new) (IsStoppedBy Cause.Device result) }
        ensures carried { ⟦<Self as Stored>⟧.well self.new → OnOk result (RunsOver C.carries self.old.system events.now self.new.system carrier.old carrier.new) }
    {
        steady_systems_stay_steady();
        commands_are_issued_by_events_alone();
        an_opened_link_is_quiet();
        self.parts.run(alloc, events, carrier)
    }

    /// A clean round as [`World::clean_round`] says, each of whose units is carried before it comes to its end. One that the
    /// carrier refuses is lost, and the round stops there (`Fault`).
    pub fn clean_round_by<C: Carrier>(
        &mut self,
        alloc: Global,
        on: Link,
        carrier: &mut C,
    ) -> Result<(), RoundFault>
        ensures held { ⟦<Self as Stored>⟧.well self.new → ⟦<Self as Stored>⟧.well self.old }
        ensures not_quiet { (result ≡ Err RoundFault.NotQuiet) ↔ (is_quiet_on self.old.system on ≡ false) }
        ensures unchanged { result ≡ Err RoundFault.NotQuiet → self.new ≡ self.old }
        ensures done { ⟦<Self as Stored>⟧.well self.new → OnOk result (IsRound HappensToAll (seen_at (centre_of on)) on self.old.system self.new.system) }
        ensures stopped { ⟦<Self as Stored>⟧.well self.new → IfErr result (λ fault. fault ≢ RoundFault.NotQuiet → StopsInRound HappensToAll (seen_at (centre_of on)) may_stop on self.old.system self.new.system) }
        ensures moves { ⟦<Self as Stored>⟧.well self.new → OnOk result ∥ RoundMovesAll on self.old.system self.new.system ∥₁ }
        ensures fate { ⟦<Self as Stored>⟧.well self.new → IsFateOfAll (λ i. []) self.old.system self.new.system }
        ensures none_issued { ⟦<Self as Stored>⟧.well self.new → self.new.system.history.issued ≡ self.old.system.history.issued }
        ensures holds { ⟦<Self as Stored>⟧.well self.new → HoldsForAll self.new.system }
        ensures device { TellsDeviceOver C.refuses (⟦<Self as Stored>⟧.is_stopped self.old) (⟦<Self as Stored>⟧.is_stopped self.new) (result ≡ Err (RoundFault.Fault Cause.Device)) }
    {
        steady_systems_stay_steady();
        rounds_and_controls_keep_a_system_steady();
        rounds_and_controls_issue_nothing();
        a_clean_round_moves_rows_for_each_centre();
        self.parts.clean_round(alloc, on, carrier)
    }

    /// A clean control as [`World::clean_control`] says, each of whose units is carried before it comes to its end. One that
    /// the carrier refuses is lost, and the control stops there (`Fault`).
    pub fn clean_control_by<C: Carrier>(
        &mut self,
        alloc: Global,
        centre: u8,
        id: u64,
        carrier: &mut C,
    ) -> Result<(), ControlFault>
        requires { centre < CENTRES }
        ensures held { ⟦<Self as Stored>⟧.well self.new → ⟦<Self as Stored>⟧.well self.old }
        ensures ends { ⟦<Self as Stored>⟧.well self.new → ControlEnds HappensToAll (seen_by centre) may_stop centre id self.old.system result self.new.system }
        ensures operates { ⟦<Self as Stored>⟧.well self.new → OnOk result ∥ ControlMoves id (seen_by centre self.old.system) (seen_by centre self.new.system) ∥₁ }
        ensures rests { ⟦<Self as Stored>⟧.well self.new → (status : ℕ) → result ≡ Err (ControlFault.Refused status) → self.new.system.history.operated ≡ self.old.system.history.operated }
        ensures fate { ⟦<Self as Stored>⟧.well self.new → IsFateOfAll (λ i. []) self.old.system self.new.system }
        ensures none_issued { ⟦<Self as Stored>⟧.well self.new → self.new.system.history.issued ≡ self.old.system.history.issued }
        ensures holds { ⟦<Self as Stored>⟧.well self.new → HoldsForAll self.new.system }
        ensures device { TellsDeviceOver C.refuses (⟦<Self as Stored>⟧.is_stopped self.old) (⟦<Self as Stored>⟧.is_stopped self.new) (result ≡ Err (ControlFault.Fault Cause.Device)) }
        ensures not_quiet_above { is_quiet_on self.old.system (link.Above centre) ≡ false → result ≡ Err ControlFault.NotQuiet }
    {
        steady_systems_stay_steady();
        rounds_and_controls_keep_a_system_steady();
        rounds_and_controls_issue_nothing();
        a_clean_control_operates_for_its_centre();
        self.parts.clean_control(alloc, centre, id, carrier)
    }
}
