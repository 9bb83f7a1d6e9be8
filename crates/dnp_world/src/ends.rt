//! The stations at the ends of a link.

ghost use Rattle.std.specs.Prelude.{◌≡◌, ◌≢◌, ◌<◌, ◌≤◌, ◌||◌, All, Err, List, [], OnOk, OnErr, false, length, refl, ⊤};
ghost use Rattle.dnp_controls.specs.Panel.{Panel};
ghost use Rattle.dnp_eventbuf.specs.declared.pair.TheConstants.{CENTRES};
ghost use Rattle.dnp_outstation.specs.Calls.{opened_of, connection_after, performed_in, tick_of};
ghost use Rattle.dnp_outstation.specs.Parts.{lanes_of, outputs_of, whole_of};
ghost use Rattle.dnp_outstation.specs.State.{State};
ghost use Rattle.dnp_outstation.specs.Station.{actions_of};
ghost use Rattle.dnp_concentrator.specs.BookOutputs.{Performs};
ghost use Rattle.dnp_concentrator.specs.Centre as centre;
ghost use Rattle.dnp_concentrator.specs.Concentrator as concentrator;
ghost use Rattle.dnp_concentrator.specs.Concentrator.{above_of, book_of, indices_of, links_of, panel_above, queue_of, IsBookWell};
ghost use Rattle.dnp_master.specs.Calls.{receive_of};
ghost use Rattle.dnp_world.specs.Causes.{TellsDevice};
ghost use Rattle.dnp_world.specs.Channels.{HavePerformed, TakesStep};
ghost use Rattle.dnp_world.specs.MasterEnds.{TakesIn, none_dropped};
ghost use Rattle.dnp_world.specs.SystemEvents.{centre_taken};
ghost use Rattle.dnp_world.specs.SystemParts.{centre_of, concentrator_of};
ghost use Rattle.dnp_world.specs.steps.WholeSteps.{HaveNumbers, KeepsOtherCentre, concentrator_taken, dropped_for};

use dnp_concentrator::{Cause, Centre, Concentrator};
use dnp_controls::{Book, Outputs};
use dnp_eventbuf::{JournalStore, Lanes, PairLanes, Rows};
use dnp_master::{MasterActions, MasterFault};
use dnp_outstation::{Actions, Outstation};
use std::alloc::Global;

/// What stands at the outstation's end of a link: an outstation, or a station that is one to its master, or one to each of several
/// masters, by their numbers (IEEE Std 1815-2012, application layer).
///
/// What a call promises of the outstation's state holds where the stores under it are honest as the call ends. What it
/// does is put into the actions, in place of what was there.
pub trait OutstationEnd {
    ghost use Rattle.std.specs.Prelude.{Bool, ℕ, List, []};
    ghost use Rattle.dnp_objects.specs.declared.command.Command.{Command};
    ghost use Rattle.dnp_outstation.specs.State.{State};
    ghost use Rattle.dnp_controls.specs.Panel.{Panel};

    /// It has a master of this number.
    ghost has: { ℕ → Type 0 };

    /// The outstation that this master sees.
    ghost state: { Self → ℕ → State };

    /// What its outputs are to this master, at a moment.
    ghost panel: { Self → ℕ → ℕ → Panel };

    /// The stores under it are honest.
    ghost honest: { Self → Type 0 };

    /// One of these has answered Device.
    ghost is_stopped: { Self → Bool };

    /// It comes of another by performing these commands for this master, whatever its state became: what is no part of the state has
    /// not changed otherwise.
    ghost follows: { ℕ → Self → List Command → Self → Type 0 };

    /// What is no part of its state is what it was: of its outputs what they show, and of a book what it holds.
    ghost keeps: { ℕ → Self → Self → Type 0 };

    /// A connection with this master begins, at this moment, in milliseconds.
    fn opened(
        &mut self,
        number: u8,
        actions: &mut Actions,
        alloc: Global,
        now: u64,
    ) -> Result<(), Cause>
        requires { has number }
        ensures beside { follows number self.old [] self.new }
        ensures step { TakesStep honest (λ s. state s number) (follows number) (keeps number) (opened_of (state self.old number) now) [] self.old self.new (actions_of actions.new) result }
        ensures device { TellsDevice (is_stopped self.old) (is_stopped self.new) (result ≡ Err Cause.Device) };

    /// A fragment came from this master.
    fn receive(
        &mut self,
        number: u8,
        actions: &mut Actions,
        alloc: Global,
        now: u64,
        octets: &[u8],
    ) -> Result<(), Cause>
        requires { has number }
        ensures step { TakesStep honest (λ s. state s number) (follows number) (keeps number) (connection_after (state self.old number) (panel self.old number now) now octets.now) (performed_in (state self.old number).core (panel self.old number now) now octets.now) self.old self.new (actions_of actions.new) result }
        ensures device { TellsDevice (is_stopped self.old) (is_stopped self.new) (result ≡ Err Cause.Device) };

    /// Time has passed, on the connection with this master.
    fn tick(
        &mut self,
        number: u8,
        actions: &mut Actions,
        alloc: Global,
        now: u64,
    ) -> Result<(), Cause>
        requires { has number }
        ensures beside { follows number self.old [] self.new }
        ensures step { TakesStep honest (λ s. state s number) (follows number) (keeps number) (tick_of (state self.old number) now) [] self.old self.new (actions_of actions.new) result }
        ensures device { TellsDevice (is_stopped self.old) (is_stopped self.new) (result ≡ Err Cause.Device) };

    /// Where nothing was performed it follows itself.
    ghost follows_itself: { (number : ℕ) (s : Self) → follows number s [] s };

    /// It keeps what it is.
    ghost keeps_itself: { (number : ℕ) (s : Self) → keeps number s s };
}

impl<L: Lanes, O: Outputs> OutstationEnd for Outstation<L, O> {
    ghost has = { λ number. ⊤ };

    ghost state = { λ o number. whole_of L.contents O.panel o };

    ghost panel = { λ o number now. O.panel (outputs_of o) };

    ghost honest = { λ o. L.honest (lanes_of o) × O.honest (outputs_of o) };

    ghost is_stopped = { λ o. L.is_stopped (lanes_of o) || O.is_stopped (outputs_of o) };

    ghost follows = { λ number old commands new. HavePerformed O.performs commands (outputs_of old) (outputs_of new) };

    ghost keeps = { λ number old new. O.panel (outputs_of new) ≡ O.panel (outputs_of old) };

    ghost follows_itself = { λ number o. record { idle = λ _. refl; performed = λ some. absurd (some refl) } };

    ghost keeps_itself = { λ number o. refl };

    fn opened(
        &mut self,
        _number: u8,
        actions: &mut Actions,
        alloc: Global,
        now: u64,
    ) -> Result<(), Cause> {
        match self.opened_into(actions, alloc, now) {
            Ok(()) => Ok(()),
            Err(fault) => Err(Cause::from(fault)),
        }
    }

    fn receive(
        &mut self,
        _number: u8,
        actions: &mut Actions,
        alloc: Global,
        now: u64,
        octets: &[u8],
    ) -> Result<(), Cause> {
        match self.receive_into(actions, alloc, now, octets) {
            Ok(()) => Ok(()),
            Err(fault) => Err(Cause::from(fault)),
        }
    }

    fn tick(
        &mut self,
        _number: u8,
        actions: &mut Actions,
        alloc: Global,
        now: u64,
    ) -> Result<(), Cause> {
        match self.tick_into(actions, alloc, now) {
            Ok(()) => Ok(()),
            Err(fault) => Err(Cause::from(fault)),
        }
    }
}

impl<Q: PairLanes, B: Book> OutstationEnd for Concentrator<Q, B> {
    ghost has = { λ number. number < CENTRES };

    ghost state = { λ c number. above_of Q.contents B.contents number c };

    ghost panel = { λ c number now. panel_above B.contents number now c };

    ghost honest = { λ c. Q.honest (queue_of c) × IsBookWell B.honest B.is_stopped c };

    ghost is_stopped = { λ c. Q.is_stopped (queue_of c) || B.is_stopped (book_of c) };

    ghost follows = { λ number old commands new. HavePerformed (Performs B.contents) commands (concentrator.outputs_of old) (concentrator.outputs_of new) × KeepsOtherCentre Q.honest Q.contents number old new };

    ghost keeps = { λ number old new. (indices_of new ≡ indices_of old) × (B.contents (book_of new) ≡ B.contents (book_of old)) × KeepsOtherCentre Q.honest Q.contents number old new };

    ghost follows_itself = { λ number c. (record { idle = λ _. refl; performed = λ some. absurd (some refl) }, record { core = refl; side = λ _. refl; links = refl; plan = refl }) };

    ghost keeps_itself = { λ number c. (refl, refl, record { core = refl; side = λ _. refl; links = refl; plan = refl }) };

    fn opened(
        &mut self,
        number: u8,
        actions: &mut Actions,
        alloc: Global,
        now: u64,
    ) -> Result<(), Cause> {
        self.opened_above(number, actions, alloc, now)?;
        Ok(())
    }

    fn receive(
        &mut self,
        number: u8,
        actions: &mut Actions,
        alloc: Global,
        now: u64,
        octets: &[u8],
    ) -> Result<(), Cause> {
        match self.receive_above(number, actions, alloc, now, octets) {
            Ok(()) => Ok(()),
            Err(fault) => Err(Cause::from(fault)),
        }
    }

    fn tick(
        &mut self,
        number: u8,
        actions: &mut Actions,
        alloc: Global,
        now: u64,
    ) -> Result<(), Cause> {
        match self.tick_above(number, actions, alloc, now) {
            Ok(()) => Ok(()),
            Err(fault) => Err(Cause::from(fault)),
        }
    }
}

/// What stands at the master's end of a link: a station with a master, or one with several, each of a link of its own
/// (IEEE Std 1815-2012, application layer).
///
/// What a call promises holds where the stores under the station are honest as the call ends.
pub trait MasterEnd {
    ghost use Rattle.std.specs.Prelude.{Bool, ℕ, List};
    ghost use Rattle.dnp_concentrator.specs.declared.per_centre.PerCentre.{PerCentre};
    ghost use Rattle.dnp_objects.specs.declared.row.Row.{Row};
    ghost use Rattle.dnp_master.specs.Calls.{Taking};
    ghost use Rattle.dnp_master.specs.State.{State as MasterState};

    /// It has a link of this number.
    ghost has: { Self → ℕ → Type 0 };

    /// The master of the link.
    ghost master: { Self → ℕ → MasterState };

    /// The stores under it are honest.
    ghost honest: { Self → Type 0 };

    /// One of these has answered Device.
    ghost is_stopped: { Self → Bool };

    /// It comes of another that took this on the link.
    ghost takes: { Self → ℕ → Taking → Self → Type 0 };

    /// The rows that its stores drop for what it takes on the link, to the first centre and to the second.
    ghost drops: { Self → ℕ → Taking → PerCentre (List Row) };

    /// Its stores hold what they did, and else it is what it was.
    ghost keeps: { Self → Self → Type 0 };

    /// It is what it was.
    ghost stays: { Self → Self → Type 0 };

    /// Whether its stores may drop rows for what it takes.
    fn may_drop(&self) -> bool
        ensures { result ≡ false → (link : ℕ) (t : Taking) → drops self.now link t ≡ none_dropped };

    /// A fragment came on the link. What the master refuses for itself is asked of no store. Rows that were dropped to the second centre
    /// stand beside the actions.
    fn take_in(
        &mut self,
        alloc: Global,
        link: u8,
        now: u64,
        octets: &[u8],
    ) -> Result<(MasterActions, Rows), MasterFault>
        requires { has self.old link }
        ensures takes { TakesIn honest (λ t. takes self.old link t self.new) (drops self.old link) (keeps self.old self.new) (stays self.old self.new) (receive_of (master self.old link) now octets.now) self.old self.new result }
        ensures device { TellsDevice (is_stopped self.old) (is_stopped self.new) (result ≡ Err MasterFault.Device) };

    /// It keeps what it is.
    ghost keeps_itself: { (s : Self) → keeps s s };

    /// It stays what it is.
    ghost stays_itself: { (s : Self) → stays s s };
}

impl<Q: PairLanes, B: Book> MasterEnd for Concentrator<Q, B> {
    ghost has = { λ c link. link < length (links_of c) };

    ghost master = { λ c link. (concentrator.link_at c link).master };

    ghost honest = { λ c. Q.honest (queue_of c) × IsBookWell B.honest B.is_stopped c };

    ghost is_stopped = { λ c. Q.is_stopped (queue_of c) || B.is_stopped (book_of c) };

    ghost takes = { λ old link t new. HaveNumbers (concentrator_of Q.contents B.contents old) link t × (concentrator_of Q.contents B.contents new ≡ concentrator_taken (concentrator_of Q.contents B.contents old) link t) };

    ghost drops = { λ c link t. dropped_for (concentrator_of Q.contents B.contents c) link t };

    ghost keeps = { λ old new. concentrator_of Q.contents B.contents new ≡ concentrator_of Q.contents B.contents old };

    ghost stays = { λ old new. concentrator_of Q.contents B.contents new ≡ concentrator_of Q.contents B.contents old };

    ghost keeps_itself = { λ c. refl };

    ghost stays_itself = { λ c. refl };

    fn may_drop(&self) -> bool {
        true
    }

    fn take_in(
        &mut self,
        alloc: Global,
        link: u8,
        now: u64,
        octets: &[u8],
    ) -> Result<(MasterActions, Rows), MasterFault> {
        self.receive_below(alloc, link, now, octets)
    }
}

impl<J: JournalStore, B: Book> MasterEnd for Centre<J, B> {
    ghost has = { λ c link. ⊤ };

    ghost master = { λ c link. (centre.link_of c).master };

    ghost honest = { λ c. J.honest (centre.journal_of c) × B.honest (centre.book_of c) × (B.is_stopped (centre.book_of c) ≡ false) };

    ghost is_stopped = { λ c. J.is_stopped (centre.journal_of c) || B.is_stopped (centre.book_of c) };

    ghost takes = { λ old link t new. centre_of J.archive B.contents new ≡ centre_taken (centre_of J.archive B.contents old) t };

    ghost drops = { λ c link t. none_dropped };

    ghost keeps = { λ old new. centre_of J.archive B.contents new ≡ centre_of J.archive B.contents old };

    ghost stays = { λ old new. centre_of J.archive B.contents new ≡ centre_of J.archive B.contents old };

    ghost keeps_itself = { λ c. refl };

    ghost stays_itself = { λ c. refl };

    fn may_drop(&self) -> bool {
        false
    }

    fn take_in(
        &mut self,
        alloc: Global,
        _link: u8,
        now: u64,
        octets: &[u8],
    ) -> Result<(MasterActions, Rows), MasterFault> {
        let actions = self.receive(alloc, now, octets)?;
        Ok((actions, Rows::new(alloc)))
    }
}
