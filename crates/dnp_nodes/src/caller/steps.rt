//! Steps of a caller's link and its station.

ghost use Rattle.std.specs.Prelude.{◌≡◌, ◌<◌, ◌⊎◌, false, not, length, is_some, if◌then◌else◌, ◌&&◌, ◌∷◌, [], None, Some, IfSome, IsTrue};
ghost use Rattle.dnp_schedule.specs.Deciding.{is_connected};
ghost use Rattle.dnp_streams.specs.links.Deeds.{Opened, Reply, Ticked, ways};
ghost use Rattle.dnp_streams.specs.links.Laws.{Fed, Made};
ghost use Rattle.dnp_streams.specs.links.Links.{HasRoom};
ghost use Rattle.dnp_nodes.specs.Callers as spec;
ghost use Rattle.dnp_nodes.specs.Callers.{Goes};
ghost use Rattle.dnp_nodes.specs.Runs.{wanted};
ghost use Rattle.dnp_nodes.specs.declared.slot.Closing.TheVariants.{Memory};

use crate::caller::Caller;
use crate::heads::head_of;
use crate::requests::task_of;
use crate::shared::Shared;
use crate::slot::{Closing, Want};
use crate::turn::Turn;
use dnp_schedule::TaskKind;
use dnp_streams::{Asker, Heard, Living, Station};

impl Caller {
    /// Opens the station.
    fn open<S: Station>(&mut self, shared: &mut Shared, station: &mut S, now: u64) -> Turn
        requires { HasRoom self.old.link }
        ensures kept { S.kept station.new ≡ S.kept station.old }
        ensures held { S.honest station.new → S.honest station.old }
        ensures goes { (reply : Reply) × (Goes (ways S.opens S.receives S.asking S.life) (S.honest station.new) now (Made (Opened now reply) ∷ [])
            self.old.link self.old (S.state station.old) self.new.link (S.state station.new) self.new) }
        ensures basis { spec.basis_of self.new ≡ spec.basis_of self.old }
        ensures want { self.new.want ≡ self.old.want }
        ensures phase { is_connected self.new.schedule.phase ≡ is_connected self.old.schedule.phase }
    {
        let told = self.link.opened(&mut shared.room, station, now);
        self.take_told(&mut shared.reports, now, told, None)
    }

    /// Lets time pass at the station.
    fn pass_time<S: Living>(&mut self, shared: &mut Shared, station: &mut S, now: u64) -> Turn
        requires { HasRoom self.old.link }
        ensures kept { S.kept station.new ≡ S.kept station.old }
        ensures held { S.honest station.new → S.honest station.old }
        ensures goes { (reply : Reply) × (Goes (ways S.opens S.receives S.asking S.life) (S.honest station.new) now (Made (Ticked now reply) ∷ [])
            self.old.link self.old (S.state station.old) self.new.link (S.state station.new) self.new) }
        ensures basis { spec.basis_of self.new ≡ spec.basis_of self.old }
        ensures want { self.new.want ≡ self.old.want }
        ensures phase { is_connected self.new.schedule.phase ≡ is_connected self.old.schedule.phase }
    {
        let told = self.link.tick(&mut shared.room, station, now);
        self.take_told(&mut shared.reports, now, told, None)
    }

    /// Hears the next frame. Indications come from the fragment that it completes, if the station takes that.
    fn hear<S: Station>(&mut self, shared: &mut Shared, station: &mut S, now: u64) -> Turn
        requires room { HasRoom self.old.link }
        requires frame { 0 < length self.old.link.waiting }
        ensures kept { S.kept station.new ≡ S.kept station.old }
        ensures held { S.honest station.new → S.honest station.old }
        ensures goes { Goes (ways S.opens S.receives S.asking S.life) (S.honest station.new) now []
            self.old.link self.old (S.state station.old) self.new.link (S.state station.new) self.new }
        ensures basis { spec.basis_of self.new ≡ spec.basis_of self.old }
        ensures want { self.new.want ≡ self.old.want }
        ensures phase { is_connected self.new.schedule.phase ≡ is_connected self.old.schedule.phase }
    {
        self.look_at_frame(&mut shared.reports);
        let heard = self.link.hear(&mut shared.room, station, now);
        match heard {
            Heard::Part => Turn::Made,
            Heard::Whole(told) => {
                let head = head_of(self.link.fragment());
                self.note_unsolicited(&mut shared.reports, head);
                self.take_told(&mut shared.reports, now, told, head)
            }
        }
    }

    /// Asks what is due, or relays a control.
    fn ask<S: Asker>(
        &mut self,
        shared: &mut Shared,
        station: &mut S,
        now: u64,
        kind: TaskKind,
    ) -> Turn
        requires { HasRoom self.old.link }
        ensures kept { S.kept station.new ≡ S.kept station.old }
        ensures held { S.honest station.new → S.honest station.old }
        ensures goes { Goes (ways S.opens S.receives S.asking S.life) (S.honest station.new) now []
            self.old.link self.old (S.state station.old) self.new.link (S.state station.new) self.new }
        ensures basis { spec.basis_of self.new ≡ spec.basis_of self.old }
        ensures want { self.new.want ≡ self.old.want }
        ensures phase { is_connected self.new.schedule.phase ≡ is_connected self.old.schedule.phase }
    {
        let utc = self.clock.saturating_add(now);
        match task_of(kind, &self.plan.classes, utc) {
            Some(task) => {
                let asked = self.link.ask(&mut shared.room, station, now, task);
                self.take_asked(&mut shared.reports, now, kind, asked.is_ok())
            }
            None => {
                let relayed = self.link.relay(&mut shared.room, station, now);
                self.take_relayed(&mut shared.reports, now, relayed)
            }
        }
    }

    /// Whether nothing is left to be done at this moment: there is no room for what a step sends, or no frame waits and nothing is to
    /// be asked.
    fn rests(&self, now: u64) -> bool
        ensures rests { IsTrue result → spec.Rests self.now now }
        ensures room { result ≡ false → HasRoom self.now.link }
    {
        if !self.link.has_room() {
            return true;
        }
        if self.link.has_frame() {
            return false;
        }
        self.schedule.next_task(now).is_none()
    }

    /// Hears the next frame, or, where none waits, asks what is due.
    fn step<S: Asker>(&mut self, shared: &mut Shared, station: &mut S, now: u64) -> Turn
        requires { HasRoom self.old.link }
        ensures kept { S.kept station.new ≡ S.kept station.old }
        ensures held { S.honest station.new → S.honest station.old }
        ensures goes { Goes (ways S.opens S.receives S.asking S.life) (S.honest station.new) now []
            self.old.link self.old (S.state station.old) self.new.link (S.state station.new) self.new }
        ensures basis { spec.basis_of self.new ≡ spec.basis_of self.old }
        ensures want { self.new.want ≡ self.old.want }
        ensures phase { is_connected self.new.schedule.phase ≡ is_connected self.old.schedule.phase }
    {
        if self.link.has_frame() {
            return self.hear(shared, station, now);
        }
        match self.schedule.next_task(now) {
            Some(task) => self.ask(shared, station, now, task),
            None => Turn::Made,
        }
    }

    /// Hears and asks, as long as something is to be done and there is room for what that sends. Why the connection has to end, if it
    /// has to.
    pub(super) fn go_on<S: Asker>(
        &mut self,
        shared: &mut Shared,
        station: &mut S,
        now: u64,
    ) -> Option<Closing>
        ensures kept { S.kept station.new ≡ S.kept station.old }
        ensures held { S.honest station.new → S.honest station.old }
        ensures goes { Goes (ways S.opens S.receives S.asking S.life) (S.honest station.new) now []
            self.old.link self.old (S.state station.old) self.new.link (S.state station.new) self.new }
        ensures basis { spec.basis_of self.new ≡ spec.basis_of self.old }
        ensures want { self.new.want ≡ self.old.want }
        ensures rests { result ≡ None → spec.Rests self.new now }
        ensures phase { is_connected self.new.schedule.phase ≡ is_connected self.old.schedule.phase }
    {
        for _ in 0..u64::MAX {
            if self.rests(now) {
                return None;
            }
            match self.step(shared, station, now) {
                Turn::Made => {}
                Turn::Over(cause) => return Some(cause),
            }
        }
        Some(Closing::Endless)
    }

    /// Opens the station, and goes on. Why the connection has to end, if it has to.
    pub(super) fn open_on<S: Asker>(
        &mut self,
        shared: &mut Shared,
        station: &mut S,
        now: u64,
    ) -> Option<Closing>
        requires { HasRoom self.old.link }
        ensures kept { S.kept station.new ≡ S.kept station.old }
        ensures held { S.honest station.new → S.honest station.old }
        ensures goes { (reply : Reply) × (Goes (ways S.opens S.receives S.asking S.life) (S.honest station.new) now (Made (Opened now reply) ∷ [])
            self.old.link self.old (S.state station.old) self.new.link (S.state station.new) self.new) }
        ensures basis { spec.basis_of self.new ≡ spec.basis_of self.old }
        ensures want { self.new.want ≡ self.old.want }
        ensures rests { result ≡ None → spec.Rests self.new now }
        ensures phase { is_connected self.new.schedule.phase ≡ is_connected self.old.schedule.phase }
    {
        match self.open(shared, station, now) {
            Turn::Over(cause) => Some(cause),
            Turn::Made => self.go_on(shared, station, now),
        }
    }

    /// Takes octets that came, and goes on. Why the connection has to end, if it has to.
    pub(super) fn take_octets<S: Asker>(
        &mut self,
        shared: &mut Shared,
        station: &mut S,
        now: u64,
        octets: &[u8],
    ) -> Option<Closing>
        ensures kept { S.kept station.new ≡ S.kept station.old }
        ensures held { S.honest station.new → S.honest station.old }
        ensures fed { ((result ≡ Some Memory) × (self.new ≡ self.old) × (S.state station.new ≡ S.state station.old))
            ⊎ Goes (ways S.opens S.receives S.asking S.life) (S.honest station.new) now (Fed octets.now ∷ [])
            self.old.link self.old (S.state station.old) self.new.link (S.state station.new) self.new }
        ensures basis { spec.basis_of self.new ≡ spec.basis_of self.old }
        ensures want { self.new.want ≡ self.old.want }
        ensures rests { result ≡ None → spec.Rests self.new now }
        ensures phase { is_connected self.new.schedule.phase ≡ is_connected self.old.schedule.phase }
    {
        match self.link.feed(octets) {
            Ok(()) => self.go_on(shared, station, now),
            Err(_) => Some(Closing::Memory),
        }
    }

    /// Looks whether anything took too long, lets time pass at the station, and goes on. Why the connection has to end, if it has to.
    pub(super) fn tick_on<S: Asker + Living>(
        &mut self,
        shared: &mut Shared,
        station: &mut S,
        now: u64,
    ) -> Option<Closing>
        ensures over { IfSome (spec.over_budget self.old now) (λ cause. (result ≡ Some cause) × (self.new ≡ self.old)
            × (S.state station.new ≡ S.state station.old)) }
        ensures idles { spec.over_budget self.old now ≡ None → (HasRoom self.old.link → ⊥) → (result ≡ None) × (self.new ≡ self.old)
            × (S.state station.new ≡ S.state station.old) }
        ensures kept { S.kept station.new ≡ S.kept station.old }
        ensures held { S.honest station.new → S.honest station.old }
        ensures passes { spec.over_budget self.old now ≡ None → HasRoom self.old.link → (reply : Reply)
            × (Goes (ways S.opens S.receives S.asking S.life) (S.honest station.new) now (Made (Ticked now reply) ∷ [])
            self.old.link self.old (S.state station.old) self.new.link (S.state station.new) self.new) }
        ensures basis { spec.basis_of self.new ≡ spec.basis_of self.old }
        ensures want { self.new.want ≡ self.old.want }
        ensures rests { result ≡ None → spec.Rests self.new now }
        ensures phase { is_connected self.new.schedule.phase ≡ is_connected self.old.schedule.phase }
    {
        if let Some(cause) = self.over_budget(now) {
            return Some(cause);
        }
        if !self.link.has_room() {
            return None;
        }
        match self.pass_time(shared, station, now) {
            Turn::Over(cause) => Some(cause),
            Turn::Made => self.go_on(shared, station, now),
        }
    }

    /// Ends the connection, if it has to end, and else notes since when octets wait.
    pub(super) fn finish<S: Station>(
        &mut self,
        shared: &mut Shared,
        station: &mut S,
        now: u64,
        over: Option<Closing>,
    )
        ensures want { self.new.want ≡ wanted over self.old.want }
        ensures basis { spec.basis_of self.new ≡ spec.basis_of self.old }
        ensures stored { self.new.stored ≡ self.old.stored }
        ensures kept { S.kept station.new ≡ S.kept station.old }
        ensures held { S.honest station.new → S.honest station.old }
        ensures hung_up { S.honest station.new → S.state station.new
            ≡ (if is_some over then S.hung_up_of (S.state station.old) else S.state station.old) }
        ensures same { over ≡ None → (self.new.schedule ≡ self.old.schedule) × (self.new.link ≡ self.old.link) }
        ensures phase { is_connected self.new.schedule.phase ≡ (is_connected self.old.schedule.phase && not (is_some over)) }
    {
        match over {
            Some(cause) => {
                station.hung_up();
                self.lose(shared, now, cause);
                self.want = Some(Want::Close(cause));
            }
            None => self.note_waiting(now),
        }
    }
}
