//! Steps of a callee's link and its station.

ghost use Rattle.std.specs.Prelude.{◌≡◌, ◌<◌, ◌⊎◌, false, not, length, is_some, if◌then◌else◌, ◌&&◌, ◌||◌, ℕ, List, ◌∷◌, [], None, Some, IfSome, IsTrue};
ghost use Rattle.dnp_line.specs.Ports.{IsShown};
ghost use Rattle.dnp_streams.specs.links.Deeds.{Changed, Opened, Reply, Ticked, told_of, ways};
ghost use Rattle.dnp_streams.specs.links.Laws.{Event, Fed, Made};
ghost use Rattle.dnp_streams.specs.links.Links.{HasRoom};
ghost use Rattle.dnp_nodes.specs.Callees as spec;
ghost use Rattle.dnp_nodes.specs.Callees.{Goes, Hears, Passes};
ghost use Rattle.dnp_nodes.specs.Runs.{Runs, wanted};
ghost use Rattle.dnp_nodes.specs.declared.slot.Closing.TheVariants.{Memory};

use crate::callee::Callee;
use crate::callee::moves::closing_of;
use crate::heads::operates;
use crate::shared::Shared;
use crate::slot::{Closing, Want};
use crate::turn::Turn;
use dnp_streams::laws::a_link_shows_what_it_took;
use dnp_streams::{Change, Heard, Living, Station, StationFault};

/// Whether one of them holds.
fn either(one: bool, other: bool) -> bool
    ensures { result ≡ (one || other) }
{
    one || other
}

impl Callee {
    /// Opens the station.
    fn open<S: Station>(&mut self, shared: &mut Shared, station: &mut S, now: u64) -> Turn
        requires { HasRoom self.old.link }
        ensures kept { S.kept station.new ≡ S.kept station.old }
        ensures held { S.honest station.new → S.honest station.old }
        ensures runs { (reply : Reply) × Runs (ways S.opens S.receives S.asking S.life) (S.honest station.new)
            self.old.link (S.state station.old) (Made (Opened now reply) ∷ []) self.new.link (S.state station.new) }
        ensures same { self.new ≡ record self.old { link = self.new.link } }
    {
        let told = self.link.opened(&mut shared.room, station, now);
        self.take_told(&mut shared.reports, told)
    }

    /// Lets time pass at the station.
    fn pass_time<S: Living>(&mut self, shared: &mut Shared, station: &mut S, now: u64) -> Turn
        requires { HasRoom self.old.link }
        ensures kept { S.kept station.new ≡ S.kept station.old }
        ensures held { S.honest station.new → S.honest station.old }
        ensures runs { (reply : Reply) × Runs (ways S.opens S.receives S.asking S.life) (S.honest station.new)
            self.old.link (S.state station.old) (Made (Ticked now reply) ∷ []) self.new.link (S.state station.new) }
        ensures same { self.new ≡ record self.old { link = self.new.link } }
        ensures waiting { self.new.link.waiting ≡ self.old.link.waiting }
    {
        let told = self.link.tick(&mut shared.room, station, now);
        self.take_told(&mut shared.reports, told)
    }

    /// Notes that a fragment came whole, and whether it operates an output.
    fn note_whole(&mut self, now: u64)
        ensures { (fragment : List ℕ) × IsShown self.old.link.port fragment × (self.new ≡ record self.old {
          whole_at = now;
          operated = spec.operates fragment || self.old.operated;
        }) }
    {
        let operates = operates(self.link.fragment());
        self.whole_at = now;
        self.operated = either(operates, self.operated);
    }

    /// Hears the next frame.
    fn hear<S: Station>(&mut self, shared: &mut Shared, station: &mut S, now: u64) -> Turn
        requires room { HasRoom self.old.link }
        requires frame { 0 < length self.old.link.waiting }
        ensures kept { S.kept station.new ≡ S.kept station.old }
        ensures held { S.honest station.new → S.honest station.old }
        ensures hears { Hears (ways S.opens S.receives S.asking S.life) (S.honest station.new) now
            self.old.link self.old (S.state station.old) self.new.link (S.state station.new) self.new }
        ensures plan { self.new.plan ≡ self.old.plan }
        ensures want { self.new.want ≡ self.old.want }
        ensures up { self.new.is_up ≡ self.old.is_up }
    {
        self.look_at_frame(&mut shared.reports);
        let heard = self.link.hear(&mut shared.room, station, now);
        self.link.port().has_a_history();
        a_link_shows_what_it_took();
        match heard {
            Heard::Part => Turn::Made,
            Heard::Whole(told) => {
                self.tell_whole(&mut shared.reports);
                self.note_whole(now);
                self.take_told(&mut shared.reports, told)
            }
        }
    }

    /// Whether nothing is left to be heard: there is no room for what a step sends, or no frame waits.
    fn rests(&self) -> bool
        ensures rests { IsTrue result → spec.Rests self.now }
        ensures room { result ≡ false → HasRoom self.now.link }
        ensures frame { result ≡ false → 0 < length self.now.link.waiting }
    {
        if self.link.has_room() {
            !self.link.has_frame()
        } else {
            true
        }
    }

    /// Hears the frames that wait, as long as there is room for what that sends. Why the connection has to end, if it has to.
    fn hear_all<S: Station>(
        &mut self,
        shared: &mut Shared,
        station: &mut S,
        now: u64,
    ) -> Option<Closing>
        ensures kept { S.kept station.new ≡ S.kept station.old }
        ensures held { S.honest station.new → S.honest station.old }
        ensures hears { Hears (ways S.opens S.receives S.asking S.life) (S.honest station.new) now
            self.old.link self.old (S.state station.old) self.new.link (S.state station.new) self.new }
        ensures plan { self.new.plan ≡ self.old.plan }
        ensures want { self.new.want ≡ self.old.want }
        ensures rests { result ≡ None → spec.Rests self.new }
        ensures up { self.new.is_up ≡ self.old.is_up }
    {
        for _ in 0..u64::MAX {
            if self.rests() {
                return None;
            }
            match self.hear(shared, station, now) {
                Turn::Made => {}
                Turn::Over(cause) => return Some(cause),
            }
        }
        Some(Closing::Stuck)
    }

    /// Lets time pass at the station, if there is room for what that sends. Why the connection has to end, if it has to.
    fn pass_if_roomy<S: Living>(
        &mut self,
        shared: &mut Shared,
        station: &mut S,
        now: u64,
    ) -> Option<Closing>
        ensures kept { S.kept station.new ≡ S.kept station.old }
        ensures held { S.honest station.new → S.honest station.old }
        ensures passes { (time : List Event) × Passes now result self.new.link time × Runs (ways S.opens S.receives S.asking S.life) (S.honest station.new)
            self.old.link (S.state station.old) time self.new.link (S.state station.new) }
        ensures same { self.new ≡ record self.old { link = self.new.link } }
        ensures rests { result ≡ None → spec.Rests self.old → spec.Rests self.new }
    {
        if !self.link.has_room() {
            return None;
        }
        match self.pass_time(shared, station, now) {
            Turn::Over(cause) => Some(cause),
            Turn::Made => None,
        }
    }

    /// Hears the frames that wait, and lets time pass. Why the connection has to end, if it has to.
    pub(super) fn go_on<S: Living>(
        &mut self,
        shared: &mut Shared,
        station: &mut S,
        now: u64,
    ) -> Option<Closing>
        ensures kept { S.kept station.new ≡ S.kept station.old }
        ensures held { S.honest station.new → S.honest station.old }
        ensures goes { Goes (ways S.opens S.receives S.asking S.life) (S.honest station.new) now result []
            self.old.link self.old (S.state station.old) self.new.link (S.state station.new) self.new }
        ensures plan { self.new.plan ≡ self.old.plan }
        ensures want { self.new.want ≡ self.old.want }
        ensures rests { result ≡ None → spec.Rests self.new }
        ensures up { self.new.is_up ≡ self.old.is_up }
    {
        match self.hear_all(shared, station, now) {
            Some(cause) => Some(cause),
            None => self.pass_if_roomy(shared, station, now),
        }
    }

    /// Opens the station, and goes on. Why the connection has to end, if it has to.
    pub(super) fn open_on<S: Living>(
        &mut self,
        shared: &mut Shared,
        station: &mut S,
        now: u64,
    ) -> Option<Closing>
        requires { HasRoom self.old.link }
        ensures kept { S.kept station.new ≡ S.kept station.old }
        ensures held { S.honest station.new → S.honest station.old }
        ensures goes { (reply : Reply) × (Goes (ways S.opens S.receives S.asking S.life) (S.honest station.new) now result (Made (Opened now reply) ∷ [])
            self.old.link self.old (S.state station.old) self.new.link (S.state station.new) self.new) }
        ensures plan { self.new.plan ≡ self.old.plan }
        ensures want { self.new.want ≡ self.old.want }
        ensures rests { result ≡ None → spec.Rests self.new }
        ensures up { self.new.is_up ≡ self.old.is_up }
    {
        match self.open(shared, station, now) {
            Turn::Over(cause) => Some(cause),
            Turn::Made => self.go_on(shared, station, now),
        }
    }

    /// Takes octets that came, and goes on. Why the connection has to end, if it has to.
    pub(super) fn take_octets<S: Living>(
        &mut self,
        shared: &mut Shared,
        station: &mut S,
        now: u64,
        octets: &[u8],
    ) -> Option<Closing>
        ensures kept { S.kept station.new ≡ S.kept station.old }
        ensures held { S.honest station.new → S.honest station.old }
        ensures fed { ((result ≡ Some Memory) × (self.new ≡ self.old) × (S.state station.new ≡ S.state station.old))
            ⊎ Goes (ways S.opens S.receives S.asking S.life) (S.honest station.new) now result (Fed octets.now ∷ [])
            self.old.link self.old (S.state station.old) self.new.link (S.state station.new) self.new }
        ensures plan { self.new.plan ≡ self.old.plan }
        ensures want { self.new.want ≡ self.old.want }
        ensures rests { result ≡ None → spec.Rests self.new }
        ensures up { self.new.is_up ≡ self.old.is_up }
    {
        match self.link.feed(octets) {
            Ok(()) => self.go_on(shared, station, now),
            Err(_) => Some(Closing::Memory),
        }
    }

    /// Looks whether anything took too long, and goes on. Why the connection has to end, if it has to.
    pub(super) fn tick_on<S: Living>(
        &mut self,
        shared: &mut Shared,
        station: &mut S,
        now: u64,
    ) -> Option<Closing>
        ensures over { IfSome (spec.over_budget self.old now) (λ cause. (result ≡ Some cause) × (self.new ≡ self.old)
            × (S.state station.new ≡ S.state station.old)) }
        ensures kept { S.kept station.new ≡ S.kept station.old }
        ensures held { S.honest station.new → S.honest station.old }
        ensures in_time { spec.over_budget self.old now ≡ None → Goes (ways S.opens S.receives S.asking S.life) (S.honest station.new) now result []
            self.old.link self.old (S.state station.old) self.new.link (S.state station.new) self.new }
        ensures plan { self.new.plan ≡ self.old.plan }
        ensures want { self.new.want ≡ self.old.want }
        ensures rests { result ≡ None → spec.Rests self.new }
        ensures up { self.new.is_up ≡ self.old.is_up }
    {
        match self.over_budget(now) {
            Some(cause) => Some(cause),
            None => self.go_on(shared, station, now),
        }
    }

    /// Makes a change. Why the connection has to end, if it has to.
    pub(super) fn make<S: Living>(
        &mut self,
        shared: &mut Shared,
        station: &mut S,
        now: u64,
        change: &Change,
    ) -> Result<Option<Closing>, StationFault>
        requires { HasRoom self.old.link }
        ensures kept { S.kept station.new ≡ S.kept station.old }
        ensures held { S.honest station.new → S.honest station.old }
        ensures made { (reply : Reply) × (result ≡ spec.made_of (told_of reply)) × Runs (ways S.opens S.receives S.asking S.life) (S.honest station.new)
            self.old.link (S.state station.old) (Made (Changed now change.now reply) ∷ []) self.new.link (S.state station.new) }
        ensures same { self.new ≡ record self.old { link = self.new.link } }
    {
        let told = self.link.change(&mut shared.room, station, now, change);
        match told {
            Ok(told) => Ok(closing_of(&told)),
            Err(fault) => Err(fault),
        }
    }

    /// Ends the connection, if it has to end, and else notes since when octets wait.
    pub(super) fn finish<S: Station>(
        &mut self,
        shared: &mut Shared,
        station: &mut S,
        now: u64,
        over: Option<Closing>,
    )
        ensures want { self.new.want ≡ wanted over self.old.want }
        ensures kept { S.kept station.new ≡ S.kept station.old }
        ensures held { S.honest station.new → S.honest station.old }
        ensures hung_up { S.honest station.new → S.state station.new
            ≡ (if is_some over then S.hung_up_of (S.state station.old) else S.state station.old) }
        ensures link { over ≡ None → self.new.link ≡ self.old.link }
        ensures up { self.new.is_up ≡ (self.old.is_up && not (is_some over)) }
        ensures plan { self.new.plan ≡ self.old.plan }
        ensures operated { self.new.operated ≡ self.old.operated }
    {
        match over {
            Some(cause) => {
                station.hung_up();
                self.lose(shared, now, cause);
                self.want = Some(Want::Close(cause));
            }
            None => self.note_waiting(now),
        }
    }

    /// The same, if there is a connection.
    pub(super) fn finish_if_up<S: Station>(
        &mut self,
        shared: &mut Shared,
        station: &mut S,
        now: u64,
        over: Option<Closing>,
    )
        ensures want { self.new.want ≡ wanted (spec.over_if self.old.is_up over) self.old.want }
        ensures kept { S.kept station.new ≡ S.kept station.old }
        ensures held { S.honest station.new → S.honest station.old }
        ensures hung_up { S.honest station.new → S.state station.new
            ≡ (if is_some (spec.over_if self.old.is_up over) then S.hung_up_of (S.state station.old) else S.state station.old) }
        ensures link { spec.over_if self.old.is_up over ≡ None → self.new.link ≡ self.old.link }
        ensures up { self.new.is_up ≡ (self.old.is_up && not (is_some (spec.over_if self.old.is_up over))) }
        ensures plan { self.new.plan ≡ self.old.plan }
        ensures operated { self.new.operated ≡ self.old.operated }
    {
        if self.is_up {
            self.finish(shared, station, now, over);
        }
    }
}
