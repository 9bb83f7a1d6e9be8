//! A master's side of one link, over connections that come and go.

ghost use Rattle.std.specs.Prelude.{◌≡◌, ◌⊎◌, true, false, length, min, ◌∷◌, [], None, if◌then◌else◌, Some, IfSome};
ghost use Rattle.dnp_schedule.specs.Deciding.{next_deadline};
ghost use Rattle.dnp_schedule.specs.Moving.{may_have_control, unconnected};
ghost use Rattle.dnp_streams.specs.links.Deeds.{Opened, Reply, Ticked, ways};
ghost use Rattle.dnp_streams.specs.links.Laws.{Fed, Handed, Made};
ghost use Rattle.dnp_streams.specs.links.Links.{HasRoom, new_link};
ghost use Rattle.dnp_nodes.specs.Budgets.{or_last};
ghost use Rattle.dnp_nodes.specs.Callers.{Calls, IsCut, IsKept, IsWaiting, Rests, basis, basis_of, closed, ends_by, has_stored, is_up, link_of, output_of, over_budget, pace_of, port_of, schedule_of, taken_by, want_of, with_clock, with_schedule, with_stored, with_want};
ghost use Rattle.dnp_nodes.specs.declared.slot.Closing.TheVariants.{Memory};

mod moves;
mod steps;

use crate::budgets::or_last;
use crate::kept::KeptFragment;
use crate::report::Report;
use crate::requests::LinkClasses;
use crate::shared::Shared;
use crate::slot::{Closing, Ends, Slot, Want};
use dnp_line::Port;
use dnp_schedule::{Pace, Phase, Schedule};
use dnp_streams::{Asker, Link, Living, Station};
use std::alloc::Global;

/// What a master's side of a link is made for.
#[derive(Clone, Copy, Debug, PartialEq, Eq)]
pub struct CallerPlan {
    /// Its place.
    pub slot: Slot,
    /// The link addresses of its ends.
    pub ends: Ends,
    /// How often the station at the other end is asked, and how long anything may take.
    pub pace: Pace,
    /// Which classes it is asked.
    pub classes: LinkClasses,
}

/// A master's side of one link, over connections that come and go. Its station, a master with a sink and a book, is lent to each call.
///
/// It is told what happens: a connection was made, octets came, octets were taken, the connection ended, time has passed. It asks what
/// its schedule says, and says what it wants of its place ([`Caller::take_want`]), which octets are to be sent ([`Caller::output`]),
/// and when it is to be called again ([`Caller::next_deadline`]). Moments are in milliseconds, and any call may come at any moment.
#[derive(Drop)]
pub struct Caller {
    /// What it is made for.
    plan: CallerPlan,
    /// The link of the connection that it has, or had last.
    link: Link,
    /// What was asked, and when what is due.
    schedule: Schedule,
    /// What it wants of its place.
    want: Option<Want>,
    /// Since when octets wait of which none was taken.
    waits: Option<u64>,
    /// What the wall clock shows at the moment 0, in milliseconds since 1970 UTC.
    clock: u64,
    /// Since when there is no connection.
    since: u64,
    /// How many were tried since then.
    tries: u32,
    /// Whether event rows were stored since that was asked last.
    stored: bool,
    /// The octets of the last unsolicited response of its connection, if one came and there was memory for them.
    unsolicited: KeptFragment,
}

impl Caller {
    /// Makes a link that wants to be connected at this moment. At the moment 0 the wall clock shows `clock`, in milliseconds since 1970
    /// UTC.
    pub fn new(alloc: Global, plan: CallerPlan, at: u64, clock: u64) -> Caller
        ensures schedule { schedule_of result ≡ unconnected at }
        ensures want { want_of result ≡ None }
        ensures basis { basis_of result ≡ basis plan clock }
        ensures stored { has_stored result ≡ false }
    {
        let ends = plan.ends;
        Caller {
            plan,
            link: Link::new(alloc, Port::new(ends.own, ends.peer, true)),
            schedule: Schedule::new(at),
            want: None,
            waits: None,
            clock,
            since: at,
            tries: 0,
            stored: false,
            unsolicited: KeptFragment::new(alloc),
        }
    }

    /// Gives its schedule.
    pub fn schedule(&self) -> &Schedule
        ensures { result.now ≡ schedule_of self.now }
    {
        &self.schedule
    }

    /// The wall clock was set: at the moment 0 it would have shown this, in milliseconds since 1970 UTC.
    pub fn set_clock(&mut self, clock: u64)
        ensures { self.new ≡ with_clock self.old clock }
    {
        self.clock = clock;
    }

    /// Gives what it wants of its place, once.
    pub fn take_want(&mut self) -> Option<Want>
        ensures want { result ≡ want_of self.old }
        ensures once { self.new ≡ with_want self.old None }
    {
        self.want.take()
    }

    /// Says whether event rows were stored since that was asked last.
    pub fn take_stored(&mut self) -> bool
        ensures stored { result ≡ has_stored self.old }
        ensures once { self.new ≡ with_stored self.old false }
    {
        let stored = self.stored;
        self.stored = false;
        stored
    }

    /// Gives the octets that wait to be sent on its connection.
    pub fn output(&self) -> &[u8]
        ensures { result.now ≡ output_of self.now }
    {
        if self.schedule.is_connected() {
            self.link.output()
        } else {
            &[]
        }
    }

    /// Gives the moment at which it is to be called again, at the latest, if the station's timer ends at this moment, or runs not. While
    /// so many octets wait that there is no room, nothing is asked and heard, so that only what takes too long is of matter.
    pub fn next_deadline(&self, timer: Option<u64>) -> u64
        ensures unconnected { is_up self.now ≡ false → result ≡ next_deadline (schedule_of self.now) }
        ensures roomy { is_up self.now ≡ true → HasRoom (link_of self.now) → result ≡ min (or_last (taken_by self.now))
            (min (next_deadline (schedule_of self.now)) (or_last timer)) }
        ensures full { is_up self.now ≡ true → (HasRoom (link_of self.now) → ⊥)
            → result ≡ min (or_last (taken_by self.now)) (or_last (ends_by (schedule_of self.now))) }
    {
        if !self.schedule.is_connected() {
            return self.schedule.next_deadline();
        }
        let taken_by = or_last(self.taken_by());
        if self.link.has_room() {
            taken_by.min(self.schedule.next_deadline().min(or_last(timer)))
        } else {
            taken_by.min(or_last(self.ends_by()))
        }
    }

    /// A control may wait in the station's book. It is asked for by the next call that finds the link free.
    pub fn look_for_control(&mut self)
        ensures { self.new ≡ with_schedule self.old (may_have_control (schedule_of self.old)) }
    {
        self.schedule = self.schedule.may_have_control();
    }

    /// A connection was made, in place of any other. The station is opened, and the start begins.
    pub fn connected<S: Asker + Living>(&mut self, shared: &mut Shared, station: &mut S, now: u64)
        ensures rests { is_up self.new ≡ true → Rests self.new now }
        ensures kept { S.kept station.new ≡ S.kept station.old }
        ensures held { S.honest station.new → S.honest station.old }
        ensures opened { (reply : Reply) × (Calls (ways S.opens S.receives S.asking S.life) S.hung_up_of (S.honest station.new) now
            (Made (Opened now reply) ∷ []) (new_link (port_of self.old)) None self.old (S.state station.old) self.new (S.state station.new)) }
        ensures basis { basis_of self.new ≡ basis_of self.old }
    {
        self.begin(shared, now);
        let over = self.open_on(shared, station, now);
        self.finish(shared, station, now, over);
    }

    /// Octets came on its connection.
    pub fn received<S: Asker + Living>(
        &mut self,
        shared: &mut Shared,
        station: &mut S,
        now: u64,
        octets: &[u8],
    )
        ensures rests { is_up self.new ≡ true → Rests self.new now }
        ensures kept { S.kept station.new ≡ S.kept station.old }
        ensures held { S.honest station.new → S.honest station.old }
        ensures fed { is_up self.old ≡ true
            → (IsCut S.hung_up_of (S.honest station.new) Memory self.old (S.state station.old) self.new (S.state station.new))
            ⊎ Calls (ways S.opens S.receives S.asking S.life) S.hung_up_of (S.honest station.new) now
            (Fed octets.now ∷ []) (link_of self.old) (want_of self.old) self.old (S.state station.old) self.new (S.state station.new) }
        ensures basis { basis_of self.new ≡ basis_of self.old }
        ensures unconnected { is_up self.old ≡ false → (self.new ≡ self.old) × (S.state station.new ≡ S.state station.old) }
    {
        if !self.schedule.is_connected() {
            return;
        }
        shared.reports.tell_once(Report::Octets(self.plan.slot));
        let over = self.take_octets(shared, station, now, octets);
        self.finish(shared, station, now, over);
    }

    /// The first `count` of the octets that wait were taken, or all if there are fewer.
    pub fn sent<S: Asker + Living>(
        &mut self,
        shared: &mut Shared,
        station: &mut S,
        now: u64,
        count: usize,
    )
        ensures rests { is_up self.new ≡ true → Rests self.new now }
        ensures kept { S.kept station.new ≡ S.kept station.old }
        ensures held { S.honest station.new → S.honest station.old }
        ensures handed { is_up self.old ≡ true → Calls (ways S.opens S.receives S.asking S.life) S.hung_up_of (S.honest station.new) now
            (Handed (min count (length (link_of self.old).pending)) ∷ []) (link_of self.old) (want_of self.old) self.old (S.state station.old) self.new (S.state station.new) }
        ensures basis { basis_of self.new ≡ basis_of self.old }
        ensures unconnected { is_up self.old ≡ false → (self.new ≡ self.old) × (S.state station.new ≡ S.state station.old) }
    {
        if !self.schedule.is_connected() {
            return;
        }
        self.drop_sent(count);
        let over = self.go_on(shared, station, now);
        self.finish(shared, station, now, over);
    }

    /// Its connection ended, or did not come about. Nothing is wanted of the place any more.
    pub fn closed<S: Station>(
        &mut self,
        shared: &mut Shared,
        station: &mut S,
        now: u64,
        cause: Closing,
    )
        ensures schedule { schedule_of self.new ≡ closed (schedule_of self.old) now (pace_of self.old) }
        ensures want { want_of self.new ≡ None }
        ensures stored { has_stored self.new ≡ has_stored self.old }
        ensures basis { basis_of self.new ≡ basis_of self.old }
        ensures kept { S.kept station.new ≡ S.kept station.old }
        ensures held { S.honest station.new → S.honest station.old }
        ensures hung_up { S.honest station.new → S.state station.new
            ≡ (if is_up self.old then S.hung_up_of (S.state station.old) else S.state station.old) }
    {
        self.want = None;
        match self.schedule.phase {
            Phase::Resting(_) => {}
            Phase::Connecting(_) => self.give_up(shared, now, cause),
            Phase::Starting | Phase::Running => {
                station.hung_up();
                self.lose(shared, now, cause);
            }
        }
    }

    /// Time has passed, or a control may wait.
    pub fn tick<S: Asker + Living>(&mut self, shared: &mut Shared, station: &mut S, now: u64)
        ensures waited { is_up self.old ≡ false → IsWaiting self.old now self.new × (S.state station.new ≡ S.state station.old) }
        ensures rests { is_up self.new ≡ true → Rests self.new now }
        ensures kept { S.kept station.new ≡ S.kept station.old }
        ensures held { S.honest station.new → S.honest station.old }
        ensures over { is_up self.old ≡ true → IfSome (over_budget self.old now) (λ cause.
            IsCut S.hung_up_of (S.honest station.new) cause self.old (S.state station.old) self.new (S.state station.new)) }
        ensures passes { is_up self.old ≡ true → over_budget self.old now ≡ None → HasRoom (link_of self.old) → (reply : Reply)
            × (Calls (ways S.opens S.receives S.asking S.life) S.hung_up_of (S.honest station.new) now
            (Made (Ticked now reply) ∷ []) (link_of self.old) (want_of self.old) self.old (S.state station.old) self.new (S.state station.new)) }
        ensures full { is_up self.old ≡ true → over_budget self.old now ≡ None → (HasRoom (link_of self.old) → ⊥)
            → IsKept self.old self.new × (S.honest station.new → S.state station.new ≡ S.state station.old) }
        ensures basis { basis_of self.new ≡ basis_of self.old }
    {
        if !self.schedule.is_connected() {
            self.wait(shared, now);
            return;
        }
        let over = self.tick_on(shared, station, now);
        self.finish(shared, station, now, over);
    }
}
