//! An outstation's side of one link, over connections that come and go.

ghost use Rattle.std.specs.Prelude.{◌≡◌, ◌⊎◌, true, false, length, min, ◌∷◌, [], None, if◌then◌else◌, Err, IfSome};
ghost use Rattle.dnp_streams.specs.links.Deeds.{Opened, Reply, told_of, ways};
ghost use Rattle.dnp_streams.specs.links.Laws.{Fed, Handed, Made};
ghost use Rattle.dnp_streams.specs.links.Links.{HasRoom, new_link};
ghost use Rattle.dnp_nodes.specs.Budgets.{or_last};
ghost use Rattle.dnp_nodes.specs.Callees.{Calls, Changes, IsCut, Rests, changed_in, has_operated, is_up, link_of, made_of, output_of, over_budget, plan_of, port_of, taken_by, want_of, whole_by, with_operated, with_want};
ghost use Rattle.dnp_nodes.specs.declared.callee.ChangeFault.TheVariants.{NoRoom};
ghost use Rattle.dnp_nodes.specs.declared.slot.Closing.TheVariants.{Memory};

mod moves;
mod steps;

use crate::budgets::or_last;
use crate::report::Report;
use crate::shared::Shared;
use crate::slot::{Closing, Ends, Slot, Want};
use dnp_line::Port;
use dnp_streams::{Change, Link, Living, Station, StationFault};
use std::alloc::Global;
use thiserror::Error;

/// What an outstation's side of a link is made for.
#[derive(Clone, Copy, Debug, PartialEq, Eq)]
pub struct CalleePlan {
    /// Its place.
    pub slot: Slot,
    /// The link addresses of its ends.
    pub ends: Ends,
    /// How long no fragment may come whole, in milliseconds.
    pub idle_ms: u64,
    /// How long octets may wait of which none is taken, in milliseconds.
    pub stuck_ms: u64,
}

/// Why a change was not made. It may be made later if there was no room.
#[derive(Clone, Copy, Debug, PartialEq, Eq, Error)]
pub enum ChangeFault {
    /// So many octets wait that there is no room for what it may send.
    #[error("no room for what the change may send")]
    NoRoom,
    /// The station refused it.
    #[error("{0}")]
    Station(StationFault),
}

/// An outstation's side of one link, over connections that come and go. Its station is lent to each call.
///
/// It is told what happens, as a [`crate::Caller`] is, and connects to nobody: it wants at most that its connection be closed. Moments are
/// in milliseconds, and any call may come at any moment.
#[derive(Drop)]
pub struct Callee {
    /// What it is made for.
    plan: CalleePlan,
    /// The link of the connection that it has; without one, of none.
    link: Link,
    /// Whether it has a connection.
    is_up: bool,
    /// What it wants of its place.
    want: Option<Want>,
    /// Since when octets wait of which none was taken.
    waits: Option<u64>,
    /// When a fragment came whole last, or the connection began.
    whole_at: u64,
    /// Since when there is no connection.
    since: u64,
    /// Whether a fragment came that operates an output, since that was asked last.
    operated: bool,
}

impl Callee {
    /// Makes a link without a connection.
    pub fn new(alloc: Global, plan: CalleePlan) -> Callee
        ensures unconnected { is_up result ≡ false }
        ensures want { want_of result ≡ None }
        ensures plan { plan_of result ≡ plan }
        ensures operated { has_operated result ≡ false }
    {
        let ends = plan.ends;
        Callee {
            plan,
            link: Link::new(alloc, Port::new(ends.own, ends.peer, false)),
            is_up: false,
            want: None,
            waits: None,
            whole_at: 0,
            since: 0,
            operated: false,
        }
    }

    /// Says whether it has a connection.
    pub fn is_up(&self) -> bool
        ensures { result ≡ is_up self.now }
    {
        self.is_up
    }

    /// Gives what it wants of its place, once.
    pub fn take_want(&mut self) -> Option<Want>
        ensures want { result ≡ want_of self.old }
        ensures once { self.new ≡ with_want self.old None }
    {
        self.want.take()
    }

    /// Says whether a fragment came that operates an output, since that was asked last.
    pub fn take_operated(&mut self) -> bool
        ensures operated { result ≡ has_operated self.old }
        ensures once { self.new ≡ with_operated self.old false }
    {
        let operated = self.operated;
        self.operated = false;
        operated
    }

    /// Gives the octets that wait to be sent on its connection.
    pub fn output(&self) -> &[u8]
        ensures { result.now ≡ output_of self.now }
    {
        if self.is_up { self.link.output() } else { &[] }
    }

    /// Gives the moment at which it is to be called again, at the latest, if the station's timer ends at this moment, or runs not. Without
    /// a connection that is the last one of all. While so many octets wait that there is no room, the station's timer is of no matter.
    pub fn next_deadline(&self, timer: Option<u64>) -> u64
        ensures unconnected { is_up self.now ≡ false → result ≡ or_last None }
        ensures roomy { is_up self.now ≡ true → HasRoom (link_of self.now)
            → result ≡ min (min (or_last (taken_by self.now)) (whole_by self.now)) (or_last timer) }
        ensures full { is_up self.now ≡ true → (HasRoom (link_of self.now) → ⊥)
            → result ≡ min (or_last (taken_by self.now)) (whole_by self.now) }
    {
        if !self.is_up {
            return or_last(None);
        }
        let budget = or_last(self.taken_by()).min(self.whole_by());
        if self.link.has_room() {
            budget.min(or_last(timer))
        } else {
            budget
        }
    }

    /// A connection was made, in place of any other. The station is opened.
    pub fn connected<S: Living>(&mut self, shared: &mut Shared, station: &mut S, now: u64)
        ensures rests { is_up self.new ≡ true → Rests self.new }
        ensures kept { S.kept station.new ≡ S.kept station.old }
        ensures held { S.honest station.new → S.honest station.old }
        ensures opened { (reply : Reply) × (Calls (ways S.opens S.receives S.asking S.life) S.hung_up_of (S.honest station.new) now
            (Made (Opened now reply) ∷ []) (new_link (port_of self.old)) None self.old (S.state station.old) self.new (S.state station.new)) }
        ensures plan { plan_of self.new ≡ plan_of self.old }
    {
        self.begin(shared, now);
        let over = self.open_on(shared, station, now);
        self.finish(shared, station, now, over);
    }

    /// Octets came on its connection.
    pub fn received<S: Living>(
        &mut self,
        shared: &mut Shared,
        station: &mut S,
        now: u64,
        octets: &[u8],
    )
        ensures rests { is_up self.new ≡ true → Rests self.new }
        ensures kept { S.kept station.new ≡ S.kept station.old }
        ensures held { S.honest station.new → S.honest station.old }
        ensures fed { is_up self.old ≡ true
            → (IsCut S.hung_up_of (S.honest station.new) Memory self.old (S.state station.old) self.new (S.state station.new))
            ⊎ Calls (ways S.opens S.receives S.asking S.life) S.hung_up_of (S.honest station.new) now
            (Fed octets.now ∷ []) (link_of self.old) (want_of self.old) self.old (S.state station.old) self.new (S.state station.new) }
        ensures plan { plan_of self.new ≡ plan_of self.old }
        ensures unconnected { is_up self.old ≡ false → (self.new ≡ self.old) × (S.state station.new ≡ S.state station.old) }
    {
        if !self.is_up {
            return;
        }
        shared.reports.tell_once(Report::Octets(self.plan.slot));
        let over = self.take_octets(shared, station, now, octets);
        self.finish(shared, station, now, over);
    }

    /// The first `count` of the octets that wait were taken, or all if there are fewer.
    pub fn sent<S: Living>(&mut self, shared: &mut Shared, station: &mut S, now: u64, count: usize)
        ensures rests { is_up self.new ≡ true → Rests self.new }
        ensures kept { S.kept station.new ≡ S.kept station.old }
        ensures held { S.honest station.new → S.honest station.old }
        ensures handed { is_up self.old ≡ true → Calls (ways S.opens S.receives S.asking S.life) S.hung_up_of (S.honest station.new) now
            (Handed (min count (length (link_of self.old).pending)) ∷ []) (link_of self.old) (want_of self.old) self.old (S.state station.old) self.new (S.state station.new) }
        ensures plan { plan_of self.new ≡ plan_of self.old }
        ensures unconnected { is_up self.old ≡ false → (self.new ≡ self.old) × (S.state station.new ≡ S.state station.old) }
    {
        if !self.is_up {
            return;
        }
        self.drop_sent(count);
        let over = self.go_on(shared, station, now);
        self.finish(shared, station, now, over);
    }

    /// Its connection ended. Nothing is wanted of the place any more.
    pub fn closed<S: Station>(
        &mut self,
        shared: &mut Shared,
        station: &mut S,
        now: u64,
        cause: Closing,
    )
        ensures unconnected { is_up self.new ≡ false }
        ensures want { want_of self.new ≡ None }
        ensures operated { has_operated self.new ≡ has_operated self.old }
        ensures plan { plan_of self.new ≡ plan_of self.old }
        ensures kept { S.kept station.new ≡ S.kept station.old }
        ensures held { S.honest station.new → S.honest station.old }
        ensures hung_up { S.honest station.new → S.state station.new
            ≡ (if is_up self.old then S.hung_up_of (S.state station.old) else S.state station.old) }
    {
        self.want = None;
        if self.is_up {
            station.hung_up();
            self.lose(shared, now, cause);
        }
    }

    /// Time has passed, or the station has something new.
    pub fn tick<S: Living>(&mut self, shared: &mut Shared, station: &mut S, now: u64)
        ensures rests { is_up self.new ≡ true → Rests self.new }
        ensures kept { S.kept station.new ≡ S.kept station.old }
        ensures held { S.honest station.new → S.honest station.old }
        ensures over { is_up self.old ≡ true → IfSome (over_budget self.old now) (λ cause.
            IsCut S.hung_up_of (S.honest station.new) cause self.old (S.state station.old) self.new (S.state station.new)) }
        ensures in_time { is_up self.old ≡ true → over_budget self.old now ≡ None → Calls (ways S.opens S.receives S.asking S.life) S.hung_up_of (S.honest station.new) now
            [] (link_of self.old) (want_of self.old) self.old (S.state station.old) self.new (S.state station.new) }
        ensures plan { plan_of self.new ≡ plan_of self.old }
        ensures unconnected { is_up self.old ≡ false → (self.new ≡ self.old) × (S.state station.new ≡ S.state station.old) }
    {
        if !self.is_up {
            return;
        }
        let over = self.tick_on(shared, station, now);
        self.finish(shared, station, now, over);
    }

    /// A reading of the station changes, with a connection or without one.
    ///
    /// # Errors
    /// There is no room, or the station refuses the change. Then the station is as it was.
    pub fn change<S: Living>(
        &mut self,
        shared: &mut Shared,
        station: &mut S,
        now: u64,
        change: &Change,
    ) -> Result<(), ChangeFault>
        ensures kept { S.kept station.new ≡ S.kept station.old }
        ensures held { S.honest station.new → S.honest station.old }
        ensures full { (HasRoom (link_of self.old) → ⊥) → (result ≡ Err NoRoom) × (self.new ≡ self.old) × (S.state station.new ≡ S.state station.old) }
        ensures changed { HasRoom (link_of self.old) → (reply : Reply) × (result ≡ changed_in (made_of (told_of reply)))
            × (Changes (ways S.opens S.receives S.asking S.life) S.hung_up_of (S.honest station.new) now change.now reply
            self.old (S.state station.old) self.new (S.state station.new)) }
        ensures plan { plan_of self.new ≡ plan_of self.old }
    {
        if !self.link.has_room() {
            return Err(ChangeFault::NoRoom);
        }
        match self.make(shared, station, now, change) {
            Ok(over) => {
                self.finish_if_up(shared, station, now, over);
                Ok(())
            }
            Err(fault) => Err(ChangeFault::Station(fault)),
        }
    }
}
