//! One link by itself.

ghost use Rattle.std.specs.Prelude.{◌≡◌, true, All, Contains, IfErr, IfOk, List, [], OnErr, OnOk, take};
ghost use Rattle.std.specs.Borrow.{Lends, sem};
ghost use Rattle.dnp_objects.specs.Counts.{IsCoveredBy};
ghost use Rattle.dnp_objects.specs.declared.row.Row.{Row as RowValue};
ghost use Rattle.dnp_controls.specs.Latches.{no_panel};
ghost use Rattle.dnp_eventbuf.specs.Sound.{IsSoundBuffer};
ghost use Rattle.dnp_world.specs.Joined.{IsJoined, StoodGrows, rows_made_by, stood_in};
ghost use Rattle.dnp_world.specs.contracts.one_link.OneLink.{the_row};
ghost use Rattle.dnp_world.specs.OneLinkEvents.{HappensOn, RunsTo, StopsAt, StopsAfter, may_stop};
ghost use Rattle.dnp_world.specs.OneLinkParts.{link_of, lanes_of, sink_of, with_lanes, with_sink, new_link};

use crate::channel::Channel;
use crate::joined_laws::{a_new_link_is_joined, the_law_of_one_link};
use crate::link_event::{End, LinkEvent, Way};
use crate::stopped::Stopped;
use dnp_concentrator::Cause;
use dnp_concentrator::addresses::{CENTRE, FIRST_OUTSTATION};
use dnp_controls::NoOutputs;
use dnp_eventbuf::{Lanes, Sink};
use dnp_master::Master;
use dnp_objects::Row;
use dnp_outstation::{Actions, Outstation};
use dnp_pointdb::{PointDb, PointPlan, Times};
use receiver::Receiver;
use std::alloc::{AllocError, Global};

mod calls;
mod receiver;

/// An outstation without outputs and its master, with a line each way between their ports: at the link addresses that a
/// system's first outstation and its centre have.
///
/// What its events do holds where lanes and sink are honest as a call ends.
pub struct OneLink<L, S> {
    outstation: Outstation<L, NoOutputs>,
    receiver: Receiver<S>,
    channel: Channel,
    /// What the outstation did last.
    actions: Actions,
    /// The moment, in milliseconds.
    moment: u64,
    /// The events that confirms released.
    released: Vec<Row>,
    /// The events that left the lanes unconfirmed: a full lane dropped them, or a restart emptied it.
    left: Vec<Row>,
}

impl<L: Drop, S: Drop> Drop for OneLink<L, S> {
    /// One call for whoever lets it go: its parts are looked at here alone.
    fn drop(self) {
        let OneLink {
            outstation: _,
            receiver: _,
            channel: _,
            actions: _,
            moment: _,
            released: _,
            left: _,
        } = self;
    }
}

impl<L: Lanes + Drop, S: Sink + Drop> OneLink<L, S> {
    /// A link whose ends are both closed, at the moment 0, over these points, lanes and sink. An error says that it ran
    /// out of memory.
    pub fn new(
        alloc: Global,
        plan: PointPlan,
        lanes: L,
        sink: S,
        times: Times,
    ) -> Result<Self, AllocError>
        ensures link { IfOk result (λ link. link_of L.contents link ≡ new_link plan times (L.contents lanes) sink) }
        ensures lanes { IfOk result (λ link. lanes_of link ≡ lanes) }
        ensures joined { IsSoundBuffer (L.contents lanes) → IfOk result (λ link. IsJoined [] (link_of L.contents link)) }
    {
        a_new_link_is_joined::<S>();
        let points = PointDb::new(alloc, plan.try_clone(alloc)?)?;
        Ok(OneLink {
            outstation: Outstation::new(points, lanes, NoOutputs, times),
            receiver: Receiver {
                master: Master::new(plan, times),
                sink,
                taken: Vec::new(alloc),
            },
            channel: Channel::new(alloc, FIRST_OUTSTATION, CENTRE),
            actions: Actions::none(alloc),
            moment: 0,
            released: Vec::new(alloc),
            left: Vec::new(alloc),
        })
    }
}

impl<L: Lanes, S: Sink> OneLink<L, S> {
    /// The events that the sink took, in order.
    pub fn taken(&self) -> &[Row]
        ensures { result.now ≡ (link_of L.contents self.now).taken }
    {
        self.receiver.taken.as_slice()
    }

    /// The events that confirms released, in order.
    pub fn released(&self) -> &[Row]
        ensures { result.now ≡ (link_of L.contents self.now).released }
    {
        self.released.as_slice()
    }

    /// The events that left the lanes unconfirmed, in order.
    pub fn left(&self) -> &[Row]
        ensures { result.now ≡ (link_of L.contents self.now).left }
    {
        self.left.as_slice()
    }

    /// The outstation's lanes, for writing.
    pub fn lanes(&mut self) -> &mut L
        ensures* writes_back { sem 𝓛 (Lends (the_row L.row S.row) L.row self.entry result (with_lanes self.old)) }
        ensures value { result.now ≡ lanes_of self.old }
    {
        self.outstation.lanes()
    }

    /// The master's sink, for writing.
    pub fn sink(&mut self) -> &mut S
        ensures* writes_back { sem 𝓛 (Lends (the_row L.row S.row) S.row self.entry result (with_sink self.old)) }
        ensures value { result.now ≡ sink_of self.old }
    {
        self.receiver.sink()
    }

    /// One event happens.
    fn happen(&mut self, alloc: Global, event: &LinkEvent) -> Result<(), Cause>
        ensures held { L.honest (lanes_of self.new) → L.honest (lanes_of self.old) }
        ensures sink_held { S.honest (sink_of self.new) → S.honest (sink_of self.old) }
        ensures done { L.honest (lanes_of self.new) → S.honest (sink_of self.new)
            → OnOk result (HappensOn S.takes no_panel (link_of L.contents self.old) event.now (link_of L.contents self.new)) }
        ensures stopped { L.honest (lanes_of self.new) → S.honest (sink_of self.new)
            → OnErr result (StopsAt S.takes S.keeps (link_of L.contents self.old) event.now (link_of L.contents self.new)) }
        ensures named { OnErr result (may_stop (link_of L.contents self.old) event.now ≡ true) }
    {
        match event {
            LinkEvent::Open => self.open(alloc),
            LinkEvent::HangUp(end) => Ok(self.hang_up(*end)),
            LinkEvent::Deliver(Way::Down) => self.deliver_down(alloc),
            LinkEvent::Deliver(Way::Up) => self.deliver_up(alloc),
            LinkEvent::Repeat(Way::Down) => self.repeat_down(alloc),
            LinkEvent::Repeat(Way::Up) => self.repeat_up(alloc),
            LinkEvent::Lose(way) => Ok(self.channel.lose(*way)),
            LinkEvent::Damage(way, octets) => Ok(self.channel.damage_to(*way, octets.as_slice())),
            LinkEvent::Change {
                kind,
                index,
                reading,
            } => self.change(alloc, *kind, *index, *reading),
            LinkEvent::Ask(task) => self.ask(*task),
            LinkEvent::Pass(ms) => Ok(self.pass(*ms)),
            LinkEvent::Tick(End::Master) => Ok(self.tick_master()),
            LinkEvent::Tick(End::Outstation) => self.tick_outstation(alloc),
            LinkEvent::Restart(End::Master) => Ok(self.hang_up(End::Master)),
            LinkEvent::Restart(End::Outstation) => self.restart_outstation(alloc),
        }
    }

    /// The events happen, one after the other, up to the first at which the lanes, the sink or a request for memory
    /// refuses. That one counts as `Lose` if it is `Deliver`, and else it is left out. None of them is asked for an event that
    /// finds an empty line, or brings a reading or a task that its station refuses.
    pub fn run(&mut self, alloc: Global, events: &[LinkEvent]) -> Result<(), Stopped>
        ensures held { L.honest (lanes_of self.new) → L.honest (lanes_of self.old) }
        ensures sink_held { S.honest (sink_of self.new) → S.honest (sink_of self.old) }
        ensures done { L.honest (lanes_of self.new) → S.honest (sink_of self.new)
            → OnOk result (RunsTo S.takes (link_of L.contents self.old) events.now (link_of L.contents self.new)) }
        ensures stopped { L.honest (lanes_of self.new) → S.honest (sink_of self.new)
            → IfErr result (λ stopped. StopsAfter S.takes S.keeps (link_of L.contents self.old) events.now stopped.done (link_of L.contents self.new)) }
        ensures joined { L.honest (lanes_of self.new) → S.honest (sink_of self.new)
            → (others : List RowValue) → IsJoined others (link_of L.contents self.old)
            → IsJoined others (link_of L.contents self.new) }
        ensures covered { L.honest (lanes_of self.new) → S.honest (sink_of self.new)
            → (others : List RowValue) → IsJoined others (link_of L.contents self.old)
            → IsCoveredBy (link_of L.contents self.new).released (link_of L.contents self.new).taken }
        ensures stood { L.honest (lanes_of self.new) → S.honest (sink_of self.new)
            → (others : List RowValue) → IsJoined others (link_of L.contents self.old)
            → All (Contains (stood_in others (link_of L.contents self.new))) (link_of L.contents self.new).taken }
        ensures grown { L.honest (lanes_of self.new) → S.honest (sink_of self.new)
            → (others : List RowValue) → IsJoined others (link_of L.contents self.old)
            → OnOk result (let old = link_of L.contents self.old in
            StoodGrows others (rows_made_by old.outstation.core.points events.now) old (link_of L.contents self.new)) }
        ensures grown_so_far { L.honest (lanes_of self.new) → S.honest (sink_of self.new)
            → (others : List RowValue) → IsJoined others (link_of L.contents self.old)
            → IfErr result (λ stopped. let old = link_of L.contents self.old in
            StoodGrows others (rows_made_by old.outstation.core.points (take stopped.done events.now)) old (link_of L.contents self.new)) }
    {
        the_law_of_one_link::<S>();
        for (done, event) in events.iter().enumerate() {
            if let Err(cause) = self.happen(alloc, event) {
                return Err(Stopped { done, cause });
            }
        }
        Ok(())
    }
}
