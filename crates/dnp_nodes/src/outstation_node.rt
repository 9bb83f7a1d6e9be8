//! The node of an outstation.

ghost use Rattle.std.specs.Prelude.{◌≡◌, ◌⊎◌, true, false, length, min, ◌∷◌, [], None, if◌then◌else◌, Err, IfSome};
ghost use Rattle.dnp_eventbuf.specs.EventBuffer.{lane_at};
ghost use Rattle.dnp_objects.specs.Lanes.{lane_number};
ghost use Rattle.dnp_outstation.specs.Parts.{core_of, lanes_of, outputs_of};
ghost use Rattle.dnp_streams.specs.links.Deeds.{Opened, Reply, told_of};
ghost use Rattle.dnp_streams.specs.links.Laws.{Fed, Handed, Made};
ghost use Rattle.dnp_streams.specs.links.Links.{HasRoom, new_link};
ghost use Rattle.dnp_streams.specs.streams.Lives.{outstation_lives};
ghost use Rattle.dnp_streams.specs.streams.Outstations.{hung_up_of, seen_of};
ghost use Rattle.dnp_nodes.specs.Callees.{Calls, Changes, IsDue, Rests, changed_in, is_up, link_of, made_of, output_of, over_budget, plan_of, port_of, want_of, with_want};
ghost use Rattle.dnp_nodes.specs.OutstationNodes.{IsHonest, OutstationCalls, OutstationCuts, link_in, outstation_in, outstation_ways, reports_in, slot_in, wanted_in, with_link};
ghost use Rattle.dnp_nodes.specs.Told.{missed_in, refused_in, told_in};
ghost use Rattle.dnp_nodes.specs.declared.callee.ChangeFault.TheVariants.{NoRoom};
ghost use Rattle.dnp_nodes.specs.declared.slot.Closing.TheVariants.{Memory};

use crate::callee::{Callee, CalleePlan, ChangeFault};
use crate::node::Node;
use crate::report::Report;
use crate::shared::Shared;
use crate::slot::{Closing, Slot, Wanted};
use dnp_controls::Outputs;
use dnp_eventbuf::Lanes;
use dnp_objects::Lane;
use dnp_outstation::Outstation;
use dnp_pointdb::PointDb;
use dnp_streams::Change;
use std::alloc::Global;

/// An outstation, and the connection of one master at a time. It has one place, so that no call looks at the place that it names.
pub struct OutstationNode<L, O> {
    /// The outstation.
    outstation: Outstation<L, O>,
    /// The place.
    slot: Slot,
    /// Its link.
    link: Callee,
    /// What the link uses.
    shared: Shared,
}

impl<L: Drop, O: Drop> Drop for OutstationNode<L, O> {
    /// One call for whoever lets it go: its parts are looked at here alone.
    fn drop(self) {
        let OutstationNode {
            outstation: _,
            slot: _,
            link: _,
            shared: _,
        } = self;
    }
}

impl<L, O> OutstationNode<L, O> {
    /// The node of this outstation, without a connection.
    pub fn new(alloc: Global, outstation: Outstation<L, O>, plan: CalleePlan) -> Self
        ensures outstation { outstation_in result ≡ outstation }
        ensures slot { slot_in result ≡ plan.slot }
        ensures plan { plan_of (link_in result) ≡ plan }
        ensures unconnected { is_up (link_in result) ≡ false }
        ensures want { want_of (link_in result) ≡ None }
        ensures told { told_in (reports_in result) ≡ [] }
    {
        OutstationNode {
            outstation,
            slot: plan.slot,
            link: Callee::new(alloc, plan),
            shared: Shared::new(alloc),
        }
    }

    /// Shows its points.
    pub fn points(&self) -> &PointDb
        ensures { result.now ≡ (core_of (outstation_in self.now)).points }
    {
        self.outstation.seen_points()
    }

    /// Shows its outputs.
    pub fn outputs(&self) -> &O
        ensures { result.now ≡ outputs_of (outstation_in self.now) }
    {
        self.outstation.seen_outputs()
    }

    /// Gives its outstation, as it stands.
    pub fn into_outstation(self) -> Outstation<L, O>
        ensures { result ≡ outstation_in self }
    {
        let OutstationNode {
            outstation,
            slot: _,
            link: _,
            shared: _,
        } = self;
        outstation
    }
}

impl<L: Lanes, O> OutstationNode<L, O> {
    /// Gives how many events wait in a lane.
    pub fn waiting(&mut self, lane: Lane) -> u32
        ensures same { self.new ≡ self.old }
        ensures value { L.honest (lanes_of (outstation_in self.new)) → result ≡ length (lane_at (L.contents (lanes_of (outstation_in self.new))) (lane_number lane)).rows }
    {
        self.outstation.lanes().len(lane)
    }

    /// Gives how many events a lane has dropped.
    pub fn dropped(&mut self, lane: Lane) -> u64
        ensures same { self.new ≡ self.old }
        ensures value { L.honest (lanes_of (outstation_in self.new)) → result ≡ (lane_at (L.contents (lanes_of (outstation_in self.new))) (lane_number lane)).lost }
    {
        self.outstation.lanes().lost(lane)
    }
}

impl<L: Lanes, O: Outputs> OutstationNode<L, O> {
    /// A reading changes.
    ///
    /// # Errors
    /// There is no room for what the change may send, or the outstation refuses it. Then the outstation is as it was.
    pub fn change(&mut self, now: u64, change: &Change) -> Result<(), ChangeFault>
        ensures full { (HasRoom (link_of (link_in self.old)) → ⊥) → (result ≡ Err NoRoom) × (link_in self.new ≡ link_in self.old) × (seen_of L.contents O.panel (outstation_in self.new) ≡ seen_of L.contents O.panel (outstation_in self.old)) }
        ensures changed { HasRoom (link_of (link_in self.old)) → (reply : Reply) × (result ≡ changed_in (made_of (told_of reply)))
            × (Changes (outstation_ways O.panel O.performs) hung_up_of (IsHonest L.honest O.honest self.new) now change.now reply
            (link_in self.old) (seen_of L.contents O.panel (outstation_in self.old)) (link_in self.new) (seen_of L.contents O.panel (outstation_in self.new))) }
        ensures held { IsHonest L.honest O.honest self.new → IsHonest L.honest O.honest self.old }
        ensures slot { slot_in self.new ≡ slot_in self.old }
        ensures plan { plan_of (link_in self.new) ≡ plan_of (link_in self.old) }
    {
        self.link
            .change(&mut self.shared, &mut self.outstation, now, change)
    }
}

impl<L: Lanes, O: Outputs> Node for OutstationNode<L, O> {
    fn connected(&mut self, _slot: Slot, now: u64)
        ensures opened { (reply : Reply) × (Calls (outstation_ways O.panel O.performs) hung_up_of (IsHonest L.honest O.honest self.new) now
            (Made (Opened now reply) ∷ []) (new_link (port_of (link_in self.old))) None (link_in self.old)
            (if is_up (link_in self.old) then hung_up_of (seen_of L.contents O.panel (outstation_in self.old)) else seen_of L.contents O.panel (outstation_in self.old))
            (link_in self.new) (seen_of L.contents O.panel (outstation_in self.new))) }
        ensures rests { is_up (link_in self.new) ≡ true → Rests (link_in self.new) }
        ensures held { IsHonest L.honest O.honest self.new → IsHonest L.honest O.honest self.old }
        ensures slot { slot_in self.new ≡ slot_in self.old }
        ensures plan { plan_of (link_in self.new) ≡ plan_of (link_in self.old) }
    {
        let station = &mut self.outstation;
        self.link
            .closed(&mut self.shared, station, now, Closing::Replaced);
        self.link.connected(&mut self.shared, station, now);
    }

    fn received(&mut self, _slot: Slot, now: u64, octets: &[u8])
        ensures fed { is_up (link_in self.old) ≡ true → (OutstationCuts L.contents O.panel (IsHonest L.honest O.honest self.new) Memory self.old self.new)
            ⊎ OutstationCalls L.contents O.panel (outstation_ways O.panel O.performs) (IsHonest L.honest O.honest self.new) now
            (Fed octets.now ∷ []) (link_of (link_in self.old)) (want_of (link_in self.old)) self.old self.new }
        ensures unconnected { is_up (link_in self.old) ≡ false → (link_in self.new ≡ link_in self.old)
            × ((IsHonest L.honest O.honest self.new) → seen_of L.contents O.panel (outstation_in self.new) ≡ seen_of L.contents O.panel (outstation_in self.old)) }
        ensures rests { is_up (link_in self.new) ≡ true → Rests (link_in self.new) }
        ensures held { IsHonest L.honest O.honest self.new → IsHonest L.honest O.honest self.old }
        ensures slot { slot_in self.new ≡ slot_in self.old }
        ensures plan { plan_of (link_in self.new) ≡ plan_of (link_in self.old) }
    {
        self.link
            .received(&mut self.shared, &mut self.outstation, now, octets);
    }

    fn sent(&mut self, _slot: Slot, now: u64, count: usize)
        ensures handed { is_up (link_in self.old) ≡ true → OutstationCalls L.contents O.panel (outstation_ways O.panel O.performs) (IsHonest L.honest O.honest self.new) now
            (Handed (min count (length (link_of (link_in self.old)).pending)) ∷ []) (link_of (link_in self.old)) (want_of (link_in self.old)) self.old self.new }
        ensures unconnected { is_up (link_in self.old) ≡ false → (link_in self.new ≡ link_in self.old)
            × ((IsHonest L.honest O.honest self.new) → seen_of L.contents O.panel (outstation_in self.new) ≡ seen_of L.contents O.panel (outstation_in self.old)) }
        ensures rests { is_up (link_in self.new) ≡ true → Rests (link_in self.new) }
        ensures held { IsHonest L.honest O.honest self.new → IsHonest L.honest O.honest self.old }
        ensures slot { slot_in self.new ≡ slot_in self.old }
        ensures plan { plan_of (link_in self.new) ≡ plan_of (link_in self.old) }
    {
        self.link
            .sent(&mut self.shared, &mut self.outstation, now, count);
    }

    fn closed(&mut self, _slot: Slot, now: u64, cause: Closing)
        ensures unconnected { is_up (link_in self.new) ≡ false }
        ensures want { want_of (link_in self.new) ≡ None }
        ensures hung_up { (IsHonest L.honest O.honest self.new) → seen_of L.contents O.panel (outstation_in self.new)
            ≡ (if is_up (link_in self.old) then hung_up_of (seen_of L.contents O.panel (outstation_in self.old)) else seen_of L.contents O.panel (outstation_in self.old)) }
        ensures held { IsHonest L.honest O.honest self.new → IsHonest L.honest O.honest self.old }
        ensures slot { slot_in self.new ≡ slot_in self.old }
        ensures plan { plan_of (link_in self.new) ≡ plan_of (link_in self.old) }
    {
        self.link
            .closed(&mut self.shared, &mut self.outstation, now, cause);
    }

    fn tick(&mut self, now: u64)
        ensures over { is_up (link_in self.old) ≡ true → IfSome (over_budget (link_in self.old) now) (λ cause. OutstationCuts L.contents O.panel (IsHonest L.honest O.honest self.new) cause self.old self.new) }
        ensures in_time { is_up (link_in self.old) ≡ true → over_budget (link_in self.old) now ≡ None → OutstationCalls L.contents O.panel (outstation_ways O.panel O.performs) (IsHonest L.honest O.honest self.new) now
            [] (link_of (link_in self.old)) (want_of (link_in self.old)) self.old self.new }
        ensures unconnected { is_up (link_in self.old) ≡ false → (link_in self.new ≡ link_in self.old)
            × ((IsHonest L.honest O.honest self.new) → seen_of L.contents O.panel (outstation_in self.new) ≡ seen_of L.contents O.panel (outstation_in self.old)) }
        ensures rests { is_up (link_in self.new) ≡ true → Rests (link_in self.new) }
        ensures held { IsHonest L.honest O.honest self.new → IsHonest L.honest O.honest self.old }
        ensures slot { slot_in self.new ≡ slot_in self.old }
        ensures plan { plan_of (link_in self.new) ≡ plan_of (link_in self.old) }
    {
        self.link.tick(&mut self.shared, &mut self.outstation, now);
    }

    fn next_deadline(&self) -> u64
        ensures { IsDue (link_in self.now) (outstation_lives.deadline (seen_of L.contents O.panel (outstation_in self.now))) result }
    {
        let timer = self.outstation.next_deadline();
        self.link.next_deadline(timer)
    }

    fn next_want(&mut self) -> Option<Wanted>
        ensures want { result ≡ wanted_in self.old (want_of (link_in self.old)) }
        ensures once { self.new ≡ with_link self.old (with_want (link_in self.old) None) }
    {
        let slot = self.slot;
        match self.link.take_want() {
            Some(want) => Some(Wanted { slot, want }),
            None => None,
        }
    }

    fn output(&self, _slot: Slot) -> &[u8]
        ensures { result.now ≡ output_of (link_in self.now) }
    {
        self.link.output()
    }

    fn reports(&self) -> &[Report]
        ensures { result.now ≡ told_in (reports_in self.now) }
    {
        self.shared.reports.as_slice()
    }

    fn missed(&self) -> u64
        ensures { result ≡ missed_in (reports_in self.now) }
    {
        self.shared.reports.missed()
    }

    fn refused(&self) -> &[u8]
        ensures { result.now ≡ refused_in (reports_in self.now) }
    {
        self.shared.reports.refused()
    }

    fn clear_reports(&mut self)
        ensures told { told_in (reports_in self.new) ≡ [] }
        ensures missed { missed_in (reports_in self.new) ≡ 0 }
        ensures refused { refused_in (reports_in self.new) ≡ [] }
        ensures same { (outstation_in self.new ≡ outstation_in self.old) × (link_in self.new ≡ link_in self.old) × (slot_in self.new ≡ slot_in self.old) }
    {
        self.shared.reports.clear();
    }
}
