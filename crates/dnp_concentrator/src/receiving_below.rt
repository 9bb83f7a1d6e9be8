//! What a concentrator does with what comes from its substations.

ghost use Rattle.std.specs.Prelude.{◌≡◌, ◌≢◌, ◌<◌, ◌⊎◌, true, false, [], All, Ok, Err, IsTrue, IfOk, IfErr, OnOk, OnErr, length};
ghost use Rattle.std.specs.Result.{IsOkAnd};
ghost use Rattle.dnp_eventbuf.specs.FitsLane.{FitsLane};
ghost use Rattle.dnp_eventbuf.specs.Sides.{BothHave, EitherDrops, ForEach, either_exhausts};
ghost use Rattle.dnp_eventbuf.specs.EventBuffer.{dropped_by};
ghost use Rattle.dnp_master.specs.Calls.{actions_of, has_rows};
ghost use Rattle.dnp_master.specs.Sinks.{IsSinkFault};
ghost use Rattle.dnp_objects.specs.Events.{IsEvent};
ghost use Rattle.dnp_objects.specs.declared.store.StoreFault.TheVariants as store;
ghost use Rattle.dnp_concentrator.specs.Concentrator.{core_of, link_at, links_of, outputs_of, plan_above, queued_at, queue_of, taking_at, with_readings, LeavesQueue, SetsLink};
ghost use Rattle.dnp_concentrator.specs.Relaying as spec;

use crate::concentrator::Concentrator;
use crate::mapped::queued_rows;
use crate::readings::set_taken;
use dnp_controls::Book;
use dnp_eventbuf::PairLanes;
use dnp_master::{MasterActions, MasterFault, Rows};
use dnp_objects::{LaneRow, Row};
use std::alloc::Global;

/// Queues rows on both sides by one append: those that each side dropped for them. What the queue refuses is told by its name.
fn append_both<Q: PairLanes>(
    queue: &mut Q,
    alloc: Global,
    rows: &[LaneRow],
) -> Result<(Rows, Rows), MasterFault>
    requires { All FitsLane rows.now }
    ensures queue { LeavesQueue Q.honest Q.is_stopped Q.contents queue.old queue.new result }
    ensures queued { Q.honest queue.new → OnOk result (BothHave (Q.contents queue.old) rows.now (Q.contents queue.new)) }
    ensures dropped { Q.honest queue.new → IfOk result (λ dropped. dropped.0 ≡ dropped_by (Q.contents queue.old 0) rows.now) }
    ensures dropped_too { Q.honest queue.new → IfOk result (λ dropped. dropped.1 ≡ dropped_by (Q.contents queue.old 1) rows.now) }
    ensures stopped { IsTrue (Q.is_stopped queue.old) → result ≡ Err MasterFault.Device }
    ensures not_exhausted { Q.honest queue.new → OnOk result (either_exhausts (Q.contents queue.old) rows.now ≡ false) }
    ensures exhausted { Q.honest queue.new → IfErr result (λ fault. fault ≡ MasterFault.Exhausted → IsTrue (either_exhausts (Q.contents queue.old) rows.now)) }
    ensures exhausted_first { Q.honest queue.new → IfErr result (λ fault. fault ≡ MasterFault.Memory → either_exhausts (Q.contents queue.old) rows.now ≡ false) }
    ensures memory { result ≡ Err MasterFault.Memory → Q.asks_memory ≡ false → EitherDrops (Q.contents queue.old) rows.now }
    ensures named { IfErr result IsSinkFault }
    ensures device { result ≡ Err MasterFault.Device → IsTrue (Q.may_fault store.Device) }
{
    let (first, second) = queue.append_both(alloc, rows)?;
    Ok((Rows::of(first), Rows::of(second)))
}

impl<Q: PairLanes, B: Book> Concentrator<Q, B> {
    /// Queues a substation's events by one append to both sides, if there are any: the rows that each side dropped for them.
    fn queue_events(
        &mut self,
        alloc: Global,
        substation: u8,
        events: &[Row],
    ) -> Result<(Rows, Rows), MasterFault>
        requires { All IsEvent events.now }
        ensures links { links_of self.new ≡ links_of self.old }
        ensures cores { ForEach (λ centre. core_of centre self.new ≡ core_of centre self.old) }
        ensures plan { plan_above self.new ≡ plan_above self.old }
        ensures outputs { outputs_of self.new ≡ outputs_of self.old }
        ensures queue { LeavesQueue Q.honest Q.is_stopped Q.contents (queue_of self.old) (queue_of self.new) result }
        ensures spared { events.now ≡ [] → (queue_of self.new ≡ queue_of self.old) × IsOkAnd result (λ dropped. (dropped.0 ≡ []) × (dropped.1 ≡ [])) }
        ensures queued { Q.honest (queue_of self.new) → OnOk result (
            BothHave (Q.contents (queue_of self.old)) (queued_at self.old substation events.now) (Q.contents (queue_of self.new))) }
        ensures dropped { Q.honest (queue_of self.new) → IfOk result (λ dropped. dropped.0
            ≡ dropped_by (Q.contents (queue_of self.old) 0) (queued_at self.old substation events.now)) }
        ensures dropped_too { Q.honest (queue_of self.new) → IfOk result (λ dropped. dropped.1
            ≡ dropped_by (Q.contents (queue_of self.old) 1) (queued_at self.old substation events.now)) }
        ensures stopped { IsTrue (Q.is_stopped (queue_of self.old)) → OnOk result (events.now ≡ []) }
        ensures not_exhausted { Q.honest (queue_of self.new) → OnOk result (events.now ≢ []
            → either_exhausts (Q.contents (queue_of self.old)) (queued_at self.old substation events.now) ≡ false) }
        ensures exhausted { Q.honest (queue_of self.new) → IfErr result (λ fault. fault ≡ MasterFault.Exhausted → IsTrue (
            either_exhausts (Q.contents (queue_of self.old)) (queued_at self.old substation events.now))) }
        // Out of memory it is before the queue is asked, or where the numbers are there.
        ensures exhausted_first { Q.honest (queue_of self.new) → IfErr result (λ fault. fault ≡ MasterFault.Memory → (queue_of self.new ≡ queue_of self.old)
            ⊎ (either_exhausts (Q.contents (queue_of self.old)) (queued_at self.old substation events.now) ≡ false)) }
        ensures named { IfErr result IsSinkFault }
        ensures device { result ≡ Err MasterFault.Device → IsTrue (Q.may_fault store.Device) }
    {
        if events.is_empty() {
            return Ok((Rows::new(alloc), Rows::new(alloc)));
        }
        let map = self.outputs.map();
        let Ok(rows) = queued_rows(alloc, map, &self.points, substation, events) else {
            return Err(MasterFault::Memory);
        };
        append_both(&mut self.queue, alloc, rows.as_slice())
    }

    /// Sets the readings above by a substation's events, and then by its present values: those that either centre is given.
    fn set_above(&mut self, substation: u8, events: &[Row], statics: &[Row])
        ensures links { links_of self.new ≡ links_of self.old }
        ensures cores { ForEach (λ centre. core_of centre self.new ≡ with_readings centre self.old substation events.now statics.now) }
        ensures plan { plan_above self.new ≡ plan_above self.old }
        ensures queue { queue_of self.new ≡ queue_of self.old }
        ensures outputs { outputs_of self.new ≡ outputs_of self.old }
    {
        let map = self.outputs.map();
        set_taken(map, self.cores.first.points(), substation, events, statics);
        set_taken(map, self.cores.second.points(), substation, events, statics);
    }

    /// Takes in octets that came from the substation at this moment, as its master does.
    ///
    /// The events of a fragment that is taken are queued for both centres by one append, if there are any: each under its
    /// index above, in the lane of the class that the plan gives its point and of its kind, and else unchanged. Only then
    /// are the readings above set, by the events and then by the present values, which are not queued; and only then the
    /// fragment is confirmed, and the master goes on.
    ///
    /// The rows that the first centre's side dropped for them are those of the actions, and beside the actions stand those
    /// that the second centre's side dropped.
    ///
    /// Refused is, first of all, what is no response (`Malformed`), then an event of a point that the substation's plan
    /// lacks, or that has no class (`Stranger`): nothing was asked of the queue. Then comes being out of memory for the
    /// rows (`Memory`), and last what the queue refuses (`Exhausted`, `Memory`, `Device`).
    pub fn receive_below(
        &mut self,
        alloc: Global,
        substation: u8,
        now: u64,
        octets: &[u8],
    ) -> Result<(MasterActions, Rows), MasterFault>
        requires { substation < length (links_of self.old) }
        // What is refused for itself, whatever the queue.
        ensures refused { IfErr (taking_at self.old substation now octets.now) (λ fault. result ≡ Err fault) }
        // All else is refused out of memory or by the queue, and only where there are rows.
        ensures named { IfErr result (λ fault. (taking_at self.old substation now octets.now ≡ Err fault)
            ⊎ (IsSinkFault fault × IsOkAnd (taking_at self.old substation now octets.now) (λ t. IsTrue (has_rows t)))) }
        ensures links_unchanged { OnErr result (links_of self.new ≡ links_of self.old) }
        ensures unchanged { OnErr result (ForEach (λ centre. core_of centre self.new ≡ core_of centre self.old)) }
        ensures link { OnOk result (IfOk (taking_at self.old substation now octets.now) (λ t.
            SetsLink self.old substation (spec.received (link_at self.old substation) t) self.new)) }
        ensures actions { IfOk result (λ a. IfOk (taking_at self.old substation now octets.now) (λ t. a.0 ≡ actions_of t a.0.dropped)) }
        // The events are queued by one append, for both centres.
        ensures queued { Q.honest (queue_of self.new) → OnOk result (IfOk (taking_at self.old substation now octets.now) (λ t.
            BothHave (Q.contents (queue_of self.old)) (queued_at self.old substation t.events) (Q.contents (queue_of self.new)))) }
        ensures dropped { Q.honest (queue_of self.new) → IfOk result (λ a. IfOk (taking_at self.old substation now octets.now) (λ t.
            a.0.dropped ≡ dropped_by (Q.contents (queue_of self.old) 0) (queued_at self.old substation t.events))) }
        ensures dropped_too { Q.honest (queue_of self.new) → IfOk result (λ a. IfOk (taking_at self.old substation now octets.now) (λ t.
            a.1 ≡ dropped_by (Q.contents (queue_of self.old) 1) (queued_at self.old substation t.events))) }
        // Readings above are set by events and present values, for each centre.
        ensures readings { OnOk result (IfOk (taking_at self.old substation now octets.now) (λ t.
            ForEach (λ centre. core_of centre self.new ≡ with_readings centre self.old substation t.events t.statics))) }
        ensures plan { plan_above self.new ≡ plan_above self.old }
        ensures outputs { outputs_of self.new ≡ outputs_of self.old }
        ensures queue { LeavesQueue Q.honest Q.is_stopped Q.contents (queue_of self.old) (queue_of self.new) result }
        // Where there are no events, nothing is asked of the queue, and nothing refused but out of memory for present values.
        ensures spared { IfOk (taking_at self.old substation now octets.now) (λ t. t.events ≡ []
            → (queue_of self.new ≡ queue_of self.old) × IfErr result (λ fault. fault ≡ MasterFault.Memory)) }
        ensures unasked { OnErr (taking_at self.old substation now octets.now) (queue_of self.new ≡ queue_of self.old) }
        // Once the queue's device has failed, no events are taken.
        ensures stopped { IsTrue (Q.is_stopped (queue_of self.old))
            → OnOk result (IfOk (taking_at self.old substation now octets.now) (λ t. t.events ≡ [])) }
        ensures not_exhausted { Q.honest (queue_of self.new) → OnOk result (IfOk (taking_at self.old substation now octets.now) (λ t.
            t.events ≢ [] → either_exhausts (Q.contents (queue_of self.old)) (queued_at self.old substation t.events) ≡ false)) }
        ensures exhausted { Q.honest (queue_of self.new) → IfErr result (λ fault. fault ≡ MasterFault.Exhausted
            → IfOk (taking_at self.old substation now octets.now) (λ t.
            IsTrue (either_exhausts (Q.contents (queue_of self.old)) (queued_at self.old substation t.events)))) }
        // Out of memory it is before the queue is asked, or where the numbers are there.
        ensures exhausted_first { Q.honest (queue_of self.new) → IfErr result (λ fault. fault ≡ MasterFault.Memory → (queue_of self.new ≡ queue_of self.old)
            ⊎ IfOk (taking_at self.old substation now octets.now) (λ t.
            either_exhausts (Q.contents (queue_of self.old)) (queued_at self.old substation t.events) ≡ false)) }
        // A queue in memory has no device.
        ensures device { result ≡ Err MasterFault.Device → IsTrue (Q.may_fault store.Device) }
    {
        let taken = self.links[usize::from(substation)].look(alloc, now, octets)?;
        let (dropped, dropped_too) = self.queue_events(alloc, substation, taken.events())?;
        self.set_above(substation, taken.events(), taken.statics());
        let actions = self.links[usize::from(substation)].settle(taken, dropped);
        Ok((actions, dropped_too))
    }
}
