//! A whole system over lists.

ghost use Rattle.std.specs.Prelude.{◌≡◌, ◌↔◌, Err, IfOk, IsErr};
ghost use Rattle.dnp_concentrator.specs.IndexMap.{IsTooWide, Overlaps};
ghost use Rattle.dnp_concentrator.specs.Plan.{KeepsLimits, map_of};
ghost use Rattle.dnp_daemons.specs.ScriptWorlds.{plain_system};

use dnp_concentrator::{IndexMap, MapFault, Plan};
use dnp_controls::PlainBook;
use dnp_eventbuf::laws::lanes_stay_sound;
use dnp_eventbuf::{PlainJournal, PlainPair};
use dnp_world::World;
use dnp_world::standing_laws::plans_have_all_lanes;
use std::alloc::Global;

/// A whole system over lists.
pub type PlainWorld = World<PlainPair, PlainJournal, PlainBook, PlainBook>;

/// What a plan comes to whose queue found no memory: what is wrong with the plan's index map is said first.
fn unqueued(alloc: Global, plan: &Plan) -> Result<PlainWorld, MapFault>
    requires { KeepsLimits plan.now }
    ensures refused { IsErr result }
    ensures too_wide { (result ≡ Err MapFault.TooWide) ↔ IsTooWide (map_of plan.now) }
    ensures overlap { (result ≡ Err MapFault.Overlap) ↔ (Overlaps (map_of plan.now) × (IsTooWide (map_of plan.now) → ⊥)) }
{
    let _map = IndexMap::new(alloc, plan)?;
    Err(MapFault::Memory)
}

/// A new system of a plan that keeps its limits (`Plan::keeps_limits`), over lists. It is refused as `World::new` refuses it.
pub fn plain_world(alloc: Global, plan: &Plan) -> Result<PlainWorld, MapFault>
    requires { KeepsLimits plan.now }
    ensures fresh { IfOk result (λ world. world.system ≡ plain_system plan.now) }
    ensures too_wide { (result ≡ Err MapFault.TooWide) ↔ IsTooWide (map_of plan.now) }
    ensures overlap { (result ≡ Err MapFault.Overlap) ↔ (Overlaps (map_of plan.now) × (IsTooWide (map_of plan.now) → ⊥)) }
{
    plans_have_all_lanes(plan);
    lanes_stay_sound();
    let Ok(queues) = PlainPair::new(alloc, plan.queue, plan.queue2) else {
        return unqueued(alloc, plan);
    };
    let journals = (PlainJournal::new(alloc), PlainJournal::new(alloc));
    let orders = (PlainBook::new(alloc), PlainBook::new(alloc));
    World::new(alloc, plan, queues, journals, PlainBook::new(alloc), orders)
}
