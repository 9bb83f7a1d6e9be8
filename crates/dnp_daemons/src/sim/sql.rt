//! A script over SQL databases in memory, which are asked at its end whether they are well.

ghost use Rattle.std.specs.Prelude.{◌≡◌, ◌≢◌, ◌≤◌, All, Err, IfOk, IsTrue, List};
ghost use Rattle.dnp_concentrator.specs.Plan.{KeepsLimits};
ghost use Rattle.dnp_concentrator.specs.declared.cause.Cause.TheVariants.{Device, Exhausted};
ghost use Rattle.dnp_daemons.specs.declared.script.ScriptLine.{ScriptLine};
ghost use Rattle.dnp_daemons.specs.Simulations.{PlanEnds};
ghost use Rattle.dnp_daemons.specs.steps.Readings.{Says};
ghost use Rattle.dnp_daemons.specs.steps.SqlStores.{AreNew, AreWell, unmade_for};

use crate::run::ScriptStop;
use crate::run::carried::Carried;
use crate::run::onlooker::{Beside, Onlooker};
use crate::run::reporting::run_to_report;
use crate::script::checking::ScriptText;
use dnp_concentrator::Plan;
use dnp_eventbuf::MAX_CAPACITY;
use dnp_eventbuf::laws::lanes_stay_sound;
use dnp_objects::LANES;
use dnp_store::{ControlBook, Journal, OpenFault, Queue};
use dnp_world::standing_laws::plans_have_all_lanes;
use dnp_world::{Carrier, Cause, World};
use sqlite::MemStore;
use std::alloc::Global;
use std::io::Write;

/// The stores of a system, in databases in memory.
#[derive(Drop)]
struct SqlStores {
    /// The concentrator's queue for both centres.
    queues: Queue<MemStore>,
    /// The journal of each centre.
    journals: (Journal<MemStore>, Journal<MemStore>),
    /// The concentrator's book of controls.
    controls: ControlBook<MemStore>,
    /// The book of controls of each centre.
    orders: (ControlBook<MemStore>, ControlBook<MemStore>),
}

/// Why no system was made, where a store was not.
fn unmade(fault: OpenFault) -> ScriptStop
    ensures { result ≡ unmade_for fault }
{
    match fault {
        OpenFault::Memory => ScriptStop::Fault(Cause::Memory),
        OpenFault::WrongForm | OpenFault::Device | OpenFault::OldForm => {
            ScriptStop::Fault(Cause::Device)
        }
    }
}

impl SqlStores {
    /// Stores that hold nothing, the queue with lanes of these capacities for the first centre, and of those for the second.
    fn new(alloc: Global, first: [u32; LANES], second: [u32; LANES]) -> Result<SqlStores, OpenFault>
        requires first { All (λ capacity. (1 ≤ capacity) × (capacity ≤ MAX_CAPACITY)) first }
        requires second { All (λ capacity. (1 ≤ capacity) × (capacity ≤ MAX_CAPACITY)) second }
        ensures { IfOk result (AreNew first second) }
    {
        Ok(SqlStores {
            queues: Queue::in_memory(alloc, first, second)?,
            journals: (Journal::in_memory(alloc)?, Journal::in_memory(alloc)?),
            controls: ControlBook::in_memory(alloc)?,
            orders: (
                ControlBook::in_memory(alloc)?,
                ControlBook::in_memory(alloc)?,
            ),
        })
    }

    /// Whether none of them has answered Device.
    fn are_well(&self) -> bool
        ensures { IsTrue result → AreWell self.now }
    {
        self.queues.is_well()
            && self.journals.0.is_well()
            && self.journals.1.is_well()
            && self.controls.is_well()
            && self.orders.0.is_well()
            && self.orders.1.is_well()
    }
}

/// Runs a script on a new system of the plan, over SQL databases in memory, and prints the report at its end. Where a
/// database has answered Device, that is the fault.
pub(super) fn simulate_sql<C: Carrier + Drop, O: Onlooker + Drop, W: Write>(
    alloc: Global,
    plan: &Plan,
    script: &ScriptText<'_>,
    beside: Beside<C, O>,
    out: &mut W,
) -> Result<(), ScriptStop>
    requires limits { KeepsLimits plan.now }
    requires fits { (lines : List ScriptLine) × Says script.now lines }
    ensures ends { result ≢ Err (ScriptStop.Fault Device) → (lines : List ScriptLine) → Says script.now lines → PlanEnds plan.now lines result (W.contents out.old) (W.contents out.new) }
    ensures named { result ≢ Err (ScriptStop.Fault Exhausted) }
{
    match SqlStores::new(alloc, plan.queue, plan.queue2) {
        Ok(stores) => simulate_over(alloc, plan, script, stores, beside, out),
        Err(fault) => Err(unmade(fault)),
    }
}

/// The same over stores that hold nothing.
fn simulate_over<C: Carrier + Drop, O: Onlooker + Drop, W: Write>(
    alloc: Global,
    plan: &Plan,
    script: &ScriptText<'_>,
    stores: SqlStores,
    beside: Beside<C, O>,
    out: &mut W,
) -> Result<(), ScriptStop>
    requires limits { KeepsLimits plan.now }
    requires fits { (lines : List ScriptLine) × Says script.now lines }
    requires new { AreNew plan.now.queue plan.now.queue2 stores }
    ensures ends { result ≢ Err (ScriptStop.Fault Device) → (lines : List ScriptLine) → Says script.now lines → PlanEnds plan.now lines result (W.contents out.old) (W.contents out.new) }
    ensures named { result ≢ Err (ScriptStop.Fault Exhausted) }
{
    plans_have_all_lanes(plan);
    lanes_stay_sound();
    let SqlStores {
        queues,
        journals,
        controls,
        orders,
    } = stores;
    let made = World::new(alloc, plan, queues, journals, controls, orders);
    match made {
        Ok(world) => {
            let Beside {
                carrier,
                mut onlooker,
            } = beside;
            let mut carried = Carried { world, carrier };
            let result = run_to_report(alloc, &mut carried, script, &mut onlooker, out);
            let Carried { world, carrier: _ } = carried;
            let (queues, journals, controls, orders) = world.into_stores();
            let stores = SqlStores {
                queues,
                journals,
                controls,
                orders,
            };
            if stores.are_well() {
                result
            } else {
                Err(ScriptStop::Fault(Cause::Device))
            }
        }
        Err(_) => Err(ScriptStop::Fault(Cause::Memory)),
    }
}
