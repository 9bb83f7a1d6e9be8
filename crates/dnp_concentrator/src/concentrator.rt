//! A data concentrator, and the outstations that it is to the centres above.

ghost use Rattle.std.specs.Prelude.{◌≡◌, ◌<◌, ◌≤◌, true, All, IsErr, OnOk, OnErr, IfOk, Err, ◌↔◌, length, map};
ghost use Rattle.std.specs.Borrow.{Lends, sem};
ghost use Rattle.dnp_eventbuf.specs.Sides.{ForEach, other_than};
ghost use Rattle.dnp_outstation.specs.Timers.{next_deadline};
ghost use Rattle.dnp_outstation.specs.State.{is_quiet, is_ready};
ghost use Rattle.dnp_outstation.specs.Calls.{opened_of, tick_of, restarted_core};
ghost use Rattle.dnp_outstation.specs.Connection.{closed, has_enabled_rows, solicited_timer};
ghost use Rattle.dnp_outstation.specs.Station.{actions_of, new_core};
ghost use Rattle.dnp_concentrator.specs.IndexMap.{IsTooWide, Overlaps};
ghost use Rattle.dnp_concentrator.specs.Plan.{KeepsLimits, map_of};
ghost use Rattle.dnp_concentrator.specs.PointsAbove.{points_above};
ghost use Rattle.dnp_concentrator.specs.Below.{new_links};
ghost use Rattle.dnp_concentrator.specs.Relaying as link;
ghost use Rattle.dnp_concentrator.specs.Reserving.{reserved_by};
ghost use Rattle.dnp_concentrator.specs.Restarting.{RestartsAsNew};
ghost use Rattle.dnp_concentrator.specs.declared.plan.Plan.{Plan as PlanValue};
ghost use Rattle.dnp_pointdb.specs.Database.{new_database};
ghost use Rattle.dnp_concentrator.specs.contracts.concentrator.Concentrator.{the_row};
ghost use Rattle.dnp_concentrator.specs.Concentrator.{core_of, queue_of, outputs_of, book_of, indices_of, links_of, plan_above, with_queue, with_other_book, LeavesAbove, above_of};

use crate::book_outputs::BookOutputs;
use crate::fault::MapFault;
use crate::index_map::IndexMap;
use crate::links::{hang_up_all, new_links};
use crate::per_centre::PerCentre;
use crate::plan::Plan;
use crate::points_above::points_above;
use crate::relay::Relay;
use crate::reserving::named_by;
use crate::restart_laws::a_restart_leaves_what_is_new;
use dnp_controls::Book;
use dnp_eventbuf::{CENTRES, PairLanes, Side, StoreFault};
use dnp_objects::Command;
use dnp_outstation::{Actions, OutstationCore};
use dnp_pointdb::{PointDb, PointPlan, Times};
use std::alloc::{AllocError, Global};

/// A data concentrator (IEEE Std 1815-2012, application layer): an outstation to each of two centres, numbered 0 and 1, whose
/// events are those of the queue's side for that centre, and whose outputs are the one book's; and the master of each
/// substation below, whose events go to both sides of the queue, and to which it relays the book's controls.
///
/// A call that ends in `_above` is for the outstation towards one centre, which it names first; the other one stays as it
/// is. It fills the caller's actions. One of a link below wants the number of a substation of the plan, and drives no link
/// above. A refused call changes nothing and sends nothing; only after Device the queue and the book promise nothing of what
/// they hold. The moment of a call, `now`, is in milliseconds.
pub struct Concentrator<Q, B> {
    /// The outstations towards the centres.
    pub(crate) cores: PerCentre<OutstationCore>,
    pub(crate) queue: Q,
    /// The points above, whose classes say to which lanes events go.
    pub(crate) points: PointPlan,
    pub(crate) outputs: BookOutputs<B>,
    /// The links to the substations, by their numbers.
    pub(crate) links: Vec<Relay>,
}

impl<Q: Drop, B: Drop> Drop for Concentrator<Q, B> {
    /// One call for whoever lets it go: its parts are looked at here alone.
    fn drop(self) {
        let Concentrator {
            cores: _,
            queue: _,
            points: _,
            outputs: _,
            links: _,
        } = self;
    }
}

/// The points of a plan, of which nothing was read. Refused out of memory alone.
fn new_points(alloc: Global, plan: &PointPlan) -> Result<PointDb, AllocError>
    ensures { IfOk result (λ points. points ≡ new_database plan.now) }
{
    PointDb::new(alloc, plan.try_clone(alloc)?)
}

impl<Q: Drop, B: Drop> Concentrator<Q, B> {
    /// A concentrator of a plan that keeps its limits (`Plan::keeps_limits`), over this queue and this book. It is closed
    /// towards both centres, as after a restart.
    ///
    /// Refused is, first of all, an index above over 65,535 (`TooWide`), and then an index above of one kind that two
    /// substations would share (`Overlap`). After these it may be out of memory (`Memory`). What is refused drops queue
    /// and book.
    pub fn new(alloc: Global, plan: &Plan, queue: Q, book: B) -> Result<Self, MapFault>
        requires { KeepsLimits plan.now }
        ensures cores { IfOk result (λ c. ForEach (λ centre. core_of centre c ≡ new_core (new_database (points_above plan.now)) plan.now.times)) }
        ensures plan { IfOk result (λ c. plan_above c ≡ points_above plan.now) }
        ensures indices { IfOk result (λ c. indices_of c ≡ map_of plan.now) }
        ensures links { IfOk result (λ c. links_of c ≡ new_links plan.now) }
        ensures restarts { IfOk result (λ c. ForEach (λ centre. RestartsAsNew plan.now (core_of centre c) (links_of c))) }
        ensures queue { IfOk result (λ c. queue_of c ≡ queue) }
        ensures book { IfOk result (λ c. book_of c ≡ book) }
        ensures too_wide { (result ≡ Err MapFault.TooWide) ↔ IsTooWide (map_of plan.now) }
        ensures overlap { (result ≡ Err MapFault.Overlap) ↔ (Overlaps (map_of plan.now) × (IsTooWide (map_of plan.now) → ⊥)) }
    {
        a_restart_leaves_what_is_new();
        let map = IndexMap::new(alloc, plan)?;
        let _mapped = map.substations();
        let Ok(points) = points_above(alloc, plan) else {
            return Err(MapFault::Memory);
        };
        let Ok(first) = new_points(alloc, &points) else {
            return Err(MapFault::Memory);
        };
        let Ok(second) = new_points(alloc, &points) else {
            return Err(MapFault::Memory);
        };
        let Ok(links) = new_links(alloc, plan) else {
            return Err(MapFault::Memory);
        };
        Ok(Concentrator {
            cores: PerCentre {
                first: OutstationCore::new(first, plan.times),
                second: OutstationCore::new(second, plan.times),
            },
            queue,
            points,
            outputs: BookOutputs::new(map, book),
            links,
        })
    }
}

impl<Q, B> Concentrator<Q, B> {
    /// The queue and the book, as they stand.
    pub fn into_stores(self) -> (Q, B)
        ensures queue { result.0 ≡ queue_of self }
        ensures book { result.1 ≡ book_of self }
    {
        let Concentrator {
            cores: _,
            queue,
            points: _,
            outputs,
            links: _,
        } = self;
        (queue, outputs.into_book())
    }

    /// The queue, for writing.
    pub fn queue(&mut self) -> &mut Q
        ensures* writes_back { sem 𝓛 (Lends (the_row Q.row B.row) Q.row self.entry result (with_queue self.old)) }
        ensures value { result.now ≡ queue_of self.old }
    {
        &mut self.queue
    }

    /// The book, for writing.
    pub fn book(&mut self) -> &mut B
        ensures* writes_back { sem 𝓛 (Lends (the_row Q.row B.row) B.row self.entry result (with_other_book self.old)) }
        ensures value { result.now ≡ book_of self.old }
    {
        self.outputs.book()
    }

    /// The points that this centre reads, as they stand.
    pub fn points_above(&self, centre: u8) -> &PointDb
        requires { centre < CENTRES }
        ensures { result.now ≡ (core_of centre self.now).points }
    {
        self.cores.at(centre).seen_points()
    }

    /// Whether the outstation towards this centre is open, awaits no confirm and holds no READ.
    pub fn quiet_above(&self, centre: u8) -> bool
        requires { centre < CENTRES }
        ensures { result ≡ is_quiet (core_of centre self.now) }
    {
        self.cores.at(centre).quiet()
    }

    /// The command that this centre's standing select names, if there is one: its point is reserved, so that a command to it
    /// from the other centre is answered ALREADY_ACTIVE.
    pub fn standing_above(&self, centre: u8, now: u64) -> Option<Command>
        requires { centre < CENTRES }
        ensures { result ≡ reserved_by (core_of centre self.now) now }
    {
        named_by(self.cores.at(centre).standing(now)?)
    }

    /// The moment, in milliseconds, at which the next timer of the outstation towards this centre ends; none while no
    /// timer runs. Rows that come from below start an unsolicited response at the next tick, whenever that is.
    pub fn next_deadline_above(&self, centre: u8) -> Option<u64>
        requires { centre < CENTRES }
        ensures { result ≡ next_deadline (core_of centre self.now) }
    {
        self.cores.at(centre).next_deadline()
    }

    /// The connection to this centre ends: the outstation towards it is closed, and forgets what came.
    pub fn hung_up_above(&mut self, centre: u8)
        requires { centre < CENTRES }
        ensures core { core_of centre self.new ≡ closed (core_of centre self.old) }
        ensures other { core_of (other_than centre) self.new ≡ core_of (other_than centre) self.old }
        ensures queue { queue_of self.new ≡ queue_of self.old }
        ensures outputs { outputs_of self.new ≡ outputs_of self.old }
        ensures links { links_of self.new ≡ links_of self.old }
        ensures plan { plan_above self.new ≡ plan_above self.old }
    {
        self.cores.at_mut(centre).hung_up();
    }
}

impl<Q: PairLanes, B: Book> Concentrator<Q, B> {
    /// A restart of the outstation towards this centre. Its side of the queue stays, as the other does.
    fn restart_above(&mut self, alloc: Global, centre: u8)
        requires { centre < CENTRES }
        ensures core { core_of centre self.new ≡ restarted_core (core_of centre self.old) }
        ensures other { core_of (other_than centre) self.new ≡ core_of (other_than centre) self.old }
        ensures queue { queue_of self.new ≡ queue_of self.old }
        ensures outputs { outputs_of self.new ≡ outputs_of self.old }
        ensures links { links_of self.new ≡ links_of self.old }
        ensures plan { plan_above self.new ≡ plan_above self.old }
    {
        let mut side = Side::new(&mut self.queue, centre);
        let _ = self.cores.at_mut(centre).restart(alloc, &mut side, true);
    }

    /// A restart: the outstations above are closed, and their points are as new; each link below is closed, and no control
    /// is in progress there. The queue and the book stay, and nothing else does.
    pub fn restart(&mut self, alloc: Global)
        ensures cores { ForEach (λ centre. core_of centre self.new ≡ restarted_core (core_of centre self.old)) }
        ensures queue { queue_of self.new ≡ queue_of self.old }
        ensures outputs { outputs_of self.new ≡ outputs_of self.old }
        ensures links { links_of self.new ≡ map link.hung_up (links_of self.old) }
        ensures plan { plan_above self.new ≡ plan_above self.old }
        // So it is as `new` makes it over this queue and this book, whatever came and whatever was read: `restart_laws`.
        ensures as_new { (plan : PlanValue) → ForEach (λ centre. RestartsAsNew plan (core_of centre self.old) (links_of self.old)
            → (core_of centre self.new ≡ new_core (new_database (points_above plan)) plan.times) × (links_of self.new ≡ new_links plan)) }
    {
        self.restart_above(alloc, 0);
        self.restart_above(alloc, 1);
        hang_up_all(&mut self.links);
    }

    /// A connection to this centre begins. What is done is put into the actions, in place of what was there.
    ///
    /// Refused by the queue alone, where unsolicited responses are on, as Memory or Device: then the actions stay too.
    pub fn opened_above(
        &mut self,
        centre: u8,
        actions: &mut Actions,
        alloc: Global,
        now: u64,
    ) -> Result<(), StoreFault>
        requires { centre < CENTRES }
        ensures leaves { LeavesAbove Q.honest Q.is_stopped Q.contents Q.asks_memory Q.may_fault centre self.old self.new result }
        ensures opened { Q.honest (queue_of self.new) → OnOk result (opened_of (above_of Q.contents B.contents centre self.old) now
            ≡ record { state = above_of Q.contents B.contents centre self.new; does = actions_of actions.new }) }
        ensures whole { OnOk result (All (λ fragment. 4 ≤ length fragment) (actions_of actions.new).send) }
        ensures actions_unchanged { OnErr result (actions.new ≡ actions.old) }
        ensures asks_announced { IsErr result → (core_of centre self.old).announced ≡ true }
        ensures asks_rows { Q.honest (queue_of self.new) → IsErr result → has_enabled_rows (above_of Q.contents B.contents centre self.old) ≡ true }
    {
        let mut side = Side::new(&mut self.queue, centre);
        self.cores
            .at_mut(centre)
            .opened(actions, alloc, &mut side, &mut self.outputs, now)
    }

    /// Time has passed for the outstation towards this centre. What is done is put into the actions, in place of what was
    /// there.
    ///
    /// Refused by the queue alone, where unsolicited responses are on, as Memory or Device: then the actions stay too.
    pub fn tick_above(
        &mut self,
        centre: u8,
        actions: &mut Actions,
        alloc: Global,
        now: u64,
    ) -> Result<(), StoreFault>
        requires { centre < CENTRES }
        ensures leaves { LeavesAbove Q.honest Q.is_stopped Q.contents Q.asks_memory Q.may_fault centre self.old self.new result }
        ensures ticked { Q.honest (queue_of self.new) → OnOk result (tick_of (above_of Q.contents B.contents centre self.old) now
            ≡ record { state = above_of Q.contents B.contents centre self.new; does = actions_of actions.new }) }
        ensures whole { OnOk result (All (λ fragment. 4 ≤ length fragment) (actions_of actions.new).send) }
        ensures actions_unchanged { OnErr result (actions.new ≡ actions.old) }
        ensures asks_ready { IsErr result → is_ready (solicited_timer (core_of centre self.old) now) ≡ true }
        ensures asks_rows { Q.honest (queue_of self.new) → IsErr result → has_enabled_rows (above_of Q.contents B.contents centre self.old) ≡ true }
    {
        let mut side = Side::new(&mut self.queue, centre);
        self.cores
            .at_mut(centre)
            .tick(actions, alloc, &mut side, &mut self.outputs, now)
    }
}
