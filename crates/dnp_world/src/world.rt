//! A whole system: substations, a concentrator and two centres, with lines between them.

ghost use Rattle.std.specs.Prelude.{option_copied, ℕ, ◌<◌, ◌≡◌, ◌≢◌, ◌↔◌, [], false, take, Err, IfErr, IfOk, OnOk};
ghost use Rattle.dnp_concentrator.specs.Centre.{book_of, journal_of};
ghost use Rattle.dnp_concentrator.specs.PerCentre.{at, for_each, of_each, pair_of, per_centre};
ghost use Rattle.dnp_concentrator.specs.IndexMap.{IsTooWide, Overlaps};
ghost use Rattle.dnp_concentrator.specs.Plan.{KeepsLimits, map_of};
ghost use Rattle.dnp_world.specs.Causes.{IsStoppedBy, TellsDevice};
ghost use Rattle.dnp_eventbuf.specs.Sides.{ForEach};
ghost use Rattle.dnp_world.specs.BothSteady.{HoldsForAll, IsFateOfAll, Issues, Lasts, ListsAllOfAll};
ghost use Rattle.dnp_world.specs.Centres.{HappensToAll, centre_of, front_on, is_quiet_on, may_stop, seen_at, standing_on};
ghost use Rattle.dnp_world.specs.FreshSystems.{fresh_whole};
ghost use Rattle.dnp_world.specs.NewSystems.{AreEmpty};
ghost use Rattle.dnp_world.specs.Opening.{OpensQuiet};
ghost use Rattle.dnp_world.specs.ReportShown.{ListsAll, Shows, lists_of};
ghost use Rattle.dnp_world.specs.Reports.{Holds};
ghost use Rattle.dnp_world.specs.ControlMoves.{ControlMoves};
ghost use Rattle.dnp_world.specs.Controls.{ControlEnds};
ghost use Rattle.dnp_world.specs.Rounds.{IsRound, StopsInRound};
ghost use Rattle.dnp_world.specs.Shown.{StoresAreWell, is_one_stopped};
ghost use Rattle.dnp_world.specs.SystemRuns.{RunsTo, StopsAfter};
ghost use Rattle.dnp_world.specs.WholeMoves.{RoundMovesAll};
ghost use Rattle.dnp_world.specs.Wholes.{seen_by};
ghost use Rattle.dnp_world.specs.declared.event.Link.TheVariants as link;

use crate::carrier::InMemory;
use crate::channel::Channel;
use crate::event::{Event, Link};
use crate::headline_laws::{reports_show_what_holds, steady_systems_stay_steady};
use crate::history::History;
use crate::link_event::Way;
use crate::new_substations::new_substations;
use crate::parts::Parts;
use crate::report::Report;
use crate::round_fault::{ControlFault, RoundFault};
use crate::standing_laws::plans_have_all_lanes;
use crate::stopped::Stopped;
use crate::stored::Stored;
use dnp_concentrator::addresses::{CONCENTRATOR_ABOVE, centre_address};
use dnp_concentrator::{Cause, Centre, Concentrator, IndexMap, MapFault, PerCentre, Plan};
use dnp_controls::Book;
use dnp_eventbuf::{CENTRES, JournalStore, PairLanes};
use dnp_outstation::Actions;
use std::alloc::Global;
use std::marker::Model;

mod carried;

/// A whole system: substations, a concentrator and two centres, with lossy lines between them, and what became of every row
/// and command.
///
/// At every moment at which its stores are honest and no book has answered Device, of each centre: no row of its journal is invented,
/// no confirmed row vanishes, what full lanes of the queue for it dropped is counted; and no command was performed more often than it
/// was issued, at either centre (`headline`). So long, too, its calls do what they say.
///
/// A clause sees the system, by what its stores say of themselves, and the stores; `seen_by` gives what one centre sees of it, which
/// is a system with one centre. `⟦<Self as Stored>⟧.well self.new` says of the stores that they are well as the call ends: the queues,
/// the journals and the three books are honest, and no book has answered Device.
pub struct World<Q: PairLanes, J: JournalStore, A: Book, B: Book> {
    parts: Parts<Q, J, A, B>,
}

impl<Q: PairLanes, J: JournalStore, A: Book, B: Book> Model for World<Q, J, A, B> {
    ghost use Rattle.dnp_world.specs.Shown.{IsSteadyWhileWell, Shown};

    ghost Value = { Shown Q J A B };

    ghost view = { λ w. w.parts };

    ghost invariant = { λ w. IsSteadyWhileWell Q.honest J.honest A.honest A.is_stopped B.honest B.is_stopped w.parts };
}

impl<Q: PairLanes, J: JournalStore, A: Book, B: Book> Stored for World<Q, J, A, B> {
    ghost well = { λ w. StoresAreWell Q.honest J.honest A.honest A.is_stopped B.honest B.is_stopped w.stores };

    ghost is_stopped = { λ w. is_one_stopped Q.is_stopped J.is_stopped A.is_stopped B.is_stopped w.stores };
}

impl<Q: PairLanes + Drop, J: JournalStore + Drop, A: Book + Drop, B: Book + Drop> Drop
    for World<Q, J, A, B> {
    /// One call for whoever lets it go: its parts are looked at here alone.
    fn drop(self) {
        let World { parts: _ } = self;
    }
}

impl<Q: PairLanes + Drop, J: JournalStore + Drop, A: Book + Drop, B: Book + Drop> World<
    Q,
    J,
    A,
    B,
> {
    /// A system of a plan that keeps its limits (`Plan::keeps_limits`), all of it closed, at the moment 0, over stores that hold
    /// nothing (`AreEmpty`): the concentrator's queues, the centres' journals, and the books of concentrator and centres, of two the
    /// first centre's first. What a journal in a file holds can be told of an honest one alone, so no more is asked.
    ///
    /// Refused is, first of all, an index above over 65,535 (`TooWide`), and then an index above of one kind that two
    /// substations would share (`Overlap`). After these it may be out of memory (`Memory`). What is refused drops the stores.
    pub fn new(
        alloc: Global,
        plan: &Plan,
        queues: Q,
        journals: (J, J),
        controls: A,
        orders: (B, B),
    ) -> Result<Self, MapFault>
        requires limits { KeepsLimits plan.now }
        requires empty { J.honest journals.0 → J.honest journals.1 → ForEach (λ centre. AreEmpty (Q.contents queues centre)
            (J.archive (at centre (per_centre journals))) (A.contents controls) (B.contents (at centre (per_centre orders)))) }
        ensures fresh { IfOk result (λ w. w.system ≡ fresh_whole plan.now
            (for_each (Q.contents queues)) (of_each J.archive (per_centre journals)) (A.contents controls) (of_each B.contents (per_centre orders))) }
        ensures stores { IfOk result (λ w. w.stores ≡ record { queues = queues; journals = journals; controls = controls; orders = orders }) }
        ensures too_wide { (result ≡ Err MapFault.TooWide) ↔ IsTooWide (map_of plan.now) }
        ensures overlap { (result ≡ Err MapFault.Overlap) ↔ (Overlaps (map_of plan.now) × (IsTooWide (map_of plan.now) → ⊥)) }
    {
        steady_systems_stay_steady();
        plans_have_all_lanes(plan);
        let map = IndexMap::new(alloc, plan)?;
        let concentrator = Concentrator::new(alloc, plan, queues, controls)?;
        let (journal, other_journal) = journals;
        let (book, other_book) = orders;
        let first = Centre::new(alloc, plan, journal, book)?;
        let second = Centre::new(alloc, plan, other_journal, other_book)?;
        let Ok(substations) = new_substations(alloc, plan) else {
            return Err(MapFault::Memory);
        };
        Ok(World {
            parts: Parts {
                map,
                substations,
                concentrator,
                centres: PerCentre { first, second },
                above: PerCentre {
                    first: Channel::new(alloc, CONCENTRATOR_ABOVE, centre_address(0)),
                    second: Channel::new(alloc, CONCENTRATOR_ABOVE, centre_address(1)),
                },
                moment: 0,
                actions: Actions::none(alloc),
                history: History::new(alloc),
            },
        })
    }
}

impl<Q: PairLanes, J: JournalStore, A: Book, B: Book> World<Q, J, A, B> {
    /// What holds of any system, to each centre, whatever was done with it, where its stores are well. It does nothing.
    pub fn headline(&self)
        ensures holds { ⟦<Self as Stored>⟧.well self.now → HoldsForAll self.now.system }
        ensures all { ⟦<Self as Stored>⟧.well self.now → ListsAllOfAll self.now.system }
    {
        steady_systems_stay_steady();
        let _ = &self.parts;
    }

    /// How many units stand on the line of this way of the link, 0 for a link outside the plan.
    pub fn standing(&self, on: Link, way: Way) -> usize
        ensures { result ≡ standing_on self.now.system on way }
    {
        self.parts.standing(on, way)
    }

    /// The octets of the unit that the line of this way of the link gives next: a link frame of at most 292. None where
    /// nothing stands there, and for a link outside the plan.
    pub fn front(&self, on: Link, way: Way) -> Option<&[u8]>
        ensures { option_copied result ≡ front_on self.now.system on way }
    {
        self.parts.front(on, way)
    }

    /// The events happen, one after the other, up to the first at which a store or a request for memory refuses. That one
    /// counts as `Lose` if it is `Deliver`, and else it is left out. Neither is asked for an event that names nothing in the
    /// plan, finds an empty line, brings a reading, a task or a command that its station refuses, or relays over a master that
    /// is closed or awaits a response.
    pub fn run(&mut self, alloc: Global, events: &[Event]) -> Result<(), Stopped>
        ensures held { ⟦<Self as Stored>⟧.well self.new → ⟦<Self as Stored>⟧.well self.old }
        ensures done { ⟦<Self as Stored>⟧.well self.new → OnOk result (RunsTo HappensToAll self.old.system events.now self.new.system) }
        ensures stopped { ⟦<Self as Stored>⟧.well self.new → IfErr result (λ stopped. StopsAfter HappensToAll may_stop self.old.system events.now stopped.done self.new.system) }
        ensures lasts { ⟦<Self as Stored>⟧.well self.new → OnOk result (Lasts events.now self.old.system self.new.system) }
        ensures lasts_so_far { ⟦<Self as Stored>⟧.well self.new → IfErr result (λ stopped. Lasts (take stopped.done events.now) self.old.system self.new.system) }
        ensures issued { ⟦<Self as Stored>⟧.well self.new → OnOk result (Issues events.now self.old.system self.new.system) }
        ensures issued_so_far { ⟦<Self as Stored>⟧.well self.new → IfErr result (λ stopped. Issues (take stopped.done events.now) self.old.system self.new.system) }
        ensures holds { ⟦<Self as Stored>⟧.well self.new → HoldsForAll self.new.system }
        ensures opens { ⟦<Self as Stored>⟧.well self.new → OnOk result (OpensQuiet events.now self.new.system) }
        ensures device { TellsDevice (⟦<Self as Stored>⟧.is_stopped self.old) (⟦<Self as Stored>⟧.is_stopped self.new) (IsStoppedBy Cause.Device result) }
    {
        self.run_by(alloc, events, &mut InMemory)
    }

    /// A clean round over a quiet link: events of classes 1, 2 and 3 are polled, and what comes of it is delivered, down
    /// the line, up, and down again.
    ///
    /// So the first rows of the lanes below, as many as fit into one fragment, leave them and come to the end above: from a
    /// substation into the queues for both centres, and from one of these into that centre's journal. A poll that is, octet for octet, the last request of the
    /// connection is passed over, and then nothing moves, but for an unsolicited response that the concentrator starts.
    ///
    /// Refused is a link that isn't quiet (`NotQuiet`): one outside the plan, or to no centre there is, or one of whose ends is closed, or awaits an
    /// answer, or whose lines carry anything or are broken. Where an event stops (`Fault`), those before it happened.
    pub fn clean_round(&mut self, alloc: Global, on: Link) -> Result<(), RoundFault>
        ensures held { ⟦<Self as Stored>⟧.well self.new → ⟦<Self as Stored>⟧.well self.old }
        ensures not_quiet { (result ≡ Err RoundFault.NotQuiet) ↔ (is_quiet_on self.old.system on ≡ false) }
        ensures unchanged { result ≡ Err RoundFault.NotQuiet → self.new ≡ self.old }
        ensures done { ⟦<Self as Stored>⟧.well self.new → OnOk result (IsRound HappensToAll (seen_at (centre_of on)) on self.old.system self.new.system) }
        ensures stopped { ⟦<Self as Stored>⟧.well self.new → IfErr result (λ fault. fault ≢ RoundFault.NotQuiet → StopsInRound HappensToAll (seen_at (centre_of on)) may_stop on self.old.system self.new.system) }
        ensures moves { ⟦<Self as Stored>⟧.well self.new → OnOk result ∥ RoundMovesAll on self.old.system self.new.system ∥₁ }
        ensures fate { ⟦<Self as Stored>⟧.well self.new → IsFateOfAll (λ i. []) self.old.system self.new.system }
        ensures none_issued { ⟦<Self as Stored>⟧.well self.new → self.new.system.history.issued ≡ self.old.system.history.issued }
        ensures holds { ⟦<Self as Stored>⟧.well self.new → HoldsForAll self.new.system }
        ensures device { TellsDevice (⟦<Self as Stored>⟧.is_stopped self.old) (⟦<Self as Stored>⟧.is_stopped self.new) (result ≡ Err (RoundFault.Fault Cause.Device)) }
    {
        self.clean_round_by(alloc, on, &mut InMemory)
    }

    /// The control of this id in this centre's book goes to its substation over quiet links: three steps of relaying above
    /// and then three below. What each of the first two sends is delivered down the line, and what comes of it up.
    ///
    /// Refused is, first of all, a link on its way that isn't quiet (`NotQuiet`), and then a control that isn't the centre's
    /// next one, or one that another is before, at the centre or at the concentrator (`NotNext`). A status other than
    /// SUCCESS ends it (`Refused`), and so does an event that stops (`Fault`): the events before that happened.
    ///
    /// So the substation has performed it, once, and both books say SUCCESS if it is done; and where a status ends it no substation has
    /// performed anything.
    pub fn clean_control(&mut self, alloc: Global, centre: u8, id: u64) -> Result<(), ControlFault>
        requires { centre < CENTRES }
        ensures held { ⟦<Self as Stored>⟧.well self.new → ⟦<Self as Stored>⟧.well self.old }
        ensures ends { ⟦<Self as Stored>⟧.well self.new → ControlEnds HappensToAll (seen_by centre) may_stop centre id self.old.system result self.new.system }
        ensures operates { ⟦<Self as Stored>⟧.well self.new → OnOk result ∥ ControlMoves id (seen_by centre self.old.system) (seen_by centre self.new.system) ∥₁ }
        ensures rests { ⟦<Self as Stored>⟧.well self.new → (status : ℕ) → result ≡ Err (ControlFault.Refused status) → self.new.system.history.operated ≡ self.old.system.history.operated }
        ensures fate { ⟦<Self as Stored>⟧.well self.new → IsFateOfAll (λ i. []) self.old.system self.new.system }
        ensures none_issued { ⟦<Self as Stored>⟧.well self.new → self.new.system.history.issued ≡ self.old.system.history.issued }
        ensures holds { ⟦<Self as Stored>⟧.well self.new → HoldsForAll self.new.system }
        ensures device { TellsDevice (⟦<Self as Stored>⟧.is_stopped self.old) (⟦<Self as Stored>⟧.is_stopped self.new) (result ≡ Err (ControlFault.Fault Cause.Device)) }
        ensures not_quiet_above { is_quiet_on self.old.system (link.Above centre) ≡ false → result ≡ Err ControlFault.NotQuiet }
    {
        self.clean_control_by(alloc, centre, id, &mut InMemory)
    }

    /// The stores, as they stand: the concentrator's queues, the centres' journals, and the books of concentrator and centres. So whoever
    /// lent them can ask them whether they are well, as what the other calls promise demands.
    pub fn into_stores(self) -> (Q, (J, J), A, (B, B))
        ensures queues { result.0 ≡ self.stores.queues }
        ensures journals { result.1 ≡ self.stores.journals }
        ensures controls { result.2 ≡ self.stores.controls }
        ensures orders { result.3 ≡ self.stores.orders }
    {
        let World { parts } = self;
        let Parts {
            map: _,
            substations: _,
            concentrator,
            centres,
            above: _,
            moment: _,
            actions: _,
            history: _,
        } = parts;
        let (queues, controls) = concentrator.into_stores();
        let (journals, orders) = stores_of_both(centres);
        (queues, journals, controls, orders)
    }

    /// What became of all rows and commands so far. It changes nothing, and what holds at every moment holds of it, to each centre.
    pub fn report(&mut self, alloc: Global) -> Result<Report, Cause>
        ensures held { ⟦<Self as Stored>⟧.well self.new → ⟦<Self as Stored>⟧.well self.old }
        ensures same { ⟦<Self as Stored>⟧.well self.new → self.new.system ≡ self.old.system }
        ensures shows { ⟦<Self as Stored>⟧.well self.new → IfOk result (λ report. ForEach (λ centre. Shows (seen_by centre self.old.system) (lists_of centre report))) }
        ensures holds { ⟦<Self as Stored>⟧.well self.new → IfOk result (λ report. ForEach (λ centre. Holds (lists_of centre report))) }
        ensures all { ⟦<Self as Stored>⟧.well self.new → IfOk result (λ report. ForEach (λ centre. ListsAll (seen_by centre self.old.system) (lists_of centre report))) }
        ensures device { TellsDevice (⟦<Self as Stored>⟧.is_stopped self.old) (⟦<Self as Stored>⟧.is_stopped self.new) (result ≡ Err Cause.Device) }
        ensures named { result ≢ Err Cause.Exhausted }
    {
        reports_show_what_holds();
        self.parts.report(alloc)
    }
}

/// The stores of both centres, as they stand: the journals, and the books.
fn stores_of_both<J, B>(centres: PerCentre<Centre<J, B>>) -> ((J, J), (B, B))
    ensures journals { result.0 ≡ pair_of (of_each journal_of centres) }
    ensures orders { result.1 ≡ pair_of (of_each book_of centres) }
{
    let (first, second) = centres.into_both();
    let (journal, book) = first.into_stores();
    let (other_journal, other_book) = second.into_stores();
    ((journal, other_journal), (book, other_book))
}
