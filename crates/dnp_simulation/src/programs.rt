//! The nodes that processes run: made of a plan, and made again over their stores.

use crate::making::{above_plan, points_of, put_below};
use crate::nodes::LaneCount;
use crate::polled::Layout;
use crate::restarts::{Again, Return, Start};
use crate::stores::{Begun, Store};
use dnp_concentrator::addresses::{
    CONCENTRATOR_ABOVE, MASTER_BELOW, centre_address, outstation_address,
};
use dnp_concentrator::{Centre, Concentrator, IssueFault};
use dnp_controls::{Book, BookFault, Entry, PlainOutputs};
use dnp_eventbuf::{CENTRES, JournalStore, Lanes, Numbered, PairLanes, RingLanes};
use dnp_nodes::{
    CalleePlan, CallerPlan, CentreNode, ChangeFault, ConcentratorNode, Ends, Node, OutstationNode,
    Slot,
};
use dnp_objects::{Command, LANES, Lane, StoreFault};
use dnp_outstation::Outstation;
use dnp_pointdb::PointDb;
use dnp_streams::Change;
use std::alloc::Global;

/// What the wall clocks show at the moment 0, in milliseconds since 1970 UTC.
pub const CLOCK: u64 = 1_700_000_000_000;

/// The start of all processes.
const FIRST: Start = Start {
    at: 0,
    clock: CLOCK,
};

/// So many rows of a journal are looked at at a time.
const PAGE: usize = 1_000;

/// A substation's node.
pub trait Measures: Node + Drop {
    /// Makes it of a plan. `None` if there is no memory for it, or the plan doesn't keep its limits.
    fn begun(alloc: Global, layout: &Layout, number: u8) -> Option<Self>;

    /// Makes it again. It may lose its events, which are counted by their lanes.
    fn again(
        self,
        alloc: Global,
        layout: &Layout,
        number: u8,
        is_lost: bool,
        lost: &mut [u64; LANES],
    ) -> Option<Self>;

    /// Shows its points.
    fn points(&self) -> &PointDb;

    /// Gives the commands that it has performed.
    fn operated(&self) -> &[Command];

    /// Counts what a lane has.
    fn count_lane(&mut self, lane: Lane) -> LaneCount;

    /// A reading changes.
    fn change(&mut self, now: u64, change: &Change) -> Result<(), ChangeFault>;
}

/// A node over two stores.
pub trait Program: Node + Drop {
    /// Its store of events: a queue or a journal.
    type Events: Store;

    /// Its book.
    type Book: Store;

    /// Makes it over its stores. `None` if there is no memory for it, or the plan doesn't keep its limits.
    fn over(
        alloc: Global,
        layout: &Layout,
        number: u8,
        stores: (Self::Events, Self::Book),
        start: Start,
    ) -> Option<Self>;

    /// Gives its stores, as they stand.
    fn into_stores(self) -> (Self::Events, Self::Book);

    /// Sets its wall clock.
    fn set_clock(&mut self, clock: u64);

    /// Gives the controls in its book.
    fn controls(&mut self, alloc: Global) -> Result<Vec<Entry>, BookFault>;
}

/// The concentrator's node.
pub trait Gathers: Program {
    /// Counts what a lane has for a centre.
    fn count_lane(&mut self, centre: u8, lane: Lane) -> LaneCount;

    /// Shows the points that a centre reads.
    fn points_above(&self, centre: u8) -> Option<&PointDb>;
}

/// A centre's node.
pub trait Keeps: Program {
    /// Gives some rows of its journal with ids over `from`, if there are any.
    fn rows(&mut self, alloc: Global, from: u64) -> Result<Vec<Numbered>, StoreFault>;

    /// Issues a command.
    fn issue(&mut self, now: u64, substation: u8, command: &Command) -> Result<u64, IssueFault>;
}

/// Makes a node over new stores.
pub fn new_program<P: Program>(alloc: Global, layout: &Layout, number: u8) -> Option<P> {
    let events = <P::Events>::created(alloc, &layout.plan)?;
    let book = <P::Book>::created(alloc, &layout.plan)?;
    P::over(alloc, layout, number, (events, book), FIRST)
}

/// Makes a node again over its stores, which begin again.
fn again<P: Program>(
    alloc: Global,
    layout: &Layout,
    node: P,
    number: u8,
    returns: Return,
) -> Option<Begun<P>> {
    let (events, book) = node.into_stores();
    let restarts = returns.restarts;
    let Begun { store: events, how } = events.again(alloc, &layout.plan, restarts.events)?;
    let Begun {
        store: book,
        how: other,
    } = book.again(alloc, &layout.plan, restarts.book)?;
    match P::over(alloc, layout, number, (events, book), returns.start) {
        Some(store) => Some(Begun {
            store,
            how: how.or(other),
        }),
        None => None,
    }
}

/// The node of this number is made again in its list. `None` if there is no memory for it.
pub fn restarted<P: Program>(
    alloc: Global,
    layout: &Layout,
    nodes: &mut Vec<P>,
    number: u8,
    returns: Return,
) -> Option<Again> {
    let place = usize::from(number);
    if place >= nodes.len() {
        return None;
    }
    let Begun { store, how } = again(alloc, layout, nodes.remove(place), number, returns)?;
    match nodes.insert(place, store) {
        Ok(()) => Some(Again {
            how,
            ..Again::WHOLE
        }),
        Err(_) => None,
    }
}

/// The node of a substation.
pub type Below = OutstationNode<RingLanes, PlainOutputs>;

/// Makes a substation's node over lanes and outputs, as after a restart.
fn below_over(
    alloc: Global,
    layout: &Layout,
    number: u8,
    lanes: RingLanes,
    outputs: PlainOutputs,
) -> Option<Below> {
    let above = above_plan(&layout.plan, layout.polling_below(number));
    let callee = CalleePlan {
        slot: Slot::Above(0),
        ends: Ends {
            own: outstation_address(number),
            peer: MASTER_BELOW,
        },
        idle_ms: above.idle_ms,
        stuck_ms: above.stuck_ms,
    };
    match points_of(alloc, &layout.plan, number) {
        Some(points) => {
            let outstation = Outstation::new(points, lanes, outputs, layout.plan.times);
            Some(OutstationNode::new(alloc, outstation, callee))
        }
        None => None,
    }
}

/// Counts the events that are lost with these lanes, and empties them.
fn lose<L: Lanes>(alloc: Global, lanes: &mut L, lost: &mut [u64; LANES]) {
    for (number, count) in lost.iter_mut().enumerate() {
        if let Some(lane) = Lane::numbered(number) {
            *count = u64::from(lanes.len(lane));
        }
    }
    let _rows = lanes.empty(alloc);
}

impl Measures for Below {
    fn begun(alloc: Global, layout: &Layout, number: u8) -> Option<Self> {
        let substations = layout.plan.substations.as_slice();
        let substation = substations.get(usize::from(number))?;
        if !substation.keeps_limits() {
            return None;
        }
        let lanes = RingLanes::new(alloc, substation.lanes).ok()?;
        let outputs = PlainOutputs::new(alloc, substation.outputs, substation.setpoints);
        below_over(alloc, layout, number, lanes, outputs)
    }

    fn again(
        self,
        alloc: Global,
        layout: &Layout,
        number: u8,
        is_lost: bool,
        lost: &mut [u64; LANES],
    ) -> Option<Self> {
        let (mut lanes, outputs) = self.into_outstation().into_parts();
        if is_lost {
            lose(alloc, &mut lanes, lost);
        }
        below_over(alloc, layout, number, lanes, outputs)
    }

    fn points(&self) -> &PointDb {
        self.points()
    }

    fn operated(&self) -> &[Command] {
        self.outputs().operated()
    }

    fn count_lane(&mut self, lane: Lane) -> LaneCount {
        LaneCount {
            waiting: u64::from(self.waiting(lane)),
            below: self.dropped(lane),
            middle: 0,
        }
    }

    fn change(&mut self, now: u64, change: &Change) -> Result<(), ChangeFault> {
        self.change(now, change)
    }
}

impl<Q: PairLanes + Store, B: Book + Store> Program for ConcentratorNode<Q, B> {
    type Events = Q;

    type Book = B;

    fn over(
        alloc: Global,
        layout: &Layout,
        _number: u8,
        stores: (Q, B),
        start: Start,
    ) -> Option<Self> {
        if !layout.plan.keeps_limits() {
            return None;
        }
        let mut below = Vec::new(alloc);
        if put_below(layout, &mut below).is_err() {
            return None;
        }
        let (queue, book) = stores;
        let concentrator = Concentrator::new(alloc, &layout.plan, queue, book).ok()?;
        let above = above_plan(&layout.plan, layout.polling_above(0));
        ConcentratorNode::new(alloc, concentrator, &below, above, start.at, start.clock).ok()
    }

    fn into_stores(self) -> (Q, B) {
        self.into_concentrator().into_stores()
    }

    fn set_clock(&mut self, clock: u64) {
        self.set_clock(clock);
    }

    fn controls(&mut self, alloc: Global) -> Result<Vec<Entry>, BookFault> {
        self.controls(alloc, 0, usize::MAX)
    }
}

impl<Q: PairLanes + Store, B: Book + Store> Gathers for ConcentratorNode<Q, B> {
    fn count_lane(&mut self, centre: u8, lane: Lane) -> LaneCount {
        if centre >= CENTRES {
            return LaneCount::NOTHING;
        }
        LaneCount {
            waiting: u64::from(self.waiting(centre, lane)),
            below: 0,
            middle: self.dropped(centre, lane),
        }
    }

    fn points_above(&self, centre: u8) -> Option<&PointDb> {
        if centre < CENTRES {
            Some(self.points_above(centre))
        } else {
            None
        }
    }
}

impl<J: JournalStore + Store, B: Book + Store> Program for CentreNode<J, B> {
    type Events = J;

    type Book = B;

    fn over(
        alloc: Global,
        layout: &Layout,
        number: u8,
        stores: (J, B),
        start: Start,
    ) -> Option<Self> {
        if !layout.plan.keeps_limits() || number >= CENTRES {
            return None;
        }
        let polling = layout.polling_above(number);
        let caller = CallerPlan {
            slot: Slot::Below(0),
            ends: Ends {
                own: centre_address(number),
                peer: CONCENTRATOR_ABOVE,
            },
            pace: polling.pace,
            classes: polling.classes,
        };
        let (journal, book) = stores;
        let centre = Centre::new(alloc, &layout.plan, journal, book).ok()?;
        Some(CentreNode::new(alloc, centre, caller, start.at, start.clock))
    }

    fn into_stores(self) -> (J, B) {
        self.into_centre().into_stores()
    }

    fn set_clock(&mut self, clock: u64) {
        self.set_clock(clock);
    }

    fn controls(&mut self, alloc: Global) -> Result<Vec<Entry>, BookFault> {
        self.controls(alloc, 0, usize::MAX)
    }
}

impl<J: JournalStore + Store, B: Book + Store> Keeps for CentreNode<J, B> {
    fn rows(&mut self, alloc: Global, from: u64) -> Result<Vec<Numbered>, StoreFault> {
        if self.journal_len() <= from {
            return Ok(Vec::new(alloc));
        }
        self.journal_rows(alloc, from, PAGE)
    }

    fn issue(&mut self, now: u64, substation: u8, command: &Command) -> Result<u64, IssueFault> {
        self.issue(now, substation, command)
    }
}
