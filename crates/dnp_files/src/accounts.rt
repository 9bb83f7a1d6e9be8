//! What is known of the stations that are asked, from poll to poll, with the points that they have by the plan.

ghost use Rattle.std.specs.Prelude.{◌<◌};

use crate::lines::Line;
use dnp_concentrator::{Cause, Plan, SubPlan};
use dnp_eventbuf::{CENTRES, PairLanes};
use dnp_nodes::ConcentratorNode;
use dnp_notices::{DropLine, Dropping, Drops};
use dnp_objects::{Kind, LANES, Lane};
use dnp_pointdb::{Block, Point, PointPlan, Points};
use dnp_tcp::{Account, exit, say};
use dnp_terminal::Terminal;
use std::alloc::{AllocError, Global};
use std::process::ExitCode;
use std::rt::Clock;
use std::slice;

/// What is known of each substation, by its number, and of the rows for each centre that the queue drops.
#[derive(Drop)]
pub(crate) struct Accounts {
    /// One for each substation.
    accounts: Vec<Account>,
    /// Whether rows for the first centre are being dropped.
    first: Dropping,
    /// Whether rows for the second centre are.
    second: Dropping,
}

impl Accounts {
    /// None of the plan's substations was asked yet, and no row of the queue was dropped since; nothing where there is no memory for
    /// that.
    pub(crate) fn below<Q: PairLanes>(
        alloc: Global,
        plan: &Plan,
        queue: &mut Q,
    ) -> Option<Accounts> {
        let mut accounts = Vec::new(alloc);
        for substation in plan.substations.as_slice() {
            let points = substation_points(alloc, substation)?;
            accounts.push(Account::new(points)).ok()?;
        }
        Some(Accounts {
            accounts,
            first: Dropping::Calm(drops_of(queue, 0).lost),
            second: Dropping::Calm(drops_of(queue, 1).lost),
        })
    }

    /// That of the substation with this number, if the plan has it.
    pub(crate) fn of(&mut self, substation: u8) -> Option<&mut Account> {
        self.accounts.get_mut(usize::from(substation))
    }

    /// Looks whether rows of the queue are dropped, and says where that has begun or ended.
    pub(crate) fn look_at<Q: PairLanes, R: Eprint + Terminal + Clock>(
        &mut self,
        rt: &R,
        queue: &mut Q,
    ) {
        let (first, second) = (drops_of(queue, 0), drops_of(queue, 1));
        self.first = followed(rt, 0, self.first, first);
        self.second = followed(rt, 1, self.second, second);
    }
}

/// What the queue for a centre says of the rows that its full lanes dropped.
fn drops_of<Q: PairLanes>(queue: &mut Q, centre: u8) -> Drops
    requires { centre < CENTRES }
{
    let mut lost = 0u64;
    for number in 0..LANES {
        if let Some(lane) = Lane::numbered(number) {
            lost = lost.saturating_add(queue.lost(centre, lane));
        }
    }
    Drops {
        is_full: queue.raised(centre),
        lost,
    }
}

/// What the queue of a node for a centre says of the rows that its full lanes dropped.
pub(crate) fn drops_of_node<Q: PairLanes, B>(node: &mut ConcentratorNode<Q, B>, centre: u8) -> Drops
    requires { centre < CENTRES }
{
    let mut lost = 0u64;
    for number in 0..LANES {
        if let Some(lane) = Lane::numbered(number) {
            lost = lost.saturating_add(node.dropped(centre, lane));
        }
    }
    Drops {
        is_full: node.is_dropping(centre),
        lost,
    }
}

/// Says that rows for a centre have begun to be dropped, or that it has ended, and tells whether they are.
fn followed<R: Eprint + Terminal + Clock>(
    rt: &R,
    centre: u8,
    before: Dropping,
    drops: Drops,
) -> Dropping {
    if let Some(notice) = before.notice(drops) {
        say(rt, &DropLine { centre, notice });
    }
    before.after(drops)
}

/// The concentrator, of which nothing was asked yet, with the points that it has above; nothing where there is no memory for that.
pub(crate) fn above(alloc: Global, plan: &Plan) -> Option<Account> {
    let points = points_above(alloc, plan)?;
    Some(Account::new(points))
}

/// The points that the concentrator has above; nothing where there is no memory for them.
pub(crate) fn points_above(alloc: Global, plan: &Plan) -> Option<PointPlan> {
    points_of(alloc, plan.substations.as_slice(), true)
}

/// The points of a substation; nothing where there is no memory for them.
pub(crate) fn substation_points(alloc: Global, substation: &SubPlan) -> Option<PointPlan> {
    points_of(alloc, slice::from_ref(substation), false)
}

/// Says on standard error that memory ran out, and gives the exit status of a fault.
pub(crate) fn no_memory<R: Eprint + Terminal + Clock>(rt: &R) -> ExitCode {
    say(rt, &Line::Failed(Cause::Memory));
    ExitCode::from(exit::FAULT)
}

/// The points of these substations, with the indices above or their own; nothing where there is no memory for them.
fn points_of(alloc: Global, substations: &[SubPlan], is_above: bool) -> Option<PointPlan> {
    let binary = blocks_of(alloc, substations, Kind::Binary, is_above).ok()?;
    let counter = blocks_of(alloc, substations, Kind::Counter, is_above).ok()?;
    let analog = blocks_of(alloc, substations, Kind::Analog, is_above).ok()?;
    PointPlan::new(binary, counter, analog).ok()
}

/// The points of a kind of these substations, a block for each.
fn blocks_of(
    alloc: Global,
    substations: &[SubPlan],
    kind: Kind,
    is_above: bool,
) -> Result<Vec<Block>, AllocError> {
    let mut blocks = Vec::new(alloc);
    for substation in substations {
        let (base, classes) = match kind {
            Kind::Binary => (substation.base[0], substation.binary.as_slice()),
            Kind::Counter => (substation.base[1], substation.counter.as_slice()),
            Kind::Analog => (substation.base[2], substation.analog.as_slice()),
        };
        let base = if is_above { base } else { 0 };
        blocks.push(block_of(alloc, base, classes)?)?;
    }
    Ok(blocks)
}

/// Points of these classes, whose indices begin with this one.
fn block_of(alloc: Global, base: u16, classes: &[u8]) -> Result<Block, AllocError> {
    let mut points = Vec::new(alloc);
    for class in classes {
        let class = *class;
        points.push(Point { class, deadband: 0 })?;
    }
    let points = Points::new(points);
    Ok(Block { base, points })
}
