//! The node of a concentrator.

ghost use Rattle.std.specs.Prelude.{◌≡◌, ◌<◌, IfOk, length, min, option_copied, option_map, slice_get};
ghost use Rattle.dnp_concentrator.specs.Concentrator.{core_of};
ghost use Rattle.dnp_nodes.specs.Callers.{schedule_of};
ghost use Rattle.dnp_nodes.specs.ConcentratorNodes.{above_in, below_in, concentrator_in};

mod lent;
mod links;
mod places;
mod shown;

use crate::callee::{Callee, CalleePlan};
use crate::caller::{Caller, CallerPlan};
use crate::drops::Drops;
use crate::requests::LinkClasses;
use crate::shared::Shared;
use crate::slot::{Ends, Slot};
use dnp_concentrator::{Concentrator, PerCentre};
use dnp_eventbuf::{CENTRES, PairLanes};
use dnp_pointdb::PointDb;
use dnp_schedule::{Pace, Schedule};
use std::alloc::{AllocError, Global};

/// How the link to a substation is driven.
#[derive(Clone, Copy, Debug, PartialEq, Eq)]
pub struct BelowPlan {
    /// The link addresses of its ends.
    pub ends: Ends,
    /// How often it is asked, and how long anything may take.
    pub pace: Pace,
    /// Which classes it is asked.
    pub classes: LinkClasses,
}

/// How the links of the centres are driven.
#[derive(Clone, Copy, Debug, PartialEq, Eq)]
pub struct AbovePlan {
    /// The link addresses of the ends of the first centre's link.
    pub first: Ends,
    /// Those of the second centre's.
    pub second: Ends,
    /// How long no fragment may come whole, in milliseconds.
    pub idle_ms: u64,
    /// How long octets may wait of which none is taken, in milliseconds.
    pub stuck_ms: u64,
}

/// A concentrator, connections to the substations below, and one connection of each centre above.
pub struct ConcentratorNode<Q, B> {
    /// The concentrator.
    concentrator: Concentrator<Q, B>,
    /// The links to the substations, by their numbers.
    below: Vec<Caller>,
    /// The links of the centres.
    above: PerCentre<Callee>,
    /// What the queue drops for each centre.
    drops: PerCentre<Drops>,
    /// What the links use.
    shared: Shared,
}

impl<Q: Drop, B: Drop> Drop for ConcentratorNode<Q, B> {
    /// One call for whoever lets it go: its parts are looked at here alone.
    fn drop(self) {
        let ConcentratorNode {
            concentrator: _,
            below: _,
            above: _,
            drops: _,
            shared: _,
        } = self;
    }
}

/// The number of a place; 255 for those after it.
fn number_of(place: usize) -> u8
    ensures { result ≡ min place 255 }
{
    u8::try_from(place).unwrap_or(u8::MAX)
}

/// The link to the substation of this number.
fn caller(alloc: Global, number: u8, plan: &BelowPlan, at: u64, clock: u64) -> Caller {
    let plan = CallerPlan {
        slot: Slot::Below(number),
        ends: plan.ends,
        pace: plan.pace,
        classes: plan.classes,
    };
    Caller::new(alloc, plan, at, clock)
}

/// The links to the substations.
fn callers(
    alloc: Global,
    plans: &[BelowPlan],
    at: u64,
    clock: u64,
) -> Result<Vec<Caller>, AllocError> {
    let mut below = Vec::new(alloc);
    for (place, plan) in plans.iter().enumerate() {
        below.push(caller(alloc, number_of(place), plan, at, clock))?;
    }
    Ok(below)
}

/// The link of a centre, whose ends have these link addresses.
fn callee(alloc: Global, centre: u8, ends: Ends, plan: AbovePlan) -> Callee {
    let plan = CalleePlan {
        slot: Slot::Above(centre),
        ends,
        idle_ms: plan.idle_ms,
        stuck_ms: plan.stuck_ms,
    };
    Callee::new(alloc, plan)
}

impl<Q: PairLanes + Drop, B: Drop> ConcentratorNode<Q, B> {
    /// The node of this concentrator, without connections. It has a link below for each of these plans, by the numbers of substations,
    /// which wants to be connected at this moment. At the moment 0 the wall clock shows `clock`, in milliseconds since 1970 UTC.
    ///
    /// # Errors
    /// Out of memory for the links below. Then the concentrator is dropped.
    pub fn new(
        alloc: Global,
        mut concentrator: Concentrator<Q, B>,
        below: &[BelowPlan],
        above: AbovePlan,
        at: u64,
        clock: u64,
    ) -> Result<Self, AllocError>
        ensures concentrator { IfOk result (λ node. concentrator_in node ≡ concentrator) }
    {
        let below = callers(alloc, below, at, clock)?;
        let drops = PerCentre {
            first: Drops::new(concentrator.queue(), 0),
            second: Drops::new(concentrator.queue(), 1),
        };
        Ok(ConcentratorNode {
            concentrator,
            below,
            above: PerCentre {
                first: callee(alloc, 0, above.first, above),
                second: callee(alloc, 1, above.second, above),
            },
            drops,
            shared: Shared::new(alloc),
        })
    }
}

impl<Q, B> ConcentratorNode<Q, B> {
    /// Gives its concentrator, as it stands.
    pub fn into_concentrator(self) -> Concentrator<Q, B>
        ensures { result ≡ concentrator_in self }
    {
        let ConcentratorNode {
            concentrator,
            below: _,
            above: _,
            drops: _,
            shared: _,
        } = self;
        concentrator
    }

    /// Shows the points that a centre reads.
    pub fn points_above(&self, centre: u8) -> &PointDb
        requires { centre < CENTRES }
        ensures { result.now ≡ (core_of centre (concentrator_in self.now)).points }
    {
        self.concentrator.points_above(centre)
    }

    /// Gives the schedule of the link to a substation, if it has that link.
    pub fn schedule(&self, substation: u8) -> Option<&Schedule>
        ensures { option_copied result ≡ option_map (λ link. schedule_of link) (slice_get (below_in self.now) substation) }
    {
        match self.below.get(usize::from(substation)) {
            Some(caller) => Some(caller.schedule()),
            None => None,
        }
    }

    /// The wall clock was set: at the moment 0 it would have shown this, in milliseconds since 1970 UTC.
    pub fn set_clock(&mut self, clock: u64)
        ensures concentrator { concentrator_in self.new ≡ concentrator_in self.old }
        ensures above { above_in self.new ≡ above_in self.old }
        ensures count { length (below_in self.new) ≡ length (below_in self.old) }
    {
        for caller in &mut self.below {
            caller.set_clock(clock);
        }
    }
}
