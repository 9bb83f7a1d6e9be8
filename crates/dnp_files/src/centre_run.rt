//! A centre on a connection that stands, over one loop. Its node decides what is asked when.

use crate::accounts::{no_memory, points_above};
use crate::asked::Whom;
use crate::driving::Driving;
use crate::links::{Commanding, Links, command_in};
use crate::node_runs::ends_of;
use crate::polls::Polls;
use dnp_concentrator::Centre;
use dnp_controls::Book;
use dnp_eventbuf::JournalStore;
use dnp_loop::{Handler, LogBuffer, NodeLoop, Notices, StandardError, moment};
use dnp_nodes::{CallerPlan, CentreNode, Slot};
use dnp_notices::Peer;
use dnp_objects::Command;
use dnp_tcp::{exit, utc};
use dnp_terminal::Terminal;
use std::alloc::Global;
use std::net::Net;
use std::process::ExitCode;
use std::rt::Clock;

/// The place of the link to the concentrator.
const CONCENTRATOR: Slot = Slot::Below(0);

/// How the link to the concentrator is driven.
fn caller_plan(polls: &Polls<'_>, driving: &Driving) -> CallerPlan {
    CallerPlan {
        slot: CONCENTRATOR,
        ends: ends_of(polls.concentrator.awaited),
        pace: driving.pace,
        classes: driving.classes,
    }
}

/// Nothing is known of the concentrator yet. Nothing is told if there is no memory for it.
fn ask_above<R: AllocGlobal>(
    links: &mut Links<'_, R>,
    polls: &Polls<'_>,
    driving: &Driving,
    now: u64,
) -> Option<()> {
    let response_ms = polls.plan.times.response_ms;
    let whom = Whom::at(Peer::Concentrator, polls.concentrator, response_ms, driving);
    let points = points_above(links.rt.alloc(), polls.plan)?;
    links.ask(whom, points, now)
}

impl<J: JournalStore, B: Book> Commanding for CentreNode<J, B> {
    fn command(&mut self, alloc: Global, id: u64) -> Option<Command> {
        command_in(self.controls(alloc, id.saturating_sub(1), 1))
    }
}

impl<J: JournalStore, B: Book, R: AllocGlobal + Terminal + Clock> Handler<CentreNode<J, B>>
    for Links<'_, R> {
    /// Between two turns the node's clock is set, and what has changed is said.
    fn handle(
        &mut self,
        node: &mut CentreNode<J, B>,
        notices: &Notices,
        log: &mut LogBuffer,
        now: u64,
    ) -> Option<u64> {
        node.set_clock(utc(self.rt).saturating_sub(now));
        self.take(node, notices, log, now)
    }
}

/// Runs a centre on a connection that stands, and gives it back with the exit status once the loop has ended. If it can't begin, the
/// exit status alone is told.
pub(crate) fn run_standing_centre<J: JournalStore + Drop, B: Book + Drop, R>(
    rt: &R,
    centre: Centre<J, B>,
    polls: &Polls<'_>,
    driving: &Driving,
) -> Result<(ExitCode, Centre<J, B>), ExitCode>
where
    R: AllocGlobal + Eprint + Terminal + Clock + Net + StandardError,
{
    let now = moment(rt, 0);
    let mut links = Links::new(rt, polls.names);
    if ask_above(&mut links, polls, driving, now).is_none() {
        return Err(no_memory(rt));
    }
    let clock = utc(rt).saturating_sub(now);
    let plan = caller_plan(polls, driving);
    let mut node = CentreNode::new(rt.alloc(), centre, plan, now, clock);
    let status = run_loop(rt, &mut node, &mut links, polls);
    Ok((status, node.into_centre()))
}

/// Makes the loop, and its turns until it ends. The exit status is told.
fn run_loop<J: JournalStore, B: Book, R>(
    rt: &R,
    node: &mut CentreNode<J, B>,
    links: &mut Links<'_, R>,
    polls: &Polls<'_>,
) -> ExitCode
where
    R: AllocGlobal + Eprint + Terminal + Clock + Net + StandardError,
{
    let Ok(mut turns) = NodeLoop::new(rt) else {
        return no_memory(rt);
    };
    let address = polls.concentrator.place.address();
    if turns.call(CONCENTRATOR, address).is_err() {
        return no_memory(rt);
    }
    // (a loop that ends has a failure for its reason, which is said)
    let _ = turns.run(rt, node, links);
    ExitCode::from(exit::FAULT)
}
