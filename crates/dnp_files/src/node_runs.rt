//! A concentrator on connections that stand, over one loop. Its node decides what is asked when.

use crate::accounts::{drops_of_node, no_memory, substation_points};
use crate::asked::Whom;
use crate::driving::Drivings;
use crate::links::{Commanding, Links, command_in};
use crate::making::Making;
use crate::rounds::Rounds;
use crate::sites::Served;
use crate::voice::Voice;
use dnp_concentrator::Concentrator;
use dnp_controls::Book;
use dnp_eventbuf::PairLanes;
use dnp_loop::{Handler, LogBuffer, NodeLoop, Notices, StandardError, moment};
use dnp_nodes::{AbovePlan, BelowPlan, ConcentratorNode, Ends, Node, Report, Slot};
use dnp_notices::{DropLine, Dropping, Drops, Peer};
use dnp_objects::Command;
use dnp_tcp::{exit, no_port, say_listening, utc};
use dnp_terminal::Terminal;
use std::alloc::{AllocError, Global};
use std::net::Net;
use std::process::ExitCode;
use std::rt::Clock;

/// How often a centre may poll in vain until its connection is idle.
const IDLE_POLLS: u64 = 3;

/// The link addresses of the ends of a link, as the station here sees it which takes these frames.
pub(crate) fn ends_of(taken: dnp_notices::Ends) -> Ends {
    Ends {
        own: taken.dest,
        peer: taken.source,
    }
}

/// How long no fragment of a centre may come whole, in milliseconds.
fn idle_ms(drivings: &Drivings<'_>) -> u64 {
    drivings.above.pace.keepalive_ms.saturating_mul(IDLE_POLLS)
}

/// What the links of a concentrator begin with.
struct Beginning<'b, R> {
    /// How those to the substations are driven.
    below: Vec<BelowPlan>,
    /// What is known of all of them.
    links: Links<'b, R>,
}

impl<R> Drop for Beginning<'_, R> {
    /// One call for whoever lets it go.
    fn drop(self) {
        let Beginning { below: _, links: _ } = self;
    }
}

/// Adds how the links to the substations are driven.
fn add_plans(
    plans: &mut Vec<BelowPlan>,
    rounds: &Rounds<'_>,
    drivings: &Drivings<'_>,
) -> Result<(), AllocError> {
    for (number, driving) in drivings.below.iter().enumerate() {
        let number = u8::try_from(number).unwrap_or(u8::MAX);
        if let Some(target) = rounds.substations.target(number) {
            plans.push(BelowPlan {
                ends: ends_of(target.awaited),
                pace: driving.pace,
                classes: driving.classes,
            })?;
        }
    }
    Ok(())
}

/// How the links of the centres are driven.
fn above_plan(rounds: &Rounds<'_>, drivings: &Drivings<'_>) -> AbovePlan {
    let first = ends_of(rounds.first.taken);
    AbovePlan {
        first,
        second: match rounds.second {
            Some(second) => ends_of(second.taken),
            None => first,
        },
        idle_ms: idle_ms(drivings),
        stuck_ms: drivings.above.pace.poll_ms,
    }
}

/// Nothing is known of the substations yet. Nothing is told if there is no memory for them.
fn ask_below<R: AllocGlobal>(
    links: &mut Links<'_, R>,
    rounds: &Rounds<'_>,
    drivings: &Drivings<'_>,
    now: u64,
) -> Option<()> {
    let response_ms = rounds.plan.times.response_ms;
    for (number, substation) in rounds.plan.substations.as_slice().iter().enumerate() {
        let number = u8::try_from(number).unwrap_or(u8::MAX);
        let target = rounds.substations.target(number)?;
        let driving = drivings.below.get(usize::from(number))?;
        let whom = Whom::at(Peer::Substation(number), target, response_ms, driving);
        let points = substation_points(links.rt.alloc(), substation)?;
        links.ask(whom, points, now)?;
    }
    Some(())
}

impl<'b, R: AllocGlobal> Beginning<'b, R> {
    /// A concentrator without links.
    fn new(rt: &'b R, rounds: &Rounds<'b>) -> Beginning<'b, R> {
        Beginning {
            below: Vec::new(rt.alloc()),
            links: Links::new(rt, rounds.names),
        }
    }

    /// Adds the links, of which nothing is known yet. Nothing is told if there is no memory for them.
    fn add_links(&mut self, rounds: &Rounds<'_>, drivings: &Drivings<'_>, now: u64) -> Option<()> {
        add_plans(&mut self.below, rounds, drivings).ok()?;
        ask_below(&mut self.links, rounds, drivings, now)?;
        let idle = idle_ms(drivings) / 1_000;
        self.links.serve(rounds.first, idle)?;
        match rounds.second {
            Some(second) => self.links.serve(second, idle),
            None => Some(()),
        }
    }
}

/// Listens where a centre is served, and says so. If the place can't be had, that is said, and the exit status is told.
fn listen<R: Net + Eprint + Terminal + Clock>(
    rt: &R,
    turns: &mut NodeLoop,
    centre: u8,
    served: Served,
) -> Result<(), ExitCode> {
    let Served { place, taken } = served;
    match turns.listen(rt, Slot::Above(centre), place.address()) {
        Ok(()) => {
            say_listening(rt, place.address(), taken);
            Ok(())
        }
        Err(cause) => Err(no_port(rt, place, &cause)),
    }
}

/// Gives the loop a place for each substation and each centre that is served.
fn add_places<R: Net + AllocGlobal + Eprint + Terminal + Clock>(
    rt: &R,
    turns: &mut NodeLoop,
    rounds: &Rounds<'_>,
) -> Result<(), ExitCode> {
    listen(rt, turns, 0, rounds.first)?;
    if let Some(second) = rounds.second {
        listen(rt, turns, 1, second)?;
    }
    for number in 0..rounds.plan.substations.as_slice().len() {
        let number = u8::try_from(number).unwrap_or(u8::MAX);
        if let Some(target) = rounds.substations.target(number)
            && turns
                .call(Slot::Below(number), target.place.address())
                .is_err()
        {
            return Err(no_memory(rt));
        }
    }
    Ok(())
}

impl<Q: PairLanes, B: Book> Commanding for ConcentratorNode<Q, B> {
    fn command(&mut self, alloc: Global, id: u64) -> Option<Command> {
        command_in(self.controls(alloc, id.saturating_sub(1), 1))
    }
}

/// What a concentrator's program does between two turns: it sets the node's clock, and says what has changed.
struct Between<'b, 'l, R> {
    /// What is known of its links.
    links: &'b mut Links<'l, R>,
    /// Whether rows for each centre are being dropped.
    drops: [Dropping; 2],
}

impl<R> Drop for Between<'_, '_, R> {
    /// One call for whoever lets it go.
    fn drop(self) {
        let Between { links: _, drops: _ } = self;
    }
}

impl<R: AllocGlobal + Terminal + Clock> Between<'_, '_, R> {
    /// Says whether rows for a centre have begun to be dropped, or that has ended.
    fn look_at(&mut self, voice: &mut Voice<'_, R>, centre: u8, drops: Drops) {
        let Some(dropping) = self.drops.get_mut(usize::from(centre)) else {
            return;
        };
        if let Some(notice) = dropping.notice(drops) {
            voice.say(&DropLine { centre, notice });
        }
        *dropping = dropping.after(drops);
    }

    /// Says so of both centres.
    fn look_at_both(&mut self, log: &mut LogBuffer, first: Drops, second: Drops) {
        let mut voice = Voice {
            rt: self.links.rt,
            names: self.links.names,
            log,
            failed: None,
        };
        self.look_at(&mut voice, 0, first);
        self.look_at(&mut voice, 1, second);
    }
}

/// Whether a lane has begun to drop events, or that has ended.
fn tells_drops(reports: &[Report]) -> bool {
    for report in reports {
        if matches!(report, Report::DropsBegun(..) | Report::DropsEnded(..)) {
            return true;
        }
    }
    false
}

impl<Q: PairLanes, B: Book, R: AllocGlobal + Terminal + Clock> Handler<ConcentratorNode<Q, B>>
    for Between<'_, '_, R> {
    fn handle(
        &mut self,
        node: &mut ConcentratorNode<Q, B>,
        notices: &Notices,
        log: &mut LogBuffer,
        now: u64,
    ) -> Option<u64> {
        let clock = utc(self.links.rt).saturating_sub(now);
        node.set_clock(clock);
        if tells_drops(node.reports()) || node.missed() > 0 {
            let first = drops_of_node(node, 0);
            let second = drops_of_node(node, 1);
            self.look_at_both(log, first, second);
        }
        self.links.take(node, notices, log, now)
    }
}

/// Runs a concentrator on connections that stand, and gives it back with the exit status once the loop has ended. If it can't begin, the
/// exit status alone is told.
pub(crate) fn run_standing<Q: PairLanes + Drop, B: Book + Drop, R>(
    rt: &R,
    concentrator: Concentrator<Q, B>,
    rounds: &Rounds<'_>,
    drivings: &Drivings<'_>,
    making: &Making<'_>,
) -> Result<(ExitCode, Concentrator<Q, B>), ExitCode>
where
    R: AllocGlobal + Eprint + Terminal + Clock + Net + StandardError,
{
    let now = moment(rt, 0);
    let mut begun = Beginning::new(rt, rounds);
    if begun.add_links(rounds, drivings, now).is_none() {
        return Err(no_memory(rt));
    }
    let clock = utc(rt).saturating_sub(now);
    let above = above_plan(rounds, drivings);
    match ConcentratorNode::new(rt.alloc(), concentrator, &begun.below, above, now, clock) {
        Ok(mut node) => {
            let status = run_loop(rt, &mut node, &mut begun.links, rounds, making);
            Ok((status, node.into_concentrator()))
        }
        Err(_) => Err(no_memory(rt)),
    }
}

/// Makes the loop, and its turns until it ends. The exit status is told.
fn run_loop<Q: PairLanes, B: Book, R>(
    rt: &R,
    node: &mut ConcentratorNode<Q, B>,
    links: &mut Links<'_, R>,
    rounds: &Rounds<'_>,
    making: &Making<'_>,
) -> ExitCode
where
    R: AllocGlobal + Eprint + Terminal + Clock + Net + StandardError,
{
    let Ok(mut turns) = NodeLoop::new(rt) else {
        return no_memory(rt);
    };
    if let Err(status) = add_places(rt, &mut turns, rounds) {
        return status;
    }
    making.begin();
    let first = drops_of_node(node, 0).lost;
    let second = drops_of_node(node, 1).lost;
    let drops = [Dropping::Calm(first), Dropping::Calm(second)];
    let mut between = Between { links, drops };
    // (a loop that ends has a failure for its reason, which is said)
    let _ = turns.run(rt, node, &mut between);
    ExitCode::from(exit::FAULT)
}
