//! A system of a plan that a script runs on, watched unit by unit.
//!
//! It is a run of its own beside the one that is reported: what clears a line loses its units one by one here before, so
//! that each of them is seen.

ghost use Rattle.dnp_concentrator.specs.Plan.{KeepsLimits};

use dnp_concentrator::Plan;
use dnp_daemons::{PlainWorld, ScriptLine, plain_world};
use dnp_eventbuf::CENTRES;
use dnp_trace::{Course, Log, Peer, What};
use dnp_world::{Carrier, Cause, End, Event, Link, Place, Way};
use std::alloc::Global;
use std::slice;

/// What is noted of a system, also while its units are carried.
#[derive(Drop)]
struct Watcher {
    /// What was noted.
    log: Log,
    /// How many substations there are.
    substations: u8,
}

impl Carrier for Watcher {
    ghost use Rattle.std.specs.Prelude.{⊤};

    ghost carries = { λ _ _ _ _ _. ⊤ };

    ghost refuses = { λ _ _ _. ⊥ };

    fn carry(&mut self, on: Link, way: Way, unit: &[u8]) -> Result<(), Cause> {
        self.log.carried(course_of(on, way), unit);
        Ok(())
    }
}

/// The line of this way of the link.
fn course_of(on: Link, way: Way) -> Course {
    let peer = match on {
        Link::Below(number) => Peer::Substation(number),
        Link::Above(0) => Peer::Centre,
        Link::Above(_) => Peer::SecondCentre,
    };
    Course {
        peer,
        up: way == Way::Up,
    }
}

/// Notes what stands on a line.
fn look_at(world: &PlainWorld, watcher: &mut Watcher, on: Link, way: Way) {
    watcher.log.stands(
        course_of(on, way),
        world.standing(on, way),
        world.front(on, way),
    );
}

/// Notes what stands on all lines: of the substations, and then of the links above.
fn look(world: &PlainWorld, watcher: &mut Watcher) {
    for number in 0..watcher.substations {
        look_at(world, watcher, Link::Below(number), Way::Down);
        look_at(world, watcher, Link::Below(number), Way::Up);
    }
    for centre in 0..CENTRES {
        look_at(world, watcher, Link::Above(centre), Way::Down);
        look_at(world, watcher, Link::Above(centre), Way::Up);
    }
}

/// Takes what stands on a line off it, one unit after the other, and notes that it came to this.
fn empty(
    alloc: Global,
    world: &mut PlainWorld,
    watcher: &mut Watcher,
    on: Link,
    way: Way,
    what: What,
) -> Result<(), Cause> {
    for _ in 0..world.standing(on, way) {
        if world.standing(on, way) == 0 {
            break;
        }
        look_at(world, watcher, on, way);
        watcher.log.front_comes_to(course_of(on, way), what);
        happens(alloc, world, &Event::Lose(on, way))?;
    }
    // A line breaks at its 32nd loss in a row: what is left comes to this too, unseen.
    for _ in 0..watcher.log.standing(course_of(on, way)) {
        watcher.log.front_comes_to(course_of(on, way), what);
    }
    Ok(())
}

/// An event happens.
fn happens(alloc: Global, world: &mut PlainWorld, event: &Event) -> Result<(), Cause> {
    match world.run(alloc, slice::from_ref(event)) {
        Ok(()) => Ok(()),
        Err(stopped) => Err(stopped.cause),
    }
}

/// An end of a link hangs up, so that the line towards it is cleared.
fn hang_up(
    alloc: Global,
    world: &mut PlainWorld,
    watcher: &mut Watcher,
    on: Link,
    end: End,
) -> Result<(), Cause> {
    let way = match end {
        End::Master => Way::Up,
        End::Outstation => Way::Down,
    };
    empty(alloc, world, watcher, on, way, What::Dropped)
}

/// A station starts again, so that all its ends hang up.
fn restart(
    alloc: Global,
    world: &mut PlainWorld,
    watcher: &mut Watcher,
    place: Place,
) -> Result<(), Cause> {
    match place {
        Place::Centre(centre) => {
            hang_up(alloc, world, watcher, Link::Above(centre), End::Master)
        }
        Place::Concentrator => {
            for number in 0..watcher.substations {
                hang_up(alloc, world, watcher, Link::Below(number), End::Master)?;
            }
            for centre in 0..CENTRES {
                hang_up(alloc, world, watcher, Link::Above(centre), End::Outstation)?;
            }
            Ok(())
        }
        Place::Substation(number) => {
            hang_up(alloc, world, watcher, Link::Below(number), End::Outstation)
        }
    }
}

/// Notes what an event is about to do to a front unit, and looks at the lines that it clears.
fn foresee(
    alloc: Global,
    world: &mut PlainWorld,
    watcher: &mut Watcher,
    event: &Event,
) -> Result<(), Cause> {
    match event {
        Event::Open(on) => {
            empty(alloc, world, watcher, *on, Way::Down, What::Dropped)?;
            empty(alloc, world, watcher, *on, Way::Up, What::Dropped)?;
        }
        Event::HangUp(on, end) => hang_up(alloc, world, watcher, *on, *end)?,
        Event::Restart(place) => restart(alloc, world, watcher, *place)?,
        Event::Deliver(on, way) => watcher
            .log
            .front_comes_to(course_of(*on, *way), What::Arrives),
        Event::Repeat(on, way) => watcher
            .log
            .front_comes_to(course_of(*on, *way), What::Repeated),
        Event::Lose(on, way) => watcher.log.front_comes_to(course_of(*on, *way), What::Lost),
        Event::Pass(ms) => watcher.log.pass(*ms),
        _ => {}
    }
    Ok(())
}

/// An event happens, and what it does is noted.
fn step(
    alloc: Global,
    world: &mut PlainWorld,
    watcher: &mut Watcher,
    event: &Event,
) -> Result<(), Cause> {
    foresee(alloc, world, watcher, event)?;
    happens(alloc, world, event)?;
    if let Event::Damage(on, way, _) = event
        && world.standing(*on, *way) < watcher.log.standing(course_of(*on, *way))
    {
        watcher
            .log
            .front_comes_to(course_of(*on, *way), What::Damaged);
    }
    look(world, watcher);
    Ok(())
}

/// Delivers each unit that stands on this way of the link.
fn flush(
    alloc: Global,
    world: &mut PlainWorld,
    watcher: &mut Watcher,
    on: Link,
    way: Way,
) -> Result<(), Cause> {
    for _ in 0..world.standing(on, way) {
        step(alloc, world, watcher, &Event::Deliver(on, way))?;
    }
    Ok(())
}

/// Does what a line of a script asks for. A round or a control that is refused does nothing, or less.
fn run_line(
    alloc: Global,
    world: &mut PlainWorld,
    watcher: &mut Watcher,
    line: &ScriptLine,
) -> Result<(), Cause> {
    match line {
        ScriptLine::One(event) => return step(alloc, world, watcher, event),
        ScriptLine::Flush(on, way) => return flush(alloc, world, watcher, *on, *way),
        ScriptLine::Round(on) => {
            let _ = world.clean_round_by(alloc, *on, watcher);
        }
        ScriptLine::Control(centre, id) => {
            let _ = world.clean_control_by(alloc, centre.number(), *id, watcher);
        }
    }
    watcher.log.settle();
    look(world, watcher);
    Ok(())
}

/// Runs the lines of a script, up to the first at which memory runs out, and looks at what stands on the lines then.
fn run_lines(
    alloc: Global,
    world: &mut PlainWorld,
    watcher: &mut Watcher,
    script: &[ScriptLine],
    text: &str,
) -> Result<(), Cause> {
    let mut names = text.lines();
    for line in script {
        watcher.log.begin_line(names.next().unwrap_or(""));
        run_line(alloc, world, watcher, line)?;
    }
    for number in 0..watcher.substations {
        look_last(alloc, world, watcher, Link::Below(number))?;
    }
    for centre in 0..CENTRES {
        look_last(alloc, world, watcher, Link::Above(centre))?;
    }
    Ok(())
}

/// Notes what stands on both lines of a link at the end.
fn look_last(
    alloc: Global,
    world: &mut PlainWorld,
    watcher: &mut Watcher,
    on: Link,
) -> Result<(), Cause> {
    empty(alloc, world, watcher, on, Way::Down, What::Stands)?;
    empty(alloc, world, watcher, on, Way::Up, What::Stands)
}

/// Runs a script, whose text this is, on a new system of the plan, and notes what units do. None where memory ran out.
pub(crate) fn watch(alloc: Global, plan: &Plan, script: &[ScriptLine], text: &str) -> Option<Log>
    requires { KeepsLimits plan.now }
{
    let Ok(mut world) = plain_world(alloc, plan) else {
        return None;
    };
    let substations = u8::try_from(plan.substations.as_slice().len()).unwrap_or(0);
    let mut watcher = Watcher {
        log: Log::new(alloc, substations),
        substations,
    };
    let _ = run_lines(alloc, &mut world, &mut watcher, script, text);
    let Watcher { log, .. } = watcher;
    Some(log)
}
