//! An outstation that lives on connections over TCP: its timers run and its points change while nothing comes. The newest
//! master is served, and one from which nothing whole comes is hung up.

ghost use Rattle.std.specs.Prelude.{◌≡◌, ◌⊎◌, IfErr};
ghost use Rattle.std.specs.Process.{exit_status};

use crate::course::Course;
use crate::door::{Caller, Door, listen};
use crate::exit::{DONE, FAULT};
use crate::fault::unprinted;
use crate::leave::{Leave, prepare};
use crate::lines::{End, Ending, Line, Served, Visited};
use crate::logged::{note, say, say_listening};
use crate::replay::Replay;
use crate::serving::no_port;
use crate::visit::{Visit, WRITE_MS};
use dnp_notices::{Ends, Place};
use dnp_streams::Living;
use dnp_terminal::Terminal;
use std::io;
use std::net::{Net, TcpListener, TcpStream};
use std::process::ExitCode;
use std::rt::Clock;
use std::time::Duration;

/// While changes are due and no master is there, it is looked so often for one, in milliseconds.
const DOOR_MS: u64 = 10;

/// How long it is waited after no master could be had, in milliseconds.
const AFTER_MS: u64 = 1_000;

/// Where a station listens, for how many connections, and how they are served.
#[derive(Clone, Copy)]
pub struct Listening {
    /// The link addresses of the frames that it takes: its master's, and its own.
    pub taken: Ends,
    /// Where it listens.
    pub place: Place,
    /// How many connections it serves; none where it serves without an end.
    pub connections: Option<u64>,
    /// How long a connection may stand in which nothing whole comes, in seconds.
    pub idle: u64,
    /// Whether each request is said in the log.
    pub is_said: bool,
}

/// Makes the changes that are due, while no master is there.
fn make_due<S: Living, R: AllocGlobal + Clock>(rt: &R, station: &mut S, course: &mut Course)
    ensures kept { S.kept station.new ≡ S.kept station.old }
    ensures held { S.honest station.new → S.honest station.old }
{
    course.go_on(rt);
    for _ in 0..u64::MAX {
        let Some(change) = course.next_due(rt) else {
            return;
        };
        // (one that the plan has no point for does nothing, as where a master is there)
        let _ = station.change(rt.alloc(), course.moment, &change);
    }
}

/// The next master. Until it is there, changes are made when they are due.
fn next_caller<S: Living, R: AllocGlobal + Clock>(
    rt: &R,
    station: &mut S,
    door: &Door,
    course: &mut Course,
) -> io::Result<Caller>
    ensures kept { S.kept station.new ≡ S.kept station.old }
    ensures held { S.honest station.new → S.honest station.old }
{
    for _ in 0..u64::MAX {
        make_due(rt, station, course);
        if course.replay.left().is_empty() {
            return door.wait();
        }
        match door.next() {
            Err(cause) if cause.kind() == io::ErrorKind::WouldBlock => {
                rt.sleep(Duration::from_millis(DOOR_MS))
            }
            caller => return caller,
        }
    }
    door.wait()
}

/// Serves connections, prints of each how many fragments came whole, and makes the changes when they become due. Tells the exit
/// status: that of a fault, which is said on standard error, where the port can't be had, memory ran out, or a line was lost.
pub fn live_on_connections<S, R>(
    rt: &R,
    station: &mut S,
    listening: &Listening,
    replay: Replay,
) -> ExitCode
where
    S: Living,
    R: AllocGlobal
        + Print
        + Eprint
        + Terminal
        + Clock
        + Net<Listener = TcpListener, Stream = TcpStream>,
    ensures kept { S.kept station.new ≡ S.kept station.old }
    ensures held { S.honest station.new → S.honest station.old }
    ensures status { (exit_status result ≡ DONE) ⊎ (exit_status result ≡ FAULT) }
{
    let place = listening.place.address();
    let listener = match listen(rt, place) {
        Ok(listener) => listener,
        Err(cause) => return no_port(rt, listening.place, &cause),
    };
    say_listening(rt, place, listening.taken);
    let door = Door::new(listener);
    let mut course = Course::new(rt.alloc(), replay);
    let count = listening.connections.unwrap_or(u64::MAX);
    for number in 0..count {
        let is_last = number == count - 1;
        door.open(!is_last);
        match serve_next(rt, station, listening, &door, &mut course) {
            Ok(()) => {}
            Err(status) => return status,
        }
    }
    say(rt, &Line::Over(count));
    ExitCode::from(DONE)
}

/// Waits for the next master, serves it, and prints how many fragments came whole. Where the program can't go on, the exit
/// status is told.
fn serve_next<S, R>(
    rt: &R,
    station: &mut S,
    listening: &Listening,
    door: &Door,
    course: &mut Course,
) -> Result<(), ExitCode>
where
    S: Living,
    R: AllocGlobal + Print + Eprint + Terminal + Clock,
    ensures kept { S.kept station.new ≡ S.kept station.old }
    ensures held { S.honest station.new → S.honest station.old }
    ensures status { IfErr result (λ status. exit_status status ≡ FAULT) }
{
    let caller = match next_caller(rt, station, door, course) {
        Ok(caller) => caller,
        Err(cause) if listening.connections.is_none() => {
            say(rt, &Line::NoPort(listening.place, &cause));
            rt.sleep(Duration::from_millis(AFTER_MS));
            return Ok(());
        }
        Err(cause) => return Err(no_port(rt, listening.place, &cause)),
    };
    let served = live_on_connection(rt, station, listening, door, &caller, course);
    let Some(fragments) = served else {
        return Err(ExitCode::from(FAULT));
    };
    let served = Served(fragments);
    match println!(rt; "{served}") {
        Ok(()) => Ok(()),
        Err(cause) => Err(unprinted(rt, &cause)),
    }
}

/// Lives on a connection to its end, hangs the station up, and tells how many fragments came whole; nothing where memory
/// ran out. How it ended is said in the log. On a connection that can't be prepared the station is as it was.
fn live_on_connection<S, R>(
    rt: &R,
    station: &mut S,
    listening: &Listening,
    door: &Door,
    caller: &Caller,
    course: &mut Course,
) -> Option<u64>
where
    S: Living,
    R: AllocGlobal + Eprint + Terminal + Clock,
    ensures kept { S.kept station.new ≡ S.kept station.old }
    ensures held { S.honest station.new → S.honest station.old }
{
    let peer = caller.peer;
    note(rt, peer, &Visited::Connected);
    if let Err(cause) = prepare(&caller.stream, WRITE_MS) {
        let how = Ending::Unprepared(&cause);
        note(rt, peer, &End { fragments: 0, how });
        return Some(0);
    }
    let (taken, is_said) = (listening.taken, listening.is_said);
    let idle_ms = listening.idle.saturating_mul(1_000);
    let mut visit = Visit::new(rt, caller, door, taken, idle_ms, is_said);
    let leave = visit.live(station, course);
    visit.tell_noise();
    let fragments = visit.fragments();
    let how = leave.ending(listening.idle);
    note(rt, peer, &End { fragments, how });
    match leave {
        Leave::Memory => None,
        _ => Some(fragments),
    }
}
