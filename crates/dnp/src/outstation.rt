//! `dnp outstation`: an outstation of a plan, for masters that connect by TCP.

use crate::addresses::{bind, bind_given};
use crate::build::note_start;
use crate::numbers::{MAX_IDLE, number_given};
use crate::options::{
    defaulted, flag, network, plan, required, required_unless, subcommand, valued,
};
use clap::{ArgMatches, Command};
use dnp_concentrator::MAX_SUBSTATIONS;
use dnp_daemons::{
    Living, MASTER_BELOW, PlanTextFault, outstation_address, planned_outstation, read_plan,
};
use dnp_inputs::network_file::{Given, all_given};
use dnp_inputs::plan_file::{plan_text, refused};
use dnp_inputs::{Sought, address_found, replay_given, taken_by};
use dnp_lines::{Wanted, Whose, Wrong};
use dnp_network::Network;
use dnp_tcp::{Ends, Listening, Place, Replay, exit, live_on_connections};
use dnp_terminal::Terminal;
use std::alloc::{AllocError, Global};
use std::net::{Net, SocketAddr, TcpListener, TcpStream};
use std::process::ExitCode;
use std::rt::{Clock, Files};
use std::str;

/// The subcommand's name.
pub const NAME: &str = "outstation";

/// What it does, in a line.
const ABOUT: &str = "Serve an outstation of a plan to masters that connect by TCP";

/// What its help text says after the options.
const AFTER: &str = "\
EXAMPLE
  At the top of the repository:

    dnp outstation --plan examples/plan.toml --station 0 --port 20000 --forever &
    dnp poll 127.0.0.1:20000

THE STATION
  It is substation S of the plan, in the state after a restart. Its link address is 10 + S. It
  answers the master with link address 2 only. With --network it has the 'address' and the 'master'
  of the network file.
  Points have value 0 and flags 02 (RESTART) until a replay changes them. Outputs take commands.
  Points, outputs and events are in memory. They last over all connections, until the program ends.

HOSTS AND PORTS
  The program listens on --port at the address of --bind. The port of DNP3 is 20000. Address
  127.0.0.1 is for masters on the same machine, and 0.0.0.0 for all IPv4 addresses of the machine.
  --bind takes an IPv6 address, as ::1, too.
  With --network the program listens at 'listen' of the substation in the network file, or at 'at'
  if there is no 'listen'. A name of a host is looked up once, and its first address is used; the
  log has it. docs/network.md describes the file, and 'dnp check' checks it.
  Everyone who can connect can operate the outputs.

CONNECTIONS
  The station serves one master at a time. With --connections N the program ends after N
  connections. With --forever it serves until a signal ends it, as SIGTERM. It ends at once then,
  and all that is in memory is lost.
  A new connection takes over. The old one ends as soon as it sends nothing for 50 ms, and after a
  second at the latest. With --connections N the last connection is never taken over: a new client
  is hung up, and the log says so.
  A connection ends in these cases. The program then prints 'served N', and serves the next master.
  The status stays 0.

  - The master or the station closes it.
  - A new one takes over.
  - It fails.
  - No complete frame from the master comes for --idle seconds. Other octets, and reading, do not
    count.

UNSOLICITED RESPONSES
  With 'unsolicited = true' in the plan the station sends one if the master connects, and if an
  event of an enabled class comes. It repeats an unconfirmed one as often as the plan says, and then
  closes the connection. If a READ waits, it closes the connection at the first timeout. Timers are
  checked each 50 ms at least.

REPLAY
  The replay is a file of changes of points, one in a line. This one changes binary 0 after 1.5 s:

    1500 change binary 0 1 01 now

  The form of a line is 'MS change KIND I VALUE FLAGS TIME'.

  MS:     The change is due so many milliseconds after the start of the program. No MS is less than
          the one in the line before.
  KIND:   The kind is binary, counter or analog.
  I:      The index of the point.
  VALUE:  The new value.
  FLAGS:  Two hexadecimal digits.
  TIME:   Milliseconds since 1970-01-01 00:00 UTC, '-' for none, or 'now' for the time at which the
          change is due.

  One space separates words. The file has at most 16 MiB. The changes are made in the order of the
  file, with or without a master. A change of a point that the plan lacks, or to a value that does
  not fit, does nothing.
  --repeat begins the file again after the last change. The moment of that change is the new start:
  each change is due MS after it, and 'now' is the time then. The last change must have an MS over
  0. Between two runs the station waits for the end of a frame that has begun.

OUTPUT
  Each connection that has ended has the line 'served N' on standard output. N is the number of
  complete fragments from its master. These come before the program listens:

    refused plan N    the plan is refused; 'dnp sim --help' has the numbers
    refused line N    line N of the replay is the first wrong one

  Standard error then has the place, the wrong value, and the form of a right one.

LOG
  The log is on standard error. Each line has the time in UTC. The first lines are:

    2026-11-26T03:12:40.000Z started: dnp VERSION (proved, ..)
    2026-11-26T03:12:40.000Z listening on 127.0.0.1:20000 as 10 for master 2

  Each connection has a line at its beginning and at its end, with the master's address:

    127.0.0.1:51234 connected
    127.0.0.1:51234 ended, served 3: the master closed the connection

  Other ends are: the station closed it, it was idle, another address took it over, or it failed.
  Frames with other link addresses have 'frames came from 5 to 10; this takes those from 2 to 10'.
  Octets without a frame have 'octets came, and no frame'.
  With --verbose each complete fragment has a line, with the number of octets that are sent for it.
  docs/log.md explains each line.

EXIT STATUS
  0: All connections were served.
  1: The plan, the network file, its file of points or the replay was refused.
  2: The command line is wrong, or the plan has no such substation.
  3: The program failed:
     - A file can't be read, or is too long.
     - The name of a host can't be looked up, or the port can't be had.
     - Memory ran out, or the output was lost.";

/// The highest number that a substation of a plan can have.
const MAX_STATION: u64 = MAX_SUBSTATIONS as u64 - 1;

/// What is said of the options.
const STATION: &str = "The number of the substation in the plan, counted from 0";

const PORT: &str = "The TCP port to listen on, 1 to 65535; needed without --network";

const REPLAY: &str = "A file of changes of points that are made while it runs";

const CONNECTIONS: &str = "The number of connections to serve, 1 to 1000000";

const FOREVER: &str = "Serve until a signal ends the program; excludes --connections";

const IDLE: &str = "The most seconds without a frame from the master, 1 to 86400";

const REPEAT: &str = "Begin the replay again at its end; needs --replay";

const VERBOSE: &str = "Log each request";

/// What `clap` has to know of `dnp outstation`.
pub(crate) fn command<'a>(alloc: Global) -> Result<Command<'a>, AllocError> {
    let choices = [
        plan(),
        required("station", "S", STATION),
        network(),
        required_unless("port", "P", "network", PORT),
        bind(),
        defaulted("connections", "N", "1", CONNECTIONS),
        flag("forever", FOREVER).excluding("connections"),
        defaulted("idle", "SECONDS", "60", IDLE),
        valued("replay", "FILE", REPLAY),
        flag("repeat", REPEAT).needing("replay"),
        flag("verbose", VERBOSE),
    ];
    subcommand(alloc, NAME, ABOUT, AFTER, &choices)
}

/// Where the station listens.
#[derive(Clone, Copy)]
enum Whereabouts<'a> {
    /// At this address and TCP port.
    Here(SocketAddr),
    /// As the network in this file says.
    Network(&'a str),
}

/// The port that the words give, or 0 where a network says it. Where it is wrong, that is printed.
fn port_given<R: Eprint>(rt: &R, given: &ArgMatches<'_>) -> Option<u64> {
    match given.get_str("network") {
        Some(_) => Some(0),
        None => number_given(rt, given, "port", "P", 1, 65_535),
    }
}

/// Where the words, which give this port, say that the station listens. Where one is wrong, that is printed.
fn whereabouts_given<'a, R: Eprint>(
    rt: &R,
    given: &ArgMatches<'a>,
    port: u64,
) -> Option<Whereabouts<'a>> {
    match given.get_str("network") {
        Some(path) => Some(Whereabouts::Network(path)),
        None => {
            let address = bind_given(rt, given)?;
            let port = u16::try_from(port).ok()?;
            Some(Whereabouts::Here(SocketAddr::new(address, port)))
        }
    }
}

/// What the words of the command line say.
#[derive(Clone, Copy)]
struct Words<'a> {
    /// The path of the plan's file.
    plan: &'a str,
    /// The number of the substation.
    number: u8,
    /// Where it listens.
    whereabouts: Whereabouts<'a>,
    /// How many connections are served; none where there is no end.
    connections: Option<u64>,
    /// How long a master may send nothing whole, in seconds.
    idle: u64,
    /// The path of the replay's file, if there is one.
    replay: Option<&'a str>,
    /// Whether the replay begins again at its end.
    repeats: bool,
    /// Whether each request is said.
    is_said: bool,
}

/// What the words say. Where one is wrong, that is printed.
fn words_given<'a, R: Eprint>(rt: &R, given: &ArgMatches<'a>) -> Option<Words<'a>> {
    let number = number_given(rt, given, "station", "S", 0, MAX_STATION)?;
    let port = port_given(rt, given)?;
    let connections = number_given(rt, given, "connections", "N", 1, 1_000_000)?;
    let idle = number_given(rt, given, "idle", "SECONDS", 1, MAX_IDLE)?;
    let whereabouts = whereabouts_given(rt, given, port)?;
    let is_forever = given.get_flag("forever");
    Some(Words {
        plan: given.get_str("plan").unwrap_or(""),
        number: u8::try_from(number).ok()?,
        whereabouts,
        connections: if is_forever { None } else { Some(connections) },
        idle,
        replay: given.get_str("replay"),
        repeats: given.get_flag("repeat"),
        is_said: given.get_flag("verbose"),
    })
}

/// Serves the outstation that the given words name, and tells the exit status.
pub(crate) fn run<R>(rt: &R, given: &ArgMatches<'_>) -> anyhow::Result<ExitCode>
where
    R: AllocGlobal + Print + Eprint + Terminal + Files + Clock,
    R: Net<Listener = TcpListener, Stream = TcpStream>,
{
    let Some(words) = words_given(rt, given) else {
        return Ok(ExitCode::from(exit::USAGE));
    };
    match plan_text(rt, words.plan) {
        Ok(text) => run_plan(rt, given, &words, text.as_slice()),
        Err(status) => Ok(status),
    }
}

/// Serves the outstation of a plan with this text, and tells the exit status.
fn run_plan<R>(
    rt: &R,
    given: &ArgMatches<'_>,
    words: &Words<'_>,
    octets: &[u8],
) -> anyhow::Result<ExitCode>
where
    R: AllocGlobal + Print + Eprint + Terminal + Files + Clock,
    R: Net<Listener = TcpListener, Stream = TcpStream>,
{
    let Ok(text) = str::from_utf8(octets) else {
        return Ok(refused(rt, words.plan, octets, PlanTextFault::Syntax));
    };
    match planned_outstation(rt.alloc(), text, words.number) {
        Ok(Some(mut station)) => serve_there(rt, words, &mut station, text),
        Ok(None) => Ok(no_station(rt, given.get_str("station").unwrap_or(""))),
        Err(fault) => Ok(refused(rt, words.plan, octets, fault)),
    }
}

/// What the network in a file says for a plan with this text. Where one of them is refused, that is said, and the exit status is told.
fn given_for<R: AllocGlobal + Print + Eprint + Files>(
    rt: &R,
    words: &Words<'_>,
    path: &str,
    text: &str,
) -> Result<Result<Given, ExitCode>, AllocError> {
    match read_plan(rt.alloc(), text) {
        Ok(plan) => all_given(rt, path, &plan),
        Err(fault) => Ok(Err(refused(rt, words.plan, text.as_bytes(), fault))),
    }
}

/// Serves the station where the words say, for a plan with this text; tells the exit status.
fn serve_there<S, R>(
    rt: &R,
    words: &Words<'_>,
    station: &mut S,
    text: &str,
) -> anyhow::Result<ExitCode>
where
    S: Living,
    R: AllocGlobal + Print + Eprint + Terminal + Files + Clock,
    R: Net<Listener = TcpListener, Stream = TcpStream>,
{
    let Whereabouts::Network(path) = words.whereabouts else {
        return serve(rt, words, station, None);
    };
    match given_for(rt, words, path, text)? {
        Ok(given) => serve(rt, words, station, Some(&given.network)),
        Err(status) => Ok(status),
    }
}

/// Where the station listens, and the link addresses of the frames that it takes, by the network where there is one. Where a name can't be
/// looked up, that is said, and the exit status is told.
fn place_found<R>(
    rt: &R,
    words: &Words<'_>,
    network: Option<&Network>,
) -> Result<(Place, Ends), ExitCode>
where
    R: Eprint + Clock + Net<Listener = TcpListener, Stream = TcpStream>,
{
    let number = usize::from(words.number);
    let path = match words.whereabouts {
        Whereabouts::Here(address) => {
            let taken = Ends {
                source: MASTER_BELOW,
                dest: outstation_address(words.number),
            };
            return Ok((Place::Port(address), taken));
        }
        Whereabouts::Network(path) => path,
    };
    let Some(site) = network.and_then(|network| network.substations.as_slice().get(number)) else {
        return Err(ExitCode::from(exit::FAULT));
    };
    let sought = Sought {
        path,
        whose: Whose::Substation(number),
        key: "listen",
        endpoint: site.listen(),
    };
    let address = address_found(rt, &sought)?;
    Ok((Place::Whole(address), taken_by(site.ends())))
}

/// Reads the replay, where there is one, and serves the station, by the network where there is one; tells the exit status.
fn serve<S, R>(
    rt: &R,
    words: &Words<'_>,
    station: &mut S,
    network: Option<&Network>,
) -> anyhow::Result<ExitCode>
where
    S: Living,
    R: AllocGlobal + Print + Eprint + Terminal + Files + Clock,
    R: Net<Listener = TcpListener, Stream = TcpStream>,
{
    let replay = match words.replay {
        Some(path) => match replay_given(rt, path, words.repeats)? {
            Ok(replay) => replay,
            Err(status) => return Ok(status),
        },
        None => Replay::new(rt.alloc()),
    };
    note_start(rt);
    let (place, taken) = match place_found(rt, words, network) {
        Ok(found) => found,
        Err(status) => return Ok(status),
    };
    let listening = Listening {
        taken,
        place,
        connections: words.connections,
        idle: words.idle,
        is_said: words.is_said,
    };
    Ok(live_on_connections(rt, station, &listening, replay))
}

/// Says on standard error that the plan has no such substation, and gives the exit status of a wrong command line.
fn no_station<R: Eprint>(rt: &R, text: &str) -> ExitCode {
    let wrong = Wrong::Value(text, "station", "S", Wanted::Substation);
    let _ = eprintln!(rt; "{wrong}");
    ExitCode::from(exit::USAGE)
}
