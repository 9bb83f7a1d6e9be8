//! `dnp concentrate`: a concentrator of a plan over files, which polls substations and serves one or two centres by TCP.

ghost use Rattle.std.specs.Prelude.{◌<◌};
ghost use Rattle.dnp_concentrator.specs.Plan.{KeepsLimits};

mod in_network;

use crate::addresses::{bind, bind_given};
use crate::build::note_start;
use crate::concentrate::in_network::run_in_network;
use crate::numbers::{MAX_EVERY, MAX_IDLE, number_given};
use crate::options::{
    defaulted, flag, network, plan, required, required_unless, subcommand, valued, without_every,
};
use crate::store_files::files_given;
use clap::{ArgMatches, Command};
use dnp_concentrator::Plan;
use dnp_eventbuf::CENTRES;
use dnp_files::{
    ConcentratorWords, Drivings, RoundPace, Served, StoreFile, Substations, ends_from_centre,
    run_concentrator,
};
use dnp_inputs::plan_file::plan_given;
use dnp_lines::Wrong;
use dnp_tcp::{Names, Place, exit};
use std::alloc::{AllocError, Global};
use std::net::{IpAddr, SocketAddr};
use std::process::ExitCode;

/// The subcommand's name.
pub const NAME: &str = "concentrate";

/// What it does, in a line.
const ABOUT: &str =
    "Poll the substations of a plan into a queue, and serve it to one or two centres";

/// What its help text says after the options.
const AFTER: &str = "\
EXAMPLE
  At the top of the repository, with substation 0 of the plan at port 20010:

    dnp outstation --plan examples/plan.toml --station 0 --port 20010 --forever &
    dnp concentrate --plan examples/plan.toml --queue queue.db --controls below.db \\
        --port 20100 --below 20010 --every 1000 --forever --new

FILES
  The queue has the events that a centre has not confirmed yet, for each of two centres. The book of
  controls has the controls for the substations, from both centres. Each is an SQLite database.
  --new makes both: give it in the first run only. Without --new both must be there, and no file is
  made. If a run is killed while --new makes them, remove the files that it left, and give --new
  again.
  A run may be stopped or killed at any time. Each store then has its state before or after the last
  step, and the next run goes on with it.
  The capacities of a queue are those of the plan that made it: 'queue' for the first centre, and
  'queue2' for the second. The plan must have the point of each event in the queue, and the output
  of each control in the book.
  With --migrate a queue of an earlier release, for one centre, gets the form for two. Its events
  are for the first centre, and the second centre has none. This is one step, which is done as a
  whole or not at all. A line on standard error reports it. An earlier release can't open the queue
  then: keep a copy. Without --migrate such a queue is refused, and stays as it is.

HOSTS AND PORTS
  Without --network all stations are on this machine. Substation S is at port P + S, where P is the
  value of --below. The first centre connects at --port and the second at --port2, at the address of
  --bind. Address 127.0.0.1 is for centres on this machine, and 0.0.0.0 for all its IPv4 addresses.
  --bind takes an IPv6 address, as ::1, too. The link address of the concentrator is 2 for the
  substations, and 9 for the centres. Substation S is 10 + S. The first centre is 1, and the second
  centre is 3.
  With --network the network file has the hosts, ports and link addresses. The concentrator listens
  at 'listen' and 'listen2' of [concentrator], and connects to 'at' of each substation. Each name of
  a host is looked up once, before a store is opened, and its first address is used. The log has the
  address, and the names of stations and points next to their numbers. No name is stored or sent.
  docs/network.md describes the file, and 'dnp check' checks it.
  Everyone who can connect can operate the outputs of the substations.
  Without a port for the second centre only the first is served. Events for the second wait in event
  buffers (lanes) of their own. A full buffer drops its oldest event, and counts it.

PERSISTENT CONNECTIONS
  With --network the concentrator keeps its connections open, and polls by the keys of polling in
  the network file. It runs until a signal ends it. No station waits for another one. It connects
  again 1 s after a loss, and after each further loss it waits twice as long, a minute at most. A
  centre's connection ends if no complete frame of this centre comes for three times the
  keepalive_ms of [centre]. Nothing is printed on standard output. A store or memory that fails ends
  the program with status 3. docs/network.md has more.

A ROUND
  Without --network the concentrator works in rounds. In a round it connects to each substation in
  turn. It reads all events (classes 1, 2 and 3) and all present values (class 0), sends the pending
  controls, and disconnects.
  A substation gives no events in a round in these cases. The log has the reason, and the round goes
  on with the next substation.

  - It can't be reached.
  - Nothing usable comes for the plan's response_ms.
  - It disconnects before all is answered.
  - Its response has something that the plan or the profile lacks. Such a response is not confirmed,
    and the connection is ended at once.

ROUNDS BY THE CLOCK
  With --every a round begins each MS milliseconds, or at once if the last one took longer. N rounds
  take N times MS; with --forever they go on until a signal ends the program, as SIGTERM. The
  program ends at once, as after a kill.
  No round waits for a centre. Both centres are served between the rounds and after each substation,
  in turns of 50 ms. While a substation is polled, the centres wait.
  Each centre has one connection at a time. A new connection of a centre takes over. A connection
  ends if the centre or the station closes it, if it fails, or if the last round is done. It also
  ends if no complete frame of this centre comes for --idle seconds. Other octets, and reading, do
  not count. The station reads nothing from a centre that does not take the octets sent to it.
  With unsolicited responses on, one is sent if the centre connects, and if an event of an enabled
  class comes. An unconfirmed one is repeated as often as the plan says; then the station closes the
  connection.

ROUNDS BY THE CENTRES
  Without --every one connection of the first centre is served after each round, and then one of the
  second centre if there is --port2. So the centres set the pace. A centre that does not come holds
  up the next round and the other centre. A client that connects during a round waits.
  A connection ends if the centre ends it, or after 300 seconds without anything read or sent. The
  log has the reason if it fails.

CONTROLS
  The controls of both centres go into one book, and to the substation in the next round, or with
  --network at once. While a select of one centre is active, a select or a direct operate of the
  other for the same output has the status 5, ALREADY_ACTIVE. A select is active until it is
  operated, until another request of the same centre, until its connection ends, or for the plan's
  select_ms.

OUTPUT
  Each round has a line on standard output, 'round K rows R'. K is the number of the round, from 1.
  R is the number of events from substations. 'refused plan N' is the only line for a refused plan;
  'dnp sim --help' has the numbers.

LOG
  The log is on standard error. Each line has the time in UTC. The first lines are:

    2026-11-26T03:12:40.000Z started: dnp VERSION (proved, ..)
    2026-11-26T03:12:40.000Z rtu0.example:20000 is 10.0.0.1:20000: looked up in 1 ms
    2026-11-26T03:12:40.000Z listening on 127.0.0.1:20100 as 9 for master 1

  Then a line comes with each change, and none for each round. With --network the name comes behind
  the number, as 'substation 0 (Kirchberg 110 kV)'. A substation is lost, lost for another reason,
  and back:

    substation 0: lost, no good answer since 2026-11-26T03:12:41.000Z: no answer in 2000 ms
    substation 0: still lost, no good answer since ..
    substation 0: back after 312 s and 624 tries

  Its response is refused:

    substation 0: response refused: 30.5 at octet 22 is not in the profile
    substation 0: response refused: event of binary 9, which the plan lacks

  Its internal indications change:

    substation 0: indicates DEVICE_RESTART
    substation 0: no longer indicates DEVICE_RESTART
    substation 0: refuses the READ: OBJECT_UNKNOWN
    substation 0: no longer refuses the READ: OBJECT_UNKNOWN

  Another station or another protocol answers:

    substation 0: frames came from 1 to 2; this asks 10 as 2
    substation 0: octets came, and no frame

  A control has a line for each step:

    substation 0: control 1: selected
    substation 0: control 1: operated (status 0 SUCCESS)
    substation 0: control 1: SELECT refused (status 4 NOT_SUPPORTED)

  An event buffer of a centre begins to drop events:

    centre 2: a lane of the queue for it is full, and drops its oldest events: 3 events so far

  It drops none any more:

    centre 2: no lane of the queue for it is full any more: 197 events were dropped

  With --every or --network each connection of a centre has a line at its beginning and at its end.
  The address is the centre's. 'served' has the number of complete fragments.

    127.0.0.1:51234 centre 1 connected
    127.0.0.1:51234 centre 1 ended, served 3: the master closed the connection

  The master is the centre here. docs/log.md explains each line.

EXIT STATUS
  0: All rounds were done.
  1: A file was refused:
     - The plan, the network file or its file of points is wrong.
     - A file has no such store, or with --new has one already.
     - A queue is for one centre, and there is no --migrate.
     - A store has an event or a control that the plan lacks.
  2: The command line is wrong, or the last substation would have a port over 65535.
  3: The program failed:
     - A file can't be read, is in use or was given twice.
     - The name of a host can't be looked up, or the port can't be had.
     - A database failed, memory ran out, or the output was lost.";

/// What is said of the options.
const QUEUE: &str = "The file of the queue";

const CONTROLS: &str = "The file of the book of controls";

const PORT: &str = "The TCP port for the first centre, 1 to 65535; needed without --network";

const PORT2: &str = "The TCP port for the second centre, 1 to 65535; excludes --network";

const BELOW: &str = "The TCP port of substation 0, with S at P + S; needed without --network";

const ROUNDS: &str = "The number of rounds, 1 to 1000000; excludes --network";

const EVERY: &str = "Begin a round each so many ms, 1 to 86400000; excludes --network";

const FOREVER: &str = "Run until a signal ends it; needs --every or --network, excludes --rounds";

const IDLE: &str = "The most seconds without a frame, 1 to 86400; needs --every";

const NEW: &str = "Make the queue and the book of controls, in the first run";

const MIGRATE: &str = "Bring a queue for one centre to the form for two; excludes --new";

/// What `clap` has to know of `dnp concentrate`.
pub(crate) fn command<'a>(alloc: Global) -> Result<Command<'a>, AllocError> {
    let choices = [
        plan(),
        network(),
        required("queue", "FILE", QUEUE),
        required("controls", "FILE", CONTROLS),
        required_unless("port", "P", "network", PORT),
        valued("port2", "P", PORT2).excluding("network"),
        bind(),
        required_unless("below", "P", "network", BELOW),
        defaulted("rounds", "N", "1", ROUNDS).excluding("network"),
        valued("every", "MS", EVERY).excluding("network"),
        flag("forever", FOREVER).excluding("rounds"),
        defaulted("idle", "SECONDS", "60", IDLE).needing("every"),
        flag("new", NEW),
        flag("migrate", MIGRATE).excluding("new"),
    ];
    subcommand(alloc, NAME, ABOUT, AFTER, &choices)
}

/// Where the concentrator serves the centres of this machine, and finds its substations.
#[derive(Clone, Copy)]
pub(crate) struct Ports {
    /// The address at which centres connect.
    address: IpAddr,
    /// The TCP port for the first centre.
    port: u16,
    /// The TCP port for the second centre, if it is served.
    port2: Option<u16>,
    /// The TCP port of substation 0; those of the others follow on it.
    below: u16,
}

impl Ports {
    /// Where the concentrator serves a centre at this port.
    fn served(&self, port: u16, centre: u8) -> Served
        requires { centre < CENTRES }
    {
        Served {
            place: Place::Port(SocketAddr::new(self.address, port)),
            taken: ends_from_centre(centre),
        }
    }
}

/// Where the stations are.
#[derive(Clone, Copy)]
pub(crate) enum Whereabouts<'a> {
    /// At these ports.
    Here(Ports),
    /// As the network in this file says.
    Network(&'a str),
}

/// What the words of the command line say.
#[derive(Clone, Copy)]
pub(crate) struct Words<'a> {
    /// The path of the plan's file.
    plan: &'a str,
    /// The file of the queue.
    queue: StoreFile<'a>,
    /// The file of the book of controls.
    controls: StoreFile<'a>,
    /// Where the stations are.
    whereabouts: Whereabouts<'a>,
    /// How many rounds there are, and when they begin.
    pace: RoundPace,
    /// Whether a queue for one centre is brought to the form for two.
    migrates: bool,
}

impl<'a> Words<'a> {
    /// What the concentrator is to do, where it serves its centres and finds its substations so.
    pub(crate) fn run_with(
        &self,
        first: Served,
        second: Option<Served>,
        substations: Substations<'a>,
        names: Names<'a>,
        standing: Option<Drivings<'a>>,
    ) -> ConcentratorWords<'a> {
        ConcentratorWords {
            queue: self.queue,
            controls: self.controls,
            first,
            second,
            substations,
            names,
            pace: self.pace,
            migrates: self.migrates,
            standing,
        }
    }
}

/// The ports that the words give. Where one is wrong, that is printed.
fn ports_given<R: Eprint>(rt: &R, given: &ArgMatches<'_>) -> Option<Ports> {
    let port = number_given(rt, given, "port", "P", 1, 65_535)?;
    let port2 = match given.get_str("port2") {
        Some(_) => {
            let port = number_given(rt, given, "port2", "P", 1, 65_535)?;
            Some(u16::try_from(port).ok()?)
        }
        None => None,
    };
    if port2.is_some_and(|second| u64::from(second) == port) {
        return same_ports(rt, port);
    }
    let address = bind_given(rt, given)?;
    let below = number_given(rt, given, "below", "P", 1, 65_535)?;
    Some(Ports {
        address,
        port: u16::try_from(port).ok()?,
        port2,
        below: u16::try_from(below).ok()?,
    })
}

/// What the words say. Where one is wrong, that is printed.
fn words_given<'a, R: Eprint>(rt: &R, given: &ArgMatches<'a>) -> Option<Words<'a>> {
    let whereabouts = match given.get_str("network") {
        Some(path) => Whereabouts::Network(path),
        None => Whereabouts::Here(ports_given(rt, given)?),
    };
    let pace = pace_given(rt, given)?;
    let (queue, controls) = files_given(rt, given, "queue")?;
    Some(Words {
        plan: given.get_str("plan").unwrap_or(""),
        queue,
        controls,
        whereabouts,
        pace,
        migrates: given.get_flag("migrate"),
    })
}

/// Says on standard error that both centres would have one port.
fn same_ports<R: Eprint>(rt: &R, port: u64) -> Option<Ports> {
    let wrong = Wrong::SamePorts(port);
    let _ = eprintln!(rt; "{wrong}");
    None
}

/// How many rounds there are, and when they begin. Where a word is wrong, that is printed.
fn pace_given<R: Eprint>(rt: &R, given: &ArgMatches<'_>) -> Option<RoundPace> {
    let count = number_given(rt, given, "rounds", "N", 1, 1_000_000)?;
    let idle = number_given(rt, given, "idle", "SECONDS", 1, MAX_IDLE)?;
    if given.get_str("every").is_none() {
        return without_every(rt, given, RoundPace::ByCentres { rounds: count });
    }
    let every_ms = number_given(rt, given, "every", "MS", 1, MAX_EVERY)?;
    let is_forever = given.get_flag("forever");
    Some(RoundPace::ByClock {
        every_ms,
        rounds: if is_forever { None } else { Some(count) },
        idle,
    })
}

/// Runs the concentrator that the given words name, and tells the exit status.
pub(crate) fn run(rt: &HostRuntime, given: &ArgMatches<'_>) -> anyhow::Result<ExitCode> {
    let Some(words) = words_given(rt, given) else {
        return Ok(ExitCode::from(exit::USAGE));
    };
    match plan_given(rt, words.plan) {
        Ok(mut plan) => run_there(rt, &words, &mut plan),
        Err(status) => Ok(status),
    }
}

/// Runs the concentrator of a plan whose stations are where the words say, and tells the exit status.
fn run_there(rt: &HostRuntime, words: &Words<'_>, plan: &mut Plan) -> anyhow::Result<ExitCode>
    requires { KeepsLimits plan.old }
{
    match words.whereabouts {
        Whereabouts::Here(ports) => Ok(run_here(rt, words, &ports, plan)),
        Whereabouts::Network(path) => run_in_network(rt, words, path, plan),
    }
}

/// Runs the concentrator of a plan whose stations are at these ports, and tells the exit status.
fn run_here(rt: &HostRuntime, words: &Words<'_>, ports: &Ports, plan: &Plan) -> ExitCode
    requires { KeepsLimits plan.now }
{
    if !has_ports(rt, ports.below, plan) {
        return ExitCode::from(exit::USAGE);
    }
    note_start(rt);
    let first = ports.served(ports.port, 0);
    let second = match ports.port2 {
        Some(port) => Some(ports.served(port, 1)),
        None => None,
    };
    let substations = Substations::FromPort(ports.below);
    let run = words.run_with(first, second, substations, Names::NONE, None);
    run_concentrator(rt, &run, plan)
}

/// Whether each substation of the plan has a port. Where one has none, that is printed.
fn has_ports<R: Eprint>(rt: &R, below: u16, plan: &Plan) -> bool {
    let most = u16::MAX - below;
    if plan.substations.as_slice().len() <= usize::from(most) + 1 {
        return true;
    }
    let wrong = Wrong::NoPorts(below);
    let _ = eprintln!(rt; "{wrong}");
    false
}
