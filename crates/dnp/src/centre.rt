//! `dnp centre`: one of the two centres of a plan over files, which polls the concentrator by TCP.

ghost use Rattle.dnp_concentrator.specs.Plan.{KeepsLimits};

mod in_network;

use crate::build::note_start;
use crate::centre::in_network::run_in_network;
use crate::numbers::{MAX_EVERY, number_given};
use crate::options::{
    defaulted, flag, network, plan, required, required_unless, subcommand, valued, without_every,
};
use crate::store_files::files_given;
use clap::{ArgMatches, Command};
use dnp_concentrator::{MAX_SUBSTATIONS, Plan};
use dnp_decode::Moment;
use dnp_files::{
    CentreWords, Driving, PollPace, StoreFile, Target, ends_to_centre, has_output, port_here,
    run_centre,
};
use dnp_inputs::plan_file::plan_given;
use dnp_lines::{SentCode, Wanted, Wrong};
use dnp_network::CentreOf;
use dnp_objects::Command as Control;
use dnp_orders::{ToldFault, read_order};
use dnp_tcp::{Names, exit, utc};
use std::alloc::{AllocError, Global};
use std::process::ExitCode;
use std::rt::Clock;

/// The subcommand's name.
pub const NAME: &str = "centre";

/// What it does, in a line.
const ABOUT: &str = "Poll the concentrator of a plan into a journal, and issue a control";

/// What its help text says after the options.
const AFTER: &str = "\
EXAMPLE
  At the top of the repository, with the concentrator of 'dnp concentrate --help' at port 20100:

    dnp centre --plan examples/plan.toml --journal journal.db --controls above.db --port 20100 --new
    dnp rows --journal journal.db

FILES
  The journal has all events that the centre has received. The book of controls has the controls
  that were issued here. Each is an SQLite database.
  --new makes both: give it in the first run only. Without --new both must be there, and no file is
  made. If a run is killed while --new makes them, remove the files that it left, and give --new
  again.
  A run may be stopped or killed at any time. Each store then has its state before or after the last
  step, and the next run goes on with it. An event may be in the journal twice then, but none is
  lost. The plan must have the point of each event in the journal, and the output of each control in
  the book.
  A journal is read as it is opened: a million events take some seconds. Begin a new one from time
  to time.

A POLL
  In a poll the centre connects to the concentrator, and clears its restart bit. It reads all
  events (classes 1, 2 and 3) and all present values (class 0), sends the pending controls, and
  disconnects. If the connection fails, the journal has what came before. Unconfirmed events come
  again in the next run.
  The centre waits for an answer as long as the plan's response_ms for each substation, and once
  more. The concentrator may be waiting for each of them in turn.
  With --every a poll begins each MS milliseconds, or at once if the last one took longer. Each has
  a connection of its own. There are --polls polls, or with --forever no end.

PERSISTENT CONNECTION
  With --network the centre keeps its connection open, and polls by the keys of polling in [centre]
  of the network file. It runs until a signal ends it. It connects again 1 s after a loss, and after
  each further loss it waits twice as long, a minute at most. A control of --issue is issued once,
  at the start. Nothing is printed on standard output. docs/network.md has more.

HOSTS AND PORTS
  Each centre has a journal, a book of controls and a port of its own. Without --network the
  concentrator is on this machine. --port is its --port for centre 1, and its --port2 for centre 2.
  Centre 1 has link address 1, centre 2 has 3, and the concentrator has 9.
  With --network the network file has the host, the port and the link addresses. Centre 1 connects
  to 'at' of [concentrator], and centre 2 to 'at2'; the file has 'listen2' then. Each name of a host
  is looked up once, before a store is opened, and its first address is used. The log has the
  address, and the names of stations and points next to their numbers. No name is stored or sent.
  docs/network.md describes the file, and 'dnp check' checks it.

CONTROLS
  --issue takes the number of a substation and the words of a command, as '0 trip 3 100ms' or '0
  set16 2 -1'. The index is that of the substation. 'dnp poll --help' lists the words under
  COMMANDS. Every control code is allowed. The log has the code: 'code 81 = 0x51: PULSE_ON, CLOSE,
  queue'. With --every the control is issued once, before the first poll.
  The control is put into the book before anything is sent. Its result at the concentrator is in the
  log. The concentrator sends it to the substation in its next round, so the result there is in the
  log of the concentrator.
  A pending control was not sent. The next run sends it: give no --issue for it, because that would
  issue it again. A control without a known answer is not sent again.

OUTPUT
  Each poll with a connection has the line 'rows R' on standard output. R is the number of new
  events in the journal. 'refused plan N' is the only line for a refused plan; 'dnp sim --help' has
  the numbers.

LOG
  The log is on standard error. Each line has the time in UTC. The first line is:

    2026-11-26T03:12:40.000Z started: dnp VERSION (proved, ..)

  Then a line comes with each change, and none for each poll. The connection, and the internal
  indications:

    the concentrator: lost, no good answer since the start: port 20100: Connection refused
    the concentrator: back after 312 s and 624 tries
    the concentrator: indicates EVENT_BUFFER_OVERFLOW: events were lost there

  Controls:

    control 1: issued
    control 1: selected at the concentrator
    control 1: taken by the concentrator (status 0 SUCCESS)

  A pending control, for which no OPERATE was sent:

    control 2: pending: the next run sends it, and to issue it again would double it

  docs/log.md explains each line.

EXIT STATUS
  0: All was asked and answered. With --every all polls were done, with or without an answer.
  1: A file was refused:
     - The plan, the network file or its file of points is wrong.
     - A file has no such store, or with --new has one already.
     - A store has an event or a control that the plan lacks.
  2: The command line is wrong, the plan has no such output for a control, or the network has no
     second centre.
  3: The program failed:
     - A file can't be read, is in use or was given twice.
     - The name of a host can't be looked up, or without --every the connection failed.
     - A database failed, memory ran out, or the output was lost.";

/// What is said of the options.
const JOURNAL: &str = "The file of the journal";

const CONTROLS: &str = "The file of the book of controls";

const PORT: &str = "The TCP port of the concentrator, 1 to 65535; needed without --network";

const NUMBER: &str = "The number of the centre, 1 or 2";

const ISSUE: &str = "A control to issue, as in '0 trip 3 100ms'";

const EVERY: &str = "Begin a poll each so many ms, 1 to 86400000; excludes --network";

const POLLS: &str = "The number, 1 to 1000000; needs --every, excludes --network";

const FOREVER: &str = "Run until a signal ends it; needs --every or --network, excludes --polls";

const NEW: &str = "Make the journal and the book of controls, in the first run";

/// What `clap` has to know of `dnp centre`.
pub(crate) fn command<'a>(alloc: Global) -> Result<Command<'a>, AllocError> {
    let choices = [
        plan(),
        network(),
        required("journal", "FILE", JOURNAL),
        required("controls", "FILE", CONTROLS),
        required_unless("port", "P", "network", PORT),
        defaulted("number", "N", "1", NUMBER),
        valued("issue", "TEXT", ISSUE),
        valued("every", "MS", EVERY).excluding("network"),
        defaulted("polls", "N", "1", POLLS)
            .excluding("network")
            .needing("every"),
        flag("forever", FOREVER).excluding("polls"),
        flag("new", NEW),
    ];
    subcommand(alloc, NAME, ABOUT, AFTER, &choices)
}

/// Where the concentrator is.
#[derive(Clone, Copy)]
pub(crate) enum Whereabouts<'a> {
    /// At this TCP port of this machine.
    Here(u16),
    /// As the network in this file says.
    Network(&'a str),
}

/// What the words of the command line say.
#[derive(Clone, Copy)]
pub(crate) struct Words<'a> {
    /// The path of the plan's file.
    plan: &'a str,
    /// The file of the journal.
    journal: StoreFile<'a>,
    /// The file of the book of controls.
    controls: StoreFile<'a>,
    /// Where the concentrator is.
    whereabouts: Whereabouts<'a>,
    /// Which of the two centres it is.
    pub centre: CentreOf,
    /// The control to be issued, and the substation that it is for.
    pub issue: Option<(u8, Control)>,
    /// How many polls there are, and when they begin.
    pace: PollPace,
}

impl<'a> Words<'a> {
    /// What the centre is to do, where it finds the concentrator so.
    pub(crate) fn run_with(
        &self,
        concentrator: Target,
        names: Names<'a>,
        standing: Option<Driving>,
    ) -> CentreWords<'a> {
        CentreWords {
            journal: self.journal,
            controls: self.controls,
            concentrator,
            names,
            issue: self.issue,
            pace: self.pace,
            standing,
        }
    }
}

/// Where the words say that the concentrator is. Where one is wrong, that is printed.
fn whereabouts_given<'a, R: Eprint>(rt: &R, given: &ArgMatches<'a>) -> Option<Whereabouts<'a>> {
    match given.get_str("network") {
        Some(path) => Some(Whereabouts::Network(path)),
        None => {
            let port = number_given(rt, given, "port", "P", 1, 65_535)?;
            Some(Whereabouts::Here(u16::try_from(port).ok()?))
        }
    }
}

/// What the words say. Where one is wrong, that is printed.
fn words_given<'a, R: Eprint>(rt: &R, given: &ArgMatches<'a>) -> Option<Words<'a>> {
    let whereabouts = whereabouts_given(rt, given)?;
    let centre = match number_given(rt, given, "number", "N", 1, 2)? {
        1 => CentreOf::First,
        _ => CentreOf::Second,
    };
    let issue = match given.get_str("issue") {
        Some(text) => Some(control_given(rt, text)?),
        None => None,
    };
    let pace = pace_given(rt, given)?;
    let (journal, controls) = files_given(rt, given, "journal")?;
    Some(Words {
        plan: given.get_str("plan").unwrap_or(""),
        journal,
        controls,
        whereabouts,
        centre,
        issue,
        pace,
    })
}

/// How many polls there are, and when they begin. Where a word is wrong, that is printed.
fn pace_given<R: Eprint>(rt: &R, given: &ArgMatches<'_>) -> Option<PollPace> {
    if given.get_str("every").is_none() {
        return without_every(rt, given, PollPace::Once);
    }
    let every_ms = number_given(rt, given, "every", "MS", 1, MAX_EVERY)?;
    let count = number_given(rt, given, "polls", "N", 1, 1_000_000)?;
    let is_forever = given.get_flag("forever");
    Some(PollPace::ByClock {
        every_ms,
        polls: if is_forever { None } else { Some(count) },
    })
}

/// The substation and the command that the words of a control name, for the largest plan. Where they name none, that is
/// printed.
fn control_given<R: Eprint>(rt: &R, text: &str) -> Option<(u8, Control)> {
    match read_order(text, MAX_SUBSTATIONS) {
        Ok(order) => Some(order),
        Err(fault) => {
            let told = Wanted::Order(ToldFault { text, fault });
            let wrong = Wrong::Value(text, "issue", "TEXT", told);
            let _ = eprintln!(rt; "{wrong}");
            None
        }
    }
}

/// What a plan lacks that has no output or setpoint for a control of the substation with this number.
fn lacked<'a>(plan: &Plan, substation: u8, control: &Control) -> Wanted<'a> {
    let substations = plan.substations.as_slice();
    match (substations.get(usize::from(substation)), control) {
        (None, _) => Wanted::SubstationBelow(substations.len()),
        (Some(points), Control::Block { .. }) => Wanted::Output(substation, points.outputs),
        (Some(points), Control::Set16 { .. } | Control::Set32 { .. }) => {
            Wanted::Setpoint(substation, points.setpoints)
        }
    }
}

/// Says on standard error what the plan lacks for the words of a control.
fn no_output<R: Eprint>(rt: &R, text: &str, lacked: Wanted<'_>) {
    let wrong = Wrong::Value(text, "issue", "TEXT", lacked);
    let _ = eprintln!(rt; "{wrong}");
}

/// Says on standard error which control code will be sent, where a control that has one is issued. It has no clause: none says what
/// standard error takes.
pub(crate) fn say_code<R: Eprint + Clock>(rt: &R, issue: Option<(u8, Control)>) {
    if let Some((_, Control::Block { code, .. })) = issue {
        let moment = Moment(utc(rt));
        let sent = SentCode(code);
        let _ = eprintln!(rt; "{moment} {sent}");
    }
}

/// Runs the centre that the given words name, and tells the exit status.
pub(crate) fn run(rt: &HostRuntime, given: &ArgMatches<'_>) -> anyhow::Result<ExitCode> {
    let Some(words) = words_given(rt, given) else {
        return Ok(ExitCode::from(exit::USAGE));
    };
    let plan = match plan_given(rt, words.plan) {
        Ok(plan) => plan,
        Err(status) => return Ok(status),
    };
    if let Some((substation, control)) = words.issue
        && !has_output(&plan, substation, &control)
    {
        let text = given.get_str("issue").unwrap_or("");
        no_output(rt, text, lacked(&plan, substation, &control));
        return Ok(ExitCode::from(exit::USAGE));
    }
    match words.whereabouts {
        Whereabouts::Here(port) => {
            note_start(rt);
            say_code(rt, words.issue);
            Ok(run_here(rt, &words, port, plan))
        }
        Whereabouts::Network(path) => run_in_network(rt, &words, path, plan),
    }
}

/// Runs the centre of a plan whose concentrator is at this port, and tells the exit status.
fn run_here(rt: &HostRuntime, words: &Words<'_>, port: u16, plan: Plan) -> ExitCode
    requires { KeepsLimits plan }
{
    let number = match words.centre {
        CentreOf::First => 0,
        CentreOf::Second => 1,
    };
    let concentrator = Target {
        place: port_here(port),
        awaited: ends_to_centre(number),
    };
    run_centre(rt, &words.run_with(concentrator, Names::NONE, None), plan)
}
