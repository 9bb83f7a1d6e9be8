//! `dnp sim`: a whole system of a plan, run by a script.

use crate::looking::{Clearing, Looker, tell_checking};
use crate::looks::{misuse, write_looks};
use crate::options::{flag, plan, subcommand, valued};
use crate::simulated;
use crate::texts::{finish, limit, plain, stores_given, texts_given};
use clap::{ArgMatches, Command};
use dnp_daemons::{Stores, sim_text_seen};
use dnp_inputs::Texts;
use dnp_lines::Wrong;
use dnp_tcp::{Noted, exit};
use dnp_terminal::{Meter, Terminal};
use dnp_trace::report_json;
use std::alloc::{AllocError, Global};
use std::io;
use std::io::{BufWriter, Write};
use std::process::ExitCode;
use std::rt::{Clock, Files};

/// The subcommand's name.
pub const NAME: &str = "sim";

/// What it does, in a line.
const ABOUT: &str = "Run a script on a simulated network, and report every event and command";

/// What is said of the option for the trace.
const TRACE: &str = "Write the steps of each frame; '-' is standard output; excludes --hours";

/// What is said of the one for the chart.
const CHART: &str = "Draw the steps of each frame as a sequence chart (SVG); excludes --hours";

/// What is said of the one for the capture.
const CAPTURE: &str = "Write the frames that arrive as a capture (pcap); excludes --hours";

/// What is said of the one for the form of the report.
const JSON: &str = "Print the report as a JSON object";

/// What its help text says after the options.
const AFTER: &str = "\
EXAMPLE
  A change at the substation goes to the concentrator, and then to the first centre. At the top of
  the repository:

    printf 'open 0\\nopen above\\nchange 0 binary 0 1 01 1000\\nround 0\\nround above\\n' |
      dnp sim --plan examples/plan.toml

  The report has the change below 'journal 1' and below 'confirmed 1'. It is below 'queue2 1' too,
  because the second centre has not polled.

INPUT
  The plan has the substations with their points and outputs. The script is on standard input. Each
  of its lines is an event in a system of these substations, a concentrator and two centres. Events
  are changes of points, polls, commands, and frames that are delivered, lost, repeated or damaged.
  Words for the second centre end in 2: 'above2' is the link to it, and 'issue2' issues a command
  there. docs/scripts.md describes plans and scripts. A script over --limit is not run.

OUTPUT OF THE SCRIPT'S LINES
  'round L' polls all events on link L: it takes the first fragment of the response, and its
  confirm. The rest of a longer response stays on the line. The output is one of these:

  - round L ok: it was done.
  - round L refused 1: the link is not quiet.

  A link is not quiet if it is closed or broken, if it has a frame, or if its master awaits an
  answer. A master that has waited too long closes its link; 'open L' opens it.

  'control ID' carries a command to its output; 'control2 ID' does so for the second centre. The
  output is one of these:

  - control ID ok: it was done.
  - control ID refused 1: a link is not quiet.
  - control ID refused 2: it is not the next control, or another one is on its way to its
    substation.
  - control ID refused 3: a station refused it.

THE REPORT
  The report comes at the end. Each of its lists has a line with the name and the length, and then a
  line for each item:

  - An event as ' 0 binary 3 1 01 1000': substation, kind, index, value, flags in hexadecimal, and
    time in milliseconds or '-'.
  - A command as ' 0 block 3 129 1 100 200': substation, form, index, code, count, ms on, ms off.
    Code 129 is 0x81, PULSE_ON with TRIP.
  - A command as ' 0 set16 3 -2': substation, form, index, value.

  The index is that of the substation. On the link above, the plan's base is added to it.

    journal:      Events that the first centre has.
    journal2:     Events that the second centre has.
    queue:        Events that wait in the concentrator for the first centre.
    queue2:       Events that wait there for the second centre.
    dropped:      Events that the concentrator dropped, because an event buffer for the first
                  centre was full.
    dropped2:     The same for the second centre.
    confirmed:    Events that substations removed, because the concentrator confirmed them.
    buffered:     Events that wait in substations.
    overwritten:  Events that substations dropped, because an event buffer was full.
    gone:         Events that were lost as a substation restarted.
    issued:       Commands that were issued at either centre.
    operated:     Commands that outputs have performed.

  The last lines are 'lost N' and 'lost2 N': the concentrator's own counts of the events that it has
  dropped for each centre.

REFUSED INPUT
  One of these lines is the whole output if nothing has run:

  - refused plan 1: it is not TOML, a key is there twice, or a number has over 64 bits.
  - refused plan 2: a key is missing, unknown or of another type, or two lists differ in length.
  - refused plan 3: a number is outside of its range, or a list has too few or too many items.
  - refused plan 4: a class is 4 to 255.
  - refused plan 5: an index above would be over 65,535.
  - refused plan 6: two substations would share an index above.
  - refused line N: line N of the script, counted from 1, is the first wrong one.

  The first fault decides. Standard error has the key, its substation (from 0), its item (from 1),
  the wrong value, and the form of a right one. For a line it has the wrong word, and the form of a
  right one; a long word is cut ('and more').
  If memory runs out after N lines of the script, the output has 'stopped N'.
  Some lines can do nothing, as one with a point that the plan lacks. Standard error then has their
  number, the first of them, and the reason. A line that finds nothing to do in the system's state,
  as a delivery without a frame, is not counted.

TRACE, CHART AND CAPTURE
  Each of these shows the frames on the lines. The report stays the same. The files are written
  before the report is printed, and only if the plan and the script are right. No two of them may
  be one file, or the plan's file.

  --trace FILE
    Each step of a frame has a line: the moment in milliseconds, the link, the direction, the step,
    and the content. 'up' is towards the master. For example:

      12 link 0 up sent RESPONSE seq 1 fir fin con iin 80 00, 2.2 x1

    iin are the internal indications, if any is set. A segment of a longer fragment has 'segment FIR
    0'. A damaged frame has the content that it had before. The steps are:

      sent:      The station sends it.
      arrives:   It is delivered.
      repeated:  It is delivered, and stays on the line.
      lost:      It is lost on the line.
      damaged:   It becomes other octets, and nobody gets it.
      dropped:   Its line was cleared.
      stands:    It is on the line at the end.

    Frames behind 32 others on a line may be 'unseen'. A station that closes its connection has no
    line. With '-' the trace is on standard output, before the report; --json is refused then. The
    chart and the capture can't go there.

  --chart FILE
    The chart is an SVG sequence chart for a browser, in which time goes down. The script's lines
    are at the left. Each frame is an arrow. An arrow ends early in a cross if the frame is lost,
    and in a jag if it is damaged. It is dashed if the frame is repeated. It is dotted if the
    frame is dropped or is on the line at the end. A cut label ends in '..'. The chart has at most
    1500 rows. It has the second centre if a frame is on its link.

  --capture FILE
    The capture has the frames that arrive, for Wireshark. It has no frames that are lost, damaged
    or dropped. Each link is a TCP conversation to port 20000, from and to 192.0.2.A. A is the link
    address of the station. The first centre has 1, and the second centre has 3. The concentrator
    has 9 above and 2 below. Substation S has 10 + S.

JSON
  --json prints the report as one object. 'outcomes' has the results of rounds and controls, with N
  of 'refused N' as 'reason'. Then come the lists of the report by their names. No time is null.
  'refused' and 'stopped' lines are printed as they are without --json.

DATABASES
  The concentrator's queue, the centres' journals and the books of controls are SQL databases in
  memory. They have the form that 'dnp concentrate' and 'dnp centre' have in files. With --plain
  they are lists; the output is the same, and comes sooner.

NETWORK IN VIRTUAL TIME
  With --hours no script is read: --limit, --trace, --chart and --capture are refused. The plan's
  substations, the concentrator and both centres run as programs do, over simulated connections and
  disks and in virtual time. Readings change, the centres issue a command a minute, and connections,
  processes, clocks and disks fail. The seed decides all of it: the same words print the same. In
  the last five minutes nothing fails or changes. That time is longer if a network file lets events
  wait for over 30 s. For example:

    dnp sim --plan examples/plan.toml --hours 1 --seed 7 --rate 0.05 --faults cut=4,kill=0

  With --network the links are polled as the keys of a network file say (docs/network.md). Its
  hosts and its file of points are not used. Each fragment of a response may take the response_ms
  of the plan.

  --hours is a decimal number from 0.1 to 100000. --rate is the changes a second at each substation,
  with at most 6 digits behind the point, and one a minute if it is left out.

  The stores of the concentrator and of the centres are SQL databases on simulated disks. With
  --plain they are lists, which are on no disk and come sooner.

  --faults has kinds with commas between them, each maybe with '=' and a rate from 0 to 1000. The
  rate is that of an hour, and of a connection, a process or a disk. A kind that is left out has the
  rate 1. With --plain 'stop' and 'full' are refused.

    cut:      A connection breaks. Each end hears of it soon, or in a minute at most.
    half:     The same, and a part of what was sent still comes.
    freeze:   Nothing comes over a connection for two minutes at most.
    refuse:   No connection is made for two minutes at most.
    kill:     A process ends, and begins again over its stores in half a minute at most. One of two
              substations loses its events. One of two kills waits for the next control that is
              operated at a substation, and ends the concentrator before the answer comes.
    clock:    The wall clock of a process steps by two hours at most.
    delay:    Octets are on their way for three seconds at most.
    stop:     The disk of the concentrator or of a centre stops, and what was not synced may be
              lost. The process ends, and begins again in half a minute at most.
    full:     The same, but the disk is full: what is written is refused, and nothing is lost.

  The output has a number a line, such as 'events_made: 1440'. A line 'violation:' has the seed, the
  moment in milliseconds, and what must not be:

  - An event in a journal that no substation made, or one that has vanished and is in no count.
  - A command that was performed twice, or that was not issued.
  - A control that is operated without a select, or with another request in between, and a poll
    that has the octets of the request before it.
  - A point that shows ONLINE at the concentrator though its link is lost, or one that reads
    otherwise there at the end.
  - Octets of a former connection on a new one.
  - A connection that ends, or a fragment or a control that is refused, without a fault.
  - A store that does not open over what its disk has kept. After a restart, a control that is no
    longer spent, or a command that is no longer in the book of its centre.
  - Events or commands that wait at the end, or a link that isn't there.

  With --trace-from the steps from that moment on come first. --json prints an object. --picture
  writes how many events wait, and how old they are at a journal.

EXIT STATUS
  0: The script ran, and the report was printed.
  1: The plan or the script was refused, or the network has a violation.
  2: The command line is wrong.
  3: The program failed:
     - The plan can't be read, or the script is over its limit.
     - A file can't be written, or the input or the output was lost.
     - A database failed, or memory ran out.";

/// What `clap` has to know of `dnp sim`.
pub(crate) fn command<'a>(alloc: Global) -> Result<Command<'a>, AllocError> {
    let choices = [
        plan(),
        limit(),
        valued("trace", "FILE", TRACE).excluding("hours"),
        valued("chart", "FILE", CHART).excluding("hours"),
        valued("capture", "FILE", CAPTURE).excluding("hours"),
        flag("json", JSON),
        plain(),
        simulated::hours(),
        simulated::seed(),
        simulated::rate(),
        simulated::faults(),
        simulated::picture(),
        simulated::trace_from(),
        simulated::polled_network(),
    ];
    subcommand(alloc, NAME, ABOUT, AFTER, &choices)
}

/// Runs the script on standard input by the given words, and tells the exit status.
pub(crate) fn run<R: AllocGlobal + Input + Print + Eprint + Terminal + Clock + Files>(
    rt: &R,
    given: &ArgMatches<'_>,
) -> anyhow::Result<ExitCode> {
    if given.get_str("hours").is_some() {
        return simulated::run(rt, given);
    }
    if let Some(why) = misuse(given) {
        let wrong = Wrong::Misuse(why);
        let _ = eprintln!(rt; "{wrong}");
        return Ok(ExitCode::from(exit::USAGE));
    }
    let texts = match texts_given(rt, given)? {
        Ok(texts) => texts,
        Err(status) => return Ok(status),
    };
    run_texts(rt, &texts, given)
}

/// Runs the script of these texts by the given words, and tells the exit status.
fn run_texts<R: AllocGlobal + Print + Eprint + Terminal + Clock + Files>(
    rt: &R,
    texts: &Texts,
    given: &ArgMatches<'_>,
) -> anyhow::Result<ExitCode> {
    if let Some(status) = write_looks(rt, texts, given)? {
        return Ok(status);
    }
    let meter = Meter::new(rt);
    tell_checking(&meter, texts.script.len());
    if given.get_flag("json") {
        return run_json(rt, texts, stores_given(given), &meter);
    }
    let is_seen = rt.output_screen().is_terminal;
    let writer = Clearing::new(&meter, is_seen, io::writer(rt));
    let mut out = BufWriter::new(rt.alloc(), Noted::new(writer))?;
    run_into(rt, texts, stores_given(given), &meter, &mut out)
}

/// Runs the script of these texts, prints into this buffer, and tells the exit status.
fn run_into<R: AllocGlobal + Eprint + Terminal + Clock, W: Write + Drop>(
    rt: &R,
    texts: &Texts,
    stores: Stores,
    meter: &Meter<'_, R>,
    out: &mut BufWriter<Noted<W>>,
) -> anyhow::Result<ExitCode> {
    let ended = sim_text_seen(
        rt.alloc(),
        texts.plan.as_str(),
        texts.script.as_str(),
        stores,
        Looker::new(meter),
        &mut *out,
    );
    meter.end();
    finish(rt, texts, None, out, ended)
}

/// Runs the script as without '--json', and prints what came of it as JSON, if it ran to its report.
fn run_json<R: AllocGlobal + Print + Eprint + Terminal + Clock>(
    rt: &R,
    texts: &Texts,
    stores: Stores,
    meter: &Meter<'_, R>,
) -> anyhow::Result<ExitCode> {
    let mut printed = Vec::new(rt.alloc());
    let ended = sim_text_seen(
        rt.alloc(),
        texts.plan.as_str(),
        texts.script.as_str(),
        stores,
        Looker::new(meter),
        &mut printed,
    );
    meter.end();
    let mut out = BufWriter::new(rt.alloc(), Noted::new(io::writer(rt)))?;
    if ended == Ok(exit::DONE) {
        let text = String::from_utf8_lossy(rt.alloc(), printed.as_slice())?;
        printed = report_json(rt.alloc(), text.as_str())?;
    }
    // What fails here, the writer keeps.
    let _ = out.write_all(printed.as_slice());
    finish(rt, texts, None, &mut out, ended)
}
