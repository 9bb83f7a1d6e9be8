//! `dnp poll`: a master in one line against an outstation of which it has no plan.

mod words;

use crate::options::{bare, defaulted, flag, subcommand, valued};
use crate::poll::words::{tasks_of, words_given};
use clap::{ArgMatches, Command};
use dnp_master::Task;
use dnp_tcp::lines::{Connects, SILENCE_MS};
use dnp_tcp::{RoundSettings, Rounds, exit, lost};
use dnp_terminal::Terminal;
use std::alloc::{AllocError, Global};
use std::io;
use std::net::{Net, SocketAddr, TcpListener, TcpStream, ToSocketAddrs};
use std::process::ExitCode;
use std::rt::Clock;
use std::time::Duration;

/// The subcommand's name.
pub const NAME: &str = "poll";

/// What it does, in a line.
const ABOUT: &str =
    "Ask an outstation for its events and values over TCP, as a master without a plan";

/// What its help text says after the options.
const AFTER: &str = "\
EXAMPLE
  At the top of the repository, with an outstation of the plan on port 20000:

    dnp outstation --plan examples/plan.toml --station 0 --port 20000 --forever &
    dnp poll 127.0.0.1:20000
    dnp poll 127.0.0.1:20000 --operate 'latch-on 0'

REQUESTS
  HOST:PORT is the outstation, as 10.0.0.7:20000, rtu7.example:20000 or [::1]:20000. On one
  connection the master sends the given requests in this order: clear the restart indication
  (--clear-restart), set the clock (--time), read classes (--classes) or points (--read), operate
  (--operate). Without any of these it reads the classes 1, 2, 3 and 0: all events, and then all
  present values. Points have a group, a variation and indices: 30.1:0-9 is group 30, variation 1,
  from index 0 to 9. Variation 0 leaves the variation to the outstation.
  If a response is awaited for a second, standard error has a line: which response, from which
  station, since when, and for how long yet.
  --repeat sends all again and again, on the same connection.

ROUNDS
  With --repeat a terminal shows a table. Each point has a line with its kind, index, last value,
  flags, and the time of its last event. A point that changed in the round has an asterisk, and so
  has a new one after the first round. The table has --height lines. If that is too few, points that
  changed come first. Of several events of a point in one round the table shows only the last one.
  Elsewhere, and with --times or --json, each round begins with a line and each row has its own.

LISTENING
  --listen reads the classes first. Then it enables unsolicited responses of the event classes in
  --classes, or of 1, 2 and 3 if there are none. It prints what comes, each line with its time, and
  confirms it. After the time in --for it disables them again. Without --for it listens until it is
  interrupted, and they stay enabled. Commands of --operate are sent before.

EVENTS
  A fragment is confirmed after its rows are printed. So an event is printed before the outstation
  removes it. An unsolicited response is printed and confirmed in the same way. A response with
  another sequence number is ignored.
  With --confirm no nothing is confirmed, and the events stay in the outstation. If they fill
  several fragments, only the first one is printed.

COMMANDS
  --operate takes these words. 'dnp centre --issue' takes the same words behind a substation.

    latch-on 0:            Output 0 is latched on: code 0x03, LATCH_ON.
    latch-off 0:           It is latched off: code 0x04, LATCH_OFF.
    pulse-on 0 100ms:      It is on for 100 ms: code 0x01, PULSE_ON.
    pulse-off 0 2s:        It is off for 2 s: code 0x02, PULSE_OFF.
    close 0 100ms:         The close relay of pair 0 is on for 100 ms: code 0x41, PULSE_ON, CLOSE.
    trip 0 100ms:          The trip relay of pair 0 is on for 100 ms: code 0x81, PULSE_ON, TRIP.
    set16 2 -1:            Setpoint 2 gets the value -1 of 16 bits.
    set32 2 -1:            The same with 32 bits.
    block 0 0x81 1 100 0:  Output 0, code, count, ms on and ms off. Numbers are decimal, and the
                           code may be hexadecimal after 0x: 129 is 0x81.

  All words except 'block' act once. A time is at most 4294967295ms.
  The program sends a SELECT. It sends the OPERATE only if the answer repeats the command with the
  status SUCCESS. It sends neither twice, even without an answer: look at the output before you give
  the command again.
  With --direct it sends a DIRECT_OPERATE in place of both, and that once. Without an answer nobody
  here knows if the output was operated: standard error names the output.
  A code that no output of 'dnp outstation' takes (queue, clear, NUL or reserved bits) is refused.
  Standard error has the word that was probably meant. For example 'block 5 81 1 100 0' has code
  0x51, which is not a trip. With --raw the code is sent.

OUTPUT
  Each row has a line, and then each request:

    binary 3 1 01 2026-11-25T03:00:01.000Z event
              A row. It has its kind (binary, counter, analog, output, setpoint), index, value,
              flags, time (UTC or '-'), and 'event' or 'static'. In an unsolicited response
              'unsolicited' follows.

    iin 80 00 restart
              The internal indications in the response to a READ. They are in hexadecimal, and each
              that is set has a word. The lines 'clear-restart iin 00 00' and 'time iin 00 00' have
              those of the other requests.

    select 0 SUCCESS
              The status of the command, or 'unanswered' if the response does not repeat it. The
              lines of the other commands begin with 'operate' and 'direct-operate'.

    unsolicited iin 80 00 restart
              With --listen, the internal indications in an unsolicited response.

    round 2 2026-11-25T03:00:05.000Z
              With --repeat, the begin of a round and its time.

  With --times and with --listen each line begins with the time at which it was printed. With --hex
  standard error has a line for each link frame, which 'dnp decode' reads without its first words:

    2026-11-25T03:00:01.000Z sent 05 64 0B C4 0A 00 02 00 07 61 C0 C0 01 3C 02 06 54 E0
    2026-11-25T03:00:01.002Z received 05 64 0A 44 02 00 0A 00 2F 2F C0 C0 81 00 00 9C E8
              The time, the way, and the octets. Octets that belong to no frame have 'in no frame:'
              in front.

  With --json each line is an object. \"time\" is in milliseconds since 1970-01-01 00:00 UTC, or null:

    {\"kind\":\"binary\",\"index\":3,\"value\":1,\"flags\":\"01\",\"time\":1795575601000,\"event\":true,
    \"unsolicited\":false}
    {\"task\":\"poll\",\"iin\":[\"80\",\"00\"],\"restart\":true}
    {\"task\":\"select\",\"index\":0,\"status\":0,\"name\":\"SUCCESS\",\"iin\":[\"00\",\"00\"]}
    {\"task\":\"unsolicited\",\"iin\":[\"80\",\"00\"],\"restart\":true}
    {\"round\":2,\"time\":1795575605000}
              With --times and --listen all but the last have \"at\" first, the time of the line.

EXIT STATUS
  0: All was answered without an error.
  1: The outstation refused something: a bit of IIN2 is set, or a status is not SUCCESS. Or a
     response is malformed or has an object outside of the profile. Standard error names the object
     with its octet in the fragment.
  2: The command line is wrong.
  3: The program failed: no connection, no answer in time, the connection ended before the answer,
     out of memory, or the output was lost.";

/// What is said of the options.
const OUTSTATION: &str = "The outstation: a host's name or address, and a TCP port";

const OWN: &str = "The link address of this master, 0 to 65519";

const PEER: &str = "The link address of the outstation, 0 to 65519";

const CLASSES: &str = "The classes to read, a digit each, as in 123 or 1230";

const READ: &str = "Read points, as 30.1:0-9 or 1.2:7; excludes --classes";

const CLEAR: &str = "Clear the restart indication";

const TIME: &str = "Set the clock: 'now', or milliseconds since 1970";

const OPERATE: &str = "Select and operate, as 'latch-on 0' or 'trip 0 100ms'; excludes --repeat";

const DIRECT: &str = "Send the command by DIRECT_OPERATE, without a SELECT; needs --operate";

const RAW: &str = "Send any control code; needs --operate";

const REPEAT: &str = "Ask again after each such time, as 500ms, 5s, 2m or 1h";

const COUNT: &str = "The number of rounds with --repeat; without it there is no limit";

const CONFIRM: &str = "Confirm printed events: yes or no";

const TIMEOUT: &str = "The time to wait for the connection and for each fragment";

const JSON: &str = "Print each line as a JSON object";

const LISTEN: &str = "Enable unsolicited responses, and print what comes; excludes --repeat";

const HEIGHT: &str = "The lines of the table that --repeat draws at a terminal; 24 if not given";

const FOR: &str = "Listen for so long, as 30s, 10m or 1h; needs --listen";

const TIMES: &str = "Begin each line with the time at which it came";

const HEX: &str = "Print each frame, sent or received, on standard error";

/// What `clap` has to know of `dnp poll`.
pub(crate) fn command<'a>(alloc: Global) -> Result<Command<'a>, AllocError> {
    let choices = [
        bare("outstation", "HOST:PORT", OUTSTATION),
        defaulted("own", "ADDRESS", "2", OWN),
        defaulted("peer", "ADDRESS", "10", PEER),
        valued("classes", "DIGITS", CLASSES),
        valued("read", "POINTS", READ),
        flag("clear-restart", CLEAR),
        valued("time", "MS", TIME),
        valued("operate", "COMMAND", OPERATE),
        flag("direct", DIRECT).needing("operate"),
        flag("raw", RAW).needing("operate"),
        valued("repeat", "TIME", REPEAT),
        valued("count", "N", COUNT),
        valued("height", "N", HEIGHT),
        defaulted("confirm", "WORD", "yes", CONFIRM),
        defaulted("timeout", "MS", "5000", TIMEOUT),
        flag("listen", LISTEN),
        valued("for", "TIME", FOR),
        flag("json", JSON),
        flag("times", TIMES),
        flag("hex", HEX),
    ];
    subcommand(alloc, NAME, ABOUT, AFTER, &choices)
}

/// Asks the outstation that the given words name, and tells the exit status.
pub(crate) fn run<R>(rt: &R, given: &ArgMatches<'_>) -> anyhow::Result<ExitCode>
where
    R: AllocGlobal + Print + Eprint + Clock + Terminal,
    R: Net<Listener = TcpListener, Stream = TcpStream>,
{
    let Some(words) = words_given(rt, given) else {
        return Ok(ExitCode::from(exit::USAGE));
    };
    let tasks = tasks_of(rt.alloc(), &words)?;
    Ok(ask(rt, &words.rounds, tasks.as_slice()))
}

/// Connects to the outstation, asks it the tasks in rounds, and tells the exit status.
fn ask<R>(rt: &R, words: &RoundSettings<'_>, tasks: &[Task]) -> ExitCode
where
    R: AllocGlobal + Print + Eprint + Clock,
    R: Net<Listener = TcpListener, Stream = TcpStream>,
{
    match connect(rt, words) {
        Ok(stream) => Rounds {
            words,
            stream: &stream,
            tasks,
        }
        .ask_all(rt),
        Err(cause) => lost(rt, words.place, &cause),
    }
}

/// The connection, which sends what is written at once, and waits so long for it to be taken.
fn prepared(stream: TcpStream, wait: Duration) -> io::Result<TcpStream> {
    match prepare(&stream, wait) {
        Ok(()) => Ok(stream),
        Err(cause) => Err(cause),
    }
}

/// Has a connection send what is written at once, and wait so long for it to be taken.
fn prepare(stream: &TcpStream, wait: Duration) -> io::Result<()> {
    stream.set_nodelay(true)?;
    stream.set_write_timeout(Some(wait))
}

/// Connects to this address of the outstation. If that takes longer than a response may take in silence, it is said, and it is tried
/// again for the rest of the time.
fn reach<R>(rt: &R, words: &RoundSettings<'_>, place: &SocketAddr) -> io::Result<TcpStream>
where
    R: Eprint + Net<Listener = TcpListener, Stream = TcpStream>,
{
    let left_ms = words.timeout_ms.saturating_sub(SILENCE_MS);
    if left_ms == 0 {
        return TcpStream::connect_timeout(rt, place, Duration::from_millis(words.timeout_ms));
    }
    match TcpStream::connect_timeout(rt, place, Duration::from_millis(SILENCE_MS)) {
        Err(cause) if cause.kind() == io::ErrorKind::TimedOut => {
            let line = Connects(words.place, *place, left_ms);
            let _ = eprintln!(rt; "{line}");
            TcpStream::connect_timeout(rt, place, Duration::from_millis(left_ms))
        }
        other => other,
    }
}

/// Connects to the outstation, at the first of the host's addresses that answers.
fn connect<R>(rt: &R, words: &RoundSettings<'_>) -> io::Result<TcpStream>
where
    R: Eprint + Net<Listener = TcpListener, Stream = TcpStream>,
{
    let wait = Duration::from_millis(words.timeout_ms);
    let mut failed = io::ErrorKind::AddrNotAvailable.into();
    for place in words.place.to_socket_addrs(rt)? {
        match reach(rt, words, &place) {
            Ok(stream) => return prepared(stream, wait),
            Err(cause) => failed = cause,
        }
    }
    Err(failed)
}
