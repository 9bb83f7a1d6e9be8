//! `dnp decode`: octets as lines for people.

use crate::check_words::first_wrong;
use crate::options::{flag, subcommand, valued};
use clap::{ArgMatches, Command};
use dnp_captures::{
    CaptureFault, Decoded, Form, Item, What, decode_capture, items_of_text, octets_of_text,
    place_octets, print_decoded, push_refused,
};
use dnp_inputs::{octets_of, say_meant};
use dnp_lines::{AtLine, AtOctet, Meant, Of, Own, Refused, Wrong};
use dnp_tcp::{Noted, exit, unwritten};
use dnp_terminal::Terminal;
use std::alloc::{AllocError, Global};
use std::io::{BufWriter, Write};
use std::process::ExitCode;
use std::rt::Files;
use std::{fs, io};

/// The subcommand's name.
pub const NAME: &str = "decode";

/// What it does, in a line.
const ABOUT: &str = "Print the frames, segments, fragments, headers and objects in octets";

/// What its help text says after the options.
const AFTER: &str = "\
INPUT
  Standard input has hexadecimal octets in lines. Each octet has two digits, upper or lower case.
  Blanks, commas, colons, semicolons and dashes between octets are optional, and so are 0x and \\x
  before them. Dumps of xxd, hexdump -C and Wireshark are read without their addresses and
  characters. The octets of all lines are one stream. With --raw standard input has the octets
  themselves. The input has at most 16,777,216 octets.

EXAMPLE
  Master 1 asks outstation 10 for its events:

    echo '05 64 11 C4 0A 00 01 00 06 15 C0 C0 01 3C 02 06 3C 03 06 3C 04 06 9E 30' | dnp decode

  1 1>10 C4 UNCONFIRMED_USER_DATA 12 octets, words good
  1   transport FIR FIN 0
  1   request seq 0 fir fin READ
  1     60.2 all
  1     60.3 all
  1     60.4 all

OUTPUT
  Each link frame, transport segment, fragment, object header and object has a line on standard
  output. The line begins with a number: the line of the input in which the frame ends. In a
  capture it is the number of the packet. With --raw it is the first octet of the frame, counted
  from 0. Each layer above frames is indented by two more blanks.

    1>10 C4 UNCONFIRMED_USER_DATA 15 octets, words good
              A frame from station 1 to station 10: the CONTROL octet, the function, and the number
              of octets of user data. The check words are right.

    transport FIR FIN 0
              A segment with sequence number 0, which is the first and the last of its fragment.
              The segments from one station to another are joined apart from all others.

    request seq 0 fir fin con READ
              A request: its sequence number, the bits that are set, and its function.

    response seq 0 fir fin, iin 80 00 DEVICE_RESTART
              A response with its internal indications, and the name of each that is set. An
              unsolicited response has 'uns'; --json has its function.

    30.1 5..6, 2.2 x1, 60.2 all
              Object headers: group 30 variation 1 with the indexes 5 to 6, one object, and all
              objects. Without --json a header with objects has no line; each object repeats it.

    2.2 x1: 3 = 1 flags 01 ONLINE at 2026-01-31T12:00:00.000Z
              An object after its header: the index, the value, the flags without the state bit and
              the name of each that is set, and the time in UTC. States of outputs (10.2) and
              setpoints (40.1, 40.2) have the same form.

    12.1 x1: 5 code 81 count 2 on 100 off 200 status 0
              A command to output 5: the code in hexadecimal, and the times in milliseconds.

    41.2 x1: 5 set -2 status 0
              A command to setpoint 5.

  Some objects lack a part. The flags of 1.1, 20.5, 20.6, 30.3 and 30.4 are printed as 01. An
  indication (80.1) has no flags. Times (50.1, 51.1, 51.2) and a delay (52.2) have no index. The
  relative time of 2.3 is printed as a whole time.

BEYOND THE PROFILE
  The stations of dnp speak a part of the standard. Other functions and objects have lines that end
  in 'beyond the profile':

    request seq 0 fir fin COLD_RESTART, beyond the profile
    30.5 0..1 analog input, single-precision with flag, beyond the profile
    30.5 0..1: 0 octets 01 00 00 C0 3F, beyond the profile
    3.1 0..3: 0 = 2, beyond the profile
              A function, an object header by name, an object with its index and its octets, and a
              packed object with its bits.

  They are not refused, and the rest of the fragment is read.

REFUSED OCTETS
  Refused octets have a line with the name of the fault and its place, as 'frame refused: BlockCheck
  1 at octet 28'. The place is an octet of the frame or the fragment, counted from 0. For a header
  it is the octet in which the header begins; the headers before it have their lines.

  - frame refused: Length (less than 5) or BlockCheck.
  - segment refused: Size (less than 2 octets) or Series. With Series it does not continue the
    segment before it, or the fragment is too long.
  - fragment refused: Short (too few octets) or FunctionUnknown.
  - header refused: HeaderCut, QualifierUnknown, ObjectUnknown, RangeBackward, SizeUnknown (of the
    objects), ObjectsCut or CommonTime.
  - text refused: a line is not hexadecimal. None of its octets are taken.
  - skipped: octets begin no frame, or a header has a wrong check word. The next octet may begin a
    frame.
  - Cut: the last octets are too few for a frame. The line has their number.

  Standard error has the right word for the first wrong check word, and its octet in the frame. It
  has none for a capture, and none if there is a 'text refused'.
  A function or an object is unknown if the standard doesn't have it. An unknown function of the
  link layer is not refused. A fragment without its first or last segments has no line, and is not
  refused. docs/decode.md lists all names.

CAPTURES
  --pcap reads a capture, pcap or pcapng, of Ethernet, raw IP, loopback or Linux's 'any'. It takes
  the octets of TCP and UDP. Each direction of each connection is a stream. A stream that would have
  only 'skipped' and 'Cut' lines is another protocol's: it has no lines, and is not refused. Missing
  octets are not reported; the octets before and after them are joined. Packets of a pcapng that
  another interface brought are left out.
  A file that is not such a capture has the line 'refused capture NAME'. Standard error has the
  reason. A capture that ends within packet 1 has '1 packet refused: the capture ends in it'.

JSON
  With --json each line is a JSON object. 'at' is the number, 'layer' is the layer, and 'refused' is
  there if something is refused. docs/decode.md has all members.

EXIT STATUS
  0: All was read, or there was nothing to read.
  1: Something was refused, or the file is not a capture that this program reads.
  2: The command line is wrong.
  3: The program failed: the file can't be read, the input is over its limit, out of memory, or the
     input or the output was lost.";

/// The most octets of input that are read. So no input can fill the memory.
const MAX_INPUT: u64 = 16 * 1_024 * 1_024;

/// What is said of the options.
const RAW: &str = "Read octets, and not hexadecimal lines, on standard input";

const PCAP: &str = "Read a capture instead of standard input";

const JSON: &str = "Print each line as a JSON object";

/// What `clap` has to know of `dnp decode`.
pub(crate) fn command<'a>(alloc: Global) -> Result<Command<'a>, AllocError> {
    let choices = [
        flag("raw", RAW),
        valued("pcap", "FILE", PCAP),
        flag("json", JSON),
    ];
    subcommand(alloc, NAME, ABOUT, AFTER, &choices)
}

/// How the given words want lines printed: text has colours where standard output is a terminal.
fn form_given<R: Terminal>(rt: &R, given: &ArgMatches<'_>) -> Form {
    if given.get_flag("json") {
        Form::Json
    } else {
        Form::Text(rt.output_screen())
    }
}

/// Decodes the input by the given words, and tells the exit status.
pub(crate) fn run<R: AllocGlobal + Input + Print + Eprint + Terminal + Files>(
    rt: &R,
    given: &ArgMatches<'_>,
) -> anyhow::Result<ExitCode> {
    let form = form_given(rt, given);
    let raw = given.get_flag("raw");
    match given.get_str("pcap") {
        Some(_) if raw => {
            let wrong = Wrong::Together("--raw", "--pcap <FILE>");
            let _ = eprintln!(rt; "{wrong}");
            Ok(ExitCode::from(exit::USAGE))
        }
        Some(path) => match octets_of(rt, path, fs::open(rt, path), MAX_INPUT) {
            Ok(octets) => print_capture(rt, path, octets.as_slice(), form),
            Err(status) => Ok(status),
        },
        None => match octets_of(rt, "standard input", Ok(rt.reader()), MAX_INPUT) {
            Ok(octets) => decode_octets(rt, octets.as_slice(), raw, form),
            Err(status) => Ok(status),
        },
    }
}

/// Prints what raw octets carry, or hexadecimal lines, and tells the exit status.
fn decode_octets<R: AllocGlobal + Print + Eprint>(
    rt: &R,
    given: &[u8],
    raw: bool,
    form: Form,
) -> anyhow::Result<ExitCode> {
    let decoded = if raw {
        let items = place_octets(rt.alloc(), given)?;
        with_refused(rt.alloc(), given, items)?
    } else {
        let items = items_of_text(rt.alloc(), given)?;
        let octets = octets_of_text(rt.alloc(), given)?;
        with_refused(rt.alloc(), octets.as_slice(), items)?
    };
    let status = print_all(rt, &decoded, form)?;
    if status == ExitCode::from(exit::REFUSED) {
        say_word(rt, given, decoded.items.as_slice(), raw)?;
        let wanted = if raw {
            Meant::Octets
        } else {
            Meant::Hexadecimal
        };
        say_meant(rt, "standard input", given, wanted);
    }
    Ok(status)
}

/// The items of a stream with the fragments of it that are refused.
fn with_refused(alloc: Global, stream: &[u8], items: Vec<Item>) -> Result<Decoded, AllocError> {
    let mut fragments = Vec::new(alloc);
    push_refused(alloc, stream, items.as_slice(), &mut fragments)?;
    Ok(Decoded { items, fragments })
}

/// Says on standard error which check word is the first that is wrong in raw octets or hexadecimal lines, which have these items, if
/// one is. Of lines of which some are refused it says nothing: those have no octets in the stream.
fn say_word<R: AllocGlobal + Eprint>(
    rt: &R,
    octets: &[u8],
    items: &[Item],
    raw: bool,
) -> Result<(), AllocError> {
    if raw {
        if let Some((number, wrong)) = first_wrong(rt.alloc(), octets)?
            && let Some(item) = items.get(number)
        {
            let line = AtOctet(item.at, &wrong);
            let _ = eprintln!(rt; "{line}");
        }
        return Ok(());
    }
    if items.iter().any(|item| matches!(item.what, What::Text(_))) {
        return Ok(());
    }
    let octets = octets_of_text(rt.alloc(), octets)?;
    if let Some((number, wrong)) = first_wrong(rt.alloc(), octets.as_slice())?
        && let Some(item) = items.get(number)
    {
        let line = AtLine(item.at, &wrong);
        let _ = eprintln!(rt; "{line}");
    }
    Ok(())
}

/// Prints what a capture carries, or why it is refused, and tells the exit status.
fn print_capture<R: AllocGlobal + Print + Eprint>(
    rt: &R,
    path: &str,
    octets: &[u8],
    form: Form,
) -> anyhow::Result<ExitCode> {
    match decode_capture(rt.alloc(), octets) {
        Ok(decoded) => print_all(rt, &decoded, form),
        Err(CaptureFault::Memory) => {
            let line = Own(&CaptureFault::Memory);
            let _ = eprintln!(rt; "{line}");
            Ok(ExitCode::from(exit::FAULT))
        }
        Err(fault) => {
            let refused = Refused::Capture(fault.name());
            if let Err(cause) = println!(rt; "{refused}") {
                return Ok(unwritten(rt, &cause));
            }
            let line = Of(path, &fault);
            let _ = eprintln!(rt; "{line}");
            say_meant(rt, path, octets, Meant::Capture);
            Ok(ExitCode::from(exit::REFUSED))
        }
    }
}

/// Prints what was decoded, and tells the exit status.
fn print_all<R: AllocGlobal + Print + Eprint>(
    rt: &R,
    decoded: &Decoded,
    form: Form,
) -> anyhow::Result<ExitCode> {
    let mut out = BufWriter::new(rt.alloc(), Noted::new(io::writer(rt)))?;
    print_into(rt, decoded, form, &mut out)
}

/// Prints it into this buffer, and tells the exit status.
fn print_into<R: AllocGlobal + Eprint, W: Write + Drop>(
    rt: &R,
    decoded: &Decoded,
    form: Form,
    out: &mut BufWriter<Noted<W>>,
) -> anyhow::Result<ExitCode> {
    let printed = print_decoded(rt.alloc(), decoded, form, &mut *out);
    let flushed = out.flush();
    if let Some(cause) = out.get_ref().cause() {
        return Ok(unwritten(rt, cause));
    }
    flushed?;
    Ok(ExitCode::from(if printed? { exit::REFUSED } else { exit::DONE }))
}
