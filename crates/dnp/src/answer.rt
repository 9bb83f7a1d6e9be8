//! `dnp answer`: the outstation's answer to one link frame.

use crate::check_words::word_of_frame;
use crate::options::{defaulted, subcommand};
use clap::{ArgMatches, Command};
use dnp_captures::octets_of_text;
use dnp_daemons::{AnswerFault, answer_line, read_address, read_text, text_fault};
use dnp_lines::{Of, Wanted, Wrong};
use dnp_tcp::{Noted, exit, lost, unwritten};
use std::alloc::{AllocError, Global};
use std::io;
use std::process::ExitCode;

/// The subcommand's name.
pub const NAME: &str = "answer";

/// What it does, in a line.
const ABOUT: &str = "Answer one link frame as an outstation does, and print the answer";

/// What its help text says after the options.
const AFTER: &str = "\
INPUT
  Standard input has one line: the octets of one link frame, with header, data and check words.
  Each octet has two hexadecimal digits, upper or lower case. One space separates two octets. The
  line has at most 2,000 characters, and may end with a line feed. Ctrl-D ends it at a terminal.

EXAMPLE
  Master 1 asks outstation 10 for its events:

    echo '05 64 11 C4 0A 00 01 00 06 15 C0 C0 01 3C 02 06 3C 03 06 3C 04 06 9E 30' | dnp answer

  05 64 0A 44 01 00 0A 00 6E 25 C0 C0 81 80 00 B3 F3

THE OUTSTATION
  It has no points. It has just restarted, and its connection has just been opened.

OUTPUT
  Standard output has a line for each frame of the answer, in the form of the input. The frames
  are a reply of the link layer, as to a reset, or the frames of the response to a request.
  Other inputs have one of these lines:

  - no answer: the outstation is silent, as for a frame to another address.
  - refused 0 Text: the input is not written as above.
  - refused 1 Short: there are fewer than 10 octets.
  - refused 2 Start: the first octets are not 05 64.
  - refused 3 HeaderCheck: the check word of the header is wrong.
  - refused 4 Length: LENGTH is less than 5.
  - refused 5 Size: the number of octets is not the one that LENGTH gives.
  - refused 6 BlockCheck B: the check word of data block B is wrong. Blocks are counted from 0, and
    the first wrong one is named.

  With 'refused 0 Text' a line on standard error has the reason, and the column of the first wrong
  character. A line of more than 2,000 characters has no column. With a wrong check word it has the
  octet of the frame, counted from 0, and the right check word.

EXIT STATUS
  0: The input is a frame, with or without an answer.
  1: The input was refused.
  2: The command line is wrong.
  3: The program failed: out of memory, or the input or the output was lost.";

/// What is said of the options.
const OWN: &str = "The link address of the outstation, 0 to 65519";

const PEER: &str = "The link address of its master, 0 to 65519";

/// What `clap` has to know of `dnp answer`.
pub(crate) fn command<'a>(alloc: Global) -> Result<Command<'a>, AllocError> {
    let choices = [
        defaulted("own", "ADDRESS", "10", OWN),
        defaulted("peer", "ADDRESS", "1", PEER),
    ];
    subcommand(alloc, NAME, ABOUT, AFTER, &choices)
}

/// Answers the line on standard input by the given words, and tells the exit status.
pub(crate) fn run<R: AllocGlobal + Input + Print + Eprint>(
    rt: &R,
    given: &ArgMatches<'_>,
) -> anyhow::Result<ExitCode> {
    let Some(own) = address_given(rt, given, "own") else {
        return Ok(ExitCode::from(exit::USAGE));
    };
    let Some(peer) = address_given(rt, given, "peer") else {
        return Ok(ExitCode::from(exit::USAGE));
    };
    let text = match read_text(rt.alloc(), rt.reader()) {
        Ok(text) => text,
        Err(cause) => return Ok(lost(rt, "standard input", &cause)),
    };
    let mut out = Noted::new(io::writer(rt));
    match answer_line(rt.alloc(), text.as_slice(), own, peer, &mut out) {
        Ok(true) => Ok(ExitCode::from(exit::DONE)),
        Ok(false) => {
            explain(rt, text.as_slice());
            Ok(ExitCode::from(exit::REFUSED))
        }
        Err(fault) => Ok(unanswered(rt, fault, out.cause())),
    }
}

/// Says on standard error where and why a text is no line of octets, if it isn't, or which check word of its frame is wrong.
fn explain<R: AllocGlobal + Eprint>(rt: &R, text: &[u8]) {
    if let Some(fault) = text_fault(text) {
        let line = Of("standard input", &fault);
        let _ = eprintln!(rt; "{line}");
    } else if let Ok(octets) = octets_of_text(rt.alloc(), text)
        && let Some(wrong) = word_of_frame(octets.as_slice())
    {
        let line = Of("standard input", &wrong);
        let _ = eprintln!(rt; "{line}");
    }
}

/// Says on standard error why the answer was not written, and gives the exit status of a fault.
fn unanswered<R: Eprint>(rt: &R, fault: AnswerFault, cause: Option<&io::Error>) -> ExitCode {
    if let Some(cause) = cause {
        return unwritten(rt, cause);
    }
    let line = Of("standard output", &fault);
    let _ = eprintln!(rt; "{line}");
    ExitCode::from(exit::FAULT)
}

/// The address that an option gives. Where it gives none, what is wrong with it is printed.
fn address_given<'a, R: Eprint>(rt: &R, given: &'a ArgMatches<'_>, option: &'a str) -> Option<u16> {
    let text = match given.get_str(option) {
        Some(text) => text,
        None => "",
    };
    let address = read_address(text);
    if address.is_none() {
        let wrong = Wrong::Value(text, option, "ADDRESS", Wanted::LinkAddress);
        let _ = eprintln!(rt; "{wrong}");
    }
    address
}
