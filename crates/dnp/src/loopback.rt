//! `dnp loopback`: a whole system of a plan, run by a script, whose units go over TCP to the program itself.

use crate::options::{plan, subcommand};
use crate::texts::{finish, limit, plain, stores_given, texts_given};
use crate::wire::Wire;
use clap::{ArgMatches, Command};
use dnp_daemons::{Stores, loop_text};
use dnp_inputs::Texts;
use dnp_lines::WIRE;
use dnp_tcp::{Noted, lost};
use std::alloc::{AllocError, Global};
use std::io;
use std::io::{BufWriter, Write};
use std::net::{Net, TcpListener, TcpStream};
use std::process::ExitCode;
use std::rt::Files;

/// The subcommand's name.
pub const NAME: &str = "loopback";

/// What it does, in a line.
const ABOUT: &str =
    "Run a script as 'sim' does, with each frame sent over TCP to the program itself";

/// What its help text says after the options.
const AFTER: &str = "\
EXAMPLE
  A change at the substation goes to the concentrator, and then to the first centre. At the top of
  the repository:

    printf 'open 0\\nopen above\\nchange 0 binary 0 1 01 1000\\nround 0\\nround above\\n' |
      dnp loopback --plan examples/plan.toml

INPUT
  The plan and the script are those of 'dnp sim', without the lines 'lose', 'repeat' and 'damage'.
  These are refused. The databases, and --plain, are those of 'dnp sim'.

TCP
  The program connects to itself on the loopback interface, at a port that the machine chooses. It
  writes each frame that arrives to this connection, reads it at the other end, and compares both.

OUTPUT
  The output is that of 'dnp sim' for the same plan and script. If the connection fails after N
  lines of the script, the output has 'stopped N'.

EXIT STATUS
  0: The script ran, and the report was printed.
  1: The plan or the script was refused.
  2: The command line is wrong.
  3: The program failed:
     - The plan can't be read, or the script is over its limit.
     - The connection failed, or the input or the output was lost.
     - A database failed, or memory ran out.";

/// What `clap` has to know of `dnp loopback`.
pub(crate) fn command<'a>(alloc: Global) -> Result<Command<'a>, AllocError> {
    let choices = [plan(), limit(), plain()];
    subcommand(alloc, NAME, ABOUT, AFTER, &choices)
}

/// Runs the script on standard input by the given words, and tells the exit status.
pub(crate) fn run<R>(rt: &R, given: &ArgMatches<'_>) -> anyhow::Result<ExitCode>
where
    R: AllocGlobal + Input + Print + Eprint + Files,
    R: Net<Listener = TcpListener, Stream = TcpStream>,
{
    match texts_given(rt, given)? {
        Ok(texts) => connect(rt, &texts, stores_given(given)),
        Err(status) => Ok(status),
    }
}

/// Connects the program to itself, runs the script, and tells the exit status.
fn connect<R>(rt: &R, texts: &Texts, stores: Stores) -> anyhow::Result<ExitCode>
where
    R: AllocGlobal + Print + Eprint,
    R: Net<Listener = TcpListener, Stream = TcpStream>,
{
    match Wire::new(rt) {
        Ok(mut wire) => carry(rt, texts, stores, &mut wire),
        Err(cause) => Ok(lost(rt, WIRE, &cause)),
    }
}

/// Runs the script over the wire, and tells the exit status.
fn carry<R: AllocGlobal + Print + Eprint>(
    rt: &R,
    texts: &Texts,
    stores: Stores,
    wire: &mut Wire,
) -> anyhow::Result<ExitCode> {
    let mut out = BufWriter::new(rt.alloc(), Noted::new(io::writer(rt)))?;
    carry_into(rt, texts, stores, wire, &mut out)
}

/// Runs the script over the wire, prints into this buffer, and tells the exit status.
fn carry_into<R: AllocGlobal + Eprint, W: Write + Drop>(
    rt: &R,
    texts: &Texts,
    stores: Stores,
    wire: &mut Wire,
    out: &mut BufWriter<Noted<W>>,
) -> anyhow::Result<ExitCode> {
    let ended = loop_text(
        rt.alloc(),
        texts.plan.as_str(),
        texts.script.as_str(),
        stores,
        &mut *wire,
        &mut *out,
    );
    if let Some(cause) = wire.cause() {
        lost(rt, WIRE, cause);
    }
    finish(rt, texts, Some(wire), out, ended)
}
