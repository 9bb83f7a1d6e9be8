//! `dnp`, the command line of the DNP3 stack: a module for each subcommand. `main` reads the words of
//! the command line, lets `clap` judge them, and ends with the exit status that the subcommand gives.
//! Where standard error is lost, the exit status alone tells what was wrong.
#![tactic(auto)]

mod addresses;
mod answer;
mod build;
mod centre;
mod check;
mod check_words;
mod concentrate;
mod decode;
mod driven;
mod looking;
mod looks;
mod loopback;
mod numbers;
mod options;
mod outstation;
mod poll;
mod rows;
mod sim;
mod simulated;
mod store_files;
mod texts;
mod tips;
mod wire;

use crate::build::print_version;
use crate::tips::say_mistake;
use clap::error::ErrorKind;
use clap::{ArgMatches, Command};
use dnp_inputs::{network_file, plan_file};
use dnp_lines::{Own, Wrong};
use dnp_tcp::{exit, unwritten};
use std::alloc::{AllocError, Global};
use std::process::ExitCode;
use std::rt::Files;
use std::{env, io};

/// What the program is, in a line.
const ABOUT: &str = "DNP3 (IEEE Std 1815-2012) from the command line.";

/// What `dnp --help` says after the subcommands.
const AFTER: &str = "\
Each subcommand has a help text of its own, such as 'dnp answer --help'.

At a terminal some lines have colours, and long work shows how far it is. If NO_COLOR is set, there
are no colours.

Exit status: 2 if the command line is wrong, and 3 if the program itself failed, as when it is out
of memory. Standard error then has the reason; status 3 has none if the reader of the output has
gone. Each subcommand's help has its other statuses.";

/// What `dnp --version` prints after the program's name. It stands here alone: scripts read it off this line.
pub(crate) const VERSION: &str = "0.2.0";

/// How many subcommands there are.
const SUBCOMMANDS: u8 = 10;

/// Runs the command line, and says what failed.
fn main(rt: HostRuntime) -> ExitCode {
    match run(&rt) {
        Ok(status) => status,
        Err(fault) => {
            let line = Own(&fault);
            let _ = eprintln!(rt; "{line}");
            ExitCode::from(exit::FAULT)
        }
    }
}

/// Reads the words of the command line, and does what they ask.
fn run(rt: &HostRuntime) -> anyhow::Result<ExitCode> {
    let words = match env::args(rt) {
        Ok(words) => words,
        Err(fault) if fault.kind() == io::ErrorKind::InvalidData => {
            let wrong = Wrong::NotText;
            let _ = eprintln!(rt; "{wrong}");
            return Ok(ExitCode::from(exit::USAGE));
        }
        Err(fault) => return Err(fault.into()),
    };
    let words: Vec<String> = words.collect(rt.alloc())?;
    judge(rt, words.as_slice())
}

/// Lets `clap` judge the words of the command line, and does what they ask.
fn judge(rt: &HostRuntime, words: &[String]) -> anyhow::Result<ExitCode> {
    match command(rt.alloc())?.try_get_matches_from(words) {
        Ok(matches) => dispatch(rt, &matches),
        Err(error) => refuse(rt, &error, words),
    }
}

/// What `clap` has to know of the program.
fn command<'a>(alloc: Global) -> Result<Command<'a>, AllocError> {
    let mut dnp = Command::new(alloc, "dnp")
        .about(ABOUT)
        .after_help(AFTER)
        .version(VERSION)
        .propagate_version(true)
        .subcommand_required(true)
        .arg_required_else_help(true);
    for number in 0..SUBCOMMANDS {
        dnp = with_subcommand(alloc, dnp, number)?;
    }
    Ok(dnp)
}

/// A command with one subcommand more.
fn with_subcommand<'a>(
    alloc: Global,
    dnp: Command<'a>,
    number: u8,
) -> Result<Command<'a>, AllocError> {
    match subcommand(alloc, number) {
        Ok(made) => dnp.subcommand(made),
        Err(fault) => Err(fault),
    }
}

/// What `clap` has to know of a subcommand, by its number from 0.
fn subcommand<'a>(alloc: Global, number: u8) -> Result<Command<'a>, AllocError> {
    match number {
        0 => answer::command(alloc),
        1 => centre::command(alloc),
        2 => check::command(alloc),
        3 => concentrate::command(alloc),
        4 => decode::command(alloc),
        5 => loopback::command(alloc),
        6 => outstation::command(alloc),
        7 => poll::command(alloc),
        8 => rows::command(alloc),
        _ => sim::command(alloc),
    }
}

/// Does what the subcommand asks.
fn dispatch(rt: &HostRuntime, matches: &ArgMatches<'_>) -> anyhow::Result<ExitCode> {
    match matches.subcommand() {
        Some((answer::NAME, given)) => answer::run(rt, given),
        Some((centre::NAME, given)) => centre::run(rt, given),
        Some((check::NAME, given)) => check::run(rt, given),
        Some((concentrate::NAME, given)) => concentrate::run(rt, given),
        Some((decode::NAME, given)) => decode::run(rt, given),
        Some((loopback::NAME, given)) => loopback::run(rt, given),
        Some((outstation::NAME, given)) => outstation::run(rt, given),
        Some((poll::NAME, given)) => poll::run(rt, given),
        Some((rows::NAME, given)) => rows::run(rt, given),
        Some((sim::NAME, given)) => sim::run(rt, given),
        // `clap` refuses a missing or an unknown subcommand before this.
        _ => Ok(ExitCode::from(exit::USAGE)),
    }
}

/// Prints what `clap` has to say in place of matches: a help text or the version on standard output, or what is wrong
/// with the command line on standard error.
fn refuse<R: AllocGlobal + Print + Eprint + Files>(
    rt: &R,
    error: &clap::Error,
    words: &[String],
) -> anyhow::Result<ExitCode> {
    let printed = match error.kind() {
        ErrorKind::DisplayVersion => print_version(rt),
        ErrorKind::UnknownArgument => say_mistake(rt, error, words),
        _ => error.print(rt),
    };
    if let Err(cause) = printed
        && !error.use_stderr()
    {
        return Ok(unwritten(rt, &cause));
    }
    Ok(ExitCode::from(match error.kind() {
        ErrorKind::DisplayHelp | ErrorKind::DisplayVersion => exit::DONE,
        ErrorKind::OutOfMemory => exit::FAULT,
        _ => exit::USAGE,
    }))
}
