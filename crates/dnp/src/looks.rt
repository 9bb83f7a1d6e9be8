//! What `dnp sim` writes to look at: a trace, a chart and a capture of a script's run.

use clap::ArgMatches;
use dnp_inputs::Texts;
use dnp_lines::Misuse;
use dnp_tcp::{lost, unwritten};
use dnp_trace::{Log, capture_octets, chart_text, trace_text};
use dnp_watched::seen;
use std::alloc::AllocError;
use std::io::Write;
use std::process::ExitCode;
use std::rt::Files;
use std::{fs, io};

/// What stands for standard output.
const STANDARD: &str = "-";

/// Whether two of the options name one file.
fn is_one(file: &str, other: &str) -> bool {
    !file.is_empty() && file == other
}

/// Why what is asked for can't all be written, if so.
pub(crate) fn misuse(given: &ArgMatches<'_>) -> Option<Misuse> {
    let trace = given.get_str("trace").unwrap_or("");
    let chart = given.get_str("chart").unwrap_or("");
    let capture = given.get_str("capture").unwrap_or("");
    let plan = given.get_str("plan").unwrap_or("");
    if chart == STANDARD || capture == STANDARD {
        return Some(Misuse::Standard);
    }
    if trace == STANDARD && given.get_flag("json") {
        return Some(Misuse::Both);
    }
    if is_one(trace, chart) || is_one(trace, capture) || is_one(chart, capture) {
        return Some(Misuse::OneFile);
    }
    if is_one(plan, trace) || is_one(plan, chart) || is_one(plan, capture) {
        return Some(Misuse::Plan);
    }
    None
}

/// Writes a file, if it is asked for. Where it can't be written, that is said, and the exit status is told.
pub(crate) fn write_file<R: Eprint + Files>(
    rt: &R,
    path: &str,
    made: Result<Vec<u8>, AllocError>,
) -> anyhow::Result<Option<ExitCode>> {
    let octets = made?;
    match fs::write(rt, path, octets) {
        Ok(()) => Ok(None),
        Err(cause) => Ok(Some(lost(rt, path, &cause))),
    }
}

/// Writes the trace, to standard output where its file is `-`.
fn write_trace<R: AllocGlobal + Print + Eprint + Files>(
    rt: &R,
    path: &str,
    log: &Log,
) -> anyhow::Result<Option<ExitCode>> {
    let made = trace_text(rt.alloc(), log);
    if path != STANDARD {
        return write_file(rt, path, made);
    }
    let octets = made?;
    match io::writer(rt).write_all(octets.as_slice()) {
        Ok(()) => Ok(None),
        Err(cause) => Ok(Some(unwritten(rt, &cause))),
    }
}

/// Writes what is asked for of a script's run.
fn write_all<R: AllocGlobal + Print + Eprint + Files>(
    rt: &R,
    log: &Log,
    given: &ArgMatches<'_>,
) -> anyhow::Result<Option<ExitCode>> {
    if let Some(path) = given.get_str("chart")
        && let Some(status) = write_file(rt, path, chart_text(rt.alloc(), log))?
    {
        return Ok(Some(status));
    }
    if let Some(path) = given.get_str("capture")
        && let Some(status) = write_file(rt, path, capture_octets(rt.alloc(), log))?
    {
        return Ok(Some(status));
    }
    match given.get_str("trace") {
        Some(path) => write_trace(rt, path, log),
        None => Ok(None),
    }
}

/// Runs the script on a system that is watched, and writes what is asked for to look at. Nothing is written where
/// nothing is asked for, or a text is refused. Where a file can't be written, that is said, and the exit status is told.
pub(crate) fn write_looks<R: AllocGlobal + Print + Eprint + Files>(
    rt: &R,
    texts: &Texts,
    given: &ArgMatches<'_>,
) -> anyhow::Result<Option<ExitCode>> {
    if !(given.contains_id("trace") || given.contains_id("chart") || given.contains_id("capture")) {
        return Ok(None);
    }
    // What is refused here, also where it is out of memory, is said by the run that is reported.
    match seen(rt.alloc(), texts.plan.as_str(), texts.script.as_str()) {
        Ok(Some(log)) => write_all(rt, &log, given),
        Ok(None) => Err(AllocError.into()),
        Err(_) => Ok(None),
    }
}
