//! One line of a script.

ghost use Rattle.std.specs.Prelude.{◌≡◌, ◌≢◌, Err, OnOk, OnErr};
ghost use Rattle.dnp_daemons.specs.Scripted.{HappensTimes};
ghost use Rattle.dnp_daemons.specs.ScriptRuns.{StopsFlushing};
ghost use Rattle.dnp_daemons.specs.steps.Lines.{LineEnds, line_result};

use crate::run::printing::{print_control, print_round};
use crate::run::scripted::Scripted;
use crate::script::{ScriptLine, WhichCentre};
use dnp_streams::NotWritten;
use dnp_world::{Cause, ControlFault, Event, Link, RoundFault, Way};
use std::alloc::Global;
use std::io::Write;

/// Why a line was not done to its end.
#[derive(Clone, Copy, Debug, PartialEq, Eq)]
pub(crate) enum LineStop {
    /// A store or a request for memory refused. Nothing was written.
    Stopped,
    /// It was done, and the writer failed.
    Unwritten,
}

/// Delivers each unit that stands on this way of this link.
fn flush<S: Scripted>(alloc: Global, system: &mut S, link: Link, way: Way) -> Result<(), Cause>
    ensures held { S.honest system.new → S.honest system.old }
    ensures done { S.honest system.new → OnOk result (HappensTimes S.law (S.law.units (S.state system.old) link way) (Event.Deliver link way) (S.state system.old) (S.state system.new)) }
    ensures stopped { S.honest system.new → OnErr result (StopsFlushing S.law (S.state system.old) link way (S.state system.new)) }
    ensures runs_on { result ≢ Err Cause.Device → S.is_stopped system.new ≡ S.is_stopped system.old }
{
    for done in 0..system.standing(link, way) {
        match system.happen(alloc, &Event::Deliver(link, way)) {
            Ok(()) => {}
            Err(cause) => return Err(cause),
        }
    }
    Ok(())
}

/// What a line comes to whose outcome was to be printed.
fn printed(written: Result<(), NotWritten>) -> Result<(), LineStop>
    ensures { result ≡ line_result written }
{
    match written {
        Ok(()) => Ok(()),
        Err(_) => Err(LineStop::Unwritten),
    }
}

/// A clean round, and how it came out.
fn round<S: Scripted, W: Write>(
    alloc: Global,
    system: &mut S,
    link: Link,
    out: &mut W,
) -> Result<(), LineStop>
    ensures held { S.honest system.new → S.honest system.old }
    ensures ends { S.honest system.new → LineEnds S.law (S.state system.old) (ScriptLine.Round link) result (S.state system.new) (W.contents out.old) (W.contents out.new) }
    ensures runs_on { result ≢ Err LineStop.Stopped → S.is_stopped system.new ≡ S.is_stopped system.old }
{
    match system.clean_round(alloc, link) {
        Ok(()) => printed(print_round(link, None, out)),
        Err(RoundFault::NotQuiet) => printed(print_round(link, Some(1), out)),
        Err(RoundFault::Fault(_)) => Err(LineStop::Stopped),
    }
}

/// A clean control, and how it came out.
fn control<S: Scripted, W: Write>(
    alloc: Global,
    system: &mut S,
    centre: WhichCentre,
    id: u64,
    out: &mut W,
) -> Result<(), LineStop>
    ensures held { S.honest system.new → S.honest system.old }
    ensures ends { S.honest system.new → LineEnds S.law (S.state system.old) (ScriptLine.Control centre id) result (S.state system.new) (W.contents out.old) (W.contents out.new) }
    ensures runs_on { result ≢ Err LineStop.Stopped → S.is_stopped system.new ≡ S.is_stopped system.old }
{
    match system.clean_control(alloc, centre, id) {
        Ok(()) => printed(print_control(centre, id, None, out)),
        Err(ControlFault::NotQuiet) => printed(print_control(centre, id, Some(1), out)),
        Err(ControlFault::NotNext) => printed(print_control(centre, id, Some(2), out)),
        Err(ControlFault::Refused(_)) => printed(print_control(centre, id, Some(3), out)),
        Err(ControlFault::Fault(_)) => Err(LineStop::Stopped),
    }
}

/// Does what a line of a script asks for, and prints how a round or a control came out.
pub(crate) fn run_line<S: Scripted, W: Write>(
    alloc: Global,
    system: &mut S,
    line: &ScriptLine,
    out: &mut W,
) -> Result<(), LineStop>
    ensures held { S.honest system.new → S.honest system.old }
    ensures ends { S.honest system.new → LineEnds S.law (S.state system.old) line.now result (S.state system.new) (W.contents out.old) (W.contents out.new) }
    ensures runs_on { result ≢ Err LineStop.Stopped → S.is_stopped system.new ≡ S.is_stopped system.old }
{
    match line {
        ScriptLine::One(event) => match system.happen(alloc, event) {
            Ok(()) => Ok(()),
            Err(_) => Err(LineStop::Stopped),
        },
        ScriptLine::Flush(link, way) => match flush(alloc, system, *link, *way) {
            Ok(()) => Ok(()),
            Err(_) => Err(LineStop::Stopped),
        },
        ScriptLine::Round(link) => round(alloc, system, *link, out),
        ScriptLine::Control(centre, id) => control(alloc, system, *centre, *id, out),
    }
}
