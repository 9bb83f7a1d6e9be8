//! The texts of a plan and a script, and what is said of a script that is none for its plan, or that stops.

ghost use Rattle.dnp_concentrator.specs.Plan.{KeepsLimits};

use crate::plan_file::{plan_text, refused};
use dnp_concentrator::Plan;
use dnp_daemons::{PlanTextFault, ScriptStop, idle_lines, read_plan, script_fault};
use dnp_lines::{Line, Own, Starved};
use dnp_tcp::{exit, lost};
use std::alloc::{AllocError, Global};
use std::io;
use std::io::Read;
use std::process::ExitCode;
use std::rt::Files;

/// The texts of a plan and of a script for it.
#[derive(Drop)]
pub struct Texts {
    /// The text of the plan, which says one.
    pub plan: String,
    /// The text of the script.
    pub script: String,
}

/// What is said of a text that is not UTF-8 from some place on: the character that stands there fits nowhere.
const NO_CHARACTER: &str = "\u{FFFD}";

/// Reads the plan from its file, and then the script on standard input. Where one of them can't be read, or the plan is
/// refused, that is said, and the exit status is told.
pub fn read_texts<R: AllocGlobal + Input + Print + Eprint + Files>(
    rt: &R,
    path: &str,
    limit: u64,
) -> anyhow::Result<Result<Texts, ExitCode>> {
    // Judged before the script is read, so that nobody writes one for a plan that is refused.
    let plan = match judged_plan(rt, path) {
        Ok(plan) => plan,
        Err(status) => return Ok(Err(status)),
    };
    match script_text(rt, limit) {
        Ok(Ok(script)) => Ok(Ok(Texts { plan, script })),
        Ok(Err(status)) => Ok(Err(status)),
        Err(fault) => Err(fault.into()),
    }
}

/// The text of the plan in its file. Where it can't be read, or is refused, that is said, and the exit status is told.
fn judged_plan<R: AllocGlobal + Print + Eprint + Files>(
    rt: &R,
    path: &str,
) -> Result<String, ExitCode> {
    let plan = match String::from_utf8(plan_text(rt, path)?) {
        Ok(plan) => plan,
        Err(fault) => {
            let octets = fault.into_bytes();
            return Err(refused(rt, path, octets.as_slice(), PlanTextFault::Syntax));
        }
    };
    match plan_status(rt, path, plan.as_str()) {
        Some(status) => Err(status),
        None => Ok(plan),
    }
}

/// The exit status of a plan that is refused, which is said; none of one that isn't.
fn plan_status<R: AllocGlobal + Print + Eprint>(
    rt: &R,
    path: &str,
    text: &str,
) -> Option<ExitCode> {
    match read_plan(rt.alloc(), text) {
        Ok(_) => None,
        Err(fault) => Some(refused(rt, path, text.as_bytes(), fault)),
    }
}

/// Reads the script on standard input. Where it can't be read, that is said, and the exit status is told.
fn script_text<R: AllocGlobal + Input + Eprint>(
    rt: &R,
    limit: u64,
) -> Result<Result<String, ExitCode>, AllocError> {
    let mut script = Vec::new(rt.alloc());
    let read = rt
        .reader()
        .take(limit.saturating_add(1))
        .read_to_end(&mut script);
    if let Some(status) = unread_status(rt, read, script.len() as u64, limit) {
        return Ok(Err(status));
    }
    match as_text(rt.alloc(), script) {
        Ok(script) => Ok(Ok(script)),
        Err(fault) => Err(fault),
    }
}

/// The exit status of a script of so many octets that wasn't read as a whole, which is said; none of one that was.
fn unread_status<R: Eprint>(
    rt: &R,
    read: io::Result<usize>,
    octets: u64,
    limit: u64,
) -> Option<ExitCode> {
    match read {
        Err(cause) => Some(lost(rt, "standard input", &cause)),
        Ok(_) if octets > limit => {
            let line = Line::OverLimit(limit);
            let _ = eprintln!(rt; "{line}");
            Some(ExitCode::from(exit::FAULT))
        }
        Ok(_) => None,
    }
}

/// The octets as a text, in their own place. Where they stop being UTF-8, the text ends in a character that fits nowhere:
/// the line that holds it is refused, and so is none before it that fits.
fn as_text(alloc: Global, octets: Vec<u8>) -> Result<String, AllocError> {
    let fault = match String::from_utf8(octets) {
        Ok(text) => return Ok(text),
        Err(fault) => fault,
    };
    let end = fault.utf8_error().valid_up_to();
    let mut octets = fault.into_bytes();
    octets.truncate(end);
    octets.extend_from_slice(NO_CHARACTER.as_bytes())?;
    match String::from_utf8(octets) {
        Ok(text) => Ok(text),
        Err(_) => String::from_str(alloc, NO_CHARACTER),
    }
}

/// Says on standard error why a script was not run to its report. A line stops at a unit that the wire lost, of which that
/// was said, or else out of memory: where a database failed, that is the fault, and the stores' numbers end at 2^62.
pub fn say_stop<R: Eprint>(rt: &R, stop: ScriptStop, is_lost: bool) {
    let _ = match stop {
        ScriptStop::Stopped(_) if !is_lost => {
            let line = Starved(&stop);
            eprintln!(rt; "{line}")
        }
        _ => {
            let line = Own(&stop);
            eprintln!(rt; "{line}")
        }
    };
}

/// Says on standard error what is to be said of a script that came to this exit status: where and why it is none for the
/// plan, or which of its lines did nothing.
pub fn explain<R: AllocGlobal + Eprint>(rt: &R, texts: &Texts, carried: bool, status: u8) {
    let Ok(plan) = read_plan(rt.alloc(), texts.plan.as_str()) else {
        return;
    };
    match status {
        exit::DONE => say_idle(rt, texts, &plan),
        exit::REFUSED => say_fault(rt, texts, &plan, carried),
        _ => {}
    }
}

/// Says on standard error where and why the text is no script for the plan.
fn say_fault<R: AllocGlobal + Eprint>(rt: &R, texts: &Texts, plan: &Plan, carried: bool)
    requires { KeepsLimits plan.now }
{
    match script_fault(rt.alloc(), texts.script.as_str(), plan, carried) {
        Ok(Some(fault)) => {
            let line = Own(&fault);
            let _ = eprintln!(rt; "{line}");
        }
        Ok(None) => {}
        Err(fault) => {
            let line = Own(&fault);
            let _ = eprintln!(rt; "{line}");
        }
    }
}

/// Says on standard error how many lines of the script did nothing, which is the first, and why.
fn say_idle<R: AllocGlobal + Eprint>(rt: &R, texts: &Texts, plan: &Plan) {
    match idle_lines(rt.alloc(), texts.script.as_str(), plan) {
        Ok(Some(lines)) => {
            let line = Own(&lines);
            let _ = eprintln!(rt; "{line}");
        }
        Ok(None) => {}
        Err(fault) => {
            let line = Own(&fault);
            let _ = eprintln!(rt; "{line}");
        }
    }
}
