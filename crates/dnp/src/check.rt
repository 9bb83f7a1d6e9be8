//! `dnp check`: checks a plan and its network file, and prints the system.

ghost use Rattle.dnp_concentrator.specs.Plan.{KeepsLimits};

mod csv;
mod disagreed;
mod json;
mod system;
mod table;

use crate::check::csv::write_csv;
use crate::check::disagreed::say_disagreed;
use crate::check::json::write_json;
use crate::check::system::System;
use crate::check::table::write_table;
use crate::network_file::{network_given, points_given};
use crate::options::{flag, network, plan, subcommand};
use crate::plan_file::plan_given;
use clap::{ArgMatches, Command};
use dnp_concentrator::Plan;
use dnp_tcp::{exit, unwritten};
use dnp_terminal::{Screen, Terminal};
use std::alloc::{AllocError, Global};
use std::io;
use std::io::Write;
use std::process::ExitCode;
use std::rt::Files;

/// The subcommand's name.
pub(crate) const NAME: &str = "check";

/// What the subcommand does, in a line.
const ABOUT: &str = "Check a plan and its network file, and print the system as a table";

/// What its help text says after the options.
const AFTER: &str = "\
EXAMPLE
  At the top of the repository:

    dnp check --plan examples/plan.toml --network examples/network.toml

INPUT
  The plan has the points of the stations. The network file says where the stations are, and has
  names for them and for their points. docs/scripts.md describes the plan, and docs/network.md the
  network file. Without --network the plan alone is checked. The program opens these files only, and
  looks up no name of a host.

OUTPUT
  With --network each station has a line: where it is found, where it listens, its link address,
  the address of its peer, and its name. The peer of a substation is its master. The peer of the
  concentrator is the centre.
  Then each point has a line: its substation, kind, index at the substation, index above, class,
  deadband, and name with the unit. '-' means none.
  At last there is a line 'disagree: ..' for each link that has unsolicited responses in one file
  only. The plan has those that its outstation sends, and the network file those that its master
  enables. The line says how events come then.
  With --csv there are CSV records (RFC 4180) after this header:
    station,name,at,listen,address,peer,kind,index,above,class,deadband,point,unit,scale,zero,one
  The records of the stations come first, and have no kind. The station is the number of a
  substation, 'concentrator', or 'concentrator2' for the link to the second centre. Standard error
  has the lines 'disagree: ..'.
  With --json there is one object with \"name\", \"concentrator\", \"substations\", \"disagree\" and
  \"points\"; null means none.
  A refused plan prints 'refused plan N', as with 'dnp sim'. Standard error then has the file, the
  line if it is known, the key, the wrong value, and the form of a right one.

EXIT STATUS
  0: No file is refused.
  1: A file is refused.
  2: The command line is wrong.
  3: The program failed: a file can't be read, out of memory, or the output was lost.";

/// What is said of the options.
const CSV: &str = "Print CSV records; excludes --json";

const JSON: &str = "Print a JSON object";

/// How the system is printed.
#[derive(Clone, Copy)]
enum Form {
    /// A table for people, whose headings may be in bold there.
    Table(Screen),
    /// Records of CSV.
    Csv,
    /// A JSON object.
    Json,
}

/// What `clap` has to know of `dnp check`.
pub(crate) fn command<'a>(alloc: Global) -> Result<Command<'a>, AllocError> {
    let choices = [
        plan(),
        network(),
        flag("csv", CSV).excluding("json"),
        flag("json", JSON),
    ];
    subcommand(alloc, NAME, ABOUT, AFTER, &choices)
}

/// How the words want the system printed.
fn form_given<R: Terminal>(rt: &R, given: &ArgMatches<'_>) -> Form {
    if given.get_flag("csv") {
        Form::Csv
    } else if given.get_flag("json") {
        Form::Json
    } else {
        Form::Table(rt.output_screen())
    }
}

/// Judges the files that the given words name, prints the system, and tells the exit status.
pub(crate) fn run<R: AllocGlobal + Print + Eprint + Terminal + Files>(
    rt: &R,
    given: &ArgMatches<'_>,
) -> anyhow::Result<ExitCode> {
    let form = form_given(rt, given);
    let plan = match plan_given(rt, given.get_str("plan").unwrap_or("")) {
        Ok(plan) => plan,
        Err(status) => return Ok(status),
    };
    match given.get_str("network") {
        Some(path) => judge(rt, form, &plan, path),
        None => print_system(
            rt,
            form,
            &System {
                plan: &plan,
                network: None,
                points: &[],
            },
        ),
    }
}

/// Judges the file of the plan's network, prints the system, and tells the exit status.
fn judge<R: AllocGlobal + Print + Eprint + Files>(
    rt: &R,
    form: Form,
    plan: &Plan,
    path: &str,
) -> anyhow::Result<ExitCode>
    requires { KeepsLimits plan.now }
{
    let network = match network_given(rt, path, plan)? {
        Ok(network) => network,
        Err(status) => return Ok(status),
    };
    match points_given(rt, path, plan, &network)? {
        Ok(points) => print_system(
            rt,
            form,
            &System {
                plan,
                network: Some(&network),
                points: points.as_slice(),
            },
        ),
        Err(status) => Ok(status),
    }
}

/// Prints the system, and tells the exit status.
fn print_system<R: AllocGlobal + Print + Eprint>(
    rt: &R,
    form: Form,
    system: &System<'_>,
) -> anyhow::Result<ExitCode> {
    let mut printed = Vec::new(rt.alloc());
    match form {
        Form::Table(screen) => write_table(&mut printed, rt.alloc(), system, screen)?,
        Form::Csv => write_csv(&mut printed, system)?,
        Form::Json => write_json(&mut printed, rt.alloc(), system)?,
    }
    if let Err(cause) = io::writer(rt).write_all(printed.as_slice()) {
        return Ok(unwritten(rt, &cause));
    }
    if let Form::Csv = form {
        say_disagreed(rt, system);
    }
    Ok(ExitCode::from(exit::DONE))
}
