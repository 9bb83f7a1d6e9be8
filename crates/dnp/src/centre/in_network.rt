//! `dnp centre` for a network: it finds the concentrator where a file says.

ghost use Rattle.dnp_concentrator.specs.Plan.{KeepsLimits};

use crate::build::note_start;
use crate::centre::{Words, say_code};
use crate::driven::driving_of;
use dnp_concentrator::{IndexMap, Plan};
use dnp_files::{Target, run_centre};
use dnp_inputs::network_file::{Given, all_given};
use dnp_inputs::{Sought, address_found, names_of, taken_by};
use dnp_lines::{Whose, Wrong};
use dnp_network::{CentreOf, Network};
use dnp_tcp::{Names, Place, exit};
use std::net::{Net, TcpListener, TcpStream};
use std::process::ExitCode;
use std::rt::Clock;

/// Says on standard error that the network has no second centre, and gives the exit status of a wrong command line.
fn no_centre<R: Eprint>(rt: &R, path: &str) -> ExitCode {
    let wrong = Wrong::NoCentre(path);
    let _ = eprintln!(rt; "{wrong}");
    ExitCode::from(exit::USAGE)
}

/// Where the centre of a network finds the concentrator. Where it is the second one, and there is none, or a name can't be looked up, that is
/// said, and the exit status is told.
fn concentrator_found<R>(
    rt: &R,
    path: &str,
    network: &Network,
    centre: CentreOf,
) -> Result<Target, ExitCode>
where
    R: Eprint + Clock + Net<Listener = TcpListener, Stream = TcpStream>,
{
    let head = &network.concentrator;
    let Some(endpoint) = head.found_at(centre) else {
        return Err(no_centre(rt, path));
    };
    let sought = Sought {
        path,
        whose: Whose::Concentrator,
        key: match centre {
            CentreOf::First => "at",
            CentreOf::Second => "at2",
        },
        endpoint,
    };
    let address = address_found(rt, &sought)?;
    Ok(Target {
        place: Place::Whole(address),
        awaited: taken_by(head.ends(centre).turned()),
    })
}

/// Runs the centre of a plan whose concentrator is where the network in a file says, and tells the exit status.
pub(super) fn run_in_network(
    rt: &HostRuntime,
    words: &Words<'_>,
    path: &str,
    plan: Plan,
) -> anyhow::Result<ExitCode>
    requires { KeepsLimits plan }
{
    match all_given(rt, path, &plan)? {
        Ok(given) => match find_concentrator(rt, words, path, &given.network) {
            Ok(concentrator) => run_named(rt, words, concentrator, &given, plan),
            Err(status) => Ok(status),
        },
        Err(status) => Ok(status),
    }
}

/// Where the centre that is begun so finds the concentrator of a network, as [`concentrator_found`].
fn find_concentrator(
    rt: &HostRuntime,
    words: &Words<'_>,
    path: &str,
    network: &Network,
) -> Result<Target, ExitCode> {
    if network.concentrator.found_at(words.centre).is_none() {
        return Err(no_centre(rt, path));
    }
    note_start(rt);
    say_code(rt, words.issue);
    concentrator_found(rt, path, network, words.centre)
}

/// The place of a centre among those that connect to the concentrator.
fn centre_place(centre: CentreOf) -> u8 {
    match centre {
        CentreOf::First => 0,
        CentreOf::Second => 1,
    }
}

/// Runs the centre of a plan whose concentrator is there, and in whose log the stations and points have their names; tells the exit
/// status.
fn run_named(
    rt: &HostRuntime,
    words: &Words<'_>,
    concentrator: Target,
    given: &Given,
    plan: Plan,
) -> anyhow::Result<ExitCode>
    requires { KeepsLimits plan }
{
    let map = IndexMap::new(rt.alloc(), &plan)?;
    let points = given.points.as_slice();
    let names = names_of(rt.alloc(), &given.network, points, Some(&map))?;
    let names = Names {
        all: names.as_slice(),
    };
    let driving = driving_of(
        &given.network.centre_polling,
        &plan,
        centre_place(words.centre),
    );
    let run = words.run_with(concentrator, names, Some(driving));
    Ok(run_centre(rt, &run, plan))
}
