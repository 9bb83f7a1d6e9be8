//! `dnp concentrate` for a network: it serves its centres and finds its substations where a file says.

ghost use Rattle.dnp_concentrator.specs.Plan.{KeepsLimits};

use crate::build::note_start;
use crate::concentrate::Words;
use crate::driven::{driving_of, drivings_of};
use dnp_concentrator::Plan;
use dnp_files::{
    Driving, Drivings, Served, Substations, Target, run_concentrator, wait_for_slowest,
};
use dnp_inputs::network_file::{Given, all_given};
use dnp_inputs::{Sought, address_found, names_of, taken_by};
use dnp_lines::Whose;
use dnp_network::{CentreOf, Network};
use dnp_tcp::{Names, Place, exit};
use std::alloc::AllocError;
use std::net::{Net, TcpListener, TcpStream};
use std::process::ExitCode;
use std::rt::Clock;

/// Where the concentrator of a network serves a centre, if it does. Where a name can't be looked up, that is said, and the exit status is
/// told.
fn served_found<R>(
    rt: &R,
    path: &str,
    network: &Network,
    centre: CentreOf,
) -> Result<Option<Served>, ExitCode>
where
    R: Eprint + Clock + Net<Listener = TcpListener, Stream = TcpStream>,
{
    let head = &network.concentrator;
    let Some(endpoint) = head.served_at(centre) else {
        return Ok(None);
    };
    let sought = Sought {
        path,
        whose: Whose::Concentrator,
        key: match centre {
            CentreOf::First => "listen",
            CentreOf::Second => "listen2",
        },
        endpoint,
    };
    let address = address_found(rt, &sought)?;
    Ok(Some(Served {
        place: Place::Whole(address),
        taken: taken_by(head.ends(centre)),
    }))
}

/// Puts where the substations of a network are asked behind others. Where a name can't be looked up, that is said, and the exit status is
/// told.
fn put_targets<R>(
    rt: &R,
    path: &str,
    network: &Network,
    targets: &mut Vec<Target>,
) -> Result<Result<(), ExitCode>, AllocError>
where
    R: Eprint + Clock + Net<Listener = TcpListener, Stream = TcpStream>,
{
    for (number, site) in network.substations.as_slice().iter().enumerate() {
        let sought = Sought {
            path,
            whose: Whose::Substation(number),
            key: "at",
            endpoint: &site.at,
        };
        match address_found(rt, &sought) {
            Ok(address) => targets.extend_from_slice(&[Target {
                place: Place::Whole(address),
                awaited: taken_by(site.ends().turned()),
            }])?,
            Err(status) => return Ok(Err(status)),
        }
    }
    Ok(Ok(()))
}

/// Where the substations of a network are asked. Where a name can't be looked up, that is said, and the exit status is told.
fn targets_found<R>(
    rt: &R,
    path: &str,
    network: &Network,
) -> Result<Result<Vec<Target>, ExitCode>, AllocError>
where
    R: AllocGlobal + Eprint + Clock + Net<Listener = TcpListener, Stream = TcpStream>,
{
    let mut targets = Vec::new(rt.alloc());
    match put_targets(rt, path, network, &mut targets)? {
        Ok(()) => Ok(Ok(targets)),
        Err(status) => Ok(Err(status)),
    }
}

/// Where a concentrator serves its centres.
#[derive(Clone, Copy)]
struct Centres {
    /// The first.
    first: Served,
    /// The second, if it is served.
    second: Option<Served>,
}

/// Where the concentrator of a network serves its centres. Where a name can't be looked up, that is said, and the exit status is told.
fn centres_found<R>(rt: &R, path: &str, network: &Network) -> Result<Centres, ExitCode>
where
    R: Eprint + Clock + Net<Listener = TcpListener, Stream = TcpStream>,
{
    let Some(first) = served_found(rt, path, network, CentreOf::First)? else {
        return Err(ExitCode::from(exit::FAULT));
    };
    let second = served_found(rt, path, network, CentreOf::Second)?;
    Ok(Centres { first, second })
}

/// Runs the concentrator of a plan whose stations are there, and in whose log they and the points have their names; tells the exit status.
fn run_named(
    rt: &HostRuntime,
    words: &Words<'_>,
    centres: Centres,
    targets: &[Target],
    given: &Given,
    plan: &Plan,
    below: &[Driving],
) -> anyhow::Result<ExitCode>
    requires { KeepsLimits plan.now }
{
    let points = given.points.as_slice();
    let names = names_of(rt.alloc(), &given.network, points, None)?;
    let names = Names {
        all: names.as_slice(),
    };
    let Centres { first, second } = centres;
    let above = driving_of(&given.network.centre_polling, plan, 0);
    let drivings = Drivings { below, above };
    let run = words.run_with(
        first,
        second,
        Substations::Listed(targets),
        names,
        Some(drivings),
    );
    Ok(run_concentrator(rt, &run, plan))
}

/// Runs the concentrator of a plan whose stations are there, as a network says, and tells the exit status.
fn run_driven(
    rt: &HostRuntime,
    words: &Words<'_>,
    centres: Centres,
    targets: &[Target],
    given: &Given,
    plan: &mut Plan,
) -> anyhow::Result<ExitCode>
    requires { KeepsLimits plan.old }
{
    let below = drivings_of(rt.alloc(), &given.network, plan)?;
    wait_for_slowest(plan, below.as_slice());
    run_named(rt, words, centres, targets, given, plan, below.as_slice())
}

/// Runs the concentrator of a plan whose stations are where this network says, and tells the exit status.
fn run_found(
    rt: &HostRuntime,
    words: &Words<'_>,
    path: &str,
    given: &Given,
    plan: &mut Plan,
) -> anyhow::Result<ExitCode>
    requires { KeepsLimits plan.old }
{
    note_start(rt);
    let centres = match centres_found(rt, path, &given.network) {
        Ok(centres) => centres,
        Err(status) => return Ok(status),
    };
    match targets_found(rt, path, &given.network)? {
        Ok(targets) => run_driven(rt, words, centres, targets.as_slice(), given, plan),
        Err(status) => Ok(status),
    }
}

/// Runs the concentrator of a plan whose stations are where the network in a file says, and tells the exit status.
pub(super) fn run_in_network(
    rt: &HostRuntime,
    words: &Words<'_>,
    path: &str,
    plan: &mut Plan,
) -> anyhow::Result<ExitCode>
    requires { KeepsLimits plan.old }
{
    match all_given(rt, path, plan)? {
        Ok(given) => run_found(rt, words, path, &given, plan),
        Err(status) => Ok(status),
    }
}
