//! The files of a network and of the names of its points.

ghost use Rattle.dnp_concentrator.specs.Plan.{KeepsLimits};

use crate::inputs::octets_of;
use crate::meant::say_meant;
use crate::toml_faults::TomlFault;
use dnp_concentrator::{IndexKind, Plan};
use dnp_lines::{Line, Meant, NETWORK, NotToml, Of};
use dnp_network::{
    Listed, Network, NetworkFault, PointCounts, PointKind, PointName, PointsReason, network_reason,
    points_in, read_network, records_of,
};
use dnp_tcp::exit;
use std::alloc::{AllocError, Global};
use std::process::ExitCode;
use std::rt::Files;
use std::{fs, str};

/// The most octets of a network that are read: many times what the largest needs.
const MAX_NETWORK: u64 = 1_024 * 1_024;

/// The most octets of a table of points that are read.
const MAX_POINTS_TEXT: u64 = 16 * 1_024 * 1_024;

/// The kind of the indices of points of a kind.
pub fn index_kind(kind: PointKind) -> IndexKind {
    match kind {
        PointKind::Binary => IndexKind::Binary,
        PointKind::Counter => IndexKind::Counter,
        PointKind::Analog => IndexKind::Analog,
        PointKind::Output => IndexKind::Output,
        PointKind::Setpoint => IndexKind::Setpoint,
    }
}

/// Puts how many points each substation of the plan has behind others.
fn put_counts(plan: &Plan, all: &mut Vec<PointCounts>) -> Result<(), AllocError> {
    for substation in plan.substations.as_slice() {
        let spans = substation.spans();
        let counts = PointCounts {
            binary: spans.of(IndexKind::Binary).count,
            counter: spans.of(IndexKind::Counter).count,
            analog: spans.of(IndexKind::Analog).count,
            output: spans.of(IndexKind::Output).count,
            setpoint: spans.of(IndexKind::Setpoint).count,
        };
        all.extend_from_slice(&[counts])?;
    }
    Ok(())
}

/// How many points each substation of the plan has.
fn counts_of(alloc: Global, plan: &Plan) -> Result<Vec<PointCounts>, AllocError> {
    let mut all = Vec::new(alloc);
    match put_counts(plan, &mut all) {
        Ok(()) => Ok(all),
        Err(fault) => Err(fault),
    }
}

/// The octets of a file. Where it can't be read, that is said, and the exit status is told.
fn file_given<R: AllocGlobal + Eprint + Files>(
    rt: &R,
    path: &str,
    most: u64,
) -> Result<Vec<u8>, ExitCode> {
    octets_of(rt, path, fs::open(rt, path), most)
}

/// Says that a file is not UTF-8, and gives the exit status.
fn not_text<R: Eprint>(rt: &R, path: &str) -> ExitCode {
    let line = Line::NotText(path);
    let _ = eprintln!(rt; "{line}");
    ExitCode::from(exit::REFUSED)
}

/// Says why the text of a network is refused, and gives the exit status.
fn refused<R: AllocGlobal + Eprint>(
    rt: &R,
    path: &str,
    text: &str,
    fault: NetworkFault,
) -> Result<ExitCode, AllocError> {
    if let NetworkFault::Memory = fault {
        return Err(AllocError);
    }
    if let NetworkFault::Syntax = fault
        && let Some(found) = TomlFault::of(rt.alloc(), text.as_bytes())
    {
        let line = NotToml(path, found.place(), &NETWORK, found.reason());
        let _ = eprintln!(rt; "{line}");
    } else {
        let reason = network_reason(rt.alloc(), text, fault)?;
        let line = Of(path, &reason);
        let _ = eprintln!(rt; "{line}");
    }
    say_meant(rt, path, text.as_bytes(), Meant::Network);
    Ok(ExitCode::from(exit::REFUSED))
}

/// The network in its file. Where it can't be read or is refused, that is said, and the exit status is told.
pub fn network_given<R: AllocGlobal + Eprint + Files>(
    rt: &R,
    path: &str,
    plan: &Plan,
) -> Result<Result<Network, ExitCode>, AllocError>
    requires { KeepsLimits plan.now }
{
    let octets = match file_given(rt, path, MAX_NETWORK) {
        Ok(octets) => octets,
        Err(status) => return Ok(Err(status)),
    };
    let Ok(text) = str::from_utf8(octets.as_slice()) else {
        return Ok(Err(not_text(rt, path)));
    };
    let count = plan.substations.as_slice().len();
    match read_network(rt.alloc(), text, count, plan.times.response_ms) {
        Ok(network) => Ok(Ok(network)),
        Err(fault) => Ok(Err(refused(rt, path, text, fault)?)),
    }
}

/// What a network's file says, and the file with the names of its points.
#[derive(Drop)]
pub struct Given {
    /// Where the stations are.
    pub network: Network,
    /// What people call their points.
    pub points: Listed<PointName>,
}

/// The network of a plan in its file, and the names of its points. Where a file can't be read or is refused, that is said, and the exit
/// status is told.
pub fn all_given<R: AllocGlobal + Eprint + Files>(
    rt: &R,
    path: &str,
    plan: &Plan,
) -> Result<Result<Given, ExitCode>, AllocError>
    requires { KeepsLimits plan.now }
{
    let network = match network_given(rt, path, plan)? {
        Ok(network) => network,
        Err(status) => return Ok(Err(status)),
    };
    match points_given(rt, path, plan, &network)? {
        Ok(points) => Ok(Ok(Given { network, points })),
        Err(status) => Ok(Err(status)),
    }
}

/// The path of a file that is named in another file: it is relative to the folder of that file.
fn beside<R: AllocGlobal>(rt: &R, path: &str, named: &str) -> Result<String, AllocError> {
    let mut whole = String::new(rt.alloc());
    if !named.starts_with('/')
        && let Some((folder, _)) = path.rsplit_once('/')
    {
        whole.push_str(folder)?;
        whole.push_str("/")?;
    }
    whole.push_str(named)?;
    Ok(whole)
}

/// The names of the points, where the network has a file of them. Where it can't be read or is refused, that is said, and
/// the exit status is told.
pub fn points_given<R: AllocGlobal + Eprint + Files>(
    rt: &R,
    path: &str,
    plan: &Plan,
    network: &Network,
) -> Result<Result<Listed<PointName>, ExitCode>, AllocError> {
    match &network.points {
        Some(named) => {
            let whole = beside(rt, path, named.as_str())?;
            points_at(rt, whole.as_str(), plan)
        }
        None => Ok(Ok(Listed::new(Vec::new(rt.alloc())))),
    }
}

/// The names of the points in this file. Where it can't be read or is refused, that is said, and the exit status is told.
fn points_at<R: AllocGlobal + Eprint + Files>(
    rt: &R,
    path: &str,
    plan: &Plan,
) -> Result<Result<Listed<PointName>, ExitCode>, AllocError> {
    let octets = match file_given(rt, path, MAX_POINTS_TEXT) {
        Ok(octets) => octets,
        Err(status) => return Ok(Err(status)),
    };
    let Ok(text) = str::from_utf8(octets.as_slice()) else {
        return Ok(Err(not_text(rt, path)));
    };
    let rows = records_of(rt.alloc(), text)?;
    let counts = counts_of(rt.alloc(), plan)?;
    match points_in(rt.alloc(), counts.as_slice(), rows.as_slice())? {
        Ok(points) => Ok(Ok(points)),
        Err(fault) => {
            let reason = PointsReason {
                fault,
                text,
                rows: rows.as_slice(),
                counts: counts.as_slice(),
            };
            let line = Of(path, &reason);
            let _ = eprintln!(rt; "{line}");
            Ok(Err(ExitCode::from(exit::REFUSED)))
        }
    }
}
