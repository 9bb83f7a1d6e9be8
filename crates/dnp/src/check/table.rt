//! A system as a table for people.

use crate::check::system::{PointRow, Station, System, Who, station_at, stations_of};
use dnp_network::{Network, PlainText, PointKind, PointName, Words};
use dnp_terminal::{Screen, Tone};
use std::alloc::{AllocError, Global};
use std::io;
use std::io::Write;

/// A name, or a hyphen where there is none.
fn name_or_none(name: Option<&Words>) -> &str {
    match name {
        Some(name) if !name.as_str().is_empty() => name.as_str(),
        _ => "-",
    }
}

/// Who a station is, as the table has it.
fn who(alloc: Global, station: &Station<'_>) -> Result<String, AllocError> {
    match station.who {
        Who::Concentrator => String::from_str(alloc, "concentrator"),
        Who::Concentrator2 => String::from_str(alloc, "concentrator2"),
        Who::Substation(number) => format!(in alloc; "substation {number}"),
    }
}

/// Writes a line of a station.
fn write_station<W: Write>(out: &mut W, alloc: Global, station: &Station<'_>) -> io::Result<()> {
    let who = who(alloc, station)?;
    let at = format!(in alloc; "{}", station.at)?;
    let listen = format!(in alloc; "{}", station.listen)?;
    let (who, at, listen) = (who.as_str(), at.as_str(), listen.as_str());
    let (address, peer) = (station.address, station.peer);
    let name = PlainText(name_or_none(station.name));
    writeln!(
        out,
        "{who:<14} {at:<24} {listen:<24} {address:>7} {peer:>5}  {name}"
    )
}

/// Writes where the stations are, and an empty line.
fn write_stations<W: Write>(
    out: &mut W,
    alloc: Global,
    network: &Network,
    screen: Screen,
) -> io::Result<()> {
    if let Some(name) = &network.name {
        let name = PlainText(name.as_str());
        writeln!(out, "network {name}")?;
    }
    let (opening, closing) = screen.escapes(Tone::Heading);
    writeln!(
        out,
        "{opening}station        at                       listens at               address  peer  name{closing}"
    )?;
    for place in 0..stations_of(network) {
        if let Some(station) = station_at(network, place) {
            write_station(out, alloc, &station)?;
        }
    }
    writeln!(out)
}

/// A number of a row, or a hyphen where there is none.
fn number_or_none(alloc: Global, number: Option<u32>) -> Result<String, AllocError> {
    match number {
        Some(number) => format!(in alloc; "{number}"),
        None => String::from_str(alloc, "-"),
    }
}

/// Writes a line of a point.
fn write_point<W: Write>(out: &mut W, alloc: Global, row: &PointRow<'_>) -> io::Result<()> {
    let class = number_or_none(alloc, row.class.map(|class| u32::from(class)))?;
    let deadband = number_or_none(alloc, row.deadband)?;
    let (class, deadband) = (class.as_str(), deadband.as_str());
    let (number, index, above) = (row.point.substation, row.point.index, row.above);
    let kind = row.point.kind.name();
    write!(
        out,
        "{number:<10} {kind:<8} {index:>5} {above:>5} {class:>5} {deadband:>10}  "
    )?;
    match row.name {
        Some(name) if name.unit.as_str().is_empty() => {
            writeln!(out, "{}", PlainText(name.name.as_str()))
        }
        Some(name) => writeln!(
            out,
            "{} [{}]",
            PlainText(name.name.as_str()),
            PlainText(name.unit.as_str())
        ),
        None => writeln!(out, "-"),
    }
}

/// Writes the points of a kind that a substation has.
fn write_kind<W: Write>(
    out: &mut W,
    alloc: Global,
    system: &System<'_>,
    substation: usize,
    kind: PointKind,
) -> io::Result<()> {
    for index in 0..system.count(substation, kind) {
        if let Some(row) = system.point(substation, kind, index) {
            write_point(out, alloc, &row)?;
        }
    }
    Ok(())
}

/// Writes an empty line, and a line for each link on which the plan and the network file don't fit, if there is such a link.
fn write_disagreed<W: Write>(
    out: &mut W,
    system: &System<'_>,
    network: &Network,
) -> io::Result<()> {
    let mut is_first = true;
    for place in 0..stations_of(network) {
        if let Some(disagreed) = system.disagreed(place) {
            if is_first {
                writeln!(out)?;
            }
            is_first = false;
            writeln!(out, "disagree: {disagreed}")?;
        }
    }
    Ok(())
}

/// Writes the system as a table: the stations, if it is known where they are, the points, and what doesn't fit.
pub(crate) fn write_table<W: Write>(
    out: &mut W,
    alloc: Global,
    system: &System<'_>,
    screen: Screen,
) -> io::Result<()> {
    if let Some(network) = system.network {
        write_stations(out, alloc, network, screen)?;
    }
    let (opening, closing) = screen.escapes(Tone::Heading);
    writeln!(
        out,
        "{opening}substation kind     index above class   deadband  name{closing}"
    )?;
    for substation in 0..system.plan.substations.as_slice().len() {
        for kind in PointKind::ALL {
            write_kind(out, alloc, system, substation, kind)?;
        }
    }
    match system.network {
        Some(network) => write_disagreed(out, system, network),
        None => Ok(()),
    }
}
