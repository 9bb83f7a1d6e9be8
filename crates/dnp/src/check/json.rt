//! A system as a JSON object.

use crate::check::system::{PointRow, Station, System, Who, station_at, stations_of};
use dnp_network::{Head, JsonText, Network, PointKind, PointName, Words};
use std::alloc::Global;
use std::io;
use std::io::Write;

/// Writes a name, or `null` where there is none.
fn write_name<W: Write>(out: &mut W, name: Option<&Words>) -> io::Result<()> {
    match name {
        Some(name) if !name.as_str().is_empty() => write!(out, "{}", JsonText(name.as_str())),
        _ => out.write_all(b"null"),
    }
}

/// Writes where a second centre is served, or `null` where there is none.
fn write_second<W: Write>(out: &mut W, head: &Head) -> io::Result<()> {
    match (&head.listen2, head.at2()) {
        (Some(listen), Some(at)) => write!(
            out,
            ",\"at2\":\"{at}\",\"listen2\":\"{listen}\",\"centre2\":{}}}",
            head.centre2
        ),
        _ => out.write_all(b",\"at2\":null,\"listen2\":null,\"centre2\":null}"),
    }
}

/// Writes the concentrator.
fn write_head<W: Write>(out: &mut W, head: &Head) -> io::Result<()> {
    let (at, listen) = (head.at(), &head.listen);
    let (address, centre) = (head.address, head.centre);
    write!(
        out,
        "{{\"at\":\"{at}\",\"listen\":\"{listen}\",\"address\":{address},\"centre\":{centre}"
    )?;
    write_second(out, head)
}

/// Writes a substation.
fn write_substation<W: Write>(out: &mut W, station: &Station<'_>, number: usize) -> io::Result<()> {
    write!(out, "{{\"substation\":{number},\"name\":")?;
    write_name(out, station.name)?;
    let (at, listen) = (station.at, station.listen);
    let (address, master) = (station.address, station.peer);
    write!(
        out,
        ",\"at\":\"{at}\",\"listen\":\"{listen}\",\"address\":{address},\"master\":{master}}}"
    )
}

/// Writes the substations.
fn write_substations<W: Write>(out: &mut W, network: &Network) -> io::Result<()> {
    for place in 0..stations_of(network) {
        if let Some(station) = station_at(network, place)
            && let Who::Substation(number) = station.who
        {
            if number > 0 {
                out.write_all(b",")?;
            }
            write_substation(out, &station, number)?;
        }
    }
    Ok(())
}

/// Writes what doesn't fit on each link on which the plan and the network file don't.
fn write_disagreed<W: Write>(
    out: &mut W,
    alloc: Global,
    system: &System<'_>,
    network: &Network,
) -> io::Result<()> {
    let mut is_first = true;
    for place in 0..stations_of(network) {
        if let Some(disagreed) = system.disagreed(place) {
            if !is_first {
                out.write_all(b",")?;
            }
            is_first = false;
            let text = format!(in alloc; "{disagreed}")?;
            write!(out, "{}", JsonText(text.as_str()))?;
        }
    }
    Ok(())
}

/// Writes the network: its name, the concentrator, the substations, and what doesn't fit the plan, or `null` for each where nothing is
/// known of it.
fn write_network<W: Write>(out: &mut W, alloc: Global, system: &System<'_>) -> io::Result<()> {
    let Some(network) = system.network else {
        return out.write_all(
            b"\"name\":null,\"concentrator\":null,\"substations\":null,\"disagree\":null",
        );
    };
    out.write_all(b"\"name\":")?;
    write_name(out, network.name.as_ref())?;
    out.write_all(b",\"concentrator\":")?;
    write_head(out, &network.concentrator)?;
    out.write_all(b",\"substations\":[")?;
    write_substations(out, network)?;
    out.write_all(b"],\"disagree\":[")?;
    write_disagreed(out, alloc, system, network)?;
    out.write_all(b"]")
}

/// Writes a number, or `null` where there is none.
fn write_number<W: Write>(out: &mut W, number: Option<u32>) -> io::Result<()> {
    match number {
        Some(number) => write!(out, "{number}"),
        None => out.write_all(b"null"),
    }
}

/// Writes what people call a point.
fn write_names<W: Write>(out: &mut W, name: Option<&PointName>) -> io::Result<()> {
    let Some(name) = name else {
        return out.write_all(
            b"\"name\":null,\"unit\":null,\"scale\":null,\"zero\":null,\"one\":null}",
        );
    };
    out.write_all(b"\"name\":")?;
    write_name(out, Some(&name.name))?;
    out.write_all(b",\"unit\":")?;
    write_name(out, Some(&name.unit))?;
    out.write_all(b",\"scale\":")?;
    write_name(out, Some(&name.scale))?;
    out.write_all(b",\"zero\":")?;
    write_name(out, Some(&name.zero))?;
    out.write_all(b",\"one\":")?;
    write_name(out, Some(&name.one))?;
    out.write_all(b"}")
}

/// Writes a point.
fn write_point<W: Write>(out: &mut W, row: &PointRow<'_>) -> io::Result<()> {
    let (number, index, above) = (row.point.substation, row.point.index, row.above);
    let kind = row.point.kind.name();
    write!(
        out,
        "{{\"substation\":{number},\"kind\":\"{kind}\",\"index\":{index},\"above\":{above},\"class\":"
    )?;
    write_number(out, row.class.map(|class| u32::from(class)))?;
    out.write_all(b",\"deadband\":")?;
    write_number(out, row.deadband)?;
    out.write_all(b",")?;
    write_names(out, row.name)
}

/// Writes the points of a kind that a substation has, and tells whether none was written yet.
fn write_kind<W: Write>(
    out: &mut W,
    system: &System<'_>,
    substation: usize,
    kind: PointKind,
    is_first: bool,
) -> io::Result<bool> {
    let mut first = is_first;
    for index in 0..system.count(substation, kind) {
        if let Some(row) = system.point(substation, kind, index) {
            if !first {
                out.write_all(b",")?;
            }
            first = false;
            write_point(out, &row)?;
        }
    }
    Ok(first)
}

/// Writes the system as one object in a line.
pub(crate) fn write_json<W: Write>(
    out: &mut W,
    alloc: Global,
    system: &System<'_>,
) -> io::Result<()> {
    out.write_all(b"{")?;
    write_network(out, alloc, system)?;
    out.write_all(b",\"points\":[")?;
    let mut is_first = true;
    for substation in 0..system.plan.substations.as_slice().len() {
        for kind in PointKind::ALL {
            is_first = write_kind(out, system, substation, kind, is_first)?;
        }
    }
    out.write_all(b"]}\n")
}
