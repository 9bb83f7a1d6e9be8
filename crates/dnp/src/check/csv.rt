//! A system as records of CSV (RFC 4180).

use crate::check::system::{PointRow, Station, System, Who, station_at, stations_of};
use dnp_network::{CsvText, PointKind, PointName, Words};
use std::io;
use std::io::Write;

/// The head.
const HEAD: &str =
    "station,name,at,listen,address,peer,kind,index,above,class,deadband,point,unit,scale,zero,one\r\n";

/// A name as a field, an empty one where there is none.
fn field_of(name: Option<&Words>) -> CsvText<'_> {
    match name {
        Some(name) => CsvText(name.as_str()),
        None => CsvText(""),
    }
}

/// Writes the fields of a station.
fn write_station<W: Write>(out: &mut W, station: &Station<'_>) -> io::Result<()> {
    match station.who {
        Who::Concentrator => out.write_all(b"concentrator")?,
        Who::Concentrator2 => out.write_all(b"concentrator2")?,
        Who::Substation(number) => write!(out, "{number}")?,
    }
    let name = field_of(station.name);
    let (at, listen) = (station.at, station.listen);
    let (address, peer) = (station.address, station.peer);
    write!(out, ",{name},{at},{listen},{address},{peer},,,,,,,,,,\r\n")
}

/// Writes a number, or nothing where there is none, and a comma.
fn write_number<W: Write>(out: &mut W, number: Option<u32>) -> io::Result<()> {
    match number {
        Some(number) => write!(out, "{number},"),
        None => out.write_all(b","),
    }
}

/// Writes the fields of a point.
fn write_point<W: Write>(out: &mut W, row: &PointRow<'_>) -> io::Result<()> {
    let (number, index, above) = (row.point.substation, row.point.index, row.above);
    let kind = row.point.kind.name();
    write!(out, "{number},,,,,,{kind},{index},{above},")?;
    write_number(out, row.class.map(|class| u32::from(class)))?;
    write_number(out, row.deadband)?;
    match row.name {
        Some(name) => write!(
            out,
            "{},{},{},{},{}\r\n",
            CsvText(name.name.as_str()),
            CsvText(name.unit.as_str()),
            CsvText(name.scale.as_str()),
            CsvText(name.zero.as_str()),
            CsvText(name.one.as_str())
        ),
        None => out.write_all(b",,,,\r\n"),
    }
}

/// Writes the points of a kind that a substation has.
fn write_kind<W: Write>(
    out: &mut W,
    system: &System<'_>,
    substation: usize,
    kind: PointKind,
) -> io::Result<()> {
    for index in 0..system.count(substation, kind) {
        if let Some(row) = system.point(substation, kind, index) {
            write_point(out, &row)?;
        }
    }
    Ok(())
}

/// Writes the system as records: those of its stations, if it is known where they are, and those of its points.
pub(crate) fn write_csv<W: Write>(out: &mut W, system: &System<'_>) -> io::Result<()> {
    out.write_all(HEAD.as_bytes())?;
    if let Some(network) = system.network {
        for place in 0..stations_of(network) {
            if let Some(station) = station_at(network, place) {
                write_station(out, &station)?;
            }
        }
    }
    for substation in 0..system.plan.substations.as_slice().len() {
        for kind in PointKind::ALL {
            write_kind(out, system, substation, kind)?;
        }
    }
    Ok(())
}
