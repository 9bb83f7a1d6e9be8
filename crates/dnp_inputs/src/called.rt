//! What people call the stations of a network and their points, as the log of a program says it.

use crate::network_file::index_kind;
use dnp_concentrator::IndexMap;
use dnp_network::{Network, PointId, PointKind, PointName, Site};
use dnp_objects::Kind;
use dnp_tcp::{Name, Peer, Thing};
use std::alloc::{AllocError, Global};

/// The substation with this number, as a station that is asked, if a plan can have it.
fn substation(number: usize) -> Option<Peer> {
    match u8::try_from(number) {
        Ok(number) => Some(Peer::Substation(number)),
        Err(_) => None,
    }
}

/// The point of this kind with this index at a station that is asked.
fn thing_at(peer: Peer, kind: PointKind, index: u16) -> Thing {
    match kind {
        PointKind::Binary => Thing::Point(peer, Kind::Binary, index),
        PointKind::Counter => Thing::Point(peer, Kind::Counter, index),
        PointKind::Analog => Thing::Point(peer, Kind::Analog, index),
        PointKind::Output => Thing::Output(peer, index),
        PointKind::Setpoint => Thing::Setpoint(peer, index),
    }
}

/// The point as a log of a concentrator has it, which asks substations by their own indices.
fn thing_below(point: PointId) -> Option<Thing> {
    let peer = substation(point.substation)?;
    Some(thing_at(peer, point.kind, point.index))
}

/// The point as a log of a centre has it, which asks the concentrator by the indices above.
fn thing_above(map: &IndexMap, point: PointId) -> Option<Thing> {
    let number = u8::try_from(point.substation).ok()?;
    let index = map.above(number, index_kind(point.kind), point.index)?;
    Some(thing_at(Peer::Concentrator, point.kind, index))
}

/// Puts what people call the substations behind other names.
fn put_stations<'a>(sites: &'a [Site], all: &mut Vec<Name<'a>>) -> Result<(), AllocError> {
    for (number, site) in sites.iter().enumerate() {
        if let Some(name) = &site.name
            && let Some(peer) = substation(number)
        {
            all.extend_from_slice(&[Name {
                of: Thing::Station(peer),
                name: name.as_str(),
            }])?;
        }
    }
    Ok(())
}

/// Puts what people call the points behind other names, by the indices of the substations, and, where the index map of a centre is
/// given, by those above too.
fn put_points<'a>(
    points: &'a [PointName],
    map: Option<&IndexMap>,
    all: &mut Vec<Name<'a>>,
) -> Result<(), AllocError> {
    for point in points {
        let above = match map {
            Some(map) => thing_above(map, point.point),
            None => None,
        };
        for of in [thing_below(point.point), above] {
            if let Some(of) = of {
                all.extend_from_slice(&[Name {
                    of,
                    name: point.name.as_str(),
                }])?;
            }
        }
    }
    Ok(())
}

/// Puts what people call the substations of a network and their points, as [`names_of`].
fn put_names<'a>(
    network: &'a Network,
    points: &'a [PointName],
    map: Option<&IndexMap>,
    all: &mut Vec<Name<'a>>,
) -> Result<(), AllocError> {
    put_stations(network.substations.as_slice(), all)?;
    put_points(points, map, all)
}

/// What people call the substations of a network and their points, by the indices of the substations, and, where the index map of a
/// centre is given, by those above too.
pub fn names_of<'a>(
    alloc: Global,
    network: &'a Network,
    points: &'a [PointName],
    map: Option<&IndexMap>,
) -> Result<Vec<Name<'a>>, AllocError> {
    let mut all = Vec::new(alloc);
    match put_names(network, points, map, &mut all) {
        Ok(()) => Ok(all),
        Err(fault) => Err(fault),
    }
}
