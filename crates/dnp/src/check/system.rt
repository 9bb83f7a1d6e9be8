//! A system as it is printed.

use crate::network_file::index_kind;
use dnp_concentrator::Plan;
use dnp_network::{
    Endpoint, Network, PointId, PointKind, PointName, Polling, Site, Words, name_of_point,
};

/// A plan, and where its stations are and what people call its points, as far as that is given.
#[derive(Clone, Copy)]
pub(crate) struct System<'a> {
    /// The plan.
    pub plan: &'a Plan,
    /// Where its stations are.
    pub network: Option<&'a Network>,
    /// What people call its points.
    pub points: &'a [PointName],
}

/// A station: who it is, where it is, its link address and that of the station at the other end of its link.
#[derive(Clone, Copy)]
pub(crate) struct Station<'a> {
    /// Who it is.
    pub who: Who,
    /// What people call it.
    pub name: Option<&'a Words>,
    /// Where it is found.
    pub at: &'a Endpoint,
    /// Where it listens.
    pub listen: &'a Endpoint,
    /// Its link address.
    pub address: u16,
    /// That of its master or its centre.
    pub peer: u16,
    /// How its master or its centre polls it.
    pub polling: &'a Polling,
}

/// Who a station is.
#[derive(Clone, Copy)]
pub(crate) enum Who {
    /// The concentrator, towards the first centre.
    Concentrator,
    /// The same towards the second centre.
    Concentrator2,
    /// The substation with this number.
    Substation(usize),
}

/// The substation with this number as a station.
fn substation(site: &Site, number: usize) -> Station<'_> {
    Station {
        who: Who::Substation(number),
        name: site.name.as_ref(),
        at: &site.at,
        listen: site.listen(),
        address: site.address,
        peer: site.master,
        polling: &site.polling,
    }
}

/// The station with this place: 0 and 1 are the concentrator's, and then come the substations. There is none towards a
/// second centre, where the network has no second centre.
pub(crate) fn station_at(network: &Network, place: usize) -> Option<Station<'_>> {
    let head = &network.concentrator;
    match place {
        0 => Some(Station {
            who: Who::Concentrator,
            name: None,
            at: head.at(),
            listen: &head.listen,
            address: head.address,
            peer: head.centre,
            polling: &network.centre_polling,
        }),
        1 => match (&head.listen2, head.at2()) {
            (Some(listen), Some(at)) => Some(Station {
                who: Who::Concentrator2,
                name: None,
                at,
                listen,
                address: head.address,
                peer: head.centre2,
                polling: &network.centre_polling,
            }),
            _ => None,
        },
        _ => {
            let number = place.saturating_sub(2);
            let site = network.substations.as_slice().get(number)?;
            Some(substation(site, number))
        }
    }
}

/// How many places for stations a network has.
pub(crate) fn stations_of(network: &Network) -> usize {
    network.substations.as_slice().len().saturating_add(2)
}

/// A point, with what the plan says of it and what people call it.
#[derive(Clone, Copy)]
pub(crate) struct PointRow<'a> {
    /// The point.
    pub point: PointId,
    /// Its index above.
    pub above: u32,
    /// Its class, if it has events.
    pub class: Option<u8>,
    /// Its deadband, in the units of its value, if it is an analog input.
    pub deadband: Option<u32>,
    /// What people call it, if they call it something.
    pub name: Option<&'a PointName>,
}

impl<'a> System<'a> {
    /// How many points of a kind a substation has.
    pub(crate) fn count(&self, substation: usize, kind: PointKind) -> usize {
        match self.plan.substations.as_slice().get(substation) {
            Some(substation) => substation.spans().of(index_kind(kind)).count,
            None => 0,
        }
    }

    /// The point with this index, if a substation has it.
    pub(crate) fn point(
        &self,
        substation: usize,
        kind: PointKind,
        index: usize,
    ) -> Option<PointRow<'a>> {
        let point = PointId {
            substation,
            kind,
            index: u16::try_from(index).ok()?,
        };
        let substation = self.plan.substations.as_slice().get(substation)?;
        let span = substation.spans().of(index_kind(kind));
        let classes: &[u8] = match kind {
            PointKind::Binary => substation.binary.as_slice(),
            PointKind::Counter => substation.counter.as_slice(),
            PointKind::Analog => substation.analog.as_slice(),
            PointKind::Output | PointKind::Setpoint => &[],
        };
        let deadbands: &[u32] = match kind {
            PointKind::Analog => substation.deadband.as_slice(),
            _ => &[],
        };
        Some(PointRow {
            point,
            above: u32::from(span.base) + u32::from(point.index),
            class: classes.get(index).copied(),
            deadband: deadbands.get(index).copied(),
            name: name_of_point(self.points, point),
        })
    }
}
