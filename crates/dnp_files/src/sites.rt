//! Where a concentrator serves its centres, and where stations are asked, with the link addresses of their frames.

ghost use Rattle.std.specs.Prelude.{◌≡◌, ◌<◌};
ghost use Rattle.std.specs.Net.Socket.{socket_port};
ghost use Rattle.dnp_files.specs.Sites as spec;
ghost use Rattle.dnp_notices.specs.Places.{address_of};

use dnp_concentrator::addresses::{
    CONCENTRATOR_ABOVE, MASTER_BELOW, centre_address, outstation_address,
};
use dnp_eventbuf::CENTRES;
use dnp_notices::Ends;
use dnp_tcp::Place;
use std::net::{IpAddr, Ipv4Addr, SocketAddr};

/// Where a centre is served.
#[derive(Clone, Copy)]
pub struct Served {
    /// The place.
    pub place: Place,
    /// The link addresses of the frames that are taken there: from the centre, to the concentrator.
    pub taken: Ends,
}

/// Where a station is asked.
#[derive(Clone, Copy)]
pub struct Target {
    /// The place.
    pub place: Place,
    /// The link addresses of the frames that are awaited: from that station, to the one that asks.
    pub awaited: Ends,
}

/// Where the substations are.
#[derive(Clone, Copy)]
pub enum Substations<'a> {
    /// On this machine, at ports that follow one another from this one on, with the usual link addresses.
    FromPort(u16),
    /// Each at its place in the list.
    Listed(&'a [Target]),
}

/// The link addresses of the frames from a centre to the concentrator, where no others are given.
pub fn ends_from_centre(centre: u8) -> Ends
    requires { centre < CENTRES }
    ensures { result ≡ spec.from_centre centre }
{
    Ends {
        source: centre_address(centre),
        dest: CONCENTRATOR_ABOVE,
    }
}

/// The link addresses of the frames from the concentrator to a centre, where no others are given.
pub fn ends_to_centre(centre: u8) -> Ends
    requires { centre < CENTRES }
    ensures { result ≡ spec.to_centre centre }
{
    Ends {
        source: CONCENTRATOR_ABOVE,
        dest: centre_address(centre),
    }
}

/// The link addresses of the frames from a substation to the concentrator, where no others are given.
fn ends_from_substation(substation: u8) -> Ends
    ensures { result ≡ spec.from_substation substation }
{
    Ends {
        source: outstation_address(substation),
        dest: MASTER_BELOW,
    }
}

/// A port of this machine.
pub fn port_here(port: u16) -> Place
    ensures { socket_port (address_of result) ≡ port }
{
    Place::Port(SocketAddr::new(IpAddr::V4(Ipv4Addr::LOCALHOST), port))
}

impl<'a> Substations<'a> {
    ghost use Rattle.dnp_files.specs.Sites.{IsTarget};

    /// Where the substation with this number is asked; nothing where the list is too short for it.
    pub(crate) fn target(self, substation: u8) -> Option<Target>
        ensures { IsTarget self.entry substation result }
    {
        match self {
            Substations::FromPort(port) => Some(Target {
                place: port_here(port.saturating_add(u16::from(substation))),
                awaited: ends_from_substation(substation),
            }),
            Substations::Listed(targets) => targets.get(usize::from(substation)).copied(),
        }
    }
}
