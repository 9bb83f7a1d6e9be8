//! The links of a network: which link addresses each of its stations has there, and where a centre is served and finds the
//! concentrator.

ghost use Rattle.std.specs.Prelude.{◌≡◌, is_some, IfSome};
ghost use Rattle.std.specs.Net.Socket.{socket_ip, socket_port};
ghost use Rattle.dnp_network.specs.Links as spec;

use crate::endpoint::{Endpoint, Host};
use crate::network::{Head, Site};
use std::net::{IpAddr, Ipv4Addr, Ipv6Addr, SocketAddr};

/// One of the two centres.
#[derive(Clone, Copy, Debug, PartialEq, Eq)]
pub enum CentreOf {
    /// The first.
    First,
    /// The second.
    Second,
}

/// The link addresses of a link, as one of its two stations sees them.
#[derive(Clone, Copy, Debug, PartialEq, Eq)]
pub struct LinkEnds {
    /// Its own.
    pub own: u16,
    /// That of the other station.
    pub other: u16,
}

impl LinkEnds {
    ghost use Rattle.std.specs.Prelude.{◌≡◌};
    ghost use Rattle.dnp_network.specs.Links.{turned};

    /// The same link, as the other station sees it.
    pub fn turned(self) -> LinkEnds
        ensures { result ≡ turned self }
    {
        LinkEnds {
            own: self.other,
            other: self.own,
        }
    }
}

impl Site {
    ghost use Rattle.std.specs.Prelude.{◌≡◌};
    ghost use Rattle.dnp_network.specs.Links.{of_site};

    /// The link addresses of the substation and its master, as the substation sees them.
    pub fn ends(&self) -> LinkEnds
        ensures { result ≡ of_site self.now }
    {
        LinkEnds {
            own: self.address,
            other: self.master,
        }
    }
}

impl Head {
    ghost use Rattle.std.specs.Prelude.{◌≡◌, option_copied};
    ghost use Rattle.dnp_network.specs.Links.{of_head, served_at, found_at};

    /// The link addresses of the concentrator and a centre, as the concentrator sees them.
    pub fn ends(&self, centre: CentreOf) -> LinkEnds
        ensures { result ≡ of_head centre self.now }
    {
        let other = match centre {
            CentreOf::First => self.centre,
            CentreOf::Second => self.centre2,
        };
        LinkEnds {
            own: self.address,
            other,
        }
    }

    /// Where a centre is served; nowhere, where the second one isn't.
    pub fn served_at(&self, centre: CentreOf) -> Option<&Endpoint>
        ensures { option_copied result ≡ served_at centre self.now }
    {
        match centre {
            CentreOf::First => Some(&self.listen),
            CentreOf::Second => self.listen2.as_ref(),
        }
    }

    /// Where a centre finds the concentrator; nowhere, where the second one isn't served.
    pub fn found_at(&self, centre: CentreOf) -> Option<&Endpoint>
        ensures { option_copied result ≡ found_at centre self.now }
    {
        match centre {
            CentreOf::First => Some(self.at()),
            CentreOf::Second => self.at2(),
        }
    }
}

/// The address of a host and port, where the host is no name: a name has to be looked up.
pub fn address_of(endpoint: &Endpoint) -> Option<SocketAddr>
    ensures found { is_some result ≡ spec.is_address endpoint.now.host }
    ensures host { IfSome result (λ address. spec.host_at (socket_ip address) ≡ endpoint.now.host) }
    ensures port { IfSome result (λ address. socket_port address ≡ endpoint.now.port) }
{
    let ip = match &endpoint.host {
        Host::V4(octets) => {
            let [a, b, c, d] = *octets;
            IpAddr::V4(Ipv4Addr::new(a, b, c, d))
        }
        Host::V6(groups) => IpAddr::V6(Ipv6Addr::from_segments(*groups)),
        Host::Name(_) => return None,
    };
    Some(SocketAddr::new(ip, endpoint.port))
}
