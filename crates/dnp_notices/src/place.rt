//! Places of TCP, as they are said.

ghost use Rattle.std.specs.Prelude.{◌≡◌};
ghost use Rattle.dnp_notices.specs.Places as spec;

use std::net::SocketAddr;

/// An address and a port of TCP, and how much of it is said.
#[derive(Clone, Copy, Debug)]
pub enum Place {
    /// The port alone: which address it is goes without saying.
    Port(SocketAddr),
    /// All of it.
    Whole(SocketAddr),
}

impl Place {
    /// The address and the port.
    pub fn address(self) -> SocketAddr
        ensures { result ≡ spec.address_of self }
    {
        match self {
            Place::Port(address) | Place::Whole(address) => address,
        }
    }
}
