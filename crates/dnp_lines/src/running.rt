//! What runs, as it is told.

use dnp_network::Endpoint;
use std::io;
use std::net::SocketAddr;

/// A version of the program, and which build it is, where that is known.
#[derive(Clone, Copy)]
pub struct Version<'a>(pub &'a str, pub Option<&'a str>);

/// A program of this version begins to serve or to poll; which build it is, where that is known.
#[derive(Clone, Copy)]
pub struct Begun<'a>(pub &'a str, pub Option<&'a str>);

/// A control code that will be sent.
#[derive(Clone, Copy)]
pub struct SentCode(pub u8);

/// Which station of a network a host and port are of.
#[derive(Clone, Copy)]
pub enum Whose {
    /// The concentrator.
    Concentrator,
    /// The substation with this number.
    Substation(usize),
}

/// What became of a name that was looked up.
#[derive(Clone, Copy)]
pub enum Found<'a> {
    /// It is this address.
    At(SocketAddr),
    /// It has no address.
    Nowhere,
    /// It can't be looked up.
    Failed(&'a io::Error),
}

/// A name of a host that was looked up.
#[derive(Clone, Copy)]
pub struct LookedUp<'a> {
    /// The path of the network's file.
    pub path: &'a str,
    /// Whose it is.
    pub whose: Whose,
    /// The key under which it stands.
    pub key: &'static str,
    /// The host and port.
    pub endpoint: &'a Endpoint,
    /// What became of it.
    pub found: Found<'a>,
    /// How long that took, in milliseconds.
    pub ms: u64,
}

/// A long work that is on its way, as a terminal shows it.
#[derive(Clone, Copy)]
pub enum Doing {
    /// A script of so many octets is read and checked.
    Checking(usize),
    /// A script is run, and so many percents of it are done.
    Running(u8),
}
