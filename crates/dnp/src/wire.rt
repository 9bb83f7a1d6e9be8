//! A wire of two sockets, over which the units of a system go to the program itself.

use dnp_linkframe::MAX_UNIT;
use dnp_world::{Carrier, Cause, Link, Way};
use std::io;
use std::io::{Read, Write};
use std::net::{IpAddr, Ipv4Addr, Net, SocketAddr, TcpListener, TcpStream};
use std::time::Duration;

/// How long a unit that was written is waited for, in seconds.
const PATIENCE: u64 = 30;

/// Both ends of a TCP connection of the program to itself, on the loopback interface.
///
/// A unit is far shorter than what a socket keeps, so it is written as a whole before it is read.
#[derive(Drop)]
pub(crate) struct Wire {
    /// The end of the masters: down it is written, and up it is read.
    master: TcpStream,
    /// The end of the outstations.
    outstation: TcpStream,
    /// Why the last unit that wasn't carried wasn't.
    cause: Option<io::Error>,
}

impl Wire {
    /// Connects the program to itself, over a port of the machine's choice.
    pub(crate) fn new<R>(rt: &R) -> io::Result<Wire>
    where
        R: Net<Listener = TcpListener, Stream = TcpStream>,
    {
        let home = SocketAddr::new(IpAddr::V4(Ipv4Addr::LOCALHOST), 0);
        let listener = TcpListener::bind(rt, home)?;
        let master = TcpStream::connect(rt, listener.local_addr()?)?;
        Wire::from_end(master, &listener)
    }

    /// The wire of the end that connected, and of the one that is taken here.
    fn from_end(master: TcpStream, listener: &TcpListener) -> io::Result<Wire> {
        let (outstation, peer) = listener.accept()?;
        match prepare_both(&master, &outstation, peer) {
            Ok(()) => Ok(Wire {
                master,
                outstation,
                cause: None,
            }),
            Err(cause) => Err(cause),
        }
    }

    /// Why the last unit that wasn't carried wasn't, if there was one.
    pub(crate) fn cause(&self) -> Option<&io::Error> {
        self.cause.as_ref()
    }
}

/// Prepares both ends, of which the second was connected by this peer: where that isn't the first, it is a fault.
fn prepare_both(master: &TcpStream, outstation: &TcpStream, peer: SocketAddr) -> io::Result<()> {
    if peer != master.local_addr()? {
        // Somebody else was first at the port.
        return Err(io::ErrorKind::ConnectionRefused.into());
    }
    prepare(master)?;
    prepare(outstation)
}

/// Sends what is written at once, and ends reads that stand still.
fn prepare(stream: &TcpStream) -> io::Result<()> {
    stream.set_nodelay(true)?;
    stream.set_read_timeout(Some(Duration::from_secs(PATIENCE)))
}

/// Sends a unit from one end to the other. Where other octets come, that is a fault.
fn send(mut from: &TcpStream, mut to: &TcpStream, unit: &[u8]) -> io::Result<()> {
    from.write_all(unit)?;
    let mut came = [0; MAX_UNIT];
    match came.get_mut(..unit.len()) {
        Some(came) => {
            to.read_exact(came)?;
            if *came == *unit {
                Ok(())
            } else {
                Err(io::ErrorKind::InvalidData.into())
            }
        }
        None => Err(io::ErrorKind::InvalidInput.into()),
    }
}

impl Carrier for Wire {
    ghost use Rattle.std.specs.Prelude.{◌≡◌, ⊤};
    ghost use Rattle.dnp_concentrator.specs.declared.cause.Cause.TheVariants.{Device};

    ghost carries = { λ _ _ _ _ _. ⊤ };

    ghost refuses = { λ _ cause _. cause ≡ Device };

    fn carry(&mut self, _on: Link, way: Way, unit: &[u8]) -> Result<(), Cause> {
        let sent = match way {
            Way::Down => send(&self.master, &self.outstation, unit),
            Way::Up => send(&self.outstation, &self.master, unit),
        };
        match sent {
            Ok(()) => Ok(()),
            Err(cause) => {
                self.cause = Some(cause);
                Err(Cause::Device)
            }
        }
    }
}
