//! Why connections end on which stations are served, and the calls of their sockets: what waits on a link is sent, and what
//! comes is fed to it.

ghost use Rattle.std.specs.Prelude.{◌≡◌};
ghost use Rattle.std.specs.IoError.{error_kind};
ghost use Rattle.dnp_tcp.specs.Causes.{is_waited_out};

use crate::lines::Ending;
use dnp_streams::{Link, ServeFault};
use std::io;
use std::io::{ErrorKind, Read, Write};
use std::net::{SocketAddr, TcpStream};
use std::time::Duration;

/// How many octets are read at once, at most: a call for each frame costs more than the frame.
pub(crate) const PIECE: usize = 16_384;

/// Why a connection ends on which a station is served.
#[derive(Drop)]
pub enum Leave {
    /// The master has closed it.
    Master,
    /// The station has closed it.
    Station,
    /// Nothing whole came for too long.
    Idle,
    /// The master at this address takes the place.
    Taken(SocketAddr),
    /// It could not be read.
    Unread(io::Error),
    /// It could not be written, or took nothing.
    Unwritten(Option<io::Error>),
    /// Out of memory for the frames that came.
    Memory,
}

impl Leave {
    /// How the connection ended, as it is said. It may be idle for so many seconds.
    pub fn ending(&self, idle: u64) -> Ending<'_> {
        match self {
            Leave::Master => Ending::Master,
            Leave::Station => Ending::Station,
            Leave::Idle => Ending::Idle(idle),
            Leave::Taken(peer) => Ending::Taken(*peer),
            Leave::Unread(cause) => Ending::Failed(ServeFault::ReadFailed, Some(cause)),
            Leave::Unwritten(cause) => Ending::Failed(ServeFault::WriteFailed, cause.as_ref()),
            Leave::Memory => Ending::Failed(ServeFault::Memory, None),
        }
    }
}

/// Whether a read or a write has waited for as long as it may, or was stopped on its way, as by a signal.
pub(crate) fn is_pause(error: &io::Error) -> bool
    ensures { result ≡ is_waited_out (error_kind error.now) }
{
    matches!(error.kind(), ErrorKind::WouldBlock | ErrorKind::Interrupted)
}

/// Sends what is written at once, and lets a write wait for so long at most, in milliseconds above 0.
pub fn prepare(stream: &TcpStream, write_ms: u64) -> io::Result<()> {
    stream.set_nodelay(true)?;
    stream.set_write_timeout(Some(Duration::from_millis(write_ms)))
}

/// Writes once of what waits on a link. A write that has waited for as long as it may sends nothing.
pub(crate) fn write_waiting(mut stream: &TcpStream, link: &mut Link) -> Result<(), Leave>
    ensures { link.new.waiting ≡ link.old.waiting }
{
    match stream.write(link.output()) {
        Ok(0) => Err(Leave::Unwritten(None)),
        Ok(count) => {
            link.sent(count);
            Ok(())
        }
        Err(error) if is_pause(&error) => Ok(()),
        Err(error) => Err(Leave::Unwritten(Some(error))),
    }
}

/// Reads once into this room, and feeds what came to a link. Whether anything came: a read that has waited for as long as it
/// may brings nothing.
pub(crate) fn read_waiting(
    mut stream: &TcpStream,
    link: &mut Link,
    piece: &mut [u8],
) -> Result<bool, Leave> {
    match stream.read(piece) {
        Ok(0) => Err(Leave::Master),
        Ok(count) => match link.feed(&piece[..count]) {
            Ok(()) => Ok(true),
            Err(_) => Err(Leave::Memory),
        },
        Err(error) if is_pause(&error) || error.kind() == ErrorKind::TimedOut => Ok(false),
        Err(error) => Err(Leave::Unread(error)),
    }
}
