//! Where masters connect: the newest of them takes the place of the one that is served.

ghost use Rattle.std.specs.Prelude.{◌≡◌};
ghost use Rattle.dnp_tcp.specs.Doors.{listener_of};

use std::cell::Cell;
use std::io;
use std::net::{Net, SocketAddr, TcpListener, TcpStream};

/// A master that has connected.
#[derive(Drop)]
pub struct Caller {
    /// The connection.
    pub stream: TcpStream,
    /// The master's address.
    pub peer: SocketAddr,
}

/// That a master waits for its place.
#[derive(Clone, Copy)]
pub(crate) struct Knock {
    /// Its address.
    pub peer: SocketAddr,
    /// The moment at which it was seen first, in milliseconds.
    pub at: u64,
}

/// Where masters connect.
pub struct Door {
    /// What they connect to.
    listener: TcpListener,
    /// Whether one may take the place of the one that is served.
    is_open: Cell<bool>,
    /// The master that waits for its place.
    caller: Cell<Option<Caller>>,
    /// That it waits.
    knock: Cell<Option<Knock>>,
    /// The moment at which it was looked last whether one has come.
    looked: Cell<u64>,
}

impl Drop for Door {
    /// One call for whoever lets it go: who still waits is hung up.
    fn drop(self) {
        let Door {
            listener: _,
            is_open: _,
            caller,
            knock: _,
            looked: _,
        } = self;
        let _ = caller.into_inner();
    }
}

/// Listens at this address. Nobody who asks whether a master has come waits for one. An error says why the address can't be had. It has
/// no clause: none says what the machine's ports are.
pub fn listen<R>(rt: &R, address: SocketAddr) -> io::Result<TcpListener>
where
    R: Net<Listener = TcpListener, Stream = TcpStream>,
{
    let listener = TcpListener::bind(rt, address)?;
    listener.set_nonblocking(true)?;
    Ok(listener)
}

impl Door {
    /// Where masters connect to this, and nobody has yet.
    pub fn new(listener: TcpListener) -> Door
        ensures { listener_of result ≡ listener }
    {
        Door {
            listener,
            is_open: Cell::new(false),
            caller: Cell::new(None),
            knock: Cell::new(None),
            looked: Cell::new(0),
        }
    }

    /// From now on a master that comes may take the place of the one that is served, or may not.
    pub(crate) fn open(&self, is_open: bool) {
        self.is_open.set(is_open);
    }

    /// Whether a master waits for its place, at this moment.
    pub(crate) fn look(&self, now: u64) -> Option<Knock> {
        let knock = self.knock.get();
        if knock.is_some() || !self.is_open.get() || self.looked.get() == now {
            return knock;
        }
        self.looked.set(now);
        // (why none could be had is told where one is waited for)
        let (stream, peer) = self.listener.accept().ok()?;
        self.caller.set(Some(Caller { stream, peer }));
        let knock = Some(Knock { peer, at: now });
        self.knock.set(knock);
        knock
    }

    /// The address of a master that has come too late, at this moment: it may not take the place of the one that is served, and nobody is
    /// served afterwards. It is hung up.
    pub(crate) fn late(&self, now: u64) -> Option<SocketAddr> {
        if self.is_open.get() || self.looked.get() == now {
            return None;
        }
        self.looked.set(now);
        // (let go here, and so hung up)
        let (_stream, peer) = self.listener.accept().ok()?;
        Some(peer)
    }

    /// The master that waits for its place or has connected by now. WouldBlock where there is none. It has no clause: none says who
    /// connects, or what a cell holds.
    pub fn next(&self) -> io::Result<Caller> {
        self.knock.set(None);
        if let Some(caller) = self.caller.take() {
            return Ok(caller);
        }
        let (stream, peer) = self.listener.accept()?;
        Ok(Caller { stream, peer })
    }

    /// The master that waits for its place or connects next, however long that takes.
    pub(crate) fn wait(&self) -> io::Result<Caller> {
        self.listener.set_nonblocking(false)?;
        let caller = self.next();
        self.listener.set_nonblocking(true)?;
        caller
    }
}
