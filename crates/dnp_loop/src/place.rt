//! A place of the loop: the connection of a slot of the node, with its socket.

ghost use Rattle.std.specs.Prelude.{◌≡◌};
ghost use Rattle.dnp_loop.specs.States.{absent, connecting, reported, up};

use crate::fault::Fault;
use crate::notice::{Notice, Notices};
use crate::state::{Action, State};
use dnp_nodes::{Closing, Node, Slot};
use mio::net::TcpStream;
use mio::{Interest, Registry, Token};
use std::io;
use std::net::{Net, SocketAddr};

/// What connections are made with.
pub(crate) struct System<'s, R> {
    /// The handle by which sockets are opened.
    pub(crate) rt: &'s R,
    /// The set that reports what happens to them.
    pub(crate) registry: &'s Registry,
}

impl<R> Drop for System<'_, R> {
    /// Both are lent.
    fn drop(self) {
        let System { rt: _, registry: _ } = self;
    }
}

/// A place of the loop: the connection of a slot of the node.
#[derive(Drop)]
pub(crate) struct Place {
    /// The slot.
    pub(crate) slot: Slot,
    /// The number under which the system reports what happens here.
    pub(crate) token: usize,
    /// The address that is called, if the node calls somebody here.
    pub(crate) address: Option<SocketAddr>,
    /// The socket, if there is a connection.
    pub(crate) stream: Option<TcpStream>,
    /// What is known of the connection.
    pub(crate) state: State,
}

impl Place {
    /// A place without a connection. Somebody is called here if there is an address.
    pub(crate) fn new(slot: Slot, token: usize, address: Option<SocketAddr>) -> Place
        ensures slot { result.slot ≡ slot }
        ensures state { result.state ≡ absent }
    {
        Place {
            slot,
            token,
            address,
            stream: None,
            state: State::absent(),
        }
    }

    /// The system has reported something.
    pub(crate) fn note(&mut self)
        ensures state { self.new.state ≡ reported self.old.state }
        ensures slot { self.new.slot ≡ self.old.slot }
    {
        self.state = self.state.reported();
    }

    /// What is done next.
    pub(crate) fn next_action<N: Node>(&self, node: &N) -> Action {
        let has_output = !node.output(self.slot).is_empty();
        self.state.next_action(has_output)
    }

    /// Has the set report what happens to this socket, and keeps it in place of any other.
    fn keep(&mut self, registry: &Registry, mut stream: TcpStream, state: State) -> io::Result<()>
        ensures { self.new.slot ≡ self.old.slot }
    {
        let both = Interest::READABLE | Interest::WRITABLE;
        registry.register(&mut stream, Token(self.token), both)?;
        self.stream = Some(stream);
        self.state = state;
        Ok(())
    }

    /// Begins to make a connection to an address.
    fn call<R: Net>(&mut self, system: &System<'_, R>, address: SocketAddr) -> io::Result<()>
        ensures { self.new.slot ≡ self.old.slot }
    {
        let stream = TcpStream::connect(system.rt, address)?;
        self.keep(system.registry, stream, State::connecting())
    }

    /// The node wants a connection.
    pub(crate) fn connect<R: Net, N: Node>(
        &mut self,
        system: &System<'_, R>,
        node: &mut N,
        notices: &mut Notices,
        now: u64,
    )
        ensures { self.new.slot ≡ self.old.slot }
    {
        self.close();
        let Some(address) = self.address else {
            node.closed(self.slot, now, Closing::Unmade);
            return;
        };
        notices.tell(Notice::Connecting(self.slot, address));
        if let Err(cause) = self.call(system, address) {
            notices.tell(Notice::Unmade(self.slot, Fault::of(&cause)));
            node.closed(self.slot, now, Closing::Unmade);
        }
    }

    /// Closes the connection, if there is one. What was written is still sent, unless octets of the peer were left unread.
    pub(crate) fn close(&mut self)
        ensures state { self.new.state ≡ absent }
        ensures slot { self.new.slot ≡ self.old.slot }
    {
        self.stream = None;
        self.state = State::absent();
    }

    /// A connection came, and takes the place of any other.
    pub(crate) fn accept<N: Node>(
        &mut self,
        registry: &Registry,
        node: &mut N,
        notices: &mut Notices,
        stream: TcpStream,
        now: u64,
    )
        ensures { self.new.slot ≡ self.old.slot }
    {
        self.close();
        let kept = self.keep(registry, stream, State::up());
        match kept {
            Ok(()) => node.connected(self.slot, now),
            Err(cause) => {
                notices.tell(Notice::Broken(self.slot, Fault::of(&cause)));
                node.closed(self.slot, now, Closing::Replaced);
            }
        }
    }
}
