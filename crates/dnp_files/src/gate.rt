//! The ports at which a concentrator serves its centres.

ghost use Rattle.std.specs.Prelude.{◌<◌};

use crate::sites::Served;
use dnp_concentrator::Concentrator;
use dnp_controls::Book;
use dnp_eventbuf::{CENTRES, PairLanes};
use dnp_notices::Ends;
use dnp_streams::Above;
use dnp_tcp::{Caller, Place, exit, no_port, say_listening, serve_connection};
use dnp_terminal::Terminal;
use std::net::{Net, TcpListener, TcpStream};
use std::process::ExitCode;
use std::rt::Clock;

/// Where a centre connects.
#[derive(Drop)]
pub(crate) struct Gate {
    /// The place.
    place: Place,
    /// The link addresses of the frames that are taken there.
    taken: Ends,
    /// What listens there.
    listener: TcpListener,
}

impl Gate {
    /// Listens where a centre is served, and says so. Where the place can't be had, that is said, and the exit status is told.
    pub(crate) fn open<R>(rt: &R, served: Served) -> Result<Gate, ExitCode>
    where
        R: Eprint + Terminal + Clock + Net<Listener = TcpListener, Stream = TcpStream>,
    {
        let Served { place, taken } = served;
        match TcpListener::bind(rt, place.address()) {
            Ok(listener) => {
                say_listening(rt, place.address(), taken);
                Ok(Gate {
                    place,
                    taken,
                    listener,
                })
            }
            Err(cause) => Err(no_port(rt, place, &cause)),
        }
    }

    /// Serves the next connection of this centre. Where the port, a store or memory fails, that is said, and the exit status
    /// is told.
    pub(crate) fn serve_next<Q: PairLanes, B: Book, R: AllocGlobal + Eprint + Terminal + Clock>(
        &self,
        rt: &R,
        concentrator: &mut Concentrator<Q, B>,
        centre: u8,
    ) -> Result<(), ExitCode>
        requires { centre < CENTRES }
    {
        match self.listener.accept() {
            Ok((stream, peer)) => {
                let caller = Caller { stream, peer };
                serve_above(rt, concentrator, centre, self.taken, caller)
            }
            Err(cause) => Err(no_port(rt, self.place, &cause)),
        }
    }
}

/// Serves a connection of this centre, whose frames have these link addresses. Where a store or memory fails, that is said, and the exit status is told.
fn serve_above<Q: PairLanes, B: Book, R: AllocGlobal + Eprint + Terminal + Clock>(
    rt: &R,
    concentrator: &mut Concentrator<Q, B>,
    centre: u8,
    taken: Ends,
    caller: Caller,
) -> Result<(), ExitCode>
    requires { centre < CENTRES }
{
    let mut above = Above::new(concentrator, centre);
    match serve_connection(rt, &mut above, centre, taken, caller) {
        Some(_) => Ok(()),
        None => Err(ExitCode::from(exit::FAULT)),
    }
}
