//! Names of hosts, each of which is looked up once, before anything is opened.

ghost use Rattle.std.specs.Prelude.{◌≡◌};

use dnp_decode::Moment;
use dnp_lines::{Found, LookedUp, Whose};
use dnp_network::{Endpoint, Host, LinkEnds, address_of};
use dnp_tcp::{Ends, exit, moment, utc};
use std::io;
use std::net::{Net, SocketAddr, TcpListener, TcpStream, ToSocketAddrs};
use std::process::ExitCode;
use std::rt::Clock;

/// A host and port of a network's file.
#[derive(Clone, Copy)]
pub struct Sought<'a> {
    /// The path of the file.
    pub path: &'a str,
    /// Whose they are.
    pub whose: Whose,
    /// The key under which they stand.
    pub key: &'static str,
    /// The host and port.
    pub endpoint: &'a Endpoint,
}

/// Says on standard error what became of a name that was looked up from this moment on, with the time.
fn tell<R: Eprint + Clock>(rt: &R, sought: &Sought<'_>, found: Found<'_>, since: u64) {
    let ms = moment(rt, since).saturating_sub(since);
    let looked = LookedUp {
        path: sought.path,
        whose: sought.whose,
        key: sought.key,
        endpoint: sought.endpoint,
        found,
        ms,
    };
    let time = Moment(utc(rt));
    let _ = eprintln!(rt; "{time} {looked}");
}

/// The link addresses of the frames that a station takes which sees its link so.
pub fn taken_by(link: LinkEnds) -> Ends
    ensures source { result.source ≡ link.other }
    ensures dest { result.dest ≡ link.own }
{
    Ends {
        source: link.other,
        dest: link.own,
    }
}

/// The address of a host and port: of a name that is looked up the first one. Each name that is looked up is said on standard error, with how
/// long that took; where one has no address, or can't be looked up, the exit status of a fault is told.
pub fn address_found<R>(rt: &R, sought: &Sought<'_>) -> Result<SocketAddr, ExitCode>
where
    R: Eprint + Clock + Net<Listener = TcpListener, Stream = TcpStream>,
{
    if let Some(address) = address_of(sought.endpoint) {
        return Ok(address);
    }
    let name = match &sought.endpoint.host {
        Host::Name(name) => name.as_str(),
        Host::V4(_) | Host::V6(_) => "",
    };
    let since = moment(rt, 0);
    match (name, sought.endpoint.port).to_socket_addrs(rt) {
        Ok(mut addresses) => match addresses.next() {
            Some(address) => {
                tell(rt, sought, Found::At(address), since);
                Ok(address)
            }
            None => {
                tell(rt, sought, Found::Nowhere, since);
                Err(ExitCode::from(exit::FAULT))
            }
        },
        Err(cause) => {
            tell(rt, sought, Found::Failed(&cause), since);
            Err(ExitCode::from(exit::FAULT))
        }
    }
}
