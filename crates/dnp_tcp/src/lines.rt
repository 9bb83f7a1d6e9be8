//! The lines that stations on connections say, beside those of the stations that they ask and of what these answer, each at its place
//! here.

use dnp_appfragment::{Function, read_request};
use dnp_concentrator::Cause;
use dnp_decode::Moment;
use dnp_notices::{Awaited, Ends, Many, Mismatch, Place, Refusal, Strange, StrangeLine};
use dnp_poll::PollFault;
pub use dnp_poll::SILENCE_MS;
use dnp_streams::ServeFault;
use std::fmt::{Display, Formatter, Write};
use std::net::SocketAddr;
use std::{fmt, io};

/// What is said of a station and of its ports.
#[derive(Clone, Copy)]
pub enum Line<'a> {
    /// It listens at this address, with this link address, for the master with that one.
    Listening(SocketAddr, u16, u16),
    /// No connection can be had there.
    NoPort(Place, &'a io::Error),
    /// Standard output was lost.
    NoOutput(&'a io::Error),
    /// A store or the memory of the program failed.
    Failed(Cause),
    /// The connection of the centre with this number could not be prepared.
    Unprepared(u16, &'a io::Error),
    /// This came on the connection of the centre with this number, and the station doesn't take it.
    Strange(u16, StrangeLine),
    /// On the connection of the centre with this number nothing came, or nothing could be sent, for so many seconds.
    Still(u16, ServeFault, u64),
    /// The connection of the centre with this number failed, for this cause, as far as it is known.
    Broken(u16, ServeFault, Option<&'a io::Error>),
    /// So many connections are over, after which the program ends.
    Over(u64),
}

/// Why no connection can be had there, and what to do.
fn put_no_port<W: Write>(f: &mut Formatter<W>, place: Place, cause: &io::Error) -> fmt::Result {
    match cause.kind() {
        io::ErrorKind::AddrInUse => write!(
            f,
            "{place}: {cause}: another program listens there: end it, or give another port"
        ),
        io::ErrorKind::AddrNotAvailable => {
            write!(f, "{place}: {cause}: give an address of this machine")
        }
        io::ErrorKind::PermissionDenied => {
            write!(f, "{place}: {cause}: give a port from 1024 on")
        }
        _ => write!(f, "{place}: {cause}"),
    }
}

impl<'a> Display for Line<'a> {
    fn fmt<W: Write>(&self, f: &mut Formatter<W>) -> fmt::Result {
        match *self {
            Line::Listening(place, own, master) => {
                write!(f, "listening on {place} as {own} for master {master}")
            }
            Line::NoPort(place, cause) => put_no_port(f, place, cause),
            Line::NoOutput(cause) => write!(f, "standard output: {cause}"),
            Line::Failed(Cause::Device) => write!(
                f,
                "this program: {}: see whether there is room on the disks of its files",
                Cause::Device
            ),
            Line::Failed(cause) => write!(f, "this program: {cause}"),
            Line::Unprepared(number, cause) => write!(f, "centre {number}: {cause}"),
            Line::Strange(number, what) => write!(f, "centre {number}: {what}"),
            Line::Still(number, fault, seconds) => write!(
                f,
                "centre {number}: {fault}: nothing for {seconds} seconds"
            ),
            Line::Broken(number, fault, Some(cause)) => {
                write!(f, "centre {number}: {fault}: {cause}")
            }
            Line::Broken(number, fault, None) => write!(f, "centre {number}: {fault}"),
            Line::Over(1) => write!(
                f,
                "the connection is over, and so the program ends: '--forever' serves more"
            ),
            Line::Over(count) => write!(
                f,
                "{count} connections are over, and so the program ends: '--forever' serves more"
            ),
        }
    }
}

/// How many fragments came whole on a connection that is over.
#[derive(Clone, Copy)]
pub struct Served(pub u64);

impl Display for Served {
    fn fmt<W: Write>(&self, f: &mut Formatter<W>) -> fmt::Result {
        write!(f, "served {}", self.0)
    }
}

/// What happened to the connection of a master.
#[derive(Clone, Copy)]
pub enum Visited {
    /// It began.
    Connected,
    /// This came, and the station doesn't take it.
    Strange(StrangeLine),
    /// It is hung up, since the program ends after the connection that is served.
    Late,
}

impl Display for Visited {
    fn fmt<W: Write>(&self, f: &mut Formatter<W>) -> fmt::Result {
        match self {
            Visited::Connected => f.write_str("connected"),
            Visited::Strange(line) => write!(f, "{line}"),
            Visited::Late => f.write_str(
                "came too late and is hung up: the program ends after the connection that it serves; '--forever' serves more",
            ),
        }
    }
}

/// A fragment that came, and how many octets its answer has.
#[derive(Clone, Copy)]
pub struct Asked<'a> {
    /// The fragment.
    pub octets: &'a [u8],
    /// How many octets are sent at once for it.
    pub sent: usize,
}

impl<'a> Display for Asked<'a> {
    fn fmt<W: Write>(&self, f: &mut Formatter<W>) -> fmt::Result {
        match read_request(self.octets) {
            Ok(request) => {
                let line = dnp_decode::Line::Request {
                    control: request.control,
                    function: request.function,
                };
                write!(f, "{line}")?;
            }
            Err(_) => {
                let octets = Many(self.octets.len() as u64, "octet", "octets");
                write!(f, "a fragment of {octets} in error")?;
            }
        }
        match self.sent {
            0 => f.write_str(", not answered"),
            sent => write!(f, ", answered with {sent} octets"),
        }
    }
}

/// How a connection ended.
#[derive(Clone, Copy)]
pub enum Ending<'a> {
    /// The master closed it.
    Master,
    /// The station closed it.
    Station,
    /// Nothing whole came for so many seconds.
    Idle(u64),
    /// The master at this address took its place.
    Taken(SocketAddr),
    /// It failed, and this is why, as far as it is known.
    Failed(ServeFault, Option<&'a io::Error>),
    /// It could not be prepared.
    Unprepared(&'a io::Error),
    /// The program has done its rounds.
    Done,
}

/// A connection's end, and how many fragments came whole on it.
#[derive(Clone, Copy)]
pub struct End<'a> {
    /// How many fragments came whole.
    pub fragments: u64,
    /// How it ended.
    pub how: Ending<'a>,
}

impl<'a> Display for End<'a> {
    fn fmt<W: Write>(&self, f: &mut Formatter<W>) -> fmt::Result {
        let fragments = self.fragments;
        write!(f, "ended, served {fragments}: ")?;
        match self.how {
            Ending::Master => f.write_str("the master closed the connection"),
            Ending::Station => f.write_str("the station closed the connection"),
            Ending::Idle(seconds) => write!(f, "idle, nothing whole came for {seconds} seconds"),
            Ending::Taken(peer) => write!(f, "taken over by {peer}"),
            Ending::Failed(fault, Some(cause)) => write!(f, "{fault}: {cause}"),
            Ending::Failed(fault, None) => write!(f, "{fault}"),
            Ending::Unprepared(cause) => write!(f, "{cause}"),
            Ending::Done => f.write_str("all rounds are done"),
        }
    }
}

/// What is said beside a failure of an OPERATE that was sent and not answered: which output it was for.
#[derive(Clone, Copy)]
pub struct Open(pub Option<u16>);

impl Display for Open {
    fn fmt<W: Write>(&self, f: &mut Formatter<W>) -> fmt::Result {
        match self.0 {
            Some(index) => write!(
                f,
                "; output {index} may have been operated: look at it before the command is given again"
            ),
            None => Ok(()),
        }
    }
}

/// Why rounds of tasks can't go on.
#[derive(Clone, Copy)]
pub enum Stop<'a> {
    /// For this fault of what was asked.
    Fault(PollFault),
    /// No answer came in so many milliseconds.
    Silent(u64, Open),
    /// The outstation ended the connection before its answer.
    Ended(Open),
    /// The stream failed so, since nothing went in so many milliseconds.
    Late(ServeFault, u64, Open),
    /// The stream failed so, for this cause, as far as it is known.
    Broken(ServeFault, Option<&'a io::Error>, Open),
    /// This came in place of the frames with these link addresses, which are awaited.
    Strange(Strange, Ends),
    /// This response came in place of the one that is awaited.
    Unlike(Mismatch),
    /// What came is no response, for this reason.
    Refused(Refusal),
    /// The outstation ended the connection while unsolicited responses were awaited.
    EndedUnasked,
}

impl<'a> Display for Stop<'a> {
    fn fmt<W: Write>(&self, f: &mut Formatter<W>) -> fmt::Result {
        match *self {
            Stop::Fault(fault) => write!(f, "{fault}"),
            Stop::Silent(ms, open) => write!(f, "no response in {ms} ms{open}"),
            Stop::Ended(open) => write!(f, "the connection ended before the answer{open}"),
            Stop::Late(fault, ms, open) => write!(f, "{fault}: nothing went in {ms} ms{open}"),
            Stop::Broken(fault, Some(cause), open) => write!(f, "{fault}: {cause}{open}"),
            Stop::Broken(fault, None, open) => write!(f, "{fault}{open}"),
            Stop::Strange(Strange::Frame(ends), Ends { source, dest }) => write!(
                f,
                "frames came from {} to {}; this asks {source} as {dest}",
                ends.source, ends.dest
            ),
            Stop::Strange(Strange::Noise, _) => f.write_str("octets came, and no frame"),
            Stop::Unlike(mismatch) => write!(f, "{mismatch}"),
            Stop::Refused(refusal) => write!(f, "{refusal}"),
            Stop::EndedUnasked => {
                f.write_str("the outstation ended the connection while this listened")
            }
        }
    }
}

/// What a program says that then ends by itself, without the time.
#[derive(Clone, Copy)]
pub enum Failure<'a> {
    /// The stream with this name failed.
    Stream(&'a str, &'a io::Error),
    /// Rounds stopped that asked the outstation at this host and port.
    Rounds(&'a str, Stop<'a>),
    /// Rounds stopped for a fault of the program's own.
    Own(PollFault),
}

impl<'a> Display for Failure<'a> {
    fn fmt<W: Write>(&self, f: &mut Formatter<W>) -> fmt::Result {
        match *self {
            Failure::Stream(stream, cause) => write!(f, "dnp: {stream}: {cause}"),
            Failure::Rounds(place, why) => write!(f, "dnp: {place}: {why}"),
            Failure::Own(fault) => write!(f, "dnp: {fault}"),
        }
    }
}

/// A response that is awaited.
#[derive(Clone, Copy)]
pub struct Wait {
    /// The link address of the station that owes it.
    pub source: u16,
    /// The function of the request.
    pub function: Function,
    /// Which fragment of it is awaited.
    pub awaited: Awaited,
    /// Since when, in milliseconds since 1970-01-01 00:00 UTC.
    pub since: u64,
    /// For how long it is awaited still, in milliseconds.
    pub left_ms: u64,
}

/// What the outstation is waited for.
#[derive(Clone, Copy)]
pub struct Waits(pub Wait);

impl Display for Waits {
    fn fmt<W: Write>(&self, f: &mut Formatter<W>) -> fmt::Result {
        let Wait {
            source,
            function,
            awaited,
            since,
            left_ms,
        } = self.0;
        let part = if awaited.is_later {
            "next fragment of the response"
        } else {
            "response"
        };
        let (name, seq, since) = (function.name(), awaited.seq, Moment(since));
        write!(
            f,
            "dnp: waiting for station {source}: the {part} to {name}, sequence number {seq}, is awaited since {since}, for {left_ms} ms more"
        )
    }
}

/// The outstation at this host and port is to take a connection at this address, and it is waited for so many milliseconds more.
#[derive(Clone, Copy)]
pub struct Connects<'a>(pub &'a str, pub SocketAddr, pub u64);

impl<'a> Display for Connects<'a> {
    fn fmt<W: Write>(&self, f: &mut Formatter<W>) -> fmt::Result {
        let Connects(name, place, left_ms) = *self;
        write!(
            f,
            "dnp: {name}: waiting for a connection to {place}, for {left_ms} ms more"
        )
    }
}

/// Which way octets went.
#[derive(Clone, Copy, Debug, PartialEq, Eq)]
pub enum Way {
    /// To the outstation.
    Sent,
    /// From it.
    Received,
}

/// Octets that went over a connection.
#[derive(Clone, Copy)]
pub struct Passed<'a> {
    /// When, in milliseconds since 1970-01-01 00:00 UTC.
    pub utc: u64,
    /// Which way.
    pub way: Way,
    /// Whether they are a link frame; else they belong to none.
    pub is_frame: bool,
    /// The octets.
    pub octets: &'a [u8],
}

impl<'a> Display for Passed<'a> {
    fn fmt<W: Write>(&self, f: &mut Formatter<W>) -> fmt::Result {
        let moment = Moment(self.utc);
        write!(f, "{moment} ")?;
        f.write_str(match (self.way, self.is_frame) {
            (Way::Sent, true) => "sent",
            (Way::Sent, false) => "sent, in no frame:",
            (Way::Received, true) => "received",
            (Way::Received, false) => "received, in no frame:",
        })?;
        for octet in self.octets {
            write!(f, " {octet:02X}")?;
        }
        Ok(())
    }
}
