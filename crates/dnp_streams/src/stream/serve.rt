//! A stream, served to its end.

ghost use Rattle.std.specs.Prelude.{◌≡◌, [], false, OnOk};
ghost use Rattle.dnp_streams.specs.links.Deeds.{ways};
ghost use Rattle.dnp_streams.specs.links.Links.{new_link};
ghost use Rattle.dnp_streams.specs.steps.Serving.{GoesOn, IsWriteNoted, Tells, TellsHeard, closed_told, faults_told};
ghost use Rattle.dnp_streams.specs.streams.Logs.{new_log};
ghost use Rattle.dnp_streams.specs.streams.Serving.{IsLeft, IsNoted, Serves};
ghost use Rattle.dnp_streams.specs.streams.Stations.{endpoint};

use crate::link::{Heard, Link, StepRoom, Told};
use crate::stream::log::{Log, read_noted};
use crate::stream::sending::send_noted;
use crate::stream::served::Served;
use crate::stream::station::{Station, StationFault};
use crate::writing::NotWritten;
use dnp_line::Port;
use dnp_linkframe::MAX_UNIT;
use std::alloc::Global;
use std::io::{Read, Write};

/// Why a stream was not served to its end.
#[derive(Clone, Copy, Debug, PartialEq, Eq)]
pub enum ServeFault {
    /// The reader failed.
    ReadFailed,
    /// The writer failed, or took none of the octets that it was given.
    WriteFailed,
    /// The reader was asked for octets as often as it was to be, and neither the input nor the connection had ended.
    TurnsSpent,
    /// Out of memory for the frames of what was read last.
    Memory,
}

impl From<NotWritten> for ServeFault {
    ghost use Rattle.std.specs.Prelude.{◌≡◌};
    ghost use Rattle.dnp_streams.specs.declared.stream.serve.ServeFault.TheVariants.{WriteFailed};

    ghost from_gives = { λ _ fault. fault ≡ WriteFailed };

    fn from(_: NotWritten) -> ServeFault {
        ServeFault::WriteFailed
    }
}

/// How many refusals a reply of the station is.
fn faults_in(told: &Result<Told, StationFault>) -> u64
    ensures { result ≡ faults_told told.now }
{
    match told {
        Ok(_) => 0,
        Err(_) => 1,
    }
}

/// Whether the station has closed the connection by it.
fn is_closed(told: &Result<Told, StationFault>) -> bool
    ensures { result ≡ closed_told told.now }
{
    match told {
        Ok(told) => told.closed,
        Err(_) => false,
    }
}

/// Counts what a reply of the station brings.
fn count(served: &mut Served, fragments: u64, told: &Result<Told, StationFault>)
    ensures { Tells served.old fragments told.now served.new }
{
    served.fragments = served.fragments.saturating_add(fragments);
    served.faults = served.faults.saturating_add(faults_in(told));
    served.closed = served.closed || is_closed(told);
}

/// Counts what a frame brings.
fn count_heard(served: &mut Served, heard: &Heard)
    ensures { TellsHeard served.old heard.now served.new }
{
    match heard {
        Heard::Part => {}
        Heard::Whole(told) => count(served, 1, told),
    }
}

/// Hears the frames that wait, up to one that closes the connection, and writes what each of them brings.
fn hear_all<S: Station, W: Write>(
    room: &mut StepRoom,
    station: &mut S,
    link: &mut Link,
    now: u64,
    out: &mut W,
    served: &mut Served,
    log: &mut Log,
) -> Result<(), NotWritten>
    requires { link.old.pending ≡ [] }
    ensures kept { S.kept station.new ≡ S.kept station.old }
    ensures held { S.honest station.new → S.honest station.old }
    ensures goes_on { S.honest station.new → GoesOn (ways S.opens S.receives S.asking S.life) now (S.state station.old) link.old served.old (W.contents out.old)
        (S.state station.new) link.new served.new (W.contents out.new) }
    ensures sent { OnOk result (link.new.pending ≡ []) }
    ensures heard { OnOk result (served.new.closed ≡ false → link.new.waiting ≡ []) }
    ensures noted { IsWriteNoted result log.old log.new }
{
    while !served.closed && link.has_frame() {
        count_heard(served, &link.hear(room, station, now));
        match send_noted(link, out, log) {
            Ok(()) => {}
            Err(fault) => return Err(fault),
        }
    }
    Ok(())
}

/// Serves a stream on a new link; a fault leaves the station open.
fn serve<S: Station, R: Read, W: Write>(
    room: &mut StepRoom,
    station: &mut S,
    link: &mut Link,
    now: u64,
    reader: &mut R,
    out: &mut W,
    turns: u64,
    log: &mut Log,
) -> Result<Served, ServeFault>
    requires fresh { link.old ≡ new_link link.old.port }
    requires log { log.old ≡ new_log }
    ensures kept { S.kept station.new ≡ S.kept station.old }
    ensures held { S.honest station.new → S.honest station.old }
    ensures serves { S.honest station.new → Serves S.opens S.receives now turns (endpoint (S.state station.old) link.old.port)
        (R.remaining reader.old) (R.remaining reader.new)
        (W.contents out.old) (W.contents out.new) result (endpoint (S.state station.new) link.new.port) }
    ensures noted { IsNoted turns result log.new }
{
    let mut served = Served {
        fragments: 0,
        faults: 0,
        closed: false,
    };
    count(&mut served, 0, &link.opened(room, station, now));
    match send_noted(link, out, log) {
        Ok(()) => {}
        Err(_) => return Err(ServeFault::WriteFailed),
    }
    if served.closed {
        return Ok(served);
    }
    let mut piece = [0; MAX_UNIT];
    for _ in 0..turns {
        let count = match read_noted(reader, &mut piece, log) {
            Ok(count) => count,
            Err(_) => return Err(ServeFault::ReadFailed),
        };
        if count == 0 {
            return Ok(served);
        }
        match link.feed(&piece[..count]) {
            Ok(()) => {}
            Err(_) => return Err(ServeFault::Memory),
        }
        match hear_all(room, station, link, now, out, &mut served, log) {
            Ok(()) => {}
            Err(_) => return Err(ServeFault::WriteFailed),
        }
        if served.closed {
            return Ok(served);
        }
    }
    Err(ServeFault::TurnsSpent)
}

/// Serves a stream as [`serve_stream`] does, and notes in a new log what it asked of the reader and the writer.
pub fn serve_noted<S: Station, R: Read, W: Write>(
    alloc: Global,
    station: &mut S,
    port: &mut Port,
    now: u64,
    reader: &mut R,
    out: &mut W,
    turns: u64,
    log: &mut Log,
) -> Result<Served, ServeFault>
    requires { log.old ≡ new_log }
    ensures kept { S.kept station.new ≡ S.kept station.old }
    ensures held { S.honest station.new → S.honest station.old }
    ensures serves { S.honest station.new → (ended : S.State) × IsLeft S.hung_up_of result ended (S.state station.new)
        × Serves S.opens S.receives now turns (endpoint (S.state station.old) port.old)
        (R.remaining reader.old) (R.remaining reader.new)
        (W.contents out.old) (W.contents out.new) result (endpoint ended port.new) }
    ensures noted { IsNoted turns result log.new }
{
    let mut room = StepRoom::new(alloc);
    let mut link = Link::new(alloc, port.copy());
    let result = serve(&mut room, station, &mut link, now, reader, out, turns, log);
    link.port().copy_into(port);
    if result.is_err() {
        station.hung_up();
    }
    result
}

/// Serves a stream of octets: opens the station, hands it the fragments that come, and writes what it and its port
/// answer, to each frame the link layer's reply first.
///
/// It ends with Ok where the input ends, or after the step by which the station closed the connection; the caller hangs
/// the station up then. What was written is what the definitions of `specs/` make of what was read. A fragment that the
/// station refuses is counted, and is answered by the link layer alone.
///
/// A fault is ReadFailed or WriteFailed where the reader or the writer failed, WriteFailed also where the writer took
/// none of the octets that it was given; TurnsSpent after `turns` reads; or Memory for the frames of what was read
/// last. What was written is then a beginning of what was to be written, at WriteFailed, and else all of it; and the
/// station is hung up.
///
/// Reader and writer are lent, and nothing is flushed: a writer that keeps octets back would keep the peer waiting.
pub fn serve_stream<S: Station, R: Read, W: Write>(
    alloc: Global,
    station: &mut S,
    port: &mut Port,
    now: u64,
    reader: &mut R,
    out: &mut W,
    turns: u64,
) -> Result<Served, ServeFault>
    ensures kept { S.kept station.new ≡ S.kept station.old }
    ensures held { S.honest station.new → S.honest station.old }
    ensures serves { S.honest station.new → (ended : S.State) × IsLeft S.hung_up_of result ended (S.state station.new)
        × Serves S.opens S.receives now turns (endpoint (S.state station.old) port.old)
        (R.remaining reader.old) (R.remaining reader.new)
        (W.contents out.old) (W.contents out.new) result (endpoint ended port.new) }
{
    serve_noted(
        alloc,
        station,
        port,
        now,
        reader,
        out,
        turns,
        &mut Log::new(),
    )
}
