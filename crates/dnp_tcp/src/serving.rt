//! A station that serves connections of centres over TCP.

ghost use Rattle.std.specs.Prelude.{◌≡◌, ◌⊎◌, Some};
ghost use Rattle.std.specs.Process.{exit_status};
ghost use Rattle.dnp_streams.specs.links.Deeds.{ways};
ghost use Rattle.dnp_tcp.specs.Connections.{LeadsOn, ServedOn, is_own_fault};

use crate::clock::moment;
use crate::door::Caller;
use crate::exit::FAULT;
use crate::leave::{Leave, prepare};
use crate::lines::{Ending, Line};
use crate::logged::say;
use crate::standing::StandingConnection;
use crate::turn::Parting;
use dnp_notices::{Ends, Place, StrangeLine};
use dnp_streams::{Living, ServeFault, StepRoom};
use dnp_terminal::Terminal;
use std::io;
use std::process::ExitCode;
use std::rt::Clock;

/// How long a connection may stand still, in seconds: nothing comes, or nothing can be sent.
const SILENCE: u64 = 300;

/// The same in milliseconds.
const SILENCE_MS: u64 = SILENCE * 1_000;

/// Says on standard error why no connection can be had at a place, and gives the exit status of a fault.
pub fn no_port<R: Eprint + Terminal + Clock>(rt: &R, place: Place, cause: &io::Error) -> ExitCode
    ensures { exit_status result ≡ FAULT }
{
    say(rt, &Line::NoPort(place, cause));
    ExitCode::from(FAULT)
}

/// Serves a connection of this centre, whose frames have these link addresses, to its end, or until it has stood still for `SILENCE`,
/// hangs the station up, and tells how many fragments came whole; nothing if memory ran out or a store of the station failed. What goes
/// wrong is said on standard error, and which frames came that the station doesn't take. A connection that can't be prepared isn't
/// served, and the station is as it was.
pub fn serve_connection<S, R>(
    rt: &R,
    station: &mut S,
    centre: u8,
    taken: Ends,
    caller: Caller,
) -> Option<u64>
where
    S: Living,
    R: AllocGlobal + Eprint + Terminal + Clock,
    ensures kept { S.kept station.new ≡ S.kept station.old }
    ensures held { S.honest station.new → S.honest station.old }
    ensures serves { S.honest station.new → ((result ≡ Some 0) × (S.state station.new ≡ S.state station.old))
        ⊎ ServedOn (ways S.opens S.receives S.asking S.life) S.hung_up_of (S.state station.old) result (S.state station.new) }
{
    let number = u16::from(centre) + 1;
    if let Err(cause) = prepare(&caller.stream, SILENCE_MS) {
        say(rt, &Line::Unprepared(number, &cause));
        return Some(0);
    }
    let mut connection = StandingConnection::new(rt.alloc(), caller, taken, moment(rt, 0));
    let parting = serve_to_end(rt, station, &mut connection);
    station.hung_up();
    if let Some(strange) = connection.heard().strange() {
        say(rt, &Line::Strange(number, StrangeLine { strange, taken }));
    }
    if tell(rt, number, &parting) {
        return None;
    }
    Some(connection.fragments())
}

/// Serves a connection to its end, and tells why it isn't served any longer.
fn serve_to_end<S: Living, R: AllocGlobal + Clock>(
    rt: &R,
    station: &mut S,
    connection: &mut StandingConnection,
) -> Stop
    ensures kept { S.kept station.new ≡ S.kept station.old }
    ensures held { S.honest station.new → S.honest station.old }
    ensures leads { S.honest station.new → LeadsOn (ways S.opens S.receives S.asking S.life) (S.state station.old) connection.old (S.state station.new) connection.new }
{
    let mut room = StepRoom::new(rt.alloc());
    for _ in 0..u64::MAX {
        let span = connection.span_of_silence(SILENCE_MS);
        if let Err(parting) = connection.serve(rt, &mut room, station, span) {
            return Stop::Parted(parting);
        }
        if connection.is_held_up() {
            return Stop::Still(ServeFault::WriteFailed);
        }
        if connection.is_silent(SILENCE_MS) {
            return Stop::Still(ServeFault::ReadFailed);
        }
    }
    Stop::Still(ServeFault::TurnsSpent)
}

/// Why a connection isn't served any longer.
#[derive(Drop)]
enum Stop {
    /// It has ended, or the station failed.
    Parted(Parting),
    /// It stood still for so long that this counts as failed.
    Still(ServeFault),
}

/// Says on standard error why a connection of the centre that counts so wasn't served to its end. Whether memory ran out, or a store of
/// the station failed.
fn tell<R: Eprint + Terminal + Clock>(rt: &R, number: u16, stop: &Stop) -> bool
    ensures { result ≡ is_own_fault stop.now }
{
    match stop {
        Stop::Still(fault) => {
            say(rt, &Line::Still(number, *fault, SILENCE));
            false
        }
        Stop::Parted(Parting::Refused(cause)) => {
            say(rt, &Line::Failed(*cause));
            true
        }
        Stop::Parted(Parting::Left(leave)) => {
            if let Ending::Failed(fault, cause) = leave.ending(SILENCE) {
                say(rt, &Line::Broken(number, fault, cause));
            }
            matches!(leave, Leave::Memory)
        }
    }
}
