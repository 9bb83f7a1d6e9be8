//! Steps of a station, whose answers are put among the octets to be sent.

ghost use Rattle.std.specs.Prelude.{◌≡◌, ℕ, ◌+◌, ◌≤◌, ◌∷◌, [], List, length};
ghost use Rattle.dnp_line.specs.Ports.{IsShown};
ghost use Rattle.dnp_streams.specs.streams.Stations.{answer_in};
ghost use Rattle.dnp_outstation.specs.Station.{sent_of};
ghost use Rattle.dnp_streams.specs.links.Deeds.{octets_in, told_in, taking};
ghost use Rattle.dnp_streams.specs.links.Links.{Calls, TakesIn};

use crate::link::outgoing::{MAX_OUTPUT, MAX_STEP, Output, put_fragments, put_reply};
use crate::link::room::StepRoom;
use crate::stream::{Change, KeptAnswer, Living, Station, StationFault};
use dnp_line::Port;
use dnp_linkframe::{Frame, MAX_UNIT};
use dnp_master::{Fragment, Outcome};
use dnp_transport::MAX_FRAGMENT;
use std::alloc::Global;

/// The octet of the function CONFIRM.
const CONFIRM: u8 = 0;

/// What a station told of a step that it answered, beside the octets to be sent, which wait on the link.
#[derive(Clone, Copy, Debug, PartialEq, Eq)]
pub struct Told {
    /// How many octets the fragments have that are sent for it.
    pub sent: usize,
    /// Whether it has closed the connection.
    pub closed: bool,
    /// How many event rows were stored of what came: none by an outstation.
    pub rows: usize,
    /// How a task came out with it, if one did: none does at an outstation.
    pub outcome: Option<Outcome>,
}

/// What came of a frame.
#[derive(Clone, Copy, Debug, PartialEq, Eq)]
pub enum Heard {
    /// It completes no fragment, so that the station saw nothing of it.
    Part,
    /// It completes a fragment, which the station answered, or refused.
    Whole(Result<Told, StationFault>),
}

/// How many octets a fragment has that may be there.
fn octets_of(fragment: &Option<Fragment>) -> usize
    ensures exact { result ≡ octets_in (sent_of (fragment.now ∷ [])) }
    ensures few { result ≤ MAX_FRAGMENT }
{
    match fragment {
        Some(fragment) => fragment.len(),
        None => 0,
    }
}

/// How many octets those fragments have together that are there.
fn sent_octets(send: &[Option<Fragment>; 2]) -> usize
    ensures { result ≡ octets_in (sent_of send.now) }
{
    octets_of(&send[0]) + octets_of(&send[1])
}

/// What a kept answer tells, beside the fragments to be sent.
fn told_by(answer: &KeptAnswer) -> Told
    ensures { result ≡ told_in (answer_in answer.now) }
{
    Told {
        sent: sent_octets(&answer.actions.send),
        closed: answer.actions.close,
        rows: answer.taken,
        outcome: answer.outcome,
    }
}

/// Opens the station.
pub(super) fn open<S: Station>(
    room: &mut StepRoom,
    station: &mut S,
    port: &mut Port,
    now: u64,
    out: &mut Output,
) -> Result<Told, StationFault>
    requires { length out.old.items + MAX_STEP ≤ MAX_OUTPUT }
    ensures kept { S.kept station.new ≡ S.kept station.old }
    ensures held { S.honest station.new → S.honest station.old }
    ensures opened { Calls (S.honest station.new) S.opens (S.state station.old) now result (S.state station.new)
        port.old out.old.items port.new out.new.items }
{
    match station.opened(room.alloc, now) {
        Ok(answer) => {
            put_fragments(port, &answer.send, out);
            Ok(Told {
                sent: sent_octets(&answer.send),
                closed: answer.close,
                rows: answer.taken,
                outcome: answer.outcome,
            })
        }
        Err(fault) => Err(fault),
    }
}

/// Lets time pass at the station.
pub(super) fn pass_time<S: Living>(
    room: &mut StepRoom,
    station: &mut S,
    port: &mut Port,
    now: u64,
    out: &mut Output,
) -> Result<Told, StationFault>
    requires { length out.old.items + MAX_STEP ≤ MAX_OUTPUT }
    ensures kept { S.kept station.new ≡ S.kept station.old }
    ensures held { S.honest station.new → S.honest station.old }
    ensures ticked { Calls (S.honest station.new) S.life.ticks (S.state station.old) now result (S.state station.new)
        port.old out.old.items port.new out.new.items }
{
    let answer = &mut room.confirmed;
    match station.tick_into(answer, room.alloc, now) {
        Ok(()) => {
            put_fragments(port, &answer.actions.send, out);
            Ok(told_by(answer))
        }
        Err(fault) => Err(fault),
    }
}

/// Makes a change at the station.
pub(super) fn make<S: Living>(
    room: &mut StepRoom,
    station: &mut S,
    port: &mut Port,
    now: u64,
    change: &Change,
    out: &mut Output,
) -> Result<Told, StationFault>
    requires { length out.old.items + MAX_STEP ≤ MAX_OUTPUT }
    ensures kept { S.kept station.new ≡ S.kept station.old }
    ensures held { S.honest station.new → S.honest station.old }
    ensures changed { Calls (S.honest station.new) (S.life.changes change.now) (S.state station.old) now result (S.state station.new)
        port.old out.old.items port.new out.new.items }
{
    let answer = &mut room.changed;
    match station.change_into(answer, room.alloc, now, change) {
        Ok(()) => {
            put_fragments(port, &answer.actions.send, out);
            Ok(told_by(answer))
        }
        Err(fault) => Err(fault),
    }
}

/// Whether a fragment confirms another, by its function.
#[inline]
fn is_confirm(fragment: &[u8]) -> bool {
    fragment.get(1) == Some(&CONFIRM)
}

/// Hands the fragment that the port shows to the station.
#[inline]
fn answer_to<S: Station>(
    alloc: Global,
    station: &mut S,
    port: &mut Port,
    now: u64,
    answer: &mut KeptAnswer,
    out: &mut Output,
) -> Result<Told, StationFault>
    requires { length out.old.items + MAX_STEP ≤ MAX_OUTPUT + MAX_UNIT }
    ensures kept { S.kept station.new ≡ S.kept station.old }
    ensures held { S.honest station.new → S.honest station.old }
    ensures answered { (fragment : List ℕ) × IsShown port.old fragment × Calls (S.honest station.new) (taking S.receives fragment)
        (S.state station.old) now result (S.state station.new) port.old out.old.items port.new out.new.items }
{
    match station.receive_into(answer, alloc, now, port.fragment()) {
        Ok(()) => {
            put_fragments(port, &answer.actions.send, out);
            Ok(told_by(answer))
        }
        Err(fault) => Err(fault),
    }
}

/// Hands a frame to the port, and the fragment that it completes to the station.
pub(super) fn hear<S: Station>(
    room: &mut StepRoom,
    station: &mut S,
    port: &mut Port,
    now: u64,
    frame: &Frame,
    out: &mut Output,
) -> Heard
    requires { length out.old.items + MAX_STEP ≤ MAX_OUTPUT }
    ensures kept { S.kept station.new ≡ S.kept station.old }
    ensures held { S.honest station.new → S.honest station.old }
    ensures heard { TakesIn (S.honest station.new) S.receives (S.state station.old) now frame.now result (S.state station.new)
        port.old out.old.items port.new out.new.items }
{
    let taken = port.take(frame);
    put_reply(&taken, out);
    if !taken.whole {
        return Heard::Part;
    }
    let alloc = room.alloc;
    if is_confirm(port.fragment()) {
        Heard::Whole(answer_to(alloc, station, port, now, &mut room.confirmed, out))
    } else {
        Heard::Whole(answer_to(alloc, station, port, now, &mut room.answer, out))
    }
}
