//! Tasks that are asked on a stream.

ghost use Rattle.std.specs.Prelude.{◌≡◌, ℕ, ◌+◌, ◌<◌, [], Err, false, true, IfOk, OnOk, length, vec_capacity, vec_len};
ghost use Rattle.dnp_streams.specs.declared.stream.ask.Gone.TheVariants as gone;
ghost use Rattle.dnp_streams.specs.declared.stream.log.Log.{Log as LogValue};
ghost use Rattle.dnp_streams.specs.links.Deeds.{ways};
ghost use Rattle.dnp_streams.specs.links.Links.{new_link};
ghost use Rattle.dnp_streams.specs.steps.Asking.{Awaits, IsFresh, IsGoneNoted, IsUnwrittenNoted, TalksOn, fault_by, stops_by, told_by};
ghost use Rattle.dnp_streams.specs.streams.Logs.{new_log};
ghost use Rattle.dnp_streams.specs.streams.Serving.{IsLeft, IsNoted};
ghost use Rattle.dnp_streams.specs.streams.Stations.{endpoint};
ghost use Rattle.dnp_streams.specs.streams.Talking.{Talks};

use crate::stream::asked::Asked;
use crate::stream::asker::Asker;
use crate::stream::dialogue::Dialogue;
use crate::stream::log::{Log, read_noted};
use crate::stream::sending::send_noted;
use crate::stream::serve::ServeFault;
use crate::writing::NotWritten;
use dnp_line::Port;
use dnp_linkframe::MAX_UNIT;
use dnp_master::Task;
use std::alloc::Global;
use std::io::{Read, Write};

/// Why a dialogue can't go on.
#[derive(Clone, Copy)]
enum Gone {
    /// What was to be sent could not be written.
    Unwritten,
    /// Out of memory for an outcome.
    Memory,
}

/// Writes what waits; then, while the station is idle, asks and relays, and writes what each step sends. Whether the dialogue stops.
fn go_on<S: Asker, W: Write>(
    dialogue: &mut Dialogue<'_>,
    station: &mut S,
    now: u64,
    out: &mut W,
) -> Result<bool, NotWritten>
    requires { dialogue.old.agenda.is_begun ≡ true }
    ensures kept { S.kept station.new ≡ S.kept station.old }
    ensures held { S.honest station.new → S.honest station.old }
    ensures talks { S.honest station.new → TalksOn (ways S.opens S.receives S.asking S.life) now (stops_by result)
        (S.state station.old) dialogue.old (W.contents out.old) (S.state station.new) dialogue.new (W.contents out.new) }
    ensures sent { OnOk result (dialogue.new.link.pending ≡ []) }
    ensures awaits { IfOk result (λ stops. stops ≡ false → Awaits S.asking.is_idle (S.state station.new) dialogue.new.agenda) }
    ensures waiting { dialogue.new.link.waiting ≡ dialogue.old.link.waiting }
    ensures noted { IsUnwrittenNoted result dialogue.old.log dialogue.new.log }
{
    match send_noted(&mut dialogue.link, out, &mut dialogue.log) {
        Ok(()) => {}
        Err(fault) => return Err(fault),
    }
    for _ in 0..u64::MAX {
        if dialogue.agenda.is_over {
            return Ok(true);
        }
        if !station.idle() {
            return Ok(false);
        }
        dialogue.go(station, now);
        match send_noted(&mut dialogue.link, out, &mut dialogue.log) {
            Ok(()) => {}
            Err(fault) => return Err(fault),
        }
    }
    Ok(true)
}

/// Opens the station, and goes on. Whether the dialogue stops.
fn begin<S: Asker, W: Write>(
    dialogue: &mut Dialogue<'_>,
    station: &mut S,
    now: u64,
    out: &mut W,
) -> Result<bool, Gone>
    requires sent { dialogue.old.link.pending ≡ [] }
    requires begun { dialogue.old.agenda.is_begun ≡ false }
    requires goes_on { dialogue.old.agenda.is_over ≡ false }
    ensures kept { S.kept station.new ≡ S.kept station.old }
    ensures held { S.honest station.new → S.honest station.old }
    ensures talks { S.honest station.new → TalksOn (ways S.opens S.receives S.asking S.life) now (stops_by result)
        (S.state station.old) dialogue.old (W.contents out.old) (S.state station.new) dialogue.new (W.contents out.new) }
    ensures sent { OnOk result (dialogue.new.link.pending ≡ []) }
    ensures awaits { IfOk result (λ stops. stops ≡ false → Awaits S.asking.is_idle (S.state station.new) dialogue.new.agenda) }
    ensures waiting { dialogue.new.link.waiting ≡ dialogue.old.link.waiting }
    ensures memory { result ≡ Err gone.Memory → vec_capacity dialogue.old.agenda.asked.outcomes < vec_len dialogue.old.agenda.asked.outcomes + 1 }
    ensures wanting { result ≡ Err gone.Memory → (dialogue.new.agenda.is_over ≡ false) × (dialogue.new.link.pending ≡ []) }
    ensures noted { IsGoneNoted result dialogue.old.log dialogue.new.log }
{
    match dialogue.agenda.asked.make_room() {
        Ok(()) => {}
        Err(_) => return Err(Gone::Memory),
    }
    dialogue.open(station, now);
    match go_on(dialogue, station, now, out) {
        Ok(stops) => Ok(stops),
        Err(_) => Err(Gone::Unwritten),
    }
}

/// Hears the next frame, and goes on. Whether the dialogue stops.
fn hear_one<S: Asker, W: Write>(
    dialogue: &mut Dialogue<'_>,
    station: &mut S,
    now: u64,
    out: &mut W,
) -> Result<bool, Gone>
    requires sent { dialogue.old.link.pending ≡ [] }
    requires frame { 0 < length dialogue.old.link.waiting }
    requires awaits { Awaits S.asking.is_idle (S.state station.old) dialogue.old.agenda }
    ensures kept { S.kept station.new ≡ S.kept station.old }
    ensures held { S.honest station.new → S.honest station.old }
    ensures talks { S.honest station.new → TalksOn (ways S.opens S.receives S.asking S.life) now (stops_by result)
        (S.state station.old) dialogue.old (W.contents out.old) (S.state station.new) dialogue.new (W.contents out.new) }
    ensures sent { OnOk result (dialogue.new.link.pending ≡ []) }
    ensures awaits { IfOk result (λ stops. stops ≡ false → Awaits S.asking.is_idle (S.state station.new) dialogue.new.agenda) }
    ensures fewer { OnOk result (length dialogue.old.link.waiting ≡ length dialogue.new.link.waiting + 1) }
    ensures memory { result ≡ Err gone.Memory → vec_capacity dialogue.old.agenda.asked.outcomes < vec_len dialogue.old.agenda.asked.outcomes + 1 }
    ensures wanting { result ≡ Err gone.Memory → (dialogue.new.agenda.is_over ≡ false) × (dialogue.new.link.pending ≡ []) }
    ensures noted { IsGoneNoted result dialogue.old.log dialogue.new.log }
{
    match dialogue.agenda.asked.make_room() {
        Ok(()) => {}
        Err(_) => return Err(Gone::Memory),
    }
    dialogue.hear(station, now);
    match go_on(dialogue, station, now, out) {
        Ok(stops) => Ok(stops),
        Err(_) => Err(Gone::Unwritten),
    }
}

/// Hears the frames that wait, one after the other. Whether the dialogue stops.
fn hear_all<S: Asker, W: Write>(
    dialogue: &mut Dialogue<'_>,
    station: &mut S,
    now: u64,
    out: &mut W,
) -> Result<bool, Gone>
    requires sent { dialogue.old.link.pending ≡ [] }
    requires awaits { Awaits S.asking.is_idle (S.state station.old) dialogue.old.agenda }
    ensures kept { S.kept station.new ≡ S.kept station.old }
    ensures held { S.honest station.new → S.honest station.old }
    ensures talks { S.honest station.new → TalksOn (ways S.opens S.receives S.asking S.life) now (stops_by result)
        (S.state station.old) dialogue.old (W.contents out.old) (S.state station.new) dialogue.new (W.contents out.new) }
    ensures sent { OnOk result (dialogue.new.link.pending ≡ []) }
    ensures awaits { IfOk result (λ stops. stops ≡ false → Awaits S.asking.is_idle (S.state station.new) dialogue.new.agenda × (dialogue.new.link.waiting ≡ [])) }
    ensures wanting { result ≡ Err gone.Memory → (dialogue.new.agenda.is_over ≡ false) × (dialogue.new.link.pending ≡ []) }
    ensures noted { IsGoneNoted result dialogue.old.log dialogue.new.log }
{
    while dialogue.link.has_frame() {
        match hear_one(dialogue, station, now, out) {
            Ok(false) => {}
            Ok(true) => return Ok(true),
            Err(fault) => return Err(fault),
        }
    }
    Ok(false)
}

/// Why a dialogue can't go on, as a stream's fault.
fn fault_of(gone: Gone) -> ServeFault
    ensures { result ≡ fault_by gone }
{
    match gone {
        Gone::Unwritten => ServeFault::WriteFailed,
        Gone::Memory => ServeFault::Memory,
    }
}

/// Asks on a new link; a fault leaves the station open.
fn ask_on<S: Asker, R: Read, W: Write>(
    dialogue: &mut Dialogue<'_>,
    station: &mut S,
    now: u64,
    reader: &mut R,
    out: &mut W,
    turns: u64,
) -> Result<(), ServeFault>
    requires link { dialogue.old.link ≡ new_link dialogue.old.link.port }
    requires log { dialogue.old.log ≡ new_log }
    requires fresh { IsFresh dialogue.old.agenda }
    ensures kept { S.kept station.new ≡ S.kept station.old }
    ensures held { S.honest station.new → S.honest station.old }
    ensures talks { S.honest station.new → Talks S.opens S.receives S.asking now turns (endpoint (S.state station.old) dialogue.old.link.port) dialogue.old.agenda.left.now
        (R.remaining reader.old) (R.remaining reader.new) (W.contents out.old) (W.contents out.new)
        (told_by result dialogue.new.agenda.asked) (endpoint (S.state station.new) dialogue.new.link.port) }
    ensures noted { IsNoted turns result dialogue.new.log }
{
    match begin(dialogue, station, now, out) {
        Ok(false) => {}
        Ok(true) => return Ok(()),
        Err(gone) => return Err(fault_of(gone)),
    }
    let mut piece = [0; MAX_UNIT];
    for _ in 0..turns {
        let count = match read_noted(reader, &mut piece, &mut dialogue.log) {
            Ok(count) => count,
            Err(_) => return Err(ServeFault::ReadFailed),
        };
        if count == 0 {
            return Ok(());
        }
        match dialogue.link.feed(&piece[..count]) {
            Ok(()) => {}
            Err(_) => return Err(ServeFault::Memory),
        }
        match hear_all(dialogue, station, now, out) {
            Ok(false) => {}
            Ok(true) => return Ok(()),
            Err(gone) => return Err(fault_of(gone)),
        }
    }
    Err(ServeFault::TurnsSpent)
}

/// What is told of tasks that were asked on a stream, by how that ended: a fault hangs the station up.
fn leave<S: Asker>(
    station: &mut S,
    ended: Result<(), ServeFault>,
    asked: Asked,
) -> Result<Asked, ServeFault>
    ensures kept { S.kept station.new ≡ S.kept station.old }
    ensures held { S.honest station.new → S.honest station.old }
    ensures told { result ≡ told_by ended asked }
    ensures left { S.honest station.new → IsLeft S.hung_up_of result (S.state station.old) (S.state station.new) }
    ensures noted { (turns : ℕ) (log : LogValue) → IsNoted turns ended log → IsNoted turns result log }
{
    match ended {
        Ok(()) => Ok(asked),
        Err(fault) => {
            station.hung_up();
            Err(fault)
        }
    }
}

/// Asks tasks on a stream as [`ask_stream`] does, and notes in a new log what it asked of the reader and the writer.
pub fn ask_noted<S: Asker, R: Read, W: Write>(
    alloc: Global,
    station: &mut S,
    port: &mut Port,
    now: u64,
    tasks: &[Task],
    reader: &mut R,
    out: &mut W,
    turns: u64,
    log: &mut Log,
) -> Result<Asked, ServeFault>
    requires { log.old ≡ new_log }
    ensures kept { S.kept station.new ≡ S.kept station.old }
    ensures held { S.honest station.new → S.honest station.old }
    ensures talks { S.honest station.new → (ended : S.State) × IsLeft S.hung_up_of result ended (S.state station.new)
        × Talks S.opens S.receives S.asking now turns (endpoint (S.state station.old) port.old) tasks.now
        (R.remaining reader.old) (R.remaining reader.new) (W.contents out.old) (W.contents out.new) result (endpoint ended port.new) }
    ensures noted { IsNoted turns result log.new }
{
    let mut dialogue = Dialogue::new(alloc, port.copy(), tasks);
    let ended = ask_on(&mut dialogue, station, now, reader, out, turns);
    dialogue.link.port().copy_into(port);
    *log = dialogue.log;
    leave(station, ended, dialogue.agenda.asked)
}

/// Asks the tasks on a stream of octets, one by one, each when the station is idle, and then relays controls until there
/// is nothing left to relay; meanwhile it hands the station the fragments that come, and writes what it and its port
/// send, to each frame the link layer's reply first.
///
/// A task that is refused is counted, and passed over; a refused step of relaying is counted, and ends the call with Ok.
/// So does the end of the input, whatever is left to be asked, and a step by which the station closed the connection.
/// Frames after the last step are not heard.
///
/// A fault is ReadFailed or WriteFailed where the reader or the writer failed, WriteFailed also where the writer took
/// none of the octets that it was given; TurnsSpent after `turns` reads; or Memory for the frames of what was read last,
/// or for an outcome. What was written is then a beginning of what was sent, at WriteFailed, and else all of it; and
/// the station is hung up.
///
/// Reader and writer are lent, and nothing is flushed.
pub fn ask_stream<S: Asker, R: Read, W: Write>(
    alloc: Global,
    station: &mut S,
    port: &mut Port,
    now: u64,
    tasks: &[Task],
    reader: &mut R,
    out: &mut W,
    turns: u64,
) -> Result<Asked, ServeFault>
    ensures kept { S.kept station.new ≡ S.kept station.old }
    ensures held { S.honest station.new → S.honest station.old }
    ensures talks { S.honest station.new → (ended : S.State) × IsLeft S.hung_up_of result ended (S.state station.new)
        × Talks S.opens S.receives S.asking now turns (endpoint (S.state station.old) port.old) tasks.now
        (R.remaining reader.old) (R.remaining reader.new) (W.contents out.old) (W.contents out.new) result (endpoint ended port.new) }
{
    ask_noted(
        alloc,
        station,
        port,
        now,
        tasks,
        reader,
        out,
        turns,
        &mut Log::new(),
    )
}
