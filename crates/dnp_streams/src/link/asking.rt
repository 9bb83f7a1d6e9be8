//! Steps of a station that asks.

ghost use Rattle.std.specs.Prelude.{◌≡◌, ◌+◌, ◌≤◌, length, IfOk, OnOk};
ghost use Rattle.dnp_concentrator.specs.Relayed.{has_request, with_request};
ghost use Rattle.dnp_streams.specs.links.Links.{AsksFor, RelaysOn, request_in};
ghost use Rattle.dnp_streams.specs.links.Outputs.{Puts};
ghost use Rattle.dnp_streams.specs.streams.Dialogues.{sendable, sent_by};

use crate::link::outgoing::{MAX_OUTPUT, MAX_STEP, Output, put_request};
use crate::link::room::StepRoom;
use crate::stream::Asker;
use dnp_concentrator::RelayedStep;
use dnp_controls::BookFault;
use dnp_line::Port;
use dnp_master::{AskFault, Task};

/// Asks a task.
pub(super) fn ask<S: Asker>(
    room: &mut StepRoom,
    station: &mut S,
    port: &mut Port,
    now: u64,
    task: Task,
    out: &mut Output,
) -> Result<(), AskFault>
    requires { length out.old.items + MAX_STEP ≤ MAX_OUTPUT }
    ensures kept { S.kept station.new ≡ S.kept station.old }
    ensures held { S.honest station.new → S.honest station.old }
    ensures asked { AsksFor (S.honest station.new) S.asking (S.state station.old) now task result (S.state station.new)
        port.old out.old.items port.new out.new.items }
    ensures shown { OnOk result (Puts port.old (sendable (request_in room.new)) out.old.items port.new out.new.items) }
{
    let request = &mut room.request;
    match station.ask_into(request, now, task) {
        Ok(()) => {
            put_request(port, request, out);
            Ok(())
        }
        Err(fault) => Err(fault),
    }
}

/// Whether a step of relaying has a request, which stands in its fragment.
fn is_sending(step: &RelayedStep) -> bool
    ensures { result ≡ has_request step.now }
{
    match step {
        RelayedStep::Selecting(_) | RelayedStep::Sent(_) => true,
        RelayedStep::Nothing | RelayedStep::Finished(_, _) => false,
    }
}

/// Makes a step of relaying.
pub(super) fn relay<S: Asker>(
    room: &mut StepRoom,
    station: &mut S,
    port: &mut Port,
    now: u64,
    out: &mut Output,
) -> Result<RelayedStep, BookFault>
    requires { length out.old.items + MAX_STEP ≤ MAX_OUTPUT }
    ensures kept { S.kept station.new ≡ S.kept station.old }
    ensures held { S.honest station.new → S.honest station.old }
    ensures relayed { RelaysOn (S.honest station.new) S.asking (S.state station.old) now result (S.state station.new)
        port.old out.old.items port.new out.new.items }
    ensures shown { IfOk result (λ step. Puts port.old (sent_by (with_request step room.new.request)) out.old.items port.new out.new.items) }
{
    let request = &mut room.request;
    match station.relay_into(request, room.alloc, now) {
        Ok(step) => {
            if !is_sending(&step) {
                return Ok(step);
            }
            put_request(port, request, out);
            Ok(step)
        }
        Err(fault) => Err(fault),
    }
}
