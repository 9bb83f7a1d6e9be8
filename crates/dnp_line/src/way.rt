//! The events of a way, made by the calls of a line and of the ports at its ends: each function makes the one that its
//! name says, on every way whose line and port these are. None asks for memory; `send` takes what `Line::reserve` got.
ghost use Rattle.std.specs.Prelude.{◌≡◌, ℕ, ◌<◌, ◌≤◌, if◌then◌else◌, true, false, List, [], ◌∷◌, ◌++◌, length};
ghost use Rattle.dnp_transport.specs.Cuts.{cut_count};
ghost use Rattle.dnp_line.specs.Lines.{room_of};
ghost use Rattle.dnp_line.specs.Ports.{IsShown};
ghost use Rattle.dnp_line.specs.Ways.{Way, Send, Deliver, Repeat, Lose, Damage, Clear, SenderReset, HearsUnit, Happens};

use crate::{Line, Port};
use arrayvec::ArrayVec;
use dnp_linkframe::read_frame;
use dnp_transport::{MAX_FRAGMENT, segment_count};

/// Sends a fragment of 1 to [`MAX_FRAGMENT`] octets: all its units go on the line, which has room for them, and the
/// port's numbers move on.
pub fn send(line: &mut Line, sender: &mut Port, fragment: &[u8])
    requires some { 0 < length fragment.now }
    requires fits { length fragment.now ≤ MAX_FRAGMENT }
    requires room { cut_count (length fragment.now) ≤ room_of line.old }
    ensures happens { (way : Way) → way.line ≡ line.old.state → way.sender ≡ sender.old → way.mute ≡ false →
        Happens way (Send fragment.now) (record way { line = line.new.state; sender = sender.new; sent = way.sent ++ fragment.now ∷ [] }) }
    ensures capacity { line.new.capacity ≡ line.old.capacity }
{
    let count = segment_count(fragment);
    let mut unit = ArrayVec::new();
    for k in 0..count {
        sender.unit_into(fragment, k, &mut unit);
        line.send(unit.as_slice());
    }
    sender.sent(count);
}

/// Brings the front unit to the receiver's port, if there is one. Whether that completed a fragment, which
/// `Port::fragment` gives.
pub fn deliver(line: &mut Line, receiver: &mut Port) -> bool
    ensures happens { (way : Way) (fragment : List ℕ) → way.line ≡ line.old.state → way.receiver ≡ receiver.old → IsShown receiver.new fragment →
        Happens way Deliver (record way { line = line.new.state; receiver = receiver.new; given = if result then way.given ++ fragment ∷ [] else way.given }) }
    ensures capacity { line.new.capacity ≡ line.old.capacity }
{
    match line.deliver() {
        Some(unit) => hear(receiver, unit.as_slice()),
        None => false,
    }
}

/// Brings the front unit to the receiver's port, if there is one, and keeps it on the line. Whether that completed a
/// fragment, which `Port::fragment` gives.
pub fn repeat(line: &mut Line, receiver: &mut Port) -> bool
    ensures happens { (way : Way) (fragment : List ℕ) → way.line ≡ line.old.state → way.receiver ≡ receiver.old → IsShown receiver.new fragment →
        Happens way Repeat (record way { line = line.new.state; receiver = receiver.new; given = if result then way.given ++ fragment ∷ [] else way.given }) }
    ensures capacity { line.new.capacity ≡ line.old.capacity }
{
    match line.repeat() {
        Some(copy) => hear(receiver, copy.as_slice()),
        None => false,
    }
}

/// Loses the front unit, if there is one.
pub fn lose(line: &mut Line)
    ensures happens { (way : Way) → way.line ≡ line.old.state → Happens way Lose (record way { line = line.new.state }) }
    ensures capacity { line.new.capacity ≡ line.old.capacity }
{
    line.lose();
}

/// Damages the front unit, if there is one: its octets become these.
pub fn damage(line: &mut Line, octets: &[u8])
    ensures happens { (way : Way) → way.line ≡ line.old.state → Happens way (Damage octets.now) (record way { line = line.new.state }) }
    ensures capacity { line.new.capacity ≡ line.old.capacity }
{
    line.damage(octets);
}

/// Clears the line. The receiver's port is reset too, since nothing on the line goes on with what it has half built.
pub fn clear(line: &mut Line, receiver: &mut Port)
    ensures happens { (way : Way) → way.line ≡ line.old.state → way.receiver ≡ receiver.old →
        Happens way Clear (record way { line = line.new.state; receiver = receiver.new }) }
    ensures capacity { line.new.capacity ≡ line.old.capacity }
{
    line.clear();
    receiver.reset();
}

/// Resets the sender's port. Its numbers begin again, so it sends nothing more on this way until the link is opened
/// again: the way is mute.
pub fn reset_sender(sender: &mut Port)
    ensures { (way : Way) → way.sender ≡ sender.old → Happens way SenderReset (record way { sender = sender.new; mute = true }) }
{
    sender.reset();
}

/// Brings a unit to a port. Whether that completes a fragment.
fn hear(port: &mut Port, unit: &[u8]) -> bool
    ensures { (given : List (List ℕ)) (fragment : List ℕ) → IsShown port.new fragment →
        HearsUnit unit.now port.old port.new given (if result then given ++ fragment ∷ [] else given) }
{
    match read_frame(unit) {
        Ok(frame) => port.take(&frame).whole,
        Err(_) => false,
    }
}
