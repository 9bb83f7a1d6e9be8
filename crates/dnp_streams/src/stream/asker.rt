//! What a stream needs of a station that asks.

ghost use Rattle.std.specs.Prelude.{◌≡◌, false, IfErr, IfOk, OnErr, OnOk};
ghost use Rattle.dnp_concentrator.specs.Relayed.{has_request, with_request};

use crate::stream::station::Station;
use dnp_concentrator::RelayedStep;
use dnp_controls::BookFault;
use dnp_master::{AskFault, Fragment, Task};
use std::alloc::Global;

/// A station that asks the station at the other end, and relays controls to it: a master with a sink and a book. Its
/// ghost member `asking` says how.
///
/// What a call promises of the station's state holds where the station is honest as the call ends. A refused call
/// changes nothing and sends nothing. Moments are in milliseconds.
pub trait Asker: Station {
    /// Asks a task. The request, to be sent, is put into the caller's fragment, in place of what was there; a refusal leaves that as
    /// it was.
    fn ask_into(&mut self, request: &mut Fragment, now: u64, task: Task) -> Result<(), AskFault>
        ensures kept { Self.kept self.new ≡ Self.kept self.old }
        ensures held { Self.honest self.new → Self.honest self.old }
        ensures asked { Self.honest self.new → OnOk result (Self.asking.asks (Self.state self.old) now task request.new.items (Self.state self.new)) }
        ensures refused { Self.honest self.new → IfErr result (λ fault. Self.asking.refuses (Self.state self.old) task fault) }
        ensures unchanged { Self.honest self.new → OnErr result (Self.state self.new ≡ Self.state self.old) }
        ensures left { OnErr result (request.new ≡ request.old) };

    /// One step of relaying controls. Its request, if it has one, is put into the caller's fragment, in place of what was there. Where
    /// it has none, and where it is refused, that is left as it was.
    fn relay_into(
        &mut self,
        request: &mut Fragment,
        alloc: Global,
        now: u64,
    ) -> Result<RelayedStep, BookFault>
        ensures kept { Self.kept self.new ≡ Self.kept self.old }
        ensures held { Self.honest self.new → Self.honest self.old }
        ensures relayed { Self.honest self.new → IfOk result (λ relayed. Self.asking.relays (Self.state self.old) now (with_request relayed request.new) (Self.state self.new)) }
        ensures refused { Self.honest self.new → IfErr result (λ fault. Self.asking.refuses_relay (Self.state self.old) fault) }
        ensures unchanged { Self.honest self.new → OnErr result (Self.state self.new ≡ Self.state self.old) }
        ensures left { OnErr result (request.new ≡ request.old) }
        ensures left_alone { IfOk result (λ relayed. has_request relayed ≡ false → request.new ≡ request.old) };

    /// Whether the station is open and awaits no response.
    fn idle(&self) -> bool
        ensures { result ≡ Self.asking.is_idle (Self.state self.now) };
}
