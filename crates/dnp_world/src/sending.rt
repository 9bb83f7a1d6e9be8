//! What goes over a line, as a link's ends send it and hear it.

ghost use Rattle.std.specs.Prelude.{◌≡◌, ℕ, ◌*◌, ◌+◌, ◌<◌, ◌≤◌, if◌then◌else◌, All, IfErr, List, OnOk, [], ◌∷◌, ◌++◌, length, option_to_list};
ghost use Rattle.dnp_line.specs.Lines.{room_of};
ghost use Rattle.dnp_line.specs.Ports.{IsShown};
ghost use Rattle.dnp_line.specs.Ways.{HearsUnit};
ghost use Rattle.dnp_outstation.specs.Station.{sent_of};
ghost use Rattle.dnp_world.specs.Channels.{IsSent, AreSent, GoDown, state_of};

use crate::channel::Channel;
use dnp_concentrator::Cause;
use dnp_line::{Line, Port, way};
use dnp_linkframe::read_frame;
use dnp_outstation::Fragment;
use dnp_transport::MAX_FRAGMENT;

/// The most units that a fragment of [`MAX_FRAGMENT`] octets has.
pub(crate) const FRAGMENT_UNITS: usize = 9;

/// Sends a fragment of 1 to [`MAX_FRAGMENT`] octets on a line that has room for it.
pub(crate) fn send(line: &mut Line, port: &mut Port, fragment: &[u8])
    requires some { 0 < length fragment.now }
    requires fits { length fragment.now ≤ MAX_FRAGMENT }
    requires room { FRAGMENT_UNITS ≤ room_of line.old }
    ensures sent { IsSent fragment.now line.old.state port.old line.new.state port.new }
    ensures room { room_of line.old ≤ room_of line.new + FRAGMENT_UNITS }
{
    way::send(line, port, fragment);
}

/// Sends these fragments, in order, on a line that has room for all of them.
pub(crate) fn send_all(line: &mut Line, port: &mut Port, fragments: &[Option<Fragment>])
    requires whole { All (λ fragment. 4 ≤ length fragment) (sent_of fragments.now) }
    requires room { FRAGMENT_UNITS * length fragments.now ≤ room_of line.old }
    ensures { AreSent (sent_of fragments.now) line.old.state port.old line.new.state port.new }
{
    for fragment in fragments {
        if let Some(octets) = fragment {
            send(line, port, octets.as_slice());
        }
    }
}

/// Brings a unit to a port. Whether that completes a fragment.
pub(crate) fn hear(port: &mut Port, unit: &[u8]) -> bool
    ensures { (given : List (List ℕ)) (fragment : List ℕ) → IsShown port.new fragment →
        HearsUnit unit.now port.old port.new given (if result then given ++ fragment ∷ [] else given) }
{
    match read_frame(unit) {
        Ok(frame) => port.take(&frame).whole,
        Err(_) => false,
    }
}

/// A port shows some fragment, or no octets. It does nothing when it runs.
pub(crate) fn shows(port: &Port)
    ensures { (fragment : List ℕ) × IsShown port.now fragment }
{
    port.fragment();
}

/// Sends a confirm, if there is one, on a line that has room for it.
pub(crate) fn send_confirm(line: &mut Line, port: &mut Port, confirm: Option<[u8; 2]>)
    requires { FRAGMENT_UNITS ≤ room_of line.old }
    ensures { AreSent (option_to_list confirm) line.old.state port.old line.new.state port.new }
{
    if let Some(octets) = confirm {
        send(line, port, &octets);
    }
}

impl Channel {
    /// Reserves room for one fragment more on the line down.
    pub fn reserve_down(&mut self) -> Result<(), Cause>
        ensures same { state_of self.new ≡ state_of self.old }
        ensures room { OnOk result (FRAGMENT_UNITS ≤ room_of self.new.down) }
        ensures named { IfErr result (λ cause. cause ≡ Cause.Memory) }
    {
        self.down.reserve(FRAGMENT_UNITS)?;
        Ok(())
    }

    /// Sends the request down that stands in its place, where there is room for it. An empty one is not sent.
    pub fn send_request(&mut self)
        requires { FRAGMENT_UNITS ≤ room_of self.old.down }
        ensures { 0 < length self.old.request.items → GoDown (self.old.request.items ∷ []) (state_of self.old) (state_of self.new) }
    {
        if !self.request.is_empty() {
            send(&mut self.down, &mut self.master_port, &self.request);
        }
    }

    /// Sends a confirm down, if there is one, where there is room for it.
    pub fn confirm(&mut self, confirm: Option<[u8; 2]>)
        requires { FRAGMENT_UNITS ≤ room_of self.old.down }
        ensures down { GoDown (option_to_list confirm) (state_of self.old) (state_of self.new) }
        ensures before { self.new.before ≡ self.old.before }
    {
        send_confirm(&mut self.down, &mut self.master_port, confirm);
    }
}
