//! What a script needs of the system that it runs on.

ghost use Rattle.std.specs.Prelude.{◌≡◌, ◌≢◌, Bool, Err, IfOk, OnErr, OnOk};
ghost use Rattle.dnp_daemons.specs.Scripted.{Law};
ghost use Rattle.dnp_world.specs.Causes.{TellsDevice};

use crate::script::WhichCentre;
use dnp_world::{Cause, ControlFault, Event, Link, Report, RoundFault, Way};
use std::alloc::Global;

/// A system that a script runs on.
///
/// What a call promises of the system's state holds where its stores are honest as the call ends. A call that says no Device has
/// stopped none of them, and a report that says it finds one that is stopped.
pub trait Scripted {
    /// What a script knows of the system.
    ghost State: { Type 0 };

    /// The state that it is in.
    ghost state: { Self → State };

    /// So far its stores have given back what was written to them.
    ghost honest: { Self → Type 0 };

    /// One of its stores has answered Device.
    ghost is_stopped: { Self → Bool };

    /// What its calls do.
    ghost law: { Law State };

    /// An event happens, or a store or a request for memory refuses.
    fn happen(&mut self, alloc: Global, event: &Event) -> Result<(), Cause>
        ensures held { honest self.new → honest self.old }
        ensures done { honest self.new → OnOk result (law.happens (state self.old) event.now (state self.new)) }
        ensures stopped { honest self.new → OnErr result (law.stops (state self.old) event.now (state self.new)) }
        ensures runs_on { result ≢ Err Cause.Device → is_stopped self.new ≡ is_stopped self.old };

    /// How many units stand on this way of this link.
    fn standing(&self, link: Link, way: Way) -> usize
        ensures { result ≡ law.units (state self.now) link way };

    /// A clean round on this link.
    fn clean_round(&mut self, alloc: Global, link: Link) -> Result<(), RoundFault>
        ensures held { honest self.new → honest self.old }
        ensures done { honest self.new → law.rounds (state self.old) link result (state self.new) }
        ensures runs_on { result ≢ Err (RoundFault.Fault Cause.Device) → is_stopped self.new ≡ is_stopped self.old };

    /// The control of this number in this centre's book, from there to its output and back.
    fn clean_control(
        &mut self,
        alloc: Global,
        centre: WhichCentre,
        id: u64,
    ) -> Result<(), ControlFault>
        ensures held { honest self.new → honest self.old }
        ensures done { honest self.new → law.controls (state self.old) centre id result (state self.new) }
        ensures runs_on { result ≢ Err (ControlFault.Fault Cause.Device) → is_stopped self.new ≡ is_stopped self.old };

    /// What became of all events and commands so far.
    fn report(&mut self, alloc: Global) -> Result<Report, Cause>
        ensures held { honest self.new → honest self.old }
        ensures kept { honest self.new → state self.new ≡ state self.old }
        ensures shown { honest self.new → IfOk result (law.shows (state self.old)) }
        ensures device { TellsDevice (is_stopped self.old) (is_stopped self.new) (result ≡ Err Cause.Device) }
        ensures named { result ≢ Err Cause.Exhausted };
}
