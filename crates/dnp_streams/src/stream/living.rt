//! What a live session needs of a station.

ghost use Rattle.std.specs.Prelude.{◌≡◌, ◌<◌, length, All, IfErr, IfOk, OnErr, OnOk};
ghost use Rattle.dnp_streams.specs.streams.Stations.{answer_in, answer_of};

use crate::stream::change::Change;
use crate::stream::kept::KeptAnswer;
use crate::stream::station::{Answer, Station, StationFault};
use std::alloc::Global;

/// A station that lives between the fragments that come: time passes, and readings of its points change. Its ghost member
/// `life` says how.
///
/// What a call promises of the station's state holds where the station is honest as the call ends. A refused call
/// changes nothing and sends nothing. Moments are in milliseconds.
pub trait Living: Station {
    /// Time has passed.
    fn tick(&mut self, alloc: Global, now: u64) -> Result<Answer, StationFault>
        ensures kept { Self.kept self.new ≡ Self.kept self.old }
        ensures held { Self.honest self.new → Self.honest self.old }
        ensures answered { Self.honest self.new → IfOk result (λ answer. Self.life.ticks.answers (Self.state self.old) now (answer_of answer) (Self.state self.new)) }
        ensures refused { Self.honest self.new → IfErr result (λ fault. Self.life.ticks.refuses (Self.state self.old) now fault) }
        ensures unchanged { Self.honest self.new → OnErr result (Self.state self.new ≡ Self.state self.old) }
        ensures some { IfOk result (λ answer. All (λ fragment. 0 < length fragment) (answer_of answer).send) };

    /// As `tick`, but what it answers comes into the caller's answer, in place of what was there; a refusal leaves that as
    /// it was. A station whose time passes often fills the answer itself: by the body here it is moved there, two
    /// fragments by value.
    fn tick_into(
        &mut self,
        answer: &mut KeptAnswer,
        alloc: Global,
        now: u64,
    ) -> Result<(), StationFault>
        ensures kept { Self.kept self.new ≡ Self.kept self.old }
        ensures held { Self.honest self.new → Self.honest self.old }
        ensures answered { Self.honest self.new → OnOk result (Self.life.ticks.answers (Self.state self.old) now (answer_in answer.new) (Self.state self.new)) }
        ensures refused { Self.honest self.new → IfErr result (λ fault. Self.life.ticks.refuses (Self.state self.old) now fault) }
        ensures unchanged { Self.honest self.new → OnErr result (Self.state self.new ≡ Self.state self.old) }
        ensures left { OnErr result (answer.new ≡ answer.old) }
        ensures some { OnOk result (All (λ fragment. 0 < length fragment) (answer_in answer.new).send) }
    {
        answer.put(self.tick(alloc, now)?);
        Ok(())
    }

    /// The moment at which its next timer ends; none while no timer runs. A wake after it is late, and a tick before it
    /// does nothing, unless rows came to its lanes meanwhile.
    fn next_deadline(&self) -> Option<u64>
        ensures deadline { result ≡ Self.life.deadline (Self.state self.now) };

    /// A reading of a point changes, whenever it was due.
    fn change(&mut self, alloc: Global, now: u64, change: &Change) -> Result<Answer, StationFault>
        ensures kept { Self.kept self.new ≡ Self.kept self.old }
        ensures held { Self.honest self.new → Self.honest self.old }
        ensures answered { Self.honest self.new → IfOk result (λ answer. (Self.life.changes change.now).answers (Self.state self.old) now (answer_of answer) (Self.state self.new)) }
        ensures refused { Self.honest self.new → IfErr result (λ fault. (Self.life.changes change.now).refuses (Self.state self.old) now fault) }
        ensures unchanged { Self.honest self.new → OnErr result (Self.state self.new ≡ Self.state self.old) }
        ensures some { IfOk result (λ answer. All (λ fragment. 0 < length fragment) (answer_of answer).send) };

    /// As `change`, but what it answers comes into the caller's answer, as `tick_into` has it.
    fn change_into(
        &mut self,
        answer: &mut KeptAnswer,
        alloc: Global,
        now: u64,
        change: &Change,
    ) -> Result<(), StationFault>
        ensures kept { Self.kept self.new ≡ Self.kept self.old }
        ensures held { Self.honest self.new → Self.honest self.old }
        ensures answered { Self.honest self.new → OnOk result ((Self.life.changes change.now).answers (Self.state self.old) now (answer_in answer.new) (Self.state self.new)) }
        ensures refused { Self.honest self.new → IfErr result (λ fault. (Self.life.changes change.now).refuses (Self.state self.old) now fault) }
        ensures unchanged { Self.honest self.new → OnErr result (Self.state self.new ≡ Self.state self.old) }
        ensures left { OnErr result (answer.new ≡ answer.old) }
        ensures some { OnOk result (All (λ fragment. 0 < length fragment) (answer_in answer.new).send) }
    {
        answer.put(self.change(alloc, now, change)?);
        Ok(())
    }
}
