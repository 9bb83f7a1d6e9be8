//! The master of a link by itself, and the sink of its rows.

ghost use Rattle.std.specs.Prelude.{◌≡◌, ◌+◌, ◌<◌, ◌++◌, ◌⊎◌, All, List, [], Err, false, IfErr, IsTrue, OnErr, OnOk, length, refl, ⊤};
ghost use Rattle.std.specs.Borrow.{Lends, sem};
ghost use Rattle.dnp_objects.specs.Events.{IsEvent};
ghost use Rattle.dnp_objects.specs.declared.row.Row.{Row as RowValue};
ghost use Rattle.dnp_master.specs.Sinks.{IsSinkFault};
ghost use Rattle.dnp_world.specs.contracts.one_link.receiver.Receiver.{the_row};
ghost use Rattle.dnp_world.specs.Causes.{TellsDevice};
ghost use Rattle.dnp_world.specs.MasterEnds.{none_dropped};
ghost use Rattle.dnp_world.specs.OneLinkParts.{KeepsBeside, ReceiverTakes, receiver_with};

use crate::ends::MasterEnd;
use dnp_eventbuf::{Rows, Sink};
use dnp_master::{Master, MasterActions, MasterFault};
use dnp_objects::Row;
use std::alloc::Global;

/// A master with a sink of its own, and a list of the events that the sink took.
pub(crate) struct Receiver<S> {
    pub master: Master,
    pub sink: S,
    /// The events that the sink took.
    pub taken: Vec<Row>,
}

impl<S: Drop> Drop for Receiver<S> {
    /// One call for whoever lets it go: its parts are looked at here alone.
    fn drop(self) {
        let Receiver {
            master: _,
            sink: _,
            taken: _,
        } = self;
    }
}

impl<S: Sink> Receiver<S> {
    /// The sink, for writing.
    pub fn sink(&mut self) -> &mut S
        ensures* writes_back { sem 𝓛 (Lends (the_row S.row) S.row self.entry result (receiver_with self.old)) }
        ensures value { result.now ≡ self.old.sink }
    {
        &mut self.sink
    }

    /// Gives rows to the sink by one append, if there are any, and lists the events.
    fn give(&mut self, alloc: Global, events: &[Row], statics: &[Row]) -> Result<(), MasterFault>
        requires { All IsEvent events.now }
        ensures master { self.new.master ≡ self.old.master }
        ensures held { S.honest self.new.sink → S.honest self.old.sink }
        ensures spared { length events.now + length statics.now ≡ 0 → OnOk result (self.new.sink ≡ self.old.sink) }
        ensures given { S.honest self.new.sink → 0 < length events.now + length statics.now
            → OnOk result ((dropped : List RowValue) × S.takes self.old.sink events.now statics.now dropped self.new.sink) }
        ensures listed { OnOk result (self.new.taken.items ≡ self.old.taken.items ++ events.now) }
        ensures kept { S.honest self.new.sink → OnErr result (S.keeps self.old.sink self.new.sink) }
        ensures unlisted { OnErr result (self.new.taken.items ≡ self.old.taken.items) }
        ensures named { IfErr result IsSinkFault }
        // Exhausted only where the sink has no numbers left; out of memory before the sink is asked, or where it has them.
        ensures exhausted { S.honest self.new.sink → IfErr result (λ fault. fault ≡ MasterFault.Exhausted → IsTrue (S.exhausts self.old.sink events.now)) }
        ensures exhausted_first { S.honest self.new.sink → IfErr result (λ fault. fault ≡ MasterFault.Memory
            → (self.new.sink ≡ self.old.sink) ⊎ (S.exhausts self.old.sink events.now ≡ false)) }
        ensures device { TellsDevice (S.is_stopped self.old.sink) (S.is_stopped self.new.sink) (result ≡ Err MasterFault.Device) }
    {
        if events.is_empty() && statics.is_empty() {
            return Ok(());
        }
        let Ok(()) = self.taken.reserve(events.len()) else {
            return Err(MasterFault::Memory);
        };
        self.sink.append(alloc, events, statics)?;
        let _ = self.taken.extend_from_slice(events);
        Ok(())
    }
}

impl<S: Sink> MasterEnd for Receiver<S> {
    ghost has = { λ r link. ⊤ };

    ghost master = { λ r link. r.master };

    ghost honest = { λ r. S.honest r.sink };

    ghost is_stopped = { λ r. S.is_stopped r.sink };

    ghost takes = { λ old link t new. ReceiverTakes S.takes t old new };

    ghost drops = { λ r link t. none_dropped };

    ghost keeps = { λ old new. KeepsBeside S.keeps old new };

    ghost stays = { λ old new. KeepsBeside (λ a b. b ≡ a) old new };

    ghost keeps_itself = { λ r. record { sink = S.keeps_itself r.sink; master = refl; listed = refl } };

    ghost stays_itself = { λ r. record { sink = refl; master = refl; listed = refl } };

    fn may_drop(&self) -> bool {
        false
    }

    fn take_in(
        &mut self,
        alloc: Global,
        _link: u8,
        now: u64,
        octets: &[u8],
    ) -> Result<(MasterActions, Rows), MasterFault> {
        let looked = self.master.look(alloc, now, octets)?;
        self.give(alloc, looked.events(), looked.statics())?;
        let actions = self.master.settle(looked, Rows::new(alloc));
        Ok((actions, Rows::new(alloc)))
    }
}
