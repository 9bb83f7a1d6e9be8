//! An outstation that lives.

ghost use Rattle.std.specs.Prelude.{◌≡◌};
ghost use Rattle.dnp_streams.specs.streams.Lives.{told_of};

use crate::stream::change::Change;
use crate::stream::kept::KeptAnswer;
use crate::stream::living::Living;
use crate::stream::outstation::{answer_with, cause_of};
use crate::stream::station::{Answer, StationFault};
use dnp_controls::Outputs;
use dnp_eventbuf::Lanes;
use dnp_outstation::{Fault, Outstation};
use std::alloc::Global;

/// The fault of a change, as a station's: a reading that its points refuse is a message that it can't take.
fn change_fault(fault: Fault) -> StationFault
    ensures { result ≡ told_of fault }
{
    match fault {
        Fault::NoPoint | Fault::ValueRange | Fault::TimeRange => StationFault::Message,
        Fault::Exhausted | Fault::Memory | Fault::Device => cause_of(fault),
    }
}

impl<L: Lanes, O: Outputs> Living for Outstation<L, O> {
    fn tick(&mut self, alloc: Global, now: u64) -> Result<Answer, StationFault> {
        match self.tick(alloc, now) {
            Ok(actions) => Ok(answer_with(actions)),
            Err(fault) => Err(cause_of(fault)),
        }
    }

    fn tick_into(
        &mut self,
        answer: &mut KeptAnswer,
        alloc: Global,
        now: u64,
    ) -> Result<(), StationFault> {
        match self.tick_into(&mut answer.actions, alloc, now) {
            Ok(()) => {
                answer.done();
                Ok(())
            }
            Err(fault) => Err(cause_of(fault)),
        }
    }

    fn next_deadline(&self) -> Option<u64> {
        self.next_deadline()
    }

    fn change(&mut self, alloc: Global, now: u64, change: &Change) -> Result<Answer, StationFault> {
        let mut answer = KeptAnswer::new(alloc);
        Living::change_into(&mut *self, &mut answer, alloc, now, change)?;
        Ok(answer.into_answer())
    }

    fn change_into(
        &mut self,
        answer: &mut KeptAnswer,
        alloc: Global,
        now: u64,
        change: &Change,
    ) -> Result<(), StationFault> {
        let (actions, kind) = (&mut answer.actions, change.kind);
        match self.change_into(actions, alloc, now, kind, change.index, change.reading) {
            Ok(()) => {
                answer.done();
                Ok(())
            }
            Err(fault) => Err(change_fault(fault)),
        }
    }
}
