//! An outstation on a stream.

ghost use Rattle.std.specs.Prelude.{◌≡◌};
ghost use Rattle.dnp_outstation.specs.Station.{actions_of};
ghost use Rattle.dnp_streams.specs.streams.Stations.{answer_of};
ghost use Rattle.dnp_streams.specs.streams.Outstations.{answer_by, cause_told};

use crate::stream::kept::KeptAnswer;
use crate::stream::station::{Answer, Station, StationFault};
use dnp_concentrator::Cause;
use dnp_controls::Outputs;
use dnp_eventbuf::Lanes;
use dnp_outstation::{Actions, Fault, Outstation};
use std::alloc::Global;

/// What an outstation does, as an answer: its fragments, and whether it closed the connection. The rows that left its
/// lanes, and a time that was written, are let go.
pub(super) fn answer_with(mut actions: Actions) -> Answer
    ensures { answer_of result ≡ answer_by (actions_of actions) }
{
    let close = actions.close;
    let first = actions.send[0].take();
    let second = actions.send[1].take();
    Answer {
        send: [first, second],
        close,
        taken: 0,
        outcome: None,
    }
}

/// The fault of a store under an outstation, as a station's. A reading that its points refuse is none of a stream.
pub(super) fn cause_of(fault: Fault) -> StationFault
    ensures { result ≡ cause_told fault }
{
    StationFault::Cause(Cause::from(fault))
}

impl<L: Lanes, O: Outputs> Station for Outstation<L, O> {
    ghost use Rattle.std.specs.Prelude.{⊤};
    ghost use Rattle.dnp_outstation.specs.Parts.{lanes_of, outputs_of};
    ghost use Rattle.dnp_streams.specs.streams.Dialogues.{asks_nothing};
    ghost use Rattle.dnp_streams.specs.streams.Lives.{outstation_lives};
    ghost use Rattle.dnp_streams.specs.streams.Outstations.{Seen, hung_up_of, outstation_opens, outstation_receives, seen_of};

    ghost State = { Seen };

    ghost state = { λ s. seen_of L.contents O.panel s };

    ghost Kept = { ⊤ };

    ghost kept = { λ _. tt };

    ghost honest = { λ s. L.honest (lanes_of s) × O.honest (outputs_of s) };

    ghost opens = { outstation_opens };

    ghost receives = { outstation_receives O.panel O.performs };

    ghost asking = { asks_nothing };

    ghost life = { outstation_lives };

    ghost hung_up_of = { hung_up_of };

    fn opened(&mut self, alloc: Global, now: u64) -> Result<Answer, StationFault> {
        match self.opened(alloc, now) {
            Ok(actions) => Ok(answer_with(actions)),
            Err(fault) => Err(cause_of(fault)),
        }
    }

    fn receive_into(
        &mut self,
        answer: &mut KeptAnswer,
        alloc: Global,
        now: u64,
        octets: &[u8],
    ) -> Result<(), StationFault> {
        match self.receive_into(&mut answer.actions, alloc, now, octets) {
            Ok(()) => {
                answer.done();
                Ok(())
            }
            Err(fault) => Err(cause_of(fault)),
        }
    }

    fn receive(&mut self, alloc: Global, now: u64, octets: &[u8]) -> Result<Answer, StationFault> {
        let mut answer = KeptAnswer::new(alloc);
        Station::receive_into(&mut *self, &mut answer, alloc, now, octets)?;
        Ok(answer.into_answer())
    }

    fn hung_up(&mut self) {
        self.hung_up();
    }
}
