//! The outstation of a concentrator towards a centre, which lives.

use crate::stream::above::Above;
use crate::stream::change::Change;
use crate::stream::kept::KeptAnswer;
use crate::stream::living::Living;
use crate::stream::outstation::cause_of;
use crate::stream::station::{Answer, StationFault};
use dnp_controls::Book;
use dnp_eventbuf::PairLanes;
use dnp_outstation::Fault;
use std::alloc::Global;

impl<'a, Q: PairLanes, B: Book> Living for Above<'a, Q, B> {
    fn tick(&mut self, alloc: Global, now: u64) -> Result<Answer, StationFault> {
        let mut answer = KeptAnswer::new(alloc);
        self.tick_into(&mut answer, alloc, now)?;
        Ok(answer.into_answer())
    }

    fn tick_into(
        &mut self,
        answer: &mut KeptAnswer,
        alloc: Global,
        now: u64,
    ) -> Result<(), StationFault> {
        let centre = self.centre();
        match self
            .concentrator
            .tick_above(centre, &mut answer.actions, alloc, now)
        {
            Ok(()) => {
                answer.done();
                Ok(())
            }
            Err(fault) => Err(cause_of(Fault::from(fault))),
        }
    }

    fn next_deadline(&self) -> Option<u64> {
        self.concentrator.next_deadline_above(self.centre())
    }

    /// Its readings are those of its substations: no other is taken.
    fn change(
        &mut self,
        _alloc: Global,
        _now: u64,
        _change: &Change,
    ) -> Result<Answer, StationFault> {
        Err(StationFault::Message)
    }
}
