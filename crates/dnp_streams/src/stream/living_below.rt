//! One link of a concentrator to a substation, which lives.

use crate::stream::below::Below;
use crate::stream::change::Change;
use crate::stream::kept::KeptAnswer;
use crate::stream::living::Living;
use crate::stream::master::closing;
use crate::stream::station::{Answer, StationFault};
use dnp_controls::Book;
use dnp_eventbuf::PairLanes;
use std::alloc::Global;

impl<'a, Q: PairLanes, B: Book> Living for Below<'a, Q, B> {
    fn tick(&mut self, _alloc: Global, now: u64) -> Result<Answer, StationFault> {
        Ok(closing(self.pass(now)))
    }

    fn tick_into(
        &mut self,
        answer: &mut KeptAnswer,
        _alloc: Global,
        now: u64,
    ) -> Result<(), StationFault> {
        answer.put_closing(self.pass(now));
        Ok(())
    }

    fn next_deadline(&self) -> Option<u64> {
        self.deadline()
    }

    /// Its readings are those of the substation: no other is taken.
    fn change(
        &mut self,
        _alloc: Global,
        _now: u64,
        _change: &Change,
    ) -> Result<Answer, StationFault> {
        Err(StationFault::Message)
    }
}
