//! A centre, which lives.

use crate::stream::change::Change;
use crate::stream::kept::KeptAnswer;
use crate::stream::living::Living;
use crate::stream::master::closing;
use crate::stream::station::{Answer, StationFault};
use dnp_concentrator::Centre;
use dnp_controls::Book;
use dnp_eventbuf::JournalStore;
use std::alloc::Global;

impl<J: JournalStore, B: Book> Living for Centre<J, B> {
    fn tick(&mut self, _alloc: Global, now: u64) -> Result<Answer, StationFault> {
        Ok(closing(self.tick(now)))
    }

    fn tick_into(
        &mut self,
        answer: &mut KeptAnswer,
        _alloc: Global,
        now: u64,
    ) -> Result<(), StationFault> {
        answer.put_closing(self.tick(now));
        Ok(())
    }

    fn next_deadline(&self) -> Option<u64> {
        self.next_deadline()
    }

    /// It has no readings of its own: none is taken.
    fn change(
        &mut self,
        _alloc: Global,
        _now: u64,
        _change: &Change,
    ) -> Result<Answer, StationFault> {
        Err(StationFault::Message)
    }
}
