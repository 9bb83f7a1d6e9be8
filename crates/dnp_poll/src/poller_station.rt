//! A poll on a stream.

ghost use Rattle.std.specs.Prelude.{◌≡◌};

use crate::fault::PollFault;
use crate::poller::{Poller, closing, nothing};
use crate::show::Show;
use dnp_concentrator::RelayedStep;
use dnp_controls::BookFault;
use dnp_master::{AskFault, Fragment, Task};
use dnp_streams::{Answer, Asker, Change, Living, Station, StationFault};
use std::alloc::Global;

impl<S: Show> Station for Poller<S> {
    ghost use Rattle.std.specs.Prelude.{⊤};
    ghost use Rattle.dnp_poll.specs.Polls.{PollSeen, poll_asking, poll_hung_up, poll_lives, poll_opens, poll_receives, poll_seen};

    ghost State = { PollSeen S };

    ghost state = { λ p. poll_seen p };

    ghost Kept = { ⊤ };

    ghost kept = { λ _. tt };

    ghost honest = { λ _. ⊤ };

    ghost opens = { poll_opens };

    ghost receives = { poll_receives S.shows };

    ghost asking = { poll_asking };

    ghost life = { poll_lives };

    ghost hung_up_of = { poll_hung_up };

    fn opened(&mut self, _alloc: Global, _now: u64) -> Result<Answer, StationFault> {
        if !self.master.is_open() {
            self.master.opened();
        }
        Ok(nothing())
    }

    fn receive(&mut self, alloc: Global, now: u64, octets: &[u8]) -> Result<Answer, StationFault> {
        match self.hear(alloc, now, octets) {
            Ok(answer) => Ok(answer),
            Err(fault) => {
                self.fault = Some(fault);
                Ok(closing())
            }
        }
    }

    fn hung_up(&mut self) {
        self.master.hung_up();
    }
}

impl<S: Show> Asker for Poller<S> {
    fn ask_into(&mut self, request: &mut Fragment, now: u64, task: Task) -> Result<(), AskFault> {
        if self.instead.bars(self.is_spent, &task) {
            return Err(AskFault::BadTask);
        }
        self.master.ask_into(request, now, task)?;
        self.instead.put(&task, request);
        self.is_spent = self.is_spent || self.instead.operates(&task);
        self.tasks.task = Some(task);
        Ok(())
    }

    fn relay_into(
        &mut self,
        _request: &mut Fragment,
        _alloc: Global,
        _now: u64,
    ) -> Result<RelayedStep, BookFault> {
        Ok(RelayedStep::Nothing)
    }

    fn idle(&self) -> bool {
        self.master.idle()
    }
}

impl<S: Show> Living for Poller<S> {
    /// Where the response that is awaited didn't come in time, the poll stops.
    fn tick(&mut self, _alloc: Global, now: u64) -> Result<Answer, StationFault> {
        if !self.master.tick(now) {
            return Ok(nothing());
        }
        self.fault = Some(PollFault::Silent);
        Ok(closing())
    }

    fn next_deadline(&self) -> Option<u64> {
        self.master.next_deadline()
    }

    /// It has no points.
    fn change(
        &mut self,
        _alloc: Global,
        _now: u64,
        _change: &Change,
    ) -> Result<Answer, StationFault> {
        Err(StationFault::Message)
    }
}
