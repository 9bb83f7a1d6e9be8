//! What became of tasks that were asked on a stream.

ghost use Rattle.std.specs.Prelude.{◌≡◌, ◌<◌, ◌+◌, [], ◌++◌, min, OnErr, OnOk, option_to_list, vec_capacity, vec_len};
ghost use Rattle.dnp_streams.specs.streams.Counts.{most};
ghost use Rattle.dnp_streams.specs.steps.Asking.{HasPlace};

use dnp_master::Outcome;
use std::alloc::{AllocError, Global};

/// What became of tasks that were asked on a stream.
#[derive(Debug, Drop)]
pub struct Asked {
    /// How many event rows were given to the sink. The count stops at the largest number.
    pub rows: u64,
    /// How the tasks came out, in order, those of relayed controls among them.
    pub outcomes: Vec<Outcome>,
    /// How many calls the station refused: the opening, a fragment, a task, or a step of relaying. The count stops at
    /// the largest number.
    pub faults: u64,
}

impl Asked {
    /// Nothing was asked yet.
    pub(super) fn new(alloc: Global) -> Asked
        ensures rows { result.rows ≡ 0 }
        ensures outcomes { result.outcomes.items ≡ [] }
        ensures faults { result.faults ≡ 0 }
    {
        Asked {
            rows: 0,
            outcomes: Vec::new(alloc),
            faults: 0,
        }
    }

    /// Makes room for one outcome more. Room that is there is asked for of nobody.
    pub(super) fn make_room(&mut self) -> Result<(), AllocError>
        ensures room { OnOk result (HasPlace self.new) }
        ensures full { OnErr result (vec_capacity self.old.outcomes < vec_len self.old.outcomes + 1) }
        ensures rows { self.new.rows ≡ self.old.rows }
        ensures outcomes { self.new.outcomes.items ≡ self.old.outcomes.items }
        ensures faults { self.new.faults ≡ self.old.faults }
    {
        self.outcomes.try_reserve(1)
    }

    /// Counts the rows that were stored of an answer, and keeps the outcome that it may have.
    pub(super) fn count(&mut self, taken: usize, outcome: Option<Outcome>)
        requires { HasPlace self.old }
        ensures rows { self.new.rows ≡ min (self.old.rows + taken) most }
        ensures outcomes { self.new.outcomes.items ≡ self.old.outcomes.items ++ option_to_list outcome }
        ensures faults { self.new.faults ≡ self.old.faults }
    {
        if let Some(outcome) = outcome {
            let _kept = self.outcomes.push(outcome);
        }
        let taken = u64::try_from(taken).unwrap_or(u64::MAX);
        self.rows = self.rows.saturating_add(taken);
    }

    /// Counts a call that was refused.
    pub(super) fn refuse(&mut self)
        ensures rows { self.new.rows ≡ self.old.rows }
        ensures outcomes { self.new.outcomes.items ≡ self.old.outcomes.items }
        ensures faults { self.new.faults ≡ min (self.old.faults + 1) most }
    {
        self.faults = self.faults.saturating_add(1);
    }
}
