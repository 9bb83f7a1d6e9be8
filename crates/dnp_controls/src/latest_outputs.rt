//! Outputs in memory that keep their states alone.

ghost use Rattle.std.specs.Prelude.{◌≡◌, ◌≤◌, []};
ghost use Rattle.dnp_controls.specs.Latches.{value_of};

use crate::latest::Latest;
use crate::limits::{MAX_COMMANDS, MAX_OUTPUTS};
use crate::outputs::Outputs;
use crate::plain_outputs::{answered, can_perform};
use arrayvec::ArrayVec;
use dnp_objects::{Command, Status, StoreFault};
use std::alloc::Global;
use std::marker::Model;

/// Outputs in memory: binary outputs and setpoints, each from index 0 on, that keep the state of each one and no command.
/// So what they hold is as much after any number of commands, and they never ask for memory.
///
/// A clause sees what it sees of [`PlainOutputs`](crate::PlainOutputs): the commands that were performed, in order. Here
/// that list stands in clauses alone, and each state is the one in which its commands left the output.
pub struct LatestOutputs {
    /// How many binary outputs there are.
    outputs: u16,
    /// How many setpoints there are.
    setpoints: u16,
    /// The states in which the performed commands left them.
    latest: Latest,
}

impl Model for LatestOutputs {
    ghost use Rattle.std.specs.Prelude.{◌≤◌};
    ghost use Rattle.dnp_controls.specs.declared.limits.TheConstants.{MAX_OUTPUTS};
    ghost use Rattle.dnp_controls.specs.Latches.{PlainState};

    ghost Value = { PlainState };

    ghost view = { λ a. record { outputs = a.outputs; setpoints = a.setpoints; performed = a.latest } };

    ghost invariant = { λ a. (a.outputs ≤ MAX_OUTPUTS) × (a.setpoints ≤ MAX_OUTPUTS) };
}

impl Drop for LatestOutputs {
    /// One call for whoever lets it go: its parts are looked at here alone.
    fn drop(self) {
        let LatestOutputs {
            outputs: _,
            setpoints: _,
            latest: _,
        } = self;
    }
}

impl LatestOutputs {
    /// Outputs that have performed nothing: this many binary outputs and this many setpoints, each at most
    /// `MAX_OUTPUTS`.
    pub fn new(outputs: u16, setpoints: u16) -> Self
        requires few_outputs { outputs ≤ MAX_OUTPUTS }
        requires few_setpoints { setpoints ≤ MAX_OUTPUTS }
        ensures { result ≡ record { outputs = outputs; setpoints = setpoints; performed = [] } }
    {
        LatestOutputs {
            outputs,
            setpoints,
            latest: Latest::new(),
        }
    }

    /// The value of the setpoint of this index: that of the last performed command that set it, if one did.
    pub fn value(&self, index: u16) -> Option<i32>
        ensures { result ≡ value_of self.now.performed index }
    {
        self.latest.value(index)
    }
}

/// Answered and performed as by [`PlainOutputs`](crate::PlainOutputs), but that no memory is asked for, so that nothing is
/// refused.
impl Outputs for LatestOutputs {
    ghost use Rattle.std.specs.Prelude.{⊤, false, ◌++◌};
    ghost use Rattle.dnp_controls.specs.Latches.{plain_panel};

    ghost panel = { plain_panel };

    ghost performs = { λ old commands new. new ≡ record old { performed = old.performed ++ commands } };

    ghost exhausts = { λ _ _. ⊥ };

    ghost honest = { λ _. ⊤ };

    ghost is_stopped = { λ _. false };

    ghost may_fault = { λ _. false };

    fn most(&self) -> usize {
        MAX_COMMANDS
    }

    fn outputs(&self) -> u16 {
        self.outputs
    }

    fn status(&self, index: u16) -> u8 {
        self.latest.status(index)
    }

    fn check(&self, command: &Command) -> Status {
        answered(self.outputs, self.setpoints, command)
    }

    fn operate(
        &mut self,
        _alloc: Global,
        commands: &[Command],
    ) -> Result<ArrayVec<Status, MAX_COMMANDS>, StoreFault> {
        let mut statuses = ArrayVec::new();
        for command in commands {
            if can_perform(self.outputs, self.setpoints, command) {
                self.latest.perform(*command);
                statuses.push(Status::SUCCESS);
            } else {
                statuses.push(Status::NOT_SUPPORTED);
            }
        }
        Ok(statuses)
    }
}
