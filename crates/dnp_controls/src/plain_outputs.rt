//! Outputs in memory.

ghost use Rattle.std.specs.Prelude.{◌≡◌, ◌≤◌, ◌+◌, ◌<◌, [], ◌++◌, OnErr, OnOk, length, map};
ghost use Rattle.dnp_controls.specs.Latches.{PlainState, can_perform, plain_check, plain_panel};
ghost use Rattle.dnp_controls.specs.Panel.{accepted};

use crate::code::obeys_code_rule;
use crate::limits::{MAX_COMMANDS, MAX_OUTPUTS};
use crate::outputs::Outputs;
use crate::performed::Performed;
use arrayvec::ArrayVec;
use dnp_objects::{Command, Status, StoreFault};
use std::alloc::{AllocError, Global};
use std::marker::Model;

/// Outputs in memory: binary outputs and setpoints, each from index 0 on, that keep the commands which
/// they performed.
#[derive(Debug)]
pub struct PlainOutputs {
    /// How many binary outputs there are.
    outputs: u16,
    /// How many setpoints there are.
    setpoints: u16,
    /// What was performed, in order, with the latches that it left.
    performed: Performed,
}

impl Model for PlainOutputs {
    ghost use Rattle.std.specs.Prelude.{◌≤◌};
    ghost use Rattle.dnp_controls.specs.declared.limits.TheConstants.{MAX_OUTPUTS};
    ghost use Rattle.dnp_controls.specs.Latches.{PlainState};

    ghost Value = { PlainState };

    ghost view = { λ a. record { outputs = a.outputs; setpoints = a.setpoints; performed = a.performed.commands } };

    ghost invariant = { λ a. (a.outputs ≤ MAX_OUTPUTS) × (a.setpoints ≤ MAX_OUTPUTS) };
}

impl Drop for PlainOutputs {
    /// One call for whoever lets it go: its parts are looked at here alone.
    fn drop(self) {
        let PlainOutputs {
            outputs: _,
            setpoints: _,
            performed: _,
        } = self;
    }
}

impl PlainOutputs {
    /// Outputs that have performed nothing: this many binary outputs and this many setpoints, each at most
    /// `MAX_OUTPUTS`.
    pub fn new(alloc: Global, outputs: u16, setpoints: u16) -> Self
        requires few_outputs { outputs ≤ MAX_OUTPUTS }
        requires few_setpoints { setpoints ≤ MAX_OUTPUTS }
        ensures { result ≡ record { outputs = outputs; setpoints = setpoints; performed = [] } }
    {
        PlainOutputs {
            outputs,
            setpoints,
            performed: Performed::new(alloc),
        }
    }

    /// The commands that were performed, in order.
    pub fn operated(&self) -> &[Command]
        ensures { result.now ≡ self.now.performed }
    {
        self.performed.commands()
    }
}

/// Whether there is such an output, and a block obeys the code rule.
pub(crate) fn can_perform(outputs: u16, setpoints: u16, command: &Command) -> bool
    ensures { result ≡ can_perform outputs setpoints command.now }
{
    match *command {
        Command::Block {
            index,
            code,
            count,
            ..
        } => index < outputs && obeys_code_rule(code, count),
        Command::Set16 { index, .. } => index < setpoints,
        Command::Set32 { index, .. } => index < setpoints,
    }
}

/// What a command is answered: SUCCESS where it can be performed, and else NOT_SUPPORTED.
pub(crate) fn answered(outputs: u16, setpoints: u16, command: &Command) -> Status
    ensures { result ≡ plain_check outputs setpoints command.now }
{
    if can_perform(outputs, setpoints, command) {
        Status::SUCCESS
    } else {
        Status::NOT_SUPPORTED
    }
}

/// How many of the commands are performed.
fn count_performed(outputs: u16, setpoints: u16, commands: &[Command]) -> usize
    ensures { result ≡ length (accepted (plain_check outputs setpoints) commands.now) }
{
    let mut count = 0;
    for command in commands {
        if can_perform(outputs, setpoints, command) {
            count += 1;
        }
    }
    count
}

/// Takes all room for those of the commands that are performed, and none where they have room. An error says that it
/// ran out of memory.
fn make_room(
    performed: &mut Performed,
    outputs: u16,
    setpoints: u16,
    commands: &[Command],
) -> Result<(), AllocError>
    ensures same { performed.new.commands ≡ performed.old.commands }
    ensures room { OnOk result (length (accepted (plain_check outputs setpoints) commands.now) ≤ performed.new.room) }
    ensures full { OnErr result (performed.old.room < length (accepted (plain_check outputs setpoints) commands.now)) }
{
    let count = count_performed(outputs, setpoints, commands);
    performed.reserve(count)
}

/// At most `MAX_COMMANDS` commands at a time. A block is answered SUCCESS where its output is there and it obeys the
/// code rule, a setpoint command where its setpoint is there, and any other NOT_SUPPORTED. All room for
/// the commands that are performed is taken before the first one is.
///
/// A binary output shows ONLINE, and STATE beside it from a performed LATCH_ON until a performed
/// LATCH_OFF.
impl Outputs for PlainOutputs {
    ghost use Rattle.std.specs.Prelude.{⊤, false};
    ghost use Rattle.dnp_controls.specs.Latches.{wants_memory};

    ghost panel = { plain_panel };

    ghost performs = { λ old commands new. new ≡ record old { performed = old.performed ++ commands } };

    ghost exhausts = { λ _ _. ⊥ };

    ghost honest = { λ _. ⊤ };

    ghost is_stopped = { λ _. false };

    ghost may_fault = { wants_memory };

    fn most(&self) -> usize {
        MAX_COMMANDS
    }

    fn outputs(&self) -> u16 {
        self.outputs
    }

    fn status(&self, index: u16) -> u8 {
        self.performed.status(index)
    }

    fn check(&self, command: &Command) -> Status {
        answered(self.outputs, self.setpoints, command)
    }

    fn operate(
        &mut self,
        _alloc: Global,
        commands: &[Command],
    ) -> Result<ArrayVec<Status, MAX_COMMANDS>, StoreFault> {
        let (outputs, setpoints) = (self.outputs, self.setpoints);
        if make_room(&mut self.performed, outputs, setpoints, commands).is_err() {
            return Err(StoreFault::Memory);
        }
        let mut statuses = ArrayVec::new();
        for command in commands {
            if can_perform(self.outputs, self.setpoints, command) {
                self.performed.perform(*command);
                statuses.push(Status::SUCCESS);
            } else {
                statuses.push(Status::NOT_SUPPORTED);
            }
        }
        Ok(statuses)
    }
}
