//! What outputs are.

ghost use Rattle.std.specs.Prelude.{◌≡◌, ◌≢◌, ◌≤◌, Bool, IsTrue, OnOk, IfOk, IfErr, List, [], ◌++◌, length, map};
ghost use Rattle.dnp_controls.specs.Calls.{IsOutputsCall};
ghost use Rattle.dnp_controls.specs.Panel.{Panel, accepted};

use crate::limits::MAX_COMMANDS;
use arrayvec::ArrayVec;
use dnp_objects::{Command, Status, StoreFault};
use std::alloc::Global;

/// Outputs of a station, which perform commands (IEEE Std 1815-2012, object library: groups 10, 12
/// and 41).
///
/// Where performing a command means that a store keeps it, what a call promises of the performed commands
/// holds where the store is honest as the call ends. After Device nothing is promised of them.
pub trait Outputs {
    ghost use Rattle.dnp_objects.specs.declared.command.Command.{Command};
    ghost use Rattle.dnp_objects.specs.declared.store.StoreFault.{StoreFault};

    /// What the outputs answer, what they show, and which commands they have performed.
    ghost panel: { Self → Panel };

    /// From the first value the second comes by performing these commands, in order, and by nothing else.
    ghost performs: { Self → List Command → Self → Type 0 };

    /// The store under the outputs has not the numbers that performing these commands takes.
    ghost exhausts: { Self → List Command → Type 0 };

    /// So far the store under the outputs has given back what was written to it, nobody else has
    /// written, and it has not answered Device. Outputs without a store are always honest.
    ghost honest: { Self → Type 0 };

    /// The store under the outputs has answered Device.
    ghost is_stopped: { Self → Bool };

    /// The faults that `operate` may answer.
    ghost may_fault: { StoreFault → Bool };

    /// The most commands of one request, 1 to `MAX_COMMANDS`.
    fn most(&self) -> usize
        ensures value { result ≡ (panel self.now).most }
        ensures at_least_one { 1 ≤ result }
        ensures at_most_eight { result ≤ MAX_COMMANDS };

    /// How many binary outputs show a status, from index 0 on.
    fn outputs(&self) -> u16
        ensures { result ≡ (panel self.now).outputs };

    /// The flags octet of the binary output of this index.
    fn status(&self, index: u16) -> u8
        ensures { result ≡ (panel self.now).status index };

    /// The status that the command is answered now: SUCCESS where it would be performed.
    fn check(&self, command: &Command) -> Status
        ensures { result ≡ (panel self.now).check command.now };

    /// Performs those of at most `most()` commands whose check is SUCCESS, in order, and answers the
    /// checks of all, in order.
    ///
    /// At a fault none was performed; only after Device, when a store was to keep them, that is not known.
    /// Exhausted exactly where the store has not the numbers, unless its device fails, and no Memory where no
    /// command is performed.
    fn operate(
        &mut self,
        alloc: Global,
        commands: &[Command],
    ) -> Result<ArrayVec<Status, MAX_COMMANDS>, StoreFault>
        requires { length commands.now ≤ (panel self.old).most }
        ensures call { IsOutputsCall honest is_stopped panel performs (accepted (panel self.old).check commands.now ≢ []) self.old self.new result }
        ensures same_most { (panel self.new).most ≡ (panel self.old).most }
        ensures same_outputs { (panel self.new).outputs ≡ (panel self.old).outputs }

        ensures statuses { IfOk result (λ statuses. statuses.items ≡ map (panel self.old).check commands.now) }
        ensures performed { honest self.new → OnOk result (performs self.old (accepted (panel self.old).check commands.now) self.new) }
        ensures listed { honest self.new → OnOk result ((panel self.new).performed ≡ (panel self.old).performed ++ accepted (panel self.old).check commands.now) }
        ensures not_exhausted { honest self.new → OnOk result (exhausts self.old (accepted (panel self.old).check commands.now) → ⊥) }
        ensures exhausted { honest self.new → IfErr result (λ e. e ≡ StoreFault.Exhausted → exhausts self.old (accepted (panel self.old).check commands.now)) }
        ensures exhausted_first { honest self.new → IfErr result (λ e. e ≡ StoreFault.Memory → exhausts self.old (accepted (panel self.old).check commands.now) → ⊥) }
        ensures named { IfErr result (λ e. IsTrue (may_fault e)) }
        ensures memory { result ≡ Err StoreFault.Memory → accepted (panel self.old).check commands.now ≢ [] };
}

/// No outputs at all.
#[derive(Clone, Copy, Debug, PartialEq, Eq)]
pub struct NoOutputs;

/// One command at a time is answered NOT_SUPPORTED, and nothing is performed. No output shows a status;
/// that of any index has no bit set, so not even ONLINE.
impl Outputs for NoOutputs {
    ghost use Rattle.std.specs.Prelude.{⊤, false};
    ghost use Rattle.dnp_controls.specs.Latches.{no_panel};

    ghost panel = { λ _. no_panel };

    ghost performs = { λ _ commands _. commands ≡ [] };

    ghost exhausts = { λ _ _. ⊥ };

    ghost honest = { λ _. ⊤ };

    ghost is_stopped = { λ _. false };

    ghost may_fault = { λ _. false };

    fn most(&self) -> usize {
        1
    }

    fn outputs(&self) -> u16 {
        0
    }

    fn status(&self, _index: u16) -> u8 {
        0
    }

    fn check(&self, _command: &Command) -> Status {
        Status::NOT_SUPPORTED
    }

    fn operate(
        &mut self,
        _alloc: Global,
        commands: &[Command],
    ) -> Result<ArrayVec<Status, MAX_COMMANDS>, StoreFault> {
        let mut statuses = ArrayVec::new();
        for command in commands {
            statuses.push(self.check(command));
        }
        Ok(statuses)
    }
}
