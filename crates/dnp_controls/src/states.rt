//! What is kept of each output in memory: whether a binary output is latched on, and the value of a setpoint.

ghost use Rattle.std.specs.Prelude.{◌≡◌, ◌<◌, ℕ, List, Bool, false, None, length, slice_index_or, unwrap_or};
ghost use Rattle.std.specs.Option.{option_or};
ghost use Rattle.dnp_objects.specs.declared.command.Command.{Command as CommandValue};
ghost use Rattle.dnp_controls.specs.Latches.{latch_of, latch_by, setting_of, status_of};
ghost use Rattle.dnp_controls.specs.steps.History.{IsInPlace, IsLatchedBy};

use crate::code::Operation;
use crate::limits::MAX_OUTPUTS;
use dnp_objects::Command;
use dnp_objects::flags::{ONLINE, STATE};

/// How many latches there are, and how many values.
pub(crate) const PLACES: usize = MAX_OUTPUTS as usize;

/// The flags octet of the binary output of this index, where these are the latches that commands left.
pub(crate) fn shown(latched: &[bool], index: u16) -> u8
    requires { length latched.now ≡ MAX_OUTPUTS }
    ensures { (commands : List CommandValue) → IsLatchedBy latched.now commands → result ≡ status_of commands index }
{
    if index >= MAX_OUTPUTS {
        return ONLINE;
    }
    if latched[index as usize] {
        ONLINE | STATE
    } else {
        ONLINE
    }
}

/// Sets the latch that the command is for, if it touches one.
pub(crate) fn set_latch(latched: &mut [bool], command: Command)
    requires count { length latched.old ≡ MAX_OUTPUTS }
    requires in_place { IsInPlace command }
    ensures { (output : ℕ) → output < MAX_OUTPUTS → slice_index_or latched.new output false ≡ unwrap_or (latch_of output command) (slice_index_or latched.old output false) }
{
    let Command::Block { index, code, .. } = command else {
        return;
    };
    match Operation::of(code) {
        Operation::LatchOn => latched[index as usize] = true,
        Operation::LatchOff => latched[index as usize] = false,
        Operation::Nul | Operation::PulseOn | Operation::PulseOff | Operation::Other => {}
    }
}

/// Gives the setpoint that the command is for its value, if it sets one.
pub(crate) fn set_value(values: &mut [Option<i32>], command: Command)
    requires count { length values.old ≡ MAX_OUTPUTS }
    requires in_place { IsInPlace command }
    ensures { (setpoint : ℕ) → setpoint < MAX_OUTPUTS → slice_index_or values.new setpoint None ≡ option_or (setting_of setpoint command) (slice_index_or values.old setpoint None) }
{
    match command {
        Command::Block { .. } => {}
        Command::Set16 { index, value } => values[index as usize] = Some(i32::from(value)),
        Command::Set32 { index, value } => values[index as usize] = Some(value),
    }
}
