//! Has the outputs perform commands.

ghost use Rattle.std.specs.Prelude.{◌≡◌, ◌≤◌, ◌==◌, length};
ghost use Rattle.std.specs.Result.{result_err};
ghost use Rattle.std.specs.List.{list_any};
ghost use Rattle.dnp_objects.specs.Status as status;
ghost use Rattle.dnp_controls.specs.Panel.{accepted};
ghost use Rattle.dnp_outstation.specs.steps.Performing.{IsPerforming};

use dnp_controls::Outputs;
use dnp_eventbuf::StoreFault;
use dnp_objects::{Command, Status};
use std::alloc::Global;

/// Whether the check of a command is SUCCESS.
fn is_one_accepted<O: Outputs>(outputs: &O, commands: &[Command]) -> bool
    ensures { result ≡ list_any (λ command. (O.panel outputs.now).check command == status.success) commands.now }
{
    for command in commands {
        if outputs.check(command) == Status::SUCCESS {
            return true;
        }
    }
    false
}

/// Has the outputs perform those commands whose check is SUCCESS, if there are any. At a fault, which is
/// that of the outputs, none was performed.
pub(crate) fn perform<O: Outputs>(
    outputs: &mut O,
    alloc: Global,
    commands: &[Command],
) -> Result<(), StoreFault>
    requires { length commands.now ≤ (O.panel outputs.old).most }
    ensures { IsPerforming O.honest O.is_stopped O.panel O.performs O.exhausts O.may_fault
        (accepted (O.panel outputs.old).check commands.now) outputs.old outputs.new (result_err result) }
{
    if is_one_accepted(outputs, commands) {
        outputs.operate(alloc, commands)?;
    }
    Ok(())
}
