//! What is decided of a control request before anything changes.

ghost use Rattle.std.specs.Prelude.{◌≡◌, ◌≤◌, ◌==◌, ℕ, List, [], length, Option, None, IsSome};
ghost use Rattle.std.specs.Option.{option_map};
ghost use Rattle.std.specs.List.{list_all};
ghost use Rattle.dnp_objects.specs.Status as status;
ghost use Rattle.dnp_objects.specs.declared.command.Command.{Command as CommandValue};
ghost use Rattle.dnp_controls.specs.Selecting.{Select};
ghost use Rattle.dnp_appfragment.specs.declared.function.Function.TheVariants as function;
ghost use Rattle.dnp_appfragment.specs.declared.table.Form.TheVariants as form;
ghost use Rattle.dnp_appfragment.specs.Table.{form_of};
ghost use Rattle.dnp_outstation.specs.Controls.{checked, commands_in, selects, operates, operates_selected, outcome_of};
ghost use Rattle.dnp_outstation.specs.steps.Deciding.{outcome_by, told_of, few_of};

use crate::controls::commands::Commands;
use crate::controls::told::Statuses;
use dnp_appfragment::{Control, Function, Headers};
use dnp_controls::{Outputs, Selects};
use dnp_objects::{Command, Status};

/// What becomes of the select that stands.
#[derive(Clone, Copy)]
pub(crate) enum Standing {
    Stays,
    Ends,
    /// One stands in its place.
    Begins,
}

/// What is decided beside the commands that the outputs perform.
#[derive(Clone, Copy)]
pub(crate) struct Decision {
    pub standing: Standing,
    pub told: Statuses,
}

/// Whether the check of each command is SUCCESS.
fn are_accepted<O: Outputs>(outputs: &O, commands: &[Command]) -> bool
    ensures { result ≡ list_all (λ command. (O.panel outputs.now).check command == status.success) commands.now }
{
    for command in commands {
        if outputs.check(command) != Status::SUCCESS {
            return false;
        }
    }
    true
}

/// Whether a SELECT of these commands, which are told this, stands.
fn stands<O: Outputs>(outputs: &O, told: &Statuses, commands: &[Command]) -> bool
    ensures { (all : List CommandValue) → told.now ≡ told_of (O.panel outputs.now).most all → commands.now ≡ few_of (O.panel outputs.now).most all
        → result ≡ list_all (λ command. checked (O.panel outputs.now) all command == status.success) all }
{
    match *told {
        Statuses::Checked => are_accepted(outputs, commands),
        Statuses::Alike(_) => false,
    }
}

/// Decides a SELECT: it stands if each command is answered SUCCESS. None is performed.
fn select<O: Outputs>(outputs: &O, headers: Headers<'_>, commands: &mut Commands) -> Decision
    ensures decided { (select : Option Select) (now : ℕ) (octets : List ℕ) →
        outcome_by (O.panel outputs.now) select now octets result commands.new ≡ selects (O.panel outputs.now) now octets (commands_in headers.entry.headers) }
    ensures none { commands.new ≡ [] }
{
    let told = commands.gather(outputs.most(), headers);
    let standing = if stands(outputs, &told, commands.as_slice()) {
        Standing::Begins
    } else {
        Standing::Ends
    };
    commands.clear();
    Decision { standing, told }
}

/// Decides a DIRECT_OPERATE, which needs no select.
fn operate_directly<O: Outputs>(
    outputs: &O,
    headers: Headers<'_>,
    commands: &mut Commands,
) -> Decision
    ensures decided { (select : Option Select) (now : ℕ) (octets : List ℕ) →
        outcome_by (O.panel outputs.now) select now octets result commands.new ≡ operates select (O.panel outputs.now) (commands_in headers.entry.headers) }
    ensures few { length commands.new ≤ (O.panel outputs.now).most }
{
    let told = commands.gather(outputs.most(), headers);
    let standing = Standing::Stays;
    Decision { standing, told }
}

/// Decides an OPERATE, which needs the select before it and uses it up.
fn operate<O: Outputs>(
    outputs: &O,
    selects: &Selects,
    select_ms: u64,
    now: u64,
    octets: &[u8],
    headers: Headers<'_>,
    commands: &mut Commands,
) -> Decision
    requires { 2 ≤ length octets.now }
    ensures decided { (select : Option Select) → outcome_by (O.panel outputs.now) select now octets.now result commands.new
        ≡ operates_selected selects.now select_ms (O.panel outputs.now) now octets.now (commands_in headers.entry.headers) }
    ensures few { length commands.new ≤ (O.panel outputs.now).most }
{
    let standing = Standing::Ends;
    let told = commands.gather(outputs.most(), headers);
    if let Statuses::Checked = told {
        let seq = Control::read(octets[0]).seq;
        let status = selects.answer(now, seq, &octets[2..], select_ms);
        if status != Status::SUCCESS {
            commands.clear();
            let told = Statuses::Alike(status);
            return Decision { standing, told };
        }
    }
    Decision { standing, told }
}

/// Decides a request of this function and these headers: what it comes to, and which commands are looked at
/// by the outputs, in `commands`. None, where it is no control request.
pub(crate) fn decide<O: Outputs>(
    asked: Function,
    outputs: &O,
    selects: &Selects,
    select_ms: u64,
    now: u64,
    octets: &[u8],
    headers: Headers<'_>,
    commands: &mut Commands,
) -> Option<Decision>
    requires some { 2 ≤ length octets.now }
    requires none { commands.old ≡ [] }
    ensures decided { (select : Option Select) → (asked ≡ function.Operate → select ≡ selects.now) →
        option_map (λ d. outcome_by (O.panel outputs.now) select now octets.now d commands.new) result
        ≡ outcome_of asked select select_ms (O.panel outputs.now) now octets.now (commands_in headers.entry.headers) }
    ensures few { length commands.new ≤ (O.panel outputs.now).most }
    ensures commands { IsSome result → form_of asked ≡ form.Command }
    ensures nothing { result ≡ None → commands.new ≡ [] }
{
    match asked {
        Function::Select => Some(select(outputs, headers, commands)),
        Function::Operate => Some(operate(
            outputs, selects, select_ms, now, octets, headers, commands,
        )),
        Function::DirectOperate | Function::DirectOperateNr => {
            Some(operate_directly(outputs, headers, commands))
        }
        _ => None,
    }
}
