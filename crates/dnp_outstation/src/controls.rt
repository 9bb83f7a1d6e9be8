//! Control requests.

ghost use Rattle.std.specs.Prelude.{◌≡◌, ◌-◌, ◌<◌, ◌≤◌, ℕ, [], length, Option, None, Err, if◌then◌else◌, Some, IfOk, IfErr, IfSome, OnErr, is_none};
ghost use Rattle.std.specs.Option.{option_map};
ghost use Rattle.std.specs.Result.{result_err};
ghost use Rattle.dnp_appfragment.specs.declared.function.Function.TheVariants as function;
ghost use Rattle.dnp_appfragment.specs.Built.{heads};
ghost use Rattle.dnp_appfragment.specs.Fragments.{IsRequest};
ghost use Rattle.dnp_appfragment.specs.Meaning.{request_at};
ghost use Rattle.dnp_appfragment.specs.Whole.{request};
ghost use Rattle.dnp_controls.specs.Panel.{Panel, accepted};
ghost use Rattle.dnp_controls.specs.Selecting.{Select};
ghost use Rattle.dnp_outstation.specs.steps.Answering.{content_by};
ghost use Rattle.dnp_outstation.specs.Connection.{function_in};
ghost use Rattle.dnp_outstation.specs.Controls.{commands_in, outcome_of, come_to, outcome_at, with_select, is_silent, is_control, control_content, performs_of, performed_by};
ghost use Rattle.dnp_outstation.specs.steps.Deciding.{select_by, select_for, select_in, bits_in, headers_in};
ghost use Rattle.dnp_outstation.specs.Items.{no_ids};
ghost use Rattle.dnp_outstation.specs.steps.Performing.{IsPerforming};
ghost use Rattle.dnp_outstation.specs.State.{State};

mod commands;
mod decision;
mod perform;
mod told;

use crate::answer::{Answer, Switches};
use crate::controls::commands::Commands;
use crate::controls::decision::{Standing, decide};
use crate::controls::perform::perform;
use crate::execute::{
    FIRST_PLACE, NO_FUNC_CODE_SUPPORT, PARAMETER_ERROR, bits_of, plain, request_in,
};
use crate::offer::writer::Writer;
use dnp_appfragment::{Control, Function, Request};
use dnp_controls::{Outputs, Selects};
use dnp_eventbuf::StoreFault;
use dnp_objects::MAX_FRAGMENT;
use std::alloc::Global;

/// The most octets of a control request: its answer, of two octets more, still fits in a fragment.
const MAX_CONTROL: usize = MAX_FRAGMENT - 2;

/// The function octet of a request, or 0.
fn function_in(octets: &[u8]) -> u8
    ensures { result ≡ function_in octets.now }
{
    match octets.get(1) {
        Some(octet) => *octet,
        None => 0,
    }
}

/// Whether a request is of one of the four control functions.
pub(crate) fn is_control(octets: &[u8]) -> bool
    ensures { result ≡ is_control octets.now }
{
    let function = function_in(octets);
    Function::Select.octet() <= function && function <= Function::DirectOperateNr.octet()
}

/// The control request that the octets are, or the bit that tells why they are refused.
fn control_in(octets: &[u8]) -> Result<Request<'_>, u8>
    ensures ok { IfOk result (λ r. (select : Option Select) (time : ℕ) (o : Panel) (now : ℕ) → outcome_at select time o now octets.now (request_at octets.now)
        ≡ come_to (outcome_of r.function select time o now octets.now (commands_in r.headers.headers)) r.headers.headers) }
    ensures found { IfOk result (λ r. IsRequest octets.now (request r)) }
    ensures short { IfOk result (λ r. length octets.now ≤ MAX_FRAGMENT - 2) }
    ensures err { IfErr result (λ bits. (select : Option Select) (time : ℕ) (o : Panel) (now : ℕ) →
        outcome_at select time o now octets.now (request_at octets.now) ≡ Err bits) }
    ensures small { IfErr result (λ bits. bits < 8) }
{
    match request_in(octets) {
        Ok(request) => {
            if octets.len() > MAX_CONTROL {
                return Err(PARAMETER_ERROR);
            }
            Ok(request)
        }
        Err(fault) => Err(bits_of(fault)),
    }
}

/// What is decided of a request: its bit, if it is refused, and what becomes of the select.
#[derive(Clone, Copy)]
struct Decided {
    bits: u8,
    standing: Standing,
}

/// Decides a control request: writes its answer, and puts the commands that the outputs look at into
/// `commands`. Nothing is changed by it.
fn decide_control<O: Outputs>(
    writer: &mut Writer,
    outputs: &O,
    selects: &Selects,
    select_ms: u64,
    now: u64,
    octets: &[u8],
    commands: &mut Commands,
) -> Decided
    requires some { 2 ≤ length octets.now }
    requires none { commands.old ≡ [] }
    ensures bits { (select : Option Select) → select ≡ select_for octets.now selects.now →
        result.bits ≡ bits_in (outcome_at select select_ms (O.panel outputs.now) now octets.now (request_at octets.now)) }
    ensures headers { (select : Option Select) → select ≡ select_for octets.now selects.now →
        heads writer.new.builder ≡ headers_in (outcome_at select select_ms (O.panel outputs.now) now octets.now (request_at octets.now)) }
    ensures standing { (select : Option Select) → select ≡ select_for octets.now selects.now →
        select_by result.standing select now octets.now ≡ select_in select (outcome_at select select_ms (O.panel outputs.now) now octets.now (request_at octets.now)) }
    ensures performs { (select : Option Select) → select ≡ select_for octets.now selects.now →
        accepted (O.panel outputs.now).check commands.new ≡ performs_of (outcome_at select select_ms (O.panel outputs.now) now octets.now (request_at octets.now)) }
    ensures few { length commands.new ≤ (O.panel outputs.now).most }
    ensures small { result.bits < 8 }
    ensures upto { writer.new.upto ≡ no_ids }
    ensures response { writer.new.builder.function ≡ function.Response }
{
    let standing = Standing::Stays;
    writer.restart(FIRST_PLACE);
    let request = match control_in(octets) {
        Ok(request) => request,
        Err(bits) => return Decided { bits, standing },
    };
    let headers = request.headers.after(0);
    match decide(
        request.function,
        outputs,
        selects,
        select_ms,
        now,
        octets,
        headers,
        commands,
    ) {
        Some(decision) => {
            writer.put_answers(outputs, &decision.told, request.headers);
            let standing = decision.standing;
            Decided { bits: 0, standing }
        }
        None => {
            let bits = NO_FUNC_CODE_SUPPORT;
            Decided { bits, standing }
        }
    }
}

/// Leaves the select that stands once a request is carried out. Another one than an OPERATE forgets the one
/// before it.
fn leave(selects: &mut Selects, standing: Standing, now: u64, octets: &[u8])
    requires some { 2 ≤ length octets.now }
    requires few { length octets.now ≤ MAX_FRAGMENT }
    ensures { selects.new ≡ select_by standing (select_for octets.now selects.old) now octets.now }
{
    match standing {
        Standing::Stays => {
            if function_in(octets) != Function::Operate.octet() {
                selects.forget();
            }
        }
        Standing::Ends => selects.forget(),
        Standing::Begins => {
            let seq = Control::read(octets[0]).seq;
            selects.select(now, seq, &octets[2..]);
        }
    }
}

/// The answer, unless the request has none, in error either.
fn spoken(octets: &[u8], answer: Answer) -> Option<Answer>
    ensures { result ≡ (if is_silent octets.now then None else Some answer) }
{
    if function_in(octets) == Function::DirectOperateNr.octet() {
        None
    } else {
        Some(answer)
    }
}

/// Carries out a control request, and writes its answer; none, where it has none.
///
/// `selects` is lent as it was before the request came, or as `new_request` has left it, and is left as it is
/// after the request: the select of an OPERATE is used up, that of another request forgotten, and a new one
/// stands where a SELECT made one. A fault is the outputs' own; nothing has changed then.
pub(crate) fn execute_control<O: Outputs>(
    writer: &mut Writer,
    alloc: Global,
    outputs: &mut O,
    selects: &mut Selects,
    select_ms: u64,
    switches: Switches,
    stood: u64,
    now: u64,
    octets: &[u8],
) -> Result<Option<Answer>, StoreFault>
    requires some { 2 ≤ length octets.now }
    requires few { length octets.now ≤ MAX_FRAGMENT }
    ensures executed { O.honest outputs.new → IfOk result (λ a. (s : State) → s.core.session.selects ≡ select_for octets.now selects.old
        → s.core.times.select_ms ≡ select_ms → s.performed ≡ (O.panel outputs.old).performed
        → control_content s (O.panel outputs.old) now octets.now
        ≡ record { state = record (with_select s selects.new) { performed = (O.panel outputs.new).performed }; content = option_map (content_by writer.new) a; time = None }) }
    ensures performing { IsPerforming O.honest O.is_stopped O.panel O.performs O.exhausts O.may_fault
        (performed_by (select_for octets.now selects.old) select_ms (O.panel outputs.old) now octets.now) outputs.old outputs.new (result_err result) }
    ensures answer { IfOk result (λ a. IfSome a (λ answer. answer ≡ record { bits = answer.bits; switches = switches; stood = stood; left = None; time = None })) }
    ensures small { IfOk result (λ a. IfSome a (λ answer. answer.bits < 8)) }
    ensures silent { IfOk result (λ a. is_none a ≡ is_silent octets.now) }
    ensures unchanged { OnErr result (selects.new ≡ selects.old) }
    ensures upto { writer.new.upto ≡ no_ids }
    ensures response { writer.new.builder.function ≡ function.Response }
{
    let mut commands = Commands::new();
    let decided = decide_control(
        writer,
        outputs,
        selects,
        select_ms,
        now,
        octets,
        &mut commands,
    );
    perform(outputs, alloc, commands.as_slice())?;
    leave(selects, decided.standing, now, octets);
    Ok(spoken(octets, plain(decided.bits, switches, stood)))
}
