//! Commands and what became of them, as parts of a line.

ghost use Rattle.std.specs.Prelude.{◌≡◌, ◌++◌, OnOk, true, false};
ghost use Rattle.dnp_controls.specs.declared.book.State.TheVariants as states;
ghost use Rattle.dnp_rows.specs.Lines as spec;
ghost use Rattle.dnp_rows.specs.Lines.{setpoint_parts, command_parts, state_parts};

use crate::line::{Form, Said, Whose, put_absent, put_integer, put_none, put_word};
use crate::text::put_number;
use dnp_controls::State;
use dnp_objects::{Command, Status};
use dnp_orders::status_name;
use std::alloc::AllocError;

/// Puts the parts of a setpoint's command, whose name is this.
fn put_setpoint(
    out: &mut Vec<u8>,
    form: Form,
    name: &[u8],
    index: u16,
    value: i64,
) -> Result<(), AllocError>
    ensures { OnOk result (out.new.items ≡ out.old.items ++ setpoint_parts form name.now index value) }
{
    put_word(out, form, Said::Bare, "command", name)?;
    put_integer(out, form, Said::Bare, "index", index)?;
    put_absent(out, form)?;
    put_absent(out, form)?;
    put_absent(out, form)?;
    put_absent(out, form)?;
    put_integer(out, form, Said::Bare, "value", value)
}

/// Puts the parts of a command.
pub(crate) fn put_command(
    out: &mut Vec<u8>,
    form: Form,
    command: &Command,
) -> Result<(), AllocError>
    ensures { OnOk result (out.new.items ≡ out.old.items ++ command_parts form command.now) }
{
    match *command {
        Command::Block {
            index,
            code,
            count,
            on_ms,
            off_ms,
        } => {
            put_word(out, form, Said::Bare, "command", b"block")?;
            put_integer(out, form, Said::Bare, "index", index)?;
            put_integer(out, form, Said::Bare, "code", code)?;
            put_integer(out, form, Said::Bare, "count", count)?;
            put_integer(out, form, Said::Bare, "on_ms", on_ms)?;
            put_integer(out, form, Said::Bare, "off_ms", off_ms)?;
            put_absent(out, form)
        }
        Command::Set16 { index, value } => put_setpoint(
            out,
            form,
            b"set16",
            index,
            i64::from(value),
        ),
        Command::Set32 { index, value } => put_setpoint(
            out,
            form,
            b"set32",
            index,
            i64::from(value),
        ),
    }
}

/// The station that answers the one whose book it is.
fn next_below(whose: Whose) -> &'static [u8]
    ensures { result.now ≡ spec.next_below whose }
{
    match whose {
        Whose::Anyone => b"the next station below",
        Whose::Centre => b"the concentrator",
        Whose::Concentrator => b"the substation",
    }
}

/// What is known of a control that was answered with this status.
fn answered_words(whose: Whose, status: u8) -> &'static [u8]
    ensures { result.now ≡ spec.answered_words whose status }
{
    match (whose, status == 0) {
        (Whose::Anyone, _) => b"finished: answered by ",
        (Whose::Centre, true) => b"taken by ",
        (Whose::Concentrator, true) => b"operated by ",
        (Whose::Centre | Whose::Concentrator, false) => b"refused by ",
    }
}

/// What else this status of a control may say: a book notes FORMAT_ERROR also of an answer that does not repeat the control.
fn unlike_words(whose: Whose, status: u8) -> &'static [u8]
    ensures { result.now ≡ spec.unlike_words whose status }
{
    match (whose, status == 3) {
        (Whose::Centre | Whose::Concentrator, true) => b", or answered with something else",
        _ => b"",
    }
}

/// Puts the station that answered, and what else the status may say.
fn put_next_below(out: &mut Vec<u8>, whose: Whose, status: u8) -> Result<(), AllocError>
    ensures { OnOk result (out.new.items ≡ out.old.items ++ spec.next_below whose ++ spec.unlike_words whose status) }
{
    out.extend_from_slice(next_below(whose))?;
    out.extend_from_slice(unlike_words(whose, status))
}

/// Puts a status in brackets, with its name.
fn put_status(out: &mut Vec<u8>, status: Status) -> Result<(), AllocError>
    ensures { OnOk result (out.new.items ≡ out.old.items ++ spec.status_words status) }
{
    out.extend_from_slice(b" (status ")?;
    put_number(out, u64::from(status.code()))?;
    out.extend_from_slice(b" ")?;
    out.extend_from_slice(status_name(status).as_bytes())?;
    out.extend_from_slice(b")")
}

/// What is said of a control that is not finished.
fn open_words(whose: Whose, is_pending: bool) -> &'static [u8]
    ensures pending { is_pending ≡ true → result.now ≡ spec.state_words whose states.Pending }
    ensures spent { is_pending ≡ false → result.now ≡ spec.state_words whose states.Spent }
{
    match (whose, is_pending) {
        (Whose::Anyone, true) => b"pending",
        (Whose::Centre, true) => b"pending: no OPERATE was sent to the concentrator yet",
        (Whose::Concentrator, true) => b"pending: no OPERATE was sent to the substation yet",
        (Whose::Anyone, false) => b"spent",
        (Whose::Centre, false) => b"spent: sent to the concentrator, and its answer is not known",
        (Whose::Concentrator, false) => {
            b"spent: sent to the substation, and its answer is not known"
        }
    }
}

/// Puts how far a control is, in plain text.
fn put_words(out: &mut Vec<u8>, whose: Whose, state: State) -> Result<(), AllocError>
    ensures { OnOk result (out.new.items ≡ out.old.items ++ spec.state_words whose state) }
{
    match state {
        State::Pending => out.extend_from_slice(open_words(whose, true)),
        State::Spent => out.extend_from_slice(open_words(whose, false)),
        State::Finished(status) => {
            out.extend_from_slice(answered_words(whose, status.code()))?;
            put_next_below(out, whose, status.code())?;
            put_status(out, status)
        }
    }
}

/// Puts how far a control is, and the status that became of it, as two columns.
fn put_columns(out: &mut Vec<u8>, form: Form, state: State) -> Result<(), AllocError>
    ensures { OnOk result (out.new.items ≡ out.old.items ++ spec.state_columns form state) }
{
    match state {
        State::Pending => {
            put_word(out, form, Said::Bare, "state", b"pending")?;
            put_none(out, form, Said::Unsaid, "status")
        }
        State::Spent => {
            put_word(out, form, Said::Bare, "state", b"spent")?;
            put_none(out, form, Said::Unsaid, "status")
        }
        State::Finished(status) => {
            put_word(out, form, Said::Bare, "state", b"finished")?;
            put_integer(out, form, Said::Named, "status", status.code())
        }
    }
}

/// Puts how far a control is, and what became of it.
pub(crate) fn put_state(out: &mut Vec<u8>, form: Form, state: State) -> Result<(), AllocError>
    ensures { OnOk result (out.new.items ≡ out.old.items ++ state_parts form state) }
{
    match form {
        Form::Text(whose) => {
            out.extend_from_slice(b" ")?;
            put_words(out, whose, state)
        }
        Form::Csv | Form::Json => put_columns(out, form, state),
    }
}
