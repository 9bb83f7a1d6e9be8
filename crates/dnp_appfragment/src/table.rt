//! Which objects stand in the fragments of which functions, with which qualifiers.
ghost use Rattle.std.specs.Prelude.{◌≡◌};
ghost use Rattle.std.specs.Option.{option_map};
ghost use Rattle.dnp_appfragment.specs.Table as spec;

use crate::function::Function;
use crate::qualifier::{ALL, COUNT, INDEXED, SPAN, WIDE_COUNT, WIDE_INDEXED, WIDE_SPAN};
use dnp_objects::carries_row;

/// The functions whose fragments have one part of the table.
#[derive(Clone, Copy, Debug, PartialEq, Eq)]
pub enum Form {
    /// No headers: CONFIRM, DELAY_MEASURE.
    Bare,
    /// READ, whose headers have no objects after them.
    Read,
    /// WRITE.
    Write,
    /// SELECT, OPERATE, DIRECT_OPERATE, DIRECT_OPERATE_NR.
    Command,
    /// ENABLE_UNSOLICITED, DISABLE_UNSOLICITED.
    Enable,
    /// RESPONSE, UNSOLICITED_RESPONSE.
    Response,
}

/// All objects.
const EVERY: &[u8] = &[ALL];
/// All objects, or at most so many.
const EVERY_OR_COUNT: &[u8] = &[ALL, COUNT, WIDE_COUNT];
/// Those of a span, or all objects.
const SPAN_OR_EVERY: &[u8] = &[SPAN, WIDE_SPAN, ALL];
/// Those of a span.
const SPANS: &[u8] = &[SPAN, WIDE_SPAN];
/// So many.
const COUNTS: &[u8] = &[COUNT, WIDE_COUNT];
/// So many, each after its index.
const INDEXES: &[u8] = &[INDEXED, WIDE_INDEXED];
/// Those of a span, or so many, each after its index.
const SPAN_OR_INDEXES: &[u8] = &[SPAN, WIDE_SPAN, INDEXED, WIDE_INDEXED];

/// The part of the table that is this function's.
pub(crate) fn form_of(function: Function) -> Form
    ensures { result ≡ spec.form_of function }
{
    match function {
        Function::Confirm | Function::DelayMeasure => Form::Bare,
        Function::Read => Form::Read,
        Function::Write => Form::Write,
        Function::Select
        | Function::Operate
        | Function::DirectOperate
        | Function::DirectOperateNr => Form::Command,
        Function::EnableUnsolicited | Function::DisableUnsolicited => Form::Enable,
        Function::Response | Function::UnsolicitedResponse => Form::Response,
    }
}

/// The qualifiers that the object takes in fragments of this form, if it is listed for them.
#[inline(always)]
#[tactic(auto, unfolding(crate::specs::Table::listed_for))]
fn line_of(form: Form, group: u8, variation: u8) -> Option<&'static [u8]>
    ensures { option_map (λ takes. takes.now) result ≡ spec.listed_for form group variation }
{
    let takes = match form {
        Form::Read => match (group, variation) {
            (60, 1) => EVERY,
            (60, 2 | 3 | 4) => EVERY_OR_COUNT,
            (2, 0 | 2) => EVERY_OR_COUNT,
            (22, 0 | 5) => EVERY_OR_COUNT,
            (32, 0 | 3) => EVERY_OR_COUNT,
            (1 | 10, 0 | 2) => SPAN_OR_EVERY,
            (20 | 30, 0 | 1) => SPAN_OR_EVERY,
            _ => return None,
        },
        Form::Write => match (group, variation) {
            (80, 1) => SPANS,
            (50, 1) => COUNTS,
            _ => return None,
        },
        Form::Command => match (group, variation) {
            (12, 1) | (41, 1 | 2) => INDEXES,
            _ => return None,
        },
        Form::Enable => match (group, variation) {
            (60, 2 | 3 | 4) => EVERY,
            _ => return None,
        },
        Form::Response => match (group, variation) {
            (2, 3) | (12, 1) | (41, 1 | 2) => INDEXES,
            (40, 1 | 2) => SPAN_OR_INDEXES,
            (50, 1) | (51, 1 | 2) | (52, 2) => COUNTS,
            (1 | 80, 1) => SPANS,
            _ => return None,
        },
        Form::Bare => return None,
    };
    Some(takes)
}

/// The qualifiers that the object takes in fragments of this form, if it stands in the table for them:
/// it is listed, or in a response it is one that is written for rows.
#[inline(always)]
pub(crate) fn takes_of(form: Form, group: u8, variation: u8) -> Option<&'static [u8]>
    ensures { option_map (λ takes. takes.now) result ≡ spec.takes_of form group variation }
{
    if let Some(takes) = line_of(form, group, variation) {
        return Some(takes);
    }
    match form {
        Form::Response if carries_row(group, variation) => Some(SPAN_OR_INDEXES),
        _ => None,
    }
}

/// Whether this qualifier is one of them.
#[inline(always)]
pub(crate) fn allows(takes: &[u8], qualifier: u8) -> bool
    ensures { result ≡ spec.allows takes.now qualifier }
{
    takes.iter().any(|allowed| *allowed == qualifier)
}
