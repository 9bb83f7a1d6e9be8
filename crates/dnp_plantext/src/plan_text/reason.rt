//! Where a text stops being a plan, for the person who wrote it.

ghost use Rattle.std.specs.Prelude.{◌≡◌, IfOk, MatchOption};
ghost use Rattle.dnp_concentrator.specs.declared.plan.Plan.{Plan as PlanValue};
ghost use Rattle.dnp_plantext.specs.PlanReasons as spec;
ghost use Rattle.dnp_plantext.specs.PlanText.{IsPlanOf, fields_in, plan_said};

use crate::plan_text::field_reason::field_fault;
use crate::plan_text::fields::{PlanFields, plan_fields};
use crate::plan_text::index_reason::{subs_shared_fault, subs_wide_fault};
use crate::plan_text::place::{PlanKey, PlanPlace};
use crate::plan_text::range_reason::{range_fault, subs_class_fault};
use crate::plan_text::ranges::plan_in;
use crate::plan_text::unknown::unknown_key;
use crate::plan_text::{PlanTextFault, read_plan};
use dnp_concentrator::Plan;
use std::alloc::{AllocError, Global};
use toml::Value;

/// Why a text is no plan, and where.
#[derive(Debug, Drop)]
pub struct PlanFault {
    /// The cause, as [`read_plan`] gives it.
    pub cause: PlanTextFault,
    /// The first place at which the text is wrong for this cause; none where the cause alone is told.
    pub place: Option<PlanPlace>,
    /// The name of the key, where it is one that no plan has.
    pub unknown: String,
    /// The number of the line at which the text stops being TOML, counted from 1, if the reader of TOML tells it.
    pub line: Option<usize>,
}

/// The values of the text's keys, if they are all right.
fn fields_at(alloc: Global, text: &str) -> Result<Option<PlanFields>, AllocError>
    ensures { IfOk result (λ fields. fields ≡ fields_in text.now) }
{
    match toml::table_from_str(alloc, text) {
        Ok(table) => plan_fields(alloc, &Value::Table(table)),
        Err(fault) if fault.is_memory() => Err(AllocError),
        Err(_) => Ok(None),
    }
}

/// The plan of these values, if they are in their ranges.
fn plan_at(alloc: Global, text: &str) -> Result<Option<Plan>, AllocError>
    ensures { IfOk result (λ plan. plan ≡ plan_said text.now) }
{
    match fields_at(alloc, text)? {
        Some(fields) => plan_in(alloc, &fields),
        None => Ok(None),
    }
}

/// The first key that is missing, unknown or of another type or length.
fn field_place(alloc: Global, text: &str) -> Result<Option<PlanPlace>, AllocError>
    ensures { IfOk result (λ place. place ≡ spec.field_place text.now) }
{
    match toml::table_from_str(alloc, text) {
        Ok(table) => field_fault(alloc, &Value::Table(table)),
        Err(fault) if fault.is_memory() => Err(AllocError),
        Err(_) => Ok(None),
    }
}

/// The first number that is outside its range.
fn range_place(alloc: Global, text: &str) -> Result<Option<PlanPlace>, AllocError>
    ensures { IfOk result (λ place. place ≡ spec.range_place text.now) }
{
    match fields_at(alloc, text)? {
        Some(fields) => Ok(range_fault(&fields)),
        None => Ok(None),
    }
}

/// The first class over 3.
fn class_place(alloc: Global, text: &str) -> Result<Option<PlanPlace>, AllocError>
    ensures { IfOk result (λ place. place ≡ spec.class_place text.now) }
{
    match plan_at(alloc, text)? {
        Some(plan) => Ok(subs_class_fault(&plan)),
        None => Ok(None),
    }
}

/// The first indices above that end over 65,535.
fn wide_place(alloc: Global, text: &str) -> Result<Option<PlanPlace>, AllocError>
    ensures { IfOk result (λ place. place ≡ spec.wide_place text.now) }
{
    match plan_at(alloc, text)? {
        Some(plan) => Ok(subs_wide_fault(&plan)),
        None => Ok(None),
    }
}

/// The first indices above of which another substation has one too.
fn shared_place(alloc: Global, text: &str) -> Result<Option<PlanPlace>, AllocError>
    ensures { IfOk result (λ place. place ≡ spec.shared_place text.now) }
{
    match plan_at(alloc, text)? {
        Some(plan) => Ok(subs_shared_fault(&plan)),
        None => Ok(None),
    }
}

/// The first place at which the text is wrong for this cause.
fn place_of(
    alloc: Global,
    text: &str,
    cause: PlanTextFault,
) -> Result<Option<PlanPlace>, AllocError>
    ensures { IfOk result (λ place. place ≡ spec.place_of cause text.now) }
{
    match cause {
        PlanTextFault::Field => field_place(alloc, text),
        PlanTextFault::Range => range_place(alloc, text),
        PlanTextFault::Class => class_place(alloc, text),
        PlanTextFault::TooWide => wide_place(alloc, text),
        PlanTextFault::Overlap => shared_place(alloc, text),
        _ => Ok(None),
    }
}

/// The name of the key at a place, where it is one that no plan has, and an empty one elsewhere.
fn unknown_at(alloc: Global, text: &str, place: &Option<PlanPlace>) -> Result<String, AllocError> {
    let Some(
        PlanPlace {
            substation,
            key: PlanKey::Unknown,
            ..
        },
    ) = *place
    else {
        return Ok(String::new(alloc));
    };
    match toml::table_from_str(alloc, text) {
        Ok(table) => unknown_key(alloc, &Value::Table(table), substation),
        Err(_) => Ok(String::new(alloc)),
    }
}

/// The line at which the text stops being TOML, counted from 1, if the reader of TOML tells it.
fn line_of(alloc: Global, text: &str) -> Option<usize> {
    let Err(fault) = toml::table_from_str(alloc, text) else {
        return None;
    };
    let span = fault.span()?;
    let mut line: usize = 1;
    for octet in text.as_bytes().iter().take(span.start) {
        if *octet == b'\n' {
            line = line.saturating_add(1);
        }
    }
    Some(line)
}

/// The fault of this cause.
fn fault_of(alloc: Global, text: &str, cause: PlanTextFault) -> Result<PlanFault, AllocError>
    ensures { IfOk result (λ fault. (fault.cause ≡ cause) × (fault.place ≡ spec.place_of cause text.now)) }
{
    let place = place_of(alloc, text, cause)?;
    let unknown = unknown_at(alloc, text, &place)?;
    let line = match cause {
        PlanTextFault::Syntax => line_of(alloc, text),
        _ => None,
    };
    Ok(PlanFault {
        cause,
        place,
        unknown,
        line,
    })
}

/// Why the text is no plan, as [`read_plan`] gives it, and the first place at which it is wrong for that cause, in the
/// order of the plan's own keys, then substation by substation, key by key, item by item; none where the text is a plan.
/// An error says that it ran out of memory.
pub fn plan_fault(alloc: Global, text: &str) -> Result<Option<PlanFault>, AllocError>
    ensures { IfOk result (λ found. MatchOption found ((plan : PlanValue) × IsPlanOf text.now plan)
        (λ fault. spec.IsFaultOf text.now fault.cause fault.place)) }
{
    match read_plan(alloc, text) {
        Ok(_) => Ok(None),
        Err(PlanTextFault::Memory) => Err(AllocError),
        Err(cause) => Ok(Some(fault_of(alloc, text, cause)?)),
    }
}
