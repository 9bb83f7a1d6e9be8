//! The keys of a plan's text: which there are, and of which type and length each is.

ghost use Rattle.std.specs.Prelude.{◌≡◌, IfOk, map};
ghost use Rattle.toml.specs.View.{array_view, view};
ghost use Rattle.dnp_plantext.specs.PlanFields.{integer_under, bool_under, integers_of, integers_under, exactly, has_keys, sub_fields_of, all_sub_fields_of, substations_under, plan_fields_of};

use dnp_concentrator::{INDEX_KINDS, Listed};
use dnp_objects::LANES;
use std::alloc::{AllocError, Global};
use toml::Value;
use toml::value::Array;

/// How many keys a substation has.
pub(crate) const SUBSTATION_KEYS: usize = 8;

/// How many keys a plan has beside its substations' own.
pub(crate) const PLAN_KEYS: usize = 8;

/// The values of a substation's keys, whole numbers of any size.
#[derive(Debug, Drop)]
pub(crate) struct SubFields {
    /// `lanes`, one for each lane.
    pub lanes: Listed<i64>,
    /// `binary`
    pub binary: Listed<i64>,
    /// `counter`
    pub counter: Listed<i64>,
    /// `analog`
    pub analog: Listed<i64>,
    /// `deadband`, as many as `analog`.
    pub deadband: Listed<i64>,
    /// `outputs`
    pub outputs: i64,
    /// `setpoints`
    pub setpoints: i64,
    /// `base`, one for each kind of indices.
    pub base: Listed<i64>,
}

/// The values of a plan's keys, whole numbers of any size.
#[derive(Debug, Drop)]
pub(crate) struct PlanFields {
    /// `confirm_ms`
    pub confirm_ms: i64,
    /// `response_ms`
    pub response_ms: i64,
    /// `select_ms`
    pub select_ms: i64,
    /// `retries`
    pub retries: i64,
    /// `unsolicited`
    pub unsolicited: bool,
    /// `queue`, one for each lane.
    pub queue: Listed<i64>,
    /// `queue2`, one for each lane.
    pub queue2: Listed<i64>,
    /// Each `substation`.
    pub substations: Listed<SubFields>,
}

/// The whole number under a key.
#[tactic(auto, unfolding(crate::specs::PlanFields::integer_under))]
pub(crate) fn integer_at(table: &Value, key: &str) -> Option<i64>
    ensures { result ≡ integer_under key.now (view table.now) }
{
    match table.get(key) {
        Some(value) => value.as_integer(),
        None => None,
    }
}

/// The truth value under a key.
#[tactic(auto, unfolding(crate::specs::PlanFields::bool_under))]
pub(crate) fn bool_at(table: &Value, key: &str) -> Option<bool>
    ensures { result ≡ bool_under key.now (view table.now) }
{
    match table.get(key) {
        Some(value) => value.as_bool(),
        None => None,
    }
}

/// The items as whole numbers, if all of them are.
fn integers_in(alloc: Global, items: &Array) -> Result<Option<Listed<i64>>, AllocError>
    ensures { IfOk result (λ numbers. numbers ≡ integers_of (array_view items.now)) }
{
    let mut numbers = Vec::with_capacity(alloc, items.len())?;
    for item in items {
        let Some(number) = item.as_integer() else {
            return Ok(None);
        };
        numbers.extend_from_slice(&[number])?;
    }
    Ok(Some(Listed::new(numbers)))
}

/// The list of whole numbers under a key.
#[tactic(auto, unfolding(crate::specs::PlanFields::integers_under))]
pub(crate) fn integers_at(
    alloc: Global,
    table: &Value,
    key: &str,
) -> Result<Option<Listed<i64>>, AllocError>
    ensures { IfOk result (λ numbers. numbers ≡ integers_under key.now (view table.now)) }
{
    let Some(value) = table.get(key) else {
        return Ok(None);
    };
    match value.as_array() {
        Some(items) => integers_in(alloc, items),
        None => Ok(None),
    }
}

/// The numbers, if there are so many.
#[tactic(auto, unfolding(crate::specs::PlanFields::exactly))]
fn so_many(numbers: Option<Listed<i64>>, count: usize) -> Option<Listed<i64>>
    ensures { result ≡ exactly count numbers }
{
    let numbers = numbers?;
    if numbers.as_slice().len() == count {
        Some(numbers)
    } else {
        None
    }
}

/// Whether a table has so many keys.
#[tactic(auto, unfolding(crate::specs::PlanFields::has_keys))]
pub(crate) fn has_so_many_keys(table: &Value, count: usize) -> bool
    ensures { result ≡ has_keys count (view table.now) }
{
    match table.as_table() {
        Some(keys) => keys.len() == count,
        None => false,
    }
}

/// The values of a substation's keys, or none where a key is missing, unknown, or of another type or length.
#[tactic(auto, unfolding(crate::specs::PlanFields::sub_fields_of))]
fn sub_fields(alloc: Global, table: &Value) -> Result<Option<SubFields>, AllocError>
    ensures { IfOk result (λ fields. fields ≡ sub_fields_of (view table.now)) }
{
    let Some(lanes) = so_many(integers_at(alloc, table, "lanes")?, LANES) else {
        return Ok(None);
    };
    let Some(binary) = integers_at(alloc, table, "binary")? else {
        return Ok(None);
    };
    let Some(counter) = integers_at(alloc, table, "counter")? else {
        return Ok(None);
    };
    let Some(analog) = integers_at(alloc, table, "analog")? else {
        return Ok(None);
    };
    let analogs = analog.as_slice().len();
    let Some(deadband) = so_many(integers_at(alloc, table, "deadband")?, analogs) else {
        return Ok(None);
    };
    let Some(outputs) = integer_at(table, "outputs") else {
        return Ok(None);
    };
    let Some(setpoints) = integer_at(table, "setpoints") else {
        return Ok(None);
    };
    let Some(base) = so_many(integers_at(alloc, table, "base")?, INDEX_KINDS) else {
        return Ok(None);
    };
    if !has_so_many_keys(table, SUBSTATION_KEYS) {
        return Ok(None);
    }
    Ok(Some(SubFields {
        lanes,
        binary,
        counter,
        analog,
        deadband,
        outputs,
        setpoints,
        base,
    }))
}

/// The same for each substation.
fn all_sub_fields(alloc: Global, items: &Array) -> Result<Option<Listed<SubFields>>, AllocError>
    ensures { IfOk result (λ all. all ≡ all_sub_fields_of (array_view items.now)) }
{
    let mut all = Vec::with_capacity(alloc, items.len())?;
    for item in items {
        let Some(fields) = sub_fields(alloc, item)? else {
            return Ok(None);
        };
        let Ok(()) = all.push(fields) else {
            return Err(AllocError);
        };
    }
    Ok(Some(Listed::new(all)))
}

/// The values of the keys of each substation.
#[tactic(auto, unfolding(crate::specs::PlanFields::substations_under))]
fn substations_at(alloc: Global, table: &Value) -> Result<Option<Listed<SubFields>>, AllocError>
    ensures { IfOk result (λ all. all ≡ substations_under (view table.now)) }
{
    let Some(value) = table.get("substation") else {
        return Ok(None);
    };
    match value.as_array() {
        Some(items) => all_sub_fields(alloc, items),
        None => Ok(None),
    }
}

/// The values of a plan's keys, or none where a key is missing, unknown, or of another type or length.
#[tactic(auto, unfolding(crate::specs::PlanFields::plan_fields_of))]
pub(crate) fn plan_fields(alloc: Global, table: &Value) -> Result<Option<PlanFields>, AllocError>
    ensures { IfOk result (λ fields. fields ≡ plan_fields_of (view table.now)) }
{
    let Some(confirm_ms) = integer_at(table, "confirm_ms") else {
        return Ok(None);
    };
    let Some(response_ms) = integer_at(table, "response_ms") else {
        return Ok(None);
    };
    let Some(select_ms) = integer_at(table, "select_ms") else {
        return Ok(None);
    };
    let Some(retries) = integer_at(table, "retries") else {
        return Ok(None);
    };
    let Some(unsolicited) = bool_at(table, "unsolicited") else {
        return Ok(None);
    };
    let Some(queue) = so_many(integers_at(alloc, table, "queue")?, LANES) else {
        return Ok(None);
    };
    let Some(queue2) = so_many(integers_at(alloc, table, "queue2")?, LANES) else {
        return Ok(None);
    };
    let Some(substations) = substations_at(alloc, table)? else {
        return Ok(None);
    };
    if !has_so_many_keys(table, PLAN_KEYS) {
        return Ok(None);
    }
    Ok(Some(PlanFields {
        confirm_ms,
        response_ms,
        select_ms,
        retries,
        unsolicited,
        queue,
        queue2,
        substations,
    }))
}
