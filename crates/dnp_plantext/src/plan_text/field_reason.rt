//! The first key of a plan's text that is missing, unknown or of another type or length.

ghost use Rattle.std.specs.Prelude.{◌≡◌, IfOk, Option};
ghost use Rattle.toml.specs.View.{array_view, view};
ghost use Rattle.dnp_plantext.specs.PlanReasons as spec;

use crate::plan_text::fields::{
    PLAN_KEYS, SUBSTATION_KEYS, bool_at, has_so_many_keys, integer_at, integers_at,
};
use crate::plan_text::place::{Found, PlanKey, PlanPlace};
use dnp_concentrator::INDEX_KINDS;
use dnp_objects::LANES;
use std::alloc::{AllocError, Global};
use toml::Value;
use toml::value::Array;

/// What stands under a key, by its type.
#[tactic(auto, unfolding(crate::specs::PlanReasons::found_under))]
fn found_under(table: &Value, key: &str) -> Found
    ensures { result ≡ spec.found_under key.now (view table.now) }
{
    match table.get(key) {
        Some(value) => Found::of(value),
        None => Found::Missing,
    }
}

/// The place of a whole value that is wrong.
fn whole_place(table: &Value, substation: Option<usize>, key: PlanKey) -> PlanPlace
    ensures { result ≡ spec.whole_place substation key (view table.now) }
{
    PlanPlace {
        substation,
        key,
        item: None,
        found: found_under(table, key.name()),
    }
}

/// The first item that is no whole number.
fn first_other(items: &Array, substation: Option<usize>, key: PlanKey) -> Option<PlanPlace>
    ensures { result ≡ spec.first_other substation key 0 (array_view items.now) }
{
    for (number, item) in items.iter().enumerate() {
        if item.as_integer().is_none() {
            return Some(PlanPlace {
                substation,
                key,
                item: Some(number),
                found: Found::of(item),
            });
        }
    }
    None
}

/// Where a list of whole numbers is wrong: it isn't there, or none, or one of its items is no whole number.
#[tactic(auto, unfolding(crate::specs::PlanReasons::wrong_list))]
fn wrong_list(table: &Value, substation: Option<usize>, key: PlanKey) -> Option<PlanPlace>
    ensures { result ≡ spec.wrong_list substation key (view table.now) }
{
    let Some(value) = table.get(key.name()) else {
        return Some(whole_place(table, substation, key));
    };
    match value.as_array() {
        Some(items) => first_other(items, substation, key),
        None => Some(whole_place(table, substation, key)),
    }
}

/// Where a list is wrong that is to have so many whole numbers, if a count is given.
#[tactic(auto, unfolding(crate::specs::PlanReasons::list_fault))]
fn list_fault(
    alloc: Global,
    table: &Value,
    substation: Option<usize>,
    key: PlanKey,
    count: Option<usize>,
) -> Result<Option<PlanPlace>, AllocError>
    ensures { IfOk result (λ place. place ≡ spec.list_fault substation key count (view table.now)) }
{
    let Some(numbers) = integers_at(alloc, table, key.name())? else {
        return Ok(wrong_list(table, substation, key));
    };
    let length = numbers.as_slice().len();
    match count {
        Some(count) if length != count => Ok(Some(PlanPlace {
            substation,
            key,
            item: None,
            found: Found::Count(length),
        })),
        _ => Ok(None),
    }
}

/// Where a list of as many deadbands as there are analog inputs is wrong.
#[tactic(auto, unfolding(crate::specs::PlanReasons::deadband_fault))]
fn deadband_fault(
    alloc: Global,
    table: &Value,
    substation: Option<usize>,
) -> Result<Option<PlanPlace>, AllocError>
    ensures { IfOk result (λ place. place ≡ spec.deadband_fault substation (view table.now)) }
{
    let count = match integers_at(alloc, table, PlanKey::Analog.name())? {
        Some(analog) => Some(analog.as_slice().len()),
        None => None,
    };
    list_fault(alloc, table, substation, PlanKey::Deadband, count)
}

/// Where a whole number is wrong.
fn integer_fault(table: &Value, substation: Option<usize>, key: PlanKey) -> Option<PlanPlace>
    ensures { result ≡ spec.integer_fault substation key (view table.now) }
{
    match integer_at(table, key.name()) {
        Some(_) => None,
        None => Some(whole_place(table, substation, key)),
    }
}

/// Where a truth value is wrong.
fn bool_fault(table: &Value, substation: Option<usize>, key: PlanKey) -> Option<PlanPlace>
    ensures { result ≡ spec.bool_fault substation key (view table.now) }
{
    match bool_at(table, key.name()) {
        Some(_) => None,
        None => Some(whole_place(table, substation, key)),
    }
}

/// Where another key stands than the known ones, which are so many and all there.
fn unknown_fault(table: &Value, substation: Option<usize>, count: usize) -> Option<PlanPlace>
    ensures { result ≡ spec.unknown_fault substation count (view table.now) }
{
    if has_so_many_keys(table, count) {
        None
    } else {
        Some(PlanPlace {
            substation,
            key: PlanKey::Unknown,
            item: None,
            found: Found::Unknown,
        })
    }
}

/// Where the value under a key is wrong.
fn key_fault(
    alloc: Global,
    table: &Value,
    substation: Option<usize>,
    key: PlanKey,
) -> Result<Option<PlanPlace>, AllocError>
    ensures { IfOk result (λ place. place ≡ spec.key_fault substation key (view table.now)) }
{
    match key {
        PlanKey::Unsolicited => Ok(bool_fault(table, substation, key)),
        PlanKey::Queue => list_fault(alloc, table, substation, key, Some(LANES)),
        PlanKey::Queue2 => list_fault(alloc, table, substation, key, Some(LANES)),
        PlanKey::Lanes => list_fault(alloc, table, substation, key, Some(LANES)),
        PlanKey::Binary => list_fault(alloc, table, substation, key, None),
        PlanKey::Counter => list_fault(alloc, table, substation, key, None),
        PlanKey::Analog => list_fault(alloc, table, substation, key, None),
        PlanKey::Deadband => deadband_fault(alloc, table, substation),
        PlanKey::Base => list_fault(alloc, table, substation, key, Some(INDEX_KINDS)),
        _ => Ok(integer_fault(table, substation, key)),
    }
}

/// The first of these keys whose value is wrong.
fn first_fault(
    alloc: Global,
    table: &Value,
    substation: Option<usize>,
    keys: &[PlanKey],
) -> Result<Option<PlanPlace>, AllocError>
    ensures { IfOk result (λ place. place ≡ spec.first_fault substation (view table.now) keys.now) }
{
    for key in keys {
        if let Some(place) = key_fault(alloc, table, substation, *key)? {
            return Ok(Some(place));
        }
    }
    Ok(None)
}

/// The first key of a plan's own that is wrong.
fn own_fault(alloc: Global, table: &Value) -> Result<Option<PlanPlace>, AllocError>
    ensures { IfOk result (λ place. place ≡ spec.first_fault Option.None (view table.now) spec.own_keys) }
{
    let keys = [
        PlanKey::ConfirmMs,
        PlanKey::ResponseMs,
        PlanKey::SelectMs,
        PlanKey::Retries,
        PlanKey::Unsolicited,
        PlanKey::Queue,
        PlanKey::Queue2,
    ];
    first_fault(alloc, table, None, &keys)
}

/// Where a substation is wrong: it is no table, or a key of it is wrong.
fn sub_fault(
    alloc: Global,
    table: &Value,
    substation: usize,
) -> Result<Option<PlanPlace>, AllocError>
    ensures { IfOk result (λ place. place ≡ spec.sub_fault substation (view table.now)) }
{
    if !table.is_table() {
        return Ok(Some(PlanPlace {
            substation: None,
            key: PlanKey::Substation,
            item: Some(substation),
            found: Found::of(table),
        }));
    }
    let keys = [
        PlanKey::Lanes,
        PlanKey::Binary,
        PlanKey::Counter,
        PlanKey::Analog,
        PlanKey::Deadband,
        PlanKey::Outputs,
        PlanKey::Setpoints,
        PlanKey::Base,
    ];
    first_fault(alloc, table, Some(substation), &keys)
}

/// The first place of all substations that is wrong.
fn subs_fault(alloc: Global, items: &Array) -> Result<Option<PlanPlace>, AllocError>
    ensures { IfOk result (λ place. place ≡ spec.subs_fault 0 (array_view items.now)) }
{
    for (number, item) in items.iter().enumerate() {
        if let Some(place) = sub_fault(alloc, item, number)? {
            return Ok(Some(place));
        }
    }
    Ok(None)
}

/// The first key of all substations that no substation has.
fn subs_unknown(items: &Array) -> Option<PlanPlace>
    ensures { result ≡ spec.subs_unknown 0 (array_view items.now) }
{
    for (number, item) in items.iter().enumerate() {
        if let Some(place) = unknown_fault(item, Some(number), SUBSTATION_KEYS) {
            return Some(place);
        }
    }
    None
}

/// The first key that is wrong: one that is missing or of another type or length, and else one that no plan has.
#[tactic(auto, unfolding(crate::specs::PlanReasons::field_fault))]
pub(crate) fn field_fault(alloc: Global, table: &Value) -> Result<Option<PlanPlace>, AllocError>
    ensures { IfOk result (λ place. place ≡ spec.field_fault (view table.now)) }
{
    if let Some(place) = own_fault(alloc, table)? {
        return Ok(Some(place));
    }
    let Some(value) = table.get("substation") else {
        return Ok(Some(whole_place(table, None, PlanKey::Substation)));
    };
    let Some(items) = value.as_array() else {
        return Ok(Some(whole_place(table, None, PlanKey::Substation)));
    };
    if let Some(place) = subs_fault(alloc, items)? {
        return Ok(Some(place));
    }
    if let Some(place) = unknown_fault(table, None, PLAN_KEYS) {
        return Ok(Some(place));
    }
    Ok(subs_unknown(items))
}
