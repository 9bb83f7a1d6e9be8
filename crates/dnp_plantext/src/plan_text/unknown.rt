//! The name of a key that no plan has.

use crate::plan_text::place::PlanKey;
use std::alloc::{AllocError, Global};
use toml::Value;

/// Whether one of these keys has this name.
fn is_known(name: &str, keys: &[PlanKey]) -> bool {
    for key in keys {
        if key.name() == name {
            return true;
        }
    }
    false
}

/// The first key of a table that is none of these, or an empty name where there is none.
fn other_key(alloc: Global, table: &Value, keys: &[PlanKey]) -> Result<String, AllocError> {
    if let Some(members) = table.as_table() {
        for name in members.keys() {
            if !is_known(name.as_str(), keys) {
                return String::from_str(alloc, name.as_str());
            }
        }
    }
    Ok(String::new(alloc))
}

/// The first key of a plan's own that no plan has, or of this substation where one is given.
pub(crate) fn unknown_key(
    alloc: Global,
    table: &Value,
    substation: Option<usize>,
) -> Result<String, AllocError> {
    let Some(number) = substation else {
        let keys = [
            PlanKey::ConfirmMs,
            PlanKey::ResponseMs,
            PlanKey::SelectMs,
            PlanKey::Retries,
            PlanKey::Unsolicited,
            PlanKey::Queue,
            PlanKey::Queue2,
            PlanKey::Substation,
        ];
        return other_key(alloc, table, &keys);
    };
    let keys = [
        PlanKey::Lanes,
        PlanKey::Binary,
        PlanKey::Counter,
        PlanKey::Analog,
        PlanKey::Deadband,
        PlanKey::Outputs,
        PlanKey::Setpoints,
        PlanKey::Base,
    ];
    let Some(all) = table.get("substation") else {
        return Ok(String::new(alloc));
    };
    match all.get(number) {
        Some(one) => other_key(alloc, one, &keys),
        None => Ok(String::new(alloc)),
    }
}
