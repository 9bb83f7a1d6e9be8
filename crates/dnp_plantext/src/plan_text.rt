//! A plan, read from its text.

ghost use Rattle.std.specs.Prelude.{IfErr, IfOk};
ghost use Rattle.dnp_plantext.specs.PlanText.{IsPlanOf, IsRefusedFor};

use crate::plan_text::fields::plan_fields;
use crate::plan_text::ranges::plan_in;
use dnp_concentrator::{IndexMap, MapFault, Plan};
use std::alloc::{AllocError, Global};
use toml::Value;

mod field_reason;
mod fields;
mod index_reason;
pub(crate) mod place;
mod range_reason;
mod ranges;
pub(crate) mod reason;
mod unknown;

/// Why a text is no plan, in the order in which the causes are looked for: each in the whole text before the next one is.
#[derive(Clone, Copy, Debug, PartialEq, Eq, Hash)]
pub enum PlanTextFault {
    /// The text is no TOML.
    Syntax = 1,
    /// A key is missing, unknown or of another type, or a list has another length.
    Field = 2,
    /// A number is outside its range.
    Range = 3,
    /// A class is over 3.
    Class = 4,
    /// An index above would be over 65,535.
    TooWide = 5,
    /// Two substations would have an index above of one kind in common.
    Overlap = 6,
    /// Out of memory.
    Memory = 7,
}

/// A request for memory that was refused.
impl From<AllocError> for PlanTextFault {
    ghost use Rattle.std.specs.Prelude.{◌≡◌};
    ghost use Rattle.dnp_plantext.specs.declared.plan_text.PlanTextFault.TheVariants.{Memory};

    ghost from_gives = { λ _ fault. fault ≡ Memory };

    fn from(_: AllocError) -> PlanTextFault {
        PlanTextFault::Memory
    }
}

/// Reads a plan from TOML: every key is there and no other, each value is of its type and in its range, and the plan has
/// an index map. It keeps its limits (`Plan::keeps_limits`).
///
/// Refused is the first cause of `PlanTextFault`'s order. A whole number that doesn't fit 64 bits is no TOML.
pub fn read_plan(alloc: Global, text: &str) -> Result<Plan, PlanTextFault>
    ensures read { IfOk result (IsPlanOf text.now) }
    ensures refused { IfErr result (IsRefusedFor text.now) }
{
    let table = match toml::table_from_str(alloc, text) {
        Ok(table) => Value::Table(table),
        Err(fault) if fault.is_memory() => return Err(PlanTextFault::Memory),
        Err(_) => return Err(PlanTextFault::Syntax),
    };
    let Some(fields) = plan_fields(alloc, &table)? else {
        return Err(PlanTextFault::Field);
    };
    let Some(plan) = plan_in(alloc, &fields)? else {
        return Err(PlanTextFault::Range);
    };
    if !plan.keeps_limits() {
        return Err(PlanTextFault::Class);
    }
    match IndexMap::new(alloc, &plan) {
        Ok(_) => Ok(plan),
        Err(MapFault::TooWide) => Err(PlanTextFault::TooWide),
        Err(MapFault::Overlap) => Err(PlanTextFault::Overlap),
        Err(MapFault::Memory) => Err(PlanTextFault::Memory),
    }
}
