//! The ranges of a plan's numbers.

ghost use Rattle.std.specs.Prelude.{◌≡◌, IfOk, map};
ghost use Rattle.std.specs.Option.{option_map};
ghost use Rattle.dnp_plantext.specs.PlanRanges.{within, all_within, capacities_of, bases_of, classes_of, sub_plan_of, sub_plans_of, times_of, plan_of};

use crate::plan_text::fields::{PlanFields, SubFields};
use dnp_concentrator::{
    INDEX_KINDS, Listed, MAX_RETRIES, MAX_SUBSTATIONS, MAX_TIMER_MS, Plan, SubPlan,
};
use dnp_controls::MAX_OUTPUTS;
use dnp_eventbuf::MAX_CAPACITY;
use dnp_objects::LANES;
use dnp_pointdb::{MAX_POINTS, Times};
use std::alloc::{AllocError, Global};

/// The number, if it is in this range.
pub(crate) fn number_within(number: i64, least: u64, most: u64) -> Option<u64>
    ensures { result ≡ within least most number }
{
    match u64::try_from(number) {
        Ok(number) if least <= number && number <= most => Some(number),
        _ => None,
    }
}

/// The number as one of 16 bits.
fn base_in(number: i64) -> Option<u16>
    ensures { result ≡ within 0 65535 number }
{
    u16::try_from(number).ok()
}

/// The number as one of 8 bits.
fn class_in(number: i64) -> Option<u8>
    ensures { result ≡ within 0 255 number }
{
    u8::try_from(number).ok()
}

/// The number, if it is in this range of numbers of 32 bits.
fn number_in(number: i64, least: u32, most: u32) -> Option<u32>
    ensures { result ≡ within least most number }
{
    match u32::try_from(number) {
        Ok(number) if least <= number && number <= most => Some(number),
        _ => None,
    }
}

/// The numbers, if each is in this range of numbers of 32 bits.
fn numbers_within(
    alloc: Global,
    numbers: &[i64],
    least: u32,
    most: u32,
) -> Result<Option<Vec<u32>>, AllocError>
    ensures { IfOk result (λ all. option_map (λ list. list.items) all ≡ all_within least most numbers.now) }
{
    let mut all = Vec::with_capacity(alloc, numbers.len())?;
    for number in numbers {
        let Some(number) = number_in(*number, least, most) else {
            return Ok(None);
        };
        all.extend_from_slice(&[number])?;
    }
    Ok(Some(all))
}

/// The classes, of 8 bits, of at most [`MAX_POINTS`] points. A class over 3 is looked for later.
#[tactic(auto, unfolding(crate::specs::PlanRanges::classes_of))]
fn classes_in(alloc: Global, numbers: &[i64]) -> Result<Option<Listed<u8>>, AllocError>
    ensures { IfOk result (λ classes. classes ≡ classes_of numbers.now) }
{
    if numbers.len() > MAX_POINTS {
        return Ok(None);
    }
    let mut classes = Vec::with_capacity(alloc, numbers.len())?;
    for number in numbers {
        let Some(class) = class_in(*number) else {
            return Ok(None);
        };
        classes.extend_from_slice(&[class])?;
    }
    Ok(Some(Listed::new(classes)))
}

/// How many rows each lane takes.
#[tactic(auto, unfolding(crate::specs::PlanRanges::capacities_of))]
fn capacities_in(alloc: Global, numbers: &[i64]) -> Result<Option<[u32; LANES]>, AllocError>
    ensures { IfOk result (λ lanes. lanes ≡ capacities_of numbers.now) }
{
    let Some(lanes) = numbers_within(alloc, numbers, 1, MAX_CAPACITY)? else {
        return Ok(None);
    };
    match <[u32; LANES]>::try_from(lanes.as_slice()) {
        Ok(lanes) => Ok(Some(lanes)),
        Err(_) => Ok(None),
    }
}

/// The indices above of a substation's indices 0.
#[tactic(auto, unfolding(crate::specs::PlanRanges::bases_of))]
fn bases_in(numbers: &[i64]) -> Option<[u16; INDEX_KINDS]>
    ensures { result ≡ bases_of numbers.now }
{
    match numbers {
        [binary, counter, analog, output, setpoint] => Some([
            base_in(*binary)?,
            base_in(*counter)?,
            base_in(*analog)?,
            base_in(*output)?,
            base_in(*setpoint)?,
        ]),
        _ => None,
    }
}

/// How many outputs or setpoints there are.
fn outputs_in(number: i64) -> Option<u16>
    ensures { result ≡ within 0 MAX_OUTPUTS number }
{
    match u16::try_from(number) {
        Ok(number) if number <= MAX_OUTPUTS => Some(number),
        _ => None,
    }
}

/// The plan of a substation, or none where a number is outside its range.
#[tactic(auto, unfolding(crate::specs::PlanRanges::sub_plan_of))]
fn sub_plan(alloc: Global, fields: &SubFields) -> Result<Option<SubPlan>, AllocError>
    ensures { IfOk result (λ plan. plan ≡ sub_plan_of fields.now) }
{
    let Some(lanes) = capacities_in(alloc, fields.lanes.as_slice())? else {
        return Ok(None);
    };
    let Some(binary) = classes_in(alloc, fields.binary.as_slice())? else {
        return Ok(None);
    };
    let Some(counter) = classes_in(alloc, fields.counter.as_slice())? else {
        return Ok(None);
    };
    let Some(analog) = classes_in(alloc, fields.analog.as_slice())? else {
        return Ok(None);
    };
    let Some(deadband) = numbers_within(alloc, fields.deadband.as_slice(), 0, u32::MAX)? else {
        return Ok(None);
    };
    let Some(outputs) = outputs_in(fields.outputs) else {
        return Ok(None);
    };
    let Some(setpoints) = outputs_in(fields.setpoints) else {
        return Ok(None);
    };
    let Some(base) = bases_in(fields.base.as_slice()) else {
        return Ok(None);
    };
    Ok(Some(SubPlan {
        lanes,
        binary,
        counter,
        analog,
        deadband: Listed::new(deadband),
        outputs,
        setpoints,
        base,
    }))
}

/// The same for each substation.
fn sub_plans(alloc: Global, all: &[SubFields]) -> Result<Option<Listed<SubPlan>>, AllocError>
    ensures { IfOk result (λ plans. plans ≡ sub_plans_of all.now) }
{
    let mut plans = Vec::with_capacity(alloc, all.len())?;
    for fields in all {
        let Some(plan) = sub_plan(alloc, fields)? else {
            return Ok(None);
        };
        let Ok(()) = plans.push(plan) else {
            return Err(AllocError);
        };
    }
    Ok(Some(Listed::new(plans)))
}

/// The timers and retries.
#[tactic(auto, unfolding(crate::specs::PlanRanges::times_of))]
fn times_in(fields: &PlanFields) -> Option<Times>
    ensures { result ≡ times_of fields.now }
{
    let confirm_ms = number_within(fields.confirm_ms, 1, MAX_TIMER_MS)?;
    let response_ms = number_within(fields.response_ms, 1, MAX_TIMER_MS)?;
    let select_ms = number_within(fields.select_ms, 1, MAX_TIMER_MS)?;
    let retries = match u8::try_from(fields.retries) {
        Ok(retries) if retries <= MAX_RETRIES => retries,
        _ => return None,
    };
    Some(Times {
        confirm_ms,
        response_ms,
        select_ms,
        retries,
        unsolicited: fields.unsolicited,
    })
}

/// The plan, or none where a number is outside its range, or there are not 1 to [`MAX_SUBSTATIONS`] substations.
#[tactic(auto, unfolding(crate::specs::PlanRanges::plan_of))]
pub(crate) fn plan_in(alloc: Global, fields: &PlanFields) -> Result<Option<Plan>, AllocError>
    ensures { IfOk result (λ plan. plan ≡ plan_of fields.now) }
{
    let substations = fields.substations.as_slice();
    if substations.is_empty() || substations.len() > MAX_SUBSTATIONS {
        return Ok(None);
    }
    let Some(times) = times_in(fields) else {
        return Ok(None);
    };
    let Some(queue) = capacities_in(alloc, fields.queue.as_slice())? else {
        return Ok(None);
    };
    let Some(queue2) = capacities_in(alloc, fields.queue2.as_slice())? else {
        return Ok(None);
    };
    let Some(substations) = sub_plans(alloc, substations)? else {
        return Ok(None);
    };
    Ok(Some(Plan {
        times,
        queue,
        queue2,
        substations,
    }))
}
