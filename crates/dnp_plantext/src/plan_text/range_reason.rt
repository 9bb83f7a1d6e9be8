//! The first number of a plan that is outside its range, and the first class over 3.

ghost use Rattle.std.specs.Prelude.{◌≡◌};
ghost use Rattle.dnp_plantext.specs.PlanReasons as spec;

use crate::plan_text::fields::{PlanFields, SubFields};
use crate::plan_text::place::{Found, PlanKey, PlanPlace};
use crate::plan_text::ranges::number_within;
use dnp_concentrator::{MAX_RETRIES, MAX_SUBSTATIONS, MAX_TIMER_MS, Plan, SubPlan};
use dnp_controls::MAX_OUTPUTS;
use dnp_eventbuf::MAX_CAPACITY;
use dnp_objects::CLASSES;
use dnp_pointdb::MAX_POINTS;

/// Whether the number is in this range.
#[tactic(auto, unfolding(crate::specs::PlanReasons::is_within))]
fn is_within(number: i64, least: u64, most: u64) -> bool
    ensures { result ≡ spec.is_within least most number }
{
    number_within(number, least, most).is_some()
}

/// The place of the number, if it is outside this range.
fn number_fault(
    substation: Option<usize>,
    key: PlanKey,
    number: i64,
    least: u64,
    most: u64,
) -> Option<PlanPlace>
    ensures { result ≡ spec.number_fault substation key least most number }
{
    if is_within(number, least, most) {
        return None;
    }
    Some(PlanPlace {
        substation,
        key,
        item: None,
        found: Found::Number(number),
    })
}

/// The first of the numbers that is outside this range.
fn item_fault(
    substation: Option<usize>,
    key: PlanKey,
    numbers: &[i64],
    least: u64,
    most: u64,
) -> Option<PlanPlace>
    ensures { result ≡ spec.item_fault substation key least most 0 numbers.now }
{
    for (item, number) in numbers.iter().enumerate() {
        if !is_within(*number, least, most) {
            return Some(PlanPlace {
                substation,
                key,
                item: Some(item),
                found: Found::Number(*number),
            });
        }
    }
    None
}

/// The place of a list that is too long, or its first class that doesn't fit 8 bits.
fn points_fault(substation: usize, key: PlanKey, classes: &[i64]) -> Option<PlanPlace>
    ensures { result ≡ spec.points_fault substation key classes.now }
{
    if classes.len() > MAX_POINTS {
        return Some(PlanPlace {
            substation: Some(substation),
            key,
            item: None,
            found: Found::Count(classes.len()),
        });
    }
    item_fault(Some(substation), key, classes, 0, 255)
}

/// The first number of a substation that is outside its range.
#[tactic(auto, unfolding(crate::specs::PlanReasons::sub_range_fault))]
fn sub_range_fault(number: usize, fields: &SubFields) -> Option<PlanPlace>
    ensures { result ≡ spec.sub_range_fault number fields.now }
{
    let here = Some(number);
    let rows = u64::from(MAX_CAPACITY);
    let outputs = u64::from(MAX_OUTPUTS);
    item_fault(here, PlanKey::Lanes, fields.lanes.as_slice(), 1, rows)
        .or(points_fault(number, PlanKey::Binary, fields.binary.as_slice()))
        .or(points_fault(number, PlanKey::Counter, fields.counter.as_slice()))
        .or(points_fault(number, PlanKey::Analog, fields.analog.as_slice()))
        .or(item_fault(
            here,
            PlanKey::Deadband,
            fields.deadband.as_slice(),
            0,
            4_294_967_295,
        ))
        .or(number_fault(here, PlanKey::Outputs, fields.outputs, 0, outputs))
        .or(number_fault(here, PlanKey::Setpoints, fields.setpoints, 0, outputs))
        .or(item_fault(here, PlanKey::Base, fields.base.as_slice(), 0, 65_535))
}

/// The first number of all substations that is outside its range.
fn subs_range_fault(all: &[SubFields]) -> Option<PlanPlace>
    ensures { result ≡ spec.subs_range_fault 0 all.now }
{
    for (number, fields) in all.iter().enumerate() {
        if let Some(place) = sub_range_fault(number, fields) {
            return Some(place);
        }
    }
    None
}

/// The place of the substations, if there are not 1 to [`MAX_SUBSTATIONS`].
fn count_fault(count: usize) -> Option<PlanPlace>
    ensures { result ≡ spec.count_fault count }
{
    if count != 0 && count <= MAX_SUBSTATIONS {
        return None;
    }
    Some(PlanPlace {
        substation: None,
        key: PlanKey::Substation,
        item: None,
        found: Found::Count(count),
    })
}

/// The first number that is outside its range.
#[tactic(auto, unfolding(crate::specs::PlanReasons::range_fault))]
pub(crate) fn range_fault(fields: &PlanFields) -> Option<PlanPlace>
    ensures { result ≡ spec.range_fault fields.now }
{
    let rows = u64::from(MAX_CAPACITY);
    let retries = u64::from(MAX_RETRIES);
    let substations = fields.substations.as_slice();
    number_fault(None, PlanKey::ConfirmMs, fields.confirm_ms, 1, MAX_TIMER_MS)
        .or(number_fault(
            None,
            PlanKey::ResponseMs,
            fields.response_ms,
            1,
            MAX_TIMER_MS,
        ))
        .or(number_fault(None, PlanKey::SelectMs, fields.select_ms, 1, MAX_TIMER_MS))
        .or(number_fault(None, PlanKey::Retries, fields.retries, 0, retries))
        .or(item_fault(None, PlanKey::Queue, fields.queue.as_slice(), 1, rows))
        .or(item_fault(None, PlanKey::Queue2, fields.queue2.as_slice(), 1, rows))
        .or(count_fault(substations.len()))
        .or(subs_range_fault(substations))
}

/// The first class over 3.
fn class_fault(substation: usize, key: PlanKey, classes: &[u8]) -> Option<PlanPlace>
    ensures { result ≡ spec.class_fault substation key 0 classes.now }
{
    for (item, class) in classes.iter().enumerate() {
        if *class > CLASSES {
            return Some(PlanPlace {
                substation: Some(substation),
                key,
                item: Some(item),
                found: Found::Number(i64::from(*class)),
            });
        }
    }
    None
}

/// The first class over 3 of a substation.
#[tactic(auto, unfolding(crate::specs::PlanReasons::sub_class_fault))]
fn sub_class_fault(number: usize, substation: &SubPlan) -> Option<PlanPlace>
    ensures { result ≡ spec.sub_class_fault number substation.now }
{
    class_fault(number, PlanKey::Binary, substation.binary.as_slice())
        .or(class_fault(number, PlanKey::Counter, substation.counter.as_slice()))
        .or(class_fault(number, PlanKey::Analog, substation.analog.as_slice()))
}

/// The first class over 3 of all substations.
pub(crate) fn subs_class_fault(plan: &Plan) -> Option<PlanPlace>
    ensures { result ≡ spec.subs_class_fault 0 plan.now.substations }
{
    for (number, substation) in plan.substations.as_slice().iter().enumerate() {
        if let Some(place) = sub_class_fault(number, substation) {
            return Some(place);
        }
    }
    None
}
