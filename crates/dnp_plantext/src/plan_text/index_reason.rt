//! The first indices of a plan that end over the highest above, or that another substation has too.

ghost use Rattle.std.specs.Prelude.{◌≡◌, ◌+◌, nat_lt};
ghost use Rattle.dnp_concentrator.specs.IndexMap.{is_in};
ghost use Rattle.dnp_concentrator.specs.Plan.{spans_of};
ghost use Rattle.dnp_plantext.specs.PlanReasons as spec;

use crate::plan_text::place::{Found, PlanKey, PlanPlace};
use dnp_concentrator::{IndexKind, Plan, Span, SubPlan};
use dnp_pointdb::INDICES;

/// Whether the span has an index over the highest.
fn is_wide(span: Span) -> bool
    ensures { result ≡ nat_lt INDICES (span.base + span.count) }
{
    usize::from(span.base) > INDICES || span.count > INDICES - usize::from(span.base)
}

/// Whether the span has this index.
fn has_index(span: Span, index: u16) -> bool
    ensures { result ≡ is_in span index }
{
    span.base <= index && usize::from(index - span.base) < span.count
}

/// Whether the two spans have an index in common.
fn meet(one: Span, other: Span) -> bool
    ensures { result ≡ spec.meet one other }
{
    let first = one.base.max(other.base);
    has_index(one, first) && has_index(other, first)
}

/// The place of a substation's indices of a kind, if they end over the highest.
fn wide_fault(number: usize, substation: &SubPlan, kind: IndexKind) -> Option<PlanPlace>
    ensures { result ≡ spec.wide_fault number (spans_of substation.now) kind }
{
    let span = substation.spans().of(kind);
    if !is_wide(span) {
        return None;
    }
    Some(PlanPlace {
        substation: Some(number),
        key: PlanKey::Base,
        item: Some(kind.number()),
        found: Found::Indices(span),
    })
}

/// The first of a substation's indices that end over the highest.
#[tactic(auto, unfolding(crate::specs::PlanReasons::sub_wide_fault))]
fn sub_wide_fault(number: usize, substation: &SubPlan) -> Option<PlanPlace>
    ensures { result ≡ spec.sub_wide_fault number (spans_of substation.now) }
{
    wide_fault(number, substation, IndexKind::Binary)
        .or(wide_fault(number, substation, IndexKind::Counter))
        .or(wide_fault(number, substation, IndexKind::Analog))
        .or(wide_fault(number, substation, IndexKind::Output))
        .or(wide_fault(number, substation, IndexKind::Setpoint))
}

/// The first indices of all substations that end over the highest.
pub(crate) fn subs_wide_fault(plan: &Plan) -> Option<PlanPlace>
    ensures { result ≡ spec.subs_wide_fault 0 plan.now.substations }
{
    for (number, substation) in plan.substations.as_slice().iter().enumerate() {
        if let Some(place) = sub_wide_fault(number, substation) {
            return Some(place);
        }
    }
    None
}

/// Where a substation's indices of a kind are, if another one has one of them too.
fn shared_fault(all: &[SubPlan], number: usize, span: Span, kind: IndexKind) -> Option<PlanPlace>
    ensures { result ≡ spec.shared_fault number kind span 0 all.now }
{
    for (other, substation) in all.iter().enumerate() {
        if other != number && meet(span, substation.spans().of(kind)) {
            return Some(PlanPlace {
                substation: Some(number),
                key: PlanKey::Base,
                item: Some(kind.number()),
                found: Found::Shared(other),
            });
        }
    }
    None
}

/// The first of a substation's indices of which another one has one too.
#[tactic(auto, unfolding(crate::specs::PlanReasons::sub_shared_fault))]
fn sub_shared_fault(all: &[SubPlan], number: usize, substation: &SubPlan) -> Option<PlanPlace>
    ensures { result ≡ spec.sub_shared_fault all.now number (spans_of substation.now) }
{
    let spans = substation.spans();
    shared_fault(all, number, spans.binary, IndexKind::Binary)
        .or(shared_fault(all, number, spans.counter, IndexKind::Counter))
        .or(shared_fault(all, number, spans.analog, IndexKind::Analog))
        .or(shared_fault(all, number, spans.output, IndexKind::Output))
        .or(shared_fault(all, number, spans.setpoint, IndexKind::Setpoint))
}

/// The first indices of all substations of which another one has one too.
pub(crate) fn subs_shared_fault(plan: &Plan) -> Option<PlanPlace>
    ensures { result ≡ spec.subs_shared_fault plan.now.substations 0 plan.now.substations }
{
    let all = plan.substations.as_slice();
    for (number, substation) in all.iter().enumerate() {
        if let Some(place) = sub_shared_fault(all, number, substation) {
            return Some(place);
        }
    }
    None
}
