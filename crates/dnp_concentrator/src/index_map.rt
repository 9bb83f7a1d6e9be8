//! The index map between the substations and the station above them.

ghost use Rattle.std.specs.Prelude.{◌≡◌, ◌↔◌, ◌≤◌, ◌<◌, ◌+◌, ℕ, IfOk, IfSome, IsTrue, true, Any, Err, length, map, slice_index_or};
ghost use Rattle.dnp_concentrator.specs.declared.index_kind.IndexKind.{IndexKind as KindValue};
ghost use Rattle.dnp_concentrator.specs.IndexMap.{IsMap, IsWide, IsTooWide, Meet, ShareIndex, Overlaps, no_spans, span_of, index_above, index_below};
ghost use Rattle.dnp_concentrator.specs.steps.Order.{AreOrders};
ghost use Rattle.dnp_concentrator.specs.Plan.{map_of, spans_of, KeepsLimits};

use crate::fault::MapFault;
use crate::index_kind::IndexKind;
use crate::limits::MAX_SUBSTATIONS;
use crate::order::{SortedSpans, find, order_of};
use crate::plan::{Plan, SubPlan};
use crate::span::{Span, Spans};
use dnp_pointdb::INDICES;
use std::alloc::{AllocError, Global};
use std::marker::Model;

/// Which index above stands for which index of a substation (IEEE Std 1815-2012, object library: point
/// indices): a substation's index of a kind stands above as its base of that kind plus the index.
///
/// An index above is looked up by binary search among the substations that have indices of its kind, by rising
/// base; an index of a substation by the substation's number.
///
/// A clause sees, for each substation by its number, where its indices of each kind stand above.
#[derive(Debug)]
pub struct IndexMap {
    /// Where the indices of each substation stand, by its number.
    spans: Vec<Spans>,
    /// How indices above are looked up.
    orders: SortedSpans,
}

impl Model for IndexMap {
    ghost use Rattle.std.specs.Prelude.{◌≤◌, List, length};
    ghost use Rattle.dnp_concentrator.specs.declared.limits.TheConstants.{MAX_SUBSTATIONS};
    ghost use Rattle.dnp_concentrator.specs.declared.span.Spans.{Spans};
    ghost use Rattle.dnp_concentrator.specs.IndexMap.{IsMap};
    ghost use Rattle.dnp_concentrator.specs.steps.Order.{AreOrders};

    ghost Value = { List Spans };

    ghost view = { λ map. map.spans.items };

    ghost invariant = { λ map. IsMap map.spans.items × (length map.spans.items ≤ MAX_SUBSTATIONS) × AreOrders map.spans.items map.orders };
}

impl Drop for IndexMap {
    /// One call for whoever lets it go: its parts are looked at here alone.
    fn drop(self) {
        let IndexMap {
            spans: _,
            orders: _,
        } = self;
    }
}

/// Whether the span has an index over the highest.
fn is_wide(span: Span) -> bool
    ensures { IsTrue result ↔ (INDICES < span.base + span.count) }
{
    usize::from(span.base) > INDICES || span.count > INDICES - usize::from(span.base)
}

/// Whether a substation has an index of this kind over the highest.
fn some_too_wide(substations: &[SubPlan], kind: IndexKind) -> bool
    ensures { IsTrue result ↔ Any (λ substation. IsWide kind (spans_of substation)) substations.now }
{
    substations
        .iter()
        .any(|substation| is_wide(substation.spans().of(kind)))
}

/// Whether a substation has an index over the highest.
fn is_too_wide(substations: &[SubPlan]) -> bool
    ensures { IsTrue result ↔ IsTooWide (map spans_of substations.now) }
{
    IndexKind::ALL
        .iter()
        .any(|kind| some_too_wide(substations, *kind))
}

/// Whether the two spans have an index in common.
fn meet(one: Span, other: Span) -> bool
    ensures { IsTrue result ↔ Meet one other }
{
    let first = usize::from(one.base.max(other.base));
    first.saturating_sub(usize::from(one.base)) < one.count
        && first.saturating_sub(usize::from(other.base)) < other.count
}

/// Whether the substation has an index of this kind above in common with the span.
fn meets(span: Span, other: &SubPlan, kind: IndexKind) -> bool
    ensures { IsTrue result ↔ Meet span (span_of (spans_of other.now) kind) }
{
    meet(span, other.spans().of(kind))
}

/// Whether one of the substations has an index of this kind above in common with the span.
fn is_met(span: Span, substations: &[SubPlan], kind: IndexKind) -> bool
    ensures { IsTrue result ↔ Any (λ other. Meet span (span_of (spans_of other) kind)) substations.now }
{
    substations.iter().any(|other| meets(span, other, kind))
}

/// Whether two substations have an index of this kind above in common.
fn share_index(substations: &[SubPlan], kind: IndexKind) -> bool
    ensures { IsTrue result ↔ ShareIndex kind (map spans_of substations.now) }
{
    for (number, substation) in substations.iter().enumerate() {
        let span = substation.spans().of(kind);
        if is_met(span, &substations[number + 1..], kind) {
            return true;
        }
    }
    false
}

/// Whether two substations have an index above in common.
fn is_overlapping(substations: &[SubPlan]) -> bool
    ensures { IsTrue result ↔ Overlaps (map spans_of substations.now) }
{
    IndexKind::ALL
        .iter()
        .any(|kind| share_index(substations, *kind))
}

/// Where the indices of each substation stand above.
fn spans_of_each(alloc: Global, substations: &[SubPlan]) -> Result<Vec<Spans>, AllocError>
    ensures { IfOk result (λ spans. spans.items ≡ map spans_of substations.now) }
{
    let mut spans = Vec::with_capacity(alloc, substations.len())?;
    for substation in substations {
        spans.push(substation.spans())?;
    }
    Ok(spans)
}

/// How the indices of each kind are looked up.
fn orders_of(alloc: Global, spans: &[Spans]) -> Result<SortedSpans, AllocError>
    requires few { length spans.now ≤ MAX_SUBSTATIONS }
    requires map { IsMap spans.now }
    ensures { IfOk result (AreOrders spans.now) }
{
    Ok(SortedSpans {
        of_kinds: [
            order_of(alloc, IndexKind::Binary, spans)?,
            order_of(alloc, IndexKind::Counter, spans)?,
            order_of(alloc, IndexKind::Analog, spans)?,
            order_of(alloc, IndexKind::Output, spans)?,
            order_of(alloc, IndexKind::Setpoint, spans)?,
        ],
    })
}

impl IndexMap {
    ghost use Rattle.std.specs.Prelude.{option_map};

    /// The index map of a plan that keeps its limits (`Plan::keeps_limits`).
    ///
    /// Refused is, first of all, an index above over 65,535 (`TooWide`), and then an index above of one kind that two
    /// substations would share (`Overlap`). A kind of which a substation has nothing is neither. After these it may be
    /// out of memory (`Memory`).
    pub fn new(alloc: Global, plan: &Plan) -> Result<IndexMap, MapFault>
        requires { KeepsLimits plan.now }
        ensures found { IfOk result (λ map. map ≡ map_of plan.now) }
        ensures too_wide { (result ≡ Err MapFault.TooWide) ↔ IsTooWide (map_of plan.now) }
        ensures overlap { (result ≡ Err MapFault.Overlap) ↔ (Overlaps (map_of plan.now) × (IsTooWide (map_of plan.now) → ⊥)) }
    {
        let substations = plan.substations.as_slice();
        if is_too_wide(substations) {
            return Err(MapFault::TooWide);
        }
        if is_overlapping(substations) {
            return Err(MapFault::Overlap);
        }
        let Ok(spans) = spans_of_each(alloc, substations) else {
            return Err(MapFault::Memory);
        };
        let Ok(orders) = orders_of(alloc, &spans) else {
            return Err(MapFault::Memory);
        };
        Ok(IndexMap { spans, orders })
    }

    /// How many substations there are, at most 16.
    pub fn substations(&self) -> usize
        ensures value { result ≡ length self.now }
        ensures few { result ≤ MAX_SUBSTATIONS }
        ensures map { IsMap self.now }
    {
        self.spans.len()
    }

    /// A substation's index of a kind as it stands above: the substation's base of that kind plus the index. `None` where
    /// the substation has no such index.
    pub fn above(&self, substation: u8, kind: IndexKind, index: u16) -> Option<u16>
        ensures { result ≡ index_above self.now substation kind index }
    {
        self.spans_of(substation).above(kind, index)
    }

    /// Where the indices of the substation with this number stand above; a number that is no substation's has none.
    pub(crate) fn spans_of(&self, substation: u8) -> Spans
        ensures spans { result ≡ slice_index_or self.now substation no_spans }
        ensures narrow { (kind : KindValue) → (span_of result kind).base + (span_of result kind).count ≤ INDICES }
    {
        match self.spans.get(usize::from(substation)) {
            Some(spans) => *spans,
            None => Spans::none(),
        }
    }

    /// The number of the substation that an index above is of, below 16, and which index it is there. `None` where it
    /// is of no substation.
    pub fn below(&self, kind: IndexKind, index: u16) -> Option<(u8, u16)>
        ensures value { result ≡ index_below self.now kind index }
        ensures substation { IfSome result (λ found. found.0 < MAX_SUBSTATIONS) }
    {
        find(self.orders.of(kind), index)
    }
}
