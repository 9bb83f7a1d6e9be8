//! How an index above is looked up.

ghost use Rattle.std.specs.Prelude.{◌≡◌, ◌≤◌, List, IfOk, length};
ghost use Rattle.std.specs.List.Sorted.{IsNonDecreasingBy};
ghost use Rattle.dnp_concentrator.specs.declared.index_kind.IndexKind.{IndexKind as KindValue};
ghost use Rattle.dnp_concentrator.specs.declared.span.Spans.{Spans as SpansValue};
ghost use Rattle.dnp_concentrator.specs.IndexMap.{IsApart, index_below};
ghost use Rattle.dnp_concentrator.specs.steps.Order.{IsOrder, order_in};

use crate::index_kind::IndexKind;
use crate::limits::{INDEX_KINDS, MAX_SUBSTATIONS};
use crate::span::Spans;
use dnp_pointdb::laws::an_order_finds_each_index;
use std::alloc::{AllocError, Global};

/// Where a substation's indices of a kind stand above.
#[derive(Clone, Copy, Debug)]
pub struct SpanPlace {
    /// The index above of the first.
    pub first: u16,
    /// How many they are, at least 1.
    pub count: usize,
    /// The substation's number.
    pub substation: u8,
}

/// The places of the substations that have indices of this kind, by rising base.
pub fn order_of(
    alloc: Global,
    kind: IndexKind,
    spans: &[Spans],
) -> Result<Vec<SpanPlace>, AllocError>
    requires few { length spans.now ≤ MAX_SUBSTATIONS }
    requires apart { IsApart kind spans.now }
    ensures { IfOk result (λ order. IsOrder kind spans.now order.items) }
{
    let mut order = Vec::new(alloc);
    for (number, substation) in spans.iter().enumerate() {
        let span = substation.of(kind);
        if span.count > 0 {
            order.push(SpanPlace {
                first: span.base,
                count: span.count,
                substation: number as u8,
            })?;
        }
    }
    order.sort_unstable_by_key(|place| place.first);
    Ok(order)
}

/// How the indices of each kind are looked up, by the kind's number.
#[derive(Debug, Drop)]
pub struct SortedSpans {
    /// The places of each kind.
    pub of_kinds: [Vec<SpanPlace>; INDEX_KINDS],
}

impl SortedSpans {
    /// Those of this kind.
    pub fn of(&self, kind: IndexKind) -> &[SpanPlace]
        ensures { result.now ≡ order_in self.now kind }
    {
        self.of_kinds[kind.number()].as_slice()
    }
}

/// The number of the substation whose index this is above, and which one it is there.
pub fn find(order: &[SpanPlace], index: u16) -> Option<(u8, u16)>
    requires { IsNonDecreasingBy (λ place. place.first) order.now }
    ensures { (kind : KindValue) (spans : List SpansValue) → IsOrder kind spans order.now → result ≡ index_below spans kind index }
{
    // (a law, for the proof: it does nothing)
    an_order_finds_each_index();
    let last = order
        .partition_point(|place| place.first <= index)
        .checked_sub(1)?;
    let place = order[last];
    let offset = index - place.first;
    if usize::from(offset) < place.count {
        Some((place.substation, offset))
    } else {
        None
    }
}
