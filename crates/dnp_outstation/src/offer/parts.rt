//! What the headers of a READ ask for is put into a fragment, one header after another.

ghost use Rattle.std.specs.Prelude.{◌≡◌, ◌≢◌, ◌<◌, ◌+◌, ◌^◌, false, fold, map, length, IsTrue, IfOk, IfErr, Err, [], ℕ, Bool};
ghost use Rattle.dnp_appfragment.specs.Seen.{head};
ghost use Rattle.dnp_appfragment.specs.Table.{is_response};
ghost use Rattle.dnp_eventbuf.specs.EventBuffer.{rows_in};
ghost use Rattle.dnp_outstation.specs.Items.{Source, part_of, part_after, part_items, parts_left, items_of, given_after};
ghost use Rattle.dnp_outstation.specs.declared.offer.place.ReadPlace.{ReadPlace as PlaceValue};
ghost use Rattle.dnp_outstation.specs.Forms.{leaves_open};
ghost use Rattle.dnp_outstation.specs.steps.Filling.{after_release, empty_from, ended, reached};
ghost use Rattle.dnp_outstation.specs.steps.Grouping.{mark, opened};
ghost use Rattle.dnp_outstation.specs.Offer.{offered};
ghost use Rattle.dnp_outstation.specs.steps.Putting.{Puts, LeavesOpen};
ghost use Rattle.dnp_outstation.specs.Stores.{IsLook};

use crate::offer::fetched::Fetched;
use crate::offer::place::Wanted;
use crate::offer::present::Ask;
use crate::offer::rows::{Bounds, less};
use crate::offer::wanted::wanted;
use crate::offer::writer::Writer;
use dnp_appfragment::{Header, Headers};
use dnp_controls::Outputs;
use dnp_eventbuf::{Lanes, Numbered, StoreFault, Upto};
use dnp_pointdb::PointDb;
use std::alloc::Global;

/// What a READ is answered from beside the lanes: the points and outputs as they stand, the last id in
/// the lanes when it was first answered, and what is released before the fragment is sent.
#[derive(Clone, Copy)]
pub struct Stand<'a, O> {
    pub points: &'a PointDb,
    pub outputs: &'a O,
    pub stood: u64,
    pub released: &'a Option<Upto>,
}

impl Writer {
    /// Puts what a header of the READ asks for but for the first so many items, as far as they fit;
    /// answers whether all do.
    fn put_part<L: Lanes, O: Outputs>(
        &mut self,
        alloc: Global,
        lanes: &mut L,
        rows: &mut Vec<Numbered>,
        from: &Stand<'_, O>,
        at: usize,
        count: u32,
        header: &Header<'_>,
    ) -> Result<bool, StoreFault>
        requires { IsTrue (is_response self.old.builder.function) }
        ensures written { L.honest lanes.new → IfOk result (λ fit. (s : Source) → s.points ≡ from.now.points.now → s.panel ≡ O.panel from.now.outputs.now
            → s.lanes ≡ after_release (L.contents lanes.old) from.now.released.now
            → Puts self.old (mark (leaves_open (head header.now)) (part_items s from.now.stood (reached self.old) at (part_after count (part_of s (head header.now))))) fit self.new) }
        ensures given { L.honest lanes.new → IfOk result (λ fit. (s : Source) → s.points ≡ from.now.points.now → s.panel ≡ O.panel from.now.outputs.now
            → s.lanes ≡ after_release (L.contents lanes.old) from.now.released.now
            → IsTrue fit → reached self.new ≡ fold given_after (reached self.old) (part_items s from.now.stood (reached self.old) at (part_after count (part_of s (head header.now))))) }
        ensures response { self.new.builder.function ≡ self.old.builder.function }

        ensures look { IsLook L.honest L.is_stopped L.contents L.beside L.place L.asks_memory L.may_fault lanes.old lanes.new result }
    {
        match wanted(header) {
            Wanted::Rows(mut part) => {
                part.most = less(part.most, count as usize);
                let given = self.reached();
                let bounds = Bounds {
                    given: &given,
                    stood: from.stood,
                    released: from.released,
                };
                self.put_lanes(alloc, lanes, rows, at, &part, &bounds)
            }
            Wanted::EachGroup => Ok(self.put_each_group(at, from.points, from.outputs, count)),
            Wanted::OneGroup(group, variation, range) => {
                let ask = Ask {
                    header: at,
                    variation,
                    range,
                };
                Ok(self.put_one_group(ask, group, from.points, from.outputs, count))
            }
        }
    }

    /// Puts what these headers of the READ ask for, the first of which has this place in it, but for the
    /// first so many items of that one, as far as they fit; answers whether all do.
    fn put_headers<L: Lanes, O: Outputs>(
        &mut self,
        alloc: Global,
        lanes: &mut L,
        rows: &mut Vec<Numbered>,
        from: &Stand<'_, O>,
        first: usize,
        given: u32,
        headers: Headers<'_>,
    ) -> Result<bool, StoreFault>
        requires response { IsTrue (is_response self.old.builder.function) }
        requires few { first + length headers.headers < 2 ^ 64 }
        ensures written { L.honest lanes.new → IfOk result (λ fit. (s : Source) → s.points ≡ from.now.points.now → s.panel ≡ O.panel from.now.outputs.now
            → s.lanes ≡ after_release (L.contents lanes.old) from.now.released.now
            → (may : ℕ → Bool) → LeavesOpen may first headers.entry.headers
            → Puts self.old (map (opened may) (items_of s from.now.stood (reached self.old) first (parts_left given (map (part_of s) headers.entry.headers)))) fit self.new) }
        ensures response { self.new.builder.function ≡ self.old.builder.function }

        ensures look { IsLook L.honest L.is_stopped L.contents L.beside L.place L.asks_memory L.may_fault lanes.old lanes.new result }
    {
        let mut at = first;
        let mut count = given;
        for header in headers {
            if !self.put_part(alloc, lanes, rows, from, at, count, &header)? {
                return Ok(false);
            }
            at += 1;
            count = 0;
        }
        Ok(true)
    }
}

/// Puts into an empty fragment what a READ still asks for that has come to the fragment's place, as far
/// as it fits; answers whether that is all. Only the lanes may be out of memory, and in memory not where
/// they hold no row.
pub(crate) fn put_parts<L: Lanes, O: Outputs>(
    writer: &mut Writer,
    alloc: Global,
    lanes: &mut L,
    fetched: &mut Fetched,
    from: &Stand<'_, O>,
    headers: Headers<'_>,
) -> Result<bool, StoreFault>
    requires response { IsTrue (is_response writer.old.builder.function) }
    requires few { length headers.headers < 2 ^ 64 }
    ensures offered { L.honest lanes.new → IfOk result (λ is_last. (place : PlaceValue) → writer.old ≡ empty_from place → ended is_last writer.new
        ≡ offered (record { points = from.now.points.now; panel = O.panel from.now.outputs.now; lanes = after_release (L.contents lanes.old) from.now.released.now })
        from.now.stood place headers.entry.headers) }
    ensures response { writer.new.builder.function ≡ writer.old.builder.function }
    ensures look { IsLook L.honest L.is_stopped L.contents L.beside L.place L.asks_memory L.may_fault lanes.old lanes.new result }
{
    let first = writer.place.header;
    let given = writer.place.count;
    let left = headers.after(first);
    let rows = fetched.rows(alloc);
    if !writer.put_headers(alloc, lanes, rows, from, first, given, left)? {
        return Ok(false);
    }
    Ok(writer.settle())
}
