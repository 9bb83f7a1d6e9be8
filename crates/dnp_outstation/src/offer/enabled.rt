//! The rows of an unsolicited response: those of the classes that are enabled, as far as they fit.

ghost use Rattle.std.specs.Prelude.{if◌then◌else◌, ◌≡◌, ◌≢◌, ◌<◌, ◌≤◌, ◌-◌, false, true, IsTrue, IfOk, IfErr, IfSome, Err, [], length};
ghost use Rattle.dnp_appfragment.specs.declared.function.Function.TheVariants as function;
ghost use Rattle.dnp_appfragment.specs.Table.{is_response};
ghost use Rattle.dnp_eventbuf.specs.Sound.{IsSoundBuffer};
ghost use Rattle.dnp_eventbuf.specs.EventBuffer.{rows_in};
ghost use Rattle.dnp_outstation.specs.Items.{class_lanes, lane_items, enabled_lanes, first_place};
ghost use Rattle.dnp_outstation.specs.steps.Filling.{after_release, empty_for, ended};
ghost use Rattle.dnp_outstation.specs.steps.Grouping.{mark};
ghost use Rattle.dnp_outstation.specs.Offer.{pushed};
ghost use Rattle.dnp_outstation.specs.steps.Putting.{Puts};
ghost use Rattle.dnp_outstation.specs.Stores.{IsLook};

use crate::offer::fetched::Fetched;
use crate::offer::place::RowPart;
use crate::offer::rows::Bounds;
use crate::offer::wanted::of_class;
use crate::offer::writer::Writer;
use dnp_eventbuf::laws::lanes_stay_sound;
use dnp_eventbuf::{Lanes, Numbered, StoreFault, Upto};
use dnp_objects::LANES;
use std::alloc::Global;

/// A release has an id for each of the nine lanes.
fn has_nine(released: &Option<Upto>)
    ensures { IfSome released.now (λ upto. length upto ≡ LANES) }
{
    if let Some(upto) = released {
        let _first = upto[0];
    }
}

impl Writer {
    /// Puts the rows of a class, 0 to 2, if it is enabled, as its lanes are after the release, as far as they
    /// fit; answers whether all do.
    fn put_class<L: Lanes>(
        &mut self,
        alloc: Global,
        lanes: &mut L,
        rows: &mut Vec<Numbered>,
        class: u8,
        is_enabled: bool,
        released: &Option<Upto>,
    ) -> Result<bool, StoreFault>
        requires response { IsTrue (is_response self.old.builder.function) }
        requires class { class < 3 }
        requires sound { L.honest lanes.old → IsSoundBuffer (L.contents lanes.old) }
        ensures written { L.honest lanes.new → IfOk result (λ fit. Puts self.old
            (mark true (lane_items (after_release (L.contents lanes.old) released.now) (if is_enabled then class_lanes class else []))) fit self.new) }
        ensures response { self.new.builder.function ≡ self.old.builder.function }
        ensures look { IsLook L.honest L.is_stopped L.contents L.beside L.place L.asks_memory L.may_fault lanes.old lanes.new result }
    {
        if !is_enabled {
            return Ok(true);
        }
        has_nine(released);
        lanes_stay_sound();
        let part = RowPart {
            lanes: of_class(class + 1),
            most: None,
            is_open: true,
        };
        let bounds = Bounds {
            given: &[0; LANES],
            stood: u64::MAX,
            released,
        };
        self.put_lanes(alloc, lanes, rows, 0, &part, &bounds)
    }

    /// Puts the rows of the enabled classes, as the lanes are after the release, as far as they fit;
    /// answers whether all do.
    fn put_classes<L: Lanes>(
        &mut self,
        alloc: Global,
        lanes: &mut L,
        rows: &mut Vec<Numbered>,
        enabled: [bool; 3],
        released: &Option<Upto>,
    ) -> Result<bool, StoreFault>
        requires response { IsTrue (is_response self.old.builder.function) }
        requires sound { L.honest lanes.old → IsSoundBuffer (L.contents lanes.old) }
        ensures written { L.honest lanes.new → IfOk result (λ fit. Puts self.old
            (mark true (lane_items (after_release (L.contents lanes.old) released.now) (enabled_lanes 0 enabled))) fit self.new) }
        ensures response { self.new.builder.function ≡ self.old.builder.function }
        ensures look { IsLook L.honest L.is_stopped L.contents L.beside L.place L.asks_memory L.may_fault lanes.old lanes.new result }
    {
        for class in 0..3_u8 {
            let is_enabled = enabled[usize::from(class)];
            if !self.put_class(alloc, lanes, rows, class, is_enabled, released)? {
                return Ok(false);
            }
        }
        Ok(true)
    }
}

/// Puts into an empty unsolicited response the rows of the enabled classes, as the lanes are after the
/// release, as far as they fit; answers whether all do. Only the lanes may be out of memory, and in memory
/// not where they hold no row.
pub(crate) fn put_enabled<L: Lanes>(
    writer: &mut Writer,
    alloc: Global,
    lanes: &mut L,
    fetched: &mut Fetched,
    enabled: [bool; 3],
    released: &Option<Upto>,
) -> Result<bool, StoreFault>
    requires { IsTrue (is_response writer.old.builder.function) }
    ensures pushed { L.honest lanes.new → IfOk result (λ is_last. writer.old ≡ empty_for function.UnsolicitedResponse first_place
        → ended is_last writer.new ≡ pushed (after_release (L.contents lanes.old) released.now) enabled) }
    ensures response { writer.new.builder.function ≡ writer.old.builder.function }
    ensures look { IsLook L.honest L.is_stopped L.contents L.beside L.place L.asks_memory L.may_fault lanes.old lanes.new result }
{
    // Whatever the lanes say without a refusal says that ids rise from 1 on.
    let _raised = lanes.raised();
    let rows = fetched.rows(alloc);
    if !writer.put_classes(alloc, lanes, rows, enabled, released)? {
        return Ok(false);
    }
    Ok(writer.settle())
}
