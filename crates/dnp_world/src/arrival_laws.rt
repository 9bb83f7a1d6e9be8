//! Laws of what comes up from the substations of a system. Each function does nothing, and its contract is a law.

ghost use Rattle.std.specs.Prelude.{◌≡◌, ℕ, [], true};
ghost use Rattle.dnp_line.specs.Lines.{delivered_on, repeated_on};
ghost use Rattle.dnp_world.specs.Behind.{Elsewhere};
ghost use Rattle.dnp_world.specs.declared.event.Link.TheVariants as link;
ghost use Rattle.dnp_world.specs.Happened.{HappenedAsEvents};
ghost use Rattle.dnp_world.specs.SystemEvents.{ComesUp};
ghost use Rattle.dnp_world.specs.SystemStanding.{IsStanding, Keeps};
ghost use Rattle.dnp_world.specs.Systems.{System, has_substation};

use crate::happened_laws::what_happened_is_what_stood;
use crate::joined_laws::events_without_a_sink_are_moves;
use crate::laws::link_law;
use crate::outstation_laws::an_append_is_moves;
use crate::system_laws::lists_are_of_links;
use dnp_concentrator::laws::{
    no_event_is_passed_over, rows_above_are_undone, rows_are_queued_as_lanes_carry_them,
};
use dnp_eventbuf::laws::an_append_conserves_rows;
use dnp_objects::Row;
use dnp_objects::laws::equality_is_decided;
use dnp_pointdb::laws::points_stay_sound;

/// What comes from a substation to the concentrator keeps what stands behind the system, where the unit leaves the line and where it
/// stays there: the events that the concentrator takes come into its queue, all of them, and full lanes there drop what is listed.
/// Each of them happened, so it is an event.
pub fn what_comes_from_a_substation_keeps_what_stands()
    ensures delivered { (old new : System) (el : Elsewhere) (substation : ℕ) → has_substation old substation ≡ true → IsStanding el old → HappenedAsEvents old
        → ComesUp delivered_on (link.Below substation) old new → Keeps el substation [] old new }
    ensures repeated { (old new : System) (el : Elsewhere) (substation : ℕ) → has_substation old substation ≡ true → IsStanding el old → HappenedAsEvents old
        → ComesUp repeated_on (link.Below substation) old new → Keeps el substation [] old new }
{
    lists_are_of_links();
    events_without_a_sink_are_moves();
    link_law();
    what_happened_is_what_stood();
    equality_is_decided::<u64, Row>();
    an_append_is_moves();
    an_append_conserves_rows();
    no_event_is_passed_over();
    rows_above_are_undone();
    rows_are_queued_as_lanes_carry_them();
    points_stay_sound();
}
