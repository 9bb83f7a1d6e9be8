//! Laws of a poll of events, for whoever sees a quiet link from outside. Each function does nothing, and its contract
//! is a law.

ghost use Rattle.std.specs.Prelude.{◌≡◌, ◌<◌, ◌≤◌, ℕ, Bool, List, length, false, true, Some};
ghost use Rattle.dnp_appfragment.specs.EventRows.{events_in as rows_said};
ghost use Rattle.dnp_appfragment.specs.Fragments.{confirmation, request_octets};
ghost use Rattle.dnp_controls.specs.Panel.{Panel};
ghost use Rattle.dnp_eventbuf.specs.Sound.{IsSoundBuffer};
ghost use Rattle.dnp_eventbuf.specs.EventBuffer.{EventBuffer, all_up_to};
ghost use Rattle.dnp_outstation.specs.Calls.{connection_after};
ghost use Rattle.dnp_outstation.specs.Connection.{case_of, is_last_request};
ghost use Rattle.dnp_outstation.specs.Content.{source_of};
ghost use Rattle.dnp_outstation.specs.Forms.{may_each};
ghost use Rattle.dnp_outstation.specs.Items.{enabled_lanes, lane_items};
ghost use Rattle.dnp_outstation.specs.Layout.{headers_of};
ghost use Rattle.dnp_outstation.specs.Offer.{held_laid};
ghost use Rattle.dnp_outstation.specs.Polled.{Awaits, Offers, ReleasesPolled, confirm_octets, poll_octets, polled_ids, reported};
ghost use Rattle.dnp_outstation.specs.Said.{AreWritable};
ghost use Rattle.dnp_outstation.specs.State.{Core, State, is_quiet};
ghost use Rattle.dnp_outstation.specs.declared.case.Case.TheVariants as case;
ghost use Rattle.dnp_outstation.specs.declared.session.Unsolicited.{Unsolicited};

use crate::laws::{a_release_takes_what_the_octets_said, octets_say_what_is_held};
use crate::link_laws::{
    a_confirm_releases_what_its_fragment_reported, commands_are_performed_as_they_are_asked,
};
use dnp_appfragment::laws::{octets_say_their_control_and_function, what_is_spelled_is_said};

/// A quiet outstation answers a READ of classes 1, 2 and 3 that isn't its last request with the first rows of its lanes, one
/// lane after another, as many as fit into a fragment. The confirm of that fragment takes just these out of the lanes. As its
/// last request the READ is recognized again.
pub fn a_quiet_outstation_offers_its_events()
    ensures offered { (s : State) (o : Panel) (now seq : ℕ) → IsSoundBuffer s.lanes → AreWritable (source_of s o)
        → is_quiet s.core ≡ true → seq < 16 → is_last_request s.core.session (poll_octets seq) ≡ false
        → Offers seq s (connection_after s o now (poll_octets seq)) }
    ensures again { (c : Core) (seq : ℕ) → seq < 16 → c.is_open ≡ true
        → is_last_request c.session (poll_octets seq) ≡ true → case_of c (poll_octets seq) ≡ case.Again }
    ensures confirmed { (s : State) (o : Panel) (now seq : ℕ) → seq < 16 → IsSoundBuffer s.lanes → s.core.is_open ≡ true
        → Awaits seq (polled_ids s.lanes) s → ReleasesPolled s (connection_after s o now (confirm_octets seq)) }
{
    octets_say_their_control_and_function();
    what_is_spelled_is_said();
    a_release_takes_what_the_octets_said();
    a_confirm_releases_what_its_fragment_reported();
    commands_are_performed_as_they_are_asked();
}

/// What a fragment holds of the rows of these classes: its octets say them in the order of the lanes, and a release of its ids
/// takes them in this order. The confirm of an unsolicited response is known by its number.
pub fn a_fragment_of_classes_is_said_and_released()
    ensures said { (s : EventBuffer) (enabled : List Bool) → IsSoundBuffer s → length enabled ≤ 3
        → rows_said (headers_of (held_laid may_each (lane_items s (enabled_lanes 0 enabled)))) ≡ (reported s enabled).rows }
    ensures released { (s : EventBuffer) (enabled : List Bool) → IsSoundBuffer s → length enabled ≤ 3
        → all_up_to s (reported s enabled).ids ≡ (reported s enabled).rows }
    ensures confirmed { (c : Core) (seq : ℕ) (w : Unsolicited) → seq < 16 → c.is_open ≡ true
        → c.session.unsolicited ≡ Some w → w.seq ≡ seq
        → case_of c (request_octets (confirmation seq true)) ≡ case.ConfirmsUnsolicited }
{
    octets_say_their_control_and_function();
    octets_say_what_is_held();
}
