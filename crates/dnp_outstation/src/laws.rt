//! Laws of the words of `specs/`: each function does nothing, and its contract is a law.
ghost use Rattle.std.specs.Prelude.{◌≡◌, ◌≢◌, ◌↔◌, ◌≤◌, ℕ, Bool, true, All, List, [], ◌++◌, length, map, Option, None, Some, Ok};
ghost use Rattle.std.specs.List.Sorted.{IsPermutation};
ghost use Rattle.dnp_objects.specs.declared.lane.LaneRow.{LaneRow};
ghost use Rattle.dnp_objects.specs.declared.limits.TheConstants.{LANES};
ghost use Rattle.dnp_objects.specs.declared.row.Kind.{Kind};
ghost use Rattle.dnp_pointdb.specs.declared.reading.Reading.{Reading};
ghost use Rattle.dnp_controls.specs.Panel.{Panel};
ghost use Rattle.dnp_appfragment.specs.Control.{IsControl};
ghost use Rattle.dnp_appfragment.specs.EventRows.{events_in as rows_said};
ghost use Rattle.dnp_appfragment.specs.Fragments.{Answered, response_octets};
ghost use Rattle.dnp_appfragment.specs.Headers.{Head};
ghost use Rattle.dnp_appfragment.specs.Items.{HoldAll};
ghost use Rattle.dnp_appfragment.specs.Meaning.{response_at};
ghost use Rattle.dnp_appfragment.specs.Table.{is_response};
ghost use Rattle.dnp_eventbuf.specs.Sound.{IsSoundBuffer};
ghost use Rattle.dnp_eventbuf.specs.EventBuffer.{EventBuffer, all_up_to, with_rows, without, without_all};
ghost use Rattle.dnp_outstation.specs.declared.offer.place.ReadPlace.{ReadPlace};
ghost use Rattle.dnp_outstation.specs.declared.session.Awaited.{Awaited};
ghost use Rattle.dnp_outstation.specs.declared.session.LastRequest.{LastRequest};
ghost use Rattle.dnp_outstation.specs.Forms.{CanGo, may_in, may_each, laid};
ghost use Rattle.dnp_outstation.specs.Items.{Source, Item, no_ids, items_left, enabled_lanes, lane_items};
ghost use Rattle.dnp_outstation.specs.Layout.{Laid, item_of, object_of, headers_of, response_size, fits_fragment};
ghost use Rattle.dnp_outstation.specs.Offer.{held_laid, held_of, offered_of, offered, pushed};
ghost use Rattle.dnp_outstation.specs.Laws.{IsLongest, rows_by_lane, AreRowsUpto, IsTidy, LeavesOnly, AreNext, IsOnward, AreGiven, AreBefore};
ghost use Rattle.dnp_outstation.specs.Said.{events_in, AreWritable};
ghost use Rattle.dnp_outstation.specs.State.{State};
ghost use Rattle.dnp_outstation.specs.Connection.{closed};
ghost use Rattle.dnp_outstation.specs.Calls.{connection_after, tick_of, change_of, opened_of, restart_of};
ghost use Rattle.dnp_outstation.specs.Tidy.{LeavesNothing};

use dnp_appfragment::laws::{
    a_common_time_stays, a_header_holds_what_was_put, what_is_held_is_read, what_is_put_is_held,
    what_is_put_stands_in_a_response, what_is_spelled_is_said, what_is_there_is_said,
};
use dnp_eventbuf::laws::{a_release_is_lane_by_lane, ids_are_used_once, lanes_stay_sound};

/// A fragment holds the longest beginning of the items left that fits: with one item more it wouldn't,
/// since a response with more items is no smaller. Nothing is left exactly where it holds them all, and
/// where no item was left it is empty and the last.
pub fn a_fragment_holds_as_much_as_fits()
    ensures longest { (may : ℕ → Bool) (items : List Item) → IsLongest fits_fragment (laid may items) (held_laid may items) }
    ensures grows { (held more : List Laid) → response_size held ≤ response_size (held ++ more) }
    ensures last { (may : ℕ → Bool) (place : ReadPlace) (items : List Item) → ((offered_of may place items).left ≡ None) ↔ (held_of may items ≡ items) }
    ensures empty { (may : ℕ → Bool) (place : ReadPlace) → offered_of may place [] ≡ record { headers = []; upto = no_ids; left = None } }
{}

/// Lane by lane, the event rows that a fragment carries are those that stand in the lanes with ids up to
/// its number for the lane, if nothing that the READ was given before is left there; likewise an
/// unsolicited response. So a release of these numbers takes what was carried and nothing else.
pub fn a_fragment_carries_the_rows_up_to_its_ids()
    ensures fragment { (s : Source) (stood : ℕ) (place : ReadPlace) (headers : List Head) → IsSoundBuffer s.lanes
        → IsTidy s.lanes place.given → length place.given ≡ LANES
        → AreRowsUpto s.lanes (offered s stood place headers).upto (held_of (may_in headers) (items_left s stood place headers)) }
    ensures unsolicited { (s : EventBuffer) (enabled : List Bool) → IsSoundBuffer s
        → AreRowsUpto s (pushed s enabled).upto (held_of may_each (lane_items s (enabled_lanes 0 enabled))) }
    ensures released { (s : EventBuffer) (upto : List ℕ) (items : List Item) → length s.lanes ≡ LANES → length upto ≡ LANES
        → AreRowsUpto s upto items → all_up_to s upto ≡ rows_by_lane items }
{}

/// A row stands once at most in a response, of however many fragments: in each lane the rows of a
/// fragment rise, they are after all that were given before, and none came after the READ was first
/// answered.
pub fn a_row_stands_once_in_a_response()
    ensures next { (s : Source) (stood : ℕ) (place : ReadPlace) (headers : List Head) → IsSoundBuffer s.lanes
        → length place.given ≡ LANES → AreNext place.given stood (held_of (may_in headers) (items_left s stood place headers)) }
    ensures onward { (s : Source) (stood : ℕ) (place left : ReadPlace) (headers : List Head) → IsSoundBuffer s.lanes
        → length place.given ≡ LANES → (offered s stood place headers).left ≡ Some left → IsOnward place.given left.given }
    ensures given { (s : Source) (stood : ℕ) (place left : ReadPlace) (headers : List Head) → IsSoundBuffer s.lanes
        → length place.given ≡ LANES → (offered s stood place headers).left ≡ Some left
        → AreGiven left.given (held_of (may_in headers) (items_left s stood place headers)) }
    ensures once { (given later : List ℕ) (stood : ℕ) (items others : List Item) → AreGiven given items
        → IsOnward given later → AreNext later stood others → AreBefore items others }
{}

/// Of what a READ was given nothing stands in the lanes but what its last fragment carries, and after
/// that one's release nothing at all: so it is from a new fragment on, whatever is appended, released or
/// emptied. Where a READ begins nothing was given.
pub fn nothing_else_given_is_left()
    ensures begins { (s : EventBuffer) → IsSoundBuffer s → IsTidy s no_ids }
    ensures begins_used { (s : EventBuffer) → All (λ id. id ≤ s.last_id) no_ids }
    ensures new { (s : Source) (stood : ℕ) (place left : ReadPlace) (headers : List Head) → IsSoundBuffer s.lanes
        → IsTidy s.lanes place.given → length place.given ≡ LANES → All (λ id. id ≤ s.lanes.last_id) place.given
        → (offered s stood place headers).left ≡ Some left
        → LeavesOnly s.lanes left.given (offered s stood place headers).upto }
    ensures released { (s : EventBuffer) (given upto : List ℕ) → length s.lanes ≡ LANES → LeavesOnly s given upto
        → IsTidy (without s upto) given }
    ensures appended { (s : EventBuffer) (rows : List LaneRow) (given upto : List ℕ) → LeavesOnly s given upto
        → LeavesOnly (with_rows s rows) given upto }
    ensures others_released { (s : EventBuffer) (others given upto : List ℕ) → LeavesOnly s given upto
        → LeavesOnly (without s others) given upto }
    ensures emptied { (s : EventBuffer) (given upto : List ℕ) → LeavesOnly s given upto
        → LeavesOnly (without_all s) given upto }
{
    a_release_is_lane_by_lane();
    ids_are_used_once();
}

/// Items that can be written, each as an object that says it or after a common time, and fit are a response, whose headers hold just
/// these objects, and the rows that its event headers say are the event rows among them, in order. The items of a READ can be written where the
/// rows of the lanes and the present values can, and then each fragment that leaves something holds something.
pub fn octets_say_what_is_held()
    ensures held { (held : List Laid) → All CanGo held → fits_fragment held ≡ true
        → HoldAll (headers_of held) (map object_of held) }
    ensures response { (answered : Answered) (held : List Laid) → answered.headers ≡ headers_of held
        → IsControl answered.control → is_response answered.function ≡ true → All CanGo held
        → fits_fragment held ≡ true → response_at (response_octets answered) ≡ Ok answered }
    ensures rows { (held : List Laid) → All CanGo held → fits_fragment held ≡ true
        → rows_said (headers_of held) ≡ events_in (map item_of held) }
    ensures written { (s : Source) (stood : ℕ) (place : ReadPlace) (headers : List Head) → IsSoundBuffer s.lanes → AreWritable s
        → All CanGo (held_laid (may_in headers) (items_left s stood place headers)) }
    ensures some { (s : Source) (stood : ℕ) (place left : ReadPlace) (headers : List Head) → IsSoundBuffer s.lanes → AreWritable s
        → (offered s stood place headers).left ≡ Some left → held_of (may_in headers) (items_left s stood place headers) ≢ [] }
{
    a_header_holds_what_was_put();
    what_is_put_is_held();
    a_common_time_stays();
    what_is_put_stands_in_a_response();
    what_is_held_is_read();
    what_is_there_is_said();
    what_is_spelled_is_said();
}

/// A fragment is read as itself, and the event rows that its headers say are, but for order, those that a
/// release of its ids takes; likewise an unsolicited response.
pub fn a_release_takes_what_the_octets_said()
    ensures read { (answered : Answered) (s : Source) (stood : ℕ) (place : ReadPlace) (headers : List Head)
        → answered.headers ≡ (offered s stood place headers).headers → IsControl answered.control
        → is_response answered.function ≡ true → IsSoundBuffer s.lanes → AreWritable s
        → response_at (response_octets answered) ≡ Ok answered }
    ensures fragment { (s : Source) (stood : ℕ) (place : ReadPlace) (headers : List Head) → IsSoundBuffer s.lanes → AreWritable s
        → IsTidy s.lanes place.given → length place.given ≡ LANES
        → IsPermutation (rows_said (offered s stood place headers).headers)
        (all_up_to s.lanes (offered s stood place headers).upto) }
    ensures unsolicited_read { (answered : Answered) (s : EventBuffer) (enabled : List Bool)
        → answered.headers ≡ (pushed s enabled).headers → IsControl answered.control
        → is_response answered.function ≡ true → IsSoundBuffer s → length enabled ≤ 3
        → response_at (response_octets answered) ≡ Ok answered }
    ensures unsolicited { (s : EventBuffer) (enabled : List Bool) → IsSoundBuffer s → length enabled ≤ 3
        → IsPermutation (rows_said (pushed s enabled).headers) (all_up_to s (pushed s enabled).upto) }
{
    octets_say_what_is_held();
}

/// So it is at all times: where a connection begins, and after each call and each change of the lanes. So where
/// a response goes on after a confirm, nothing that it gave before is left.
pub fn calls_leave_nothing_else_given()
    ensures further { (s : State) (w : Awaited) (last : LastRequest) (place : ReadPlace) → IsSoundBuffer s.lanes → LeavesNothing s
        → s.core.session.awaited ≡ Some w → s.core.session.last ≡ Some last → last.left ≡ Some place
        → IsTidy (without s.lanes w.upto) place.given × (length place.given ≡ LANES) }
    ensures opened { (s : State) (now : ℕ) → LeavesNothing (opened_of s now).state }
    ensures received { (s : State) (o : Panel) (now : ℕ) (octets : List ℕ) → IsSoundBuffer s.lanes → LeavesNothing s
        → LeavesNothing (connection_after s o now octets).state }
    ensures ticked { (s : State) (now : ℕ) → LeavesNothing s → LeavesNothing (tick_of s now).state }
    ensures changed { (s : State) (now : ℕ) (kind : Kind) (index : ℕ) (reading : Reading) (made : Option LaneRow)
        → LeavesNothing s → LeavesNothing (change_of s now kind index reading made).state }
    ensures closed { (s : State) → LeavesNothing (record s { core = closed s.core }) }
    ensures restarted { (s : State) (keep : Bool) → LeavesNothing (restart_of s keep) }
    ensures appended { (s : State) (rows : List LaneRow) → LeavesNothing s
        → LeavesNothing (record s { lanes = with_rows s.lanes rows }) }
    ensures released { (s : State) (upto : List ℕ) → LeavesNothing s
        → LeavesNothing (record s { lanes = without s.lanes upto }) }
    ensures emptied { (s : State) → LeavesNothing s → LeavesNothing (record s { lanes = without_all s.lanes }) }
{
    nothing_else_given_is_left();
    lanes_stay_sound();
}
