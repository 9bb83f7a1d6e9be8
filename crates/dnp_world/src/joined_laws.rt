//! Laws of one link of two stations, two lines and their ports: each event is a few moves of the link, and so the law
//! of the link holds of what the master's sink took and of what confirms released. Each function does nothing, and its
//! contract is a law.
//!
//! The premises are those of the line: it keeps the order, breaks by 32 losses in a row, and carries no damaged unit
//! that reads as another frame. The link's events have them built in.

ghost use Rattle.std.specs.Prelude.{◌≡◌, ℕ, ◌<◌, false, true, All, List, [], ◌∷◌, ◌++◌, take, ⊤};
ghost use Rattle.std.specs.List.Sorted.{IsPermutation};
ghost use Rattle.dnp_objects.specs.declared.command.Command.{Command};
ghost use Rattle.dnp_objects.specs.declared.lane.LaneRow.{LaneRow};
ghost use Rattle.dnp_objects.specs.declared.row.Row.{Row};
ghost use Rattle.dnp_controls.specs.Panel.{Panel};
ghost use Rattle.dnp_eventbuf.specs.FitsLane.{FitsLane};
ghost use Rattle.dnp_eventbuf.specs.Sound.{IsSoundBuffer};
ghost use Rattle.dnp_eventbuf.specs.EventBuffer.{EventBuffer, arriving, dropped_by, exhausts};
ghost use Rattle.dnp_outstation.specs.Calls.{restart_of};
ghost use Rattle.dnp_pointdb.specs.Database.{new_database};
ghost use Rattle.dnp_pointdb.specs.Plan.{Plan};
ghost use Rattle.dnp_pointdb.specs.Sound as points;
ghost use Rattle.dnp_pointdb.specs.declared.times.Times.{Times};
ghost use Rattle.dnp_world.specs.Channels.{hung_up_at};
ghost use Rattle.dnp_world.specs.declared.link_event.End.TheVariants as end;
ghost use Rattle.dnp_world.specs.declared.link_event.LinkEvent.{LinkEvent};
ghost use Rattle.dnp_world.specs.Joined.{Joined, Follows, IsJoined, KeepsLaw, StoodGrows, new_link_of};
ghost use Rattle.dnp_world.specs.Joined.{with_others_rows, rows_made_by, stood_in};
ghost use Rattle.dnp_world.specs.LawLink.{LawLink};
ghost use Rattle.dnp_world.specs.OneLinkEvents.{LinkState, HappensOn, RunsTo, StopsAt, StopsAfter};
ghost use Rattle.dnp_world.specs.OutstationSeen.{ShowOctets};
ghost use Rattle.dnp_world.specs.Standing.{CarriesLaw};
ghost use Rattle.dnp_world.specs.SystemStanding.{no_sink};
ghost use Rattle.dnp_world.specs.steps.MoveLaws.{MoveLaws};

use crate::laws::{lanes_are_moved, link_law};
use crate::master_laws::{
    a_master_asks_by_a_move, a_master_opens_and_closes_by_moves, a_master_takes_by_moves,
};
use crate::outstation_laws as outstation;
use dnp_eventbuf::Sink;
use dnp_line::laws::line_law;
use dnp_master::laws::{
    a_closed_master_is_silent, an_idle_master_asks, what_comes_is_taken_or_passed_over,
};
use dnp_outstation::lane_laws::{a_connection_drops_no_row, a_connection_leaves_the_points_alone};
use dnp_outstation::link_laws::{
    a_closed_outstation_is_silent, an_unsolicited_response_starts_where_none_is_awaited,
};

/// What the moves of a link rest on: the laws of its outstation and of its master, of its points and of its lines.
fn moves_are_promised()
    ensures { MoveLaws }
{
    outstation::an_opening_is_moves();
    outstation::what_comes_is_moves();
    outstation::time_is_moves();
    outstation::a_change_is_moves();
    outstation::a_closing_is_moves();
    a_master_takes_by_moves();
    a_master_asks_by_a_move();
    a_master_opens_and_closes_by_moves();
    line_law();
    a_closed_outstation_is_silent();
    an_unsolicited_response_starts_where_none_is_awaited();
    a_connection_leaves_the_points_alone();
    a_connection_drops_no_row();
    a_closed_master_is_silent();
    an_idle_master_asks();
    what_comes_is_taken_or_passed_over();
}

/// Each event of a link is some moves of the link of its law, whatever its outputs show, and so is a list of them, also
/// one that stops, where there are no outputs. The rows
/// that come to the lanes meanwhile are those that the changes of the list make of the points, no command is asked for, and
/// what the link performs its outputs perform.
pub fn events_are_moves<S: Sink>()
    ensures event { (panel : Panel) (others : List Row) (s new : LinkState S) (event : LinkEvent) (l : LawLink) → ShowOctets panel
        → CarriesLaw l → Joined others s l → HappensOn S.takes panel s event new
        → Follows others (rows_made_by s.outstation.core.points (event ∷ [])) [] s.outstation.performed l new }
    ensures stopped { (others : List Row) (s new : LinkState S) (event : LinkEvent) (l : LawLink) → CarriesLaw l
        → Joined others s l → StopsAt S.takes S.keeps s event new → Follows others [] [] s.outstation.performed l new }
    ensures runs { (others : List Row) (s new : LinkState S) (events : List LinkEvent) (l : LawLink) → CarriesLaw l
        → Joined others s l → RunsTo S.takes s events new
        → Follows others (rows_made_by s.outstation.core.points events) [] s.outstation.performed l new }
    ensures stops { (others : List Row) (s new : LinkState S) (events : List LinkEvent) (done : ℕ) (l : LawLink)
        → CarriesLaw l → Joined others s l → StopsAfter S.takes S.keeps s events done new
        → Follows others (rows_made_by s.outstation.core.points (take done events)) [] s.outstation.performed l new }
{
    moves_are_promised();
}

/// The same of an event of a link whose master gives its rows to no sink of the link's own, and of a restart of its outstation that
/// keeps the lanes.
pub fn events_without_a_sink_are_moves()
    ensures event { (panel : Panel) (s new : LinkState ⊤) (event : LinkEvent) (l : LawLink) → ShowOctets panel → CarriesLaw l
        → Joined [] s l → HappensOn no_sink panel s event new
        → Follows [] (rows_made_by s.outstation.core.points (event ∷ [])) [] s.outstation.performed l new }
    ensures restarted { (s new : LinkState ⊤) (l : LawLink) → Joined [] s l
        → new ≡ record s { outstation = restart_of s.outstation true; channel = hung_up_at end.Outstation s.channel }
        → Follows [] [] [] s.outstation.performed l new }
{
    moves_are_promised();
}

/// Rows that others append to the lanes are moves too, and what full lanes drop for them has left unconfirmed. It may
/// be listed with the rest that left. What others append to the sink changes nothing.
pub fn appends_by_others_are_moves<T>()
    ensures appended { (others : List Row) (s : LinkState T) (rows : List LaneRow) (l : LawLink) → All FitsLane rows
        → exhausts s.outstation.lanes rows ≡ false → Joined others s l
        → Follows (others ++ dropped_by s.outstation.lanes rows) (arriving rows) [] s.outstation.performed l (with_others_rows rows s) }
    ensures listed { (others dropped : List Row) (s : LinkState T) (l : LawLink) → Joined (others ++ dropped) s l
        → Joined others (record s { left = s.left ++ dropped }) l }
    ensures sink { (others : List Row) (s : LinkState T) (sink : T) (l : LawLink) → Joined others s l
        → Joined others (record s { sink = sink }) l }
{
    outstation::an_append_is_moves();
}

/// A new link of sound points and sound lanes, whatever they hold, is joined to a link before its first opening.
pub fn a_new_link_is_joined<T>()
    ensures { (plan : Plan) (times : Times) (lanes : EventBuffer) (performed : List Command)
        (master_address outstation_address : ℕ) (sink : T)
        → points.IsSoundDatabase (new_database plan) → IsSoundBuffer lanes
        → IsJoined [] (new_link_of plan times lanes performed master_address outstation_address sink) }
{
    outstation::a_new_outstation_is_shown();
    lanes_are_moved();
    link_law();
    line_law();
}

/// The law of one link, over all its connections: what the master's sink took stood in the lanes, and what confirms
/// released is covered by it. A row stood in the lanes where it is there, was released or left; these three together
/// grow by the rows that the changes of the list make, and by those that others append, and by nothing else.
pub fn the_law_of_one_link<S: Sink>()
    ensures law { (others : List Row) (s : LinkState S) → IsJoined others s → KeepsLaw others s }
    ensures runs { (others : List Row) (s new : LinkState S) (events : List LinkEvent) → IsJoined others s
        → RunsTo S.takes s events new
        → IsJoined others new × StoodGrows others (rows_made_by s.outstation.core.points events) s new }
    ensures stops { (others : List Row) (s new : LinkState S) (events : List LinkEvent) (done : ℕ) → IsJoined others s
        → StopsAfter S.takes S.keeps s events done new
        → IsJoined others new × StoodGrows others (rows_made_by s.outstation.core.points (take done events)) s new }
    ensures appended { (others : List Row) (s : LinkState S) (rows : List LaneRow) → All FitsLane rows
        → exhausts s.outstation.lanes rows ≡ false → IsJoined others s
        → (let left = others ++ dropped_by s.outstation.lanes rows in IsJoined left (with_others_rows rows s)
        × IsPermutation (stood_in left (with_others_rows rows s)) (stood_in others s ++ arriving rows)) }
    ensures sink { (others : List Row) (s : LinkState S) (sink : S) → IsJoined others s
        → IsJoined others (record s { sink = sink }) }
{
    events_are_moves::<S>();
    appends_by_others_are_moves::<S>();
    link_law();
}
