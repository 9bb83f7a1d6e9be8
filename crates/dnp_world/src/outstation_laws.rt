//! Laws of an outstation as its link sees it: each call of it, as its contract says, is some moves of the link.
//!
//! Each function does nothing, and its contract is a law. A call sends, discards, overwrites and performs just what
//! the link's lists grow by, and leaves the master and what may come down alone. Appends by anybody are moves too.

ghost use Rattle.std.specs.Prelude.{◌≡◌, ℕ, ◌<◌, ◌^◌, Bool, false, All, List, [], ◌∷◌, Option, Ok, IfSome, option_to_list};
ghost use Rattle.dnp_objects.specs.declared.command.Command.{Command};
ghost use Rattle.dnp_objects.specs.declared.lane.LaneRow.{LaneRow};
ghost use Rattle.dnp_objects.specs.declared.row.Kind.{Kind};
ghost use Rattle.dnp_controls.specs.Panel.{Panel};
ghost use Rattle.dnp_eventbuf.specs.FitsLane.{FitsLane};
ghost use Rattle.dnp_eventbuf.specs.Sound.{IsSoundBuffer};
ghost use Rattle.dnp_eventbuf.specs.EventBuffer.{EventBuffer, arriving, with_rows, dropped_by, exhausts};
ghost use Rattle.dnp_pointdb.specs.Database.{Database, answer_of};
ghost use Rattle.dnp_pointdb.specs.Sound as points;
ghost use Rattle.dnp_pointdb.specs.declared.reading.Reading.{Reading};
ghost use Rattle.dnp_pointdb.specs.declared.times.Times.{Times};
ghost use Rattle.dnp_outstation.specs.Calls.{connection_after, tick_of, change_of, opened_of, restart_of, emptied_of};
ghost use Rattle.dnp_outstation.specs.Connection.{closed};
ghost use Rattle.dnp_outstation.specs.State.{State, nothing, still};
ghost use Rattle.dnp_outstation.specs.Station.{new_core};
ghost use Rattle.dnp_world.specs.Lanes.{fresh_link};
ghost use Rattle.dnp_world.specs.LawLink.{LawLink, Down};
ghost use Rattle.dnp_world.specs.Moves.{opened};
ghost use Rattle.dnp_world.specs.OutstationSeen.{down_of, ShowOctets, Shows, Simulates};
ghost use Rattle.dnp_world.specs.Standing.{CarriesLaw};

use crate::laws::lanes_are_moved;
use dnp_eventbuf::laws::lanes_stay_sound;
use dnp_eventbuf::link_laws::an_append_is_of_one_row;
use dnp_outstation::lane_laws::fragments_have_an_id_for_each_lane;
use dnp_outstation::laws::calls_leave_nothing_else_given;
use dnp_outstation::link_laws::{
    a_closed_outstation_is_silent, a_held_read_is_answered_behind_the_confirm,
    a_repeated_request_executes_nothing, an_unsolicited_response_is_repeated_as_it_was,
    an_unsolicited_response_starts_where_none_is_awaited, calls_keep_a_connection_in_order,
    commands_are_performed_as_they_are_asked, content_leaves_the_connection_alone,
    each_case_says_what_came, fragments_report_the_rows_up_to_their_ids,
    what_is_sound_can_be_written,
};
use dnp_pointdb::laws::{
    a_change_makes_what_its_lane_takes, a_change_of_note_is_an_event, points_stay_sound,
};

/// A new outstation, over sound points and lanes, is shown by a link before its first opening.
pub fn a_new_outstation_is_shown()
    ensures { (database : Database) (times : Times) (lanes : EventBuffer) (performed : List Command) → points.IsSoundDatabase database
        → IsSoundBuffer lanes
        → Shows (record { core = new_core database times; lanes = lanes; performed = performed }) (fresh_link lanes) }
{}

/// An opening of both ends is one move, and what the outstation then sends is another.
pub fn an_opening_is_moves()
    ensures { (s : State) (now : ℕ) (l : LawLink) → Shows s l → CarriesLaw l → Simulates s [] (opened_of s now) (opened l) }
{
    calls_leave_nothing_else_given();
    an_unsolicited_response_starts_where_none_is_awaited();
    calls_keep_a_connection_in_order();
    commands_are_performed_as_they_are_asked();
    fragments_report_the_rows_up_to_their_ids();
}

/// What comes from the master is the first of what may still come down, and stays there, for it may come again.
pub fn what_comes_is_moves()
    ensures { (s : State) (o : Panel) (now : ℕ) (octets : List ℕ) (l : LawLink) (rest : List Down) → ShowOctets o
        → All (λ octet. octet < 2 ^ 8) octets → Shows s l → CarriesLaw l → l.down ≡ down_of octets ∷ rest
        → Simulates s [] (connection_after s o now octets) l }
{
    lanes_are_moved();
    lanes_stay_sound();
    fragments_have_an_id_for_each_lane();
    calls_leave_nothing_else_given();
    a_held_read_is_answered_behind_the_confirm();
    a_repeated_request_executes_nothing();
    an_unsolicited_response_starts_where_none_is_awaited();
    calls_keep_a_connection_in_order();
    commands_are_performed_as_they_are_asked();
    content_leaves_the_connection_alone();
    each_case_says_what_came();
    fragments_report_the_rows_up_to_their_ids();
    what_is_sound_can_be_written();
}

/// Time that passes gives up a wait, repeats a report or closes, and then may start a report.
pub fn time_is_moves()
    ensures { (s : State) (now : ℕ) (l : LawLink) → Shows s l → CarriesLaw l → Simulates s [] (tick_of s now) l }
{
    calls_leave_nothing_else_given();
    a_closed_outstation_is_silent();
    an_unsolicited_response_is_repeated_as_it_was();
    an_unsolicited_response_starts_where_none_is_awaited();
    calls_keep_a_connection_in_order();
    commands_are_performed_as_they_are_asked();
    fragments_report_the_rows_up_to_their_ids();
}

/// A change of a point appends the row that it makes, if any, and may start a report. Points that are written besides
/// are no move.
pub fn a_change_is_moves()
    ensures changed { (s : State) (now : ℕ) (kind : Kind) (index : ℕ) (reading : Reading) (made : Option LaneRow)
        (l : LawLink) → answer_of s.core.points kind index reading ≡ Ok made
        → IfSome made (λ row. exhausts s.lanes (row ∷ []) ≡ false) → Shows s l → CarriesLaw l
        → Simulates s (arriving (option_to_list made)) (change_of s now kind index reading made) l }
    ensures written { (s : State) (database : Database) (l : LawLink) → points.IsSoundDatabase database → Shows s l
        → Shows (record s { core = record s.core { points = database } }) l }
{
    lanes_are_moved();
    lanes_stay_sound();
    an_append_is_of_one_row();
    a_change_of_note_is_an_event();
    points_stay_sound();
    calls_leave_nothing_else_given();
    an_unsolicited_response_starts_where_none_is_awaited();
    calls_keep_a_connection_in_order();
    commands_are_performed_as_they_are_asked();
    fragments_report_the_rows_up_to_their_ids();
    a_change_makes_what_its_lane_takes();
}

/// Rows that anybody appends to the lanes are two moves each: a row comes, and its lane, if it was full, drops its
/// oldest.
pub fn an_append_is_moves()
    ensures { (s : State) (rows : List LaneRow) (l : LawLink) → All FitsLane rows → exhausts s.lanes rows ≡ false → Shows s l
        → Simulates s (arriving rows) (record {
          state = record s { lanes = with_rows s.lanes rows };
          does = record nothing { overwritten = dropped_by s.lanes rows };
        }) l }
{
    lanes_are_moved();
    an_append_is_of_one_row();
    lanes_stay_sound();
    calls_leave_nothing_else_given();
}

/// A hang-up closes the outstation, and so does a restart, at which the rows of lanes that aren't kept leave
/// unconfirmed.
pub fn a_closing_is_moves()
    ensures closed { (s : State) (l : LawLink) → Shows s l → Simulates s [] (still (record s { core = closed s.core })) l }
    ensures restarted { (s : State) (keep : Bool) (l : LawLink) → Shows s l
        → Simulates s [] (record {
          state = restart_of s keep;
          does = record nothing { overwritten = emptied_of s keep };
        }) l }
{
    lanes_are_moved();
    lanes_stay_sound();
    points_stay_sound();
    calls_leave_nothing_else_given();
    calls_keep_a_connection_in_order();
}
