//! Laws of a whole system at every moment, as one centre sees it and as both do. Each function does nothing, and its contract is a law.

ghost use Rattle.std.specs.Prelude.{◌≡◌, ◌<◌, ◌^◌, ℕ, List, [], ◌∷◌, ◌++◌, Result, length, take, ⊤};
ghost use Rattle.dnp_concentrator.specs.declared.plan.Plan.{Plan};
ghost use Rattle.dnp_concentrator.specs.declared.per_centre.PerCentre.{PerCentre};
ghost use Rattle.dnp_concentrator.specs.PerCentre.{at};
ghost use Rattle.dnp_controls.specs.Book.{Ledger};
ghost use Rattle.dnp_eventbuf.specs.Archive.{Archive};
ghost use Rattle.dnp_eventbuf.specs.Sides.{ForEach};
ghost use Rattle.dnp_eventbuf.specs.EventBuffer.{EventBuffer};
ghost use Rattle.dnp_world.specs.declared.event.Event.{Event};
ghost use Rattle.dnp_world.specs.declared.event.Link.{Link};
ghost use Rattle.dnp_world.specs.declared.report.Report.{Report as ReportValue};
ghost use Rattle.dnp_world.specs.declared.round_fault.ControlFault.{ControlFault};
ghost use Rattle.dnp_world.specs.Behind.{Elsewhere};
ghost use Rattle.dnp_world.specs.BothSteady.{AreSteady, GoesOn, HoldsForAll, Issues, Lasts, ListsAllOfAll};
ghost use Rattle.dnp_world.specs.Centres.{HappensToAll, centre_of, may_stop, seen_at};
ghost use Rattle.dnp_world.specs.Controls.{ControlEnds};
ghost use Rattle.dnp_world.specs.FreshSystems.{fresh_whole};
ghost use Rattle.dnp_world.specs.NewSystems.{AreEmpty, CanBegin};
ghost use Rattle.dnp_world.specs.ReportShown.{ListsAll, Shows, lists_of};
ghost use Rattle.dnp_world.specs.Reports.{Holds};
ghost use Rattle.dnp_world.specs.Rounds.{IsRound, StopsInRound};
ghost use Rattle.dnp_world.specs.Steady.{Goes, IsSteadyBeside, rows_made_at};
ghost use Rattle.dnp_world.specs.SystemRuns.{Happens, RunsTo, StopsAfter};
ghost use Rattle.dnp_world.specs.Systems.{System};
ghost use Rattle.dnp_world.specs.Wholes.{Whole, seen_by};

use crate::arrival_laws::what_comes_from_a_substation_keeps_what_stands;
use crate::centre_laws::{
    what_comes_of_a_centre_is_in_its_book, what_is_elsewhere_keeps_a_system_steady,
    what_no_centre_does_leaves_the_books,
};
use crate::happened_laws::what_happened_can_be_reported;
use crate::planned_laws::systems_stay_as_planned;
use crate::relay_laws::{controls_stay_in_step, relaying_keeps_what_stands};
use crate::settled_laws::substations_stay_settled;
use crate::standing_laws::{a_new_system_stands, what_comes_to_the_concentrator_keeps_what_stands};
use crate::system_laws::{
    a_restart_of_the_concentrator_keeps_what_stands, calls_below_keep_what_stands,
    events_above_keep_what_stands, events_below_keep_what_stands, lists_are_of_links,
    other_events_keep_what_stands, what_a_report_shows_is_kept,
    what_comes_to_the_centre_keeps_what_stands, what_stands_is_shown,
};
use dnp_outstation::lane_laws::{a_connection_drops_no_row, a_connection_leaves_the_points_alone};

/// Which rows events make at a substation follows from its points, and from the events: what a list of them makes is what the first
/// makes, and then what the others make of the points after it.
pub fn rows_are_made_by_events_alone()
    ensures { (old next : System) (event : Event) (events : List Event) → Happens old event next → (i : ℕ)
        → rows_made_at old (event ∷ events) i ≡ rows_made_at old (event ∷ []) i ++ rows_made_at next events i }
{
    a_connection_leaves_the_points_alone();
    a_connection_drops_no_row();
}

/// What lists of events issue are the commands of their events, and nothing else; also of a list that stops.
pub fn commands_are_issued_by_events_alone()
    ensures ran { (old new : Whole) (events : List Event) → RunsTo HappensToAll old events new → Issues events old new }
    ensures stopped { (old new : Whole) (events : List Event) (done : ℕ) → StopsAfter HappensToAll may_stop old events done new
        → Issues (take done events) old new }
{}

/// Clean rounds and clean controls issue nothing, whatever they end with.
pub fn rounds_and_controls_issue_nothing()
    ensures round { (on : Link) (old new : Whole) → IsRound HappensToAll (seen_at (centre_of on)) on old new → new.history.issued ≡ old.history.issued }
    ensures round_stopped { (on : Link) (old new : Whole) → StopsInRound HappensToAll (seen_at (centre_of on)) may_stop on old new
        → new.history.issued ≡ old.history.issued }
    ensures control { (centre id : ℕ) (old new : Whole) (result : Result ⊤ ControlFault)
        → ControlEnds HappensToAll (seen_by centre) may_stop centre id old result new
        → new.history.issued ≡ old.history.issued }
{}

/// Whatever happens to a steady system leaves it steady, and what happened at its substations is what had happened and the rows
/// that a reading makes.
pub fn every_event_keeps_a_system_steady()
    ensures { (old new : System) (el : Elsewhere) (event : Event) → IsSteadyBeside el old → Happens old event new
        → Goes el (rows_made_at old (event ∷ [])) old new }
{
    events_below_keep_what_stands();
    calls_below_keep_what_stands();
    events_above_keep_what_stands();
    what_comes_to_the_centre_keeps_what_stands();
    a_restart_of_the_concentrator_keeps_what_stands();
    other_events_keep_what_stands();
    what_comes_to_the_concentrator_keeps_what_stands();
    what_comes_from_a_substation_keeps_what_stands();
    relaying_keeps_what_stands();
    what_happened_can_be_reported();
    controls_stay_in_step();
    systems_stay_as_planned();
    substations_stay_settled();
}

/// So it is with two centres: whatever happens to a system that is steady to each of them leaves it so, since what is at one of them
/// leaves the other's links, and what all see moves both.
pub fn every_event_keeps_both_steady()
    ensures { (old new : Whole) (event : Event) → AreSteady old → HappensToAll old event new
        → GoesOn (rows_made_at (seen_by 0 old) (event ∷ [])) old new }
{
    every_event_keeps_a_system_steady();
    what_is_elsewhere_keeps_a_system_steady();
    what_comes_of_a_centre_is_in_its_book();
    what_no_centre_does_leaves_the_books();
}

/// So do lists of events, also one that stops, and they make the rows of their readings; a new system over empty stores is steady; and
/// of a steady system holds, to each centre, what is said of every moment: no row of its journal is invented, no confirmed row
/// vanishes, what full lanes of the queue for it dropped is counted, and no command is performed more often than it was issued.
pub fn steady_systems_stay_steady()
    ensures stays { (old new : Whole) (events : List Event) → AreSteady old → RunsTo HappensToAll old events new → AreSteady new }
    ensures stays_stopped { (old new : Whole) (events : List Event) (done : ℕ) → AreSteady old → StopsAfter HappensToAll may_stop old events done new
        → AreSteady new }
    ensures ran { (old new : Whole) (events : List Event) → ∥ AreSteady old ∥₁ → RunsTo HappensToAll old events new → Lasts events old new }
    ensures stopped { (old new : Whole) (events : List Event) (done : ℕ) → ∥ AreSteady old ∥₁ → StopsAfter HappensToAll may_stop old events done new
        → Lasts (take done events) old new }
    ensures joined { (old mid new : Whole) (first second : List Event) → RunsTo HappensToAll old first mid → Lasts first old mid
        → Lasts second mid new → Lasts (first ++ second) old new }
    ensures at_first { (plan : Plan) (queues : PerCentre EventBuffer) (journals : PerCentre Archive) (controls : Ledger) (orders : PerCentre Ledger) → CanBegin plan
        → ForEach (λ centre. AreEmpty (at centre queues) (at centre journals) controls (at centre orders))
        → AreSteady (fresh_whole plan queues journals controls orders) }
    ensures holds { (w : Whole) → ∥ AreSteady w ∥₁ → HoldsForAll w }
    ensures all { (w : Whole) → ∥ AreSteady w ∥₁ → ListsAllOfAll w }
{
    every_event_keeps_both_steady();
    rows_are_made_by_events_alone();
    lists_are_of_links();
    a_new_system_stands();
    what_happened_can_be_reported();
    controls_stay_in_step();
    systems_stay_as_planned();
    substations_stay_settled();
    what_stands_is_shown();
}

/// So do clean rounds and clean controls, at whatever they end, and they make no row.
pub fn rounds_and_controls_keep_a_system_steady()
    ensures rests { (old new : Whole) → AreSteady old → new ≡ old → GoesOn (λ i. []) old new }
    ensures round { (on : Link) (old new : Whole) → AreSteady old → IsRound HappensToAll (seen_at (centre_of on)) on old new → GoesOn (λ i. []) old new }
    ensures round_stopped { (on : Link) (old new : Whole) → AreSteady old → StopsInRound HappensToAll (seen_at (centre_of on)) may_stop on old new
        → GoesOn (λ i. []) old new }
    ensures control { (centre id : ℕ) (old new : Whole) (result : Result ⊤ ControlFault) → AreSteady old
        → ControlEnds HappensToAll (seen_by centre) may_stop centre id old result new → GoesOn (λ i. []) old new }
{
    every_event_keeps_both_steady();
    rows_are_made_by_events_alone();
    lists_are_of_links();
}

/// A report that shows a steady system, to each centre, shows what holds at every moment, and of all rows.
pub fn reports_show_what_holds()
    ensures holds { (w : Whole) (r : ReportValue) → ForEach (λ centre. Shows (seen_by centre w) (lists_of centre r))
        → ForEach (λ centre. length (lists_of centre r).dropped < 2 ^ 64) → ∥ AreSteady w ∥₁ → ForEach (λ centre. Holds (lists_of centre r)) }
    ensures all { (w : Whole) (r : ReportValue) → ForEach (λ centre. Shows (seen_by centre w) (lists_of centre r)) → ∥ AreSteady w ∥₁
        → ForEach (λ centre. ListsAll (seen_by centre w) (lists_of centre r)) }
{
    what_a_report_shows_is_kept();
}
