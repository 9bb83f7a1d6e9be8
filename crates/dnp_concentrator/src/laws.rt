//! What holds of the index map, and of events that go through it. Each law is the contract of a function that does nothing.

ghost use Rattle.std.specs.Prelude.{◌≡◌, ℕ, ◌<◌, List, All, IfOk, IsSome, true, length, slice_get};
ghost use Rattle.dnp_pointdb.specs.declared.limits.TheConstants.{INDICES};
ghost use Rattle.dnp_concentrator.specs.declared.index_kind.IndexKind.{IndexKind};
ghost use Rattle.dnp_concentrator.specs.declared.span.Spans.{Spans};
ghost use Rattle.dnp_concentrator.specs.IndexMap.{IsMap, IsTooWide, Overlaps, index_above, index_below};
ghost use Rattle.dnp_concentrator.specs.Mapped.{row_above, row_below, command_above, command_below, queued_row, queued_rows};
ghost use Rattle.dnp_concentrator.specs.declared.plan.Plan.{Plan as PlanValue};
ghost use Rattle.dnp_concentrator.specs.declared.plan.SubPlan.{SubPlan as SubPlanValue};
ghost use Rattle.dnp_concentrator.specs.Plan.{KeepsLimits, map_of};
ghost use Rattle.dnp_concentrator.specs.PointsAbove.{points_above, points_below};
ghost use Rattle.dnp_master.specs.Calls.{receive_of};
ghost use Rattle.dnp_master.specs.Rows.{is_reported};
ghost use Rattle.dnp_master.specs.State.{State};
ghost use Rattle.dnp_objects.specs.declared.row.Row.{Row};
ghost use Rattle.dnp_objects.specs.Events.{IsEvent};
ghost use Rattle.dnp_eventbuf.specs.FitsLane.{FitsLane};
ghost use Rattle.dnp_pointdb.specs.Plan as points;
ghost use Rattle.dnp_objects.specs.declared.command.Command.{Command};
ghost use Rattle.dnp_concentrator.specs.Addresses.{centre_address, outstation_address};
ghost use Rattle.dnp_concentrator.specs.declared.addresses.TheConstants as addresses;
ghost use Rattle.dnp_concentrator.specs.declared.limits.TheConstants as limits;

use dnp_master::laws::events_taken_are_of_the_plan;
use dnp_pointdb::laws::points_are_those_of_the_plan;

/// What stands above is found again below, and what is found below stands there above.
pub fn each_direction_undoes_the_other()
    ensures up_and_down { (spans : List Spans) (kind : IndexKind) (substation index above : ℕ) → IsMap spans
        → index_above spans substation kind index ≡ Some above → index_below spans kind above ≡ Some (substation, index) }
    ensures down_and_up { (spans : List Spans) (kind : IndexKind) (substation index above : ℕ)
        → index_below spans kind above ≡ Some (substation, index) → index_above spans substation kind index ≡ Some above }
{}

/// Indices above that no cause refuses are a map: so the plan of each index map and each concentrator has one.
pub fn what_no_cause_refuses_is_a_map()
    ensures { (spans : List Spans) → (IsTooWide spans → ⊥) → (Overlaps spans → ⊥) → IsMap spans }
{}

/// Two indices of substations never stand above as one index of their kind.
pub fn no_index_above_is_of_two()
    ensures { (spans : List Spans) (kind : IndexKind) (a b i j above : ℕ) → IsMap spans
        → index_above spans a kind i ≡ Some above → index_above spans b kind j ≡ Some above → (a ≡ b) × (i ≡ j) }
{}

/// Indices above are below 65,536.
pub fn indices_above_are_in_range()
    ensures { (spans : List Spans) (kind : IndexKind) (substation index above : ℕ) → IsMap spans
        → index_above spans substation kind index ≡ Some above → above < INDICES }
{}

/// Rows that are queued above are such as their lanes can carry.
pub fn rows_are_queued_as_lanes_carry_them()
    ensures { (spans : List Spans) (plan : points.Plan) (substation : ℕ) (events : List Row) → IsMap spans → All IsEvent events
        → All FitsLane (queued_rows spans plan substation events) }
{}

/// A row that went up is undone to the row and its substation.
pub fn rows_above_are_undone()
    ensures { (spans : List Spans) (substation : ℕ) (row above : Row) → IsMap spans
        → row_above spans substation row ≡ Some above → row_below spans above ≡ Some (substation, row) }
{}

/// A command as it goes down stands above as the command that came, and what stands above goes down as it was.
pub fn commands_are_undone()
    ensures down_and_up { (spans : List Spans) (command : Command) (found : ℕ × Command)
        → command_below spans command ≡ Some found → command_above spans found.0 found.1 ≡ Some command }
    ensures up_and_down { (spans : List Spans) (substation : ℕ) (command above : Command) → IsMap spans
        → command_above spans substation command ≡ Some above → command_below spans above ≡ Some (substation, command) }
{}

/// No event is passed over: each event that a substation's master takes is of a point of its plan with a class, and is
/// queued above.
pub fn no_event_is_passed_over()
    ensures one { (plan : PlanValue) (substation : ℕ) (planned : SubPlanValue) (event : Row)
        → KeepsLimits plan → IsMap (map_of plan) → slice_get plan.substations substation ≡ Some planned
        → is_reported (points_below planned) event ≡ true → IsSome (queued_row (map_of plan) (points_above plan) substation event) }
    ensures all { (plan : PlanValue) (substation : ℕ) (planned : SubPlanValue) (events : List Row)
        → KeepsLimits plan → IsMap (map_of plan) → slice_get plan.substations substation ≡ Some planned
        → All (λ event. is_reported (points_below planned) event ≡ true) events
        → length (queued_rows (map_of plan) (points_above plan) substation events) ≡ length events }
    ensures taken { (plan : PlanValue) (substation : ℕ) (planned : SubPlanValue) (master : State) (now : ℕ) (octets : List ℕ)
        → KeepsLimits plan → IsMap (map_of plan) → slice_get plan.substations substation ≡ Some planned
        → master.plan ≡ points_below planned
        → IfOk (receive_of master now octets) (λ t. length (queued_rows (map_of plan) (points_above plan) substation t.events) ≡ length t.events) }
{
    points_are_those_of_the_plan();
    events_taken_are_of_the_plan();
}

/// The stations of a system have these link addresses: each centre and the concentrator above, the concentrator's master
/// below, and the outstations of substation 0 and of the last one, 15.
pub fn stations_have_their_addresses()
    ensures centre { addresses.CENTRE ≡ 1 }
    ensures second_centre { addresses.SECOND_CENTRE ≡ 3 }
    ensures each_centre { (centre_address 0 ≡ 1) × (centre_address 1 ≡ 3) }
    ensures concentrator_above { addresses.CONCENTRATOR_ABOVE ≡ 9 }
    ensures master_below { addresses.MASTER_BELOW ≡ 2 }
    ensures first { outstation_address 0 ≡ 10 }
    ensures last { outstation_address 15 ≡ 25 }
{}

/// The named limits are these numbers, the library's own measures: of substations, of the five kinds of indices, of the
/// commands of a request, of an hour in milliseconds, and of repetitions.
pub fn limits_have_their_values()
    ensures substations { limits.MAX_SUBSTATIONS ≡ 16 }
    ensures kinds { limits.INDEX_KINDS ≡ 5 }
    ensures commands { limits.COMMANDS_AT_ONCE ≡ 1 }
    ensures timer { limits.MAX_TIMER_MS ≡ 3600000 }
    ensures retries { limits.MAX_RETRIES ≡ 3 }
{}
