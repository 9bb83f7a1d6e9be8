//! Laws of the lists of a whole system. Each function does nothing, and its contract is a law.
//!
//! Behind the lists stand links of the law, which no field holds: one to each substation, and one between concentrator and
//! centre. An event moves at most one of those below, and the one above.

ghost use Rattle.std.specs.Prelude.{◌≡◌, ◌^◌, ◌<◌, ◌≤◌, ℕ, List, [], ◌∷◌, ◌++◌, Some, true, length};
ghost use Rattle.std.specs.List.Sorted.{IsPermutation};
ghost use Rattle.dnp_concentrator.specs.BookOutputs.{all_added};
ghost use Rattle.dnp_concentrator.specs.IndexMap.{IsMap};
ghost use Rattle.dnp_concentrator.specs.Mapped.{command_above, queued_rows};
ghost use Rattle.dnp_concentrator.specs.declared.span.Spans.{Spans};
ghost use Rattle.dnp_controls.specs.Book.{Ledger, entry_of, finished, is_pending, spent};
ghost use Rattle.dnp_controls.specs.declared.book.Entry.{Entry};
ghost use Rattle.dnp_eventbuf.specs.EventBuffer.{arriving, lost_in};
ghost use Rattle.dnp_objects.specs.Counts.{IsCoveredBy};
ghost use Rattle.dnp_objects.specs.declared.row.Row.{Row as RowValue};
ghost use Rattle.dnp_master.specs.declared.task.Task.{Task};
ghost use Rattle.dnp_pointdb.specs.Plan as points;
ghost use Rattle.dnp_objects.specs.declared.command.Command.{Command as CommandValue};
ghost use Rattle.dnp_objects.specs.declared.row.Kind.{Kind};
ghost use Rattle.dnp_pointdb.specs.declared.reading.Reading.{Reading};
ghost use Rattle.dnp_line.specs.Lines.{delivered_on, repeated_on};
ghost use Rattle.dnp_world.specs.declared.event.Link.TheVariants as link;
ghost use Rattle.dnp_world.specs.declared.link_event.End.TheVariants as end;
ghost use Rattle.dnp_world.specs.declared.link_event.LinkEvent.TheVariants as event;
ghost use Rattle.dnp_world.specs.declared.link_event.Way.{Way};
ghost use Rattle.dnp_world.specs.declared.parts.report.TheConstants.{NUMBERS};
ghost use Rattle.dnp_world.specs.Behind.{Elsewhere, alone, IsBehind, IsUntouched, Links, OneEvent, made_at, with_links};
ghost use Rattle.dnp_world.specs.Channels.{DamagesAt};
ghost use Rattle.dnp_world.specs.Joined.{rows_made_by};
ghost use Rattle.dnp_world.specs.Kept.{AreMapped, KeptLists, commands_below, nothing_kept, order_of, orders_in, report_of, rows_below, shown_of, used_orders};
ghost use Rattle.dnp_world.specs.ReportShown.{ListsAll, Shows};
ghost use Rattle.dnp_world.specs.OneLinkEvents.{is_own};
ghost use Rattle.dnp_world.specs.Reports.{Holds, IsFate, Report as ReportValue};
ghost use Rattle.dnp_world.specs.Steady.{IsSteadyBeside};
ghost use Rattle.dnp_world.specs.SystemStanding.{IsStanding, Keeps};
ghost use Rattle.dnp_world.specs.SystemEvents.{AsksOn, ComesDownBelow, ComesUp, HangsUpOn, IssuesBy, LinesChange, LosesOn, MasterTicks, OpensOn, OutstationTicks, Reads, SubstationRestarts, concentrator_restarted};
ghost use Rattle.dnp_world.specs.Systems.{System, at_substation, has_substation};

use crate::joined_laws::events_without_a_sink_are_moves;
use crate::laws::link_law;
use dnp_concentrator::laws::{commands_are_undone, rows_above_are_undone};
use dnp_objects::laws::{covered_is_by_counts, equality_is_decided};
use dnp_objects::{Command, Row};
use dnp_outstation::link_laws::{
    a_confirm_releases_what_its_fragment_reported, commands_are_performed_as_they_are_asked,
};
use dnp_pointdb::laws::points_stay_sound;

/// What holds of a system's lists at every moment: they are those of links of the law before the first event, each event
/// keeps them so, and then no row of the journal is invented, no confirmed row vanishes, what full lanes dropped was
/// counted, and no command is performed more often than it was issued. What happened by several lists of events is what
/// happened by one after the other, and in which order the queue is shown is no matter.
pub fn lists_are_of_links()
    ensures holds { (indices : List Spans) (el : Elsewhere) (links : Links) (k : KeptLists) → IsBehind indices el links k → Holds (shown_of indices k) }
    ensures mapped { (indices : List Spans) (el : Elsewhere) (links : Links) (k : KeptLists) → IsBehind indices el links k → AreMapped indices k }
    ensures at_first { (indices : List Spans) (links : Links) → ((i : ℕ) → IsUntouched (links.below i))
        → IsUntouched links.above → IsBehind indices alone links nothing_kept }
    ensures kept { (indices : List Spans) (el : Elsewhere) (substation : ℕ) (links : Links) (old new : KeptLists) → IsBehind indices el links old
        → (turn : OneEvent indices substation links old new) → IsBehind indices el (with_links links substation turn.below turn.above) new }
    ensures fate { (indices : List Spans) (el : Elsewhere) (substation : ℕ) (links : Links) (old new : KeptLists) → IsBehind indices el links old
        → (turn : OneEvent indices substation links old new)
        → IsFate (made_at substation turn.here.made) (shown_of indices old) (shown_of indices new) }
    ensures joined { (first second : ℕ → List RowValue) (a b c : ReportValue) → IsFate first a b → IsFate second b c
        → IsFate (λ i. first i ++ second i) a c }
    ensures reordered { (r : ReportValue) (queue : List (ℕ × RowValue)) → IsPermutation queue r.queue → Holds r → Holds (record r { queue = queue }) }
{
    link_law();
    equality_is_decided::<u64, Row>();
    equality_is_decided::<u64, Command>();
    covered_is_by_counts::<(u64, Row)>();
    covered_is_by_counts::<(u64, Command)>();
}

/// While links of the law stand behind a system, its report shows what holds at every moment, and of all rows.
pub fn what_stands_is_shown()
    ensures holds { (s : System) (el : Elsewhere) → ∥ IsStanding el s ∥₁ → Holds (report_of s) }
    ensures all { (s : System) (el : Elsewhere) → ∥ IsStanding el s ∥₁ → ListsAll s (report_of s) }
{
    lists_are_of_links();
}

/// A report that shows a system has what the system keeps: the rows of the queue in another order, and all else as it is, as far
/// as its numbers reach. They reach far enough for a steady system, which has no more substations than a plan, and counts as many
/// rows as lost as stand in a list of the report. So what holds at every moment holds of the report.
pub fn what_a_report_shows_is_kept()
    ensures queue { (s : System) (r : ReportValue) → Shows s r → IsPermutation r.queue (report_of s).queue }
    ensures others { (s : System) (r : ReportValue) → Shows s r → length s.substations ≤ NUMBERS → lost_in s.concentrator.queue < 2 ^ 64
        → r ≡ record (report_of s) { queue = r.queue } }
    ensures holds { (s : System) (el : Elsewhere) (r : ReportValue) → Shows s r → length r.dropped < 2 ^ 64 → ∥ IsSteadyBeside el s ∥₁ → Holds r }
    ensures all { (s : System) (el : Elsewhere) (r : ReportValue) → Shows s r → ∥ IsSteadyBeside el s ∥₁ → ListsAll s r }
{
    lists_are_of_links();
    what_stands_is_shown();
}

/// Events on the link to a substation at which its master takes no rows: something stands behind the system again, and at
/// the substation happened what had happened, and the rows that a reading makes.
pub fn events_below_keep_what_stands()
    ensures lost { (old new : System) (el : Elsewhere) (substation : ℕ) (way : Way) → IsStanding el old
        → LosesOn (link.Below substation) way old new → Keeps el substation [] old new }
    ensures hung_up { (old new : System) (el : Elsewhere) (substation : ℕ) → IsStanding el old
        → HangsUpOn (link.Below substation) end.Outstation old new → Keeps el substation [] old new }
    ensures restarted { (old new : System) (el : Elsewhere) (substation : ℕ) → IsStanding el old
        → SubstationRestarts substation old new → Keeps el substation [] old new }
    ensures delivered { (old new : System) (el : Elsewhere) (substation : ℕ) → IsStanding el old
        → ComesDownBelow delivered_on substation old new → Keeps el substation [] old new }
    ensures repeated { (old new : System) (el : Elsewhere) (substation : ℕ) → IsStanding el old
        → ComesDownBelow repeated_on substation old new → Keeps el substation [] old new }
    ensures ticked { (old new : System) (el : Elsewhere) (substation : ℕ) → IsStanding el old
        → OutstationTicks (link.Below substation) old new → Keeps el substation [] old new }
    ensures read { (old new : System) (el : Elsewhere) (substation : ℕ) (kind : Kind) (index : ℕ) (reading : Reading) → IsStanding el old
        → (reads : Reads substation kind index reading old new)
        → Keeps el substation (rows_made_by reads.was.core.points (event.Change kind index reading ∷ [])) old new }
{
    lists_are_of_links();
    events_without_a_sink_are_moves();
    a_confirm_releases_what_its_fragment_reported();
    commands_are_performed_as_they_are_asked();
}

/// The same of events at which its lines are damaged, both its ends are opened, or its master asks a task of its own, hangs up or
/// looks at its timer: a substation whose master hung up can't be reached any more, and its readings above say so.
pub fn calls_below_keep_what_stands()
    ensures damaged { (old new : System) (el : Elsewhere) (substation : ℕ) (way : Way) (octets : List ℕ) → IsStanding el old
        → LinesChange (link.Below substation) (DamagesAt way octets) old new → Keeps el substation [] old new }
    ensures opened { (old new : System) (el : Elsewhere) (substation : ℕ) → has_substation old substation ≡ true → IsStanding el old
        → OpensOn (link.Below substation) old new → Keeps el substation [] old new }
    ensures asked { (old new : System) (el : Elsewhere) (substation : ℕ) (task : Task) → has_substation old substation ≡ true → IsStanding el old
        → AsksOn (is_own task) (link.Below substation) task old new → Keeps el substation [] old new }
    ensures hung_up { (old new : System) (el : Elsewhere) (substation : ℕ) → has_substation old substation ≡ true → IsStanding el old
        → HangsUpOn (link.Below substation) end.Master old new → Keeps el substation [] old new }
    ensures ticked { (old new : System) (el : Elsewhere) (substation : ℕ) → has_substation old substation ≡ true → IsStanding el old
        → MasterTicks (link.Below substation) old new → Keeps el substation [] old new }
{
    lists_are_of_links();
    events_without_a_sink_are_moves();
    a_confirm_releases_what_its_fragment_reported();
    commands_are_performed_as_they_are_asked();
    points_stay_sound();
}

/// Events on the link between concentrator and centre at which no row is taken and no fragment comes to the concentrator: a line
/// loses its front unit or is damaged, an end hangs up or looks at its timer, both are opened, or the centre asks a task of its own.
pub fn events_above_keep_what_stands()
    ensures lost { (centre : ℕ) (old new : System) (el : Elsewhere) (substation : ℕ) (way : Way) → IsStanding el old
        → LosesOn (link.Above centre) way old new → Keeps el substation [] old new }
    ensures damaged { (centre : ℕ) (old new : System) (el : Elsewhere) (substation : ℕ) (way : Way) (octets : List ℕ) → IsStanding el old
        → LinesChange (link.Above centre) (DamagesAt way octets) old new → Keeps el substation [] old new }
    ensures centre_hung_up { (centre : ℕ) (old new : System) (el : Elsewhere) (substation : ℕ) → IsStanding el old
        → HangsUpOn (link.Above centre) end.Master old new → Keeps el substation [] old new }
    ensures concentrator_hung_up { (centre : ℕ) (old new : System) (el : Elsewhere) (substation : ℕ) → IsStanding el old
        → HangsUpOn (link.Above centre) end.Outstation old new → Keeps el substation [] old new }
    ensures opened { (centre : ℕ) (old new : System) (el : Elsewhere) (substation : ℕ) → IsStanding el old → OpensOn (link.Above centre) old new → Keeps el substation [] old new }
    ensures centre_ticked { (centre : ℕ) (old new : System) (el : Elsewhere) (substation : ℕ) → IsStanding el old → MasterTicks (link.Above centre) old new
        → Keeps el substation [] old new }
    ensures concentrator_ticked { (centre : ℕ) (old new : System) (el : Elsewhere) (substation : ℕ) → IsStanding el old
        → OutstationTicks (link.Above centre) old new → Keeps el substation [] old new }
    ensures asked { (centre : ℕ) (old new : System) (el : Elsewhere) (substation : ℕ) (task : Task) → IsStanding el old
        → AsksOn (is_own task) (link.Above centre) task old new → Keeps el substation [] old new }
{
    lists_are_of_links();
    events_without_a_sink_are_moves();
    a_confirm_releases_what_its_fragment_reported();
    commands_are_performed_as_they_are_asked();
}

/// So does what comes to the centre, where the unit leaves the line and where it stays there: the rows that the centre takes come into
/// its journal.
pub fn what_comes_to_the_centre_keeps_what_stands()
    ensures delivered { (centre : ℕ) (old new : System) (el : Elsewhere) (substation : ℕ) → IsStanding el old
        → ComesUp delivered_on (link.Above centre) old new → Keeps el substation [] old new }
    ensures repeated { (centre : ℕ) (old new : System) (el : Elsewhere) (substation : ℕ) → IsStanding el old
        → ComesUp repeated_on (link.Above centre) old new → Keeps el substation [] old new }
{
    lists_are_of_links();
    events_without_a_sink_are_moves();
}

/// So does a restart of the concentrator, which hangs up all its ends at once and keeps its queue and its book.
pub fn a_restart_of_the_concentrator_keeps_what_stands()
    ensures { (old new : System) (el : Elsewhere) (substation : ℕ) → IsStanding el old → new ≡ concentrator_restarted old → Keeps el substation [] old new }
{
    lists_are_of_links();
    events_without_a_sink_are_moves();
}

/// Events at which no link moves keep what stands behind the system: a command is issued at the centre, and time passes.
pub fn other_events_keep_what_stands()
    ensures issued { (old new : System) (el : Elsewhere) (substation : ℕ) (command : CommandValue) → IsStanding el old
        → IssuesBy (command_above old.centre.indices substation command) substation command old new → Keeps el substation [] old new }
    ensures passed { (old new : System) (el : Elsewhere) (now : ℕ) (substation : ℕ) → IsStanding el old → new ≡ record old { now = now }
        → Keeps el substation [] old new }
{
    lists_are_of_links();
    commands_are_undone();
}

/// What calls make of the queue and of the books, as the lists of a system see them: rows that are queued stand below as they
/// came, commands that are performed come into the book as they go down, unused, and one that was pending is used once it is spent.
pub fn stores_show_what_moves()
    ensures queued { (indices : List Spans) (plan : points.Plan) (substation : ℕ) (rows : List RowValue) → IsMap indices
        → length (queued_rows indices plan substation rows) ≡ length rows
        → rows_below indices (arriving (queued_rows indices plan substation rows)) ≡ at_substation substation rows }
    ensures added { (indices : List Spans) (book : Ledger) (commands : List CommandValue)
        → (orders_in (all_added indices book commands).entries ≡ orders_in book.entries ++ commands_below indices commands)
        × (used_orders (all_added indices book commands).entries ≡ used_orders book.entries) }
    ensures spent { (book : Ledger) (id : ℕ) (entry : Entry) → entry_of book.entries id ≡ Some entry → is_pending entry.state ≡ true
        → (orders_in (spent book id).entries ≡ orders_in book.entries)
        × IsCoveredBy (used_orders book.entries ++ order_of entry ∷ []) (used_orders (spent book id).entries) }
    ensures finished { (book : Ledger) (id status : ℕ) → (orders_in (finished book id status).entries ≡ orders_in book.entries)
        × IsCoveredBy (used_orders book.entries) (used_orders (finished book id status).entries) }
{
    rows_above_are_undone();
}
