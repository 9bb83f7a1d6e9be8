//! Which point a standing select reserves. Each law is the contract of a function that does nothing.

ghost use Rattle.std.specs.Prelude.{◌≡◌, ℕ, List};
ghost use Rattle.dnp_controls.specs.Panel.{Panel};
ghost use Rattle.dnp_outstation.specs.Calls.{connection_after, opened_of, restarted_core, tick_of};
ghost use Rattle.dnp_outstation.specs.Connection.{closed};
ghost use Rattle.dnp_outstation.specs.State.{Core, State};
ghost use Rattle.dnp_outstation.specs.Station.{new_core};
ghost use Rattle.dnp_pointdb.specs.Database.{Database};
ghost use Rattle.dnp_pointdb.specs.declared.times.Times.{Times as TimesValue};
ghost use Rattle.dnp_concentrator.specs.Reserving.{NamesOne};

use dnp_outstation::link_laws::{
    a_repeated_request_executes_nothing, an_operate_needs_its_select, each_case_says_what_came,
};

/// The select that stands at an outstation whose outputs carry out one command of a request, as a concentrator's do, has
/// one command at most, from the new outstation on and whatever comes: so the point that it reserves is all that it names.
pub fn a_standing_select_names_one_command()
    ensures new { (points : Database) (times : TimesValue) → NamesOne (new_core points times).session.selects }
    ensures opened { (s : State) (now : ℕ) → NamesOne (opened_of s now).state.core.session.selects }
    ensures received { (s : State) (o : Panel) (now : ℕ) (octets : List ℕ) → o.most ≡ 1 → NamesOne s.core.session.selects
        → NamesOne (connection_after s o now octets).state.core.session.selects }
    ensures ticked { (s : State) (now : ℕ) → NamesOne s.core.session.selects → NamesOne (tick_of s now).state.core.session.selects }
    ensures closed { (c : Core) → NamesOne (closed c).session.selects }
    ensures restarted { (c : Core) → NamesOne (restarted_core c).session.selects }
{
    an_operate_needs_its_select();
    a_repeated_request_executes_nothing();
    each_case_says_what_came();
}
