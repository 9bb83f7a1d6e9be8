//! Laws of what a clean round moves. Each function does nothing, and its contract is a law.

ghost use Rattle.std.specs.Prelude.{◌≡◌, ℕ, All, Ok, true};
ghost use Rattle.dnp_eventbuf.specs.Sound.{IsSoundBuffer};
ghost use Rattle.dnp_master.specs.Calls.{ask_answer, asked, receive_of};
ghost use Rattle.dnp_master.specs.Rows.{is_reported};
ghost use Rattle.dnp_master.specs.State as master;
ghost use Rattle.dnp_outstation.specs.Polled.{Offers, poll_octets, polled_rows};
ghost use Rattle.dnp_outstation.specs.State.{State, Step};
ghost use Rattle.dnp_world.specs.Behind.{Elsewhere};
ghost use Rattle.dnp_world.specs.BothSteady.{AreSteady};
ghost use Rattle.dnp_world.specs.Centres as all;
ghost use Rattle.dnp_world.specs.Centres.{HappensToAll, centre_of, seen_at};
ghost use Rattle.dnp_world.specs.Polled.{Takes};
ghost use Rattle.dnp_world.specs.declared.event.Link.{Link};
ghost use Rattle.dnp_world.specs.Movement.{RoundMoves};
ghost use Rattle.dnp_world.specs.Rounds.{IsRound, events_polled, is_quiet_on};
ghost use Rattle.dnp_world.specs.Steady.{IsSteadyBeside};
ghost use Rattle.dnp_world.specs.SystemRuns.{Happens};
ghost use Rattle.dnp_world.specs.Systems.{System, itself};
ghost use Rattle.dnp_world.specs.WholeMoves.{RoundMovesAll};
ghost use Rattle.dnp_world.specs.Wholes.{Whole};

use crate::arriving_laws::what_is_sent_arrives;
use crate::planned_laws::rows_in_lanes_are_asked_for;
use dnp_concentrator::laws::no_event_is_passed_over;
use dnp_outstation::laws::a_release_takes_what_the_octets_said;
use dnp_outstation::link_laws::{
    a_confirm_releases_what_its_fragment_reported, commands_are_performed_as_they_are_asked,
    each_case_says_what_came, what_is_sound_can_be_written,
};
use dnp_outstation::poll_laws::{
    a_fragment_of_classes_is_said_and_released, a_quiet_outstation_offers_its_events,
};

/// An idle master asks a READ of classes 1, 2 and 3, and takes what is offered for it, where its plan has a class for each row.
pub fn a_master_takes_what_it_polled()
    ensures asks { (m : master.State) → master.is_idle m ≡ true → ask_answer m events_polled ≡ Ok (poll_octets m.seq) }
    ensures takes { (m : master.State) (before now : ℕ) (s : State) (step : Step) → master.is_idle m ≡ true
        → IsSoundBuffer s.lanes → (offer : Offers m.seq s step)
        → All (λ row. is_reported m.plan row ≡ true) (polled_rows s.lanes)
        → Takes m.seq (polled_rows s.lanes) offer.con (receive_of (asked m before events_polled) now offer.fragment) }
{
    a_fragment_of_classes_is_said_and_released();
}

/// What a clean round over a quiet link moves: the first rows of the lanes below, as many as fit into a fragment, leave them and
/// come to the end above, all of them, in their order, and nothing else moves. Where its READ is taken for the last request, as it can be after
/// a response of a multiple of sixteen fragments, nothing moves, but for an unsolicited response that the concentrator starts then,
/// and the master goes on waiting.
pub fn a_clean_round_moves_rows()
    ensures { (on : Link) (old new : System) (el : Elsewhere) → IsSteadyBeside el old → is_quiet_on old on ≡ true
        → IsRound Happens itself on old new → RoundMoves on old new }
{
    a_quiet_outstation_offers_its_events();
    a_master_takes_what_it_polled();
    what_is_sound_can_be_written();
    what_is_sent_arrives();
    rows_in_lanes_are_asked_for();
    no_event_is_passed_over();
    a_fragment_of_classes_is_said_and_released();
    a_release_takes_what_the_octets_said();
    a_confirm_releases_what_its_fragment_reported();
    commands_are_performed_as_they_are_asked();
    each_case_says_what_came();
}

/// So it is with two centres, as each of them sees it: over a link below rows come into the queues for both; over one above they go into
/// that centre's journal, and to the other one nothing moves, but that another point may be reserved.
pub fn a_clean_round_moves_rows_for_each_centre()
    ensures { (on : Link) (old new : Whole) → AreSteady old → all.is_quiet_on old on ≡ true
        → IsRound HappensToAll (seen_at (centre_of on)) on old new → RoundMovesAll on old new }
{
    a_clean_round_moves_rows();
}
