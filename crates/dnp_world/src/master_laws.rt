//! Laws of a master on a link: each of its calls is a few moves of the link. Each function does nothing, and its
//! contract is a law.

ghost use Rattle.std.specs.Prelude.{◌≡◌, ◌<◌, ℕ, List, ◌∷◌, map, IfOk, Ok, slice_get, Some};
ghost use Rattle.dnp_master.specs.declared.task.Task.{Task as TaskValue};
ghost use Rattle.dnp_master.specs.Calls.{ask_answer, asked, receive_of, unheeded};
ghost use Rattle.dnp_master.specs.State as state;
ghost use Rattle.dnp_master.specs.State.{State, ticked};
ghost use Rattle.dnp_world.specs.LawLink.{LawLink, Up, Asks};
ghost use Rattle.dnp_world.specs.Moves.{Move, Moves, asking, lost_up, opened};
ghost use Rattle.dnp_world.specs.MasterSeen.{master_of, down_of, octets_of, with_master_of, MasterTakes, master_hung_up};
ghost use Rattle.dnp_world.specs.Standing.{CarriesLaw};

use dnp_master::laws::{an_idle_master_asks, what_comes_is_taken_or_passed_over};

/// A fragment that comes up, where the sink takes its rows, is at most one move: the rows of the fragment
/// are taken, all of them, and confirmed by its number exactly where CON asks for that. Where it is at some place of
/// what may come, those before it are lost. What the master refuses, or its sink, is no move, as what it
/// passes over is none.
pub fn a_master_takes_by_moves()
    ensures first { (s : State) (now : ℕ) (l : LawLink) (up : Up) (rest : List Up) → CarriesLaw l → l.master ≡ master_of s
        → l.up ≡ up ∷ rest → IfOk (receive_of s now (octets_of up)) (λ t. MasterTakes t l) }
    ensures came { (s : State) (now : ℕ) (l : LawLink) (n : ℕ) (octets : List ℕ) → CarriesLaw l → l.master ≡ master_of s
        → slice_get (map octets_of l.up) n ≡ Some octets
        → Move l (lost_up n l) × IfOk (receive_of s now octets) (λ t. MasterTakes t (lost_up n l)) }
    ensures refused { (s : State) (l : LawLink) → l.master ≡ master_of s → MasterTakes (unheeded s) l }
{
    what_comes_is_taken_or_passed_over();
}

/// A task that is asked is one move: its octets are a request, with the master's number.
pub fn a_master_asks_by_a_move()
    ensures { (s : State) (now : ℕ) (task : TaskValue) (octets : List ℕ) (l : LawLink) → s.seq < 16
        → l.master ≡ master_of s → ask_answer s task ≡ Ok octets
        → Move l (asking octets l) × ((asking octets l).master ≡ master_of (asked s now task)) × (down_of octets ≡ Asks octets) }
{
    an_idle_master_asks();
}

/// An opening of a master is part of the link's. A hang-up closes it, and what may come up is lost. A tick
/// closes it or does nothing.
pub fn a_master_opens_and_closes_by_moves()
    ensures opened { (s : State) (l : LawLink) → Move l (opened l) × ((opened l).master ≡ master_of (state.opened s)) }
    ensures hung_up { (s : State) (l : LawLink) → Moves l (master_hung_up s l) }
    ensures ticked { (s : State) (now : ℕ) (l : LawLink) → l.master ≡ master_of s → Moves l (with_master_of (ticked s now) l) }
{}
