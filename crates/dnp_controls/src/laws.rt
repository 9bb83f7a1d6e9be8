//! Laws of the words of `specs/`: each function does nothing, and its contract is a law.

ghost use Rattle.std.specs.Prelude.{◌≡◌, ◌≤◌, ◌↔◌, ℕ, true, false, List, [], ◌∷◌, ◌++◌, Some, None, MatchOption, count_by, length, unwrap_or};
ghost use Rattle.std.specs.List.{flat_map};
ghost use Rattle.std.specs.Option.{option_or};
ghost use Rattle.dnp_objects.specs.declared.command.Command.{Command};
ghost use Rattle.dnp_objects.specs.Status as status;
ghost use Rattle.dnp_controls.specs.Book.{Ledger, IsSoundLedger, AreNumberedFrom, empty_ledger, entry_of, next_of, is_finished};
ghost use Rattle.dnp_controls.specs.Latches.{PlainState, latch_of, is_latched, setting_of, value_of};
ghost use Rattle.dnp_controls.specs.Moves.{Move, AreGranted, after, is_spend_of, IsNext, HasNoNext};
ghost use Rattle.dnp_controls.specs.Panel.{PerformedRequest, accepted, performed_after};
ghost use Rattle.dnp_controls.specs.Selecting.{Select, SelectCall, Operating, Forgetting, standing, MakesNoSelect, GoesWith, IsRunning, HasEnded, answer};
ghost use Rattle.dnp_controls.specs.declared.book.Entry.{Entry};
ghost use Rattle.dnp_controls.specs.declared.limits.TheConstants as limits;
ghost use Rattle.dnp_controls.specs.declared.select.TheConstants as selecting;

use crate::latest_outputs::LatestOutputs;
use crate::outputs::Outputs;
use crate::plain_outputs::PlainOutputs;

/// An OPERATE that finds a select is answered SUCCESS exactly where it goes with the select and the
/// select's timer still runs, TIMEOUT exactly where it goes with it and the timer has ended, and NO_SELECT
/// exactly where it does not go with it. One that finds no select is answered NO_SELECT.
pub fn an_operate_is_answered_by_its_select()
    ensures success { (select : Select) (now seq : ℕ) (octets : List ℕ) (time : ℕ)
        → (answer (Some select) now seq octets time ≡ status.success) ↔ (GoesWith select seq octets × IsRunning select time now) }
    ensures timeout { (select : Select) (now seq : ℕ) (octets : List ℕ) (time : ℕ)
        → (answer (Some select) now seq octets time ≡ status.timeout) ↔ (GoesWith select seq octets × HasEnded select time now) }
    ensures no_select { (select : Select) (now seq : ℕ) (octets : List ℕ) (time : ℕ)
        → (answer (Some select) now seq octets time ≡ status.no_select) ↔ (GoesWith select seq octets → ⊥) }
    ensures none { (now seq : ℕ) (octets : List ℕ) (time : ℕ) → answer None now seq octets time ≡ status.no_select }
{}

/// A select serves one OPERATE: after an OPERATE, and after selects were forgotten, none stands before
/// the next one is made, whatever else is called.
pub fn a_select_serves_once()
    ensures operated { (calls more : List SelectCall) → MakesNoSelect more → standing (more ++ Operating ∷ calls) ≡ None }
    ensures forgotten { (calls more : List SelectCall) → MakesNoSelect more → standing (more ++ Forgetting ∷ calls) ≡ None }
{}

/// The commands that are performed after some requests are those that were performed before them, and
/// then those of each request that were accepted, request by request.
pub fn performed_commands_are_the_accepted_ones()
    ensures { (performed : List Command) (requests : List PerformedRequest) → performed_after performed requests
        ≡ performed ++ flat_map (λ request. accepted request.check request.commands) requests }
{}

/// A performed command brings the output that it is for into the state that it orders, and leaves every other output in the
/// state in which it was. Before the first one no output is latched on, and no setpoint has a value.
pub fn an_output_keeps_its_latest_state()
    ensures latched { (performed : List Command) (command : Command) (output : ℕ)
        → is_latched (performed ++ command ∷ []) output ≡ unwrap_or (latch_of output command) (is_latched performed output) }
    ensures valued { (performed : List Command) (command : Command) (setpoint : ℕ)
        → value_of (performed ++ command ∷ []) setpoint ≡ option_or (setting_of setpoint command) (value_of performed setpoint) }
    ensures first { (output : ℕ) → (is_latched [] output ≡ false) × (value_of [] output ≡ None) }
{}

/// Outputs that keep their states alone answer, show and perform what those that keep their commands do: after the same
/// commands nobody can tell the two apart by these.
pub fn latest_outputs_are_seen_as_plain_ones()
    ensures panel { ⟦<LatestOutputs as Outputs>⟧.panel ≡ ⟦<PlainOutputs as Outputs>⟧.panel }
    ensures performs { (old new : PlainState) (commands : List Command)
        → ⟦<LatestOutputs as Outputs>⟧.performs old commands new ↔ ⟦<PlainOutputs as Outputs>⟧.performs old commands new }
{}

/// The next entry for a target is the pending one of the least id, where there is one.
pub fn the_next_entry_is_the_least()
    ensures { (book : Ledger) (target : ℕ) → IsSoundLedger book → MatchOption (next_of book.entries target) (HasNoNext book.entries target) (IsNext book.entries target) }
{}

/// An entry is spent by at most one call, over every list of calls that a book grants.
pub fn an_entry_is_spent_once()
    ensures { (book : Ledger) (moves : List Move) (id : ℕ) → AreGranted book moves → count_by (is_spend_of id) moves ≤ 1 }
{}

/// A finished entry never changes again.
pub fn a_finished_entry_stays()
    ensures { (book : Ledger) (moves : List Move) (id : ℕ) (entry : Entry) → AreGranted book moves
        → entry_of book.entries id ≡ Some entry → is_finished entry.state ≡ true → entry_of (after book moves).entries id ≡ Some entry }
{}

/// A book stays sound. One that began empty has the ids 1, 2, 3 and so on, and its last id is the number
/// of its entries.
pub fn ids_go_on()
    ensures sound { (book : Ledger) (moves : List Move) → IsSoundLedger book → IsSoundLedger (after book moves) }
    ensures numbered { (moves : List Move) → AreNumberedFrom 1 (after empty_ledger moves).entries }
    ensures counted { (moves : List Move) → (after empty_ledger moves).last_id ≡ length (after empty_ledger moves).entries }
{}

/// The named limits are these numbers: those of commands, outputs and targets are the library's own measures, a request
/// has at most the octets of a fragment, and sequence numbers have four bits (IEEE Std 1815-2012, application layer:
/// application control octet).
pub fn limits_have_their_values()
    ensures commands { limits.MAX_COMMANDS ≡ 8 }
    ensures outputs { limits.MAX_OUTPUTS ≡ 256 }
    ensures targets { limits.TARGETS ≡ 16 }
    ensures sequence_numbers { limits.SEQUENCE_NUMBERS ≡ 16 }
    ensures octets { selecting.MAX_OCTETS ≡ 2048 }
{}
