//! Laws of a control on its way over a link: what an outstation answers to the requests of a command, how a master hears it, and what
//! comes of it. Each function does nothing, and its contract is a law.

ghost use Rattle.std.specs.Prelude.{◌≡◌, ◌<◌, ℕ, true, [], List, IfOk, IsOk, Some};
ghost use Rattle.dnp_appfragment.specs.Fragments.{confirmation, request_octets};
ghost use Rattle.dnp_controls.specs.Panel.{Panel};
ghost use Rattle.dnp_controls.specs.declared.book.Entry.{Entry as EntryValue};
ghost use Rattle.dnp_master.specs.Calls.{receive_of};
ghost use Rattle.dnp_master.specs.Outcomes.{command_for};
ghost use Rattle.dnp_master.specs.Requests.{request_for};
ghost use Rattle.dnp_master.specs.State as master;
ghost use Rattle.dnp_master.specs.declared.task.Task.{Task as TaskValue};
ghost use Rattle.dnp_master.specs.declared.task.Task.TheVariants as task;
ghost use Rattle.dnp_objects.specs.declared.command.Command.{Command as CommandValue};
ghost use Rattle.dnp_outstation.specs.Calls.{connection_after, performed_in};
ghost use Rattle.dnp_outstation.specs.State.{State};
ghost use Rattle.dnp_eventbuf.specs.declared.pair.TheConstants.{CENTRES};
ghost use Rattle.dnp_world.specs.Behind.{Elsewhere};
ghost use Rattle.dnp_world.specs.BothSteady.{AreSteady};
ghost use Rattle.dnp_world.specs.Centres.{HappensToAll};
ghost use Rattle.dnp_world.specs.CommandWidths.{HasWidths};
ghost use Rattle.dnp_world.specs.ControlAnswers.{Answers, Awaits, CanAnswer, HearsStatus, LeavesRequest, PassesReport, Repeats, WasAsked, operated_by};
ghost use Rattle.dnp_world.specs.Controls.{CanGo, IsControl, IsRefusedControl};
ghost use Rattle.dnp_world.specs.ControlsInStep.{InStep};
ghost use Rattle.dnp_world.specs.ControlMoves.{ControlMoves};
ghost use Rattle.dnp_world.specs.SystemRuns.{Happens};
ghost use Rattle.dnp_world.specs.SystemStanding.{IsStanding};
ghost use Rattle.dnp_world.specs.ControlExchanges.{CanBegin, ChecksAs, ExchangeEnds, GoesOver, HasSelected, OperateComesTo, SelectComesTo};
ghost use Rattle.dnp_world.specs.Octets.{uns_in};
ghost use Rattle.dnp_world.specs.Systems.{System, itself};
ghost use Rattle.dnp_world.specs.Wholes.{Whole, seen_by};

use crate::arriving_laws::what_is_sent_arrives;
use dnp_appfragment::laws::{
    a_header_holds_what_was_put, octets_say_their_control_and_function, what_is_held_is_read,
    what_is_spelled_is_said, what_is_there_is_said,
};
use dnp_concentrator::laws::commands_are_undone;
use dnp_controls::laws::ids_go_on;
use dnp_eventbuf::laws::a_release_conserves_rows;
use dnp_objects::Command;
use dnp_objects::laws::equality_is_decided;
use dnp_outstation::link_laws::{
    a_confirm_releases_what_its_fragment_reported, a_repeated_request_executes_nothing,
    commands_are_performed_as_they_are_asked, each_case_says_what_came,
};

/// An open outstation that is asked a SELECT which isn't its last request again repeats its command with the status of its outputs,
/// and performs nothing.
pub fn a_quiet_outstation_answers_a_select()
    ensures answers { (s : State) (o : Panel) (now seq : ℕ) (command : CommandValue) → seq < 16 → HasWidths command
        → (let octets = request_octets (request_for seq (task.Select command)) in
        CanAnswer octets command s o → Answers command seq (o.check command) octets s.performed [] (connection_after s o now octets)) }
    ensures performs { (s : State) (o : Panel) (now seq : ℕ) (command : CommandValue) → seq < 16 → HasWidths command
        → (let octets = request_octets (request_for seq (task.Select command)) in
        CanAnswer octets command s o → performed_in s.core o now octets ≡ []) }
{
    octets_say_their_control_and_function();
    a_header_holds_what_was_put();
    what_is_held_is_read();
    what_is_there_is_said();
    what_is_spelled_is_said();
}

/// One that is asked an OPERATE repeats its command with some status, and performs it, once, exactly where that is SUCCESS.
pub fn a_quiet_outstation_answers_an_operate()
    ensures { (s : State) (o : Panel) (now seq : ℕ) (command : CommandValue) → seq < 16 → HasWidths command
        → (let octets = request_octets (request_for seq (task.Operate command)) in
        CanAnswer octets command s o
        → (status : ℕ) × Answers command seq status octets s.performed (operated_by status command) (connection_after s o now octets)
        × (performed_in s.core o now octets ≡ operated_by status command)) }
{
    octets_say_their_control_and_function();
    a_header_holds_what_was_put();
    what_is_held_is_read();
    what_is_there_is_said();
    what_is_spelled_is_said();
}

/// The confirm of an unsolicited response leaves the last request alone, and performs nothing.
pub fn a_confirmed_report_leaves_a_request()
    ensures leaves { (s : State) (o : Panel) (now seq : ℕ) (last : List ℕ) → seq < 16 → WasAsked last s.core
        → LeavesRequest last s.performed (connection_after s o now (request_octets (confirmation seq true))) }
    ensures performs { (s : State) (o : Panel) (now seq : ℕ) (last : List ℕ) → seq < 16 → WasAsked last s.core
        → performed_in s.core o now (request_octets (confirmation seq true)) ≡ [] }
{
    octets_say_their_control_and_function();
}

/// A master takes the response that repeats the command of its task, and knows its status then. An unsolicited response leaves the
/// master as it is, and is confirmed as one.
pub fn a_master_hears_its_control()
    ensures hears { (s : master.State) (now status : ℕ) (task : TaskValue) (command : CommandValue) (octets : List ℕ)
        → command_for task ≡ Some command → HasWidths command → Awaits task s → Repeats command s.seq status octets
        → IfOk (receive_of s now octets) (HearsStatus task status s) }
    ensures takes { (s : master.State) (now status : ℕ) (task : TaskValue) (command : CommandValue) (octets : List ℕ)
        → command_for task ≡ Some command → HasWidths command → Awaits task s → Repeats command s.seq status octets
        → IsOk (receive_of s now octets) }
    ensures report { (s : master.State) (now : ℕ) (octets : List ℕ) → uns_in octets ≡ true → IfOk (receive_of s now octets) (PassesReport s) }
{
    a_header_holds_what_was_put();
    what_is_held_is_read();
    what_is_there_is_said();
    what_is_spelled_is_said();
    equality_is_decided::<u64, Command>();
}

/// A control that goes over a link in two steps of relaying, whatever reports go beside it: its SELECT performs nothing, and then it
/// stands selected, or the book is told the status that the outputs have for it. Its OPERATE is answered with a status that the book
/// is told, and performs the command, once, exactly where that is SUCCESS.
pub fn an_accepted_control_operates()
    ensures selects { (target now check : ℕ) (entry : EntryValue) (old selected : ExchangeEnds) (commands : List CommandValue) → check < 128
        → CanBegin target entry old → GoesOver target now (ChecksAs entry.command check) commands old selected
        → (commands ≡ []) × SelectComesTo target check entry selected }
    ensures operates { (target now check : ℕ) (entry : EntryValue) (selected operated : ExchangeEnds) (commands : List CommandValue) → check < 128
        → HasSelected entry selected → GoesOver target now (ChecksAs entry.command check) commands selected operated
        → OperateComesTo target check entry commands operated }
{
    octets_say_their_control_and_function();
    a_header_holds_what_was_put();
    what_is_held_is_read();
    what_is_there_is_said();
    what_is_spelled_is_said();
    equality_is_decided::<u64, Command>();
}

/// A control that goes all the way from a system whose links are quiet, where it comes next, has moved its command, whether or not it was
/// in progress above: the substation that it is for has performed it, once, and both books say SUCCESS of it. One that a status
/// ends has operated nothing.
pub fn a_clean_control_operates()
    ensures moves { (centre id : ℕ) (old new : System) (el : Elsewhere) → IsStanding el old → InStep old → CanGo id old
        → IsControl Happens itself centre id old new → ControlMoves id old new }
    ensures rests { (centre id status : ℕ) (old new : System) (el : Elsewhere) → IsStanding el old → InStep old → CanGo id old
        → IsRefusedControl Happens itself centre id status old new → new.history.operated ≡ old.history.operated }
{
    octets_say_their_control_and_function();
    a_header_holds_what_was_put();
    what_is_held_is_read();
    what_is_there_is_said();
    what_is_spelled_is_said();
    equality_is_decided::<u64, Command>();
    what_is_sent_arrives();
    ids_go_on();
    each_case_says_what_came();
    a_confirm_releases_what_its_fragment_reported();
    a_release_conserves_rows();
    commands_are_performed_as_they_are_asked();
    a_repeated_request_executes_nothing();
    commands_are_undone();
}

/// So it is with two centres, as the control's own centre sees it.
pub fn a_clean_control_operates_for_its_centre()
    ensures moves { (centre id : ℕ) (old new : Whole) → centre < CENTRES → AreSteady old → CanGo id (seen_by centre old)
        → IsControl HappensToAll (seen_by centre) centre id old new → ControlMoves id (seen_by centre old) (seen_by centre new) }
    ensures rests { (centre id status : ℕ) (old new : Whole) → centre < CENTRES → AreSteady old → CanGo id (seen_by centre old)
        → IsRefusedControl HappensToAll (seen_by centre) centre id status old new → new.history.operated ≡ old.history.operated }
{
    a_clean_control_operates();
}
