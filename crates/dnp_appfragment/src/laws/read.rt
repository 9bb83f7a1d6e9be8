//! Laws of what is read: the functions of octets say what the grammar says.
ghost use Rattle.std.specs.Prelude.{◌≡◌, ◌<◌, ◌≤◌, ◌-◌, ◌^◌, ◌↔◌, ℕ, List, Ok, Err, Some, IsSome, length, slice_index};
ghost use Rattle.std.specs.List.{All};
ghost use Rattle.dnp_objects.specs.Events.{IsEvent};
ghost use Rattle.dnp_objects.specs.declared.row.Row.{Row};
ghost use Rattle.dnp_objects.specs.declared.command.Command.{Command};
ghost use Rattle.dnp_appfragment.specs.declared.fault.AppFault.{AppFault};
ghost use Rattle.dnp_appfragment.specs.EventRows.{answered_events};
ghost use Rattle.dnp_appfragment.specs.Control.{ControlBits, IsControl, control_octet};
ghost use Rattle.dnp_appfragment.specs.Fragments.{Asked, Answered, IsRequest, IsResponse};
ghost use Rattle.dnp_appfragment.specs.Faults.{IsRequestFault, IsResponseFault};
ghost use Rattle.dnp_appfragment.specs.Headers.{Head, count_of};
ghost use Rattle.dnp_appfragment.specs.Meaning.{control_of, request_at, response_at, row_in, command_in};
ghost use Rattle.dnp_appfragment.specs.Objects.{IsRow, IsCommand, HasRows, HasCommands};
ghost use Rattle.dnp_appfragment.specs.Table.{function_octet};

use dnp_objects::laws::{
    a_read_row_is_an_event, a_relative_row_is_read, octets_are_read_as_one_command,
    octets_are_read_as_one_row,
};

/// `request_at` gives the request that octets are, and the fault that they have.
pub fn octets_say_a_request()
    ensures request { (octets : List ℕ) (asked : Asked) → All (λ octet. octet < 2 ^ 8) octets
        → (request_at octets ≡ Ok asked) ↔ IsRequest octets asked }
    ensures fault { (octets : List ℕ) (fault : AppFault) → All (λ octet. octet < 2 ^ 8) octets
        → (request_at octets ≡ Err fault) ↔ IsRequestFault octets fault }
{}

/// `response_at` gives the response that octets are, and the fault that they have.
pub fn octets_say_a_response()
    ensures response { (octets : List ℕ) (answered : Answered) → All (λ octet. octet < 2 ^ 8) octets
        → (response_at octets ≡ Ok answered) ↔ IsResponse octets answered }
    ensures fault { (octets : List ℕ) (fault : AppFault) → All (λ octet. octet < 2 ^ 8) octets
        → (response_at octets ≡ Err fault) ↔ IsResponseFault octets fault }
{}

/// The octet that a control is spelled as says just that control, and a request's second octet is that of its function.
pub fn octets_say_their_control_and_function()
    ensures control { (control : ControlBits) → IsControl control → control_of (control_octet control) ≡ control }
    ensures function { (octets : List ℕ) (asked : Asked) → request_at octets ≡ Ok asked
        → slice_index octets 1 ≡ function_octet asked.function }
{}

/// `row_in` and `command_in` give the row and the command that object k of a header is. In a
/// response each row is there that the range names, and in any fragment each such command.
pub fn objects_say_rows_and_commands()
    ensures row { (header : Head) (k : ℕ) (row : Row) → All (λ octet. octet < 2 ^ 8) header.octets
        → (row_in header k ≡ Some row) ↔ IsRow header k row }
    ensures command { (header : Head) (k : ℕ) (answer : Command × ℕ) → All (λ octet. octet < 2 ^ 8) header.octets
        → (command_in header k ≡ Some answer) ↔ IsCommand header k answer }
    ensures row_there { (header : Head) (k : ℕ) → HasRows header → k < count_of header.range → IsSome (row_in header k) }
    ensures command_there { (header : Head) (k : ℕ) → HasCommands header → k < count_of header.range → IsSome (command_in header k) }
{
    octets_are_read_as_one_row();
    a_relative_row_is_read();
    octets_are_read_as_one_command();
}

/// The row and the command that object k of a header is are those that `row_in` and `command_in` give,
/// of octets and of any other numbers.
pub fn what_is_there_is_said()
    ensures row { (header : Head) (k : ℕ) (row : Row) → IsRow header k row → row_in header k ≡ Some row }
    ensures command { (header : Head) (k : ℕ) (answer : Command × ℕ) → IsCommand header k answer
        → command_in header k ≡ Some answer }
{
    octets_are_read_as_one_row();
    a_relative_row_is_read();
    octets_are_read_as_one_command();
}

/// A row of a header, of packed bits too, is one that an event object of its kind carries.
pub fn rows_are_events()
    ensures { (header : Head) (k : ℕ) (row : Row) → IsRow header k row → IsEvent row }
{
    a_read_row_is_an_event();
    a_relative_row_is_read();
}

/// A response has no more event rows than octets after its first four, since each has an octet of flags at least; octets that
/// are no response have none.
pub fn events_have_octets()
    ensures { (octets : List ℕ) → All (λ octet. octet < 2 ^ 8) octets
        → length (answered_events (response_at octets)) ≤ length octets - 4 }
{}
