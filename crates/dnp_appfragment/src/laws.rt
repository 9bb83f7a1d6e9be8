//! Laws of the words of `specs/`: each function does nothing, and its contract is a law.
ghost use Rattle.std.specs.Prelude.{◌≡◌, ◌^◌, ℕ, false, true, List, [], ◌∷◌, map, Ok};
ghost use Rattle.dnp_appfragment.specs.declared.fault.AppFault.{AppFault};
ghost use Rattle.dnp_appfragment.specs.declared.iin.Iin.{Iin as IinValue};
ghost use Rattle.dnp_appfragment.specs.declared.qualifier.TheConstants as qualifier;
ghost use Rattle.dnp_appfragment.specs.declared.table.Form.TheVariants as form;
ghost use Rattle.dnp_appfragment.specs.Control.{IsControl};
ghost use Rattle.dnp_appfragment.specs.Table.{form_of, is_response};
ghost use Rattle.dnp_appfragment.specs.Headers.{AreHeaders, begin};
ghost use Rattle.dnp_appfragment.specs.Fragments.{Asked, Answered, IsRequest, IsResponse, request_octets, response_octets};
ghost use Rattle.dnp_appfragment.specs.Meaning.{request_at, response_at};
ghost use Rattle.dnp_appfragment.specs.Faults.{IsRequestFault, IsResponseFault};

use crate::iin::Iin;

mod built;
mod read;

pub use built::{
    a_common_time_stays, a_header_holds_what_was_put, what_is_held_is_read, what_is_put_is_held,
    what_is_put_stands_in_a_response,
};
pub use read::{
    events_have_octets, objects_say_rows_and_commands, octets_say_a_request, octets_say_a_response,
    octets_say_their_control_and_function, rows_are_events, what_is_there_is_said,
};

/// Octets are one request at most, and have one fault at most, and never both.
pub fn octets_are_one_request()
    ensures one { (octets : List ℕ) (a b : Asked) → IsRequest octets a → IsRequest octets b → a ≡ b }
    ensures one_fault { (octets : List ℕ) (e d : AppFault) → IsRequestFault octets e → IsRequestFault octets d → e ≡ d }
    ensures apart { (octets : List ℕ) (a : Asked) (e : AppFault) → IsRequest octets a → IsRequestFault octets e → ⊥ }
{}

/// Octets are one response at most, and have one fault at most, and never both.
pub fn octets_are_one_response()
    ensures one { (octets : List ℕ) (a b : Answered) → IsResponse octets a → IsResponse octets b → a ≡ b }
    ensures one_fault { (octets : List ℕ) (e d : AppFault) → IsResponseFault octets e → IsResponseFault octets d → e ≡ d }
    ensures apart { (octets : List ℕ) (a : Answered) (e : AppFault) → IsResponse octets a → IsResponseFault octets e → ⊥ }
{}

/// A control, a function and headers that stand in the table for it are spelled as a fragment that
/// says just these.
pub fn what_is_spelled_is_a_fragment()
    ensures request { (asked : Asked) → IsControl asked.control → is_response asked.function ≡ false
        → AreHeaders (form_of asked.function) begin asked.headers → IsRequest (request_octets asked) asked }
    ensures response { (answered : Answered) → IsControl answered.control → is_response answered.function ≡ true
        → AreHeaders form.Response begin answered.headers → IsResponse (response_octets answered) answered }
{}

/// So `request_at` and `response_at` give of those octets what they were spelled from.
pub fn what_is_spelled_is_said()
    ensures request { (asked : Asked) → IsControl asked.control → is_response asked.function ≡ false
        → AreHeaders (form_of asked.function) begin asked.headers → request_at (request_octets asked) ≡ Ok asked }
    ensures response { (answered : Answered) → IsControl answered.control → is_response answered.function ≡ true
        → AreHeaders form.Response begin answered.headers → response_at (response_octets answered) ≡ Ok answered }
{}

/// Where no headers are looked for there are none.
pub fn a_bare_request_has_no_headers()
    ensures { (octets : List ℕ) (asked : Asked) → IsRequest octets asked → form_of asked.function ≡ form.Bare
        → asked.headers ≡ [] }
{}

/// Each named qualifier is this octet.
pub fn qualifiers_have_their_octets()
    ensures { (qualifier.SPAN ∷ qualifier.WIDE_SPAN ∷ qualifier.ALL ∷ qualifier.COUNT ∷ qualifier.WIDE_COUNT ∷ qualifier.INDEXED
        ∷ qualifier.WIDE_INDEXED ∷ []) ≡ 0x00 ∷ 0x01 ∷ 0x06 ∷ 0x07 ∷ 0x08 ∷ 0x17 ∷ 0x28 ∷ [] }
{}

/// Each named indication is one bit of its octet, and `NONE` has no bit.
pub fn indications_have_their_bits()
    ensures one { map (λ (iin : IinValue). iin.one) (Iin.BROADCAST ∷ Iin.CLASS_1_EVENTS ∷ Iin.CLASS_2_EVENTS
        ∷ Iin.CLASS_3_EVENTS ∷ Iin.NEED_TIME ∷ Iin.LOCAL_CONTROL ∷ Iin.DEVICE_TROUBLE ∷ Iin.DEVICE_RESTART ∷ [])
        ≡ map (λ bit. 2 ^ bit) (0 ∷ 1 ∷ 2 ∷ 3 ∷ 4 ∷ 5 ∷ 6 ∷ 7 ∷ []) }
    ensures only_one { map (λ (iin : IinValue). iin.two) (Iin.BROADCAST ∷ Iin.CLASS_1_EVENTS ∷ Iin.CLASS_2_EVENTS
        ∷ Iin.CLASS_3_EVENTS ∷ Iin.NEED_TIME ∷ Iin.LOCAL_CONTROL ∷ Iin.DEVICE_TROUBLE ∷ Iin.DEVICE_RESTART ∷ [])
        ≡ 0 ∷ 0 ∷ 0 ∷ 0 ∷ 0 ∷ 0 ∷ 0 ∷ 0 ∷ [] }
    ensures none { Iin.NONE ≡ record { one = 0; two = 0 } }
    ensures two { map (λ (iin : IinValue). iin.two) (Iin.NO_FUNC_CODE_SUPPORT ∷ Iin.OBJECT_UNKNOWN
        ∷ Iin.PARAMETER_ERROR ∷ Iin.EVENT_BUFFER_OVERFLOW ∷ Iin.ALREADY_EXECUTING ∷ Iin.CONFIG_CORRUPT ∷ [])
        ≡ map (λ bit. 2 ^ bit) (0 ∷ 1 ∷ 2 ∷ 3 ∷ 4 ∷ 5 ∷ []) }
    ensures only_two { map (λ (iin : IinValue). iin.one) (Iin.NO_FUNC_CODE_SUPPORT ∷ Iin.OBJECT_UNKNOWN
        ∷ Iin.PARAMETER_ERROR ∷ Iin.EVENT_BUFFER_OVERFLOW ∷ Iin.ALREADY_EXECUTING ∷ Iin.CONFIG_CORRUPT ∷ [])
        ≡ 0 ∷ 0 ∷ 0 ∷ 0 ∷ 0 ∷ 0 ∷ [] }
{}
