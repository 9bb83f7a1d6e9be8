//! Requests and responses from octets, and the confirmation of one.
ghost use Rattle.std.specs.Prelude.{◌≡◌, ◌%◌, Ok, IfOk, IfErr, IsTrue};
ghost use Rattle.std.specs.Result.{IsOkAnd, is_ok};
ghost use Rattle.dnp_appfragment.specs.declared.fault.AppFault.{AppFault as FaultValue};
ghost use Rattle.dnp_appfragment.specs.Fragments as spec;
ghost use Rattle.dnp_appfragment.specs.Fragments.{Asked, Answered, IsRequest, IsResponse, request_octets, confirmation};
ghost use Rattle.dnp_appfragment.specs.Faults.{IsRequestFault, IsResponseFault};
ghost use Rattle.dnp_appfragment.specs.Places.{EndsWith};
ghost use Rattle.dnp_appfragment.specs.Meaning.{request_at, response_at};
ghost use Rattle.dnp_appfragment.specs.Seen.{Gives};
ghost use Rattle.dnp_appfragment.specs.Whole.{request, response};

use crate::control::Control;
use crate::fault::AppFault;
use crate::function::Function;
use crate::headers::Headers;
use crate::iin::Iin;
use crate::request::Request;
use crate::response::Response;
use crate::table::{Form, form_of};

/// The octets in which headers are looked for: all after the function, or none.
fn looked_at(form: Form, body: &[u8]) -> &[u8]
    ensures value { result.now ≡ spec.looked_at form body.now }
    ensures end { EndsWith body.entry result }
{
    match form {
        Form::Bare => &body[body.len()..],
        _ => body,
    }
}

/// The request, or the first fault.
#[tactic(auto, unfolding(crate::specs::Meaning::request_at))]
fn request_of(octets: &[u8]) -> Result<Request<'_>, AppFault>
    ensures gives { Gives request result (request_at octets.now) }
    ensures place { IfOk result (λ r. EndsWith octets.entry r.headers.rest) }
{
    match octets {
        [control, code, body @ ..] => {
            let function = match Function::of_octet(*code) {
                Some(function) if !function.is_response() => function,
                _ => return Err(AppFault::FunctionUnknown),
            };
            let form = form_of(function);
            Ok(Request {
                control: Control::read(*control),
                function,
                headers: Headers::new(form, looked_at(form, body))?,
            })
        }
        _ => Err(AppFault::Short),
    }
}

/// The response, or the first fault.
#[tactic(auto, unfolding(crate::specs::Meaning::response_at))]
fn response_of(octets: &[u8]) -> Result<Response<'_>, AppFault>
    ensures gives { Gives response result (response_at octets.now) }
    ensures place { IfOk result (λ r. EndsWith octets.entry r.headers.rest) }
{
    match octets {
        [control, code, one, two, body @ ..] => {
            let function = match Function::of_octet(*code) {
                Some(function) if function.is_response() => function,
                _ => return Err(AppFault::FunctionUnknown),
            };
            Ok(Response {
                control: Control::read(*control),
                function,
                iin: Iin {
                    one: *one,
                    two: *two,
                },
                headers: Headers::new(Form::Response, body)?,
            })
        }
        _ => Err(AppFault::Short),
    }
}

/// The request that the octets are (IEEE Std 1815-2012, application layer).
///
/// Refused is, from left to right: fewer than 2 octets (`Short`); another function than a request's
/// (`FunctionUnknown`); and of the first header that is not in order fewer than three octets
/// (`HeaderCut`), an object that has no place under the function (`ObjectUnknown`), or not with this
/// qualifier (`QualifierUnknown`), a range that is cut (`HeaderCut`) or whose stop is under its
/// start (`RangeBackward`), and objects that are cut (`ObjectsCut`).
pub fn read_request(octets: &[u8]) -> Result<Request<'_>, AppFault>
    ensures value { Gives request result (request_at octets.now) }
    ensures found { IfOk result (λ r. IsRequest octets.now (request r)) }
    ensures only { (asked : Asked) → IsRequest octets.now asked → IsOkAnd result (λ r. request r ≡ asked) }
    ensures fault { IfErr result (IsRequestFault octets.now) }
    ensures only_fault { (fault : FaultValue) → IsRequestFault octets.now fault → result ≡ Err fault }
    // The headers lie in the octets, to their end.
    ensures place { IfOk result (λ r. EndsWith octets.entry r.headers.rest) }
{
    request_of(octets)
}

/// The request that the octets are, which are known to be one: they were read before. Nothing of them is checked again.
#[tactic(auto, unfolding(crate::specs::Meaning::request_at, crate::specs::Reading::headers_at))]
pub fn known_request(octets: &[u8]) -> Request<'_>
    requires { IsTrue (is_ok (request_at octets.now)) }
    ensures value { request_at octets.now ≡ Ok (request result) }
    // The headers lie in the octets, to their end.
    ensures place { EndsWith octets.entry result.headers.rest }
{
    let [control, code, body @ ..] = octets else {
        unreachable!();
    };
    let Some(function) = Function::of_octet(*code) else {
        unreachable!();
    };
    let form = form_of(function);
    Request {
        control: Control::read(*control),
        function,
        headers: Headers::known(form, looked_at(form, body)),
    }
}

/// The response that the octets are (IEEE Std 1815-2012, application layer).
///
/// Refused is, from left to right: fewer than 4 octets (`Short`); another function than a
/// response's (`FunctionUnknown`); and the first header that is not in order, as in a request.
pub fn read_response(octets: &[u8]) -> Result<Response<'_>, AppFault>
    ensures value { Gives response result (response_at octets.now) }
    ensures found { IfOk result (λ r. IsResponse octets.now (response r)) }
    ensures only { (answered : Answered) → IsResponse octets.now answered → IsOkAnd result (λ r. response r ≡ answered) }
    ensures fault { IfErr result (IsResponseFault octets.now) }
    ensures only_fault { (fault : FaultValue) → IsResponseFault octets.now fault → result ≡ Err fault }
    // The headers lie in the octets, to their end.
    ensures place { IfOk result (λ r. EndsWith octets.entry r.headers.rest) }
{
    response_of(octets)
}

/// The two octets that confirm the fragment of this sequence number, of the unsolicited responses
/// where `uns` is set (IEEE Std 1815-2012, application layer: CONFIRM). The number is taken modulo
/// 16.
pub fn confirm(seq: u8, uns: bool) -> [u8; 2]
    ensures { result ≡ request_octets (confirmation (seq % 16) uns) }
{
    let control = Control {
        fir: true,
        fin: true,
        con: false,
        uns,
        seq: seq % 16,
    };
    [control.octet(), Function::Confirm.octet()]
}
