//! Executes requests, and writes what they are answered.

ghost use Rattle.std.specs.Prelude.{◌≡◌, ◌<◌, ◌==◌, ◌&&◌, ◌^◌, length, true, false, not, if◌then◌else◌, None, Some, Ok, Err, IfOk, IfErr, IsErr, IsSome, IsTrue};
ghost use Rattle.std.specs.List.{list_any, list_all};
ghost use Rattle.std.specs.Result.{is_ok};
ghost use Rattle.dnp_appfragment.specs.declared.function.Function.TheVariants as function;
ghost use Rattle.dnp_appfragment.specs.Fragments.{IsRequest};
ghost use Rattle.dnp_appfragment.specs.Meaning.{request_at};
ghost use Rattle.dnp_appfragment.specs.Seen.{Gives, head};
ghost use Rattle.dnp_appfragment.specs.Whole.{request};
ghost use Rattle.dnp_outstation.specs.steps.Answering.{executed_by};
ghost use Rattle.dnp_appfragment.specs.Table.{function_octet};
ghost use Rattle.dnp_outstation.specs.Connection.{function_in};
ghost use Rattle.dnp_outstation.specs.Items.{Source, last_in as last_in_buffer, first_place, is_inside};
ghost use Rattle.dnp_outstation.specs.steps.Filling.{after_release, empty_from};
ghost use Rattle.dnp_outstation.specs.declared.offer.writer.Writer.{Writer as WriterValue};
ghost use Rattle.dnp_outstation.specs.State.{State};
ghost use Rattle.dnp_outstation.specs.Station.{reads_inside};
ghost use Rattle.dnp_outstation.specs.Stores.{IsLook};
ghost use Rattle.dnp_outstation.specs.Content.{content_of, bits_of, clears_restart, header_bits, write_bits, enabled_after, read_executed, write_executed, switch_executed, delay_executed, time_in, later, time_written};

use crate::answer::{Answer, Switches};
use crate::basis::Basis;
use crate::offer::fetched::Fetched;
use crate::offer::inside::are_inside;
use crate::offer::parts::{Stand, put_parts};
use crate::offer::place::ReadPlace;
use crate::offer::writer::Writer;
use crate::released::last_left;
use byteorder::{ByteOrder, LittleEndian};
use dnp_appfragment::{
    AppFault, Function, Header, Headers, Range, Request, known_request, read_request,
};
use dnp_controls::Outputs;
use dnp_eventbuf::{Lanes, StoreFault};
use dnp_objects::LANES;
use std::alloc::Global;

/// The bit of an unknown function (IIN2.0), of the second octet of indications.
pub(crate) const NO_FUNC_CODE_SUPPORT: u8 = 0x01;

/// The bit of an unknown object (IIN2.1).
const OBJECT_UNKNOWN: u8 = 0x02;

/// The bit of a header that is in error otherwise (IIN2.2).
pub(crate) const PARAMETER_ERROR: u8 = 0x04;

/// Where a READ begins.
pub(crate) const FIRST_PLACE: ReadPlace = ReadPlace {
    header: 0,
    count: 0,
    given: [0; LANES],
};

/// The request that the octets are, with fewer headers than a number can count.
#[tactic(auto, using(crate::proofs::FewHeaders::few_headers))]
pub(crate) fn request_in(octets: &[u8]) -> Result<Request<'_>, AppFault>
    ensures value { Gives request result (request_at octets.now) }
    ensures found { IfOk result (λ r. IsRequest octets.now (request r)) }
    ensures few { IfOk result (λ r. length r.headers.headers < 2 ^ 64) }
{
    let _len = octets.len();
    let request = read_request(octets)?;
    Ok(request)
}

/// The request that the octets are, which are known to be one, with fewer headers than a number can count.
#[tactic(auto, using(crate::proofs::FewHeaders::few_headers))]
pub(crate) fn known_request_in(octets: &[u8]) -> Request<'_>
    requires { IsTrue (is_ok (request_at octets.now)) }
    ensures value { request_at octets.now ≡ Ok (request result) }
    ensures few { length result.headers.headers < 2 ^ 64 }
{
    let _len = octets.len();
    known_request(octets)
}

/// The bit that tells of a request that can't be read.
pub(crate) fn bits_of(fault: AppFault) -> u8
    ensures value { result ≡ bits_of fault }
    ensures small { result < 8 }
{
    match fault {
        AppFault::FunctionUnknown => NO_FUNC_CODE_SUPPORT,
        AppFault::ObjectUnknown => OBJECT_UNKNOWN,
        AppFault::Short
        | AppFault::HeaderCut
        | AppFault::QualifierUnknown
        | AppFault::RangeBackward
        | AppFault::ObjectsCut
        | AppFault::CommonTime => PARAMETER_ERROR,
    }
}

/// Whether a header of a WRITE sets DEVICE_RESTART, the indication of index 7, to 0.
fn clears_restart(header: &Header<'_>) -> bool
    ensures { result ≡ clears_restart (head header.now) }
{
    match (header.range, header.octets.first()) {
        (
            Range::Span {
                first: 7,
                last: 7,
                ..
            },
            Some(octet),
        ) => header.group == 80 && octet % 2 == 0,
        _ => false,
    }
}

/// The time that a header of a WRITE gives, if it gives one.
fn time_in(header: &Header<'_>) -> Option<u64>
    ensures { result ≡ time_in (head header.now) }
{
    match header.range {
        Range::Count { n: 1, .. } if header.group == 50 && header.octets.len() == 6 => {
            Some(LittleEndian::read_u48(header.octets))
        }
        _ => None,
    }
}

/// The bit that a header of a WRITE is answered, or 0.
fn header_bits(header: &Header<'_>) -> u8
    ensures value { result ≡ header_bits (head header.now) }
    ensures small { result < 8 }
{
    match header.group {
        80 if clears_restart(header) => 0,
        50 if time_in(header).is_some() => 0,
        80 | 50 => PARAMETER_ERROR,
        _ => OBJECT_UNKNOWN,
    }
}

/// What a WRITE changes: whether DEVICE_RESTART is still set, and the time that is written.
#[derive(Clone, Copy)]
struct Changes {
    restart: bool,
    time: Option<u64>,
}

impl Changes {
    /// The same with one header more.
    fn with(self, header: &Header<'_>) -> Changes
        ensures restart { result.restart ≡ (self.restart && not (clears_restart (head header.now))) }
        ensures time { result.time ≡ later self.time (time_in (head header.now)) }
    {
        Changes {
            restart: self.restart && !clears_restart(header),
            time: time_in(header).or(self.time),
        }
    }
}

/// What a WRITE of these headers changes, or the bit that tells of the first one in error.
fn written(headers: Headers<'_>, restart: bool) -> Result<Changes, u8>
    ensures value { result ≡ (if write_bits headers.entry.headers == 0
        then Ok (record { restart = restart && not (list_any clears_restart headers.entry.headers); time = time_written headers.entry.headers })
        else Err (write_bits headers.entry.headers)) }
    ensures small { IfErr result (λ bits. bits < 8) }
{
    let mut changes = Changes {
        restart,
        time: None,
    };
    for header in headers {
        let bits = header_bits(&header);
        if bits != 0 {
            return Err(bits);
        }
        changes = changes.with(&header);
    }
    Ok(changes)
}

/// An answer without objects.
pub(crate) fn plain(bits: u8, switches: Switches, stood: u64) -> Answer
    ensures { result ≡ record { bits = bits; switches = switches; stood = stood; left = None; time = None } }
{
    Answer {
        bits,
        switches,
        stood,
        left: None,
        time: None,
    }
}

/// Where the READ of which this fragment is a part goes on, if it does.
pub(crate) fn left(is_last: bool, place: ReadPlace) -> Option<ReadPlace>
    ensures { result ≡ (if is_last then None else Some place) }
{
    if is_last { None } else { Some(place) }
}

/// Executes a READ: writes the first fragment of its response, unless a range isn't inside the points. The
/// lanes are read as they are after the release, where `stood` is the last id in them.
fn read<L: Lanes, O: Outputs>(
    writer: &mut Writer,
    alloc: Global,
    lanes: &mut L,
    fetched: &mut Fetched,
    from: &Basis<'_, O>,
    headers: &Headers<'_>,
    stood: u64,
) -> Result<Answer, StoreFault>
    requires empty { writer.old ≡ empty_from first_place }
    requires few { length headers.now.headers < 2 ^ 64 }
    requires stood { L.honest lanes.old → stood ≡ last_in_buffer (after_release (L.contents lanes.old) from.now.released.now) }
    ensures look { IsLook L.honest L.is_stopped L.contents L.beside L.place L.asks_memory L.may_fault lanes.old lanes.new result }
    ensures executed { L.honest lanes.new → IfOk result (λ a. (s : State) → s.core.points ≡ from.now.points.now
        → s.core.restart ≡ from.now.switches.restart → s.core.enabled ≡ from.now.switches.enabled
        → s.lanes ≡ after_release (L.contents lanes.old) from.now.released.now
        → read_executed s (O.panel from.now.outputs.now) headers.now.headers ≡ executed_by s writer.new a) }
    ensures stood { IfOk result (λ a. a.stood ≡ stood) }
    ensures small { IfOk result (λ a. a.bits < 8) }
    ensures response { writer.new.builder.function ≡ function.Response }
    ensures asks_inside { IsErr result → (s : Source) → s.points ≡ from.now.points.now → s.panel ≡ O.panel from.now.outputs.now
        → list_all (is_inside s) headers.now.headers ≡ true }
{
    if !are_inside(from.points, from.outputs, headers.after(0)) {
        return Ok(plain(PARAMETER_ERROR, from.switches, stood));
    }
    let stand = Stand {
        points: from.points,
        outputs: from.outputs,
        stood,
        released: from.released,
    };
    let is_last = put_parts(writer, alloc, lanes, fetched, &stand, headers.after(0))?;
    Ok(Answer {
        bits: 0,
        switches: from.switches,
        stood,
        left: left(is_last, writer.place),
        time: None,
    })
}

/// Executes a WRITE, which has to be of DEVICE_RESTART and of times alone.
fn write(switches: Switches, headers: Headers<'_>, stood: u64) -> Answer
    ensures executed { (s : State) (w : WriterValue) → s.core.restart ≡ switches.restart → s.core.enabled ≡ switches.enabled → w ≡ empty_from first_place
        → write_executed s headers.entry.headers ≡ executed_by s w result }
    ensures stood { result.stood ≡ stood }
    ensures small { result.bits < 8 }
{
    match written(headers, switches.restart) {
        Ok(changes) => {
            let restart = changes.restart;
            let enabled = switches.enabled;
            Answer {
                bits: 0,
                switches: Switches { restart, enabled },
                stood,
                left: None,
                time: changes.time,
            }
        }
        Err(bits) => plain(bits, switches, stood),
    }
}

/// The classes whose unsolicited responses are enabled, once those that these headers name are switched on,
/// or off.
fn enabled_after(on: bool, enabled: [bool; 3], headers: Headers<'_>) -> [bool; 3]
    ensures { result ≡ enabled_after on enabled headers.entry.headers }
{
    let mut enabled = enabled;
    for header in headers {
        match header.variation {
            2 => enabled[0] = on,
            3 => enabled[1] = on,
            4 => enabled[2] = on,
            _ => {}
        }
    }
    enabled
}

/// Executes an ENABLE_UNSOLICITED, where `on` is set, or a DISABLE_UNSOLICITED.
fn switch(switches: Switches, on: bool, headers: Headers<'_>, stood: u64) -> Answer
    ensures executed { (s : State) (w : WriterValue) → s.core.restart ≡ switches.restart → s.core.enabled ≡ switches.enabled → w ≡ empty_from first_place
        → switch_executed on s headers.entry.headers ≡ executed_by s w result }
    ensures stood { result.stood ≡ stood }
    ensures small { result.bits < 8 }
{
    let restart = switches.restart;
    let enabled = enabled_after(on, switches.enabled, headers);
    plain(0, Switches { restart, enabled }, stood)
}

/// Executes a DELAY_MEASURE: writes that no delay was measured.
fn delay(writer: &mut Writer, switches: Switches, stood: u64) -> Answer
    requires { writer.old ≡ empty_from first_place }
    ensures executed { (s : State) → s.core.restart ≡ switches.restart → s.core.enabled ≡ switches.enabled
        → delay_executed s ≡ executed_by s writer.new result }
    ensures stood { result.stood ≡ stood }
    ensures small { result.bits < 8 }
    ensures response { writer.new.builder.function ≡ function.Response }
{
    writer.put_delay();
    plain(0, switches, stood)
}

/// Executes a request, and writes the first fragment of its response, as the lanes are after the release.
pub(crate) fn execute<L: Lanes, O: Outputs>(
    writer: &mut Writer,
    alloc: Global,
    lanes: &mut L,
    fetched: &mut Fetched,
    from: &Basis<'_, O>,
    octets: &[u8],
) -> Result<Answer, StoreFault>
    ensures look { IsLook L.honest L.is_stopped L.contents L.beside L.place L.asks_memory L.may_fault lanes.old lanes.new result }
    ensures executed { L.honest lanes.new → IfOk result (λ a. (s : State) → s.core.points ≡ from.now.points.now
        → s.core.restart ≡ from.now.switches.restart → s.core.enabled ≡ from.now.switches.enabled
        → s.lanes ≡ after_release (L.contents lanes.old) from.now.released.now
        → content_of s (O.panel from.now.outputs.now) octets.now ≡ executed_by s writer.new a) }
    ensures stood { L.honest lanes.new → IfOk result (λ a. a.stood ≡ last_in_buffer (after_release (L.contents lanes.old) from.now.released.now)) }
    ensures small { IfOk result (λ a. a.bits < 8) }
    // What goes on is of a request that was read.
    ensures goes_on { IfOk result (λ a. IsSome a.left → IsTrue (is_ok (request_at octets.now))) }
    ensures response { writer.new.builder.function ≡ function.Response }
    ensures reads { IsErr result → function_in octets.now ≡ function_octet function.Read }
    ensures asks_inside { IsErr result → (s : State) → s.core.points ≡ from.now.points.now → reads_inside s (O.panel from.now.outputs.now) octets.now ≡ true }
{
    writer.restart(FIRST_PLACE);
    let stood = last_left(lanes, from.released);
    let switches = from.switches;
    let request = match request_in(octets) {
        Ok(request) => request,
        Err(fault) => return Ok(plain(bits_of(fault), switches, stood)),
    };
    match request.function {
        Function::Read => read(writer, alloc, lanes, fetched, from, &request.headers, stood),
        Function::Write => Ok(write(switches, request.headers, stood)),
        Function::EnableUnsolicited => Ok(switch(switches, true, request.headers, stood)),
        Function::DisableUnsolicited => Ok(switch(switches, false, request.headers, stood)),
        Function::DelayMeasure => Ok(delay(writer, switches, stood)),
        _ => Ok(plain(NO_FUNC_CODE_SUPPORT, switches, stood)),
    }
}
