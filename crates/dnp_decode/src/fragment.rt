//! The lines of a fragment.
ghost use Rattle.std.specs.Prelude.{◌≡◌, ◌∷◌, ◌++◌, List, OnOk, Ok, Err, IfSome, IfNone, IsTrue, option_to_list};
ghost use Rattle.dnp_appfragment.specs.Seen.{head, Gives};
ghost use Rattle.dnp_decode.specs.FragmentLines as spec;
ghost use Rattle.dnp_decode.specs.declared.fragment.TheConstants.{TIME_OCTETS, DELAY_OCTETS};
ghost use Rattle.dnp_decode.specs.FragmentLines.{Said, said, said_at, IsLongest, HasNone, IsFaultPlace, AreFragmentLines};
ghost use Rattle.dnp_decode.specs.declared.line.Line.{Line as LineValue};

use crate::line::Line;
use byteorder::{ByteOrder, LittleEndian};
use dnp_appfragment::{AppFault, Header, Headers, read_request, read_response};
use dnp_objects::Row;
use std::alloc::AllocError;

/// The group of binary inputs (IEEE Std 1815-2012, object library). The states of outputs, 10.2, are laid out as its
/// objects of the same variation, and so are indications, 80.1.
pub(crate) const BINARY_INPUTS: u8 = 1;

/// The group of analog inputs. So are the states of setpoints, 40.1 and 40.2.
pub(crate) const ANALOG_INPUTS: u8 = 30;

/// The octets of a time (50.1, 51.1, 51.2) and of a delay (52.2).
pub(crate) const TIME_OCTETS: usize = 6;

pub(crate) const DELAY_OCTETS: usize = 2;

/// The highest octet of a function of requests: those above are of responses (IEEE Std 1815-2012, application layer:
/// function codes).
pub(crate) const LAST_REQUEST: u8 = 127;

/// The row of object k of a header whose objects are laid out as those of this group.
fn state_at(header: &Header<'_>, group: u8, k: usize) -> Option<Row>
    ensures { result ≡ spec.state_in group (head header.now) k }
{
    let states = Header { group, ..*header };
    states.row(k)
}

/// The time that a header's only object is.
fn time_at(header: &Header<'_>, k: usize) -> Option<u64>
    ensures { result ≡ spec.number_in TIME_OCTETS (head header.now) k }
{
    if k == 0 && header.octets.len() == TIME_OCTETS {
        Some(LittleEndian::read_u48(header.octets))
    } else {
        None
    }
}

/// Common time k of a header.
fn common_at(header: &Header<'_>, k: usize) -> Option<u64>
    ensures { result ≡ spec.common_in (head header.now) k }
{
    if k < header.octets.len() / TIME_OCTETS {
        Some(LittleEndian::read_u48(&header.octets[k * TIME_OCTETS..]))
    } else {
        None
    }
}

/// The delay that a header's only object is.
fn delay_at(header: &Header<'_>, k: usize) -> Option<u16>
    ensures { result ≡ spec.number_in DELAY_OCTETS (head header.now) k }
{
    if k == 0 && header.octets.len() == DELAY_OCTETS {
        Some(LittleEndian::read_u16(header.octets))
    } else {
        None
    }
}

/// The line of object k of a header: its row, or else its command, or none.
fn point_line(header: &Header<'_>, k: usize) -> Option<Line>
    ensures { result ≡ spec.point_line (head header.now) k }
{
    match header.row(k) {
        Some(row) => Some(Line::Row(row)),
        None => match header.command(k) {
            Some((command, status)) => Some(Line::Command(command, status)),
            None => None,
        },
    }
}

/// The line of object k of a header, if it has one: its row, its command, the state or the time that it is.
pub fn object_line(header: &Header<'_>, k: usize) -> Option<Line>
    ensures { result ≡ spec.object_line (head header.now) k }
{
    match (header.group, header.variation) {
        (10, 2) => state_at(header, BINARY_INPUTS, k).map(Line::Output),
        (40, 1 | 2) => state_at(header, ANALOG_INPUTS, k).map(Line::Setpoint),
        (80, 1) => state_at(header, BINARY_INPUTS, k).map(Line::Indication),
        (50, 1) => time_at(header, k).map(Line::Time),
        (51, 1 | 2) => common_at(header, k).map(Line::Common),
        (52, 2) => delay_at(header, k).map(Line::Delay),
        _ => point_line(header, k),
    }
}

/// Appends the line of object k of a header, if it has one.
fn push_object(header: &Header<'_>, k: usize, out: &mut Vec<Line>) -> Result<(), AllocError>
    ensures { OnOk result (out.new.items ≡ out.old.items ++ option_to_list (spec.object_line (head header.now) k)) }
{
    match object_line(header, k) {
        Some(line) => {
            out.push(line)?;
            Ok(())
        }
        None => Ok(()),
    }
}

/// Appends the lines of the objects of a header.
fn push_objects(header: &Header<'_>, out: &mut Vec<Line>) -> Result<(), AllocError>
    ensures { OnOk result (out.new.items ≡ out.old.items ++ spec.objects_from (head header.now)) }
{
    for k in 0..header.count() {
        push_object(header, k, out)?;
    }
    Ok(())
}

/// Appends the lines of a header: its own, and those of its objects.
fn push_header(header: &Header<'_>, out: &mut Vec<Line>) -> Result<(), AllocError>
    ensures { OnOk result (out.new.items ≡ out.old.items ++ spec.header_lines (head header.now)) }
{
    out.push(Line::Header {
        group: header.group,
        variation: header.variation,
        range: header.range,
        octets: header.octets.len(),
    })?;
    // (the objects that a READ names are not there, and may be very many)
    if header.octets.is_empty() {
        return Ok(());
    }
    push_objects(header, out)
}

/// Appends the lines of these headers.
fn push_headers(headers: Headers<'_>, out: &mut Vec<Line>) -> Result<(), AllocError>
    ensures { OnOk result (out.new.items ≡ out.old.items ++ spec.headers_lines headers.entry.headers) }
{
    for header in headers {
        push_header(&header, out)?;
    }
    Ok(())
}

/// Whether the function is one of responses.
fn is_answer(octets: &[u8]) -> bool
    ensures { result ≡ spec.is_answer octets.now }
{
    octets.len() > 1 && octets[1] > LAST_REQUEST
}

/// The fragment's own line and its headers, or why the octets are none.
fn read_fragment(octets: &[u8]) -> Result<(Line, Headers<'_>), AppFault>
    ensures { Gives said result (said_at octets.now) }
{
    if is_answer(octets) {
        let response = read_response(octets)?;
        let line = Line::Response {
            control: response.control,
            function: response.function,
            iin: response.iin,
        };
        return Ok((line, response.headers));
    }
    let request = read_request(octets)?;
    let line = Line::Request {
        control: request.control,
        function: request.function,
    };
    Ok((line, request.headers))
}

/// Whether the octets are a fragment.
fn is_fragment(octets: &[u8]) -> bool
    ensures so { IsTrue result → (s : Said) × (said_at octets.now ≡ Ok s) }
    ensures only { (s : Said) → said_at octets.now ≡ Ok s → IsTrue result }
{
    match read_fragment(octets) {
        Ok(_) => true,
        Err(_) => false,
    }
}

/// How many octets the longest beginning of the octets has that is a fragment, but for the whole.
fn longest(octets: &[u8]) -> Option<usize>
    ensures found { IfSome result (λ n. (s : Said) × IsLongest octets.now n s) }
    ensures none { IfNone result (HasNone octets.now) }
{
    let mut end = octets.len();
    while end > 0 {
        end -= 1;
        if is_fragment(&octets[..end]) {
            return Some(end);
        }
    }
    None
}

/// Where the fault lies in a fragment of which no beginning is a fragment: at the function, or where it ends too early.
fn fault_place(fault: AppFault, octets: &[u8]) -> usize
    ensures { result ≡ spec.fault_place fault octets.now }
{
    match fault {
        AppFault::FunctionUnknown => 1,
        _ => octets.len(),
    }
}

/// Where the fault lies in a refused fragment, in octets from its beginning: after its longest beginning that is a fragment,
/// or, where none is, at the function, or at the end where the octets are too few.
pub fn refused_place(fault: AppFault, octets: &[u8]) -> usize
    ensures { IsFaultPlace fault octets.now result }
{
    match longest(octets) {
        Some(place) => place,
        None => fault_place(fault, octets),
    }
}

/// Appends the lines of a fragment with this line of its own and these headers.
fn push_said(line: Line, headers: Headers<'_>, out: &mut Vec<Line>) -> Result<(), AllocError>
    ensures { OnOk result (out.new.items ≡ out.old.items ++ line ∷ spec.headers_lines headers.entry.headers) }
{
    out.push(line)?;
    push_headers(headers, out)
}

/// Appends the lines of octets that are a fragment; others have none.
fn push_read(octets: &[u8], out: &mut Vec<Line>) -> Result<(), AllocError>
    ensures { (s : Said) → said_at octets.now ≡ Ok s → OnOk result (out.new.items ≡ out.old.items ++ spec.said_lines s) }
{
    match read_fragment(octets) {
        Ok((line, headers)) => push_said(line, headers, out),
        Err(_) => Ok(()),
    }
}

/// Appends the lines of a refused fragment: those of its longest beginning that is a fragment, and the refusal.
fn push_refused(octets: &[u8], fault: AppFault, out: &mut Vec<Line>) -> Result<(), AllocError>
    requires { said_at octets.now ≡ Err fault }
    ensures { OnOk result ((lines : List LineValue) × AreFragmentLines octets.now lines × (out.new.items ≡ out.old.items ++ lines)) }
{
    match longest(octets) {
        Some(place) => {
            push_read(&octets[..place], out)?;
            out.push(Line::FragmentRefused { fault, place })?;
            Ok(())
        }
        None => {
            let place = fault_place(fault, octets);
            out.push(Line::FragmentRefused { fault, place })?;
            Ok(())
        }
    }
}

/// Appends the lines of a fragment: its own, and those of its headers with their objects. Where it is refused, those of
/// what stands before the fault, and the refusal.
pub(crate) fn push_fragment(octets: &[u8], out: &mut Vec<Line>) -> Result<(), AllocError>
    ensures { OnOk result ((lines : List LineValue) × AreFragmentLines octets.now lines × (out.new.items ≡ out.old.items ++ lines)) }
{
    match read_fragment(octets) {
        Ok((line, headers)) => {
            push_said(line, headers, out)?;
            Ok(())
        }
        Err(fault) => push_refused(octets, fault, out),
    }
}
