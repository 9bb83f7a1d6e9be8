//! What stands at the front of a stream.
ghost use Rattle.std.specs.Prelude.{◌≡◌, ◌≤◌, ◌<◌, ◌↔◌, ℕ, List, length, drop, slice_index, IsTrue, IfOk, OnOk, Ok};
ghost use Rattle.dnp_linkframe.specs.declared.frame.Frame.{Frame as FrameValue};
ghost use Rattle.dnp_linkframe.specs.Stream.{Waits, NoHeader, HasHeader, BeginsFrame, IsFront, said_size};
ghost use Rattle.dnp_decode.specs.StreamLines as spec;
ghost use Rattle.dnp_decode.specs.StreamLines.{refused_line as line_of_refused};
ghost use Rattle.dnp_decode.specs.steps.Remembered.{Remembers};
ghost use Rattle.dnp_decode.specs.steps.Stepped.{Stepped};

use crate::hearing::hear;
use crate::line::Line;
use crate::ports::Ports;
use dnp_linkframe::laws::a_spelling_has_no_fault;
use dnp_linkframe::{FrameFault, check_word, read_frame};
use std::alloc::{AllocError, Global};

/// The octets of a header with its check word.
pub(crate) const CHECKED_HEADER: usize = 10;

/// What LENGTH counts beside the user data: CONTROL and both addresses.
const LENGTH_OF_NONE: u8 = 5;

/// The octets of a block of user data.
const BLOCK: usize = 16;

/// Whether a header is at the front: 05 64, and a check word that is right.
fn has_header(stream: &[u8]) -> bool
    requires { 10 ≤ length stream.now }
    ensures { IsTrue result ↔ HasHeader stream.now }
{
    if stream[0] != 0x05 || stream[1] != 0x64 {
        return false;
    }
    u16::from_le_bytes([stream[8], stream[9]]) == check_word(&stream[..8])
}

/// Whether the octets begin with 05 64, as a header does.
fn begins_so(stream: &[u8]) -> bool
    ensures { result ≡ spec.begins_so stream.now }
{
    stream.len() > 1 && stream[0] == 0x05 && stream[1] == 0x64
}

/// How many octets the frame of the header at the front has, by its LENGTH.
fn size_of_frame(stream: &[u8]) -> usize
    requires ten { 10 ≤ length stream.now }
    requires long { 5 ≤ slice_index stream.now 2 }
    ensures { result ≡ said_size stream.now }
{
    let user = usize::from(stream[2] - LENGTH_OF_NONE);
    CHECKED_HEADER + user + 2 * user.div_ceil(BLOCK)
}

/// How many octets at the front begin no frame, one after the other.
fn noise(stream: &[u8]) -> usize
    ensures within { result ≤ length stream.now }
    ensures each { (k : ℕ) → k < result → IsFront (drop k stream.now) NoHeader }
    ensures ends { 10 ≤ length (drop result stream.now) → HasHeader (drop result stream.now) }
{
    let mut count = 0;
    while stream.len() - count >= CHECKED_HEADER {
        if has_header(&stream[count..]) {
            return count;
        }
        count += 1;
    }
    count
}

/// The line of octets that begin with a header and are refused: the first `octets` of these.
fn refused_line(stream: &[u8], octets: usize, fault: FrameFault) -> Line
    requires { 10 ≤ length stream.now }
    ensures { result ≡ line_of_refused stream.now octets fault }
{
    Line::FrameRefused {
        control: stream[3],
        dest: u16::from_le_bytes([stream[4], stream[5]]),
        source: u16::from_le_bytes([stream[6], stream[7]]),
        octets,
        fault,
    }
}

/// Appends the lines of the first `size` octets, which the header at the front says.
fn read_unit(
    alloc: Global,
    stream: &[u8],
    size: usize,
    ports: &mut Ports,
    out: &mut Vec<Line>,
) -> Result<(), AllocError>
    requires begins { BeginsFrame stream.now }
    requires said { size ≡ said_size stream.now }
    requires within { size ≤ length stream.now }
    ensures { (heard : List FrameValue) → Remembers heard ports.old → OnOk result (Stepped heard stream.now size out.old.items out.new.items ports.new) }
{
    a_spelling_has_no_fault();
    match read_frame(&stream[..size]) {
        Ok(frame) => {
            hear(alloc, &frame, ports, out)?;
            Ok(())
        }
        Err(fault) => {
            out.push(refused_line(stream, size, fault))?;
            Ok(())
        }
    }
}

/// Appends the lines of the frame at the front, whose header is there if there are octets enough, and answers how many
/// octets it has: none where it is not whole.
fn read_header(
    alloc: Global,
    stream: &[u8],
    ports: &mut Ports,
    out: &mut Vec<Line>,
) -> Result<usize, AllocError>
    requires { 10 ≤ length stream.now → HasHeader stream.now }
    ensures within { IfOk result (λ n. n ≤ length stream.now) }
    ensures waits { result ≡ Ok 0 → IsFront stream.now Waits × (out.new.items ≡ out.old.items) × (ports.new ≡ ports.old) }
    ensures step { (heard : List FrameValue) → Remembers heard ports.old → IfOk result (λ n. 0 < n → Stepped heard stream.now n out.old.items out.new.items ports.new) }
{
    if stream.len() < CHECKED_HEADER {
        return Ok(0);
    }
    if stream[2] < LENGTH_OF_NONE {
        out.push(refused_line(stream, CHECKED_HEADER, FrameFault::Length))?;
        return Ok(CHECKED_HEADER);
    }
    let size = size_of_frame(stream);
    if stream.len() < size {
        return Ok(0);
    }
    read_unit(alloc, stream, size, ports, out)?;
    Ok(size)
}

/// Appends the lines of what stands at the front of the stream, and answers how many octets that are: none where they
/// are too few to tell.
pub(crate) fn step(
    alloc: Global,
    stream: &[u8],
    ports: &mut Ports,
    out: &mut Vec<Line>,
) -> Result<usize, AllocError>
    ensures within { IfOk result (λ n. n ≤ length stream.now) }
    ensures waits { result ≡ Ok 0 → IsFront stream.now Waits × (out.new.items ≡ out.old.items) × (ports.new ≡ ports.old) }
    ensures step { (heard : List FrameValue) → Remembers heard ports.old → IfOk result (λ n. 0 < n → Stepped heard stream.now n out.old.items out.new.items ports.new) }
{
    let skipped = noise(stream);
    if skipped > 0 {
        out.push(Line::Noise {
            octets: skipped,
            start: begins_so(stream),
        })?;
        return Ok(skipped);
    }
    read_header(alloc, stream, ports, out)
}
