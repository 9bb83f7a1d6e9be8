//! Captures, in the classic form, pcap, and in the newer one, pcapng: the streams that TCP and UDP carry in them.

ghost use Rattle.std.specs.Prelude.{◌≡◌, None, Some, OnOk, IfOk, IfErr, ◌⊎◌, ◌||◌, true, false};
ghost use Rattle.std.specs.List.Sorted.{IsNonDecreasingBy};
ghost use Rattle.dnp_captures.specs.Captures as spec;
ghost use Rattle.dnp_captures.specs.Captures.{fault_name, is_high_first, is_low_first, is_newer, is_read, refusal};

use crate::blocks::{decode_blocks, newer_fault};
use crate::item::{Item, What};
use crate::packet::{Link, first_of, octet_at, payload_of, rest_of};
use crate::refused::Decoded;
use crate::streams::{Stream, push_parts, put};
use std::alloc::{AllocError, Global};

/// The octets of a capture's own header, and of the header of each packet.
const FILE_HEADER: usize = 24;

const PACKET_HEADER: usize = 16;

/// Why a file is no capture that is read here.
#[derive(Clone, Copy)]
pub enum CaptureFault {
    /// It has fewer octets than a capture's own header, 24, or doesn't begin as a capture.
    Start,
    /// Its packets begin otherwise than as Ethernet, raw IP, loopback or those of Linux's `any`: by their number.
    Link(u32),
    /// Out of memory.
    Memory,
}

impl CaptureFault {
    /// The fault's name, as it is printed.
    pub fn name(&self) -> &'static str
        ensures { result.now ≡ fault_name self.now }
    {
        match self {
            CaptureFault::Start => "Start",
            CaptureFault::Link(_) => "Link",
            CaptureFault::Memory => "Memory",
        }
    }
}

/// A number of four octets of a header.
pub(crate) fn number_at(octets: &[u8], place: usize, swapped: bool) -> u32
    ensures { result ≡ spec.number_at swapped octets.now place }
{
    let rest = rest_of(octets, place);
    let four = [
        octet_at(rest, 0),
        octet_at(rest, 1),
        octet_at(rest, 2),
        octet_at(rest, 3),
    ];
    if swapped {
        u32::from_be_bytes(four)
    } else {
        u32::from_le_bytes(four)
    }
}

/// Whether the numbers of a classic capture have their high octet first.
fn order_of(file: &[u8]) -> Result<bool, CaptureFault>
    requires { is_newer file.now ≡ false }
    ensures order { IfOk result (λ high_first. high_first ≡ is_high_first file.now) }
    ensures read { OnOk result ((is_low_first file.now || is_high_first file.now) ≡ true) }
    ensures refused { IfErr result (λ why. refusal file.now ≡ Some why) }
{
    match first_of(file, 4) {
        [0xD4, 0xC3, 0xB2, 0xA1] | [0x4D, 0x3C, 0xB2, 0xA1] => Ok(false),
        [0xA1, 0xB2, 0xC3, 0xD4] | [0xA1, 0xB2, 0x3C, 0x4D] => Ok(true),
        _ => Err(CaptureFault::Start),
    }
}

/// How the packets of the capture begin.
pub(crate) fn link_of(number: u32) -> Result<Link, CaptureFault>
    ensures read { OnOk result (is_read number ≡ true) }
    ensures refused { IfErr result (λ why. (is_read number ≡ false) × (why ≡ CaptureFault.Link number)) }
{
    match number {
        0 => Ok(Link::Null),
        1 => Ok(Link::Ethernet),
        101 => Ok(Link::Raw),
        113 => Ok(Link::Cooked),
        276 => Ok(Link::CookedTwo),
        _ => Err(CaptureFault::Link(number)),
    }
}

/// What a capture has, in the order of its packets: of each direction of a connection in which a frame begins, and the packet in
/// which the capture ends too early, if one does. A file that is no capture that is read here is refused; where memory runs out, that
/// is the fault.
pub fn decode_capture(alloc: Global, file: &[u8]) -> Result<Decoded, CaptureFault>
    ensures read { OnOk result (refusal file.now ≡ None) }
    ensures in_order { IfOk result (λ decoded. IsNonDecreasingBy (λ item. item.at) decoded.items.items) }
    ensures refused { IfErr result (λ why. (refusal file.now ≡ Some why) ⊎ ((why ≡ CaptureFault.Memory) × (refusal file.now ≡ None))) }
{
    if is_newer(file) {
        return decode_newer(alloc, file);
    }
    let swapped = order_of(file)?;
    if file.len() < FILE_HEADER {
        return Err(CaptureFault::Start);
    }
    let link = link_of(number_at(file, 20, swapped) % (1 << 28))?;
    let Ok(decoded) = decode_packets(alloc, file, link, swapped) else {
        return Err(CaptureFault::Memory);
    };
    Ok(decoded)
}

/// Whether the capture is of the newer form.
fn is_newer(file: &[u8]) -> bool
    ensures { result ≡ spec.is_newer file.now }
{
    first_of(file, 4) == [0x0A, 0x0D, 0x0D, 0x0A].as_slice()
}

/// What a capture of the newer form has.
fn decode_newer(alloc: Global, file: &[u8]) -> Result<Decoded, CaptureFault>
    requires { spec.is_newer file.now ≡ true }
    ensures read { OnOk result (refusal file.now ≡ None) }
    ensures in_order { IfOk result (λ decoded. IsNonDecreasingBy (λ item. item.at) decoded.items.items) }
    ensures refused { IfErr result (λ why. (refusal file.now ≡ Some why) ⊎ ((why ≡ CaptureFault.Memory) × (refusal file.now ≡ None))) }
{
    if let Some(fault) = newer_fault(file) {
        return Err(fault);
    }
    match decode_blocks(alloc, file) {
        Ok(decoded) => Ok(decoded),
        Err(_) => Err(CaptureFault::Memory),
    }
}

/// Puts items in the order of their packets; those of one packet stay as they are.
fn put_in_order(items: &mut Vec<Item>) -> Result<(), AllocError>
    ensures { OnOk result (IsNonDecreasingBy (λ item. item.at) items.new.items) }
{
    items.sort_by_key(|item| item.at)?;
    Ok(())
}

/// What these streams have beside what is there, in the order of their packets.
pub(crate) fn with_streams(
    alloc: Global,
    streams: &mut Vec<Stream<'_>>,
    mut decoded: Decoded,
) -> Result<Decoded, AllocError>
    ensures { IfOk result (λ all. IsNonDecreasingBy (λ item. item.at) all.items.items) }
{
    for stream in streams.iter_mut() {
        push_parts(alloc, &mut stream.parts, &mut decoded)?;
    }
    decoded.fragments.sort_by_key(|fragment| fragment.at)?;
    put_in_order(&mut decoded.items)?;
    Ok(decoded)
}

/// What the packets have after a capture's own header.
fn decode_packets(
    alloc: Global,
    file: &[u8],
    link: Link,
    swapped: bool,
) -> Result<Decoded, AllocError>
    ensures { IfOk result (λ decoded. IsNonDecreasingBy (λ item. item.at) decoded.items.items) }
{
    let mut streams = Vec::new(alloc);
    let mut decoded = Decoded::new(alloc);
    let mut start = FILE_HEADER;
    for before in 0..file.len() {
        if start >= file.len() {
            break;
        }
        let packet = (before as u64).saturating_add(1);
        let count = number_at(file, start.saturating_add(8), swapped) as usize;
        let begin = start.saturating_add(PACKET_HEADER);
        let end = begin.saturating_add(count);
        if end > file.len() {
            decoded.items.push(Item {
                at: packet,
                what: What::Packet,
            })?;
            break;
        }
        let octets = first_of(rest_of(file, begin), count);
        if let Some(payload) = payload_of(link, octets) {
            put(alloc, &mut streams, &payload, packet)?;
        }
        start = end;
    }
    with_streams(alloc, &mut streams, decoded)
}
