//! Captures in the newer form, pcapng: blocks, of which some have packets.

ghost use Rattle.std.specs.Prelude.{◌≡◌, ◌≤◌, length, Some, None, IfOk, IfSome, if◌then◌else◌};
ghost use Rattle.std.specs.List.Sorted.{IsNonDecreasingBy};
ghost use Rattle.dnp_captures.specs.Captures as spec;

use crate::capture::{CaptureFault, link_of, number_at, with_streams};
use crate::item::{Item, What};
use crate::packet::{Link, first_of, octet_at, payload_of, rest_of};
use crate::refused::Decoded;
use crate::streams::put;
use std::alloc::{AllocError, Global};

/// The types of blocks that are read: a section header, an interface, and three of packets.
const SECTION: u32 = 0x0A0D_0D0A;

const INTERFACE: u32 = 1;

const OLD_PACKET: u32 = 2;

const SIMPLE_PACKET: u32 = 3;

const PACKET: u32 = 6;

/// The octets of a block before its body, and of the least block: type and size, and the size again.
const BEFORE_BODY: usize = 8;

const LEAST_BLOCK: usize = 12;

/// What a section has said so far.
#[derive(Drop)]
struct Section {
    /// Whether its numbers have their high octet first.
    swapped: bool,
    /// How the packets of its interfaces begin, of those that are read.
    links: Vec<Option<Link>>,
}

/// A number of two octets of a block.
fn short_at(octets: &[u8], place: usize, swapped: bool) -> u16
    ensures { result ≡ spec.short_at swapped octets.now place }
{
    let rest = rest_of(octets, place);
    let two = [octet_at(rest, 0), octet_at(rest, 1)];
    if swapped {
        u16::from_be_bytes(two)
    } else {
        u16::from_le_bytes(two)
    }
}

/// Whether the numbers of the section that begins at the front have their high octet first. None where no section begins there.
fn order_of_section(octets: &[u8]) -> Option<bool>
    ensures { result ≡ spec.section_order octets.now }
{
    match number_at(octets, BEFORE_BODY, false) {
        0x1A2B_3C4D => Some(false),
        0x4D3C_2B1A => Some(true),
        _ => None,
    }
}

/// The octets of the block at the front, if it is whole: its size stands at its end again.
fn block_size(octets: &[u8], swapped: bool) -> Option<usize>
    ensures value { result ≡ (if spec.is_block swapped octets.now then Some (spec.block_size swapped octets.now) else None) }
    ensures some { IfSome result (λ size. 12 ≤ size) }
    ensures within { IfSome result (λ size. size ≤ length octets.now) }
{
    let size = number_at(octets, 4, swapped) as usize;
    if size < LEAST_BLOCK || size % 4 != 0 || octets.len() < size {
        return None;
    }
    if number_at(octets, size - 4, swapped) as usize != size {
        return None;
    }
    Some(size)
}

/// Why a capture of the newer form isn't read, if it isn't.
pub(crate) fn newer_fault(file: &[u8]) -> Option<CaptureFault>
    ensures { result ≡ spec.newer_refusal file.now }
{
    let Some(swapped) = order_of_section(file) else {
        return Some(CaptureFault::Start);
    };
    let second = number_at(file, 4, swapped) as usize;
    if number_at(file, second, swapped) != INTERFACE {
        return None;
    }
    link_of(u32::from(short_at(file, second + BEFORE_BODY, swapped))).err()
}

/// The packet in the body of a block, and the number of its interface. None where the block says more octets than it has.
fn packet_in(kind: u32, body: &[u8], swapped: bool) -> Option<(usize, &[u8])> {
    if kind == SIMPLE_PACKET {
        let octets = rest_of(body, 4);
        return Some((0, first_of(octets, number_at(body, 0, swapped) as usize)));
    }
    let interface = if kind == PACKET {
        number_at(body, 0, swapped) as usize
    } else {
        usize::from(short_at(body, 0, swapped))
    };
    let octets = rest_of(body, 20);
    let count = number_at(body, 12, swapped) as usize;
    if octets.len() < count {
        return None;
    }
    Some((interface, first_of(octets, count)))
}

/// The octets of the block at the front, if it is whole. A section header begins a section.
fn begin_block(alloc: Global, octets: &[u8], section: &mut Section) -> Option<usize>
    ensures some { IfSome result (λ size. 12 ≤ size) }
    ensures within { IfSome result (λ size. size ≤ length octets.now) }
{
    if number_at(octets, 0, false) == SECTION {
        section.swapped = order_of_section(octets)?;
        section.links = Vec::new(alloc);
    }
    block_size(octets, section.swapped)
}

/// What the packets of the blocks have.
pub(crate) fn decode_blocks(alloc: Global, file: &[u8]) -> Result<Decoded, AllocError>
    ensures { IfOk result (λ decoded. IsNonDecreasingBy (λ item. item.at) decoded.items.items) }
{
    let mut streams = Vec::new(alloc);
    let mut decoded = Decoded::new(alloc);
    let mut section = Section {
        swapped: false,
        links: Vec::new(alloc),
    };
    let mut packets: u64 = 0;
    let mut rest = file;
    'file: while !rest.is_empty() {
        let Some(size) = begin_block(alloc, rest, &mut section) else {
            push_cut(packets, &mut decoded)?;
            break 'file;
        };
        let kind = number_at(rest, 0, section.swapped);
        let body = first_of(rest_of(rest, BEFORE_BODY), size - LEAST_BLOCK);
        match kind {
            INTERFACE => {
                let number = u32::from(short_at(body, 0, section.swapped));
                section.links.push(link_of(number).ok())?;
            }
            OLD_PACKET | SIMPLE_PACKET | PACKET => {
                let Some((interface, octets)) = packet_in(kind, body, section.swapped) else {
                    push_cut(packets, &mut decoded)?;
                    break 'file;
                };
                packets = packets.saturating_add(1);
                if let Some(Some(link)) = section.links.get(interface)
                    && let Some(payload) = payload_of(*link, octets)
                {
                    put(alloc, &mut streams, &payload, packets)?;
                }
            }
            _ => {}
        }
        rest = rest_of(rest, size);
    }
    with_streams(alloc, &mut streams, decoded)
}

/// Says that the capture ends in the packet after so many.
fn push_cut(packets: u64, decoded: &mut Decoded) -> Result<(), AllocError> {
    decoded.items.push(Item {
        at: packets.saturating_add(1),
        what: What::Packet,
    })?;
    Ok(())
}
