//! A packet of IPv4 with TCP in it, as it stands in a capture.
ghost use Rattle.std.specs.Prelude.{◌≡◌, ◌≤◌, ◌<◌, ◌++◌, length, drop, OnOk};
ghost use Rattle.dnp_trace.specs.Captures as spec;
ghost use Rattle.dnp_trace.specs.Captures.{octet as octet_in, le32, added, sum_from, ip_with as ip_of, tcp_with as tcp_of, around, packet_head, packet_record};

use crate::capture::{End, LONGEST, SYN};
use crate::sheet::Sheet;
use std::alloc::AllocError;

/// The octet of a number that counts so many.
fn octet(number: u32, weight: u32) -> u8
    requires { 0 < weight }
    ensures { result ≡ octet_in number weight }
{
    (number / weight % 256) as u8
}

/// The number in four octets, the low one first.
#[tactic(auto, unfolding(crate::specs::Captures::le32))]
fn low_first(number: u32) -> [u8; 4]
    ensures { result ≡ le32 number }
{
    [
        octet(number, 1),
        octet(number, 0x100),
        octet(number, 0x1_0000),
        octet(number, 0x100_0000),
    ]
}

/// The sum of two words in ones' complement.
#[tactic(auto, unfolding(crate::specs::Captures::added))]
fn add(one: u16, other: u16) -> u16
    ensures { result ≡ added one other }
{
    let sum = u32::from(one) + u32::from(other);
    if sum < 0x1_0000 {
        sum as u16
    } else {
        (sum - 0xFFFF) as u16
    }
}

/// The octets after the first two.
fn after_two(octets: &[u8]) -> &[u8]
    requires { 2 ≤ length octets.now }
    ensures { result.now ≡ drop 2 octets.now }
{
    &octets[2..]
}

/// The sum of a number and the words of octets, the first octet of each the higher one.
#[tactic(auto, using(crate::proofs::Sums::sum_of_two, crate::proofs::Sums::sum_of_one, crate::proofs::Sums::sum_of_none))]
fn sum_of(start: u16, octets: &[u8]) -> u16
    ensures { result ≡ sum_from start octets.now }
{
    let mut sum = start;
    let mut rest = octets;
    'words: while rest.len() > 1 {
        sum = add(sum, u16::from(rest[0]) * 256 + u16::from(rest[1]));
        rest = after_two(rest);
    }
    if rest.is_empty() {
        return sum;
    }
    add(sum, u16::from(rest[0]) * 256)
}

/// The header of IPv4 of a packet of so many octets, with this checksum.
#[tactic(auto, unfolding(crate::specs::Captures::ip_with))]
fn ip_with(from: End, to: End, size: u32, sum: u16) -> [u8; 20]
    ensures { result ≡ ip_of from to size sum }
{
    let sum = u32::from(sum);
    [
        0x45,
        0,
        octet(size, 0x100),
        octet(size, 1),
        0,
        0,
        0x40,
        0,
        64,
        6,
        octet(sum, 0x100),
        octet(sum, 1),
        192,
        0,
        2,
        from.host,
        192,
        0,
        2,
        to.host,
    ]
}

/// The header of IPv4 of a packet of so many octets.
#[tactic(auto, unfolding(crate::specs::Captures::ip_header))]
fn ip_header(from: End, to: End, size: u32) -> [u8; 20]
    ensures { result ≡ spec.ip_header from to size }
{
    let sum = sum_of(0, &ip_with(from, to, size, 0));
    ip_with(from, to, size, 0xFFFF - sum)
}

/// The number of the octet that an end awaits, where a packet of these bits says it.
fn awaited(to: End, bits: u8) -> u32
    ensures { result ≡ spec.awaited to bits }
{
    if bits == SYN { 0 } else { to.next }
}

/// The header of TCP with these bits and this checksum.
#[tactic(auto, unfolding(crate::specs::Captures::tcp_with))]
fn tcp_with(from: End, to: End, bits: u8, sum: u16) -> [u8; 20]
    ensures { result ≡ tcp_of from to bits sum }
{
    let awaited = awaited(to, bits);
    let sum = u32::from(sum);
    [
        octet(u32::from(from.port), 0x100),
        octet(u32::from(from.port), 1),
        octet(u32::from(to.port), 0x100),
        octet(u32::from(to.port), 1),
        octet(from.next, 0x100_0000),
        octet(from.next, 0x1_0000),
        octet(from.next, 0x100),
        octet(from.next, 1),
        octet(awaited, 0x100_0000),
        octet(awaited, 0x1_0000),
        octet(awaited, 0x100),
        octet(awaited, 1),
        0x50,
        bits,
        0xFF,
        0xFF,
        octet(sum, 0x100),
        octet(sum, 1),
        0,
        0,
    ]
}

/// What TCP's checksum counts beside its packet of so many octets: the addresses, the protocol and the size.
#[tactic(auto, unfolding(crate::specs::Captures::around))]
fn around_it(from: End, to: End, size: u32) -> [u8; 12]
    ensures { result ≡ around from to size }
{
    [
        192,
        0,
        2,
        from.host,
        192,
        0,
        2,
        to.host,
        0,
        6,
        octet(size, 0x100),
        octet(size, 1),
    ]
}

/// The header of TCP of a packet that carries these octets.
#[tactic(auto, unfolding(crate::specs::Captures::tcp_header))]
fn tcp_header(from: End, to: End, bits: u8, payload: &[u8]) -> [u8; 20]
    requires { length payload.now ≤ LONGEST }
    ensures { result ≡ spec.tcp_header from to bits payload.now }
{
    let size = payload.len() as u32 + 20;
    let start = sum_of(0, &around_it(from, to, size));
    let sum = sum_of(sum_of(start, &tcp_with(from, to, bits, 0)), payload);
    tcp_with(from, to, bits, 0xFFFF - sum)
}

/// Writes the head of a packet of so many octets.
#[tactic(auto, unfolding(crate::specs::Captures::packet_head))]
fn put_head(sheet: &mut Sheet, moment: u64, size: u32) -> Result<(), AllocError>
    ensures { OnOk result (sheet.new ≡ sheet.old ++ packet_head moment size) }
{
    let seconds = (moment / 1_000).min(0xFFFF_FFFF) as u32;
    sheet.put(&low_first(seconds))?;
    sheet.put(&low_first((moment % 1_000 * 1_000) as u32))?;
    sheet.put(&low_first(size))?;
    sheet.put(&low_first(size))
}

/// Writes a packet from one end to the other.
#[tactic(auto, unfolding(crate::specs::Captures::packet_record))]
pub(crate) fn put_packet(
    sheet: &mut Sheet,
    moment: u64,
    from: End,
    to: End,
    bits: u8,
    payload: &[u8],
) -> Result<(), AllocError>
    requires { length payload.now ≤ LONGEST }
    ensures { OnOk result (sheet.new ≡ sheet.old ++ packet_record moment from to bits payload.now) }
{
    let size = payload.len() as u32 + 40;
    put_head(sheet, moment, size)?;
    sheet.put(&ip_header(from, to, size))?;
    sheet.put(&tcp_header(from, to, bits, payload))?;
    sheet.put(payload)
}
