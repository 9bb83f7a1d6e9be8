//! Where a station is found: a host and a port.

ghost use Rattle.std.specs.Prelude.{◌≡◌, ◌==◌, ◌<◌, not, length, IfOk, IfSome, option_map};
ghost use Rattle.dnp_network.specs.Endpoints as spec;

use crate::words::Words;
use std::alloc::{AllocError, Global};
use std::net::{Ipv4Addr, Ipv6Addr};

/// The highest port.
pub(crate) const MAX_PORT: u32 = 65_535;

/// The most octets of a host's name.
pub(crate) const MAX_NAME: usize = 253;

/// A host.
#[derive(Debug, Drop)]
pub enum Host {
    /// An IPv4 address, its octets.
    V4([u8; 4]),
    /// An IPv6 address, its groups.
    V6([u16; 8]),
    /// A name that is to be looked up.
    Name(Words),
}

/// A host and a port.
#[derive(Debug, Drop)]
pub struct Endpoint {
    /// The host.
    pub host: Host,
    /// The port, 1 to 65,535.
    pub port: u16,
}

/// Why a text says no host and port.
#[derive(Clone, Copy, Debug, PartialEq, Eq)]
pub enum EndpointFault {
    /// No port stands behind the host.
    NoPort,
    /// The port is no number from 1 to 65,535.
    Port,
    /// A bracket is not closed.
    Bracket,
    /// What stands in brackets is no IPv6 address.
    Address6,
    /// More than one colon, and no brackets.
    Bare6,
    /// Digits and dots that are no IPv4 address.
    Address4,
    /// The host is no name.
    Name,
}

/// Where the first octet `mark` stands.
fn place_in(octets: &[u8], mark: u8) -> Option<usize>
    ensures place { result ≡ spec.place_from mark 0 octets.now }
    ensures within { IfSome result (λ n. n < length octets.now) }
{
    for (at, octet) in octets.iter().enumerate() {
        if *octet == mark {
            return Some(at);
        }
    }
    None
}

/// What stands before and after the first octet `mark`.
#[tactic(auto, using(std::proofs::lemmas::List::take_rest), unfolding(crate::specs::Endpoints::cut))]
pub(crate) fn cut(octets: &[u8], mark: u8) -> Option<(&[u8], &[u8])>
    ensures { option_map (λ p. (p.0.now, p.1.now)) result ≡ spec.cut mark octets.now }
{
    match place_in(octets, mark) {
        Some(at) => Some((&octets[..at], &octets[at + 1..])),
        None => None,
    }
}

/// The decimal number of these digits, if it is no more than the highest port; 0 where there are none.
pub(crate) fn number_from(digits: &[u8]) -> Option<u16>
    ensures { result ≡ spec.port_from 0 digits.now }
{
    let mut value: u32 = 0;
    for octet in digits {
        if !octet.is_ascii_digit() {
            return None;
        }
        let next = value * 10 + u32::from(*octet - b'0');
        if next > MAX_PORT {
            return None;
        }
        value = next;
    }
    Some(value as u16)
}

/// The port that these digits say.
#[tactic(auto, unfolding(crate::specs::Endpoints::port_of))]
fn port_in(digits: &[u8]) -> Option<u16>
    ensures { result ≡ spec.port_of digits.now }
{
    match number_from(digits) {
        Some(port) if port != 0 => Some(port),
        _ => None,
    }
}

/// The IPv4 address that the text says.
fn v4_in(text: &[u8]) -> Option<[u8; 4]>
    ensures { result ≡ spec.v4_of text.now }
{
    match Ipv4Addr::parse_ascii(text) {
        Ok(address) => Some(address.octets()),
        Err(_) => None,
    }
}

/// The IPv6 address that the text says, without a zone.
fn v6_in(text: &[u8]) -> Option<[u16; 8]>
    ensures { result ≡ spec.v6_of text.now }
{
    match Ipv6Addr::parse_ascii(text) {
        Ok(address) => Some(address.segments()),
        Err(_) => None,
    }
}

/// Whether the text is of digits and dots alone.
fn is_numeric(text: &[u8]) -> bool
    ensures { result ≡ spec.all_are spec.is_numeric text.now }
{
    for octet in text {
        if !(octet.is_ascii_digit() || *octet == b'.') {
            return false;
        }
    }
    true
}

/// Whether the text is the name of a host.
#[tactic(auto, unfolding(crate::specs::Endpoints::is_name))]
fn is_name(text: &[u8]) -> bool
    ensures { result ≡ spec.is_name text.now }
{
    if text.is_empty() || text.len() > MAX_NAME {
        return false;
    }
    for octet in text {
        if !matches!(*octet, b'a'..=b'z' | b'A'..=b'Z' | b'0'..=b'9' | b'.' | b'-' | b'_') {
            return false;
        }
    }
    true
}

/// Whether no colon stands in the text.
fn is_without_colon(text: &[u8]) -> bool
    ensures { result ≡ spec.all_are (λ octet. not (octet == 58)) text.now }
{
    for octet in text {
        if *octet == b':' {
            return false;
        }
    }
    true
}

/// The host that a text without brackets says.
#[tactic(auto, unfolding(crate::specs::Endpoints::host_of))]
fn host_in(alloc: Global, text: &[u8]) -> Result<Result<Host, EndpointFault>, AllocError>
    ensures { IfOk result (λ host. host ≡ spec.host_of text.now) }
{
    if !text.is_empty() && is_numeric(text) {
        return match v4_in(text) {
            Some(octets) => Ok(Ok(Host::V4(octets))),
            None => Ok(Err(EndpointFault::Address4)),
        };
    }
    if !is_name(text) {
        return Ok(Err(EndpointFault::Name));
    }
    Ok(Ok(Host::Name(Words::new(alloc, text)?)))
}

/// The host with the port that these digits say.
fn with_port(host: Host, digits: &[u8]) -> Result<Endpoint, EndpointFault>
    ensures { result ≡ spec.with_port host (spec.port_of digits.now) }
{
    match port_in(digits) {
        Some(port) => Ok(Endpoint { host, port }),
        None => Err(EndpointFault::Port),
    }
}

/// The host and port of a text that doesn't begin with a bracket.
fn plain_in(alloc: Global, text: &[u8]) -> Result<Result<Endpoint, EndpointFault>, AllocError>
    ensures { IfOk result (λ endpoint. endpoint ≡ spec.plain_of (spec.cut 58 text.now)) }
{
    let Some((host, digits)) = cut(text, b':') else {
        return Ok(Err(EndpointFault::NoPort));
    };
    if !is_without_colon(digits) {
        return Ok(Err(EndpointFault::Bare6));
    }
    match host_in(alloc, host)? {
        Ok(host) => Ok(with_port(host, digits)),
        Err(fault) => Ok(Err(fault)),
    }
}

/// The host and port of what follows a bracket.
fn bracketed_in(text: &[u8]) -> Result<Endpoint, EndpointFault>
    ensures { result ≡ spec.bracketed_of (spec.cut 93 text.now) }
{
    let Some((host, rest)) = cut(text, b']') else {
        return Err(EndpointFault::Bracket);
    };
    match rest {
        [b':', digits @ ..] => match v6_in(host) {
            Some(groups) => with_port(Host::V6(groups), digits),
            None => Err(EndpointFault::Address6),
        },
        _ => Err(EndpointFault::NoPort),
    }
}

/// The host and port that the text says: `address:port`, an IPv6 address in brackets, or `name:port`; or the first cause why
/// it says none. An error says that it ran out of memory.
#[tactic(auto, unfolding(crate::specs::Endpoints::endpoint_of))]
pub fn endpoint_in(
    alloc: Global,
    text: &[u8],
) -> Result<Result<Endpoint, EndpointFault>, AllocError>
    ensures { IfOk result (λ endpoint. endpoint ≡ spec.endpoint_of text.now) }
{
    match text {
        [] => Ok(Err(EndpointFault::NoPort)),
        [b'[', rest @ ..] => Ok(bracketed_in(rest)),
        _ => plain_in(alloc, text),
    }
}
