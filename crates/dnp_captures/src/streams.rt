//! The streams of a capture: what each direction of a connection carried.

use crate::item::{Mark, push_stream};
use crate::packet::{Payload, Way, rest_of};
use crate::refused::Decoded;
use std::alloc::{AllocError, Global};

/// A part of a stream, and which packet brought it.
#[derive(Clone, Copy)]
pub(crate) struct Part<'a> {
    /// The place of its first octet in the stream, by its sequence number.
    place: u64,
    /// The packet, from 1.
    packet: u64,
    /// The octets.
    octets: &'a [u8],
}

/// One direction of a connection, with the parts that came.
#[derive(Drop)]
pub(crate) struct Stream<'a> {
    /// The direction.
    way: Way,
    /// The sequence number of the octet at the place `base`.
    sequence: u32,
    /// A place in the stream: far enough from 0 for octets that come late.
    base: u64,
    /// The parts, as they came.
    pub parts: Vec<Part<'a>>,
}

/// The place that the first octet of a stream is given.
const FIRST_PLACE: u64 = 1 << 40;

/// The number of the last stream of a direction, if there is one.
fn stream_of(streams: &[Stream<'_>], way: &Way) -> Option<usize> {
    let mut found = None;
    for (index, stream) in streams.iter().enumerate() {
        if stream.way == *way {
            found = Some(index);
        }
    }
    found
}

/// The place of a sequence number, as near as can be to a place whose number is known.
fn place_near(base: u64, known: u32, sequence: u32) -> u64 {
    let ahead = sequence.wrapping_sub(known);
    if ahead < 1 << 31 {
        base.saturating_add(u64::from(ahead))
    } else {
        base.saturating_sub(u64::from(known.wrapping_sub(sequence)))
    }
}

/// Puts a payload to its stream, which is new where it begins one.
pub(crate) fn put<'a>(
    alloc: Global,
    streams: &mut Vec<Stream<'a>>,
    payload: &Payload<'a>,
    packet: u64,
) -> Result<(), AllocError> {
    let Payload {
        way,
        sequence,
        begins,
        octets,
    } = *payload;
    let known = stream_of(streams.as_slice(), &way);
    let index = match known {
        Some(index) if !begins => index,
        _ => {
            streams.push(Stream {
                way,
                sequence,
                base: FIRST_PLACE,
                parts: Vec::new(alloc),
            })?;
            streams.len() - 1
        }
    };
    if index >= streams.len() || octets.is_empty() {
        return Ok(());
    }
    let stream = &mut streams[index];
    // (a datagram follows the one before it)
    let place = if way.tcp {
        let place = place_near(stream.base, stream.sequence, sequence);
        stream.base = place;
        stream.sequence = sequence;
        place
    } else {
        let place = stream.base;
        stream.base = place.saturating_add(octets.len() as u64);
        place
    };
    stream.parts.push(Part {
        place,
        packet,
        octets,
    })?;
    Ok(())
}

/// Appends what a stream has: its parts in order, without octets that came before.
pub(crate) fn push_parts(
    alloc: Global,
    parts: &mut Vec<Part<'_>>,
    decoded: &mut Decoded,
) -> Result<(), AllocError> {
    parts.sort_by_key(|part| part.place)?;
    let mut octets = Vec::new(alloc);
    let mut marks = Vec::new(alloc);
    let mut next: u64 = 0;
    for part in parts.iter() {
        let end = part.place.saturating_add(part.octets.len() as u64);
        let known = next.saturating_sub(part.place);
        if end <= next || known > part.octets.len() as u64 {
            continue;
        }
        marks.push(Mark {
            place: octets.len(),
            at: part.packet,
        })?;
        octets.extend_from_slice(rest_of(part.octets, known as usize))?;
        next = end;
    }
    push_stream(alloc, octets.as_slice(), marks.as_slice(), decoded)
}
