//! The octets of the fragments of a stream that the profile refuses.

use crate::item::{Item, What, octets_of};
use dnp_decode::Line;
use dnp_linkframe::read_frame;
use dnp_transport::{Assembler, Pushed};
use std::alloc::{AllocError, Global};
use std::collections::BTreeMap;

/// The bit PRM of CONTROL: the frame is of the station that asks (IEEE Std 1815-2012, data link layer).
const PRIMARY: u8 = 0x40;

/// The functions of user data (IEEE Std 1815-2012, data link layer: function codes).
const CONFIRMED_USER_DATA: u8 = 3;

const UNCONFIRMED_USER_DATA: u8 = 4;

/// A fragment that the profile refuses.
#[derive(Drop)]
pub struct Refused {
    /// The line, the packet or the place of the frame that completes it, as the item's that tells of the refusal.
    pub at: u64,
    /// Its octets.
    pub octets: Vec<u8>,
}

/// What was decoded: items, and of each of them that says that a fragment is refused that fragment, in the same order.
#[derive(Drop)]
pub struct Decoded {
    /// The items.
    pub items: Vec<Item>,
    /// The refused fragments.
    pub fragments: Vec<Refused>,
}

impl Decoded {
    /// Nothing.
    pub(crate) fn new(alloc: Global) -> Decoded {
        Decoded {
            items: Vec::new(alloc),
            fragments: Vec::new(alloc),
        }
    }
}

/// The assemblers by their directions.
type Ports = BTreeMap<u32, Box<Assembler>>;

/// The number of a direction.
fn direction_of(source: u16, dest: u16) -> u32 {
    u32::from(source) * 0x1_0000 + u32::from(dest)
}

/// The fragment that the frame at the front of octets completes, if it completes one.
fn completed(
    alloc: Global,
    octets: &[u8],
    ports: &mut Ports,
) -> Result<Option<Vec<u8>>, AllocError> {
    let Ok(frame) = read_frame(octets) else {
        return Ok(None);
    };
    let function = frame.control % 16;
    if frame.control / PRIMARY % 2 == 0
        || function != CONFIRMED_USER_DATA && function != UNCONFIRMED_USER_DATA
    {
        return Ok(None);
    }
    let direction = direction_of(frame.source, frame.dest);
    let mut assembler = match ports.remove(&direction) {
        Some(assembler) => assembler,
        None => Box::new(alloc, Assembler::new())?,
    };
    let whole = match assembler.push(frame.user.as_slice()) {
        Pushed::Whole => Some(assembler.fragment().to_vec(alloc)?),
        Pushed::Nothing | Pushed::Dropped => None,
    };
    ports.insert(direction, assembler)?;
    Ok(whole)
}

/// The part of a stream from one place to another: none of it where it has no such part.
fn part_of(stream: &[u8], begin: usize, end: usize) -> &[u8] {
    if begin <= end && end <= stream.len() {
        &stream[begin..end]
    } else {
        &[]
    }
}

/// Whether the line says that a fragment is refused.
pub(crate) fn is_refused_fragment(item: &Item) -> bool {
    matches!(item.what, What::Line(Line::FragmentRefused { .. }))
}

/// Appends the refused fragments of a stream, in order, by its items. Items of what is no octets of the stream may stand among
/// these. An error says that memory ran out.
pub fn push_refused(
    alloc: Global,
    stream: &[u8],
    items: &[Item],
    fragments: &mut Vec<Refused>,
) -> Result<(), AllocError> {
    let mut ports = Ports::new(alloc);
    let mut last = None;
    let mut next: usize = 0;
    for item in items {
        let What::Line(line) = item.what else {
            continue;
        };
        let begin = next;
        next = next.saturating_add(octets_of(&line));
        match line {
            Line::Frame { .. } => last = completed(
                alloc,
                part_of(stream, begin, next),
                &mut ports,
            )?,
            Line::FragmentRefused { .. } => {
                let octets = match last.take() {
                    Some(octets) => octets,
                    None => Vec::new(alloc),
                };
                fragments.push(Refused {
                    at: item.at,
                    octets,
                })?;
            }
            _ => {}
        }
    }
    Ok(())
}
