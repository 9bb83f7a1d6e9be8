//! One object of those behind a header.

ghost use Rattle.std.specs.Prelude.{◌≡◌, ◌+◌, ◌≤◌, length, IfSome};
ghost use Rattle.dnp_standard.specs.Parts as spec;

use crate::header::{Block, number_in, sized_object};
use crate::object::Size;
use crate::qualifier::Width;

/// An object behind a header, by its place in the octets behind the header.
#[derive(Clone, Copy)]
pub struct Part {
    /// The index before it; 0 where there is none.
    pub index: u64,
    /// Its first octet.
    pub begin: usize,
    /// Where the next one begins.
    pub end: usize,
}

/// Object k of packed ones of one bit, or of two.
fn bits_of(bits: u8, objects: &[u8], k: u32) -> Option<u8>
    requires { bits ≤ 2 }
    ensures { result ≡ spec.bits_of bits objects.now k }
{
    let place = u64::from(k) * u64::from(bits);
    let octet = (place / 8) as usize;
    if octet < objects.len() {
        Some(objects[octet] / (1 << (place % 8)) % (1 << bits))
    } else {
        None
    }
}

/// An object of so many octets after its index, at the front of octets that are at this place.
fn fixed_part(index: Width, size: u8, place: usize, rest: &[u8]) -> Option<Part>
    requires { place + length rest.now ≤ usize.MAX }
    ensures { result ≡ spec.fixed_part index size place rest.now }
{
    let before = index.octets();
    let size = before + usize::from(size);
    if rest.len() < size {
        return None;
    }
    Some(Part {
        index: number_in(rest, index),
        begin: place + before,
        end: place + size,
    })
}

/// An object after its size, at the front of octets that are at this place.
fn sized_part(width: Width, place: usize, rest: &[u8]) -> Option<Part>
    requires { place + length rest.now ≤ usize.MAX }
    ensures { result ≡ spec.sized_part width place rest.now }
{
    let size = sized_object(rest, width)?;
    Some(Part {
        index: 0,
        begin: place + width.octets(),
        end: place + size,
    })
}

impl Block {
    /// The bits of object k, in the octets behind the header, if objects are packed there.
    pub fn packed(&self, objects: &[u8], k: u32) -> Option<u8>
        ensures { result ≡ spec.packed self.now.object.size self.now.follows objects.now k }
    {
        match self.object.size {
            Size::Bit if self.follows => bits_of(1, objects, k),
            Size::BitPair if self.follows => bits_of(2, objects, k),
            _ => None,
        }
    }

    /// The object that begins at this place of the octets behind the header, with its index or its size, unless it is packed.
    pub fn part_at(&self, objects: &[u8], place: usize) -> Option<Part>
        ensures { result ≡ spec.part_at self.now objects.now place }
    {
        if objects.len() < place {
            return None;
        }
        let rest = &objects[place..];
        match self.qualifier.size {
            Width::Zero => {}
            width => return sized_part(width, place, rest),
        }
        match self.object.size {
            _ if !self.follows => fixed_part(self.qualifier.index, 0, place, rest),
            Size::Octets(size) => fixed_part(self.qualifier.index, size, place, rest),
            Size::Bit | Size::BitPair | Size::Varying => None,
        }
    }
}
