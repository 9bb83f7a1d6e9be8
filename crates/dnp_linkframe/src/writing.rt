//! Frames written as units of octets.

ghost use Rattle.std.specs.Prelude.{◌≡◌, ℕ, ◌+◌, ◌≤◌, ◌<◌, ◌^◌, List, ◌++◌, length};
ghost use Rattle.std.specs.Int.{w16, to_le_bytes};
ghost use Rattle.dnp_linkframe.specs.Frames.{Spells, HasCheck, IsFrame, header};

use crate::check::check_word;
use crate::frame::{BLOCK, Frame, LENGTH_OF_NONE, MAX_UNIT};
use arrayvec::ArrayVec;
use byteorder::{ByteOrder, LittleEndian};

/// The number as two octets, low octet first.
#[inline]
fn low_first(number: u16) -> [u8; 2]
    ensures octets { result ≡ to_le_bytes w16 number }
    ensures fits { number < 2 ^ 16 }
{
    let mut octets = [0; 2];
    LittleEndian::write_u16(&mut octets, number);
    octets
}

/// The frame's first 8 octets.
#[inline]
fn header_of(frame: &Frame) -> [u8; 8]
    ensures octets { result ≡ header frame.now }
    ensures fits { IsFrame frame.now }
{
    let length = LENGTH_OF_NONE + frame.user.len() as u8;
    let [dest_low, dest_high] = low_first(frame.dest);
    let [source_low, source_high] = low_first(frame.source);
    [
        0x05,
        0x64,
        length,
        frame.control,
        dest_low,
        dest_high,
        source_low,
        source_high,
    ]
}

/// Appends the part and its check word, low octet first.
#[inline(always)]
fn push_checked(unit: &mut ArrayVec<u8, MAX_UNIT>, part: &[u8])
    requires { length unit.old.items + length part.now + 2 ≤ MAX_UNIT }
    ensures { (octets : List ℕ) × HasCheck part.now octets × (unit.new.items ≡ unit.old.items ++ octets) }
{
    unit.try_extend_from_slice(part).unwrap();
    unit.try_extend_from_slice(&low_first(check_word(part)))
        .unwrap();
}

/// Writes the octets that spell the frame in place of what is in `unit`.
#[inline]
pub fn write_frame_into(frame: &Frame, unit: &mut ArrayVec<u8, MAX_UNIT>)
    ensures spells { Spells unit.new.items frame.now }
    ensures only { (other : List ℕ) → Spells other frame.now → other ≡ unit.new.items }
{
    unit.clear();
    push_checked(unit, &header_of(frame));
    for block in frame.user.chunks(BLOCK) {
        push_checked(unit, block);
    }
}

/// The octets that spell the frame, the only ones that do.
#[inline]
pub fn write_frame(frame: &Frame) -> ArrayVec<u8, MAX_UNIT>
    ensures spells { Spells result.items frame.now }
    ensures only { (unit : List ℕ) → Spells unit frame.now → unit ≡ result.items }
{
    let mut unit = ArrayVec::new();
    write_frame_into(frame, &mut unit);
    unit
}
