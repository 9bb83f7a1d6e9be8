//! Units of octets read as frames.

ghost use Rattle.std.specs.Prelude.{◌≡◌, ℕ, ◌+◌, ◌-◌, ◌*◌, ◌≤◌, ◌<◌, List, [], ◌++◌, length, take, OnOk, OnErr, IfOk, IfErr, IsOk, IsTrue, ◌↔◌, Ok, Err};
ghost use Rattle.dnp_linkframe.specs.Frames.{Spells, AreChecked, IsChecked, IsFirstFault, blocks, block_count};
ghost use Rattle.dnp_linkframe.specs.steps.Checks.{EachChecked, IsFirstUnchecked};
ghost use Rattle.dnp_linkframe.specs.steps.Checks.{IsWhole};
ghost use Rattle.dnp_linkframe.specs.declared.frame.Frame.{Frame as FrameValue};
ghost use Rattle.dnp_linkframe.specs.declared.frame.FrameFault.{FrameFault as FaultValue};

use crate::check::check_word;
use crate::frame::{
    BLOCK, CHECKED_BLOCK, CHECKED_HEADER, Frame, FrameFault, LENGTH_OF_NONE, MAX_USER_DATA,
};
use arrayvec::ArrayVec;

/// Whether the last two octets are the check word of those before.
#[inline]
fn is_checked(octets: &[u8]) -> bool
    ensures { IsTrue result ↔ IsChecked octets.now }
{
    match octets {
        [part @ .., low, high] => u16::from_le_bytes([*low, *high]) == check_word(part),
        _ => false,
    }
}

/// Whether each block ends in its check word; if not, the number of the first that doesn't.
#[inline(always)]
pub(crate) fn check_blocks(octets: &[u8]) -> Result<(), usize>
    ensures checked { OnOk result (EachChecked octets.now) }
    ensures fault { IfErr result (IsFirstUnchecked octets.now) }
{
    for (number, block) in octets.chunks(CHECKED_BLOCK).enumerate() {
        if !is_checked(block) {
            return Err(number);
        }
    }
    Ok(())
}

/// Whether the unit spells a frame; if not, the first fault of the order.
#[inline(always)]
fn check_unit(unit: &[u8]) -> Result<(), FrameFault>
    ensures whole { OnOk result (IsWhole unit.now) }
    ensures fault { IfErr result (IsFirstFault unit.now) }
{
    if unit.len() < CHECKED_HEADER {
        return Err(FrameFault::Short);
    }
    if unit[0] != 0x05 || unit[1] != 0x64 {
        return Err(FrameFault::Start);
    }
    if !is_checked(&unit[..CHECKED_HEADER]) {
        return Err(FrameFault::HeaderCheck);
    }
    if unit[2] < LENGTH_OF_NONE {
        return Err(FrameFault::Length);
    }
    let size = usize::from(unit[2] - LENGTH_OF_NONE);
    if unit.len() != CHECKED_HEADER + size + 2 * size.div_ceil(BLOCK) {
        return Err(FrameFault::Size);
    }
    match check_blocks(&unit[CHECKED_HEADER..]) {
        Ok(()) => Ok(()),
        Err(number) => Err(FrameFault::BlockCheck(number)),
    }
}

/// Appends a block without its last two octets. A whole block is copied apart from others: the
/// compiler knows its length then, and the copy is a single move.
#[inline(always)]
fn copy_block(block: &[u8], user: &mut ArrayVec<u8, MAX_USER_DATA>)
    requires two { 2 ≤ length block.now }
    requires room { length user.old.items + (length block.now - 2) ≤ MAX_USER_DATA }
    ensures { user.new.items ≡ user.old.items ++ take (length block.now - 2) block.now }
{
    if block.len() == CHECKED_BLOCK {
        user.try_extend_from_slice(&block[..BLOCK]).unwrap();
    } else {
        user.try_extend_from_slice(&block[..block.len() - 2])
            .unwrap();
    }
}

/// Appends the user data of the blocks, each with its check word after it.
#[inline(always)]
fn copy_blocks(octets: &[u8], user: &mut ArrayVec<u8, MAX_USER_DATA>)
    requires sized { (size : ℕ) × (size ≤ MAX_USER_DATA) × (length octets.now ≡ size + 2 * block_count size) }
    requires checked { EachChecked octets.now }
    requires empty { user.old.items ≡ [] }
    ensures { AreChecked (blocks user.new.items) octets.now }
{
    for block in octets.chunks(CHECKED_BLOCK) {
        copy_block(block, user);
    }
}

/// Makes the frame the one that the unit spells.
#[inline(always)]
pub(crate) fn fill(unit: &[u8], frame: &mut Frame)
    requires { IsWhole unit.now }
    ensures { Spells unit.now frame.new }
{
    frame.control = unit[3];
    frame.dest = u16::from_le_bytes([unit[4], unit[5]]);
    frame.source = u16::from_le_bytes([unit[6], unit[7]]);
    frame.user.clear();
    copy_blocks(&unit[CHECKED_HEADER..], &mut frame.user);
}

/// Makes `frame` the frame that the unit of octets spells. Where it spells none the answer is a fault,
/// the first that fits in the order of [`FrameFault`], and `frame` stays as it was.
#[inline]
pub fn read_frame_into(unit: &[u8], frame: &mut Frame) -> Result<(), FrameFault>
    ensures found { OnOk result (Spells unit.now frame.new) }
    ensures only { (spelled : FrameValue) → Spells unit.now spelled → IsOk result × (frame.new ≡ spelled) }
    ensures fault { IfErr result (IsFirstFault unit.now) }
    ensures only_fault { (fault : FaultValue) → IsFirstFault unit.now fault → result ≡ Err fault }
    ensures refused { OnErr result (frame.new ≡ frame.old) }
{
    check_unit(unit)?;
    fill(unit, frame);
    Ok(())
}

/// The frame that the unit of octets spells, and a fault where it spells none: the first that fits
/// in the order of [`FrameFault`].
///
/// It is compiled into its callers: as a call of its own it was measured slower for short frames.
#[inline(always)]
pub fn read_frame(unit: &[u8]) -> Result<Frame, FrameFault>
    ensures found { IfOk result (Spells unit.now) }
    ensures only { (frame : FrameValue) → Spells unit.now frame → result ≡ Ok frame }
    ensures fault { IfErr result (IsFirstFault unit.now) }
    ensures only_fault { (fault : FaultValue) → IsFirstFault unit.now fault → result ≡ Err fault }
{
    let mut frame = Frame::blank();
    read_frame_into(unit, &mut frame)?;
    Ok(frame)
}
