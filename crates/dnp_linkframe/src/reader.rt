//! Frames in a stream of octets that comes in pieces: what waits between two pieces. Where the next frame begins, and
//! which octets are dropped before it, is decided in `stream.rt`.

ghost use Rattle.std.specs.Prelude.{◌≡◌, ℕ, ◌<◌, ◌≤◌, List, [], ◌++◌, length, drop, min, OnOk, OnErr, IfOk, ◌+◌, vec_len, vec_capacity};
ghost use Rattle.dnp_linkframe.specs.Stream.{Gives};
ghost use Rattle.dnp_linkframe.specs.declared.frame.Frame.{Frame as FrameValue};

use crate::frame::{CHECKED_HEADER, Frame, MAX_UNIT};
use crate::stream::{needed, take_frames};
use arrayvec::ArrayVec;
use std::alloc::AllocError;
use std::marker::Model;

/// The octets that wait at one time, and as many that a piece can bring before they are checked.
const ROOM: usize = 2 * MAX_UNIT;

/// Reads link frames from a stream of octets that comes in pieces (IEEE Std 1815-2012, data link layer).
/// Between two calls it holds the octets that wait.
#[derive(Debug, Drop)]
pub struct FrameReader {
    /// Octets that are done with, and after them those that wait.
    octets: ArrayVec<u8, ROOM>,
    /// How many of `octets` are done with.
    start: usize,
    /// How many octets have to wait before they are checked again.
    needed: usize,
}

impl Model for FrameReader {
    ghost use Rattle.std.specs.Prelude.{ℕ, ◌≤◌, List, length, drop};
    ghost use Rattle.dnp_linkframe.specs.steps.Checks.{Awaits};

    ghost Value = { List ℕ };

    ghost view = { λ reader. drop reader.start reader.octets.items };

    ghost invariant = { λ reader. (reader.start ≤ length reader.octets.items) × Awaits (drop reader.start reader.octets.items) reader.needed };
}

impl FrameReader {
    /// A reader at the beginning of a stream.
    pub fn new() -> Self
        ensures empty { result ≡ [] }
        ensures gives { Gives [] [] result }
    {
        FrameReader {
            octets: ArrayVec::new(),
            start: 0,
            needed: CHECKED_HEADER,
        }
    }

    /// Takes the next octets of the stream, of any number, and appends the frames that are whole now.
    ///
    /// Once there are 10 octets at the front of the stream it is decided what they are. Where they don't
    /// begin with 05 64, or the check word of the header is wrong, one octet is dropped. Where LENGTH
    /// is under 5 the 10 octets are dropped. Else the reader waits for all the octets that LENGTH says:
    /// they are given as a frame, or dropped where the check word of a block is wrong. Then the same
    /// is asked of the next octets.
    ///
    /// So the frames depend on the octets alone, and not on the pieces in which they come. Fewer than
    /// [`MAX_UNIT`] octets wait. Memory is asked for only where `out` has no room for the frames that come; where
    /// it is refused, neither the reader nor the frames in `out` have changed.
    pub fn feed(&mut self, piece: &[u8], out: &mut Vec<Frame>) -> Result<(), AllocError>
        ensures given { OnOk result ((frames : List FrameValue) × (out.new.items ≡ out.old.items ++ frames) × Gives (self.old ++ piece.now) frames self.new) }
        ensures carried { OnOk result ((stream : List ℕ) (before frames : List FrameValue) → Gives stream before self.old → out.new.items ≡ out.old.items ++ frames → Gives (stream ++ piece.now) (before ++ frames) self.new) }
        ensures refused { OnErr result ((self.new ≡ self.old) × (out.new.items ≡ out.old.items)) }
        ensures full { OnErr result ((frames : List FrameValue) (rest : List ℕ) → Gives (self.old ++ piece.now) frames rest → vec_capacity out.old < vec_len out.old + length frames) }
        ensures fewer { length self.new < MAX_UNIT }
    {
        self.start = make_room(&mut self.octets, self.start, piece.len().min(MAX_UNIT));
        let held = self.octets.len();
        // What waits was checked when it came: until there are as many octets as are needed, it can't be told
        // what they are.
        if piece.len() < self.needed - (held - self.start) {
            append(&mut self.octets, piece);
            return Ok(());
        }
        let before = out.len();
        match read_on(&mut self.octets, self.start, piece, out) {
            Ok(start) => {
                self.start = start;
                self.needed = needed(&self.octets[start..]);
                Ok(())
            }
            Err(error) => {
                self.octets.truncate(held);
                out.truncate(before);
                Err(error)
            }
        }
    }
}

/// Appends octets for which there is room. One alone is pushed: a copy of a length that isn't known before is a call.
#[inline(always)]
fn append(octets: &mut ArrayVec<u8, ROOM>, piece: &[u8])
    requires { length octets.old.items + length piece.now ≤ ROOM }
    ensures { octets.new.items ≡ octets.old.items ++ piece.now }
{
    match piece {
        [octet] => octets.push(*octet),
        _ => octets.try_extend_from_slice(piece).unwrap(),
    }
}

/// Brings what waits from `start` on to the front where there is no room for `more` octets, and answers
/// where it begins then.
#[inline]
fn make_room(octets: &mut ArrayVec<u8, ROOM>, start: usize, more: usize) -> usize
    requires begun { start ≤ length octets.old.items }
    requires fewer { length (drop start octets.old.items) < MAX_UNIT }
    requires most { more ≤ MAX_UNIT }
    ensures same { drop result octets.new.items ≡ drop start octets.old.items }
    ensures begun { result ≤ length octets.new.items }
    ensures room { length octets.new.items + more ≤ ROOM }
{
    if octets.len() + more <= ROOM {
        return start;
    }
    let waiting = octets.len() - start;
    octets.copy_within(start.., 0);
    octets.truncate(waiting);
    0
}

/// Appends the frames that the octets from `start` on and the piece after them give, and answers where
/// those begin that wait then. Where memory is refused, octets and frames may have been appended.
fn read_on(
    octets: &mut ArrayVec<u8, ROOM>,
    start: usize,
    piece: &[u8],
    out: &mut Vec<Frame>,
) -> Result<usize, AllocError>
    requires begun { start ≤ length octets.old.items }
    requires room { length octets.old.items + min (length piece.now) MAX_UNIT ≤ ROOM }
    ensures given { IfOk result (λ begin. (frames : List FrameValue) × (out.new.items ≡ out.old.items ++ frames) × Gives (drop start octets.old.items ++ piece.now) frames (drop begin octets.new.items)) }
    ensures within { IfOk result (λ begin. begin ≤ length octets.new.items) }
    ensures full { OnErr result ((frames : List FrameValue) (rest : List ℕ) → Gives (drop start octets.old.items ++ piece.now) frames rest → vec_capacity out.old < vec_len out.old + length frames) }
    ensures frames_after { OnErr result ((frames : List FrameValue) × (out.new.items ≡ out.old.items ++ frames)) }
    ensures octets_after { OnErr result ((more : List ℕ) × (octets.new.items ≡ octets.old.items ++ more)) }
{
    let held = octets.len() - start;
    let first = piece.len().min(MAX_UNIT);
    append(octets, &piece[..first]);
    let done = take_frames(&octets[start..], out)?;
    if piece.len() <= MAX_UNIT {
        // The whole piece was copied.
        return Ok(start + done);
    }
    // A frame that begins among the octets that waited ends in the first [`MAX_UNIT`] of the piece: no more of it
    // is copied, and what comes after it is read in the piece.
    let rest = &piece[done - held..];
    let done = take_frames(rest, out)?;
    octets.clear();
    octets.try_extend_from_slice(&rest[done..]).unwrap();
    Ok(0)
}
