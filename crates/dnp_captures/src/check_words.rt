//! Check words that are wrong, and those that would be right, for the person who made a frame by hand.

ghost use Rattle.std.specs.Prelude.{◌≡◌, ◌+◌, ◌≤◌, ◌<◌, length, IfSome};
ghost use Rattle.std.specs.List.{slice_index};
ghost use Rattle.dnp_captures.specs.CheckWords.{IsWrongIn, begin_of, size_of};

use dnp_linkframe::{FrameFault, check_word};

/// How many octets of user data a block has, and how many with its check word.
const BLOCK: usize = 16;

const CHECKED_BLOCK: usize = 18;

/// How many octets a header has, and how many with its check word.
const HEADER: usize = 8;

const CHECKED_HEADER: usize = 10;

/// The most blocks that a frame has.
const MAX_BLOCKS: usize = 16;

/// What LENGTH counts beside the user data.
const LENGTH_OF_NONE: usize = 5;

/// A check word that is wrong.
#[derive(Clone, Copy, Debug, PartialEq, Eq)]
pub struct WrongWord {
    /// At which octet of the frame it stands, from 0.
    pub place: usize,
    /// What stands there.
    pub stands: u16,
    /// What belongs there.
    pub belongs: u16,
}

/// Where the octets begin whose check word is wrong by this fault, and how many they are in a frame with this LENGTH. None where no
/// frame has such a block.
fn covered(counted: u8, fault: FrameFault) -> Option<(usize, usize)>
    ensures begin { IfSome result (λ part. part.0 ≡ begin_of fault) }
    ensures size { IfSome result (λ part. part.1 ≡ size_of counted fault) }
    ensures small { IfSome result (λ part. (part.0 < 1000) × (part.1 ≤ 16)) }
{
    match fault {
        FrameFault::BlockCheck(block) if block < MAX_BLOCKS => {
            let user_data = usize::from(counted).saturating_sub(LENGTH_OF_NONE);
            let left = user_data.saturating_sub(BLOCK * block);
            Some((CHECKED_HEADER + CHECKED_BLOCK * block, left.min(BLOCK)))
        }
        FrameFault::BlockCheck(_) => None,
        _ => Some((0, HEADER)),
    }
}

/// The check word that is wrong by this fault of the frame which the octets begin with, and the one that belongs there. None where
/// the octets end before it, or where it is right.
pub fn wrong_word(octets: &[u8], fault: FrameFault) -> Option<WrongWord>
    ensures { IfSome result (IsWrongIn octets.now fault) }
{
    if octets.len() <= 2 {
        return None;
    }
    let (begin, size) = covered(octets[2], fault)?;
    let place = begin + size;
    if octets.len() <= place + 1 {
        return None;
    }
    let stands = u16::from_le_bytes([octets[place], octets[place + 1]]);
    let belongs = check_word(&octets[begin..place]);
    if stands == belongs {
        return None;
    }
    Some(WrongWord {
        place,
        stands,
        belongs,
    })
}
