//! The line that a command reads.

ghost use Rattle.std.specs.Prelude.{◌≡◌, IfOk, ℕ, ◌+◌, List, Some, take};

use crate::octets::MAX_CHARACTERS;
use std::alloc::Global;
use std::io;
use std::io::Read;

/// The most octets of the input that are read: the longest line, its line feed, and one octet more, which shows that
/// the line is too long. So no input can fill the memory.
pub const MAX_INPUT: u64 = MAX_CHARACTERS as u64 + 2;

/// Reads the input to its end, or its first [`MAX_INPUT`] octets.
pub fn read_text<R: Read + Drop>(alloc: Global, reader: R) -> io::Result<Vec<u8>>
    ensures exact { IfOk result (λ text. (octets : List ℕ)
        → R.remaining reader ≡ Some octets → text.items ≡ take (MAX_CHARACTERS + 2) octets) }
{
    let mut text = Vec::new(alloc);
    reader.take(MAX_INPUT).read_to_end(&mut text)?;
    Ok(text)
}
