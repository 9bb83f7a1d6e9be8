//! The files of a database, read beside the program that has it.

ghost use Rattle.std.specs.Prelude.{◌≤◌, IfOk, length};

use std::io;

/// One of the two files of a database.
#[derive(Clone, Copy, Debug, PartialEq, Eq)]
pub enum Part {
    /// The file of its pages.
    Pages,
    /// Its write-ahead log, which is empty where there is none.
    Log,
}

/// The files of a database, which are read alone, and with no lock: whoever has the database is not disturbed, and may write
/// at any moment.
pub trait Beside {
    /// Reads octets of a file, from an offset on, into the front of the room, and tells how many; 0 at its end.
    fn read_at(&mut self, part: Part, at: u64, room: &mut [u8]) -> io::Result<usize>
        ensures { IfOk result (λ n. n ≤ length room.new) };
}

/// Reads on until the room is full or the file ends, and tells how many octets came.
pub(crate) fn fill<B: Beside>(
    beside: &mut B,
    part: Part,
    at: u64,
    room: &mut [u8],
) -> io::Result<usize>
    ensures { IfOk result (λ n. n ≤ length room.new) }
{
    let mut count = 0;
    while count < room.len() {
        let offset = at.saturating_add(count as u64);
        let more = beside.read_at(part, offset, &mut room[count..])?;
        if more == 0 {
            break;
        }
        count += more;
    }
    Ok(count)
}
