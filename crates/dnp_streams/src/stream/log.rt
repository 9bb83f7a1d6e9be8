//! What was asked of a reader and a writer. A contract sees the octets of a reader and of a writer, and neither how
//! often they were called nor why a call failed: the calls of this module, through which a stream goes, write that down.

ghost use Rattle.std.specs.Prelude.{◌≡◌, ◌+◌, ◌-◌, ◌^◌, ◌<◌, true, MatchResult};
ghost use Rattle.std.specs.Io.{ReadsAtMost};
ghost use Rattle.std.specs.Io.KnownBytes.{ReadConsumes};
ghost use Rattle.dnp_streams.specs.streams.Logs.{new_log};

use std::io;
use std::io::Read;

/// What was asked of a reader and a writer, and whether one of them failed.
#[derive(Clone, Copy, Debug, PartialEq, Eq)]
pub struct Log {
    /// How often the reader was asked for octets.
    pub reads: u64,
    /// Whether it answered with a fault.
    pub read_failed: bool,
    /// Whether the writer answered with a fault, or took none of the octets that it was given.
    pub write_failed: bool,
}

impl Log {
    /// Nothing was asked yet.
    pub fn new() -> Log
        ensures { result ≡ new_log }
    {
        Log {
            reads: 0,
            read_failed: false,
            write_failed: false,
        }
    }
}

/// Asks the reader for octets once, and notes it.
pub(super) fn read_noted<R: Read>(
    reader: &mut R,
    piece: &mut [u8],
    log: &mut Log,
) -> io::Result<usize>
    requires { log.old.reads < 2 ^ 64 - 1 }
    ensures bound { ReadsAtMost result piece.new }
    ensures octets { ReadConsumes (R.remaining reader.old) (R.remaining reader.new) result piece.new }
    ensures noted { MatchResult result (λ _. log.new ≡ record log.old { reads = log.old.reads + 1 })
        (λ _. log.new ≡ record log.old { reads = log.old.reads + 1; read_failed = true }) }
{
    log.reads += 1;
    let result = reader.read(piece);
    if result.is_err() {
        log.read_failed = true;
    }
    result
}
