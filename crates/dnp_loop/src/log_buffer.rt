//! Lines for a descriptor that is not waited for, as standard error, which may be a pipe that nobody reads.

ghost use Rattle.std.specs.Prelude.{◌≡◌, ◌≤◌, [], IsTrue, ◌↔◌, drop, length, min, take, vec_len};
ghost use Rattle.dnp_loop.specs.declared.log_buffer.TheConstants.{MAX_LOG, PIECE};

use std::alloc::Global;

/// How many octets of lines wait at most.
pub const MAX_LOG: usize = 65_536;

/// How many octets are written at once: a pipe that takes octets takes so many without a wait.
pub const PIECE: usize = 4_096;

/// How many octets a short line has at most.
const SHORT: usize = 512;

/// Lines that wait to be written. One that finds no room or no memory is lost as a whole, and counted.
#[derive(Drop)]
pub struct LogBuffer {
    /// What waits, in order.
    octets: Vec<u8>,
    /// How many lines were lost since that was taken last.
    lost: u64,
    ghost bounded: { vec_len octets ≤ MAX_LOG },
}

impl LogBuffer {
    ghost use Rattle.dnp_loop.specs.LogBuffers.{
      IsAdded,
      Stands,
      lost_of,
      may_tell,
      waiting_of,
    };

    /// Makes one in which nothing waits.
    pub fn new(alloc: Global) -> LogBuffer
        ensures { Stands result [] 0 }
    {
        LogBuffer {
            octets: Vec::new(alloc),
            lost: 0,
        }
    }

    /// Adds a line with its end, or counts it if there is no room for it.
    pub fn add(&mut self, line: &[u8])
        ensures { IsAdded self.old line.now self.new }
    {
        let room = MAX_LOG - self.octets.len();
        if line.len() <= room && self.octets.extend_from_slice(line).is_ok() {
            return;
        }
        self.lost = self.lost.saturating_add(1);
    }

    /// Says whether lines were lost since that was taken last, and there is room to say so.
    pub fn may_tell_lost(&self) -> bool
        ensures { result ≡ may_tell self.now }
    {
        0 < self.lost && self.octets.len() <= MAX_LOG - SHORT
    }

    /// Says whether nothing waits.
    pub fn is_empty(&self) -> bool
        ensures { IsTrue result ↔ (waiting_of self.now ≡ []) }
    {
        self.octets.is_empty()
    }

    /// Gives the octets that are to be written next.
    pub fn piece(&self) -> &[u8]
        ensures { let waiting = waiting_of self.now in result.now ≡ take (min (length waiting) PIECE) waiting }
    {
        let count = self.octets.len().min(PIECE);
        &self.octets[..count]
    }

    /// The first octets of those that wait were written, or all if there are fewer.
    pub fn drop_written(&mut self, count: usize)
        ensures { Stands self.new (drop count (waiting_of self.old)) (lost_of self.old) }
    {
        let count = count.min(self.octets.len());
        self.octets.drain(..count);
    }

    /// Gives how many lines were lost since that was asked last.
    pub fn take_lost(&mut self) -> u64
        ensures given { result ≡ lost_of self.old }
        ensures kept { Stands self.new (waiting_of self.old) 0 }
    {
        let lost = self.lost;
        self.lost = 0;
        lost
    }
}
