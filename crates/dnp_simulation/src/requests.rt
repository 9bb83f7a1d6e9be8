//! The requests that a master sends on a connection, read from its octets.

use std::alloc::{AllocError, Global};

/// The octets of a link frame before its first block.
const HEADER: usize = 10;

/// A header's octet of the length counts these too.
const COUNTED: usize = 5;

/// The octets of a block, without its check sequence, and of that.
const BLOCK: usize = 16;

const CHECK: usize = 2;

/// The bits FIN and FIR of a transport header.
const WHOLE: u8 = 0xC0;

/// The function codes CONFIRM and READ.
const CONFIRM: u8 = 0;

const READ: u8 = 1;

/// The requests that a master sends on a connection. A poll must not have the octets of the request before it, since an
/// outstation takes it for that one, repeated.
#[derive(Drop)]
pub struct Requests {
    /// Octets that were sent, from the beginning of a frame on.
    octets: Vec<u8>,
    /// The last request that fits one block of a frame.
    last: Vec<u8>,
}

/// Gives how many octets the first frame has, if its header is there.
fn frame_len(octets: &[u8]) -> Option<usize> {
    let length = usize::from(*octets.get(2)?);
    let data = length.saturating_sub(COUNTED);
    let blocks = data.div_ceil(BLOCK);
    Some(
        HEADER
            .saturating_add(data)
            .saturating_add(blocks.saturating_mul(CHECK)),
    )
}

/// Gives the fragment of a frame that has one, if it fits one block.
fn fragment_of(frame: &[u8]) -> Option<&[u8]> {
    let end = frame.len().checked_sub(CHECK)?;
    let transport = *frame.get(HEADER)?;
    if transport & WHOLE != WHOLE || end > HEADER.saturating_add(BLOCK) {
        return None;
    }
    frame.get(HEADER.saturating_add(1)..end)
}

impl Requests {
    /// Makes those of a connection on which nothing was sent.
    pub fn new(alloc: Global) -> Requests {
        Requests {
            octets: Vec::new(alloc),
            last: Vec::new(alloc),
        }
    }

    /// A new connection begins.
    pub fn begin(&mut self) {
        self.octets.clear();
        self.last.clear();
    }

    /// Notes octets that were sent. Says whether a poll is among them that has the octets of the request before it.
    pub fn note(&mut self, octets: &[u8]) -> Result<bool, AllocError> {
        self.octets.extend_from_slice(octets)?;
        let mut repeats = false;
        for _ in 0..octets.len() {
            match frame_len(&self.octets) {
                Some(count) if count <= self.octets.len() => {
                    let again = self.take_frame(count)?;
                    repeats = repeats || again;
                }
                _ => break,
            }
        }
        Ok(repeats)
    }

    /// Takes the first frame, of so many octets. Says whether it is a poll with the octets of the request before it.
    fn take_frame(&mut self, count: usize) -> Result<bool, AllocError> {
        let count = count.min(self.octets.len());
        let left = self.octets.len().saturating_sub(count);
        let mut again = false;
        if let Some(frame) = self.octets.get(..count)
            && let Some(fragment) = fragment_of(frame)
            && let Some(function) = fragment.get(1)
            && *function != CONFIRM
        {
            again = *function == READ && fragment == self.last.as_slice();
            self.last.clear();
            self.last.extend_from_slice(fragment)?;
        }
        self.octets.copy_within(count.., 0);
        self.octets.truncate(left);
        Ok(again)
    }
}
