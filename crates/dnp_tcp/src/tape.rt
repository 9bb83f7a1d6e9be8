//! The octets that went one way over a connection, cut where link frames end.

ghost use Rattle.std.specs.Prelude.{◌≡◌, [], ◌∷◌, ◌++◌, drop, IfOk, IfSome, OnOk};
ghost use Rattle.dnp_linkframe.specs.Frames.{Spells};
ghost use Rattle.dnp_linkframe.specs.declared.frame.Frame.{Frame as FrameValue};

use dnp_linkframe::{Frame, FrameReader, MAX_UNIT, read_frame, write_frame};
use std::alloc::{AllocError, Global};

/// So many octets are held at most. No frame has as many.
const MOST: usize = 2 * MAX_UNIT;

/// The octets of one way that belong to no frame yet.
#[derive(Drop)]
pub(crate) struct Tape {
    /// Finds the frames.
    frames: FrameReader,
    /// The frame that ended last.
    came: Vec<Frame>,
    /// The octets since the last cut.
    held: Vec<u8>,
}

impl Tape {
    /// Nothing went over the connection.
    pub(crate) fn new(alloc: Global) -> Tape
        ensures { result.held.items ≡ [] }
    {
        Tape {
            frames: FrameReader::new(),
            came: Vec::new(alloc),
            held: Vec::new(alloc),
        }
    }

    /// The octets since the last cut.
    pub(crate) fn held(&self) -> &[u8]
        ensures { result.now ≡ self.now.held.items }
    {
        self.held.as_slice()
    }

    /// Cuts behind the octets that are held.
    pub(crate) fn cut(&mut self)
        ensures { self.new.held.items ≡ [] }
    {
        self.held.clear();
    }

    /// Whether as many octets are held as may be.
    pub(crate) fn is_full(&self) -> bool {
        self.held.len() >= MOST
    }

    /// Takes the next octet. Where a link frame ends with it: how many of the octets that are held stand before that.
    pub(crate) fn take(&mut self, octet: u8) -> Result<Option<usize>, AllocError>
        ensures held { OnOk result (self.new.held.items ≡ self.old.held.items ++ octet ∷ []) }
        ensures frame { IfOk result (λ ended. IfSome ended (λ before. (frame : FrameValue) × Spells (drop before self.new.held.items) frame)) }
    {
        self.held.push(octet)?;
        self.came.clear();
        self.frames.feed(&[octet], &mut self.came)?;
        Ok(match self.came.as_slice() {
            [frame, ..] => before_frame(self.held.as_slice(), frame),
            [] => None,
        })
    }
}

/// How many of these octets stand before those of the frame, if they end in a frame of its length.
fn before_frame(octets: &[u8], frame: &Frame) -> Option<usize>
    ensures { IfSome result (λ before. (spelled : FrameValue) × Spells (drop before octets.now) spelled) }
{
    let before = octets.len().checked_sub(write_frame(frame).len())?;
    match read_frame(&octets[before..]) {
        Ok(_) => Some(before),
        Err(_) => None,
    }
}
