//! Which frames come on a connection, whatever else becomes of them.

ghost use Rattle.std.specs.Prelude.{◌≡◌, ◌↔◌, IsTrue};

use dnp_linkframe::Frame;
use dnp_notices::{Ends, Heard};

/// What came so far, with octets after it in which these frames came whole, where frames with these link addresses are awaited.
pub(crate) fn heard_with(before: Heard, frames: &[Frame], awaited: Ends) -> Heard {
    let mut heard = before.with_octets();
    for frame in frames {
        heard = heard.with_frame(ends_of(frame), awaited);
    }
    heard
}

/// The link addresses of a frame.
fn ends_of(frame: &Frame) -> Ends
    ensures { result ≡ record { source = frame.now.source; dest = frame.now.dest } }
{
    Ends {
        source: frame.source,
        dest: frame.dest,
    }
}

/// Whether a frame has these link addresses.
pub(crate) fn is_of(frame: &Frame, ends: Ends) -> bool
    ensures { IsTrue result ↔ (frame.now.source ≡ ends.source) × (frame.now.dest ≡ ends.dest) }
{
    ends_of(frame) == ends
}
