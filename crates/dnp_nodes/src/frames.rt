//! Of whom the frames are that come.

ghost use Rattle.std.specs.Prelude.{◌≡◌};
ghost use Rattle.dnp_nodes.specs.Told.{frame_report};

use crate::report::Report;
use crate::slot::{Ends, Slot};
use dnp_linkframe::Frame;

/// What is told of a frame that came to a station with these ends.
pub(crate) fn frame_of(slot: Slot, ends: Ends, frame: &Frame) -> Report
    ensures { result ≡ frame_report slot ends frame.now }
{
    if frame.dest == ends.own && frame.source == ends.peer {
        Report::Frame(slot)
    } else {
        let own = frame.dest;
        let peer = frame.source;
        Report::Strange(slot, Ends { own, peer })
    }
}
