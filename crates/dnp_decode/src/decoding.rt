//! A stream of octets, decoded.
ghost use Rattle.std.specs.Prelude.{[], IfOk};
ghost use Rattle.dnp_decode.specs.StreamLines.{AreLines};

use crate::line::Line;
use crate::ports::Ports;
use crate::stream::step;
use dnp_transport::laws::a_push_goes_on;
use std::alloc::{AllocError, Global};

/// The lines of a stream of octets, in order: what is read in it and what is refused, from its link frames to the
/// objects of its fragments (IEEE Std 1815-2012).
///
/// The frames are those that a [`FrameReader`](dnp_linkframe::FrameReader) gives of the stream; octets that it drops have a
/// line that says why. The segments of what one station sends to another are joined apart from all others, as an
/// [`Assembler`](dnp_transport::Assembler) joins them. A fragment is read as a request or a response, by its function.
///
/// An error says that it ran out of memory.
pub fn decode(alloc: Global, stream: &[u8]) -> Result<Vec<Line>, AllocError>
    ensures { IfOk result (λ lines. AreLines [] stream.now lines.items) }
{
    a_push_goes_on();
    let mut lines = Vec::new(alloc);
    let mut ports = Ports::new(alloc);
    let mut done = 0;
    'fronts: loop {
        let used = step(alloc, &stream[done..], &mut ports, &mut lines)?;
        if used == 0 {
            break 'fronts;
        }
        done += used;
    }
    if done < stream.len() {
        lines.push(Line::Cut(stream.len() - done))?;
    }
    Ok(lines)
}
