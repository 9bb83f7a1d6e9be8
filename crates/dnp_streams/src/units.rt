//! Units as lines of text, one below the other.
ghost use Rattle.std.specs.Prelude.{◌≡◌, ℕ, ◌<◌, ◌≤◌, List, [], ◌∷◌, ◌++◌, length, map, OnOk};
ghost use Rattle.dnp_linkstation.specs.Station.{ends, sent};
ghost use Rattle.dnp_transport.specs.Cuts.{cut_count, cuts};
ghost use Rattle.dnp_line.specs.Ports.{moved_on};
ghost use Rattle.dnp_outstation.specs.Station.{sent_of};
ghost use Rattle.dnp_streams.specs.OctetLines.{line_of};
ghost use Rattle.dnp_streams.specs.Units.{frames_of};
ghost use Rattle.dnp_streams.specs.steps.Appended.{AreAppended};

use crate::octets::line_of_octets;
use arrayvec::ArrayVec;
use dnp_line::Port;
use dnp_linkframe::MAX_UNIT;
use dnp_outstation::Fragment;
use dnp_transport::{MAX_FRAGMENT, segment_count};
use std::alloc::AllocError;

/// Appends the line of a unit, with its line feed.
pub(crate) fn push_line(text: &mut Vec<u8>, unit: &[u8]) -> Result<(), AllocError>
    requires { length unit.now ≤ MAX_UNIT }
    ensures { OnOk result (text.new.items ≡ text.old.items ++ (line_of unit.now ++ 10 ∷ [])) }
{
    let mut line = line_of_octets(unit);
    line.push(b'\n');
    text.extend_from_slice(&line)
}

/// Appends the lines of the units in which the port's station sends a fragment of at most
/// [`MAX_FRAGMENT`] octets, and moves the port's numbers on. A fragment without octets has no unit.
fn push_fragment(text: &mut Vec<u8>, port: &mut Port, fragment: &[u8]) -> Result<(), AllocError>
    requires fits { length fragment.now ≤ MAX_FRAGMENT }
    ensures lines { OnOk result (AreAppended text.old.items (map (sent (ends port.old.link)) (cuts fragment.now port.old.number)) text.new.items) }
    ensures moved { OnOk result (port.new ≡ moved_on (cut_count (length fragment.now)) port.old) }
{
    let count = if fragment.is_empty() {
        0
    } else {
        segment_count(fragment)
    };
    let mut unit = ArrayVec::new();
    for k in 0..count {
        port.unit_into(fragment, k, &mut unit);
        push_line(text, &unit)?;
    }
    port.sent(count);
    Ok(())
}

/// Appends the lines of the units in which the port's station sends these fragments, in order.
pub(crate) fn push_fragments(
    text: &mut Vec<u8>,
    port: &mut Port,
    fragments: &[Option<Fragment>],
) -> Result<(), AllocError>
    ensures lines { OnOk result (AreAppended text.old.items (frames_of (ends port.old.link) port.old.number (sent_of fragments.now)) text.new.items) }
{
    for fragment in fragments {
        if let Some(fragment) = fragment {
            push_fragment(text, port, fragment)?;
        }
    }
    Ok(())
}
