//! The lines of a frame.
ghost use Rattle.std.specs.Prelude.{◌≡◌, ◌++◌, ◌∷◌, ℕ, List, OnOk};
ghost use Rattle.dnp_linkframe.specs.declared.frame.Frame.{Frame as FrameValue};
ghost use Rattle.dnp_decode.specs.FrameLines as spec;
ghost use Rattle.dnp_decode.specs.FrameLines.{AreFrameLines, AreDataLines};
ghost use Rattle.dnp_transport.specs.Assembly.{ArePushed};
ghost use Rattle.dnp_decode.specs.steps.Remembered.{Remembers};
ghost use Rattle.dnp_decode.specs.declared.line.Line.{Line as LineValue};

use crate::fragment::push_fragment;
use crate::line::Line;
use crate::ports::{Ports, direction_of, put, taken};
use dnp_linkframe::Frame;
use dnp_transport::{Assembler, MAX_SEGMENT, Pushed, SEGMENT_NUMBERS};
use std::alloc::{AllocError, Global};

/// The bit PRM of CONTROL: the frame is of the station that asks (IEEE Std 1815-2012, data link layer).
pub(crate) const PRIMARY: u8 = 0x40;

/// The function of user data that is to be confirmed (IEEE Std 1815-2012, data link layer: function codes).
pub(crate) const CONFIRMED_USER_DATA: u8 = 3;

/// The function of user data that isn't.
pub(crate) const UNCONFIRMED_USER_DATA: u8 = 4;

/// Whether there is user data for the layers above, by the CONTROL octet.
fn says_data(control: u8) -> bool
    ensures { result ≡ spec.says_data control }
{
    control / PRIMARY % 2 == 1
        && (control % 16 == CONFIRMED_USER_DATA || control % 16 == UNCONFIRMED_USER_DATA)
}

/// The line of user data.
fn segment_line(octets: &[u8]) -> Line
    ensures { result ≡ spec.segment_line octets.now }
{
    if octets.len() < 2 || MAX_SEGMENT < octets.len() {
        return Line::SegmentRefused(octets.len());
    }
    Line::Segment {
        first: octets[0] / 0x40 % 2 == 1,
        last: octets[0] / 0x80 % 2 == 1,
        number: octets[0] % SEGMENT_NUMBERS,
        octets: octets.len() - 1,
    }
}

/// Appends the lines of the fragment that the user data complete, if they do, or of the series that they end.
fn push_data(user: &[u8], assembler: &mut Assembler, out: &mut Vec<Line>) -> Result<(), AllocError>
    ensures stands { (before : List (List ℕ)) → ArePushed before assembler.old → OnOk result (ArePushed (user.now ∷ before) assembler.new) }
    ensures lines { (before : List (List ℕ)) → ArePushed before assembler.old → OnOk result ((more : List LineValue) × AreDataLines (user.now ∷ before) more × (out.new.items ≡ out.old.items ++ more)) }
{
    match assembler.push(user) {
        Pushed::Nothing => Ok(()),
        Pushed::Dropped => {
            out.push(Line::SeriesDropped)?;
            Ok(())
        }
        Pushed::Whole => {
            push_fragment(assembler.fragment(), out)?;
            Ok(())
        }
    }
}

/// Appends the lines of a frame, and remembers its user data.
pub(crate) fn hear(
    alloc: Global,
    frame: &Frame,
    ports: &mut Ports,
    out: &mut Vec<Line>,
) -> Result<(), AllocError>
    ensures { (heard : List FrameValue) → Remembers heard ports.old → OnOk result ((lines : List LineValue) × AreFrameLines heard frame.now lines × (out.new.items ≡ out.old.items ++ lines) × Remembers (frame.now ∷ heard) ports.new) }
{
    out.push(Line::Frame {
        control: frame.control,
        dest: frame.dest,
        source: frame.source,
        octets: frame.user.len(),
    })?;
    if !says_data(frame.control) {
        return Ok(());
    }
    let user = frame.user.as_slice();
    out.push(segment_line(user))?;
    let direction = direction_of(frame.source, frame.dest);
    let mut assembler = taken(alloc, ports, direction)?;
    push_data(user, &mut assembler, out)?;
    put(ports, direction, assembler)?;
    Ok(())
}
