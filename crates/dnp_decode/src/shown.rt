//! The lines as texts, in the words of the standard.

use crate::bits::{FlagNames, FlagsOf, IinNames};
use crate::line::Line;
use crate::names::{HEADER_CHECK_PLACE, Refusal, fault_name, link_function, setting_of};
use crate::time::Moment;
use dnp_appfragment::{Control, Range};
use dnp_linkframe::FrameFault;
use dnp_objects::{Command, Kind, Row, Status};
use std::fmt;
use std::fmt::{Display, Formatter, Write};

/// The word, if it is said.
fn said(set: bool, word: &'static str) -> &'static str {
    if set { word } else { "" }
}

/// The sequence number and the bits that are set of a fragment's control octet.
#[derive(Clone, Copy)]
struct Bits(Control);

impl Display for Bits {
    fn fmt<W: Write>(&self, f: &mut Formatter<W>) -> fmt::Result {
        let seq = self.0.seq;
        let fir = said(self.0.fir, " fir");
        let fin = said(self.0.fin, " fin");
        let con = said(self.0.con, " con");
        let uns = said(self.0.uns, " uns");
        write!(f, "seq {seq}{fir}{fin}{con}{uns}")
    }
}

/// Which objects a header speaks of.
#[derive(Clone, Copy)]
struct Objects(Range);

impl Display for Objects {
    fn fmt<W: Write>(&self, f: &mut Formatter<W>) -> fmt::Result {
        match self.0 {
            Range::All => f.write_str("all"),
            Range::Span { first, last, .. } => write!(f, "{first}..{last}"),
            Range::Count { n, .. } | Range::Indexed { n, .. } => write!(f, "x{n}"),
        }
    }
}

/// Why a frame is refused, and at which octet of it.
#[derive(Clone, Copy)]
struct Why(FrameFault);

impl Display for Why {
    fn fmt<W: Write>(&self, f: &mut Formatter<W>) -> fmt::Result {
        let Refusal { name, block, place } = Refusal::of(self.0);
        f.write_str(name)?;
        if let Some(block) = block {
            write!(f, " {block}")?;
        }
        match place {
            Some(place) => write!(f, " at octet {place}"),
            None => Ok(()),
        }
    }
}

/// A point's reading or event, and what its flags are of.
#[derive(Clone, Copy)]
struct Reading(Row, FlagsOf);

/// What the flags of a kind of points are of.
fn flags_of(kind: Kind) -> FlagsOf {
    match kind {
        Kind::Binary => FlagsOf::Binary,
        Kind::Counter => FlagsOf::Counter,
        Kind::Analog => FlagsOf::Analog,
    }
}

impl Display for Reading {
    fn fmt<W: Write>(&self, f: &mut Formatter<W>) -> fmt::Result {
        let Row {
            index,
            flags,
            value,
            time,
            ..
        } = self.0;
        let names = FlagNames { of: self.1, flags };
        write!(f, "{index} = {value} flags {flags:02X}{names}")?;
        match time {
            Some(time) => {
                let moment = Moment(time);
                write!(f, " at {moment}")
            }
            None => Ok(()),
        }
    }
}

/// A command with its status.
#[derive(Clone, Copy)]
struct Told(Command, Status);

impl Display for Told {
    fn fmt<W: Write>(&self, f: &mut Formatter<W>) -> fmt::Result {
        let status = self.1.code();
        if let Some((_, index, value)) = setting_of(self.0) {
            return write!(f, "{index} set {value} status {status}");
        }
        let Command::Block {
            index,
            code,
            count,
            on_ms,
            off_ms,
        } = self.0
        else {
            return Ok(());
        };
        write!(
            f,
            "{index} code {code:02X} count {count} on {on_ms} off {off_ms} status {status}"
        )
    }
}

/// A line of the layers below fragments.
#[derive(Clone, Copy)]
struct Carried(Line);

/// A line of what stands below frames, or of a frame.
#[derive(Clone, Copy)]
struct Linked(Line);

impl Display for Linked {
    fn fmt<W: Write>(&self, f: &mut Formatter<W>) -> fmt::Result {
        match self.0 {
            Line::Noise {
                octets,
                start: false,
            } => write!(f, "{octets} octets skipped: no frame begins there"),
            Line::Noise {
                octets,
                start: true,
            } => write!(
                f,
                "{octets} octets skipped: HeaderCheck at octet {HEADER_CHECK_PLACE}"
            ),
            Line::Frame {
                control,
                dest,
                source,
                octets,
            } => {
                let function = link_function(control);
                write!(
                    f,
                    "{source}>{dest} {control:02X} {function} {octets} octets, words good"
                )
            }
            Line::FrameRefused {
                dest,
                source,
                fault,
                ..
            } => {
                let why = Why(fault);
                write!(f, "{source}>{dest} frame refused: {why}")
            }
            Line::Cut(octets) => write!(f, "frame refused: Cut at octet {octets}"),
            _ => Ok(()),
        }
    }
}

impl Display for Carried {
    fn fmt<W: Write>(&self, f: &mut Formatter<W>) -> fmt::Result {
        match self.0 {
            Line::Segment {
                first,
                last,
                number,
                ..
            } => {
                let first = said(first, "FIR ");
                let last = said(last, "FIN ");
                write!(f, "transport {first}{last}{number}")
            }
            Line::SegmentRefused(octets) => write!(f, "transport refused: Size, {octets} octets"),
            Line::SeriesDropped => f.write_str("transport refused: Series"),
            line => {
                let linked = Linked(line);
                write!(f, "{linked}")
            }
        }
    }
}

/// A line of a fragment's own, or of a layer below.
#[derive(Clone, Copy)]
struct Own(Line);

impl Display for Own {
    fn fmt<W: Write>(&self, f: &mut Formatter<W>) -> fmt::Result {
        match self.0 {
            Line::Request { control, function } => {
                let bits = Bits(control);
                let function = function.name();
                write!(f, "request {bits} {function}")
            }
            Line::Response { control, iin, .. } => {
                let bits = Bits(control);
                let one = iin.one;
                let two = iin.two;
                let names = IinNames(iin);
                write!(f, "response {bits}, iin {one:02X} {two:02X}{names}")
            }
            Line::FragmentRefused { fault, place } => {
                let fault = fault_name(fault);
                write!(f, "fragment refused: {fault} at octet {place}")
            }
            line => {
                let carried = Carried(line);
                write!(f, "{carried}")
            }
        }
    }
}

impl Display for Line {
    /// The line in the words of the standard, without the place where it was read.
    fn fmt<W: Write>(&self, f: &mut Formatter<W>) -> fmt::Result {
        match *self {
            Line::Header {
                group,
                variation,
                range,
                ..
            } => {
                let objects = Objects(range);
                write!(f, "{group}.{variation} {objects}")
            }
            Line::Row(row) | Line::Setpoint(row) => {
                let reading = Reading(row, flags_of(row.kind));
                write!(f, "{reading}")
            }
            Line::Output(row) => {
                let reading = Reading(row, FlagsOf::Output);
                write!(f, "{reading}")
            }
            Line::Indication(Row { index, value, .. }) => write!(f, "{index} = {value}"),
            Line::Time(time) | Line::Common(time) => {
                let moment = Moment(time);
                write!(f, "{moment}")
            }
            Line::Delay(ms) => write!(f, "{ms} ms"),
            Line::Command(command, status) => {
                let told = Told(command, status);
                write!(f, "{told}")
            }
            line => {
                let own = Own(line);
                write!(f, "{own}")
            }
        }
    }
}
