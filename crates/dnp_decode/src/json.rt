//! The lines as members of JSON objects.

use crate::line::Line;
use crate::names::{HEADER_CHECK_PLACE, Refusal, fault_name, link_function, setting_of};
use dnp_appfragment::{Control, Range};
use dnp_linkframe::FrameFault;
use dnp_objects::{Command, Kind, Row, Status};
use std::fmt;
use std::fmt::{Display, Formatter, Write};

/// A line as the members of a JSON object, without its braces: `layer` says what it is of, `refused` is there where it
/// says that something is refused, and the others have the line's numbers.
#[derive(Clone, Copy)]
pub struct Members(pub Line);

/// The control octet of a fragment.
#[derive(Clone, Copy)]
struct Bits(Control);

impl Display for Bits {
    fn fmt<W: Write>(&self, f: &mut Formatter<W>) -> fmt::Result {
        let Control {
            fir,
            fin,
            con,
            uns,
            seq,
        } = self.0;
        write!(
            f,
            "\"seq\":{seq},\"fir\":{fir},\"fin\":{fin},\"con\":{con},\"uns\":{uns}"
        )
    }
}

/// Which objects a header speaks of.
#[derive(Clone, Copy)]
struct Objects(Range);

impl Display for Objects {
    fn fmt<W: Write>(&self, f: &mut Formatter<W>) -> fmt::Result {
        match self.0 {
            Range::All => f.write_str("\"range\":\"all\""),
            Range::Span { first, last, .. } => {
                write!(f, "\"range\":\"span\",\"first\":{first},\"last\":{last}")
            }
            Range::Count { n, .. } => write!(f, "\"range\":\"count\",\"count\":{n}"),
            Range::Indexed { n, .. } => write!(f, "\"range\":\"indexed\",\"count\":{n}"),
        }
    }
}

/// Why a frame is refused.
#[derive(Clone, Copy)]
struct Why(FrameFault);

impl Display for Why {
    fn fmt<W: Write>(&self, f: &mut Formatter<W>) -> fmt::Result {
        let Refusal { name, block, place } = Refusal::of(self.0);
        write!(f, "\"refused\":\"{name}\"")?;
        if let Some(block) = block {
            write!(f, ",\"block\":{block}")?;
        }
        match place {
            Some(place) => write!(f, ",\"octet\":{place}"),
            None => Ok(()),
        }
    }
}

/// What a kind of points is called.
fn kind_name(kind: Kind) -> &'static str {
    match kind {
        Kind::Binary => "binary",
        Kind::Counter => "counter",
        Kind::Analog => "analog",
    }
}

/// A point's reading or event, or an output's state, by what its points are called.
#[derive(Clone, Copy)]
struct Reading(&'static str, Row);

impl Display for Reading {
    fn fmt<W: Write>(&self, f: &mut Formatter<W>) -> fmt::Result {
        let Row {
            index,
            flags,
            value,
            time,
            ..
        } = self.1;
        let kind = self.0;
        write!(
            f,
            "\"layer\":\"row\",\"kind\":\"{kind}\",\"index\":{index},\"value\":{value},\"flags\":\"{flags:02X}\""
        )?;
        match time {
            Some(time) => write!(f, ",\"time\":{time}"),
            None => f.write_str(",\"time\":null"),
        }
    }
}

/// A command with its status.
#[derive(Clone, Copy)]
struct Told(Command, Status);

impl Display for Told {
    fn fmt<W: Write>(&self, f: &mut Formatter<W>) -> fmt::Result {
        let status = self.1.code();
        match self.0 {
            Command::Block {
                index,
                code,
                count,
                on_ms,
                off_ms,
            } => write!(
                f,
                "\"layer\":\"command\",\"command\":\"block\",\"index\":{index},\"code\":{code},\"count\":{count},\"on_ms\":{on_ms},\"off_ms\":{off_ms},\"status\":{status}"
            ),
            setting => match setting_of(setting) {
                Some((word, index, value)) => write!(
                    f,
                    "\"layer\":\"command\",\"command\":\"{word}\",\"index\":{index},\"value\":{value},\"status\":{status}"
                ),
                None => Ok(()),
            },
        }
    }
}

/// So many octets that are no frame, which begin as a header does or don't.
#[derive(Clone, Copy)]
struct Skipped(usize, bool);

impl Display for Skipped {
    fn fmt<W: Write>(&self, f: &mut Formatter<W>) -> fmt::Result {
        let octets = self.0;
        if self.1 {
            write!(
                f,
                "\"refused\":\"HeaderCheck\",\"octet\":{HEADER_CHECK_PLACE},\"octets\":{octets}"
            )
        } else {
            write!(f, "\"refused\":\"Noise\",\"octets\":{octets}")
        }
    }
}

/// A line of a fragment, or of a layer below.
#[derive(Clone, Copy)]
struct Said(Line);

impl Display for Said {
    fn fmt<W: Write>(&self, f: &mut Formatter<W>) -> fmt::Result {
        match self.0 {
            Line::Request { control, function } => {
                let bits = Bits(control);
                let function = function.name();
                write!(
                    f,
                    "\"layer\":\"request\",{bits},\"function\":\"{function}\""
                )
            }
            Line::Response {
                control,
                function,
                iin,
            } => {
                let bits = Bits(control);
                let function = function.name();
                let one = iin.one;
                let two = iin.two;
                write!(
                    f,
                    "\"layer\":\"response\",{bits},\"function\":\"{function}\",\"iin\":[\"{one:02X}\",\"{two:02X}\"]"
                )
            }
            Line::FragmentRefused { fault, place } => {
                let fault = fault_name(fault);
                write!(
                    f,
                    "\"layer\":\"fragment\",\"refused\":\"{fault}\",\"octet\":{place}"
                )
            }
            Line::Time(time) => write!(f, "\"layer\":\"time\",\"time\":{time}"),
            Line::Common(time) => write!(f, "\"layer\":\"common\",\"time\":{time}"),
            Line::Delay(ms) => write!(f, "\"layer\":\"delay\",\"ms\":{ms}"),
            line => {
                let carried = Carried(line);
                write!(f, "{carried}")
            }
        }
    }
}

/// A line of what stands below frames, or of a frame.
#[derive(Clone, Copy)]
struct Linked(Line);

impl Display for Linked {
    fn fmt<W: Write>(&self, f: &mut Formatter<W>) -> fmt::Result {
        f.write_str("\"layer\":\"frame\",")?;
        match self.0 {
            Line::Noise { octets, start } => {
                let skipped = Skipped(octets, start);
                write!(f, "{skipped}")
            }
            Line::Frame {
                control,
                dest,
                source,
                octets,
            } => {
                let function = link_function(control);
                write!(
                    f,
                    "\"source\":{source},\"dest\":{dest},\"control\":\"{control:02X}\",\"function\":\"{function}\",\"octets\":{octets}"
                )
            }
            Line::FrameRefused {
                control,
                dest,
                source,
                fault,
                ..
            } => {
                let why = Why(fault);
                write!(
                    f,
                    "\"source\":{source},\"dest\":{dest},\"control\":\"{control:02X}\",{why}"
                )
            }
            Line::Cut(octets) => write!(f, "\"refused\":\"Cut\",\"octet\":{octets}"),
            _ => Ok(()),
        }
    }
}

/// A line of the layers below fragments.
#[derive(Clone, Copy)]
struct Carried(Line);

impl Display for Carried {
    fn fmt<W: Write>(&self, f: &mut Formatter<W>) -> fmt::Result {
        match self.0 {
            Line::Segment {
                first,
                last,
                number,
                octets,
            } => write!(
                f,
                "\"layer\":\"transport\",\"fir\":{first},\"fin\":{last},\"number\":{number},\"octets\":{octets}"
            ),
            Line::SegmentRefused(octets) => write!(
                f,
                "\"layer\":\"transport\",\"refused\":\"Size\",\"octets\":{octets}"
            ),
            Line::SeriesDropped => f.write_str("\"layer\":\"transport\",\"refused\":\"Series\""),
            line => {
                let linked = Linked(line);
                write!(f, "{linked}")
            }
        }
    }
}

impl Display for Members {
    fn fmt<W: Write>(&self, f: &mut Formatter<W>) -> fmt::Result {
        match self.0 {
            Line::Header {
                group,
                variation,
                range,
                octets,
            } => {
                let objects = Objects(range);
                write!(
                    f,
                    "\"layer\":\"header\",\"group\":{group},\"variation\":{variation},{objects},\"octets\":{octets}"
                )
            }
            Line::Row(row) => {
                let reading = Reading(kind_name(row.kind), row);
                write!(f, "{reading}")
            }
            Line::Output(row) => {
                let reading = Reading("output", row);
                write!(f, "{reading}")
            }
            Line::Setpoint(row) => {
                let reading = Reading("setpoint", row);
                write!(f, "{reading}")
            }
            Line::Indication(Row { index, value, .. }) => write!(
                f,
                "\"layer\":\"indication\",\"index\":{index},\"value\":{value}"
            ),
            Line::Command(command, status) => {
                let told = Told(command, status);
                write!(f, "{told}")
            }
            line => {
                let said = Said(line);
                write!(f, "{said}")
            }
        }
    }
}
