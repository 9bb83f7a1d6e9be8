//! The lines of a decoded stream.

use dnp_appfragment::{AppFault, Control, Function, Iin, Range};
use dnp_linkframe::FrameFault;
use dnp_objects::{Command, Row, Status};

/// One thing that was read, or refused.
#[derive(Clone, Copy)]
pub enum Line {
    /// So many octets, one after the other, at each of which no frame begins, and whether the first two are 05 64: then
    /// a header's check word is wrong.
    Noise {
        octets: usize,
        start: bool,
    },
    /// A link frame (IEEE Std 1815-2012, data link layer): its CONTROL octet, its addresses, and how many octets of
    /// user data it has.
    Frame {
        control: u8,
        dest: u16,
        source: u16,
        octets: usize,
    },
    /// So many octets that begin with the header of a frame and are none, and why.
    FrameRefused {
        control: u8,
        dest: u16,
        source: u16,
        octets: usize,
        fault: FrameFault,
    },
    /// So many octets at the end of the stream: too few for a header, or for the frame of the header at their front.
    Cut(usize),
    /// A segment (IEEE Std 1815-2012, transport function): FIR, FIN, its number, and how many octets of a fragment it
    /// carries.
    Segment {
        first: bool,
        last: bool,
        number: u8,
        octets: usize,
    },
    /// User data of so many octets, which are no segment: fewer than 2.
    SegmentRefused(usize),
    /// The segment ended the series of its direction: it hadn't the next number, or made the fragment too long.
    SeriesDropped,
    /// A request (IEEE Std 1815-2012, application layer).
    Request {
        control: Control,
        function: Function,
    },
    /// A response.
    Response {
        control: Control,
        function: Function,
        iin: Iin,
    },
    /// The fragment is refused for what stands so many octets after its beginning. What was read before it has its
    /// lines before this one.
    FragmentRefused {
        fault: AppFault,
        place: usize,
    },
    /// An object header, with how many octets of objects follow it.
    Header {
        group: u8,
        variation: u8,
        range: Range,
        octets: usize,
    },
    /// An object that is a point's reading or event.
    Row(Row),
    /// An object that is an output's state (10.2), as a binary input's.
    Output(Row),
    /// An object that is a setpoint's state (40.1, 40.2), as an analog input's.
    Setpoint(Row),
    /// An object that is an internal indication which is written (80.1), as a binary input's: packed bits have no flags
    /// of their own.
    Indication(Row),
    /// An object that is a time which is written (50.1), in milliseconds since 1970-01-01 00:00 UTC.
    Time(u64),
    /// An object that is a common time (51.1, and 51.2 of a clock that isn't synchronized), after which the times of events
    /// are given (2.3), in milliseconds since 1970-01-01 00:00 UTC.
    Common(u64),
    /// An object that is a delay (52.2), in milliseconds.
    Delay(u16),
    /// An object that is a command, with its status.
    Command(Command, Status),
}
