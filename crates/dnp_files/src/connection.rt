//! What is known of a connection to a station that is asked, and why one that ended brought no answer.

use dnp_appfragment::Iin;
use dnp_loop::Fault;
use dnp_nodes::{Closing, Head};
use dnp_notices::{Awaited, Ends, Exchange, Failing, Heard, Trouble};
use dnp_schedule::TaskKind;
use std::io::{self, ErrorKind};

/// What is known of a connection.
#[derive(Clone, Copy)]
pub(crate) struct Connection {
    /// Which response is awaited, and what came last in its place.
    pub(crate) exchange: Exchange,
    /// Whether points were read by the last request.
    pub(crate) is_poll: bool,
    /// Which frames came.
    pub(crate) heard: Heard,
    /// Why what came was refused first, if it was.
    pub(crate) trouble: Option<Trouble>,
    /// Whether an unsolicited response has come again, of which nothing more is known yet.
    pub(crate) is_repeated: bool,
}

impl Connection {
    /// Nothing went over it.
    pub(crate) const NEW: Connection = Connection {
        exchange: Exchange::IDLE,
        is_poll: false,
        heard: Heard::NOTHING,
        trouble: None,
        is_repeated: false,
    };

    /// A request with this sequence number was sent on it.
    pub(crate) fn awaits(&mut self, seq: u8) {
        let is_later = false;
        self.exchange = Exchange {
            awaited: Some(Awaited { seq, is_later }),
            mismatch: None,
        };
        self.is_poll = false;
    }

    /// A frame came with these link addresses, where others are awaited.
    pub(crate) fn meets(&mut self, ends: dnp_nodes::Ends, awaited: Ends) {
        let came = Ends {
            source: ends.peer,
            dest: ends.own,
        };
        self.heard = self.heard.with_frame(came, awaited);
    }
}

/// The second octet of the indications by which a station refuses what it is asked: the function, an object, a parameter, or since it is at
/// it already.
const REFUSING: u8 = 0x17;

/// What it indicates by a response that may answer something else than a poll: those indications by which a station refuses what it is asked
/// are as they were.
pub(crate) fn indicated(known: Iin, seen: Iin) -> Iin {
    Iin {
        one: seen.one,
        two: (seen.two & !REFUSING) | (known.two & REFUSING),
    }
}

/// FIR, FIN and UNS of an application control octet: a whole unsolicited response has them all.
const WHOLE_REPORT: u8 = 0xD0;

/// Whether a response with this head is a whole unsolicited one, which a master takes at any time.
pub(crate) fn is_report(head: &Head) -> bool {
    head.is_unsolicited() && head.control & WHOLE_REPORT == WHOLE_REPORT
}

/// Whether points are read by a task.
pub(crate) fn reads(task: TaskKind) -> bool {
    matches!(
        task,
        TaskKind::IntegrityPoll | TaskKind::EventPoll | TaskKind::OtherPoll
    )
}

/// Why a station did not answer, by why its connection ended; nothing if the station here ended it for a reason of its own.
pub(crate) fn trouble_of(
    cause: Closing,
    fault: Option<Fault>,
    connection: &Connection,
) -> Option<Trouble> {
    match (cause, fault) {
        (Closing::Unmade, Some(fault)) => Some(Trouble::Unreached(Failing::of(fault.kind))),
        (Closing::Unmade, None) => Some(Trouble::Unreached(Failing::Late)),
        (Closing::Peer, Some(fault)) => Some(Trouble::Unread(Failing::of(fault.kind))),
        (Closing::Peer, None) => trouble_on(connection, false),
        (Closing::Late, _) => trouble_on(connection, true),
        (Closing::Endless, _) => Some(Trouble::Endless),
        (Closing::Stuck, _) => Some(Trouble::Unwritten(Failing::Late)),
        (
            Closing::Idle
            | Closing::Station
            | Closing::Unasked
            | Closing::Finished
            | Closing::Replaced
            | Closing::Memory
            | Closing::Store(_),
            _,
        ) => None,
    }
}

/// Why a station did not answer on a connection that failed in nothing.
fn trouble_on(connection: &Connection, is_late: bool) -> Option<Trouble> {
    match connection.trouble {
        Some(trouble) => Some(trouble),
        None => {
            let (mismatch, strange) = (connection.exchange.mismatch, connection.heard.strange());
            Trouble::of(None, mismatch, strange, false, is_late)
        }
    }
}

/// The error of a call that failed, to be printed.
pub(crate) fn error_of(cause: Closing, fault: Option<Fault>) -> Option<io::Error> {
    match (cause, fault) {
        (_, Some(fault)) => Some(fault.error()),
        (Closing::Unmade, None) => Some(io::Error::from(ErrorKind::TimedOut)),
        (_, None) => None,
    }
}
