//! The texts of the lines that are said of stations and of rows, all of them.

use crate::control::ControlNotice;
use crate::dropping::DropNotice;
use crate::exchange::Mismatch;
use crate::line::{DropLine, Line, Notice, StrangeLine};
use crate::names::{InBrackets, Thing};
use crate::peer::Peer;
use crate::pieces::{Lasted, Many, Numbered, Since, Told};
use crate::place::Place;
use crate::refusal::Refusal;
use crate::standing::{Failing, LinkNotice, Trouble};
use crate::strange::{Ends, Strange};
use dnp_appfragment::Iin;
use dnp_decode::{Moment, fault_name, indication_name};
use dnp_objects::Status;
use dnp_orders::status_name;
use std::fmt;
use std::fmt::{Display, Formatter, Write};

impl Display for Peer {
    fn fmt<W: Write>(&self, f: &mut Formatter<W>) -> fmt::Result {
        match self {
            Peer::Substation(number) => write!(f, "substation {number}"),
            Peer::Concentrator => f.write_str("the concentrator"),
        }
    }
}

impl Display for Place {
    fn fmt<W: Write>(&self, f: &mut Formatter<W>) -> fmt::Result {
        match self {
            Place::Port(address) => write!(f, "port {}", address.port()),
            Place::Whole(address) => write!(f, "{address}"),
        }
    }
}

impl Display for Told {
    fn fmt<W: Write>(&self, f: &mut Formatter<W>) -> fmt::Result {
        let (code, name) = (self.0.code(), status_name(self.0));
        write!(f, "(status {code} {name})")
    }
}

impl Display for Lasted {
    fn fmt<W: Write>(&self, f: &mut Formatter<W>) -> fmt::Result {
        match self.0 {
            ms @ ..10_000 => write!(f, "{ms} ms"),
            ms => write!(f, "{} s", ms / 1_000),
        }
    }
}

impl Display for Since {
    fn fmt<W: Write>(&self, f: &mut Formatter<W>) -> fmt::Result {
        match self.0 {
            Some(utc) => {
                let moment = Moment(utc);
                write!(f, "{moment}")
            }
            None => f.write_str("the start"),
        }
    }
}

impl<'a> Display for Numbered<'a> {
    fn fmt<W: Write>(&self, f: &mut Formatter<W>) -> fmt::Result {
        let id = self.id;
        write!(f, "control {id}")?;
        match self.output {
            Some((Thing::Output(_, index), name)) => {
                let named = InBrackets(Some(name));
                write!(f, " for output {index}{named}")
            }
            Some((Thing::Setpoint(_, index), name)) => {
                let named = InBrackets(Some(name));
                write!(f, " for setpoint {index}{named}")
            }
            _ => Ok(()),
        }
    }
}

impl Display for Refusal {
    fn fmt<W: Write>(&self, f: &mut Formatter<W>) -> fmt::Result {
        f.write_str("response refused: ")?;
        match *self {
            Refusal::Object(group, variation, place) => write!(
                f,
                "{group}.{variation} at octet {place} is not in the profile"
            ),
            Refusal::Form(fault, place) => {
                let name = fault_name(fault);
                write!(f, "{name} at octet {place}")
            }
            Refusal::Lacked(kind, index) => {
                write!(f, "event of {kind} {index}, which the plan lacks")
            }
            Refusal::Classless(kind, index) => write!(
                f,
                "event of {kind} {index}, which has class 0 in the plan"
            ),
        }
    }
}

impl Display for Mismatch {
    fn fmt<W: Write>(&self, f: &mut Formatter<W>) -> fmt::Result {
        match *self {
            Mismatch::Sequence(came, awaited) => write!(
                f,
                "a response with sequence number {came} came, where {awaited} is awaited"
            ),
            Mismatch::First => f.write_str(
                "a response with FIR came, where a fragment after the first one is awaited",
            ),
            Mismatch::Later => f.write_str(
                "a response without FIR came, where the first fragment is awaited",
            ),
            Mismatch::Form => f.write_str(
                "a response came whose function, UNS, FIR and FIN don't fit together",
            ),
        }
    }
}

impl<'a> Line<'a> {
    /// Why what came was refused.
    fn put_refusal<W: Write>(&self, f: &mut Formatter<W>, refusal: Refusal) -> fmt::Result {
        match refusal {
            Refusal::Classless(kind, index) => {
                let name = self.names.of(Thing::Point(self.peer, kind, index));
                let named = InBrackets(name);
                write!(
                    f,
                    "response refused: event of {kind} {index}{named}, which has class 0 in the plan"
                )
            }
            _ => write!(f, "{refusal}"),
        }
    }

    /// Who is asked.
    fn put_peer<W: Write>(&self, f: &mut Formatter<W>) -> fmt::Result {
        let named = InBrackets(self.names.of(Thing::Station(self.peer)));
        write!(f, "{}{named}: ", self.peer)
    }

    /// Why a poll was not answered.
    fn put_trouble<W: Write>(&self, f: &mut Formatter<W>, trouble: Trouble) -> fmt::Result {
        match trouble {
            Trouble::Unreached(_) => write!(f, "{}", self.place)?,
            Trouble::Silent => return write!(f, "no answer in {} ms", self.patience_ms),
            Trouble::Ended => return f.write_str("the connection ended before the answer"),
            Trouble::Refused(refusal) => return self.put_refusal(f, refusal),
            Trouble::Unlike(mismatch) => return write!(f, "{mismatch}"),
            Trouble::Strange(strange) => return self.put_strange(f, strange),
            Trouble::Unread(_) => f.write_str("the stream could not be read")?,
            Trouble::Unwritten(Failing::Late) => {
                return write!(
                    f,
                    "the stream could not be written: nothing went in {} ms",
                    self.patience_ms
                );
            }
            Trouble::Unwritten(_) => f.write_str("the stream could not be written")?,
            Trouble::Endless => return f.write_str("the answer has no end"),
        }
        match self.cause {
            Some(cause) => write!(f, ": {cause}"),
            None => Ok(()),
        }
    }

    /// Whether the station answers.
    fn put_link<W: Write>(&self, f: &mut Formatter<W>, notice: LinkNotice) -> fmt::Result {
        match notice {
            // (it is there, and what it sends can't be taken)
            LinkNotice::Lost(_, Trouble::Refused(refusal)) => self.put_refusal(f, refusal),
            LinkNotice::Lost(last, trouble) => {
                let since = Since(last);
                write!(f, "lost, no good answer since {since}: ")?;
                self.put_trouble(f, trouble)
            }
            LinkNotice::Still(_, Trouble::Refused(refusal)) => self.put_refusal(f, refusal),
            LinkNotice::Still(last, trouble) => {
                let since = Since(last);
                write!(f, "still lost, no good answer since {since}: ")?;
                self.put_trouble(f, trouble)
            }
            LinkNotice::Back(ms, tries) => {
                let lasted = Lasted(ms);
                let tries = Many(tries, "try", "tries");
                write!(f, "back after {lasted} and {tries}")
            }
        }
    }

    /// The control with this number, which something is said of.
    fn put_number<W: Write>(&self, f: &mut Formatter<W>, id: u64) -> fmt::Result {
        let control = self.control(id);
        write!(f, "{control}: ")
    }

    /// What became of a control. One that the concentrator hands on is said without it.
    fn put_step<W: Write>(&self, f: &mut Formatter<W>, notice: ControlNotice) -> fmt::Result {
        match self.peer {
            Peer::Concentrator => {
                self.put_number(f, notice.id())?;
                self.put_handed(f, notice)
            }
            Peer::Substation(_) => {
                self.put_peer(f)?;
                self.put_number(f, notice.id())?;
                self.put_control(f, notice)
            }
        }
    }

    /// What became of a control at a substation.
    fn put_control<W: Write>(&self, f: &mut Formatter<W>, notice: ControlNotice) -> fmt::Result {
        match notice {
            ControlNotice::Selected(_) => f.write_str("selected"),
            ControlNotice::Done(_) => {
                let status = Told(Status::SUCCESS);
                write!(f, "operated {status}")
            }
            ControlNotice::NotSelected(_, status) => {
                let status = Told(status);
                write!(f, "SELECT refused {status}")
            }
            ControlNotice::NotDone(_, status) => {
                let status = Told(status);
                write!(f, "OPERATE refused {status}")
            }
            ControlNotice::SelectUnlike(_) => {
                f.write_str("SELECT answered with something else than the control")
            }
            ControlNotice::OperateUnlike(_) => {
                f.write_str("OPERATE answered with something else than the control")
            }
            ControlNotice::Postponed(_) => f.write_str(
                "OPERATE not sent, since its SELECT has no answer that stands: it is selected again",
            ),
            ControlNotice::Again(_) => f.write_str("SELECT sent again"),
            ControlNotice::Unknown(_) => f.write_str(
                "OPERATE not answered: whether it was operated is not known, and it is not sent again",
            ),
        }
    }

    /// What became of a control at the concentrator, which hands it on: what it answers says nothing of the substation.
    fn put_handed<W: Write>(&self, f: &mut Formatter<W>, notice: ControlNotice) -> fmt::Result {
        match notice {
            ControlNotice::Selected(_) => f.write_str("selected at the concentrator"),
            ControlNotice::Done(_) => {
                let status = Told(Status::SUCCESS);
                write!(f, "taken by the concentrator {status}")
            }
            ControlNotice::NotSelected(_, status) => {
                let status = Told(status);
                write!(f, "SELECT refused by the concentrator {status}")
            }
            ControlNotice::NotDone(_, status) => {
                let status = Told(status);
                write!(f, "OPERATE refused by the concentrator {status}")
            }
            ControlNotice::SelectUnlike(_) | ControlNotice::OperateUnlike(_) => f.write_str(
                "answered by the concentrator with something else than the control",
            ),
            ControlNotice::Postponed(_) => f.write_str(
                "OPERATE not sent to the concentrator, since its SELECT has no answer that stands: it is selected again",
            ),
            ControlNotice::Again(_) => f.write_str("SELECT sent to the concentrator again"),
            ControlNotice::Unknown(_) => f.write_str(
                "sent to the concentrator and not answered: whether it was taken is not known, and it is not sent again",
            ),
        }
    }

    /// An indication that has risen, or fallen.
    fn put_indication<W: Write>(
        &self,
        f: &mut Formatter<W>,
        indication: Iin,
        rises: bool,
    ) -> fmt::Result {
        let name = indication_name(indication);
        let is_refusal = indication.two % 8 != 0;
        match (is_refusal, rises) {
            (true, true) => write!(f, "refuses the READ: {name}"),
            (true, false) => write!(f, "no longer refuses the READ: {name}"),
            (false, true) if indication == Iin::EVENT_BUFFER_OVERFLOW => {
                write!(f, "indicates {name}: events were lost there")
            }
            (false, true) => write!(f, "indicates {name}"),
            (false, false) => write!(f, "no longer indicates {name}"),
        }
    }

    /// What came beside what was awaited.
    fn put_strange<W: Write>(&self, f: &mut Formatter<W>, strange: Strange) -> fmt::Result {
        let Ends { source, dest } = self.awaited;
        match strange {
            Strange::Frame(ends) => write!(
                f,
                "frames came from {} to {}; this asks {source} as {dest}",
                ends.source, ends.dest
            ),
            Strange::Noise => f.write_str("octets came, and no frame"),
        }
    }
}

impl<'a> Display for Line<'a> {
    fn fmt<W: Write>(&self, f: &mut Formatter<W>) -> fmt::Result {
        match self.notice {
            Notice::Control(notice) => self.put_step(f, notice),
            Notice::Link(notice) => {
                self.put_peer(f)?;
                self.put_link(f, notice)
            }
            Notice::Indication(indication, rises) => {
                self.put_peer(f)?;
                self.put_indication(f, indication, rises)
            }
            Notice::Strange(strange) => {
                self.put_peer(f)?;
                self.put_strange(f, strange)
            }
        }
    }
}

impl Display for StrangeLine {
    fn fmt<W: Write>(&self, f: &mut Formatter<W>) -> fmt::Result {
        let Ends { source, dest } = self.taken;
        match self.strange {
            Strange::Frame(ends) => write!(
                f,
                "frames came from {} to {}; this takes those from {source} to {dest}",
                ends.source, ends.dest
            ),
            Strange::Noise => f.write_str("octets came, and no frame"),
        }
    }
}

impl Display for DropLine {
    fn fmt<W: Write>(&self, f: &mut Formatter<W>) -> fmt::Result {
        let number = u16::from(self.centre) + 1;
        match self.notice {
            DropNotice::Begins(rows) => {
                let events = Many(rows, "event", "events");
                write!(
                    f,
                    "centre {number}: a lane of the queue for it is full, and drops its oldest events: {events} so far"
                )
            }
            DropNotice::Ends(rows) => {
                let events = Many(rows, "event", "events");
                write!(
                    f,
                    "centre {number}: no lane of the queue for it is full any more: {events} were dropped"
                )
            }
        }
    }
}
