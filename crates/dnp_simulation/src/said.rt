//! What is said of a network that was simulated.

use crate::process::{Process, Way};
use crate::tally::{CLOSING_WORDS, closing_number};
use crate::violation::{Seen, Violation};
use crate::wire::End;
use dnp_objects::Kind;
use std::fmt::{self, Display, Formatter, Write};

/// A word, maybe with a number behind it.
#[derive(Clone, Copy)]
struct Item {
    /// The word.
    word: &'static str,
    /// The number.
    number: Option<u64>,
}

impl Display for Item {
    fn fmt<W: Write>(&self, f: &mut Formatter<W>) -> fmt::Result {
        let word = self.word;
        match self.number {
            Some(number) => write!(f, "{word} {number}"),
            None => f.write_str(word),
        }
    }
}

/// Gives a word alone.
fn bare(word: &'static str) -> Item {
    Item { word, number: None }
}

/// Gives a word with a number.
fn numbered(word: &'static str, number: u64) -> Item {
    Item {
        word,
        number: Some(number),
    }
}

/// Gives the name of a point.
fn point(kind: Kind, index: u16) -> Item {
    let word = match kind {
        Kind::Binary => "binary",
        Kind::Counter => "counter",
        Kind::Analog => "analog",
    };
    numbered(word, u64::from(index))
}

/// Gives the name of a process.
fn process_name(process: Process) -> Item {
    match process {
        Process::Substation(number) => numbered("substation", u64::from(number)),
        Process::Concentrator => bare("the concentrator"),
        Process::Centre(centre) => numbered("centre", u64::from(centre).saturating_add(1)),
    }
}

/// Gives the name of a connection.
fn way_name(way: Way) -> Item {
    match way {
        Way::Below(number) => numbered("link", u64::from(number)),
        Way::Above(0) => bare("link above"),
        Way::Above(_) => bare("link above2"),
    }
}

impl Violation {
    /// Gives of whom or of what it is.
    fn subject(&self) -> Item {
        match self {
            Violation::Invented(centre, _, _, _) | Violation::Unseen(centre, _, _) => {
                numbered("journal", u64::from(*centre).saturating_add(1))
            }
            Violation::Waiting(centre, _) => process_name(Process::Centre(*centre)),
            Violation::Twice(number)
            | Violation::Misreported(number)
            | Violation::Undone(number)
            | Violation::Forgotten(number) => numbered("command", *number as u64),
            Violation::Unordered(substation, _)
            | Violation::Online(substation, _, _)
            | Violation::Stale(substation, _, _) => process_name(Process::Substation(*substation)),
            Violation::Restless(process)
            | Violation::Failed(process)
            | Violation::Spoilt(process)
            | Violation::Revived(process, _) => process_name(*process),
            Violation::Former(way, _)
            | Violation::Reselected(way, _)
            | Violation::Unselected(way, _)
            | Violation::Disturbed(way, _)
            | Violation::Repeated(way)
            | Violation::Refused(way, _, _)
            | Violation::Unprovoked(way, _)
            | Violation::Misheard(way)
            | Violation::Down(way) => way_name(*way),
        }
    }

    /// Gives what must not be.
    fn text(&self) -> &'static str {
        match self {
            Violation::Invented(_, _, _, _) => "an event was not made",
            Violation::Unseen(_, _, _) => "events have vanished, and no count has them",
            Violation::Waiting(_, _) => "events wait for it at the end",
            Violation::Twice(_) => "it was performed twice",
            Violation::Unordered(_, _) => "it has performed what was not issued for it",
            Violation::Misreported(_) => {
                "the concentrator's book says another thing of it than its output has done"
            }
            Violation::Online(_, _, _) => "a point shows ONLINE above, though its link is lost",
            Violation::Stale(_, _, _) => "a point reads otherwise above than there at the end",
            Violation::Former(_, End::Caller) => "its master sends octets of a former connection",
            Violation::Former(_, End::Callee) => {
                "its outstation sends octets of a former connection"
            }
            Violation::Undone(_) => "it waits at the end",
            Violation::Reselected(_, _) => "a control is selected again on one connection",
            Violation::Unselected(_, _) => "a control is operated without a select",
            Violation::Disturbed(_, _) => "a request is sent while a control is in progress",
            Violation::Repeated(_) => "a poll has the octets of the request before it",
            Violation::Refused(_, _, _) => {
                "a control is refused, though no fault has touched the connection"
            }
            Violation::Unprovoked(_, _) => "a connection that no fault has touched is closed",
            Violation::Misheard(_) => {
                "a fragment is refused on a connection that no fault has touched"
            }
            Violation::Restless(_) => "it wants to be called again and again at one moment",
            Violation::Down(_) => "there is no connection at the end",
            Violation::Failed(_) => "a store has failed, though its disk has not",
            Violation::Spoilt(_) => "a store does not open over what its disk has kept",
            Violation::Revived(_, _) => "a control is no longer spent or finished after a restart",
            Violation::Forgotten(_) => "it is no longer in the book of its centre",
        }
    }

    /// Gives of what it is more exactly: at most two things.
    fn details(&self) -> (Option<Item>, Option<Item>) {
        match self {
            Violation::Invented(_, kind, index, time) => (
                Some(point(*kind, *index)),
                match time {
                    Some(time) => Some(numbered("time", *time)),
                    None => None,
                },
            ),
            Violation::Unseen(_, lane, count) => (
                Some(numbered("event buffer", *lane as u64)),
                Some(numbered("events", *count)),
            ),
            Violation::Waiting(_, count) => (Some(numbered("events", *count)), None),
            Violation::Unordered(_, number) => (Some(numbered("command", *number as u64)), None),
            Violation::Online(_, kind, index) | Violation::Stale(_, kind, index) => {
                (Some(point(*kind, *index)), None)
            }
            Violation::Reselected(_, id)
            | Violation::Unselected(_, id)
            | Violation::Disturbed(_, id)
            | Violation::Revived(_, id) => (Some(numbered("control", *id)), None),
            Violation::Refused(_, id, status) => (
                Some(numbered("control", *id)),
                Some(numbered("status", u64::from(*status))),
            ),
            Violation::Unprovoked(_, cause) => {
                let word = CLOSING_WORDS.get(closing_number(*cause)).copied();
                (Some(bare(word.unwrap_or("store"))), None)
            }
            _ => (None, None),
        }
    }
}

impl Display for Violation {
    fn fmt<W: Write>(&self, f: &mut Formatter<W>) -> fmt::Result {
        let subject = self.subject();
        let text = self.text();
        let (first, second) = self.details();
        write!(f, "{subject}: {text}")?;
        if let Some(first) = first {
            write!(f, ": {first}")?;
        }
        match second {
            Some(second) => write!(f, ", {second}"),
            None => Ok(()),
        }
    }
}

impl Display for Seen {
    fn fmt<W: Write>(&self, f: &mut Formatter<W>) -> fmt::Result {
        let Seen { at, violation } = self;
        write!(f, "at {at} ms: {violation}")
    }
}
