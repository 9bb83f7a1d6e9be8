//! Rows and outcomes as JSON objects.

use crate::phrase::{Indications, family_name, task_name};
use crate::rows::ShownRow;
use crate::shown_text::{At, Mark, Unasked, index_of};
use crate::task_end::TaskEnd;
use dnp_appfragment::Iin;
use dnp_master::Outcome;
use dnp_objects::Row;
use dnp_orders::status_name;
use std::fmt;
use std::fmt::{Display, Formatter, Write};

/// A row as a JSON object, in one line, with the time at which it was printed.
#[derive(Clone, Copy)]
pub struct RowJson(pub At, pub ShownRow);

/// How a task came out as a JSON object, in one line, with the time at which it was printed. Commands go by DIRECT_OPERATE or not.
#[derive(Clone, Copy)]
pub struct EndJson(pub At, pub TaskEnd, pub bool);

/// The indications of a response that nobody asked for as a JSON object, in one line, with the time at which it was printed.
#[derive(Clone, Copy)]
pub struct UnaskedJson(pub At, pub Unasked);

/// That a round begins as a JSON object, in one line.
#[derive(Clone, Copy)]
pub struct MarkJson(pub Mark);

/// The time at which a line was printed as a member with a comma, or nothing.
#[derive(Clone, Copy)]
struct Printed(At);

impl Display for Printed {
    fn fmt<W: Write>(&self, f: &mut Formatter<W>) -> fmt::Result {
        match self.0.0 {
            Some(time) => write!(f, "\"at\":{time},"),
            None => Ok(()),
        }
    }
}

/// A time in milliseconds since 1970-01-01 00:00 UTC, or `null`.
#[derive(Clone, Copy)]
struct Dated(Option<u64>);

impl Display for Dated {
    fn fmt<W: Write>(&self, f: &mut Formatter<W>) -> fmt::Result {
        match self.0 {
            Some(time) => write!(f, "{time}"),
            None => f.write_str("null"),
        }
    }
}

impl Display for RowJson {
    fn fmt<W: Write>(&self, f: &mut Formatter<W>) -> fmt::Result {
        let family = family_name(self.1.family);
        let Row {
            index,
            flags,
            value,
            time,
            ..
        } = self.1.row;
        let (printed, at) = (Printed(self.0), Dated(time));
        let event = self.1.is_event;
        let unasked = self.1.is_unsolicited;
        write!(
            f,
            "{{{printed}\"kind\":\"{family}\",\"index\":{index},\"value\":{value},\"flags\":\"{flags:02X}\",\"time\":{at},\"event\":{event},\"unsolicited\":{unasked}}}"
        )
    }
}

/// The internal indications as members: their octets, and one that is true for each that is set.
#[derive(Clone, Copy)]
struct Indicated(Iin);

impl Display for Indicated {
    fn fmt<W: Write>(&self, f: &mut Formatter<W>) -> fmt::Result {
        let Iin { one, two } = self.0;
        let words = Indications {
            iin: self.0,
            before: ",\"",
            after: "\":true",
        };
        write!(f, "\"iin\":[\"{one:02X}\",\"{two:02X}\"]{words}")
    }
}

/// The status of a command as members: its number and its name, or `null` where the answer wasn't the command.
#[derive(Clone, Copy)]
struct Answered(Outcome);

impl Display for Answered {
    fn fmt<W: Write>(&self, f: &mut Formatter<W>) -> fmt::Result {
        match self.0 {
            Outcome::Control(status) => {
                let code = status.code();
                let name = status_name(status);
                write!(f, "\"status\":{code},\"name\":\"{name}\"")
            }
            Outcome::Done(_) | Outcome::Unlike => f.write_str("\"status\":null,\"name\":null"),
        }
    }
}

impl Display for EndJson {
    fn fmt<W: Write>(&self, f: &mut Formatter<W>) -> fmt::Result {
        let name = task_name(&self.1.task, self.2);
        let printed = Printed(self.0);
        let indicated = Indicated(self.1.iin);
        match index_of(&self.1.task) {
            None => write!(f, "{{{printed}\"task\":\"{name}\",{indicated}}}"),
            Some(index) => {
                let answered = Answered(self.1.outcome);
                write!(
                    f,
                    "{{{printed}\"task\":\"{name}\",\"index\":{index},{answered},{indicated}}}"
                )
            }
        }
    }
}

impl Display for UnaskedJson {
    fn fmt<W: Write>(&self, f: &mut Formatter<W>) -> fmt::Result {
        let printed = Printed(self.0);
        let indicated = Indicated(self.1.0);
        write!(f, "{{{printed}\"task\":\"unsolicited\",{indicated}}}")
    }
}

impl Display for MarkJson {
    fn fmt<W: Write>(&self, f: &mut Formatter<W>) -> fmt::Result {
        let Mark { round, time } = self.0;
        write!(f, "{{\"round\":{round},\"time\":{time}}}")
    }
}
