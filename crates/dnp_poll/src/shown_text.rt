//! Rows and outcomes as lines of text.

use crate::phrase::{Indications, family_name, task_name};
use crate::rows::ShownRow;
use crate::task_end::TaskEnd;
use dnp_appfragment::Iin;
use dnp_decode::Moment;
use dnp_master::{Outcome, Task};
use dnp_objects::Row;
use dnp_orders::status_name;
use std::fmt;
use std::fmt::{Display, Formatter, Write};

/// The time at which a line was printed, in milliseconds since 1970-01-01 00:00 UTC, if it is to stand there.
#[derive(Clone, Copy)]
pub struct At(pub Option<u64>);

impl At {
    /// This time, if times are to stand there.
    pub fn of(times: bool, utc: u64) -> At {
        At(if times { Some(utc) } else { None })
    }
}

impl Display for At {
    /// The time and a blank, or nothing.
    fn fmt<W: Write>(&self, f: &mut Formatter<W>) -> fmt::Result {
        match self.0 {
            Some(time) => {
                let moment = Moment(time);
                write!(f, "{moment} ")
            }
            None => Ok(()),
        }
    }
}

/// The time of a row, or `-` where it has none.
#[derive(Clone, Copy)]
pub(crate) struct Dated(pub Option<u64>);

impl Display for Dated {
    fn fmt<W: Write>(&self, f: &mut Formatter<W>) -> fmt::Result {
        match self.0 {
            Some(time) => {
                let moment = Moment(time);
                write!(f, "{moment}")
            }
            None => f.write_str("-"),
        }
    }
}

impl Display for ShownRow {
    /// The family, the index, the value, the flags, the time and what it is, as `binary 3 1 01
    /// 2026-11-25T03:00:01.000Z event`.
    fn fmt<W: Write>(&self, f: &mut Formatter<W>) -> fmt::Result {
        let family = family_name(self.family);
        let Row {
            index,
            flags,
            value,
            time,
            ..
        } = self.row;
        let at = Dated(time);
        let what = if self.is_event { "event" } else { "static" };
        let unasked = if self.is_unsolicited {
            " unsolicited"
        } else {
            ""
        };
        write!(
            f,
            "{family} {index} {value} {flags:02X} {at} {what}{unasked}"
        )
    }
}

/// The internal indications: two octets, and a word for each that is set.
#[derive(Clone, Copy)]
struct Indicated(Iin);

impl Display for Indicated {
    fn fmt<W: Write>(&self, f: &mut Formatter<W>) -> fmt::Result {
        let Iin { one, two } = self.0;
        let words = Indications {
            iin: self.0,
            before: " ",
            after: "",
        };
        write!(f, "iin {one:02X} {two:02X}{words}")
    }
}

/// The index of the output that a task is for, where it is a command.
pub(crate) fn index_of(task: &Task) -> Option<u16> {
    match task {
        Task::Select(command) | Task::Operate(command) => Some(command.index()),
        _ => None,
    }
}

/// How a task came out as a line, with the time at which it was printed. Commands go by DIRECT_OPERATE or not.
#[derive(Clone, Copy)]
pub struct EndLine(pub At, pub TaskEnd, pub bool);

impl Display for EndLine {
    /// What a poll was answered, as `iin 80 00 restart`; the name of another task and its answer, as `select 5 SUCCESS`.
    fn fmt<W: Write>(&self, f: &mut Formatter<W>) -> fmt::Result {
        let (at, end) = (self.0, &self.1);
        let name = task_name(&end.task, self.2);
        let indicated = Indicated(end.iin);
        let Some(index) = index_of(&end.task) else {
            return match end.task {
                Task::Poll(_) => write!(f, "{at}{indicated}"),
                _ => write!(f, "{at}{name} {indicated}"),
            };
        };
        write!(f, "{at}")?;
        match end.outcome {
            Outcome::Control(status) => {
                let status = status_name(status);
                write!(f, "{name} {index} {status}")?;
            }
            Outcome::Done(_) | Outcome::Unlike => write!(f, "{name} {index} unanswered")?,
        }
        if end.iin.two == 0 {
            return Ok(());
        }
        write!(f, " {indicated}")
    }
}

/// The indications of a response that nobody asked for.
#[derive(Clone, Copy)]
pub struct Unasked(pub Iin);

impl Display for Unasked {
    /// As `unsolicited iin 80 00 restart`.
    fn fmt<W: Write>(&self, f: &mut Formatter<W>) -> fmt::Result {
        let indicated = Indicated(self.0);
        write!(f, "unsolicited {indicated}")
    }
}

/// A round begins.
#[derive(Clone, Copy)]
pub struct Mark {
    /// Its number, from 1.
    pub round: u64,
    /// When, in milliseconds since 1970-01-01 00:00 UTC.
    pub time: u64,
}

impl Display for Mark {
    /// As `round 2 2026-11-25T03:00:01.000Z`.
    fn fmt<W: Write>(&self, f: &mut Formatter<W>) -> fmt::Result {
        let (round, moment) = (self.round, Moment(self.time));
        write!(f, "round {round} {moment}")
    }
}
