//! The words for indications, families and tasks.

use crate::rows::Family;
use dnp_appfragment::Iin;
use dnp_master::Task;
use std::fmt;
use std::fmt::{Display, Formatter, Write};

/// The words for the bits of IIN1, from the lowest on (IEEE Std 1815-2012, application layer: internal indications).
const FIRST: [&str; 8] = [
    "broadcast",
    "class-1-events",
    "class-2-events",
    "class-3-events",
    "need-time",
    "local-control",
    "device-trouble",
    "restart",
];

/// The words for those of IIN2.
const SECOND: [&str; 8] = [
    "no-function",
    "object-unknown",
    "parameter-error",
    "event-overflow",
    "already-executing",
    "config-corrupt",
    "reserved-6",
    "reserved-7",
];

/// The words for the bits that are set of an octet, each after this text and before that one.
#[derive(Clone, Copy)]
struct Words<'a> {
    /// The octet.
    bits: u8,
    /// The words, from that of the lowest bit on.
    words: &'a [&'static str; 8],
    /// What stands before each word.
    before: &'static str,
    /// What stands after each word.
    after: &'static str,
}

impl Display for Words<'_> {
    fn fmt<W: Write>(&self, f: &mut Formatter<W>) -> fmt::Result {
        let mut bits = self.bits;
        for word in self.words {
            if bits % 2 == 1 {
                f.write_str(self.before)?;
                f.write_str(word)?;
                f.write_str(self.after)?;
            }
            bits /= 2;
        }
        Ok(())
    }
}

/// The indications that are set as words, each after this text and before that one.
#[derive(Clone, Copy)]
pub(crate) struct Indications {
    /// The indications.
    pub iin: Iin,
    /// What stands before each word.
    pub before: &'static str,
    /// What stands after each word.
    pub after: &'static str,
}

impl Display for Indications {
    fn fmt<W: Write>(&self, f: &mut Formatter<W>) -> fmt::Result {
        let first = Words {
            bits: self.iin.one,
            words: &FIRST,
            before: self.before,
            after: self.after,
        };
        let second = Words {
            bits: self.iin.two,
            words: &SECOND,
            before: self.before,
            after: self.after,
        };
        write!(f, "{first}{second}")
    }
}

/// What the rows of a family are called.
pub(crate) fn family_name(family: Family) -> &'static str {
    match family {
        Family::Binary => "binary",
        Family::Counter => "counter",
        Family::Analog => "analog",
        Family::Output => "output",
        Family::Setpoint => "setpoint",
    }
}

/// What a task is called, where commands go by DIRECT_OPERATE or not.
pub(crate) fn task_name(task: &Task, is_direct: bool) -> &'static str {
    match task {
        Task::Select(_) if is_direct => "direct-operate",
        Task::Poll(_) => "poll",
        Task::ClearRestart => "clear-restart",
        Task::Enable(_) => "enable",
        Task::Disable(_) => "disable",
        Task::WriteTime(_) => "time",
        Task::Select(_) => "select",
        Task::Operate(_) => "operate",
    }
}
