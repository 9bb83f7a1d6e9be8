//! Where a script stops fitting, which of its lines do nothing, and why something is not done, in a sentence each: the texts of this
//! crate's lines, all of them.

use crate::report_text::PrintFault;
use crate::run::ScriptStop;
use crate::script::forms::{Form, Slot};
use crate::script::reason::{LineFault, taken};
use crate::script::{IdleLines, IdleReason, ScriptFault};
use dnp_linkframe::MAX_UNIT;
use std::error::Error;
use std::fmt;
use std::fmt::{Display, Formatter, Write};

/// The most characters of a word that are repeated.
const SHOWN: usize = 40;

/// A word, in quotes, and no more of it than [`SHOWN`] characters.
#[derive(Clone, Copy)]
struct Quoted<'a>(&'a str);

impl Display for Quoted<'_> {
    fn fmt<W: Write>(&self, f: &mut Formatter<W>) -> fmt::Result {
        let word = self.0;
        if word.contains('\u{FFFD}') {
            return f.write_str("what is not UTF-8");
        }
        if word.is_empty() {
            return f.write_str("an empty word");
        }
        match word.char_indices().nth(SHOWN) {
            Some((end, _)) => {
                let shown = word.get(..end).unwrap_or("").escape_debug();
                write!(f, "'{shown}' and more")
            }
            None => {
                let shown = word.escape_debug();
                write!(f, "'{shown}'")
            }
        }
    }
}

/// What a slot of a line takes, in a plan of so many substations.
#[derive(Clone, Copy)]
struct Wanted(Slot, usize);

impl Display for Wanted {
    fn fmt<W: Write>(&self, f: &mut Formatter<W>) -> fmt::Result {
        let last = self.1.saturating_sub(1);
        match self.0 {
            Slot::Verb(form) => f.write_str(form.verb()),
            Slot::Link => write!(f, "above, above2 or a substation's number, 0 to {last},"),
            Slot::Substation => write!(f, "a substation's number, 0 to {last},"),
            Slot::Station => write!(
                f,
                "centre, centre2, concentrator or a substation's number, 0 to {last},"
            ),
            Slot::End => f.write_str("master or outstation"),
            Slot::Way => f.write_str("down or up"),
            Slot::Kind => f.write_str("binary, counter or analog"),
            Slot::Classes => f.write_str("a word of the digits 0 to 3, each once at most,"),
            Slot::Flags => f.write_str("a word of two hexadecimal digits"),
            Slot::Time => f.write_str("a time in milliseconds or -"),
            Slot::Octets => write!(
                f,
                "a word of two hexadecimal digits for each of 1 to {MAX_UNIT} octets"
            ),
            Slot::Set16 => f.write_str("set16"),
            Slot::Set32 => f.write_str("set32"),
            Slot::Block => f.write_str("block"),
            Slot::Number8 => f.write_str("a whole number from 0 to 255"),
            Slot::Number16 => f.write_str("a whole number from 0 to 65535"),
            Slot::Number32 => f.write_str("a whole number from 0 to 4294967295"),
            Slot::Number64 => f.write_str("a whole number from 0 to 18446744073709551615"),
            Slot::Integer16 => f.write_str("a whole number from -32768 to 32767"),
            Slot::Integer32 => f.write_str("a whole number from -2147483648 to 2147483647"),
            Slot::Integer64 => {
                f.write_str("a whole number from -9223372036854775808 to 9223372036854775807")
            }
        }
    }
}

/// Whether two slots are told by the same words.
fn told_alike(one: Slot, other: Slot) -> bool {
    match (one, other) {
        (Slot::Verb(one), Slot::Verb(other)) => one.verb() == other.verb(),
        _ => one == other,
    }
}

impl LineFault<'_> {
    /// What a form wants after the words that begin a line that fits, if it takes these.
    fn wants(&self, form: Form) -> Option<Slot> {
        let is_one = !self.carried || form.is_gentle();
        if is_one && taken(self.text, form.slots(), self.substations) == self.good {
            form.slots().get(self.good).copied()
        } else {
            None
        }
    }

    /// How many things belong there.
    fn count(&self) -> usize {
        let mut count: usize = 0;
        let mut before = None;
        for form in &Form::ALL {
            if let Some(slot) = self.wants(*form)
                && !before.is_some_and(|other| told_alike(slot, other))
            {
                count = count.saturating_add(1);
                before = Some(slot);
            }
        }
        count
    }

    /// Writes what belongs there: this or that, or the end of the line where nothing does.
    fn write_wanted<W: Write>(&self, f: &mut Formatter<W>) -> fmt::Result {
        let count = self.count();
        if count == 0 {
            return f.write_str("the end of the line belongs");
        }
        let mut written: usize = 0;
        let mut before = None;
        for form in &Form::ALL {
            if let Some(slot) = self.wants(*form)
                && !before.is_some_and(|other| told_alike(slot, other))
            {
                written = written.saturating_add(1);
                before = Some(slot);
                f.write_str(if written == 1 {
                    ""
                } else if written == count {
                    " or "
                } else {
                    ", "
                })?;
                write!(f, "{}", Wanted(slot, self.substations))?;
            }
        }
        f.write_str(" belongs")
    }

    /// Whether the line would fit without the carriage return that ends it.
    fn ends_in_return(&self) -> bool {
        match self.text.strip_suffix('\r') {
            Some(line) => Form::ALL.iter().any(|form| {
                let words = line.split(' ').count();
                form.slots().len() == words && taken(line, form.slots(), self.substations) == words
            }),
            None => false,
        }
    }
}

impl Display for LineFault<'_> {
    /// The line and the word, counted from 1, what stands there, and what belongs there.
    fn fmt<W: Write>(&self, f: &mut Formatter<W>) -> fmt::Result {
        write!(f, "line {}", self.line)?;
        if self.text.is_empty() {
            return f.write_str(": an empty line, where an event belongs");
        }
        if self.ends_in_return() {
            return f.write_str(": a carriage return at its end, where the line feed alone belongs");
        }
        write!(f, ", word {}: ", self.good.saturating_add(1))?;
        match self.text.split(' ').nth(self.good) {
            Some(word) => write!(f, "{}", Quoted(word))?,
            None => f.write_str("the line ends")?,
        }
        f.write_str(", where ")?;
        self.write_wanted(f)
    }
}

impl Error for ScriptFault {}

impl Display for ScriptFault {
    fn fmt<W: Write>(&self, f: &mut Formatter<W>) -> fmt::Result {
        match self {
            ScriptFault::Line(line) => write!(f, "line {line} of the script doesn't fit"),
            ScriptFault::Memory => f.write_str("out of memory"),
        }
    }
}

impl Error for IdleReason {}

impl Display for IdleReason {
    fn fmt<W: Write>(&self, f: &mut Formatter<W>) -> fmt::Result {
        f.write_str(match self {
            IdleReason::NoPoint => "no such point",
            IdleReason::ValueRange => "a value or flags out of the kind's range",
            IdleReason::TimeRange => "a time of 2^48 ms or more",
            IdleReason::NoOutput => "no such output",
            IdleReason::NoSetpoint => "no such setpoint",
            IdleReason::NoEvents => "class 0 has no events",
            IdleReason::NoTime => "no time passes",
        })
    }
}

impl Display for IdleLines {
    /// How many they are, the first by its number, and why it does nothing.
    fn fmt<W: Write>(&self, f: &mut Formatter<W>) -> fmt::Result {
        let IdleLines {
            count,
            first,
            reason,
        } = *self;
        if count == 1 {
            write!(f, "1 line did nothing: line {first}: {reason}")
        } else {
            write!(
                f,
                "{count} lines did nothing; the first is line {first}: {reason}"
            )
        }
    }
}

impl Error for ScriptStop {}

impl Display for ScriptStop {
    fn fmt<W: Write>(&self, f: &mut Formatter<W>) -> fmt::Result {
        match self {
            ScriptStop::Stopped(done) => write!(f, "stopped after {done} lines of the script"),
            ScriptStop::WriteFailed => f.write_str("the output could not be written"),
            ScriptStop::Fault(cause) => write!(f, "{cause}"),
        }
    }
}

impl Error for PrintFault {}

impl Display for PrintFault {
    fn fmt<W: Write>(&self, f: &mut Formatter<W>) -> fmt::Result {
        f.write_str(match self {
            PrintFault::WriteFailed => "the report could not be written",
            PrintFault::Memory => "out of memory",
        })
    }
}
