//! Where the rows of a poll are shown.

use crate::clock::utc;
use crate::pace::Pace;
use crate::style::Style;
use dnp_appfragment::Iin;
use dnp_poll::{
    At, CLEAR, Columns, EndJson, EndLine, Head, Left, Mark, MarkJson, NotShown, RowJson, Show,
    ShownRow, Table, TableRow, TaskEnd, Unasked, UnaskedJson,
};
use dnp_terminal::{Painted, Tone};
use std::alloc::AllocError;
use std::io;
use std::io::{BufWriter, Write};
use std::rt::Clock;

/// How the rows of rounds are shown.
#[derive(Clone, Copy)]
pub enum Form {
    /// Each in a line.
    Lines,
    /// Each in a line, and each round begins with one.
    Marked,
    /// Each point in a line of a table that is drawn again, with so many lines at most, on this screen.
    Table(usize, dnp_terminal::Screen),
}

/// The lines of a screen beside those of points and tasks: the head, the columns, how many points have no line, and that of the cursor.
const BESIDE: usize = 4;

/// A text in its colour.
fn painted<'a, T>(screen: dnp_terminal::Screen, tone: Tone, what: &'a T) -> Painted<'a, T> {
    Painted { screen, tone, what }
}

/// The colour of a line that is marked, or of another.
fn tone_of(is_marked: bool) -> Tone {
    if is_marked {
        Tone::Warning
    } else {
        Tone::Plain
    }
}

/// Standard output, on which rows are shown as they come.
#[derive(Drop)]
pub(crate) struct Screen<'p, 'c, R> {
    /// Whose standard output it is.
    rt: &'c R,
    /// How rows are shown.
    words: Style,
    /// The moments of the master, for which no time passes while rows are printed.
    pace: &'p Pace<'c, R>,
    /// The round, from 1.
    round: u64,
    /// The points that came.
    table: Table,
    /// How many lines there are beside those of points.
    beside: usize,
    /// Why a line was lost, if one was.
    cause: Option<io::Error>,
}

impl<'p, 'c, R: AllocGlobal + Print + Clock> Screen<'p, 'c, R> {
    /// A screen on which nothing is shown. Each round has so many tasks.
    pub(crate) fn new(rt: &'c R, words: Style, pace: &'p Pace<'c, R>, tasks: usize) -> Self {
        Screen {
            rt,
            words,
            pace,
            round: 0,
            table: Table::new(rt.alloc()),
            beside: BESIDE.saturating_add(tasks),
            cause: None,
        }
    }

    /// Why a line was lost, if one was.
    pub(crate) fn cause(&self) -> Option<&io::Error> {
        self.cause.as_ref()
    }

    /// The round with this number begins, which says so where rounds are marked.
    pub(crate) fn begin(&mut self, round: u64) -> io::Result<()> {
        self.round = round;
        match self.words.form {
            Form::Marked => print_mark(self.rt, self.words, round),
            Form::Lines | Form::Table(..) => Ok(()),
        }
    }

    /// Prints rows, each in a line, so that they are out as the call ends.
    fn print(&self, rows: &[ShownRow]) -> io::Result<()> {
        let at = At::of(self.words.times, utc(self.rt));
        let mut out = BufWriter::new(self.rt.alloc(), io::writer(self.rt))?;
        for row in rows {
            if self.words.json {
                let object = RowJson(at, *row);
                writeln!(out, "{object}")?;
            } else {
                writeln!(out, "{at}{row}")?;
            }
        }
        out.flush()
    }

    /// Takes rows into the table.
    fn put(&mut self, rows: &[ShownRow]) -> Result<(), AllocError> {
        for row in rows {
            self.table.put(self.round, row)?;
        }
        Ok(())
    }

    /// Draws the table with so many lines at most on this screen, so that it is out as the call ends.
    fn draw(&self, height: usize, screen: dnp_terminal::Screen) -> io::Result<()> {
        let room = height.saturating_sub(self.beside);
        let Ok(lines) = self.table.drawn(self.rt.alloc(), self.round, room) else {
            return Err(io::ErrorKind::OutOfMemory.into());
        };
        let mut out = BufWriter::new(self.rt.alloc(), io::writer(self.rt))?;
        let mark = Mark {
            round: self.round,
            time: utc(self.rt),
        };
        let (clear, named) = (CLEAR, Head(mark, self.words.peer));
        let head = painted(screen, Tone::Heading, &named);
        let columns = painted(screen, Tone::Faint, &Columns);
        writeln!(out, "{clear}{head}")?;
        writeln!(out, "{columns}")?;
        for line in lines.as_slice() {
            let is_marked = line.is_marked(self.round);
            let row = TableRow(*line, is_marked);
            let shown = painted(screen, tone_of(is_marked), &row);
            writeln!(out, "{shown}")?;
        }
        let left = self.table.len().saturating_sub(lines.len());
        if left > 0 {
            let left = Left(left);
            writeln!(out, "{left}")?;
        }
        out.flush()
    }

    /// Shows rows in the form that was chosen.
    fn put_out(&mut self, rows: &[ShownRow]) -> io::Result<()> {
        match self.words.form {
            Form::Table(height, screen) => {
                if self.put(rows).is_err() {
                    return Err(io::ErrorKind::OutOfMemory.into());
                }
                self.draw(height, screen)
            }
            Form::Lines | Form::Marked => self.print(rows),
        }
    }
}

/// Prints how tasks came out, each in a line.
pub(crate) fn print_ends<R: Print + Clock>(
    rt: &R,
    words: Style,
    ends: &[TaskEnd],
) -> io::Result<()> {
    let at = At::of(words.times, utc(rt));
    for end in ends {
        if words.json {
            let object = EndJson(at, *end, words.direct);
            println!(rt; "{object}")?;
        } else {
            let line = EndLine(at, *end, words.direct);
            println!(rt; "{line}")?;
        }
    }
    Ok(())
}

/// Prints the indications of a response that nobody asked for, in a line.
pub(crate) fn print_unasked<R: Print + Clock>(rt: &R, words: Style, iin: Iin) -> io::Result<()> {
    let at = At::of(words.times, utc(rt));
    let unasked = Unasked(iin);
    if words.json {
        let object = UnaskedJson(at, unasked);
        println!(rt; "{object}")
    } else {
        println!(rt; "{at}{unasked}")
    }
}

/// Prints that a round begins, in a line.
pub(crate) fn print_mark<R: Print + Clock>(rt: &R, words: Style, round: u64) -> io::Result<()> {
    let mark = Mark {
        round,
        time: utc(rt),
    };
    if words.json {
        let object = MarkJson(mark);
        println!(rt; "{object}")
    } else {
        println!(rt; "{mark}")
    }
}

impl<'p, 'c, R: AllocGlobal + Print + Clock> Show for Screen<'p, 'c, R> {
    ghost use Rattle.std.specs.Prelude.{⊤};

    // Of what stands on a screen no more is promised.
    ghost shows = { λ _ _ _. ⊤ };

    fn show(&mut self, rows: &[ShownRow]) -> Result<(), NotShown> {
        let now = self.pace.now();
        let printed = self.put_out(rows);
        self.pace.go_on_from(now);
        match printed {
            Ok(()) => Ok(()),
            Err(cause) => {
                self.cause = Some(cause);
                Err(NotShown)
            }
        }
    }
}
