//! What a terminal shows while a script is checked and run.

use dnp_daemons::Onlooker;
use dnp_lines::Doing;
use dnp_terminal::{Meter, Terminal};
use std::io;
use std::io::Write;
use std::rt::Clock;

/// A script of so many octets is checked for long enough that it is told, before it runs.
const LARGE: usize = 1_024 * 1_024;

/// So many lines are run before it is looked at the clock again.
const LINES: u64 = 256;

/// Tells that a script of so many octets is checked, if that takes long.
pub(crate) fn tell_checking<R: Eprint + Terminal + Clock>(meter: &Meter<'_, R>, octets: usize) {
    if octets >= LARGE {
        meter.draw(&Doing::Checking(octets));
    }
}

/// Who shows how far a script has run.
#[derive(Drop)]
pub(crate) struct Looker<'m, 'r, R> {
    /// Where it is shown.
    meter: &'m Meter<'r, R>,
    /// How many lines were run.
    lines: u64,
}

impl<'m, 'r, R> Looker<'m, 'r, R> {
    /// One that has seen nothing.
    pub(crate) fn new(meter: &'m Meter<'r, R>) -> Self {
        Looker { meter, lines: 0 }
    }
}

impl<'m, 'r, R: Eprint + Terminal + Clock> Onlooker for Looker<'m, 'r, R> {
    fn sees(&mut self, done: usize, all: usize) {
        self.lines = self.lines.wrapping_add(1);
        if self.lines % LINES == 0
            && let Some(percent) = self.meter.due(done as u64, all as u64)
        {
            self.meter.draw(&Doing::Running(percent));
        }
    }
}

/// A writer before which the meter is erased. Where the output goes to a terminal too, nothing is drawn any more after it.
#[derive(Drop)]
pub(crate) struct Clearing<'m, 'r, R, W> {
    /// What is erased.
    meter: &'m Meter<'r, R>,
    /// Whether the output goes to a terminal.
    is_seen: bool,
    /// Where it is written.
    inner: W,
}

impl<'m, 'r, R, W> Clearing<'m, 'r, R, W> {
    /// The writer over this one, which may go to a terminal.
    pub(crate) fn new(meter: &'m Meter<'r, R>, is_seen: bool, inner: W) -> Self {
        Clearing {
            meter,
            is_seen,
            inner,
        }
    }
}

impl<'m, 'r, R: Eprint + Terminal + Clock, W: Write> Write for Clearing<'m, 'r, R, W> {
    fn write(&mut self, buf: &[u8]) -> io::Result<usize> {
        if self.is_seen {
            self.meter.end();
        }
        self.inner.write(buf)
    }

    fn flush(&mut self) -> io::Result<()> {
        self.inner.flush()
    }
}
