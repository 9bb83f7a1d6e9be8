//! What is drawn of a long work, at a terminal alone: a line at standard error that stands until something else is written.

use crate::progress::Progress;
use crate::screen::{ERASE_LINE, Terminal};
use std::cell::Cell;
use std::fmt::Display;
use std::rt::Clock;

/// A line at standard error that tells how far a work is. Where standard error is no terminal, nothing is ever written.
#[derive(Drop)]
pub struct Meter<'a, R> {
    /// Whose standard error and clock it is.
    rt: &'a R,
    /// When something is shown again.
    progress: Cell<Progress>,
    /// Whether a line stands there.
    stands: Cell<bool>,
    /// Whether something may be drawn.
    is_on: Cell<bool>,
}

/// The moment that the clock shows, in milliseconds; 0 where it has none.
fn now_of<R: Clock>(rt: &R) -> u64 {
    match rt.monotonic() {
        Ok(time) => u64::try_from(time.as_millis()).unwrap_or(u64::MAX),
        Err(_) => 0,
    }
}

impl<'a, R: Eprint + Terminal + Clock> Meter<'a, R> {
    /// A meter of a work that begins now. It has no clause: none says where standard error leads.
    pub fn new(rt: &'a R) -> Self {
        Meter {
            rt,
            progress: Cell::new(Progress::beginning(now_of(rt))),
            stands: Cell::new(false),
            is_on: Cell::new(rt.error_screen().is_terminal),
        }
    }

    /// The percents that are to be drawn now of a work of which so much is done, if any are. It has no clause: none says what a cell
    /// holds; [`Progress`] has them.
    pub fn due(&self, done: u64, all: u64) -> Option<u8> {
        if !self.is_on.get() {
            return None;
        }
        let mut progress = self.progress.get();
        let percent = progress.shown(now_of(self.rt), done, all);
        self.progress.set(progress);
        percent
    }

    /// Draws this in place of what stands there. It has no clause: none says what standard error takes.
    pub fn draw<T: Display>(&self, what: &T) {
        if self.is_on.get() {
            let _ = eprint!(self.rt; "{ERASE_LINE}{what}");
            self.stands.set(true);
        }
    }

    /// Erases what stands there. It has no clause: none says what standard error takes.
    pub fn erase(&self) {
        if self.stands.get() {
            let _ = eprint!(self.rt; "{ERASE_LINE}");
            self.stands.set(false);
        }
    }

    /// Erases what stands there, and draws nothing any more. It has no clause: none says what a cell holds.
    pub fn end(&self) {
        self.erase();
        self.is_on.set(false);
    }
}
