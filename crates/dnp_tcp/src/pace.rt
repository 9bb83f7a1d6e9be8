//! Time on a connection: a clock that leaves out what is not the other end's matter.

use crate::clock::moment;
use std::cell::Cell;
use std::io;
use std::rt::Clock;
use std::time::Duration;

/// The moments of a station's steps: by the machine's clock, but for the time in which something held the station up that is not
/// the other end's matter.
#[derive(Drop)]
pub(crate) struct Pace<'a, C> {
    /// What tells the moments.
    clock: &'a C,
    /// The last moment that the clock showed, in milliseconds. Where it fails or goes back, it is this moment still.
    shown: Cell<u64>,
    /// How long the station was held up, in milliseconds.
    held: Cell<u64>,
}

impl<'a, C: Clock> Pace<'a, C> {
    /// The moments of a station that nothing has held up.
    pub(crate) fn new(clock: &'a C) -> Self {
        Pace {
            clock,
            shown: Cell::new(0),
            held: Cell::new(0),
        }
    }

    /// The moment that the clock shows, in milliseconds.
    fn shown(&self) -> u64 {
        self.shown.set(moment(self.clock, self.shown.get()));
        self.shown.get()
    }

    /// The moment, in milliseconds, without the time in which something held the station up.
    pub(crate) fn now(&self) -> u64 {
        self.shown().saturating_sub(self.held.get())
    }

    /// The station goes on at this moment, whatever time has gone by since: that held it up.
    pub(crate) fn go_on_from(&self, now: u64) {
        let held = self.now().saturating_sub(now);
        self.held.set(self.held.get().saturating_add(held));
    }
}

impl<'a, C: Clock> Clock for Pace<'a, C> {
    fn monotonic(&self) -> io::Result<Duration> {
        Ok(Duration::from_millis(self.now()))
    }

    fn since_1970(&self) -> io::Result<Duration> {
        self.clock.since_1970()
    }
}
