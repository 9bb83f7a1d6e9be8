//! How the lines of a log are written without a wait: a piece at a time, once the system has reported that it takes some.

use crate::log_buffer::LogBuffer;
use crate::token::LOG_TOKEN;
use mio::unix::SourceFd;
use mio::{Interest, Registry, Token};
use std::io::{self, ErrorKind};

/// The descriptor of standard error.
const STANDARD_ERROR: i32 = 2;

/// What writes to standard error.
pub trait StandardError {
    /// Writes some of these octets, and gives how many.
    fn write_some(&self, octets: &[u8]) -> io::Result<usize>;
}

impl StandardError for HostRuntime {
    fn write_some(&self, octets: &[u8]) -> io::Result<usize> {
        Print::write_some(&self.stderr(), octets)
    }
}

/// How a log is written.
#[derive(Clone, Copy, Debug, PartialEq, Eq)]
pub(crate) struct LogWriter {
    /// Whether the system reports when the descriptor takes octets. Of a file it doesn't: that takes them always.
    is_reported: bool,
    /// Whether it takes some now.
    may_write: bool,
}

/// Has the set report when standard error takes octets, again if it did so before.
fn ask(registry: &Registry, again: bool) -> io::Result<()> {
    let mut source = SourceFd(&STANDARD_ERROR);
    let token = Token(LOG_TOKEN);
    if again {
        registry.reregister(&mut source, token, Interest::WRITABLE)
    } else {
        registry.register(&mut source, token, Interest::WRITABLE)
    }
}

/// How many of these octets are done with, written or lost, after a call that wrote some or failed.
fn done_with(outcome: &io::Result<usize>, all: usize) -> usize {
    match outcome {
        Ok(count) => *count,
        Err(cause) => match cause.kind() {
            ErrorKind::WouldBlock | ErrorKind::Interrupted => 0,
            _ => all,
        },
    }
}

impl LogWriter {
    /// Has the set report when standard error takes octets, if that is no file.
    pub(crate) fn new(registry: &Registry) -> LogWriter {
        let is_reported = ask(registry, false).is_ok();
        LogWriter {
            is_reported,
            may_write: !is_reported,
        }
    }

    /// The system has reported that it takes some.
    pub(crate) fn note(&mut self) {
        self.may_write = true;
    }

    /// Has the system report again, if it reports at all.
    fn ask_again(&mut self, registry: &Registry) {
        if self.is_reported {
            self.is_reported = ask(registry, true).is_ok();
            self.may_write = !self.is_reported;
        }
    }

    /// Whether a piece of what waits is to be written at once.
    pub(crate) fn is_due(self, log: &LogBuffer) -> bool {
        self.may_write && !log.is_empty()
    }

    /// Writes a piece of what waits, if the descriptor takes it. What it refuses is lost.
    pub(crate) fn write<R: StandardError>(
        &mut self,
        registry: &Registry,
        rt: &R,
        log: &mut LogBuffer,
    ) {
        if !self.is_due(log) {
            return;
        }
        let outcome = rt.write_some(log.piece());
        let count = done_with(&outcome, log.piece().len());
        log.drop_written(count);
        self.ask_again(registry);
    }
}
