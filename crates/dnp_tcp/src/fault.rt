//! What is said, and which exit status there is, where the program's own input or output fails.

ghost use Rattle.std.specs.Prelude.{◌≡◌, None, option_copied};
ghost use Rattle.std.specs.Process.{exit_status};
ghost use Rattle.dnp_tcp.specs.Causes.{noted_cause, noted_stream};

use crate::exit::FAULT;
use crate::lines::{Failure, Line};
use crate::logged::say;
use dnp_terminal::Terminal;
use std::io;
use std::io::Write;
use std::process::ExitCode;
use std::rt::Clock;

/// Says on standard error which stream failed and why, and gives the exit status of a fault.
pub fn lost<R: Eprint>(rt: &R, stream: &str, cause: &io::Error) -> ExitCode
    ensures { exit_status result ≡ FAULT }
{
    let failure = Failure::Stream(stream, cause);
    let _ = eprintln!(rt; "{failure}");
    ExitCode::from(FAULT)
}

/// Says on standard error why standard output was lost, and gives the exit status of a fault. Where its reader is gone, as in
/// `dnp sim .. | head`, nothing is said.
pub fn unwritten<R: Eprint>(rt: &R, cause: &io::Error) -> ExitCode
    ensures { exit_status result ≡ FAULT }
{
    if cause.kind() == io::ErrorKind::BrokenPipe {
        return ExitCode::from(FAULT);
    }
    lost(rt, "standard output", cause)
}

/// The same of a program that has a log, in which each line has the time.
pub fn unprinted<R: Eprint + Terminal + Clock>(rt: &R, cause: &io::Error) -> ExitCode
    ensures { exit_status result ≡ FAULT }
{
    if cause.kind() != io::ErrorKind::BrokenPipe {
        say(rt, &Line::NoOutput(cause));
    }
    ExitCode::from(FAULT)
}

/// A writer that keeps the cause of its last failed call, for calls whose faults don't carry it.
#[derive(Drop)]
pub struct Noted<S> {
    /// What is written to.
    inner: S,
    /// Why its last failed call failed.
    cause: Option<io::Error>,
}

impl<S> Noted<S> {
    /// A writer over this one, which has not failed.
    pub fn new(inner: S) -> Self
        ensures stream { noted_stream result ≡ inner }
        ensures cause { noted_cause result ≡ None }
    {
        Noted { inner, cause: None }
    }

    /// Why the last failed call failed, if one did.
    pub fn cause(&self) -> Option<&io::Error>
        ensures { option_copied result ≡ noted_cause self.now }
    {
        self.cause.as_ref()
    }

    /// Keeps why a call failed, and gives a fault of the same kind.
    fn note(&mut self, error: io::Error) -> io::Error {
        let kind = error.kind();
        self.cause = Some(error);
        kind.into()
    }
}

impl<W: Write> Write for Noted<W> {
    fn write(&mut self, buf: &[u8]) -> io::Result<usize> {
        match self.inner.write(buf) {
            Ok(count) => Ok(count),
            Err(error) => Err(self.note(error)),
        }
    }

    fn flush(&mut self) -> io::Result<()> {
        self.inner.flush()
    }
}
