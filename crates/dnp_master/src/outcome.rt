ghost use Rattle.std.specs.Prelude.{◌≡◌};
ghost use Rattle.dnp_appfragment.specs.Seen.{head};
ghost use Rattle.dnp_master.specs.Outcomes as spec;

use dnp_appfragment::{Header, Headers, Iin};
use dnp_objects::{Command, Status};

/// How a task came out (IEEE Std 1815-2012, application layer).
#[derive(Clone, Copy, Debug, PartialEq, Eq)]
pub enum Outcome {
    /// The outstation has answered, with these indications.
    Done(Iin),
    /// It has answered the command with this status.
    Control(Status),
    /// It has answered a command with something else than that command.
    Unlike,
}

/// What a response has repeated of the one command of its request so far.
#[derive(Clone, Copy)]
pub(crate) enum Echo {
    /// No object came.
    Nothing,
    /// The command and nothing else, with this status.
    Same(Status),
    /// Anything else.
    Other,
}

/// What the header repeats of the command.
fn echo_by(command: &Command, header: &Header<'_>) -> Echo
    ensures { result ≡ spec.echo_by command.now (head header.now) }
{
    if header.count() != 1 {
        return Echo::Other;
    }
    let Some((repeated, status)) = header.command(0) else {
        return Echo::Other;
    };
    if repeated == *command {
        Echo::Same(status)
    } else {
        Echo::Other
    }
}

/// What the headers of a fragment repeat of the command.
fn echo_in(command: &Command, mut headers: Headers<'_>) -> Echo
    ensures { result ≡ spec.echo_in command.now headers.entry.headers }
{
    let Some(header) = headers.next() else {
        return Echo::Nothing;
    };
    if headers.next().is_some() {
        return Echo::Other;
    }
    echo_by(command, &header)
}

impl Echo {
    /// What this and what came after it repeat together.
    fn with(self, second: Echo) -> Echo
        ensures { result ≡ spec.echo_with self second }
    {
        match self {
            Echo::Nothing => second,
            Echo::Same(status) => match second {
                Echo::Nothing => Echo::Same(status),
                _ => Echo::Other,
            },
            Echo::Other => Echo::Other,
        }
    }

    /// What the response has repeated after one more fragment.
    pub(crate) fn after(self, command: Option<Command>, headers: Headers<'_>) -> Echo
        ensures { result ≡ spec.echo_after command self headers.entry.headers }
    {
        match command {
            None => self,
            Some(command) => self.with(echo_in(&command, headers)),
        }
    }

    /// The outcome of a command whose response has come to its end.
    pub(crate) fn outcome(&self) -> Outcome
        ensures { result ≡ spec.outcome_by self.now }
    {
        match self {
            Echo::Same(status) => Outcome::Control(*status),
            Echo::Nothing | Echo::Other => Outcome::Unlike,
        }
    }
}
