//! How what was asked came out.

ghost use Rattle.std.specs.Prelude.{◌≡◌};
ghost use Rattle.dnp_nodes.specs.Told as spec;

use dnp_master::Outcome;

/// How what was asked came out with a response.
#[derive(Clone, Copy, Debug, PartialEq, Eq)]
pub enum Answer {
    /// Not yet, or nothing was awaited.
    Nothing,
    /// The outstation has answered.
    Done,
    /// It has answered the command with the status of this code.
    Control(u8),
    /// It has answered a command with something else than that command.
    Unlike,
}

/// How a task came out, if one did.
pub(crate) fn answer_of(outcome: &Option<Outcome>) -> Answer
    ensures { result ≡ spec.answer_of outcome.now }
{
    match outcome {
        None => Answer::Nothing,
        Some(Outcome::Done(_)) => Answer::Done,
        Some(Outcome::Control(status)) => Answer::Control(status.code()),
        Some(Outcome::Unlike) => Answer::Unlike,
    }
}
