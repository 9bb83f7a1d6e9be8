//! Codes that no output takes, and what was probably meant.

ghost use Rattle.std.specs.Prelude.{◌≡◌};
ghost use Rattle.dnp_orders.specs.Intended.{doubt_of, intended};

use crate::action::Action;
use crate::numbers::octet_in;
use crate::order::read_command;
use crate::words::word_at;
use dnp_controls::obeys_code_rule;
use dnp_objects::Command;

/// A control code that no output takes, and the action whose code it is if its decimal digits were meant as
/// hexadecimal ones.
#[derive(Clone, Copy, Debug)]
pub struct CodeDoubt {
    /// The code.
    pub code: u8,
    /// What was probably meant.
    pub intended: Option<Action>,
}

/// The action whose code a word writes, if its digits are taken as hexadecimal ones.
fn intended_in(word: &str) -> Option<Action>
    ensures { result ≡ intended word.now }
{
    Action::of_code(octet_in(word.as_bytes())?)
}

/// What is doubtful about the code of a command, or none where outputs take it, or where the text says no
/// command that has a code. The count isn't looked at.
pub fn code_doubt(text: &str) -> Option<CodeDoubt>
    ensures { result ≡ doubt_of text.now }
{
    match read_command(text) {
        Ok(Command::Block { code, .. }) => {
            if obeys_code_rule(code, 1) {
                return None;
            }
            let intended = intended_in(word_at(text, 2));
            Some(CodeDoubt { code, intended })
        }
        _ => None,
    }
}
