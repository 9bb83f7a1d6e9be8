//! Laws of numbers that several crates have: each function does nothing, and its contract is a law.
ghost use Rattle.std.specs.Prelude.{◌≡◌};
ghost use Rattle.dnp_daemons.specs.declared.script.words.TheConstants as words;

/// A line of a script has at most so many words.
pub fn limits_have_their_values()
    ensures words { words.MAX_WORDS ≡ 8 }
{}
