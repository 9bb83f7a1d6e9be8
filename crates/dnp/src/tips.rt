//! What is said of a word that stands where none belongs: how the words of its subcommand are meant.

use dnp_lines::{Untaken, tip_of};
use std::io;

/// What stands before such a word in what `clap` says of it, and what after it, where it has no tip of its own.
const BEFORE: &str = "error: unexpected argument '";

const AFTER: &str = "' found\n\nUsage: ";

/// What `clap` says of a word that a subcommand doesn't take, in two parts between which the tip belongs, and the tip: none where the
/// word is an option, of which it has a tip itself.
fn parts_of<'a>(said: &'a str, words: &[String]) -> Option<(&'a str, &'static str, &'a str)> {
    let (before, after) = said.split_once(AFTER)?;
    let word = before.strip_prefix(BEFORE)?;
    if word.starts_with('-') {
        return None;
    }
    let subcommand = words.get(1)?;
    Some((before, tip_of(subcommand.as_str())?, after))
}

/// Says on standard error which word is not taken, and how the words of its subcommand are meant.
pub(crate) fn say_mistake<R: AllocGlobal + Print + Eprint>(
    rt: &R,
    error: &clap::Error,
    words: &[String],
) -> io::Result<()> {
    let said = format!(in rt.alloc(); "{error}")?;
    match parts_of(said.as_str(), words) {
        Some((before, tip, after)) => {
            let line = Untaken(before, tip, after);
            eprint!(rt; "{line}")
        }
        None => error.print(rt),
    }
}
