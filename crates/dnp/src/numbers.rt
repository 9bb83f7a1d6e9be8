//! Numbers on the command line.

use clap::ArgMatches;
use dnp_daemons::number_in;
use dnp_lines::{Wanted, Wrong};

/// The longest that the other end of a connection may send nothing whole, in seconds: a day.
pub(crate) const MAX_IDLE: u64 = 86_400;

/// The longest from one round or poll to the next, in milliseconds: a day.
pub(crate) const MAX_EVERY: u64 = 86_400_000;

/// The number that an option gives, from `least` to `most`. Where it gives none, what is wrong with it is printed.
pub(crate) fn number_given<'a, R: Eprint>(
    rt: &R,
    given: &'a ArgMatches<'_>,
    option: &'a str,
    name: &'a str,
    least: u64,
    most: u64,
) -> Option<u64> {
    let text = match given.get_str(option) {
        Some(text) => text,
        None => "",
    };
    match number_in(text) {
        Some(number) if least <= number && number <= most => Some(number),
        _ => {
            let wrong = Wrong::Value(text, option, name, Wanted::Number(least, most));
            let _ = eprintln!(rt; "{wrong}");
            None
        }
    }
}
