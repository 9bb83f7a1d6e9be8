//! Changes of points, replayed from a file, once or again and again.

ghost use Rattle.std.specs.Prelude.{◌<◌, IfOk, IfSome};

use crate::inputs::octets_of;
use dnp_daemons::{Change, number_in, octet_of};
use dnp_lines::{Line, Misfit, Refused};
use dnp_objects::{Kind, MAX_TIME};
use dnp_pointdb::Reading;
use dnp_tcp::{Both, Replay, exit, unwritten};
use std::alloc::AllocError;
use std::process::ExitCode;
use std::rt::{Clock, Files};
use std::{fs, str};

/// The most octets of a replay that are read. So no file can fill the memory.
const MAX_REPLAY: u64 = 16 * 1_024 * 1_024;

/// What a word says that a point measures.
fn kind_in(word: &str) -> Option<Kind> {
    match word {
        "binary" => Some(Kind::Binary),
        "counter" => Some(Kind::Counter),
        "analog" => Some(Kind::Analog),
        _ => None,
    }
}

/// A whole number, below 0 with a sign in front.
fn value_in(word: &str) -> Option<i64> {
    match word.strip_prefix('-') {
        Some(digits) => 0i64.checked_sub(i64::try_from(number_in(digits)?).ok()?),
        None => i64::try_from(number_in(word)?).ok(),
    }
}

/// An octet of two hexadecimal digits.
fn flags_in(word: &str) -> Option<u8> {
    match word.as_bytes() {
        [high, low] => octet_of(*high, *low),
        _ => None,
    }
}

/// When a change is due, in milliseconds from the start, by a word; not before the change before it.
fn ms_in(word: &str, before: u64) -> Result<u64, Misfit> {
    match number_in(word) {
        Some(ms) if ms < before => Err(Misfit::Falls),
        Some(ms) => Ok(ms),
        None => Err(Misfit::Ms),
    }
}

/// The time of a change that is due so many milliseconds from the start, by a word.
fn time_in(word: &str, ms: u64, start: Both) -> Result<Option<u64>, Misfit>
    ensures { IfOk result (λ time. IfSome time (λ known. known < MAX_TIME)) }
{
    match word {
        "-" => Ok(None),
        "now" => Ok(Some(start.time_at(start.moment.saturating_add(ms)))),
        _ => match number_in(word) {
            Some(time) if time < MAX_TIME => Ok(Some(time)),
            _ => Err(Misfit::Time),
        },
    }
}

/// A point's index, by a word.
fn index_in(word: &str) -> Result<u16, Misfit> {
    match number_in(word) {
        Some(number) => u16::try_from(number).map_err(|_| Misfit::Index),
        None => Err(Misfit::Index),
    }
}

/// The next word, which is empty where none is left.
fn next_word<'a>(words: &mut str::Split<'a, char>) -> &'a str {
    words.next().unwrap_or("")
}

/// The reading that the last words ask for, of a change that is due so many milliseconds from the start.
fn reading_in(words: &mut str::Split<'_, char>, ms: u64, start: Both) -> Result<Reading, Misfit> {
    let value = value_in(next_word(words)).ok_or(Misfit::Value)?;
    let flags = flags_in(next_word(words)).ok_or(Misfit::Flags)?;
    let time = time_in(next_word(words), ms, start)?;
    if words.next().is_some() {
        return Err(Misfit::Words);
    }
    Ok(Reading { value, flags, time })
}

/// The change that a line asks for, not before the one before it. Single spaces separate its words.
fn change_in(line: &str, before: u64, start: Both) -> Result<Change, Misfit> {
    let mut words = line.split(' ');
    let ms = ms_in(next_word(&mut words), before)?;
    if next_word(&mut words) != "change" {
        return Err(Misfit::Verb);
    }
    let kind = kind_in(next_word(&mut words)).ok_or(Misfit::Kind)?;
    let index = index_in(next_word(&mut words))?;
    let reading = reading_in(&mut words, ms, start)?;
    Ok(Change {
        at: start.moment.saturating_add(ms),
        kind,
        index,
        reading,
    })
}

/// The text of a replay. Where it can't be read, why is said on standard error, and the exit status is told.
fn replay_text<R: AllocGlobal + Eprint + Files>(rt: &R, path: &str) -> Result<Vec<u8>, ExitCode> {
    octets_of(rt, path, fs::open(rt, path), MAX_REPLAY)
}

/// Prints that a line is refused, says on standard error why, and gives the exit status.
fn refused<R: Print + Eprint>(rt: &R, path: &str, line: u64, misfit: Misfit) -> ExitCode {
    let refused = Refused::Line(line);
    if let Err(cause) = println!(rt; "{refused}") {
        return unwritten(rt, &cause);
    }
    let line = Line::Replay(path, line, misfit);
    let _ = eprintln!(rt; "{line}");
    ExitCode::from(exit::REFUSED)
}

/// A line of a replay that doesn't fit.
#[derive(Clone, Copy)]
struct Place {
    /// Its number, from 1.
    line: u64,
    /// Why it doesn't.
    misfit: Misfit,
}

/// Adds the changes of a text that begins then, up to its first line that doesn't fit; they begin again where that is asked
/// for.
fn add_all(
    replay: &mut Replay,
    text: &str,
    begins: Both,
    repeats: bool,
) -> Result<Result<(), Place>, AllocError> {
    let mut line = 0u64;
    let mut before = 0;
    for words in text.lines() {
        line = line.saturating_add(1);
        match change_in(words, before, begins) {
            Ok(change) => {
                before = change.at.saturating_sub(begins.moment);
                replay.add(change, words.ends_with(" now"))?;
            }
            Err(misfit) => return Ok(Err(Place { line, misfit })),
        }
    }
    if repeats && line > 0 {
        if before == 0 {
            let misfit = Misfit::Again;
            return Ok(Err(Place { line, misfit }));
        }
        replay.repeat(before);
    }
    Ok(Ok(()))
}

/// The changes that a replay asks for, from now on, in order, once or again and again. Where the file can't be read or a
/// line is refused, that is said, and the exit status is told.
pub fn replay_given<R: AllocGlobal + Print + Eprint + Files + Clock>(
    rt: &R,
    path: &str,
    repeats: bool,
) -> anyhow::Result<Result<Replay, ExitCode>> {
    let octets = match replay_text(rt, path) {
        Ok(octets) => octets,
        Err(status) => return Ok(Err(status)),
    };
    let Ok(text) = str::from_utf8(octets.as_slice()) else {
        return Ok(Err(refused(rt, path, 1, Misfit::NotText)));
    };
    let mut replay = Replay::new(rt.alloc());
    match add_all(&mut replay, text, Both::now(rt), repeats)? {
        Ok(()) => Ok(Ok(replay)),
        Err(place) => Ok(Err(refused(rt, path, place.line, place.misfit))),
    }
}
