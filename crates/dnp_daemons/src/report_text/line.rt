//! The lines of a report's events and commands, made in room that is kept.

ghost use Rattle.std.specs.Prelude.{◌≡◌, ℕ, ◌+◌, ◌<◌, ◌≤◌, List, ◌∷◌, ◌++◌, length, vec_capacity, vec_len};
ghost use Rattle.dnp_streams.specs.OctetLines.{octet_text};
ghost use Rattle.dnp_daemons.specs.ReportText.{spaced, row_words, command_words, item_line, kind_word, time_word};

use dnp_objects::{Command, Kind, Row};
use dnp_streams::digit_of;
use itoa::{Buffer, Integer};

/// The octets of the longest words that there can be, each after a space:
/// ` counter 65535 -9223372036854775808 FF 18446744073709551615`.
const WORDS_OCTETS: usize = 59;

/// The octets of the longest line: the longest words, behind ` 255` and before a line feed.
pub(crate) const LINE_OCTETS: usize = WORDS_OCTETS + 5;

/// Appends a space and a word, for which there is room.
fn push_word(line: &mut Vec<u8>, word: &[u8])
    requires { vec_len line.old + length word.now < vec_capacity line.old }
    ensures items { line.new.items ≡ line.old.items ++ 32 ∷ word.now }
    ensures len { vec_len line.new ≡ vec_len line.old + length word.now + 1 }
    ensures capacity { vec_capacity line.old ≤ vec_capacity line.new }
{
    line.push(b' ').unwrap();
    line.extend_from_slice(word).unwrap();
}

/// Appends a space and a number, for which there is room.
fn push_number<N: Integer>(line: &mut Vec<u8>, number: N)
    requires { vec_len line.old + N.MAX_STR_LEN < vec_capacity line.old }
    ensures items { line.new.items ≡ line.old.items ++ 32 ∷ N.text number }
    ensures len { vec_len line.new ≤ vec_len line.old + N.MAX_STR_LEN + 1 }
    ensures capacity { vec_capacity line.old ≤ vec_capacity line.new }
{
    let mut digits = Buffer::new();
    push_word(line, digits.format(number).as_bytes());
}

/// Appends a space and the word for a kind of points.
fn push_kind(line: &mut Vec<u8>, kind: Kind)
    requires { vec_len line.old + 7 < vec_capacity line.old }
    ensures items { line.new.items ≡ line.old.items ++ 32 ∷ kind_word kind }
    ensures len { vec_len line.new ≤ vec_len line.old + 8 }
    ensures capacity { vec_capacity line.old ≤ vec_capacity line.new }
{
    match kind {
        Kind::Binary => push_word(line, b"binary"),
        Kind::Counter => push_word(line, b"counter"),
        Kind::Analog => push_word(line, b"analog"),
    }
}

/// Appends a space and the two hexadecimal digits of an octet.
fn push_octet(line: &mut Vec<u8>, octet: u8)
    requires { vec_len line.old + 2 < vec_capacity line.old }
    ensures items { line.new.items ≡ line.old.items ++ 32 ∷ octet_text octet }
    ensures len { vec_len line.new ≡ vec_len line.old + 3 }
    ensures capacity { vec_capacity line.old ≤ vec_capacity line.new }
{
    push_word(line, &[digit_of(octet / 16), digit_of(octet % 16)]);
}

/// Appends a space and a time, or `-` where there is none.
fn push_time(line: &mut Vec<u8>, time: Option<u64>)
    requires { vec_len line.old + 20 < vec_capacity line.old }
    ensures items { line.new.items ≡ line.old.items ++ 32 ∷ time_word time }
    ensures len { vec_len line.new ≤ vec_len line.old + 21 }
    ensures capacity { vec_capacity line.old ≤ vec_capacity line.new }
{
    match time {
        Some(time) => push_number(line, time),
        None => push_word(line, b"-"),
    }
}

/// What has a line in a report: an event or a command.
pub(crate) trait Worded {
    /// Its words.
    ghost words: { Self → List (List ℕ) };

    /// Appends its words, each after a space.
    fn push_words(&self, line: &mut Vec<u8>)
        requires { vec_len line.old + WORDS_OCTETS ≤ vec_capacity line.old }
        ensures items { line.new.items ≡ line.old.items ++ spaced (words self.now) }
        ensures len { vec_len line.new ≤ vec_len line.old + WORDS_OCTETS }
        ensures capacity { vec_capacity line.old ≤ vec_capacity line.new };
}

impl Worded for Row {
    ghost words = { row_words };

    fn push_words(&self, line: &mut Vec<u8>) {
        push_kind(line, self.kind);
        push_number(line, self.index);
        push_number(line, self.value);
        push_octet(line, self.flags);
        push_time(line, self.time);
    }
}

impl Worded for Command {
    ghost words = { command_words };

    fn push_words(&self, line: &mut Vec<u8>) {
        match *self {
            Command::Block {
                index,
                code,
                count,
                on_ms,
                off_ms,
            } => {
                push_word(line, b"block");
                push_number(line, index);
                push_number(line, code);
                push_number(line, count);
                push_number(line, on_ms);
                push_number(line, off_ms);
            }
            Command::Set16 { index, value } => {
                push_word(line, b"set16");
                push_number(line, index);
                push_number(line, value);
            }
            Command::Set32 { index, value } => {
                push_word(line, b"set32");
                push_number(line, index);
                push_number(line, value);
            }
        }
    }
}

/// Makes the line of a thing in a list.
pub(crate) fn make_line<T: Worded>(line: &mut Vec<u8>, substation: u8, thing: &T)
    requires { LINE_OCTETS ≤ vec_capacity line.old }
    ensures items { line.new.items ≡ item_line substation (T.words thing.now) }
    ensures room { LINE_OCTETS ≤ vec_capacity line.new }
{
    line.clear();
    push_number(line, substation);
    thing.push_words(line);
    line.push(b'\n').unwrap();
}
