//! What is said of a file that is given for another one: how it is meant.

use dnp_lines::{Given, Meant};
use std::str;

/// What captures begin with: the classic form in both orders of octets, with microseconds and with nanoseconds, and pcapng.
const CAPTURES: [[u8; 4]; 5] = [
    [0xD4, 0xC3, 0xB2, 0xA1],
    [0xA1, 0xB2, 0xC3, 0xD4],
    [0x4D, 0x3C, 0xB2, 0xA1],
    [0xA1, 0xB2, 0x3C, 0x4D],
    [0x0A, 0x0D, 0x0D, 0x0A],
];

/// What lines begin with that stand in one kind of text alone, and what that is.
const SIGNS: [(&str, Meant); 4] = [
    ("confirm_ms", Meant::Plan),
    ("select_ms", Meant::Plan),
    ("[concentrator]", Meant::Network),
    ("substation,kind,index,", Meant::Points),
];

/// What the first lines of scripts begin with.
const VERBS: [&str; 6] = ["open ", "change ", "poll ", "round ", "issue ", "pass "];

/// What hexadecimal octets begin with: those of a link frame.
const FRAMES: [&str; 4] = ["05 64", "0564", "0x05", "05:64"];

/// What a text is, as far as its lines show it.
fn text_meant(text: &str) -> Option<Meant> {
    for verb in VERBS {
        if text.starts_with(verb) {
            return Some(Meant::Script);
        }
    }
    for frame in FRAMES {
        if text.starts_with(frame) {
            return Some(Meant::Hexadecimal);
        }
    }
    for line in text.lines() {
        for (sign, meant) in SIGNS {
            if line.starts_with(sign) {
                return Some(meant);
            }
        }
    }
    None
}

/// What a file is, as far as its octets show it.
fn meant_by(octets: &[u8]) -> Option<Meant> {
    for begin in CAPTURES {
        if octets.starts_with(&begin) {
            return Some(Meant::Capture);
        }
    }
    if octets.starts_with(&[0x05, 0x64]) {
        return Some(Meant::Octets);
    }
    text_meant(str::from_utf8(octets).ok()?)
}

/// Says on standard error what a refused file or input is, where it isn't what it was given for, and how it is given.
pub fn say_meant<R: Eprint>(rt: &R, path: &str, octets: &[u8], wanted: Meant) {
    if let Some(meant) = meant_by(octets)
        && meant != wanted
    {
        let line = Given(path, meant);
        let _ = eprintln!(rt; "{line}");
    }
}
