//! Which build the program is, by the file that stands beside it: its name with `.build` behind, of one line.
//!
//! Who builds or installs the program writes that file. The program can't judge it; where there is none, it claims nothing.

use crate::VERSION;
use dnp_decode::Moment;
use dnp_lines::{Begun, Version};
use dnp_tcp::utc;
use std::alloc::Global;
use std::io::Read;
use std::rt::{Clock, Files};
use std::{env, fs, io};

/// The most octets of the file that are read.
const MAX_SAID: u64 = 200;

/// The octets of the file beside the program, as many as are read.
fn octets_beside<R: AllocGlobal + Files>(rt: &R) -> io::Result<Vec<u8>> {
    let program = env::current_exe(rt)?;
    let mut path = String::from_str(rt.alloc(), program.as_str())?;
    path.push_str(".build")?;
    let mut octets = Vec::new(rt.alloc());
    fs::open(rt, path.as_str())?
        .take(MAX_SAID)
        .read_to_end(&mut octets)?;
    Ok(octets)
}

/// What the file beside the program says in its first line, if it says something that can be printed.
fn said<R: AllocGlobal + Files>(rt: &R) -> Option<String> {
    match octets_beside(rt) {
        Ok(octets) => first_line(rt.alloc(), octets),
        Err(_) => None,
    }
}

/// The first line of a text, if it is one of characters that can be printed, and not empty.
fn first_line(alloc: Global, octets: Vec<u8>) -> Option<String> {
    let text = String::from_utf8(octets).ok()?;
    let line = text.as_str().lines().next()?;
    if line.is_empty() || line.chars().any(|it| it.is_control()) {
        return None;
    }
    String::from_str(alloc, line).ok()
}

/// A text that is owned, if there is one.
fn text_of(text: &Option<String>) -> Option<&str> {
    match text {
        Some(text) => Some(text.as_str()),
        None => None,
    }
}

/// Says on standard error that the program begins to serve or to poll, and which build it is. It has no clause: none says what
/// standard error takes.
pub(crate) fn note_start<R: AllocGlobal + Eprint + Files + Clock>(rt: &R) {
    let moment = Moment(utc(rt));
    let said = said(rt);
    let begun = Begun(VERSION, text_of(&said));
    let _ = eprintln!(rt; "{moment} {begun}");
}

/// Prints the program's name and version, and which build it is, where the file beside it tells.
pub(crate) fn print_version<R: AllocGlobal + Print + Files>(rt: &R) -> io::Result<()> {
    let said = said(rt);
    let version = Version(VERSION, text_of(&said));
    println!(rt; "{version}")
}
