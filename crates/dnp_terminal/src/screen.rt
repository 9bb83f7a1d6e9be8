//! What the streams of a program lead to.

ghost use Rattle.std.specs.Prelude.{◌≡◌, true, false, []};
ghost use Rattle.dnp_terminal.specs.Tones.{escape_of, closing_of};

use crate::tone::{RESET, Tone};
use std::env::{Env, FillError};
use std::fmt;
use std::fmt::{Display, Formatter, Write};
use std::io::IsTerminal;
use std::rt::HostRuntime;

/// What erases the line in which the cursor stands, and goes to its begin.
pub const ERASE_LINE: &str = "\r\x1b[K";

/// What erases all from the cursor on.
pub const ERASE_BELOW: &str = "\x1b[J";

/// What goes up so many lines, to the begin of one.
#[derive(Clone, Copy)]
pub struct Up(pub usize);

impl Display for Up {
    fn fmt<W: Write>(&self, f: &mut Formatter<W>) -> fmt::Result {
        let lines = self.0;
        match lines {
            0 => f.write_str("\r"),
            _ => write!(f, "\r\x1b[{lines}A"),
        }
    }
}

/// What a stream leads to.
#[derive(Clone, Copy, Debug, PartialEq, Eq)]
pub struct Screen {
    /// Whether it is a terminal, on which something can be drawn again.
    pub is_terminal: bool,
    /// Whether what is written there may have colours.
    pub has_colours: bool,
}

impl Screen {
    /// A pipe or a file.
    pub const NONE: Screen = Screen {
        is_terminal: false,
        has_colours: false,
    };

    /// What a stream leads to, by whether it is a terminal, whether that takes escapes, and whether the user refuses colours.
    pub fn judged(is_terminal: bool, takes_escapes: bool, refuses_colours: bool) -> Screen
        ensures plain { is_terminal ≡ false → result ≡ Screen.NONE }
        ensures dumb { takes_escapes ≡ false → result ≡ Screen.NONE }
        ensures drawn { is_terminal ≡ true → takes_escapes ≡ true → result.is_terminal ≡ true }
        ensures refused { refuses_colours ≡ true → result.has_colours ≡ false }
        ensures coloured { is_terminal ≡ true → takes_escapes ≡ true → refuses_colours ≡ false → result.has_colours ≡ true }
    {
        let is_terminal = is_terminal && takes_escapes;
        Screen {
            is_terminal,
            has_colours: is_terminal && !refuses_colours,
        }
    }

    /// What stands before a text of this tone there, and what after it; nothing where the screen has no colours.
    pub fn escapes(self, tone: Tone) -> (&'static str, &'static str)
        ensures plain { self.has_colours ≡ false → (result.0.now ≡ []) × (result.1.now ≡ []) }
        ensures opening { self.has_colours ≡ true → result.0.now ≡ escape_of tone }
        ensures closing { self.has_colours ≡ true → result.1.now ≡ closing_of tone }
    {
        if !self.has_colours || tone == Tone::Plain {
            return ("", "");
        }
        (tone.escape(), RESET)
    }
}

/// What knows where the program's streams lead.
pub trait Terminal {
    /// Where standard output leads.
    fn output_screen(&self) -> Screen;

    /// Where standard error leads.
    fn error_screen(&self) -> Screen;
}

impl Terminal for HostRuntime {
    fn output_screen(&self) -> Screen {
        let (takes, refuses) = (takes_escapes(self), refuses_colours(self));
        Screen::judged(self.stdout().is_terminal(), takes, refuses)
    }

    fn error_screen(&self) -> Screen {
        let (takes, refuses) = (takes_escapes(self), refuses_colours(self));
        Screen::judged(self.stderr().is_terminal(), takes, refuses)
    }
}

/// Whether NO_COLOR is set, and not to nothing (no-color.org).
fn refuses_colours<E: Env>(env: &E) -> bool {
    match env.var("NO_COLOR", &mut [0; 1]) {
        Ok(octets) => octets > 0,
        Err(FillError::TooLong) => true,
        Err(FillError::NotPresent) => false,
    }
}

/// Whether a terminal takes escapes: TERM is not "dumb".
fn takes_escapes<E: Env>(env: &E) -> bool {
    let mut name = [0; 4];
    !matches!(env.var("TERM", &mut name), Ok(4)) || name != *b"dumb"
}
