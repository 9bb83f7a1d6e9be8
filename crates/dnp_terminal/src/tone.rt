//! How a text is coloured.

ghost use Rattle.std.specs.Prelude.{◌≡◌};
ghost use Rattle.dnp_terminal.specs.Tones.{escape_of};

/// What ends a colour.
pub const RESET: &str = "\x1b[0m";

/// How a text is coloured, by what it tells.
#[derive(Clone, Copy, Debug, PartialEq, Eq)]
pub enum Tone {
    /// Not at all.
    Plain,
    /// Bold: the head of what follows.
    Heading,
    /// Green: something is well again.
    Good,
    /// Yellow: something may need a look.
    Warning,
    /// Red: something failed, was refused, or is lost.
    Fault,
    /// Faint: something beside the matter.
    Faint,
}

impl Tone {
    /// The escape that begins it (ECMA-48, select graphic rendition); empty where nothing is coloured.
    pub fn escape(self) -> &'static str
        ensures { result.now ≡ escape_of self }
    {
        match self {
            Tone::Plain => "",
            Tone::Heading => "\x1b[1m",
            Tone::Good => "\x1b[32m",
            Tone::Warning => "\x1b[33m",
            Tone::Fault => "\x1b[31m",
            Tone::Faint => "\x1b[2m",
        }
    }
}

/// What knows how the line that is said of it is coloured.
pub trait Toned {
    /// How it is coloured.
    fn tone(&self) -> Tone;
}
