//! A text in its colour.

use crate::screen::Screen;
use crate::tone::Tone;
use std::fmt;
use std::fmt::{Display, Formatter, Write};

/// A text in its colour, where the screen has colours. Its own octets stand there in any case, between two escapes or alone.
#[derive(Clone, Copy)]
pub struct Painted<'a, T> {
    /// Where it is shown.
    pub screen: Screen,
    /// Its colour.
    pub tone: Tone,
    /// The text.
    pub what: &'a T,
}

impl<'a, T: Display> Display for Painted<'a, T> {
    ghost use Rattle.dnp_terminal.specs.Tones.{painted};

    ghost output = { λ p. painted p.screen.has_colours p.tone (T.output p.what.now) };

    fn fmt<W: Write>(&self, f: &mut Formatter<W>) -> fmt::Result {
        let (opening, closing) = self.screen.escapes(self.tone);
        f.write_str(opening)?;
        f.write(self.what)?;
        f.write_str(closing)
    }
}
