//! How the lines of a concentrator and of a centre are coloured at a terminal: red for what failed, yellow for what may need a look.

use crate::lines::{Again, Line, News, OfCentre, OfFile};
use dnp_terminal::{Tone, Toned};

impl Toned for Line<'_> {
    fn tone(&self) -> Tone {
        match self {
            Line::Issued(..) => Tone::Plain,
            Line::Pending(_) | Line::LinesLost(_) | Line::File(_, OfFile::OthersToo) =>
                Tone::Warning,
            Line::File(_, OfFile::Migrated) => Tone::Good,
            Line::NotIssued(_)
            | Line::Failed(_)
            | Line::NoMap(_)
            | Line::NoCaller(..)
            | Line::Refused(_)
            | Line::File(..) => Tone::Fault,
        }
    }
}

impl Toned for Again<'_> {
    fn tone(&self) -> Tone {
        Tone::Warning
    }
}

impl Toned for OfCentre<'_> {
    fn tone(&self) -> Tone {
        match &self.news {
            News::Connected => Tone::Plain,
            News::Strange(line) => line.tone(),
            News::Ended(end) => end.tone(),
        }
    }
}
