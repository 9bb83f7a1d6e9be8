//! How the lines of connections are coloured at a terminal: red for what failed, yellow for what may need a look.

use crate::lines::{Asked, End, Ending, Line, Visited};
use dnp_terminal::{Tone, Toned};

impl Toned for Line<'_> {
    fn tone(&self) -> Tone {
        match self {
            Line::Listening(..) | Line::Over(_) => Tone::Plain,
            Line::Strange(..) | Line::Still(..) => Tone::Warning,
            Line::NoPort(..)
            | Line::NoOutput(_)
            | Line::Failed(_)
            | Line::Unprepared(..)
            | Line::Broken(..) => Tone::Fault,
        }
    }
}

impl Toned for Visited {
    fn tone(&self) -> Tone {
        match self {
            Visited::Connected => Tone::Plain,
            Visited::Strange(_) | Visited::Late => Tone::Warning,
        }
    }
}

impl Toned for Asked<'_> {
    fn tone(&self) -> Tone {
        Tone::Plain
    }
}

impl Toned for End<'_> {
    fn tone(&self) -> Tone {
        match self.how {
            Ending::Master | Ending::Station | Ending::Done => Tone::Plain,
            Ending::Idle(_) | Ending::Taken(_) => Tone::Warning,
            Ending::Failed(..) | Ending::Unprepared(_) => Tone::Fault,
        }
    }
}
