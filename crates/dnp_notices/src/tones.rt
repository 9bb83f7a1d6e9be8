//! How lines are coloured at a terminal.

ghost use Rattle.std.specs.Prelude.{◌≡◌, ◌≢◌, true, false};
ghost use Rattle.dnp_notices.specs.Tones as spec;

use crate::control::ControlNotice;
use crate::dropping::DropNotice;
use crate::line::{DropLine, Line, Notice, StrangeLine};
use crate::standing::LinkNotice;
use dnp_appfragment::Iin;
use dnp_terminal::{Tone, Toned};

/// The colour of what is said of whether a station answers.
fn link_tone(notice: LinkNotice) -> Tone
    ensures { result ≡ spec.link_tone notice }
{
    match notice {
        LinkNotice::Lost(..) | LinkNotice::Still(..) => Tone::Fault,
        LinkNotice::Back(..) => Tone::Good,
    }
}

/// The colour of what is said of a control.
fn control_tone(notice: ControlNotice) -> Tone
    ensures { result ≡ spec.control_tone notice }
{
    match notice {
        ControlNotice::Selected(_) => Tone::Plain,
        ControlNotice::Done(_) => Tone::Good,
        ControlNotice::Postponed(_) | ControlNotice::Again(_) => Tone::Warning,
        ControlNotice::NotSelected(..)
        | ControlNotice::NotDone(..)
        | ControlNotice::SelectUnlike(_)
        | ControlNotice::OperateUnlike(_)
        | ControlNotice::Unknown(_) => Tone::Fault,
    }
}

/// The indications by which a station says that it refuses a request, or has lost events.
const FAULTS: [Iin; 4] = [
    Iin::NO_FUNC_CODE_SUPPORT,
    Iin::OBJECT_UNKNOWN,
    Iin::PARAMETER_ERROR,
    Iin::EVENT_BUFFER_OVERFLOW,
];

/// The colour of an indication that has risen, or fallen.
fn indication_tone(indication: Iin, rises: bool) -> Tone
    ensures falls { rises ≡ false → result ≡ Tone.Plain }
    ensures rises { rises ≡ true → result ≢ Tone.Plain }
{
    if !rises {
        return Tone::Plain;
    }
    for fault in FAULTS {
        if indication == fault {
            return Tone::Fault;
        }
    }
    Tone::Warning
}

impl Toned for Line<'_> {
    fn tone(&self) -> Tone {
        match self.notice {
            Notice::Link(notice) => link_tone(notice),
            Notice::Control(notice) => control_tone(notice),
            Notice::Indication(indication, rises) => indication_tone(indication, rises),
            Notice::Strange(_) => Tone::Warning,
        }
    }
}

impl Toned for StrangeLine {
    fn tone(&self) -> Tone {
        Tone::Warning
    }
}

impl Toned for DropLine {
    fn tone(&self) -> Tone {
        match self.notice {
            DropNotice::Begins(_) => Tone::Fault,
            DropNotice::Ends(_) => Tone::Warning,
        }
    }
}
