//! The forms of a script's lines, word by word.

ghost use Rattle.std.specs.Prelude.{◌≡◌};
ghost use Rattle.dnp_daemons.specs.steps.Forms.{control_verb, is_gentle, issue_verb, slots_of, takes, verb_of};

use crate::script::names::{
    classes_in, end_in, flags_in, kind_in, link_in, octets_in, place_in, substation_in, time_in,
    way_in,
};
use crate::script::numbers::{
    integer_in, integer16_in, integer32_in, number_in, number8_in, number16_in, number32_in,
};
use crate::script::which::WhichCentre;
use Slot::{
    Block, Classes, End, Flags, Integer16, Integer32, Integer64, Kind, Link, Number8, Number16,
    Number32, Number64, Octets, Set16, Set32, Station, Substation, Time, Verb, Way,
};
use WhichCentre::{First, Second};

/// How many forms there are.
pub(crate) const FORMS: usize = 26;

/// A form of a line: that of the word that it begins with, and where a command is issued that of its third word.
#[derive(Clone, Copy, Debug, PartialEq, Eq)]
pub(crate) enum Form {
    /// `open L`
    Open,
    /// `clear L`
    Clear,
    /// `relay L`
    Relay,
    /// `round L`
    Round,
    /// `hangup L END`
    HangUp,
    /// `tick L END`
    Tick,
    /// `deliver L WAY`
    Deliver,
    /// `repeat L WAY`
    Repeat,
    /// `lose L WAY`
    Lose,
    /// `flush L WAY`
    Flush,
    /// `damage L WAY HEX`
    Damage,
    /// `poll L CLASSES`
    Poll,
    /// `enable L CLASSES`
    Enable,
    /// `disable L CLASSES`
    Disable,
    /// `time L MS`
    SetTime,
    /// `pass MS`
    Pass,
    /// `control ID`, or `control2 ID`
    Control(WhichCentre),
    /// `restart S`
    Restart,
    /// `change S KIND I VALUE FLAGS TIME`
    Change,
    /// `issue S set16 I VALUE`, or the same with `issue2`
    Set16(WhichCentre),
    /// `issue S set32 I VALUE`, or the same with `issue2`
    Set32(WhichCentre),
    /// `issue S block I CODE COUNT ON OFF`, or the same with `issue2`
    Block(WhichCentre),
}

/// What a word of a line says.
#[derive(Clone, Copy, Debug, PartialEq, Eq)]
pub(crate) enum Slot {
    /// What happens: the word that lines of this form begin with.
    Verb(Form),
    /// A link.
    Link,
    /// A substation.
    Substation,
    /// A station.
    Station,
    /// An end of a link.
    End,
    /// A way of a link.
    Way,
    /// A kind of points.
    Kind,
    /// Classes.
    Classes,
    /// Flags.
    Flags,
    /// A time, or that there is none.
    Time,
    /// Octets.
    Octets,
    /// `set16`
    Set16,
    /// `set32`
    Set32,
    /// `block`
    Block,
    /// A number of 8 bits.
    Number8,
    /// A number of 16 bits.
    Number16,
    /// A number of 32 bits.
    Number32,
    /// A number of 64 bits.
    Number64,
    /// A number of 16 bits, which may be negative.
    Integer16,
    /// A number of 32 bits, which may be negative.
    Integer32,
    /// A number of 64 bits, which may be negative.
    Integer64,
}

/// The word of a centre's lines for a clean control.
fn control_word(centre: WhichCentre) -> &'static str
    ensures { result.now ≡ control_verb centre }
{
    match centre {
        First => "control",
        Second => "control2",
    }
}

/// The word of a centre's lines that issue a command.
fn issue_word(centre: WhichCentre) -> &'static str
    ensures { result.now ≡ issue_verb centre }
{
    match centre {
        First => "issue",
        Second => "issue2",
    }
}

impl Form {
    /// All forms.
    pub(crate) const ALL: [Form; FORMS] = [
        Form::Open,
        Form::Clear,
        Form::Relay,
        Form::Round,
        Form::HangUp,
        Form::Tick,
        Form::Deliver,
        Form::Repeat,
        Form::Lose,
        Form::Flush,
        Form::Damage,
        Form::Poll,
        Form::Enable,
        Form::Disable,
        Form::SetTime,
        Form::Pass,
        Form::Control(First),
        Form::Control(Second),
        Form::Restart,
        Form::Change,
        Form::Set16(First),
        Form::Set32(First),
        Form::Block(First),
        Form::Set16(Second),
        Form::Set32(Second),
        Form::Block(Second),
    ];

    /// The word that its lines begin with.
    pub(crate) fn verb(self) -> &'static str
        ensures { result.now ≡ verb_of self }
    {
        match self {
            Form::Open => "open",
            Form::Clear => "clear",
            Form::Relay => "relay",
            Form::Round => "round",
            Form::HangUp => "hangup",
            Form::Tick => "tick",
            Form::Deliver => "deliver",
            Form::Repeat => "repeat",
            Form::Lose => "lose",
            Form::Flush => "flush",
            Form::Damage => "damage",
            Form::Poll => "poll",
            Form::Enable => "enable",
            Form::Disable => "disable",
            Form::SetTime => "time",
            Form::Pass => "pass",
            Form::Control(centre) => control_word(centre),
            Form::Restart => "restart",
            Form::Change => "change",
            Form::Set16(centre) | Form::Set32(centre) | Form::Block(centre) => issue_word(centre),
        }
    }

    /// Whether its lines lose, repeat and damage no unit.
    pub(crate) fn is_gentle(self) -> bool
        ensures { result ≡ is_gentle self }
    {
        !matches!(self, Form::Repeat | Form::Lose | Form::Damage)
    }

    /// What its words say, one after the other.
    pub(crate) fn slots(self) -> &'static [Slot]
        ensures { result.now ≡ slots_of self }
    {
        match self {
            Form::Open => &[Verb(Form::Open), Link],
            Form::Clear => &[Verb(Form::Clear), Link],
            Form::Relay => &[Verb(Form::Relay), Link],
            Form::Round => &[Verb(Form::Round), Link],
            Form::HangUp => &[Verb(Form::HangUp), Link, End],
            Form::Tick => &[Verb(Form::Tick), Link, End],
            Form::Deliver => &[Verb(Form::Deliver), Link, Way],
            Form::Repeat => &[Verb(Form::Repeat), Link, Way],
            Form::Lose => &[Verb(Form::Lose), Link, Way],
            Form::Flush => &[Verb(Form::Flush), Link, Way],
            Form::Damage => &[Verb(Form::Damage), Link, Way, Octets],
            Form::Poll => &[Verb(Form::Poll), Link, Classes],
            Form::Enable => &[Verb(Form::Enable), Link, Classes],
            Form::Disable => &[Verb(Form::Disable), Link, Classes],
            Form::SetTime => &[Verb(Form::SetTime), Link, Number64],
            Form::Pass => &[Verb(Form::Pass), Number64],
            Form::Control(centre) => slots_of_a_control(centre),
            Form::Restart => &[Verb(Form::Restart), Station],
            Form::Change => slots_of_a_change(),
            Form::Set16(centre) => slots_of_a_set16(centre),
            Form::Set32(centre) => slots_of_a_set32(centre),
            Form::Block(centre) => slots_of_a_block(centre),
        }
    }
}

/// What the words of a line `change` say.
fn slots_of_a_change() -> &'static [Slot]
    ensures { result.now ≡ slots_of Form.Change }
{
    &[
        Verb(Form::Change),
        Substation,
        Kind,
        Number16,
        Integer64,
        Flags,
        Time,
    ]
}

/// What the words of a line `control` say, or of one `control2`.
fn slots_of_a_control(centre: WhichCentre) -> &'static [Slot]
    ensures { result.now ≡ slots_of (Form.Control centre) }
{
    match centre {
        First => &[Verb(Form::Control(First)), Number64],
        Second => &[Verb(Form::Control(Second)), Number64],
    }
}

/// What the words of a line say that issues a command to a setpoint of 16 bits.
fn slots_of_a_set16(centre: WhichCentre) -> &'static [Slot]
    ensures { result.now ≡ slots_of (Form.Set16 centre) }
{
    match centre {
        First => &[
            Verb(Form::Set16(First)),
            Substation,
            Set16,
            Number16,
            Integer16,
        ],
        Second => &[
            Verb(Form::Set16(Second)),
            Substation,
            Set16,
            Number16,
            Integer16,
        ],
    }
}

/// What the words of a line say that issues a command to a setpoint of 32 bits.
fn slots_of_a_set32(centre: WhichCentre) -> &'static [Slot]
    ensures { result.now ≡ slots_of (Form.Set32 centre) }
{
    match centre {
        First => &[
            Verb(Form::Set32(First)),
            Substation,
            Set32,
            Number16,
            Integer32,
        ],
        Second => &[
            Verb(Form::Set32(Second)),
            Substation,
            Set32,
            Number16,
            Integer32,
        ],
    }
}

/// What the words of a line say that issues a command to a binary output.
fn slots_of_a_block(centre: WhichCentre) -> &'static [Slot]
    ensures { result.now ≡ slots_of (Form.Block centre) }
{
    match centre {
        First => &[
            Verb(Form::Block(First)),
            Substation,
            Block,
            Number16,
            Number8,
            Number8,
            Number32,
            Number32,
        ],
        Second => &[
            Verb(Form::Block(Second)),
            Substation,
            Block,
            Number16,
            Number8,
            Number8,
            Number32,
            Number32,
        ],
    }
}

impl Slot {
    /// Whether the word says such a thing, for a plan of so many substations.
    pub(crate) fn takes(self, word: &str, substations: usize) -> bool
        ensures { result ≡ takes substations self word.now }
    {
        match self {
            Verb(form) => word == form.verb(),
            Link => link_in(word, substations).is_some(),
            Substation => substation_in(word, substations).is_some(),
            Station => place_in(word, substations).is_some(),
            End => end_in(word).is_some(),
            Way => way_in(word).is_some(),
            Kind => kind_in(word).is_some(),
            Classes => classes_in(word).is_some(),
            Flags => flags_in(word).is_some(),
            Time => time_in(word).is_some(),
            Octets => octets_in(word).is_some(),
            Set16 => word == "set16",
            Set32 => word == "set32",
            Block => word == "block",
            Number8 => number8_in(word).is_some(),
            Number16 => number16_in(word).is_some(),
            Number32 => number32_in(word).is_some(),
            Number64 => number_in(word).is_some(),
            Integer16 => integer16_in(word).is_some(),
            Integer32 => integer32_in(word).is_some(),
            Integer64 => integer_in(word).is_some(),
        }
    }
}
