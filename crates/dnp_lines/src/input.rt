//! Inputs that are refused, and what fails.

/// What is said of an input, or of the program.
#[derive(Clone, Copy)]
pub enum Line<'a> {
    /// The input with this name has more octets than so many.
    Over(&'a str, u64),
    /// Standard input has more octets than the option allows.
    OverLimit(u64),
    /// The file at this path is not UTF-8.
    NotText(&'a str),
    /// Memory ran out for the file at this path.
    NoMemory(&'a str),
    /// The file at this path changed each time.
    Changed(&'a str),
    /// The file at this path has no store of the first name, and one of the second, whose rows this option prints.
    Other(&'a str, &'a str, &'a str, &'a str),
    /// The file at this path is no database, so that it has no store of this name.
    NoDatabase(&'a str, &'a str),
    /// No store of this name was made in it yet.
    NotMade(&'a str, &'a str),
    /// Its store of this name is of an earlier release.
    OldForm(&'a str, &'a str),
    /// The last id in it is this one, and it is asked for later ones.
    Behind(&'a str, u64),
    /// It has no whole store of this name.
    NoStore(&'a str, &'a str),
    /// The line with this number of a replay is refused.
    Replay(&'a str, u64, Misfit),
}

/// A fault that is the program's own.
#[derive(Clone, Copy)]
pub struct Own<'a, T>(pub &'a T);

/// A fault of the input or output with this name.
#[derive(Clone, Copy)]
pub struct Of<'a, T>(pub &'a str, pub &'a T);

/// What is wrong after so many octets of standard input.
#[derive(Clone, Copy)]
pub struct AtOctet<'a, T>(pub u64, pub &'a T);

/// What is wrong in the line of standard input with this number.
#[derive(Clone, Copy)]
pub struct AtLine<'a, T>(pub u64, pub &'a T);

/// A script that stopped, since memory ran out.
#[derive(Clone, Copy)]
pub struct Starved<'a, T>(pub &'a T);

/// A place in a text: its line and its column, both from 1.
#[derive(Clone, Copy)]
pub struct TextPlace {
    /// The line.
    pub line: usize,
    /// The column, which counts characters.
    pub column: usize,
}

/// The file at this path stops being TOML at this place; what is said of that, and why it is none.
#[derive(Clone, Copy)]
pub struct NotToml<'a, T>(pub &'a str, pub TextPlace, pub &'a T, pub &'a str);

/// Why a line of a replay doesn't fit.
#[derive(Clone, Copy)]
pub enum Misfit {
    /// The file is not UTF-8.
    NotText,
    /// The first word is no number of milliseconds.
    Ms,
    /// The first word falls below that of the line before.
    Falls,
    /// The second word is another.
    Verb,
    /// The third word is no kind of points.
    Kind,
    /// The fourth word is no index.
    Index,
    /// The fifth word is no value.
    Value,
    /// The sixth word is no flags octet.
    Flags,
    /// The seventh word is no time.
    Time,
    /// There are more words.
    Words,
    /// It is the last one, of a replay that begins again at the moment at which it began.
    Again,
}

/// An input that is refused, as standard output says it.
#[derive(Clone, Copy)]
pub enum Refused<'a> {
    /// A plan, by the number of its fault.
    Plan(u8),
    /// The line of a replay with this number.
    Line(u64),
    /// A capture, by the name of its fault.
    Capture(&'a str),
}

/// What a file is.
#[derive(Clone, Copy, Debug, PartialEq, Eq)]
pub enum Meant {
    /// A plan.
    Plan,
    /// The file of a network.
    Network,
    /// A table of points.
    Points,
    /// A script.
    Script,
    /// A capture.
    Capture,
    /// Octets of frames.
    Octets,
    /// Hexadecimal octets of frames.
    Hexadecimal,
}

/// A file with this name that was given for another one, and what it is.
#[derive(Clone, Copy)]
pub struct Given<'a>(pub &'a str, pub Meant);
