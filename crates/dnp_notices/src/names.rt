//! What people call stations and their points. It is said beside their numbers, and stands nowhere else.

ghost use Rattle.std.specs.Prelude.{◌≡◌};
ghost use Rattle.dnp_appfragment.specs.Meaning.{request_at};
ghost use Rattle.dnp_notices.specs.Places as spec;

use crate::peer::Peer;
use dnp_appfragment::{Headers, read_request};
use dnp_objects::{Command, Kind};
use std::fmt;
use std::fmt::{Display, Formatter, Write};

/// A thing that people call something.
#[derive(Clone, Copy, Debug)]
pub enum Thing {
    /// A station.
    Station(Peer),
    /// A point of a station, with the index by which that one is asked.
    Point(Peer, Kind, u16),
    /// An output of a station.
    Output(Peer, u16),
    /// A setpoint of a station.
    Setpoint(Peer, u16),
}

impl Thing {
    /// The output or the setpoint of a station that a command is for.
    pub fn of_command(peer: Peer, command: &Command) -> Thing
        ensures { result ≡ spec.thing_of peer command.now }
    {
        match command {
            Command::Block { index, .. } => Thing::Output(peer, *index),
            Command::Set16 { index, .. } | Command::Set32 { index, .. } => {
                Thing::Setpoint(peer, *index)
            }
        }
    }

    /// Whether two are the same thing.
    fn is_same(self, other: Thing) -> bool
        ensures { result ≡ spec.same_thing self other }
    {
        match (self, other) {
            (Thing::Station(one), Thing::Station(two)) => one.is_same(two),
            (Thing::Point(one, kind, index), Thing::Point(two, kind2, index2)) => {
                one.is_same(two) && kind.number() == kind2.number() && index == index2
            }
            (Thing::Output(one, index), Thing::Output(two, index2))
            | (Thing::Setpoint(one, index), Thing::Setpoint(two, index2)) => {
                one.is_same(two) && index == index2
            }
            _ => false,
        }
    }
}

/// The output or the setpoint of a station that the first of these headers has a command for, if it has one.
fn output_of(peer: Peer, mut headers: Headers<'_>) -> Option<Thing>
    ensures { result ≡ spec.output_of peer headers.entry.headers }
{
    match headers.next() {
        Some(header) => match header.command(0) {
            Some((command, _)) => Some(Thing::of_command(peer, &command)),
            None => None,
        },
        None => None,
    }
}

/// The output or the setpoint of a station that a request with these octets has a command for, if it has one.
pub fn output_in(peer: Peer, octets: &[u8]) -> Option<Thing>
    ensures { result ≡ spec.output_in peer (request_at octets.now) }
{
    match read_request(octets) {
        Ok(request) => output_of(peer, request.headers),
        Err(_) => None,
    }
}

/// What people call a thing.
#[derive(Clone, Copy, Debug)]
pub struct Name<'a> {
    /// The thing.
    pub of: Thing,
    /// What they call it.
    pub name: &'a str,
}

/// What people call the stations that a program asks, and their points.
#[derive(Clone, Copy, Debug)]
pub struct Names<'a> {
    /// The names, of which the first of a thing counts.
    pub all: &'a [Name<'a>],
}

impl<'a> Names<'a> {
    /// Nothing is called anything.
    pub const NONE: Names<'static> = Names { all: &[] };

    /// Which of the names is the first of this thing, if one is.
    pub fn place_of(self, thing: Thing) -> Option<usize>
        ensures { result ≡ spec.first_called 0 thing self.entry.all.now }
    {
        for (number, name) in self.all.iter().enumerate() {
            if thing.is_same(name.of) {
                return Some(number);
            }
        }
        None
    }

    /// What people call a thing, if they call it something.
    pub fn of(self, thing: Thing) -> Option<&'a str> {
        let number = self.place_of(thing)?;
        let name = self.all.get(number)?;
        Some(name.name)
    }
}

/// Puts a name. What is no character to be seen, as a line's end, is written by its escape.
fn put_seen<W: Write>(f: &mut Formatter<W>, name: &str) -> fmt::Result {
    for letter in name.chars() {
        if letter.is_control() {
            write!(f, "{}", letter.escape_debug())?;
        } else {
            f.write_char(letter)?;
        }
    }
    Ok(())
}

/// A name in brackets behind what it is of, or nothing where there is none.
#[derive(Clone, Copy, Debug)]
pub struct InBrackets<'a>(pub Option<&'a str>);

impl Display for InBrackets<'_> {
    fn fmt<W: Write>(&self, f: &mut Formatter<W>) -> fmt::Result {
        match self.0 {
            Some(name) => {
                f.write_str(" (")?;
                put_seen(f, name)?;
                f.write_str(")")
            }
            None => Ok(()),
        }
    }
}
