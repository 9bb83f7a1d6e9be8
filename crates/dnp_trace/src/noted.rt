//! What is noted: lines, units and what they did.
ghost use Rattle.std.specs.Prelude.{◌≡◌, ◌<◌, length, OnOk, position, count_by, slice_get};
ghost use Rattle.dnp_trace.specs.Logs.{line_number, link_number, is_on, octets_seen, seen_at, left as left_of};

use std::alloc::AllocError;
use std::marker::Model;

/// The station at the other end of a concentrator's link.
#[derive(Clone, Copy, Debug, PartialEq, Eq)]
pub enum Peer {
    /// The first centre.
    Centre,
    /// The second centre.
    SecondCentre,
    /// The substation of this number.
    Substation(u8),
}

impl Peer {
    /// The number of the link.
    pub(crate) fn number(self) -> usize
        ensures { result ≡ link_number self }
    {
        match self {
            Peer::Centre => 0,
            Peer::SecondCentre => 1,
            Peer::Substation(substation) => usize::from(substation) + 2,
        }
    }
}

/// A line of a system: a way of one of its links.
#[derive(Clone, Copy, Debug, PartialEq, Eq)]
pub struct Course {
    /// The station at the other end of the concentrator's link.
    pub peer: Peer,
    /// Whether it goes up, to the master.
    pub up: bool,
}

impl Course {
    /// The number of the line.
    pub(crate) fn number(self) -> usize
        ensures { result ≡ line_number self }
    {
        let way = if self.up { 1 } else { 0 };
        2 * self.peer.number() + way
    }
}

/// What a unit did.
#[derive(Clone, Copy, Debug, PartialEq, Eq)]
pub enum What {
    /// It was put on the line.
    Sent,
    /// It came to its end.
    Arrives,
    /// It came to its end, and stays on the line.
    Repeated,
    /// It was lost.
    Lost,
    /// It was damaged, so that nobody gets it.
    Damaged,
    /// It was on a line that was cleared.
    Dropped,
    /// It is on the line when the script ends.
    Stands,
}

/// A unit that was on a line.
#[derive(Drop)]
pub(crate) struct Unit {
    /// The line.
    pub course: Course,
    /// Its octets; none where it never was at the front of the line, where they can be seen.
    pub octets: Vec<u8>,
}

impl Model for Unit {
    ghost use Rattle.dnp_trace.specs.Logs.{Sent};

    ghost Value = { Sent };

    ghost view = { λ unit. record { course = unit.course; octets = unit.octets.items } };
}

impl Unit {
    /// The line that it was on.
    pub(crate) fn course(&self) -> Course
        ensures { result ≡ self.now.course }
    {
        self.course
    }

    /// Its octets; none where it never was at the front of the line, where they can be seen.
    pub(crate) fn octets(&self) -> &[u8]
        ensures { result.now ≡ self.now.octets }
    {
        self.octets.as_slice()
    }

    /// Its octets are seen.
    fn see(&mut self, octets: &[u8]) -> Result<(), AllocError>
        ensures { OnOk result (self.new ≡ octets_seen octets.now self.old) }
    {
        if self.octets.is_empty() {
            self.octets.extend_from_slice(octets)?;
        }
        Ok(())
    }
}

/// A line of a script.
#[derive(Drop)]
pub(crate) struct Words {
    /// Its text.
    pub text: Vec<u8>,
}

impl Model for Words {
    ghost use Rattle.std.specs.Prelude.{ℕ, List};

    ghost Value = { List ℕ };

    ghost view = { λ words. words.text.items };
}

impl Words {
    /// Its text.
    pub(crate) fn as_slice(&self) -> &[u8]
        ensures { result.now ≡ self.now }
    {
        self.text.as_slice()
    }
}

/// A unit that stands on a line.
#[derive(Clone, Copy)]
pub(crate) struct Standing {
    /// The number of the line.
    pub line: usize,
    /// The number of the unit.
    pub unit: usize,
}

/// What happened.
#[derive(Clone, Copy)]
pub(crate) enum Step {
    /// The line of this number of the script, counted from 0, begins.
    Line {
        /// When, in milliseconds.
        moment: u64,
        /// Its number.
        line: usize,
    },
    /// A unit did something.
    Unit {
        /// When, in milliseconds.
        moment: u64,
        /// What it did.
        what: What,
        /// Its number: units are counted from 0, in the order in which they are sent.
        unit: usize,
    },
}

/// How many units stand on the line of this number.
pub(crate) fn count_of(standing: &[Standing], line: usize) -> usize
    ensures { result ≡ count_by (is_on line) standing.now }
{
    standing.iter().filter(|unit| unit.line == line).count()
}

/// The place of the first unit that stands on the line of this number.
pub(crate) fn place_of(standing: &[Standing], line: usize) -> Option<usize>
    ensures { result ≡ position (is_on line) standing.now }
{
    standing.iter().position(|unit| unit.line == line)
}

/// The octets of the unit of this number are seen. Where there is none, nothing is.
pub(crate) fn see(units: &mut Vec<Unit>, number: usize, octets: &[u8]) -> Result<(), AllocError>
    ensures { OnOk result (units.new.items ≡ seen_at number octets.now (slice_get units.old.items number) units.old.items) }
{
    if number < units.len() {
        units[number].see(octets)?;
    }
    Ok(())
}

/// Takes what stands at this place off its line, unless it is repeated.
pub(crate) fn take_off(standing: &mut Vec<Standing>, place: usize, what: What)
    requires { place < length standing.old.items }
    ensures { standing.new.items ≡ left_of what place standing.old.items }
{
    match what {
        What::Repeated => {}
        _ => {
            standing.remove(place);
        }
    }
}
