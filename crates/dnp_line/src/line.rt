//! A line that carries units of octets one way.
ghost use Rattle.std.specs.Prelude.{◌≡◌, ℕ, ◌<◌, ◌≤◌, ◌↔◌, [], length, option_copied, IsTrue, IsOk, OnOk, OnErr};
ghost use Rattle.std.specs.Option.{option_map};
ghost use Rattle.dnp_line.specs.Lines.{quiet_line, front_of, is_broken, sent_on, delivered_on, repeated_on, lost_on, Damages, cleared_on, room_of, reserved_on};

use arrayvec::ArrayVec;
use dnp_linkframe::{MAX_UNIT, read_frame};
use std::alloc::{AllocError, Global};
use std::collections::VecDeque;
use std::marker::Model;

/// The losses in a row that break a line. They are fewer than the numbers that segments have, so that no segment is
/// taken for one of another round.
pub const BROKEN_LOSSES: u8 = 32;

/// A line that carries units of at most [`MAX_UNIT`] octets one way, in order.
///
/// A unit may come more than once, and may be lost. [`BROKEN_LOSSES`] losses in a row break the line: what is on it is
/// dropped, it gives nothing, and what is sent is dropped, until it is cleared.
#[derive(Debug, Drop)]
pub struct Line {
    /// The units on the line, the front first.
    units: VecDeque<ArrayVec<u8, MAX_UNIT>>,
    /// How many units there is memory for.
    capacity: usize,
    /// How many units were lost in a row.
    lost: u8,
}

impl Model for Line {
    ghost use Rattle.std.specs.Prelude.{map, ◌≡◌, ◌≤◌, length};
    ghost use Rattle.std.specs.VecDeque.{deque_capacity};
    ghost use Rattle.dnp_line.specs.Lines.{HeldLine, line_of};
    ghost use Rattle.dnp_line.specs.steps.Holding.{IsHeld};

    ghost Value = { HeldLine };

    ghost view = { λ l. record { state = line_of (map (λ u. u.items) l.units.items) l.lost; capacity = l.capacity } };

    ghost invariant = { λ l. IsHeld (length l.units.items) l.lost l.capacity (deque_capacity l.units) };
}

impl Line {
    /// A line with no units, and memory for none.
    pub fn new(alloc: Global) -> Line
        ensures { result ≡ record { state = quiet_line; capacity = 0 } }
    {
        Line {
            units: VecDeque::new(alloc),
            capacity: 0,
            lost: 0,
        }
    }

    /// Makes room for `n` more units. It fails only where there was too little, and then changes nothing.
    pub fn reserve(&mut self, n: usize) -> Result<(), AllocError>
        ensures ok { OnOk result (self.new ≡ reserved_on n self.old) }
        ensures room { OnOk result (n ≤ room_of self.new) }
        ensures err { OnErr result (self.new ≡ self.old) }
        ensures enough { n ≤ room_of self.old → IsOk result }
    {
        if n <= self.room() {
            return Ok(());
        }
        self.units.reserve(n)?;
        self.capacity = self.units.len() + n;
        Ok(())
    }

    /// How many units can be sent before memory is needed again. A send takes one, and what leaves the line gives it
    /// back.
    pub fn room(&self) -> usize
        ensures { result ≡ room_of self.now }
    {
        self.capacity - self.units.len()
    }

    /// The number of units on the line.
    pub fn len(&self) -> usize
        ensures { result ≡ length self.now.state.units }
    {
        self.units.len()
    }

    /// Whether no unit is on the line.
    pub fn is_empty(&self) -> bool
        ensures { IsTrue result ↔ (self.now.state.units ≡ []) }
    {
        self.units.is_empty()
    }

    /// Puts a unit of at most [`MAX_UNIT`] octets on the line, after those that are there. A broken line drops it.
    pub fn send(&mut self, unit: &[u8])
        requires room { 0 < room_of self.old }
        requires fits { length unit.now ≤ MAX_UNIT }
        ensures { self.new ≡ record self.old { state = sent_on unit.now self.old.state } }
    {
        if self.broken() {
            return;
        }
        self.units.push_back_reserved(copied(unit));
    }

    /// The unit that leaves the line next.
    pub fn front(&self) -> Option<&[u8]>
        ensures { option_copied result ≡ front_of self.now.state }
    {
        match self.units.front() {
            Some(unit) => Some(unit.as_slice()),
            None => None,
        }
    }

    /// Takes the front unit off and gives it. That ends the losses in a row.
    pub fn deliver(&mut self) -> Option<ArrayVec<u8, MAX_UNIT>>
        ensures unit { option_map (λ u. u.items) result ≡ front_of self.old.state }
        ensures line { self.new ≡ record self.old { state = delivered_on self.old.state } }
    {
        let unit = self.units.pop_front()?;
        self.lost = 0;
        Some(unit)
    }

    /// Gives the front unit and keeps it. That ends the losses in a row.
    pub fn repeat(&mut self) -> Option<ArrayVec<u8, MAX_UNIT>>
        ensures unit { option_map (λ u. u.items) result ≡ front_of self.old.state }
        ensures line { self.new ≡ record self.old { state = repeated_on self.old.state } }
    {
        let unit = copied(self.units.front()?);
        self.lost = 0;
        Some(unit)
    }

    /// Loses the front unit, if there is one.
    pub fn lose(&mut self)
        ensures { self.new ≡ record self.old { state = lost_on self.old.state } }
    {
        if self.units.pop_front().is_none() {
            return;
        }
        self.lost += 1;
        if self.lost >= BROKEN_LOSSES {
            self.units.clear();
        }
    }

    /// Damages the front unit, whose octets become these. Nobody gets it, so that is a loss. Octets that read as a link
    /// frame are no damage, and change nothing.
    pub fn damage(&mut self, octets: &[u8])
        ensures state { Damages octets.now self.old.state self.new.state }
        ensures capacity { self.new.capacity ≡ self.old.capacity }
    {
        if read_frame(octets).is_err() {
            self.lose();
        }
    }

    /// Drops what is on the line, and mends it where it is broken.
    pub fn clear(&mut self)
        ensures { self.new ≡ record self.old { state = cleared_on self.old.state } }
    {
        let Line { units, lost, .. } = self;
        units.clear();
        *lost = 0;
    }

    /// Whether [`BROKEN_LOSSES`] losses in a row broke the line. It has no units then.
    pub fn broken(&self) -> bool
        ensures broken { result ≡ is_broken self.now.state }
        ensures empty { IsTrue result → self.now.state.units ≡ [] }
    {
        self.lost >= BROKEN_LOSSES
    }
}

/// The octets as a unit.
fn copied(octets: &[u8]) -> ArrayVec<u8, MAX_UNIT>
    requires { length octets.now ≤ MAX_UNIT }
    ensures { result.items ≡ octets.now }
{
    let mut unit = ArrayVec::new();
    unit.try_extend_from_slice(octets).unwrap();
    unit
}
