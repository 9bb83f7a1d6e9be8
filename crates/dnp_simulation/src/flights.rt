//! Octets on their way in one direction.

use crate::random::Random;
use std::alloc::{AllocError, Global};

/// Octets that were sent at once.
#[derive(Drop)]
struct Piece {
    /// When they come, in milliseconds.
    at: u64,
    /// The octets.
    octets: Vec<u8>,
}

/// Octets on their way in one direction, in the order in which they were sent.
#[derive(Drop)]
pub struct Flights {
    /// In order; none comes before the one before it.
    pieces: Vec<Piece>,
    /// How many octets are on their way.
    pub count: usize,
    /// When the last one comes, or came.
    pub last: u64,
}

impl Flights {
    /// Makes a direction with nothing on its way.
    pub fn new(alloc: Global) -> Flights {
        Flights {
            pieces: Vec::new(alloc),
            count: 0,
            last: 0,
        }
    }

    /// Gives when the next octets come, or the last moment of all.
    pub fn next_at(&self) -> u64 {
        match self.pieces.first() {
            Some(piece) => piece.at,
            None => u64::MAX,
        }
    }

    /// Sends these octets, to come at this moment, but not before those sent earlier.
    pub fn send(&mut self, alloc: Global, octets: &[u8], at: u64) -> Result<(), AllocError> {
        let mut piece = Piece {
            at: self.last.max(at),
            octets: Vec::new(alloc),
        };
        piece.octets.extend_from_slice(octets)?;
        self.last = piece.at;
        self.count = self.count.saturating_add(octets.len());
        self.pieces.push(piece)?;
        Ok(())
    }

    /// Takes the next octets, if they have come by this moment.
    pub fn take(&mut self, now: u64) -> Option<Vec<u8>> {
        if self.pieces.is_empty() || self.next_at() > now {
            return None;
        }
        let Piece { at: _, octets } = self.pieces.remove(0);
        self.count = self.count.saturating_sub(octets.len());
        Some(octets)
    }

    /// Loses the octets on their way, maybe except for a part of the first piece.
    pub fn lose(&mut self, random: &mut Random, keeps_part: bool) {
        let first = match self.pieces.first() {
            Some(piece) => piece.octets.len(),
            None => 0,
        };
        let count = if keeps_part {
            random.place(first.saturating_add(1))
        } else {
            0
        };
        self.pieces.truncate(count.min(1));
        self.count = 0;
        if let Some(piece) = self.pieces.get_mut(0) {
            piece.octets.truncate(count);
            self.count = piece.octets.len();
        }
    }

    /// Begins again with nothing on its way.
    pub fn begin(&mut self) {
        self.pieces.clear();
        self.count = 0;
        self.last = 0;
    }
}
