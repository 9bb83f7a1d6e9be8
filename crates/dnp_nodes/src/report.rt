//! What a node tells.

ghost use Rattle.std.specs.Prelude.{◌≡◌, ◌⊎◌, []};
ghost use Rattle.dnp_nodes.specs.Told.{IsCounted, IsTold, missed_in, refused_in, slot_of, told_in};

use crate::answers::Answer;
use crate::heads::Head;
use crate::slot::{Closing, Ends, Slot};
use dnp_appfragment::Iin;
use dnp_objects::Lane;
use dnp_schedule::TaskKind;
use std::alloc::Global;

/// What has happened at a place of a node.
#[derive(Clone, Copy, Debug, PartialEq, Eq)]
pub enum Report {
    /// A connection was made, after so many milliseconds without one and so many tries.
    Connected(Slot, u64, u32),
    /// It was lost, or did not come about.
    Lost(Slot, Closing),
    /// Its start is over.
    Started(Slot),
    /// The indications of the station at the other end changed, from the first to the second.
    Indications(Slot, Iin, Iin),
    /// Octets came. If that was told last, it is told once.
    Octets(Slot),
    /// A frame came from the station at the other end. If more than one came in a row, that is told once.
    Frame(Slot),
    /// A frame came that has other link addresses, of another station or for another one. It is as if the station here had the first one. If
    /// more than one came in a row, that is told once.
    Strange(Slot, Ends),
    /// A fragment came whole at an outstation, whatever this makes of it.
    Whole(Slot),
    /// A fragment was refused, of so many octets. They stand among those of [`Reports::refused`]; none do where there was no memory for
    /// them.
    Refused(Slot, usize),
    /// A response came that was not refused, and with it, perhaps, a task to its end. A master passes over one that it does not await.
    Response(Slot, Head, Answer),
    /// The response that is told next is an unsolicited one with the octets of the one before it on this connection.
    Repeated(Slot),
    /// Out of memory for a step, which was not made.
    NotMade(Slot),
    /// A request with this sequence number was sent.
    Request(Slot, u8),
    /// This was asked.
    Asked(Slot, TaskKind),
    /// So many event rows were stored.
    Stored(Slot, usize),
    /// For this centre the lane has begun to drop events. So many are dropped by now.
    DropsBegun(Slot, Lane, u64),
    /// That has ended, since no lane is full any more. So many were dropped.
    DropsEnded(Slot, Lane, u64),
    /// The control of this number is selected.
    Selecting(Slot, u64),
    /// The control of this number was spent, and is operated.
    Operating(Slot, u64),
    /// The control of this number was finished, with the status of this code.
    Finished(Slot, u64, u8),
}

impl Report {
    /// Gives the place.
    pub fn slot(&self) -> Slot
        ensures { result ≡ slot_of self.now }
    {
        match *self {
            Report::Connected(slot, _, _)
            | Report::Lost(slot, _)
            | Report::Started(slot)
            | Report::Indications(slot, _, _)
            | Report::Octets(slot)
            | Report::Frame(slot)
            | Report::Strange(slot, _)
            | Report::Whole(slot)
            | Report::Refused(slot, _)
            | Report::Response(slot, _, _)
            | Report::Repeated(slot)
            | Report::NotMade(slot)
            | Report::Request(slot, _)
            | Report::Asked(slot, _)
            | Report::Stored(slot, _)
            | Report::DropsBegun(slot, _, _)
            | Report::DropsEnded(slot, _, _)
            | Report::Selecting(slot, _)
            | Report::Operating(slot, _)
            | Report::Finished(slot, _, _) => slot,
        }
    }
}

/// How many reports are kept until they are taken.
pub const MAX_REPORTS: usize = 65_536;

/// What a node has told, in order, until it is taken.
#[derive(Drop)]
pub struct Reports {
    /// In order.
    list: Vec<Report>,
    /// How many more there were, for which there was no room or no memory.
    missed: u64,
    /// The octets of the fragments that were refused, one after the other.
    refused: Vec<u8>,
}

impl Reports {
    /// Nothing was told.
    pub fn new(alloc: Global) -> Reports
        ensures told { told_in result ≡ [] }
        ensures missed { missed_in result ≡ 0 }
        ensures refused { refused_in result ≡ [] }
    {
        Reports {
            list: Vec::new(alloc),
            missed: 0,
            refused: Vec::new(alloc),
        }
    }

    /// Tells this, or counts it if there is no room for it.
    pub(crate) fn tell(&mut self, report: Report)
        ensures told { IsTold report self.old self.new ⊎ IsCounted self.old self.new }
        ensures refused { refused_in self.new ≡ refused_in self.old }
    {
        if self.list.len() < MAX_REPORTS && self.list.push(report).is_ok() {
            return;
        }
        self.missed = self.missed.saturating_add(1);
    }

    /// Tells this, unless it was told last.
    pub(crate) fn tell_once(&mut self, report: Report) {
        if self.list.last() != Some(&report) {
            self.tell(report);
        }
    }

    /// Tells that a fragment with these octets was refused.
    pub(crate) fn tell_refused(&mut self, slot: Slot, octets: &[u8]) {
        let is_kept = self.list.len() < MAX_REPORTS
            && self.refused.extend_from_slice(octets).is_ok();
        let count = if is_kept { octets.len() } else { 0 };
        self.tell(Report::Refused(slot, count));
    }

    /// What was told, in order.
    pub fn as_slice(&self) -> &[Report]
        ensures { result.now ≡ told_in self.now }
    {
        &self.list
    }

    /// How many more there were, for which there was no room or no memory.
    pub fn missed(&self) -> u64
        ensures { result ≡ missed_in self.now }
    {
        self.missed
    }

    /// The octets of the fragments that were refused, one after the other, in the order in which that was told.
    pub fn refused(&self) -> &[u8]
        ensures { result.now ≡ refused_in self.now }
    {
        &self.refused
    }

    /// What was told was taken.
    pub fn clear(&mut self)
        ensures told { told_in self.new ≡ [] }
        ensures missed { missed_in self.new ≡ 0 }
        ensures refused { refused_in self.new ≡ [] }
    {
        self.list.clear();
        self.missed = 0;
        self.refused.clear();
    }
}
