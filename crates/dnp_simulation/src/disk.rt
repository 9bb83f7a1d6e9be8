//! A disk that fails by order.

ghost use Rattle.std.specs.Prelude.{◌≡◌, ◌≤◌, ◌&&◌, ◌+◌, not, false, true, MatchBool};
ghost use Rattle.sqlite_disk.specs.Disk.{MoreFaults};
ghost use Rattle.sqlite_disk.specs.Refusal.{is_no_room};
ghost use Rattle.sqlite_disk.specs.Tally.{both_counts};

use sqlite_disk::{Crash, Disk, Tally};
use std::io;

/// When a disk fails, and how.
#[derive(Clone, Copy)]
pub struct Order {
    /// How many calls of each file it passes before; all, if it is `u64::MAX`.
    pub calls: u64,
    /// Whether calls that read are counted too.
    pub counts_reads: bool,
    /// Whether it is full then, so that reads go on, and else it stops.
    pub is_full: bool,
}

impl Order {
    /// It does not fail.
    pub const NONE: Order = Order {
        calls: u64::MAX,
        counts_reads: false,
        is_full: false,
    };

    /// Says whether it fails.
    pub fn fails(&self) -> bool {
        self.calls < u64::MAX
    }

    /// Says whether a call is passed on, and counts it.
    fn passes(&mut self, is_write: bool) -> bool {
        if self.calls == 0 {
            return self.is_full && !is_write;
        }
        if self.fails() && (is_write || self.counts_reads) {
            self.calls = self.calls.saturating_sub(1);
        }
        true
    }
}

/// A file that passes on what is asked of it, until its disk fails.
#[derive(Drop)]
pub struct Failing<D: Disk> {
    /// The file.
    pub inner: D,
    /// When its disk fails.
    order: Order,
    /// How many calls it has refused.
    refused: u64,
    /// How many of them found the disk full.
    no_room: u64,
    /// Whether it has refused a sync.
    sync_refused: bool,
}

impl<D: Disk> Failing<D> {
    /// Makes a file of a disk that fails by this order.
    pub fn new(inner: D, order: Order) -> Failing<D> {
        Failing {
            inner,
            order,
            refused: 0,
            no_room: 0,
            sync_refused: false,
        }
    }
}

/// Refuses a call: the disk has stopped.
fn stopped(refused: &mut u64) -> io::Error
    ensures counted { MoreFaults refused.old refused.new × (refused.old ≤ refused.new) }
    ensures kind { is_no_room result ≡ false }
{
    *refused = refused.saturating_add(1);
    io::Error::other("the disk has stopped")
}

/// Refuses a call: the disk is full.
fn full(refused: &mut u64, no_room: &mut u64) -> io::Error
    ensures counted { MoreFaults refused.old refused.new × (refused.old ≤ refused.new) }
    ensures found { MoreFaults no_room.old no_room.new }
    ensures kind { is_no_room result ≡ true }
{
    *refused = refused.saturating_add(1);
    *no_room = no_room.saturating_add(1);
    io::Error::from(io::ErrorKind::StorageFull)
}

/// Refuses a call that writes: the disk is full, or has stopped.
fn refused(is_full: bool, refused: &mut u64, no_room: &mut u64) -> io::Error
    ensures counted { MoreFaults refused.old refused.new × (refused.old ≤ refused.new) }
    ensures found { MatchBool (is_no_room result) (MoreFaults no_room.old no_room.new) (no_room.new ≡ no_room.old) }
{
    if is_full {
        full(refused, no_room)
    } else {
        stopped(refused)
    }
}

impl<D: Disk> Disk for Failing<D> {
    ghost seen = { λ f. D.Disk.seen f.inner };

    ghost may_leave = { λ f. D.Disk.may_leave f.inner };

    ghost is_usable = { λ f. D.Disk.is_usable f.inner && not f.sync_refused };

    ghost faults = { λ f. D.Disk.faults f.inner + f.refused };

    ghost tally_of = { λ f. both_counts (D.Disk.tally_of f.inner) (record { caught = 0; refused = f.no_room }) };

    ghost is_rotten = { λ f. D.Disk.is_rotten f.inner };

    ghost key_of = { λ f. D.Disk.key_of f.inner };

    ghost is_clean = { λ f. D.Disk.is_clean f.inner };

    ghost is_fair = { λ f. D.Disk.is_fair f.inner };

    ghost fair_if_clean = { λ f. D.Disk.fair_if_clean f.inner };

    ghost seen_may_stay = { λ f. D.Disk.seen_may_stay f.inner };

    ghost is_mixing = { λ f. D.Disk.is_mixing f.inner };

    fn mixes(&self) -> bool {
        self.inner.mixes()
    }

    fn key(&self) -> u64 {
        self.inner.key()
    }

    fn tally(&self) -> Tally {
        self.inner.tally().plus(Tally {
            caught: 0,
            refused: self.no_room,
        })
    }

    fn may_be_used(&self) -> bool {
        self.inner.may_be_used() && !self.sync_refused
    }

    fn len(&mut self) -> io::Result<usize> {
        if !self.order.passes(false) {
            return Err(stopped(&mut self.refused));
        }
        self.inner.len()
    }

    fn read_at(&mut self, at: usize, buf: &mut [u8]) -> io::Result<()> {
        if !self.order.passes(false) {
            return Err(stopped(&mut self.refused));
        }
        self.inner.read_at(at, buf)
    }

    fn read_checked(&mut self, key: u64, want: u64, at: usize, buf: &mut [u8]) -> io::Result<()> {
        if !self.order.passes(false) {
            return Err(stopped(&mut self.refused));
        }
        self.inner.read_checked(key, want, at, buf)
    }

    fn write_at(&mut self, at: usize, bytes: &[u8]) -> io::Result<()> {
        if !self.order.passes(true) {
            let is_full = self.order.is_full;
            return Err(refused(is_full, &mut self.refused, &mut self.no_room));
        }
        self.inner.write_at(at, bytes)
    }

    fn set_len(&mut self, len: usize) -> io::Result<()> {
        if !self.order.passes(true) {
            let is_full = self.order.is_full;
            return Err(refused(is_full, &mut self.refused, &mut self.no_room));
        }
        self.inner.set_len(len)
    }

    fn sync(&mut self) -> io::Result<()> {
        if !self.order.passes(true) {
            self.sync_refused = true;
            let is_full = self.order.is_full;
            return Err(refused(is_full, &mut self.refused, &mut self.no_room));
        }
        self.inner.sync()
    }
}

/// The machine comes back with a disk that does not fail.
impl<D: Crash> Crash for Failing<D> {
    fn crash(&mut self) {
        self.inner.crash();
        self.order = Order::NONE;
        self.sync_refused = false;
    }
}
