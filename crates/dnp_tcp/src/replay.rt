//! Changes of points that are made in order, once or again and again, by the clocks of the machine.

ghost use Rattle.std.specs.Prelude.{◌≡◌, OnErr, OnOk, is_some};
ghost use Rattle.dnp_tcp.specs.Replays.{changes_left, first_at, first_due, made_if, no_changes, repeated_after, replay_seen, time_at, with_change};

use crate::clock::{moment, utc};
use dnp_objects::MAX_TIME;
use dnp_streams::Change;
use std::alloc::{AllocError, Global};
use std::rt::Clock;

/// A moment by both clocks of the machine.
#[derive(Clone, Copy)]
pub struct Both {
    /// The moment, in milliseconds, by the clock of the session.
    pub moment: u64,
    /// The time, in milliseconds since 1970-01-01 00:00 UTC.
    pub time: u64,
}

impl Both {
    ghost use Rattle.std.specs.Prelude.{◌≡◌, ◌<◌};
    ghost use Rattle.dnp_tcp.specs.Replays.{time_at};

    /// Now. It has no clause: a clock promises nothing.
    pub fn now<R: Clock>(rt: &R) -> Both {
        Both {
            moment: moment(rt, 0),
            time: utc(rt),
        }
    }

    /// The time of another moment, both in milliseconds: since 1970-01-01 00:00 UTC, and below `MAX_TIME`, at which it stops.
    pub fn time_at(self, moment: u64) -> u64
        ensures below { result < MAX_TIME }
        ensures exact { result ≡ time_at self moment }
    {
        let since = moment.saturating_sub(self.moment);
        let until = self.moment.saturating_sub(moment);
        let time = self.time.saturating_sub(until).saturating_add(since);
        time.min(MAX_TIME - 1)
    }
}

/// Changes of points that are made in order, once or again and again.
#[derive(Drop)]
pub struct Replay {
    /// The changes.
    changes: Vec<Change>,
    /// Of each, whether its time is that at which it is due.
    is_dated: Vec<bool>,
    /// How many of them are made.
    made: usize,
    /// After how long it begins again, in milliseconds, if it does.
    again: Option<u64>,
}

impl Replay {
    /// No changes.
    pub fn new(alloc: Global) -> Replay
        ensures { replay_seen result ≡ no_changes }
    {
        Replay {
            changes: Vec::new(alloc),
            is_dated: Vec::new(alloc),
            made: 0,
            again: None,
        }
    }

    /// The changes that are left, until it begins again.
    pub(crate) fn left(&self) -> &[Change]
        ensures { result.now ≡ changes_left (replay_seen self.now) }
    {
        self.changes.as_slice().get(self.made..).unwrap_or(&[])
    }

    /// The moment at which the next change is due, in milliseconds, if one is left.
    pub(crate) fn next_at(&self) -> Option<u64>
        ensures { result ≡ first_at (changes_left (replay_seen self.now)) }
    {
        match self.left().first() {
            Some(change) => Some(change.at),
            None => None,
        }
    }

    /// Begins again where all changes are made: each is due as long after the last one of before as it was after the start.
    pub(crate) fn begin_again<R: Clock>(&mut self, rt: &R) {
        let Some(length) = self.again else {
            return;
        };
        if self.made < self.changes.len() {
            return;
        }
        let both = Both::now(rt);
        for (change, is_dated) in self.changes.iter_mut().zip(self.is_dated.iter()) {
            change.at = change.at.saturating_add(length);
            if *is_dated {
                change.reading.time = Some(both.time_at(change.at));
            }
        }
        self.made = 0;
    }

    /// The next change, where it is due at this moment: it counts as made.
    pub(crate) fn next_due(&mut self, now: u64) -> Option<Change>
        ensures due { result ≡ first_due now (changes_left (replay_seen self.old)) }
        ensures made { replay_seen self.new ≡ made_if (is_some result) (replay_seen self.old) }
    {
        let change = *self.left().first()?;
        if change.at > now {
            return None;
        }
        self.made = self.made.saturating_add(1);
        Some(change)
    }

    /// Adds a change after the others, than which it is due no earlier, and whether its time is that at which it is due. An error
    /// says that memory ran out, and changes nothing.
    pub fn add(&mut self, change: Change, is_dated: bool) -> Result<(), AllocError>
        ensures added { OnOk result (replay_seen self.new ≡ with_change change is_dated (replay_seen self.old)) }
        ensures unchanged { OnErr result (replay_seen self.new ≡ replay_seen self.old) }
    {
        self.is_dated.try_reserve(1)?;
        self.changes.push(change)?;
        let _added = self.is_dated.push(is_dated);
        Ok(())
    }

    /// It begins again once all changes are made, each so much later, in milliseconds, than before; not where that is at once.
    pub fn repeat(&mut self, length: u64)
        ensures { replay_seen self.new ≡ repeated_after length (replay_seen self.old) }
    {
        self.again = if length > 0 { Some(length) } else { None };
    }
}
