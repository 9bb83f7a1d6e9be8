//! How far a station that lives on connections has come: its moments, and the changes that are to come.

ghost use Rattle.std.specs.Prelude.{◌≡◌, ◌<◌, ◌≤◌, ◌+◌, IfSome};
ghost use Rattle.dnp_tcp.specs.Replays.{changes_left, first_at, replay_seen};

use crate::clock::moment;
use crate::replay::Replay;
use dnp_streams::{Change, StepRoom};
use std::alloc::Global;
use std::rt::Clock;

/// A read waits so long at most, in milliseconds: so often it is looked whether another master has come.
const READ_MS: u64 = 50;

/// How far a station that lives on connections has come.
#[derive(Drop)]
pub(crate) struct Course {
    /// The moment of its last step, in milliseconds.
    pub moment: u64,
    /// The changes that are to come.
    pub replay: Replay,
    /// Room for its steps on connections.
    pub room: StepRoom,
}

/// The earlier of a moment and of another one, if there is another.
pub(crate) fn earlier(moment: u64, other: Option<u64>) -> u64
    ensures no_later { result ≤ moment }
    ensures other { IfSome other (λ other. result ≤ other) }
{
    match other {
        Some(other) => moment.min(other),
        None => moment,
    }
}

impl Course {
    /// A station that has made no step, and these changes.
    pub(crate) fn new(alloc: Global, replay: Replay) -> Course {
        Course {
            moment: 0,
            replay,
            room: StepRoom::new(alloc),
        }
    }

    /// Moves on to the moment that the clock shows. Where the clock fails or goes back, the moment stays.
    pub(crate) fn go_on<C: Clock>(&mut self, clock: &C)
        ensures { self.old.moment ≤ self.new.moment }
    {
        self.moment = moment(clock, self.moment);
    }

    /// The next change, where it is due: it counts as made. Where all are made and the replay begins again, it does so here.
    pub(crate) fn next_due<C: Clock>(&mut self, clock: &C) -> Option<Change>
        ensures due { IfSome result (λ change. change.at ≤ self.old.moment) }
        ensures moment { self.new.moment ≡ self.old.moment }
    {
        self.replay.begin_again(clock);
        self.replay.next_due(self.moment)
    }

    /// How long a read may wait, in milliseconds, above 0: no longer than READ_MS, and not over the moment at which this timer ends or
    /// the next change is due.
    pub(crate) fn wait_ms(&self, timer: Option<u64>) -> u64
        ensures some { 0 < result }
        ensures short { result ≤ READ_MS }
        ensures timer { IfSome timer (λ ends. self.now.moment < ends → self.now.moment + result ≤ ends) }
        ensures change { IfSome (first_at (changes_left (replay_seen self.now.replay))) (λ due. self.now.moment < due → self.now.moment + result ≤ due) }
    {
        let latest = self.moment.saturating_add(READ_MS);
        let until = earlier(earlier(latest, timer), self.replay.next_at());
        until.saturating_sub(self.moment).max(1)
    }
}
