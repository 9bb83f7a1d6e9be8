//! Events that the full lanes of a queue drop: in which lane that begins, and how many they were once it has ended.

ghost use Rattle.std.specs.Prelude.{◌≡◌, ◌<◌};
ghost use Rattle.dnp_nodes.specs.Dropping as spec;

use crate::report::{Report, Reports};
use crate::slot::Slot;
use dnp_eventbuf::{CENTRES, PairLanes};
use dnp_objects::{LANES, Lane};

/// Whether a lane drops events.
#[derive(Clone, Copy, Debug, PartialEq, Eq)]
pub enum LaneDrops {
    /// It does not, and it dropped so many before.
    Calm(u64),
    /// It does, and it had dropped so many when that began.
    Since(u64),
}

impl LaneDrops {
    /// Gives what it is once the lane has dropped `lost` events, and a lane of the queue is full or none is.
    pub fn after(self, lost: u64, is_full: bool) -> LaneDrops
        ensures { result ≡ spec.after self lost is_full }
    {
        match self {
            LaneDrops::Calm(before) if before < lost && is_full => LaneDrops::Since(before),
            LaneDrops::Since(before) if is_full => LaneDrops::Since(before),
            _ => LaneDrops::Calm(lost),
        }
    }

    /// Gives what is told of the lane then. If events were dropped and no lane is full any more, that has begun and ended at once.
    pub fn report(self, slot: Slot, lane: Lane, lost: u64, is_full: bool) -> Option<Report>
        ensures { result ≡ spec.report self slot lane lost is_full }
    {
        match self {
            LaneDrops::Calm(before) if before < lost => {
                let count = lost - before;
                Some(if is_full {
                    Report::DropsBegun(slot, lane, count)
                } else {
                    Report::DropsEnded(slot, lane, count)
                })
            }
            LaneDrops::Since(before) if !is_full => {
                Some(Report::DropsEnded(slot, lane, lost.saturating_sub(before)))
            }
            _ => None,
        }
    }
}

/// Which lanes of a queue drop events for a centre, by their numbers.
#[derive(Clone, Copy, Debug, PartialEq, Eq)]
pub(crate) struct Drops {
    /// One for each lane.
    lanes: [LaneDrops; LANES],
}

impl Drops {
    /// No lane of the queue drops events for the centre, whatever was dropped before.
    pub(crate) fn new<Q: PairLanes>(queue: &mut Q, centre: u8) -> Drops
        requires { centre < CENTRES }
        ensures { queue.new ≡ queue.old }
    {
        let lost = lost_in(queue, centre);
        let mut lanes = [LaneDrops::Calm(0); LANES];
        for (lane, lost) in lanes.iter_mut().zip(lost.iter()) {
            *lane = LaneDrops::Calm(*lost);
        }
        Drops { lanes }
    }

    /// Tells which lanes have begun to drop events, and in which that has ended.
    pub(crate) fn look<Q: PairLanes>(&mut self, reports: &mut Reports, queue: &mut Q, centre: u8)
        requires { centre < CENTRES }
        ensures { queue.new ≡ queue.old }
    {
        let lost = lost_in(queue, centre);
        let is_full = queue.raised(centre);
        for (number, (drops, lost)) in self.lanes.iter_mut().zip(lost.iter()).enumerate() {
            if let Some(lane) = Lane::numbered(number) {
                if let Some(report) = drops.report(Slot::Above(centre), lane, *lost, is_full) {
                    reports.tell(report);
                }
            }
            *drops = drops.after(*lost, is_full);
        }
    }
}

/// How many events each lane of a queue has dropped for a centre.
fn lost_in<Q: PairLanes>(queue: &mut Q, centre: u8) -> [u64; LANES]
    requires { centre < CENTRES }
    ensures { queue.new ≡ queue.old }
{
    let mut all = [0; LANES];
    for (number, lost) in all.iter_mut().enumerate() {
        if let Some(lane) = Lane::numbered(number) {
            *lost = queue.lost(centre, lane);
        }
    }
    all
}
