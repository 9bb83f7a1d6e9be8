//! The links of a concentrator's node, each with the concentrator lent to it.

ghost use Rattle.std.specs.Prelude.{◌≡◌, ◌<◌, None, length, min, slice_get};
ghost use Rattle.dnp_streams.specs.streams.BelowLives.{below_lives};
ghost use Rattle.dnp_nodes.specs.Callees as callees;
ghost use Rattle.dnp_nodes.specs.Callers as callers;
ghost use Rattle.dnp_concentrator.specs.PerCentre.{at};
ghost use Rattle.dnp_nodes.specs.ConcentratorNodes.{AtAbove, AtBelow, ClosesAbove, ClosesBelow, FeedsAbove, FeedsBelow, HandsAbove, HandsBelow, IfDueAbove, IfDueBelow, IsBeside, IsDueAbove, IsDueBelow, IsDueNow, IsForgotten, OpensAbove, OpensBelow, PassesDown, PassesUp, Shows, TellsBelow, TellsNextAbove, ThenDown, TicksAbove, TicksBelow, above_in, below_in, concentrator_in, stored_at, wanted_by};
ghost use Rattle.dnp_nodes.specs.Turns.{GoesItsWay, IsHonest, seen_below, stores};

use crate::concentrator_node::{ConcentratorNode, lent, number_of};
use crate::slot::{Closing, Slot, Want, Wanted};
use dnp_controls::Book;
use dnp_eventbuf::{CENTRES, PairLanes};
use dnp_streams::Above;

impl<Q: PairLanes, B: Book> ConcentratorNode<Q, B> {
    /// A connection was made to a substation.
    pub(super) fn connected_below(&mut self, number: u8, now: u64)
        ensures call { OpensBelow (stores Q.honest Q.contents B.honest B.is_stopped B.contents) number now self.old self.new }
        ensures held { IsHonest (stores Q.honest Q.contents B.honest B.is_stopped B.contents) (concentrator_in self.new) → IsHonest (stores Q.honest Q.contents B.honest B.is_stopped B.contents) (concentrator_in self.old) }
    {
        if let Some(link) = self.below.get_mut(usize::from(number)) {
            lent::connected(link, &mut self.shared, &mut self.concentrator, number, now);
        }
    }

    /// Octets came from a substation.
    pub(super) fn received_below(&mut self, number: u8, now: u64, octets: &[u8])
        ensures call { FeedsBelow (stores Q.honest Q.contents B.honest B.is_stopped B.contents) number now octets.now self.old self.new }
        ensures held { IsHonest (stores Q.honest Q.contents B.honest B.is_stopped B.contents) (concentrator_in self.new) → IsHonest (stores Q.honest Q.contents B.honest B.is_stopped B.contents) (concentrator_in self.old) }
    {
        if let Some(link) = self.below.get_mut(usize::from(number)) {
            lent::received(
                link,
                &mut self.shared,
                &mut self.concentrator,
                number,
                now,
                octets,
            );
        }
    }

    /// Octets to a substation were taken.
    pub(super) fn sent_below(&mut self, number: u8, now: u64, count: usize)
        ensures call { HandsBelow (stores Q.honest Q.contents B.honest B.is_stopped B.contents) number now count self.old self.new }
        ensures held { IsHonest (stores Q.honest Q.contents B.honest B.is_stopped B.contents) (concentrator_in self.new) → IsHonest (stores Q.honest Q.contents B.honest B.is_stopped B.contents) (concentrator_in self.old) }
    {
        if let Some(link) = self.below.get_mut(usize::from(number)) {
            lent::sent(
                link,
                &mut self.shared,
                &mut self.concentrator,
                number,
                now,
                count,
            );
        }
    }

    /// The connection to a substation ended, or did not come about.
    pub(super) fn closed_below(&mut self, number: u8, now: u64, cause: Closing)
        ensures call { ClosesBelow (stores Q.honest Q.contents B.honest B.is_stopped B.contents) number now self.old self.new }
        ensures held { IsHonest (stores Q.honest Q.contents B.honest B.is_stopped B.contents) (concentrator_in self.new) → IsHonest (stores Q.honest Q.contents B.honest B.is_stopped B.contents) (concentrator_in self.old) }
    {
        if let Some(link) = self.below.get_mut(usize::from(number)) {
            lent::closed(
                link,
                &mut self.shared,
                &mut self.concentrator,
                number,
                now,
                cause,
            );
        }
    }

    /// Time has passed for the link to a substation, or a control may wait.
    pub(super) fn tick_below(&mut self, number: u8, now: u64)
        ensures call { TicksBelow (stores Q.honest Q.contents B.honest B.is_stopped B.contents) number now self.old self.new }
        ensures held { IsHonest (stores Q.honest Q.contents B.honest B.is_stopped B.contents) (concentrator_in self.new) → IsHonest (stores Q.honest Q.contents B.honest B.is_stopped B.contents) (concentrator_in self.old) }
    {
        if let Some(link) = self.below.get_mut(usize::from(number)) {
            lent::tick(link, &mut self.shared, &mut self.concentrator, number, now);
        }
    }

    /// A connection was made by a centre that has none.
    pub(super) fn connected_above(&mut self, centre: u8, now: u64)
        requires { centre < CENTRES }
        ensures call { OpensAbove (stores Q.honest Q.contents B.honest B.is_stopped B.contents) centre now self.old self.new }
        ensures beside { IsBeside (stores Q.honest Q.contents B.honest B.is_stopped B.contents) centre self.old self.new }
    {
        let mut station = Above::new(&mut self.concentrator, centre);
        let callee = self.above.at_mut(centre);
        callee.connected(&mut self.shared, &mut station, now);
    }

    /// Tells in which lanes events are dropped for a centre, if that has changed.
    fn look_at_drops(&mut self, centre: u8)
        requires { centre < CENTRES }
        ensures { Shows (concentrator_in self.old) (below_in self.old) (above_in self.old) self.new }
    {
        let drops = self.drops.at_mut(centre);
        drops.look(&mut self.shared.reports, self.concentrator.queue(), centre);
    }

    /// Octets came from a centre. Whether they may operate an output.
    fn feed_above(&mut self, centre: u8, now: u64, octets: &[u8]) -> bool
        requires { centre < CENTRES }
        ensures call { FeedsAbove (stores Q.honest Q.contents B.honest B.is_stopped B.contents) centre now octets.now result self.old self.new }
        ensures beside { IsBeside (stores Q.honest Q.contents B.honest B.is_stopped B.contents) centre self.old self.new }
    {
        let mut station = Above::new(&mut self.concentrator, centre);
        let callee = self.above.at_mut(centre);
        callee.received(&mut self.shared, &mut station, now, octets);
        callee.take_operated()
    }

    /// Octets came from a centre, and what the queue drops for it is told. Whether they may operate an output.
    pub(super) fn received_above(&mut self, centre: u8, now: u64, octets: &[u8]) -> bool
        requires { centre < CENTRES }
        ensures call { FeedsAbove (stores Q.honest Q.contents B.honest B.is_stopped B.contents) centre now octets.now result self.old self.new }
        ensures beside { IsBeside (stores Q.honest Q.contents B.honest B.is_stopped B.contents) centre self.old self.new }
    {
        let operated = self.feed_above(centre, now, octets);
        self.look_at_drops(centre);
        operated
    }

    /// Octets to a centre were taken. Whether octets of it that waited may operate an output.
    fn hand_above(&mut self, centre: u8, now: u64, count: usize) -> bool
        requires { centre < CENTRES }
        ensures call { HandsAbove (stores Q.honest Q.contents B.honest B.is_stopped B.contents) centre now count result self.old self.new }
        ensures beside { IsBeside (stores Q.honest Q.contents B.honest B.is_stopped B.contents) centre self.old self.new }
    {
        let mut station = Above::new(&mut self.concentrator, centre);
        let callee = self.above.at_mut(centre);
        callee.sent(&mut self.shared, &mut station, now, count);
        callee.take_operated()
    }

    /// Octets to a centre were taken, and what the queue drops for it is told. Whether octets of it that waited may operate an output.
    pub(super) fn sent_above(&mut self, centre: u8, now: u64, count: usize) -> bool
        requires { centre < CENTRES }
        ensures call { HandsAbove (stores Q.honest Q.contents B.honest B.is_stopped B.contents) centre now count result self.old self.new }
        ensures beside { IsBeside (stores Q.honest Q.contents B.honest B.is_stopped B.contents) centre self.old self.new }
    {
        let operated = self.hand_above(centre, now, count);
        self.look_at_drops(centre);
        operated
    }

    /// The connection of a centre ended.
    pub(super) fn closed_above(&mut self, centre: u8, now: u64, cause: Closing)
        requires { centre < CENTRES }
        ensures call { ClosesAbove (stores Q.honest Q.contents B.honest B.is_stopped B.contents) centre self.old self.new }
        ensures beside { IsBeside (stores Q.honest Q.contents B.honest B.is_stopped B.contents) centre self.old self.new }
    {
        let mut station = Above::new(&mut self.concentrator, centre);
        let callee = self.above.at_mut(centre);
        callee.closed(&mut self.shared, &mut station, now, cause);
    }

    /// Time has passed for the link of a centre, or rows came for it.
    fn call_above(&mut self, centre: u8, now: u64)
        requires { centre < CENTRES }
        ensures call { TicksAbove (stores Q.honest Q.contents B.honest B.is_stopped B.contents) centre now self.old self.new }
        ensures beside { IsBeside (stores Q.honest Q.contents B.honest B.is_stopped B.contents) centre self.old self.new }
    {
        let mut station = Above::new(&mut self.concentrator, centre);
        let callee = self.above.at_mut(centre);
        callee.tick(&mut self.shared, &mut station, now);
    }

    /// Time has passed for the link of a centre, or rows came for it, and what the queue drops for it is told.
    pub(super) fn tick_above(&mut self, centre: u8, now: u64)
        requires { centre < CENTRES }
        ensures call { TicksAbove (stores Q.honest Q.contents B.honest B.is_stopped B.contents) centre now self.old self.new }
        ensures beside { IsBeside (stores Q.honest Q.contents B.honest B.is_stopped B.contents) centre self.old self.new }
    {
        self.call_above(centre, now);
        self.look_at_drops(centre);
    }

    /// Whether event rows of a substation were stored since that was asked last.
    fn has_stored(&mut self, number: u8) -> bool
        ensures stored { result ≡ stored_at self.old number }
        ensures forgotten { IsForgotten number self.old self.new }
    {
        match self.below.get_mut(usize::from(number)) {
            Some(caller) => caller.take_stored(),
            None => false,
        }
    }

    /// Lets the centres have what was stored of a substation, without waiting for a timer.
    pub(super) fn pass_up(&mut self, number: u8, now: u64)
        ensures passes { PassesUp (stores Q.honest Q.contents B.honest B.is_stopped B.contents) number now self.old self.new }
        ensures way { GoesItsWay (stores Q.honest Q.contents B.honest B.is_stopped B.contents) (concentrator_in self.old) (concentrator_in self.new) }
    {
        if self.has_stored(number) {
            self.tick_above(0, now);
            self.tick_above(1, now);
        }
    }

    /// How many links to substations there are, of the first 255.
    pub(super) fn links(&self) -> u8
        ensures { result ≡ min (length (below_in self.now)) 255 }
    {
        number_of(self.below.len())
    }

    /// Lets the substations have a control that a centre has operated, without waiting for a timer.
    pub(super) fn pass_down(&mut self, now: u64)
        ensures passes { PassesDown (stores Q.honest Q.contents B.honest B.is_stopped B.contents) now self.old self.new }
        ensures way { GoesItsWay (stores Q.honest Q.contents B.honest B.is_stopped B.contents) (concentrator_in self.old) (concentrator_in self.new) }
    {
        for number in 0..self.links() {
            self.tell_below(number, now);
        }
    }

    /// Octets came from a centre, and the substations have what they operate.
    pub(super) fn take_from_above(&mut self, centre: u8, now: u64, octets: &[u8])
        requires { centre < CENTRES }
        ensures call { ThenDown (stores Q.honest Q.contents B.honest B.is_stopped B.contents) now (FeedsAbove (stores Q.honest Q.contents B.honest B.is_stopped B.contents) centre now octets.now) self.old self.new }
        ensures way { GoesItsWay (stores Q.honest Q.contents B.honest B.is_stopped B.contents) (concentrator_in self.old) (concentrator_in self.new) }
    {
        if self.received_above(centre, now, octets) {
            self.pass_down(now);
        }
    }

    /// Octets to a centre were taken, and the substations have what those that waited operate.
    pub(super) fn give_to_above(&mut self, centre: u8, now: u64, count: usize)
        requires { centre < CENTRES }
        ensures call { ThenDown (stores Q.honest Q.contents B.honest B.is_stopped B.contents) now (HandsAbove (stores Q.honest Q.contents B.honest B.is_stopped B.contents) centre now count) self.old self.new }
        ensures way { GoesItsWay (stores Q.honest Q.contents B.honest B.is_stopped B.contents) (concentrator_in self.old) (concentrator_in self.new) }
    {
        if self.sent_above(centre, now, count) {
            self.pass_down(now);
        }
    }

    /// A link below is told that a control may wait, and ticked.
    fn tell_below(&mut self, number: u8, now: u64)
        ensures call { TellsBelow (stores Q.honest Q.contents B.honest B.is_stopped B.contents) number now self.old self.new }
        ensures held { IsHonest (stores Q.honest Q.contents B.honest B.is_stopped B.contents) (concentrator_in self.new) → IsHonest (stores Q.honest Q.contents B.honest B.is_stopped B.contents) (concentrator_in self.old) }
    {
        if let Some(link) = self.below.get_mut(usize::from(number)) {
            link.look_for_control();
            lent::tick(link, &mut self.shared, &mut self.concentrator, number, now);
        }
    }

    /// When the timer of a substation's link ends, if it runs.
    fn timer_below(&self, number: u8) -> Option<u64>
        ensures { result ≡ below_lives.deadline (seen_below (stores Q.honest Q.contents B.honest B.is_stopped B.contents) (concentrator_in self.now) number) }
    {
        if usize::from(number) < self.concentrator.substations() {
            self.concentrator.next_deadline_below(number)
        } else {
            None
        }
    }

    /// When the link to a substation is to be called again, at the latest.
    pub(super) fn deadline_below(&self, number: u8) -> u64
        ensures { IsDueBelow (stores Q.honest Q.contents B.honest B.is_stopped B.contents) number self.now result }
    {
        let timer = self.timer_below(number);
        match self.below.get(usize::from(number)) {
            Some(caller) => caller.next_deadline(timer),
            None => u64::MAX,
        }
    }

    /// When the link of a centre is to be called again, at the latest.
    pub(super) fn deadline_above(&self, centre: u8) -> u64
        requires { centre < CENTRES }
        ensures { IsDueAbove (stores Q.honest Q.contents B.honest B.is_stopped B.contents) centre self.now result }
    {
        let timer = self.concentrator.next_deadline_above(centre);
        self.above.at(centre).next_deadline(timer)
    }

    /// Says whether the link to a substation is to be called by now.
    fn is_due_below(&self, number: u8, now: u64) -> bool
        ensures { IsDueNow now (IsDueBelow (stores Q.honest Q.contents B.honest B.is_stopped B.contents) number self.now) result }
    {
        let due = self.deadline_below(number);
        due <= now
    }

    /// Time has passed for the link to a substation, if it is due, and the centres have what was stored.
    pub(super) fn pass_below(&mut self, number: u8, now: u64)
        ensures due { IfDueBelow (stores Q.honest Q.contents B.honest B.is_stopped B.contents) number now self.old self.new }
        ensures way { GoesItsWay (stores Q.honest Q.contents B.honest B.is_stopped B.contents) (concentrator_in self.old) (concentrator_in self.new) }
    {
        if self.is_due_below(number, now) {
            self.tick_below(number, now);
            self.pass_up(number, now);
        }
    }

    /// Says whether the link of a centre is to be called by now.
    fn is_due_above(&self, centre: u8, now: u64) -> bool
        requires { centre < CENTRES }
        ensures { IsDueNow now (IsDueAbove (stores Q.honest Q.contents B.honest B.is_stopped B.contents) centre self.now) result }
    {
        let due = self.deadline_above(centre);
        due <= now
    }

    /// Time has passed for the link of a centre, if it is due.
    pub(super) fn pass_above(&mut self, centre: u8, now: u64)
        requires { centre < CENTRES }
        ensures due { IfDueAbove (stores Q.honest Q.contents B.honest B.is_stopped B.contents) centre now self.old self.new }
        ensures way { GoesItsWay (stores Q.honest Q.contents B.honest B.is_stopped B.contents) (concentrator_in self.old) (concentrator_in self.new) }
    {
        if self.is_due_above(centre, now) {
            self.tick_above(centre, now);
        }
    }

    /// What the link to a substation wants of its place, once.
    pub(super) fn take_below(&mut self, number: u8) -> Option<Want>
        ensures want { result ≡ wanted_by (slice_get (below_in self.old) number) }
        ensures taken { AtBelow number (λ before after. after ≡ callers.with_want before None) self.old self.new }
        ensures same { concentrator_in self.new ≡ concentrator_in self.old }
    {
        match self.below.get_mut(usize::from(number)) {
            Some(link) => link.take_want(),
            None => None,
        }
    }

    /// What the link of a centre wants of its place, once.
    pub(super) fn take_above(&mut self, centre: u8) -> Option<Want>
        requires { centre < CENTRES }
        ensures want { result ≡ callees.want_of (at centre (above_in self.old)) }
        ensures taken { AtAbove centre (λ before after. after ≡ callees.with_want before None) self.old self.new }
        ensures same { concentrator_in self.new ≡ concentrator_in self.old }
    {
        self.above.at_mut(centre).take_want()
    }

    /// What a centre's link wants next, the first centre's first.
    pub(super) fn next_want_above(&mut self) -> Option<Wanted>
        ensures next { TellsNextAbove result self.old self.new }
        ensures same { concentrator_in self.new ≡ concentrator_in self.old }
    {
        if let Some(want) = self.take_above(0) {
            let slot = Slot::Above(0);
            return Some(Wanted { slot, want });
        }
        if let Some(want) = self.take_above(1) {
            let slot = Slot::Above(1);
            return Some(Wanted { slot, want });
        }
        None
    }
}
