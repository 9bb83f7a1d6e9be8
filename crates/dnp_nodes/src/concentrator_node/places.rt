//! A concentrator's node, as a loop runs it.

ghost use Rattle.std.specs.Prelude.{◌≡◌, [], length, min};
ghost use Rattle.dnp_nodes.specs.ConcentratorNodes.{AreDueFrom, Closes, Connects, Receives, Sends, TellsNext, above_in, below_in, concentrator_in, output_at, reports_in};
ghost use Rattle.dnp_nodes.specs.Turns.{GoesItsWay, stores};
ghost use Rattle.dnp_nodes.specs.Told.{missed_in, refused_in, told_in};

use crate::concentrator_node::{ConcentratorNode, number_of};
use crate::node::Node;
use crate::report::Report;
use crate::slot::{Closing, Slot, Wanted};
use dnp_controls::Book;
use dnp_eventbuf::{CENTRES, PairLanes};

impl<Q: PairLanes, B: Book> Node for ConcentratorNode<Q, B> {
    fn connected(&mut self, slot: Slot, now: u64)
        ensures call { Connects (stores Q.honest Q.contents B.honest B.is_stopped B.contents) slot now self.old self.new }
        ensures way { GoesItsWay (stores Q.honest Q.contents B.honest B.is_stopped B.contents) (concentrator_in self.old) (concentrator_in self.new) }
    {
        match slot {
            Slot::Below(number) => self.connected_below(number, now),
            Slot::Above(centre) => {
                if centre < CENTRES {
                    self.closed_above(centre, now, Closing::Replaced);
                    self.connected_above(centre, now);
                }
            }
        }
    }

    fn received(&mut self, slot: Slot, now: u64, octets: &[u8])
        ensures call { Receives (stores Q.honest Q.contents B.honest B.is_stopped B.contents) slot now octets.now self.old self.new }
        ensures way { GoesItsWay (stores Q.honest Q.contents B.honest B.is_stopped B.contents) (concentrator_in self.old) (concentrator_in self.new) }
    {
        match slot {
            Slot::Below(number) => {
                self.received_below(number, now, octets);
                self.pass_up(number, now);
            }
            Slot::Above(centre) => {
                if centre < CENTRES {
                    self.take_from_above(centre, now, octets);
                }
            }
        }
    }

    fn sent(&mut self, slot: Slot, now: u64, count: usize)
        ensures call { Sends (stores Q.honest Q.contents B.honest B.is_stopped B.contents) slot now count self.old self.new }
        ensures way { GoesItsWay (stores Q.honest Q.contents B.honest B.is_stopped B.contents) (concentrator_in self.old) (concentrator_in self.new) }
    {
        match slot {
            Slot::Below(number) => {
                self.sent_below(number, now, count);
                self.pass_up(number, now);
            }
            Slot::Above(centre) => {
                if centre < CENTRES {
                    self.give_to_above(centre, now, count);
                }
            }
        }
    }

    fn closed(&mut self, slot: Slot, now: u64, cause: Closing)
        ensures call { Closes (stores Q.honest Q.contents B.honest B.is_stopped B.contents) slot now self.old self.new }
        ensures way { GoesItsWay (stores Q.honest Q.contents B.honest B.is_stopped B.contents) (concentrator_in self.old) (concentrator_in self.new) }
    {
        match slot {
            Slot::Below(number) => self.closed_below(number, now, cause),
            Slot::Above(centre) => {
                if centre < CENTRES {
                    self.closed_above(centre, now, cause);
                }
            }
        }
    }

    fn tick(&mut self, now: u64)
        ensures { GoesItsWay (stores Q.honest Q.contents B.honest B.is_stopped B.contents) (concentrator_in self.old) (concentrator_in self.new) }
    {
        for number in 0..self.links() {
            self.pass_below(number, now);
        }
        self.pass_above(0, now);
        self.pass_above(1, now);
    }

    fn next_deadline(&self) -> u64
        ensures { AreDueFrom (stores Q.honest Q.contents B.honest B.is_stopped B.contents) self.now (min (length (below_in self.now)) 255) result }
    {
        let mut next = self.deadline_above(0).min(self.deadline_above(1));
        for number in 0..self.links() {
            next = next.min(self.deadline_below(number));
        }
        next
    }

    fn next_want(&mut self) -> Option<Wanted>
        ensures next { TellsNext result self.old self.new }
        ensures same { concentrator_in self.new ≡ concentrator_in self.old }
    {
        for number in 0..self.links() {
            if let Some(want) = self.take_below(number) {
                let slot = Slot::Below(number);
                return Some(Wanted { slot, want });
            }
        }
        self.next_want_above()
    }

    fn output(&self, slot: Slot) -> &[u8]
        ensures { result.now ≡ output_at self.now slot }
    {
        match slot {
            Slot::Below(number) => match self.below.get(usize::from(number)) {
                Some(caller) => caller.output(),
                None => &[],
            },
            Slot::Above(centre) => {
                if centre < CENTRES {
                    self.above.at(centre).output()
                } else {
                    &[]
                }
            }
        }
    }

    fn reports(&self) -> &[Report]
        ensures { result.now ≡ told_in (reports_in self.now) }
    {
        self.shared.reports.as_slice()
    }

    fn missed(&self) -> u64
        ensures { result ≡ missed_in (reports_in self.now) }
    {
        self.shared.reports.missed()
    }

    fn refused(&self) -> &[u8]
        ensures { result.now ≡ refused_in (reports_in self.now) }
    {
        self.shared.reports.refused()
    }

    fn clear_reports(&mut self)
        ensures told { told_in (reports_in self.new) ≡ [] }
        ensures missed { missed_in (reports_in self.new) ≡ 0 }
        ensures refused { refused_in (reports_in self.new) ≡ [] }
        ensures same { (concentrator_in self.new ≡ concentrator_in self.old) × (below_in self.new ≡ below_in self.old) × (above_in self.new ≡ above_in self.old) }
    {
        self.shared.reports.clear();
    }
}
