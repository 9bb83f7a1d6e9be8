//! The outstation of a concentrator towards a centre, on a stream.

ghost use Rattle.std.specs.Prelude.{◌≡◌, ◌≢◌, ◌<◌, All, Err, IfErr, IfOk, IsTrue, OnErr, length};
ghost use Rattle.dnp_concentrator.specs.Concentrator.{IsBookWell, queue_of};
ghost use Rattle.dnp_concentrator.specs.declared.cause.Cause.TheVariants as cause;
ghost use Rattle.dnp_streams.specs.declared.stream.station.StationFault.TheVariants as told;
ghost use Rattle.dnp_streams.specs.streams.Concentrators.{OpensAbove, above_seen, seen_at};
ghost use Rattle.dnp_streams.specs.streams.Outstations.{RefusesOpening};
ghost use Rattle.dnp_streams.specs.streams.Stations.{answer_of};
ghost use Rattle.dnp_streams.specs.streams.Lent.{centre_of, kept_above, lent_above};

use crate::stream::kept::KeptAnswer;
use crate::stream::outstation::{answer_with, cause_of};
use crate::stream::station::{Answer, Station, StationFault};
use dnp_concentrator::Concentrator;
use dnp_controls::Book;
use dnp_eventbuf::{CENTRES, PairLanes};
use dnp_outstation::{Actions, Fault};
use std::alloc::Global;

/// The outstation of a lent concentrator towards one of its centres.
#[derive(Drop)]
pub struct Above<'a, Q, B> {
    /// The concentrator.
    pub(super) concentrator: &'a mut Concentrator<Q, B>,
    /// Whether the centre is the second.
    pub(super) is_second: bool,
}

impl<'a, Q, B> Above<'a, Q, B> {
    /// The outstation of the concentrator towards the centre with this number.
    pub fn new(concentrator: &'a mut Concentrator<Q, B>, centre: u8) -> Self
        requires { centre < CENTRES }
        ensures lent { (lent_above result).now ≡ concentrator.old }
        ensures same_reference { (lent_above result).ghost_name ≡ concentrator.entry.ghost_name }
        ensures centre { centre_of result ≡ centre }
    {
        Above {
            concentrator,
            is_second: centre == 1,
        }
    }

    /// The centre's number.
    pub(super) fn centre(&self) -> u8
        ensures number { result ≡ centre_of self.now }
        ensures there { result < CENTRES }
    {
        u8::from(self.is_second)
    }
}

impl<'a, Q: PairLanes, B: Book> Station for Above<'a, Q, B> {
    ghost use Rattle.dnp_concentrator.specs.Concentrator.{IsBookWell, queue_of};
    ghost use Rattle.dnp_streams.specs.streams.Dialogues.{asks_nothing};
    ghost use Rattle.dnp_streams.specs.streams.Concentrators.{AboveSeen, above_hung_up, above_opens, above_receives, above_seen};
    ghost use Rattle.dnp_streams.specs.streams.Lent.{KeptAbove, centre_of, kept_above, lent_above};
    ghost use Rattle.dnp_streams.specs.streams.AboveLives.{above_lives};

    ghost State = { AboveSeen };

    ghost state = { λ s. above_seen Q.contents B.contents (lent_above s).now (centre_of s) };

    ghost Kept = { KeptAbove };

    ghost kept = { λ s. kept_above s };

    ghost honest = { λ s. Q.honest (queue_of (lent_above s).now) × IsBookWell B.honest B.is_stopped (lent_above s).now };

    ghost opens = { above_opens };

    ghost receives = { above_receives };

    ghost asking = { asks_nothing };

    ghost life = { above_lives };

    ghost hung_up_of = { above_hung_up };

    fn opened(&mut self, alloc: Global, now: u64) -> Result<Answer, StationFault>
        ensures kept { kept_above self.new ≡ kept_above self.old }
        ensures held { (Q.honest (queue_of (lent_above self.new).now) × IsBookWell B.honest B.is_stopped (lent_above self.new).now)
            → (Q.honest (queue_of (lent_above self.old).now) × IsBookWell B.honest B.is_stopped (lent_above self.old).now) }
        ensures answered { (Q.honest (queue_of (lent_above self.new).now) × IsBookWell B.honest B.is_stopped (lent_above self.new).now)
            → IfOk result (λ answer. OpensAbove (above_seen Q.contents B.contents (lent_above self.old).now (centre_of self.old)) now (answer_of answer)
            (above_seen Q.contents B.contents (lent_above self.new).now (centre_of self.new))) }
        ensures refused { (Q.honest (queue_of (lent_above self.new).now) × IsBookWell B.honest B.is_stopped (lent_above self.new).now)
            → IfErr result (λ fault. RefusesOpening (seen_at (above_seen Q.contents B.contents (lent_above self.old).now (centre_of self.old)) now) now fault) }
        ensures unchanged { (Q.honest (queue_of (lent_above self.new).now) × IsBookWell B.honest B.is_stopped (lent_above self.new).now)
            → OnErr result (above_seen Q.contents B.contents (lent_above self.new).now (centre_of self.new)
            ≡ above_seen Q.contents B.contents (lent_above self.old).now (centre_of self.old)) }
        ensures some { IfOk result (λ answer. All (λ fragment. 0 < length fragment) (answer_of answer).send) }
        // It says Device exactly where the queue has answered it.
        ensures stopped { result ≡ Err (told.Cause cause.Device) → IsTrue (Q.is_stopped (queue_of (lent_above self.new).now)) }
        ensures runs_on { result ≢ Err (told.Cause cause.Device)
            → Q.is_stopped (queue_of (lent_above self.new).now) ≡ Q.is_stopped (queue_of (lent_above self.old).now) }
    {
        let mut actions = Actions::none(alloc);
        let centre = self.centre();
        match self
            .concentrator
            .opened_above(centre, &mut actions, alloc, now)
        {
            Ok(()) => Ok(answer_with(actions)),
            Err(fault) => Err(cause_of(Fault::from(fault))),
        }
    }

    fn receive_into(
        &mut self,
        answer: &mut KeptAnswer,
        alloc: Global,
        now: u64,
        octets: &[u8],
    ) -> Result<(), StationFault> {
        let centre = self.centre();
        match self
            .concentrator
            .receive_above(centre, &mut answer.actions, alloc, now, octets)
        {
            Ok(()) => {
                answer.done();
                Ok(())
            }
            Err(fault) => Err(cause_of(Fault::from(fault))),
        }
    }

    fn receive(&mut self, alloc: Global, now: u64, octets: &[u8]) -> Result<Answer, StationFault> {
        let mut answer = KeptAnswer::new(alloc);
        self.receive_into(&mut answer, alloc, now, octets)?;
        Ok(answer.into_answer())
    }

    fn hung_up(&mut self) {
        let centre = self.centre();
        self.concentrator.hung_up_above(centre);
    }
}
