//! Calls of a link to a substation, to which the concentrator is lent.

ghost use Rattle.dnp_nodes.specs.CallerCalls.{IsClosed, IsFed, IsHanded, IsOpened, IsTicked};
ghost use Rattle.dnp_nodes.specs.Turns.{IsHonest, below_ways, seen_below, stores};
ghost use Rattle.dnp_streams.specs.streams.Concentrators.{below_hung_up};

use crate::caller::Caller;
use crate::shared::Shared;
use crate::slot::Closing;
use dnp_concentrator::Concentrator;
use dnp_controls::Book;
use dnp_eventbuf::PairLanes;
use dnp_streams::Below;

/// A connection was made.
pub(super) fn connected<Q: PairLanes, B: Book>(
    link: &mut Caller,
    shared: &mut Shared,
    concentrator: &mut Concentrator<Q, B>,
    number: u8,
    now: u64,
)
    ensures call { IsOpened below_ways below_hung_up (IsHonest (stores Q.honest Q.contents B.honest B.is_stopped B.contents) concentrator.new) now
        link.old (seen_below (stores Q.honest Q.contents B.honest B.is_stopped B.contents) concentrator.old number)
        link.new (seen_below (stores Q.honest Q.contents B.honest B.is_stopped B.contents) concentrator.new number) }
    ensures held { IsHonest (stores Q.honest Q.contents B.honest B.is_stopped B.contents) concentrator.new → IsHonest (stores Q.honest Q.contents B.honest B.is_stopped B.contents) concentrator.old }
{
    let mut station = Below::new(concentrator, number);
    link.connected(shared, &mut station, now);
}

/// Octets came.
pub(super) fn received<Q: PairLanes, B: Book>(
    link: &mut Caller,
    shared: &mut Shared,
    concentrator: &mut Concentrator<Q, B>,
    number: u8,
    now: u64,
    octets: &[u8],
)
    ensures call { IsFed below_ways below_hung_up (IsHonest (stores Q.honest Q.contents B.honest B.is_stopped B.contents) concentrator.new) now octets.now
        link.old (seen_below (stores Q.honest Q.contents B.honest B.is_stopped B.contents) concentrator.old number)
        link.new (seen_below (stores Q.honest Q.contents B.honest B.is_stopped B.contents) concentrator.new number) }
    ensures held { IsHonest (stores Q.honest Q.contents B.honest B.is_stopped B.contents) concentrator.new → IsHonest (stores Q.honest Q.contents B.honest B.is_stopped B.contents) concentrator.old }
{
    let mut station = Below::new(concentrator, number);
    link.received(shared, &mut station, now, octets);
}

/// Octets were taken.
pub(super) fn sent<Q: PairLanes, B: Book>(
    link: &mut Caller,
    shared: &mut Shared,
    concentrator: &mut Concentrator<Q, B>,
    number: u8,
    now: u64,
    count: usize,
)
    ensures call { IsHanded below_ways below_hung_up (IsHonest (stores Q.honest Q.contents B.honest B.is_stopped B.contents) concentrator.new) now count
        link.old (seen_below (stores Q.honest Q.contents B.honest B.is_stopped B.contents) concentrator.old number)
        link.new (seen_below (stores Q.honest Q.contents B.honest B.is_stopped B.contents) concentrator.new number) }
    ensures held { IsHonest (stores Q.honest Q.contents B.honest B.is_stopped B.contents) concentrator.new → IsHonest (stores Q.honest Q.contents B.honest B.is_stopped B.contents) concentrator.old }
{
    let mut station = Below::new(concentrator, number);
    link.sent(shared, &mut station, now, count);
}

/// The connection ended, or did not come about.
pub(super) fn closed<Q: PairLanes, B: Book>(
    link: &mut Caller,
    shared: &mut Shared,
    concentrator: &mut Concentrator<Q, B>,
    number: u8,
    now: u64,
    cause: Closing,
)
    ensures call { IsClosed below_hung_up (IsHonest (stores Q.honest Q.contents B.honest B.is_stopped B.contents) concentrator.new) now
        link.old (seen_below (stores Q.honest Q.contents B.honest B.is_stopped B.contents) concentrator.old number)
        link.new (seen_below (stores Q.honest Q.contents B.honest B.is_stopped B.contents) concentrator.new number) }
    ensures held { IsHonest (stores Q.honest Q.contents B.honest B.is_stopped B.contents) concentrator.new → IsHonest (stores Q.honest Q.contents B.honest B.is_stopped B.contents) concentrator.old }
{
    let mut station = Below::new(concentrator, number);
    link.closed(shared, &mut station, now, cause);
}

/// Time has passed, or a control may wait.
pub(super) fn tick<Q: PairLanes, B: Book>(
    link: &mut Caller,
    shared: &mut Shared,
    concentrator: &mut Concentrator<Q, B>,
    number: u8,
    now: u64,
)
    ensures call { IsTicked below_ways below_hung_up (IsHonest (stores Q.honest Q.contents B.honest B.is_stopped B.contents) concentrator.new) now
        link.old (seen_below (stores Q.honest Q.contents B.honest B.is_stopped B.contents) concentrator.old number)
        link.new (seen_below (stores Q.honest Q.contents B.honest B.is_stopped B.contents) concentrator.new number) }
    ensures held { IsHonest (stores Q.honest Q.contents B.honest B.is_stopped B.contents) concentrator.new → IsHonest (stores Q.honest Q.contents B.honest B.is_stopped B.contents) concentrator.old }
{
    let mut station = Below::new(concentrator, number);
    link.tick(shared, &mut station, now);
}
