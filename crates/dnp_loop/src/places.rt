//! The table of places.

ghost use Rattle.std.specs.Prelude.{◌<◌, ◌≤◌, length, IfSome};
ghost use Rattle.dnp_loop.specs.Places.{OthersStay};

use crate::door::Arrival;
use crate::notice::{Notice, Notices};
use crate::place::{Place, System};
use crate::state::Action;
use dnp_nodes::{Node, Slot, Want, Wanted};
use std::net::Net;
use std::rt::Clock;

/// How many wants of a node are taken at once. A slot has one at most, and there are no more slots than this.
const MAX_WANTS: u16 = 512;

/// Whether two slots are the same.
fn is_same(left: Slot, right: Slot) -> bool {
    left == right
}

/// The index of the place of a slot, if the table has it.
pub(crate) fn index_of(places: &[Place], slot: Slot) -> Option<usize>
    ensures { IfSome result (λ index. index < length places.now) }
{
    for (index, place) in places.iter().enumerate() {
        if is_same(place.slot, slot) {
            return Some(index);
        }
    }
    None
}

/// The system has reported something of the place at this index. Every other place stays as it was.
pub(crate) fn note_at(places: &mut [Place], index: usize)
    ensures { OthersStay places.old places.new index }
{
    if index < places.len() {
        places[index].note();
    }
}

/// A turn of the place at this index, and the last moment of it. Every other place stays as it was.
pub(crate) fn turn_at<C: Clock, N: Node>(
    clock: &C,
    places: &mut [Place],
    node: &mut N,
    notices: &mut Notices,
    index: usize,
    now: u64,
) -> u64
    ensures others { OthersStay places.old places.new index }
    ensures later { now ≤ result }
{
    if index < places.len() {
        places[index].turn(clock, node, notices, now)
    } else {
        now
    }
}

/// A turn of each place, and the last moment of them.
pub(crate) fn turn_all<C: Clock, N: Node>(
    clock: &C,
    places: &mut [Place],
    node: &mut N,
    notices: &mut Notices,
    before: u64,
) -> u64
    ensures { before ≤ result }
{
    let mut now = before;
    for index in 0..places.len() {
        now = turn_at(clock, places, node, notices, index, now);
    }
    now
}

/// Whether something is to be done at once at one of the places.
pub(crate) fn is_busy<N: Node>(places: &[Place], node: &N) -> bool {
    for place in places {
        if place.next_action(node) != Action::Rest {
            return true;
        }
    }
    false
}

/// Does what the node wants at the place of the slot, if the table has it.
fn take_want<R: Net, N: Node>(
    system: &System<'_, R>,
    places: &mut [Place],
    node: &mut N,
    notices: &mut Notices,
    wanted: Wanted,
    now: u64,
) {
    if let Some(index) = index_of(places, wanted.slot)
        && let Some(place) = places.get_mut(index)
    {
        match wanted.want {
            Want::Connect => place.connect(system, node, notices, now),
            Want::Close(_) => place.close(),
        }
    }
}

/// Does what the node wants.
pub(crate) fn take_wants<R: Net, N: Node>(
    system: &System<'_, R>,
    places: &mut [Place],
    node: &mut N,
    notices: &mut Notices,
    now: u64,
) {
    for _ in 0..MAX_WANTS {
        match node.next_want() {
            Some(wanted) => take_want(system, places, node, notices, wanted, now),
            None => return,
        }
    }
}

/// A connection that came takes its place. The one before is read out first, so that nothing is lost that its peer has sent. Gives the last
/// moment of that.
pub(crate) fn seat<R: Clock, N: Node>(
    system: &System<'_, R>,
    places: &mut [Place],
    node: &mut N,
    notices: &mut Notices,
    arrival: Arrival,
    before: u64,
) -> u64
    ensures { before ≤ result }
{
    let mut now = before;
    let Arrival { slot, stream, peer } = arrival;
    if let Some(index) = index_of(places, slot) {
        note_at(places, index);
        now = turn_at(system.rt, places, node, notices, index, now);
        if let Some(place) = places.get_mut(index) {
            notices.tell(Notice::Accepted(slot, peer));
            place.accept(system.registry, node, notices, stream, now);
        }
    }
    now
}
