//! What is kept for the answers of a station.

ghost use Rattle.std.specs.Prelude.{◌≡◌, ◌<◌, [], false, None, All, IfSome, IsSome, length, option_to_list};
ghost use Rattle.dnp_outstation.specs.Station.{actions_of, sent_of};
ghost use Rattle.dnp_streams.specs.streams.Masters.{closing, nothing_answered};
ghost use Rattle.dnp_streams.specs.streams.Outstations.{answer_by};
ghost use Rattle.dnp_streams.specs.streams.Stations.{answer_in, answer_of};

use crate::stream::station::Answer;
use dnp_master::{MasterActions, Outcome};
use dnp_outstation::{Actions, Fragment};
use std::alloc::Global;

/// An answer that a caller keeps for all the fragments that come to a station: each call that answers fills it, in place
/// of what was there, so that no room for fragments is cleared or moved.
pub struct KeptAnswer {
    /// The fragments to be sent, and whether the station has closed the connection. The rows that left an outstation's
    /// lanes, and a time that was written, are of no matter to the stream.
    pub actions: Actions,
    /// How many event rows were stored of what came: none by an outstation.
    pub taken: usize,
    /// How a task came out with what came, if one did: none does at an outstation.
    pub outcome: Option<Outcome>,
}

impl Drop for KeptAnswer {
    /// One call for whoever lets it go: its parts are looked at here alone.
    fn drop(self) {
        let KeptAnswer {
            actions: _,
            taken: _,
            outcome: _,
        } = self;
    }
}

/// Empties the place of a fragment. A place that is empty is not written.
fn empty(place: &mut Option<Fragment>)
    ensures { place.new ≡ None }
{
    if place.is_some() {
        *place = None;
    }
}

/// Puts octets into the place of a fragment, over what was there.
fn put(place: &mut Option<Fragment>, octets: &[u8; 2])
    ensures some { IsSome place.new }
    ensures value { IfSome place.new (λ fragment. fragment.items ≡ octets.now) }
    ensures whole { IfSome place.new (λ fragment. length fragment.items ≡ 2) }
{
    if place.is_none() {
        *place = Some(Fragment::new());
    }
    if let Some(fragment) = place {
        fragment.clear();
        fragment.try_extend_from_slice(octets).unwrap();
    }
}

/// Puts a confirm, where there is one, into the first of the places of fragments, and empties the others.
fn put_confirm(send: &mut [Option<Fragment>; 2], confirm: &Option<[u8; 2]>)
    ensures sent { sent_of send.new ≡ option_to_list confirm.now }
    ensures some { All (λ fragment. 0 < length fragment) (sent_of send.new) }
{
    empty(&mut send[1]);
    match confirm {
        Some(octets) => put(&mut send[0], octets),
        None => empty(&mut send[0]),
    }
}

impl KeptAnswer {
    /// Nothing is answered.
    pub fn new(alloc: Global) -> KeptAnswer
        ensures { answer_in result ≡ nothing_answered }
    {
        KeptAnswer {
            actions: Actions::none(alloc),
            taken: 0,
            outcome: None,
        }
    }

    /// This is answered, in place of what was there.
    pub(super) fn put(&mut self, answer: Answer)
        ensures { answer_in self.new ≡ answer_of answer }
    {
        let send = answer.send;
        self.actions.send = send;
        self.actions.close = answer.close;
        self.taken = answer.taken;
        self.outcome = answer.outcome;
    }

    /// What an outstation does is there: no rows were stored, and no task came out.
    pub(super) fn done(&mut self)
        ensures { answer_in self.new ≡ answer_by (actions_of self.old.actions) }
    {
        self.taken = 0;
        self.outcome = None;
    }

    /// What a master does is answered, in place of what was there. The rows that its sink dropped are of no matter to the
    /// stream.
    pub(super) fn take(&mut self, actions: &MasterActions)
        ensures answer { answer_in self.new ≡ record { send = option_to_list actions.now.send; close = false; taken = actions.now.taken; outcome = actions.now.outcome } }
        ensures some { All (λ fragment. 0 < length fragment) (answer_in self.new).send }
    {
        put_confirm(&mut self.actions.send, &actions.send);
        self.actions.close = false;
        self.taken = actions.taken;
        self.outcome = actions.outcome;
    }

    /// Nothing is sent, and the connection is closed, or it isn't, in place of what was there.
    pub(super) fn put_closing(&mut self, closes: bool)
        ensures { answer_in self.new ≡ closing closes }
    {
        empty(&mut self.actions.send[0]);
        empty(&mut self.actions.send[1]);
        self.actions.close = closes;
        self.done();
    }

    /// The same answer by value.
    pub(super) fn into_answer(mut self) -> Answer
        ensures { answer_of result ≡ answer_in self }
    {
        let first = self.actions.send[0].take();
        let second = self.actions.send[1].take();
        Answer {
            send: [first, second],
            close: self.actions.close,
            taken: self.taken,
            outcome: self.outcome,
        }
    }
}
