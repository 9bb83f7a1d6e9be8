//! A station on its link, with the order of their steps and their history.

ghost use Rattle.std.specs.Prelude.{◌≡◌, ◌<◌, ◌≤◌, ◌∷◌, ◌++◌, ℕ, List, [], IfNone, IfOk, IfSome, OnErr, OnOk, length, take};
ghost use Rattle.arrayvec.specs.ArrayVec.{ArrayVec as Octets};
ghost use Rattle.dnp_concentrator.specs.Relayed.{with_request};
ghost use Rattle.dnp_master.specs.declared.fault.AskFault.{AskFault as AskFaultValue};
ghost use Rattle.std.specs.Prelude.{Result as ResultValue};
ghost use Rattle.dnp_linkframe.specs.declared.frame.Frame.{Frame as FrameValue};
ghost use Rattle.dnp_streams.specs.links.Deeds.{Asked, Came, Changed, Joined, Opened, Relaid, Reply, Ticked, done_of, heard_of, relaid_of, told_of, ways};
ghost use Rattle.dnp_streams.specs.links.Links.{Feeds, HasRoom, Makes, after_sent, request_in};
ghost use Rattle.dnp_streams.specs.links.Orders.{has_closed, heard_closing, standing, turn_closing, unless_closed};
ghost use Rattle.dnp_streams.specs.links.Outputs.{Puts};
ghost use Rattle.dnp_streams.specs.streams.Dialogues.{sendable, sent_by};
ghost use Rattle.dnp_sessions.specs.Sessions.{KeepsLaw, new_session};
ghost use Rattle.dnp_streams.specs.declared.link.stage.Stage.TheVariants.{Idle, Owing, Unopened};

use crate::history::note;
use dnp_concentrator::RelayedStep;
use dnp_controls::BookFault;
use dnp_line::Port;
use dnp_master::{AskFault, Task};
use dnp_streams::{
    Asker, Change, Heard, Link, Living, Stage, Station, StationFault, StepRoom, Told,
};
use http_server::Log;
use std::alloc::{AllocError, Global};
use std::marker::Model;

/// A station on its link (IEEE Std 1815-2012, data link layer and application layer).
///
/// A loop round it opens the station, feeds the octets that it reads, and takes turns: a turn hears the next frame, or ends a
/// wait in which none came, and then time passes. Between two turns changes are made that are due. What waits to be sent is
/// written before each step, so that there is room for what the step sends. Moments are in milliseconds and never fall.
///
/// A session keeps its law whatever is done with it ([`Session::keeps_its_law`]). The law speaks of histories: with what the
/// session began, the octets that it received, those that were handed out, and the changes that were made. They take no memory.
#[derive(Drop)]
pub struct Session<S: Station> {
    /// The station.
    station: S,
    /// Its link.
    link: Link,
    /// How far the session has come.
    stage: Stage,
    /// The moment of the last step, in milliseconds.
    moment: u64,
    /// The station and the port with which it began.
    began: Log<S, Port>,
    /// The octets that it received.
    received: Log<u8, ()>,
    /// The octets that were handed out.
    handed: Log<u8, ()>,
    /// The changes that were made.
    changes: Log<Change, ()>,
}

impl<S: Station> Model for Session<S> {
    ghost use Rattle.dnp_streams.specs.links.Deeds.{ways};
    ghost use Rattle.dnp_streams.specs.links.Orders.{standing};
    ghost use Rattle.dnp_sessions.specs.Sessions.{KeepsLaw, SessionState, noted_in};

    ghost Value = { SessionState S };

    ghost view = { λ s. record {
      began = s.began.items;
      station = s.station;
      link = s.link;
      stands = standing s.stage s.moment;
      received = noted_in s.received.items;
      handed = noted_in s.handed.items;
      changes = noted_in s.changes.items;
    } };

    ghost invariant = { λ s. KeepsLaw (ways S.opens S.receives S.asking S.life) S.honest S.state (record {
      began = s.began.items;
      station = s.station;
      link = s.link;
      stands = standing s.stage s.moment;
      received = noted_in s.received.items;
      handed = noted_in s.handed.items;
      changes = noted_in s.changes.items;
    }) };
}

impl<S: Station> Session<S> {
    /// Makes a session of a station on a link through this port, on which nothing came, at the moment 0. Memory for frames
    /// comes from `alloc`.
    pub fn new(alloc: Global, station: S, port: Port) -> Session<S>
        ensures { result ≡ new_session station port }
    {
        let began = Log::new().and(&station, &port);
        Session {
            station,
            link: Link::new(alloc, port),
            stage: Stage::Unopened,
            moment: 0,
            began,
            received: Log::new(),
            handed: Log::new(),
            changes: Log::new(),
        }
    }

    /// Holds whatever was done with the session, and does nothing: what was handed out and what waits to be sent is what its
    /// steps sent, on the frames of what it received, from the station and the port with which it began; and its steps came in
    /// order ([`a_session_keeps_its_order`](crate::laws::a_session_keeps_its_order)).
    pub fn keeps_its_law(&self)
        ensures { KeepsLaw (ways S.opens S.receives S.asking S.life) S.honest S.state self.now }
    {
        let _ = &self.link;
    }

    /// Gives the station.
    pub fn station(&self) -> &S
        ensures { result.now ≡ self.now.station }
    {
        &self.station
    }

    /// Gives its link: the frames that wait, the fragment that came last, and the octets that wait to be sent.
    pub fn link(&self) -> &Link
        ensures { result.now ≡ self.now.link }
    {
        &self.link
    }

    /// Gives the stage, which says what step may follow.
    pub fn stage(&self) -> Stage
        ensures { result ≡ self.now.stands.stage }
    {
        self.stage
    }

    /// Gives the moment of the last step, in milliseconds.
    pub fn moment(&self) -> u64
        ensures { result ≡ self.now.stands.now }
    {
        self.moment
    }

    /// Takes octets that came, and finds the frames in them.
    ///
    /// # Errors
    /// Out of memory for the frames. Then the session is as it was, and the octets may be fed again.
    pub fn feed(&mut self, octets: &[u8]) -> Result<(), AllocError>
        ensures fed { OnOk result (Feeds self.old.link octets.now self.new.link) }
        ensures received { OnOk result (self.new ≡ record self.old { link = self.new.link; received = self.old.received ++ octets.now }) }
        ensures unchanged { OnErr result (self.new ≡ self.old) }
    {
        self.link.feed(octets)?;
        note(&mut self.received, octets);
        Ok(())
    }

    /// Drops the first `count` of the octets that wait, since they were sent. `count` is at most their number.
    pub fn sent(&mut self, count: usize)
        requires { count ≤ length self.old.link.pending }
        ensures { self.new ≡ record self.old { link = after_sent self.old.link count; handed = self.old.handed ++ take count self.old.link.pending } }
    {
        note(&mut self.handed, &self.link.output()[..count]);
        self.link.sent(count);
    }

    /// Opens the station: the first step.
    ///
    /// # Errors
    /// The station's refusal. Then it is as it was, and nothing is sent.
    pub fn opened(&mut self, room: &mut StepRoom, now: u64) -> Result<Told, StationFault>
        requires first { self.old.stands.stage ≡ Unopened }
        requires room { HasRoom self.old.link }
        requires later { self.old.stands.now ≤ now }
        ensures kept { S.kept self.new.station ≡ S.kept self.old.station }
        ensures held { S.honest self.new.station → S.honest self.old.station }
        ensures opened { (reply : Reply) × (result ≡ told_of reply) × Makes (ways S.opens S.receives S.asking S.life) (S.honest self.new.station)
            self.old.link (S.state self.old.station) (Opened now reply) self.new.link (S.state self.new.station) }
        ensures stands { self.new.stands ≡ standing (unless_closed (has_closed result) Idle) now }
        ensures else_same { self.new ≡ record self.old { station = self.new.station; link = self.new.link; stands = self.new.stands } }
    {
        self.moment = now;
        let answered = self.link.opened(room, &mut self.station, now);
        self.stage = Stage::Idle.after(&answered);
        answered
    }
}

impl<S: Station + Drop> Session<S> {
    /// Ends the session, and gives the station back. The caller hangs it up.
    pub fn into_station(self) -> S
        ensures { result ≡ self.station }
    {
        self.station
    }
}

impl<S: Living> Session<S> {
    /// The moment at which the station's next timer ends; none while no timer runs. A turn at that moment is in time.
    pub fn next_deadline(&self) -> Option<u64>
        ensures { result ≡ S.life.deadline (S.state self.now.station) }
    {
        self.station.next_deadline()
    }

    /// Hears the next frame.
    fn hear(&mut self, room: &mut StepRoom, now: u64) -> Heard
        requires idle { self.old.stands.stage ≡ Idle }
        requires frame { 0 < length self.old.link.waiting }
        requires room { HasRoom self.old.link }
        requires later { self.old.stands.now ≤ now }
        ensures kept { S.kept self.new.station ≡ S.kept self.old.station }
        ensures held { S.honest self.new.station → S.honest self.old.station }
        ensures heard { (frame : FrameValue) × (joined : Joined) × (result ≡ heard_of joined) × Makes (ways S.opens S.receives S.asking S.life) (S.honest self.new.station)
            self.old.link (S.state self.old.station) (Came now frame joined) self.new.link (S.state self.new.station) }
        ensures stands { self.new.stands ≡ standing (unless_closed (heard_closing result) Owing) now }
        ensures else_same { self.new ≡ record self.old { station = self.new.station; link = self.new.link; stands = self.new.stands } }
    {
        self.moment = now;
        let heard = self.link.hear(room, &mut self.station, now);
        self.stage = Stage::Owing.after_frame(&heard);
        heard
    }

    /// Ends a wait in which no frame came.
    fn end_wait(&mut self, now: u64)
        requires idle { self.old.stands.stage ≡ Idle }
        requires later { self.old.stands.now ≤ now }
        ensures { self.new ≡ record self.old { stands = standing Owing now } }
    {
        self.moment = now;
        self.stage = Stage::Owing;
    }

    /// Begins a turn: hears the next frame, or if none waits, ends a wait in which none came. Then time is to pass
    /// ([`Session::tick`]), unless the station has closed the connection.
    pub fn turn(&mut self, room: &mut StepRoom, now: u64) -> Option<Heard>
        requires idle { self.old.stands.stage ≡ Idle }
        requires room { HasRoom self.old.link }
        requires later { self.old.stands.now ≤ now }
        ensures kept { S.kept self.new.station ≡ S.kept self.old.station }
        ensures held { S.honest self.new.station → S.honest self.old.station }
        ensures heard { IfSome result (λ heard. (frame : FrameValue) × (joined : Joined) × (heard ≡ heard_of joined) × Makes (ways S.opens S.receives S.asking S.life) (S.honest self.new.station)
            self.old.link (S.state self.old.station) (Came now frame joined) self.new.link (S.state self.new.station)) }
        ensures waited { IfNone result ((self.old.link.waiting ≡ []) × (self.new.station ≡ self.old.station) × (self.new.link ≡ self.old.link)) }
        ensures stands { self.new.stands ≡ standing (unless_closed (turn_closing result) Owing) now }
        ensures else_same { self.new ≡ record self.old { station = self.new.station; link = self.new.link; stands = self.new.stands } }
    {
        if self.link.has_frame() {
            return Some(self.hear(room, now));
        }
        self.end_wait(now);
        None
    }

    /// Lets time pass at the station, at the moment of the frame or the wait before: the end of a turn.
    ///
    /// # Errors
    /// The station's refusal. Then it is as it was, and nothing is sent.
    pub fn tick(&mut self, room: &mut StepRoom) -> Result<Told, StationFault>
        requires owing { self.old.stands.stage ≡ Owing }
        requires room { HasRoom self.old.link }
        ensures kept { S.kept self.new.station ≡ S.kept self.old.station }
        ensures held { S.honest self.new.station → S.honest self.old.station }
        ensures ticked { (reply : Reply) × (result ≡ told_of reply) × Makes (ways S.opens S.receives S.asking S.life) (S.honest self.new.station)
            self.old.link (S.state self.old.station) (Ticked self.old.stands.now reply) self.new.link (S.state self.new.station) }
        ensures stands { self.new.stands ≡ standing (unless_closed (has_closed result) Idle) self.old.stands.now }
        ensures else_same { self.new ≡ record self.old { station = self.new.station; link = self.new.link; stands = self.new.stands } }
    {
        let answered = self.link.tick(room, &mut self.station, self.moment);
        self.stage = Stage::Idle.after(&answered);
        answered
    }

    /// Changes a reading of a point. It has to be due, and time is not to pass first.
    ///
    /// # Errors
    /// The station's refusal. Then it is as it was, and nothing is sent.
    pub fn change(
        &mut self,
        room: &mut StepRoom,
        now: u64,
        change: &Change,
    ) -> Result<Told, StationFault>
        requires idle { self.old.stands.stage ≡ Idle }
        requires room { HasRoom self.old.link }
        requires later { self.old.stands.now ≤ now }
        requires due { change.now.at ≤ now }
        ensures kept { S.kept self.new.station ≡ S.kept self.old.station }
        ensures held { S.honest self.new.station → S.honest self.old.station }
        ensures changed { (reply : Reply) × (result ≡ told_of reply) × Makes (ways S.opens S.receives S.asking S.life) (S.honest self.new.station)
            self.old.link (S.state self.old.station) (Changed now change.now reply) self.new.link (S.state self.new.station) }
        ensures stands { self.new.stands ≡ standing (unless_closed (has_closed result) Idle) now }
        ensures else_same { self.new ≡ record self.old {
          station = self.new.station;
          link = self.new.link;
          stands = self.new.stands;
          changes = self.old.changes ++ change.now ∷ [];
        } }
    {
        self.moment = now;
        self.changes = self.changes.and(change, &());
        let answered = self.link.change(room, &mut self.station, now, change);
        self.stage = Stage::Idle.after(&answered);
        answered
    }
}

impl<S: Asker> Session<S> {
    /// Asks a task. The room then shows the request.
    ///
    /// # Errors
    /// The station's refusal, as of a task while another one is under way. Then it is as it was, and nothing is sent.
    pub fn ask(&mut self, room: &mut StepRoom, now: u64, task: Task) -> Result<(), AskFault>
        requires idle { self.old.stands.stage ≡ Idle }
        requires room { HasRoom self.old.link }
        requires later { self.old.stands.now ≤ now }
        ensures kept { S.kept self.new.station ≡ S.kept self.old.station }
        ensures held { S.honest self.new.station → S.honest self.old.station }
        ensures asked { (reply : ResultValue (List ℕ) AskFaultValue) × (result ≡ done_of reply) × Makes (ways S.opens S.receives S.asking S.life) (S.honest self.new.station)
            self.old.link (S.state self.old.station) (Asked now task reply) self.new.link (S.state self.new.station) }
        ensures shown { OnOk result (Puts self.old.link.port (sendable (request_in room.new)) self.old.link.pending self.new.link.port self.new.link.pending) }
        ensures stands { self.new.stands ≡ standing Idle now }
        ensures else_same { self.new ≡ record self.old { station = self.new.station; link = self.new.link; stands = self.new.stands } }
    {
        self.moment = now;
        self.link.ask(room, &mut self.station, now, task)
    }

    /// Relays a control, or goes on with the one that is under way. The room then shows the request, if the step has one.
    ///
    /// # Errors
    /// The refusal of the book of controls. Then the station is as it was, and nothing is sent.
    pub fn relay(&mut self, room: &mut StepRoom, now: u64) -> Result<RelayedStep, BookFault>
        requires idle { self.old.stands.stage ≡ Idle }
        requires room { HasRoom self.old.link }
        requires later { self.old.stands.now ≤ now }
        ensures kept { S.kept self.new.station ≡ S.kept self.old.station }
        ensures held { S.honest self.new.station → S.honest self.old.station }
        ensures relayed { (request : Octets ℕ) × Makes (ways S.opens S.receives S.asking S.life) (S.honest self.new.station)
            self.old.link (S.state self.old.station) (Relaid now (relaid_of result request)) self.new.link (S.state self.new.station) }
        ensures shown { IfOk result (λ step. Puts self.old.link.port (sent_by (with_request step room.new.request)) self.old.link.pending self.new.link.port self.new.link.pending) }
        ensures stands { self.new.stands ≡ standing Idle now }
        ensures else_same { self.new ≡ record self.old { station = self.new.station; link = self.new.link; stands = self.new.stands } }
    {
        self.moment = now;
        self.link.relay(room, &mut self.station, now)
    }
}
