//! A station's end of a link, without reading or writing: frames are found in octets that came, and heard one by one, and
//! what the station answers waits to be sent.

ghost use Rattle.std.specs.Prelude.{◌≡◌, ℕ, ◌+◌, ◌<◌, ◌≤◌, ◌↔◌, ◌∷◌, [], drop, List, length, IfNone, IfOk, IfSome, IsTrue, OnErr, OnOk};
ghost use Rattle.dnp_concentrator.specs.Relayed.{with_request};
ghost use Rattle.dnp_line.specs.Ports.{IsShown};
ghost use Rattle.dnp_linkframe.specs.declared.frame.Frame.{Frame as FrameValue};
ghost use Rattle.dnp_streams.specs.links.Deeds.{Asked, Came, Changed, Joined, Opened, Relaid, Reply, Ticked, done_of, heard_of, relaid_of, told_of, ways};
ghost use Rattle.dnp_streams.specs.links.Links.{Feeds, HasRoom, Makes, after_sent, new_link, request_in};
ghost use Rattle.dnp_streams.specs.links.Outputs.{Puts};
ghost use Rattle.dnp_streams.specs.streams.Dialogues.{sendable, sent_by};
ghost use Rattle.arrayvec.specs.ArrayVec.{ArrayVec as Octets};
ghost use Rattle.std.specs.Prelude.{Result as ResultValue};
ghost use Rattle.dnp_master.specs.declared.fault.AskFault.{AskFault as AskFaultValue};

mod answering;
mod asking;
mod outgoing;
mod room;
mod stage;

use crate::link::answering::{hear, make, open, pass_time};
use crate::link::asking::{ask, relay};
use crate::link::outgoing::Output;
use crate::stream::{Asker, Change, Living, Station, StationFault};
pub use answering::{Heard, Told};
use arrayvec::ArrayVec;
use dnp_concentrator::RelayedStep;
use dnp_controls::BookFault;
use dnp_line::Port;
use dnp_linkframe::{Frame, FrameReader};
use dnp_master::{AskFault, Task};
use dnp_transport::MAX_FRAGMENT;
pub use outgoing::{MAX_OUTPUT, MAX_STEP};
pub use room::StepRoom;
pub use stage::Stage;
use std::alloc::{AllocError, Global};
use std::marker::Model;

/// A station's end of a link, without reading or writing (IEEE Std 1815-2012, data link layer and transport function).
///
/// A loop round it reads octets and feeds them, has the station hear the frames that wait, lets time pass, and writes
/// the output. The station is lent to each step, and so is the room for its answers: one call is one step, at a moment
/// in milliseconds. A step asks for room in the output first ([`Link::has_room`]): there always is some once all that
/// waited was sent. A refusal of the station comes out with its cause; the station is then as it was, and of a frame the
/// link layer's reply is still sent.
#[derive(Drop)]
pub struct Link {
    /// The station's port.
    port: Port,
    /// Finds the frames in what comes.
    reader: FrameReader,
    /// Frames that were heard, and after them those that wait.
    frames: Vec<Frame>,
    /// How many of them were heard.
    next: usize,
    /// The octets that wait to be sent.
    output: Output,
}

/// A link takes at most 16 kB, most of it the room for what two steps send.
const _: () = prove!(size_of::<Link>() <= 16_384);

impl Model for Link {
    ghost use Rattle.std.specs.Prelude.{◌≤◌, length, drop};
    ghost use Rattle.dnp_streams.specs.links.Links.{LinkState};

    ghost Value = { LinkState };

    ghost view = { λ l. record { port = l.port; partial = l.reader; waiting = drop l.next l.frames.items; pending = l.output.items } };

    ghost invariant = { λ l. l.next ≤ length l.frames.items };
}

/// The frame at this place.
fn next_of(frames: &[Frame], next: usize) -> &Frame
    requires { next < length frames.now }
    ensures { drop next frames.now ≡ result.now ∷ drop (next + 1) frames.now }
{
    &frames[next]
}

impl Link {
    /// Makes a link through this port, on which nothing came. Memory for frames comes from `alloc`.
    pub fn new(alloc: Global, port: Port) -> Link
        ensures { result ≡ new_link port }
    {
        Link {
            port,
            reader: FrameReader::new(),
            frames: Vec::new(alloc),
            next: 0,
            output: ArrayVec::new(),
        }
    }

    /// Gives its port.
    pub fn port(&self) -> &Port
        ensures { result.now ≡ self.now.port }
    {
        &self.port
    }

    /// Gives the fragment that the frame heard last completed, until the next frame is heard, and else no octets. After a
    /// frame that was heard as [`Heard::Whole`] it is the fragment that the station was given: so a caller sees its
    /// sequence number, indications and objects.
    pub fn fragment(&self) -> &[u8]
        ensures shown { IsShown self.now.port result.now }
        ensures fits { length result.now ≤ MAX_FRAGMENT }
    {
        self.port.fragment()
    }

    /// Takes octets that came, and finds the frames in them.
    ///
    /// # Errors
    /// Out of memory for the frames. Then the link is as it was, and the octets may be fed again.
    pub fn feed(&mut self, octets: &[u8]) -> Result<(), AllocError>
        ensures fed { OnOk result (Feeds self.old octets.now self.new) }
        ensures unchanged { OnErr result (self.new ≡ self.old) }
    {
        self.drop_heard();
        self.reader.feed(octets, &mut self.frames)
    }

    /// Lets frames go that were heard, if none waits.
    fn drop_heard(&mut self)
        ensures { self.new ≡ self.old }
    {
        if self.next == self.frames.len() {
            self.frames.clear();
            self.next = 0;
        }
    }

    /// Gives the frame that is heard next, if one waits.
    pub fn next_frame(&self) -> Option<&Frame>
        ensures some { IfSome result (λ frame. (rest : List FrameValue) × (self.now.waiting ≡ frame.now ∷ rest)) }
        ensures none { IfNone result (self.now.waiting ≡ []) }
    {
        if self.next < self.frames.len() {
            Some(next_of(&self.frames, self.next))
        } else {
            None
        }
    }

    /// Gives the frames that wait, in the order in which they are heard.
    pub fn waiting(&self) -> &[Frame]
        ensures { result.now ≡ self.now.waiting }
    {
        &self.frames[self.next..]
    }

    /// Says whether a frame waits.
    pub fn has_frame(&self) -> bool
        ensures { IsTrue result ↔ (0 < length self.now.waiting) }
    {
        self.next < self.frames.len()
    }

    /// Says whether there is room for what one step sends.
    pub fn has_room(&self) -> bool
        ensures { IsTrue result ↔ HasRoom self.now }
    {
        self.output.len() + MAX_STEP <= MAX_OUTPUT
    }

    /// Gives the octets that wait to be sent.
    pub fn output(&self) -> &[u8]
        ensures { result.now ≡ self.now.pending }
    {
        &self.output
    }

    /// Drops the first `count` of the octets that wait, since they were sent. `count` is at most their number.
    pub fn sent(&mut self, count: usize)
        requires { count ≤ length self.old.pending }
        ensures { self.new ≡ after_sent self.old count }
    {
        let left = self.output.len() - count;
        self.output.copy_within(count.., 0);
        self.output.truncate(left);
    }

    /// Opens the station on a connection that begins.
    ///
    /// # Errors
    /// The station's refusal. Then it is as it was, and nothing is sent.
    pub fn opened<S: Station>(
        &mut self,
        room: &mut StepRoom,
        station: &mut S,
        now: u64,
    ) -> Result<Told, StationFault>
        requires { HasRoom self.old }
        ensures kept { S.kept station.new ≡ S.kept station.old }
        ensures held { S.honest station.new → S.honest station.old }
        ensures opened { (reply : Reply) × (result ≡ told_of reply) × Makes (ways S.opens S.receives S.asking S.life) (S.honest station.new)
            self.old (S.state station.old) (Opened now reply) self.new (S.state station.new) }
    {
        open(room, station, &mut self.port, now, &mut self.output)
    }

    /// Has the next frame heard: the port takes it, and if it completes a fragment, the station answers that or refuses it.
    /// The link layer's reply is sent first, and after a refusal alone.
    pub fn hear<S: Station>(&mut self, room: &mut StepRoom, station: &mut S, now: u64) -> Heard
        requires room { HasRoom self.old }
        requires frame { 0 < length self.old.waiting }
        ensures kept { S.kept station.new ≡ S.kept station.old }
        ensures held { S.honest station.new → S.honest station.old }
        ensures heard { (frame : FrameValue) × (joined : Joined) × (result ≡ heard_of joined) × Makes (ways S.opens S.receives S.asking S.life) (S.honest station.new)
            self.old (S.state station.old) (Came now frame joined) self.new (S.state station.new) }
    {
        let (port, output) = (&mut self.port, &mut self.output);
        let frame = next_of(&self.frames, self.next);
        let heard = hear(room, station, port, now, frame, output);
        self.next += 1;
        heard
    }

    /// Lets time pass at the station.
    ///
    /// # Errors
    /// The station's refusal. Then it is as it was, and nothing is sent.
    pub fn tick<S: Living>(
        &mut self,
        room: &mut StepRoom,
        station: &mut S,
        now: u64,
    ) -> Result<Told, StationFault>
        requires { HasRoom self.old }
        ensures kept { S.kept station.new ≡ S.kept station.old }
        ensures held { S.honest station.new → S.honest station.old }
        ensures ticked { (reply : Reply) × (result ≡ told_of reply) × Makes (ways S.opens S.receives S.asking S.life) (S.honest station.new)
            self.old (S.state station.old) (Ticked now reply) self.new (S.state station.new) }
    {
        pass_time(room, station, &mut self.port, now, &mut self.output)
    }

    /// Changes a reading of a point, whenever that was due.
    ///
    /// # Errors
    /// The station's refusal. Then it is as it was, and nothing is sent.
    pub fn change<S: Living>(
        &mut self,
        room: &mut StepRoom,
        station: &mut S,
        now: u64,
        change: &Change,
    ) -> Result<Told, StationFault>
        requires { HasRoom self.old }
        ensures kept { S.kept station.new ≡ S.kept station.old }
        ensures held { S.honest station.new → S.honest station.old }
        ensures changed { (reply : Reply) × (result ≡ told_of reply) × Makes (ways S.opens S.receives S.asking S.life) (S.honest station.new)
            self.old (S.state station.old) (Changed now change.now reply) self.new (S.state station.new) }
    {
        let (port, output) = (&mut self.port, &mut self.output);
        make(room, station, port, now, change, output)
    }

    /// Asks a task. The room then shows the request.
    ///
    /// # Errors
    /// The station's refusal, as of a task while another one is under way. Then it is as it was, and nothing is sent.
    pub fn ask<S: Asker>(
        &mut self,
        room: &mut StepRoom,
        station: &mut S,
        now: u64,
        task: Task,
    ) -> Result<(), AskFault>
        requires { HasRoom self.old }
        ensures kept { S.kept station.new ≡ S.kept station.old }
        ensures held { S.honest station.new → S.honest station.old }
        ensures asked { (reply : ResultValue (List ℕ) AskFaultValue) × (result ≡ done_of reply) × Makes (ways S.opens S.receives S.asking S.life) (S.honest station.new)
            self.old (S.state station.old) (Asked now task reply) self.new (S.state station.new) }
        ensures shown { OnOk result (Puts self.old.port (sendable (request_in room.new)) self.old.pending self.new.port self.new.pending) }
    {
        let (port, output) = (&mut self.port, &mut self.output);
        ask(room, station, port, now, task, output)
    }

    /// Relays a control, or goes on with the one that is under way. The room then shows the request, if the step has one.
    ///
    /// # Errors
    /// The refusal of the book of controls. Then the station is as it was, and nothing is sent.
    pub fn relay<S: Asker>(
        &mut self,
        room: &mut StepRoom,
        station: &mut S,
        now: u64,
    ) -> Result<RelayedStep, BookFault>
        requires { HasRoom self.old }
        ensures kept { S.kept station.new ≡ S.kept station.old }
        ensures held { S.honest station.new → S.honest station.old }
        ensures relayed { (request : Octets ℕ) × Makes (ways S.opens S.receives S.asking S.life) (S.honest station.new)
            self.old (S.state station.old) (Relaid now (relaid_of result request)) self.new (S.state station.new) }
        ensures shown { IfOk result (λ step. Puts self.old.port (sent_by (with_request step room.new.request)) self.old.pending self.new.port self.new.pending) }
    {
        relay(room, station, &mut self.port, now, &mut self.output)
    }
}
