//! A connection on which a station is served in turns, so that none waits for another: what has begun on it stands over to its
//! next turn.

ghost use Rattle.std.specs.Prelude.{◌≡◌, ◌<◌, ◌≤◌, ◌+◌, [], false, length, min, IfOk, IfSome, IsTrue};
ghost use Rattle.dnp_streams.specs.declared.link.stage.Stage.TheVariants.{Idle, Owing, Unopened};
ghost use Rattle.dnp_streams.specs.streams.Counts.{most};
ghost use Rattle.dnp_streams.specs.links.Deeds.{ways};
ghost use Rattle.dnp_tcp.specs.Connections.{IsNew, LeadsOn, Listens, fragments_on, standing_on, wholes_of};

use crate::clock::moment;
use crate::course::earlier;
use crate::door::Caller;
use crate::hearing::{heard_with, is_of};
use crate::leave::{Leave, read_waiting, write_waiting};
use crate::turn::{Parting, Span, look, look_at};
use dnp_line::Port;
use dnp_linkframe::MAX_UNIT;
use dnp_notices::Ends;
use dnp_streams::{Heard, Link, Living, Stage, StepRoom};
use std::alloc::Global;
use std::io;
use std::net::SocketAddr;
use std::rt::Clock;
use std::time::Duration;

/// A connection on which a station is served in turns. What has begun stands over to the next turn: a frame that isn't whole
/// yet, frames that wait to be heard, and octets that the connection doesn't take yet.
pub struct StandingConnection {
    /// The master, and its connection.
    caller: Caller,
    /// The link addresses of the frames that the station takes.
    taken: Ends,
    /// The station's end of the link.
    link: Link,
    /// How far the station has come.
    stage: Stage,
    /// The moment of the last step, in milliseconds.
    moment: u64,
    /// The moment of the last read, in milliseconds.
    looked: u64,
    /// How long a read waits now, in milliseconds.
    wait: u64,
    /// The moment at which octets came last.
    came: u64,
    /// The moment at which a frame for the station came last.
    whole: u64,
    /// Which frames came.
    heard: dnp_notices::Heard,
    /// How many fragments came whole. The count stops at the largest number.
    fragments: u64,
}

impl Drop for StandingConnection {
    /// One call for whoever lets it go: its parts are looked at here alone.
    fn drop(self) {
        let StandingConnection {
            caller: _,
            taken: _,
            link: _,
            stage: _,
            moment: _,
            looked: _,
            wait: _,
            came: _,
            whole: _,
            heard: _,
            fragments: _,
        } = self;
    }
}

/// How many fragments came whole with a frame.
fn whole_in(heard: &Heard) -> u64
    ensures { result ≡ wholes_of heard.now }
{
    match heard {
        Heard::Part => 0,
        Heard::Whole(_) => 1,
    }
}

impl StandingConnection {
    /// A connection of this master, on which nothing came by this moment, in milliseconds. The station takes frames with these link
    /// addresses.
    pub fn new(alloc: Global, caller: Caller, taken: Ends, now: u64) -> StandingConnection
        ensures { IsNew result }
    {
        StandingConnection {
            caller,
            taken,
            link: Link::new(alloc, Port::new(taken.dest, taken.source, false)),
            stage: Stage::Unopened,
            moment: now,
            looked: now,
            wait: 0,
            came: now,
            whole: now,
            heard: dnp_notices::Heard::NOTHING,
            fragments: 0,
        }
    }

    /// The master's address.
    pub fn peer(&self) -> SocketAddr {
        self.caller.peer
    }

    /// The link addresses of the frames that the station takes.
    pub fn taken(&self) -> Ends {
        self.taken
    }

    /// Which frames came.
    pub fn heard(&self) -> dnp_notices::Heard {
        self.heard
    }

    /// How many fragments came whole. The count stops at the largest number.
    pub fn fragments(&self) -> u64
        ensures { result ≡ fragments_on self.now }
    {
        self.fragments
    }

    /// Whether no octet came for so long before the last read, in milliseconds.
    pub fn is_silent(&self, ms: u64) -> bool {
        self.looked.saturating_sub(self.came) >= ms
    }

    /// A turn that ends when no octet came for so long, in milliseconds.
    pub fn span_of_silence(&self, ms: u64) -> Span {
        Span {
            wait_ms: ms,
            until: self.came.saturating_add(ms),
        }
    }

    /// The moment at which a frame for the station came last, in milliseconds.
    pub fn whole(&self) -> u64 {
        self.whole
    }

    /// Whether octets wait that the connection didn't take.
    pub fn is_held_up(&self) -> bool {
        !self.link.output().is_empty()
    }

    /// Writes once of what waits. Whether all of it went.
    fn send(&mut self) -> Result<bool, Leave>
        ensures sent { IfOk result (λ all. IsTrue all → self.new.link.pending ≡ []) }
        ensures standing { standing_on self.new ≡ standing_on self.old }
        ensures fragments { fragments_on self.new ≡ fragments_on self.old }
    {
        if self.link.output().is_empty() {
            return Ok(true);
        }
        write_waiting(&self.caller.stream, &mut self.link)?;
        Ok(self.link.output().is_empty())
    }

    /// How long a read waits, in milliseconds above 0: no longer than the turn lets it, and not over its end or the moment at which this
    /// timer ends.
    fn wait_ms(&self, span: Span, timer: Option<u64>) -> u64
        ensures some { 0 < result }
        ensures turn { self.now.looked < span.until → self.now.looked + result ≤ span.until }
        ensures timer { IfSome timer (λ ends. self.now.looked < ends → self.now.looked + result ≤ ends) }
    {
        let latest = self.looked.saturating_add(span.wait_ms).min(span.until);
        let until = earlier(latest, timer);
        until.saturating_sub(self.looked).max(1)
    }

    /// From now on a read waits at most this long, in milliseconds above 0.
    fn wait_at_most(&mut self, ms: u64) -> io::Result<()>
        ensures standing { standing_on self.new ≡ standing_on self.old }
        ensures fragments { fragments_on self.new ≡ fragments_on self.old }
    {
        if ms != self.wait {
            let wait = Some(Duration::from_millis(ms));
            self.caller.stream.set_read_timeout(wait)?;
            self.wait = ms;
        }
        Ok(())
    }

    /// Notes which frames came with the last read.
    fn note_frames(&mut self)
        ensures standing { standing_on self.new ≡ standing_on self.old }
        ensures fragments { fragments_on self.new ≡ fragments_on self.old }
    {
        let (taken, frames) = (self.taken, self.link.waiting());
        self.came = self.looked;
        self.heard = heard_with(self.heard, frames, taken);
        if frames.iter().any(|frame| is_of(frame, taken)) {
            self.whole = self.looked;
        }
    }

    /// Ends a wait in which no frame came: time passes next.
    fn end_wait(&mut self)
        requires { self.old.stage ≡ Idle }
        ensures { Listens self.old self.new }
    {
        self.moment = self.looked.max(self.moment);
        self.stage = Stage::Owing;
    }

    /// Reads once into this room, no longer than until this timer ends. If no frame came, the wait is over. Whether the turn is over.
    fn listen<C: Clock>(
        &mut self,
        clock: &C,
        piece: &mut [u8],
        span: Span,
        timer: Option<u64>,
    ) -> Result<bool, Leave>
        requires { self.old.stage ≡ Idle }
        ensures { Listens self.old self.new }
    {
        self.looked = moment(clock, self.looked);
        let ms = self.wait_ms(span, timer);
        if let Err(error) = self.wait_at_most(ms) {
            return Err(Leave::Unread(error));
        }
        let has_come = read_waiting(&self.caller.stream, &mut self.link, piece)?;
        self.looked = moment(clock, self.looked);
        if has_come {
            self.note_frames();
        }
        if !self.link.has_frame() {
            self.end_wait();
        }
        Ok(span.is_past(self.looked) || (!has_come && ms >= span.wait_ms))
    }

    /// Opens the station, at the moment of the last step or later.
    fn open<S: Living>(
        &mut self,
        room: &mut StepRoom,
        station: &mut S,
        now: u64,
    ) -> Result<(), Parting>
        requires first { self.old.stage ≡ Unopened }
        requires later { self.old.moment ≤ now }
        requires room { self.old.link.pending ≡ [] }
        ensures kept { S.kept station.new ≡ S.kept station.old }
        ensures held { S.honest station.new → S.honest station.old }
        ensures leads { S.honest station.new → LeadsOn (ways S.opens S.receives S.asking S.life) (S.state station.old) self.old (S.state station.new) self.new }
    {
        self.moment = now;
        let told = self.link.opened(room, station, now);
        self.stage = Stage::Idle.after(&told);
        look(told)
    }

    /// Counts the fragment that came whole with a frame, if one did.
    fn count(&mut self, heard: &Heard)
        ensures counted { fragments_on self.new ≡ min (fragments_on self.old + wholes_of heard.now) most }
        ensures standing { standing_on self.new ≡ standing_on self.old }
    {
        self.fragments = self.fragments.saturating_add(whole_in(heard));
    }

    /// Hears the next frame, at the moment of the last step or later. Time passes after it.
    fn hear<S: Living>(&mut self, room: &mut StepRoom, station: &mut S, now: u64) -> Heard
        requires idle { self.old.stage ≡ Idle }
        requires later { self.old.moment ≤ now }
        requires room { self.old.link.pending ≡ [] }
        requires frame { 0 < length self.old.link.waiting }
        ensures kept { S.kept station.new ≡ S.kept station.old }
        ensures held { S.honest station.new → S.honest station.old }
        ensures leads { S.honest station.new → LeadsOn (ways S.opens S.receives S.asking S.life) (S.state station.old) self.old (S.state station.new) self.new }
    {
        self.moment = now;
        let heard = self.link.hear(room, station, now);
        self.stage = Stage::Owing.after_frame(&heard);
        self.count(&heard);
        heard
    }

    /// Lets time pass at the moment of the frame or the wait before.
    fn pass<S: Living>(&mut self, room: &mut StepRoom, station: &mut S) -> Result<(), Parting>
        requires owing { self.old.stage ≡ Owing }
        requires room { self.old.link.pending ≡ [] }
        ensures kept { S.kept station.new ≡ S.kept station.old }
        ensures held { S.honest station.new → S.honest station.old }
        ensures leads { S.honest station.new → LeadsOn (ways S.opens S.receives S.asking S.life) (S.state station.old) self.old (S.state station.new) self.new }
    {
        let told = self.link.tick(room, station, self.moment);
        self.stage = Stage::Idle.after(&told);
        look(told)
    }

    /// Makes the next step of the station, if there is one without a read. Whether there is: if not, the station is idle.
    fn step<S: Living, C: Clock>(
        &mut self,
        clock: &C,
        room: &mut StepRoom,
        station: &mut S,
    ) -> Result<bool, Parting>
        requires { self.old.link.pending ≡ [] }
        ensures kept { S.kept station.new ≡ S.kept station.old }
        ensures held { S.honest station.new → S.honest station.old }
        ensures leads { S.honest station.new → LeadsOn (ways S.opens S.receives S.asking S.life) (S.state station.old) self.old (S.state station.new) self.new }
        ensures idle { IfOk result (λ made. made ≡ false → self.new.stage ≡ Idle) }
    {
        match self.stage {
            Stage::Closed => return Err(Parting::Left(Leave::Station)),
            Stage::Owing => self.pass(room, station)?,
            Stage::Unopened => {
                let now = moment(clock, self.moment);
                self.open(room, station, now)?;
            }
            Stage::Idle if self.link.has_frame() => {
                let now = moment(clock, self.moment);
                look_at(self.hear(room, station, now))?;
            }
            Stage::Idle => return Ok(false),
        }
        Ok(true)
    }

    /// Makes steps and reads until the turn is over.
    fn take_turn<S: Living, C: Clock>(
        &mut self,
        clock: &C,
        room: &mut StepRoom,
        station: &mut S,
        span: Span,
    ) -> Result<(), Parting>
        ensures kept { S.kept station.new ≡ S.kept station.old }
        ensures held { S.honest station.new → S.honest station.old }
        ensures leads { S.honest station.new → LeadsOn (ways S.opens S.receives S.asking S.life) (S.state station.old) self.old (S.state station.new) self.new }
    {
        // (so few octets at once that a turn ends soon after its moment, though frames come without a pause)
        let mut piece = [0; MAX_UNIT];
        let mut is_over = false;
        for _ in 0..u64::MAX {
            if !self.send()? {
                return Ok(());
            }
            if self.step(clock, room, station)? {
                continue;
            }
            if is_over {
                return Ok(());
            }
            is_over = self.listen(clock, &mut piece, span, station.next_deadline())?;
        }
        Ok(())
    }

    /// Serves the connection by this station for a turn. What waits is sent first; if the connection doesn't take all of it, nothing is
    /// read. The station is opened in the first turn. It hears each frame, and time passes at the moment of the frame, or at the end of a
    /// wait in which none came. What the station sent as it closed the connection still goes.
    ///
    /// # Errors
    /// Why the connection is no longer served. The caller then hangs the station up.
    pub fn serve<S: Living, C: Clock>(
        &mut self,
        clock: &C,
        room: &mut StepRoom,
        station: &mut S,
        span: Span,
    ) -> Result<(), Parting>
        ensures kept { S.kept station.new ≡ S.kept station.old }
        ensures held { S.honest station.new → S.honest station.old }
        ensures leads { S.honest station.new → LeadsOn (ways S.opens S.receives S.asking S.life) (S.state station.old) self.old (S.state station.new) self.new }
    {
        match self.take_turn(clock, room, station, span) {
            Err(Parting::Left(Leave::Station)) => {
                self.send()?;
                Err(Parting::Left(Leave::Station))
            }
            turned => turned,
        }
    }
}
