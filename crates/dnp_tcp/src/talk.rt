//! Tasks that a station asks on a connection: each once the station is idle. What comes is heard, and time passes after each read.

ghost use Rattle.std.specs.Prelude.{◌≡◌, ◌<◌, [], length, OnOk};
ghost use Rattle.dnp_streams.specs.links.Deeds.{ways};
ghost use Rattle.dnp_streams.specs.links.Links.{HasRoom};
ghost use Rattle.dnp_tcp.specs.Connections.{Leads};

mod telling;

use crate::clock::moment;
use crate::gone::Gone;
use crate::hearing::heard_with;
use crate::leave::is_pause;
use crate::watcher::{Watcher, tell_asked, tell_relayed};
use dnp_linkframe::MAX_UNIT;
use dnp_master::Task;
use dnp_notices::Ends;
use dnp_streams::{Asker, Link, Living, StepRoom};
use std::io;
use std::io::{ErrorKind, Read, Write};
use std::net::TcpStream;
use std::rt::Clock;
use std::time::Duration;

/// How often a connection is read at most while tasks are asked on it: a peer that sends without an end comes to one here.
const TURNS: u64 = 10_000_000;

/// How long a read waits at most, in milliseconds.
const READ_MS: u64 = 10;

/// Tasks on a connection, and what came so far.
#[derive(Drop)]
pub(crate) struct Talk<'t, C> {
    /// What tells the moments.
    clock: &'t C,
    /// The connection.
    stream: &'t TcpStream,
    /// The link addresses of the frames that are awaited.
    awaited: Ends,
    /// The tasks that are left.
    left: &'t [Task],
    /// The moment of the last step, in milliseconds.
    now: u64,
    /// How long a read waits now, in milliseconds.
    wait: u64,
    /// How often the connection is read at most.
    pub turns: u64,
    /// Which frames came.
    pub heard: dnp_notices::Heard,
    /// How many event rows came. The count stops at the largest number.
    pub rows: u64,
}

impl<'t, C: Clock> Talk<'t, C> {
    /// These tasks, of which none was asked, on a connection of which nothing was read and on which frames with these link addresses
    /// are awaited.
    pub(crate) fn new(
        clock: &'t C,
        stream: &'t TcpStream,
        awaited: Ends,
        tasks: &'t [Task],
    ) -> Self {
        Talk {
            clock,
            stream,
            awaited,
            left: tasks,
            now: 0,
            wait: 0,
            turns: TURNS,
            heard: dnp_notices::Heard::NOTHING,
            rows: 0,
        }
    }

    /// Sends what waits.
    fn send<W: Watcher>(&self, link: &mut Link, watcher: &mut W) -> Result<(), Gone>
        ensures { OnOk result (link.new.pending ≡ []) }
    {
        for _ in 0..u64::MAX {
            if link.output().is_empty() {
                return Ok(());
            }
            let mut stream = self.stream;
            match stream.write(link.output()) {
                Ok(0) => return Err(Gone::Unwritten(None)),
                Ok(count) => {
                    watcher.sent(&link.output()[..count]);
                    link.sent(count);
                }
                Err(error) => return Err(Gone::Unwritten(Some(error))),
            }
        }
        Err(Gone::Unwritten(None))
    }

    /// From now on a read waits no longer than until this timer ends, if there is one, and no longer than READ_MS.
    fn wait_until(&mut self, timer: Option<u64>) -> io::Result<()> {
        let ms = match timer {
            Some(ends) => ends.saturating_sub(self.now).min(READ_MS).max(1),
            None => READ_MS,
        };
        if ms != self.wait {
            let wait = Some(Duration::from_millis(ms));
            self.stream.set_read_timeout(wait)?;
            self.wait = ms;
        }
        Ok(())
    }

    /// Reads once, no longer than until this timer ends, and feeds what came to the link. Whether the connection goes on.
    fn read<W: Watcher>(
        &mut self,
        link: &mut Link,
        timer: Option<u64>,
        watcher: &mut W,
    ) -> Result<bool, Gone> {
        if let Err(error) = self.wait_until(timer) {
            return Err(Gone::Unread(error));
        }
        let mut piece = [0; MAX_UNIT];
        let mut stream = self.stream;
        match stream.read(&mut piece) {
            Ok(0) => Ok(false),
            Ok(count) => {
                watcher.read(&piece[..count]);
                if link.feed(&piece[..count]).is_err() {
                    return Err(Gone::Memory);
                }
                self.heard = heard_with(self.heard, link.waiting(), self.awaited);
                Ok(true)
            }
            Err(error) if is_pause(&error) || error.kind() == ErrorKind::TimedOut => Ok(true),
            Err(error) => Err(Gone::Unread(error)),
        }
    }

    /// Opens the station. Whether it has closed the connection.
    fn open<S: Asker, W: Watcher>(
        &mut self,
        station: &mut S,
        link: &mut Link,
        room: &mut StepRoom,
        watcher: &mut W,
    ) -> bool
        requires { HasRoom link.old }
        ensures kept { S.kept station.new ≡ S.kept station.old }
        ensures held { S.honest station.new → S.honest station.old }
        ensures leads { S.honest station.new → Leads (ways S.opens S.receives S.asking S.life) (S.state station.old) (S.state station.new) }
    {
        self.now = moment(self.clock, self.now);
        self.tell(link.opened(room, station, self.now), watcher)
    }

    /// Hears the next frame. Whether the station has closed the connection.
    fn hear<S: Asker, W: Watcher>(
        &mut self,
        station: &mut S,
        link: &mut Link,
        room: &mut StepRoom,
        watcher: &mut W,
    ) -> bool
        requires room { HasRoom link.old }
        requires frame { 0 < length link.old.waiting }
        ensures kept { S.kept station.new ≡ S.kept station.old }
        ensures held { S.honest station.new → S.honest station.old }
        ensures leads { S.honest station.new → Leads (ways S.opens S.receives S.asking S.life) (S.state station.old) (S.state station.new) }
    {
        self.now = moment(self.clock, self.now);
        let heard = link.hear(room, station, self.now);
        self.tell_heard(heard, link.fragment(), watcher)
    }

    /// Lets time pass at the moment of the last step. Whether the station has closed the connection.
    fn tick<S: Living, W: Watcher>(
        &mut self,
        station: &mut S,
        link: &mut Link,
        room: &mut StepRoom,
        watcher: &mut W,
    ) -> bool
        requires { HasRoom link.old }
        ensures kept { S.kept station.new ≡ S.kept station.old }
        ensures held { S.honest station.new → S.honest station.old }
        ensures leads { S.honest station.new → Leads (ways S.opens S.receives S.asking S.life) (S.state station.old) (S.state station.new) }
    {
        self.tell_ticked(link.tick(room, station, self.now), watcher)
    }

    /// Asks the next task, or relays a control where none is left. Whether nothing is left to do.
    fn ask_next<S: Asker, W: Watcher>(
        &mut self,
        station: &mut S,
        link: &mut Link,
        room: &mut StepRoom,
        watcher: &mut W,
    ) -> bool
        requires { HasRoom link.old }
        ensures kept { S.kept station.new ≡ S.kept station.old }
        ensures held { S.honest station.new → S.honest station.old }
        ensures leads { S.honest station.new → Leads (ways S.opens S.receives S.asking S.life) (S.state station.old) (S.state station.new) }
    {
        match self.left.split_first() {
            Some((task, left)) => {
                self.left = left;
                let asked = link.ask(room, station, self.now, *task);
                tell_asked(asked, task, room.request(), watcher)
            }
            None => {
                let relayed = link.relay(room, station, self.now);
                tell_relayed(relayed, room.request(), watcher)
            }
        }
    }

    /// Sends what a step sent, by which the connection may have been closed; then, while the station is idle, asks the tasks that are
    /// left, and relays. Whether the talk is over.
    fn go_on<S: Asker, W: Watcher>(
        &mut self,
        station: &mut S,
        link: &mut Link,
        room: &mut StepRoom,
        watcher: &mut W,
        is_closed: bool,
    ) -> Result<bool, Gone>
        ensures kept { S.kept station.new ≡ S.kept station.old }
        ensures held { S.honest station.new → S.honest station.old }
        ensures leads { S.honest station.new → Leads (ways S.opens S.receives S.asking S.life) (S.state station.old) (S.state station.new) }
    {
        let mut is_over = is_closed;
        for _ in 0..u64::MAX {
            self.send(link, watcher)?;
            if is_over {
                return Ok(true);
            }
            if !station.idle() {
                return Ok(false);
            }
            is_over = self.ask_next(station, link, room, watcher);
            if is_over && watcher.stays() {
                return Ok(false);
            }
        }
        Ok(true)
    }

    /// Opens the station, and goes on. Whether the talk is over.
    fn begin<S: Asker, W: Watcher>(
        &mut self,
        station: &mut S,
        link: &mut Link,
        room: &mut StepRoom,
        watcher: &mut W,
    ) -> Result<bool, Gone>
        ensures kept { S.kept station.new ≡ S.kept station.old }
        ensures held { S.honest station.new → S.honest station.old }
        ensures leads { S.honest station.new → Leads (ways S.opens S.receives S.asking S.life) (S.state station.old) (S.state station.new) }
    {
        self.send(link, watcher)?;
        let is_closed = self.open(station, link, room, watcher);
        self.go_on(station, link, room, watcher, is_closed)
    }

    /// Hears the next frame, and goes on. Whether the talk is over.
    fn hear_on<S: Asker, W: Watcher>(
        &mut self,
        station: &mut S,
        link: &mut Link,
        room: &mut StepRoom,
        watcher: &mut W,
    ) -> Result<bool, Gone>
        requires room { HasRoom link.old }
        requires frame { 0 < length link.old.waiting }
        ensures kept { S.kept station.new ≡ S.kept station.old }
        ensures held { S.honest station.new → S.honest station.old }
        ensures leads { S.honest station.new → Leads (ways S.opens S.receives S.asking S.life) (S.state station.old) (S.state station.new) }
    {
        let is_closed = self.hear(station, link, room, watcher);
        self.go_on(station, link, room, watcher, is_closed)
    }

    /// Lets time pass, and goes on. Whether the talk is over.
    fn tick_on<S: Asker + Living, W: Watcher>(
        &mut self,
        station: &mut S,
        link: &mut Link,
        room: &mut StepRoom,
        watcher: &mut W,
    ) -> Result<bool, Gone>
        ensures kept { S.kept station.new ≡ S.kept station.old }
        ensures held { S.honest station.new → S.honest station.old }
        ensures leads { S.honest station.new → Leads (ways S.opens S.receives S.asking S.life) (S.state station.old) (S.state station.new) }
    {
        self.send(link, watcher)?;
        let is_closed = self.tick(station, link, room, watcher);
        self.go_on(station, link, room, watcher, is_closed)
    }

    /// Hears the frames that came, one after the other. Whether the talk is over.
    fn hear_all<S: Asker, W: Watcher>(
        &mut self,
        station: &mut S,
        link: &mut Link,
        room: &mut StepRoom,
        watcher: &mut W,
    ) -> Result<bool, Gone>
        ensures kept { S.kept station.new ≡ S.kept station.old }
        ensures held { S.honest station.new → S.honest station.old }
        ensures leads { S.honest station.new → Leads (ways S.opens S.receives S.asking S.life) (S.state station.old) (S.state station.new) }
    {
        for _ in 0..u64::MAX {
            self.send(link, watcher)?;
            if !link.has_frame() {
                return Ok(false);
            }
            if self.hear_on(station, link, room, watcher)? {
                return Ok(true);
            }
        }
        Ok(false)
    }

    /// Reads once, unless the watcher has seen enough, and hears the frames that came; then time passes. Whether the talk is over, as it is
    /// where the other end has closed the connection.
    fn take_turn<S: Asker + Living, W: Watcher>(
        &mut self,
        station: &mut S,
        link: &mut Link,
        room: &mut StepRoom,
        watcher: &mut W,
    ) -> Result<bool, Gone>
        ensures kept { S.kept station.new ≡ S.kept station.old }
        ensures held { S.honest station.new → S.honest station.old }
        ensures leads { S.honest station.new → Leads (ways S.opens S.receives S.asking S.life) (S.state station.old) (S.state station.new) }
    {
        let timer = station.next_deadline();
        watcher.waits(self.now, timer);
        if watcher.has_enough() || !self.read(link, timer, watcher)? {
            return Ok(true);
        }
        self.now = moment(self.clock, self.now);
        if self.hear_all(station, link, room, watcher)? {
            return Ok(true);
        }
        self.tick_on(station, link, room, watcher)
    }

    /// Opens the station, asks the tasks, relays controls, and hears what comes, until nothing is left to do, the station or the other
    /// end has closed the connection, or the watcher has seen enough. The station is not hung up.
    pub(crate) fn ask<S: Asker + Living, W: Watcher>(
        &mut self,
        station: &mut S,
        link: &mut Link,
        room: &mut StepRoom,
        watcher: &mut W,
    ) -> Result<(), Gone>
        ensures kept { S.kept station.new ≡ S.kept station.old }
        ensures held { S.honest station.new → S.honest station.old }
        ensures leads { S.honest station.new → Leads (ways S.opens S.receives S.asking S.life) (S.state station.old) (S.state station.new) }
    {
        if self.begin(station, link, room, watcher)? {
            return Ok(());
        }
        for _ in 0..self.turns {
            if self.take_turn(station, link, room, watcher)? {
                return Ok(());
            }
        }
        Err(Gone::Endless)
    }
}
