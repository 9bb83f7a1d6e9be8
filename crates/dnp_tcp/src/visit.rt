//! A connection on which a station lives: what comes is heard, time passes, and changes are made when they are due.

ghost use Rattle.std.specs.Prelude.{◌≡◌, ◌<◌, [], length, OnOk};

use crate::clock::moment;
use crate::course::Course;
use crate::door::{Caller, Door};
use crate::hearing::{heard_with, is_of};
use crate::leave::{Leave, PIECE, read_waiting, write_waiting};
use crate::lines::{Asked, Visited};
use crate::logged::note;
use dnp_line::Port;
use dnp_linkframe::Frame;
use dnp_notices::{Ends, Strange, StrangeLine, news_of};
use dnp_streams::{Heard, Link, Living, StationFault, Told};
use dnp_terminal::Terminal;
use std::io;
use std::rt::Clock;
use std::time::Duration;

/// How long a write waits, in milliseconds, before it is looked whether the connection has to end.
pub(crate) const WRITE_MS: u64 = 50;

/// How long a master that has come waits at most for its place, in milliseconds, while octets come without a pause.
const PLACE_MS: u64 = 1_000;

/// Whether the connection goes on after a step that told this: it ends where the station has closed it. A step that was refused has
/// changed nothing.
fn look(told: Result<Told, StationFault>) -> Result<(), Leave> {
    match told {
        Ok(told) if told.closed => Err(Leave::Station),
        _ => Ok(()),
    }
}

/// A connection on which a station lives.
#[derive(Drop)]
pub(crate) struct Visit<'v, R> {
    /// What tells the moments, and whose log it is.
    rt: &'v R,
    /// The master, and its connection.
    caller: &'v Caller,
    /// Where the next master comes.
    door: &'v Door,
    /// The link addresses of the frames that the station takes.
    taken: Ends,
    /// How long it may stand in which nothing whole comes, in milliseconds.
    idle_ms: u64,
    /// Whether each request is said in the log.
    is_said: bool,
    /// How long a read waits now, in milliseconds.
    wait: u64,
    /// The moment at which something whole came last.
    whole: u64,
    /// Which frames came.
    heard: dnp_notices::Heard,
    /// How many fragments came whole.
    fragments: u64,
}

impl<'v, R: AllocGlobal + Eprint + Terminal + Clock> Visit<'v, R> {
    /// A connection of this master that begins now. The station takes frames with these link addresses; the connection may stand so
    /// long, in milliseconds, in which nothing whole comes, and each request may be said in the log.
    pub(crate) fn new(
        rt: &'v R,
        caller: &'v Caller,
        door: &'v Door,
        taken: Ends,
        idle_ms: u64,
        is_said: bool,
    ) -> Self {
        Visit {
            rt,
            caller,
            door,
            taken,
            idle_ms,
            is_said,
            wait: 0,
            whole: moment(rt, 0),
            heard: dnp_notices::Heard::NOTHING,
            fragments: 0,
        }
    }

    /// How many fragments came whole.
    pub(crate) fn fragments(&self) -> u64 {
        self.fragments
    }

    /// Says in the log that octets came and no frame, where that is so.
    pub(crate) fn tell_noise(&self) {
        if let Some(Strange::Noise) = self.heard.strange() {
            self.tell(Strange::Noise);
        }
    }

    /// Says in the log what came that the station doesn't take.
    fn tell(&self, strange: Strange) {
        let taken = self.taken;
        let what = Visited::Strange(StrangeLine { strange, taken });
        note(self.rt, self.caller.peer, &what);
    }

    /// Notes which frames came, and says in the log where one is of another station, or for another one, and those before were not such.
    fn note_frames(&mut self, frames: &[Frame], now: u64) {
        let taken = self.taken;
        let before = self.heard;
        self.heard = heard_with(before, frames, taken);
        if frames.iter().any(|frame| is_of(frame, taken)) {
            self.whole = now;
        }
        if let Some(strange) = news_of(before.strange(), self.heard.strange())
            && matches!(strange, Strange::Frame(_))
        {
            self.tell(strange);
        }
    }

    /// Says a fragment that came in the log, where it is to, and how many octets are sent for it, where it was taken.
    fn tell_asked(&self, octets: &[u8], told: &Result<Told, StationFault>) {
        if let Ok(told) = told
            && self.is_said
        {
            let sent = told.sent;
            note(self.rt, self.caller.peer, &Asked { octets, sent });
        }
    }

    /// Ends the connection where nothing whole came for too long, or where another master has come: at once where the connection stands
    /// still, and else where that one has waited for long enough.
    fn go_on(&self, course: &mut Course, is_still: bool) -> Result<(), Leave> {
        course.go_on(self.rt);
        let now = course.moment;
        if now.saturating_sub(self.whole) >= self.idle_ms {
            return Err(Leave::Idle);
        }
        if let Some(peer) = self.door.late(now) {
            note(self.rt, peer, &Visited::Late);
        }
        match self.door.look(now) {
            Some(knock) if is_still || now.saturating_sub(knock.at) >= PLACE_MS => {
                Err(Leave::Taken(knock.peer))
            }
            _ => Ok(()),
        }
    }

    /// Sends what waits. While not all of it goes, the connection may have to end.
    fn send(&self, link: &mut Link, course: &mut Course) -> Result<(), Leave>
        ensures sent { OnOk result (link.new.pending ≡ []) }
        ensures waiting { link.new.waiting ≡ link.old.waiting }
    {
        for _ in 0..u64::MAX {
            if link.output().is_empty() {
                return Ok(());
            }
            write_waiting(&self.caller.stream, link)?;
            if !link.output().is_empty() {
                self.go_on(course, true)?;
            }
        }
        Err(Leave::Unwritten(None))
    }

    /// From now on a read waits at most this long, in milliseconds, above 0.
    fn wait_at_most(&mut self, ms: u64) -> io::Result<()> {
        if ms != self.wait {
            let wait = Some(Duration::from_millis(ms));
            self.caller.stream.set_read_timeout(wait)?;
            self.wait = ms;
        }
        Ok(())
    }

    /// Reads once into this room, for so long at most, in milliseconds, and feeds what came to the link.
    fn read(
        &mut self,
        link: &mut Link,
        course: &mut Course,
        piece: &mut [u8],
        ms: u64,
    ) -> Result<(), Leave> {
        if let Err(error) = self.wait_at_most(ms) {
            return Err(Leave::Unread(error));
        }
        if !read_waiting(&self.caller.stream, link, piece)? {
            return self.go_on(course, true);
        }
        course.go_on(self.rt);
        self.note_frames(link.waiting(), course.moment);
        self.go_on(course, false)
    }

    /// Opens the station, and makes the changes that are due.
    fn open<S: Living>(
        &mut self,
        station: &mut S,
        link: &mut Link,
        course: &mut Course,
    ) -> Result<(), Leave>
        ensures kept { S.kept station.new ≡ S.kept station.old }
        ensures held { S.honest station.new → S.honest station.old }
    {
        self.send(link, course)?;
        course.go_on(self.rt);
        look(link.opened(&mut course.room, station, course.moment))?;
        self.make_due(station, link, course)
    }

    /// Makes the changes that are due, in order, and sends what each of them brings before the next one.
    fn make_due<S: Living>(
        &mut self,
        station: &mut S,
        link: &mut Link,
        course: &mut Course,
    ) -> Result<(), Leave>
        ensures kept { S.kept station.new ≡ S.kept station.old }
        ensures held { S.honest station.new → S.honest station.old }
    {
        for _ in 0..u64::MAX {
            self.send(link, course)?;
            let Some(change) = course.next_due(self.rt) else {
                return Ok(());
            };
            look(link.change(&mut course.room, station, course.moment, &change))?;
        }
        Ok(())
    }

    /// Hears the next frame.
    fn hear<S: Living>(
        &mut self,
        station: &mut S,
        link: &mut Link,
        course: &mut Course,
    ) -> Result<(), Leave>
        requires { 0 < length link.old.waiting }
        ensures kept { S.kept station.new ≡ S.kept station.old }
        ensures held { S.honest station.new → S.honest station.old }
    {
        self.send(link, course)?;
        course.go_on(self.rt);
        match link.hear(&mut course.room, station, course.moment) {
            Heard::Part => Ok(()),
            Heard::Whole(told) => {
                self.fragments = self.fragments.saturating_add(1);
                self.tell_asked(link.fragment(), &told);
                look(told)
            }
        }
    }

    /// Lets time pass at the moment of the last step, and makes the changes that are due.
    fn settle<S: Living>(
        &mut self,
        station: &mut S,
        link: &mut Link,
        course: &mut Course,
    ) -> Result<(), Leave>
        ensures kept { S.kept station.new ≡ S.kept station.old }
        ensures held { S.honest station.new → S.honest station.old }
    {
        self.send(link, course)?;
        look(link.tick(&mut course.room, station, course.moment))?;
        self.make_due(station, link, course)
    }

    /// Reads once, and hears the frames that came. After each of them, or after a wait in which none came, time passes and the changes
    /// that are due are made.
    fn take_turn<S: Living>(
        &mut self,
        station: &mut S,
        link: &mut Link,
        course: &mut Course,
        piece: &mut [u8],
    ) -> Result<(), Leave>
        ensures kept { S.kept station.new ≡ S.kept station.old }
        ensures held { S.honest station.new → S.honest station.old }
    {
        let ms = course.wait_ms(station.next_deadline());
        self.read(link, course, piece, ms)?;
        if !link.has_frame() {
            course.go_on(self.rt);
            return self.settle(station, link, course);
        }
        for _ in 0..u64::MAX {
            if !link.has_frame() {
                return Ok(());
            }
            self.hear(station, link, course)?;
            self.settle(station, link, course)?;
        }
        Ok(())
    }

    /// Opens the station, and takes turns until the connection has to end.
    fn take_turns<S: Living>(
        &mut self,
        station: &mut S,
        link: &mut Link,
        course: &mut Course,
    ) -> Result<(), Leave>
        ensures kept { S.kept station.new ≡ S.kept station.old }
        ensures held { S.honest station.new → S.honest station.old }
    {
        self.open(station, link, course)?;
        let mut piece = [0; PIECE];
        for _ in 0..u64::MAX {
            self.take_turn(station, link, course, &mut piece)?;
        }
        Ok(())
    }

    /// Lives on the connection to its end, hangs the station up, and tells why it ended. What the station sent as it closed the
    /// connection still goes.
    pub(crate) fn live<S: Living>(&mut self, station: &mut S, course: &mut Course) -> Leave
        ensures kept { S.kept station.new ≡ S.kept station.old }
        ensures held { S.honest station.new → S.honest station.old }
    {
        let port = Port::new(self.taken.dest, self.taken.source, false);
        let mut link = Link::new(self.rt.alloc(), port);
        let ended = self.take_turns(station, &mut link, course);
        station.hung_up();
        match ended {
            Ok(()) => Leave::Master,
            Err(Leave::Station) => match self.send(&mut link, course) {
                Ok(()) => Leave::Station,
                Err(leave) => leave,
            },
            Err(leave) => leave,
        }
    }
}
