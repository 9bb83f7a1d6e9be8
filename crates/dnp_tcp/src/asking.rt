//! Stations that ask others over TCP.

ghost use Rattle.std.specs.Prelude.{◌≡◌, ◌⊎◌, Bool, true};
ghost use Rattle.dnp_line.specs.Ports.{new_port};
ghost use Rattle.dnp_streams.specs.links.Deeds.{ways};
ghost use Rattle.dnp_streams.specs.links.Links.{new_link};
ghost use Rattle.dnp_tcp.specs.Connections.{AsksOn, IsTold, LeadsToEnd};
ghost use Rattle.dnp_tcp.specs.declared.asking.Ended.TheVariants as told;
ghost use Rattle.dnp_tcp.specs.declared.gone.Gone.TheVariants as why;

use crate::account::Account;
use crate::gone::Gone;
use crate::lines;
use crate::logged::say;
use crate::talk::Talk;
use crate::witness::Witness;
use dnp_concentrator::Cause;
use dnp_line::Port;
use dnp_master::Task;
use dnp_notices::{
    Ends, Failing, Happening, Line, Mismatch, Names, Notice, Peer, Place, Refusal, Strange, Thing,
    Trouble,
};
use dnp_streams::{Asker, Link, Living, StepRoom};
use dnp_terminal::Terminal;
use std::alloc::Global;
use std::io;
use std::net::{Net, TcpListener, TcpStream};
use std::rt::Clock;
use std::time::Duration;

/// Who is asked, where, and for how long.
#[derive(Clone, Copy)]
pub struct Call<'a> {
    /// Who is asked.
    pub peer: Peer,
    /// What people call it and its points.
    pub names: Names<'a>,
    /// Where it is asked.
    pub place: Place,
    /// The link address of the station that asks.
    pub own: u16,
    /// The link address of the station that is asked.
    pub other: u16,
    /// How long the station waits for an answer, in milliseconds; so long it is waited for the connection too.
    pub patience_ms: u64,
}

/// How tasks on a connection came to their end.
#[derive(Clone, Copy, PartialEq, Eq)]
pub enum Ended {
    /// All were done, and so many event rows came.
    Done(u64),
    /// The connection, or the other end, failed.
    Failed,
    /// A store or memory failed.
    Lost,
}

/// What became of tasks that a station asked on a connection, and what was seen of it.
#[derive(Drop)]
struct Seen {
    /// Why the tasks came to no end, if they didn't.
    gone: Option<Gone>,
    /// Whether the station was idle before it was hung up.
    idle: bool,
    /// How many event rows came.
    rows: u64,
    /// Why the station's stores or its memory first refused a call, if they did.
    cause: Option<Cause>,
    /// Why what came was refused, if it was.
    refusal: Option<Refusal>,
    /// Why the last response that came is not the one that is awaited, if one came.
    mismatch: Option<Mismatch>,
    /// What came beside frames of the station that is asked.
    strange: Option<Strange>,
    /// Whether the station had waited for too long.
    is_late: bool,
}

impl<'a> Call<'a> {
    /// The link addresses of the frames that are awaited.
    fn awaited(&self) -> Ends {
        Ends {
            source: self.other,
            dest: self.own,
        }
    }

    /// Says something of the station that is asked on standard error, with the time, for which output or setpoint it is, where that is
    /// known, and why a call failed, if one did. It has no clause: none says what standard error takes.
    pub fn say<R: Eprint + Terminal + Clock>(
        &self,
        rt: &R,
        output: Option<Thing>,
        notice: Notice,
        cause: Option<&io::Error>,
    ) {
        let line = Line {
            peer: self.peer,
            names: self.names,
            place: self.place,
            awaited: self.awaited(),
            patience_ms: self.patience_ms,
            output,
            notice,
            cause,
        };
        say(rt, &line);
    }

    /// Connects. Where that can't be done, that is kept in the account, and said where it is new. It has no clause: none says whether a
    /// peer is there.
    pub fn connect<R>(&self, rt: &R, account: &mut Account) -> Option<TcpStream>
    where
        R: Eprint + Terminal + Clock + Net<Listener = TcpListener, Stream = TcpStream>,
    {
        account.begin(rt);
        let place = self.place.address();
        let wait = Duration::from_millis(self.patience_ms);
        match TcpStream::connect_timeout(rt, &place, wait) {
            Ok(stream) => Some(stream),
            Err(cause) => {
                let trouble = Trouble::Unreached(Failing::of(cause.kind()));
                account.end(rt, self, Some(trouble), Some(&cause));
                None
            }
        }
    }

    /// Asks tasks on a connection, relays controls, and hangs the station up. Where what came is refused, nothing more is awaited. What
    /// is new of it is kept in the account and said on standard error. On a connection that can't be prepared nothing is asked, and the
    /// station is as it was.
    pub fn ask<S: Asker + Living, R: AllocGlobal + Eprint + Terminal + Clock>(
        &self,
        rt: &R,
        station: &mut S,
        tasks: &[Task],
        stream: &TcpStream,
        account: &mut Account,
    ) -> Ended
        ensures kept { S.kept station.new ≡ S.kept station.old }
        ensures held { S.honest station.new → S.honest station.old }
        ensures asks { S.honest station.new → ((result ≡ told.Failed) × (S.state station.new ≡ S.state station.old))
            ⊎ AsksOn (ways S.opens S.receives S.asking S.life) S.hung_up_of (S.state station.old) result (S.state station.new) }
    {
        match self.prepare(stream) {
            Ok(()) => self.ask_on(rt, station, tasks, stream, account),
            Err(cause) => {
                let trouble = Trouble::Unreached(Failing::of(cause.kind()));
                account.end(rt, self, Some(trouble), Some(&cause));
                Ended::Failed
            }
        }
    }

    /// The same on a connection that is prepared.
    fn ask_on<S: Asker + Living, R: AllocGlobal + Eprint + Terminal + Clock>(
        &self,
        rt: &R,
        station: &mut S,
        tasks: &[Task],
        stream: &TcpStream,
        account: &mut Account,
    ) -> Ended
        ensures kept { S.kept station.new ≡ S.kept station.old }
        ensures held { S.honest station.new → S.honest station.old }
        ensures asks { S.honest station.new → AsksOn (ways S.opens S.receives S.asking S.life) S.hung_up_of (S.state station.old) result (S.state station.new) }
    {
        let seen = self.ask_seen(rt, station, tasks, stream, account);
        account.happens(rt, self, &Happening::Closed);
        let ended = self.tell(rt, account, &seen);
        account.heard(rt, self, seen.strange);
        ended
    }

    /// The link of the station that asks.
    fn link(&self, alloc: Global) -> Link
        ensures { result ≡ new_link (new_port self.now.own self.now.other true) }
    {
        Link::new(alloc, Port::new(self.own, self.other, true))
    }

    /// Asks tasks on a connection, while it is seen what becomes of them, and hangs the station up, once.
    fn ask_seen<S: Asker + Living, R: AllocGlobal + Eprint + Terminal + Clock>(
        &self,
        rt: &R,
        station: &mut S,
        tasks: &[Task],
        stream: &TcpStream,
        account: &mut Account,
    ) -> Seen
        ensures kept { S.kept station.new ≡ S.kept station.old }
        ensures held { S.honest station.new → S.honest station.old }
        ensures leads { S.honest station.new → LeadsToEnd (ways S.opens S.receives S.asking S.life) S.hung_up_of (S.state station.old) result.idle (S.state station.new) }
    {
        let mut room = StepRoom::new(rt.alloc());
        let mut link = self.link(rt.alloc());
        let mut witness = Witness::new(rt, *self, account);
        let mut talk = Talk::new(rt, stream, self.awaited(), tasks);
        let asked = talk.ask(station, &mut link, &mut room, &mut witness);
        let idle = station.idle();
        station.hung_up();
        Seen {
            gone: asked.err(),
            idle,
            rows: talk.rows,
            cause: witness.cause,
            refusal: witness.refusal,
            mismatch: witness.exchange.mismatch,
            strange: talk.heard.strange(),
            is_late: witness.is_late,
        }
    }

    /// How tasks ended, by what was seen of the connection. What is new of it is said on standard error.
    fn tell<R: Eprint + Terminal + Clock>(
        &self,
        rt: &R,
        account: &mut Account,
        seen: &Seen,
    ) -> Ended
        ensures { IsTold seen.now.idle result }
    {
        if let Some(cause) = seen.cause {
            say(rt, &lines::Line::Failed(cause));
            return Ended::Lost;
        }
        match &seen.gone {
            None => self.end(rt, account, seen),
            Some(gone) => self.fail(rt, account, gone),
        }
    }

    /// Sends what is written at once, and ends writes that stand still.
    fn prepare(&self, stream: &TcpStream) -> io::Result<()> {
        stream.set_nodelay(true)?;
        stream.set_write_timeout(Some(Duration::from_millis(self.patience_ms)))
    }

    /// How tasks ended where the connection failed in nothing, by whether the station was idle at its end. Why it wasn't, or why what
    /// came was refused, is kept in the account, and said where it is new.
    fn end<R: Eprint + Terminal + Clock>(&self, rt: &R, account: &mut Account, seen: &Seen) -> Ended
        ensures { IsTold seen.now.idle result }
    {
        let trouble = Trouble::of(
            seen.refusal,
            seen.mismatch,
            seen.strange,
            seen.idle,
            seen.is_late,
        );
        account.end(rt, self, trouble, None);
        if seen.idle {
            Ended::Done(seen.rows)
        } else {
            Ended::Failed
        }
    }

    /// Keeps in the account why the tasks came to no end, says it where it is new, and tells how they ended.
    fn fail<R: Eprint + Terminal + Clock>(
        &self,
        rt: &R,
        account: &mut Account,
        gone: &Gone,
    ) -> Ended
        ensures memory { gone.now ≡ why.Memory → result ≡ told.Lost }
        ensures undone { (is_idle : Bool) → IsTold is_idle result }
    {
        let trouble = match gone {
            Gone::Memory => {
                say(rt, &lines::Line::Failed(Cause::Memory));
                return Ended::Lost;
            }
            Gone::Unread(cause) => Trouble::Unread(Failing::of(cause.kind())),
            Gone::Unwritten(cause) => Trouble::Unwritten(failing(cause.as_ref())),
            Gone::Endless => Trouble::Endless,
        };
        account.end(rt, self, Some(trouble), gone.cause());
        Ended::Failed
    }
}

/// How a call failed, as far as it is known.
fn failing(cause: Option<&io::Error>) -> Failing {
    match cause {
        Some(cause) => Failing::of(cause.kind()),
        None => Failing::Other,
    }
}
