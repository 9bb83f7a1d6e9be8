//! The polls of a centre over TCP: one, or one after the other by the clock.

use crate::accounts::{above, no_memory};
use crate::lines::{Line, Of, Rows};
use crate::sites::Target;
use dnp_concentrator::{Centre, Plan};
use dnp_controls::Book;
use dnp_eventbuf::JournalStore;
use dnp_master::{Classes, Task};
use dnp_objects::Command;
use dnp_tcp::{Account, Call, Ended, Names, Peer, Thing, exit, moment, say, unprinted};
use dnp_terminal::Terminal;
use std::net::{Net, TcpListener, TcpStream};
use std::process::ExitCode;
use std::rt::Clock;
use std::time::Duration;

/// What the centre asks: that the restart bit is cleared, and then all events, class by class, and what all points read.
const TASKS: [Task; 2] = [
    Task::ClearRestart,
    Task::Poll(Classes([true, true, true, true])),
];

/// How many polls there are, and when they begin.
#[derive(Clone, Copy)]
pub enum PollPace {
    /// One, whose failure is the program's.
    Once,
    /// One after the other: one that fails is said, and the next one comes.
    ByClock {
        /// From the beginning of a poll to that of the next one, in milliseconds.
        every_ms: u64,
        /// How many there are; none where there is no end.
        polls: Option<u64>,
    },
}

/// The polls of a centre: whom it asks, and when.
#[derive(Clone, Copy)]
pub(crate) struct Polls<'p> {
    /// The plan.
    pub plan: &'p Plan,
    /// Where the concentrator is asked.
    pub concentrator: Target,
    /// What people call the stations and their points.
    pub names: Names<'p>,
    /// How many polls there are, and when they begin.
    pub pace: PollPace,
}

impl<'p> Polls<'p> {
    /// Issues a control, where there is one, and asks the concentrator. What becomes of a control is said as it is known, and at last that
    /// the one that was issued is pending, where it is. Where something fails, the exit status is told.
    pub(crate) fn run<J: JournalStore, B: Book, R>(
        &self,
        rt: &R,
        centre: &mut Centre<J, B>,
        control: Option<&(u8, Command)>,
    ) -> Result<(), ExitCode>
    where
        R: AllocGlobal
            + Print
            + Eprint
            + Terminal
            + Clock
            + Net<Listener = TcpListener, Stream = TcpStream>,
    {
        let Some(mut account) = above(rt.alloc(), self.plan) else {
            return Err(no_memory(rt));
        };
        let issued = self.issue_given(rt, centre, control)?;
        let done = match self.pace {
            PollPace::Once => match self.ask(rt, centre, &mut account) {
                Ok(Ended::Done(_)) => Ok(()),
                Ok(Ended::Failed | Ended::Lost) => Err(ExitCode::from(exit::FAULT)),
                Err(status) => Err(status),
            },
            PollPace::ByClock { every_ms, polls } => {
                let count = polls.unwrap_or(u64::MAX);
                self.go_on(rt, centre, &mut account, every_ms, count)
            }
        };
        if let Some(id) = issued
            && is_pending(rt, centre.book(), id)
        {
            say(rt, &Line::Pending(id));
        }
        done
    }

    /// Issues a control, if there is one, and gives its number in the book. If it can't be issued, that is said, and the exit status is told.
    pub(crate) fn issue_given<J: JournalStore, B: Book, R: AllocGlobal + Eprint + Terminal + Clock>(
        &self,
        rt: &R,
        centre: &mut Centre<J, B>,
        control: Option<&(u8, Command)>,
    ) -> Result<Option<u64>, ExitCode> {
        match control {
            Some((substation, control)) => Ok(Some(issue(
                rt,
                centre,
                self.names,
                *substation,
                control,
            )?)),
            None => Ok(None),
        }
    }

    /// Asks the concentrator so often, each time so long after the time before, in milliseconds, or at once where that took
    /// longer. Where a store or memory fails, the exit status is told.
    fn go_on<J: JournalStore, B: Book, R>(
        &self,
        rt: &R,
        centre: &mut Centre<J, B>,
        account: &mut Account,
        every_ms: u64,
        count: u64,
    ) -> Result<(), ExitCode>
    where
        R: AllocGlobal
            + Print
            + Eprint
            + Terminal
            + Clock
            + Net<Listener = TcpListener, Stream = TcpStream>,
    {
        let mut now = 0u64;
        let mut next = 0u64;
        for _ in 0..count {
            now = moment(rt, now);
            rt.sleep(Duration::from_millis(next.saturating_sub(now)));
            now = moment(rt, now);
            next = now.saturating_add(every_ms);
            if self.ask(rt, centre, account)? == Ended::Lost {
                return Err(ExitCode::from(exit::FAULT));
            }
        }
        Ok(())
    }

    /// Asks the concentrator, prints how many rows the journal grew by, and tells how that ended. Where the rows can't be
    /// printed, the exit status is told.
    fn ask<J: JournalStore, B: Book, R>(
        &self,
        rt: &R,
        centre: &mut Centre<J, B>,
        account: &mut Account,
    ) -> Result<Ended, ExitCode>
    where
        R: AllocGlobal
            + Print
            + Eprint
            + Terminal
            + Clock
            + Net<Listener = TcpListener, Stream = TcpStream>,
    {
        let call = Call {
            peer: Peer::Concentrator,
            names: self.names,
            place: self.concentrator.place,
            own: self.concentrator.awaited.dest,
            other: self.concentrator.awaited.source,
            patience_ms: self.plan.times.response_ms,
        };
        let before = centre.journal().count();
        let Some(stream) = call.connect(rt, account) else {
            return Ok(Ended::Failed);
        };
        let ended = call.ask(rt, centre, &TASKS, &stream, account);
        let rows = Rows(centre.journal().count().saturating_sub(before));
        if let Err(cause) = println!(rt; "{rows}") {
            return Err(unprinted(rt, &cause));
        }
        Ok(ended)
    }
}

/// Issues a control, and says on standard error by which number it stands in the book. Where it can't be issued, that is
/// said, and the exit status is told.
fn issue<J: JournalStore, B: Book, R: AllocGlobal + Eprint + Terminal + Clock>(
    rt: &R,
    centre: &mut Centre<J, B>,
    names: Names<'_>,
    substation: u8,
    control: &Command,
) -> Result<u64, ExitCode> {
    match centre.issue(rt.alloc(), substation, control) {
        Ok(id) => {
            let peer = Peer::Substation(substation);
            let of = Of {
                substation,
                station: names.of(Thing::Station(peer)),
                control,
                output: names.of(Thing::of_command(peer, control)),
            };
            say(rt, &Line::Issued(id, of));
            Ok(id)
        }
        Err(fault) => {
            say(rt, &Line::NotIssued(fault));
            Err(ExitCode::from(exit::FAULT))
        }
    }
}

/// Whether the control with this number is pending in the book.
fn is_pending<B: Book, R: AllocGlobal>(rt: &R, book: &mut B, id: u64) -> bool {
    match book.rows(rt.alloc(), id.saturating_sub(1), 1) {
        Ok(entries) => match entries.first() {
            Some(entry) => entry.id == id && entry.state.is_pending(),
            None => false,
        },
        Err(_) => false,
    }
}
