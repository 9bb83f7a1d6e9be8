//! Rounds of tasks on a connection, asked by a master without a plan, which shows the rows on standard output.

ghost use Rattle.std.specs.Prelude.{◌≡◌, ◌⊎◌};
ghost use Rattle.std.specs.Process.{exit_status};
ghost use Rattle.dnp_tcp.specs.steps.Rounds.{StopsBy};
ghost use Rattle.dnp_tcp.specs.declared.rounds.Ended.TheVariants.{Stopped};

use crate::exit::{DONE, FAULT, REFUSED};
use crate::fault::unwritten;
use crate::following::Following;
use crate::gone::Gone;
use crate::lines::{Failure, Open, Stop};
use crate::pace::Pace;
use crate::screen::{Form, Screen, print_ends};
use crate::style::Style;
use crate::talk::Talk;
use dnp_line::Port;
use dnp_master::{Classes, Task};
use dnp_notices::{Ends, Exchange, Heard, Refusal};
use dnp_poll::{Instead, PollFault, Poller, Show, TaskEnd};
use dnp_streams::{Link, Station, StepRoom};
use std::alloc::Global;
use std::net::TcpStream;
use std::process::ExitCode;
use std::rt::Clock;
use std::time::Duration;
use std::{io, thread};

/// Which events are to come unasked, and for how long they are listened to.
#[derive(Clone, Copy)]
pub struct Listen {
    /// The classes of the events, 1 to 3.
    pub classes: Classes,
    /// For how long, in milliseconds; `u64::MAX` is without an end.
    pub ms: u64,
}

/// Who is asked in rounds, by whom, and how.
#[derive(Clone, Copy)]
pub struct RoundSettings<'a> {
    /// The outstation's host and port.
    pub place: &'a str,
    /// The link address of the master.
    pub own: u16,
    /// The link address of the outstation.
    pub peer: u16,
    /// How long to wait between two rounds, in milliseconds.
    pub repeat_ms: u64,
    /// How many rounds there are.
    pub count: u64,
    /// Whether fragments are confirmed.
    pub confirms: bool,
    /// How long the connection and each fragment is awaited, in milliseconds.
    pub timeout_ms: u64,
    /// Whether lines are JSON objects.
    pub json: bool,
    /// Whether each frame is said on standard error, by its octets.
    pub hex: bool,
    /// Whether each line begins with the time.
    pub times: bool,
    /// How rows are shown.
    pub form: Form,
    /// What is sent in place of the requests of tasks.
    pub instead: Instead,
    /// What is listened to after the rounds, if anything is.
    pub listen: Option<Listen>,
}

/// The rounds on a connection.
#[derive(Clone, Copy)]
pub struct Rounds<'w, 's, 't> {
    /// What is said of them.
    pub words: &'w RoundSettings<'w>,
    /// The connection.
    pub stream: &'s TcpStream,
    /// The tasks of each round.
    pub tasks: &'t [Task],
}

/// How a round came to its end.
#[derive(Clone, Copy, PartialEq, Eq)]
enum Ended {
    /// All was asked and answered; whether the outstation did all of it.
    Answered(bool),
    /// It can't go on, with this exit status.
    Stopped(u8),
}

/// A master's end of the connection.
#[derive(Drop)]
struct Line {
    /// The link.
    link: Link,
    /// The room of its steps.
    room: StepRoom,
}

impl Line {
    /// The end of a master with this port, over which nothing went.
    fn new(alloc: Global, port: Port) -> Line {
        Line {
            link: Link::new(alloc, port),
            room: StepRoom::new(alloc),
        }
    }
}

/// Whether the outstation did all that it was asked.
fn are_done(ends: &[TaskEnd]) -> bool {
    ends.iter().all(|end| end.is_done())
}

/// Whether the outstation was asked to send events unasked, and did as it was asked.
fn is_enabled(ends: &[TaskEnd]) -> bool {
    ends.iter()
        .any(|end| matches!(end.task, Task::Enable(_)) && end.is_done())
}

/// Whether no answer came to what was asked last, and nothing else stopped the poll.
fn is_unanswered<S: Show>(poller: &Poller<S>) -> bool {
    match poller.fault() {
        Some(PollFault::Silent) => true,
        Some(_) => false,
        None => poller.is_awaiting(),
    }
}

/// Whether a write failed since nothing went in time.
fn is_late(cause: &io::Error) -> bool {
    matches!(
        cause.kind(),
        io::ErrorKind::WouldBlock | io::ErrorKind::TimedOut
    )
}

/// Why a poll stopped at what is no response: for this reason, where it is known, and else by this fault.
fn refused<'a>(fault: PollFault, refusal: Option<Refusal>) -> Stop<'a> {
    match refusal {
        Some(refusal) => Stop::Refused(refusal),
        None => Stop::Fault(fault),
    }
}

/// The output that a task operates, if it does so: by OPERATE, or, where commands go so, by DIRECT_OPERATE.
fn operated(task: &Task, is_direct: bool) -> Option<u16> {
    match task {
        Task::Operate(command) => Some(command.index()),
        Task::Select(command) if is_direct => Some(command.index()),
        _ => None,
    }
}

/// The output whose OPERATE or DIRECT_OPERATE was sent and is not answered, if there is one.
fn open_of<S: Show>(poller: &Poller<S>, is_direct: bool) -> Open {
    let is_answered = poller
        .ends()
        .iter()
        .any(|end| operated(&end.task, is_direct).is_some());
    match poller.asked() {
        Some(task) if !is_answered => Open(operated(&task, is_direct)),
        _ => Open(None),
    }
}

impl<'w, 's, 't> Rounds<'w, 's, 't> {
    /// Asks the tasks in each round, listens then if it is to, and tells the exit status. What goes wrong is said on standard error.
    pub fn ask_all<R>(&self, rt: &R) -> ExitCode
    where
        R: AllocGlobal + Print + Eprint + Clock,
        ensures { (exit_status result ≡ DONE) ⊎ (exit_status result ≡ REFUSED) ⊎ (exit_status result ≡ FAULT) }
    {
        let pace = Pace::new(rt);
        let style = Style::of(self.words);
        let screen = Screen::new(rt, style, &pace, self.tasks.len());
        let (confirms, wait) = (self.words.confirms, self.words.timeout_ms);
        let instead = self.words.instead;
        let mut poller = Poller::new(rt.alloc(), confirms, wait, instead, screen);
        let port = Port::new(self.words.own, self.words.peer, true);
        let mut line = Line::new(rt.alloc(), port);
        let mut following = Following::new(rt, style);
        let ended = self.ask_each(rt, &mut poller, &mut line, &mut following, &pace);
        following.end();
        match ended {
            Ended::Answered(true) => ExitCode::from(DONE),
            Ended::Answered(false) => ExitCode::from(REFUSED),
            Ended::Stopped(status) => ExitCode::from(status),
        }
    }

    /// Asks the tasks in each round, and listens then, if it is to.
    fn ask_each<'p, 'c, 'd, R>(
        &self,
        rt: &R,
        poller: &mut Poller<Screen<'p, 'c, R>>,
        line: &mut Line,
        following: &mut Following<'d, R>,
        pace: &'p Pace<'c, R>,
    ) -> Ended
    where
        R: AllocGlobal + Print + Eprint + Clock,
        ensures { StopsBy result }
    {
        let mut is_done = true;
        for round in 0..self.words.count {
            if round > 0 {
                thread::sleep(rt, Duration::from_millis(self.words.repeat_ms));
            }
            if let Err(cause) = poller.sink().begin(round + 1) {
                let _status = unwritten(rt, &cause);
                return Ended::Stopped(FAULT);
            }
            match self.ask(rt, poller, line, following, pace) {
                Ended::Answered(done) => is_done = is_done && done,
                Ended::Stopped(status) => return Ended::Stopped(status),
            }
        }
        match self.listen(rt, poller, line, following, pace) {
            Ended::Answered(done) => Ended::Answered(is_done && done),
            Ended::Stopped(status) => Ended::Stopped(status),
        }
    }

    /// The same rounds of these tasks.
    fn of<'u>(&self, tasks: &'u [Task]) -> Rounds<'w, 's, 'u> {
        Rounds {
            words: self.words,
            stream: self.stream,
            tasks,
        }
    }

    /// Listens to what comes unasked, if it is to, and then has the outstation send nothing unasked any more.
    fn listen<'p, 'c, 'd, R>(
        &self,
        rt: &R,
        poller: &mut Poller<Screen<'p, 'c, R>>,
        line: &mut Line,
        following: &mut Following<'d, R>,
        pace: &'p Pace<'c, R>,
    ) -> Ended
    where
        R: AllocGlobal + Print + Eprint + Clock,
        ensures { StopsBy result }
    {
        let Some(listen) = self.words.listen else {
            return Ended::Answered(true);
        };
        if !is_enabled(poller.ends()) {
            return Ended::Answered(true);
        }
        following.until = Some(pace.now().saturating_add(listen.ms));
        let heard = self.of(&[]).ask(rt, poller, line, following, pace);
        following.until = None;
        if let Ended::Stopped(status) = heard {
            return Ended::Stopped(status);
        }
        if !following.is_over {
            self.say(rt, Stop::EndedUnasked);
            return Ended::Stopped(FAULT);
        }
        following.is_over = false;
        let last = [Task::Disable(listen.classes)];
        self.of(&last).ask(rt, poller, line, following, pace)
    }

    /// Asks the tasks of a round, or listens, and prints how they came out.
    fn ask<'p, 'c, 'd, R>(
        &self,
        rt: &R,
        poller: &mut Poller<Screen<'p, 'c, R>>,
        line: &mut Line,
        following: &mut Following<'d, R>,
        pace: &'p Pace<'c, R>,
    ) -> Ended
    where
        R: AllocGlobal + Print + Eprint + Clock,
        ensures { StopsBy result }
    {
        poller.forget_ends();
        following.begin();
        let mut talk = Talk::new(pace, self.stream, self.awaited(), self.tasks);
        if following.until.is_some() {
            talk.turns = u64::MAX;
        }
        let asked = talk.ask(
            &mut *poller,
            &mut line.link,
            &mut line.room,
            &mut *following,
        );
        if asked.is_err() {
            poller.hung_up();
        }
        if let Some(cause) = following.cause.as_ref() {
            let _status = unwritten(rt, cause);
            return Ended::Stopped(FAULT);
        }
        if let Err(cause) = print_ends(rt, Style::of(self.words), poller.ends()) {
            let _status = unwritten(rt, &cause);
            return Ended::Stopped(FAULT);
        }
        if is_unanswered(poller) {
            self.say_other(rt, talk.heard, following.exchange);
        }
        self.judge(rt, poller, following.refusal, asked.err())
    }

    /// How a round ended, by why what came is no response, where that stopped it, and by why its tasks came to no end, if they didn't.
    fn judge<'p, 'c, R>(
        &self,
        rt: &R,
        poller: &mut Poller<Screen<'p, 'c, R>>,
        refusal: Option<Refusal>,
        gone: Option<Gone>,
    ) -> Ended
    where
        R: AllocGlobal + Print + Eprint + Clock,
        ensures { StopsBy result }
    {
        match (poller.fault(), gone) {
            (Some(fault), _) => self.stop(rt, poller, fault, refusal),
            (None, None) => self.end(rt, &*poller),
            (None, Some(gone)) => self.fail(rt, &*poller, &gone),
        }
    }

    /// Says why the poll stopped.
    fn stop<'p, 'c, R>(
        &self,
        rt: &R,
        poller: &mut Poller<Screen<'p, 'c, R>>,
        fault: PollFault,
        refusal: Option<Refusal>,
    ) -> Ended
    where
        R: AllocGlobal + Print + Eprint + Clock,
        ensures { StopsBy result }
    {
        match fault {
            PollFault::Answer(..) => {
                self.say(rt, refused(fault, refusal));
                Ended::Stopped(REFUSED)
            }
            PollFault::Silent => {
                let open = self.open(poller);
                self.say(rt, Stop::Silent(self.words.timeout_ms, open));
                Ended::Stopped(FAULT)
            }
            PollFault::NotShown => {
                if let Some(cause) = poller.sink().cause() {
                    let _status = unwritten(rt, cause);
                }
                Ended::Stopped(FAULT)
            }
            PollFault::Memory => {
                let failure = Failure::Own(fault);
                let _ = eprintln!(rt; "{failure}");
                Ended::Stopped(FAULT)
            }
        }
    }

    /// The output that may have been operated without an answer, if there is one.
    fn open<S: Show>(&self, poller: &Poller<S>) -> Open {
        open_of(poller, self.words.instead.direct)
    }

    /// The link addresses of the frames that are awaited.
    fn awaited(&self) -> Ends
        ensures { (result.source ≡ self.now.words.now.peer) × (result.dest ≡ self.now.words.now.own) }
    {
        Ends {
            source: self.words.peer,
            dest: self.words.own,
        }
    }

    /// Says what came where an answer is still awaited, and is none to it: frames of other link addresses, no frame, or a response that is
    /// not the awaited one. It has no clause: none says what standard error takes.
    fn say_other<R: Eprint>(&self, rt: &R, heard: Heard, exchange: Exchange) {
        if let Some(strange) = heard.strange() {
            self.say(rt, Stop::Strange(strange, self.awaited()));
        }
        if let Some(mismatch) = exchange.mismatch {
            self.say(rt, Stop::Unlike(mismatch));
        }
    }

    /// Says why the rounds stop. It has no clause: none says what standard error takes.
    fn say<R: Eprint>(&self, rt: &R, why: Stop<'_>) {
        let failure = Failure::Rounds(self.words.place, why);
        let _ = eprintln!(rt; "{failure}");
    }

    /// How a round ended in which nothing failed: where an answer is still awaited, the outstation has ended the connection.
    fn end<S: Show, R: Eprint>(&self, rt: &R, poller: &Poller<S>) -> Ended
        ensures { StopsBy result }
    {
        if poller.is_awaiting() {
            self.say(rt, Stop::Ended(self.open(poller)));
            return Ended::Stopped(FAULT);
        }
        Ended::Answered(are_done(poller.ends()))
    }

    /// Says why the tasks came to no end.
    fn fail<S: Show, R: Eprint>(&self, rt: &R, poller: &Poller<S>, gone: &Gone) -> Ended
        ensures { result ≡ Stopped FAULT }
    {
        let open = self.open(poller);
        let fault = gone.fault();
        let why = match gone.cause() {
            Some(cause) if is_late(cause) => Stop::Late(fault, self.words.timeout_ms, open),
            cause => Stop::Broken(fault, cause, open),
        };
        self.say(rt, why);
        Ended::Stopped(FAULT)
    }
}
