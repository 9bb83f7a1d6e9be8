//! What looks on while rounds of tasks are asked: what is awaited and for how long, which octets go over the connection, and what
//! comes unasked.

use crate::clock::utc;
use crate::lines::{Passed, Wait, Waits, Way};
use crate::screen::print_unasked;
use crate::style::Style;
use crate::tape::Tape;
use crate::watcher::Watcher;
use dnp_appfragment::{Function, Response, read_response};
use dnp_master::Task;
use dnp_notices::{Exchange, Refusal, form_refusal};
use dnp_poll::{Patience, Waiting};
use std::alloc::Global;
use std::io;
use std::rt::Clock;

/// The octets of both ways that were not said yet.
#[derive(Drop)]
struct Tapes {
    /// Those that were sent.
    sent: Tape,
    /// Those that came.
    received: Tape,
}

impl Tapes {
    /// Nothing went over the connection.
    fn new(alloc: Global) -> Tapes {
        Tapes {
            sent: Tape::new(alloc),
            received: Tape::new(alloc),
        }
    }
}

/// What looks on while the rounds ask.
#[derive(Drop)]
pub(crate) struct Following<'c, R> {
    /// Where something is said, and what tells the time.
    rt: &'c R,
    /// Who is asked, and how.
    words: Style,
    /// What is awaited, and what came last in its place.
    pub exchange: Exchange,
    /// The function of the request that was sent last.
    function: Function,
    /// Why what came first that is no response is none, if such came.
    pub refusal: Option<Refusal>,
    /// Which wait was said last.
    patience: Patience,
    /// The octets that were not said yet.
    tapes: Tapes,
    /// Until when what comes unasked is listened to, in milliseconds, if it is.
    pub until: Option<u64>,
    /// Whether that moment has come.
    pub is_over: bool,
    /// Why a line was lost, if one was.
    pub cause: Option<io::Error>,
}

impl<'c, R: AllocGlobal + Print + Eprint + Clock> Following<'c, R> {
    /// Nothing was asked, and nothing came.
    pub(crate) fn new(rt: &'c R, words: Style) -> Self {
        Following {
            rt,
            words,
            exchange: Exchange::IDLE,
            function: Function::Read,
            refusal: None,
            patience: Patience::NEW,
            tapes: Tapes::new(rt.alloc()),
            until: None,
            is_over: false,
            cause: None,
        }
    }

    /// A round begins.
    pub(crate) fn begin(&mut self) {
        self.exchange = Exchange::IDLE;
        self.refusal = None;
    }

    /// Says the octets that went over the connection and belong to no frame so far. The connection is at its end.
    pub(crate) fn end(&mut self) {
        say_rest(self.rt, Way::Sent, &mut self.tapes.sent);
        say_rest(self.rt, Way::Received, &mut self.tapes.received);
    }

    /// Says that a response is awaited so.
    fn say_waiting(&self, waiting: Waiting) {
        let Some(awaited) = self.exchange.awaited else {
            return;
        };
        let wait = Wait {
            source: self.words.peer,
            function: self.function,
            awaited,
            since: utc(self.rt).saturating_sub(waiting.ms),
            left_ms: waiting.left_ms,
        };
        let line = Waits(wait);
        let _ = eprintln!(self.rt; "{line}");
    }

    /// Prints the indications of a response that nobody asked for, if such are listened to.
    fn hear_unasked(&mut self, response: &Response<'_>) {
        if !self.words.listens || !is_unasked(response) {
            return;
        }
        if let Err(cause) = print_unasked(self.rt, self.words, response.iin) {
            self.cause = Some(cause);
            self.is_over = true;
        }
    }
}

/// Whether a response is a whole one that nobody asked for.
fn is_unasked(response: &Response<'_>) -> bool {
    let control = response.control;
    matches!(response.function, Function::UnsolicitedResponse)
        && control.uns
        && control.fir
        && control.fin
}

/// Says octets. It has no clause: none says what standard error takes.
fn say_passed<R: Eprint + Clock>(rt: &R, way: Way, is_frame: bool, octets: &[u8]) {
    if octets.is_empty() {
        return;
    }
    let line = Passed {
        utc: utc(rt),
        way,
        is_frame,
        octets,
    };
    let _ = eprintln!(rt; "{line}");
}

/// Says the octets of a way that are held, which belong to no frame.
fn say_rest<R: Eprint + Clock>(rt: &R, way: Way, tape: &mut Tape) {
    say_passed(rt, way, false, tape.held());
    tape.cut();
}

/// Takes the next octet of a way. Where a frame ends with it, that is said, and what stands before it in no frame.
fn pass<R: Eprint + Clock>(rt: &R, way: Way, tape: &mut Tape, octet: u8) {
    match tape.take(octet) {
        Ok(Some(before)) => {
            let held = tape.held();
            say_passed(rt, way, false, held.get(..before).unwrap_or(&[]));
            say_passed(rt, way, true, held.get(before..).unwrap_or(&[]));
            tape.cut();
        }
        Ok(None) if !tape.is_full() => {}
        Ok(None) | Err(_) => say_rest(rt, way, tape),
    }
}

/// Takes the next octets of a way.
fn pass_all<R: Eprint + Clock>(rt: &R, way: Way, tape: &mut Tape, octets: &[u8]) {
    for octet in octets {
        pass(rt, way, tape, *octet);
    }
}

impl<'c, R: AllocGlobal + Print + Eprint + Clock> Watcher for Following<'c, R> {
    fn answered(&mut self, octets: &[u8]) {
        self.exchange = self.exchange.came(octets);
        match read_response(octets) {
            Ok(response) => self.hear_unasked(&response),
            Err(fault) => {
                if self.refusal.is_none() {
                    self.refusal = Some(form_refusal(fault, octets));
                }
            }
        }
    }

    fn asked(&mut self, _task: &Task, request: &[u8]) {
        self.exchange = Exchange::asked(request);
        if let [_, octet, ..] = request
            && let Some(function) = Function::of_octet(*octet)
        {
            self.function = function;
        }
    }

    fn sent(&mut self, octets: &[u8]) {
        if self.words.hex {
            pass_all(self.rt, Way::Sent, &mut self.tapes.sent, octets);
        }
    }

    fn read(&mut self, octets: &[u8]) {
        if self.words.hex {
            pass_all(self.rt, Way::Received, &mut self.tapes.received, octets);
        }
    }

    fn waits(&mut self, now: u64, ends: Option<u64>) {
        if let Some(until) = self.until
            && until <= now
        {
            self.is_over = true;
        }
        if let Some(ends) = ends
            && let Some(waiting) = self.patience.at(now, ends, self.words.timeout_ms)
        {
            self.patience = Patience::said(ends);
            self.say_waiting(waiting);
        }
    }

    fn has_enough(&self) -> bool {
        self.is_over
    }

    fn stays(&self) -> bool {
        self.until.is_some()
    }
}
