//! What looks on while a station asks another one on a connection: it says what becomes of controls as it is known, and ends the
//! connection where what came was refused.

use crate::account::Account;
use crate::asking::Call;
use crate::watcher::Watcher;
use dnp_concentrator::{Cause, RelayedStep};
use dnp_controls::BookFault;
use dnp_master::{Outcome, Task};
use dnp_notices::{Exchange, Happening, Refusal};
use dnp_streams::StationFault;
use dnp_terminal::Terminal;
use std::rt::Clock;

/// What looks on while a station asks another one.
#[derive(Drop)]
pub(crate) struct Witness<'w, R> {
    /// What is written to, and what tells the time.
    pub rt: &'w R,
    /// Who is asked, where, and for how long.
    pub call: Call<'w>,
    /// What is known of the other station.
    pub account: &'w mut Account,
    /// Why what came was refused first, if it was.
    pub refusal: Option<Refusal>,
    /// Whether a poll was asked last, and no control.
    pub is_poll: bool,
    /// What is awaited, and what came last in its place.
    pub exchange: Exchange,
    /// Why the stores or the memory of the station first refused a call, if they did.
    pub cause: Option<Cause>,
    /// Whether it closed the connection since time had passed.
    pub is_late: bool,
}

impl<'w, R: Eprint + Terminal + Clock> Witness<'w, R> {
    /// Nothing was seen yet.
    pub(crate) fn new(rt: &'w R, call: Call<'w>, account: &'w mut Account) -> Witness<'w, R> {
        Witness {
            rt,
            call,
            account,
            refusal: None,
            is_poll: false,
            exchange: Exchange::IDLE,
            cause: None,
            is_late: false,
        }
    }

    /// Keeps why stores or memory refused a call.
    fn keep(&mut self, cause: Cause) {
        if self.cause.is_none() {
            self.cause = Some(cause);
        }
    }

    /// Something happened to the control that is relayed.
    fn happens(&mut self, happening: Happening) {
        self.account.happens(self.rt, &self.call, &happening);
    }

    /// A command of the control that is relayed was sent, by a request with these octets.
    fn sends(&mut self, happening: Happening, request: &[u8]) {
        self.is_poll = false;
        self.exchange = Exchange::asked(request);
        self.account.commands(&self.call, request);
        self.happens(happening);
    }
}

impl<'w, R: Eprint + Terminal + Clock> Watcher for Witness<'w, R> {
    fn refused(&mut self, fault: StationFault) {
        match fault {
            StationFault::Message => {}
            StationFault::Cause(cause) => self.keep(cause),
        }
    }

    fn not_taken(&mut self, octets: &[u8]) {
        if self.refusal.is_none() {
            self.refusal = self.account.refusal_of(octets);
        }
    }

    fn ticked(&mut self, closed: bool) {
        self.is_late = closed;
    }

    fn answered(&mut self, octets: &[u8]) {
        self.exchange = self.exchange.came(octets);
    }

    fn asked(&mut self, task: &Task, request: &[u8]) {
        self.is_poll = matches!(task, Task::Poll(_));
        self.exchange = Exchange::asked(request);
    }

    fn relayed(&mut self, step: &RelayedStep, request: &[u8]) {
        match step {
            RelayedStep::Selecting(id) => self.sends(Happening::SelectSent(*id), request),
            RelayedStep::Sent(id) => self.sends(Happening::OperateSent(*id), request),
            RelayedStep::Nothing | RelayedStep::Finished(_, _) => {}
        }
    }

    fn came_out(&mut self, outcome: &Outcome) {
        self.account.answers(self.rt);
        match outcome {
            Outcome::Done(iin) => {
                if self.is_poll {
                    self.account.indicates(self.rt, &self.call, *iin);
                }
            }
            Outcome::Control(status) => self.happens(Happening::Answered(*status)),
            Outcome::Unlike => self.happens(Happening::Unlike),
        }
    }

    fn not_relayed(&mut self, fault: BookFault) {
        match fault {
            BookFault::NoControl | BookFault::NotPending => {}
            fault => self.keep(Cause::from(fault)),
        }
    }
    /// Nothing that comes later is awaited where what came was refused.
    fn has_enough(&self) -> bool {
        self.refusal.is_some()
    }
}
